//! What is done with a lot in a phase without posts.

ghost use Rattle.std.specs.Prelude.{◌+◌, ◌<◌, ◌^◌};
ghost use Rattle.amr_patch.specs.Patches.{box, masses_in};
ghost use Rattle.amr_register.specs.Fields.{IsBoxAt, entry_in};
ghost use Rattle.amr_lots.specs.Corrections.{AreCorrectedBy, CanCorrect, FitsEntries, HasCorrected, IsCorrected, IsReady, MayCorrect, finer_in, register_in};
ghost use Rattle.amr_lots.specs.Duties.{HasKeptMasses, HasMadeCorrection, HasSent, IsServed, MayKeepMasses, MaySend, MayServe};

use crate::lot::{Correction, Duty, Lot};
use amr_alike::copy_patches;
use amr_ghost::pack_messages;
use amr_patch::Patch;
use amr_transfer::cover_patch;

/// Packs the masses that other lots need.
pub(crate) fn send(lot: &mut Lot)
    requires { MaySend lot.old }
    ensures { HasSent lot.old lot.new }
{
    pack_messages(&lot.patches, &mut lot.workspace.outbox);
}

/// Corrects the patch that stands so many places after the first one: each register cell gets its entry, and then each covered cell the sum
/// of the masses of its children.
fn correct_patch(correction: &Correction, k: usize, patch: &mut Patch)
    requires ready { IsReady correction.now }
    requires few { correction.now.first + k < 2 ^ 62 }
    requires place { IsBoxAt (correction.now.first + k) (box patch.old) (register_in correction.now) }
    requires fits { FitsEntries (register_in correction.now) patch.old }
    ensures { IsCorrected (masses_in (finer_in correction.now)) (entry_in (register_in correction.now)) patch.old patch.new }
{
    correction
        .register
        .reflux_patch(correction.first + k, patch);
    cover_patch(&correction.finer, correction.order, patch);
}

/// Corrects patches, one after another.
fn correct_patches(correction: &Correction, patches: &mut [Patch])
    requires { CanCorrect correction.now patches.old }
    ensures { AreCorrectedBy correction.now patches.old patches.new }
{
    for k in 0..patches.len() {
        correct_patch(correction, k, &mut patches[k]);
    }
}

/// Corrects the patches of a lot by what was lent to it.
fn correct(lot: &mut Lot)
    requires { MayCorrect lot.old }
    ensures { HasCorrected lot.old lot.new }
{
    match &lot.correction {
        Some(correction) => correct_patches(correction, &mut lot.patches),
        None => unreachable!(),
    }
}

/// Corrects the patches of a lot, and then packs the masses that other lots need for their next step.
fn make_correction(lot: &mut Lot)
    requires corrects { MayCorrect lot.old }
    requires sends { MaySend lot.old }
    ensures { HasMadeCorrection lot.old lot.new }
{
    correct(lot);
    send(lot);
}

/// Copies the masses of a lot's patches into those that keep them.
fn keep_masses(lot: &mut Lot)
    requires { MayKeepMasses lot.old }
    ensures { HasKeptMasses lot.old lot.new }
{
    copy_patches(&lot.patches, &mut lot.before);
}

/// Does what is to be done with a lot in a phase without posts.
pub fn serve(duty: Duty, lot: &mut Lot)
    requires { MayServe duty lot.old }
    ensures { IsServed duty lot.old lot.new }
{
    match duty {
        Duty::Send => send(lot),
        Duty::Correct => make_correction(lot),
        Duty::Keep => keep_masses(lot),
        Duty::Step => unreachable!(),
    }
}
