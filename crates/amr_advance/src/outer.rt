//! How lots get the values of their ghost cells that get no mass of a patch of the level.

ghost use Rattle.std.specs.Prelude.{◌≡◌, ◌≤◌, true, None, Some, OnOk};
ghost use Rattle.std.specs.Arc.{arc_value};
ghost use Rattle.std.specs.List.{All, AllZip};
ghost use Rattle.std.specs.Option.{option_copied};
ghost use Rattle.amr_def.specs.Domain.{domain};
ghost use Rattle.amr_ghost.specs.Frames.{old_masses};
ghost use Rattle.amr_ghost.specs.Outer.{HasOuterPlaces, IsOuterSpan};
ghost use Rattle.amr_advance.specs.Outer.{HasFound, IsLent, IsReadied, IsSharedOf, KeepsAllButLent};

use crate::level::StepInput;
use amr_def::Problem;
use amr_lots::Lot;
use amr_patch::Level;
use std::alloc::{AllocError, Global};
use std::boxed::Box;
use std::sync::Arc;

/// Lends a level to a lot.
fn lend_to(lot: &mut Box<Lot>, coarser: Arc<Level, Global>)
    ensures { IsLent (Some (arc_value coarser)) lot.old lot.new }
{
    lot.workspace.outer.coarser = Some(coarser);
}

/// Lends a level to lots, all of which are to work out values by it. Some of them may have it after a refusal.
fn lend(lots: &mut [Box<Lot>], coarser: &Arc<Level, Global>) -> Result<(), AllocError>
    ensures lent { OnOk result (AllZip (IsLent (Some (arc_value coarser.now))) lots.old lots.new) }
    ensures kept { AllZip KeepsAllButLent lots.old lots.new }
{
    for k in 0..lots.len() {
        let share = Arc::try_clone(coarser)?;
        lend_to(&mut lots[k], share);
    }
    Ok(())
}

/// Takes back from a lot what was lent to it.
fn take_back_from(lot: &mut Box<Lot>)
    ensures { IsLent None lot.old lot.new }
{
    lot.workspace.outer.coarser = None;
}

/// Takes back from lots what was lent to them.
pub(crate) fn take_back(lots: &mut [Box<Lot>])
    ensures { AllZip (IsLent None) lots.old lots.new }
{
    for k in 0..lots.len() {
        take_back_from(&mut lots[k]);
    }
}

/// Works out the values of the ghost cells of a lot.
fn find_lot_values(p: &Problem, l: u32, old: Option<&Level>, lot: &mut Box<Lot>)
    requires level { l ≤ 4 }
    requires spans { All (IsOuterSpan (domain p.now l)) lot.old.value.workspace.outer.spans.items }
    requires places { HasOuterPlaces lot.old.value.workspace.outer }
    ensures { HasFound p.now l (old_masses (option_copied old.entry)) lot.old lot.new }
{
    lot.workspace.outer.find_values(p, l, old);
}

/// The same of all lots.
fn find_values(given: StepInput<'_>, lots: &mut [Box<Lot>])
    requires level { given.level ≤ 4 }
    requires spans { All (λ x. All (IsOuterSpan (domain given.problem.now given.level)) x.value.workspace.outer.spans.items) lots.old }
    requires places { All (λ x. HasOuterPlaces x.value.workspace.outer) lots.old }
    ensures { AllZip (HasFound given.entry.problem.now given.entry.level (old_masses (option_copied given.entry.old))) lots.old lots.new }
{
    for k in 0..lots.len() {
        find_lot_values(given.problem, given.level, given.old, &mut lots[k]);
    }
}

/// Lends lots the next coarser level, where it can be shared and there are several of them: each then finds the values as part of its task.
/// It answers whether it did: there may be no memory for the shares of all.
fn lend_coarser(given: StepInput<'_>, lots: &mut [Box<Lot>]) -> bool
    requires { IsSharedOf given.old given.shared }
    ensures readied { result ≡ true
        → AllZip (IsReadied given.entry.problem.now given.entry.level (old_masses (option_copied given.entry.old))) lots.old lots.new }
    ensures kept { AllZip KeepsAllButLent lots.old lots.new }
{
    let Some(coarser) = given.shared else {
        return false;
    };
    if lots.len() < 2 {
        return false;
    }
    lend(lots, coarser).is_ok()
}

/// Readies lots whose ghost cells' values are to be worked out anew: by the next coarser level, which is lent to them, in their tasks, or else
/// here.
pub(crate) fn ready_outer(given: StepInput<'_>, lots: &mut [Box<Lot>])
    requires level { given.level ≤ 4 }
    requires spans { All (λ x. All (IsOuterSpan (domain given.problem.now given.level)) x.value.workspace.outer.spans.items) lots.old }
    requires places { All (λ x. HasOuterPlaces x.value.workspace.outer) lots.old }
    requires shared { IsSharedOf given.old given.shared }
    ensures { AllZip (IsReadied given.entry.problem.now given.entry.level (old_masses (option_copied given.entry.old))) lots.old lots.new }
{
    if lend_coarser(given, lots) {
        return;
    }
    take_back(lots);
    find_values(given, lots);
}
