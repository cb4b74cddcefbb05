//! What a level gets after both steps of the next finer one. Where the level's patches are shared out in lots its workers give it, each to
//! the patches of a lot. (Berger and Colella 1989: the coarse level is corrected at the edges of the finer one, and under it takes the
//! finer one's values. AMReX: `Reflux`, `average_down`)

ghost use Rattle.std.specs.Prelude.{◌≡◌, ◌*◌, ◌<◌, ◌^◌, ℕ, true, false, IfOk, IfSome, None, OnOk, Some, length, map, slice_index_or, if◌then◌else◌};
ghost use Rattle.std.specs.Global.{Box as boxed};
ghost use Rattle.std.specs.List.{All, AllZip};
ghost use Rattle.amr_box.specs.declared.Cell.{Cell};
ghost use Rattle.amr_def.specs.declared.problem.Problem.{Problem};
ghost use Rattle.amr_def.specs.State.{children_mass};
ghost use Rattle.amr_lots.specs.Corrections.{AreCorrectedBy, FitsEntries, IsReady, finer_in, register_in, with_correction};
ghost use Rattle.amr_lots.specs.declared.lot.Duty.TheVariants.{Correct};
ghost use Rattle.amr_lots.specs.declared.lot.Lot.{Lot as lot};
ghost use Rattle.amr_patch.specs.Levels.{level_of, patches_of};
ghost use Rattle.amr_patch.specs.Patches.{ArePatchesApart, box, masses_in};
ghost use Rattle.amr_register.specs.Fields.{HasEdgesOf, IsPlaced};
ghost use Rattle.amr_transfer.specs.Sums.{AreCoarsenable};
ghost use Rattle.amr_advance.specs.Correction.{IsCorrectedLevel, IsLentPart, IsPartFrom, IsTriedLevel, KeepsAllButCorrection, MayCorrectLevel};
ghost use Rattle.amr_advance.specs.Crews.{MayRun};
ghost use Rattle.amr_advance.specs.KeptLayouts.{IsKeptLayout, StaysKept};
ghost use Rattle.amr_advance.specs.Lots.{AreLotsFor, StillServe};

use crate::crew::Workers;
use crate::kept_layout::{KeptLayout, Stale, forget};
use crate::lots::Lots;
use crate::phases::{PhaseInput, basis_of, serve_lots};
use amr_alike::have_boxes;
use amr_causes::NoMemory;
use amr_def::Problem;
use amr_lots::{Correction, Duty, Lot, exchange_runs};
use amr_patch::{Level, Patch};
use amr_register::Register;
use amr_transfer::sum_up;
use amr_workers::{Gate, sole};
use std::alloc::{AllocError, Global};
use std::boxed::Box;
use std::sync::{Arc, Wait};
use std::thread::Threads;

/// What corrects a run of patches that begins with this number, as a share of what corrects the whole level.
fn part_from(whole: &Correction, first: usize) -> Result<Correction, AllocError>
    ensures { IfOk result (IsPartFrom first whole.now) }
{
    Ok(Correction {
        register: Arc::try_clone(&whole.register)?,
        finer: Arc::try_clone(&whole.finer)?,
        order: whole.order,
        first,
    })
}

/// Lends a lot what corrects its patches.
fn lend_to(lot: &mut Box<Lot>, part: Correction)
    ensures { lot.new.value ≡ with_correction (Some part) lot.old.value }
{
    lot.correction = Some(part);
}

/// Lends lots, of so many patches each, what corrects their patches. Some of them may have it after a refusal.
fn lend(lots: &mut [Box<Lot>], each: usize, whole: &Correction) -> Result<(), AllocError>
    requires small { (k : ℕ) → k < length lots.old → k * each < 2 ^ 62 }
    ensures lent { OnOk result ((k : ℕ) (x : boxed lot) → k < length lots.old
        → IsLentPart (k * each) whole.now (slice_index_or lots.old k x).value (slice_index_or lots.new k x).value) }
    ensures kept { AllZip (λ a b. KeepsAllButCorrection a.value b.value) lots.old lots.new }
{
    for k in 0..lots.len() {
        let part = part_from(whole, k * each)?;
        lend_to(&mut lots[k], part);
    }
    Ok(())
}

/// Takes back from lots what was lent to them.
fn take_back(lots: &mut [Box<Lot>])
    ensures { AllZip (λ a b. b.value ≡ with_correction None a.value) lots.old lots.new }
{
    for k in 0..lots.len() {
        lots[k].correction = None;
    }
}

/// Has workers correct the patches of a level, each those of a lot. It answers whether they did: there may be no memory for the shares of all
/// lots. Else all is as before.
fn correct_in_lots<R: Threads + Wait + Sync, G: Gate + Sync>(
    workers: &mut Workers<'_, R, G>,
    phase: PhaseInput<'_>,
    patches: &mut [Patch],
    whole: &Correction,
    lots: &mut Lots,
) -> bool
    requires duty { phase.duty ≡ Correct }
    requires problem { phase.basis.now.problem.value ≡ phase.problem.now }
    requires lots { AreLotsFor (map box patches.old) lots.old }
    requires apart { ArePatchesApart patches.old }
    requires ready { IsReady whole.now }
    requires edges { HasEdgesOf (map box patches.old) (register_in whole.now) }
    requires fits { All (FitsEntries (register_in whole.now)) patches.old }
    requires crew { MayRun G.admits phase.problem.now (length patches.old) workers.old }
    ensures workers { workers.new ≡ workers.old }
    ensures corrected { result ≡ true → AreCorrectedBy whole.now patches.old patches.new }
    ensures same { result ≡ false → patches.new ≡ patches.old }
    ensures lots { StillServe (λ own. (if result then masses_in patches.new else own)) lots.old lots.new }
{
    match lend(&mut lots.lots, lots.each, whole) {
        Err(_) => {
            take_back(&mut lots.lots);
            false
        }
        Ok(()) => {
            exchange_runs(patches, &mut lots.lots, lots.each);
            serve_lots(workers, phase, &mut lots.lots);
            exchange_runs(patches, &mut lots.lots, lots.each);
            take_back(&mut lots.lots);
            lots.packed = true;
            true
        }
    }
}

/// What corrects a level: its register, and the patches of the finer level, which are taken out of it.
fn correction_by(
    alloc: Global,
    register: Register,
    finer: &mut Level,
) -> Result<Correction, NoMemory>
    requires placed { IsPlaced register }
    requires coarsenable { AreCoarsenable (patches_of finer.old) }
    requires small { (c : Cell) → children_mass (level_of finer.old).masses c < 2 ^ 32 }
    ensures ready { IfOk result IsReady }
    ensures register { IfOk result (λ x. register_in x ≡ register) }
    ensures finer { IfOk result (λ x. finer_in x ≡ patches_of finer.old) }
    ensures masses { IfOk result (λ x. masses_in (finer_in x) ≡ (level_of finer.old).masses) }
    ensures boxes { (level_of finer.new).boxes ≡ (level_of finer.old).boxes }
{
    let order = finer.order();
    let patches = finer.take_patches();
    Ok(Correction {
        register: Arc::new(alloc, register)?,
        finer: Arc::new(alloc, patches)?,
        order,
        first: 0,
    })
}

/// Gives the finer level its patches back that corrected a level, and the register.
fn give_back<R: Wait>(rt: &R, whole: Correction, finer: &mut Level) -> Register
    requires ready { IsReady whole }
    ensures register { result ≡ register_in whole }
    ensures patches { patches_of finer.new ≡ finer_in whole }
    ensures masses { (level_of finer.new).masses ≡ masses_in (finer_in whole) }
    ensures boxes { (level_of finer.new).boxes ≡ (level_of finer.old).boxes }
{
    let Correction {
        register,
        finer: patches,
        order,
        first: _,
    } = whole;
    finer.put_patches_in_order(sole(rt, patches), order);
    sole(rt, register)
}

/// The register that was to correct a level, and whether it did.
#[derive(Drop)]
struct Corrected {
    register: Register,
    done: bool,
}

/// A register that has not corrected its level.
fn not_done(register: Register) -> Corrected
    ensures register { result.register ≡ register }
    ensures done { result.done ≡ false }
{
    Corrected {
        register,
        done: false,
    }
}

/// Has workers correct a level whose patches are shared out in lots, as `correct_kept` says. Where they did not, the level is as before.
fn correct_by_workers<R: Threads + Wait + Sync, G: Gate + Sync>(
    workers: &mut Workers<'_, R, G>,
    p: &Problem,
    level: &mut Level,
    register: Register,
    finer: &mut Level,
    lots: &mut Lots,
) -> Result<Corrected, NoMemory>
    requires lots { AreLotsFor (map box (patches_of level.old)) lots.old }
    requires may { MayCorrectLevel register level.old finer.old }
    requires crew { MayRun G.admits p.now (length (patches_of level.old)) workers.old }
    ensures workers { workers.new ≡ workers.old }
    ensures register { IfOk result (λ x. x.register ≡ register) }
    ensures tried { IfOk result (λ x. IsTriedLevel x.done register finer.old level.old level.new) }
    ensures finer { OnOk result (level_of finer.new ≡ level_of finer.old) }
    ensures finer_patches { OnOk result (patches_of finer.new ≡ patches_of finer.old) }
    ensures lots { IfOk result (λ x. StillServe (λ own. (if x.done then (level_of level.new).masses else own)) lots.old lots.new) }
{
    let order = level.order();
    let mut patches = level.take_patches();
    let whole = correction_by(*patches.allocator(), register, finer)?;
    let basis = basis_of(p, &patches, None);
    let phase = PhaseInput {
        alloc: *patches.allocator(),
        problem: p,
        level: lots.level,
        duty: Duty::Correct,
        basis: &basis,
    };
    let done = correct_in_lots(workers, phase, &mut patches, &whole, lots);
    level.put_patches_in_order(patches, order);
    let register = give_back(workers.runtime, whole, finer);
    Ok(Corrected { register, done })
}

/// The same by the layout that is kept of the level, where one is and has lots of the level's patches.
fn correct_by_layout<R: Threads + Wait + Sync, G: Gate + Sync>(
    workers: &mut Workers<'_, R, G>,
    p: &Problem,
    level: &mut Level,
    register: Register,
    finer: &mut Level,
    kept: &mut Option<KeptLayout>,
) -> Result<Corrected, NoMemory>
    requires may { MayCorrectLevel register level.old finer.old }
    requires crew { MayRun G.admits p.now (length (patches_of level.old)) workers.old }
    requires kept { IfSome kept.old (IsKeptLayout p.now) }
    ensures workers { workers.new ≡ workers.old }
    ensures register { IfOk result (λ x. x.register ≡ register) }
    ensures tried { IfOk result (λ x. IsTriedLevel x.done register finer.old level.old level.new) }
    ensures finer { OnOk result (level_of finer.new ≡ level_of finer.old) }
    ensures finer_patches { OnOk result (patches_of finer.new ≡ patches_of finer.old) }
    ensures kept { IfOk result (λ x. StaysKept (λ own. (if x.done then (level_of level.new).masses else own)) kept.old kept.new) }
{
    let Some(layout) = kept else {
        return Ok(not_done(register));
    };
    if !have_boxes(level.patches(), &layout.boxes) {
        return Ok(not_done(register));
    }
    if layout.lots.wanted < 2 {
        return Ok(not_done(register));
    }
    correct_by_workers(workers, p, level, register, finer, &mut layout.lots)
}

/// Gives each register cell of a level its entry, and each covered cell the sum of the masses of its children: by workers where `kept`, what
/// is kept of the level, has lots of its patches, else by this thread. All else of both
/// levels stays, and what is kept serves their next steps: what it says of the level's masses is of the corrected ones, whatever it was of
/// before. The register comes back as it was.
///
/// The level has patches over the boxes that the register was made over, and no mass with its entry is below 0, or 2^32 or more. The parent
/// of each finer cell is a cell of the level, no finer patch cuts one, and each sum is below 2^32. After `NoMemory` both levels may have lost
/// their patches.
pub fn correct_kept<R: Threads + Wait + Sync, G: Gate + Sync>(
    workers: &mut Workers<'_, R, G>,
    p: &Problem,
    level: &mut Level,
    register: Register,
    finer: &mut Level,
    kept: &mut Option<KeptLayout>,
) -> Result<Register, NoMemory>
    requires may { MayCorrectLevel register level.old finer.old }
    requires crew { MayRun G.admits p.now (length (patches_of level.old)) workers.old }
    requires kept { IfSome kept.old (IsKeptLayout p.now) }
    ensures workers { workers.new ≡ workers.old }
    ensures register { IfOk result (λ r. r ≡ register) }
    ensures corrected { OnOk result (IsCorrectedLevel register finer.old level.old level.new) }
    ensures finer { OnOk result (level_of finer.new ≡ level_of finer.old) }
    ensures finer_patches { OnOk result (patches_of finer.new ≡ patches_of finer.old) }
    ensures kept { OnOk result (StaysKept (λ own. (level_of level.new).masses) kept.old kept.new) }
{
    let corrected = correct_by_layout(workers, p, level, register, finer, kept)?;
    if corrected.done {
        return Ok(corrected.register);
    }
    corrected.register.reflux(level);
    sum_up(finer, level);
    let stale = Stale {
        own: true,
        coarser: false,
    };
    forget(kept, stale);
    Ok(corrected.register)
}
