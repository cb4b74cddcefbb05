//! The step of a level's patches by its lots.

ghost use Rattle.std.specs.Prelude.{◌≡◌, ◌*◌, ◌<◌, ◌≤◌, ◌^◌, ℕ, [], Bool, List, true, false, IfOk, OnOk, OnErr, length, map, slice_index_or, vec_capacity};
ghost use Rattle.std.specs.List.{All, AllZip};
ghost use Rattle.std.specs.Global.{Box as boxed, Vec};
ghost use Rattle.amr_lots.specs.Ready.{CanStep};
ghost use Rattle.amr_lots.specs.Runs.{KeepAllButEdges, run};
ghost use Rattle.amr_lots.specs.Duties.{HasSent, MaySend};
ghost use Rattle.amr_lots.specs.LotSteps.{HasSteppedAlone};
ghost use Rattle.amr_lots.specs.declared.lot.Duty.TheVariants.{Step};
ghost use Rattle.amr_lots.specs.declared.lot.Lot.{Lot as lot};
ghost use Rattle.amr_patch.specs.Patches.{box, masses_in};
ghost use Rattle.amr_register.specs.EdgeCells.{SameEdges, lists_of};
ghost use Rattle.amr_advance.specs.Crews.{MayRun};
ghost use Rattle.amr_advance.specs.KeptLayouts.{ServesLevel};
ghost use Rattle.amr_advance.specs.Lots.{AreLots, AreLotsOf, is_one};
ghost use Rattle.amr_advance.specs.Handed.{HaveBeenHanded};
ghost use Rattle.amr_advance.specs.InLots.{IsStepOpened, StandInLots};
ghost use Rattle.amr_advance.specs.declared.level.StepInput.{StepInput as input};
ghost use Rattle.amr_advance.specs.declared.lots.Lots.{Lots as several};
ghost use Rattle.amr_patch.specs.declared.patches.Patch.{Patch as patch};
ghost use Rattle.amr_register.specs.declared.edges.EdgeCell.{EdgeCell as edge};
ghost use Rattle.amr_advance.specs.Phases.{HasAsMany, HaveMadeStep, IsOpened};
ghost use Rattle.amr_advance.specs.Registers.{AreEdgesFor};
ghost use Rattle.amr_advance.specs.Steps.{CanMakeStep, HasMadeStep, LotsMadeStep, HaveSettled, MayMakeStep, MayStepLevel, around_of, coarser_masses};

use crate::crew::Workers;
use crate::kept_layout::KeptLayout;
use crate::lots::{Lots, is_one};
use crate::outer::{ready_outer, take_back};
use crate::phases::{PhaseInput, give_back, open_lots, run_step, serve_lots};
use amr_board::{Board, Seat};
use amr_box::Cell;
use amr_causes::NoMemory;
use amr_def::Problem;
use amr_lots::{
    Duty, Lot, StepBasis, Work, Workspace, exchange_edges, exchange_messages, exchange_runs,
    step_alone,
};
use amr_patch::{Level, Patch};
use amr_register::EdgeCell;
use amr_workers::Gate;
use std::alloc::Global;
use std::boxed::Box;
use std::sync::{Arc, Wait};
use std::thread::Threads;

/// What a step of a level is made from besides its patches. There are the problem and the number of the level, and the
/// next coarser level with the masses before its step. There are the next finer level, and the cells of the coarser
/// level's flux register. `shared` is the next coarser level again, where workers can have a share of it.
#[derive(Clone, Copy)]
pub struct StepInput<'a> {
    pub alloc: Global,
    pub problem: &'a Problem,
    pub level: u32,
    pub old: Option<&'a Level>,
    pub shared: Option<&'a Arc<Level, Global>>,
    pub finer: Option<&'a Level>,
    pub cells: &'a [Cell],
    /// Whether the frames of the patches are filled beforehand. Else all patches of the level are worked on.
    pub filled: bool,
    /// What the step is worked out from, for contracts alone.
    pub basis: &'a StepBasis,
}

/// The phase of the level's lots in which they do this.
fn phase_of(given: StepInput<'_>, duty: Duty) -> PhaseInput<'_>
    ensures problem { result.problem.now ≡ given.entry.problem.now }
    ensures level { result.level ≡ given.entry.level }
    ensures duty { result.duty ≡ duty }
    ensures basis { result.basis.now ≡ given.entry.basis.now }
{
    PhaseInput {
        alloc: given.alloc,
        problem: given.problem,
        level: given.level,
        duty,
        basis: given.basis,
    }
}

/// Exchanges the lists of register cells of a level, where it has a register, with those of its lots.
fn exchange_lists(edges: &mut [Vec<EdgeCell>], lots: &mut [Box<Lot>], size: usize)
    requires counts { 0 < length edges.old → (k : ℕ) (x : boxed lot) → k < length lots.old
        → length (slice_index_or lots.old k x).value.edges.items ≡ length (run size k edges.old) }
    ensures none { length edges.old ≡ 0 → lots.new ≡ lots.old }
    ensures handed { 0 < length edges.old → (k : ℕ) (x : boxed lot) → k < length lots.old
        → (slice_index_or lots.new k x).value.edges.items ≡ run size k edges.old }
    ensures back { 0 < length edges.old → (k : ℕ) (x : boxed lot) → k < length lots.old
        → run size k edges.new ≡ (slice_index_or lots.old k x).value.edges.items }
    ensures count { length edges.new ≡ length edges.old }
    ensures others { AllZip KeepAllButEdges lots.old lots.new }
{
    if edges.is_empty() {
        return;
    }
    exchange_edges(edges, lots, size);
}

/// Has the masses packed that other lots need, where that was not done at the end of the last step or of the correction after it.
fn pack_lots<R: Threads + Wait + Sync, G: Gate + Sync>(
    workers: &mut Workers<'_, R, G>,
    given: StepInput<'_>,
    lots: &mut Lots,
)
    requires problem { given.basis.now.problem.value ≡ given.problem.now }
    requires few { length lots.old.lots.items < 2 ^ 32 }
    requires may { All (λ x. MaySend x.value) lots.old.lots.items }
    requires crew { MayRun G.admits given.problem.now (length lots.old.lots.items) workers.old }
    ensures workers { workers.new ≡ workers.old }
    ensures packed { lots.old.packed ≡ true → lots.new ≡ lots.old }
    ensures sent { lots.old.packed ≡ false → AllZip (λ a b. HasSent a.value b.value) lots.old.lots.items lots.new.lots.items }
    ensures rest { lots.new ≡ record lots.old { lots = lots.new.lots } }
{
    if lots.packed {
        return;
    }
    serve_lots(workers, phase_of(given, Duty::Send), &mut lots.lots);
}

/// Makes a step of the patches of a level by the workspace of the lot that is all of it: one task, which the gate sees as task 0 of worker 0.
/// A level without patches has no task.
fn step_by_one<G: Gate>(
    gate: &G,
    given: StepInput<'_>,
    patches: &mut [Patch],
    edges: &mut [Vec<EdgeCell>],
    workspace: &mut Workspace,
)
    requires step { CanStep given.problem.now given.level patches.old edges.old workspace.old }
    requires gate { 0 < length patches.old → G.admits gate.now 0 0 }
    ensures { HasSteppedAlone given.entry.problem.now given.entry.level patches.old edges.old workspace.old patches.new edges.new workspace.new }
{
    if patches.is_empty() {
        return step_alone(given.problem, given.level, patches, edges, workspace);
    }
    gate.enter(0, 0);
    step_alone(given.problem, given.level, patches, edges, workspace);
    gate.leave(0, 0);
}

/// The same for the lots of the level, of which there is one.
fn step_whole<G: Gate>(
    gate: &G,
    given: StepInput<'_>,
    patches: &mut [Patch],
    edges: &mut [Vec<EdgeCell>],
    lots: &mut Lots,
)
    requires level { MayStepLevel (around_of given patches.old) (coarser_masses given) }
    requires lots { CanMakeStep (around_of given patches.old) (coarser_masses given) lots.old }
    requires one { is_one lots.old ≡ true }
    requires edges { AreEdgesFor (map box patches.old) (lists_of edges.old) }
    requires gate { 0 < length patches.old → G.admits gate.now 0 0 }
    ensures { LotsMadeStep (around_of given.entry patches.old) (coarser_masses given.entry) patches.new (lists_of edges.old) (lists_of edges.new)
        lots.old lots.new }
{
    step_by_one(gate, given, patches, edges, &mut lots.lots[0].workspace);
}

/// Opens a step of the patches of a level by several lots, as a phase of a board. It hands the lots their patches and their lists of register cells,
/// has them pack the masses that they need of one another, delivers these, and puts the lots on a board. It gives the board and its only seat.
/// All memory of the step is taken here: if allocation fails the lots are back in their list, with what they were handed.
pub fn open_step<R: Threads + Wait + Sync, G: Gate + Sync>(
    workers: &mut Workers<'_, R, G>,
    given: StepInput<'_>,
    patches: &mut [Patch],
    edges: &mut [Vec<EdgeCell>],
    lots: &mut Lots,
) -> Result<(Board<Work>, Seat<Work>), NoMemory>
    requires step { MayMakeStep given patches.old }
    requires lots { CanMakeStep (around_of given patches.old) (coarser_masses given) lots.old }
    requires several { is_one lots.old ≡ false }
    requires edges { AreEdgesFor (map box patches.old) (lists_of edges.old) }
    requires crew { MayRun G.admits given.problem.now (length patches.old) workers.old }
    ensures workers { workers.new ≡ workers.old }
    ensures opened { IfOk result (λ r. (xs : List (boxed lot)) × HaveBeenHanded lots.old patches.old patches.new edges.old edges.new xs
        × IsOpened given.entry.basis.now given.entry.level Step given.entry.problem.now lots.old.shape xs r.0 r.1) }
    ensures room { OnOk result (length lots.old.lots.items ≤ vec_capacity lots.new.lots) }
    ensures empty { OnOk result (lots.new.lots.items ≡ []) }
    ensures back { OnErr result (HaveBeenHanded lots.old patches.old patches.new edges.old edges.new lots.new.lots.items) }
    ensures rest { lots.new ≡ record lots.old { lots = lots.new.lots } }
{
    exchange_runs(patches, &mut lots.lots, lots.each);
    exchange_lists(edges, &mut lots.lots, lots.each);
    pack_lots(workers, given, lots);
    exchange_messages(&mut lots.lots);
    open_lots(phase_of(given, Duty::Step), lots.shape, &mut lots.lots)
}

/// Has workers make a step that was opened, by all tasks of its board. The lots come back into their list, with what they were handed.
pub fn run_opened<R: Threads + Wait + Sync, G: Gate + Sync>(
    workers: &mut Workers<'_, R, G>,
    given: StepInput<'_>,
    board: Board<Work>,
    seat: Seat<Work>,
    lots: &mut Lots,
)
    requires opened { (ps : List patch) × (es : List (Vec edge)) × (t : several) × (qs : List patch) × (ds : List (Vec edge))
        × IsStepOpened given ps es t qs ds lots.old board seat }
    requires crew { MayRun G.admits given.problem.now (length board.pieces) workers.old }
    ensures workers { workers.new ≡ workers.old }
    ensures run { (ps : List patch) (es : List (Vec edge)) (t : several) (qs : List patch) (ds : List (Vec edge))
        → IsStepOpened given.entry ps es t qs ds lots.old board seat → StandInLots given.entry true ps es t qs ds lots.new }
{
    run_step(workers, phase_of(given, Duty::Step), board, seat, lots);
}

/// Has several lots make the step of a level, as a phase of a board: of the patches and the lists of register cells that they are handed, and
/// keep. If allocation fails these are as they were.
fn run_in_lots<R: Threads + Wait + Sync, G: Gate + Sync>(
    workers: &mut Workers<'_, R, G>,
    given: StepInput<'_>,
    patches: &mut [Patch],
    edges: &mut [Vec<EdgeCell>],
    lots: &mut Lots,
) -> Result<(), NoMemory>
    requires step { MayMakeStep given patches.old }
    requires lots { CanMakeStep (around_of given patches.old) (coarser_masses given) lots.old }
    requires several { is_one lots.old ≡ false }
    requires edges { AreEdgesFor (map box patches.old) (lists_of edges.old) }
    requires crew { MayRun G.admits given.problem.now (length patches.old) workers.old }
    ensures workers { workers.new ≡ workers.old }
    ensures run { (xs : List (boxed lot)) × HaveBeenHanded lots.old patches.old patches.new edges.old edges.new xs
        × AllZip HasAsMany xs lots.new.lots.items
        × OnOk result (HaveMadeStep given.entry.basis.now given.entry.level xs lots.old lots.new)
        × OnErr result (lots.new.lots.items ≡ xs) }
    ensures rest { lots.new ≡ record lots.old { lots = lots.new.lots; totals = lots.new.totals } }
{
    match open_step(workers, given, patches, edges, lots) {
        Ok((board, seat)) => {
            run_opened(workers, given, board, seat, lots);
            Ok(())
        }
        Err(NoMemory) => Err(NoMemory),
    }
}

/// Gives up a step that was opened, of which no task was drawn. The lots come back into their list, with what they were handed.
pub fn give_up(board: Board<Work>, seat: Seat<Work>, lots: &mut Lots)
    requires { (g : input) × (ps : List patch) × (es : List (Vec edge)) × (t : several) × (qs : List patch) × (ds : List (Vec edge))
        × IsStepOpened g ps es t qs ds lots.old board seat }
    ensures { (g : input) (ps : List patch) (es : List (Vec edge)) (t : several) (qs : List patch) (ds : List (Vec edge))
        → IsStepOpened g ps es t qs ds lots.old board seat → StandInLots g false ps es t qs ds lots.new }
{
    give_back(board, seat, &mut lots.lots);
}

/// Takes patches and lists of register cells back from several lots, to which they were handed for a step, whether it was made or not.
pub fn take_from_lots(patches: &mut [Patch], edges: &mut [Vec<EdgeCell>], lots: &mut Lots)
    requires { (g : input) × (was_made : Bool) × (ps : List patch) × (es : List (Vec edge)) × (t : several)
        × StandInLots g was_made ps es t patches.old edges.old lots.old }
    ensures made { (g : input) (ps : List patch) (es : List (Vec edge)) (t : several) → StandInLots g true ps es t patches.old edges.old lots.old
        → LotsMadeStep (around_of g ps) (coarser_masses g) patches.new (lists_of es) (lists_of edges.new) t lots.new }
    ensures unmade { (g : input) (ps : List patch) (es : List (Vec edge)) (t : several) → StandInLots g false ps es t patches.old edges.old lots.old
        → (patches.new ≡ ps) × SameEdges (lists_of es) (lists_of edges.new) }
{
    exchange_lists(edges, &mut lots.lots, lots.each);
    exchange_runs(patches, &mut lots.lots, lots.each);
}

/// Makes a step of the patches of a level by several lots, as a phase of a board, and takes the patches and the lists of register cells back.
fn step_in_lots<R: Threads + Wait + Sync, G: Gate + Sync>(
    workers: &mut Workers<'_, R, G>,
    given: StepInput<'_>,
    patches: &mut [Patch],
    edges: &mut [Vec<EdgeCell>],
    lots: &mut Lots,
) -> Result<(), NoMemory>
    requires step { MayMakeStep given patches.old }
    requires lots { CanMakeStep (around_of given patches.old) (coarser_masses given) lots.old }
    requires several { is_one lots.old ≡ false }
    requires edges { AreEdgesFor (map box patches.old) (lists_of edges.old) }
    requires crew { MayRun G.admits given.problem.now (length patches.old) workers.old }
    ensures workers { workers.new ≡ workers.old }
    ensures made { OnOk result (LotsMadeStep (around_of given.entry patches.old) (coarser_masses given.entry) patches.new (lists_of edges.old)
        (lists_of edges.new) lots.old lots.new) }
    ensures same { OnErr result (patches.new ≡ patches.old) }
    ensures same_edges { OnErr result (SameEdges (lists_of edges.old) (lists_of edges.new)) }
{
    let run = run_in_lots(workers, given, patches, edges, lots);
    take_from_lots(patches, edges, lots);
    run
}

/// Makes a step of the patches of a level by its lots: by one that is all of it, or by several.
fn make_step<R: Threads + Wait + Sync, G: Gate + Sync>(
    workers: &mut Workers<'_, R, G>,
    given: StepInput<'_>,
    patches: &mut [Patch],
    edges: &mut [Vec<EdgeCell>],
    lots: &mut Lots,
) -> Result<(), NoMemory>
    requires step { MayMakeStep given patches.old }
    requires lots { CanMakeStep (around_of given patches.old) (coarser_masses given) lots.old }
    requires edges { AreEdgesFor (map box patches.old) (lists_of edges.old) }
    requires crew { MayRun G.admits given.problem.now (length patches.old) workers.old }
    ensures workers { workers.new ≡ workers.old }
    ensures made { OnOk result (LotsMadeStep (around_of given.entry patches.old) (coarser_masses given.entry) patches.new (lists_of edges.old)
        (lists_of edges.new) lots.old lots.new) }
    ensures same { OnErr result (patches.new ≡ patches.old) }
    ensures same_edges { OnErr result (SameEdges (lists_of edges.old) (lists_of edges.new)) }
{
    if is_one(lots) {
        step_whole(workers.gate, given, patches, edges, lots);
        return Ok(());
    }
    step_in_lots(workers, given, patches, edges, lots)
}

/// Readies the lots of a level for its step: each has the values of its outer ghost cells, or a level by which it can find them.
pub fn ready_lots(given: StepInput<'_>, patches: &[Patch], lots: &mut Lots)
    requires step { MayMakeStep given patches.now }
    requires lots { AreLots (around_of given patches.now) lots.old }
    requires masses { AreLotsOf given.problem.now given.level (masses_in patches.now) (coarser_masses given) lots.old }
    ensures { CanMakeStep (around_of given.entry patches.now) (coarser_masses given.entry) lots.new }
{
    if lots.valued {
        return;
    }
    ready_outer(given, &mut lots.lots);
}

/// Tells that lots made their step, and takes back from them what was lent to them for it.
fn settle_lots(lots: &mut Lots)
    ensures { HaveSettled lots.old lots.new }
{
    take_back(&mut lots.lots);
    lots.packed = true;
    lots.valued = true;
}

/// Makes a step of the patches of a level: each cell gets what flows in through its faces. The layout was made for it, and serves the next
/// step. It has the totals of the ledger's words and of the register's then. The lists of register cells over a finer level, where there is one,
/// get what the level's own fluxes carry into each cell. They have the same cells afterwards, whatever the result.
///
/// All memory whose lack is a refusal is taken before the first task is begun. If allocation fails the patches are as before.
pub(crate) fn run_level<R: Threads + Wait + Sync, G: Gate + Sync>(
    workers: &mut Workers<'_, R, G>,
    given: StepInput<'_>,
    patches: &mut [Patch],
    edges: &mut [Vec<EdgeCell>],
    layout: &mut KeptLayout,
) -> Result<(), NoMemory>
    requires step { MayMakeStep given patches.old }
    requires layout { ServesLevel (around_of given patches.old) (masses_in patches.old) (coarser_masses given) layout.old }
    requires edges { AreEdgesFor (map box patches.old) (lists_of edges.old) }
    requires crew { MayRun G.admits given.problem.now (length patches.old) workers.old }
    ensures workers { workers.new ≡ workers.old }
    ensures made { OnOk result (HasMadeStep (around_of given.entry patches.old) (coarser_masses given.entry) patches.new (lists_of edges.old)
        (lists_of edges.new) layout.new) }
    ensures same { OnErr result (patches.new ≡ patches.old) }
    ensures same_edges { OnErr result (SameEdges (lists_of edges.old) (lists_of edges.new)) }
{
    ready_lots(given, patches, &mut layout.lots);
    make_step(workers, given, patches, edges, &mut layout.lots)?;
    settle_lots(&mut layout.lots);
    Ok(())
}
