//! The phases of a level's lots: the pieces of their tasks, and what comes back.

ghost use Rattle.std.specs.Prelude.{◌≡◌, ◌<◌, ◌≤◌, ◌^◌, ℕ, [], List, Some, length, map, slice_index, vec_capacity, IfOk, OnOk, OnErr};
ghost use Rattle.std.specs.List.{All, AllZip};
ghost use Rattle.std.specs.Option.{option_copied};
ghost use Rattle.std.specs.Global.{Box as boxed};
ghost use Rattle.amr_board.specs.declared.board.Shape.{Shape as form};
ghost use Rattle.amr_board.specs.Ended.{total_of};
ghost use Rattle.amr_board.specs.MakeFault.{pieces_back};
ghost use Rattle.amr_lots.specs.Duties.{IsServed, MayServe};
ghost use Rattle.amr_def.specs.declared.problem.Problem.{Problem as problem};
ghost use Rattle.amr_lots.specs.declared.lot.Duty.{Duty as duty_of};
ghost use Rattle.amr_lots.specs.declared.lot.Duty.TheVariants.{Step};
ghost use Rattle.amr_lots.specs.declared.lot.StepBasis.{StepBasis as ground};
ghost use Rattle.amr_lots.specs.declared.lot.Lot.{Lot as lot};
ghost use Rattle.amr_lots.specs.declared.lot.Work.{Work as piece};
ghost use Rattle.amr_advance.specs.Crews.{MayRun};
ghost use Rattle.amr_advance.specs.Phases.{AreCollected, ArePieces, HasAsMany, HaveMadeStep, HaveRun, IsBasisOf, IsOpened, MayBeRun, MayCollect};

use crate::crew::{Workers, run_board};
use crate::lots::Lots;
use amr_board::{Board, Ended, MakeFault, Seat, Shape};
use amr_causes::NoMemory;
use amr_def::Problem;
use amr_lots::{Duty, Lot, LotStage, StepBasis, Work, complete, serve};
use amr_patch::{Level, Patch};
use amr_workers::Gate;
use std::alloc::Global;
use std::boxed::Box;
use std::mem::replace;
use std::snapshot::Snapshot;
use std::sync::Wait;
use std::thread::Threads;

/// A phase of a level's lots: of which problem and level, what is done with them, and, for contracts alone, what that is worked out from.
#[derive(Clone, Copy)]
pub(crate) struct PhaseInput<'a> {
    pub(crate) alloc: Global,
    pub(crate) problem: &'a Problem,
    pub(crate) level: u32,
    pub(crate) duty: Duty,
    pub(crate) basis: &'a StepBasis,
}

/// What a phase of the lots of a level with these patches is worked out from, for contracts alone.
pub(crate) fn basis_of(p: &Problem, patches: &Vec<Patch>, old: Option<&Level>) -> StepBasis
    ensures { IsBasisOf p.now patches.now.items (option_copied old.entry) result }
{
    let coarser = match old {
        Some(level) => Some(Snapshot::of(level)),
        None => None,
    };
    StepBasis {
        problem: Snapshot::of(p),
        patches: Snapshot::of(patches),
        coarser,
    }
}

/// A phase without posts.
const NO_POSTS: Shape = Shape {
    places: 0,
    words: 0,
};

/// Makes pieces of lots, in a list that has room for them. Piece `i` is that of task `i`.
fn to_pieces(phase: PhaseInput<'_>, lots: Vec<Box<Lot>>, mut pieces: Vec<Work>) -> Vec<Work>
    requires few { length lots.items < 2 ^ 32 }
    requires empty { pieces.items ≡ [] }
    requires room { length lots.items ≤ vec_capacity pieces }
    ensures { ArePieces phase.entry.basis.now phase.entry.level phase.entry.duty lots.items result.items }
{
    for lot in lots {
        pieces.push_reserved(Work {
            task: pieces.len() as u32,
            level: phase.level,
            duty: phase.duty,
            stage: LotStage::Raw,
            lot,
            basis: Snapshot::of(phase.basis),
        });
    }
    pieces
}

/// The lot of a piece.
fn lot_of(work: Work) -> Box<Lot>
    ensures { result ≡ work.lot }
{
    let Work {
        task: _,
        level: _,
        duty: _,
        stage: _,
        lot,
        basis: _,
    } = work;
    lot
}

/// Puts the lots of pieces back into a list that has room for them.
fn to_lots(pieces: Vec<Work>, lots: &mut Vec<Box<Lot>>)
    requires empty { lots.old.items ≡ [] }
    requires room { length pieces.items ≤ vec_capacity lots.old }
    ensures { lots.new.items ≡ map (λ w. w.lot) pieces.items }
{
    for work in pieces {
        lots.push_reserved(lot_of(work));
    }
}

/// The pieces that come back where there was no memory for their board.
fn pieces_of(fault: MakeFault<Work>) -> Vec<Work>
    ensures { result.items ≡ pieces_back fault }
{
    match fault {
        MakeFault::NoMemory(pieces) => pieces,
    }
}

/// Puts lots on a board, as the pieces of a phase's tasks. It gives the board and its only seat. All memory of the phase is taken here: if
/// allocation fails the lots are as before. Else the list that had them is empty, with room for them.
pub(crate) fn open_lots(
    phase: PhaseInput<'_>,
    shape: Shape,
    lots: &mut Vec<Box<Lot>>,
) -> Result<(Board<Work>, Seat<Work>), NoMemory>
    requires few { length lots.old.items < 2 ^ 32 }
    requires pieces { (ws : List piece) → ArePieces phase.basis.now phase.level phase.duty lots.old.items ws → MayBeRun phase.problem.now shape ws }
    ensures opened { IfOk result (λ r. IsOpened phase.entry.basis.now phase.entry.level phase.entry.duty phase.entry.problem.now shape
        lots.old.items r.0 r.1) }
    ensures empty { OnOk result (lots.new.items ≡ []) }
    ensures room { OnOk result (length lots.old.items ≤ vec_capacity lots.new) }
    ensures back { OnErr result (lots.new.items ≡ lots.old.items) }
{
    let room = Vec::with_capacity(phase.alloc, lots.len())?;
    let back = Vec::with_capacity(phase.alloc, lots.len())?;
    let pieces = to_pieces(phase, replace(lots, back), room);
    match Board::make(phase.alloc, shape, pieces) {
        Ok(made) => Ok(made),
        Err(fault) => {
            to_lots(pieces_of(fault), lots);
            Err(NoMemory)
        }
    }
}

/// Takes the lots of so many tasks out of a closed board, into a list that has room for them. Those that are swept are completed. The board's
/// words stay.
fn collect(p: &Problem, ended: &mut Ended<Work>, count: u32, lots: &mut Vec<Box<Lot>>)
    requires pieces { (t : ℕ) → t < count → MayCollect p.now ended.old t }
    requires empty { lots.old.items ≡ [] }
    requires room { count ≤ vec_capacity lots.old }
    ensures lots { AreCollected ended.old count lots.new.items }
    ensures registers { ended.new.registers ≡ ended.old.registers }
    ensures totals { (word : ℕ) → total_of ended.new word ≡ total_of ended.old word }
{
    for task in 0..count {
        let mut work = ended.hand(task);
        complete(p, ended, &mut work);
        lots.push_reserved(lot_of(work));
    }
}

/// Copies the totals of all words out of a closed board.
fn take_totals(ended: &Ended<Work>, totals: &mut [u64])
    requires count { length totals.old ≡ ended.now.registers }
    requires few { ended.now.registers < 2 ^ 32 }
    ensures count { length totals.new ≡ length totals.old }
    ensures all { (word : ℕ) → word < length totals.new → slice_index totals.new word ≡ total_of ended.now word }
{
    for word in 0..totals.len() as u32 {
        totals[word as usize] = ended.total(word);
    }
}

/// Has workers run a phase that is on this board, from its first task on. The board is closed, and the lots come back into a list that has room
/// for them. The board's words are left.
fn run_lots<R: Threads + Wait + Sync, G: Gate + Sync>(
    workers: &mut Workers<'_, R, G>,
    phase: PhaseInput<'_>,
    board: Board<Work>,
    seat: Seat<Work>,
    lots: &mut Vec<Box<Lot>>,
) -> Ended<Work>
    requires opened { (shape : form) × (xs : List (boxed lot))
        × IsOpened phase.basis.now phase.level phase.duty phase.problem.now shape xs board seat }
    requires few { length board.pieces < 2 ^ 32 }
    requires empty { lots.old.items ≡ [] }
    requires room { length board.pieces ≤ vec_capacity lots.old }
    requires crew { MayRun G.admits phase.problem.now (length board.pieces) workers.old }
    ensures workers { workers.new ≡ workers.old }
    ensures run { (shape : form) (xs : List (boxed lot))
        → IsOpened phase.entry.basis.now phase.entry.level phase.entry.duty phase.entry.problem.now shape xs board seat
        → HaveRun phase.entry.basis.now phase.entry.level phase.entry.duty phase.entry.problem.now shape xs lots.new.items result }
{
    let count = board.tasks();
    let mut ended = run_board(workers, phase.alloc, phase.problem, board, seat);
    collect(phase.problem, &mut ended, count, lots);
    ended
}

/// Takes the lots of so many tasks out of a closed board, whose pieces are as they were handed in, into a list that has room for them.
fn hand_back(ended: &mut Ended<Work>, count: u32, lots: &mut Vec<Box<Lot>>)
    requires pieces { (ws : List piece) × (ended.old.pieces ≡ map Some ws) × (length ws ≡ count) }
    requires empty { lots.old.items ≡ [] }
    requires room { count ≤ vec_capacity lots.old }
    ensures { (ws : List piece) → ended.old.pieces ≡ map Some ws → length ws ≡ count → lots.new.items ≡ map (λ w. w.lot) ws }
{
    for task in 0..count {
        lots.push_reserved(lot_of(ended.hand(task)));
    }
}

/// Gives up a phase of lots whose board was opened and of which no task was drawn. The lots come back as they were into a list that has room
/// for them.
pub(crate) fn give_back(board: Board<Work>, seat: Seat<Work>, lots: &mut Vec<Box<Lot>>)
    requires opened { (b : ground) × (l : ℕ) × (duty : duty_of) × (p : problem) × (shape : form) × (xs : List (boxed lot))
        × IsOpened b l duty p shape xs board seat }
    requires few { length board.pieces < 2 ^ 32 }
    requires empty { lots.old.items ≡ [] }
    requires room { length board.pieces ≤ vec_capacity lots.old }
    ensures { (b : ground) (l : ℕ) (duty : duty_of) (p : problem) (shape : form) (xs : List (boxed lot))
        → IsOpened b l duty p shape xs board seat → lots.new.items ≡ xs }
{
    let count = board.tasks();
    let mut ended = board.dismiss(seat);
    hand_back(&mut ended, count, lots);
}

/// Has workers make the step of lots that is on this board, from its first task on. The lots come back into their list, and the totals become
/// those of the words.
pub(crate) fn run_step<R: Threads + Wait + Sync, G: Gate + Sync>(
    workers: &mut Workers<'_, R, G>,
    phase: PhaseInput<'_>,
    board: Board<Work>,
    seat: Seat<Work>,
    lots: &mut Lots,
)
    requires duty { phase.duty ≡ Step }
    requires opened { (xs : List (boxed lot)) × IsOpened phase.basis.now phase.level Step phase.problem.now lots.old.shape xs board seat }
    requires few { length board.pieces < 2 ^ 32 }
    requires words { length lots.old.totals.items ≡ lots.old.shape.words }
    requires empty { lots.old.lots.items ≡ [] }
    requires room { length board.pieces ≤ vec_capacity lots.old.lots }
    requires crew { MayRun G.admits phase.problem.now (length board.pieces) workers.old }
    ensures workers { workers.new ≡ workers.old }
    ensures stepped { (xs : List (boxed lot)) → IsOpened phase.entry.basis.now phase.entry.level Step phase.entry.problem.now lots.old.shape xs board seat
        → HaveMadeStep phase.entry.basis.now phase.entry.level xs lots.old lots.new × AllZip HasAsMany xs lots.new.lots.items }
    ensures rest { lots.new ≡ record lots.old { lots = lots.new.lots; totals = lots.new.totals } }
{
    let ended = run_lots(workers, phase, board, seat, &mut lots.lots);
    take_totals(&ended, &mut lots.totals);
}

/// Does something with lots that posts nothing, one after another.
fn serve_alone(duty: Duty, lots: &mut [Box<Lot>])
    requires { All (λ x. MayServe duty x.value) lots.old }
    ensures { AllZip (λ a b. IsServed duty a.value b.value) lots.old lots.new }
{
    for k in 0..lots.len() {
        serve(duty, &mut lots[k]);
    }
}

/// Has workers do something with lots that posts nothing: where there is no memory for a board, this thread alone.
pub(crate) fn serve_lots<R: Threads + Wait + Sync, G: Gate + Sync>(
    workers: &mut Workers<'_, R, G>,
    phase: PhaseInput<'_>,
    lots: &mut Vec<Box<Lot>>,
)
    requires few { length lots.old.items < 2 ^ 32 }
    requires problem { phase.basis.now.problem.value ≡ phase.problem.now }
    requires may { All (λ x. MayServe phase.duty x.value) lots.old.items }
    requires crew { MayRun G.admits phase.problem.now (length lots.old.items) workers.old }
    ensures workers { workers.new ≡ workers.old }
    ensures served { AllZip (λ a b. IsServed phase.entry.duty a.value b.value) lots.old.items lots.new.items }
{
    match open_lots(phase, NO_POSTS, lots) {
        Ok((board, seat)) => drop(run_lots(workers, phase, board, seat, lots)),
        Err(NoMemory) => serve_alone(phase.duty, lots),
    }
}
