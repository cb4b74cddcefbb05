//! The run of a phase.
ghost use Rattle.std.specs.Prelude.{◌≡◌, ℕ, ◌+◌, ◌<◌, ◌≤◌, ◌^◌, true, false, length};
ghost use mathlib.Core.Option.{some};
ghost use lib.ListN.{get_elem?};
ghost use Rattle.std.specs.Thread.{IsSync};
ghost use Rattle.amr_board.specs.Views.{HoldsNone, IsHolding, current};
ghost use Rattle.amr_board.specs.BoardOf.{IsSeatOf, view};

use crate::gate::Gate;
use crate::job::Job;
use amr_board::{Board, Piece, Seat};
use std::thread::{Threads, join};

/// Runs all tasks of a board by this many workers, each in a thread of its own where one can be had. The seat is the
/// only one before and after: it holds no task, and after the phase it is past, so the board may be closed with it.
/// The gate is handed numbers of workers from 0 to `workers` - 1, and of tasks of the plan. It returns when each worker
/// found no task left.
pub fn run_phase<R: Threads + Sync, P: Piece + Send, J: Job<P> + Sync, G: Gate + Sync>(
    rt: &R,
    board: &Board<P>,
    seat: Seat<P>,
    job: &J,
    gate: &G,
    workers: u32,
) -> Seat<P>
    requires seat { IsSeatOf board.now seat }
    requires none { HoldsNone (view seat) }
    requires here { (view seat).past ≡ false }
    requires alone { (view seat).share ≡ 2 ^ 32 }
    requires some_workers { 1 ≤ workers }
    requires few_workers { workers ≤ 64 }
    requires ready { (t : ℕ) (p : P) → get_elem? board.now.pieces t ≡ some p → J.ready job.now board.now.plan p }
    requires gate { (worker task : ℕ) → worker < workers → task < length board.now.plan.tasks → G.admits gate.now worker task }
    ensures seat { IsSeatOf board.now result }
    ensures none { HoldsNone (view result) }
    ensures past { (view result).past ≡ true }
    ensures alone { (view result).share ≡ 2 ^ 32 }
{
    run_workers(
        rt,
        board,
        seat,
        job,
        gate,
        WorkerRange { first: 0, workers },
    )
}

// So many workers, whose numbers go from the first on.
#[derive(Clone, Copy)]
struct WorkerRange {
    first: u32,
    workers: u32,
}

// The workers of a range, in two halves until each is alone.
fn run_workers<R: Threads + Sync, P: Piece + Send, J: Job<P> + Sync, G: Gate + Sync>(
    rt: &R,
    board: &Board<P>,
    mut seat: Seat<P>,
    job: &J,
    gate: &G,
    range: WorkerRange,
) -> Seat<P>
    requires seat { IsSeatOf board.now seat }
    requires none { HoldsNone (view seat) }
    requires here { (view seat).past ≡ false }
    requires some { 1 ≤ range.workers }
    requires numbers { range.first + range.workers ≤ 64 }
    requires share { range.workers ≤ (view seat).share }
    requires ready { (t : ℕ) (p : P) → get_elem? board.now.pieces t ≡ some p → J.ready job.now board.now.plan p }
    requires gate { (worker task : ℕ) → range.first ≤ worker → worker < range.first + range.workers → task < length board.now.plan.tasks
        → G.admits gate.now worker task }
    ensures seat { IsSeatOf board.now result }
    ensures none { HoldsNone (view result) }
    ensures past { (view result).past ≡ true }
    ensures share { (view result).share ≡ (view seat).share }
{
    if range.workers == 1 {
        draw_all(board, &mut seat, job, gate, range.first);
        return seat;
    }
    let half = WorkerRange {
        first: range.first,
        workers: range.workers / 2,
    };
    let more = WorkerRange {
        first: range.first + half.workers,
        workers: range.workers - half.workers,
    };
    let other = board.split(&mut seat);
    let (mut one, two) = join(
        rt,
        move || -> Seat<P>
            requires { IsSync R.row × IsSeatOf board.now seat × HoldsNone (view seat) × ((view seat).past ≡ false) × (1 ≤ half.workers)
                × (half.first + half.workers ≤ 64) × (half.workers ≤ (view seat).share)
                × ((t : ℕ) (p : P) → get_elem? board.now.pieces t ≡ some p → J.ready job.now board.now.plan p)
                × ((worker task : ℕ) → half.first ≤ worker → worker < half.first + half.workers → task < length board.now.plan.tasks
                → G.admits gate.now worker task) }
            ensures { IsSeatOf board.entry.now result × HoldsNone (view result) × ((view result).past ≡ true) × ((view result).share ≡ (view seat).share) }
        { run_workers(rt, board, seat, job, gate, half) },
        move || -> Seat<P>
            requires { IsSync R.row × IsSeatOf board.now other × HoldsNone (view other) × ((view other).past ≡ false) × (1 ≤ more.workers)
                × (more.first + more.workers ≤ 64) × (more.workers ≤ (view other).share)
                × ((t : ℕ) (p : P) → get_elem? board.now.pieces t ≡ some p → J.ready job.now board.now.plan p)
                × ((worker task : ℕ) → more.first ≤ worker → worker < more.first + more.workers → task < length board.now.plan.tasks
                → G.admits gate.now worker task) }
            ensures { IsSeatOf board.entry.now result × HoldsNone (view result) × ((view result).past ≡ true) × ((view result).share ≡ (view other).share) }
        { run_workers(rt, board, other, job, gate, more) },
    );
    board.join(&mut one, two);
    one
}

// Works on the task that the seat has drawn.
pub(crate) fn work_on<P: Piece, J: Job<P>, G: Gate>(
    board: &Board<P>,
    seat: &mut Seat<P>,
    task: u32,
    job: &J,
    gate: &G,
    worker: u32,
)
    requires seat { IsSeatOf board.now seat.old }
    requires holding { IsHolding (view seat.old) task false }
    requires unposted { ((current (view seat.old)).puts ≡ 0) × ((current (view seat.old)).adds ≡ 0) }
    requires ready { (t : ℕ) (p : P) → get_elem? board.now.pieces t ≡ some p → J.ready job.now board.now.plan p }
    requires gate { G.admits gate.now worker task }
    ensures seat { IsSeatOf board.now seat.new }
    ensures none { HoldsNone (view seat.new) }
    ensures past { (view seat.new).past ≡ (view seat.old).past }
    ensures share { (view seat.new).share ≡ (view seat.old).share }
    ensures count { length (view seat.new).tasks ≡ length (view seat.old).tasks }
{
    gate.enter(worker, task);
    let piece = board.take(seat, task);
    let next = job.work(board, seat, piece);
    board.give(seat, task, next);
    gate.leave(worker, task);
}

// Draws tasks until none is left.
pub(crate) fn draw_all<P: Piece, J: Job<P>, G: Gate>(
    board: &Board<P>,
    seat: &mut Seat<P>,
    job: &J,
    gate: &G,
    worker: u32,
)
    requires seat { IsSeatOf board.now seat.old }
    requires none { HoldsNone (view seat.old) }
    requires here { (view seat.old).past ≡ false }
    requires ready { (t : ℕ) (p : P) → get_elem? board.now.pieces t ≡ some p → J.ready job.now board.now.plan p }
    requires gate { (task : ℕ) → task < length board.now.plan.tasks → G.admits gate.now worker task }
    ensures seat { IsSeatOf board.now seat.new }
    ensures none { HoldsNone (view seat.new) }
    ensures past { (view seat.new).past ≡ true }
    ensures share { (view seat.new).share ≡ (view seat.old).share }
{
    'tasks: loop {
        let Some(task) = board.draw(seat) else {
            return;
        };
        work_on(board, seat, task, job, gate, worker);
    }
}
