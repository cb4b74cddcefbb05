//! Who makes the steps of levels, and the boards that they run.

ghost use Rattle.std.specs.Prelude.{◌≡◌, ◌<◌, ◌^◌, ℕ, Some, false, length};
ghost use mathlib.Core.Option.{some};
ghost use lib.ListN.{get_elem?};
ghost use Rattle.amr_phase.specs.Plans.{planned_face, planned_total};
ghost use Rattle.amr_board.specs.BoardOf.{IsSeatOf, view};
ghost use Rattle.amr_board.specs.Ended.{face_of, total_of};
ghost use Rattle.amr_board.specs.Views.{HoldsNone};
ghost use Rattle.amr_lots.specs.Ready.{MayBegin};
ghost use Rattle.amr_lots.specs.Works.{StandsFor};
ghost use Rattle.amr_lots.specs.declared.lot.Work.{Work as piece};
ghost use Rattle.amr_advance.specs.Crews.{MayRun};

use amr_board::{Board, Ended, Seat};
use amr_def::Problem;
use amr_lots::{LevelWork, Work};
use amr_workers::{Gate, Team, run_phase};
use std::alloc::Global;
use std::sync::Wait;
use std::thread::Threads;

/// Who works on a step: so many ranks, each with so many workers.
#[derive(Clone, Copy, Debug)]
pub struct Crew {
    /// 1 so far.
    pub ranks: u32,
    /// From 1 to 64.
    pub workers: u32,
}

/// Who makes the steps of levels: so many workers, under a gate that each calls around each task that it draws. They are a team that
/// lasts from step to step, or threads made for each phase.
#[derive(Drop)]
pub struct Workers<'a, R, G: Gate> {
    pub runtime: &'a R,
    pub gate: &'a G,
    pub count: u32,
    pub team: Option<Team<'a, Work, LevelWork<'a>, G>>,
}

/// Has workers do all tasks of a board, and closes it: the team, where there is one, else threads that are made for it.
pub(crate) fn run_board<R: Threads + Wait + Sync, G: Gate + Sync>(
    workers: &mut Workers<'_, R, G>,
    alloc: Global,
    p: &Problem,
    board: Board<Work>,
    seat: Seat<Work>,
) -> Ended<Work>
    requires seat { IsSeatOf board seat }
    requires none { HoldsNone (view seat) }
    requires here { (view seat).past ≡ false }
    requires alone { (view seat).share ≡ 2 ^ 32 }
    requires ready { (t : ℕ) (w : piece) → get_elem? board.pieces t ≡ some w → MayBegin p.now board.plan w }
    requires crew { MayRun G.admits p.now (length board.plan.tasks) workers.old }
    ensures workers { workers.new ≡ workers.old }
    ensures shape { (result.places ≡ board.plan.places) × (result.registers ≡ board.plan.words) }
    ensures totals { (w : ℕ) → w < board.plan.words → total_of result w ≡ planned_total board.plan w }
    ensures faces { (place : ℕ) → place < board.plan.places → face_of result place ≡ planned_face board.plan place }
    ensures pieces { (t : ℕ) (w : piece) → get_elem? board.pieces t ≡ some w → (v : piece) × StandsFor w v × (get_elem? result.pieces t ≡ some (Some v)) }
{
    match &mut workers.team {
        Some(team) => team.run_phase(workers.runtime, alloc, board, seat),
        None => {
            let count = workers.count.min(board.tasks()).max(1);
            let job = LevelWork { problem: p };
            let last = run_phase(workers.runtime, &board, seat, &job, workers.gate, count);
            board.close(last)
        }
    }
}
