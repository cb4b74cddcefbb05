//! What a worker does with the piece of a task.

ghost use Rattle.std.specs.Prelude.{◌≡◌};
ghost use Rattle.amr_phase.specs.Plans.{adds_of, planned_face, puts_of};
ghost use Rattle.amr_board.specs.BoardOf.{IsSeatOf, view};
ghost use Rattle.amr_board.specs.Views.{HasWorked, IsFresh, current};
ghost use Rattle.amr_lots.specs.declared.lot.Duty.TheVariants.{Step};
ghost use Rattle.amr_lots.specs.declared.lot.LotStage.TheVariants.{Finished};
ghost use Rattle.amr_lots.specs.declared.lot.Work.{Work as some_work};
ghost use Rattle.amr_lots.specs.Looks.{HasLookedOnly};
ghost use Rattle.amr_lots.specs.Ready.{MayBegin, MayFinish};
ghost use Rattle.amr_lots.specs.Duties.{IsServed, MayServe};
ghost use Rattle.amr_lots.specs.Works.{KeepsTask, StandsFor, adds_of_work, puts_of_work};

use crate::border::finish;
use crate::duties::serve;
use crate::lot::{LotStage, Work};
use crate::sweep::sweep_work;
use amr_board::{Board, Seat};
use amr_def::Problem;
use amr_workers::Job;

// How often a worker looks for what its lot reads, before it gives the lot back as it is: as others finish a step at about the same time it
// is mostly there at once.
const LOOKS: u32 = 1 << 10;

/// The work of a phase on each lot of a level. In a step it fills the frames of the lot's patches, works out what flows into register cells,
/// posts what flows through the faces that other lots read and what is added to words, and makes the new masses: of the patches that read a
/// place where all that they read is on the board, else once the board is closed. A finished lot packs what other lots need at the next step.
#[derive(Clone, Copy)]
pub struct LevelWork<'a> {
    pub problem: &'a Problem,
}

/// Finishes a swept lot, as soon as what it reads is there, but doesn't wait for long.
fn finish_in_time(p: &Problem, board: &Board<Work>, seat: &mut Seat<Work>, mut work: Work) -> Work
    requires seat { IsSeatOf board.now seat.old }
    requires ready { MayFinish p.now (planned_face board.now.plan) board.now.plan.places work }
    ensures seat { IsSeatOf board.now seat.new }
    ensures looked { HasLookedOnly (view seat.old) (view seat.new) }
    ensures stands { (raw : some_work) → StandsFor raw work → StandsFor raw result }
{
    'looks: for _look in 0..LOOKS {
        work = finish(p, board, seat, work);
        if work.stage.is_finished() {
            return work;
        }
    }
    work
}

/// The step of a lot.
fn step(p: &Problem, board: &Board<Work>, seat: &mut Seat<Work>, mut work: Work) -> Work
    requires seat { IsSeatOf board.now seat.old }
    requires fresh { IsFresh (view seat.old) }
    requires step { work.duty ≡ Step }
    requires ready { MayBegin p.now board.now.plan work }
    requires posts { (puts_of board.now.plan (current (view seat.old)).task ≡ puts_of_work work)
        × (adds_of board.now.plan (current (view seat.old)).task ≡ adds_of_work work) }
    ensures seat { IsSeatOf board.now seat.new }
    ensures worked { HasWorked board.now.plan (view seat.old) (view seat.new) }
    ensures stands { StandsFor work result }
{
    sweep_work(p, board, seat, &mut work);
    finish_in_time(p, board, seat, work)
}

/// Does what is to be done with a piece that posts nothing.
fn serve_piece(mut piece: Work) -> Work
    requires { MayServe piece.duty piece.lot.value }
    ensures keeps { KeepsTask piece result }
    ensures finished { result.stage ≡ Finished }
    ensures served { IsServed piece.duty piece.lot.value result.lot.value }
{
    serve(piece.duty, &mut piece.lot);
    piece.stage = LotStage::Finished;
    piece
}

impl Job<Work> for LevelWork<'_> {
    ghost use Rattle.amr_lots.specs.Ready.{MayBegin};

    ghost ready = { λ job plan w. MayBegin job.problem.now plan w };

    fn work(&self, board: &Board<Work>, seat: &mut Seat<Work>, piece: Work) -> Work {
        if piece.duty.posts() {
            return step(self.problem, board, seat, piece);
        }
        serve_piece(piece)
    }
}
