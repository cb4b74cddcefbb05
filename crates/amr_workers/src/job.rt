//! What is done with the piece of a task.
ghost use Rattle.std.specs.Prelude.{◌≡◌};
ghost use mathlib.Core.Option.{some};
ghost use lib.ListN.{get_elem?};
ghost use Rattle.amr_phase.specs.Plans.{PlanOf, puts_of, adds_of};
ghost use Rattle.amr_board.specs.Views.{current, IsFresh, HasWorked};
ghost use Rattle.amr_board.specs.BoardOf.{IsSeatOf, view};

use amr_board::{Board, Piece, Seat};

/// The work of a phase on each piece.
pub trait Job<P: Piece> {
    // The condition on the job, the board's plan and a piece as handed in.
    ghost ready: { Self → PlanOf → P → Type 0 };

    /// Makes the posts of the task that the seat holds, and gives a piece that the task's piece may become. The seat
    /// still holds the task; its share, its past and its other tasks stay.
    fn work(&self, board: &Board<P>, seat: &mut Seat<P>, piece: P) -> P
        requires seat { IsSeatOf board.now seat.old }
        requires fresh { IsFresh (view seat.old) }
        requires piece { get_elem? board.now.pieces (current (view seat.old)).task ≡ some piece }
        requires task { P.task piece ≡ (current (view seat.old)).task }
        requires posts { (puts_of board.now.plan (current (view seat.old)).task ≡ P.puts piece)
            × (adds_of board.now.plan (current (view seat.old)).task ≡ P.adds piece) }
        requires ready { ready self.now board.now.plan piece }
        ensures seat { IsSeatOf board.now seat.new }
        ensures worked { HasWorked board.now.plan (view seat.old) (view seat.new) }
        ensures next { P.becomes piece result };
}
