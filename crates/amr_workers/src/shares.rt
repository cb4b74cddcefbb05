//! Seats of a board that are lent to kept workers.
ghost use Rattle.std.specs.Prelude.{◌≡◌, ◌+◌, ◌^◌, ◌≤◌, ℕ};
ghost use Rattle.amr_board.specs.BoardOf.{view};
ghost use Rattle.amr_workers.specs.Orders.{MayDraw};
ghost use Rattle.amr_workers.specs.Shares.{MayLend, whole};

use amr_board::{Board, Piece, Seat};

/// Three seats of one board. A loan is half of the first one, which then comes last. So each is halved at every third
/// loan, and they are enough for 63.
#[derive(Drop)]
pub(crate) struct Shares<P: Piece> {
    first: Seat<P>,
    second: Seat<P>,
    third: Seat<P>,
}

impl<P: Piece> Shares<P> {
    /// Three seats in place of the only one of a board.
    pub(crate) fn of(board: &Board<P>, mut seat: Seat<P>) -> Shares<P>
        requires seat { MayDraw board.now seat }
        requires alone { (view seat).share ≡ 2 ^ 32 }
        ensures enough { (workers : ℕ) → workers ≤ 63 → MayLend board.now workers result }
        ensures whole { whole result ≡ 2 ^ 32 }
    {
        let mut second = board.split(&mut seat);
        let third = board.split(&mut second);
        Shares {
            first: seat,
            second,
            third,
        }
    }

    /// A seat for one worker, and the seats for the others.
    pub(crate) fn lend(self, board: &Board<P>) -> (Seat<P>, Shares<P>)
        requires { MayLend board.now 1 self }
        ensures seat { MayDraw board.now result.0 }
        ensures others { (workers : ℕ) → MayLend board.now (1 + workers) self → MayLend board.now workers result.1 }
        ensures whole { (view result.0).share + whole result.1 ≡ whole self }
    {
        let Shares {
            mut first,
            second,
            third,
        } = self;
        let lent = board.split(&mut first);
        let others = Shares {
            first: second,
            second: third,
            third: first,
        };
        (lent, others)
    }

    /// One seat in place of the three.
    pub(crate) fn joined(self, board: &Board<P>) -> Seat<P>
        requires { MayLend board.now 0 self }
        ensures seat { MayDraw board.now result }
        ensures share { (view result).share ≡ whole self }
    {
        let Shares {
            mut first,
            second,
            third,
        } = self;
        board.join(&mut first, second);
        board.join(&mut first, third);
        first
    }
}
