//! The rule of a board over its atomic table, and what each kind of step tells its seat.
ghost use Rattle.amr_board.specs.Piece.{plan_of};
ghost use Rattle.amr_board.specs.Rule.{Rule};
ghost use Rattle.amr_board.specs.Views.{first_view, keeps_half, other_half, joined, spent_view};
ghost use Rattle.amr_board.specs.Plays.{Draws, Takes, Puts, Adds, Faces, Gives};

use crate::board::Shape;
use crate::piece::Piece;
use crate::view::View;
use atomic_table::{Join, Play, Split, TableRule};
use std::marker::PhantomData;
use std::snapshot::Snapshot;

/// What a table is told: its shape, and the pieces as they were handed in.
#[derive(Drop)]
pub struct BoardSetup<P> {
    pub shape: Shape,
    pub pieces: Snapshot<Vec<P>>,
}

/// The board's invariant.
pub struct BoardRule<P> {
    piece: PhantomData<P>,
}

impl<P: Piece> TableRule<Option<P>, View<P>, BoardSetup<P>> for BoardRule<P> {
    ghost holds = { λ about s. Rule
        (plan_of P.puts P.adds about.shape.places about.shape.words about.pieces.value.items) about.pieces.value.items P.becomes s };

    ghost first = { λ about. first_view (plan_of P.puts P.adds about.shape.places about.shape.words about.pieces.value.items) about.pieces.value.items };
}

pub struct Drawing;

impl<P> Play<Option<P>, View<P>> for Drawing {
    ghost then = { Draws };
}

pub struct Taking;

impl<P> Play<Option<P>, View<P>> for Taking {
    ghost then = { Takes };
}

pub struct Putting;

impl<P> Play<Option<P>, View<P>> for Putting {
    ghost then = { Puts };
}

pub struct Adding;

impl<P> Play<Option<P>, View<P>> for Adding {
    ghost then = { Adds };
}

pub struct Looking;

impl<P> Play<Option<P>, View<P>> for Looking {
    ghost then = { Faces };
}

pub struct Giving;

impl<P> Play<Option<P>, View<P>> for Giving {
    ghost then = { Gives };
}

pub struct Halves;

impl<P> Split<View<P>> for Halves {
    ghost left = { keeps_half };

    ghost right = { other_half };
}

impl<P> Join<View<P>> for Halves {
    ghost both = { joined };

    ghost spent = { spent_view };
}
