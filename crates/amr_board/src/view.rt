//! What a seat knows. No value of these types is made: contracts and proofs alone see them.
use amr_phase::Plan;
use std::collections::LinkedList;

/// What a seat did in one atomic step.
pub enum Deed {
    Draw,
    Take,
    Put,
    Add,
    /// A look at this place.
    Face(u32),
    Give,
}

/// A task of the seat, and how far it is: so many of its puts and adds are made.
pub struct Progress {
    pub task: u32,
    pub taken: bool,
    pub given: bool,
    pub puts: u32,
    pub adds: u32,
}

/// A look: its number, counted from 1, the place, and the word that it found, where 0 is empty.
pub struct Look {
    pub number: u64,
    pub place: u32,
    pub found: u64,
}

/// What a seat knows of the board and of itself.
pub struct View<P> {
    /// Whether the seat was joined into another.
    pub spent: bool,
    pub plan: Plan,
    /// The pieces as they were handed in.
    pub pieces: LinkedList<P>,
    /// The tasks that it drew, and those of the seats that joined it. The task that it drew last comes first.
    pub tasks: LinkedList<Progress>,
    /// Whether it found no task left.
    pub past: bool,
    /// Its share of the right to be the only seat: all shares add up to 2^32.
    pub share: u64,
    /// The places that it knows to be filled.
    pub known: LinkedList<u32>,
    /// Its last look.
    pub look: Look,
    /// What it did itself, in order.
    pub deeds: LinkedList<Deed>,
    /// How many deeds are its own or of the seats that joined it.
    pub made: u64,
}
