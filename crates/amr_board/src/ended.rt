//! A board that no thread shares any more.
ghost use Rattle.std.specs.Prelude.{◌≡◌, ◌+◌, ◌<◌, ℕ, Some, None, slice_set};
ghost use Rattle.std.specs.Mem.Slots.{slots_items, slots_len, IsFull};
ghost use Rattle.amr_board.specs.Ended.{total_of, face_of};
ghost use mathlib.Core.Option.{some};
ghost use lib.ListN.{get_elem?};

use crate::board::Shape;
use atomic_table::Closed;
use std::alloc::Global;
use std::marker::Model;

/// What a board holds at its end: the totals of its words, what was put at its places, and the pieces given back.
pub struct Ended<P> {
    closed: Closed<Option<P>, Global>,
    shape: Shape,
}

impl<P> Model for Ended<P> {
    ghost use Rattle.std.specs.Prelude.{◌≡◌, ◌+◌};
    ghost use Rattle.std.specs.Mem.Slots.{slots_items, slots_len, IsFull};
    ghost use Rattle.amr_board.specs.Ended.{EndedOf};

    ghost Value = { EndedOf P };

    ghost view = { λ e. record {
      places = e.shape.places;
      registers = e.shape.words;
      words = slots_items e.closed.words;
      pieces = slots_items e.closed.slots;
    } };

    ghost invariant = { λ e. (slots_len e.closed.words ≡ 1 + e.shape.places + e.shape.words) × IsFull e.closed.words × IsFull e.closed.slots };
}

impl<P> Ended<P> {
    pub(crate) fn new(closed: Closed<Option<P>, Global>, shape: Shape) -> Ended<P>
        requires words { (slots_len closed.words ≡ 1 + shape.places + shape.words) × IsFull closed.words }
        requires slots { IsFull closed.slots }
        ensures { result ≡ record { places = shape.places; registers = shape.words; words = slots_items closed.words; pieces = slots_items closed.slots } }
    {
        Ended { closed, shape }
    }

    /// The total of a register word.
    pub fn total(&self, word: u32) -> u64
        requires { word < self.now.registers }
        ensures { result ≡ total_of self.now word }
    {
        let at = 1 + self.shape.places as usize + word as usize;
        self.closed.word(at)
    }

    /// What was put at a planned place.
    pub fn face(&self, place: u32) -> u64
        requires place { place < self.now.places }
        requires planned { 0 < face_of self.now place }
        ensures { face_of self.now place ≡ result + 1 }
    {
        let at = 1 + place as usize;
        self.closed.word(at) - 1
    }

    /// Hands out the piece that was given back for a task. It can be handed out once.
    pub fn hand(&mut self, task: u32) -> P
        requires { (p : P) × (get_elem? self.old.pieces task ≡ some (Some p)) }
        ensures piece { get_elem? self.old.pieces task ≡ some (Some result) }
        ensures gone { self.new ≡ record self.old { pieces = slice_set self.old.pieces task None } }
    {
        let piece = self.closed.take(task as usize);
        self.closed.slots.put(task as usize, None);
        piece.unwrap()
    }
}

impl<P: Drop> Drop for Ended<P> {
    fn drop(self) {
        let Self {
            mut closed,
            shape: _,
        } = self;
        let mut slot = 0;
        'slots: while slot < closed.slot_count() {
            drop(closed.take(slot));
            slot += 1;
        }
        closed.free();
    }
}
