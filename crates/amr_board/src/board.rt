//! The board: word 0 counts the draws, then come the words of the places, then the registers. Slot t holds the piece of
//! task t while it is at home.
ghost use Rattle.std.specs.Prelude.{◌≡◌, ℕ, ◌+◌, ◌<◌, ◌≤◌, ◌^◌, List, IfOk, IfErr, IfSome, MatchOption, IsSome, Some, true, false, [], map, length, Contains};
ghost use Rattle.amr_phase.specs.Plans.{IsPlan, puts_of, adds_of, planned_total, planned_face};
ghost use Rattle.amr_phase.specs.Machine.{word_of};
ghost use Rattle.amr_board.specs.Piece.{plan_of, AreNumbered};
ghost use Rattle.amr_board.specs.Views.{first_view, current, IsHolding, HoldsNone, IsNextPut, IsNextAdd, drawn, gone, taking};
ghost use Rattle.amr_board.specs.Views.{put_done, add_done, looked, giving, keeps_half, other_half, joined};
ghost use Rattle.amr_board.specs.Ended.{total_of, face_of};
ghost use Rattle.amr_board.specs.LastState.{IsEndOf};
ghost use mathlib.Core.Option.{some};
ghost use lib.ListN.{get_elem?};

use crate::ended::Ended;
use crate::piece::Piece;
use crate::rule::{
    Adding, BoardRule, BoardSetup, Drawing, Giving, Halves, Looking, Putting, Taking,
};
use crate::slots::{from_slots, to_slots};
use crate::view::View;
use atomic_table::{Refused, Table};
use std::alloc::Global;
use std::marker::Model;
use std::snapshot::Snapshot;

/// How many places and register words there are.
#[derive(Clone, Copy)]
pub struct Shape {
    pub places: u32,
    pub words: u32,
}

/// Why there is no board: out of memory. The pieces come back.
#[derive(Drop)]
pub enum MakeFault<P> {
    NoMemory(Vec<P>),
}

/// What a worker steps on a board with. It takes no bytes.
pub type Seat<P> = atomic_table::Seat<Option<P>, View<P>>;

/// A phase that workers share: its tasks to draw, its pieces in slots, the words of its places and registers. It is
/// shared by `&`, and each call takes the caller's own seat. A call makes one atomic step of a fixed cost and takes
/// no memory.
#[derive(Drop)]
pub struct Board<P: Piece> {
    table: Table<Option<P>, View<P>, BoardSetup<P>, BoardRule<P>, Global>,
    shape: Shape,
    tasks: u32,
}

impl<P: Piece> Model for Board<P> {
    ghost use Rattle.std.specs.Prelude.{◌≡◌, ◌+◌, length};
    ghost use Rattle.amr_phase.specs.Plans.{IsPlan};
    ghost use Rattle.amr_board.specs.Piece.{plan_of, AreNumbered};
    ghost use Rattle.amr_board.specs.BoardOf.{BoardOf};

    ghost Value = { BoardOf P };

    ghost view = { λ b. record {
      id = b.table.shared.table_id;
      plan = plan_of P.puts P.adds b.table.shared.key.shape.places b.table.shared.key.shape.words b.table.shared.key.pieces.value.items;
      pieces = b.table.shared.key.pieces.value.items;
    } };

    ghost invariant = { λ b. (b.table.shared.key.shape ≡ b.shape) × (b.table.shared.table_id.words ≡ 1 + b.shape.places + b.shape.words)
        × (b.table.shared.table_id.slots ≡ b.tasks) × (b.tasks ≡ length b.table.shared.key.pieces.value.items)
        × IsPlan (plan_of P.puts P.adds b.table.shared.key.shape.places b.table.shared.key.shape.words b.table.shared.key.pieces.value.items)
        × AreNumbered P.task b.table.shared.key.pieces.value.items };
}

impl<P: Piece> Board<P> {
    ghost use Rattle.amr_board.specs.declared.view.Deed.TheVariants.{Draw, Take, Put, Add, Face, Give};
    ghost use Rattle.amr_board.specs.BoardOf.{IsSeatOf, view, IsEvent, IsNoEvent};
    ghost use Rattle.amr_board.specs.MakeFault.{pieces_back};

    /// A board for these pieces, piece i being task i, and its first seat, which has every share. It is refused
    /// only if allocation fails, and then the pieces come back.
    pub fn make(
        alloc: Global,
        shape: Shape,
        mut pieces: Vec<P>,
    ) -> Result<(Board<P>, Seat<P>), MakeFault<P>>
        requires plan { IsPlan (plan_of P.puts P.adds shape.places shape.words pieces.items) }
        requires numbered { AreNumbered P.task pieces.items }
        requires few { length pieces.items < 2 ^ 32 }
        ensures board { IfOk result (λ r. (r.0.pieces ≡ pieces.items) × (r.0.plan ≡ plan_of P.puts P.adds shape.places shape.words pieces.items)) }
        ensures seat { IfOk result (λ r. IsSeatOf r.0 r.1 × (view r.1 ≡ first_view r.0.plan r.0.pieces)) }
        ensures back { IfErr result (λ fault. pieces_back fault ≡ pieces.items) }
    {
        let about = BoardSetup {
            shape,
            pieces: Snapshot::of(&pieces),
        };
        let tasks = pieces.len() as u32;
        let count = 1 + shape.places as usize + shape.words as usize;
        let Ok(words) = vec![in alloc; 0u64; count] else {
            return Err(MakeFault::NoMemory(pieces));
        };
        let Ok(slots) = to_slots(alloc, &mut pieces) else {
            return Err(MakeFault::NoMemory(pieces));
        };
        match Table::new(alloc, words.as_slice(), slots, &about) {
            Ok((table, seat)) => Ok((
                Board {
                    table,
                    shape,
                    tasks,
                },
                seat,
            )),
            Err(refused) => {
                let Refused { slots } = refused;
                from_slots(&mut pieces, slots);
                Err(MakeFault::NoMemory(pieces))
            }
        }
    }

    /// How many tasks there are.
    pub fn tasks(&self) -> u32
        ensures { result ≡ length self.now.plan.tasks }
    {
        self.tasks
    }

    /// Draws the next task. None exactly where the counter that it found was at least the number of tasks: then the seat
    /// is past.
    pub fn draw(&self, seat: &mut Seat<P>) -> Option<u32>
        requires seat { IsSeatOf self.now seat.old }
        requires none { HoldsNone (view seat.old) }
        requires here { (view seat.old).past ≡ false }
        ensures seat { IsSeatOf self.now seat.new }
        ensures drew { MatchOption result (view seat.new ≡ gone (view seat.old))
            (λ t. (t < length self.now.plan.tasks) × (view seat.new ≡ drawn (view seat.old) t)) }
        ensures few { length (view seat.new).tasks ≤ length self.now.plan.tasks }
        ensures event { IsEvent Draw seat.old seat.new }
    {
        let found = self.table.shared.fetch_add::<Drawing>(seat, 0, 1);
        if found < u64::from(self.tasks) {
            Some(found as u32)
        } else {
            None
        }
    }

    /// Takes the piece of the task that the seat drew, as it was handed in.
    pub fn take(&self, seat: &mut Seat<P>, task: u32) -> P
        requires seat { IsSeatOf self.now seat.old }
        requires holding { IsHolding (view seat.old) task false }
        ensures seat { IsSeatOf self.now seat.new }
        ensures view { view seat.new ≡ taking (view seat.old) }
        ensures piece { get_elem? self.now.pieces task ≡ some result }
        ensures task { P.task result ≡ task }
        ensures posts { (puts_of self.now.plan task ≡ P.puts result) × (adds_of self.now.plan task ≡ P.adds result) }
        ensures event { IsEvent Take seat.old seat.new }
    {
        self.table.shared.load::<Taking>(seat, 0);
        let piece = self.table.shared.exchange(seat, task as usize, None);
        piece.unwrap()
    }

    /// Makes the seat's next planned put.
    pub fn put(&self, seat: &mut Seat<P>, place: u32, amount: u64)
        requires seat { IsSeatOf self.now seat.old }
        requires next { IsNextPut (view seat.old) place amount }
        ensures seat { IsSeatOf self.now seat.new }
        ensures view { view seat.new ≡ put_done (view seat.old) place }
        ensures event { IsEvent Put seat.old seat.new }
    {
        let at = 1 + place as usize;
        self.table.shared.store::<Putting>(seat, at, amount + 1);
    }

    /// Makes the seat's next planned add.
    pub fn add(&self, seat: &mut Seat<P>, word: u32, amount: u64)
        requires seat { IsSeatOf self.now seat.old }
        requires next { IsNextAdd (view seat.old) word amount }
        ensures seat { IsSeatOf self.now seat.new }
        ensures view { view seat.new ≡ add_done (view seat.old) }
        ensures event { IsEvent Add seat.old seat.new }
    {
        let at = 1 + self.shape.places as usize + word as usize;
        self.table.shared.fetch_add::<Adding>(seat, at, amount);
    }

    /// What was put at a place. None exactly where the word that this look found, which the seat notes, is empty. It
    /// isn't where the seat made the put or knows it by a join or an earlier look.
    pub fn face(&self, seat: &mut Seat<P>, place: u32) -> Option<u64>
        requires seat { IsSeatOf self.now seat.old }
        requires place { place < self.now.plan.places }
        ensures seat { IsSeatOf self.now seat.new }
        ensures look { view seat.new ≡ looked (view seat.old) place (word_of result) }
        ensures planned { IfSome result (λ amount. planned_face self.now.plan place ≡ amount + 1) }
        ensures known { Contains (view seat.old).known place → IsSome result }
        ensures event { IsEvent (Face place) seat.old seat.new }
    {
        let at = 1 + place as usize;
        let found = self.table.shared.load::<Looking>(seat, at);
        if found == 0 { None } else { Some(found - 1) }
    }

    /// Gives back a piece that the task's piece may become, once its posts are made.
    pub fn give(&self, seat: &mut Seat<P>, task: u32, piece: P)
        requires seat { IsSeatOf self.now seat.old }
        requires holding { IsHolding (view seat.old) task true }
        requires puts { (current (view seat.old)).puts ≡ length (puts_of self.now.plan task) }
        requires adds { (current (view seat.old)).adds ≡ length (adds_of self.now.plan task) }
        requires piece { (p : P) → get_elem? self.now.pieces task ≡ some p → P.becomes p piece }
        ensures seat { IsSeatOf self.now seat.new }
        ensures view { view seat.new ≡ giving (view seat.old) }
        ensures event { IsEvent Give seat.old seat.new }
    {
        let None = self.table.shared.exchange(seat, task as usize, Some(piece)) else {
            unreachable!()
        };
        self.table.shared.load::<Giving>(seat, 0);
    }

    /// A new seat with half the share. It knows the puts that the seat knows.
    pub fn split(&self, seat: &mut Seat<P>) -> Seat<P>
        requires seat { IsSeatOf self.now seat.old }
        requires none { HoldsNone (view seat.old) }
        requires share { 2 ≤ (view seat.old).share }
        ensures seat { IsSeatOf self.now seat.new }
        ensures other { IsSeatOf self.now result }
        ensures view { view seat.new ≡ keeps_half (view seat.old) }
        ensures new { view result ≡ other_half (view seat.old) }
        ensures event { IsNoEvent seat.old seat.new }
    {
        self.table.shared.split_seat::<Halves>(seat)
    }

    /// Takes in what the other seat did and knows.
    pub fn join(&self, seat: &mut Seat<P>, other: Seat<P>)
        requires seat { IsSeatOf self.now seat.old }
        requires none { HoldsNone (view seat.old) }
        requires other { IsSeatOf self.now other }
        requires other_none { HoldsNone (view other) }
        ensures seat { IsSeatOf self.now seat.new }
        ensures view { view seat.new ≡ joined (view seat.old) (view other) }
        ensures event { IsNoEvent seat.old seat.new }
    {
        self.table.shared.join_seat::<Halves>(seat, other);
    }

    /// Ends the board. The seat is the only one left, is past, and holds no task. So all tasks are done, and the words
    /// have the plan's totals and faces. For each task there is a piece that its piece may become.
    pub fn close(self, seat: Seat<P>) -> Ended<P>
        requires seat { IsSeatOf self seat }
        requires none { HoldsNone (view seat) }
        requires past { (view seat).past ≡ true }
        requires alone { (view seat).share ≡ 2 ^ 32 }
        ensures shape { (result.places ≡ self.plan.places) × (result.registers ≡ self.plan.words) }
        ensures totals { (w : ℕ) → w < self.plan.words → total_of result w ≡ planned_total self.plan w }
        ensures faces { (p : ℕ) → p < self.plan.places → face_of result p ≡ planned_face self.plan p }
        ensures pieces { (t : ℕ) (p : P) → get_elem? self.pieces t ≡ some p → (y : P) × P.becomes p y × (get_elem? result.pieces t ≡ some (Some y)) }
    {
        self.end(seat)
    }

    /// Gives up a board of which no task was drawn. The seat is the only one left. All pieces are there, as they were
    /// handed in and in their order, and the words are as at the start. (used where of several boards, one for each
    /// rank, a later one gets no memory)
    pub fn dismiss(self, seat: Seat<P>) -> Ended<P>
        requires seat { IsSeatOf self seat }
        requires undrawn { (view seat).tasks ≡ [] }
        requires alone { (view seat).share ≡ 2 ^ 32 }
        ensures shape { (result.places ≡ self.plan.places) × (result.registers ≡ self.plan.words) }
        ensures totals { (w : ℕ) → w < self.plan.words → total_of result w ≡ 0 }
        ensures faces { (p : ℕ) → p < self.plan.places → face_of result p ≡ 0 }
        ensures pieces { result.pieces ≡ map Some self.pieces }
    {
        self.end(seat)
    }

    // Closes the table with the seat.
    fn end(self, seat: Seat<P>) -> Ended<P>
        requires seat { IsSeatOf self seat }
        ensures { IsEndOf P.becomes self seat result }
    {
        let Board {
            table,
            shape,
            tasks: _,
        } = self;
        Ended::new(table.close_with(seat), shape)
    }
}
