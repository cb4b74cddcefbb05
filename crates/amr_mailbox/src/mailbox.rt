//! The mailbox and its calls: word 0 says whose turn it is, slot 0 holds the mail while neither end has it.
ghost use Rattle.std.specs.Prelude.{◌≡◌, IfOk, IfSome, MatchOption};
ghost use Rattle.amr_mailbox.specs.declared.view.Turn.TheVariants.{Free, Busy, Over};
ghost use Rattle.amr_mailbox.specs.MailboxOf.{end_of, IsBusy};
ghost use Rattle.amr_mailbox.specs.Found.{IsFound};

use crate::ends::{Asker, Worker};
use crate::errand::Errand;
use crate::mail::Mail;
use crate::patience::Patience;
use crate::rule::{
    Answering, Collecting, Dismissing, Halves, Looking, MailboxRule, Opening, Posting, TakingBack,
};
use crate::view::View;
use atomic_table::{Refused, Table};
use std::alloc::{AllocError, Global};
use std::marker::Model;
use std::sync::Wait;
use std::sync::atomic::{AtomicBool, Ordering};

// What the word says: it is the asker's turn; an order lies in the slot; no order comes any more; the worker has taken
// the order.
const ASKERS_TURN: u64 = 0;

const POSTED: u64 = 1;

const DISMISSED: u64 = 2;

const TAKEN: u64 = 3;

// How many looks for an answer come at once.
const LOOKS: u32 = 2048;

/// What a worker finds in one look.
#[derive(Drop)]
enum Found<O> {
    Nothing,
    Order(O),
    Dismissal,
}

/// A place for one order and then its answer. It is shared by `&`, and each call takes the caller's own end. Who drops
/// an end makes nobody wrong: the other end then waits.
#[derive(Drop)]
pub struct Mailbox<O, A, K, E: Errand<O, A, K>> {
    table: Table<Mail<O, A>, View<O, K>, K, MailboxRule<E>, Global>,
    attended: AtomicBool,
    asleep: AtomicBool,
}

impl<O, A, K, E: Errand<O, A, K>> Model for Mailbox<O, A, K, E> {
    ghost use Rattle.std.specs.Prelude.{◌≡◌};
    ghost use Rattle.amr_mailbox.specs.MailboxOf.{MailboxOf};

    ghost Value = { MailboxOf K };

    ghost view = { λ m. record { id = m.table.shared.table_id; key = m.table.shared.key } };

    ghost invariant = { λ m. (m.table.shared.table_id.words ≡ 1) × (m.table.shared.table_id.slots ≡ 1) };
}

impl<O: Drop, A: Drop, K, E: Errand<O, A, K>> Mailbox<O, A, K, E> {
    /// A mailbox that is told this key, and its two ends. It is refused only if allocation fails.
    pub fn make(
        alloc: Global,
        key: &K,
    ) -> Result<(Mailbox<O, A, K, E>, Asker<O, A, K>, Worker<O, A, K>), AllocError>
        ensures key { IfOk result (λ r. r.0.key ≡ key.now) }
        ensures asker { IfOk result (λ r. r.1 ≡ end_of r.0 Free) }
        ensures worker { IfOk result (λ r. r.2 ≡ end_of r.0 Free) }
    {
        let mut slots = Vec::with_capacity(alloc, 1)?;
        slots.push_reserved(Mail::Empty);
        let (table, mut seat) = match Table::new(alloc, &[ASKERS_TURN], slots, key) {
            Ok(made) => made,
            Err(Refused { slots: _ }) => return Err(AllocError),
        };
        table.shared.load::<Opening>(&mut seat, 0);
        let other = table.shared.split_seat::<Halves>(&mut seat);
        let mailbox = Mailbox {
            table,
            attended: AtomicBool::new(false),
            asleep: AtomicBool::new(false),
        };
        Ok((mailbox, Asker { seat }, Worker { seat: other }))
    }

    /// Tells the asker that the worker is there. An order that is posted before has to wait until it is.
    pub fn attend(&self) {
        self.attended.store(true, Ordering::SeqCst);
    }

    /// Whether the worker has told that it is there.
    pub fn is_attended(&self) -> bool {
        self.attended.load(Ordering::SeqCst)
    }

    /// Posts an order, which is the worker's once it takes it, and wakes the worker where it sleeps.
    pub fn post(&self, asker: &mut Asker<O, A, K>, order: O)
        requires free { asker.old ≡ end_of self.now Free }
        requires may { E.may self.now.key order }
        ensures { asker.new ≡ end_of self.now (Busy order) }
    {
        let shared = &self.table.shared;
        let Mail::Empty = shared.exchange(&mut asker.seat, 0, Mail::Order(order)) else {
            unreachable!()
        };
        shared.store::<Posting>(&mut asker.seat, 0, POSTED);
        if self.asleep.load(Ordering::SeqCst) {
            shared.wake_one(0);
        }
    }

    /// Takes the order back where the worker has not taken it, so that the asker may do it itself.
    pub fn take_back(&self, asker: &mut Asker<O, A, K>) -> Option<O>
        requires asked { IsBusy self.now asker.old }
        ensures back { MatchOption result (asker.new ≡ asker.old) (λ order. asker.old.turn ≡ Busy order) }
        ensures free { MatchOption result (asker.new ≡ asker.old) (λ _. asker.new ≡ end_of self.now Free) }
    {
        let shared = &self.table.shared;
        if shared.compare_exchange::<TakingBack>(&mut asker.seat, 0, POSTED, ASKERS_TURN)
            != POSTED
        {
            return None;
        }
        let Mail::Order(order) = shared.exchange(&mut asker.seat, 0, Mail::Empty) else {
            unreachable!()
        };
        Some(order)
    }

    /// Waits for the answer, which serves the order that was posted.
    pub fn collect(&self, rt: &impl Wait, asker: &mut Asker<O, A, K>) -> A
        requires asked { IsBusy self.now asker.old }
        ensures serves { (order : O) → asker.old.turn ≡ Busy order → E.serves order result }
        ensures free { asker.new ≡ end_of self.now Free }
    {
        let mut patience = Patience::new(LOOKS);
        'looks: for _ in rt.forever() {
            if let Some(answer) = self.try_collect(asker) {
                return answer;
            }
            patience.pause();
        }
        unreachable!()
    }

    // One look for the answer.
    fn try_collect(&self, asker: &mut Asker<O, A, K>) -> Option<A>
        requires asked { IsBusy self.now asker.old }
        ensures serves { MatchOption result (asker.new ≡ asker.old) (λ a. (order : O) → asker.old.turn ≡ Busy order → E.serves order a) }
        ensures free { MatchOption result (asker.new ≡ asker.old) (λ _. asker.new ≡ end_of self.now Free) }
    {
        let shared = &self.table.shared;
        if shared.load::<Collecting<E>>(&mut asker.seat, 0) != ASKERS_TURN {
            return None;
        }
        let Mail::Answer(answer) = shared.exchange(&mut asker.seat, 0, Mail::Empty) else {
            unreachable!()
        };
        Some(answer)
    }

    /// Lets the worker go, and wakes it: no order comes any more.
    pub fn dismiss(&self, asker: &mut Asker<O, A, K>)
        requires free { asker.old ≡ end_of self.now Free }
        ensures { asker.new ≡ end_of self.now Over }
    {
        let shared = &self.table.shared;
        shared.store::<Dismissing>(&mut asker.seat, 0, DISMISSED);
        shared.wake_one(0);
    }

    /// Waits for the next order. None once the worker is dismissed. After so many looks the thread sleeps until the asker
    /// wakes it, and then looks as often again: the order that it was woken for may have been taken back.
    pub fn next(&self, rt: &impl Wait, worker: &mut Worker<O, A, K>, looks: u32) -> Option<O>
        requires free { worker.old ≡ end_of self.now Free }
        ensures may { IfSome result (λ order. E.may self.now.key order) }
        ensures turn { MatchOption result (worker.new ≡ end_of self.now Over) (λ order. worker.new ≡ end_of self.now (Busy order)) }
    {
        let mut patience = Patience::new(looks);
        'looks: for _ in rt.forever() {
            match self.look(worker) {
                Found::Order(order) => return Some(order),
                Found::Dismissal => return None,
                Found::Nothing if patience.spend() => (),
                Found::Nothing => {
                    self.sleep(rt);
                    patience = Patience::new(looks);
                }
            }
        }
        unreachable!()
    }

    // Sleeps until the asker wakes the worker. An asker that posts once `asleep` is set sees so, and wakes it. One that
    // posted before has changed the word, and then nobody falls asleep on it, unless the asker takes the order back: then
    // the worker misses nothing by its sleep, and `asleep` is set for the next order.
    fn sleep(&self, rt: &impl Wait) {
        self.asleep.store(true, Ordering::SeqCst);
        self.table.shared.park(rt, 0, ASKERS_TURN as u32);
        self.asleep.store(false, Ordering::SeqCst);
    }

    // One look for an order, which takes it. While nothing lies there it only reads, so that a worker that waits leaves
    // the word to the asker. An order that is taken back between the read and the exchange was not found.
    fn look(&self, worker: &mut Worker<O, A, K>) -> Found<O>
        requires free { worker.old ≡ end_of self.now Free }
        ensures { IsFound E.may self.now worker.new result }
    {
        let shared = &self.table.shared;
        if shared.peek(0) == ASKERS_TURN {
            return Found::Nothing;
        }
        match shared.compare_exchange::<Looking<E>>(&mut worker.seat, 0, POSTED, TAKEN) {
            POSTED => {
                let Mail::Order(order) = shared.exchange(&mut worker.seat, 0, Mail::Empty) else {
                    unreachable!()
                };
                Found::Order(order)
            }
            DISMISSED => Found::Dismissal,
            _ => Found::Nothing,
        }
    }

    /// Gives the answer, which serves the order that the worker took.
    pub fn answer(&self, worker: &mut Worker<O, A, K>, answer: A)
        requires busy { IsBusy self.now worker.old }
        requires serves { (order : O) → worker.old.turn ≡ Busy order → E.serves order answer }
        ensures { worker.new ≡ end_of self.now Free }
    {
        let shared = &self.table.shared;
        let Mail::Empty = shared.exchange(&mut worker.seat, 0, Mail::Answer(answer)) else {
            unreachable!()
        };
        shared.store::<Answering>(&mut worker.seat, 0, ASKERS_TURN);
    }
}
