//! A kept worker: as its team has it, and before it begins.
ghost use Rattle.std.specs.Prelude.{◌≡◌, ◌<◌, ℕ, IfOk, MatchOption};
ghost use Rattle.std.specs.Arc.{arc_value};
ghost use Rattle.amr_mailbox.specs.declared.view.Turn.TheVariants.{Free, Busy, Over};
ghost use Rattle.amr_mailbox.specs.MailboxOf.{end_of, IsBusy};
ghost use Rattle.amr_workers.specs.declared.order.DrawOrder.{DrawOrder};
ghost use Rattle.amr_workers.specs.Helpers.{IsHelper, IsRecruit};
ghost use Rattle.amr_workers.specs.Orders.{MayAsk, Serves};

use crate::gate::Gate;
use crate::job::Job;
use crate::order::{DrawOrder, OrderAsker, OrderBox, OrderWorker, WorkerSetup};
use amr_board::{Piece, Seat};
use std::alloc::{AllocError, Global};
use std::snapshot::Snapshot;
use std::sync::{Arc, Wait};

/// A kept worker as its team has it: where its orders lie, and the end that asks.
#[derive(Drop)]
pub struct Helper<P: Piece, J: Job<P>, G: Gate> {
    pub(crate) mailbox: Arc<OrderBox<P, J, G>, Global>,
    pub(crate) asker: OrderAsker<P, J, G>,
}

/// A kept worker before it begins: where its orders lie, the end that serves, and its number.
#[derive(Drop)]
pub struct Recruit<P: Piece, J: Job<P>, G: Gate> {
    pub(crate) mailbox: Arc<OrderBox<P, J, G>, Global>,
    pub(crate) worker: OrderWorker<P, J, G>,
    pub(crate) number: u32,
}

/// A new kept worker with this number, as its team has it, and as it begins.
pub(crate) fn new_worker<P: Piece, J: Job<P>, G: Gate>(
    alloc: Global,
    job: &J,
    gate: &G,
    number: u32,
) -> Result<(Helper<P, J, G>, Recruit<P, J, G>), AllocError>
    ensures helper { IfOk result (λ r. (workers : ℕ) → number < workers → IsHelper job.now gate.now workers (arc_value r.0.mailbox) r.0.asker) }
    ensures recruit { IfOk result (λ r. IsRecruit job.now gate.now (arc_value r.1.mailbox) r.1.worker r.1.number) }
    ensures number { IfOk result (λ r. r.1.number ≡ number) }
{
    let about = WorkerSetup {
        job: Snapshot::of(job),
        gate: Snapshot::of(gate),
        number,
    };
    let (orders, asker, worker) = OrderBox::make(alloc, &about)?;
    let mailbox = Arc::new(alloc, orders)?;
    let recruit = Recruit {
        mailbox: Arc::try_clone(&mailbox)?,
        worker,
        number,
    };
    Ok((Helper { mailbox, asker }, recruit))
}

impl<P: Piece, J: Job<P>, G: Gate> Helper<P, J, G> {
    /// Whether the worker has begun.
    pub(crate) fn is_there(&self) -> bool {
        let there = self.mailbox.is_attended();
        there
    }

    /// Posts an order.
    pub(crate) fn post(&mut self, order: DrawOrder<P>)
        requires free { self.old.asker ≡ end_of (arc_value self.old.mailbox) Free }
        requires may { MayAsk (J.ready (arc_value self.old.mailbox).key.job.value)
            (G.admits (arc_value self.old.mailbox).key.gate.value (arc_value self.old.mailbox).key.number) order }
        ensures { self.new ≡ record { mailbox = self.old.mailbox; asker = end_of (arc_value self.old.mailbox) (Busy order) } }
    {
        self.mailbox.post(&mut self.asker, order);
    }

    /// Takes the order back where the worker has not begun it.
    pub(crate) fn take_back(&mut self) -> Option<DrawOrder<P>>
        requires asked { IsBusy (arc_value self.old.mailbox) self.old.asker }
        ensures back { MatchOption result (self.new ≡ self.old) (λ order. self.old.asker.turn ≡ Busy order) }
        ensures free { MatchOption result (self.new ≡ self.old)
            (λ _. self.new ≡ record { mailbox = self.old.mailbox; asker = end_of (arc_value self.old.mailbox) Free }) }
    {
        self.mailbox.take_back(&mut self.asker)
    }

    /// Waits for the seat of an order.
    pub(crate) fn collect(&mut self, rt: &impl Wait) -> Seat<P>
        requires asked { IsBusy (arc_value self.old.mailbox) self.old.asker }
        ensures serves { (order : DrawOrder P) → self.old.asker.turn ≡ Busy order → Serves order result }
        ensures free { self.new ≡ record { mailbox = self.old.mailbox; asker = end_of (arc_value self.old.mailbox) Free } }
    {
        self.mailbox.collect(rt, &mut self.asker)
    }

    /// Lets the worker go.
    pub(crate) fn dismiss(&mut self)
        requires { self.old.asker ≡ end_of (arc_value self.old.mailbox) Free }
        ensures { self.new ≡ record { mailbox = self.old.mailbox; asker = end_of (arc_value self.old.mailbox) Over } }
    {
        self.mailbox.dismiss(&mut self.asker);
    }

    /// A share of something for this worker. None where it is not there yet, or where there is no memory for it.
    pub(crate) fn share<T>(&self, whole: &Arc<T, Global>) -> Result<Arc<T, Global>, AllocError>
        ensures { IfOk result (λ b. arc_value b ≡ arc_value whole.now) }
    {
        if !self.is_there() {
            return Err(AllocError);
        }
        Arc::try_clone(whole)
    }
}
