//! What a kept worker is asked and answers: to work on a task of a board and to draw further ones, on a seat of it; and that seat, which found
//! no task left.
ghost use Rattle.amr_workers.specs.Orders.{MayAsk, Serves};

use crate::gate::Gate;
use crate::job::Job;
use amr_board::{Board, Piece, Seat};
use amr_mailbox::{Asker, Errand, Mailbox, Worker};
use std::alloc::Global;
use std::marker::PhantomData;
use std::snapshot::Snapshot;
use std::sync::Arc;

/// An order to work on the task of a board that a seat has drawn, and then to draw further ones on it until none is left. The answer is
/// the seat.
#[derive(Drop)]
pub struct DrawOrder<P: Piece> {
    pub board: Arc<Board<P>, Global>,
    pub seat: Seat<P>,
    /// The task that the seat has drawn and not taken.
    pub task: u32,
}

/// What the mailbox of a kept worker is told: the job and the gate of all its orders, and the worker's number.
#[derive(Drop)]
pub struct WorkerSetup<J, G> {
    pub job: Snapshot<J>,
    pub gate: Snapshot<G>,
    pub number: u32,
}

/// The errand of kept workers.
pub struct DrawErrand<P, J, G> {
    duty: PhantomData<(P, J, G)>,
}

impl<P: Piece, J: Job<P>, G: Gate> Errand<DrawOrder<P>, Seat<P>, WorkerSetup<J, G>>
    for DrawErrand<P, J, G> {
    ghost may = { λ about order. MayAsk (J.ready about.job.value) (G.admits about.gate.value about.number) order };

    ghost serves = { λ order seat. Serves order seat };
}

/// Where the orders of a kept worker lie.
pub type OrderBox<P, J, G> = Mailbox<DrawOrder<P>, Seat<P>, WorkerSetup<J, G>, DrawErrand<P, J, G>>;

/// The end of a mailbox that a team asks by.
pub type OrderAsker<P, J, G> = Asker<DrawOrder<P>, Seat<P>, WorkerSetup<J, G>>;

/// The end of a mailbox that a kept worker serves.
pub type OrderWorker<P, J, G> = Worker<DrawOrder<P>, Seat<P>, WorkerSetup<J, G>>;
