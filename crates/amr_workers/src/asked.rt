//! A kept worker that was asked to draw.
ghost use Rattle.std.specs.Prelude.{◌≡◌};
ghost use Rattle.std.specs.Arc.{arc_value};
ghost use Rattle.amr_mailbox.specs.declared.view.Turn.TheVariants.{Free};
ghost use Rattle.amr_mailbox.specs.MailboxOf.{end_of};
ghost use Rattle.amr_workers.specs.Asked.{asked, IsOut, IsDue, Keeps};
ghost use Rattle.amr_workers.specs.Orders.{MayAsk, Serves};

use crate::gate::Gate;
use crate::helper::Helper;
use crate::job::Job;
use crate::kept_worker::draw;
use crate::order::DrawOrder;
use amr_board::{Piece, Seat};
use std::sync::Wait;

/// A kept worker that was asked to draw. The seat lies here once its caller has taken it back and drawn on it.
#[derive(Drop)]
pub struct Asked<P: Piece, J: Job<P>, G: Gate> {
    pub(crate) helper: Helper<P, J, G>,
    pub(crate) drawn: Option<Seat<P>>,
}

impl<P: Piece, J: Job<P>, G: Gate> Asked<P, J, G> {
    /// Asks the worker.
    pub(crate) fn new(helper: Helper<P, J, G>, order: DrawOrder<P>) -> Asked<P, J, G>
        requires free { helper.asker ≡ end_of (arc_value helper.mailbox) Free }
        requires may { MayAsk (J.ready (arc_value helper.mailbox).key.job.value)
            (G.admits (arc_value helper.mailbox).key.gate.value (arc_value helper.mailbox).key.number) order }
        ensures { result ≡ asked helper order }
    {
        let mut helper = helper;
        helper.post(order);
        Asked {
            helper,
            drawn: None,
        }
    }

    /// Takes the order back where the worker has not begun it, and draws on its seat.
    pub(crate) fn take_back(&mut self, job: &J, gate: &G)
        requires { IsOut (MayAsk (J.ready job.now) (G.admits gate.now 0)) self.old }
        ensures { Keeps Serves self.old self.new }
    {
        let Some(order) = self.helper.take_back() else {
            return;
        };
        self.drawn = Some(draw(order, job, gate, 0));
    }

    /// The seat, which found no task left, and the worker. It waits for a seat that was not taken back.
    pub(crate) fn finish(self, rt: &impl Wait) -> (Seat<P>, Helper<P, J, G>)
        requires { (order : DrawOrder P) × IsDue Serves order self }
        ensures serves { (order : DrawOrder P) → IsDue Serves order self → Serves order result.0 }
        ensures helper { result.1 ≡ record { mailbox = self.helper.mailbox; asker = end_of (arc_value self.helper.mailbox) Free } }
    {
        let Asked { mut helper, drawn } = self;
        match drawn {
            Some(seat) => (seat, helper),
            None => (helper.collect(rt), helper),
        }
    }
}
