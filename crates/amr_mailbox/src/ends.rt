//! The two ends of a mailbox.

use crate::mail::Mail;
use crate::view::View;
use atomic_table::Seat;
use std::marker::Model;

/// The end that posts orders and collects their answers. It takes no bytes.
#[derive(Drop)]
pub struct Asker<O, A, K> {
    pub(crate) seat: Seat<Mail<O, A>, View<O, K>>,
}

impl<O, A, K> Model for Asker<O, A, K> {
    ghost use Rattle.std.specs.Prelude.{◌≡◌};
    ghost use Rattle.amr_mailbox.specs.declared.view.Role.TheVariants.{Asks};
    ghost use Rattle.amr_mailbox.specs.Views.{asker_slots};
    ghost use Rattle.amr_mailbox.specs.MailboxOf.{EndOf, end_of};

    ghost Value = { EndOf O K };

    ghost view = { λ a. end_of (record { id = a.seat.table_id; key = a.seat.me.0.key }) a.seat.me.0.turn };

    ghost invariant = { λ a. (a.seat.me.0.role ≡ Asks) × (a.seat.me.1 ≡ asker_slots a.seat.me.0.turn) };
}

/// The end that takes orders and answers them. It takes no bytes.
#[derive(Drop)]
pub struct Worker<O, A, K> {
    pub(crate) seat: Seat<Mail<O, A>, View<O, K>>,
}

impl<O, A, K> Model for Worker<O, A, K> {
    ghost use Rattle.std.specs.Prelude.{◌≡◌};
    ghost use Rattle.amr_mailbox.specs.declared.view.Role.TheVariants.{Works};
    ghost use Rattle.amr_mailbox.specs.Views.{worker_slots};
    ghost use Rattle.amr_mailbox.specs.MailboxOf.{EndOf, end_of};

    ghost Value = { EndOf O K };

    ghost view = { λ w. end_of (record { id = w.seat.table_id; key = w.seat.me.0.key }) w.seat.me.0.turn };

    ghost invariant = { λ w. (w.seat.me.0.role ≡ Works) × (w.seat.me.1 ≡ worker_slots w.seat.me.0.turn) };
}
