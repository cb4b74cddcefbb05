//! The rule of a mailbox over its atomic table, and what each kind of step tells its end.
ghost use Rattle.amr_mailbox.specs.Views.{first_view, asker_view, worker_view};
ghost use Rattle.amr_mailbox.specs.Rule.{Rule};
ghost use Rattle.amr_mailbox.specs.Plays.{Opens, Posts, TakesBack, Dismisses, Collects, Looks, Answers};

use crate::errand::Errand;
use crate::mail::Mail;
use crate::view::View;
use atomic_table::{Play, Split, TableRule};
use std::marker::PhantomData;

/// The mailbox's invariant.
pub struct MailboxRule<E> {
    errand: PhantomData<E>,
}

impl<O, A, K, E: Errand<O, A, K>> TableRule<Mail<O, A>, View<O, K>, K> for MailboxRule<E> {
    ghost holds = { λ key s. Rule E.may E.serves key s };

    ghost first = { λ key. first_view key };
}

pub struct Opening;

impl<O, A, K> Play<Mail<O, A>, View<O, K>> for Opening {
    ghost then = { Opens };
}

pub struct Halves;

impl<O, K> Split<View<O, K>> for Halves {
    ghost left = { λ v. asker_view v.key };

    ghost right = { λ v. worker_view v.key };
}

pub struct Posting;

impl<O, A, K> Play<Mail<O, A>, View<O, K>> for Posting {
    ghost then = { Posts };
}

pub struct TakingBack;

impl<O, A, K> Play<Mail<O, A>, View<O, K>> for TakingBack {
    ghost then = { TakesBack };
}

pub struct Dismissing;

impl<O, A, K> Play<Mail<O, A>, View<O, K>> for Dismissing {
    ghost then = { Dismisses };
}

pub struct Collecting<E> {
    errand: PhantomData<E>,
}

impl<O, A, K, E: Errand<O, A, K>> Play<Mail<O, A>, View<O, K>> for Collecting<E> {
    ghost then = { Collects E.serves };
}

pub struct Looking<E> {
    errand: PhantomData<E>,
}

impl<O, A, K, E: Errand<O, A, K>> Play<Mail<O, A>, View<O, K>> for Looking<E> {
    ghost then = { Looks E.may };
}

pub struct Answering;

impl<O, A, K> Play<Mail<O, A>, View<O, K>> for Answering {
    ghost then = { Answers };
}
