//! A mailbox between an asker and a worker in two threads: it holds one order or its answer, and passes them by single
//! atomic steps and without a lock. (profile)
#![tactic(auto)]

mod ends;
mod errand;
mod mail;
mod mailbox;
mod patience;
mod rule;
mod view;

pub use ends::{Asker, Worker};
pub use errand::Errand;
pub use mail::Mail;
pub use mailbox::Mailbox;
pub use rule::MailboxRule;
pub use view::{Role, Turn, View};
