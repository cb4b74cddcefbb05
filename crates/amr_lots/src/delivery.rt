//! Messages taken from the lots that send them to those that get them, and taken back.

ghost use Rattle.std.specs.Prelude.{◌≡◌, ◌<◌, ℕ, length, slice_index_or};
ghost use Rattle.std.specs.List.{All, AllZip};
ghost use Rattle.std.specs.Global.{Box as boxed};
ghost use Rattle.amr_ghost.specs.declared.messages.Message.{Message as message};
ghost use Rattle.amr_lots.specs.declared.lot.Lot.{Lot as lot};
ghost use Rattle.amr_lots.specs.Delivery.{ArePosted, HasTraded, HaveTraded};
ghost use Rattle.amr_lots.specs.Runs.{HasBoxes, KeepAllButMessages, with_outbox};

use crate::lot::Lot;
use amr_ghost::Message;
use std::boxed::Box;
use std::mem::{replace, swap};

/// Takes a lot's messages for others.
fn take_outbox(lot: &mut Box<Lot>) -> Vec<Message>
    ensures taken { result ≡ lot.old.value.workspace.outbox }
    ensures others { lot.new.value ≡ with_outbox lot.new.value.workspace.outbox lot.old.value }
{
    let alloc = *lot.workspace.outbox.allocator();
    replace(&mut lot.workspace.outbox, Vec::new(alloc))
}

/// Gives a lot the messages that it has for others.
fn give_outbox(lot: &mut Box<Lot>, outbox: Vec<Message>)
    ensures { lot.new.value ≡ with_outbox outbox lot.old.value }
{
    lot.workspace.outbox = outbox;
}

/// Exchanges a message for the one that a lot has from this one.
fn trade_message(message: &mut Message, lot: &mut Box<Lot>, from: usize)
    requires { from < length lot.old.value.workspace.inbox.items }
    ensures { HasTraded from message.old message.new lot.old.value lot.new.value }
{
    swap(message, &mut lot.workspace.inbox[from]);
}

/// Exchanges messages, one for each lot, for those that the lots have from this one.
fn trade_messages(messages: &mut [Message], lots: &mut [Box<Lot>], from: usize)
    requires count { length messages.old ≡ length lots.old }
    requires boxes { All (λ x. from < length x.value.workspace.inbox.items) lots.old }
    ensures { HaveTraded from messages.old messages.new lots.old lots.new }
{
    for to in 0..lots.len() {
        trade_message(&mut messages[to], &mut lots[to], from);
    }
}

/// Exchanges the messages of one lot for each for those that each has from it.
fn post_messages(lots: &mut [Box<Lot>], from: usize)
    requires there { from < length lots.old }
    requires boxes { All (HasBoxes (length lots.old)) lots.old }
    ensures { ArePosted from lots.old lots.new }
{
    let mut outbox = take_outbox(&mut lots[from]);
    trade_messages(&mut outbox, lots, from);
    give_outbox(&mut lots[from], outbox);
}

/// Exchanges the message of each lot for each with the one that the other has from it. Each has a message for each in its outbox and one
/// from each in its inbox. It takes no memory.
pub fn exchange_messages(lots: &mut [Box<Lot>])
    requires boxes { All (HasBoxes (length lots.old)) lots.old }
    ensures delivered { (u t : ℕ) (x : boxed lot) (m : message) → u < length lots.old → t < length lots.old
        → slice_index_or (slice_index_or lots.new t x).value.workspace.inbox.items u m
        ≡ slice_index_or (slice_index_or lots.old u x).value.workspace.outbox.items t m }
    ensures back { (u t : ℕ) (x : boxed lot) (m : message) → u < length lots.old → t < length lots.old
        → slice_index_or (slice_index_or lots.new u x).value.workspace.outbox.items t m
        ≡ slice_index_or (slice_index_or lots.old t x).value.workspace.inbox.items u m }
    ensures others { AllZip KeepAllButMessages lots.old lots.new }
{
    for from in 0..lots.len() {
        post_messages(lots, from);
    }
}
