//! An asker and a worker in two threads.

ghost use Rattle.std.specs.Prelude.{◌≡◌, ◌<◌, ◌*◌, ◌≤◌};
ghost use Rattle.amr_mailbox.specs.declared.view.Turn.TheVariants.{Free, Over};
ghost use Rattle.amr_mailbox.specs.MailboxOf.{end_of};

use amr_mailbox::{Asker, Errand, Mailbox, Worker};
use std::sync::Wait;
use std::test::Fail;
use std::thread::join;

// To double a number.
struct Doubling;

impl Errand<u32, u64, ()> for Doubling {
    ghost use Rattle.std.specs.Prelude.{◌≡◌, ◌<◌, ◌*◌};

    ghost may = { λ _ order. order < 1000 };

    ghost serves = { λ order answer. answer ≡ 2 * order };
}

type Numbers = Mailbox<u32, u64, (), Doubling>;

// Posts a number, and doubles it where the worker has not taken it.
fn double_or_ask<W: Wait>(
    rt: &W,
    mailbox: &Numbers,
    asker: &mut Asker<u32, u64, ()>,
    order: u32,
) -> u64
    requires free { asker.old ≡ end_of mailbox.now Free }
    requires small { order < 1000 }
    ensures double { result ≡ 2 * order }
    ensures free { asker.new ≡ end_of mailbox.now Free }
{
    mailbox.post(asker, order);
    match mailbox.take_back(asker) {
        Some(order) => 2 * u64::from(order),
        None => mailbox.collect(rt, asker),
    }
}

// Posts the numbers below a hundred one after another, and adds up the answers. Some are taken back.
fn ask_all<W: Wait>(rt: &W, mailbox: &Numbers, mut asker: Asker<u32, u64, ()>) -> u64
    requires { asker ≡ end_of mailbox.now Free }
{
    let mut sum = 0u64;
    for order in 0..100u32 {
        let answer = if order % 3 == 0 {
            mailbox.post(&mut asker, order);
            mailbox.collect(rt, &mut asker)
        } else {
            double_or_ask(rt, mailbox, &mut asker, order)
        };
        sum = sum.wrapping_add(answer);
    }
    mailbox.dismiss(&mut asker);
    sum
}

// Doubles until it is dismissed.
fn double_all<W: Wait>(rt: &W, mailbox: &Numbers, mut worker: Worker<u32, u64, ()>)
    requires { worker ≡ end_of mailbox.now Free }
{
    for _ in rt.forever() {
        let Some(order) = mailbox.next(rt, &mut worker, 100) else {
            return;
        };
        mailbox.answer(&mut worker, 2 * u64::from(order));
    }
}

#[test]
fn a_hundred_orders_between_two_threads(rt: HostRuntime) -> Result<(), Fail> {
    let (mailbox, asker, worker) = Numbers::make(rt.alloc(), &())?;
    let (host, shared) = (&rt, &mailbox);
    let (sum, ()) = join(
        host,
        move || -> u64
            requires { asker ≡ end_of shared.now Free }
        { ask_all(host, shared, asker) },
        move || -> ()
            requires { worker ≡ end_of shared.now Free }
        { double_all(host, shared, worker) },
    );
    assert!(rt; sum == 9900);
    Ok(())
}

// An order comes back as long as the worker has not taken it.
#[test]
fn an_order_is_taken_back(rt: HostRuntime) -> Result<(), Fail> {
    let (mailbox, mut asker, mut worker) = Numbers::make(rt.alloc(), &())?;
    mailbox.post(&mut asker, 3);
    assert!(rt; mailbox.take_back(&mut asker) == Some(3));
    mailbox.post(&mut asker, 4);
    assert!(rt; mailbox.next(&rt, &mut worker, 1) == Some(4));
    assert!(rt; mailbox.take_back(&mut asker).is_none());
    Ok(())
}
