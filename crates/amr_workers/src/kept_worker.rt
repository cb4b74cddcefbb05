//! Workers that are kept from one phase to the next.
ghost use Rattle.std.specs.Prelude.{◌≡◌, ◌≤◌, ◌<◌};
ghost use Rattle.std.specs.List.{All};
ghost use Rattle.std.specs.Arc.{arc_value};
ghost use Rattle.amr_workers.specs.Orders.{MayAsk, Serves};
ghost use Rattle.amr_mailbox.specs.declared.view.Turn.TheVariants.{Free, Over};
ghost use Rattle.amr_mailbox.specs.MailboxOf.{end_of};
ghost use Rattle.amr_workers.specs.Helpers.{IsRecruit};

use crate::gate::Gate;
use crate::helper::Recruit;
use crate::job::Job;
use crate::order::{DrawOrder, OrderBox, OrderWorker};
use crate::phase::{draw_all, work_on};
use amr_board::{Piece, Seat};
use std::sync::Wait;
use std::thread::{Threads, available_parallelism, for_each_mut};

// How many looks for an order a kept worker makes before it sleeps, where each worker may have a processor of its own: they
// take some 2.5 milliseconds. What a caller does between two phases mostly takes less. (The threads of LLVM's OpenMP
// wait 200 milliseconds before they sleep.)
const PATIENT: u32 = 1 << 19;

// And where there are more workers than processors.
const HASTY: u32 = 1 << 11;

/// Has each of these kept workers serve until it is dismissed, in a thread of its own. Where no thread can be had, a
/// worker begins after another one's end. Nothing is asked of it before.
pub fn serve_all<R: Threads + Wait + Sync, P: Piece + Send, J: Job<P> + Sync, G: Gate + Sync>(
    rt: &R,
    recruits: &mut [Recruit<P, J, G>],
    job: &J,
    gate: &G,
)
    requires { All (λ r. IsRecruit job.now gate.now (arc_value r.mailbox) r.worker r.number) recruits.old }
{
    let threads = recruits.len();
    if threads == 0 {
        return;
    }
    let looks = looks_for(rt, threads + 1);
    let begin = move |_: usize, recruit: &mut Recruit<P, J, G>|
        requires { IsRecruit job.now gate.now (arc_value recruit.now.mailbox) recruit.now.worker recruit.now.number }
    { begin(rt, recruit, job, gate, looks) };
    for_each_mut(rt, recruits, threads, &begin);
}

// How many looks each of so many workers makes before it sleeps.
fn looks_for<R: Threads>(rt: &R, workers: usize) -> u32 {
    match available_parallelism(rt) {
        Ok(processors) if workers <= processors.get() => PATIENT,
        _ => HASTY,
    }
}

// A kept worker that serves: its number, and how many looks it makes before it sleeps.
#[derive(Clone, Copy)]
struct Server {
    number: u32,
    looks: u32,
}

// Has a kept worker begin, and serve until it is dismissed.
fn begin<W: Wait, P: Piece, J: Job<P>, G: Gate>(
    rt: &W,
    recruit: &mut Recruit<P, J, G>,
    job: &J,
    gate: &G,
    looks: u32,
)
    requires { IsRecruit job.now gate.now (arc_value recruit.old.mailbox) recruit.old.worker recruit.old.number }
{
    let server = Server {
        number: recruit.number,
        looks,
    };
    recruit.mailbox.attend();
    serve(rt, &recruit.mailbox, &mut recruit.worker, job, gate, server);
}

// The life of a kept worker. It takes an order, carries it out and answers. It returns once it is dismissed.
fn serve<W: Wait, P: Piece, J: Job<P>, G: Gate>(
    rt: &W,
    mailbox: &OrderBox<P, J, G>,
    worker: &mut OrderWorker<P, J, G>,
    job: &J,
    gate: &G,
    server: Server,
)
    requires worker { worker.old ≡ end_of mailbox.now Free }
    requires job { mailbox.now.key.job.value ≡ job.now }
    requires gate { mailbox.now.key.gate.value ≡ gate.now }
    requires number { mailbox.now.key.number ≡ server.number }
    ensures { worker.new ≡ end_of mailbox.now Over }
{
    'orders: for _ in rt.forever() {
        let Some(order) = mailbox.next(rt, worker, server.looks) else {
            return;
        };
        mailbox.answer(worker, draw(order, job, gate, server.number));
    }
    unreachable!()
}

// Works on the task of an order, draws further ones until none is left, and lets the board go.
pub(crate) fn draw<P: Piece, J: Job<P>, G: Gate>(
    order: DrawOrder<P>,
    job: &J,
    gate: &G,
    number: u32,
) -> Seat<P>
    requires { MayAsk (J.ready job.now) (G.admits gate.now number) order }
    ensures { Serves order result }
{
    let DrawOrder {
        board,
        mut seat,
        task,
    } = order;
    work_on(&board, &mut seat, task, job, gate, number);
    draw_all(&board, &mut seat, job, gate, number);
    drop(board);
    seat
}
