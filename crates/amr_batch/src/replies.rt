//! The jobs of a batch, solved side by side.

ghost use Rattle.std.specs.Prelude.{◌≡◌, ℕ, ◌<◌, ◌≤◌, List, length, IfOk, OnOk};
ghost use Rattle.std.specs.List.{All};
ghost use Rattle.amr_batch.specs.Batch.{IsSpanOf};
ghost use Rattle.amr_batch.specs.Replies.{AreReplies, AreRepliesTo, AreTasks, HasReplies, HasTasks, IsServed, job_at};
ghost use Rattle.amr_balance.specs.Shares.{lists_in};

use crate::Span;
use amr_balance::share;
use amr_causes::NoMemory;
use std::alloc::Global;
use std::sync::Wait;
use std::thread::{Threads, for_each_mut};

/// What solves the jobs of a batch.
///
/// An implementation says by `answers` which replies a job may have, by its bytes alone, and by `ready` when it may be asked.
pub trait Solve {
    /// What a job is answered.
    type Reply: Drop + Send;

    ghost ready: { Self → Type 0 };

    ghost answers: { Self → List ℕ → Self.Reply → Type 0 };

    /// The reply of a job with these bytes. `NoMemory` is the only refusal.
    fn solve<R: Threads + Wait + Sync>(&self, rt: &R, job: &[u8]) -> Result<Self::Reply, NoMemory>
        requires { ready self.now }
        ensures { IfOk result (answers self.now job.now) };
}

/// The jobs that a worker solves, by their numbers, and their replies once he is done.
#[derive(Drop)]
struct Lot<X> {
    numbers: Vec<u32>,
    outcome: Result<Vec<X>, NoMemory>,
}

/// The jobs of a batch, and who solves them.
#[derive(Clone, Copy)]
struct Work<'a, S> {
    bytes: &'a [u8],
    spans: &'a [Span],
    solve: &'a S,
}

impl<S: Solve + Sync> Work<'_, S> {
    /// The reply of the job with this number.
    fn reply<R: Threads + Wait + Sync>(&self, rt: &R, number: u32) -> Result<S::Reply, NoMemory>
        requires ready { S.ready self.now.solve.now }
        requires inside { All (IsSpanOf self.now.bytes.now) self.now.spans.now }
        requires number { number < length self.now.spans.now }
        ensures { IfOk result (S.answers self.now.solve.now (job_at self.now.bytes.now self.now.spans.now number)) }
    {
        let span = self.spans[number as usize];
        let from = span.from as usize;
        self.solve
            .solve(rt, &self.bytes[from..from + span.len as usize])
    }

    /// The replies of the jobs with these numbers, in their order.
    fn replies<R: Threads + Wait + Sync>(
        &self,
        rt: &R,
        alloc: Global,
        numbers: &[u32],
    ) -> Result<Vec<S::Reply>, NoMemory>
        requires ready { S.ready self.now.solve.now }
        requires inside { All (IsSpanOf self.now.bytes.now) self.now.spans.now }
        requires numbers { AreTasks (length self.now.spans.now) numbers.now }
        ensures { IfOk result (λ v. AreRepliesTo (S.answers self.now.solve.now) self.now.bytes.now self.now.spans.now numbers.now v.items) }
    {
        let mut replies = Vec::new(alloc);
        for number in numbers {
            let reply = self.reply(rt, *number)?;
            replies.push(reply)?;
        }
        Ok(replies)
    }

    /// A lot's jobs are solved.
    fn serve<R: Threads + Wait + Sync>(&self, rt: &R, alloc: Global, lot: &mut Lot<S::Reply>)
        requires ready { S.ready self.now.solve.now }
        requires inside { All (IsSpanOf self.now.bytes.now) self.now.spans.now }
        requires numbers { AreTasks (length self.now.spans.now) lot.old.numbers.items }
        ensures numbers { lot.new.numbers ≡ lot.old.numbers }
        ensures solved { IfOk lot.new.outcome
            (λ v. AreRepliesTo (S.answers self.now.solve.now) self.now.bytes.now self.now.spans.now lot.new.numbers.items v.items) }
    {
        lot.outcome = self.replies(rt, alloc, &lot.numbers);
    }

    /// The replies of a lot go to the places of their numbers.
    fn place(&self, lot: Lot<S::Reply>, places: &mut [Option<S::Reply>]) -> Result<(), NoMemory>
        requires numbers { AreTasks (length self.now.spans.now) lot.numbers.items }
        requires solved { IfOk lot.outcome (λ v. AreRepliesTo (S.answers self.now.solve.now) self.now.bytes.now self.now.spans.now lot.numbers.items v.items) }
        requires long { length places.old ≡ length self.now.spans.now }
        requires filled { HasReplies (S.answers self.now.solve.now) self.now.bytes.now self.now.spans.now places.old }
        ensures { OnOk result (HasReplies (S.answers self.now.solve.now) self.now.bytes.now self.now.spans.now places.new) }
    {
        let Lot { numbers, outcome } = lot;
        let mut replies = outcome?;
        while let Some(reply) = replies.pop() {
            let number = numbers[replies.len()];
            places[number as usize] = Some(reply);
        }
        Ok(())
    }

    /// A place for each job, none filled.
    fn places(&self, alloc: Global) -> Result<Vec<Option<S::Reply>>, NoMemory>
        ensures long { IfOk result (λ v. length v.items ≡ length self.now.spans.now) }
        ensures filled { IfOk result (λ v. HasReplies (S.answers self.now.solve.now) self.now.bytes.now self.now.spans.now v.items) }
    {
        let mut places = Vec::new(alloc);
        for _ in 0..self.spans.len() {
            places.push(None)?;
        }
        Ok(places)
    }

    /// What stands at the places, in order. Each is filled, since each job is in a lot.
    fn gather(
        &self,
        alloc: Global,
        places: Vec<Option<S::Reply>>,
    ) -> Result<Vec<S::Reply>, NoMemory>
        requires long { length places.items ≡ length self.now.spans.now }
        requires filled { HasReplies (S.answers self.now.solve.now) self.now.bytes.now self.now.spans.now places.items }
        ensures { IfOk result (λ v. AreReplies (S.answers self.now.solve.now) self.now.bytes.now self.now.spans.now v.items) }
    {
        let mut replies = Vec::new(alloc);
        for place in places {
            match place {
                Some(reply) => replies.push(reply)?,
                None => return Err(NoMemory),
            }
        }
        Ok(replies)
    }

    /// The replies of all lots, in the order of the jobs.
    fn in_order(&self, alloc: Global, lots: Vec<Lot<S::Reply>>) -> Result<Vec<S::Reply>, NoMemory>
        requires served { All (IsServed (S.answers self.now.solve.now) self.now.bytes.now self.now.spans.now) lots.items }
        ensures { IfOk result (λ v. AreReplies (S.answers self.now.solve.now) self.now.bytes.now self.now.spans.now v.items) }
    {
        let mut places = self.places(alloc)?;
        for lot in lots {
            self.place(lot, &mut places)?;
        }
        self.gather(alloc, places)
    }

    /// The lots are served, each by one of so many workers.
    fn serve_all<R: Threads + Wait + Sync>(
        &self,
        rt: &R,
        alloc: Global,
        lots: &mut [Lot<S::Reply>],
        workers: usize,
    )
        requires ready { S.ready self.now.solve.now }
        requires inside { All (IsSpanOf self.now.bytes.now) self.now.spans.now }
        requires tasks { All (HasTasks (length self.now.spans.now)) lots.old }
        requires some { 0 < workers }
        ensures { All (IsServed (S.answers self.now.solve.now) self.now.bytes.now self.now.spans.now) lots.new }
    {
        let serve = move |_: usize, lot: &mut Lot<S::Reply>|
            requires { S.ready self.now.solve.now × All (IsSpanOf self.now.bytes.now) self.now.spans.now × HasTasks (length self.now.spans.now) lot.now }
            ensures { IsServed (S.answers self.entry.now.solve.now) self.entry.now.bytes.now self.entry.now.spans.now lot.exit.now }
        { self.serve(rt, alloc, lot) };
        for_each_mut(rt, lots, workers, &serve);
    }
}

/// Lots with these numbers, of which no job is solved yet.
fn lots_of<X: Drop>(alloc: Global, shares: Vec<Vec<u32>>) -> Result<Vec<Lot<X>>, NoMemory>
    ensures { IfOk result (λ lots. (n : ℕ) → All (AreTasks n) (lists_in shares.items) → All (HasTasks n) lots.items) }
{
    let mut lots = Vec::new(alloc);
    for numbers in shares {
        lots.push(Lot {
            numbers,
            outcome: Err(NoMemory),
        })?;
    }
    Ok(lots)
}

/// Solves the jobs of a batch: one reply for each span, in order, each one that `solve` answers to the bytes of that span alone.
/// The jobs are shared out among at most `workers` threads, 1 to 64, in advance; each job is solved by one of them. The spans lie in
/// the bytes, and there are at most as many as a batch has jobs. `NoMemory` is the only refusal, and the batch's.
pub fn run_all<R: Threads + Wait + Sync, S: Solve + Sync>(
    rt: &R,
    alloc: Global,
    bytes: &[u8],
    spans: &[Span],
    solve: &S,
    workers: u32,
) -> Result<Vec<S::Reply>, NoMemory>
    requires ready { S.ready solve.now }
    requires inside { All (IsSpanOf bytes.now) spans.now }
    requires few { length spans.now ≤ 256 }
    requires some { 1 ≤ workers }
    requires crew { workers ≤ 64 }
    ensures { IfOk result (λ replies. AreReplies (S.answers solve.now) bytes.now spans.now replies.items) }
{
    let areas = vec![in alloc; 1u64; spans.len()]?;
    let shares = share(alloc, &areas, workers)?;
    let mut lots = lots_of(alloc, shares)?;
    let work = Work {
        bytes,
        spans,
        solve,
    };
    work.serve_all(rt, alloc, &mut lots, workers as usize);
    work.in_order(alloc, lots)
}
