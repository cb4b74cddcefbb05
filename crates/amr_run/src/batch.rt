//! The command `batch`: the problems of a batch are run side by side, each in isolation by one worker.
ghost use Rattle.std.specs.Prelude.{◌≡◌, ◌≢◌, ◌<◌, ◌≤◌, List, [], ℕ, Option, Err, IfErr, IfOk, OnOk};
ghost use Rattle.std.specs.Io.KnownBytes.{IsAtEnd};
ghost use Rattle.amr_causes.specs.Bytes.{Grows, WereLeft};
ghost use Rattle.amr_causes.specs.Causes.{Rose};
ghost use Rattle.amr_batch.specs.Answer.{job_reply};
ghost use Rattle.amr_def.specs.Plot.{plot_all};
ghost use Rattle.amr_def.specs.Species.{run_all};
ghost use Rattle.amr_run.specs.Answer.{IsSoundRun};
ghost use Rattle.amr_run.specs.Batch.{IsReplyTo};
ghost use Rattle.amr_run.specs.Outcome.{RepliesBy, status_of};
ghost use Rattle.amr_run.specs.Sources.{TakesAtMost};
ghost use Rattle.amr_run.specs.Table.{batch_row};
ghost use Rattle.amr_run.specs.Texts.{message};

use crate::Status;
use crate::commands::{Workshop, run_to};
use crate::message::tell;
use crate::source::read_batch;
use amr_batch::{Reply, Solve, put_answer, run_all};
use amr_causes::NoMemory;
use amr_def::Problem;
use amr_io::{Page, Sink, Source};
use amr_plot::{plot_all, plot_all_len};
use amr_problem::{JudgeFault, judge};
use amr_workers::Gate;
use std::alloc::Global;
use std::sync::Wait;
use std::thread::Threads;

/// Solves a job by one worker, who calls the gate around each task.
#[derive(Clone, Copy)]
struct LoneWorker<'a, R, G> {
    runtime: &'a R,
    gate: &'a G,
    alloc: Global,
}

impl<R: Threads + Wait + Sync, G: Gate + Sync> LoneWorker<'_, R, G> {
    /// The plot of a problem's run to its last step, in memory for just its bytes. Out of memory is the only refusal.
    fn plot_of(&self, problem: &Problem) -> Result<Vec<u8>, NoMemory>
        requires gate { (worker task : ℕ) → worker < 1 → G.admits self.now.gate.now worker task }
        ensures text { IfOk result (λ text. text.items ≡ plot_all problem.now (run_all problem.now problem.now.steps)) }
        ensures run { OnOk result (IsSoundRun problem.now problem.now.steps) }
    {
        let workers = Workshop {
            runtime: self.runtime,
            count: 1,
            gate: self.gate,
            alloc: self.alloc,
        };
        let flock = run_to(&workers, problem, problem.steps)?;
        let meshes = flock.meshes();
        let mut page = Page::with_room(self.alloc, plot_all_len(problem, meshes) as usize)?;
        match plot_all(problem, meshes, &mut page) {
            Ok(()) => Ok(page.into_bytes()),
            Err(_) => Err(NoMemory),
        }
    }

    /// The reply of a job: the plot of the problem that its bytes are, or the line that says why they are none. Out of memory is the
    /// only refusal.
    fn reply_to(&self, job: &[u8]) -> Result<Reply, NoMemory>
        requires gate { (worker task : ℕ) → worker < 1 → G.admits self.now.gate.now worker task }
        ensures { IfOk result (λ reply. IsReplyTo job.now (job_reply reply)) }
    {
        match judge(self.alloc, job) {
            Ok(problem) => {
                let text = self.plot_of(&problem)?;
                Ok(Reply { code: 0, text })
            }
            Err(JudgeFault::NoMemory) => Err(NoMemory),
            Err(JudgeFault::Fault(fault)) => {
                let status = Status::Problem(fault);
                let text = self.line_of(&status)?;
                Ok(Reply {
                    code: status.code(),
                    text,
                })
            }
        }
    }

    /// The line of a status, in memory. Out of memory is the only refusal.
    fn line_of(&self, status: &Status) -> Result<Vec<u8>, NoMemory>
        ensures { IfOk result (λ text. text.items ≡ message status.now) }
    {
        let mut page = Page::make(self.alloc);
        match tell(&mut page, status) {
            Ok(()) => Ok(page.into_bytes()),
            Err(_) => Err(NoMemory),
        }
    }
}

/// Solves a job by a function of its bytes.
#[derive(Clone, Copy)]
struct By<'a, F> {
    solve: &'a F,
}

impl<F: Fn(&[u8]) -> Result<Reply, NoMemory> + Sync> Solve for By<'_, F> {
    ghost use Rattle.std.specs.Fn.{FnReturnsAt};

    type Reply = Reply;

    ghost ready = { λ s. F.IsAlwaysCallable s.solve.now
        × ((job : List ℕ) (answer : _) → FnReturnsAt F.Fn s.solve.now job answer → IfOk answer (λ reply. IsReplyTo job (job_reply reply))) };

    ghost answers = { λ _ job reply. IsReplyTo job (job_reply reply) };

    fn solve<R: Threads + Wait + Sync>(&self, _rt: &R, job: &[u8]) -> Result<Reply, NoMemory> {
        (self.solve)(job)
    }
}

/// The command `batch`: the reply of each job of the batch on the source, in order, or the status that refuses the batch. All jobs
/// are done before the first byte is written.
pub(crate) fn batch<R: Threads + Wait + Sync, S: Source, O: Sink, G: Gate + Sync>(
    workers: &Workshop<'_, R, G>,
    src: &mut S,
    out: &mut O,
) -> Result<(), Status>
    requires some_workers { 1 ≤ workers.now.count }
    requires few_workers { workers.now.count ≤ 64 }
    requires gate { (worker task : ℕ) → worker < workers.now.count → G.admits workers.now.gate.now worker task }
    ensures outcome { (bytes : List ℕ) × ((sent : List ℕ) × WereLeft (S.left src.old) bytes
        × Grows O.holds out.old out.new sent × ((seen : Option (List ℕ)) → RepliesBy batch_row (status_of result) bytes seen sent [])) }
    ensures ended { OnOk result (IsAtEnd (S.left src.new)) }
    ensures taken { TakesAtMost 1048577 (S.left src.old) (S.left src.new) }
    ensures refused { IfErr result (λ status. status ≢ Status.Done) }
    ensures read_fault { result ≡ Err Status.ReadFault → Rose (S.faults src.old) (S.faults src.new) }
    ensures no_read_fault { result ≢ Err Status.ReadFault → S.faults src.new ≡ S.faults src.old }
    ensures write_fault { result ≡ Err Status.WriteFault → Rose (O.faults out.old) (O.faults out.new) }
    ensures no_write_fault { result ≢ Err Status.WriteFault → O.faults out.new ≡ O.faults out.old }
{
    let given = read_batch(workers.alloc, src)?;
    let alone = LoneWorker {
        runtime: workers.runtime,
        gate: workers.gate,
        alloc: workers.alloc,
    };
    let solve = |job: &[u8]| -> Result<Reply, NoMemory>
        requires { (worker task : ℕ) → worker < 1 → G.admits alone.gate.now worker task }
        ensures { IfOk result (λ reply. IsReplyTo job.entry.now (job_reply reply)) }
    { alone.reply_to(job) };
    let by = By { solve: &solve };
    let replies = run_all(
        workers.runtime,
        workers.alloc,
        &given.bytes,
        &given.jobs,
        &by,
        workers.count,
    )?;
    put_answer(&replies, out)?;
    Ok(())
}
