//! The top call.
ghost use Rattle.std.specs.Prelude.{◌≡◌, ◌≢◌, ◌<◌, List, ℕ, Some, None, Err, IfErr, IfSome, OnOk};
ghost use Rattle.std.specs.Io.KnownBytes.{IsAtEnd};
ghost use Rattle.amr_causes.specs.Bytes.{Grows, WereLeft};
ghost use Rattle.amr_cli.specs.Words.{HasRanges, HasWorkers, command_of};
ghost use Rattle.amr_run.specs.Faults.{HasCauses, faults_at};
ghost use Rattle.amr_run.specs.Outcome.{EndsAtSource, EndsSettled, Outcome, RepliesTo, StopsTo, status_of};
ghost use Rattle.amr_run.specs.Sources.{TakesAtMost};
ghost use Rattle.amr_run.specs.Served.{Serves};
ghost use Rattle.amr_run.specs.Table.{KeepsCheckpoints, OpensStore, ReadsSource, meaning};
ghost use Rattle.amr_store.specs.Phases.{OnlyReads};

use crate::Status;
use crate::batch::batch;
use crate::commands::{Marks, Workshop, check, keep, run, show, trial};
use crate::message::tell;
use crate::views::view;
use amr_cli::{CliFault, Command, Line, parse};
use amr_disk::Disk;
use amr_io::{Sink, Source};
use amr_workers::{Gate, OpenGate};
use std::alloc::Global;
use std::sync::Wait;
use std::thread::Threads;

/// Does what the words ask for: reads a problem from `src` and writes the answer of the command to `out`, or says on
/// `err` why not. The answer of `run` is the plot of the problem's run, and that of `check` the line of the problem.
/// That of `show` is the plot of the state that `disk` holds, and that of `view` the masses of a box after the run.
/// The steps of a run are made by as many workers as the words say, on threads of the runtime; the answer is the same
/// for any number. The call joins them, and keeps its promise if it returns.
///
/// With `--keep` a run goes on from the state that `disk` holds, and puts a checkpoint there at each mark. It
/// acknowledges it on `err` by a line once it stands. A stop at any moment since the store was opened leaves the last
/// checkpoint that stands, or the one that is put.
///
/// Each field of `Serves` is a clause, in `specs/Served.antt`. Clauses on bytes hold of objects that tell them. Memory may
/// run out at any time; that is tied to no cause.
pub fn amr<R: Threads + Wait + Sync, S: Source, O: Sink, E: Sink, D: Disk>(
    rt: &R,
    alloc: Global,
    words: &Line,
    src: &mut S,
    out: &mut O,
    err: &mut E,
    disk: &mut D,
) -> Status
    ensures served { Serves S.left S.faults O.holds O.faults E.holds E.faults D.seen D.moment D.leaves D.faults
        (command_of words.now) result src.old src.new out.old out.new err.old err.new disk.old disk.new }
{
    amr_gated(rt, alloc, words, src, out, err, disk, &OpenGate)
}

/// The same with a gate that each worker calls before and after each task. What `amr` promises it promises too: one definition.
pub fn amr_gated<R: Threads + Wait + Sync, S: Source, O: Sink, E: Sink, D: Disk, G: Gate + Sync>(
    rt: &R,
    alloc: Global,
    words: &Line,
    src: &mut S,
    out: &mut O,
    err: &mut E,
    disk: &mut D,
    gate: &G,
) -> Status
    requires gate { (worker task : ℕ) → worker < 64 → G.admits gate.now worker task }
    ensures served { Serves S.left S.faults O.holds O.faults E.holds E.faults D.seen D.moment D.leaves D.faults
        (command_of words.now) result src.old src.new out.old out.new err.old err.new disk.old disk.new }
{
    let shell = Shell {
        runtime: rt,
        gate,
        alloc,
    };
    let status = serve(&shell, words, src, out, err, disk);
    let _ = tell(err, &status);
    status
}

/// What a call works with: threads, the gate of their workers, and memory.
#[derive(Clone, Copy)]
struct Shell<'a, R, G> {
    runtime: &'a R,
    gate: &'a G,
    alloc: Global,
}

fn serve<R: Threads + Wait + Sync, S: Source, O: Sink, E: Sink, D: Disk, G: Gate + Sync>(
    shell: &Shell<'_, R, G>,
    words: &Line,
    src: &mut S,
    out: &mut O,
    err: &mut E,
    disk: &mut D,
) -> Status
    requires gate { (worker task : ℕ) → worker < 64 → G.admits shell.now.gate.now worker task }
    ensures outcome { (bytes : List ℕ) × ((sent : List ℕ) × ((said : List ℕ) × WereLeft (S.left src.old) bytes
        × Grows O.holds out.old out.new sent × Grows E.holds err.old err.new said
        × Outcome result (command_of words.now) bytes (D.seen disk.old) sent said
        × StopsTo D.seen D.moment D.leaves disk.old disk.new result (command_of words.now) bytes said)) }
    ensures ended { (command : _) → command_of words.now ≡ Some command → ReadsSource command → result ≡ Status.Done → IsAtEnd (S.left src.new) }
    ensures unread { (command : _) → command_of words.now ≡ Some command → ¬ (ReadsSource command) → src.new ≡ src.old }
    ensures unopened { (command : _) → command_of words.now ≡ Some command → ¬ (OpensStore command) → disk.new ≡ disk.old }
    ensures silent { (command : _) → command_of words.now ≡ Some command → ¬ (KeepsCheckpoints command) → err.new ≡ err.old }
    ensures taken { (command : _) → command_of words.now ≡ Some command
        → IfSome (meaning command).reads (λ most. TakesAtMost most (S.left src.old) (S.left src.new)) }
    ensures untouched { command_of words.now ≡ None
        → (src.new ≡ src.old) × (out.new ≡ out.old) × (err.new ≡ err.old) × (disk.new ≡ disk.old) }
    ensures settled { (command : _) → command_of words.now ≡ Some command → OpensStore command
        → EndsSettled D.seen D.moment D.leaves disk.old disk.new result }
    ensures unwritten { (refusal : _) → result ≡ Status.Store refusal → OnlyReads D.seen D.moment D.leaves disk.old disk.new }
    ensures source_first { EndsAtSource result → disk.new ≡ disk.old }
    ensures causes { let faults = faults_at S.faults O.faults E.faults D.faults in
        HasCauses result (faults src.old out.old err.old disk.old) (faults src.new out.new err.new disk.new) }
{
    match parse(shell.alloc, words) {
        Err(CliFault::Usage) => Status::Usage,
        Err(CliFault::NoMemory) => Status::NoMemory,
        Ok(command) => match answer(shell, command, src, out, err, disk) {
            Ok(()) => Status::Done,
            Err(refusal) => refusal,
        },
    }
}

/// The answer of a command, or the status that refuses it.
fn answer<R: Threads + Wait + Sync, S: Source, O: Sink, E: Sink, D: Disk, G: Gate + Sync>(
    shell: &Shell<'_, R, G>,
    command: Command,
    src: &mut S,
    out: &mut O,
    err: &mut E,
    disk: &mut D,
) -> Result<(), Status>
    requires workers { HasWorkers command }
    requires ranges { HasRanges command }
    requires gate { (worker task : ℕ) → worker < 64 → G.admits shell.now.gate.now worker task }
    ensures outcome { (bytes : List ℕ) × ((sent : List ℕ) × ((said : List ℕ) × WereLeft (S.left src.old) bytes
        × Grows O.holds out.old out.new sent × Grows E.holds err.old err.new said
        × RepliesTo (status_of result) command bytes (D.seen disk.old) sent said
        × StopsTo D.seen D.moment D.leaves disk.old disk.new (status_of result) (Some command) bytes said)) }
    ensures ended { ReadsSource command → OnOk result (IsAtEnd (S.left src.new)) }
    ensures unread { ¬ (ReadsSource command) → src.new ≡ src.old }
    ensures unopened { ¬ (OpensStore command) → disk.new ≡ disk.old }
    ensures silent { ¬ (KeepsCheckpoints command) → err.new ≡ err.old }
    ensures taken { IfSome (meaning command).reads (λ most. TakesAtMost most (S.left src.old) (S.left src.new)) }
    ensures refused { IfErr result (λ status. (status ≢ Status.Done) × (status ≢ Status.Usage)) }
    ensures settled { OpensStore command → EndsSettled D.seen D.moment D.leaves disk.old disk.new (status_of result) }
    ensures unwritten { (refusal : _) → result ≡ Err (Status.Store refusal) → OnlyReads D.seen D.moment D.leaves disk.old disk.new }
    ensures source_first { EndsAtSource (status_of result) → disk.new ≡ disk.old }
    ensures causes { let faults = faults_at S.faults O.faults E.faults D.faults in
        HasCauses (status_of result) (faults src.old out.old err.old disk.old) (faults src.new out.new err.new disk.new) }
{
    match command {
        Command::Run(options) => {
            let workers = workers_of(shell, options.workers);
            match options.keep {
                None => run(&workers, options.to, src, out),
                Some(every) => {
                    let marks = Marks {
                        to: options.to,
                        every,
                        deltas: options.deltas,
                    };
                    keep(&workers, marks, src, out, err, disk)
                }
            }
        }
        Command::Check => check(shell.alloc, src, out),
        Command::Show => show(shell.alloc, out, disk),
        Command::Trial {
            number,
            size,
            workers,
        } => trial(&workers_of(shell, workers), number, size, out),
        Command::Batch { workers } => batch(&workers_of(shell, workers), src, out),
        Command::View(asked) => view(&workers_of(shell, asked.workers), &asked, src, out),
    }
}

/// So many workers on the threads of a call, with its memory.
fn workers_of<'a, R, G>(shell: &Shell<'a, R, G>, count: u32) -> Workshop<'a, R, G>
    ensures count { result.count ≡ count }
    ensures gate { result.gate.now ≡ shell.now.gate.now }
{
    Workshop {
        runtime: shell.runtime,
        count,
        gate: shell.gate,
        alloc: shell.alloc,
    }
}
