//! The commands.
ghost use Rattle.std.specs.Prelude.{◌≡◌, ◌≢◌, ◌<◌, ◌≤◌, List, [], ℕ, Option, Err, false, IfErr, IfOk, IfSome, OnOk, OnErr, slice_index_or};
ghost use Rattle.std.specs.Io.KnownBytes.{IsAtEnd};
ghost use Rattle.amr_causes.specs.Causes.{HasCause, Rose};
ghost use Rattle.amr_causes.specs.Bytes.{Grows, WereLeft};
ghost use Rattle.amr_io.specs.Short.{FallsShort};
ghost use Rattle.amr_run.specs.Texts.{problem_line};
ghost use Rattle.amr_def.specs.Facts.{IsSound};
ghost use Rattle.amr_def.specs.Species.{no_state, run_all};
ghost use Rattle.amr_drive.specs.Flocks.{IsFlockOf, states_of};
ghost use Rattle.amr_patch.specs.Meshes.{is_spent, state_of};
ghost use Rattle.amr_trial.specs.Trial.{IsSize};
ghost use Rattle.amr_store.specs.Phases.{OnlyReads};
ghost use Rattle.amr_run.specs.Answer.{IsSoundRun, stop_of};
ghost use Rattle.amr_run.specs.Faults.{HasCauses, faults_at};
ghost use Rattle.amr_run.specs.Outcome.{EndsAtSource, EndsSettled, RepliesBy, StopsRun, status_of};
ghost use Rattle.amr_run.specs.Sources.{TakesAtMost};
ghost use Rattle.amr_run.specs.Table.{check_row, kept_row, run_row, show_row, trial_row};

use crate::Status;
use crate::checkpoints::keep_run;
use crate::line::put_line;
use crate::source::{read_problem, read_storable};
use amr_advance::Crew;
use amr_causes::NoMemory;
use amr_checkpoint::Keeping;
use amr_def::Problem;
use amr_disk::Disk;
use amr_drive::{Flock, drive_all};
use amr_io::{Fragment, Sink, Source, WriteFault, write_whole};
use amr_patch::Mesh;
use amr_plot::{plot, plot_all_in_threads, plot_in_threads};
use amr_problem::judge;
use amr_trial::{summary, text};
use amr_workers::Gate;
use std::alloc::Global;
use std::sync::Wait;
use std::thread::Threads;

/// How many steps a trial makes.
const TRIAL_STEPS: u32 = 16;

/// Who makes the steps of a run, and with what memory: so many workers on threads of a runtime, each of whom calls a gate around
/// each task.
#[derive(Clone, Copy)]
pub(crate) struct Workshop<'a, R, G> {
    pub runtime: &'a R,
    pub count: u32,
    pub gate: &'a G,
    pub alloc: Global,
}

/// Where a run puts its checkpoints: after each step whose number `every` divides, and at its last step. That is `to`, or the
/// problem's last where none is asked for or that comes first. A store that it makes has `deltas` records behind each whole state, or
/// whole states alone.
#[derive(Clone, Copy)]
pub(crate) struct Marks {
    pub to: Option<u32>,
    pub every: u32,
    pub deltas: Option<u32>,
}

/// The step that a run stops at: one that is asked for, and at most the problem's last.
fn stop_of(problem: &Problem, to: Option<u32>) -> u32
    ensures { result ≡ stop_of to problem.now }
{
    match to {
        Some(k) => k.min(problem.steps),
        None => problem.steps,
    }
}

/// The states of a problem's run at step `target`, one of each species. Out of memory is the only refusal.
pub(crate) fn run_to<R: Threads + Wait + Sync, G: Gate + Sync>(
    workers: &Workshop<'_, R, G>,
    problem: &Problem,
    target: u32,
) -> Result<Flock, NoMemory>
    requires within { target ≤ problem.now.steps }
    requires some_workers { 1 ≤ workers.now.count }
    requires few_workers { workers.now.count ≤ 64 }
    requires gate { (worker task : ℕ) → worker < workers.now.count → G.admits workers.now.gate.now worker task }
    ensures value { IfOk result (λ f. states_of f ≡ run_all problem.now target) }
    ensures flock { IfOk result (IsFlockOf problem.now) }
    ensures run { OnOk result (IsSoundRun problem.now target) }
{
    let mut flock = Flock::start(workers.alloc, problem)?;
    let crew = Crew {
        ranks: 1,
        workers: workers.count,
    };
    drive_all(
        workers.runtime,
        workers.alloc,
        problem,
        &mut flock,
        target,
        crew,
        workers.gate,
    )?;
    Ok(flock)
}

/// The mesh of a species.
pub(crate) fn mesh_of<'a>(problem: &Problem, flock: &'a Flock, species: u32) -> &'a Mesh
    requires flock { IsFlockOf problem.now flock.now }
    requires species { species < problem.now.species }
    ensures state { state_of result.now ≡ slice_index_or (states_of flock.now) species no_state }
    ensures whole { is_spent result.now ≡ false }
    ensures sound { IsSound problem.now (state_of result.now) }
{
    &flock.meshes()[species as usize]
}

/// The command `run`: the plot of the run of the problem on the source, or the status that refuses it.
pub(crate) fn run<R: Threads + Wait + Sync, S: Source, O: Sink, G: Gate + Sync>(
    workers: &Workshop<'_, R, G>,
    to: Option<u32>,
    src: &mut S,
    out: &mut O,
) -> Result<(), Status>
    requires some_workers { 1 ≤ workers.now.count }
    requires few_workers { workers.now.count ≤ 64 }
    requires gate { (worker task : ℕ) → worker < workers.now.count → G.admits workers.now.gate.now worker task }
    ensures outcome { (bytes : List ℕ) × ((sent : List ℕ) × WereLeft (S.left src.old) bytes
        × Grows O.holds out.old out.new sent × ((seen : Option (List ℕ)) → RepliesBy (run_row to) (status_of result) bytes seen sent [])) }
    ensures ended { OnOk result (IsAtEnd (S.left src.new)) }
    ensures taken { TakesAtMost 65537 (S.left src.old) (S.left src.new) }
    ensures refused { IfErr result (λ status. status ≢ Status.Done) }
    ensures read_fault { result ≡ Err Status.ReadFault → Rose (S.faults src.old) (S.faults src.new) }
    ensures no_read_fault { result ≢ Err Status.ReadFault → S.faults src.new ≡ S.faults src.old }
    ensures write_fault { result ≡ Err Status.WriteFault → Rose (O.faults out.old) (O.faults out.new) }
    ensures no_write_fault { result ≢ Err Status.WriteFault → O.faults out.new ≡ O.faults out.old }
{
    let given = read_problem(workers.alloc, src)?;
    let target = stop_of(&given.problem, to);
    let flock = run_to(workers, &given.problem, target)?;
    plot_all_in_threads(
        workers.runtime,
        workers.count as usize,
        workers.alloc,
        &given.problem,
        flock.meshes(),
        out,
    )?;
    Ok(())
}

/// The command `run` with checkpoints, which goes on from what the disk holds. It answers the plot of the run of the
/// problem of one species on the source, or the status that refuses it. Each checkpoint is acknowledged on `err` once it stands; the
/// plot is written last.
pub(crate) fn keep<R: Threads + Wait + Sync, S: Source, O: Sink, E: Sink, D: Disk, G: Gate + Sync>(
    workers: &Workshop<'_, R, G>,
    marks: Marks,
    src: &mut S,
    out: &mut O,
    err: &mut E,
    disk: &mut D,
) -> Result<(), Status>
    requires some { 1 ≤ marks.every }
    requires deltas { IfSome marks.deltas (λ d. (1 ≤ d) × (d ≤ 7)) }
    requires some_workers { 1 ≤ workers.now.count }
    requires few_workers { workers.now.count ≤ 64 }
    requires gate { (worker task : ℕ) → worker < workers.now.count → G.admits workers.now.gate.now worker task }
    ensures outcome { (bytes : List ℕ) × ((sent : List ℕ) × ((said : List ℕ) × WereLeft (S.left src.old) bytes
        × Grows O.holds out.old out.new sent × Grows E.holds err.old err.new said
        × RepliesBy (kept_row marks) (status_of result) bytes (D.seen disk.old) sent said
        × StopsRun D.seen D.moment D.leaves disk.old disk.new (status_of result) marks bytes said)) }
    ensures ended { OnOk result (IsAtEnd (S.left src.new)) }
    ensures taken { TakesAtMost 65537 (S.left src.old) (S.left src.new) }
    ensures refused { IfErr result (λ status. status ≢ Status.Done) }
    ensures causes { let faults = faults_at S.faults O.faults E.faults D.faults in
        HasCauses (status_of result) (faults src.old out.old err.old disk.old) (faults src.new out.new err.new disk.new) }
    ensures settled { EndsSettled D.seen D.moment D.leaves disk.old disk.new (status_of result) }
    ensures unwritten { (refusal : _) → result ≡ Err (Status.Store refusal) → OnlyReads D.seen D.moment D.leaves disk.old disk.new }
    ensures source_first { EndsAtSource (status_of result) → disk.new ≡ disk.old }
{
    let given = read_storable(workers.alloc, src)?;
    let keeping = Keeping {
        alloc: workers.alloc,
        problem: &given.problem,
        every: marks.every,
        target: stop_of(&given.problem, marks.to),
        deltas: marks.deltas,
    };
    let mesh = keep_run(workers, &keeping, &given.bytes, err, disk)?;
    plot_in_threads(
        workers.runtime,
        workers.count as usize,
        workers.alloc,
        &given.problem,
        &mesh,
        out,
    )?;
    Ok(())
}

/// The command `show`: the plot of the state that the disk holds, or the status that refuses it.
pub(crate) fn show<O: Sink, D: Disk>(alloc: Global, out: &mut O, disk: &mut D) -> Result<(), Status>
    ensures outcome { (sent : List ℕ) × Grows O.holds out.old out.new sent
        × ((bytes : List ℕ) → RepliesBy show_row (status_of result) bytes (D.seen disk.old) sent []) }
    ensures refused { IfErr result (λ status. status ≢ Status.Done) }
    ensures no_source { ¬ (EndsAtSource (status_of result)) }
    ensures reads { OnlyReads D.seen D.moment D.leaves disk.old disk.new }
    ensures settled { EndsSettled D.seen D.moment D.leaves disk.old disk.new (status_of result) }
    ensures disk_fault { result ≡ Err Status.DiskFault → Rose (D.faults disk.old) (D.faults disk.new) }
    ensures no_disk_fault { result ≢ Err Status.DiskFault → D.faults disk.new ≡ D.faults disk.old }
    ensures write_fault { result ≡ Err Status.WriteFault → Rose (O.faults out.old) (O.faults out.new) }
    ensures no_write_fault { result ≢ Err Status.WriteFault → O.faults out.new ≡ O.faults out.old }
{
    let shown = amr_checkpoint::show(alloc, disk)?;
    plot(&shown.problem, &shown.mesh, out)?;
    Ok(())
}

/// The command `trial`: the line of a trial, or the status that refuses it. Its problem is drawn from two numbers, and always
/// accepted.
pub(crate) fn trial<R: Threads + Wait + Sync, O: Sink, G: Gate + Sync>(
    workers: &Workshop<'_, R, G>,
    number: u32,
    size: u32,
    out: &mut O,
) -> Result<(), Status>
    requires size { IsSize size }
    requires some_workers { 1 ≤ workers.now.count }
    requires few_workers { workers.now.count ≤ 64 }
    requires gate { (worker task : ℕ) → worker < workers.now.count → G.admits workers.now.gate.now worker task }
    ensures outcome { (sent : List ℕ) × Grows O.holds out.old out.new sent
        × ((bytes : List ℕ) (seen : Option (List ℕ)) → RepliesBy (trial_row number size) (status_of result) bytes seen sent []) }
    ensures refused { IfErr result (λ status. status ≢ Status.Done) }
    ensures no_read_fault { result ≢ Err Status.ReadFault }
    ensures write_fault { result ≡ Err Status.WriteFault → Rose (O.faults out.old) (O.faults out.new) }
    ensures no_write_fault { result ≢ Err Status.WriteFault → O.faults out.new ≡ O.faults out.old }
{
    let alloc = workers.alloc;
    let bytes = text(alloc, number, size)?;
    let problem = judge(alloc, &bytes)?;
    let flock = run_to(workers, &problem, TRIAL_STEPS)?;
    let line = summary(alloc, number, size, &problem, mesh_of(&problem, &flock, 0))?;
    write_whole(out, &line)?;
    Ok(())
}

/// The command `check`: the line of the problem on the source, or the status that refuses it.
pub(crate) fn check<S: Source, O: Sink>(
    alloc: Global,
    src: &mut S,
    out: &mut O,
) -> Result<(), Status>
    ensures outcome { (bytes : List ℕ) × ((sent : List ℕ) × WereLeft (S.left src.old) bytes
        × Grows O.holds out.old out.new sent × ((seen : Option (List ℕ)) → RepliesBy check_row (status_of result) bytes seen sent [])) }
    ensures ended { OnOk result (IsAtEnd (S.left src.new)) }
    ensures taken { TakesAtMost 65537 (S.left src.old) (S.left src.new) }
    ensures refused { IfErr result (λ status. status ≢ Status.Done) }
    ensures read_fault { result ≡ Err Status.ReadFault → Rose (S.faults src.old) (S.faults src.new) }
    ensures no_read_fault { result ≢ Err Status.ReadFault → S.faults src.new ≡ S.faults src.old }
    ensures write_fault { result ≡ Err Status.WriteFault → Rose (O.faults out.old) (O.faults out.new) }
    ensures no_write_fault { result ≢ Err Status.WriteFault → O.faults out.new ≡ O.faults out.old }
{
    let given = read_problem(alloc, src)?;
    put_problem(out, &given.problem)?;
    Ok(())
}

fn put_problem<O: Sink>(out: &mut O, problem: &Problem) -> Result<(), WriteFault>
    ensures whole { OnOk result (Grows O.holds out.old out.new (problem_line problem.now)) }
    ensures short { OnErr result (FallsShort O.holds out.old out.new (problem_line problem.now)) }
    ensures cause { HasCause (O.faults out.old) (O.faults out.new) result }
    ensures no_fault { OnOk result (O.faults out.new ≡ O.faults out.old) }
{
    put_line(
        out,
        &[
            Fragment::Str("ok "),
            Fragment::Number(u64::from(problem.nx)),
            Fragment::Str(" "),
            Fragment::Number(u64::from(problem.ny)),
            Fragment::Str(" "),
            Fragment::Number(u64::from(problem.steps)),
            Fragment::Str(" "),
            Fragment::Number(u64::from(problem.max_level)),
        ],
    )
}
