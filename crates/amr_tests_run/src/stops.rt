//! Each call of an object fails once, and each call of the disk is the last: what the run says, and what the next one
//! finds.

use crate::cases::{Case, Ended, FOUR_STEPS, LONG_RING, TWO_STEPS, empty_disk};
use crate::versions::ring_at_two_steps;
use amr_causes::NoMemory;
use amr_disk::{Leave, MemDisk};
use std::alloc::Global;
use std::fmt::Write as _;
use std::process::Abort;
use std::sync::Wait;
use std::test::Fail;
use std::thread::Threads;

/// More calls than a run of the ring makes of any object.
const CALLS: u64 = 100;

/// The bytes of a line that acknowledges a checkpoint of the ring.
const LINE: usize = 13;

/// The lines of all checkpoints of the ring.
const LINES: &str = "checkpoint 1\ncheckpoint 2\ncheckpoint 3\ncheckpoint 4\n";

/// Objects outside that a run calls.
#[derive(Clone, Copy)]
enum Object {
    Source,
    Out,
    Err,
    Disk,
}

/// The first run of the ring, to step 2, where one call of an object fails.
fn first_run<R: Alloc<A = Global> + Threads + Wait + Sync>(
    rt: &R,
    object: Object,
    call: u64,
) -> Result<Ended, NoMemory> {
    let fails = [call];
    let mut case = Case::of("run --to 2 --keep 1", LONG_RING.as_bytes());
    let mut disk_fails: &[u64] = &[];
    match object {
        Object::Source => case.reads_fail = &fails,
        Object::Out => case.writes_fail = &fails,
        Object::Err => case.lines_fail = &fails,
        Object::Disk => disk_fails = &fails,
    }
    let mut disk = empty_disk(rt.alloc(), disk_fails, None)?;
    case.call(rt, &mut disk)
}

/// Each call of each object fails once, in turn, until a run meets no fault.
#[test]
fn single_faults(rt: HostRuntime) -> Result<(), Fail> {
    for (object, status, least) in [
        (Object::Source, 4, 2),
        (Object::Out, 5, 5),
        (Object::Err, 5, 2),
        (Object::Disk, 6, 20),
    ] {
        let mut failed = 0u64;
        for call in 1..=CALLS {
            let ended = first_run(&rt, object, call)?;
            if ended.status == 0 {
                assert_eq!(rt; ended.out.bytes(), TWO_STEPS.as_bytes());
                break;
            }
            assert_eq!(rt; ended.status, status);
            failed = call;
        }
        assert!(rt; least <= failed && failed < CALLS);
    }
    Ok(())
}

/// Goes on with the ring from what a stop left: to the plot of its last step, by checkpoints after the one that was found. It is
/// at least the last one that was acknowledged.
fn goes_on<R: Abort + Alloc<A = Global> + Threads + Wait + Sync>(
    rt: &R,
    mut disk: MemDisk,
    acknowledged: usize,
) {
    let ended = Case::of("run --keep 1", LONG_RING.as_bytes())
        .call(rt, &mut disk)
        .expect(rt, "memory");
    assert_eq!(rt; ended.status, 0);
    assert_eq!(rt; ended.out.bytes(), FOUR_STEPS.as_bytes());
    let said = ended.err.bytes();
    assert!(rt;
        said.len()
            <= LINES
                .len()
                .saturating_sub(acknowledged.saturating_mul(LINE))
    );
    assert!(rt; LINES.as_bytes().ends_with(said));
}

/// How many checkpoints a run acknowledged before the line of the disk's fault, which is longer than one of theirs.
fn acknowledged(ended: &Ended) -> usize {
    (ended.err.bytes().len() / LINE).saturating_sub(1)
}

/// A run of the ring on a disk that stops at each of its calls in turn, and is left in each way. The next one goes on
/// from there.
fn stops<R: Abort + Alloc<A = Global> + Threads + Wait + Sync>(
    rt: &R,
    words: &str,
    store: &[u8],
    kept: usize,
) -> Result<u64, NoMemory> {
    let mut stopped = 0u64;
    for call in 1..=CALLS {
        for way in [
            Leave::Old,
            Leave::New,
            Leave::Filled(0),
            Leave::Filled(0xA5),
        ] {
            let mut disk = MemDisk::make(rt.alloc(), store, 4000, 1000, &[], Some(call))?;
            let ended = Case::of(words, LONG_RING.as_bytes()).call(rt, &mut disk)?;
            if ended.status == 0 {
                return Ok(stopped);
            }
            assert_eq!(rt; ended.status, 6);
            assert_eq!(rt; ended.out.bytes().len(), 0);
            goes_on(
                rt,
                disk.leave(way),
                kept.saturating_add(acknowledged(&ended)),
            );
        }
        stopped = call;
    }
    Ok(stopped)
}

/// Stops at the calls from one on up to another, which keep the next state. The last two open its gate: only a stop at these may
/// leave it, and does where what was written reached the disk. What the next run shows is that state, or the one before.
fn either_state<R: Abort + Alloc<A = Global> + Threads + Wait + Sync>(
    rt: &R,
    run: Case<'_>,
    store: &[u8],
    calls: (u64, u64),
    plots: (&str, &str),
) {
    for call in calls.0..=calls.1 {
        for (way, reaches) in [
            (Leave::Old, false),
            (Leave::New, true),
            (Leave::Filled(0), false),
            (Leave::Filled(0xA5), true),
        ] {
            let mut disk = MemDisk::make(rt.alloc(), store, 4000, 1000, &[], Some(call)).expect(
                rt, "memory",
            );
            let ended = run.call(rt, &mut disk).expect(rt, "memory");
            assert_eq!(rt; ended.status, 6);
            let is_next = reaches && call.saturating_add(1) >= calls.1;
            let plot = if is_next { plots.1 } else { plots.0 };
            let mut left = disk.leave(way);
            Case::of("show", b"").ends_on(rt, &mut left, 0, plot, "");
        }
    }
}

/// The ring's plot after so many steps.
fn plot_after(alloc: Global, steps: u32, row: &str) -> Result<String, Fail> {
    let mut plot = format!(in alloc; "amr-plot 1\nname ring\nstep {steps}\n")?;
    for step in 0..=steps {
        write!(plot, "ledger {step} 8 0 0\n")?;
    }
    write!(plot, "level 0 1\nbox 0 0 3 1\n{row}\n0 0 0 0\nend\n")?;
    Ok(plot)
}

/// The seven last calls of the run are those of its second checkpoint.
#[test]
fn stops_within_a_run(rt: HostRuntime) -> Result<(), Fail> {
    let words = "run --to 2 --keep 1";
    let stopped = stops(&rt, words, &[], 0)?;
    assert!(rt; 20 <= stopped && stopped < CALLS);
    let case = Case::of(words, LONG_RING.as_bytes());
    let one = plot_after(rt.alloc(), 1, "4 4 0 0")?;
    let calls = (stopped.saturating_sub(6), stopped);
    either_state(&rt, case, &[], calls, (one.as_str(), TWO_STEPS));
    Ok(())
}

/// The eight calls of the renewal come before the seven of the last checkpoint.
#[test]
fn stops_within_a_renewal(rt: HostRuntime) -> Result<(), Fail> {
    let store = ring_at_two_steps(rt.alloc())?;
    let words = "run --keep 1 --workers 4";
    let stopped = stops(&rt, words, &store, 2)?;
    assert!(rt; 20 <= stopped && stopped < CALLS);
    let case = Case::of(words, LONG_RING.as_bytes());
    let three = plot_after(rt.alloc(), 3, "1 3 3 1")?;
    let calls = (stopped.saturating_sub(14), stopped.saturating_sub(7));
    either_state(&rt, case, &store, calls, (TWO_STEPS, three.as_str()));
    Ok(())
}

/// The seven last calls put a whole state, behind which no record of before counts; the seven before them the second record.
#[test]
fn stops_within_a_run_with_records(rt: HostRuntime) -> Result<(), Fail> {
    let words = "run --keep 1 --deltas 2";
    let stopped = stops(&rt, words, &[], 0)?;
    assert!(rt; 40 <= stopped && stopped < CALLS);
    let case = Case::of(words, LONG_RING.as_bytes());
    let three = plot_after(rt.alloc(), 3, "1 3 3 1")?;
    let record = (stopped.saturating_sub(13), stopped.saturating_sub(7));
    either_state(&rt, case, &[], record, (TWO_STEPS, three.as_str()));
    let whole = (stopped.saturating_sub(6), stopped);
    either_state(&rt, case, &[], whole, (three.as_str(), FOUR_STEPS));
    Ok(())
}
