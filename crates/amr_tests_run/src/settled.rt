//! Writes that were pending before a command that opens the store are not any more after it.

use crate::cases::{Case, LONG_RING, empty_disk};
use amr_causes::NoMemory;
use amr_disk::Leave;
use std::alloc::Global;
use std::process::Abort;
use std::sync::Wait;
use std::test::Fail;
use std::thread::Threads;

/// More calls of the disk than a run of two steps makes.
const CALLS: u64 = 100;

/// A run at one of whose calls the disk fails once: a write or its sync, so that bytes may be pending. What a command answers from that disk
/// next is shown after any stop too. Gives whether the disk failed.
fn answer_stays<R: Abort + Alloc<A = Global> + Threads + Wait + Sync>(
    rt: &R,
    words: &str,
    call: u64,
    way: Leave,
) -> Result<bool, NoMemory> {
    let fails = [call];
    let mut disk = empty_disk(rt.alloc(), &fails, None)?;
    let run = Case::of("run --to 2 --keep 1", LONG_RING.as_bytes());
    if run.call(rt, &mut disk)?.status == 0 {
        return Ok(false);
    }
    let ended = Case::of(words, LONG_RING.as_bytes()).call(rt, &mut disk)?;
    let mut left = disk.leave(way);
    let shown = Case::of("show", b"").call(rt, &mut left)?;
    assert_eq!(rt; shown.out.bytes(), ended.out.bytes());
    Ok(true)
}

#[test]
fn answers_after_a_fault_stay(rt: HostRuntime) -> Result<(), Fail> {
    for words in ["show", "run --to 2 --keep 1"] {
        let mut failed = 0u64;
        for call in 1..=CALLS {
            let mut fails = false;
            for way in [Leave::Old, Leave::New, Leave::Filled(0)] {
                fails = answer_stays(&rt, words, call, way)?;
            }
            if !fails {
                break;
            }
            failed = call;
        }
        assert!(rt; 20 <= failed && failed < CALLS);
    }
    Ok(())
}
