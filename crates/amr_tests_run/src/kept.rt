//! Runs that keep checkpoints, and what is shown of a store: worked plots, lines and refusals.

use crate::cases::{Case, FOUR_STEPS, LONG_RING, RING, TWO_STEPS, empty_disk};
use amr_disk::{Disk, DiskFault, MemDisk};
use std::alloc::Global;
use std::process::Abort;
use std::sync::Wait;
use std::test::Fail;
use std::thread::Threads;

/// The bytes that a disk reads.
pub(crate) fn bytes_of(alloc: Global, disk: &mut MemDisk) -> Result<Vec<u8>, Fail> {
    let mut bytes = Vec::new(alloc);
    let mut part = [0u8; 64];
    for place in 0..64u64 {
        match disk.read_at(place * 64, &mut part) {
            Ok(n) => bytes.extend_from_slice(&part[..n.min(64)])?,
            Err(DiskFault) => {}
        }
    }
    Ok(bytes)
}

/// Kept to step 2 by these words, shown, gone on with by four workers, and shown again.
fn keep_and_go_on<R: Abort + Alloc<A = Global> + Threads + Wait + Sync>(
    rt: &R,
    disk: &mut MemDisk,
    words: &str,
) {
    let ring = LONG_RING.as_bytes();
    Case::of(words, ring).ends_on(rt, disk, 0, TWO_STEPS, "checkpoint 1\ncheckpoint 2\n");
    Case::of("show", b"").ends_on(rt, disk, 0, TWO_STEPS, "");
    Case::of("run --keep 1 --workers 4", ring).ends_on(
        rt,
        disk,
        0,
        FOUR_STEPS,
        "checkpoint 3\ncheckpoint 4\n",
    );
    Case::run(ring).ends(rt, 0, FOUR_STEPS, "");
    Case::of("show", b"").ends_on(rt, disk, 0, FOUR_STEPS, "");
}

/// A lower target, and another problem, are refused then. No byte of the store changes.
#[test]
fn kept_shown_gone_on_with_and_refused(rt: HostRuntime) -> Result<(), Fail> {
    let alloc = rt.alloc();
    let mut disk = empty_disk(alloc, &[], None)?;
    keep_and_go_on(&rt, &mut disk, "run --to 2 --keep 1");
    let before = bytes_of(alloc, &mut disk)?;
    for (words, problem, line) in [
        (
            "run --to 2 --keep 1",
            LONG_RING,
            "amr: store is ahead: 4 2\n",
        ),
        (
            "run --keep 1",
            RING,
            "amr: store holds another problem: 137 137 at 49\n",
        ),
    ] {
        Case::of(words, problem.as_bytes()).ends_on(&rt, &mut disk, 7, "", line);
    }
    assert_eq!(rt; bytes_of(alloc, &mut disk)?.as_slice(), before.as_slice());
    Ok(())
}

/// The same with two records behind each whole state.
#[test]
fn records_kept_shown_and_gone_on_with(rt: HostRuntime) -> Result<(), Fail> {
    let mut disk = empty_disk(rt.alloc(), &[], None)?;
    keep_and_go_on(&rt, &mut disk, "run --to 2 --keep 1 --deltas 2");
    Ok(())
}

#[test]
fn nothing_to_show(rt: HostRuntime) -> Result<(), Fail> {
    for (bytes, line) in [
        (b"".as_slice(), "amr: store is empty\n"),
        (b"\xA5".as_slice(), "amr: store is empty\n"),
        (b"\xA5\0".as_slice(), "amr: store damaged: head\n"),
    ] {
        let mut disk = MemDisk::make(rt.alloc(), bytes, 0, 10, &[], None)?;
        Case::of("show", b"").ends_on(&rt, &mut disk, 7, "", line);
    }
    Ok(())
}
