//! A store of version 1, as the store's calls make it: shown, and renewed by the next checkpoint.

use crate::cases::{Case, FOUR_STEPS, LONG_RING, TWO_STEPS};
use crate::kept::bytes_of;
use amr_disk::{Disk, MemDisk};
use amr_store::Store;
use std::alloc::Global;
use std::test::Fail;

/// Sets bytes, where there are such.
fn set(bytes: &mut [u8], values: &[(usize, u8)]) {
    for (place, value) in values {
        if *place < bytes.len() {
            bytes[*place] = *value;
        }
    }
}

/// The store of version 1 that the ring, kept at each step, leaves after two steps: 258 bytes of each slot, of which the state
/// of step 1 has 137 and the one of step 2 has 161.
pub(crate) fn ring_at_two_steps(alloc: Global) -> Result<Vec<u8>, Fail> {
    let mut one = [0u8; 137];
    let mut two = [0u8; 161];
    set(
        &mut one,
        &[
            (0, 1),
            (4, 8),
            (28, 8),
            (52, 1),
            (53, 1),
            (65, 3),
            (69, 1),
            (73, 4),
            (81, 4),
        ],
    );
    set(
        &mut two,
        &[
            (0, 2),
            (4, 8),
            (28, 8),
            (52, 8),
            (76, 1),
            (77, 1),
            (89, 3),
            (93, 1),
            (97, 2),
            (105, 4),
            (113, 2),
        ],
    );
    let mut disk = MemDisk::make(alloc, &[], 4000, 1000, &[], None)?;
    let mut store = Store::create(alloc, &mut disk, LONG_RING.as_bytes(), 241, 1)?;
    store.put(&mut disk, 2, &one)?;
    store.put(&mut disk, 3, &two)?;
    bytes_of(alloc, &mut disk)
}

/// It is shown and gone on with. Then there is one of version 2 behind it.
#[test]
fn store_of_version_1_renewed(rt: HostRuntime) -> Result<(), Fail> {
    let store = ring_at_two_steps(rt.alloc())?;
    let mut disk = MemDisk::make(rt.alloc(), &store, 4000, 1000, &[], None)?;
    Case::of("show", b"").ends_on(&rt, &mut disk, 0, TWO_STEPS, "");
    Case::of("run --keep 1 --workers 4", LONG_RING.as_bytes()).ends_on(
        &rt,
        &mut disk,
        0,
        FOUR_STEPS,
        "checkpoint 3\ncheckpoint 4\n",
    );
    let mut head = [0u8; 17];
    let end = 537 + LONG_RING.len() as u64;
    assert_eq!(rt; disk.read_at(end, &mut head), Ok(17));
    assert_eq!(rt; head, *b"\xA5AMRSTOR2\xD1\0\0\0\0\0\0\0");
    Ok(())
}
