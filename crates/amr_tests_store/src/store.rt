//! Puts, older bytes, and calls that fail. The problem is one byte, and a slot holds two: the gates stand at 22 and 41, the end at 60.
ghost use Rattle.std.specs.Prelude.{◌≡◌, None};
ghost use Rattle.amr_store.specs.Created.{IsVersion};
ghost use Rattle.amr_store.specs.Stands.{IsStoreReady, last_in, slot_size_in};

use amr_disk::{Disk, MemDisk};
use amr_store::{Found, Store, StoreFault};
use std::alloc::Global;
use std::process::Abort;
use std::test::Fail;

// A store of version 1 with one state in its first slot.
const IMAGE: [u8; 42] = [
    0xA5, 65, 77, 82, 83, 84, 79, 82, 49, 2, 0, 0, 0, 0, 0, 0, 0, 1, 0, 0, 0, 112, 0xA5, 1, 0, 0,
    0, 0, 0, 0, 0, 2, 0, 0, 0, 0, 0, 0, 0, 8, 9, 0,
];

// Longer bytes of something older, with a closed first byte and an open gate wherever one could stand.
fn older() -> [u8; 128] {
    let mut bytes = [0xA5; 128];
    bytes[0] = 0;
    bytes
}

// The latest state that a disk holds.
fn latest_on(alloc: Global, mut disk: MemDisk) -> Result<Option<Vec<u8>>, Fail> {
    match Store::open(alloc, &mut disk)? {
        Found::Ready(mut store) => Ok(store.latest(alloc, &mut disk)?),
        Found::Nothing => Ok(None),
        Found::Damaged(_) => Ok(None),
    }
}

// Whether a state was found that has these bytes.
fn is_state(found: &Option<Vec<u8>>, want: &[u8]) -> bool {
    match found {
        Some(bytes) => bytes.as_slice() == want,
        None => false,
    }
}

// Three puts in turn, up to the first that is refused.
fn put_three<D: Disk>(store: &mut Store, disk: &mut D) -> Result<(), StoreFault>
    requires ready { IsStoreReady D.seen D.moment D.leaves store.old disk.old }
    requires none { last_in store.old ≡ None }
    requires size { slot_size_in store.old ≡ 2 }
{
    store.put(disk, 1, &[7])?;
    store.put(disk, 2, &[7])?;
    store.put(disk, 3, &[7])
}

// The last of three puts that succeeds on a disk that stops at a call.
fn last_before(alloc: Global, stop: u64) -> Result<Option<u64>, Fail> {
    let mut disk = MemDisk::make(alloc, &[], 128, 64, &[], Some(stop))?;
    let mut store = Store::create(alloc, &mut disk, &[112], 2, 2)?;
    let _ = put_three(&mut store, &mut disk);
    Ok(store.last())
}

#[test]
fn put_is_seven_calls(rt: HostRuntime) -> Result<(), Fail> {
    // Creation is eight calls. Each put needs its seventh call, and makes no eighth.
    for (stop, last) in [
        (15, None),
        (16, Some(1)),
        (22, Some(1)),
        (23, Some(2)),
        (29, Some(2)),
        (30, Some(3)),
    ] {
        assert_eq!(rt; last_before(rt.alloc(), stop)?, last, "stopped at {stop}");
    }
    Ok(())
}

// A new store over the older bytes, with one state where asked.
fn over_older(alloc: Global, version: u32, is_put: bool) -> Result<MemDisk, Fail>
    requires { IsVersion version }
{
    let mut disk = MemDisk::make(alloc, &older(), 128, 64, &[], None)?;
    match Store::open(alloc, &mut disk)? {
        Found::Nothing => {
            let mut store = Store::create(alloc, &mut disk, &[112], 2, version)?;
            if is_put {
                store.put(&mut disk, 1, &[8, 9])?;
            }
        }
        Found::Ready(_) => {}
        Found::Damaged(_) => {}
    }
    Ok(disk)
}

// The same, byte by byte: what the format names, and older bytes elsewhere.
fn bytes_over_older(version: u32, is_put: bool) -> [u8; 128] {
    let mut bytes = [0xA5; 128];
    bytes[..22].copy_from_slice(&IMAGE[..22]);
    bytes[22] = 0;
    bytes[41] = 0;
    if version == 1 {
        bytes[60] = 0;
    } else {
        bytes[8] = 50;
    }
    if is_put {
        bytes[22..41].copy_from_slice(&IMAGE[22..41]);
    }
    bytes
}

#[test]
fn older_bytes_stay_and_do_not_count(rt: HostRuntime) -> Result<(), Fail> {
    let alloc = rt.alloc();
    for version in [1, 2] {
        for is_put in [false, true] {
            let mut disk = over_older(alloc, version, is_put)?;
            let mut bytes = [0; 128];
            assert_eq!(rt; disk.read_at(0, &mut bytes)?, 128);
            assert_eq!(rt; bytes, bytes_over_older(version, is_put));
            let latest = latest_on(alloc, disk)?;
            assert_eq!(rt; latest.is_some(), is_put);
        }
    }
    Ok(())
}

// The latest state after a second put in which a sync fails: the store takes no put from then on.
fn latest_after_a_failed_sync(
    rt: &(impl Abort + AllocGlobal),
    call: u64,
) -> Result<Option<Vec<u8>>, Fail> {
    let alloc = rt.alloc();
    let mut disk = MemDisk::make(alloc, &[], 128, 64, &[call], None)?;
    let mut store = Store::create(alloc, &mut disk, &[112], 2, 2)?;
    store.put(&mut disk, 1, &[8, 9])?;
    match store.put(&mut disk, 2, &[7]) {
        Err(StoreFault::DiskFault) => {
            let third = store.put(&mut disk, 3, &[6]);
            assert_eq!(rt; third, Err(StoreFault::Shut), "after a failed sync");
        }
        Err(_) => assert!(rt; false),
        Ok(()) => assert!(rt; false, "the sync failed at {call}"),
    }
    assert_eq!(rt; store.last(), Some(1));
    latest_on(alloc, disk)
}

#[test]
fn failed_sync_shuts_the_store(rt: HostRuntime) -> Result<(), Fail> {
    for (call, want) in [
        (17, [8, 9].as_slice()),
        (20, [8, 9].as_slice()),
        (22, [7].as_slice()),
    ] {
        let latest = latest_after_a_failed_sync(&rt, call)?;
        assert!(rt; is_state(&latest, want), "call {call}");
    }
    Ok(())
}
