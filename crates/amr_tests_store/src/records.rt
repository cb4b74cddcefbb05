//! Records behind whole states: what counts, what is found again, and what is damaged. The problem is one byte, a slot holds nine, and two
//! records follow each base: the number of records stands at 22, and the gates at 23, 49, 75, 101, 127 and 153.
ghost use Rattle.std.specs.Prelude.{◌≡◌, Some, None};
ghost use Rattle.amr_store.specs.Stands.{IsStoreReady, deltas_in, last_in, slot_size_in};
ghost use Rattle.amr_store.specs.Stored.{front_in};

use amr_disk::{Disk, MemDisk};
use amr_store::{Found, Part, Store, StoreFault};
use std::alloc::Global;
use std::test::Fail;

// A record on the state of a sequence, with one byte more.
fn record(on: u8, byte: u8) -> [u8; 9]
    ensures { front_in result ≡ Some on }
{
    [on, 0, 0, 0, 0, 0, 0, 0, byte]
}

// The first few of these puts, up to the first that is refused: a whole state with two records, another with one, and a third.
fn put_first<D: Disk>(store: &mut Store, disk: &mut D, count: u32) -> Result<(), StoreFault>
    requires ready { IsStoreReady D.seen D.moment D.leaves store.old disk.old }
    requires none { last_in store.old ≡ None }
    requires size { slot_size_in store.old ≡ 9 }
    requires deltas { deltas_in store.old ≡ 2 }
{
    if count < 1 {
        return Ok(());
    }
    store.put(disk, 1, &[8])?;
    if count < 2 {
        return Ok(());
    }
    store.put_record(disk, 2, &record(1, 5))?;
    if count < 3 {
        return Ok(());
    }
    store.put_record(disk, 4, &record(2, 6))?;
    if count < 4 {
        return Ok(());
    }
    store.put(disk, 5, &[7])?;
    if count < 5 {
        return Ok(());
    }
    store.put_record(disk, 6, &record(5, 4))?;
    if count < 6 {
        return Ok(());
    }
    store.put(disk, 7, &[3])
}

// The last of these puts that succeeds on a disk that stops at a call.
fn last_before(alloc: Global, stop: u64) -> Result<Option<u64>, Fail> {
    let mut disk = MemDisk::make(alloc, &[], 512, 64, &[], Some(stop))?;
    let mut store = Store::create3(alloc, &mut disk, &[112], 9, 2)?;
    let _ = put_first(&mut store, &mut disk, 6);
    Ok(store.last())
}

#[test]
fn record_is_seven_calls(rt: HostRuntime) -> Result<(), Fail> {
    // Creation is twelve calls. Each put needs its seventh call, and makes no eighth.
    for (stop, last) in [
        (19, None),
        (20, Some(1)),
        (26, Some(1)),
        (27, Some(2)),
        (33, Some(2)),
        (34, Some(4)),
        (40, Some(4)),
        (41, Some(5)),
        (47, Some(5)),
        (48, Some(6)),
        (54, Some(6)),
        (55, Some(7)),
    ] {
        assert_eq!(rt; last_before(rt.alloc(), stop)?, last, "stopped at {stop}");
    }
    Ok(())
}

// A disk after so many of these puts.
fn disk_after(alloc: Global, count: u32) -> Result<MemDisk, Fail> {
    let mut disk = MemDisk::make(alloc, &[], 512, 64, &[], None)?;
    let mut store = Store::create3(alloc, &mut disk, &[112], 9, 2)?;
    put_first(&mut store, &mut disk, count)?;
    Ok(disk)
}

// What opening a disk finds: a damaged part, or the last sequence and how many records count.
fn found(alloc: Global, disk: &mut MemDisk) -> Result<(Option<Part>, Option<u64>, u32), Fail> {
    match Store::open(alloc, disk)? {
        Found::Ready(store) => Ok((None, store.last(), store.chain())),
        Found::Damaged(part) => Ok((Some(part), None, 0)),
        Found::Nothing => Ok((None, None, 0)),
    }
}

#[test]
fn records_count_behind_their_base_alone(rt: HostRuntime) -> Result<(), Fail> {
    // After the fourth put the records 2 and 4 stand behind the other base, and after the sixth behind the newer one: they are stale.
    for (count, last, chain) in [
        (0, None, 0),
        (1, Some(1), 0),
        (2, Some(2), 1),
        (3, Some(4), 2),
        (4, Some(5), 0),
        (5, Some(6), 1),
        (6, Some(7), 0),
    ] {
        let mut disk = disk_after(rt.alloc(), count)?;
        assert_eq!(rt;
            found(rt.alloc(), &mut disk)?,
            (None, last, chain),
            "{count} puts"
        );
    }
    Ok(())
}

// The payload of the latest whole state, which has number 0, or of a record that counts, and its sequence.
fn payload_at(
    alloc: Global,
    disk: &mut MemDisk,
    number: u32,
) -> Result<Option<(Vec<u8>, Option<u64>)>, Fail> {
    match Store::open(alloc, disk)? {
        Found::Ready(mut store) => {
            if store.chain() < number {
                return Ok(None);
            }
            let sequence = store.sequence_at(number);
            if number == 0 {
                return match store.latest(alloc, disk)? {
                    Some(bytes) => Ok(Some((bytes, sequence))),
                    None => Ok(None),
                };
            }
            let bytes = store.delta_at(alloc, disk, number)?;
            Ok(Some((bytes, sequence)))
        }
        Found::Damaged(_) => Ok(None),
        Found::Nothing => Ok(None),
    }
}

#[test]
fn records_are_found_again(rt: HostRuntime) -> Result<(), Fail> {
    let alloc = rt.alloc();
    for (count, number, byte, sequence) in [
        (1, 0, 8, 1),
        (2, 0, 8, 1),
        (2, 1, 5, 2),
        (3, 0, 8, 1),
        (3, 1, 5, 2),
        (3, 2, 6, 4),
        (4, 0, 7, 5),
        (5, 1, 4, 6),
        (6, 0, 3, 7),
    ] {
        let mut disk = disk_after(alloc, count)?;
        match payload_at(alloc, &mut disk, number)? {
            Some((bytes, told)) => {
                assert_eq!(rt; bytes.as_slice().last().copied(), Some(byte));
                assert_eq!(rt; told, Some(sequence));
            }
            None => assert!(rt; false, "number {number} after {count} puts"),
        }
    }
    Ok(())
}

// What opening finds in the bytes after three puts, of which one is changed.
fn found_with(
    alloc: Global,
    place: usize,
    value: u8,
) -> Result<(Option<Part>, Option<u64>, u32), Fail> {
    let mut bytes = [0; 154];
    let mut disk = disk_after(alloc, 3)?;
    let _ = disk.read_at(0, &mut bytes)?;
    if place < 154 {
        bytes[place] = value;
    }
    let mut changed = MemDisk::make(alloc, &bytes, 0, 8, &[], None)?;
    found(alloc, &mut changed)
}

#[test]
fn records_at_their_bounds(rt: HostRuntime) -> Result<(), Fail> {
    for (place, value, part, last, chain) in [
        // the number of records behind a base: 0, too many, and one whose slots are not there
        (22, 0, Some(Part::Deltas), None, 0),
        (22, 8, Some(Part::Deltas), None, 0),
        (22, 7, Some(Part::Slot(6)), None, 0),
        // the sequence that the first record stands on: above the last one, which is 1 then, and below it, so that the second stands above
        (66, 2, Some(Part::Slot(1)), None, 0),
        (66, 0, Some(Part::Slot(2)), None, 0),
        // the second: above the last one, which is 2 then, and below it
        (92, 3, Some(Part::Slot(2)), None, 0),
        (92, 1, None, Some(2), 1),
        // its own sequence: not above the last one, just above it, and 0
        (76, 2, None, Some(2), 1),
        (76, 3, None, Some(3), 2),
        (76, 0, Some(Part::Slot(2)), None, 0),
        // its length: too short for a sequence, just long enough, and more than a slot holds
        (84, 7, None, Some(2), 1),
        (84, 8, None, Some(4), 2),
        (84, 10, Some(Part::Slot(2)), None, 0),
        // its gate, and that of its base
        (75, 0, None, Some(2), 1),
        (23, 0, Some(Part::Slot(1)), None, 0),
    ] {
        assert_eq!(rt;
            found_with(rt.alloc(), place, value)?,
            (part, last, chain),
            "{value} at {place}"
        );
    }
    Ok(())
}
