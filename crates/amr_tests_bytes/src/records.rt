//! Records of a state on an older one: bytes and places worked out by hand from the table of fields.

use crate::fields::told;
use crate::payloads::{put, set, three_levels};
use amr_causes::NoMemory;
use amr_codec::encode2;
use amr_decoder::{CodecFault, decode2};
use amr_def::Problem;
use amr_delta::{decode_delta, delta_size, encode_delta};
use amr_problem::judge;
use std::alloc::Global;
use std::test::Fail;

const RING: &str = "version = 1
name = \"ring\"
cells = [4, 2]
steps = 4
courant = [1, 0, 2]
sides = [-1, -1, -1, -1]
max_level = 0
blocks = [[0, 0, 0, 0, 8]]
";

/// The ring of 4 by 2 cells and four steps.
fn ring(alloc: Global) -> Result<Problem, Fail> {
    Ok(judge(alloc, RING.as_bytes())?)
}

/// Numbers of four bytes.
fn put_all(bytes: &mut Vec<u8>, numbers: &[u32]) -> Result<(), Fail> {
    for n in numbers {
        put(bytes, *n)?;
    }
    Ok(())
}

/// Payload 2 of the ring after so many steps, with these masses in its low row and none in the other.
fn payload(alloc: Global, step: u32, row: [u32; 4]) -> Result<Vec<u8>, Fail> {
    let mut bytes = Vec::new(alloc);
    put(&mut bytes, step)?;
    for _k in 0..=step.min(4) {
        put_all(&mut bytes, &[8, 0, 0, 0, 0, 0])?;
    }
    bytes.push(1)?;
    put_all(&mut bytes, &[1, 0, 0, 3, 1])?;
    put_all(&mut bytes, &row)?;
    put_all(&mut bytes, &[0, 0, 0, 0])?;
    Ok(bytes)
}

/// The older state, which is kept under sequence 2.
fn older(alloc: Global) -> Result<Vec<u8>, Fail> {
    payload(alloc, 1, [4, 4, 0, 0])
}

/// The record of the state after the second step: its low row changed.
fn record_of_the_second(alloc: Global) -> Result<Vec<u8>, Fail> {
    let mut bytes = Vec::new(alloc);
    put_all(&mut bytes, &[2, 0, 2, 8, 0, 0, 0, 0, 0])?;
    bytes.push(1)?;
    put_all(&mut bytes, &[1, 0, 0, 3, 1])?;
    bytes.push(1)?;
    put_all(&mut bytes, &[2, 4, 2, 0])?;
    bytes.push(0)?;
    Ok(bytes)
}

#[test]
fn the_second_step_as_a_record(rt: HostRuntime) -> Result<(), Fail> {
    let alloc = rt.alloc();
    let p = ring(alloc)?;
    let want = record_of_the_second(alloc)?;
    let whole = payload(alloc, 2, [2, 4, 2, 0])?;
    assert_eq!(rt; (delta_size(&p), want.len(), whole.len()), (229, 75, 129));
    let old = decode2(alloc, &p, &older(alloc)?)?;
    let new = decode2(alloc, &p, &whole)?;
    let record = encode_delta(alloc, &p, &old, 2, &new)?;
    assert_eq!(rt; record, want);
    let read = decode_delta(alloc, &p, &old, 2, &record)?;
    assert_eq!(rt; encode2(alloc, &p, &read)?, whole);
    Ok(())
}

/// Out of memory is all that refuses the record of a state.
#[test]
fn memory_for_the_record_of_a_state(rt: HostRuntime) -> Result<(), Fail> {
    let alloc = rt.alloc();
    let p = ring(alloc)?;
    let old = decode2(alloc, &p, &older(alloc)?)?;
    let new = decode2(alloc, &p, &payload(alloc, 2, [2, 4, 2, 0])?)?;
    match encode_delta(alloc, &p, &old, 2, &new) {
        Ok(record) => assert_eq!(rt; record.len(), 75),
        Err(fault) => assert_eq!(rt; fault, NoMemory),
    }
    Ok(())
}

/// Out of memory is all that refuses the state that a right record is of.
#[test]
fn memory_for_the_state_of_a_record(rt: HostRuntime) -> Result<(), Fail> {
    let alloc = rt.alloc();
    let p = ring(alloc)?;
    let old = decode2(alloc, &p, &older(alloc)?)?;
    let record = record_of_the_second(alloc)?;
    match decode_delta(alloc, &p, &old, 2, &record) {
        Ok(mesh) => assert_eq!(rt; mesh.step(), 2),
        Err(fault) => assert_eq!(rt; fault, CodecFault::NoMemory),
    }
    Ok(())
}

/// What is said of a record on the older state of the ring.
fn record_fault(alloc: Global, bytes: &[u8]) -> Result<Option<CodecFault>, Fail> {
    let p = ring(alloc)?;
    let old = decode2(alloc, &p, &older(alloc)?)?;
    match decode_delta(alloc, &p, &old, 2, bytes) {
        Ok(_mesh) => Ok(None),
        Err(fault) => Ok(Some(fault)),
    }
}

/// The place of the record's field that a byte belongs to.
fn field_of(byte: usize) -> usize {
    let starts = [
        0usize, 8, 12, 20, 28, 36, 37, 41, 45, 49, 53, 57, 58, 62, 66, 70, 74, 75,
    ];
    let mut field = 0;
    for start in starts {
        if start <= byte {
            field = start;
        }
    }
    field
}

#[test]
fn each_length_of_a_record(rt: HostRuntime) -> Result<(), Fail> {
    let alloc = rt.alloc();
    for len in 0..77 {
        let mut bytes = record_of_the_second(alloc)?;
        bytes.push(0)?;
        bytes.truncate(len);
        let place = field_of(len) as u64;
        let want = if len == 75 {
            None
        } else {
            Some(CodecFault::Bad { place })
        };
        assert_eq!(rt; record_fault(alloc, &bytes)?, want, "{len}");
    }
    Ok(())
}

/// Bytes that are set, each as its place and its value, and where the record is then bad. Each field is tried at its bounds and
/// one past them. A row that is as it was is bad with flag 1, and one of another mass with flag 0.
const TABLE: &str = "0=2 => good
0=1 => 0
0=3 => 0
4=1 => 0
7=128 => 0
8=0 => 8
8=1 => 8
8=3 => 36
8=5 => 8
11=1 => 8
12=7 => 12
12=9 => 12
12=9 20=1 => 12
20=1 => 12
28=1 => 12
36=0 => 36
36=2 => 36
37=0 => 37
37=2 => 37
41=1 => 41
45=1 => 41
49=2 => 41
49=4 => 41
53=0 => 41
53=2 => 41
57=0 => 58
57=2 => 57
57=255 => 57
58=4 => 12
58=0 59=24 61=64 => 12
58=1 59=24 61=64 => 58
70=1 71=24 73=64 => 70
58=4 66=0 => 57
58=4 66=0 57=0 => 58
74=1 => 75
74=2 => 74";

#[test]
fn each_field_of_a_record_at_its_bounds(rt: HostRuntime) -> Result<(), Fail> {
    let alloc = rt.alloc();
    for row in TABLE.lines() {
        let (edits, want) = row.split_once(" => ").expect(&rt, "two parts");
        let mut bytes = record_of_the_second(alloc)?;
        for edit in edits.split(' ') {
            let (place, value) = edit.split_once("=").expect(&rt, "a place and a value");
            let place = place.parse::<usize>().expect(&rt, "a place");
            set(&mut bytes, place, value.parse::<u8>().expect(&rt, "a byte"));
        }
        let told = told(alloc, record_fault(alloc, &bytes)?)?;
        assert_eq!(rt; told.as_str(), want, "{row}");
    }
    Ok(())
}

/// Payload 2 of 4 by 4 cells, all without mass, after so many steps, and with so many levels: the second is one box in the middle.
fn without_mass(alloc: Global, step: u32, levels: u8) -> Result<Vec<u8>, Fail> {
    let mut bytes = Vec::new(alloc);
    put(&mut bytes, step)?;
    for _k in 0..=step.min(1) {
        put_all(&mut bytes, &[0, 0, 0, 0, 0, 0])?;
    }
    bytes.push(levels)?;
    for (low, high) in [(0u32, 3u32), (2, 5)].iter().take(usize::from(levels)) {
        put_all(&mut bytes, &[1, *low, *low, *high, *high])?;
        put_all(&mut bytes, &[0; 16])?;
    }
    Ok(bytes)
}

/// Cells that the older state lacks are a change, also without mass: the rows of level 0 stay, those of level 1 are new.
#[test]
fn a_new_level_without_mass(rt: HostRuntime) -> Result<(), Fail> {
    let alloc = rt.alloc();
    let p = three_levels(alloc)?;
    let old = decode2(alloc, &p, &without_mass(alloc, 0, 1)?)?;
    let new = decode2(alloc, &p, &without_mass(alloc, 1, 2)?)?;
    let mut record = encode_delta(alloc, &p, &old, 1, &new)?;
    assert_eq!(rt; record.len(), 149);
    for (place, flag) in [
        (57usize, 0u8),
        (60, 0),
        (81, 1),
        (98, 1),
        (115, 1),
        (132, 1),
    ] {
        assert_eq!(rt; record.get(place).copied(), Some(flag));
    }
    set(&mut record, 81, 0);
    let fault = match decode_delta(alloc, &p, &old, 1, &record) {
        Ok(_mesh) => None,
        Err(fault) => Some(fault),
    };
    assert_eq!(rt; fault, Some(CodecFault::Bad { place: 81 }));
    Ok(())
}
