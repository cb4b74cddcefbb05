//! Whole payloads: bytes and places worked out by hand from the table of fields.

use amr_codec::MassWidth;
use amr_decoder::{CodecFault, decode, decode2};
use amr_def::Problem;
use amr_problem::judge;
use std::alloc::Global;
use std::test::Fail;

/// Sets a byte, where there is one.
pub(crate) fn set(bytes: &mut [u8], place: usize, byte: u8) {
    if place < bytes.len() {
        bytes[place] = byte;
    }
}

/// What a decoder says: nothing where it gives a mesh, else its fault.
pub(crate) fn fault_in(
    alloc: Global,
    p: &Problem,
    width: MassWidth,
    bytes: &[u8],
) -> Option<CodecFault> {
    let read = match width {
        MassWidth::Four => decode2(alloc, p, bytes),
        MassWidth::Eight => decode(alloc, p, bytes),
    };
    match read {
        Ok(_mesh) => None,
        Err(fault) => Some(fault),
    }
}

const THREE_LEVELS: &str = "version = 1
name = \"three\"
cells = [4, 4]
steps = 1
courant = [0, 0, 1]
sides = [-1, -1, -1, -1]
max_level = 2
tag = [9, 9]
max_grid_size = 4
blocks = []
";

/// A problem of 4 by 4 cells and up to three levels, of one step.
pub(crate) fn three_levels(alloc: Global) -> Result<Problem, Fail> {
    Ok(judge(alloc, THREE_LEVELS.as_bytes())?)
}

/// The masses of the levels, 16 of each: the cells in the middle of the coarser ones are covered.
const LEVELS: [[u32; 16]; 3] = [
    [7, 7, 7, 7, 7, 19, 19, 7, 7, 19, 19, 7, 7, 7, 7, 7],
    [5, 5, 5, 5, 5, 4, 4, 5, 5, 4, 4, 5, 5, 5, 5, 5],
    [1, 1, 1, 1, 1, 1, 1, 1, 1, 1, 1, 1, 1, 1, 1, 1],
];

/// Appends a number of four bytes.
pub(crate) fn put(bytes: &mut Vec<u8>, n: u32) -> Result<(), Fail> {
    bytes.extend_from_slice(&n.to_le_bytes())?;
    Ok(())
}

fn put_mass(bytes: &mut Vec<u8>, width: MassWidth, mass: u32) -> Result<(), Fail> {
    put(bytes, mass)?;
    match width {
        MassWidth::Four => Ok(()),
        MassWidth::Eight => put(bytes, 0),
    }
}

/// A state of three levels, each of one box: columns and rows 0 to 3, 2 to 5 and 6 to 9.
pub(crate) fn state_bytes(alloc: Global, width: MassWidth) -> Result<Vec<u8>, Fail> {
    let mut bytes = Vec::new(alloc);
    for n in [0, 160, 0, 0, 0, 0, 0] {
        put(&mut bytes, n)?;
    }
    bytes.push(3)?;
    for (level, (low, high)) in LEVELS.iter().zip([(0u32, 3u32), (2, 5), (6, 9)]) {
        put(&mut bytes, 1)?;
        for corner in [low, low, high, high] {
            put(&mut bytes, corner)?;
        }
        for mass in level {
            put_mass(&mut bytes, width, *mass)?;
        }
    }
    Ok(bytes)
}
