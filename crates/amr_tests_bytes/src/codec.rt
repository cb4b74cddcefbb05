//! The start of 2 by 2 cells as bytes, by both widths of a mass: places and sizes worked out by hand from the table of fields.

ghost use Rattle.std.specs.Prelude.{◌≡◌, IfOk};

use crate::payloads::{fault_in, set};
use amr_causes::NoMemory;
use amr_codec::{MassWidth, encode, encode2, slot_size, slot_size2};
use amr_decoder::CodecFault;
use amr_def::Problem;
use amr_samples::{RING, Sample, ring_of};
use amr_start::base;
use std::alloc::Global;
use std::test::Fail;

/// The ring with 2 by 2 cells, without steps and blocks.
fn two_by_two(alloc: Global) -> Result<Problem, NoMemory>
    ensures { IfOk result (λ p. p.max_level ≡ 0) }
{
    let sample = Sample {
        nx: 2,
        ny: 2,
        steps: 0,
        ..RING
    };
    ring_of(alloc, sample, &[], &[])
}

/// Both payloads of the start.
fn start_as_bytes(alloc: Global, p: &Problem) -> Result<(Vec<u8>, Vec<u8>), NoMemory> {
    let mesh = base(alloc, p)?;
    let first = encode(alloc, p, &mesh)?;
    let second = encode2(alloc, p, &mesh)?;
    Ok((first, second))
}

/// So many bytes of the payload, without mass: one level of one box, whose high corner is (1, 1).
fn empty_square(alloc: Global, len: usize) -> Result<Vec<u8>, Fail> {
    let mut bytes = vec![in alloc; 0u8; len]?;
    for place in [28usize, 29, 41, 45] {
        set(&mut bytes, place, 1);
    }
    Ok(bytes)
}

#[test]
fn the_start_of_two_by_two_cells(rt: HostRuntime) -> Result<(), Fail> {
    let p = two_by_two(rt.alloc())?;
    assert_eq!(rt; (slot_size(&p), slot_size2(&p)), (97, 81));
    let (first, second) = start_as_bytes(rt.alloc(), &p)?;
    assert_eq!(rt; first, empty_square(rt.alloc(), 81)?);
    assert_eq!(rt; second, empty_square(rt.alloc(), 65)?);
    Ok(())
}

/// Where so many bytes of the payload are bad once one of them is another.
fn bad_place(
    alloc: Global,
    width: MassWidth,
    len: usize,
    place: usize,
    byte: u8,
) -> Result<Option<CodecFault>, Fail> {
    let p = two_by_two(alloc)?;
    let mut bytes = empty_square(alloc, len)?;
    set(&mut bytes, place, byte);
    Ok(fault_in(alloc, &p, width, &bytes))
}

/// One level too many, a byte too few and a byte too many, and a mass that is too great at each of the places of a mass.
#[test]
fn places_of_two_by_two_cells(rt: HostRuntime) -> Result<(), Fail> {
    for (width, len, place, byte, bad) in [
        (MassWidth::Eight, 81, 28, 2, 28),
        (MassWidth::Eight, 80, 0, 0, 73),
        (MassWidth::Eight, 82, 0, 0, 81),
        (MassWidth::Eight, 81, 52, 255, 49),
        (MassWidth::Eight, 81, 60, 255, 57),
        (MassWidth::Eight, 81, 68, 255, 65),
        (MassWidth::Eight, 81, 76, 255, 73),
        (MassWidth::Four, 64, 0, 0, 61),
        (MassWidth::Four, 66, 0, 0, 65),
        (MassWidth::Four, 65, 52, 255, 49),
        (MassWidth::Four, 65, 56, 255, 53),
        (MassWidth::Four, 65, 60, 255, 57),
        (MassWidth::Four, 65, 64, 255, 61),
    ] {
        let fault = bad_place(rt.alloc(), width, len, place, byte)?;
        assert_eq!(rt; fault, Some(CodecFault::Bad { place: bad }));
    }
    Ok(())
}
