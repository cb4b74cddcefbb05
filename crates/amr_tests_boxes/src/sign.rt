//! Signatures by truth values and by bits, and places to cut at.

use crate::boxes::box_of;
use amr_box::{Axis, Cell};
use amr_causes::NoMemory;
use amr_sign::{Cut, best_cut, signature, signature_bits};
use std::alloc::Global;
use std::test::Fail;

/// The signatures, along both axes, of two columns of five rows with two cells more in the lowest.
fn bent_signatures(alloc: Global) -> Result<(Vec<u32>, Vec<u32>), NoMemory> {
    let (long, short) = ([true; 4], [true, true, false, false]);
    let rows = [
        long.to_vec(alloc)?,
        short.to_vec(alloc)?,
        short.to_vec(alloc)?,
        short.to_vec(alloc)?,
        short.to_vec(alloc)?,
    ];
    Ok((
        signature(alloc, &rows, Axis::X)?,
        signature(alloc, &rows, Axis::Y)?,
    ))
}

#[test]
fn a_bent_set_is_cut_at_its_inflection(rt: HostRuntime) -> Result<(), Fail> {
    let (columns, rows) = bent_signatures(rt.alloc())?;
    assert_eq!(rt; columns.as_slice(), [5, 5, 1, 1].as_slice());
    assert_eq!(rt; rows.as_slice(), [4, 2, 2, 2, 2].as_slice());
    assert_eq!(rt;
        best_cut(&columns, &rows, 2),
        Some(Cut {
            axis: Axis::X,
            at: 2
        })
    );
    Ok(())
}

/// Bits 0, 63, 64 and 129 of one row.
const WORDS: [u64; 3] = [1 | 1 << 63, 1, 2];

/// Where to cut the columns up to `east` of the row.
fn cut_up_to(alloc: Global, east: u8) -> Result<Option<Cut>, Fail> {
    let part = box_of(
        Cell { x: 0, y: 0 },
        Cell {
            x: i32::from(east.min(191)),
            y: 0,
        },
    )?;
    let columns = signature_bits(alloc, &WORDS, 3, part, Axis::X)?;
    let rows = signature_bits(alloc, &WORDS, 3, part, Axis::Y)?;
    if columns.len() > 192 {
        return Ok(None);
    }
    Ok(best_cut(&columns, &rows, 1))
}

#[test]
fn a_row_across_words_is_cut_at_the_holes_next_to_its_middle(rt: HostRuntime) -> Result<(), Fail> {
    for (east, at) in [(129, 65), (64, 32)] {
        let cut = cut_up_to(rt.alloc(), east)?;
        assert_eq!(rt;
            cut,
            Some(Cut { axis: Axis::X, at }),
            "columns up to {east}"
        );
    }
    Ok(())
}

#[test]
fn cuts_at_the_best_place(rt: HostRuntime) {
    let x = |at: u32| Some(Cut { axis: Axis::X, at });
    let y = |at: u32| Some(Cut { axis: Axis::Y, at });
    let hole = best_cut(&[1, 0, 0, 0, 0, 1], &[2], 1);
    assert_eq!(rt; hole, x(2), "of holes at 2 and 3 the lower");
    let diagonal = best_cut(&[1, 1, 1, 1], &[1, 1, 1, 1], 2);
    assert_eq!(rt; diagonal, x(2), "the middle of the first axis");
    let half = best_cut(&[1, 1], &[1, 1], 2);
    assert_eq!(rt; half, None, "no part of width 2 is left");
    let shorter = best_cut(&[2, 1, 2, 1], &[3, 0, 3], 1);
    assert_eq!(rt; shorter, y(1), "a hole of the shorter axis");
}
