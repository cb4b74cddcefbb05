//! Rows of bits.

ghost use Rattle.std.specs.Prelude.{◌≡◌, pos};
ghost use Rattle.amr_box.specs.Cells.{IsNear, cell};

use amr_box::{Bx, Cell};
use amr_causes::NoMemory;
use amr_tags::Tags;
use std::alloc::Global;

/// The box from (0, 0) to (129, 1): two rows of three words.
fn two_rows() -> Bx
    ensures near { IsNear result }
    ensures low { result.lo ≡ cell (pos 0) (pos 0) }
{
    let lo = Cell { x: 0, y: 0 };
    let hi = Cell { x: 129, y: 1 };
    Bx::try_new(lo, hi).unwrap()
}

fn tag(tags: &mut Tags, c: Cell)
    ensures { tags.new.bx ≡ tags.old.bx }
{
    if tags.bx().holds(c) {
        tags.set(c);
    }
}

/// Tags at both ends of the first row, and on each side of the end of a word.
fn tags_of_one_row(alloc: Global) -> Result<Tags, NoMemory> {
    let mut tags = Tags::make(alloc, two_rows(), false, false)?;
    for x in [0, 63, 64, 129] {
        tag(&mut tags, Cell { x, y: 0 });
    }
    Ok(tags)
}

#[test]
fn tags_are_copied(rt: HostRuntime) -> Result<(), NoMemory> {
    let same = tags_of_one_row(rt.alloc())?.copy()?;
    assert_eq!(rt; same.words(), [(1 << 63) + 1, 1, 2, 0, 0, 0].as_slice());
    Ok(())
}
