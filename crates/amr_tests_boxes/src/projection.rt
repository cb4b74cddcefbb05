//! Boxes of a finer level projected on the coarser one.
ghost use Rattle.std.specs.Prelude.{pos, ◌≤ℤ◌};

use amr_box::{Bx, Cell};
use amr_causes::NoMemory;
use amr_def::Dom;
use amr_nest::project;
use amr_tags::Tags;
use std::alloc::Global;

/// The projection of one box of a level of 16 by 16 cells, on periodic axes.
fn projection_of(alloc: Global, lo: Cell, hi: Cell) -> Result<Tags, NoMemory>
    requires west { pos 0 ≤ℤ lo.x }
    requires south { pos 0 ≤ℤ lo.y }
    requires east { hi.x ≤ℤ pos 15 }
    requires north { hi.y ≤ℤ pos 15 }
    requires wide { lo.x ≤ℤ hi.x }
    requires high { lo.y ≤ℤ hi.y }
{
    let dom = Dom {
        l: 1,
        nx: 4,
        ny: 4,
        wrap_x: true,
        wrap_y: true,
    };
    let boxes = [Bx::try_new(lo, hi).unwrap()];
    project(alloc, &boxes, &dom)
}

#[test]
fn a_box_projects_past_the_ends_of_periodic_axes(rt: HostRuntime) -> Result<(), NoMemory> {
    let inside = projection_of(rt.alloc(), Cell { x: 4, y: 4 }, Cell { x: 5, y: 5 })?;
    let corner = projection_of(rt.alloc(), Cell { x: 0, y: 0 }, Cell { x: 1, y: 1 })?;
    for y in 0..4 {
        for x in 0..4 {
            let c = Cell { x, y };
            assert_eq!(rt; inside.has(c), x < 2 && y < 2);
            assert_eq!(rt; corner.has(c), (x == 0 || x == 3) && (y == 0 || y == 3));
        }
    }
    Ok(())
}
