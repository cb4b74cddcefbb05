//! The tags of a level.

ghost use Rattle.std.specs.Prelude.{◌≡◌, ◌<◌, ◌≤◌};
ghost use Rattle.amr_box.specs.Cells.{square};
ghost use Rattle.amr_def.specs.Tags.{is_grown, is_tagged_by};
ghost use Rattle.amr_witness.specs.Maps.{masses_of, old_of};
ghost use Rattle.amr_witness.specs.Parts.{IsInDomain};
ghost use Rattle.amr_witness_regrid.specs.Places.{HasCellsInside, IsUpTo};
ghost use Rattle.amr_witness_regrid.specs.Wanted.{is_steep};

use crate::cells::moved;
use amr_box::Cell;
use amr_def::Problem;
use amr_witness::{Masses, mass_in, value_at};

/// The masses of a level, by which its cells are tagged.
#[derive(Clone, Copy)]
pub struct LevelMasses<'a> {
    /// Which level it is.
    pub level: u32,
    /// Its masses.
    pub masses: &'a Masses,
    /// Those of the next coarser level, none below level 0.
    pub coarse: Option<&'a Masses>,
}

/// Whether the value of a cell and that of its neighbour at an offset differ by the level's threshold or
/// more, where the neighbour is in the domain.
fn is_steep(p: &Problem, here: LevelMasses<'_>, c: Cell, o: Cell) -> bool
    requires known { here.level < p.now.max_level }
    requires inside { IsInDomain p.now here.level c }
    requires beside { IsUpTo 1 o }
    ensures { result ≡ is_steep p.now here.entry.level (masses_of here.entry.masses.now) (old_of here.entry.coarse) c o }
{
    let dom = p.domain(here.level);
    let d = moved(c, o);
    let own = value_at(p, here.level, here.masses, here.coarse, c);
    let there = value_at(p, here.level, here.masses, here.coarse, d);
    let is_there = dom.in_domain(dom.home_cell(d));
    is_there & (p.tag.entries()[here.level as usize] <= own.abs_diff(there))
}

/// Whether a cell of the level has a neighbour whose value differs by the threshold or more.
pub fn is_tagged(p: &Problem, here: LevelMasses<'_>, c: Cell) -> bool
    requires known { here.level < p.now.max_level }
    requires inside { HasCellsInside p.now here.level (masses_of here.masses.now) }
    ensures { result ≡ is_tagged_by p.now here.entry.level (masses_of here.entry.masses.now) (old_of here.entry.coarse) c }
{
    if mass_in(here.masses, c).is_none() {
        return false;
    }
    let west = is_steep(p, here, c, Cell { x: -1, y: 0 });
    let east = is_steep(p, here, c, Cell { x: 1, y: 0 });
    let south = is_steep(p, here, c, Cell { x: 0, y: -1 });
    let north = is_steep(p, here, c, Cell { x: 0, y: 1 });
    (west | east) | (south | north)
}

/// Whether a tagged cell is at one of these offsets, those of the problem's buffer.
pub fn is_grown(p: &Problem, here: LevelMasses<'_>, buffer: &[Cell], c: Cell) -> bool
    requires known { here.level < p.now.max_level }
    requires inside { HasCellsInside p.now here.level (masses_of here.masses.now) }
    requires buffer { buffer.now ≡ square p.now.n_error_buf }
    requires near { IsUpTo 10000 c }
    ensures { result ≡ is_grown p.now here.entry.level (is_tagged_by p.now here.entry.level (masses_of here.entry.masses.now) (old_of here.entry.coarse)) c }
{
    let dom = p.domain(here.level);
    for o in buffer {
        if is_tagged(p, here, dom.home_cell(moved(c, *o))) {
            return true;
        }
    }
    false
}
