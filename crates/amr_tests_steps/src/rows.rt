//! Masses and counts of levels, as tests compare them.

ghost use Rattle.std.specs.Prelude.{◌≤◌};

use amr_box::Cell;
use amr_causes::NoMemory;
use amr_patch::Level;
use std::alloc::Global;

/// The mass of a cell of level `l`.
fn mass_at(levels: &[Level], l: usize, x: i32, y: i32) -> Option<u64> {
    match levels.get(l) {
        None => None,
        Some(level) => level.get(Cell { x, y }),
    }
}

/// The masses of the first `n` cells of a row of a level, 99 for one that is no cell of it.
pub(crate) fn row(
    alloc: Global,
    levels: &[Level],
    l: usize,
    y: i32,
    n: u32,
) -> Result<Vec<u64>, NoMemory>
    requires { n ≤ 9 }
{
    let mut all = Vec::new(alloc);
    for x in 0..n {
        all.push(mass_at(levels, l, x as i32, y).unwrap_or(99))?;
    }
    Ok(all)
}

/// The corners of the boxes of a level.
pub(crate) fn corners(
    alloc: Global,
    levels: &[Level],
    l: usize,
) -> Result<Vec<[i32; 4]>, NoMemory> {
    let mut all = Vec::new(alloc);
    if let Some(level) = levels.get(l) {
        for b in level.boxes() {
            all.push([b.lo().x, b.lo().y, b.hi().x, b.hi().y])?;
        }
    }
    Ok(all)
}

/// The corners of the patches of a level.
pub(crate) fn patch_corners(
    alloc: Global,
    levels: &[Level],
    l: usize,
) -> Result<Vec<[i32; 4]>, NoMemory> {
    let mut all = Vec::new(alloc);
    if let Some(level) = levels.get(l) {
        for patch in level.patches() {
            let b = patch.bx();
            all.push([b.lo().x, b.lo().y, b.hi().x, b.hi().y])?;
        }
    }
    Ok(all)
}
