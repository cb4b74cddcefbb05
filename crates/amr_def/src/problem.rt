//! What is computed: a problem, its parts and their limits.

ghost use Rattle.amr_def.specs.Limits.{Limits};

use crate::domain::Dom;
use crate::lists::{Blocks, Name, Shear, Thresholds};

/// The two sides of an axis.
#[derive(Clone, Copy, Debug, PartialEq, Eq)]
pub enum Sides {
    /// The last cell of the axis lies beside the first.
    Periodic,
    /// The axis is open. The masses are the inflows: what a cell of level 0 would hold beyond the low
    /// end, and beyond the high end.
    Open(u64, u64),
}

/// A rectangle of cells of level 0, from column `x0` to `x1` and from row `y0` to `y1`, both inside,
/// each of which starts with `mass` of a species.
#[derive(Clone, Copy, Debug, PartialEq, Eq)]
pub struct Block {
    pub x0: u32,
    pub y0: u32,
    pub x1: u32,
    pub y1: u32,
    pub mass: u64,
    /// Of which species the mass is, from 0 on.
    pub species: u32,
}

/// A row of the ledger: the mass of level 0 after a step, and what flowed in the step into the domain
/// and out of it through open sides.
#[derive(Clone, Copy, Debug, PartialEq, Eq)]
pub struct Row {
    pub mass: u64,
    pub inflow: u64,
    pub outflow: u64,
}

/// What is computed: the keys of a problem file, within their limits.
#[derive(Debug, Drop)]
pub struct Problem {
    /// The version of the problem file: 1 to 3.
    pub version: u32,
    /// 1 to 32 bytes, each of `a` to `z`, `0` to `9`, `-` and `_`.
    pub name: Name,
    /// How many columns level 0 has: 2 to 256.
    pub nx: u32,
    /// How many rows level 0 has: 2 to 256.
    pub ny: u32,
    /// The last step: 0 to 4096.
    pub steps: u32,
    /// The Courant number of the x axis is `cx / d`, the same at each level.
    pub cx: i32,
    /// The Courant number of the y axis is `cy / d`.
    pub cy: i32,
    /// 1 to 1024. The greatest `|cx|` and the greatest `|cy|` in use add up to at most `d`.
    pub d: u32,
    /// `cx` for each row of level 0, or nothing where `cx` holds in each.
    pub shear_x: Shear,
    /// `cy` for each column of level 0, or nothing where `cy` holds in each.
    pub shear_y: Shear,
    pub x_sides: Sides,
    pub y_sides: Sides,
    /// The finest level that there may be: 0 to 4.
    pub max_level: u32,
    /// For each level below `max_level` the difference of values that tags a cell.
    pub tag: Thresholds,
    /// By how many cells tags are grown: 0 to 8.
    pub n_error_buf: u32,
    /// Of 100 cells of a new box, how many are to be tagged: 1 to 100.
    pub efficiency: u32,
    /// The least width of a part of a box that is cut: 1 to 16.
    pub min_width: u32,
    /// How many steps lie between two regrids: 1 to 4096.
    pub regrid_int: u32,
    /// The blocking factor: corners of boxes above level 0 lie on multiples of it. 2, 4 or 8.
    pub blocking: u32,
    /// The greatest side of a patch that a box is chopped into: even, 4 to 256.
    pub max_grid_size: u32,
    /// The masses at the start, at most 256 rectangles. A later one of a species replaces an earlier one of it, and a cell
    /// of none has mass 0.
    pub blocks: Blocks,
    /// How many species there are, each with masses and a ledger of its own on the same boxes: 1 to 4, and 1 below version 3. The
    /// inflows are of species 0; the others have none.
    pub species: u32,
    pub ghost limits: { Limits version name nx ny steps cx cy d shear_x shear_y x_sides y_sides max_level tag n_error_buf efficiency min_width regrid_int
        blocking max_grid_size blocks species },
}

impl Sides {
    ghost use Rattle.std.specs.Prelude.{◌≡◌};
    ghost use Rattle.amr_def.specs.Domain.{is_periodic};

    pub fn is_periodic(&self) -> bool
        ensures { result ≡ is_periodic self.now }
    {
        matches!(self, Sides::Periodic)
    }
}

impl Problem {
    ghost use Rattle.std.specs.Prelude.{◌≡◌, ◌≤◌, ◌<◌, ◌*◌, ◌/◌, ◌^◌};
    ghost use Rattle.amr_def.specs.Domain.{columns, rows, domain, domain_of};
    ghost use Rattle.amr_def.specs.Flux.{number_for};

    /// The domain of level `l`.
    pub fn domain(&self, l: u32) -> Dom
        requires { l ≤ 4 }
        ensures { domain_of result ≡ domain self.now l }
    {
        Dom {
            l,
            nx: self.nx,
            ny: self.ny,
            wrap_x: self.x_sides.is_periodic(),
            wrap_y: self.y_sides.is_periodic(),
        }
    }

    /// The Courant number, times `d`, of the x faces in a row of level `l`.
    pub fn x_courant(&self, l: u32, row: u32) -> i32
        requires level { l ≤ 4 }
        requires inside { row < rows self.now l }
        ensures { result ≡ number_for self.now.cx self.now.shear_x (row / 2 ^ l) }
    {
        let numbers = self.shear_x.entries();
        if numbers.is_empty() {
            return self.cx;
        }
        numbers[(row >> l) as usize]
    }

    /// The Courant number, times `d`, of the y faces in a column of level `l`.
    pub fn y_courant(&self, l: u32, column: u32) -> i32
        requires level { l ≤ 4 }
        requires inside { column < columns self.now l }
        ensures { result ≡ number_for self.now.cy self.now.shear_y (column / 2 ^ l) }
    {
        let numbers = self.shear_y.entries();
        if numbers.is_empty() {
            return self.cy;
        }
        numbers[(column >> l) as usize]
    }
}
