//! The domain of a level, as the calls on boxes and tags take it: its size, its cells, and the cell that each cell stands for.

ghost use Rattle.amr_def.specs.Limits.{DomainLimits};

use crate::axis::{is_inside, wrapped};
use amr_box::Cell;

/// The domain of level `l` of a problem with `nx` by `ny` cells at level 0.
#[derive(Clone, Copy, Debug)]
pub struct Dom {
    /// The level: 0 to 4.
    pub l: u32,
    /// How many columns level 0 has: 2 to 256.
    pub nx: u32,
    /// How many rows level 0 has: 2 to 256.
    pub ny: u32,
    /// Whether the x axis is periodic.
    pub wrap_x: bool,
    /// Whether the y axis is periodic.
    pub wrap_y: bool,
    pub ghost limits: { DomainLimits l nx ny },
}

impl Dom {
    ghost use Rattle.std.specs.Prelude.{◌≡◌, ◌≤◌};
    ghost use Rattle.amr_def.specs.Domain.{domain_of, home_cell, in_domain};

    /// How many columns the domain has: `nx * 2^l`, at most 4096.
    #[tactic(auto, using(crate::proofs::Sizes::sizes))]
    pub fn columns(&self) -> u32
        ensures value { result ≡ (domain_of self.now).columns }
        ensures small { result ≤ 4096 }
    {
        self.nx << self.l
    }

    /// How many rows the domain has: `ny * 2^l`, at most 4096.
    #[tactic(auto, using(crate::proofs::Sizes::sizes))]
    pub fn rows(&self) -> u32
        ensures value { result ≡ (domain_of self.now).rows }
        ensures small { result ≤ 4096 }
    {
        self.ny << self.l
    }

    /// The cell that a cell stands for: on a periodic axis a coordinate is taken modulo the number of cells.
    pub fn home_cell(&self, c: Cell) -> Cell
        ensures { result ≡ home_cell (domain_of self.now) c }
    {
        Cell {
            x: wrapped(self.wrap_x, self.columns(), c.x),
            y: wrapped(self.wrap_y, self.rows(), c.y),
        }
    }

    /// Whether a cell is one of the domain.
    #[tactic(auto, unfolding(crate::specs::Domain::in_domain))]
    pub fn in_domain(&self, c: Cell) -> bool
        ensures { result ≡ in_domain (domain_of self.now) c }
    {
        is_inside(self.columns(), c.x) && is_inside(self.rows(), c.y)
    }
}
