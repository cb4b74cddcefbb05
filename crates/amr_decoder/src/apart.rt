//! The boxes of a level that are read so far, of which a new one is to be apart.

ghost use Rattle.std.specs.Prelude.{◌≡◌, [], ◌∷◌, ◌++◌, IfOk, OnOk};
ghost use Rattle.std.specs.List.{All, list_any};
ghost use Rattle.amr_def.specs.Domain.{domain_box, domain_of};
ghost use Rattle.amr_payload.specs.Tests.{meets};
ghost use Rattle.amr_decoder.specs.Apart.{IsOverParents, newest_first};
ghost use Rattle.amr_decoder.specs.Grids.{boxes_of};

use crate::grid::Grid;
use amr_box::Bx;
use amr_causes::NoMemory;
use amr_def::Dom;
use amr_nest::domain_box;
use amr_tags::Tags;
use std::alloc::Global;
use std::marker::Model;

/// Boxes of a level with the places of their masses. Contracts see their list, in the order of reading, and the domain of the
/// next coarser level as a box. The parents of their cells are tagged there, so that a new box is compared with all of them by a look
/// at the words of its rows.
#[derive(Drop)]
pub(crate) struct Apart {
    grids: Vec<Grid>,
    parents: Tags,
}

impl Model for Apart {
    ghost use Rattle.amr_decoder.specs.Apart.{AreParents, Earlier};
    ghost use Rattle.amr_decoder.specs.Grids.{boxes_of};

    ghost Value = { Earlier };

    ghost view = { λ a. record { grids = a.grids.items; below = a.parents.bx } };

    ghost invariant = { λ a. AreParents (boxes_of a.grids.items) a.parents };
}

impl Apart {
    /// No boxes; `below` is the domain of the next coarser level theirs.
    pub fn make(alloc: Global, below: &Dom) -> Result<Apart, NoMemory>
        ensures none { IfOk result (λ a. a.grids ≡ []) }
        ensures below { IfOk result (λ a. a.below ≡ domain_box (domain_of below.now)) }
    {
        let parents = Tags::make(alloc, domain_box(below), false, false)?;
        let grids = Vec::new(alloc);
        Ok(Apart { grids, parents })
    }

    /// Whether one of them has a cell in common with a box. All of them have all children of each parent of their cells.
    pub fn meets(&self, b: &Bx) -> bool
        requires new { IsOverParents self.now.below b.now }
        requires earlier { All (IsOverParents self.now.below) (boxes_of self.now.grids) }
        ensures { result ≡ list_any (meets b.now) (newest_first self.now.grids) }
    {
        self.parents.bounding_in(b.coarsen2()).is_some()
    }

    /// Adds a box.
    pub fn push(&mut self, grid: Grid) -> Result<(), NoMemory>
        ensures grids { OnOk result (self.new.grids ≡ self.old.grids ++ grid ∷ []) }
        ensures below { OnOk result (self.new.below ≡ self.old.below) }
    {
        let parents = grid.bx.coarsen2();
        self.grids.push(grid)?;
        self.parents.set_in(parents);
        Ok(())
    }

    /// The boxes, in the order of reading.
    pub fn into_grids(self) -> Vec<Grid>
        ensures { result.items ≡ self.grids }
    {
        self.grids
    }
}
