//! Lists of boxes that have no cell in common, seen as the sets of their cells, after BoxLib's `BoxList`.
#![tactic(auto)]

ghost use Rattle.std.specs.Prelude.{◌≡◌, ◌≤◌, false, ◌&&◌, not, List, [], ◌∷◌, ◌++◌, OnOk, OnErr, IsTrue, ◌↔◌};
ghost use Rattle.std.specs.List.{flat_map};
ghost use Rattle.amr_box.specs.Cells.{IsNear, holds, in_boxes};
ghost use Rattle.amr_box.specs.declared.Cell.{Cell};
ghost use Rattle.amr_boxlist.specs.Lists.{AreApart};
ghost use Rattle.amr_boxlist.specs.Chopped.{chopped};
ghost use Rattle.amr_boxlist.specs.Remnants.{remnants};

mod outside;
mod overlap;
mod patch_boxes;

use amr_box::Bx;
use amr_causes::NoMemory;
pub use overlap::covers;
use std::alloc::Global;
use std::marker::Model;

/// A list of boxes of which no two have a cell in common. Contracts see it as the list of its boxes, in order.
#[derive(Drop)]
pub struct BoxList {
    boxes: Vec<Bx>,
}

impl Model for BoxList {
    ghost use Rattle.std.specs.Prelude.{List};
    ghost use Rattle.amr_box.specs.Cells.{Extent};

    ghost Value = { List Extent };

    ghost use Rattle.amr_boxlist.specs.Lists.{AreApart};

    ghost view = { λ l. l.boxes.items };

    ghost invariant = { λ l. AreApart l.boxes.items };
}

impl BoxList {
    /// No boxes. Nothing is allocated yet.
    pub fn make(alloc: Global) -> BoxList
        ensures { result ≡ [] }
    {
        let boxes = Vec::new(alloc);
        BoxList { boxes }
    }

    /// The boxes, in order.
    pub fn list(&self) -> &[Bx]
        ensures boxes { result.now ≡ self.now }
        ensures apart { AreApart self.now }
    {
        self.boxes.as_slice()
    }

    /// Adds a box last; it has no cell in common with those that are there. After `NoMemory` the list is as before.
    pub fn push_disjoint(&mut self, b: Bx) -> Result<(), NoMemory>
        requires { (c : Cell) → (in_boxes self.old c && holds b c) ≡ false }
        ensures ok { OnOk result (self.new ≡ self.old ++ b ∷ []) }
        ensures err { OnErr result (self.new ≡ self.old) }
    {
        self.boxes.push(b)?;
        Ok(())
    }

    /// Takes the cells of a box away (BoxLib's `boxDiff`). Each box of the list gives way to the at most four boxes
    /// that are left of it. They are the rows below what both have in common, the rows above, and what lies left and
    /// right. After `NoMemory` the list is as before.
    pub fn minus(&mut self, b: Bx) -> Result<(), NoMemory>
        ensures remnants { OnOk result (self.new ≡ flat_map (remnants b) self.old) }
        ensures cells { OnOk result ((c : Cell) → in_boxes self.new c ≡ (in_boxes self.old c && not (holds b c))) }
        ensures apart { AreApart self.new }
        ensures err { OnErr result (self.new ≡ self.old) }
    {
        let alloc = *self.boxes.allocator();
        let left = outside::without(alloc, self.boxes.as_slice(), &b)?;
        self.boxes = left;
        Ok(())
    }

    /// Whether each cell of the box is in the list: by counts, one look at each box of the list and no memory.
    /// Coordinates of the box lie between -2^24 and 2^24.
    pub fn covers(&self, b: &Bx) -> bool
        requires { IsNear b.now }
        ensures { IsTrue result ↔ ((c : Cell) → IsTrue (holds b.now c) → IsTrue (in_boxes self.now c)) }
    {
        overlap::covers(self.boxes.as_slice(), b)
    }

    /// Chops each box, from its low corner, into patch boxes of `max` by `max` cells, the last ones shorter (BoxLib's
    /// `maxSize`). They go by rows from the low row, within a row from the low column. The cells stay the same. After
    /// `NoMemory` the list is as before.
    pub fn chop(&mut self, max: u32) -> Result<(), NoMemory>
        requires { 1 ≤ max }
        ensures chopped { OnOk result (self.new ≡ flat_map (chopped max) self.old) }
        ensures cells { OnOk result ((c : Cell) → in_boxes self.new c ≡ in_boxes self.old c) }
        ensures apart { AreApart self.new }
        ensures err { OnErr result (self.new ≡ self.old) }
    {
        let alloc = *self.boxes.allocator();
        let patch_boxes = patch_boxes::chop_all(alloc, self.boxes.as_slice(), max)?;
        self.boxes = patch_boxes;
        Ok(())
    }
}
