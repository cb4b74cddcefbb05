//! A level: boxes, and the patches that hold the masses of their cells.

ghost use Rattle.std.specs.Prelude.{◌≡◌, IfOk};
ghost use Rattle.amr_patch.specs.Patches.{ArePatchesApart};
ghost use Rattle.amr_patch.specs.Orders.{IsOrderOf};

use crate::copies::{blank_patches, copied_patches, in_rows};
use crate::lookup::{Order, find, mass_at, order_of};
use crate::patches::Patch;
use amr_box::{Bx, Cell};
use amr_causes::NoMemory;
use std::alloc::Global;

/// A level of the mesh: its boxes, in order, and the masses of their cells. Patches hold them, each for a patch box (a
/// box, or a part of one). Contracts see it as a level of the definitions, by `level_of`.
#[derive(Drop)]
pub struct Level {
    boxes: Vec<Bx>,
    patches: Vec<Patch>,
    order: Order,
    ghost apart: { ArePatchesApart patches.items },
    ghost ordered: { IsOrderOf order patches.items },
}

#[tactic(auto, unfolding(crate::specs::Levels::level_of, crate::specs::Levels::patches_of))]
impl Level {
    ghost use Rattle.std.specs.Prelude.{◌≢◌, ℕ, ◌<◌, ◌^◌, ◌+ℤ◌, ◌-ℤ◌, pos, cond, None, Some, IsSome, IsTrue, [], length, map, slice_index};
    ghost use Rattle.std.specs.List.{All};
    ghost use Rattle.std.specs.List.Sorted.{IsPermutation};
    ghost use Rattle.amr_box.specs.declared.Cell.{Cell};
    ghost use Rattle.amr_box.specs.Cells.{cell, holds, in_boxes};
    ghost use Rattle.amr_def.specs.State.{no_masses};
    ghost use Rattle.amr_patch.specs.Orders.{AreInRows};
    ghost use Rattle.amr_patch.specs.Pairwise.{Pairwise};
    ghost use Rattle.amr_patch.specs.Patches.{ArePairwiseApart, AreNear, HasNoFluxes, HasNoMarks, IsCopy, KeepsFrameAndFluxes, box, masses_in};
    ghost use Rattle.amr_patch.specs.Levels.{level_of, patches_of};

    /// The level of these boxes, whose cells the patch boxes share out, with a patch for each patch box, row by row. All masses
    /// and fluxes are 0, and no ghost cell is marked. No cell is in two of the patch boxes. Coordinates of cells lie between
    /// -2^24 and 2^24.
    pub fn make(alloc: Global, boxes: &[Bx], patch_boxes: &[Bx]) -> Result<Level, NoMemory>
        requires apart { ArePairwiseApart patch_boxes.now }
        requires near { AreNear boxes.now }
        requires cells { (c : Cell) → in_boxes patch_boxes.now c ≡ in_boxes boxes.now c }
        ensures boxes { IfOk result (λ l. (level_of l).boxes ≡ boxes.now) }
        ensures masses { IfOk result (λ l. (c : Cell) → (level_of l).masses c ≡ cond (in_boxes boxes.now c) (Some 0) None) }
        ensures patches { IfOk result (λ l. IsPermutation patch_boxes.now (map box (patches_of l))) }
        ensures in_rows { IfOk result (λ l. AreInRows (patches_of l)) }
        ensures marks { IfOk result (λ l. All HasNoMarks (patches_of l)) }
        ensures fluxes { IfOk result (λ l. All HasNoFluxes (patches_of l)) }
    {
        let patch_boxes = in_rows(alloc, patch_boxes)?;
        let patches = blank_patches(alloc, &patch_boxes)?;
        let order = order_of(&patches);
        let boxes = Vec::from_slice(alloc, boxes)?;
        Ok(Level {
            boxes,
            patches,
            order,
        })
    }

    /// The boxes, in order.
    pub fn boxes(&self) -> &[Bx]
        ensures { result.now ≡ (level_of self.now).boxes }
    {
        self.boxes.as_slice()
    }

    /// The mass of a cell, None exactly where it is no cell of the level.
    pub fn get(&self, c: Cell) -> Option<u64>
        ensures { result ≡ (level_of self.now).masses c }
    {
        mass_at(&self.patches, self.order, c)
    }

    /// Gives a cell of the level a mass. Frames, marks and fluxes stay.
    pub fn set(&mut self, c: Cell, m: u64)
        requires of_level { IsSome ((level_of self.old).masses c) }
        requires small { m < 2 ^ 32 }
        ensures set { (level_of self.new).masses c ≡ Some m }
        ensures others { (d : Cell) → d ≢ c → (level_of self.new).masses d ≡ (level_of self.old).masses d }
        ensures boxes { (level_of self.new).boxes ≡ (level_of self.old).boxes }
        ensures patches { Pairwise KeepsFrameAndFluxes (patches_of self.old) (patches_of self.new) }
    {
        match find(&self.patches, self.order, c) {
            None => unreachable!(),
            Some(k) => self.patches[k].set_mass(c, m),
        }
    }

    /// A level with the same boxes and masses, in patches with the same boxes, frames and marks. Its fluxes are 0.
    pub fn copy(&self) -> Result<Level, NoMemory>
        ensures level { IfOk result (λ l. level_of l ≡ level_of self.now) }
        ensures patches { IfOk result (λ l. Pairwise IsCopy (patches_of self.now) (patches_of l)) }
    {
        let alloc = *self.boxes.allocator();
        let patches = copied_patches(alloc, &self.patches)?;
        let boxes = Vec::from_slice(alloc, &self.boxes)?;
        Ok(Level {
            boxes,
            patches,
            order: self.order,
        })
    }

    /// The patches that hold its cells.
    pub fn patches(&self) -> &[Patch]
        ensures all { result.now ≡ patches_of self.now }
        ensures apart { ArePatchesApart result.now }
        ensures masses { (level_of self.now).masses ≡ masses_in result.now }
    {
        self.patches.as_slice()
    }

    /// How the patches stand: whether row by row, and how high the tallest is.
    pub fn order(&self) -> Order
        ensures { IsOrderOf result (patches_of self.now) }
    {
        self.order
    }

    /// Takes the patches out. The level is left with its boxes and no cells.
    pub fn take_patches(&mut self) -> Vec<Patch>
        ensures all { result.items ≡ patches_of self.old }
        ensures apart { ArePatchesApart result.items }
        ensures masses { (level_of self.old).masses ≡ masses_in result.items }
        ensures boxes { (level_of self.new).boxes ≡ (level_of self.old).boxes }
        ensures none { (level_of self.new).masses ≡ no_masses }
        ensures empty { patches_of self.new ≡ [] }
    {
        let none = Vec::new(*self.boxes.allocator());
        self.order = order_of(&none);
        std::mem::replace(&mut self.patches, none)
    }

    /// Puts patches in place of those that are there. No cell is in two of them.
    pub fn put_patches(&mut self, patches: Vec<Patch>)
        requires { ArePatchesApart patches.items }
        ensures all { patches_of self.new ≡ patches.items }
        ensures masses { (level_of self.new).masses ≡ masses_in patches.items }
        ensures boxes { (level_of self.new).boxes ≡ (level_of self.old).boxes }
    {
        let order = order_of(&patches);
        self.put_patches_in_order(patches, order);
    }

    /// The same, where it is known how the patches stand, as where they were taken from a level and each kept its box.
    pub fn put_patches_in_order(&mut self, patches: Vec<Patch>, order: Order)
        requires apart { ArePatchesApart patches.items }
        requires order { IsOrderOf order patches.items }
        ensures all { patches_of self.new ≡ patches.items }
        ensures masses { (level_of self.new).masses ≡ masses_in patches.items }
        ensures boxes { (level_of self.new).boxes ≡ (level_of self.old).boxes }
    {
        self.order = order;
        self.patches = patches;
    }

    /// The masses of a row from a cell of the level on, to the high end of the patch that has the cell.
    pub fn span(&self, c: Cell) -> &[u32]
        requires { IsSome ((level_of self.now).masses c) }
        ensures some { 0 < length result.now }
        ensures masses { (k : ℕ) → k < length result.now → (level_of self.now).masses (cell (c.x +ℤ pos k) c.y) ≡ Some (slice_index result.now k) }
        ensures reach { All (λ q. IsTrue (holds (box q) c) → pos (length result.now) ≡ (box q).hi.x +ℤ pos 1 -ℤ c.x) (patches_of self.now) }
    {
        match find(&self.patches, self.order, c) {
            None => unreachable!(),
            Some(k) => self.patches[k].masses_from(c),
        }
    }
}
