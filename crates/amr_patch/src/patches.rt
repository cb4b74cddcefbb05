//! A patch: a box of cells with their masses, ghost cells and fluxes.

ghost use Rattle.std.specs.Prelude.{◌≡◌, ◌+◌, ◌*◌, length};
ghost use Rattle.amr_box.specs.Cells.{IsNear, height, width};

use crate::lists::{no_fluxes, no_marks, no_values, set_span};
use crate::places::{columns_from, edge_column, edge_row, in_frame, on_edge, place, row_place};
use amr_box::{Axis, Bx, Cell, Face};
use amr_causes::NoMemory;
use std::alloc::Global;
use std::boxed::Box;

/// The values, marks and fluxes of a patch.
///
/// `values` and `marks` go row by row from the low row, within a row from the low column. A row of them is a row of the grown
/// box, two cells wider than the box; there are two rows more than the box has. `x_low` has the flux through the x face at the
/// low side of each row, from the low row on, and `x_high` that at its high side. `y_low` has the flux through the y face at
/// the low side of each column, from the low column on, and `y_high` that at its high side.
#[derive(Drop)]
pub struct PatchData {
    pub values: Vec<u32>,
    pub marks: Vec<bool>,
    pub x_low: Vec<i32>,
    pub x_high: Vec<i32>,
    pub y_low: Vec<i32>,
    pub y_high: Vec<i32>,
}

/// A box of cells with what a step needs of them (BoxLib's FAB with one ghost cell). Each cell of the box has a value,
/// its mass, and so has each of the frame one cell wide round it. Each of the frame is marked where it is a cell of the
/// level. Each face on the four edges of the box has a flux, above 0 towards the high side. Other patches,
/// registers and the ledger read these fluxes. Coordinates lie between -2^24 and 2^24, masses are below 2^32, and
/// fluxes of a size below 2^31.
///
/// The box stands in the patch itself, since look-ups read it. The data stay in one place while the patch is moved, so
/// that a move is three words.
#[derive(Drop)]
pub struct Patch {
    pub bx: Bx,
    pub data: Box<PatchData>,
    pub ghost near: { IsNear bx },
    pub ghost value_count: { length «data».value.values.items ≡ (height bx + 2) * (width bx + 2) },
    pub ghost mark_count: { length «data».value.marks.items ≡ (height bx + 2) * (width bx + 2) },
    pub ghost x_low_count: { length «data».value.x_low.items ≡ height bx },
    pub ghost x_high_count: { length «data».value.x_high.items ≡ height bx },
    pub ghost y_low_count: { length «data».value.y_low.items ≡ width bx },
    pub ghost y_high_count: { length «data».value.y_high.items ≡ width bx },
}

#[tactic(auto, unfolding(crate::specs::Patches::value_in, crate::specs::Patches::mark_in, crate::specs::Patches::flux_in))]
impl Patch {
    ghost use Rattle.std.specs.Prelude.{ℕ, ◌<◌, ◌^◌, ◌-ℤ◌, ◌+ℤ◌, ◌≤ℤ◌, pos, slice_index, unsigned_abs, IfOk, IsTrue};
    ghost use Rattle.amr_box.specs.declared.Cell.{Cell};
    ghost use Rattle.amr_box.specs.declared.Face.{Face};
    ghost use Rattle.amr_box.specs.Cells.{cell, holds, within};
    ghost use Rattle.amr_patch.specs.Places.{in_frame, is_edge_face};
    ghost use Rattle.amr_patch.specs.Patches.{HasNoFluxes, HasNoMarks, SameBeside, SameFluxes, SameMarks, SameOtherFluxes, SameOtherMarks};
    ghost use Rattle.amr_patch.specs.Patches.{SameOtherValues, SameValues, box, flux_in, ghost_in, mark_in, mass_in, value_in};

    /// The patch of a box: all values and fluxes are 0, and no cell of the frame is marked.
    pub fn make(alloc: Global, b: Bx) -> Result<Patch, NoMemory>
        requires { IsNear b }
        ensures of_box { IfOk result (λ p. box p ≡ b) }
        ensures values { IfOk result (λ p. (c : Cell) → value_in p c ≡ 0) }
        ensures marks { IfOk result HasNoMarks }
        ensures fluxes { IfOk result HasNoFluxes }
    {
        let width = b.width() as usize;
        let height = b.height() as usize;
        let count = (height + 2) * (width + 2);
        let values = no_values(alloc, count)?;
        let marks = no_marks(alloc, count)?;
        let x_low = no_fluxes(alloc, height)?;
        let x_high = no_fluxes(alloc, height)?;
        let y_low = no_fluxes(alloc, width)?;
        let y_high = no_fluxes(alloc, width)?;
        let data = PatchData {
            values,
            marks,
            x_low,
            x_high,
            y_low,
            y_high,
        };
        Ok(Patch {
            bx: b,
            data: Box::new(alloc, data)?,
        })
    }

    /// A patch with the same box, values and marks. Its fluxes are 0.
    pub fn copy(&self) -> Result<Patch, NoMemory>
        ensures of_box { IfOk result (λ p. box p ≡ box self.now) }
        ensures values { IfOk result (λ p. SameValues self.now p) }
        ensures marks { IfOk result (λ p. SameMarks self.now p) }
        ensures fluxes { IfOk result HasNoFluxes }
    {
        let from = &*self.data;
        let alloc = *from.values.allocator();
        let width = self.bx.width() as usize;
        let height = self.bx.height() as usize;
        let values = Vec::from_slice(alloc, &from.values)?;
        let marks = Vec::from_slice(alloc, &from.marks)?;
        let x_low = no_fluxes(alloc, height)?;
        let x_high = no_fluxes(alloc, height)?;
        let y_low = no_fluxes(alloc, width)?;
        let y_high = no_fluxes(alloc, width)?;
        let data = PatchData {
            values,
            marks,
            x_low,
            x_high,
            y_low,
            y_high,
        };
        Ok(Patch {
            bx: self.bx,
            data: Box::new(alloc, data)?,
        })
    }

    /// The box.
    pub fn bx(&self) -> Bx
        ensures value { result ≡ box self.now }
        ensures near { IsNear (box self.now) }
    {
        self.bx
    }

    /// The mass of a cell of the box.
    pub fn mass(&self, c: Cell) -> u64
        requires { IsTrue (holds (box self.now) c) }
        ensures value { result ≡ mass_in self.now c }
        ensures small { result < 2 ^ 32 }
    {
        let data = &*self.data;
        u64::from(data.values[place(&self.bx, c)])
    }

    /// Whether a cell is of the frame.
    pub fn in_frame(&self, c: Cell) -> bool
        ensures { result ≡ in_frame (box self.now) c }
    {
        in_frame(&self.bx, c)
    }

    /// Whether a face lies on an edge of the box.
    pub fn on_edge(&self, f: Face) -> bool
        ensures { result ≡ is_edge_face (box self.now) f }
    {
        on_edge(f.axis, &self.bx, Cell { x: f.x, y: f.y })
    }

    /// The value of a cell of the frame, and whether it is a cell of the level.
    pub fn ghost_cell(&self, c: Cell) -> (u64, bool)
        requires { IsTrue (in_frame (box self.now) c) }
        ensures value { result.0 ≡ ghost_in self.now c }
        ensures small { result.0 < 2 ^ 32 }
        ensures mark { result.1 ≡ mark_in self.now c }
    {
        let at = place(&self.bx, c);
        let data = &*self.data;
        (u64::from(data.values[at]), data.marks[at])
    }

    /// The flux through a face on an edge of the box.
    pub fn flux(&self, f: Face) -> i64
        requires { IsTrue (is_edge_face (box self.now) f) }
        ensures { result ≡ flux_in self.now f }
    {
        let data = &*self.data;
        let lo = self.bx.lo();
        let c = Cell { x: f.x, y: f.y };
        match f.axis {
            Axis::X => {
                let row = edge_row(&self.bx, c);
                if f.x == lo.x {
                    i64::from(data.x_low[row])
                } else {
                    i64::from(data.x_high[row])
                }
            }
            Axis::Y => {
                let column = edge_column(&self.bx, c);
                if f.y == lo.y {
                    i64::from(data.y_low[column])
                } else {
                    i64::from(data.y_high[column])
                }
            }
        }
    }

    /// Gives a cell of the box a mass.
    pub fn set_mass(&mut self, c: Cell, m: u64)
        requires inside { IsTrue (holds (box self.old) c) }
        requires small { m < 2 ^ 32 }
        ensures set { mass_in self.new c ≡ m }
        ensures others { SameOtherValues c self.old self.new }
        ensures marks { SameMarks self.old self.new }
        ensures fluxes { SameFluxes self.old self.new }
        ensures of_box { box self.new ≡ box self.old }
    {
        let at = place(&self.bx, c);
        let data = &mut *self.data;
        data.values[at] = m as u32;
    }

    /// Gives a cell of the frame a value, and says whether it is a cell of the level.
    pub fn set_ghost(&mut self, c: Cell, v: u64, of_level: bool)
        requires ghost_cell { IsTrue (in_frame (box self.old) c) }
        requires small { v < 2 ^ 32 }
        ensures set { ghost_in self.new c ≡ v }
        ensures marked { mark_in self.new c ≡ of_level }
        ensures others { SameOtherValues c self.old self.new }
        ensures marks { SameOtherMarks c self.old self.new }
        ensures fluxes { SameFluxes self.old self.new }
        ensures of_box { box self.new ≡ box self.old }
    {
        let at = place(&self.bx, c);
        let data = &mut *self.data;
        data.values[at] = v as u32;
        data.marks[at] = of_level;
    }

    /// Gives the cells of a row, from one of them on, these masses.
    pub fn set_masses(&mut self, c: Cell, masses: &[u32])
        requires inside { IsTrue (holds (box self.old) c) }
        requires room { (c.x +ℤ pos (length masses.now)) ≤ℤ ((box self.old).hi.x +ℤ pos 1) }
        ensures set { (k : ℕ) → k < length masses.now → mass_in self.new (cell (c.x +ℤ pos k) c.y) ≡ slice_index masses.now k }
        ensures others { SameBeside c (length masses.now) self.old self.new }
        ensures marks { SameMarks self.old self.new }
        ensures fluxes { SameFluxes self.old self.new }
        ensures of_box { box self.new ≡ box self.old }
    {
        let from = row_place(&self.bx, c, masses.len() as u32);
        let data = &mut *self.data;
        set_span(&mut data.values, from, masses);
    }

    /// Gives a face on an edge of the box a flux.
    pub fn set_flux(&mut self, f: Face, v: i64)
        requires edge { IsTrue (is_edge_face (box self.old) f) }
        requires small { unsigned_abs v < 2 ^ 31 }
        ensures set { flux_in self.new f ≡ v }
        ensures others { SameOtherFluxes f self.old self.new }
        ensures values { SameValues self.old self.new }
        ensures marks { SameMarks self.old self.new }
        ensures of_box { box self.new ≡ box self.old }
    {
        let data = &mut *self.data;
        let lo = self.bx.lo();
        let c = Cell { x: f.x, y: f.y };
        match f.axis {
            Axis::X => {
                let row = edge_row(&self.bx, c);
                if f.x == lo.x {
                    data.x_low[row] = v as i32;
                } else {
                    data.x_high[row] = v as i32;
                }
            }
            Axis::Y => {
                let column = edge_column(&self.bx, c);
                if f.y == lo.y {
                    data.y_low[column] = v as i32;
                } else {
                    data.y_high[column] = v as i32;
                }
            }
        }
    }

    /// The masses of a row of the box, from the low column.
    pub fn masses_of_row(&self, y: i32) -> &[u32]
        requires { IsTrue (within (box self.now).lo.y (box self.now).hi.y y) }
        ensures count { length result.now ≡ width (box self.now) }
        ensures masses { (k : ℕ) → k < width (box self.now) → slice_index result.now k ≡ mass_in self.now (cell ((box self.now).lo.x +ℤ pos k) y) }
    {
        let x = self.bx.lo().x;
        let count = self.bx.width();
        let from = row_place(&self.bx, Cell { x, y }, count);
        let data = &*self.data;
        &data.values[from..from + count as usize]
    }

    /// The values of a row of the grown box, from the low column.
    pub fn row_with_frame(&self, y: i32) -> &[u32]
        requires { IsTrue (within ((box self.now).lo.y -ℤ pos 1) ((box self.now).hi.y +ℤ pos 1) y) }
        ensures count { length result.now ≡ width (box self.now) + 2 }
        ensures values { (k : ℕ) → k < width (box self.now) + 2
            → slice_index result.now k ≡ value_in self.now (cell ((box self.now).lo.x -ℤ pos 1 +ℤ pos k) y) }
    {
        let x = self.bx.lo().x - 1;
        let count = self.bx.width() + 2;
        let from = row_place(&self.bx, Cell { x, y }, count);
        let data = &*self.data;
        &data.values[from..from + count as usize]
    }

    /// The masses of a row from a cell on, to the high end of the box.
    pub fn masses_from(&self, c: Cell) -> &[u32]
        requires { IsTrue (holds (box self.now) c) }
        ensures count { pos (length result.now) ≡ (box self.now).hi.x +ℤ pos 1 -ℤ c.x }
        ensures masses { (k : ℕ) → k < length result.now → slice_index result.now k ≡ mass_in self.now (cell (c.x +ℤ pos k) c.y) }
    {
        let count = columns_from(&self.bx, c);
        let from = row_place(&self.bx, c, count);
        let data = &*self.data;
        &data.values[from..from + count as usize]
    }
}
