//! Masses of a payload, placed in the patches of a level. A row of a box is read at once, and a span of it is one look-up.

ghost use Rattle.std.specs.Prelude.{◌≡◌, ℕ, ◌+◌, ◌*◌, ◌<◌, ◌≤◌, ◌^◌, pos, ◌+ℤ◌, ◌-ℤ◌, ◌≤ℤ◌, drop, length, map, slice_index, IsTrue, OnOk};
ghost use Rattle.std.specs.Int.{byte_len, w32, w64};
ghost use Rattle.std.specs.List.{All};
ghost use Rattle.amr_box.specs.declared.Cell.{Cell};
ghost use Rattle.amr_box.specs.Cells as boxes;
ghost use Rattle.amr_box.specs.Cells.{cell, holds, in_boxes, near_limit};
ghost use Rattle.amr_codec.specs.MassWidths.{width_of};
ghost use Rattle.amr_patch.specs.Orders.{IsOrderOf};
ghost use Rattle.amr_patch.specs.Patches.{ArePairwiseApart, ArePatchesApart, box, in_patches};
ghost use Rattle.amr_decoder.specs.Filled.{AreGridsSet, IsGridSet, IsPlaced, IsSpanSet};
ghost use Rattle.amr_decoder.specs.Grids.{IsWhole, boxes_of, grid_of};
ghost use Rattle.amr_decoder.specs.Numbers.{number_at, numbers};

use crate::grid::{Grid, Source};
use crate::reader::{long_at, mass_len, word_at};
use amr_box::{Cell, distance};
use amr_causes::NoMemory;
use amr_codec::MassWidth;
use amr_patch::{Order, Patch, cell_in, find};
use std::alloc::Global;

/// How many cells of the patch's row there are from a cell of it on.
fn room_from(patch: &Patch, c: Cell) -> usize
    requires { IsTrue (holds (box patch.now) c) }
    ensures { pos result ≡ (box patch.now).hi.x +ℤ pos 1 -ℤ c.x }
{
    distance(c.x, patch.bx().hi().x) + 1
}

/// Gives the cells from one on their masses, as far as they stand in one patch, and says how many they are.
fn set_span(patches: &mut [Patch], order: Order, c: Cell, masses: &[u32]) -> usize
    requires order { IsOrderOf order patches.old }
    requires apart { ArePatchesApart patches.old }
    requires inside { IsTrue (in_patches patches.old c) }
    requires some { 0 < length masses.now }
    ensures some { 0 < result }
    ensures within { result ≤ length masses.now }
    ensures set { IsSpanSet c masses.now result patches.old patches.new }
{
    match find(patches, order, c) {
        None => unreachable!(),
        Some(k) => {
            let patch = &mut patches[k];
            let count = room_from(patch, c).min(masses.len());
            patch.set_masses(c, &masses[..count]);
            count
        }
    }
}

/// Gives the cells of a row from one on their masses.
fn set_row(patches: &mut [Patch], order: Order, c: Cell, masses: &[u32])
    requires order { IsOrderOf order patches.old }
    requires apart { ArePatchesApart patches.old }
    requires inside { (k : ℕ) → k < length masses.now → IsTrue (in_patches patches.old (cell (c.x +ℤ pos k) c.y)) }
    requires west { pos 0 ≤ℤ c.x }
    requires east { (c.x +ℤ pos (length masses.now)) ≤ℤ pos (near_limit + 1) }
    requires south { pos 0 ≤ℤ c.y }
    requires north { c.y ≤ℤ pos (near_limit + 1) }
    ensures { IsSpanSet c masses.now (length masses.now) patches.old patches.new }
{
    let mut first = 0;
    while first < masses.len() {
        let next = Cell {
            x: c.x + first as i32,
            y: c.y,
        };
        first += set_span(patches, order, next, &masses[first..]);
    }
}

/// A row of numbers of four bytes, from a place on.
fn read_words(bytes: &[u8], from: usize, row: &mut [u32])
    requires { from + 4 * length row.old ≤ length bytes.now }
    ensures { row.new ≡ numbers w32 (length row.old) (drop from bytes.now) }
{
    for i in 0..row.len() {
        row[i] = word_at(bytes, from + 4 * i);
    }
}

/// The same of numbers of eight bytes, which are small.
fn read_longs(bytes: &[u8], from: usize, row: &mut [u32])
    requires inside { from + 8 * length row.old ≤ length bytes.now }
    requires small { (i : ℕ) → i < length row.old → number_at w64 (drop from bytes.now) i < 2 ^ 32 }
    ensures { row.new ≡ numbers w64 (length row.old) (drop from bytes.now) }
{
    for i in 0..row.len() {
        row[i] = long_at(bytes, from + 8 * i) as u32;
    }
}

/// A row of masses, from a place on.
fn read_row(bytes: &[u8], width: MassWidth, from: usize, row: &mut [u32])
    requires inside { from + byte_len (width_of width) * length row.old ≤ length bytes.now }
    requires small { (i : ℕ) → i < length row.old → number_at (width_of width) (drop from bytes.now) i < 2 ^ 32 }
    ensures { row.new ≡ numbers (width_of width) (length row.old) (drop from bytes.now) }
{
    match width {
        MassWidth::Four => read_words(bytes, from, row),
        MassWidth::Eight => read_longs(bytes, from, row),
    }
}

/// Row `j` of the masses of a box.
fn read_grid_row(grid: &Grid, bytes: &[u8], j: u32, row: &mut [u32])
    requires masses { IsWhole bytes.now grid.now }
    requires row { length row.old ≡ boxes.width grid.now.bx }
    requires inside { j < boxes.height grid.now.bx }
    ensures { (i : ℕ) → i < length row.old → slice_index row.new i ≡ slice_index (grid_of bytes.now grid.now).masses (j * length row.old + i) }
{
    let first = row.len() * j as usize;
    match &grid.masses {
        Source::Bytes(width, from) => read_row(
            bytes,
            *width,
            *from + mass_len(*width) * first,
            row,
        ),
        Source::List(masses) => row.copy_from_slice(&masses[first..first + row.len()]),
    }
}

/// Gives the cells of a box their masses, row by row, each through `row`.
fn fill_rows(patches: &mut [Patch], order: Order, bytes: &[u8], grid: &Grid, row: &mut [u32])
    requires order { IsOrderOf order patches.old }
    requires apart { ArePatchesApart patches.old }
    requires cells { (c : Cell) → IsTrue (holds grid.now.bx c) → IsTrue (in_patches patches.old c) }
    requires placed { IsPlaced grid.now.bx }
    requires masses { IsWhole bytes.now grid.now }
    requires row { length row.old ≡ boxes.width grid.now.bx }
    ensures { IsGridSet (grid_of bytes.now grid.now) patches.old patches.new }
{
    for j in 0..grid.bx.height() {
        read_grid_row(grid, bytes, j, row);
        set_row(patches, order, cell_in(&grid.bx, j, 0), row);
    }
}

/// The same, where `row` is made as long as a row of the box.
fn fill_box(
    patches: &mut [Patch],
    order: Order,
    bytes: &[u8],
    grid: &Grid,
    row: &mut Vec<u32>,
) -> Result<(), NoMemory>
    requires order { IsOrderOf order patches.old }
    requires apart { ArePatchesApart patches.old }
    requires cells { (c : Cell) → IsTrue (holds grid.now.bx c) → IsTrue (in_patches patches.old c) }
    requires placed { IsPlaced grid.now.bx }
    requires masses { IsWhole bytes.now grid.now }
    ensures { OnOk result (IsGridSet (grid_of bytes.now grid.now) patches.old patches.new) }
{
    row.resize(grid.bx.width() as usize, 0)?;
    fill_rows(patches, order, bytes, grid, row);
    Ok(())
}

/// Gives the cells of all boxes their masses.
pub(crate) fn fill_boxes(
    alloc: Global,
    patches: &mut [Patch],
    order: Order,
    bytes: &[u8],
    grids: &[Grid],
) -> Result<(), NoMemory>
    requires order { IsOrderOf order patches.old }
    requires apart { ArePatchesApart patches.old }
    requires disjoint { ArePairwiseApart (boxes_of grids.now) }
    requires cells { (c : Cell) → IsTrue (in_boxes (boxes_of grids.now) c) → IsTrue (in_patches patches.old c) }
    requires placed { All IsPlaced (boxes_of grids.now) }
    requires masses { All (IsWhole bytes.now) grids.now }
    ensures { OnOk result (AreGridsSet (map (grid_of bytes.now) grids.now) patches.old patches.new) }
{
    let mut row = Vec::new(alloc);
    for grid in grids {
        fill_box(patches, order, bytes, grid, &mut row)?;
    }
    Ok(())
}
