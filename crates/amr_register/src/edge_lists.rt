//! Lists of the register cells of each patch of a level.

ghost use Rattle.std.specs.Prelude.{◌≡◌, ℕ, ◌<◌, ◌^◌, ◌++◌, [], ◌∷◌, length, map, replicate, slice_index_or, slice_set, unsigned_abs, IfOk, IsTrue, OnOk};
ghost use Rattle.std.specs.List.{All, AllZip};
ghost use Rattle.amr_patch.specs.Orders.{IsHolder, IsOrderOf};
ghost use Rattle.amr_patch.specs.Patches.{ArePatchesApart, box, in_patches};
ghost use Rattle.amr_register.specs.EdgeCells.{AreEdgesIn, AreOnceBy, HaveEachOnce, IsAmong, IsSmallNet, lists_of, new_edge, number_of};
ghost use Rattle.amr_register.specs.Written.{AreAllWritten, AreKeysApart, AreWritten, by_number, without_net};

use crate::edges::EdgeCell;
use crate::sides::CoveredSides;
use amr_box::Cell;
use amr_causes::NoMemory;
use amr_patch::{Order, Patch, find_near};
use std::alloc::Global;

/// The number of the patch that has a cell. The look-up begins at patch `near`, and leaves there the one that it found.
fn holder(patches: &[Patch], order: Order, near: &mut usize, c: Cell) -> usize
    requires order { IsOrderOf order patches.now }
    requires apart { ArePatchesApart patches.now }
    requires there { IsTrue (in_patches patches.now c) }
    ensures { IsHolder patches.now c result }
{
    match find_near(patches, order, near, c) {
        None => unreachable!(),
        Some(found) => found,
    }
}

/// So many empty lists.
fn no_lists(alloc: Global, count: usize) -> Result<Vec<Vec<EdgeCell>>, NoMemory>
    ensures { IfOk result (λ lists. lists_of lists.items ≡ replicate count []) }
{
    let mut lists = Vec::with_capacity(alloc, count)?;
    for _ in 0..count {
        lists.push(Vec::new(alloc))?;
    }
    Ok(lists)
}

/// Adds a cell with its number to the list of a patch.
fn push_edge(
    lists: &mut [Vec<EdgeCell>],
    patch: usize,
    number: u32,
    cell: Cell,
    sides: CoveredSides,
) -> Result<(), NoMemory>
    requires { patch < length lists.old }
    ensures { OnOk result (lists_of lists.new
        ≡ slice_set (lists_of lists.old) patch (slice_index_or (lists_of lists.old) patch [] ++ new_edge number cell sides ∷ [])) }
{
    lists[patch].push(EdgeCell {
        cell,
        sides,
        number,
        net: 0,
    })?;
    Ok(())
}

/// For each of these patches the cells that it has, with their sides and numbers, and nothing that flows into them yet.
pub(crate) fn edge_lists(
    alloc: Global,
    patches: &[Patch],
    order: Order,
    cells: &[Cell],
    sides: &[CoveredSides],
) -> Result<Vec<Vec<EdgeCell>>, NoMemory>
    requires order { IsOrderOf order patches.now }
    requires apart { ArePatchesApart patches.now }
    requires there { All (λ c. IsTrue (in_patches patches.now c)) cells.now }
    requires few { length cells.now < 2 ^ 32 }
    requires side_count { length sides.now ≡ length cells.now }
    ensures boxes { IfOk result (λ lists. AllZip AreEdgesIn (map box patches.now) (lists_of lists.items)) }
    ensures among { IfOk result (λ lists. All (All (IsAmong cells.now sides.now)) (lists_of lists.items)) }
    ensures once { IfOk result (λ lists. HaveEachOnce cells.now (lists_of lists.items)) }
{
    let mut lists = no_lists(alloc, patches.len())?;
    let mut near = 0;
    for k in 0..cells.len() {
        let patch = holder(patches, order, &mut near, cells[k]);
        push_edge(&mut lists, patch, k as u32, cells[k], sides[k])?;
    }
    Ok(lists)
}

/// Takes what flows into each cell of a list away from its entry.
fn take_list(list: &[EdgeCell], entries: &mut [i64])
    requires numbers { All (λ e. e.number < length entries.old) list.now }
    requires once { AreKeysApart number_of list.now }
    requires small { All IsSmallNet list.now }
    requires room { All (λ e. unsigned_abs (by_number entries.old e.number) < 2 ^ 62) list.now }
    ensures { AreWritten number_of without_net list.now (by_number entries.old) (by_number entries.new) (length list.now) }
{
    for k in 0..list.len() {
        let edge = list[k];
        entries[edge.number as usize] -= edge.net;
    }
}

/// Takes what flows into each cell of the lists away from its entry, list by list.
pub(crate) fn take_nets(lists: &[Vec<EdgeCell>], entries: &mut [i64])
    requires numbers { All (All (λ e. e.number < length entries.old)) (lists_of lists.now) }
    requires once { AreOnceBy number_of (lists_of lists.now) }
    requires small { All (All IsSmallNet) (lists_of lists.now) }
    requires room { (k : ℕ) → k < length entries.old → unsigned_abs (by_number entries.old k) < 2 ^ 62 }
    ensures { AreAllWritten number_of without_net (lists_of lists.now) (by_number entries.old) (by_number entries.new) (length lists.now) }
{
    for k in 0..lists.len() {
        take_list(&lists[k], entries);
    }
}
