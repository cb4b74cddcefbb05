//! The items that each rank tells a rank.

ghost use Rattle.std.specs.Prelude.{◌≡◌, ◌==◌, ◌<◌, ◌≤◌, ◌^◌, ◌∷◌, [], IfOk, OnOk, cond, length};
ghost use Rattle.std.specs.List.{All, flat_map, range_with_len};
ghost use Rattle.amr_ranks.specs.declared.item.Item.{Item};
ghost use Rattle.amr_letters.specs.Sources.{AreOwned, box_at, ghost_at};
ghost use Rattle.amr_letters.specs.Beside.{beside_count};
ghost use Rattle.amr_letters.specs.Between.{between, told_at, told_of, told_to};
ghost use Rattle.amr_letters.specs.Shared.{AreAdded, AreItemsFor, sharing};

use crate::beside::{beside_cell, beside_count};
use crate::levels::Shared;
use crate::owned::{Near, told_of};
use amr_box::Cell;
use amr_causes::NoMemory;
use amr_ranks::Item;
use std::alloc::Global;

/// Adds a cell to the list of the rank that tells it.
fn add_cell(
    lists: &mut Vec<Vec<Item>>,
    from: u32,
    patch: u32,
    slot: u32,
    mass: u64,
) -> Result<(), NoMemory>
    requires from { from < length lists.old.items }
    requires small { mass < 2 ^ 32 }
    ensures { OnOk result (AreAdded (λ rank. cond (from == rank) (record { patch = patch; slot = slot; mass = mass } ∷ []) [])
        lists.old.items lists.new.items) }
{
    lists[from as usize].push(Item::Cell { patch, slot, mass })?;
    Ok(())
}

/// The ghost cell at a slot of a patch.
fn ghost_at(s: Shared<'_>, number: u32, slot: u32) -> Cell
    requires there { number < length s.own.patches.now }
    requires inside { slot < beside_count (box_at (sharing s) number) }
    ensures { result ≡ ghost_at (sharing s.entry) number slot }
{
    beside_cell(&s.own.patches[number as usize].bx(), slot)
}

/// Adds the ghost cell at a slot of a patch to the list of the rank that its value comes from.
fn add_slot(
    s: Shared<'_>,
    number: u32,
    slot: u32,
    near: &mut Near,
    lists: &mut Vec<Vec<Item>>,
) -> Result<(), NoMemory>
    requires level { s.level ≤ 4 }
    requires own { AreOwned (length lists.old.items) s.own.patches.now s.own.owners.now }
    requires coarser { AreOwned (length lists.old.items) s.coarser.patches.now s.coarser.owners.now }
    requires there { number < length s.own.patches.now }
    requires inside { slot < beside_count (box_at (sharing s) number) }
    ensures { OnOk result (AreAdded (λ from. told_at (sharing s.entry) from number slot) lists.old.items lists.new.items) }
{
    match told_of(s, near, ghost_at(s, number, slot)) {
        Some(told) => add_cell(lists, told.from, number, slot, told.mass),
        None => Ok(()),
    }
}

/// How many ghost cells lie beside a patch.
fn slot_count(s: Shared<'_>, number: u32) -> u32
    requires { number < length s.own.patches.now }
    ensures { result ≡ beside_count (box_at (sharing s.entry) number) }
{
    beside_count(&s.own.patches[number as usize].bx())
}

/// Adds the ghost cells of a patch, slot by slot.
fn add_frame(
    s: Shared<'_>,
    number: u32,
    near: &mut Near,
    lists: &mut Vec<Vec<Item>>,
) -> Result<(), NoMemory>
    requires level { s.level ≤ 4 }
    requires own { AreOwned (length lists.old.items) s.own.patches.now s.own.owners.now }
    requires coarser { AreOwned (length lists.old.items) s.coarser.patches.now s.coarser.owners.now }
    requires there { number < length s.own.patches.now }
    ensures { OnOk result (AreAdded (λ from. told_of (sharing s.entry) from number) lists.old.items lists.new.items) }
{
    let count = slot_count(s, number);
    for slot in 0..count {
        add_slot(s, number, slot, near, lists)?;
    }
    Ok(())
}

/// Adds the ghost cells of a patch, if rank `to` owns it.
fn add_own(
    s: Shared<'_>,
    number: u32,
    to: u32,
    near: &mut Near,
    lists: &mut Vec<Vec<Item>>,
) -> Result<(), NoMemory>
    requires level { s.level ≤ 4 }
    requires own { AreOwned (length lists.old.items) s.own.patches.now s.own.owners.now }
    requires coarser { AreOwned (length lists.old.items) s.coarser.patches.now s.coarser.owners.now }
    requires there { number < length s.own.patches.now }
    ensures { OnOk result (AreAdded (λ from. told_to (sharing s.entry) from to number) lists.old.items lists.new.items) }
{
    if s.own.owners[number as usize] != to {
        return Ok(());
    }
    add_frame(s, number, near, lists)
}

/// An empty list for each rank.
fn no_items(alloc: Global, ranks: u32) -> Result<Vec<Vec<Item>>, NoMemory>
    ensures counted { IfOk result (λ v. length v.items ≡ ranks) }
    ensures empty { IfOk result (λ v. All (λ x. x.items ≡ []) v.items) }
{
    let mut lists = Vec::with_capacity(alloc, ranks as usize)?;
    for _rank in 0..ranks {
        lists.push(Vec::new(alloc))?;
    }
    Ok(lists)
}

/// Adds the ghost cells of the patches that rank `to` owns, in one pass over all.
fn add_all(s: Shared<'_>, to: u32, lists: &mut Vec<Vec<Item>>) -> Result<(), NoMemory>
    requires level { s.level ≤ 4 }
    requires few { length s.own.patches.now ≤ 2 ^ 32 }
    requires own { AreOwned (length lists.old.items) s.own.patches.now s.own.owners.now }
    requires coarser { AreOwned (length lists.old.items) s.coarser.patches.now s.coarser.owners.now }
    ensures { OnOk result (AreAdded (λ from. between (sharing s.entry) from to) lists.old.items lists.new.items) }
{
    let mut near = Near { own: 0, coarser: 0 };
    for k in 0..s.own.patches.len() {
        add_own(s, k as u32, to, &mut near, lists)?;
    }
    Ok(())
}

/// What each of so many ranks tells rank `to`.
pub(crate) fn items_for(
    alloc: Global,
    s: Shared<'_>,
    to: u32,
    ranks: u32,
) -> Result<Vec<Vec<Item>>, NoMemory>
    requires level { s.level ≤ 4 }
    requires few { length s.own.patches.now ≤ 2 ^ 32 }
    requires own { AreOwned ranks s.own.patches.now s.own.owners.now }
    requires coarser { AreOwned ranks s.coarser.patches.now s.coarser.owners.now }
    ensures { IfOk result (λ v. AreItemsFor (sharing s.entry) ranks to v.items) }
{
    let mut lists = no_items(alloc, ranks)?;
    add_all(s, to, &mut lists)?;
    Ok(lists)
}
