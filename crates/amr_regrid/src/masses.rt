//! Levels with new boxes, and the masses of their cells.

ghost use Rattle.std.specs.Prelude.{◌≡◌, ℕ, ◌≤◌, IfOk, IfSome, IsSome, IsTrue, List, ◌∷◌, drop, map};
ghost use Rattle.std.specs.List.{All, flat_map};
ghost use Rattle.std.specs.Option.{option_copied};
ghost use Rattle.amr_box.specs.declared.Cell.{Cell};
ghost use Rattle.amr_box.specs.Cells.{in_boxes, parent};
ghost use Rattle.amr_boxlist.specs.Chopped.{chopped};
ghost use Rattle.amr_def.specs.Regrid.{refill, refilled};
ghost use Rattle.amr_patch.specs.Levels.{level_of};
ghost use Rattle.amr_patch.specs.Patches.{ArePairwiseApart, AreNear};
ghost use Rattle.amr_patch.specs.declared.levels.Level.{Level};
ghost use Rattle.amr_start.specs.PatchBoxes.{IsChopped};
ghost use Rattle.amr_regrid.specs.Outlines.{lists_in};
ghost use Rattle.amr_regrid.specs.Remade.{IsChoppedIfMade, HasMassesInBoxes, Stands, remade_levels};
ghost use Rattle.amr_transfer.specs.Shares.{masses_before};

use amr_alike::are_same;
use amr_box::Bx;
use amr_boxlist::BoxList;
use amr_causes::NoMemory;
use amr_def::Problem;
use amr_patch::Level;
use amr_transfer::{Sharing, split_by};
use std::alloc::Global;

/// What a regrid makes of a level.
#[derive(Drop)]
pub(crate) enum Remade {
    /// No box of the level changed: it stays as it is.
    Kept,
    /// The level with new boxes.
    Made(Level),
}

/// The boxes, chopped into patch boxes of at most `max` by `max` cells.
fn patch_boxes(alloc: Global, boxes: &[Bx], max: u32) -> Result<BoxList, NoMemory>
    requires some { 1 ≤ max }
    requires apart { ArePairwiseApart boxes.now }
    ensures chopped { IfOk result (λ r. r ≡ flat_map (chopped max) boxes.now) }
    ensures cells { IfOk result (λ r. (c : Cell) → in_boxes r c ≡ in_boxes boxes.now c) }
{
    let mut list = BoxList::make(alloc);
    for b in boxes {
        list.push_disjoint(*b)?;
    }
    list.chop(max)?;
    Ok(list)
}

/// A level with these boxes in patches of at most `max` by `max` cells. A cell that the old level has keeps its mass, any
/// other gets its share of its parent's.
fn made<S: Sharing>(
    sharing: &S,
    alloc: Global,
    max: u32,
    coarse: &Level,
    old: Option<&Level>,
    boxes: &[Bx],
) -> Result<Level, NoMemory>
    requires shared { S.may_share sharing.now }
    requires some { 1 ≤ max }
    requires apart { ArePairwiseApart boxes.now }
    requires near { AreNear boxes.now }
    requires parents { (c : Cell) → IsTrue (in_boxes boxes.now c) → IsSome ((level_of coarse.now).masses (parent c)) }
    ensures level { IfOk result (λ k. level_of k
        ≡ record { boxes = boxes.now; masses = refilled (level_of coarse.now).masses (masses_before (option_copied old.entry)) boxes.now }) }
    ensures chopped { IfOk result (IsChopped max) }
{
    let patch_boxes = patch_boxes(alloc, boxes, max)?;
    let mut level = Level::make(alloc, boxes, patch_boxes.list())?;
    split_by(sharing, coarse, old, &mut level);
    Ok(level)
}

/// The first of the levels, where its boxes are these.
fn unchanged<'a>(olds: &'a [Level], boxes: &[Bx]) -> Option<&'a Level>
    ensures { IfSome result (λ k. (rest : List Level) × (olds.now ≡ k.now ∷ rest) × ((level_of k.now).boxes ≡ boxes.now)) }
{
    let old = olds.first()?;
    if are_same(old.boxes(), boxes) {
        Some(old)
    } else {
        None
    }
}

/// The levels but the first.
fn rest_of(levels: &[Level]) -> &[Level]
    ensures { result.now ≡ drop 1 levels.now }
{
    match levels.split_first() {
        Some((_, rest)) => rest,
        None => levels,
    }
}

/// What becomes of the levels from one up, over the coarser level, by their new boxes: upward to the first that has none. A
/// level whose boxes stay is kept with no look at its cells.
pub(crate) fn refill<S: Sharing>(
    sharing: &S,
    alloc: Global,
    p: &Problem,
    coarse: &Level,
    olds: &[Level],
    boxes: &[Vec<Bx>],
) -> Result<Vec<Remade>, NoMemory>
    requires shared { S.may_share sharing.now }
    requires stands { (l : ℕ) × Stands p.now l (level_of coarse.now) (lists_in boxes.now) }
    requires filled { All HasMassesInBoxes (map level_of olds.now) }
    ensures levels { IfOk result (λ r. map level_of (remade_levels olds.now r.items)
        ≡ refill (level_of coarse.now).masses (map level_of olds.now) (lists_in boxes.now)) }
    ensures chopped { IfOk result (λ r. All (IsChoppedIfMade p.now.max_grid_size) r.items) }
{
    let Some((here, more)) = boxes.split_first() else {
        return Ok(Vec::new(alloc));
    };
    let here = here.as_slice();
    if here.is_empty() {
        return Ok(Vec::new(alloc));
    }
    if let Some(old) = unchanged(olds, here) {
        let mut all = refill(sharing, alloc, p, old, rest_of(olds), more)?;
        all.insert(0, Remade::Kept)?;
        return Ok(all);
    }
    let level = made(sharing, alloc, p.max_grid_size, coarse, olds.first(), here)?;
    let mut all = refill(sharing, alloc, p, &level, rest_of(olds), more)?;
    all.insert(0, Remade::Made(level))?;
    Ok(all)
}
