//! Patches of a level and the ranks that own them, and what the owner of a cell's patch has.

ghost use Rattle.std.specs.Prelude.{◌≡◌, ◌<◌, ◌≤◌, ◌/◌, ◌^◌, IfSome, None, [], ℕ, cond, length, option_map, true};
ghost use Rattle.std.specs.List.{All};
ghost use Rattle.std.specs.Option.{option_copied};
ghost use Rattle.amr_box.specs.Cells.{parent};
ghost use Rattle.amr_def.specs.Domain.{domain, in_domain};
ghost use Rattle.amr_def.specs.State.{mass_of};
ghost use Rattle.amr_patch.specs.Patches.{masses_in};
ghost use Rattle.amr_ghost.specs.Frames.{old_masses};
ghost use Rattle.amr_patch.specs.Levels.{level_of, patches_of};
ghost use Rattle.amr_letters.specs.Sources.{AreOwned, holder, source, value_of};
ghost use Rattle.amr_letters.specs.Shared.{sharing};
ghost use Rattle.amr_letters.specs.declared.owned.Told.{Told};

use crate::levels::{OwnedPatches, Shared};
use amr_box::{Cell, parent};
use amr_patch::{Level, find_near, order_of};

/// Where look-ups begin: at the patches that served last, of the level and of the next coarser one.
#[derive(Clone, Copy, Debug)]
pub(crate) struct Near {
    pub(crate) own: usize,
    pub(crate) coarser: usize,
}

/// The value of a ghost cell, and the rank that it comes from.
#[derive(Clone, Copy, Debug)]
pub(crate) struct Told {
    pub(crate) from: u32,
    pub(crate) mass: u64,
}

/// The patches of a level.
fn level_patches<'a>(level: &'a Level, owners: &'a [u32]) -> OwnedPatches<'a>
    requires { length owners.now ≡ length (patches_of level.now) }
    ensures patches { result.patches.now ≡ patches_of level.now }
    ensures masses { masses_in result.patches.now ≡ (level_of level.now).masses }
    ensures owners { result.owners.now ≡ owners.entry.now }
{
    OwnedPatches {
        patches: level.patches(),
        order: level.order(),
        owners,
    }
}

/// No patches.
fn no_patches<'a>() -> OwnedPatches<'a>
    ensures patches { result.patches.now ≡ [] }
    ensures owners { result.owners.now ≡ [] }
{
    OwnedPatches {
        patches: &[],
        order: order_of(&[]),
        owners: &[],
    }
}

/// The patches of the next coarser level and their owners, if there is one, else none.
pub(crate) fn coarser_patches<'a>(coarser: Option<(&'a Level, &'a [u32])>) -> OwnedPatches<'a>
    requires { IfSome coarser (λ k. length k.1.now ≡ length (patches_of k.0.now)) }
    ensures masses { masses_in result.patches.now ≡ old_masses (option_map (λ k. k.0.now) coarser.entry) }
    ensures owned { (n : ℕ) → IfSome coarser.entry (λ k. AreOwned n (patches_of k.0.now) k.1.now) → AreOwned n result.patches.now result.owners.now }
{
    let Some((level, owners)) = coarser else {
        return no_patches();
    };
    level_patches(level, owners)
}

/// What the owner of the patch that has a cell has there. None exactly where no patch has it.
fn held(owned: OwnedPatches<'_>, near: &mut usize, c: Cell) -> Option<Told>
    ensures from { option_map (λ (t : Told). t.from) result ≡ holder owned.entry.patches.now owned.entry.owners.now c }
    ensures mass { option_map (λ (t : Told). t.mass) result ≡ masses_in owned.entry.patches.now c }
    ensures small { IfSome result (λ t. t.mass < 2 ^ 32) }
{
    match find_near(owned.patches, owned.order, near, c) {
        Some(k) => Some(Told {
            from: owned.owners[k],
            mass: owned.patches[k].mass(c),
        }),
        None => None,
    }
}

/// A quarter of what the owner of the patch that has the parent of a cell has there.
fn held_quarter(owned: OwnedPatches<'_>, near: &mut usize, c: Cell) -> Option<Told>
    ensures from { option_map (λ (t : Told). t.from) result ≡ holder owned.entry.patches.now owned.entry.owners.now (parent c) }
    ensures mass { IfSome result (λ t. t.mass ≡ mass_of (masses_in owned.entry.patches.now) (parent c) / 4) }
    ensures small { IfSome result (λ t. t.mass < 2 ^ 32) }
{
    match held(owned, near, parent(c)) {
        Some(told) => Some(Told {
            from: told.from,
            mass: told.mass / 4,
        }),
        None => None,
    }
}

/// The value of a cell of the domain that no patch of the level has, and the rank that it comes from.
fn told_by_coarser(s: Shared<'_>, near: &mut usize, home: Cell) -> Option<Told>
    requires { s.level ≤ 4 }
    ensures from { option_map (λ (t : Told). t.from) result
        ≡ cond (in_domain (domain s.entry.problem.now s.entry.level) home) (holder s.entry.coarser.patches.now s.entry.coarser.owners.now (parent home)) None }
    ensures mass { IfSome result (λ t. (in_domain (domain s.entry.problem.now s.entry.level) home ≡ true)
        × (t.mass ≡ mass_of (masses_in s.entry.coarser.patches.now) (parent home) / 4)) }
    ensures small { IfSome result (λ t. t.mass < 2 ^ 32) }
{
    if !s.problem.domain(s.level).in_domain(home) {
        return None;
    }
    held_quarter(s.coarser, near, home)
}

/// The value of a ghost cell and the rank that it comes from. None exactly where it comes from no patch.
pub(crate) fn told_of(s: Shared<'_>, near: &mut Near, c: Cell) -> Option<Told>
    requires { s.level ≤ 4 }
    ensures from { option_map (λ (t : Told). t.from) result ≡ source (sharing s.entry) c }
    ensures mass { IfSome result (λ t. t.mass ≡ value_of (sharing s.entry) c) }
    ensures small { IfSome result (λ t. t.mass < 2 ^ 32) }
{
    let home = s.problem.domain(s.level).home_cell(c);
    match held(s.own, &mut near.own, home) {
        Some(told) => Some(told),
        None => told_by_coarser(s, &mut near.coarser, home),
    }
}
