//! Levels whose patches ranks own.

ghost use Rattle.std.specs.Prelude.{◌≡◌, length};
ghost use Rattle.amr_patch.specs.Orders.{IsOrderOf};
ghost use Rattle.amr_patch.specs.Patches.{ArePatchesApart};

use amr_def::Problem;
use amr_patch::{Order, Patch};

/// The patches of a level, how they stand, and the rank that owns each.
#[derive(Clone, Copy)]
pub struct OwnedPatches<'a> {
    pub patches: &'a [Patch],
    pub order: Order,
    pub owners: &'a [u32],
    pub ghost ordered: { IsOrderOf order patches.now },
    pub ghost apart: { ArePatchesApart patches.now },
    pub ghost counted: { length owners.now ≡ length patches.now },
}

/// A level of a problem, from 0 to 4, and the next coarser one, which has no patches at level 0. Level `level` has at most 2^32 patches.
#[derive(Clone, Copy)]
pub struct Shared<'a> {
    pub problem: &'a Problem,
    pub level: u32,
    pub own: OwnedPatches<'a>,
    pub coarser: OwnedPatches<'a>,
}
