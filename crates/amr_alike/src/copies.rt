//! Masses copied from one level into another with the same patch boxes.

ghost use Rattle.std.specs.Prelude.{◌≡◌, ℕ, ◌<◌, length, map, slice_index_or};
ghost use Rattle.std.specs.List.{AllZip};
ghost use Rattle.amr_box.specs.declared.Cell.{Cell};
ghost use Rattle.amr_patch.specs.Levels.{level_of, patches_of};
ghost use Rattle.amr_patch.specs.Patches.{ArePatchesApart, box, mass_in, masses_in};
ghost use Rattle.amr_alike.specs.Copied.{IsCopied, AreCopied};

use amr_patch::{Level, Patch};

/// Copies the values of a patch into another one with the same box, those of its frame too.
fn copy_values(from: &Patch, to: &mut Patch)
    requires { box to.old ≡ box from.now }
    ensures { IsCopied from.now to.new }
{
    let source = &*from.data;
    let target = &mut *to.data;
    target.values.copy_from_slice(&source.values);
}

/// Copies the values of patches into others with the same boxes, one by one, those of their frames too. It takes no memory.
pub fn copy_patches(from: &[Patch], to: &mut [Patch])
    requires { map box to.old ≡ map box from.now }
    ensures copied { AllZip IsCopied from.now to.new }
    ensures boxes { map box to.new ≡ map box to.old }
    ensures masses { masses_in to.new ≡ masses_in from.now }
{
    for k in 0..to.len() {
        copy_values(&from[k], &mut to[k]);
    }
}

/// Gives the cells of a level the masses that they have in another one, whose patches have the same boxes in the same order. Both
/// have the same cells, and no memory is taken.
pub fn copy_masses(from: &Level, to: &mut Level)
    requires { map box (patches_of to.old) ≡ map box (patches_of from.now) }
    ensures masses { (level_of to.new).masses ≡ (level_of from.now).masses }
    ensures boxes { (level_of to.new).boxes ≡ (level_of to.old).boxes }
    ensures patches { map box (patches_of to.new) ≡ map box (patches_of to.old) }
{
    let order = to.order();
    let mut patches = to.take_patches();
    copy_patches(from.patches(), patches.as_mut_slice());
    to.put_patches_in_order(patches, order);
}
