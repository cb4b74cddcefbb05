//! Entries added to the masses of their cells.

ghost use Rattle.std.specs.Prelude.{◌≡◌, ◌<◌, ◌^◌, pos, ◌+ℤ◌, ◌≤ℤ◌, ◌<ℤ◌, length};
ghost use Rattle.std.specs.List.{All};
ghost use Rattle.amr_patch.specs.Patches.{KeepsFrameAndFluxes, box, mass_in};
ghost use Rattle.amr_register.specs.EdgeCells.{AreEdgesIn, cell_of};
ghost use Rattle.amr_register.specs.Written.{AreKeysApart, AreWritten, by_number, own_mass, with_entry};

use crate::edges::EdgeCell;
use amr_patch::Patch;

/// A mass and an entry.
fn with_entry(mass: u64, entry: i64) -> u64
    requires kept { pos 0 ≤ℤ (pos mass +ℤ entry) }
    requires fits { (pos mass +ℤ entry) <ℤ pos (2 ^ 32) }
    ensures { pos result ≡ pos mass +ℤ entry }
{
    if entry < 0 {
        mass - entry.unsigned_abs()
    } else {
        mass + entry.unsigned_abs()
    }
}

/// Adds its entry to the mass of each cell of a list, all of which the patch has.
pub(crate) fn add_in_patch(list: &[EdgeCell], entries: &[i64], patch: &mut Patch)
    requires of_patch { AreEdgesIn (box patch.old) list.now }
    requires numbers { All (λ e. e.number < length entries.now) list.now }
    requires once { AreKeysApart cell_of list.now }
    requires kept { All (λ e. pos 0 ≤ℤ (pos (mass_in patch.old e.cell) +ℤ by_number entries.now e.number)) list.now }
    requires fits { All (λ e. (pos (mass_in patch.old e.cell) +ℤ by_number entries.now e.number) <ℤ pos (2 ^ 32)) list.now }
    ensures masses { AreWritten cell_of (with_entry entries.now) list.now (own_mass patch.old) (own_mass patch.new) (length list.now) }
    ensures kept { KeepsFrameAndFluxes patch.old patch.new }
{
    for n in 0..list.len() {
        let edge = list[n];
        let mass = patch.mass(edge.cell);
        patch.set_mass(edge.cell, with_entry(mass, entries[edge.number as usize]));
    }
}
