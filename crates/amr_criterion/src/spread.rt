//! How far the values of a patch lie apart.

ghost use Rattle.std.specs.Prelude.{◌≡◌, true, ℕ, ◌<◌, ◌≤◌, length, slice_index, IsTrue};
ghost use Rattle.amr_box.specs.declared.Cell.{Cell};
ghost use Rattle.amr_box.specs.Cells.{holds};
ghost use Rattle.amr_patch.specs.Places.{grown};
ghost use Rattle.amr_patch.specs.Patches.{box, value_in};
ghost use Rattle.amr_criterion.specs.Tagged.{IsFlat};

use crate::patches::above;
use amr_patch::Patch;

/// A number that no value of some is below, and one that none is above.
#[derive(Clone, Copy, Debug)]
struct Spread {
    least: u32,
    most: u32,
}

/// The same of these values and those of a row.
fn with_row(spread: Spread, row: &[u32]) -> Spread
    ensures least { result.least ≤ spread.least }
    ensures most { spread.most ≤ result.most }
    ensures low { (k : ℕ) → k < length row.now → result.least ≤ slice_index row.now k }
    ensures high { (k : ℕ) → k < length row.now → slice_index row.now k ≤ result.most }
{
    let mut least = spread.least;
    let mut most = spread.most;
    for k in 0..row.len() {
        least = least.min(row[k]);
        most = most.max(row[k]);
    }
    Spread { least, most }
}

/// The same of the values of a patch and its frame.
fn spread_of(patch: &Patch) -> Spread
    ensures low { (c : Cell) → IsTrue (holds (grown (box patch.now)) c) → result.least ≤ value_in patch.now c }
    ensures high { (c : Cell) → IsTrue (holds (grown (box patch.now)) c) → value_in patch.now c ≤ result.most }
{
    let b = patch.bx();
    let low = b.lo().y - 1;
    let mut spread = Spread {
        least: u32::MAX,
        most: 0,
    };
    for k in 0..b.height() + 2 {
        spread = with_row(spread, patch.row_with_frame(above(low, k)));
    }
    spread
}

/// Whether all values of a patch and its frame lie so near to each other that no two differ by the threshold or more.
pub(crate) fn is_flat(patch: &Patch, threshold: u64) -> bool
    ensures { result ≡ true → IsFlat threshold patch.now }
{
    let spread = spread_of(patch);
    u64::from(spread.most.saturating_sub(spread.least)) < threshold
}
