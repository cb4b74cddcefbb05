//! The parts of a node's work, over slices.

ghost use Rattle.std.specs.Prelude.{◌≡◌, ◌+◌, ◌++◌, ◌<◌, ◌≤◌, ◌^◌, ℕ, IsTrue, length, map, slice_index, take};
ghost use Rattle.std.specs.List.{All, range_with_len};
ghost use Rattle.amr_ranks.specs.declared.item.Item.{Item};
ghost use Rattle.amr_ranks.specs.Items.{cells_in, has_word, mass_at, share_in};
ghost use Rattle.amr_ranks.specs.Stored.{Rises};

use crate::item::{self, FrameCell, Item};

/// Writes the cells among the items from `start` on, and gives the end of what it wrote.
pub(crate) fn copy_cells(items: &[Item], into: &mut [FrameCell], start: usize) -> usize
    requires { start + length (cells_in items.now) ≤ length into.old }
    ensures end { result ≡ start + length (cells_in items.now) }
    ensures cells { take result into.new ≡ take start into.old ++ cells_in items.now }
{
    let mut end = start;
    for item in items {
        match *item {
            Item::Cell { patch, slot, mass } => {
                into[end] = FrameCell { patch, slot, mass };
                end += 1;
            }
            Item::Share { .. } => {}
        }
    }
    end
}

/// Adds each share among the items to the total of its word.
pub(crate) fn add_shares(items: &[Item], totals: &mut [u64])
    requires words { All (λ (i : Item). IsTrue (has_word (length totals.old) i)) items.now }
    requires below { (w : ℕ) → slice_index totals.old w + share_in w items.now < 2 ^ 63 }
    ensures { totals.new ≡ map (λ w. slice_index totals.old w + share_in w items.now) (range_with_len 0 (length totals.old)) }
{
    for item in items {
        match *item {
            Item::Share { word, amount } => totals[word as usize] += amount,
            Item::Cell { .. } => {}
        }
    }
}

/// Whether the cells rise by patches, then by slots.
pub(crate) fn rises(cells: &[FrameCell]) -> bool
    ensures { IsTrue result → Rises cells.now }
{
    for i in 1..cells.len() {
        if cells[i].place() <= cells[i - 1].place() {
            return false;
        }
    }
    true
}

/// The mass of the first cell at this slot of this patch. Where the cells rise, their range is halved until it is found.
pub(crate) fn find(run: &[FrameCell], rises: bool, patch: u32, slot: u32) -> Option<u64>
    requires { IsTrue rises → Rises run.now }
    ensures { result ≡ mass_at patch slot run.now }
{
    if !rises {
        return search(run, patch, slot);
    }
    let place = item::place(patch, slot);
    let mut low = 0;
    let mut high = run.len();
    while low < high {
        let middle = low + (high - low) / 2;
        if run[middle].place() < place {
            low = middle + 1;
        } else {
            high = middle;
        }
    }
    if low < run.len() && run[low].is_at(patch, slot) {
        return Some(run[low].mass);
    }
    None
}

// The same, by a look at each cell.
fn search(run: &[FrameCell], patch: u32, slot: u32) -> Option<u64>
    ensures { result ≡ mass_at patch slot run.now }
{
    for cell in run {
        if cell.is_at(patch, slot) {
            return Some(cell.mass);
        }
    }
    None
}
