//! Where patches start, and the gaps between those columns and rows.

ghost use Rattle.std.specs.Prelude.{◌≡◌, ◌≤◌, ◌⊎◌, ◌≤ℤ◌, ◌<ℤ◌, false, int_le, true, length, IfOk, IfSome, IsSome, IsTrue, List};
ghost use Rattle.std.specs.List.{All};
ghost use Rattle.std.specs.List.Sorted.{IsPartitionPoint};
ghost use Rattle.amr_box.specs.Cells.{holds};
ghost use Rattle.amr_patch.specs.declared.patches.Patch.{Patch};
ghost use Rattle.amr_patch.specs.Patches.{in_patches};
ghost use Rattle.amr_patch.specs.Gaps.{Ascends, HasStarts, IsGap, in_gap};

use crate::Patch;
use amr_box::{Bx, Cell};
use amr_causes::NoMemory;
use std::alloc::Global;

/// Where the patches of a level start. It depends on their boxes alone, so it serves until a regrid.
#[derive(Drop)]
pub struct Starts {
    /// The columns of their low corners, in order.
    pub columns: Vec<i32>,
    /// The rows of their low corners, in order.
    pub rows: Vec<i32>,
}

/// Where these patches start. `NoMemory` is the only refusal.
pub fn starts_of(alloc: Global, patches: &[Patch]) -> Result<Starts, NoMemory>
    ensures { IfOk result (HasStarts patches.now) }
{
    let mut columns = Vec::new(alloc);
    let mut rows = Vec::new(alloc);
    for patch in patches {
        let low = patch.bx().lo();
        columns.push(low.x)?;
        rows.push(low.y)?;
    }
    columns.sort_unstable();
    rows.sort_unstable();
    Ok(Starts { columns, rows })
}

/// How many of these numbers are at most `z`.
fn count_up_to(starts: &[i32], z: i32) -> usize
    requires { Ascends starts.now }
    ensures within { result ≤ length starts.now }
    ensures parts { IsPartitionPoint (λ s. int_le s z ≡ true) (λ s. int_le s z ≡ false) starts.now result }
{
    starts.partition_point(|s| *s <= z)
}

/// The last number from `z` on before the next one of these.
fn last_before(starts: &[i32], z: i32) -> i32
    requires { Ascends starts.now }
    ensures from { z ≤ℤ result }
    ensures none { All (λ s. (s ≤ℤ z) ⊎ (result <ℤ s)) starts.now }
{
    let k = count_up_to(starts, z);
    if k == starts.len() {
        return i32::MAX;
    }
    let next = starts[k];
    next - 1
}

/// The box of cells from `c` up to where the next column and the next row of patches start. If no patch has `c`, none has any
/// cell of it.
pub fn gap_from(starts: &Starts, c: Cell) -> Option<Bx>
    requires columns { Ascends starts.now.columns.items }
    requires rows { Ascends starts.now.rows.items }
    ensures some { IsSome result }
    ensures begins { IfSome result (λ b. IsTrue (holds b c)) }
    ensures gap { (ps : List Patch) → HasStarts ps starts.now → in_patches ps c ≡ false → IsGap ps result }
{
    let x = last_before(&starts.columns, c.x);
    let y = last_before(&starts.rows, c.y);
    Bx::try_new(c, Cell { x, y })
}

/// Whether a cell lies in a gap. In None lies no cell.
pub fn is_in_gap(gap: Option<Bx>, c: Cell) -> bool
    ensures inside { result ≡ in_gap gap c }
    ensures none { (ps : List Patch) → IsGap ps gap → result ≡ true → in_patches ps c ≡ false }
{
    match gap {
        None => false,
        Some(b) => b.holds(c),
    }
}
