//! The lists of a patch: made, and written in part.

ghost use Rattle.std.specs.Prelude.{◌≡◌, ℕ, ◌+◌, ◌<◌, ◌≤◌, ◌⊎◌, pos, false, length, slice_index, slice_index_or, IfOk};

use amr_causes::NoMemory;
use std::alloc::Global;

/// So many fluxes of 0.
pub(crate) fn no_fluxes(alloc: Global, count: usize) -> Result<Vec<i32>, NoMemory>
    ensures length { IfOk result (λ v. length v.items ≡ count) }
    ensures none { IfOk result (λ v. (k : ℕ) → slice_index_or v.items k (pos 0) ≡ pos 0) }
{
    let fluxes = vec![in alloc; 0i32; count]?;
    Ok(fluxes)
}

/// So many values of 0.
pub(crate) fn no_values(alloc: Global, count: usize) -> Result<Vec<u32>, NoMemory>
    ensures length { IfOk result (λ v. length v.items ≡ count) }
    ensures none { IfOk result (λ v. (k : ℕ) → slice_index v.items k ≡ 0) }
{
    let values = vec![in alloc; 0u32; count]?;
    Ok(values)
}

/// So many cells, none of them marked.
pub(crate) fn no_marks(alloc: Global, count: usize) -> Result<Vec<bool>, NoMemory>
    ensures length { IfOk result (λ v. length v.items ≡ count) }
    ensures none { IfOk result (λ v. (k : ℕ) → slice_index_or v.items k false ≡ false) }
{
    let marks = vec![in alloc; false; count]?;
    Ok(marks)
}

/// Gives the entries from `from` on these masses.
pub(crate) fn set_span(values: &mut [u32], from: usize, masses: &[u32])
    requires { from + length masses.now ≤ length values.old }
    ensures set { (k : ℕ) → k < length masses.now → slice_index values.new (from + k) ≡ slice_index masses.now k }
    ensures others { (k : ℕ) → (k < from) ⊎ (from + length masses.now ≤ k) → slice_index values.new k ≡ slice_index values.old k }
{
    values[from..from + masses.len()].copy_from_slice(masses);
}
