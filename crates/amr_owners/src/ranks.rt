//! The rank of each item, told by the numbers that each rank owns.

ghost use Rattle.std.specs.Prelude.{◌≡◌, ℕ, ◌^◌, ◌<◌, ◌≤◌, IfOk, length, slice_index};
ghost use Rattle.std.specs.List.{All};
ghost use Rattle.amr_balance.specs.Shares.{lists_in};
ghost use Rattle.amr_owners.specs.Owners.{AreOwners, AreRanksOf, IsNoneOf};

use amr_causes::NoMemory;
use std::alloc::Global;

/// Notes a rank at the places with these numbers.
fn note(ranks: &mut [u32], numbers: &[u32], rank: u32)
    requires within { All (λ n. n < length ranks.old) numbers.now }
    ensures long { length ranks.new ≡ length ranks.old }
    ensures noted { All (λ n. slice_index ranks.new n ≡ rank) numbers.now }
    ensures others { (n : ℕ) → IsNoneOf numbers.now n → slice_index ranks.new n ≡ slice_index ranks.old n }
{
    for k in 0..numbers.len() {
        ranks[numbers[k] as usize] = rank;
    }
}

/// The rank of each of so many items, from the numbers that each rank owns: for those who have to find an item's owner. There are
/// at most 2^32 ranks. `NoMemory` is the only refusal.
pub fn ranks_of(alloc: Global, numbers: &[Vec<u32>], count: usize) -> Result<Vec<u32>, NoMemory>
    requires owners { AreOwners (lists_in numbers.now) (length numbers.now) count }
    requires few { length numbers.now ≤ 2 ^ 32 }
    ensures long { IfOk result (λ v. length v.items ≡ count) }
    ensures ranks { IfOk result (λ v. AreRanksOf (lists_in numbers.now) v.items) }
    ensures ranked { IfOk result (λ v. All (λ rank. rank < length numbers.now) v.items) }
{
    let mut ranks = vec![in alloc; 0u32; count]?;
    for rank in 0..numbers.len() {
        note(&mut ranks, &numbers[rank], rank as u32);
    }
    Ok(ranks)
}
