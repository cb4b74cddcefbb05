//! Patches of a level, those that keep its masses, and the register cells of its patches, handed to lots and taken back.

ghost use Rattle.std.specs.Prelude.{◌≡◌, ◌<◌, ℕ, List, length, slice_index_or};
ghost use Rattle.std.specs.List.{AllZip};
ghost use Rattle.std.specs.Global.{Box as boxed};
ghost use Rattle.amr_lots.specs.Runs.{KeepAllButBefore, KeepAllButEdges, KeepOthers, run, with_before, with_edges, with_patches};
ghost use Rattle.amr_lots.specs.declared.lot.Lot.{Lot as lot};

use crate::lot::Lot;
use amr_patch::Patch;
use amr_register::EdgeCell;
use std::boxed::Box;

/// Exchanges patches with those of a lot.
fn trade(patches: &mut [Patch], lot: &mut Box<Lot>)
    requires { length lot.old.value.patches.items ≡ length patches.old }
    ensures handed { lot.new.value.patches.items ≡ patches.old }
    ensures back { patches.new ≡ lot.old.value.patches.items }
    ensures others { lot.new.value ≡ with_patches lot.new.value.patches lot.old.value }
{
    patches.swap_with_slice(&mut lot.patches);
}

/// Exchanges the patches of a level with those of its lots: lot `k` gets run `k` of them, in runs of this size, and the run gets
/// what the lot had.
pub fn exchange_runs(patches: &mut [Patch], lots: &mut [Box<Lot>], size: usize)
    requires counts { (k : ℕ) (x : boxed lot) → k < length lots.old
        → length (slice_index_or lots.old k x).value.patches.items ≡ length (run size k patches.old) }
    ensures handed { (k : ℕ) (x : boxed lot) → k < length lots.old → (slice_index_or lots.new k x).value.patches.items ≡ run size k patches.old }
    ensures back { (k : ℕ) (x : boxed lot) → k < length lots.old → run size k patches.new ≡ (slice_index_or lots.old k x).value.patches.items }
    ensures count { length patches.new ≡ length patches.old }
    ensures others { AllZip KeepOthers lots.old lots.new }
{
    let Some((lot, rest)) = lots.split_first_mut() else {
        return;
    };
    let count = size.min(patches.len());
    let (first, others) = patches.split_at_mut(count);
    trade(first, lot);
    exchange_runs(others, rest, size);
}

/// Exchanges lists of register cells with those of a lot.
fn trade_edges(edges: &mut [Vec<EdgeCell>], lot: &mut Box<Lot>)
    requires { length lot.old.value.edges.items ≡ length edges.old }
    ensures handed { lot.new.value.edges.items ≡ edges.old }
    ensures back { edges.new ≡ lot.old.value.edges.items }
    ensures others { lot.new.value ≡ with_edges lot.new.value.edges lot.old.value }
{
    edges.swap_with_slice(&mut lot.edges);
}

/// Exchanges the lists of register cells of a level, one for each patch, with those of its lots: lot `k` gets run `k` of them, in runs
/// of this size, and the run gets what the lot had.
pub fn exchange_edges(edges: &mut [Vec<EdgeCell>], lots: &mut [Box<Lot>], size: usize)
    requires counts { (k : ℕ) (x : boxed lot) → k < length lots.old
        → length (slice_index_or lots.old k x).value.edges.items ≡ length (run size k edges.old) }
    ensures handed { (k : ℕ) (x : boxed lot) → k < length lots.old → (slice_index_or lots.new k x).value.edges.items ≡ run size k edges.old }
    ensures back { (k : ℕ) (x : boxed lot) → k < length lots.old → run size k edges.new ≡ (slice_index_or lots.old k x).value.edges.items }
    ensures count { length edges.new ≡ length edges.old }
    ensures others { AllZip KeepAllButEdges lots.old lots.new }
{
    let Some((lot, rest)) = lots.split_first_mut() else {
        return;
    };
    let count = size.min(edges.len());
    let (first, others) = edges.split_at_mut(count);
    trade_edges(first, lot);
    exchange_edges(others, rest, size);
}

/// Exchanges patches with those that keep masses in a lot.
fn trade_before(patches: &mut [Patch], lot: &mut Box<Lot>)
    requires { length lot.old.value.before.items ≡ length patches.old }
    ensures handed { lot.new.value.before.items ≡ patches.old }
    ensures back { patches.new ≡ lot.old.value.before.items }
    ensures others { lot.new.value ≡ with_before lot.new.value.before lot.old.value }
{
    patches.swap_with_slice(&mut lot.before);
}

/// Exchanges patches that keep the masses of a level, one for each of its own, with those of its lots: lot `k` gets run `k` of them, in
/// runs of this size, and the run gets what the lot had.
pub fn exchange_before(patches: &mut [Patch], lots: &mut [Box<Lot>], size: usize)
    requires counts { (k : ℕ) (x : boxed lot) → k < length lots.old
        → length (slice_index_or lots.old k x).value.before.items ≡ length (run size k patches.old) }
    ensures handed { (k : ℕ) (x : boxed lot) → k < length lots.old → (slice_index_or lots.new k x).value.before.items ≡ run size k patches.old }
    ensures back { (k : ℕ) (x : boxed lot) → k < length lots.old → run size k patches.new ≡ (slice_index_or lots.old k x).value.before.items }
    ensures count { length patches.new ≡ length patches.old }
    ensures others { AllZip KeepAllButBefore lots.old lots.new }
{
    let Some((lot, rest)) = lots.split_first_mut() else {
        return;
    };
    let count = size.min(patches.len());
    let (first, others) = patches.split_at_mut(count);
    trade_before(first, lot);
    exchange_before(others, rest, size);
}
