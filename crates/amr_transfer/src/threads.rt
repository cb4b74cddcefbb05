//! How patches that are given their masses are shared out among threads.

ghost use Rattle.std.specs.Prelude.{◌≡◌, IsSome, IsTrue};
ghost use Rattle.std.specs.List.{All};
ghost use Rattle.amr_box.specs.declared.Cell.{Cell};
ghost use Rattle.amr_box.specs.Cells.{parent};
ghost use Rattle.amr_patch.specs.Levels.{level_of};
ghost use Rattle.amr_patch.specs.Pairwise.{Pairwise};
ghost use Rattle.amr_patch.specs.Patches.{ArePatchesApart, KeepsFrameAndFluxes, in_patches, masses_in};
ghost use Rattle.amr_transfer.specs.Given.{HasMasses};
ghost use Rattle.amr_transfer.specs.Shares.{kept_or_split};

use crate::new_masses::fill_all;
use amr_patch::{Level, Patch};
use std::thread::{Threads, for_each_chunk_mut};

// From how many cells on patches are shared out among threads. With fewer a thread costs more than it saves.
const MANY: u64 = 1 << 16;

/// Who gives the patches of a level their masses: the calling thread alone ([`CallingThread`]), or several threads ([`InThreads`]).
pub trait Sharing {
    // That threads may share the runtime, where there is one.
    ghost may_share: { Self → Type 0 };

    /// Gives the cells of the patches their masses: those that the old patches have, else their shares.
    fn fill(&self, coarse: &Level, old: &[Patch], patches: &mut [Patch])
        requires shared { may_share self.now }
        requires parents { (c : Cell) → IsTrue (in_patches patches.old c) → IsSome ((level_of coarse.now).masses (parent c)) }
        requires apart { ArePatchesApart old.now }
        ensures kept { Pairwise KeepsFrameAndFluxes patches.old patches.new }
        ensures masses { All (HasMasses (kept_or_split (level_of coarse.now).masses (masses_in old.now))) patches.new };
}

/// The calling thread goes over all patches.
#[derive(Clone, Copy, Debug)]
pub struct CallingThread;

impl Sharing for CallingThread {
    ghost may_share = { λ _. Unit {0} };

    fn fill(&self, coarse: &Level, old: &[Patch], patches: &mut [Patch]) {
        fill_all(coarse, old, patches);
    }
}

/// Each of several threads goes over a part of the patches, where these have many cells.
#[derive(Drop)]
pub struct InThreads<'a, R> {
    runtime: &'a R,
    threads: usize,
}

impl<'a, R: Threads + Sync> InThreads<'a, R> {
    /// At most so many are at work at once. For 0 and for 1 no thread is made.
    pub fn of(runtime: &'a R, threads: usize) -> InThreads<'a, R> {
        InThreads { runtime, threads }
    }
}

impl<R: Threads + Sync> Sharing for InThreads<'_, R> {
    ghost use Rattle.std.specs.Thread.{IsSync};

    ghost may_share = { λ _. IsSync R.row };

    fn fill(&self, coarse: &Level, old: &[Patch], patches: &mut [Patch]) {
        if self.threads < 2 || !are_many(patches) {
            fill_all(coarse, old, patches);
        } else {
            fill_in_threads(self.runtime, self.threads, coarse, old, patches);
        }
    }
}

/// Whether the patches have many cells.
fn are_many(patches: &[Patch]) -> bool {
    let mut cells: u64 = 0;
    for p in patches {
        cells = cells.saturating_add(p.bx().area());
    }
    cells >= MANY
}

/// Gives the cells of a list of patches their masses, in at most so many threads. Each takes as many patches as the others, the
/// last maybe fewer.
fn fill_in_threads<R: Threads + Sync>(
    rt: &R,
    threads: usize,
    coarse: &Level,
    old: &[Patch],
    patches: &mut [Patch],
)
    requires parents { (c : Cell) → IsTrue (in_patches patches.old c) → IsSome ((level_of coarse.now).masses (parent c)) }
    requires apart { ArePatchesApart old.now }
    ensures kept { Pairwise KeepsFrameAndFluxes patches.old patches.new }
    ensures masses { All (HasMasses (kept_or_split (level_of coarse.now).masses (masses_in old.now))) patches.new }
{
    let size = patches.len().div_ceil(threads.max(1)).max(1);
    let part = move |_: usize, part: &mut [Patch]|
        requires { ((c : Cell) → IsTrue (in_patches part.now c) → IsSome ((level_of coarse.now).masses (parent c))) × ArePatchesApart old.now }
        ensures { Pairwise KeepsFrameAndFluxes part.entry.now part.exit.now
            × All (HasMasses (kept_or_split (level_of coarse.entry.now).masses (masses_in old.entry.now))) part.exit.now }
    { fill_all(coarse, old, part) };
    for_each_chunk_mut(rt, patches, size, &part);
}
