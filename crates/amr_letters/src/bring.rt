//! One round of letters before a step: each rank's patches get the ghost cells that others, or itself, have.

ghost use Rattle.std.specs.Prelude.{◌≡◌, ◌<◌, ◌≤◌, ◌^◌, IfOk, IfSome, OnOk, OnErr, length, map, option_map};
ghost use Rattle.std.specs.List.{All, AllZip};
ghost use Rattle.amr_ranks.specs.Items.{total};
ghost use Rattle.amr_ranks.specs.Letters.{LetterOf};
ghost use Rattle.amr_patch.specs.Levels.{patches_of};
ghost use Rattle.amr_patch.specs.Orders.{IsOrderOf};
ghost use Rattle.amr_patch.specs.Patches.{ArePatchesApart, SameFluxes, box, masses_in};
ghost use Rattle.amr_ghost.specs.Frames.{HasGhostValues, KeepsCorners, SameMasses, old_masses};
ghost use Rattle.amr_letters.specs.Told.{HasPatchMasses};
ghost use Rattle.amr_letters.specs.Filled.{SameFrameMarks, TellFrames};
ghost use Rattle.amr_letters.specs.Sources.{AreOwned};
ghost use Rattle.amr_letters.specs.Between.{letters_for};
ghost use Rattle.amr_letters.specs.Shared.{AreRanksFor, KnowFrames, AreSmallLetters, IsRankFor, sharing};

use crate::fill::fill_frames;
use crate::items::items_for;
use crate::levels::{OwnedPatches, Shared};
use crate::owned::coarser_patches;
use amr_causes::NoMemory;
use amr_def::Problem;
use amr_patch::{Level, Order, Patch};
use amr_post::{Rank, round};
use amr_ranks::Letter;
use std::alloc::Global;
use std::sync::Wait;
use std::thread::Threads;

/// The letters to rank `to`, one from each of so many ranks: what each tells of the ghost cells of its patches.
fn letters_for(alloc: Global, s: Shared<'_>, to: u32, ranks: u32) -> Result<Vec<Letter>, NoMemory>
    requires level { s.level ≤ 4 }
    requires few { length s.own.patches.now ≤ 2 ^ 32 }
    requires ranks { ranks ≤ 8 }
    requires to { to < ranks }
    requires own { AreOwned ranks s.own.patches.now s.own.owners.now }
    requires coarser { AreOwned ranks s.coarser.patches.now s.coarser.owners.now }
    ensures letters { IfOk result (λ v. v.items ≡ letters_for (sharing s.entry) ranks to) }
    ensures small { IfOk result (λ v. AreSmallLetters v.items) }
{
    let mut lists = items_for(alloc, s, to, ranks)?;
    let mut letters = Vec::with_capacity(alloc, ranks as usize)?;
    for from in 0..ranks {
        let items = std::mem::replace(&mut lists[from as usize], Vec::new(alloc));
        letters.push(Letter::make(from * ranks + to, to, items))?;
    }
    Ok(letters)
}

/// How many items letters have.
fn count_items(letters: &[Letter]) -> Result<usize, NoMemory>
    ensures { IfOk result (λ n. n ≡ total (λ (l : LetterOf). length l.items) letters.now) }
{
    let mut count = 0usize;
    for k in 0..letters.len() {
        count = count.checked_add(letters[k].items().len()).ok_or(NoMemory)?;
    }
    Ok(count)
}

/// Rank `to` with the letters to it.
fn rank_for(alloc: Global, s: Shared<'_>, to: u32, ranks: u32) -> Result<Rank, NoMemory>
    requires level { s.level ≤ 4 }
    requires few { length s.own.patches.now ≤ 2 ^ 32 }
    requires ranks { ranks ≤ 8 }
    requires to { to < ranks }
    requires own { AreOwned ranks s.own.patches.now s.own.owners.now }
    requires coarser { AreOwned ranks s.coarser.patches.now s.coarser.owners.now }
    ensures { IfOk result (IsRankFor (sharing s.entry) ranks to) }
{
    let letters = letters_for(alloc, s, to, ranks)?;
    let cells = count_items(letters.as_slice())?;
    let Ok(rank) = Rank::make(alloc, to, letters, 0, cells) else {
        return Err(NoMemory);
    };
    Ok(rank)
}

/// Each of so many ranks, with the letters to it. All memory of the round is taken here.
fn ranks_for(alloc: Global, s: Shared<'_>, ranks: u32) -> Result<Vec<Rank>, NoMemory>
    requires level { s.level ≤ 4 }
    requires few { length s.own.patches.now ≤ 2 ^ 32 }
    requires ranks { ranks ≤ 8 }
    requires own { AreOwned ranks s.own.patches.now s.own.owners.now }
    requires coarser { AreOwned ranks s.coarser.patches.now s.coarser.owners.now }
    ensures { IfOk result (λ v. AreRanksFor (sharing s.entry) ranks v.items) }
{
    let mut all = Vec::with_capacity(alloc, ranks as usize)?;
    for to in 0..ranks {
        all.push(rank_for(alloc, s, to, ranks)?)?;
    }
    Ok(all)
}

/// Each of so many ranks, after the letters went: what it then has of the ghost cells of its patches.
fn bring<R: Threads + Wait + Sync>(
    rt: &R,
    alloc: Global,
    s: Shared<'_>,
    ranks: u32,
) -> Result<Vec<Rank>, NoMemory>
    requires level { s.level ≤ 4 }
    requires few { length s.own.patches.now ≤ 2 ^ 32 }
    requires ranks { ranks ≤ 8 }
    requires own { AreOwned ranks s.own.patches.now s.own.owners.now }
    requires coarser { AreOwned ranks s.coarser.patches.now s.coarser.owners.now }
    ensures { IfOk result (λ v. KnowFrames (sharing s.entry) ranks v.items) }
{
    let mut all = ranks_for(alloc, s, ranks)?;
    round(rt, &mut all);
    Ok(all)
}

/// What each of so many ranks has of the ghost cells of its patches of level `l`, after the letters went.
fn frames_told<R: Threads + Wait + Sync>(
    rt: &R,
    alloc: Global,
    p: &Problem,
    l: u32,
    own: OwnedPatches<'_>,
    coarser: Option<(&Level, &[u32])>,
    ranks: u32,
) -> Result<Vec<Rank>, NoMemory>
    requires level { l ≤ 4 }
    requires ranks { ranks ≤ 8 }
    requires own { AreOwned ranks own.patches.now own.owners.now }
    requires coarser { IfSome coarser (λ k. AreOwned ranks (patches_of k.0.now) k.1.now) }
    ensures few { IfOk result (λ v. length own.entry.patches.now ≤ 2 ^ 32) }
    ensures counted { IfOk result (λ v. length v.items ≡ ranks) }
    ensures small { IfOk result (λ v. All (λ rank. HasPatchMasses rank.node) v.items) }
    ensures tells { IfOk result (λ v. TellFrames p.now l (masses_in own.entry.patches.now) (old_masses (option_map (λ k. k.0.now) coarser.entry))
        own.entry.patches.now own.entry.owners.now v.items) }
{
    if own.patches.len() as u64 > 1 << 32 {
        return Err(NoMemory);
    }
    let shared = Shared {
        problem: p,
        level: l,
        own,
        coarser: coarser_patches(coarser),
    };
    bring(rt, alloc, shared, ranks)
}

/// Fills the frames of all patches of level `l`, from 0 to 4, by one round of letters between up to 8 ranks: each rank tells each rank, itself too,
/// the ghost cells of that rank's patches whose values its own patches have, here and in the next coarser level. `order` says how the patches
/// stand, `owners` the rank of each. `coarser` is the next coarser level as it was before its step, with the rank of each of its patches; None at
/// level 0. Each ghost cell beside a patch gets its value, and all else stays, the marks too. All memory is taken before a letter is sent:
/// `NoMemory` where it runs out or the level has more than 2^32 patches, and then the patches stay as they were.
pub fn bring_frames<R: Threads + Wait + Sync>(
    rt: &R,
    alloc: Global,
    p: &Problem,
    l: u32,
    patches: &mut [Patch],
    order: Order,
    owners: &[u32],
    coarser: Option<(&Level, &[u32])>,
    ranks: u32,
) -> Result<(), NoMemory>
    requires level { l ≤ 4 }
    requires ranks { ranks ≤ 8 }
    requires ordered { IsOrderOf order patches.old }
    requires apart { ArePatchesApart patches.old }
    requires own { AreOwned ranks patches.old owners.now }
    requires coarser { IfSome coarser (λ k. AreOwned ranks (patches_of k.0.now) k.1.now) }
    ensures filled { OnOk result (All (HasGhostValues p.now l (masses_in patches.old) (old_masses (option_map (λ k. k.0.now) coarser.entry))) patches.new) }
    ensures marks { AllZip SameFrameMarks patches.old patches.new }
    ensures masses { AllZip SameMasses patches.old patches.new }
    ensures corners { AllZip KeepsCorners patches.old patches.new }
    ensures fluxes { AllZip SameFluxes patches.old patches.new }
    ensures boxes { map box patches.new ≡ map box patches.old }
    ensures unchanged { OnErr result (patches.new ≡ patches.old) }
{
    let own = OwnedPatches {
        patches: &*patches,
        order,
        owners,
    };
    let told = frames_told(rt, alloc, p, l, own, coarser, ranks)?;
    fill_frames(p, l, patches, owners, told.as_slice());
    Ok(())
}
