//! Totals of ranks, brought to one of them.

ghost use Rattle.std.specs.Prelude.{◌≡◌, ◌≤◌, ◌<◌, IfOk, length, replicate, slice_set};
ghost use Rattle.amr_post.specs.Letters.{HasDelivered, MayDeliver};
ghost use Rattle.amr_gather.specs.Held.{Holds, letters_from, shares_from, totals_told};

use amr_causes::NoMemory;
use amr_post::{Rank, round};
use amr_ranks::{Item, Letter, Node};
use std::alloc::Global;
use std::marker::Model;
use std::sync::Wait;
use std::thread::Threads;

/// The totals of each rank, one for each word, on their way to rank 0.
#[derive(Drop)]
pub struct Gather {
    rank: Rank,
}

impl Model for Gather {
    ghost use Rattle.amr_gather.specs.Totals.{Totals};
    ghost use Rattle.amr_gather.specs.Held.{Holds, totals_told};

    ghost Value = { Totals };

    ghost view = { λ g. totals_told g.rank };

    ghost invariant = { λ g. Holds g.rank (totals_told g.rank) };
}

/// A share of amount 0 for each word.
fn no_shares(alloc: Global, words: u32) -> Result<Vec<Item>, NoMemory>
    ensures { IfOk result (λ v. v.items ≡ shares_from 0 (replicate words 0)) }
{
    let mut shares = Vec::with_capacity(alloc, words as usize)?;
    for word in 0..words {
        shares.push(Item::Share { word, amount: 0 })?;
    }
    Ok(shares)
}

/// A letter from each rank, each with such shares.
fn first_letters(alloc: Global, ranks: u32, words: u32) -> Result<Vec<Letter>, NoMemory>
    ensures { IfOk result (λ v. v.items ≡ letters_from 0 (replicate ranks (replicate words 0))) }
{
    let mut letters = Vec::with_capacity(alloc, ranks as usize)?;
    for from in 0..ranks {
        letters.push(Letter::make(from, 0, no_shares(alloc, words)?))?;
    }
    Ok(letters)
}

/// Rank 0 with a letter from each rank.
fn rank_for(alloc: Global, ranks: u32, words: u32) -> Result<Rank, NoMemory>
    requires { ranks ≤ 8 }
    ensures { IfOk result (λ r. Holds r (record { words = words; lists = replicate ranks (replicate words 0) })) }
{
    let letters = first_letters(alloc, ranks, words)?;
    let Ok(rank) = Rank::make(alloc, 0, letters, words, 0) else {
        return Err(NoMemory);
    };
    Ok(rank)
}

/// The letter from one of the ranks says these totals.
fn set_letter(rank: &mut Rank, from: u32, totals: &[u64])
    requires held { Holds rank.old (totals_told rank.old) }
    requires from { from < length (totals_told rank.old).lists }
    requires words { length totals.now ≡ (totals_told rank.old).words }
    ensures held { Holds rank.new (totals_told rank.new) }
    ensures told { totals_told rank.new ≡ record (totals_told rank.old) { lists = slice_set (totals_told rank.old).lists from totals.now } }
{
    rank.post.set_amounts(from, totals);
}

/// The round: all letters are sent, are joined, and are then received.
fn bring_rank<R: Threads + Wait + Sync>(rt: &R, rank: Rank) -> Node
    requires { MayDeliver rank.post rank.node }
    ensures { HasDelivered rank.post rank.node result }
{
    let mut ranks = [rank];
    round(rt, &mut ranks);
    let [rank] = ranks;
    rank.node
}

impl Gather {
    ghost use Rattle.std.specs.Prelude.{◌≡◌, ◌≤◌, ◌<◌, IfOk, length, map, replicate, slice_set};
    ghost use Rattle.std.specs.List.{range_with_len};
    ghost use Rattle.amr_gather.specs.Totals.{AreSumsSmall, sum_at};

    /// For so many ranks and words: each rank has 0 for each word. All memory of the round is taken here. It is refused only if allocation
    /// fails.
    pub fn make(alloc: Global, ranks: u32, words: u32) -> Result<Gather, NoMemory>
        requires { ranks ≤ 8 }
        ensures { IfOk result (λ g. g ≡ record { words = words; lists = replicate ranks (replicate words 0) }) }
    {
        let rank = rank_for(alloc, ranks, words)?;
        Ok(Gather { rank })
    }

    /// This rank has these totals, one for each word, in place of those that it had. Those of the others stay.
    pub fn set(&mut self, from: u32, totals: &[u64])
        requires from { from < length self.old.lists }
        requires words { length totals.now ≡ self.old.words }
        ensures { self.new ≡ record self.old { lists = slice_set self.old.lists from totals.now } }
    {
        set_letter(&mut self.rank, from, totals);
    }

    /// One round of letters over channels: the node of rank 0 then has as its totals, word by word, the sums over all ranks. No memory is taken.
    pub fn bring<R: Threads + Wait + Sync>(self, rt: &R) -> Node
        requires { AreSumsSmall self }
        ensures { result.totals ≡ map (sum_at self.lists) (range_with_len 0 self.words) }
    {
        let Gather { rank } = self;
        bring_rank(rt, rank)
    }
}
