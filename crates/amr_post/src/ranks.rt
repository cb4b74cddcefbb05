//! A round between ranks: all send, are joined, and then receive.

ghost use Rattle.std.specs.Prelude.{◌≡◌, ◌<◌, ℕ, length, slice_index_or, IfOk};
ghost use Rattle.std.specs.List.{All};
ghost use Rattle.amr_ranks.specs.Letters.{numbers_of};
ghost use Rattle.amr_ranks.specs.Nodes.{fresh_node};
ghost use Rattle.amr_post.specs.declared.ranks.Rank.{Rank};
ghost use Rattle.amr_post.specs.Letters.{HasDelivered, IsRankChannel, MayDeliver, letters_in};

use crate::post::RankChannel;
use amr_causes::NoMemory;
use amr_ranks::{Letter, Node};
use std::alloc::Global;
use std::sync::Wait;
use std::thread::{Threads, for_each_mut};

/// A rank of a round: the letters to it, and its node.
#[derive(Drop)]
pub struct Rank {
    pub post: RankChannel,
    pub node: Node,
}

impl Rank {
    ghost use Rattle.std.specs.Prelude.{◌≡◌, ◌+◌, ◌≤◌, length, IfErr, IfOk};
    ghost use Rattle.std.specs.List.{All};
    ghost use Rattle.amr_ranks.specs.Letters.{IsNet, numbers_of};
    ghost use Rattle.amr_ranks.specs.Nodes.{fresh_node};
    ghost use Rattle.amr_post.specs.Amounts.{IsUnsent};
    ghost use Rattle.amr_post.specs.Letters.{AreSame, MayDeliver, letters_in};

    /// This rank with the letters to it, at most one from each of eight, and a node for them with totals of so many words and room for so many
    /// cells. All memory of the round is taken here: where it runs out the letters come back.
    pub fn make(
        alloc: Global,
        rank: u32,
        letters: Vec<Letter>,
        words: u32,
        cells: usize,
    ) -> Result<Rank, Vec<Letter>>
        requires few { length letters.items ≤ 8 }
        requires own { All (λ l. l.to ≡ rank) letters.items }
        requires net { IsNet letters.items (rank + 1) words cells }
        ensures ready { IfOk result (λ r. MayDeliver r.post r.node) }
        ensures letters { IfOk result (λ r. AreSame (letters_in r.post.parcels.items) letters.items) }
        ensures unsent { IfOk result (λ r. IsUnsent r.post) }
        ensures node { IfOk result (λ r. r.node ≡ fresh_node rank (numbers_of letters.items) words cells) }
        ensures back { IfErr result (λ back. back.items ≡ letters.items) }
    {
        let Ok(node) = node_for(alloc, rank, letters.as_slice(), words, cells) else {
            return Err(letters);
        };
        let post = RankChannel::open(alloc, letters)?;
        Ok(Rank { post, node })
    }
}

/// The node of a rank, for these letters.
fn node_for(
    alloc: Global,
    rank: u32,
    letters: &[Letter],
    words: u32,
    cells: usize,
) -> Result<Node, NoMemory>
    ensures { IfOk result (λ n. n ≡ fresh_node rank (numbers_of letters.now) words cells) }
{
    let numbers = letters.iter().map(|letter| letter.number()).collect(alloc)?;
    Node::make(alloc, rank, numbers, words, cells)
}

/// The letters to each rank are sent, by so many threads.
fn send_each<R: Threads + Wait + Sync>(rt: &R, threads: usize, ranks: &mut [Rank])
    requires some { 0 < threads }
    requires ready { All (λ rank. MayDeliver rank.post rank.node) ranks.old }
    ensures ready { All (λ rank. MayDeliver rank.post rank.node) ranks.new }
    ensures letters { (k : ℕ) (d : Rank) → k < length ranks.old
        → (letters_in (slice_index_or ranks.new k d).post.parcels.items ≡ letters_in (slice_index_or ranks.old k d).post.parcels.items)
        × ((slice_index_or ranks.new k d).node ≡ (slice_index_or ranks.old k d).node) }
{
    let go = move |_: usize, rank: &mut Rank|
        requires { (0 < threads) × IsRankChannel rank.now.post }
        ensures { IsRankChannel rank.exit.now.post × (letters_in rank.exit.now.post.parcels.items ≡ letters_in rank.entry.now.post.parcels.items)
            × (rank.exit.now.node ≡ rank.entry.now.node) }
    { rank.post.send(rt, threads) };
    for_each_mut(rt, ranks, 1, &go);
}

/// Each rank receives, in a thread of its own.
fn deliver_each<R: Threads + Wait + Sync>(rt: &R, threads: usize, ranks: &mut [Rank])
    requires some { 0 < threads }
    requires ready { All (λ rank. MayDeliver rank.post rank.node) ranks.old }
    ensures { (k : ℕ) (d : Rank) → k < length ranks.old
        → HasDelivered (slice_index_or ranks.old k d).post (slice_index_or ranks.old k d).node (slice_index_or ranks.new k d).node }
{
    let go = move |_: usize, rank: &mut Rank|
        requires { MayDeliver rank.now.post rank.now.node }
        ensures { HasDelivered rank.entry.now.post rank.entry.now.node rank.exit.now.node }
    { rank.post.deliver(rt, &mut rank.node) };
    for_each_mut(rt, ranks, threads, &go);
}

/// One round: the letters to each rank are sent, each by a thread of its own, and these are joined. Then each rank receives as often as letters
/// were sent to it, in a thread of its own, and its node takes them, with those that a shut channel handed back. No letter waits for another,
/// and no memory is taken.
pub fn round<R: Threads + Wait + Sync>(rt: &R, ranks: &mut [Rank])
    requires { All (λ rank. MayDeliver rank.post rank.node) ranks.old }
    ensures { (k : ℕ) (d : Rank) → k < length ranks.old
        → HasDelivered (slice_index_or ranks.old k d).post (slice_index_or ranks.old k d).node (slice_index_or ranks.new k d).node }
{
    let threads = ranks.len();
    if threads == 0 {
        return;
    }
    send_each(rt, threads, ranks);
    deliver_each(rt, threads, ranks);
}
