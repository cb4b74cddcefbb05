//! A round of letters over channels.

ghost use Rattle.std.specs.Prelude.{◌≡◌, ◌∷◌, [], IfOk, length};
ghost use Rattle.amr_ranks.specs.declared.item.Item.{Item};
ghost use Rattle.amr_post.specs.Letters.{MayDeliver};

use amr_post::{Rank, round};
use amr_ranks::{Item, Letter};
use std::alloc::{AllocError, Global};
use std::test::Fail;

// A letter to rank 0 with one share, of word 0.
fn share(alloc: Global, number: u32, amount: u64) -> Result<Letter, AllocError>
    ensures { IfOk result (λ l. l ≡ record { number = number; to = 0; items = Item.Share 0 amount ∷ [] }) }
{
    let items = vec![in alloc; Item::Share { word: 0, amount }; 1]?;
    Ok(Letter::make(number, 0, items))
}

// Rank 0 with two letters to it, whose shares are 3 and 5.
fn rank_of_two(alloc: Global) -> Result<Rank, AllocError>
    ensures ready { IfOk result (λ r. MayDeliver r.post r.node) }
    ensures words { IfOk result (λ r. length r.node.totals ≡ 1) }
{
    let mut letters = Vec::new(alloc);
    letters.push(share(alloc, 0, 3)?)?;
    letters.push(share(alloc, 1, 5)?)?;
    match Rank::make(alloc, 0, letters, 1, 0) {
        Ok(rank) => Ok(rank),
        Err(_) => Err(AllocError),
    }
}

/// Each of two letters is sent by a thread of its own. The node of their rank has both after the round.
#[test]
fn two_letters_reach_their_node(rt: HostRuntime) -> Result<(), Fail> {
    let mut ranks = [rank_of_two(rt.alloc())?];
    round(&rt, &mut ranks);
    assert!(rt; ranks[0].node.ready());
    assert_eq!(rt; ranks[0].node.total(0), 8);
    Ok(())
}
