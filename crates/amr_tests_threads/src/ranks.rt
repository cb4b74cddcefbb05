//! Letters between ranks.

ghost use Rattle.std.specs.Prelude.{◌≡◌, ◌+◌, ◌<◌, ◌≤◌, [], OnOk, length, slice_index};

use amr_ranks::{Item, Letter, Net, NetEvent, Node, Taken};
use std::alloc::{AllocError, Global};
use std::process::Abort;
use std::test::Fail;

// The node of rank 0 takes the letter with this number, which has one share, of word 0.
fn take(alloc: Global, node: &mut Node, number: u32, amount: u64) -> Result<Taken, AllocError>
    requires rank { node.old.rank ≡ 0 }
    requires cells { node.old.cells ≡ [] }
    requires words { length node.old.totals ≡ 1 }
    requires small { slice_index node.old.totals 0 + amount < 2000 }
    ensures rank { OnOk result (node.new.rank ≡ 0) }
    ensures cells { OnOk result (node.new.cells ≡ []) }
    ensures words { OnOk result (length node.new.totals ≡ 1) }
    ensures total { OnOk result (slice_index node.new.totals 0 ≤ slice_index node.old.totals 0 + amount) }
{
    let letter = Letter::make(
        number,
        0,
        vec![in alloc; Item::Share { word: 0, amount }; 1]?,
    );
    Ok(node.take(&letter))
}

// The node takes letters with these numbers and amounts in turn, and so they are to it.
fn take_all(
    rt: &impl Abort,
    alloc: Global,
    node: &mut Node,
    letters: &[(u32, u8, Taken)],
) -> Result<(), AllocError>
    requires rank { node.old.rank ≡ 0 }
    requires cells { node.old.cells ≡ [] }
    requires words { length node.old.totals ≡ 1 }
    requires nothing { slice_index node.old.totals 0 ≡ 0 }
    requires few { length letters.now ≤ 4 }
    ensures words { OnOk result (length node.new.totals ≡ 1) }
{
    for letter in letters {
        let (number, amount, wanted) = *letter;
        let taken = take(alloc, node, number, u64::from(amount))?;
        assert_eq!(rt; taken, wanted, "letter {number}");
    }
    Ok(())
}

/// A node with the numbers 0 and 1, and shares 3 and 5: each counts once, in whatever order they come, and a number that is none
/// of the node's never.
#[test]
fn a_number_counts_once(rt: HostRuntime) -> Result<(), Fail> {
    let alloc = rt.alloc();
    let mut node = Node::make(alloc, 0, Vec::from_array(alloc, [0, 1])?, 1, 0)?;
    let letters = [
        (1, 5, Taken::New),
        (0, 3, Taken::New),
        (1, 5, Taken::Again),
        (7, 9, Taken::Stranger),
    ];
    take_all(&rt, alloc, &mut node, &letters)?;
    assert!(rt; node.ready());
    assert_eq!(rt; node.total(0), 8);
    Ok(())
}

/// A letter that wasn't sent doesn't come, and one that was comes as often as it may.
#[test]
fn a_letter_comes_once_sent(rt: HostRuntime) -> Result<(), Fail> {
    let alloc = rt.alloc();
    let mut net = Net::make(alloc, Vec::new(alloc), 2, 1, 0)?;
    assert!(rt; !net.step(NetEvent::Post(0)));
    assert!(rt; !net.step(NetEvent::Deliver(0)));
    Ok(())
}
