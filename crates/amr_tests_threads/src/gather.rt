//! Totals of ranks, brought together.

use amr_gather::Gather;
use std::test::Fail;

/// Three ranks with two words each. Of one that is set twice the last counts, and each word has the sum over all ranks.
#[test]
fn totals_of_three_ranks_are_added_up(rt: HostRuntime) -> Result<(), Fail> {
    let mut gather = Gather::make(rt.alloc(), 3, 2)?;
    gather.set(0, &[1, 20]);
    gather.set(2, &[900, 900]);
    gather.set(1, &[3, 40]);
    gather.set(2, &[5, 60]);
    let node = gather.bring(&rt);
    assert_eq!(rt; node.total(0), 9);
    assert_eq!(rt; node.total(1), 120);
    Ok(())
}
