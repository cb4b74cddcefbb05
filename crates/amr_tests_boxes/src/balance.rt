//! Tasks shared out among workers.

use amr_balance::share;
use std::test::Fail;

/// Loads of 5, 4 and 3 on two workers: the greatest is 7, and twice that is no more than all loads and the greatest task, 12 and 5.
#[test]
fn the_second_worker_gets_what_the_first_is_ahead(rt: HostRuntime) -> Result<(), Fail> {
    let lots = share(rt.alloc(), &[5, 4, 3], 2)?;
    let wanted: [&[u32]; 2] = [&[0], &[1, 2]];
    assert_eq!(rt; lots.len(), wanted.len());
    for (lot, tasks) in lots.iter().zip(&wanted) {
        assert!(rt; lot.as_slice() == *tasks);
    }
    Ok(())
}
