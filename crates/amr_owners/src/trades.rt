//! Items exchanged with the lists of those who own them.

ghost use Rattle.std.specs.Prelude.{◌≡◌, ◌<◌, length, map};
ghost use Rattle.std.specs.List.{All};
ghost use Rattle.amr_balance.specs.Shares.{lists_in};
ghost use Rattle.amr_owners.specs.Owners.{AreOwners, HaveExchanged, HaveTraded, Rises};

/// Exchanges the items with these numbers, which rise, with those of a list, in order. No memory is taken.
pub fn trade<T>(items: &mut [T], list: &mut [T], numbers: &[u32])
    requires rises { Rises numbers.now }
    requires within { All (λ n. n < length items.old) numbers.now }
    requires places { length list.old ≡ length numbers.now }
    ensures { HaveTraded numbers.now items.old list.old items.new list.new }
{
    for k in 0..numbers.len() {
        std::mem::swap(&mut items[numbers[k] as usize], &mut list[k]);
    }
}

/// Exchanges the items that each rank owns with those of the rank's list, in order: it hands the items over, and, called again,
/// takes them back. Each list has as many places as its rank owns items. No memory is taken.
pub fn exchange<T>(items: &mut [T], lists: &mut [Vec<T>], numbers: &[Vec<u32>])
    requires owners { AreOwners (lists_in numbers.now) (length lists.old) (length items.old) }
    requires places { map length (lists_in lists.old) ≡ map length (lists_in numbers.now) }
    ensures { HaveExchanged (lists_in numbers.now) items.old (lists_in lists.old) items.new (lists_in lists.new) }
{
    for rank in 0..numbers.len() {
        trade(items, &mut lists[rank], &numbers[rank]);
    }
}
