//! What a store knows of its slots. They stand in two groups, each of a base and of the records behind it: the bases are the
//! slots 0 and `1 + deltas`. In versions 1 and 2 no record follows a base.
ghost use Rattle.std.specs.Prelude.{◌≡◌, ◌≤◌, ◌<◌, ◌+◌, ◌^◌, length};
ghost use Rattle.amr_store.specs.Layout.{end_of, gate_at, lead_length};
ghost use Rattle.amr_store.specs.Table.{slot_count, slot_at, is_latest, is_tie, is_tied, next_base, latest_base, is_front};
ghost use Rattle.amr_store.specs.Table.{stands_on, chain_of, last_of, is_above, is_stray, IsFirstStray};

/// What a store knows of an open slot; its payload stays on the disk.
#[derive(Clone, Copy, Debug, PartialEq, Eq)]
pub struct Slot {
    pub sequence: u64,
    pub length: u64,
    // The number in the first eight bytes of its payload, where it has so many.
    pub front: Option<u64>,
}

// Whether both are open with one sequence.
fn is_tie(first: Option<Slot>, second: Option<Slot>) -> bool
    ensures { result ≡ is_tie first second }
{
    match (first, second) {
        (Some(first), Some(second)) => first.sequence == second.sequence,
        (Some(_), None) => false,
        (None, _) => false,
    }
}

// Whether the first of two bases holds the latest state.
fn is_latest(first: Option<Slot>, second: Option<Slot>) -> bool
    ensures { result ≡ is_latest first second }
{
    match (first, second) {
        (None, _) => false,
        (Some(_), None) => true,
        (Some(first), Some(second)) => second.sequence < first.sequence,
    }
}

// Whether both bases are open with one sequence.
#[tactic(auto, unfolding(crate::specs::Table::is_tied))]
pub fn is_tied(slots: &[Option<Slot>], deltas: usize) -> bool
    requires few { deltas ≤ 7 }
    requires all { length slots.now ≡ slot_count deltas }
    ensures { result ≡ is_tied deltas slots.now }
{
    is_tie(slots[0], slots[1 + deltas])
}

// The base that is written next.
#[tactic(auto, unfolding(crate::specs::Table::next_base))]
pub fn next_base(slots: &[Option<Slot>], deltas: usize) -> usize
    requires few { deltas ≤ 7 }
    requires all { length slots.now ≡ slot_count deltas }
    ensures base { result ≡ next_base deltas slots.now }
    ensures within { result ≤ 1 + deltas }
{
    if is_latest(slots[0], slots[1 + deltas]) {
        1 + deltas
    } else {
        0
    }
}

// The base that holds the latest state, where a base is open.
#[tactic(auto, unfolding(crate::specs::Table::latest_base))]
pub fn latest_base(slots: &[Option<Slot>], deltas: usize) -> usize
    requires few { deltas ≤ 7 }
    requires all { length slots.now ≡ slot_count deltas }
    ensures base { result ≡ latest_base deltas slots.now }
    ensures within { result ≤ 1 + deltas }
{
    if is_latest(slots[0], slots[1 + deltas]) {
        0
    } else {
        1 + deltas
    }
}

// Whether both are open, and the second is a record on the first.
fn stands_on(first: Option<Slot>, second: Option<Slot>) -> bool
    ensures { result ≡ stands_on first second }
{
    match (first, second) {
        (Some(below), Some(slot)) => is_front(below.sequence, slot.front)
            && below.sequence < slot.sequence,
        (Some(_), None) => false,
        (None, _) => false,
    }
}

// Whether a payload begins with this sequence.
fn is_front(sequence: u64, front: Option<u64>) -> bool
    ensures { result ≡ is_front sequence front }
{
    match front {
        Some(front) => front == sequence,
        None => false,
    }
}

// Whether a payload begins with a sequence above this one.
fn is_above(last: u64, front: Option<u64>) -> bool
    ensures { result ≡ is_above last front }
{
    match front {
        Some(front) => last < front,
        None => false,
    }
}

// How many records count behind the base that holds the latest state.
pub fn chain_of(slots: &[Option<Slot>], deltas: usize) -> usize
    requires few { deltas ≤ 7 }
    requires all { length slots.now ≡ slot_count deltas }
    ensures chain { result ≡ chain_of deltas slots.now }
    ensures within { result ≤ deltas }
{
    let base = latest_base(slots, deltas);
    for count in 0..deltas {
        if !stands_on(slots[base + count], slots[base + count + 1]) {
            return count;
        }
    }
    deltas
}

// The last sequence that counts.
pub fn last_of(slots: &[Option<Slot>], deltas: usize) -> Option<u64>
    requires few { deltas ≤ 7 }
    requires all { length slots.now ≡ slot_count deltas }
    ensures { result ≡ last_of deltas slots.now }
{
    match slots[latest_base(slots, deltas) + chain_of(slots, deltas)] {
        Some(slot) => Some(slot.sequence),
        None => None,
    }
}

// Whether a slot is a record on a sequence above the last one.
#[tactic(auto, unfolding(crate::specs::Table::is_stray))]
fn is_stray(slots: &[Option<Slot>], deltas: usize, k: usize) -> bool
    requires few { deltas ≤ 7 }
    requires all { length slots.now ≡ slot_count deltas }
    requires within { k < slot_count deltas }
    ensures { result ≡ is_stray deltas slots.now k }
{
    if k == 0 {
        return false;
    }
    if k == 1 + deltas {
        return false;
    }
    let last = last_of(slots, deltas).unwrap_or(0);
    match slots[k] {
        Some(slot) => is_above(last, slot.front),
        None => false,
    }
}

// The first record on a sequence above the last one.
pub fn first_stray(slots: &[Option<Slot>], deltas: usize) -> Option<u32>
    requires few { deltas ≤ 7 }
    requires all { length slots.now ≡ slot_count deltas }
    ensures { IsFirstStray deltas slots.now result }
{
    for k in 0..slots.len() {
        if is_stray(slots, deltas, k) {
            return Some(k as u32);
        }
    }
    None
}

// What stands between the head and the first slot: the problem, and in version 3 a byte.
pub fn lead_length(version: u32, text: u64) -> u64
    requires text { text ≤ 65536 }
    ensures length { result ≡ lead_length version text }
    ensures bound { result ≤ 65537 }
{
    if version == 3 { text + 1 } else { text }
}

// Where the gate of a slot stands from the store's first byte on, by the lengths of what stands before the slots and of a slot.
pub fn gate_at(k: usize, lead: u64, size: u64) -> u64
    requires few { k ≤ 15 }
    requires lead { lead ≤ 65537 }
    requires size { size ≤ 2 ^ 40 }
    ensures place { result ≡ gate_at k lead size }
    ensures bound { result + size < 2 ^ 46 }
{
    21 + lead + k as u64 * (17 + size)
}

// Where a store of two slots ends.
pub fn end_of(text: u64, size: u64) -> u64
    requires text { text ≤ 65536 }
    requires size { size ≤ 2 ^ 40 }
    ensures place { result ≡ end_of text size }
    ensures bound { result < 2 ^ 43 }
{
    21 + text + 2 * (17 + size)
}
