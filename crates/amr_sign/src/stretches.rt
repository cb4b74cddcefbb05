//! Counts of the bits of each column by stretches: a stretch of bits of a row takes two steps, however long it is.

ghost use Rattle.std.specs.Prelude.{◌≡◌, ℕ, ◌+◌, ◌-◌, ◌*◌, ◌^◌, ◌<◌, ◌≤◌, ◌&&◌, ◌==◌, not, length, EachIndex, slice_index};
ghost use Rattle.std.specs.Int.{bit_at};
ghost use Rattle.amr_sign.specs.Counts.{bit, count_to};
ghost use Rattle.amr_sign.specs.Stretches.{begins, ends, in_span, open_stretches};
ghost use Rattle.amr_sign.specs.Words.{row_bit};

use crate::words::{BITS, add_word, masked_word};

/// The bits of a word one place up, with a new first one.
fn raised(word: u64, first: bool) -> u64
    ensures first { (bit_at result 0 == 1) ≡ first }
    ensures others { (i : ℕ) → i < 63 → (bit_at result (i + 1) == 1) ≡ (bit_at word i == 1) }
{
    (word << 1) | u64::from(first)
}

/// The last bit of a word.
fn last_bit(word: u64) -> bool
    ensures { result ≡ (bit_at word 63 == 1) }
{
    (word >> 63) & 1 == 1
}

/// The bits of a word that are not bits of another.
fn apart_from(word: u64, other: u64) -> u64
    ensures { (i : ℕ) → (bit_at result i == 1) ≡ ((bit_at word i == 1) && not (bit_at other i == 1)) }
{
    word & (word ^ other)
}

/// Counts the bits of a row from `low` to `high`, both inside. In each column, of which 0 is `low`, it counts the
/// stretches of bits that begin there, and those that end in the column before. It takes one look at each word.
pub fn add_row_stretches(
    begun: &mut [u32],
    ended: &mut [u32],
    row: &[u64],
    low: usize,
    high: usize,
) -> u32
    requires order { low ≤ high }
    requires inside { high < 64 * length row.now }
    requires short { high < 2 ^ 31 }
    requires all_begun { length begun.old ≡ high + 1 - low }
    requires all_ended { length ended.old ≡ high + 2 - low }
    requires room_begun { EachIndex begun.old (λ c. slice_index begun.old c < 2 ^ 31) }
    requires room_ended { EachIndex ended.old (λ c. slice_index ended.old c < 2 ^ 31) }
    ensures begun { EachIndex begun.new (λ c. slice_index begun.new c
        ≡ slice_index begun.old c + bit (begins (in_span row.now low high) (low + c))) }
    ensures ended { (c : ℕ) → low + c ≤ high → slice_index ended.new c
        ≡ slice_index ended.old c + bit (ends (in_span row.now low high) (low + c)) }
    ensures room { EachIndex ended.new (λ c. slice_index ended.new c ≤ slice_index ended.old c + 1) }
    ensures count { result ≡ count_to (λ i. row_bit row.now (low + i)) (high + 1 - low) }
{
    let mut count = 0;
    let mut before = false;
    for k in low / BITS..high / BITS + 1 {
        let word = masked_word(row, k, low, high);
        if word == 0 && !before {
            continue;
        }
        let lifted = raised(word, before);
        count += word.count_ones();
        add_word(begun, apart_from(word, lifted), BITS * k, low);
        add_word(ended, apart_from(lifted, word), BITS * k, low);
        before = last_bit(word);
    }
    count
}

/// How many stretches go through each column, from those that begin there and those that end in the column before.
pub fn count_open(counts: &mut [u32], ended: &[u32])
    requires enough { length counts.old ≤ length ended.now }
    requires fits { EachIndex counts.old (λ i. (slice_index ended.now i ≤ open_stretches (slice_index counts.old) (slice_index ended.now) i)
        × ((open_stretches (slice_index counts.old) (slice_index ended.now) i - slice_index ended.now i) + slice_index counts.old i < 2 ^ 32)) }
    ensures { EachIndex counts.new (λ i. slice_index counts.new i ≡ open_stretches (slice_index counts.old) (slice_index ended.now) (i + 1)) }
{
    let mut count = 0;
    for i in 0..counts.len() {
        count = count - ended[i] + counts[i];
        counts[i] = count;
    }
}
