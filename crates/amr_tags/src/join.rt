//! The bits of two sets of rows together, a word at a look.

ghost use Rattle.std.specs.Prelude.{◌≡◌, ℕ, length, slice_index, bit_or};

/// Adds the bits of other rows.
pub fn join_words(words: &mut Vec<u64>, other: &[u64])
    requires { length other.now ≡ length words.old.items }
    ensures each { (k : ℕ) → slice_index words.new.items k ≡ bit_or (slice_index words.old.items k) (slice_index other.now k) }
    ensures count { length words.new.items ≡ length words.old.items }
{
    for k in 0..words.len() {
        words[k] = words[k] | other[k];
    }
}
