//! The length in a job's line.

ghost use Rattle.std.specs.Prelude.{◌≡◌, ℕ, ◌≤◌, decimal, IfSome, IfNone, IsTrue, ◌↔◌};

use itoa::Buffer;
use std::str;

/// The greatest length of a job.
pub(crate) const MOST: u32 = 65_536;

/// Whether these are the digits of a number, as it is written.
fn is_written(digits: &[u8], n: u32) -> bool
    ensures { IsTrue result ↔ (digits.now ≡ decimal n) }
{
    let mut buffer = Buffer::new();
    digits == buffer.format(n).as_bytes()
}

/// The number that these digits write, where they have no leading zeros and it is at most the greatest length of a job.
pub(crate) fn numeral(digits: &[u8]) -> Option<u32>
    ensures found { IfSome result (λ n. digits.now ≡ decimal n) }
    ensures small { IfSome result (λ n. n ≤ 65536) }
    ensures none { IfNone result ((n : ℕ) → n ≤ 65536 → digits.now ≡ decimal n → ⊥) }
{
    let Ok(text) = str::from_utf8(digits) else {
        return None;
    };
    let Ok(n) = text.parse::<u32>() else {
        return None;
    };
    if n > MOST {
        return None;
    }
    if is_written(digits, n) { Some(n) } else { None }
}
