//! Numbers in words.
ghost use Rattle.std.specs.Prelude.{◌≡◌, ◌<◌, ◌^◌, option_and_then};
ghost use Rattle.amr_cli.specs.Numbers.{in_range, number_of};

/// The number that a word writes.
fn number(text: &str) -> Option<u64>
    ensures { result ≡ number_of text.now }
{
    match text.parse::<u64>() {
        Ok(n) => Some(n),
        Err(_) => None,
    }
}

/// The number that a word writes, where it lies in the range.
pub(crate) fn number_between(text: &str, low: u64, high: u64) -> Option<u32>
    requires { high < 2 ^ 32 }
    ensures { result ≡ option_and_then (in_range low high) (number_of text.now) }
{
    let n = number(text)?;
    if low <= n && n <= high {
        Some(n as u32)
    } else {
        None
    }
}
