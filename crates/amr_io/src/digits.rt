//! How many decimal digits a number has.
ghost use Rattle.std.specs.Prelude.{◌≡◌, ◌<◌, length, decimal};

/// The number of decimal digits of `n`.
pub(crate) fn count_digits(n: u64) -> usize
    ensures { result ≡ length (decimal n) }
{
    let mut left = n;
    let mut after = 0;
    while left >= 10_000 {
        left /= 10_000;
        after += 4;
    }
    count_few(left) + after
}

fn count_few(n: u64) -> usize
    requires { n < 10000 }
    ensures { result ≡ length (decimal n) }
{
    if n < 10 {
        return 1;
    }
    if n < 100 {
        return 2;
    }
    if n < 1000 {
        return 3;
    }
    4
}
