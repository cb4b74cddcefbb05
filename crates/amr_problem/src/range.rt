//! Ranges of numbers.

ghost use Rattle.std.specs.Prelude.{◌≡◌, option_map, find, not};
ghost use Rattle.std.specs.List.{zip};
ghost use Rattle.amr_problem.specs.Keys.{is_even, is_among, holds, first_outside, first_beyond};

/// Which of the whole numbers between two ends.
#[derive(Clone, Copy, PartialEq, Eq)]
pub enum Among {
    Every,
    Even,
    /// 2, 4 and 8.
    TwoFourEight,
}

/// The whole numbers from `low` to `high`, both inside, or some of them.
#[derive(Clone, Copy, PartialEq, Eq)]
pub struct Range {
    pub low: i64,
    pub high: i64,
    pub among: Among,
}

impl Range {
    pub fn holds(self, number: i64) -> bool
        ensures { result ≡ holds self number }
    {
        self.low <= number && number <= self.high && is_among(self.among, number)
    }
}

fn is_among(among: Among, number: i64) -> bool
    ensures { result ≡ is_among among number }
{
    match among {
        Among::Every => true,
        Among::Even => is_even(number),
        Among::TwoFourEight => number == 2 || number == 4 || number == 8,
    }
}

fn is_even(number: i64) -> bool
    ensures { result ≡ is_even number }
{
    number.unsigned_abs() % 2 == 0
}

/// The first of the numbers that is out of its range.
pub fn first_outside(ranges: &[Range], numbers: &[i64]) -> Option<i64>
    ensures { result ≡ first_outside ranges.now numbers.now }
{
    match outside(ranges, numbers) {
        Some((_, number)) => Some(*number),
        None => None,
    }
}

fn outside<'a>(ranges: &'a [Range], numbers: &'a [i64]) -> Option<(&'a Range, &'a i64)>
    ensures { option_map (λ e. (e.0.now, e.1.now)) result ≡ find (λ e. not (holds e.0 e.1)) (zip ranges.now numbers.now) }
{
    ranges
        .iter()
        .zip(numbers)
        .find(|(range, number)| !range.holds(**number))
}

/// The first of the numbers that is out of the one range of all.
pub fn first_beyond(range: Range, numbers: &[i64]) -> Option<i64>
    ensures { result ≡ first_beyond range numbers.now }
{
    match beyond(range, numbers) {
        Some(number) => Some(*number),
        None => None,
    }
}

fn beyond(range: Range, numbers: &[i64]) -> Option<&i64>
    ensures { option_map (λ z. z.now) result ≡ find (λ z. not (holds range z)) numbers.now }
{
    numbers.iter().find(|number| !range.holds(**number))
}
