//! Where the tags of a part begin and end along an axis, by halving: each look counts bits, a word at a time.

ghost use Rattle.std.specs.Prelude.{◌≡◌, true, false, pos, ◌+ℤ◌, ◌-ℤ◌, ◌*◌, ◌≤ℤ◌, ◌<ℤ◌, length};
ghost use Rattle.amr_box.specs.Cells.{IsNear, along, height, width};
ghost use Rattle.amr_tags.specs.Bits.{words_for};
ghost use Rattle.amr_tags.specs.Stored.{IsPart};
ghost use Rattle.amr_tags.specs.Edges.{HasNoneAbove, HasNoneBelow, HasOne, HasOneFrom, HasOneUpTo, in_part};
ghost use Rattle.amr_tags.specs.TagSets.{IsLeastBox};

use crate::scan;
use amr_box::{Axis, Bx, Cell};

/// Whether a tag of the part lies up to a coordinate, which leaves a part above it.
fn has_tags_up_to(words: &[u64], b: &Bx, part: &Bx, axis: Axis, last: i32) -> bool
    requires near { IsNear b.now }
    requires part { IsPart b.now part.now }
    requires count { length words.now ≡ height b.now * words_for (width b.now) }
    requires from_low { along axis part.now.lo ≤ℤ last }
    requires below_high { last <ℤ along axis part.now.hi }
    ensures yes { result ≡ true → HasOneUpTo (in_part b.now words.now part.now) axis last }
    ensures no { result ≡ false → HasNoneBelow (in_part b.now words.now part.now) axis (last +ℤ pos 1) }
{
    let (below, _above) = part.cut_at(axis, last + 1);
    scan::count_part(words, b, &below) > 0
}

/// Whether a tag of the part lies from a coordinate on, which leaves a part below it.
fn has_tags_from(words: &[u64], b: &Bx, part: &Bx, axis: Axis, first: i32) -> bool
    requires near { IsNear b.now }
    requires part { IsPart b.now part.now }
    requires count { length words.now ≡ height b.now * words_for (width b.now) }
    requires above_low { along axis part.now.lo <ℤ first }
    requires to_high { first ≤ℤ along axis part.now.hi }
    ensures yes { result ≡ true → HasOneFrom (in_part b.now words.now part.now) axis first }
    ensures no { result ≡ false → HasNoneAbove (in_part b.now words.now part.now) axis (first -ℤ pos 1) }
{
    let (_, above) = part.cut_at(axis, first);
    scan::count_part(words, b, &above) > 0
}

/// A number between two: the lower half begins at it or below.
fn between(low: i32, high: i32) -> i32
    requires order { low <ℤ high }
    requires near { (high -ℤ low) <ℤ pos 67108864 }
    ensures from_low { low ≤ℤ result }
    ensures below_high { result <ℤ high }
{
    let gap = scan::offset(low, high);
    low + (gap / 2) as i32
}

/// The half of a range of coordinates that the lowest tag is in, as it is in the whole.
fn narrowed_low(words: &[u64], b: &Bx, part: &Bx, axis: Axis, low: i32, high: i32) -> (i32, i32)
    requires near { IsNear b.now }
    requires part { IsPart b.now part.now }
    requires count { length words.now ≡ height b.now * words_for (width b.now) }
    requires from_low { along axis part.now.lo ≤ℤ low }
    requires to_high { high ≤ℤ along axis part.now.hi }
    requires order { low <ℤ high }
    requires none_below { HasNoneBelow (in_part b.now words.now part.now) axis low }
    requires one_there { HasOneUpTo (in_part b.now words.now part.now) axis high }
    ensures none_below { HasNoneBelow (in_part b.now words.now part.now) axis result.0 }
    ensures one_there { HasOneUpTo (in_part b.now words.now part.now) axis result.1 }
    ensures from_low { low ≤ℤ result.0 }
    ensures in_order { result.0 ≤ℤ result.1 }
    ensures to_high { result.1 ≤ℤ high }
    ensures smaller { (result.1 -ℤ result.0) <ℤ (high -ℤ low) }
{
    let middle = between(low, high);
    if has_tags_up_to(words, b, part, axis, middle) {
        (low, middle)
    } else {
        (middle + 1, high)
    }
}

/// The lowest coordinate of a tag of the part along an axis.
pub fn low_edge(words: &[u64], b: &Bx, part: &Bx, axis: Axis) -> i32
    requires near { IsNear b.now }
    requires part { IsPart b.now part.now }
    requires count { length words.now ≡ height b.now * words_for (width b.now) }
    requires some { HasOne (in_part b.now words.now part.now) }
    ensures none_below { HasNoneBelow (in_part b.now words.now part.now) axis result }
    ensures one_there { HasOneUpTo (in_part b.now words.now part.now) axis result }
{
    let mut low = low_of(part, axis);
    let mut high = high_of(part, axis);
    while low < high {
        let next = narrowed_low(words, b, part, axis, low, high);
        low = next.0;
        high = next.1;
    }
    low
}

/// The half of a range of coordinates that the highest tag is in, as it is in the whole.
fn narrowed_high(words: &[u64], b: &Bx, part: &Bx, axis: Axis, low: i32, high: i32) -> (i32, i32)
    requires near { IsNear b.now }
    requires part { IsPart b.now part.now }
    requires count { length words.now ≡ height b.now * words_for (width b.now) }
    requires from_low { along axis part.now.lo ≤ℤ low }
    requires to_high { high ≤ℤ along axis part.now.hi }
    requires order { low <ℤ high }
    requires none_above { HasNoneAbove (in_part b.now words.now part.now) axis high }
    requires one_there { HasOneFrom (in_part b.now words.now part.now) axis low }
    ensures none_above { HasNoneAbove (in_part b.now words.now part.now) axis result.1 }
    ensures one_there { HasOneFrom (in_part b.now words.now part.now) axis result.0 }
    ensures from_low { low ≤ℤ result.0 }
    ensures in_order { result.0 ≤ℤ result.1 }
    ensures to_high { result.1 ≤ℤ high }
    ensures smaller { (result.1 -ℤ result.0) <ℤ (high -ℤ low) }
{
    let middle = between(low, high);
    if has_tags_from(words, b, part, axis, middle + 1) {
        (middle + 1, high)
    } else {
        (low, middle)
    }
}

/// The highest coordinate of a tag of the part along an axis.
pub fn high_edge(words: &[u64], b: &Bx, part: &Bx, axis: Axis) -> i32
    requires near { IsNear b.now }
    requires part { IsPart b.now part.now }
    requires count { length words.now ≡ height b.now * words_for (width b.now) }
    requires some { HasOne (in_part b.now words.now part.now) }
    ensures none_above { HasNoneAbove (in_part b.now words.now part.now) axis result }
    ensures one_there { HasOneFrom (in_part b.now words.now part.now) axis result }
{
    let mut low = low_of(part, axis);
    let mut high = high_of(part, axis);
    while low < high {
        let next = narrowed_high(words, b, part, axis, low, high);
        low = next.0;
        high = next.1;
    }
    high
}

/// The lowest coordinate of a box on an axis.
fn low_of(part: &Bx, axis: Axis) -> i32
    ensures { result ≡ along axis part.now.lo }
{
    let low = part.lo();
    match axis {
        Axis::X => low.x,
        Axis::Y => low.y,
    }
}

/// The highest.
fn high_of(part: &Bx, axis: Axis) -> i32
    ensures { result ≡ along axis part.now.hi }
{
    let high = part.hi();
    match axis {
        Axis::X => high.x,
        Axis::Y => high.y,
    }
}

/// The least box round the tags of the part, which has one.
pub fn least(words: &[u64], b: &Bx, part: &Bx) -> Bx
    requires near { IsNear b.now }
    requires part { IsPart b.now part.now }
    requires count { length words.now ≡ height b.now * words_for (width b.now) }
    requires some { HasOne (in_part b.now words.now part.now) }
    ensures { IsLeastBox result (in_part b.now words.now part.now) }
{
    let west = low_edge(words, b, part, Axis::X);
    let south = low_edge(words, b, part, Axis::Y);
    let east = high_edge(words, b, part, Axis::X);
    let north = high_edge(words, b, part, Axis::Y);
    let lo = Cell { x: west, y: south };
    let hi = Cell { x: east, y: north };
    Bx::try_new(lo, hi).unwrap()
}
