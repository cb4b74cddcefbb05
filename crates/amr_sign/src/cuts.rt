//! Where to cut a box of tagged cells in two, by its signatures along both axes (Berger and Rigoutsos 1991).
ghost use Rattle.std.specs.Prelude.{◌≡◌, ℕ, ◌+◌, ◌-◌, ◌*◌, ◌/◌, ◌^◌, ◌<◌, ◌≤◌, ◌==◌, ◌-ℤ◌, ◌&&◌, pos, length};
ghost use Rattle.std.specs.Prelude.{cond, None, Some, Option, slice_index, unsigned_abs};
ghost use Rattle.std.specs.Option.{option_map};
ghost use Rattle.amr_def.specs.Signature.{second_difference};
ghost use Rattle.amr_def.specs.Cut.{best_cut, cut_in_order, cut_on, best_hole, best_inflection, middle, nearer, off_middle, opposite, sharper};
ghost use Rattle.amr_sign.specs.Scan.{defined_cut, challenged, inflection_of, is_inflection, is_legal, is_sharper, sharper_cut};

use amr_box::Axis;

/// A cut of a box in two: the part below `at` columns or rows from its low end, and the rest.
#[derive(Clone, Copy, Debug, PartialEq, Eq)]
pub struct Cut {
    /// The axis along which places are counted.
    pub axis: Axis,
    /// How many columns (axis X) or rows (axis Y) the low part has.
    pub at: u32,
}

/// A place where the second difference of a signature changes sign, and by how much it changes there.
#[derive(Clone, Copy)]
struct Inflection {
    at: u32,
    jump: u64,
}

/// `s(j-1) - 2 s(j) + s(j+1)`
fn second_difference(s: &[u32], j: usize) -> i64
    requires low { 0 < j }
    requires high { j + 1 < length s.now }
    ensures { result ≡ second_difference s.now j }
{
    i64::from(s[j - 1]) - 2 * i64::from(s[j]) + i64::from(s[j + 1])
}

fn is_opposite(a: i64, b: i64) -> bool
    ensures { result ≡ opposite a b }
{
    (a < 0 && 0 < b) || (0 < a && b < 0)
}

/// Whether both parts are at least `w` wide.
fn is_legal(w: u32, s: &[u32], i: usize) -> bool
    requires short { length s.now < 2 ^ 32 }
    requires inside { i < length s.now }
    ensures { result ≡ is_legal w s.now i }
{
    let w = w as usize;
    w <= i && w <= s.len() - i
}

/// How far a place is from the middle, in half cells.
fn off_middle(s: &[u32], i: u32) -> u64
    requires { 0 < length s.now }
    ensures { result ≡ off_middle s.now i }
{
    (2 * u64::from(i)).abs_diff(s.len() as u64 - 1)
}

fn is_nearer(s: &[u32], i: u32, j: u32) -> bool
    requires { 0 < length s.now }
    ensures { result ≡ nearer s.now i j }
{
    off_middle(s, i) < off_middle(s, j)
}

/// Of the best hole so far and one after it the nearer to the middle, on a tie the lower.
fn nearer_hole(s: &[u32], best: Option<u32>, at: u32) -> u32
    requires { 0 < length s.now }
    ensures { result ≡ challenged (nearer s.now) best at }
{
    match best {
        None => at,
        Some(b) => { if is_nearer(s, at, b) { at } else { b } }
    }
}

fn inflection_at(s: &[u32], i: usize) -> Option<Inflection>
    requires short { length s.now < 2 ^ 32 }
    requires inside { i < length s.now }
    ensures { result ≡ cond (is_inflection s.now i) (Some (inflection_of s.now i)) None }
{
    if i < 2 || s.len() - i < 2 {
        return None;
    }
    let before = second_difference(s, i - 1);
    let here = second_difference(s, i);
    if is_opposite(before, here) {
        let jump = here.abs_diff(before);
        Some(Inflection { at: i as u32, jump })
    } else {
        None
    }
}

fn is_sharper(s: &[u32], a: Inflection, b: Inflection) -> bool
    requires { 0 < length s.now }
    ensures { result ≡ is_sharper s.now a b }
{
    a.jump > b.jump || a.jump == b.jump && is_nearer(s, a.at, b.at)
}

/// Of the best inflection so far and one after it the sharper, on a tie the nearer to the middle, then the lower.
fn sharper_inflection(s: &[u32], best: Option<Inflection>, next: Inflection) -> Inflection
    requires { 0 < length s.now }
    ensures { result ≡ challenged (is_sharper s.now) best next }
{
    match best {
        None => next,
        Some(b) => { if is_sharper(s, next, b) { next } else { b } }
    }
}

/// The best hole so far, after the place i.
fn hole_after(s: &[u32], best: Option<u32>, i: usize) -> Option<u32>
    requires short { length s.now < 2 ^ 32 }
    requires inside { i < length s.now }
    ensures { result
        ≡ cond (slice_index s.now i == 0) (Some (challenged (nearer s.now) best i)) best }
{
    if s[i] == 0 {
        Some(nearer_hole(s, best, i as u32))
    } else {
        best
    }
}

/// The best inflection so far, after the place i.
fn inflection_after(s: &[u32], best: Option<Inflection>, i: usize) -> Option<Inflection>
    requires short { length s.now < 2 ^ 32 }
    requires inside { i < length s.now }
    ensures { result
        ≡ cond (is_inflection s.now i) (Some (challenged (is_sharper s.now) best (inflection_of s.now i))) best }
{
    match inflection_at(s, i) {
        None => best,
        Some(next) => Some(sharper_inflection(s, best, next)),
    }
}

/// The best hole of a signature.
fn best_hole(w: u32, s: &[u32]) -> Option<u32>
    requires { length s.now < 2 ^ 32 }
    ensures { result ≡ best_hole w s.now }
{
    let mut best = None;
    for i in 1..s.len() {
        if is_legal(w, s, i) {
            best = hole_after(s, best, i);
        }
    }
    best
}

/// The best inflection of a signature.
fn best_inflection(w: u32, s: &[u32]) -> Option<Inflection>
    requires { length s.now < 2 ^ 32 }
    ensures { result ≡ option_map (inflection_of s.now) (best_inflection w s.now) }
{
    let mut best = None;
    for i in 1..s.len() {
        if is_legal(w, s, i) {
            best = inflection_after(s, best, i);
        }
    }
    best
}

/// Of the best inflections of two axes the sharper, on a tie that of the first axis.
fn sharper_cut(
    first: Axis,
    a: Option<Inflection>,
    second: Axis,
    b: Option<Inflection>,
) -> Option<Cut>
    ensures { option_map defined_cut result ≡ sharper_cut first a second b }
{
    let (axis, inflection) = match (a, b) {
        (Some(a), Some(b)) if a.jump < b.jump => (second, b),
        (Some(a), _) => (first, a),
        (None, Some(b)) => (second, b),
        (None, None) => return None,
    };
    Some(Cut {
        axis,
        at: inflection.at,
    })
}

/// The middle of an axis that is wide enough for two parts.
fn middle(axis: Axis, w: u32, s: &[u32]) -> Option<Cut>
    requires { length s.now < 2 ^ 32 }
    ensures { option_map defined_cut result ≡ cut_on axis (middle w s.now) }
{
    if 2 * u64::from(w) <= s.len() as u64 {
        Some(Cut {
            axis,
            at: (s.len() / 2) as u32,
        })
    } else {
        None
    }
}

fn cut_in_order(w: u32, first: Axis, s: &[u32], second: Axis, t: &[u32]) -> Option<Cut>
    requires first_short { length s.now < 2 ^ 32 }
    requires second_short { length t.now < 2 ^ 32 }
    ensures { option_map defined_cut result ≡ cut_in_order w first s.now second t.now }
{
    if let Some(at) = best_hole(w, s) {
        return Some(Cut { axis: first, at });
    }
    if let Some(at) = best_hole(w, t) {
        return Some(Cut { axis: second, at });
    }
    let sharper = sharper_cut(first, best_inflection(w, s), second, best_inflection(w, t));
    match sharper {
        Some(cut) => Some(cut),
        None => middle(first, w, s),
    }
}

/// Where to cut a box whose columns and rows hold these counts of tags, so that no part is narrower than `w`.
///
/// A hole, an entry of 0, comes before an inflection, where the second difference changes sign; an inflection before
/// the middle of the longer axis. Of holes that of the longer axis (X on a tie), then the nearest to the middle, then
/// the lower. Of inflections the sharpest of both axes, then by the same order. None exactly where there is none of
/// the three.
#[tactic(auto, unfolding(amr_def::specs::Cut::best_cut))]
pub fn best_cut(xs: &[u32], ys: &[u32], w: u32) -> Option<Cut>
    requires columns { length xs.now < 2 ^ 32 }
    requires rows { length ys.now < 2 ^ 32 }
    ensures { option_map defined_cut result ≡ best_cut w xs.now ys.now }
{
    if ys.len() <= xs.len() {
        cut_in_order(w, Axis::X, xs, Axis::Y, ys)
    } else {
        cut_in_order(w, Axis::Y, ys, Axis::X, xs)
    }
}
