//! What entries within their ranges must fulfil together.

ghost use Rattle.std.specs.Prelude.{◌≡◌, ◌≤◌, ◌+◌, pos, ◌≤ℤ◌, [], ◌∷◌, length, not, position, option_map, ◌&&◌, int_le, int_lt};
ghost use Rattle.amr_def.specs.Limits.{greatest_size, in_use};
ghost use Rattle.amr_problem.specs.Faults.{over_by, is_periodic, differ, sides_differ, block_outside, is_inside, tag_count, fits};
ghost use Rattle.amr_problem.specs.Faults.{blocking_misfit, species_outside};

use crate::fault::ProblemFault;
use amr_box::Axis;

/// Whether more than a whole cell would flow out of it in a step. That is where the greatest sizes of the numerators in
/// use along x and along y add up to more than `d`. Each is at most 1,024.
pub fn courant_over(x_size: u64, y_size: u64, d: i64) -> Option<ProblemFault>
    requires x { x_size ≤ 1024 }
    requires y { y_size ≤ 1024 }
    ensures { result ≡ over_by (x_size + y_size) d }
{
    let sum = (x_size + y_size) as i64;
    if d < sum {
        Some(ProblemFault::Courant(sum, d))
    } else {
        None
    }
}

/// The greatest size of the numerators in use on an axis: of `c`, or of those that the shear puts in its place.
pub fn size_in_use(c: i64, shear: &[i64]) -> u64
    ensures { result ≡ greatest_size (in_use c shear.now) }
{
    if shear.is_empty() {
        c.unsigned_abs()
    } else {
        greatest_size(shear)
    }
}

fn greatest_size(numbers: &[i64]) -> u64
    ensures { result ≡ greatest_size numbers.now }
{
    let mut greatest = 0;
    for number in numbers {
        greatest = number.unsigned_abs().max(greatest);
    }
    greatest
}

/// Whether a side, which is -1 or an inflow, is that of a periodic axis.
pub fn is_periodic(side: i64) -> bool
    ensures { result ≡ is_periodic side }
{
    side < 0
}

fn differ(low: i64, high: i64) -> bool
    ensures { result ≡ differ low high }
{
    if is_periodic(low) {
        !is_periodic(high)
    } else {
        is_periodic(high)
    }
}

/// The first axis with a periodic and an open side.
pub fn sides_differ(x_low: i64, x_high: i64, y_low: i64, y_high: i64) -> Option<ProblemFault>
    ensures { result ≡ sides_differ (x_low ∷ x_high ∷ y_low ∷ y_high ∷ []) }
{
    if differ(x_low, x_high) {
        Some(ProblemFault::SidesDiffer(Axis::X))
    } else if differ(y_low, y_high) {
        Some(ProblemFault::SidesDiffer(Axis::Y))
    } else {
        None
    }
}

/// The first block that has its corners out of order, or lies outside of the cells.
pub fn block_outside(nx: i64, ny: i64, blocks: &[[i64; 6]]) -> Option<ProblemFault>
    requires { length blocks.now ≤ 256 }
    ensures { result ≡ block_outside (nx ∷ ny ∷ []) blocks.now }
{
    match first_outside(nx, ny, blocks) {
        Some(index) => Some(ProblemFault::BlockOutside(index as u32)),
        None => None,
    }
}

fn first_outside(nx: i64, ny: i64, blocks: &[[i64; 6]]) -> Option<usize>
    ensures { result ≡ position (λ block. not (is_inside (nx ∷ ny ∷ []) block)) blocks.now }
{
    blocks.iter().position(|block| !is_inside(nx, ny, block))
}

fn is_inside(nx: i64, ny: i64, block: &[i64; 6]) -> bool
    ensures { result ≡ is_inside (nx ∷ ny ∷ []) block.now }
{
    let [x0, y0, x1, y1, _, _] = *block;
    let along = is_between(x0, x1, nx);
    let across = is_between(y0, y1, ny);
    along && across
}

// Whether the ends along an axis are in order, and the high one below so many cells.
fn is_between(low: i64, high: i64, cells: i64) -> bool
    ensures { result ≡ (int_le low high && int_lt high cells) }
{
    low <= high && high < cells
}

/// Whether there is not one threshold for each level below the finest.
pub fn tag_count(max_level: i64, tag: &[i64]) -> Option<ProblemFault>
    ensures { result ≡ tag_count max_level tag.now }
{
    let given = tag.len() as i64;
    if given == max_level {
        None
    } else {
        Some(ProblemFault::TagCount(given, max_level))
    }
}

/// The first axis along which half of the blocking factor doesn't divide the number of cells.
pub fn blocking_misfit(nx: i64, ny: i64, blocking: i64) -> Option<ProblemFault>
    requires { pos 2 ≤ℤ blocking }
    ensures { result ≡ blocking_misfit (nx ∷ ny ∷ []) blocking }
{
    if !fits(blocking, nx) {
        Some(ProblemFault::Blocking(Axis::X, blocking))
    } else if !fits(blocking, ny) {
        Some(ProblemFault::Blocking(Axis::Y, blocking))
    } else {
        None
    }
}

/// The first block whose species is none of so many, and that species.
pub fn species_outside(species: i64, blocks: &[[i64; 6]]) -> Option<ProblemFault>
    requires { length blocks.now ≤ 256 }
    ensures { result ≡ species_outside species blocks.now }
{
    for (index, block) in blocks.iter().enumerate() {
        let own = block[5];
        if own >= species {
            return Some(ProblemFault::SpeciesOutside(index as u32, own));
        }
    }
    None
}

fn fits(blocking: i64, cells: i64) -> bool
    requires { pos 2 ≤ℤ blocking }
    ensures { result ≡ fits blocking cells }
{
    cells.unsigned_abs() % (blocking.unsigned_abs() / 2) == 0
}
