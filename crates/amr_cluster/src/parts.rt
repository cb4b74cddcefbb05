//! Where the tags of a box are cut.

ghost use Rattle.std.specs.Prelude.{◌≡◌, ℕ, ◌-ℤ◌, ◌<◌, ◌^◌, length, IfOk};
ghost use Rattle.std.specs.List.{sum_by};
ghost use Rattle.std.specs.Option.{option_map};
ghost use Rattle.amr_box.specs.declared.Axis.TheVariants.{X, Y};
ghost use Rattle.amr_box.specs.Cells.{HasCorners, IsNear};
ghost use Rattle.amr_def.specs.Signature.{signature};
ghost use Rattle.amr_sign.specs.Scan.{defined_cut};
ghost use Rattle.amr_tags.specs.TagSets.{has};
ghost use Rattle.amr_tags.specs.Stored.{IsPart};
ghost use Rattle.amr_cluster.specs.Work.{cells_in, cut_by};

use amr_box::{Bx, Cell};
use amr_causes::NoMemory;
use amr_sign::{Cut, Signatures, best_cut, both_signatures};
use amr_tags::Tags;
use std::alloc::Global;

/// A box counted from the low corner of the larger one that it lies in.
fn offset(larger: Bx, part: Bx) -> Bx
    requires near { IsNear larger }
    requires inside { IsPart larger part }
    ensures { HasCorners result (part.lo.x -ℤ larger.lo.x) (part.lo.y -ℤ larger.lo.y) (part.hi.x -ℤ larger.lo.x) (part.hi.y -ℤ larger.lo.y) }
{
    let from = larger.lo();
    let (low, high) = (part.lo(), part.hi());
    let lo = Cell {
        x: low.x - from.x,
        y: low.y - from.y,
    };
    let hi = Cell {
        x: high.x - from.x,
        y: high.y - from.y,
    };
    Bx::try_new(lo, hi).unwrap()
}

/// How many tags stand in each column and in each row of a box.
pub fn signatures_of(alloc: Global, tags: &Tags, part: Bx) -> Result<Signatures, NoMemory>
    requires inside { IsPart tags.now.bx part }
    ensures columns { IfOk result (λ s. s.columns.items ≡ signature X (cells_in (has tags.now) part) part) }
    ensures rows { IfOk result (λ s. s.rows.items ≡ signature Y (cells_in (has tags.now) part) part) }
{
    let at = offset(tags.bx(), part);
    both_signatures(alloc, tags.words(), tags.per_row(), at)
}

/// The sum of some counts.
fn total(counts: &[u32]) -> u64
    requires { length counts.now < 2 ^ 32 }
    ensures { result ≡ sum_by (λ n. n) counts.now }
{
    let mut sum = 0;
    for count in counts {
        sum += u64::from(*count);
    }
    sum
}

/// Where a box round tags is cut by its signatures: nowhere where enough of its cells, in per cent, are tagged.
pub fn cut_by(xs: &[u32], ys: &[u32], efficiency: u32, w: u32) -> Option<Cut>
    requires columns_short { length xs.now < 2 ^ 32 }
    requires rows_short { length ys.now < 2 ^ 32 }
    ensures { option_map defined_cut result ≡ cut_by efficiency w xs.now ys.now }
{
    let area = xs.len() as u128 * ys.len() as u128;
    if u128::from(efficiency) * area <= 100 * u128::from(total(ys)) {
        return None;
    }
    best_cut(xs, ys, w)
}
