//! Spans: ghost cells beside a patch, along an axis, that get their values from one place.

ghost use Rattle.std.specs.Prelude.{◌≡◌, ◌/◌, ◌<◌, ◌≤◌, length, slice_index_or};
ghost use Rattle.std.specs.Option.{option_copied};
ghost use Rattle.amr_box.specs.declared.Cell.{Cell};
ghost use Rattle.amr_def.specs.Domain.{domain};
ghost use Rattle.amr_patch.specs.declared.patches.Patch.{Patch};
ghost use Rattle.amr_patch.specs.Patches.{box};
ghost use Rattle.amr_ghost.specs.Strips.{HasRoom};
ghost use Rattle.amr_ghost.specs.GhostCells.{IsGhostStrip, IsLevelInOrder};
ghost use Rattle.amr_ghost.specs.Plans.{IsSpan};

use crate::gap_cells::gap_ahead;
use crate::lookup::Target;
use crate::places::cells_ahead;
use crate::sides::Strip;
use amr_box::Cell;
use amr_def::Problem;
use amr_patch::{Patch, find_near};

/// Where ghost cells get their values from.
#[derive(Clone, Copy, Debug)]
pub(crate) enum Source {
    /// The side of the domain that they lie outside of.
    Outside,
    /// The patch with this number, from this cell on.
    Beside(usize, Cell),
    /// The next coarser level: the parents of the cells from this one on.
    Coarser(Cell),
}

/// Ghost cells beside a patch, along an axis, that get their values from one place.
#[derive(Clone, Copy, Debug)]
pub struct GhostSpan {
    pub(crate) patch: usize,
    pub(crate) strip: Strip,
    pub(crate) source: Source,
}

/// The first ghost cells of a strip beside a patch that get their values from one place. They stand for cells of one patch, lie in
/// a gap between patches, or are the whole strip where it lies outside an open side.
#[inline(always)]
pub(crate) fn span_ahead(
    p: &Problem,
    patches: &[Patch],
    target: Target<'_>,
    strip: Strip,
    near: &mut usize,
) -> GhostSpan
    requires level { target.level ≤ 4 }
    requires patches { IsLevelInOrder (domain p.now target.level) target.order (option_copied target.starts) patches.now }
    requires there { target.patch < length patches.now }
    requires some { 0 < strip.count }
    requires small { strip.count ≤ 8192 }
    requires room { HasRoom strip.from }
    requires ghost_strip { (q : Patch)
        → IsGhostStrip (domain p.now target.level) (box (slice_index_or patches.now target.patch q)) strip.axis strip.from strip.count }
    ensures span { IsSpan (domain p.now target.entry.level) patches.now result }
    ensures patch { result.patch ≡ target.entry.patch }
    ensures axis { result.strip.axis ≡ strip.axis }
    ensures from { result.strip.from ≡ strip.from }
    ensures within { result.strip.count ≤ strip.count }
{
    let dom = p.domain(target.level);
    let home = dom.home_cell(strip.from);
    if !dom.in_domain(home) {
        return GhostSpan {
            patch: target.patch,
            strip,
            source: Source::Outside,
        };
    }
    match find_near(patches, target.order, near, home) {
        Some(j) => {
            let ahead = cells_ahead(&patches[j].bx(), strip.axis, home);
            GhostSpan {
                patch: target.patch,
                strip: first_of(strip, ahead.min(strip.count)),
                source: Source::Beside(j, home),
            }
        }
        None => {
            let ahead = gap_ahead(target.starts, strip.axis, home, strip.count);
            GhostSpan {
                patch: target.patch,
                strip: first_of(strip, ahead),
                source: Source::Coarser(home),
            }
        }
    }
}

/// The first cells of a strip.
fn first_of(strip: Strip, count: u32) -> Strip
    ensures axis { result.axis ≡ strip.axis }
    ensures from { result.from ≡ strip.from }
    ensures count { result.count ≡ count }
{
    Strip {
        axis: strip.axis,
        from: strip.from,
        count,
    }
}
