//! The boxes of a level with their masses.

ghost use Rattle.std.specs.Prelude.{◌≡◌, ◌&&◌, ◌≤◌, ◌-◌, ◌<◌, nat_lt, true, false, [], map, IfOk, IfErr, IfSome, IfNone};
ghost use Rattle.std.specs.List.{All, list_any};
ghost use Rattle.amr_box.specs.Cells.{IsNear};
ghost use Rattle.amr_codec.specs.Forms.{form_of};
ghost use Rattle.amr_def.specs.Domain.{domain, domain_box};
ghost use Rattle.amr_payload.specs.Tests.{is_box_of, meets, read, read_grid, read_grids};
ghost use Rattle.amr_decoder.specs.Apart.{AreOfLevel, IsOverParents, newest_first};
ghost use Rattle.amr_decoder.specs.Boxes.{box_at};
ghost use Rattle.amr_decoder.specs.Faults.{IsFaultOf};
ghost use Rattle.amr_decoder.specs.Grids.{IsWhole, boxes_of, grid_of};
ghost use Rattle.amr_decoder.specs.Lefts.{left_of, whole_of};

use crate::apart::Apart;
use crate::boxes::{Corners, as_box, is_fit, read_corners};
use crate::changed::read_box_masses;
use crate::faults::CodecFault;
use crate::grid::Grid;
use crate::masses::MassKind;
use crate::reader::Reader;
use amr_box::Bx;
use amr_causes::NoMemory;
use amr_codec::Form;
use amr_def::{Dom, Problem};
use std::alloc::Global;

/// Whether a box of a finer level has a cell in common with an earlier one.
fn is_in_the_way(l: u32, earlier: &Apart, b: &Bx) -> bool
    requires new { 0 < l → IsOverParents earlier.now.below b.now }
    requires earlier { 0 < l → All (IsOverParents earlier.now.below) (boxes_of earlier.now.grids) }
    ensures { result ≡ (nat_lt 0 l && list_any (meets b.now) (newest_first earlier.now.grids)) }
{
    l > 0 && earlier.meets(b)
}

/// The box with these corners, where it passes the tests on a box of level `l` after the earlier ones.
fn tested_box(p: &Problem, l: u32, earlier: &Apart, b: Corners) -> Option<Bx>
    requires level { l ≤ 4 }
    requires earlier { AreOfLevel p.now l earlier.now }
    ensures some { IfSome result (λ e. (e ≡ box_at b) × (is_box_of p.now l (newest_first earlier.now.grids) (box_at b) ≡ true)) }
    ensures over { IfSome result (λ e. 0 < l → IsOverParents earlier.now.below e) }
    ensures near { IfSome result IsNear }
    ensures none { IfNone result (is_box_of p.now l (newest_first earlier.now.grids) (box_at b) ≡ false) }
{
    if !is_fit(p, l, b) {
        return None;
    }
    let tested = as_box(b);
    if is_in_the_way(l, earlier, &tested) {
        return None;
    }
    Some(tested)
}

/// A box and its masses.
#[tactic(auto, unfolding(amr_payload::specs::Tests::read_grid))]
fn read_grid(
    alloc: Global,
    p: &Problem,
    form: &Form<'_>,
    kind: MassKind,
    earlier: &Apart,
    reader: &mut Reader<'_>,
) -> Result<Grid, CodecFault>
    requires step { kind.step ≤ 4096 }
    requires level { kind.level ≤ 4 }
    requires earlier { AreOfLevel p.now kind.level earlier.now }
    ensures read { IfOk result (λ g. read_grid (form_of form.now) p.now kind.step kind.level (newest_first earlier.now.grids) (left_of reader.old)
        ≡ read (grid_of (whole_of reader.old) g) (left_of reader.new)) }
    ensures bad { IfErr result (IsFaultOf (read_grid (form_of form.now) p.now kind.step kind.level (newest_first earlier.now.grids) (left_of reader.old))) }
    ensures over { IfOk result (λ g. 0 < kind.level → IsOverParents earlier.now.below g.bx) }
    ensures masses { IfOk result (IsWhole (whole_of reader.old)) }
    ensures whole { whole_of reader.new ≡ whole_of reader.old }
{
    let place = reader.place() as u64;
    let corners = read_corners(reader)?;
    let Some(bx) = tested_box(p, kind.level, earlier, corners) else {
        return Err(CodecFault::Bad { place });
    };
    let masses = read_box_masses(alloc, p, form, kind, &bx, reader)?;
    Ok(Grid { bx, masses })
}

/// No boxes of level `l`. Level 0 has one box, which is compared with none, and no coarser level. The least domain stands
/// for that, so that next to no memory is taken before its masses are read.
fn none_of_level(alloc: Global, p: &Problem, l: u32) -> Result<Apart, NoMemory>
    requires { l ≤ 4 }
    ensures none { IfOk result (λ a. a.grids ≡ []) }
    ensures below { IfOk result (λ a. 0 < l → a.below ≡ domain_box (domain p.now (l - 1))) }
{
    if l == 0 {
        let least = Dom {
            l: 0,
            nx: 2,
            ny: 2,
            wrap_x: false,
            wrap_y: false,
        };
        return Apart::make(alloc, &least);
    }
    Apart::make(alloc, &p.domain(l - 1))
}

/// `count` boxes with their masses, each apart from the earlier ones. Memory is taken as they are read, and above level 0 for
/// two bits for each cell of the domain of the next coarser level.
pub(crate) fn read_grids(
    alloc: Global,
    p: &Problem,
    form: &Form<'_>,
    kind: MassKind,
    count: u32,
    reader: &mut Reader<'_>,
) -> Result<Vec<Grid>, CodecFault>
    requires step { kind.step ≤ 4096 }
    requires level { kind.level ≤ 4 }
    ensures read { IfOk result (λ gs. read_grids (form_of form.now) p.now kind.step kind.level count [] (left_of reader.old)
        ≡ read (map (grid_of (whole_of reader.old)) gs.items) (left_of reader.new)) }
    ensures bad { IfErr result (IsFaultOf (read_grids (form_of form.now) p.now kind.step kind.level count [] (left_of reader.old))) }
    ensures masses { IfOk result (λ gs. All (IsWhole (whole_of reader.old)) gs.items) }
    ensures whole { whole_of reader.new ≡ whole_of reader.old }
{
    let mut earlier = none_of_level(alloc, p, kind.level)?;
    for _k in 0..count {
        let grid = read_grid(alloc, p, form, kind, &earlier, reader)?;
        earlier.push(grid)?;
    }
    Ok(earlier.into_grids())
}
