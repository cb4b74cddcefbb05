//! Levels: each read, tested against the next coarser one, and held in patches.

ghost use Rattle.std.specs.Prelude.{◌≡◌, ◌^◌, ◌<◌, ◌≤◌, [], ◌∷◌, map, IfOk, IfErr};
ghost use Rattle.std.specs.List.{All};
ghost use Rattle.amr_codec.specs.Forms.{form_of};
ghost use Rattle.amr_def.specs.Domain.{domain, domain_box};
ghost use Rattle.amr_def.specs.Facts.{IsAligned, IsLevel};
ghost use Rattle.amr_def.specs.Limits.{between};
ghost use Rattle.amr_patch.specs.Levels.{level_of};
ghost use Rattle.amr_payload.specs.Payload.{level_cells};
ghost use Rattle.amr_payload.specs.Tests.{is_box_count, read, read_level};
ghost use Rattle.amr_start.specs.PatchBoxes.{IsChopped};
ghost use Rattle.amr_decoder.specs.Faults.{IsFaultOf};
ghost use Rattle.amr_decoder.specs.Grids.{IsWhole, grid_of};
ghost use Rattle.amr_decoder.specs.Lefts.{left_of};
ghost use Rattle.amr_decoder.specs.ReadLevels.{IsReadLevel, IsReadable};
ghost use Rattle.amr_payload.specs.Tests as tests;

use crate::faults::CodecFault;
use crate::grid::Grid;
use crate::grids::read_grids;
use crate::made::make_level;
use crate::masses::MassKind;
use crate::reader::Reader;
use amr_causes::NoMemory;
use amr_codec::Form;
use amr_def::Problem;
use amr_patch::Level;
use std::alloc::Global;

/// A power of four, up to that of the greatest level.
fn power_of_four(l: u32) -> u64
    requires { l ≤ 4 }
    ensures power { result ≡ 4 ^ l }
    ensures few { result ≤ 256 }
{
    4u64.pow(l)
}

/// How many cells the domain of level `l` has.
fn cells_of_level(p: &Problem, l: u32) -> u64
    requires { l ≤ 4 }
    ensures { result ≡ level_cells p.now l }
{
    let across = u64::from(p.nx);
    let up = u64::from(p.ny);
    let base = across * up;
    base * power_of_four(l)
}

/// Whether a number is from 1 to another.
pub(crate) fn is_between(k: u64, high: u64) -> bool
    ensures { result ≡ between 1 high k }
{
    1 <= k && k <= high
}

/// Whether level `l` may have so many boxes. That is one at level 0. At a finer level it is at most one for each four
/// cells of its domain, as many as the domain of the next coarser level has.
fn is_box_count(p: &Problem, l: u32, k: u32) -> bool
    requires { l ≤ 4 }
    ensures { result ≡ is_box_count p.now l k }
{
    if l == 0 {
        return k == 1;
    }
    is_between(u64::from(k), cells_of_level(p, l - 1))
}

/// The level of boxes that were read, in patches.
fn level_of_grids(
    alloc: Global,
    p: &Problem,
    kind: MassKind,
    bytes: &[u8],
    grids: &[Grid],
) -> Result<Level, NoMemory>
    requires level { kind.level ≤ 4 }
    requires read { IsReadLevel p.now kind.level (map (grid_of bytes.now) grids.now) }
    requires masses { All (IsWhole bytes.now) grids.now }
    ensures value { IfOk result (λ k. level_of k ≡ tests.level_of (map (grid_of bytes.now) grids.now)) }
    ensures level { IfOk result (λ k. IsLevel p.now kind.level (level_of k)) }
    ensures base { IfOk result (λ k. kind.level ≡ 0 → (level_of k).boxes ≡ domain_box (domain p.now 0) ∷ []) }
    ensures aligned { IfOk result (λ k. 0 < kind.level → All (IsAligned p.now.blocking) (level_of k).boxes) }
    ensures chopped { IfOk result (IsChopped p.now.max_grid_size) }
{
    make_level(alloc, p.max_grid_size, bytes, grids)
}

/// Level `kind.level`: the number of its boxes, and the boxes with their masses by a form, in patches of at most `max_grid_size`
/// by `max_grid_size` cells. The reader then stands behind it. `Bad` is at the place of the first test that fails.
/// Memory is taken only for boxes and masses that were read whole, whatever their number is said to be. Above level 0
/// it is taken for two bits for each cell of the domain of the next coarser level.
#[tactic(auto, unfolding(amr_payload::specs::Tests::read_level))]
pub fn read_level(
    alloc: Global,
    p: &Problem,
    form: &Form<'_>,
    kind: MassKind,
    reader: &mut Reader<'_>,
) -> Result<Level, CodecFault>
    requires step { kind.step ≤ 4096 }
    requires level { kind.level ≤ 4 }
    requires form { IsReadable p.now kind.step kind.level (form_of form.now) }
    ensures read { IfOk result (λ k. read_level (form_of form.now) p.now kind.step kind.level (left_of reader.old) ≡ read (level_of k) (left_of reader.new)) }
    ensures bad { IfErr result (IsFaultOf (read_level (form_of form.now) p.now kind.step kind.level (left_of reader.old))) }
    ensures level { IfOk result (λ k. IsLevel p.now kind.level (level_of k)) }
    ensures base { IfOk result (λ k. kind.level ≡ 0 → (level_of k).boxes ≡ domain_box (domain p.now 0) ∷ []) }
    ensures aligned { IfOk result (λ k. 0 < kind.level → All (IsAligned p.now.blocking) (level_of k).boxes) }
    ensures chopped { IfOk result (IsChopped p.now.max_grid_size) }
{
    let place = reader.place() as u64;
    let count = reader.read_u32()?;
    if !is_box_count(p, kind.level, count) {
        return Err(CodecFault::Bad { place });
    }
    let bytes = reader.bytes();
    let grids = read_grids(alloc, p, form, kind, count, reader)?;
    let level = level_of_grids(alloc, p, kind, bytes, &grids)?;
    Ok(level)
}
