//! The levels of a payload: level 0, and each finer one over the next coarser one.

ghost use Rattle.std.specs.Prelude.{◌≡◌, ◌+◌, ◌≤◌, length, map, IfOk, IfErr};
ghost use Rattle.std.specs.List.{All};
ghost use Rattle.amr_codec.specs.Forms.{IsBasisOf, basis_of, form_of};
ghost use Rattle.amr_def.specs.Facts.{IsLevel};
ghost use Rattle.amr_patch.specs.Levels.{level_of};
ghost use Rattle.amr_payload.specs.Tests.{read, read_finer, read_levels};
ghost use Rattle.amr_start.specs.PatchBoxes.{IsChopped};
ghost use Rattle.amr_decoder.specs.Faults.{IsFaultOf};
ghost use Rattle.amr_decoder.specs.Lefts.{left_of};
ghost use Rattle.amr_decoder.specs.ReadLevels.{HasBase, IsReadable, read_level_count, read_over};

use crate::faults::CodecFault;
use crate::levels::{is_between, read_level};
use crate::masses::MassKind;
use crate::reader::Reader;
use crate::stands::stands_over;
use amr_codec::{Basis, Form, form_at};
use amr_def::Problem;
use amr_patch::Level;
use std::alloc::Global;

/// The step and the level of the next finer level.
fn finer(kind: MassKind) -> MassKind
    requires { kind.level ≤ 3 }
    ensures step { result.step ≡ kind.step }
    ensures level { result.level ≡ kind.level + 1 }
{
    MassKind {
        step: kind.step,
        level: kind.level + 1,
    }
}

/// The level over level `kind.level`, which is `below`: read, and nested in that one and in sync with it. `Bad` is at the
/// place of the first test that fails, for these two the number of its boxes.
#[tactic(auto, unfolding(amr_payload::specs::Tests::read_finer))]
pub fn read_finer(
    alloc: Global,
    p: &Problem,
    form: &Form<'_>,
    kind: MassKind,
    below: &Level,
    reader: &mut Reader<'_>,
) -> Result<Level, CodecFault>
    requires step { kind.step ≤ 4096 }
    requires level { kind.level ≤ 3 }
    requires form { IsReadable p.now kind.step (kind.level + 1) (form_of form.now) }
    requires below { IsLevel p.now kind.level (level_of below.now) }
    ensures read { IfOk result (λ k. read_finer (form_of form.now) p.now kind.step kind.level (level_of below.now) (left_of reader.old)
        ≡ read (level_of k) (left_of reader.new)) }
    ensures bad { IfErr result (IsFaultOf (read_finer (form_of form.now) p.now kind.step kind.level (level_of below.now) (left_of reader.old))) }
    ensures level { IfOk result (λ k. IsLevel p.now (kind.level + 1) (level_of k)) }
    ensures chopped { IfOk result (IsChopped p.now.max_grid_size) }
{
    let place = reader.place() as u64;
    let level = read_level(alloc, p, form, finer(kind), reader)?;
    let stands = stands_over(alloc, p, kind.level, below, &level)?;
    if !stands {
        return Err(CodecFault::Bad { place });
    }
    Ok(level)
}

/// The number of levels, from 1 to one more than the problem's greatest.
fn read_level_count(p: &Problem, reader: &mut Reader<'_>) -> Result<u8, CodecFault>
    ensures read { IfOk result (λ t. read_level_count p.now (left_of reader.old) ≡ read t (left_of reader.new)) }
    ensures bad { IfErr result (IsFaultOf (read_level_count p.now (left_of reader.old))) }
    ensures some { IfOk result (λ t. 1 ≤ t) }
    ensures few { IfOk result (λ t. t ≤ 5) }
{
    let place = reader.place() as u64;
    let count = reader.read_u8()?;
    if !is_between(u64::from(count), u64::from(p.max_level) + 1) {
        return Err(CodecFault::Bad { place });
    }
    Ok(count)
}

/// Level 0, which is `base`, and `count` finer levels over it.
fn add_finer(
    alloc: Global,
    p: &Problem,
    basis: &Basis<'_>,
    step: u32,
    count: u32,
    base: Level,
    reader: &mut Reader<'_>,
) -> Result<Vec<Level>, CodecFault>
    requires basis { IsBasisOf p.now basis.now }
    requires step { step ≤ 4096 }
    requires after { length (basis_of basis.now).rows ≤ step }
    requires few { count ≤ 4 }
    requires base { IsLevel p.now 0 (level_of base) }
    requires chopped { IsChopped p.now.max_grid_size base }
    ensures read { IfOk result (λ ks. read_over (basis_of basis.now).forms p.now step count (level_of base) (left_of reader.old)
        ≡ read (map level_of ks.items) (left_of reader.new)) }
    ensures bad { IfErr result (IsFaultOf (read_over (basis_of basis.now).forms p.now step count (level_of base) (left_of reader.old))) }
    ensures chopped { IfOk result (λ ks. All (IsChopped p.now.max_grid_size) ks.items) }
{
    let mut levels = Vec::new(alloc);
    let mut last = base;
    for k in 0..count {
        let form = form_at(p, basis, k + 1);
        let below = MassKind { step, level: k };
        let level = read_finer(alloc, p, &form, below, &last, reader)?;
        levels.push(last)?;
        last = level;
    }
    levels.push(last)?;
    Ok(levels)
}

/// The number of levels, and each of them on the basis, from level 0 on. Masses are bounded by the step. The reader then stands
/// behind them. `Bad` is at the place of the first test that fails.
#[tactic(auto, unfolding(amr_payload::specs::Tests::read_levels))]
pub fn read_levels(
    alloc: Global,
    p: &Problem,
    basis: &Basis<'_>,
    step: u32,
    reader: &mut Reader<'_>,
) -> Result<Vec<Level>, CodecFault>
    requires basis { IsBasisOf p.now basis.now }
    requires step { step ≤ 4096 }
    requires after { length (basis_of basis.now).rows ≤ step }
    ensures read { IfOk result (λ ks. read_levels (basis_of basis.now).forms p.now step (left_of reader.old)
        ≡ read (map level_of ks.items) (left_of reader.new)) }
    ensures bad { IfErr result (IsFaultOf (read_levels (basis_of basis.now).forms p.now step (left_of reader.old))) }
    ensures base { IfOk result (λ ks. HasBase p.now (map level_of ks.items)) }
    ensures chopped { IfOk result (λ ks. All (IsChopped p.now.max_grid_size) ks.items) }
{
    let count = read_level_count(p, reader)?;
    let form = form_at(p, basis, 0);
    let base = read_level(alloc, p, &form, MassKind { step, level: 0 }, reader)?;
    let levels = add_finer(alloc, p, basis, step, u32::from(count) - 1, base, reader)?;
    Ok(levels)
}
