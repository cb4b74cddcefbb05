//! Levels: each the number of its boxes, then its boxes in order, each with its masses.

ghost use Rattle.std.specs.Prelude.{◌≡◌, ℕ, ◌<◌, ◌≤◌, ◌++◌, length, map, slice_index_or, IsTrue, OnOk};
ghost use Rattle.std.specs.List.{flat_map};
ghost use Rattle.amr_box.specs.declared.Cell.{Cell};
ghost use Rattle.amr_box.specs.Cells.{holds};
ghost use Rattle.amr_def.specs.Domain.{domain, in_domain};
ghost use Rattle.amr_def.specs.Facts.{IsLevel};
ghost use Rattle.amr_def.specs.State.{no_level};
ghost use Rattle.amr_patch.specs.Levels.{level_of};
ghost use Rattle.amr_payload.specs.Payload.{box_bytes, level_bytes, levels_bytes};
ghost use Rattle.amr_codec.specs.Forms.{IsBasisOf, basis_of, form_of};
ghost use Rattle.amr_patch.specs.BoxRows.{HasCellsOf};

use crate::basis::{Basis, Form, form_at};
use crate::changes::put_masses_of;
use crate::numbers::{put_corners, put_count_of_boxes};
use amr_box::Bx;
use amr_causes::NoMemory;
use amr_def::Problem;
use amr_patch::Level;

/// A box of level `l` and its masses.
fn put_box(
    p: &Problem,
    l: u32,
    form: &Form<'_>,
    level: &Level,
    b: &Bx,
    out: &mut Vec<u8>,
) -> Result<(), NoMemory>
    requires fine { l ≤ 4 }
    requires inside { (c : Cell) → IsTrue (holds b.now c) → IsTrue (in_domain (domain p.now l) c) }
    requires cells { HasCellsOf level.now b.now }
    ensures { OnOk result (out.new.items ≡ out.old.items ++ box_bytes (form_of form.now) (level_of level.now).masses b.now) }
{
    put_corners(b.lo(), b.hi(), out)?;
    put_masses_of(form, level, b, out)?;
    Ok(())
}

/// The boxes of level `l`, in order.
fn put_boxes(
    p: &Problem,
    l: u32,
    form: &Form<'_>,
    level: &Level,
    out: &mut Vec<u8>,
) -> Result<(), NoMemory>
    requires fine { l ≤ 4 }
    requires level { IsLevel p.now l (level_of level.now) }
    ensures { OnOk result (out.new.items ≡ out.old.items ++ flat_map (box_bytes (form_of form.now) (level_of level.now).masses) (level_of level.now).boxes) }
{
    for b in level.boxes() {
        put_box(p, l, form, level, b, out)?;
    }
    Ok(())
}

#[tactic(auto, unfolding(amr_payload::specs::Payload::level_bytes))]
fn put_level(
    p: &Problem,
    l: u32,
    form: &Form<'_>,
    level: &Level,
    out: &mut Vec<u8>,
) -> Result<(), NoMemory>
    requires fine { l ≤ 4 }
    requires level { IsLevel p.now l (level_of level.now) }
    ensures { OnOk result (out.new.items ≡ out.old.items ++ level_bytes (form_of form.now) (level_of level.now)) }
{
    put_count_of_boxes(level.boxes().len(), out)?;
    put_boxes(p, l, form, level, out)?;
    Ok(())
}

/// The levels, from level 0 on.
pub(crate) fn put_levels(
    p: &Problem,
    basis: &Basis<'_>,
    levels: &[Level],
    out: &mut Vec<u8>,
) -> Result<(), NoMemory>
    requires basis { IsBasisOf p.now basis.now }
    requires few { length levels.now ≤ 5 }
    requires levels { (l : ℕ) → l < length levels.now → IsLevel p.now l (slice_index_or (map level_of levels.now) l no_level) }
    ensures { OnOk result (out.new.items ≡ out.old.items ++ levels_bytes (basis_of basis.now).forms 0 (map level_of levels.now)) }
{
    for (l, level) in levels.iter().enumerate() {
        let form = form_at(p, basis, l as u32);
        put_level(p, l as u32, &form, level, out)?;
    }
    Ok(())
}
