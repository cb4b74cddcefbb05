//! The masses of a box on an older state: rows that the older state has, and others, which are read.

ghost use Rattle.std.specs.Prelude.{◌≡◌, ◌+◌, ◌*◌, ◌≤◌, ◌++◌, pos, ◌+ℤ◌, ◌≤ℤ◌, length, map, is_some, IsTrue, IfOk, IfErr, OnOk};
ghost use Rattle.std.specs.Int.{w32};
ghost use Rattle.std.specs.List.{list_all};
ghost use Rattle.amr_box.specs.Cells.{IsNear};
ghost use Rattle.amr_box.specs.Cells as boxes;
ghost use Rattle.amr_codec.specs.Forms.{cells_of_row, form_of, masses_before};
ghost use Rattle.amr_def.specs.State.{mass_of};
ghost use Rattle.amr_patch.specs.Levels.{level_of};
ghost use Rattle.amr_payload.specs.Payload.{cell_rows};
ghost use Rattle.amr_payload.specs.Tests.{read, read_all_changed, read_box_masses, read_changed, read_joined, read_masses};
ghost use Rattle.amr_decoder.specs.Faults.{IsFaultOf};
ghost use Rattle.amr_decoder.specs.Grids.{HasMasses, masses_of};
ghost use Rattle.amr_decoder.specs.Lefts.{left_of, whole_of};
ghost use Rattle.amr_decoder.specs.Numbers.{numbers};

use crate::faults::CodecFault;
use crate::grid::Source;
use crate::masses::{MassKind, read_masses};
use crate::reader::{Reader, word_at};
use amr_box::Bx;
use amr_causes::NoMemory;
use amr_codec::{Form, MassWidth, has_masses, span_near};
use amr_def::Problem;
use amr_patch::{Level, cell_in};
use std::alloc::Global;

/// Adds the masses of a row of the box, where each of its cells is one of the level. Its first patch is looked for beside that of
/// number `near`, and its number left there.
fn copy_row(
    level: &Level,
    near: &mut usize,
    b: &Bx,
    j: u32,
    masses: &mut Vec<u32>,
) -> Result<bool, NoMemory>
    requires near { IsNear b.now }
    requires inside { (b.now.lo.y +ℤ pos j) ≤ℤ b.now.hi.y }
    ensures cells { IfOk result (λ yes. yes ≡ list_all (λ c. is_some ((level_of level.now).masses c)) (cells_of_row b.now j)) }
    ensures masses { IfOk result (λ ok. IsTrue ok → masses.new.items ≡ masses.old.items ++ map (mass_of (level_of level.now).masses) (cells_of_row b.now j)) }
{
    let columns = b.width();
    let mut here = *near;
    let mut first = 0;
    while first < columns {
        match span_near(level, &mut here, cell_in(b, j, first)) {
            None => return Ok(false),
            Some(span) => {
                if first == 0 {
                    *near = here;
                }
                let count = span.len().min((columns - first) as usize);
                masses.extend_from_slice(&span[..count])?;
                first += count as u32;
                here = here.saturating_add(1);
            }
        }
    }
    Ok(true)
}

/// Adds the masses that the cells of a row of the box have in the older state, where it has each of them.
fn copy_old_row(
    old: Option<&Level>,
    near: &mut usize,
    b: &Bx,
    j: u32,
    masses: &mut Vec<u32>,
) -> Result<bool, NoMemory>
    requires near { IsNear b.now }
    requires inside { (b.now.lo.y +ℤ pos j) ≤ℤ b.now.hi.y }
    ensures cells { IfOk result (λ yes. yes ≡ list_all (λ c. is_some (masses_before old.entry c)) (cells_of_row b.now j)) }
    ensures masses { IfOk result (λ ok. IsTrue ok → masses.new.items ≡ masses.old.items ++ map (mass_of (masses_before old.entry)) (cells_of_row b.now j)) }
{
    match old {
        None => Ok(false),
        Some(level) => copy_row(level, near, b, j, masses),
    }
}

/// Adds `count` masses of four bytes, each of which is tested.
fn read_new_masses(
    p: &Problem,
    kind: MassKind,
    count: u32,
    reader: &mut Reader<'_>,
    masses: &mut Vec<u32>,
) -> Result<(), CodecFault>
    requires step { kind.step ≤ 4096 }
    requires level { kind.level ≤ 4 }
    ensures read { OnOk result (read_masses w32 p.now kind.step kind.level count (left_of reader.old)
        ≡ read (numbers w32 count (left_of reader.old).bytes) (left_of reader.new)) }
    ensures bad { IfErr result (IsFaultOf (read_masses w32 p.now kind.step kind.level count (left_of reader.old))) }
    ensures added { OnOk result (masses.new.items ≡ masses.old.items ++ numbers w32 count (left_of reader.old).bytes) }
    ensures whole { whole_of reader.new ≡ whole_of reader.old }
{
    let from = reader.place();
    let bytes = reader.bytes();
    read_masses(p, MassWidth::Four, kind, u64::from(count), reader)?;
    for i in 0..count {
        masses.push(word_at(bytes, from + 4 * i as usize))?;
    }
    Ok(())
}

/// Adds a row of the box: its flag, and its masses where that asks for them.
#[tactic(auto, unfolding(amr_payload::specs::Tests::read_changed))]
fn read_changed_row(
    p: &Problem,
    kind: MassKind,
    old: Option<&Level>,
    near: &mut usize,
    b: &Bx,
    j: u32,
    reader: &mut Reader<'_>,
    masses: &mut Vec<u32>,
) -> Result<(), CodecFault>
    requires step { kind.step ≤ 4096 }
    requires level { kind.level ≤ 4 }
    requires near { IsNear b.now }
    requires inside { (b.now.lo.y +ℤ pos j) ≤ℤ b.now.hi.y }
    ensures read { OnOk result (read_joined masses.old.items
        (read_changed (masses_before old.entry) p.now kind.step kind.level (cells_of_row b.now j) (left_of reader.old))
        ≡ read masses.new.items (left_of reader.new)) }
    ensures bad { IfErr result (IsFaultOf (read_changed (masses_before old.entry) p.now kind.step kind.level (cells_of_row b.now j) (left_of reader.old))) }
    ensures count { OnOk result (length masses.new.items ≡ length masses.old.items + boxes.width b.now) }
    ensures whole { whole_of reader.new ≡ whole_of reader.old }
{
    let place = reader.place() as u64;
    let flag = reader.read_u8()?;
    if flag == 0 {
        let kept = copy_old_row(old, near, b, j, masses)?;
        if !kept {
            return Err(CodecFault::Bad { place });
        }
        return Ok(());
    }
    if flag != 1 {
        return Err(CodecFault::Bad { place });
    }
    let before = masses.len();
    read_new_masses(p, kind, b.width(), reader, masses)?;
    if has_masses(old, b, j, 0, &masses[before..]) {
        return Err(CodecFault::Bad { place });
    }
    Ok(())
}

/// The masses of a box, row by row. Memory is taken for rows that were read whole.
fn read_changed_rows(
    alloc: Global,
    p: &Problem,
    kind: MassKind,
    old: Option<&Level>,
    b: &Bx,
    reader: &mut Reader<'_>,
) -> Result<Vec<u32>, CodecFault>
    requires step { kind.step ≤ 4096 }
    requires level { kind.level ≤ 4 }
    requires near { IsNear b.now }
    ensures read { IfOk result (λ ms. read_all_changed (masses_before old.entry) p.now kind.step kind.level (cell_rows b.now) (left_of reader.old)
        ≡ read ms.items (left_of reader.new)) }
    ensures bad { IfErr result (IsFaultOf (read_all_changed (masses_before old.entry) p.now kind.step kind.level (cell_rows b.now) (left_of reader.old))) }
    ensures count { IfOk result (λ ms. length ms.items ≡ boxes.width b.now * boxes.height b.now) }
    ensures whole { whole_of reader.new ≡ whole_of reader.old }
{
    let mut masses = Vec::new(alloc);
    let mut near = 0;
    for j in 0..b.height() {
        read_changed_row(p, kind, old, &mut near, b, j, reader, &mut masses)?;
    }
    Ok(masses)
}

/// The masses of a box by a form, tested, and where they are from then on. Whole ones are gone over in one pass and stay in the
/// bytes.
pub(crate) fn read_box_masses(
    alloc: Global,
    p: &Problem,
    form: &Form<'_>,
    kind: MassKind,
    b: &Bx,
    reader: &mut Reader<'_>,
) -> Result<Source, CodecFault>
    requires step { kind.step ≤ 4096 }
    requires level { kind.level ≤ 4 }
    requires near { IsNear b.now }
    ensures read { IfOk result (λ s. read_box_masses (form_of form.now) p.now kind.step kind.level b.now (left_of reader.old)
        ≡ read (masses_of (whole_of reader.old) s (boxes.width b.now * boxes.height b.now)) (left_of reader.new)) }
    ensures bad { IfErr result (IsFaultOf (read_box_masses (form_of form.now) p.now kind.step kind.level b.now (left_of reader.old))) }
    ensures there { IfOk result (λ s. HasMasses (whole_of reader.old) s (boxes.width b.now * boxes.height b.now)) }
    ensures whole { whole_of reader.new ≡ whole_of reader.old }
{
    match form {
        Form::Whole(width) => {
            let from = reader.place();
            read_masses(p, *width, kind, b.area(), reader)?;
            Ok(Source::Bytes(*width, from))
        }
        Form::Changed(old) => {
            let masses = read_changed_rows(alloc, p, kind, *old, b, reader)?;
            Ok(Source::List(masses))
        }
    }
}
