//! The masses of a box, row by row.

ghost use Rattle.std.specs.Prelude.{◌≡◌, ℕ, ◌+◌, ◌*◌, ◌/◌, ◌^◌, ◌<◌, ◌≤◌, [], ◌∷◌, ◌++◌, false, length, slice_index, pos, ◌+ℤ◌, ◌≤ℤ◌, IsTrue, OnOk, OnErr};
ghost use Rattle.amr_box.specs.declared.Cell.{Cell};
ghost use Rattle.amr_box.specs.Cells.{IsNear, cell, holds, width};
ghost use Rattle.amr_causes.specs.Bytes.{Grows, TakesPrefix};
ghost use Rattle.amr_causes.specs.Causes.{HasCause};
ghost use Rattle.amr_def.specs.Domain.{domain, in_domain};
ghost use Rattle.amr_def.specs.View.{finest_mass, view};
ghost use Rattle.amr_io.specs.Short.{FallsShort};
ghost use Rattle.amr_patch.specs.Meshes.{is_spent, state_of};
ghost use Rattle.amr_plot.specs.Pens.{Puts};
ghost use Rattle.amr_plot.specs.Texts.{masses_text};
ghost use Rattle.amr_view.specs.Rows.{HasWholeColumns};

use crate::rows::fill_row;
use amr_box::{Bx, Cell, distance};
use amr_def::Problem;
use amr_io::{Fragment, Sink, Text, WriteFault};
use amr_patch::Mesh;
use amr_plot::{Pen, Sheet, put_masses};

/// How many columns the finest level has at most.
const ROOM: usize = 4096;

/// The columns of level `l` that lie in the columns of level 0 which columns `low` to `high` meet: the first, and the one after the last.
fn whole_columns(l: u32, low: u32, high: u32) -> (u32, u32)
    requires fine { l ≤ 4 }
    requires low { low < 4096 }
    requires high { high < 4096 }
    ensures first { result.0 ≡ low / 2 ^ l * 2 ^ l }
    ensures after { result.1 ≡ (high / 2 ^ l + 1) * 2 ^ l }
    ensures west { result.0 ≤ low }
    ensures east { high < result.1 }
    ensures room { result.1 ≤ 4096 }
{
    let first = low >> l;
    let last = high >> l;
    (first << l, (last + 1) << l)
}

/// Row `y` of the box, widened to whole columns of level 0.
fn widened_row(p: &Problem, l: u32, b: &Bx, y: i32) -> Bx
    requires fine { l ≤ 4 }
    requires inside { (c : Cell) → IsTrue (holds b.now c) → IsTrue (in_domain (domain p.now l) c) }
    requires low { b.now.lo.y ≤ℤ y }
    requires high { y ≤ℤ b.now.hi.y }
    ensures columns { HasWholeColumns l result }
    ensures near { IsNear result }
    ensures narrow { width result ≤ 4096 }
    ensures row { result.lo.y ≡ y }
    ensures west { result.lo.x ≤ℤ b.now.lo.x }
    ensures east { b.now.hi.x ≤ℤ result.hi.x }
{
    let low = b.lo().x as u32;
    let high = b.hi().x as u32;
    let (first, after) = whole_columns(l, low, high);
    let lo = Cell { x: first as i32, y };
    let hi = Cell {
        x: after as i32 - 1,
        y,
    };
    Bx::try_new(lo, hi).unwrap()
}

/// Works out the masses of row `y` of the box. They stand from the answer on.
fn find_row(
    p: &Problem,
    mesh: &Mesh,
    l: u32,
    b: &Bx,
    y: i32,
    masses: &mut [u32],
    spare: &mut [u32],
) -> usize
    requires whole { is_spent mesh.now ≡ false }
    requires fine { l ≤ 4 }
    requires inside { (c : Cell) → IsTrue (holds b.now c) → IsTrue (in_domain (domain p.now l) c) }
    requires low { b.now.lo.y ≤ℤ y }
    requires high { y ≤ℤ b.now.hi.y }
    requires masses { length masses.old ≡ 4096 }
    requires spare { length spare.old ≡ 4096 }
    ensures within { result + width b.now ≤ length masses.new }
    ensures masses { (k : ℕ) → k < width b.now → slice_index masses.new (result + k) ≡ finest_mass (state_of mesh.now) l (cell (b.now.lo.x +ℤ pos k) y) }
{
    let row = widened_row(p, l, b, y);
    let width = row.width() as usize;
    fill_row(mesh, l, &row, &mut masses[..width], spare);
    distance(row.lo().x, b.lo().x)
}

/// Puts a row of masses, and the end of the line.
fn put_line<P: Pen>(masses: &[u32], pen: &mut P) -> Result<(), P::Fault>
    requires { length masses.now < 2 ^ 32 }
    ensures { Puts P.wrote P.failed pen.old pen.new (masses_text 0 masses.now ++ 10 ∷ []) result }
{
    put_masses(0, masses, pen)?;
    pen.put_fragments(&[Fragment::Str("\n")])
}

/// The rows of the box, from the low one on.
fn put_rows<P: Pen>(p: &Problem, mesh: &Mesh, l: u32, b: &Bx, pen: &mut P) -> Result<(), P::Fault>
    requires whole { is_spent mesh.now ≡ false }
    requires fine { l ≤ 4 }
    requires inside { (c : Cell) → IsTrue (holds b.now c) → IsTrue (in_domain (domain p.now l) c) }
    ensures { Puts P.wrote P.failed pen.old pen.new (view (state_of mesh.now) l b.now) result }
{
    let mut masses = [0u32; ROOM];
    let mut spare = [0u32; ROOM];
    let low = b.lo().y;
    let width = b.width() as usize;
    let height = b.height();
    for row in 0..height {
        let y = low + row as i32;
        let from = find_row(p, mesh, l, b, y, &mut masses, &mut spare);
        put_line(&masses[from..from + width], pen)?;
    }
    Ok(())
}

/// The rows of the box, all of them sent, from a buffer that keeps nothing back.
fn write_rows<O: Sink>(
    p: &Problem,
    mesh: &Mesh,
    l: u32,
    b: &Bx,
    sheet: &mut Sheet<'_, O>,
) -> Result<(), WriteFault>
    requires whole { is_spent mesh.now ≡ false }
    requires fine { l ≤ 4 }
    requires inside { (c : Cell) → IsTrue (holds b.now c) → IsTrue (in_domain (domain p.now l) c) }
    requires empty { sheet.old.text ≡ [] }
    ensures same { sheet.new.sink.ghost_name ≡ sheet.old.sink.ghost_name }
    ensures whole { OnOk result (Grows O.holds sheet.old.sink.now sheet.new.sink.now (view (state_of mesh.now) l b.now)) }
    ensures part { TakesPrefix O.holds sheet.old.sink.now sheet.new.sink.now (view (state_of mesh.now) l b.now) }
    ensures short { OnErr result (FallsShort O.holds sheet.old.sink.now sheet.new.sink.now (view (state_of mesh.now) l b.now)) }
    ensures no_fault { OnOk result (O.faults sheet.new.sink.now ≡ O.faults sheet.old.sink.now) }
    ensures cause { HasCause (O.faults sheet.old.sink.now) (O.faults sheet.new.sink.now) result }
{
    put_rows(p, mesh, l, b, sheet)?;
    sheet.finish()
}

/// Writes the finest masses that are known in a box of level `l`, row by row from the low one, as in a plot. A cell that is not of the
/// level has its child share of what its parent has, level by level. The text goes through a buffer of fixed size; it takes no memory.
///
/// The mesh is not spent, `l` is at most `max_level`, and the box lies in the domain of level `l`. A `WriteFault` comes only where the
/// sink's count of faults rose; a prefix of the view went out, and not all of it.
pub fn view<O: Sink>(
    p: &Problem,
    mesh: &Mesh,
    l: u32,
    b: Bx,
    sink: &mut O,
) -> Result<(), WriteFault>
    requires whole { is_spent mesh.now ≡ false }
    requires fine { l ≤ p.now.max_level }
    requires inside { (c : Cell) → IsTrue (holds b c) → IsTrue (in_domain (domain p.now l) c) }
    ensures whole { OnOk result (Grows O.holds sink.old sink.new (view (state_of mesh.now) l b)) }
    ensures part { TakesPrefix O.holds sink.old sink.new (view (state_of mesh.now) l b) }
    ensures short { OnErr result (FallsShort O.holds sink.old sink.new (view (state_of mesh.now) l b)) }
    ensures no_fault { OnOk result (O.faults sink.new ≡ O.faults sink.old) }
    ensures cause { HasCause (O.faults sink.old) (O.faults sink.new) result }
{
    let mut sheet = Sheet {
        text: Text::make(),
        sink,
    };
    write_rows(p, mesh, l, &b, &mut sheet)
}
