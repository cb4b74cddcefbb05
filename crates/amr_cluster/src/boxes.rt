//! The boxes round the tags of a level.

ghost use Rattle.std.specs.Prelude.{◌≡◌, ℕ, ◌+◌, ◌-◌, ◌*◌, ◌≤◌, ◌++◌, length, IfOk, OnOk};
ghost use Rattle.amr_box.specs.Cells.{IsNear, below_cut, from_cut};
ghost use Rattle.amr_def.specs.Cluster.{cluster, edge};
ghost use Rattle.amr_sign.specs.Scan.{defined_cut};
ghost use Rattle.amr_tags.specs.TagSets.{has};
ghost use Rattle.amr_cluster.specs.Laws.{IsInside};
ghost use Rattle.amr_tags.specs.Stored.{IsPart};
ghost use Rattle.amr_cluster.specs.Work.{IsWork, cells_in, waiting, work_left};

use crate::cut_boxes::{CutBox, cut_box_of};
use amr_box::{Axis, Bx};
use amr_boxlist::BoxList;
use amr_causes::NoMemory;
use amr_sign::Cut;
use amr_tags::Tags;
use std::alloc::Global;

/// A box, and where it is cut in two.
#[derive(Clone, Copy)]
struct Split {
    bx: Bx,
    cut: Cut,
}

/// Puts the least box round the tags of a box on the work list, where there is a tag.
fn push_cut_box(
    alloc: Global,
    work: &mut Vec<CutBox>,
    tags: &Tags,
    part: Bx,
    efficiency: u32,
    w: u32,
) -> Result<(), NoMemory>
    requires near { IsNear part }
    requires inside { IsPart tags.now.bx part }
    requires work { IsWork efficiency w (has tags.now) tags.now.bx work.old.items }
    ensures waiting { OnOk result (waiting efficiency w (has tags.now) work.new.items
        ≡ cluster efficiency w (cells_in (has tags.now) part) ++ waiting efficiency w (has tags.now) work.old.items) }
    ensures work { OnOk result (IsWork efficiency w (has tags.now) tags.now.bx work.new.items) }
    ensures left { OnOk result (work_left (has tags.now) work.new.items
        ≤ work_left (has tags.now) work.old.items + (2 * length (cells_in (has tags.now) part) - 1)) }
{
    match cut_box_of(alloc, tags, part, efficiency, w)? {
        Some(cut_box) => {
            work.push(cut_box)?;
            Ok(())
        }
        None => Ok(()),
    }
}

/// The first column or row of the high part of a cut.
fn edge(part: Bx, cut: Cut) -> i32
    requires near { IsNear part }
    requires cut_inside { IsInside part (defined_cut cut) }
    ensures { result ≡ edge part (defined_cut cut) }
{
    match cut.axis {
        Axis::X => part.lo().x + cut.at as i32,
        Axis::Y => part.lo().y + cut.at as i32,
    }
}

/// Puts both parts of a box that is cut on the work list, so that the low one is next.
fn push_parts(
    alloc: Global,
    work: &mut Vec<CutBox>,
    tags: &Tags,
    split: Split,
    efficiency: u32,
    w: u32,
) -> Result<(), NoMemory>
    requires near { IsNear split.bx }
    requires inside { IsPart tags.now.bx split.bx }
    requires cut_inside { IsInside split.bx (defined_cut split.cut) }
    requires work { IsWork efficiency w (has tags.now) tags.now.bx work.old.items }
    ensures waiting { OnOk result (waiting efficiency w (has tags.now) work.new.items
        ≡ (cluster efficiency w (cells_in (has tags.now) (below_cut split.cut.axis (edge split.bx (defined_cut split.cut)) split.bx))
        ++ cluster efficiency w (cells_in (has tags.now) (from_cut split.cut.axis (edge split.bx (defined_cut split.cut)) split.bx)))
        ++ waiting efficiency w (has tags.now) work.old.items) }
    ensures work { OnOk result (IsWork efficiency w (has tags.now) tags.now.bx work.new.items) }
    ensures left { OnOk result (work_left (has tags.now) work.new.items
        ≤ (work_left (has tags.now) work.old.items
        + (2 * length (cells_in (has tags.now) (from_cut split.cut.axis (edge split.bx (defined_cut split.cut)) split.bx)) - 1))
        + (2 * length (cells_in (has tags.now) (below_cut split.cut.axis (edge split.bx (defined_cut split.cut)) split.bx)) - 1)) }
{
    let Split { bx, cut } = split;
    let (low, high) = bx.cut_at(cut.axis, edge(bx, cut));
    push_cut_box(alloc, work, tags, high, efficiency, w)?;
    push_cut_box(alloc, work, tags, low, efficiency, w)?;
    Ok(())
}

/// The boxes round the tags. The least box round them is kept where at least `efficiency` per cent of its cells are
/// tagged, or where no cut leaves both parts `w` wide. Else they are the boxes of the part below the cut, and then
/// those of the rest. They have no cell in common and hold every tag. No tags give no boxes.
///
/// The words of each box on the work list are gone over once. `NoMemory` comes where allocation fails: nothing is kept then,
/// and the tags, which are only read, are as before.
pub fn cluster(alloc: Global, tags: &Tags, efficiency: u32, w: u32) -> Result<BoxList, NoMemory>
    requires { 1 ≤ w }
    ensures { IfOk result (λ boxes. boxes ≡ cluster efficiency w (cells_in (has tags.now) tags.now.bx)) }
{
    let mut boxes = BoxList::make(alloc);
    let mut work = Vec::new(alloc);
    let whole = tags.bx();
    push_cut_box(alloc, &mut work, tags, whole, efficiency, w)?;
    while let Some(cut_box) = work.pop() {
        match cut_box.cut {
            None => boxes.push_disjoint(cut_box.bx)?,
            Some(cut) => {
                let split = Split {
                    bx: cut_box.bx,
                    cut,
                };
                push_parts(alloc, &mut work, tags, split, efficiency, w)?;
            }
        }
    }
    Ok(boxes)
}
