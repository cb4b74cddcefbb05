//! Ghost cells beside the patches of a run that get no mass of a patch of the level.

ghost use Rattle.std.specs.Prelude.{◌≡◌, ℕ, ◌/◌, ◌<◌, ◌≤◌, false, length, slice_index, IfOk, IsTrue};
ghost use Rattle.std.specs.Option.{option_copied};
ghost use Rattle.std.specs.List.{All};
ghost use Rattle.amr_box.specs.Cells.{holds, parent};
ghost use Rattle.amr_def.specs.Domain.{domain};
ghost use Rattle.amr_def.specs.State.{Masses, mass_of};
ghost use Rattle.amr_def.specs.Value.{value_at};
ghost use Rattle.amr_patch.specs.Patches.{box, mass_in};
ghost use Rattle.amr_patch.specs.Levels.{level_of};
ghost use Rattle.amr_ghost.specs.Strips.{HasRoom, step};
ghost use Rattle.amr_ghost.specs.Frames.{is_of_level, old_masses};
ghost use Rattle.amr_ghost.specs.GhostCells.{AreGiven};
ghost use Rattle.amr_ghost.specs.Outer.{AreOuterFor, AreOuterValuesFor, HasNoMass, HasOuterGiven};
ghost use Rattle.amr_ghost.specs.Outer.{HasOuterPlaces, IsOuterSpan, IsSpanBeside, lent, value_count};

use crate::entries::{Entries, entries_of, quarter_entries};
use crate::ghosts::give_strip;
use crate::outside::outside_value;
use crate::places::{children_ahead, odd_along, step};
use crate::sources::{GhostSpan, Source};
use amr_box::{Axis, Cell, parent};
use amr_causes::NoMemory;
use amr_def::Problem;
use amr_patch::{Level, Patch, find_near};
use std::alloc::Global;
use std::sync::Arc;

/// Ghost cells beside the patches of a run that get no mass of a patch of the level: they lie over the next coarser level, or outside
/// the domain. And a value for each. It serves each step until a regrid.
#[derive(Drop)]
pub struct OuterGhosts {
    /// Which ghost cells. Their patches are numbered within the run.
    pub spans: Vec<GhostSpan>,
    /// The values, one span after another.
    pub values: Vec<u32>,
    /// The next coarser level at the start of its step, while a worker who has no other way to it works the values out; else none.
    pub coarser: Option<Arc<Level, Global>>,
}

impl OuterGhosts {
    /// Ghost cells of these spans. All their values are 0. `NoMemory` is the only refusal.
    pub fn make(alloc: Global, spans: Vec<GhostSpan>) -> Result<OuterGhosts, NoMemory>
        ensures spans { IfOk result (λ x. x.spans ≡ spans) }
        ensures places { IfOk result HasOuterPlaces }
    {
        let count = count_values(&spans)?;
        Ok(OuterGhosts {
            spans,
            values: vec![in alloc; 0u32; count]?,
            coarser: None,
        })
    }

    /// Works out the values of the ghost cells, which lie beside patches of level `l`: outside an open side that side's inflow, else a
    /// quarter of the mass of each one's parent in `old`, the next coarser level at the start of its step. It looks at no patch of the
    /// level, and takes no memory.
    pub fn find_values(&mut self, p: &Problem, l: u32, old: Option<&Level>)
        requires level { l ≤ 4 }
        requires spans { All (IsOuterSpan (domain p.now l)) self.old.spans.items }
        requires places { HasOuterPlaces self.old }
        ensures spans { self.new.spans ≡ self.old.spans }
        ensures places { HasOuterPlaces self.new }
        ensures coarser { self.new.coarser ≡ self.old.coarser }
        ensures found { (m : Masses) → All (HasNoMass (domain p.now l) m) self.new.spans.items
            → AreOuterFor (value_at p.now l m (old_masses (option_copied old.entry))) (is_of_level p.now l m) self.new }
    {
        find_all(p, l, &self.spans, old, &mut self.values);
    }

    /// The same, by the coarser level that was lent.
    pub fn find_lent_values(&mut self, p: &Problem, l: u32)
        requires level { l ≤ 4 }
        requires spans { All (IsOuterSpan (domain p.now l)) self.old.spans.items }
        requires places { HasOuterPlaces self.old }
        ensures spans { self.new.spans ≡ self.old.spans }
        ensures places { HasOuterPlaces self.new }
        ensures coarser { self.new.coarser ≡ self.old.coarser }
        ensures found { (m : Masses) → All (HasNoMass (domain p.now l) m) self.new.spans.items
            → AreOuterFor (value_at p.now l m (old_masses (lent self.old.coarser))) (is_of_level p.now l m) self.new }
    {
        match &self.coarser {
            Some(level) => find_all(p, l, &self.spans, Some(&**level), &mut self.values),
            None => find_all(p, l, &self.spans, None, &mut self.values),
        }
    }
}

/// How many values spans take. `NoMemory` where there are more than any memory has.
fn count_values(spans: &[GhostSpan]) -> Result<usize, NoMemory>
    ensures { IfOk result (λ count. count ≡ value_count spans.now) }
{
    let mut count = 0usize;
    for k in 0..spans.len() {
        count = count
            .checked_add(spans[k].strip.count as usize)
            .ok_or(NoMemory)?;
    }
    Ok(count)
}

/// Where the look-ups of coarser patches begin: at the one that served last for a span along the same axis.
#[derive(Clone, Copy, Debug)]
struct NearAlong {
    x: usize,
    y: usize,
}

/// That for spans along an axis.
fn near_along(near: &mut NearAlong, axis: Axis) -> &mut usize {
    match axis {
        Axis::X => &mut near.x,
        Axis::Y => &mut near.y,
    }
}

/// Gives the first values quarters of masses of a level, and answers how many: as many as lie over one patch of it. The masses are
/// those of the parents of the cells from `from` on, 0 where the level has no such cell.
fn quarter_first(level: &Level, axis: Axis, from: Cell, values: &mut [u32], near: &mut usize) -> u32
    requires some { 0 < length values.old }
    requires small { length values.old ≤ 8192 }
    ensures some { 0 < result }
    ensures within { result ≤ length values.old }
    ensures count { length values.new ≡ length values.old }
    ensures quarters { (k : ℕ) → k < result → slice_index values.new k ≡ mass_of (level_of level.now).masses (parent (step axis from k)) / 4 }
{
    let coarse = level.patches();
    match find_near(coarse, level.order(), near, parent(from)) {
        Some(j) => {
            let count = children_ahead(&coarse[j].bx(), axis, from).min(values.len() as u32);
            quarter_held(&coarse[j], axis, from, &mut values[..count as usize]);
            count
        }
        None => {
            values[0] = 0;
            1
        }
    }
}

/// Gives values quarters of the masses that a patch of a level has in the parents of the cells from one on.
#[inline(always)]
fn quarter_held(source: &Patch, axis: Axis, from: Cell, values: &mut [u32])
    requires some { 0 < length values.old }
    requires masses { (k : ℕ) → k < length values.old → IsTrue (holds (box source.now) (parent (step axis from k))) }
    ensures count { length values.new ≡ length values.old }
    ensures quarters { (k : ℕ) → k < length values.old → slice_index values.new k ≡ mass_in source.now (parent (step axis from k)) / 4 }
{
    let parents = entries_of(&source.bx(), axis, parent(from));
    let skipped = odd_along(axis, from) as usize;
    let dense = Entries {
        first: 0,
        stride: 1,
    };
    let count = values.len();
    let held = &*source.data;
    quarter_entries(&held.values, parents, skipped, values, dense, count);
}

/// Gives values quarters of masses of the next coarser level at the start of its step: those of the parents of the cells from `from`
/// on. All are 0 where there is no such level.
fn quarter_values(old: Option<&Level>, axis: Axis, from: Cell, values: &mut [u32], near: &mut usize)
    requires small { length values.old ≤ 8192 }
    requires room { HasRoom from }
    ensures count { length values.new ≡ length values.old }
    ensures quarters { (k : ℕ) → k < length values.old
        → slice_index values.new k ≡ mass_of (old_masses (option_copied old.entry)) (parent (step axis from k)) / 4 }
{
    let Some(level) = old else {
        values.fill(0);
        return;
    };
    let count = values.len() as u32;
    let mut done = 0;
    while done < count {
        let first = step(axis, from, done);
        done += quarter_first(level, axis, first, &mut values[done as usize..], near);
    }
}

/// Works out the values of a span's ghost cells.
fn find_span(
    p: &Problem,
    l: u32,
    span: GhostSpan,
    old: Option<&Level>,
    values: &mut [u32],
    near: &mut usize,
)
    requires level { l ≤ 4 }
    requires span { IsOuterSpan (domain p.now l) span }
    requires count { length values.old ≡ span.strip.count }
    ensures count { length values.new ≡ length values.old }
    ensures found { (m : Masses) → HasNoMass (domain p.now l) m span
        → AreGiven (value_at p.now l m (old_masses (option_copied old.entry))) (is_of_level p.now l m) span.strip.axis span.strip.from span.strip.count
        (λ k. slice_index values.new k) false }
{
    match span.source {
        Source::Outside => {
            let home = p.domain(l).home_cell(span.strip.from);
            values.fill(outside_value(p, l, home) as u32);
        }
        Source::Coarser(home) => quarter_values(old, span.strip.axis, home, values, near),
        Source::Beside(_, _) => unreachable!(),
    }
}

/// Works out the values of the ghost cells of spans, one span after another.
fn find_all(p: &Problem, l: u32, spans: &[GhostSpan], old: Option<&Level>, values: &mut [u32])
    requires level { l ≤ 4 }
    requires spans { All (IsOuterSpan (domain p.now l)) spans.now }
    requires places { length values.old ≡ value_count spans.now }
    ensures count { length values.new ≡ length values.old }
    ensures found { (m : Masses) → All (HasNoMass (domain p.now l) m) spans.now
        → AreOuterValuesFor (value_at p.now l m (old_masses (option_copied old.entry))) (is_of_level p.now l m) spans.now values.new }
{
    let mut near = NearAlong { x: 0, y: 0 };
    let mut done = 0;
    for k in 0..spans.len() {
        let span = spans[k];
        let end = done + span.strip.count as usize;
        let first = near_along(&mut near, span.strip.axis);
        find_span(p, l, span, old, &mut values[done..end], first);
        done = end;
    }
}

/// Gives the ghost cells of spans beside a run's patches their values, one span after another. None is marked as a cell of the level.
pub(crate) fn give_outer(patches: &mut [Patch], spans: &[GhostSpan], values: &[u32])
    requires spans { All (IsSpanBeside patches.old) spans.now }
    requires places { length values.now ≡ value_count spans.now }
    ensures { HasOuterGiven spans.now values.now patches.old patches.new }
{
    let mut done = 0;
    for k in 0..spans.len() {
        let span = spans[k];
        let end = done + span.strip.count as usize;
        let given = &values[done..end];
        give_strip(patches, span.patch, span.strip, given, false);
        done = end;
    }
}
