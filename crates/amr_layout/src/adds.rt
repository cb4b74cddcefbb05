//! The flows of a patch to words: through the faces on its edges whose flows go to the ledger or to register cells.

ghost use Rattle.std.specs.Prelude.{◌≡◌, ℕ, ◌+◌, ◌*◌, ◌≤◌, ◌<◌, ◌++◌, ◌^◌, pos, int_lt};
ghost use Rattle.std.specs.Prelude.{not, cond, length, is_some, IfSome, OnOk, IsTrue, Contains};
ghost use Rattle.std.specs.Option.{option_copied};
ghost use Rattle.amr_box.specs.Cells.{IsNear};
ghost use Rattle.amr_def.specs.Domain.{domain};
ghost use Rattle.amr_def.specs.State.{is_covered};
ghost use Rattle.amr_faces.specs.Faces.{IsInDomain};
ghost use Rattle.amr_patch.specs.Gaps.{IsGap};
ghost use Rattle.amr_layout.specs.Arounds.{CanSearch, around_of, AreAll};
ghost use Rattle.amr_layout.specs.Surroundings.{IsInRowOrColumn, IsNearFace, IsReachable, LiesBesideLevel};
ghost use Rattle.amr_layout.specs.Surroundings.{edge_count, edge_face, finer_masses, is_coarse_fine};
ghost use Rattle.amr_layout.specs.Adds.{AreInOrder, HasCellsBeyond, cell_beyond, flow_to_any, flows_of, goes_on, number_of, word_of};

use crate::FlowTo;
use crate::faces::{edge_count, edge_face, inside, inward, outside};
use crate::lookup::{Trace, is_covered, look_beside};
use crate::registers::next_number;
use crate::stretches::more_beside;
use amr_box::{Bx, Cell, Face, parent};
use amr_causes::NoMemory;
use amr_def::Problem;
use amr_patch::{Level, Order, Patch, Starts};
use std::snapshot::Snapshot;

/// A level with what lies around it.
#[derive(Clone, Copy)]
pub struct Surroundings<'a> {
    pub problem: &'a Problem,
    /// The number of the level.
    pub level: u32,
    /// The patches of the level that are worked on.
    pub patches: &'a [Patch],
    pub order: Order,
    /// Where the patches start.
    pub starts: &'a Starts,
    /// The register cells of the next coarser level, by y, then by x; none at level 0.
    pub cells: &'a [Cell],
    /// The next finer level, where there is one.
    pub finer: Option<&'a Level>,
    /// Whether the frames of the patches are filled beforehand.
    pub filled: bool,
    /// All patches of the level, for contracts alone.
    pub whole: &'a Snapshot<Vec<Patch>>,
}

/// Where the look-ups for a patch begin: among the patches of its level, among those of the next finer one, and among register
/// cells.
#[derive(Clone, Copy)]
pub(crate) struct Near {
    pub(crate) level: Trace,
    pub(crate) finer: usize,
    pub(crate) register: usize,
}

/// The word of the ledger for what flows through a face of an open side, beside this cell: its inflow or its outflow. None where the cell is
/// covered.
fn ledger_word(finer: Option<&Level>, near: &mut usize, c: Cell, inward: i64) -> Option<u32>
    requires { IsReachable c }
    ensures told { is_some result ≡ not (is_covered (finer_masses (option_copied finer.entry)) c) }
    ensures word { IfSome result (λ w. w ≡ cond (int_lt (pos 0) inward) 0 1) }
{
    if is_covered(finer, near, c) {
        return None;
    }
    Some(if 0 < inward { 0 } else { 1 })
}

/// The word of a register cell for a flow out of the patch, its gain, or into the patch, its loss.
fn register_word(cells: &[Cell], near: &mut usize, inward: i64, c: Cell) -> u32
    requires ordered { AreInOrder cells.now }
    requires few { length cells.now ≤ 2 ^ 30 }
    requires there { Contains cells.now c }
    ensures { result ≡ cond (int_lt inward (pos 0)) (2 + 2 * number_of cells.now c) (3 + 2 * number_of cells.now c) }
{
    let k = next_number(cells, near, c) as u32;
    if inward < 0 { 2 + 2 * k } else { 3 + 2 * k }
}

/// The word that the flow through a face on the edges of a patch's box goes to, if to one.
fn word_of(s: Surroundings<'_>, near: &mut Near, b: &Bx, f: Face) -> Option<u32>
    requires search { CanSearch s }
    requires gap { IsGap s.patches.now near.old.level.gap }
    requires lies { IsInRowOrColumn s.problem.now s.level f }
    requires near { IsNearFace f }
    requires there { IsTrue (is_coarse_fine (around_of s) b.now f) → Contains s.cells.now (cell_beyond (around_of s) b.now f) }
    ensures told { is_some result ≡ goes_on (around_of s.entry) b.now f }
    ensures word { IfSome result (λ w. w ≡ word_of (around_of s.entry) b.now f) }
    ensures gap { IsGap s.entry.patches.now near.new.level.gap }
{
    let inward = inward(s.problem, s.level, b, f);
    if inward == 0 {
        return None;
    }
    let dom = s.problem.domain(s.level);
    let home = dom.home_cell(outside(b, f));
    if !dom.in_domain(home) {
        return ledger_word(s.finer, &mut near.finer, inside(b, f), inward);
    }
    if look_beside(s.patches, s.order, s.starts, &mut near.level, home).is_some() {
        return None;
    }
    let cell = parent(home);
    let word = register_word(s.cells, &mut near.register, inward, cell);
    Some(word)
}

/// How many of the faces after face `n`, whose flow goes to this word, lie beside the patch found last: their flows go to none.
fn more_kept(s: Surroundings<'_>, at: usize, b: &Bx, n: u32, word: Option<u32>) -> u32
    requires level { s.level ≤ 4 }
    requires all { AreAll s }
    requires near { IsNear b.now }
    requires inside { IsInDomain (domain s.problem.now s.level) b.now }
    requires there { n < edge_count b.now }
    ensures count { n + result < edge_count b.now }
    ensures beside { (m : ℕ) → n < m → m ≤ n + result → LiesBesideLevel (around_of s.entry) b.now (edge_face b.now m) }
{
    match word {
        None => more_beside(s, at, b, n),
        Some(_) => 0,
    }
}

/// Puts the flow through a face behind a list, where it goes to a word.
fn append_flow(flows: &mut Vec<FlowTo>, word: Option<u32>, face: Face) -> Result<(), NoMemory>
    ensures { OnOk result (flows.new.items ≡ flows.old.items ++ flow_to_any word face) }
{
    if let Some(word) = word {
        flows.push(FlowTo { word, face })?;
    }
    Ok(())
}

/// Puts the flows of a patch's box behind a list.
pub(crate) fn append_flows(
    s: Surroundings<'_>,
    near: &mut Near,
    b: &Bx,
    flows: &mut Vec<FlowTo>,
) -> Result<(), NoMemory>
    requires search { CanSearch s }
    requires gap { IsGap s.patches.now near.old.level.gap }
    requires near { IsNear b.now }
    requires inside { IsInDomain (domain s.problem.now s.level) b.now }
    requires there { HasCellsBeyond (around_of s) b.now }
    ensures gap { OnOk result (IsGap s.entry.patches.now near.new.level.gap) }
    ensures flows { OnOk result (flows.new.items ≡ flows.old.items ++ flows_of (around_of s.entry) b.now) }
{
    let count = edge_count(b);
    let mut n = 0;
    'faces: while n < count {
        let f = edge_face(b, n);
        let word = word_of(s, near, b, f);
        append_flow(flows, word, f)?;
        n = n + 1 + more_kept(s, near.level.patch, b, n, word);
    }
    Ok(())
}
