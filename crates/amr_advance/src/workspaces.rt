//! The workspaces of lots: what a worker needs for a run of a level's patches.

ghost use Rattle.std.specs.Prelude.{◌≡◌, ◌≢◌, ◌+◌, ◌*◌, ◌<◌, ◌≤◌, ◌^◌, ℕ, [], take, drop, IfOk, length, slice_index_or};
ghost use Rattle.std.specs.List.{All};
ghost use Rattle.std.specs.Global.{Vec as vec};
ghost use Rattle.amr_box.specs.Cells.{width};
ghost use Rattle.amr_flux.specs.declared.fluxes.PatchSides.{PatchSides as sides};
ghost use Rattle.amr_patch.specs.declared.patches.Patch.{Patch as patch};
ghost use Rattle.amr_patch.specs.Patches.{box};
ghost use Rattle.amr_ghost.specs.Messages.{HasPlaces};
ghost use Rattle.amr_ghost.specs.declared.messages.Message.{Message as message};
ghost use Rattle.amr_ghost.specs.declared.parts.FrameCopy.{FrameCopy as frame_copy};
ghost use Rattle.amr_layout.specs.declared.PatchLayout.{PatchLayout as layout};
ghost use Rattle.amr_layout.specs.LevelFlowLists.{HasFlowsAt};
ghost use Rattle.amr_layout.specs.Arounds.{around_of};
ghost use Rattle.amr_lots.specs.Ready.{HasFlowsIn};
ghost use Rattle.amr_lots.specs.Works.{places_read};
ghost use Rattle.amr_advance.specs.Cuts.{AreLayoutsOfRun, AreLevelFlows, IsCut, IsRunOf, IsWholeWorkspace, IsWorkspaceOf};
ghost use Rattle.amr_advance.specs.Lots.{AreMessagesOf, PutsLieOn};

use amr_causes::NoMemory;
use amr_flux::{PatchSides, Room};
use amr_ghost::{FrameCopy, FrameParts, Message, OuterGhosts};
use amr_layout::{LevelFlows, PatchLayout, PutAt, RunFlows, Surroundings, flows_of_part};
use amr_lots::{Workspace, sides_of};
use amr_patch::Patch;
use std::alloc::Global;
use std::mem::replace;

/// What the lots of a level are made by: runs of its patches, what each patch adds, and a plan of its frames in parts, run by run.
#[derive(Clone, Copy)]
pub(crate) struct Cut<'a> {
    /// How many patches each run has; the last may have fewer.
    pub(crate) each: usize,
    /// How many runs there are.
    pub(crate) runs: usize,
    pub(crate) flows: &'a LevelFlows,
    pub(crate) parts: &'a FrameParts,
}

/// Messages for so many of these lists of copies: for that at `first`, and for each `stride` places further. That of number `own` is empty.
fn messages_for(
    alloc: Global,
    lists: &[Vec<FrameCopy>],
    first: usize,
    stride: usize,
    count: usize,
    own: usize,
) -> Result<Vec<Message>, NoMemory>
    requires there { (t : ℕ) → t < count → first + t * stride < length lists.now }
    ensures count { IfOk result (λ xs. length xs.items ≡ count) }
    ensures copies { IfOk result (λ xs. (t : ℕ) (m : message) (v : vec frame_copy) → t < count → t ≢ own
        → (slice_index_or xs.items t m).copies.items ≡ (slice_index_or lists.now (first + t * stride) v).items) }
    ensures own { IfOk result (λ xs. (m : message) → own < count → (slice_index_or xs.items own m).copies.items ≡ []) }
    ensures places { IfOk result (λ xs. All HasPlaces xs.items) }
{
    let mut messages = Vec::with_capacity(alloc, count)?;
    for t in 0..count {
        if t == own {
            messages.push_reserved(Message::empty(alloc));
        } else {
            let copies = Vec::from_slice(alloc, &lists[first + t * stride])?;
            messages.push_reserved(Message::make(alloc, copies)?);
        }
    }
    Ok(messages)
}

/// The messages of a lot.
#[derive(Drop)]
struct Messages {
    /// For each lot of the level.
    outbox: Vec<Message>,
    /// From each.
    inbox: Vec<Message>,
}

/// Messages between run `k` of so many and each of them, for the copies of these parts of a plan.
fn messages_of_run(
    alloc: Global,
    parts: &FrameParts,
    k: usize,
    runs: usize,
) -> Result<Messages, NoMemory>
    requires copies { length parts.now.copies.items ≡ runs * runs }
    requires there { k < runs }
    requires few { runs ≤ 2 ^ 26 }
    ensures outbox { IfOk result (λ x. AreMessagesOf parts.now (λ t. k * runs + t) k runs x.outbox.items) }
    ensures inbox { IfOk result (λ x. AreMessagesOf parts.now (λ u. u * runs + k) k runs x.inbox.items) }
{
    Ok(Messages {
        outbox: messages_for(alloc, &parts.copies, k * runs, 1, runs, k)?,
        inbox: messages_for(alloc, &parts.copies, k, runs, runs, k)?,
    })
}

/// How many columns the widest of these patches has.
fn widest_of(patches: &[Patch]) -> u32
    ensures { All (λ q. width (box q) ≤ result) patches.now }
{
    let mut widest = 0;
    for patch in patches {
        widest = widest.max(patch.bx().width());
    }
    widest
}

/// The layout of a patch that puts and reads nothing.
fn no_layout(alloc: Global) -> PatchLayout {
    PatchLayout {
        puts: Vec::new(alloc),
        border: Vec::new(alloc),
        mask: Vec::new(alloc),
    }
}

/// Takes the layouts of a run of patches out of a list. None are there afterwards.
pub(crate) fn take_layouts(
    alloc: Global,
    layouts: &mut [PatchLayout],
    first: usize,
    count: usize,
) -> Result<Vec<PatchLayout>, NoMemory>
    requires within { first + count ≤ length layouts.old }
    ensures taken { IfOk result (λ ts. ts.items ≡ take count (drop first layouts.old)) }
    ensures rest { drop (first + count) layouts.new ≡ drop (first + count) layouts.old }
    ensures count { length layouts.new ≡ length layouts.old }
{
    let mut run = Vec::with_capacity(alloc, count)?;
    for k in 0..count {
        let layout = replace(&mut layouts[first + k], no_layout(alloc));
        run.push_reserved(layout);
    }
    Ok(run)
}

/// How many places are read by these layouts.
fn count_reads(layouts: &[PatchLayout]) -> usize
    requires { length (places_read layouts.now) < 2 ^ 62 }
    ensures { result ≡ length (places_read layouts.now) }
{
    let mut reads = 0;
    for layout in layouts {
        reads += layout.border.len();
    }
    reads
}

/// The puts of a layout in a list, none past its end.
fn puts_at(layouts: &[PatchLayout], k: usize) -> &[PutAt]
    ensures { (t : layout) → k < length layouts.now → result.now ≡ (slice_index_or layouts.now k t).puts.items }
{
    match layouts.get(k) {
        Some(layout) => layout.puts.as_slice(),
        None => &[],
    }
}

/// The sides of each patch on which faces lie whose fluxes are put or added.
fn sides_of_run(
    alloc: Global,
    patches: &[Patch],
    flows: &LevelFlows,
    layouts: &[PatchLayout],
) -> Result<Vec<PatchSides>, NoMemory>
    requires { (k : ℕ) → k < length patches.now → HasFlowsAt flows.now k }
    ensures flows { IfOk result (λ ds. HasFlowsIn flows.now ds.items patches.now) }
    ensures puts { IfOk result (λ ds. (k : ℕ) (q : patch) (t : layout) (d : sides) → k < length patches.now → k < length layouts.now
        → PutsLieOn (slice_index_or ds.items k d) (box (slice_index_or patches.now k q)) (slice_index_or layouts.now k t).puts.items) }
{
    let mut sides = Vec::with_capacity(alloc, patches.len())?;
    for k in 0..patches.len() {
        sides.push_reserved(sides_of(&patches[k].bx(), flows.of(k), puts_at(layouts, k)));
    }
    Ok(sides)
}

/// The workspace of run `k` of the patches, with what they put and read.
pub(crate) fn workspace_for(
    alloc: Global,
    s: Surroundings<'_>,
    cut: Cut<'_>,
    layouts: Vec<PatchLayout>,
    k: usize,
    count: usize,
) -> Result<Workspace, NoMemory>
    requires cut { IsCut (around_of s) cut.each cut.runs cut.flows.now cut.parts.now }
    requires there { k < cut.runs }
    requires count { IsRunOf cut.each k count (length s.patches.now) }
    requires layouts { AreLayoutsOfRun (around_of s) cut.each k layouts.items }
    ensures { IfOk result (IsWorkspaceOf (around_of s.entry) cut.entry.each k cut.entry.runs cut.entry.parts.now) }
{
    let Cut {
        each,
        runs,
        flows,
        parts,
    } = cut;
    let first = k * each;
    let patches = &s.patches[first..first + count];
    let RunFlows { flows, words } = flows_of_part(
        alloc,
        flows,
        first,
        count,
        2 + 2 * s.cells.len(),
    )?;
    let sides = sides_of_run(alloc, patches, &flows, &layouts)?;
    let Messages { outbox, inbox } = messages_of_run(alloc, parts, k, runs)?;
    let outer = Vec::from_slice(alloc, &parts.outer[k])?;
    Ok(Workspace {
        sizes: vec![in alloc; 0u32; count_reads(&layouts)]?,
        totals: vec![in alloc; 0u64; words.len()]?,
        layouts,
        flows,
        sides,
        words,
        copies: Vec::from_slice(alloc, &parts.copies[k * runs + k])?,
        outer: OuterGhosts::make(alloc, outer)?,
        outbox,
        inbox,
        room: Room::make(alloc, widest_of(patches))?,
    })
}

/// The workspace of the lot that is all of its level.
pub(crate) fn whole_workspace(
    alloc: Global,
    s: Surroundings<'_>,
    mut parts: FrameParts,
    flows: LevelFlows,
) -> Result<Workspace, NoMemory>
    requires few { length s.cells.now ≤ 2 ^ 30 }
    requires flows { AreLevelFlows (around_of s) flows }
    requires copies { length parts.copies.items ≡ 1 }
    requires outer { length parts.outer.items ≡ 1 }
    ensures { IfOk result (λ x. (each : ℕ) → length s.entry.patches.now ≤ each → IsWholeWorkspace (around_of s.entry) each parts x) }
{
    let sides = sides_of_run(alloc, s.patches, &flows, &[])?;
    let Messages { outbox, inbox } = messages_of_run(alloc, &parts, 0, 1)?;
    let outer = replace(&mut parts.outer[0], Vec::new(alloc));
    Ok(Workspace {
        layouts: Vec::new(alloc),
        flows,
        sides,
        words: Vec::new(alloc),
        totals: vec![in alloc; 0u64; 2 + 2 * s.cells.len()]?,
        copies: replace(&mut parts.copies[0], Vec::new(alloc)),
        outer: OuterGhosts::make(alloc, outer)?,
        outbox,
        inbox,
        room: Room::make(alloc, widest_of(s.patches))?,
        sizes: Vec::new(alloc),
    })
}
