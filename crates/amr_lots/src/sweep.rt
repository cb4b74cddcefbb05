//! A raw lot becomes a swept one: its frames are filled, what it posts is posted, and the patches that read no place make their step.

ghost use Rattle.std.specs.Prelude.{◌≡◌, ℕ, length, slice_index, true, unsigned_abs, IsTrue};
ghost use Rattle.std.specs.List.{All};
ghost use Rattle.amr_box.specs.declared.Face.{Face};
ghost use Rattle.amr_patch.specs.Places.{is_edge_face};
ghost use Rattle.amr_patch.specs.Patches.{box, flux_in};
ghost use Rattle.amr_flux.specs.Rooms.{widest};
ghost use Rattle.amr_phase.specs.Plans.{adds_of, no_post, puts_of};
ghost use Rattle.amr_board.specs.BoardOf.{IsSeatOf, view};
ghost use Rattle.amr_board.specs.Posts.{HasPosted};
ghost use Rattle.amr_board.specs.Views.{IsFresh, IsHolding, current};
ghost use Rattle.amr_layout.specs.LevelFlowLists.{flow_lists};
ghost use Rattle.amr_lots.specs.Lots.{AreReady, HasStepped, lot_total};
ghost use Rattle.amr_lots.specs.Ready.{CanStep, HasFlowsIn, MayBegin};
ghost use Rattle.amr_lots.specs.LotSteps.{AreAdds, ArePosts, ArePuts, AreSweptOn, CanStepInner, CanStepWhere, HasSteppedWhere};
ghost use Rattle.amr_lots.specs.LotSteps.{HasSweptAll, HasSweptLot, HaveStepped, MayStepIn, PutsAreNext, ReadsNone, ReadsSome};
ghost use Rattle.amr_lots.specs.Works.{StandsFor, adds_of_work, puts_listed, puts_of_work};
ghost use Rattle.amr_lots.specs.declared.lot.LotStage.TheVariants.{Swept};
ghost use Rattle.amr_lots.specs.declared.lot.Duty.TheVariants.{Step};

use crate::frames::begin;
use crate::lot::{Lot, LotStage, Work, Workspace};
use crate::patches::sweep_patch;
use amr_board::{Board, Seat};
use amr_def::Problem;
use amr_flux::{PatchSides, Room, update_alone};
use amr_layout::{LevelFlows, PatchLayout, PutAt};
use amr_patch::Patch;
use amr_register::EdgeCell;

/// Works out what flows through the faces on their sides of patches whose frames are filled. The totals, whatever they were, become the sums
/// of what flows to each word.
fn sweep_patches(
    p: &Problem,
    l: u32,
    patches: &mut [Patch],
    flows: &LevelFlows,
    sides: &[PatchSides],
    room: &mut Room,
    totals: &mut [u64],
)
    requires ready { AreReady p.now l (widest room.old) (length totals.old) patches.old (flow_lists flows.now (length patches.old)) }
    requires flows { HasFlowsIn flows.now sides.now patches.old }
    ensures swept { AreSweptOn p.now l sides.now patches.old patches.new }
    ensures room { widest room.new ≡ widest room.old }
    ensures count { length totals.new ≡ length totals.old }
    ensures totals { (word : ℕ) → slice_index totals.new word ≡ lot_total p.now l patches.old (flow_lists flows.now (length patches.old)) word }
{
    totals.fill(0);
    for k in 0..patches.len() {
        sweep_patch(p, l, &mut patches[k], flows.of(k), sides[k], room, totals);
    }
}

/// Fills the frames of patches, works out what flows into register cells, and what is posted: each patch's flows through the faces of its
/// puts, and the totals of the words.
fn sweep_all(
    p: &Problem,
    l: u32,
    patches: &mut [Patch],
    edges: &mut [Vec<EdgeCell>],
    workspace: &mut Workspace,
)
    requires { CanStep p.now l patches.old edges.old workspace.old }
    ensures { HasSweptAll p.now l patches.old edges.old workspace.old patches.new edges.new workspace.new }
{
    begin(p, l, patches, edges, workspace);
    let Workspace {
        flows,
        sides,
        totals,
        room,
        ..
    } = workspace;
    sweep_patches(p, l, patches, flows, sides, room, totals);
}

/// The same of a lot.
fn sweep_lot(p: &Problem, l: u32, lot: &mut Lot)
    requires { CanStep p.now l lot.old.patches.items lot.old.edges.items lot.old.workspace }
    ensures { HasSweptLot p.now l lot.old lot.new }
{
    sweep_all(p, l, &mut lot.patches, &mut lot.edges, &mut lot.workspace);
}

/// Makes the puts of a patch.
fn put_all(board: &Board<Work>, seat: &mut Seat<Work>, patch: &Patch, puts: &[PutAt])
    requires seat { IsSeatOf board.now seat.old }
    requires holding { IsHolding (view seat.old) (current (view seat.old)).task true }
    requires edges { All (λ x. IsTrue (is_edge_face (box patch.now) x.face)) puts.now }
    requires next { PutsAreNext (λ (f : Face). unsigned_abs (flux_in patch.now f)) (puts_of board.now.plan (current (view seat.old)).task)
        (current (view seat.old)).puts puts.now }
    ensures seat { IsSeatOf board.now seat.new }
    ensures posted { HasPosted (view seat.old) (view seat.new) (length puts.now) 0 }
{
    for put in puts {
        board.put(seat, put.place, patch.flux(put.face).unsigned_abs());
    }
}

/// Makes the puts of the task that the seat holds, patch after patch.
fn make_puts(board: &Board<Work>, seat: &mut Seat<Work>, patches: &[Patch], layouts: &[PatchLayout])
    requires seat { IsSeatOf board.now seat.old }
    requires fresh { IsFresh (view seat.old) }
    requires puts { ArePuts patches.now layouts.now (puts_of board.now.plan (current (view seat.old)).task) }
    ensures seat { IsSeatOf board.now seat.new }
    ensures posted { HasPosted (view seat.old) (view seat.new) (length (puts_listed layouts.now)) 0 }
{
    for k in 0..patches.len() {
        put_all(board, seat, &patches[k], layouts[k].puts.as_slice());
    }
}

/// Makes the adds of the task that the seat holds, none of which is made yet.
fn make_adds(board: &Board<Work>, seat: &mut Seat<Work>, words: &[u32], totals: &[u64])
    requires seat { IsSeatOf board.now seat.old }
    requires holding { IsHolding (view seat.old) (current (view seat.old)).task true }
    requires none { (current (view seat.old)).adds ≡ 0 }
    requires adds { AreAdds words.now totals.now (adds_of board.now.plan (current (view seat.old)).task) }
    ensures seat { IsSeatOf board.now seat.new }
    ensures posted { HasPosted (view seat.old) (view seat.new) 0 (length words.now) }
{
    for at in 0..words.len() {
        board.add(seat, words[at], totals[at]);
    }
}

/// Makes the puts of the task that the seat holds, and then its adds.
fn make_posts(board: &Board<Work>, seat: &mut Seat<Work>, lot: &Lot)
    requires seat { IsSeatOf board.now seat.old }
    requires fresh { IsFresh (view seat.old) }
    requires posts { ArePosts lot.now (puts_of board.now.plan (current (view seat.old)).task) (adds_of board.now.plan (current (view seat.old)).task) }
    ensures seat { IsSeatOf board.now seat.new }
    ensures posted { HasPosted (view seat.old) (view seat.new) (length (puts_of board.now.plan (current (view seat.old)).task))
        (length (adds_of board.now.plan (current (view seat.old)).task)) }
{
    let workspace = &lot.workspace;
    make_puts(
        board,
        seat,
        lot.patches.as_slice(),
        workspace.layouts.as_slice(),
    );
    make_adds(
        board,
        seat,
        workspace.words.as_slice(),
        workspace.totals.as_slice(),
    );
}

/// Makes the step of a patch if it reads no place.
fn step_if_inner(p: &Problem, l: u32, layout: &PatchLayout, patch: &mut Patch, room: &mut Room)
    requires { ReadsNone layout.now → MayStepIn p.now l (widest room.old) patch.old }
    ensures stepped { ReadsNone layout.now → HasStepped p.now l patch.old patch.new }
    ensures stays { ReadsSome layout.now → patch.new ≡ patch.old }
    ensures room { widest room.new ≡ widest room.old }
{
    if !layout.border.as_slice().is_empty() {
        return;
    }
    update_alone(p, l, patch, room);
}

/// Makes the step of those patches that read no place.
fn step_inner(p: &Problem, l: u32, patches: &mut [Patch], layouts: &[PatchLayout], room: &mut Room)
    requires { CanStepWhere p.now l (widest room.old) ReadsNone layouts.now patches.old }
    ensures stepped { HaveStepped p.now l ReadsNone ReadsSome layouts.now patches.old patches.new }
    ensures room { widest room.new ≡ widest room.old }
{
    for k in 0..patches.len() {
        step_if_inner(p, l, &layouts[k], &mut patches[k], room);
    }
}

/// The same in a lot.
fn update_inner(p: &Problem, l: u32, lot: &mut Lot)
    requires { CanStepInner p.now l lot.old }
    ensures { HasSteppedWhere p.now l ReadsNone ReadsSome lot.old lot.new }
{
    let Workspace { layouts, room, .. } = &mut lot.workspace;
    step_inner(p, l, &mut lot.patches, layouts, room);
}

/// Makes a raw lot a swept one, with all posts of the task that the seat holds.
pub(crate) fn sweep_work(p: &Problem, board: &Board<Work>, seat: &mut Seat<Work>, work: &mut Work)
    requires seat { IsSeatOf board.now seat.old }
    requires fresh { IsFresh (view seat.old) }
    requires step { work.old.duty ≡ Step }
    requires ready { MayBegin p.now board.now.plan work.old }
    requires posts { (puts_of board.now.plan (current (view seat.old)).task ≡ puts_of_work work.old)
        × (adds_of board.now.plan (current (view seat.old)).task ≡ adds_of_work work.old) }
    ensures seat { IsSeatOf board.now seat.new }
    ensures posted { HasPosted (view seat.old) (view seat.new) (length (puts_of_work work.old)) (length (adds_of_work work.old)) }
    ensures swept { work.new.stage ≡ Swept }
    ensures stands { StandsFor work.old work.new }
{
    sweep_lot(p, work.level, &mut work.lot);
    make_posts(board, seat, &work.lot);
    update_inner(p, work.level, &mut work.lot);
    work.stage = LotStage::Swept;
}
