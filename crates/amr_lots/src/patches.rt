//! The step of one patch of a lot.

ghost use Rattle.std.specs.Prelude.{◌≡◌, ◌≤◌, ℕ, ◌+◌, ◌<◌, ◌^◌, true, length, slice_index, unsigned_abs, IsTrue};
ghost use Rattle.std.specs.List.{All};
ghost use Rattle.amr_box.specs.declared.Face.{Face};
ghost use Rattle.amr_box.specs.Cells.{width};
ghost use Rattle.amr_patch.specs.Places.{is_edge_face};
ghost use Rattle.amr_patch.specs.Patches.{box, flux_in};
ghost use Rattle.amr_flux.specs.Rooms.{widest};
ghost use Rattle.amr_flux.specs.PatchSides.{includes, side_of};
ghost use Rattle.amr_layout.specs.Adds.{word_total};
ghost use Rattle.amr_lots.specs.Lots.{CanAdd, HasAdded, HasStepped, IsSweptOn, LieOn, MayStep};

use amr_box::Bx;
use amr_def::Problem;
use amr_flux::{PatchSides, Room, sweep, update_alone};
use amr_layout::{FlowTo, PutAt};
use amr_patch::Patch;

/// The sides on which faces on the edges of a box lie whose fluxes are put or added.
pub fn sides_of(b: &Bx, flows: &[FlowTo], puts: &[PutAt]) -> PatchSides
    ensures flows { LieOn result b.now flows.now }
    ensures puts { All (λ x. includes result (side_of b.now x.face) ≡ true) puts.now }
{
    let mut sides = PatchSides::none();
    for flow in flows {
        sides = sides.with(b, flow.face);
    }
    for put in puts {
        sides = sides.with(b, put.face);
    }
    sides
}

/// Adds the sizes of these flows through faces on a patch's edges to their words.
fn add_through(patch: &Patch, flows: &[FlowTo], totals: &mut [u64])
    requires edges { All (λ x. IsTrue (is_edge_face (box patch.now) x.face)) flows.now }
    requires words { All (λ x. x.word < length totals.old) flows.now }
    requires fits { (word : ℕ) → slice_index totals.old word + word_total (λ (f : Face). unsigned_abs (flux_in patch.now f)) word flows.now < 2 ^ 63 }
    ensures count { length totals.new ≡ length totals.old }
    ensures totals { (word : ℕ) → slice_index totals.new word
        ≡ slice_index totals.old word + word_total (λ (f : Face). unsigned_abs (flux_in patch.now f)) word flows.now }
{
    for x in flows {
        totals[x.word as usize] += patch.flux(x.face).unsigned_abs();
    }
}

/// Works out what flows through the faces on these sides of a patch, and adds the sizes of its flows to their words. The patch has its masses
/// of before, and its frame is filled. Both stay, the fluxes on its edges may not. Most patches have no such side.
pub(crate) fn sweep_patch(
    p: &Problem,
    l: u32,
    patch: &mut Patch,
    flows: &[FlowTo],
    sides: PatchSides,
    room: &mut Room,
    totals: &mut [u64],
)
    requires step { MayStep p.now l patch.old }
    requires adds { CanAdd p.now l patch.old flows.now sides totals.old }
    ensures swept { IsSweptOn p.now l sides patch.old patch.new }
    ensures room { widest room.new ≡ widest room.old }
    ensures added { HasAdded p.now l patch.old flows.now totals.old totals.new }
{
    if sides.are_none() {
        return;
    }
    sweep(p, l, patch, sides, room);
    add_through(patch, flows, totals);
}

/// Makes the step of a patch where nobody else works on its level. It gives each cell what flows in through its faces, and adds the sizes of
/// its flows to their words. All that flows follows from the values of before.
pub(crate) fn step_patch(
    p: &Problem,
    l: u32,
    patch: &mut Patch,
    flows: &[FlowTo],
    sides: PatchSides,
    room: &mut Room,
    totals: &mut [u64],
)
    requires step { MayStep p.now l patch.old }
    requires adds { CanAdd p.now l patch.old flows.now sides totals.old }
    requires room { width (box patch.old) ≤ widest room.old }
    ensures stepped { HasStepped p.now l patch.old patch.new }
    ensures room { widest room.new ≡ widest room.old }
    ensures added { HasAdded p.now l patch.old flows.now totals.old totals.new }
{
    sweep_patch(p, l, patch, flows, sides, room, totals);
    update_alone(p, l, patch, room);
}
