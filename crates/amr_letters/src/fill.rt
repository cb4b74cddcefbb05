//! Frames filled from what nodes have.

ghost use Rattle.std.specs.Prelude.{◌≡◌, ℕ, ◌<◌, ◌≤◌, ◌^◌, IfSome, length, map};
ghost use Rattle.std.specs.List.{All, AllZip};
ghost use Rattle.amr_def.specs.Domain.{domain, home_cell};
ghost use Rattle.amr_def.specs.State.{Masses};
ghost use Rattle.amr_patch.specs.Patches.{SameFluxes, box, ghost_in};
ghost use Rattle.amr_ghost.specs.Frames.{HasGhostValues, KeepsCorners, SameMasses};
ghost use Rattle.amr_ranks.specs.Items.{mass_at};
ghost use Rattle.amr_letters.specs.Beside.{beside_cell, beside_count};
ghost use Rattle.amr_letters.specs.Told.{HasPatchMasses, TellsFrame, value_by, value_told};
ghost use Rattle.amr_letters.specs.Filled.{AreSlotsFilled, IsValueSet, SameFrameMarks, TellFrames};

use crate::beside::{beside_cell, beside_count};
use amr_box::Cell;
use amr_def::Problem;
use amr_ghost::outside_value;
use amr_patch::Patch;
use amr_post::Rank;
use amr_ranks::Node;

/// The value of a ghost cell that stands for the cell `home`, by the mass that is told of it, if one is.
fn value_told(p: &Problem, l: u32, home: Cell, told: Option<u64>) -> u64
    requires level { l ≤ 4 }
    requires small { IfSome told (λ m. m < 2 ^ 32) }
    ensures value { result ≡ value_told p.now l home told }
    ensures small { result < 2 ^ 32 }
{
    if let Some(mass) = told {
        return mass;
    }
    if p.domain(l).in_domain(home) {
        return 0;
    }
    outside_value(p, l, home)
}

/// The value of the ghost cell at a slot of a patch, by what the node has of it.
fn value_by(p: &Problem, l: u32, number: u32, slot: u32, c: Cell, node: &Node) -> u64
    requires level { l ≤ 4 }
    requires masses { HasPatchMasses node.now }
    ensures value { result ≡ value_told p.now l (home_cell (domain p.now l) c) (mass_at number slot node.now.cells) }
    ensures small { result < 2 ^ 32 }
{
    let home = p.domain(l).home_cell(c);
    value_told(p, l, home, node.cell(number, slot))
}

/// Gives the ghost cell at a slot its value.
fn fill_slot(p: &Problem, l: u32, patch: &mut Patch, number: u32, slot: u32, node: &Node)
    requires level { l ≤ 4 }
    requires there { slot < beside_count (box patch.old) }
    requires masses { HasPatchMasses node.now }
    ensures { IsValueSet (beside_cell (box patch.old) slot) (value_by p.now l number (box patch.old) node.now slot) patch.old patch.new }
{
    let c = beside_cell(&patch.bx(), slot);
    let value = value_by(p, l, number, slot, c, node);
    let (_, mark) = patch.ghost_cell(c);
    patch.set_ghost(c, value, mark);
}

/// Gives the ghost cells at all slots their values.
fn fill_slots(p: &Problem, l: u32, patch: &mut Patch, number: u32, node: &Node)
    requires level { l ≤ 4 }
    requires masses { HasPatchMasses node.now }
    ensures { AreSlotsFilled (value_by p.now l number (box patch.old) node.now) (beside_count (box patch.old)) patch.old patch.new }
{
    let count = beside_count(&patch.bx());
    for slot in 0..count {
        fill_slot(p, l, patch, number, slot, node);
    }
}

/// Fills the frame of a patch of level `l`, from 0 to 4, from what a node has. `number` is the patch's place in the level. Each ghost cell
/// beside the patch gets the mass that the node has of it; where it has none, 0 in the domain, and outside a side that side's inflow. All
/// else stays, the marks too. It takes no memory.
pub fn fill_frame(p: &Problem, l: u32, patch: &mut Patch, number: u32, node: &Node)
    requires level { l ≤ 4 }
    requires node_masses { HasPatchMasses node.now }
    ensures told { (slot : ℕ) → slot < beside_count (box patch.old)
        → ghost_in patch.new (beside_cell (box patch.old) slot) ≡ value_by p.now l number (box patch.old) node.now slot }
    ensures filled { (m old : Masses) → TellsFrame p.now l m old number (box patch.old) node.now → HasGhostValues p.now l m old patch.new }
    ensures marks { SameFrameMarks patch.old patch.new }
    ensures masses { SameMasses patch.old patch.new }
    ensures corners { KeepsCorners patch.old patch.new }
    ensures fluxes { SameFluxes patch.old patch.new }
    ensures of_box { box patch.new ≡ box patch.old }
{
    fill_slots(p, l, patch, number, node);
}

/// Fills the frames of all patches of level `l`, from 0 to 4, each from what the node of its owner has. `owners` has the rank of each patch,
/// and a patch's number is its place. All but the values of the ghost cells beside the patches stays. It takes no memory.
pub fn fill_frames(p: &Problem, l: u32, patches: &mut [Patch], owners: &[u32], ranks: &[Rank])
    requires level { l ≤ 4 }
    requires few { length patches.old ≤ 2 ^ 32 }
    requires owned { length owners.now ≡ length patches.old }
    requires there { All (λ owner. owner < length ranks.now) owners.now }
    requires node_masses { All (λ rank. HasPatchMasses rank.node) ranks.now }
    ensures filled { (m old : Masses) → TellFrames p.now l m old patches.old owners.now ranks.now → All (HasGhostValues p.now l m old) patches.new }
    ensures marks { AllZip SameFrameMarks patches.old patches.new }
    ensures masses { AllZip SameMasses patches.old patches.new }
    ensures corners { AllZip KeepsCorners patches.old patches.new }
    ensures fluxes { AllZip SameFluxes patches.old patches.new }
    ensures boxes { map box patches.new ≡ map box patches.old }
{
    for k in 0..patches.len() {
        let node = &ranks[owners[k] as usize].node;
        fill_frame(p, l, &mut patches[k], k as u32, node);
    }
}
