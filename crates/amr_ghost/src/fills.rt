//! Frames of a level's patches filled at once, where no step does it.

ghost use Rattle.std.specs.Prelude.{◌≡◌, ℕ, ◌≤◌, map, IfOk};
ghost use Rattle.std.specs.Option.{option_copied};
ghost use Rattle.std.specs.List.{All, AllZip};
ghost use Rattle.amr_def.specs.declared.problem.Problem.{Problem};
ghost use Rattle.amr_def.specs.Domain.{domain};
ghost use Rattle.amr_def.specs.State.{Masses};
ghost use Rattle.amr_patch.specs.Gaps.{HasStarts};
ghost use Rattle.amr_patch.specs.Orders.{IsOrderOf};
ghost use Rattle.amr_patch.specs.Patches.{ArePatchesApart, SameFluxes, box, masses_in};
ghost use Rattle.amr_ghost.specs.Fills.{AreSourcesOf, FillsFrames};
ghost use Rattle.amr_ghost.specs.Frames.{AreInDomain, HasGhostMarks, HasGhostValues, KeepsCorners, SameMasses, old_masses};

use crate::messages::{Message, fill_run};
use crate::outer::OuterGhosts;
use crate::parts::{FrameCopy, part_frames};
use crate::plan::plan_frames;
use amr_causes::NoMemory;
use amr_def::Problem;
use amr_patch::{Level, Order, Patch, Starts};
use std::alloc::Global;

/// Where the frames of a level's patches get their values from, as of one run: the values of ghost cells that get no mass of the level,
/// and copies of masses.
#[derive(Drop)]
pub struct FrameSources {
    pub(crate) outer: OuterGhosts,
    pub(crate) copies: Vec<FrameCopy>,
    /// What the run sends to itself: nothing.
    pub(crate) inbox: [Message; 1],
}

/// Where the frames of the patches of level `l`, from 0 to 4, get their values from. `NoMemory` is the only refusal.
///
/// Ghost cells come from the same level, else from the coarser one (Berger and Colella). The value of a cell of the level is its
/// mass. Of another cell of the domain it is a quarter of the mass of its parent in `old`, the next coarser level at the start of
/// its step. That is 0 where `old` has no such cell, and where there is no `old`. Of a cell outside an open side it is that
/// side's inflow, divided by 4 for each level.
///
/// The patches are those of the whole level: no cell is in two of them, and each is a cell of the domain. `starts` tells where they
/// start, and `order` how they stand.
pub fn find_sources(
    alloc: Global,
    p: &Problem,
    l: u32,
    patches: &[Patch],
    order: Order,
    starts: &Starts,
    old: Option<&Level>,
) -> Result<FrameSources, NoMemory>
    requires level { l ≤ 4 }
    requires order { IsOrderOf order patches.now }
    requires starts { HasStarts patches.now starts.now }
    requires apart { ArePatchesApart patches.now }
    requires inside { AreInDomain (domain p.now l) patches.now }
    ensures { IfOk result (FillsFrames p.now l (old_masses (option_copied old.entry)) patches.now) }
{
    let plan = plan_frames(alloc, p, l, patches, order, starts)?;
    let parts = part_frames(alloc, &plan, patches.len().max(1), 1)?;
    let spans = Vec::from_slice(alloc, &parts.outer[0])?;
    let mut outer = OuterGhosts::make(alloc, spans)?;
    outer.find_values(p, l, old);
    let copies = Vec::from_slice(alloc, &parts.copies[0])?;
    Ok(FrameSources {
        outer,
        copies,
        inbox: [Message::empty(alloc)],
    })
}

/// Fills the frames of patches. Each ghost cell beside a patch gets its value. It is marked where it stands for a cell of the level, on a
/// periodic axis one at the other end of the domain. The corners of a frame, which no face touches, stay. It takes no memory.
pub fn fill(patches: &mut [Patch], sources: &FrameSources)
    requires { AreSourcesOf patches.old sources.now }
    ensures filled { (p : Problem) (l : ℕ) (old : Masses) → FillsFrames p l old patches.old sources.now
        → All (HasGhostValues p l (masses_in patches.old) old) patches.new }
    ensures marked { (p : Problem) (l : ℕ) (old : Masses) → FillsFrames p l old patches.old sources.now
        → All (HasGhostMarks p l (masses_in patches.old)) patches.new }
    ensures masses { AllZip SameMasses patches.old patches.new }
    ensures corners { AllZip KeepsCorners patches.old patches.new }
    ensures fluxes { AllZip SameFluxes patches.old patches.new }
    ensures boxes { map box patches.new ≡ map box patches.old }
{
    fill_run(patches, &sources.outer, &sources.copies, &sources.inbox);
}
