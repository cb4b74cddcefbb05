//! Meshes regridded.

ghost use Rattle.std.specs.Prelude.{◌≡◌, ℕ, ◌+◌, ◌<◌, ◌≤◌, Bool, false, IfOk, OnErr, OnOk, length, map};
ghost use Rattle.std.specs.List.{All, AllZip};
ghost use Rattle.amr_box.specs.declared.Cell.{Cell};
ghost use Rattle.amr_def.specs.Facts.{IsHeld, IsSound};
ghost use Rattle.amr_def.specs.NewBoxes.{new_boxes};
ghost use Rattle.amr_def.specs.Regrid.{new_level_count, regrid, regridded_levels};
ghost use Rattle.amr_def.specs.Species.{AreAlike, regrid_all};
ghost use Rattle.amr_laws.specs.Species.{AreHeld};
ghost use Rattle.amr_patch.specs.Levels.{level_of};
ghost use Rattle.amr_patch.specs.Meshes.{is_spent, levels_of, state_of};
ghost use Rattle.amr_start.specs.PatchBoxes.{IsChopped};
ghost use Rattle.amr_regrid.specs.Outlines.{AreAlikeMeshes, IsSoundWith, lists_in, mesh_outline, outlines, shared_boxes, with_levels};
ghost use Rattle.amr_regrid.specs.Plans.{IsPlanFor};
ghost use Rattle.amr_regrid.specs.Remade.{AreChoppedOrKept, IsChoppedIfMade, remade_levels};

use crate::boxes::new_boxes;
use crate::masses::{Remade, refill};
use crate::plans::{Plan, install_all};
use amr_box::Bx;
use amr_causes::NoMemory;
use amr_def::Problem;
use amr_patch::{Level, Mesh};
use amr_transfer::{CallingThread, InThreads, Sharing};
use std::alloc::Global;
use std::mem::swap;
use std::thread::Threads;

/// How many levels get new boxes: one more than there are above level 0, up to the greatest level.
fn new_level_count(p: &Problem, levels: &[Level]) -> u32
    requires { length levels.now ≤ 5 }
    ensures { result ≡ new_level_count p.now (with_levels levels.now) }
{
    p.max_level.min(levels.len() as u32)
}

/// The new boxes above level 0. States and patch boxes of the meshes stay.
fn boxes_above(alloc: Global, p: &Problem, meshes: &mut [Mesh]) -> Result<Vec<Vec<Bx>>, NoMemory>
    requires { AreAlikeMeshes p.now meshes.old }
    ensures boxes { IfOk result (λ r. lists_in r.items ≡ shared_boxes p.now (map state_of meshes.old)) }
    ensures outlines { map mesh_outline meshes.new ≡ map mesh_outline meshes.old }
{
    let count = new_level_count(p, meshes[0].levels());
    new_boxes(alloc, p, meshes, 0, count)
}

/// What becomes of levels, by the new boxes above level 0. Level 0 stays.
fn remade<S: Sharing>(
    sharing: &S,
    alloc: Global,
    p: &Problem,
    levels: &[Level],
    boxes: &[Vec<Bx>],
) -> Result<Vec<Remade>, NoMemory>
    requires shared { S.may_share sharing.now }
    requires sound { IsSoundWith p.now levels.now }
    requires boxes { (tagged : ℕ → Cell → Bool) × (lists_in boxes.now ≡ new_boxes p.now tagged (new_level_count p.now (with_levels levels.now)) 0) }
    ensures levels { IfOk result (λ r. map level_of (remade_levels levels.now r.items) ≡ regridded_levels (map level_of levels.now) (lists_in boxes.now)) }
    ensures chopped { IfOk result (λ r. All (IsChoppedIfMade p.now.max_grid_size) r.items) }
{
    match levels.split_first() {
        None => unreachable!(),
        Some((base, olds)) => {
            let mut all = refill(sharing, alloc, p, base, olds, boxes)?;
            all.insert(0, Remade::Kept)?;
            Ok(all)
        }
    }
}

/// What the regrid makes of a mesh, with the memory for its list of levels.
fn plan<S: Sharing>(
    sharing: &S,
    alloc: Global,
    p: &Problem,
    mesh: &Mesh,
    boxes: &[Vec<Bx>],
) -> Result<Plan, NoMemory>
    requires shared { S.may_share sharing.now }
    requires whole { is_spent mesh.now ≡ false }
    requires sound { IsSound p.now (state_of mesh.now) }
    requires boxes { (tagged : ℕ → Cell → Bool) × (lists_in boxes.now ≡ new_boxes p.now tagged (new_level_count p.now (state_of mesh.now)) 0) }
    ensures { IfOk result (IsPlanFor p.now (lists_in boxes.now) mesh.now) }
{
    let remade = remade(sharing, alloc, p, mesh.levels(), boxes)?;
    let room = Vec::with_capacity(alloc, remade.len())?;
    Ok(Plan { remade, room })
}

/// What the regrid makes of each mesh.
fn plans<S: Sharing>(
    sharing: &S,
    alloc: Global,
    p: &Problem,
    meshes: &[Mesh],
    boxes: &[Vec<Bx>],
) -> Result<Vec<Plan>, NoMemory>
    requires shared { S.may_share sharing.now }
    requires meshes { AreAlikeMeshes p.now meshes.now }
    requires boxes { lists_in boxes.now ≡ shared_boxes p.now (map state_of meshes.now) }
    ensures { IfOk result (λ r. AllZip (IsPlanFor p.now (lists_in boxes.now)) meshes.now r.items) }
{
    let mut plans = Vec::with_capacity(alloc, meshes.len())?;
    for mesh in meshes {
        plans.push(plan(sharing, alloc, p, mesh, boxes)?)?;
    }
    Ok(plans)
}

/// Regrids meshes, and has the masses of new levels shared out among threads or not. All memory is taken before the first mesh
/// changes.
fn regrid_by<S: Sharing>(
    sharing: &S,
    alloc: Global,
    p: &Problem,
    meshes: &mut [Mesh],
) -> Result<(), NoMemory>
    requires shared { S.may_share sharing.now }
    requires meshes { AreAlikeMeshes p.now meshes.old }
    ensures value { OnOk result (map state_of meshes.new ≡ regrid_all p.now (map state_of meshes.old)) }
    ensures alike { OnOk result (AreAlike p.now (map state_of meshes.new)) }
    ensures held { OnOk result (AreHeld p.now (map state_of meshes.old) (map state_of meshes.new)) }
    ensures chopped_or_kept { OnOk result (AllZip (λ old new. AreChoppedOrKept p.now.max_grid_size (levels_of new) (outlines (levels_of old)))
        meshes.old meshes.new) }
    ensures patches { All (λ m. All (IsChopped p.now.max_grid_size) (levels_of m)) meshes.old
        → OnOk result (All (λ m. All (IsChopped p.now.max_grid_size) (levels_of m)) meshes.new) }
    ensures whole { All (λ m. is_spent m ≡ false) meshes.new }
    ensures refused { OnErr result (map mesh_outline meshes.new ≡ map mesh_outline meshes.old) }
{
    let boxes = boxes_above(alloc, p, meshes)?;
    let plans = plans(sharing, alloc, p, meshes, boxes.as_slice())?;
    install_all(meshes, plans);
    Ok(())
}

/// Regrids meshes of several species, that is, meshes of one step on the same boxes (Berger and Colella 1989). A cell is tagged
/// where it is for some mesh, so there is one list of new boxes for all, and a cell of a new box keeps the mass that each mesh has
/// there, or gets its share of its parent's in that mesh. The rest is as [`regrid`] says. For one mesh it is that.
///
/// All memory is taken before the first mesh changes. After `NoMemory`, the only refusal, each mesh has its state, boxes and patch
/// boxes as before; ghost cells may differ.
pub fn regrid_all(alloc: Global, p: &Problem, meshes: &mut [Mesh]) -> Result<(), NoMemory>
    requires some { 0 < length meshes.old }
    requires whole { All (λ m. is_spent m ≡ false) meshes.old }
    requires alike { AreAlike p.now (map state_of meshes.old) }
    ensures value { OnOk result (map state_of meshes.new ≡ regrid_all p.now (map state_of meshes.old)) }
    ensures alike { OnOk result (AreAlike p.now (map state_of meshes.new)) }
    ensures held { OnOk result (AreHeld p.now (map state_of meshes.old) (map state_of meshes.new)) }
    ensures chopped_or_kept { OnOk result (AllZip (λ old new. AreChoppedOrKept p.now.max_grid_size (levels_of new) (outlines (levels_of old)))
        meshes.old meshes.new) }
    ensures patches { All (λ m. All (IsChopped p.now.max_grid_size) (levels_of m)) meshes.old
        → OnOk result (All (λ m. All (IsChopped p.now.max_grid_size) (levels_of m)) meshes.new) }
    ensures whole { All (λ m. is_spent m ≡ false) meshes.new }
    ensures refused { OnErr result (map state_of meshes.new ≡ map state_of meshes.old) }
    ensures refused_patches { OnErr result (map (λ m. outlines (levels_of m)) meshes.new ≡ map (λ m. outlines (levels_of m)) meshes.old) }
{
    regrid_by(&CallingThread, alloc, p, meshes)
}

/// The same, where the masses of the cells of large new levels are shared out among so many threads. For 0 and for 1 none is
/// made. The outcome is the same for any number.
pub fn regrid_all_in_threads<R: Threads + Sync>(
    rt: &R,
    threads: usize,
    alloc: Global,
    p: &Problem,
    meshes: &mut [Mesh],
) -> Result<(), NoMemory>
    requires some { 0 < length meshes.old }
    requires whole { All (λ m. is_spent m ≡ false) meshes.old }
    requires alike { AreAlike p.now (map state_of meshes.old) }
    ensures value { OnOk result (map state_of meshes.new ≡ regrid_all p.now (map state_of meshes.old)) }
    ensures alike { OnOk result (AreAlike p.now (map state_of meshes.new)) }
    ensures held { OnOk result (AreHeld p.now (map state_of meshes.old) (map state_of meshes.new)) }
    ensures chopped_or_kept { OnOk result (AllZip (λ old new. AreChoppedOrKept p.now.max_grid_size (levels_of new) (outlines (levels_of old)))
        meshes.old meshes.new) }
    ensures patches { All (λ m. All (IsChopped p.now.max_grid_size) (levels_of m)) meshes.old
        → OnOk result (All (λ m. All (IsChopped p.now.max_grid_size) (levels_of m)) meshes.new) }
    ensures whole { All (λ m. is_spent m ≡ false) meshes.new }
    ensures refused { OnErr result (map state_of meshes.new ≡ map state_of meshes.old) }
    ensures refused_patches { OnErr result (map (λ m. outlines (levels_of m)) meshes.new ≡ map (λ m. outlines (levels_of m)) meshes.old) }
{
    regrid_by(&InThreads::of(rt, threads), alloc, p, meshes)
}

/// Regrids one mesh: the meshes are it alone.
fn regrid_one<S: Sharing>(
    sharing: &S,
    alloc: Global,
    p: &Problem,
    mesh: &mut Mesh,
) -> Result<(), NoMemory>
    requires shared { S.may_share sharing.now }
    requires whole { is_spent mesh.old ≡ false }
    requires sound { IsSound p.now (state_of mesh.old) }
    ensures value { OnOk result (state_of mesh.new ≡ regrid p.now (state_of mesh.old)) }
    ensures sound { OnOk result (IsSound p.now (state_of mesh.new)) }
    ensures held { OnOk result (IsHeld p.now (state_of mesh.old) (state_of mesh.new)) }
    ensures chopped_or_kept { OnOk result (AreChoppedOrKept p.now.max_grid_size (levels_of mesh.new) (outlines (levels_of mesh.old))) }
    ensures patches { All (IsChopped p.now.max_grid_size) (levels_of mesh.old) → OnOk result (All (IsChopped p.now.max_grid_size) (levels_of mesh.new)) }
    ensures whole { is_spent mesh.new ≡ false }
    ensures refused { OnErr result (state_of mesh.new ≡ state_of mesh.old) }
    ensures refused_patches { OnErr result (outlines (levels_of mesh.new) ≡ outlines (levels_of mesh.old)) }
{
    let mut one = [Mesh::of(0, Vec::new(alloc), Vec::new(alloc))];
    swap(&mut one[0], mesh);
    let outcome = regrid_by(sharing, alloc, p, &mut one);
    swap(&mut one[0], mesh);
    outcome
}

/// Regrids a mesh (Berger and Colella 1989). From the finest level that may be refined down to level 0 the tags are
/// grown and joined with what nests the new boxes two levels up. They are gathered into blocks and clustered. A
/// cluster, refined, is a box of the next level. A cell of a new box keeps the mass that it has on its level, any other
/// gets its share of its parent's. Each tagged cell below the greatest level is covered afterwards. The step and the
/// rows of the ledger stay.
///
/// New boxes are chopped into patches of at most `max_grid_size` by `max_grid_size` cells. A level whose boxes stay keeps its
/// patches, with no look at its cells. After `NoMemory`, the only refusal, the mesh has its state, boxes and patch boxes as
/// before; ghost cells may differ.
pub fn regrid(alloc: Global, p: &Problem, mesh: &mut Mesh) -> Result<(), NoMemory>
    requires whole { is_spent mesh.old ≡ false }
    requires sound { IsSound p.now (state_of mesh.old) }
    ensures value { OnOk result (state_of mesh.new ≡ regrid p.now (state_of mesh.old)) }
    ensures sound { OnOk result (IsSound p.now (state_of mesh.new)) }
    ensures held { OnOk result (IsHeld p.now (state_of mesh.old) (state_of mesh.new)) }
    ensures chopped_or_kept { OnOk result (AreChoppedOrKept p.now.max_grid_size (levels_of mesh.new) (outlines (levels_of mesh.old))) }
    ensures patches { All (IsChopped p.now.max_grid_size) (levels_of mesh.old) → OnOk result (All (IsChopped p.now.max_grid_size) (levels_of mesh.new)) }
    ensures whole { is_spent mesh.new ≡ false }
    ensures refused { OnErr result (state_of mesh.new ≡ state_of mesh.old) }
    ensures refused_patches { OnErr result (outlines (levels_of mesh.new) ≡ outlines (levels_of mesh.old)) }
{
    regrid_one(&CallingThread, alloc, p, mesh)
}

/// The same, where the masses of the cells of large new levels are shared out among so many threads. For 0 and for 1 none is
/// made. The outcome is the same for any number.
pub fn regrid_in_threads<R: Threads + Sync>(
    rt: &R,
    threads: usize,
    alloc: Global,
    p: &Problem,
    mesh: &mut Mesh,
) -> Result<(), NoMemory>
    requires whole { is_spent mesh.old ≡ false }
    requires sound { IsSound p.now (state_of mesh.old) }
    ensures value { OnOk result (state_of mesh.new ≡ regrid p.now (state_of mesh.old)) }
    ensures sound { OnOk result (IsSound p.now (state_of mesh.new)) }
    ensures held { OnOk result (IsHeld p.now (state_of mesh.old) (state_of mesh.new)) }
    ensures chopped_or_kept { OnOk result (AreChoppedOrKept p.now.max_grid_size (levels_of mesh.new) (outlines (levels_of mesh.old))) }
    ensures patches { All (IsChopped p.now.max_grid_size) (levels_of mesh.old) → OnOk result (All (IsChopped p.now.max_grid_size) (levels_of mesh.new)) }
    ensures whole { is_spent mesh.new ≡ false }
    ensures refused { OnErr result (state_of mesh.new ≡ state_of mesh.old) }
    ensures refused_patches { OnErr result (outlines (levels_of mesh.new) ≡ outlines (levels_of mesh.old)) }
{
    regrid_one(&InThreads::of(rt, threads), alloc, p, mesh)
}
