//! The new boxes of meshes that share them.

ghost use Rattle.std.specs.Prelude.{◌≡◌, ◌+◌, ◌<◌, ◌≤◌, false, IfOk, length, map};
ghost use Rattle.amr_box.specs.declared.Cell.{Cell};
ghost use Rattle.amr_cluster.specs.Grown.{IsOverDomain};
ghost use Rattle.amr_def.specs.Domain.{domain};
ghost use Rattle.amr_def.specs.Facts.{IsLevel, IsSound};
ghost use Rattle.amr_def.specs.NewBoxes.{first_boxes, new_boxes};
ghost use Rattle.amr_def.specs.Species.{first_state, is_tagged_in_some};
ghost use Rattle.amr_def.specs.State.{level_at};
ghost use Rattle.amr_def.specs.Tags.{is_tagged};
ghost use Rattle.amr_patch.specs.Meshes.{is_spent, state_of};
ghost use Rattle.amr_regrid.specs.Outlines.{AreAlikeMeshes, lists_in, mesh_outline, outlines, with_levels};
ghost use Rattle.amr_tags.specs.TagSets.{has};

use crate::blocks::boxes_over;
use amr_box::Bx;
use amr_causes::NoMemory;
use amr_criterion::tags;
use amr_def::Problem;
use amr_patch::{Level, Mesh};
use amr_tags::Tags;
use std::alloc::Global;

/// The tags of level `l`. The levels keep their boxes, masses and patch boxes; the frames of that level's patches are filled.
fn tags_at(alloc: Global, p: &Problem, levels: &mut [Level], l: u32) -> Result<Tags, NoMemory>
    requires below { l < p.now.max_level }
    requires there { l < length levels.old }
    requires of_domain { IsLevel p.now l (level_at (with_levels levels.old) l) }
    ensures over { IfOk result (IsOverDomain (domain p.now l)) }
    ensures cells { IfOk result (λ t. (c : Cell) → has t c ≡ is_tagged p.now (with_levels levels.old) l c) }
    ensures outlines { outlines levels.new ≡ outlines levels.old }
{
    let (below, above) = levels.split_at_mut(l as usize);
    tags(alloc, p, l, &mut above[0], below.last())
}

/// The tags of level `l` of a mesh. Its state and patch boxes stay; the frames of that level's patches are filled.
fn tags_of(alloc: Global, p: &Problem, mesh: &mut Mesh, l: u32) -> Result<Tags, NoMemory>
    requires below { l < p.now.max_level }
    requires whole { is_spent mesh.old ≡ false }
    requires sound { IsSound p.now (state_of mesh.old) }
    requires there { l < length (state_of mesh.old).levels }
    ensures over { IfOk result (IsOverDomain (domain p.now l)) }
    ensures cells { IfOk result (λ t. (c : Cell) → has t c ≡ is_tagged p.now (state_of mesh.old) l c) }
    ensures outline { mesh_outline mesh.new ≡ mesh_outline mesh.old }
{
    let step = mesh.step();
    let (rows, mut levels) = mesh.take();
    let tags = tags_at(alloc, p, levels.as_mut_slice(), l);
    *mesh = Mesh::of(step, rows, levels);
    tags
}

/// The cells of level `l` that are tagged for some of the meshes.
fn joined_tags(alloc: Global, p: &Problem, meshes: &mut [Mesh], l: u32) -> Result<Tags, NoMemory>
    requires below { l < p.now.max_level }
    requires meshes { AreAlikeMeshes p.now meshes.old }
    requires there { l < length (first_state (map state_of meshes.old)).levels }
    ensures over { IfOk result (IsOverDomain (domain p.now l)) }
    ensures cells { IfOk result (λ t. (c : Cell) → has t c ≡ is_tagged_in_some p.now (map state_of meshes.old) l c) }
    ensures outlines { map mesh_outline meshes.new ≡ map mesh_outline meshes.old }
{
    let mut joined = tags_of(alloc, p, &mut meshes[0], l)?;
    for k in 1..meshes.len() {
        let tags = tags_of(alloc, p, &mut meshes[k], l)?;
        joined.join(&tags);
    }
    Ok(joined)
}

/// The first of the lists, or no boxes.
fn first_boxes(lists: &[Vec<Bx>]) -> &[Bx]
    ensures { result.now ≡ first_boxes (lists_in lists.now) }
{
    match lists.split_first() {
        Some((first, _)) => first.as_slice(),
        None => &[],
    }
}

/// The new boxes of `n` levels, the coarsest that of level `l + 1`, by the tags of all meshes. Their states and patch boxes stay,
/// whatever the answer.
pub(crate) fn new_boxes(
    alloc: Global,
    p: &Problem,
    meshes: &mut [Mesh],
    l: u32,
    n: u32,
) -> Result<Vec<Vec<Bx>>, NoMemory>
    requires known { l + n ≤ p.now.max_level }
    requires meshes { AreAlikeMeshes p.now meshes.old }
    requires there { l + n ≤ length (first_state (map state_of meshes.old)).levels }
    ensures boxes { IfOk result (λ r. lists_in r.items ≡ new_boxes p.now (is_tagged_in_some p.now (map state_of meshes.old)) n l) }
    ensures outlines { map mesh_outline meshes.new ≡ map mesh_outline meshes.old }
{
    if n == 0 {
        return Ok(Vec::new(alloc));
    }
    let mut all = new_boxes(alloc, p, meshes, l + 1, n - 1)?;
    let tags = joined_tags(alloc, p, meshes, l)?;
    let boxes = boxes_over(alloc, p, l, tags, first_boxes(all.as_slice()))?;
    all.insert(0, boxes)?;
    Ok(all)
}
