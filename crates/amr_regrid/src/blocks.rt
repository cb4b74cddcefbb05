//! The blocks of a level that the next finer one is to cover, and the boxes over them.

ghost use Rattle.std.specs.Prelude.{◌≡◌, ◌+◌, ◌<◌, ◌≤◌, ◌⊎◌, ◌&&◌, ◌||◌, IfOk, OnOk, IsTrue, map};
ghost use Rattle.std.specs.List.{All};
ghost use Rattle.amr_box.specs.declared.Cell.{Cell};
ghost use Rattle.amr_box.specs.Cells.{IsNear, in_boxes, parent};
ghost use Rattle.amr_cluster.specs.Grown.{IsOverDomain};
ghost use Rattle.amr_cluster.specs.Work.{cells_in};
ghost use Rattle.amr_def.specs.Cluster.{cluster};
ghost use Rattle.amr_def.specs.Domain.{domain, domain_box, has_cell_where, in_domain, refined};
ghost use Rattle.amr_def.specs.NewBoxes.{block_side, is_projected, wanted_blocks};
ghost use Rattle.amr_regrid.specs.Blocks.{IsLow, blocks_of};
ghost use Rattle.amr_tags.specs.TagSets.{has};

use amr_box::Bx;
use amr_causes::NoMemory;
use amr_cluster::cluster;
use amr_def::Problem;
use amr_nest::project;
use amr_tags::Tags;
use std::alloc::Global;

/// Joins the projection of the boxes of level `l + 2` to a set of cells of level `l`.
fn join_projection(
    alloc: Global,
    tags: &mut Tags,
    p: &Problem,
    l: u32,
    finer: &[Bx],
) -> Result<(), NoMemory>
    requires below { l < p.now.max_level }
    requires over { IsOverDomain (domain p.now l) tags.old }
    requires finer { (c : Cell) → IsTrue (in_boxes finer.now c) → IsTrue (in_domain (domain p.now (l + 1)) (parent c)) }
    ensures over { OnOk result (IsOverDomain (domain p.now l) tags.new) }
    ensures cells { OnOk result ((c : Cell)
        → has tags.new c ≡ (has tags.old c || (in_domain (domain p.now l) c && is_projected (domain p.now (l + 1)) finer.now c))) }
{
    let dom = p.domain(l + 1);
    let projected = project(alloc, finer, &dom)?;
    tags.join(&projected);
    Ok(())
}

/// The blocks of a level that hold a cell of a set over its domain.
fn in_blocks(tags: Tags, p: &Problem, l: u32) -> Result<Tags, NoMemory>
    requires known { l ≤ 4 }
    requires over { tags.bx ≡ domain_box (domain p.now l) }
    ensures in_box { IfOk result (λ t. t.bx ≡ domain_box (blocks_of p.now l)) }
    ensures cells { IfOk result (λ t. (c : Cell) → has t c ≡ has_cell_where (block_side p.now) (has tags) c) }
{
    let blocking = p.blocking;
    if blocking == 2 {
        return Ok(tags);
    }
    if blocking == 4 {
        return tags.coarsened();
    }
    let pairs = tags.coarsened()?;
    pairs.coarsened()
}

/// The blocks of a level that the next finer one is to cover, by the tags of the level and the boxes of level `l + 2`.
fn wanted(alloc: Global, p: &Problem, l: u32, tags: Tags, finer: &[Bx]) -> Result<Tags, NoMemory>
    requires below { l < p.now.max_level }
    requires over { IsOverDomain (domain p.now l) tags }
    requires finer { (c : Cell) → IsTrue (in_boxes finer.now c) → IsTrue (in_domain (domain p.now (l + 1)) (parent c)) }
    ensures in_box { IfOk result (λ t. t.bx ≡ domain_box (blocks_of p.now l)) }
    ensures cells { IfOk result (λ t. cells_in (has t) t.bx ≡ wanted_blocks p.now (λ k. has tags) l finer.now) }
{
    let mut tags = tags;
    tags.grow(p.n_error_buf);
    join_projection(alloc, &mut tags, p, l, finer)?;
    let blocks = in_blocks(tags, p, l)?;
    Ok(blocks)
}

/// The cells of the blocks of a box, each of them `blocking` cells wide.
fn refined(b: &Bx, blocking: u32) -> Bx
    requires blocking { (blocking ≡ 2) ⊎ ((blocking ≡ 4) ⊎ (blocking ≡ 8)) }
    requires low { IsLow b.now }
    ensures value { result ≡ refined blocking b.now }
    ensures near { IsNear result }
{
    let (_low, _high) = (b.lo(), b.hi());
    let twice = b.refine2();
    if blocking == 2 {
        return twice;
    }
    if blocking == 4 {
        return twice.refine2();
    }
    twice.refine2().refine2()
}

/// The cells of the blocks of boxes.
fn all_refined(alloc: Global, boxes: &[Bx], blocking: u32) -> Result<Vec<Bx>, NoMemory>
    requires blocking { (blocking ≡ 2) ⊎ ((blocking ≡ 4) ⊎ (blocking ≡ 8)) }
    requires low { All IsLow boxes.now }
    ensures { IfOk result (λ r. r.items ≡ map (refined blocking) boxes.now) }
{
    let mut all = Vec::with_capacity(alloc, boxes.len())?;
    for b in boxes {
        all.push(refined(b, blocking))?;
    }
    Ok(all)
}

/// The new boxes of level `l + 1`, by the tags of level `l` and the new boxes of level `l + 2`. Grown tags and the
/// projection of the finer boxes are gathered into blocks, and those into clusters (Berger and Colella; Berger and
/// Rigoutsos).
pub(crate) fn boxes_over(
    alloc: Global,
    p: &Problem,
    l: u32,
    tags: Tags,
    finer: &[Bx],
) -> Result<Vec<Bx>, NoMemory>
    requires below { l < p.now.max_level }
    requires over { IsOverDomain (domain p.now l) tags }
    requires finer { (c : Cell) → IsTrue (in_boxes finer.now c) → IsTrue (in_domain (domain p.now (l + 1)) (parent c)) }
    ensures { IfOk result (λ r. r.items
        ≡ map (refined p.now.blocking) (cluster p.now.efficiency p.now.min_width (wanted_blocks p.now (λ k. has tags) l finer.now))) }
{
    let blocks = wanted(alloc, p, l, tags, finer)?;
    let clusters = cluster(alloc, &blocks, p.efficiency, p.min_width)?;
    all_refined(alloc, clusters.list(), p.blocking)
}
