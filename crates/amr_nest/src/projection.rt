//! The projection of finer boxes.

ghost use Rattle.std.specs.Prelude.{◌≡◌, ◌<◌, ◌&&◌, ◌||◌, IfOk, IsTrue};
ghost use Rattle.amr_box.specs.declared.Cell.{Cell};
ghost use Rattle.amr_box.specs.Cells.{IsNear, has_child_where, holds, in_boxes, parent};
ghost use Rattle.amr_def.specs.Domain.{domain_box, domain_of, in_blocks, in_domain};
ghost use Rattle.amr_def.specs.NewBoxes.{is_projected};
ghost use Rattle.amr_tags.specs.TagSets.{SameShape, has};
ghost use Rattle.amr_nest.specs.Reach.{IsInDomainBox, is_reached, is_reached_at};

use crate::reach::{parents, reach_at};
use amr_box::{Bx, Cell};
use amr_causes::NoMemory;
use amr_def::Dom;
use amr_tags::Tags;
use std::alloc::Global;

/// The projection of the boxes of level `l + 2`, where `dom` is the domain of level `l + 1`. It is the cells of level
/// `l` that are parents of cells at most one away from a parent of a cell of the boxes. Past the end of a periodic axis
/// that goes on at the other end. Tagged, they make new boxes of level `l + 1` in which those of `l + 2` are nested
/// (Berger and Colella).
///
/// The boxes lie in their domain. A box is gone over by at most nine boxes of words, and no cell by itself.
pub fn project(alloc: Global, boxes: &[Bx], dom: &Dom) -> Result<Tags, NoMemory>
    requires { (c : Cell) → IsTrue (in_boxes boxes.now c) → IsTrue (in_domain (domain_of dom.now) (parent c)) }
    ensures in_box { IfOk result (λ t. t.bx ≡ domain_box (in_blocks 2 (domain_of dom.now))) }
    ensures axes { IfOk result (λ t. (t.wrap_x ≡ dom.now.wrap_x) × (t.wrap_y ≡ dom.now.wrap_y)) }
    ensures cells { IfOk result (λ t. (c : Cell) → has t c ≡ (in_domain (in_blocks 2 (domain_of dom.now)) c && is_projected (domain_of dom.now) boxes.now c)) }
{
    let mut tags = Tags::make(alloc, coarser_box(dom), dom.wrap_x, dom.wrap_y)?;
    for b in boxes {
        tag_around(&mut tags, &parents(b, dom), dom);
    }
    Ok(tags)
}

/// The domain of the next coarser level as a box.
#[tactic(auto, using(crate::proofs::Sizes::two_doubled))]
fn coarser_box(dom: &Dom) -> Bx
    ensures value { result ≡ domain_box (in_blocks 2 (domain_of dom.now)) }
    ensures near { IsNear result }
{
    let hi = Cell {
        x: (dom.columns() / 2) as i32 - 1,
        y: (dom.rows() / 2) as i32 - 1,
    };
    Bx::try_new(Cell { x: 0, y: 0 }, hi).unwrap()
}

/// Tags the parents of the cells at most one away from a box of the domain.
fn tag_around(tags: &mut Tags, b: &Bx, dom: &Dom)
    requires { IsInDomainBox (domain_of dom.now) b.now }
    ensures shape { SameShape tags.old tags.new }
    ensures cells { (c : Cell) → has tags.new c ≡ (has tags.old c || (holds tags.old.bx c && has_child_where (is_reached (domain_of dom.now) b.now 9) c)) }
{
    for k in 0..9 {
        tag_turn(tags, b, dom, k);
    }
}

/// The same at turn `k` alone.
fn tag_turn(tags: &mut Tags, b: &Bx, dom: &Dom, k: u32)
    requires inside { IsInDomainBox (domain_of dom.now) b.now }
    requires turn { k < 9 }
    ensures shape { SameShape tags.old tags.new }
    ensures cells { (c : Cell) → has tags.new c ≡ (has tags.old c || (holds tags.old.bx c && has_child_where (is_reached_at (domain_of dom.now) b.now k) c)) }
{
    match reach_at(b, dom, k) {
        None => {}
        Some(reached) => tags.set_in(reached.coarsen2()),
    }
}
