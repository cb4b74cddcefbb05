//! Whether boxes are nested.

ghost use Rattle.std.specs.Prelude.{◌≡◌, ◌<◌, ◌≤◌, ◌↔◌, ◌&&◌, ◌||◌, pos, ◌+ℤ◌, IfOk, IsTrue};
ghost use Rattle.std.specs.Int.{int_rem_euclid};
ghost use Rattle.std.specs.List.{All};
ghost use Rattle.amr_box.specs.declared.Cell.{Cell};
ghost use Rattle.amr_box.specs.Cells.{holds, in_boxes, parent};
ghost use Rattle.amr_def.specs.Domain.{domain_box, domain_of, in_domain, is_near};
ghost use Rattle.amr_def.specs.Facts.{IsAligned, IsNestedIn};
ghost use Rattle.amr_def.specs.State.{is_covered_by};
ghost use Rattle.amr_tags.specs.TagSets.{SameShape, has};
ghost use Rattle.amr_nest.specs.Reach.{IsInDomainBox, is_reached, is_reached_at};

use crate::reach::{domain_box, parents, reach_at};
use amr_box::Bx;
use amr_causes::NoMemory;
use amr_def::Dom;
use amr_tags::Tags;
use std::alloc::Global;

/// Whether the `fine` boxes are nested in the `coarse` ones, where `dom` is the domain of the coarse level. Then each
/// fine box begins and ends on multiples of the blocking factor. And each cell of the domain at most one away from a
/// parent of a fine cell, at a corner too, is in a coarse box. Past the end of a periodic axis the other end is looked
/// at; past the end of an open one there is nothing to cover (Berger and Colella).
///
/// The fine boxes lie in their domain. The coarse boxes are tagged and then the cells around the fine ones, which are to add
/// none: each box is gone over by rows of words. Memory is taken for two bits for each cell of the domain.
pub fn nested(
    alloc: Global,
    fine: &[Bx],
    coarse: &[Bx],
    dom: &Dom,
    blocking: u32,
) -> Result<bool, NoMemory>
    requires some { 1 ≤ blocking }
    requires inside { (c : Cell) → IsTrue (in_boxes fine.now c) → IsTrue (in_domain (domain_of dom.now) (parent c)) }
    ensures { IfOk result (λ yes. IsTrue yes ↔ IsNestedIn (domain_of dom.now) blocking fine.now coarse.now) }
{
    if !are_aligned(fine, blocking) {
        return Ok(false);
    }
    are_surrounded(alloc, fine, coarse, dom)
}

/// Whether a coordinate is a multiple of the blocking factor.
fn begins_block(z: i32, blocking: u32) -> bool
    requires { 1 ≤ blocking }
    ensures { IsTrue result ↔ (int_rem_euclid z (pos blocking) ≡ pos 0) }
{
    i64::from(z).rem_euclid(i64::from(blocking)) == 0
}

/// Whether a coordinate is one less than a multiple of the blocking factor.
fn ends_block(z: i32, blocking: u32) -> bool
    requires { 1 ≤ blocking }
    ensures { IsTrue result ↔ (int_rem_euclid (z +ℤ pos 1) (pos blocking) ≡ pos 0) }
{
    (i64::from(z) + 1).rem_euclid(i64::from(blocking)) == 0
}

/// Whether a box begins and ends on multiples of the blocking factor.
fn is_aligned(b: &Bx, blocking: u32) -> bool
    requires { 1 ≤ blocking }
    ensures { IsTrue result ↔ IsAligned blocking b.now }
{
    let (lo, hi) = (b.lo(), b.hi());
    let west = begins_block(lo.x, blocking);
    let south = begins_block(lo.y, blocking);
    let east = ends_block(hi.x, blocking);
    let north = ends_block(hi.y, blocking);
    (west & south) & (east & north)
}

/// Whether each of the boxes does.
fn are_aligned(boxes: &[Bx], blocking: u32) -> bool
    requires { 1 ≤ blocking }
    ensures { IsTrue result ↔ All (IsAligned blocking) boxes.now }
{
    for b in boxes {
        if !is_aligned(b, blocking) {
            return false;
        }
    }
    true
}

/// Whether each cell of the domain at most one away from a parent of a cell of the fine boxes is in a coarse box.
fn are_surrounded(alloc: Global, fine: &[Bx], coarse: &[Bx], dom: &Dom) -> Result<bool, NoMemory>
    requires { (c : Cell) → IsTrue (in_boxes fine.now c) → IsTrue (in_domain (domain_of dom.now) (parent c)) }
    ensures { IfOk result (λ yes. IsTrue yes
        ↔ ((c : Cell) → IsTrue (in_domain (domain_of dom.now) c) → IsTrue (is_near (domain_of dom.now) 1 (is_covered_by fine.now) c)
        → IsTrue (in_boxes coarse.now c))) }
{
    let mut tags = tagged(alloc, coarse, dom)?;
    let whole = tags.bx();
    let covered = tags.count_in(whole);
    tag_around(&mut tags, fine, dom);
    Ok(tags.count_in(whole) == covered)
}

/// The cells of boxes, as far as they lie in the domain.
fn tagged(alloc: Global, boxes: &[Bx], dom: &Dom) -> Result<Tags, NoMemory>
    ensures in_box { IfOk result (λ t. t.bx ≡ domain_box (domain_of dom.now)) }
    ensures cells { IfOk result (λ t. (c : Cell) → has t c ≡ (holds (domain_box (domain_of dom.now)) c && in_boxes boxes.now c)) }
{
    let mut tags = Tags::make(alloc, domain_box(dom), false, false)?;
    for b in boxes {
        tags.set_in(*b);
    }
    Ok(tags)
}

/// Tags the cells of the domain at most one away from a parent of a cell of the boxes.
fn tag_around(tags: &mut Tags, boxes: &[Bx], dom: &Dom)
    requires in_box { tags.old.bx ≡ domain_box (domain_of dom.now) }
    requires inside { (c : Cell) → IsTrue (in_boxes boxes.now c) → IsTrue (in_domain (domain_of dom.now) (parent c)) }
    ensures shape { SameShape tags.old tags.new }
    ensures cells { (c : Cell) → has tags.new c
        ≡ (has tags.old c || (holds (domain_box (domain_of dom.now)) c && is_near (domain_of dom.now) 1 (is_covered_by boxes.now) c)) }
{
    for b in boxes {
        tag_reach(tags, &parents(b, dom), dom);
    }
}

/// Tags the cells at most one away from a box of the domain.
fn tag_reach(tags: &mut Tags, b: &Bx, dom: &Dom)
    requires { IsInDomainBox (domain_of dom.now) b.now }
    ensures shape { SameShape tags.old tags.new }
    ensures cells { (c : Cell) → has tags.new c ≡ (has tags.old c || (holds tags.old.bx c && is_reached (domain_of dom.now) b.now 9 c)) }
{
    for k in 0..9 {
        tag_reach_at(tags, b, dom, k);
    }
}

/// The same at turn `k` alone.
fn tag_reach_at(tags: &mut Tags, b: &Bx, dom: &Dom, k: u32)
    requires inside { IsInDomainBox (domain_of dom.now) b.now }
    requires turn { k < 9 }
    ensures shape { SameShape tags.old tags.new }
    ensures cells { (c : Cell) → has tags.new c ≡ (has tags.old c || (holds tags.old.bx c && is_reached_at (domain_of dom.now) b.now k c)) }
{
    match reach_at(b, dom, k) {
        None => {}
        Some(reached) => tags.set_in(reached),
    }
}
