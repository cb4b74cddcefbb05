//! Places of border faces between groups of patches: numbered as they are read, and put by the patches that own them.

ghost use Rattle.std.specs.Prelude.{◌≡◌, ℕ, ◌+◌, ◌*◌, ◌<◌, ◌≤◌, ◌-◌, ◌^◌, [], length, map, slice_index_or, IfOk, OnOk};
ghost use Rattle.std.specs.List.{AllZip, range_with_len};
ghost use Rattle.amr_box.specs.declared.Face.{Face};
ghost use Rattle.amr_box.specs.Cells.{IsNear, height, width};
ghost use Rattle.amr_def.specs.Domain.{domain_of};
ghost use Rattle.amr_patch.specs.Patches.{box};
ghost use Rattle.amr_phase.specs.Plans.{total};
ghost use Rattle.amr_layout.specs.Surroundings.{edge_count};
ghost use Rattle.amr_faces.specs.Faces.{masked_faces};
ghost use Rattle.amr_layout.specs.declared.PatchLayout.{PatchLayout};
ghost use Rattle.amr_layout.specs.Arounds.{CanLookUp};
ghost use Rattle.amr_layout.specs.Places.{AreEmptyLists, ArePlacesOf, HasMask, HaveAllGot, HaveGot, are_grouped, borders_of, holder_of};
ghost use Rattle.amr_layout.specs.Places.{if_read, leads_on, level_borders, level_places, puts_of};
ghost use Rattle.amr_patch.specs.declared.patches.Patch.{Patch};

use crate::faces::{high_cell, home_face};
use crate::lookup::{Trace, look_beside};
use crate::{Layout, PatchLayout, PutAt};
use amr_box::{Bx, Face};
use amr_causes::NoMemory;
use amr_def::Dom;
use amr_faces::{x_end, y_end};
use amr_patch::{Order, Patch, Starts};
use std::alloc::Global;
use std::mem::replace;

/// The border faces so far: the puts of each patch, how many places there are, and where the next look-up begins.
#[derive(Drop)]
pub(crate) struct Places {
    pub(crate) lists: Vec<Vec<PutAt>>,
    pub(crate) count: u32,
    near: Trace,
}

/// A patch that reads border faces.
#[derive(Clone, Copy)]
struct Reader {
    /// Its number.
    patch: usize,
    /// How many patches a group has.
    each: usize,
}

/// Whether patches `i` and `j` are of one group of so many.
fn are_grouped(each: usize, i: usize, j: usize) -> bool
    requires { 0 < each }
    ensures { result ≡ are_grouped each i j }
{
    i / each == j / each
}

/// No puts for any patch, and room for as many as it may have: one for each row and column.
fn no_puts(alloc: Global, patches: &[Patch]) -> Result<Vec<Vec<PutAt>>, NoMemory>
    ensures { IfOk result (λ lists. AreEmptyLists (length patches.now) lists.items) }
{
    let mut lists = Vec::with_capacity(alloc, patches.len())?;
    for i in 0..patches.len() {
        let b = patches[i].bx();
        lists.push(Vec::with_capacity(alloc, (b.height() + b.width()) as usize)?)?;
    }
    Ok(lists)
}

/// Gives a face the next place if it is a border face of the reader, and the patch that owns it the put. It tells whether it is one.
fn put_border(
    dom: &Dom,
    patches: &[Patch],
    order: Order,
    starts: &Starts,
    places: &mut Places,
    reader: Reader,
    f: Face,
) -> Result<bool, NoMemory>
    requires some { 0 < reader.each }
    requires look_up { CanLookUp order patches.now starts.now }
    requires places { ArePlacesOf patches.now places.old }
    requires room { places.old.count < 2 ^ 31 }
    ensures told { IfOk result (λ told. told ≡ leads_on (domain_of dom.now) patches.now reader.each reader.patch f) }
    ensures got { OnOk result (HaveGot (domain_of dom.now) patches.now (if_read (domain_of dom.now) patches.now reader f) places.old places.new) }
{
    let face = home_face(dom, f);
    let Some(owner) = look_beside(patches, order, starts, &mut places.near, high_cell(face)) else {
        return Ok(false);
    };
    if are_grouped(reader.each, reader.patch, owner) {
        return Ok(false);
    }
    let put = PutAt {
        place: places.count,
        face,
    };
    places.lists[owner].push(put)?;
    places.count += 1;
    Ok(true)
}

/// The entry of a box's mask for the cell beyond row `j`.
fn end_entry(b: &Bx, j: u32) -> usize
    requires near { IsNear b.now }
    requires row { j < height b.now }
    ensures { result ≡ (j + 1) * (width b.now + 2) + (width b.now + 1) }
{
    let width = b.width() as usize;
    (j as usize + 1) * (width + 2) + (width + 1)
}

/// The entry of a box's mask for the cell beyond column `i`.
fn top_entry(b: &Bx, i: u32) -> usize
    requires near { IsNear b.now }
    requires column { i < width b.now }
    ensures { result ≡ (height b.now + 1) * (width b.now + 2) + (i + 1) }
{
    let width = b.width() as usize;
    let height = b.height() as usize;
    (height + 1) * (width + 2) + (i as usize + 1)
}

/// Gives the border faces of a patch's box the next places, and has the mask tell the ghost cells beyond them.
fn put_borders(
    dom: &Dom,
    patches: &[Patch],
    order: Order,
    starts: &Starts,
    places: &mut Places,
    reader: Reader,
    b: &Bx,
    mask: &mut [bool],
) -> Result<(), NoMemory>
    requires some { 0 < reader.each }
    requires reader { reader.patch ≡ holder_of patches.now b.now.lo }
    requires near { IsNear b.now }
    requires look_up { CanLookUp order patches.now starts.now }
    requires places { ArePlacesOf patches.now places.old }
    requires room { places.old.count + height b.now + width b.now ≤ 2 ^ 31 }
    requires entries { length mask.old ≡ (height b.now + 2) * (width b.now + 2) }
    ensures mask { OnOk result (masked_faces b.now mask.new ≡ borders_of (domain_of dom.now) patches.now reader.each b.now) }
    ensures got { OnOk result (HaveGot (domain_of dom.now) patches.now (borders_of (domain_of dom.now) patches.now reader.each b.now) places.old places.new) }
{
    for j in 0..b.height() {
        let end = x_end(b, j);
        let told = put_border(dom, patches, order, starts, places, reader, end)?;
        mask[end_entry(b, j)] = told;
    }
    for i in 0..b.width() {
        let top = y_end(b, i);
        let above = put_border(dom, patches, order, starts, places, reader, top)?;
        mask[top_entry(b, i)] = above;
    }
    Ok(())
}

/// The places from `first` to before `end`.
fn places_from(alloc: Global, first: u32, end: u32) -> Result<Vec<u32>, NoMemory>
    requires { first ≤ end }
    ensures { IfOk result (λ v. v.items ≡ range_with_len first (end - first)) }
{
    let mut places = Vec::with_capacity(alloc, (end - first) as usize)?;
    for place in first..end {
        places.push(place)?;
    }
    Ok(places)
}

/// What a patch reads. It has no puts yet.
fn reads_of(
    alloc: Global,
    dom: &Dom,
    patches: &[Patch],
    order: Order,
    starts: &Starts,
    places: &mut Places,
    reader: Reader,
    b: &Bx,
) -> Result<PatchLayout, NoMemory>
    requires some { 0 < reader.each }
    requires reader { reader.patch ≡ holder_of patches.now b.now.lo }
    requires near { IsNear b.now }
    requires look_up { CanLookUp order patches.now starts.now }
    requires places { ArePlacesOf patches.now places.old }
    requires room { places.old.count + height b.now + width b.now ≤ 2 ^ 31 }
    ensures border { IfOk result (λ t. t.border.items ≡ range_with_len places.old.count (places.new.count - places.old.count)) }
    ensures mask { IfOk result (λ t. masked_faces b.now t.mask.items ≡ borders_of (domain_of dom.now) patches.now reader.each b.now) }
    ensures got { OnOk result (HaveGot (domain_of dom.now) patches.now (borders_of (domain_of dom.now) patches.now reader.each b.now) places.old places.new) }
{
    let count = (b.height() as usize + 2) * (b.width() as usize + 2);
    let mut mask = vec![in alloc; false; count]?;
    let first = places.count;
    put_borders(dom, patches, order, starts, places, reader, b, &mut mask)?;
    let border = places_from(alloc, first, places.count)?;
    let told = mask_for(alloc, mask, places.count - first);
    Ok(PatchLayout {
        puts: Vec::new(alloc),
        border,
        mask: told,
    })
}

/// The mask of a patch that reads so many faces: none where it reads none.
fn mask_for(alloc: Global, mask: Vec<bool>, faces: u32) -> Vec<bool>
    ensures some { 0 < faces → result ≡ mask }
    ensures none { faces ≡ 0 → result.items ≡ [] }
{
    if faces == 0 {
        return Vec::new(alloc);
    }
    mask
}

/// Gives each patch its puts.
fn hand_puts(alloc: Global, lists: &mut [Vec<PutAt>], patches: &mut [PatchLayout])
    requires { length lists.old ≡ length patches.old }
    ensures puts { map (λ t. t.puts.items) patches.new ≡ map (λ v. v.items) lists.old }
    ensures border { map (λ t. t.border.items) patches.new ≡ map (λ t. t.border.items) patches.old }
    ensures mask { map (λ t. t.mask.items) patches.new ≡ map (λ t. t.mask.items) patches.old }
{
    for i in 0..patches.len() {
        let puts = replace(&mut lists[i], Vec::new(alloc));
        patches[i].puts = puts;
    }
}

/// The places of all border faces, and what each patch reads, in groups of so many.
fn place_reads(
    alloc: Global,
    dom: &Dom,
    patches: &[Patch],
    order: Order,
    starts: &Starts,
    each: usize,
) -> Result<(Places, Vec<PatchLayout>), NoMemory>
    requires some { 0 < each }
    requires look_up { CanLookUp order patches.now starts.now }
    requires few { total (λ q. edge_count (box q)) patches.now ≤ 2 ^ 30 }
    ensures put { IfOk result (λ r. HaveAllGot (domain_of dom.now) patches.now each r.0) }
    ensures borders { IfOk result (λ r. map (λ t. t.border.items) r.1.items ≡ level_places (domain_of dom.now) patches.now each) }
    ensures count { IfOk result (λ r. length r.1.items ≡ length patches.now) }
    ensures masks { IfOk result (λ r. (i : ℕ) (q : Patch) (t : PatchLayout) → i < length patches.now
        → HasMask (domain_of dom.now) patches.now each (slice_index_or patches.now i q) (slice_index_or r.1.items i t)) }
{
    let mut places = Places {
        lists: no_puts(alloc, patches)?,
        count: 0,
        near: Trace {
            patch: 0,
            gap: None,
        },
    };
    let mut reads = Vec::with_capacity(alloc, patches.len())?;
    for i in 0..patches.len() {
        let reader = Reader { patch: i, each };
        let layout = reads_of(
            alloc,
            dom,
            patches,
            order,
            starts,
            &mut places,
            reader,
            &patches[i].bx(),
        )?;
        reads.push(layout)?;
    }
    Ok((places, reads))
}

/// What each patch puts and reads in groups of so many, and how many places there are.
pub(crate) fn place_borders(
    alloc: Global,
    dom: &Dom,
    patches: &[Patch],
    order: Order,
    starts: &Starts,
    each: usize,
) -> Result<Layout, NoMemory>
    requires some { 0 < each }
    requires look_up { CanLookUp order patches.now starts.now }
    requires few { total (λ q. edge_count (box q)) patches.now ≤ 2 ^ 30 }
    ensures places { IfOk result (λ y. y.places ≡ length (level_borders (domain_of dom.now) patches.now each patches.now)) }
    ensures puts { IfOk result (λ y. map (λ t. t.puts.items) y.patches.items
        ≡ map (λ q. puts_of (domain_of dom.now) patches.now each (box q)) patches.now) }
    ensures borders { IfOk result (λ y. map (λ t. t.border.items) y.patches.items ≡ level_places (domain_of dom.now) patches.now each) }
    ensures masks { IfOk result (λ y. AllZip (HasMask (domain_of dom.now) patches.now each) patches.now y.patches.items) }
{
    let (mut places, mut reads) = place_reads(alloc, dom, patches, order, starts, each)?;
    hand_puts(alloc, &mut places.lists, &mut reads);
    Ok(Layout {
        places: places.count,
        patches: reads,
    })
}
