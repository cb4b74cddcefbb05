//! The box of a payload: read, and tested by itself and against the earlier ones.

ghost use Rattle.std.specs.Prelude.{◌≡◌, ◌&&◌, ◌≤◌, ◌<◌, ◌^◌, [], pos, IfOk, IfErr, IsTrue};
ghost use Rattle.amr_box.specs.Cells.{IsNear, cell, is_proper};
ghost use Rattle.amr_def.specs.Domain.{domain_box, domain_of, in_domain};
ghost use Rattle.amr_payload.specs.Tests.{is_aligned, is_box_of, is_multiple, is_same_box, lies_in, read, read_box};
ghost use Rattle.amr_decoder.specs.Boxes.{IsSmall, box_at};
ghost use Rattle.amr_decoder.specs.Faults.{IsFaultOf};
ghost use Rattle.amr_decoder.specs.Lefts.{left_of, whole_of};

use crate::faults::CodecFault;
use crate::reader::Reader;
use amr_box::{Bx, Cell};
use amr_def::{Dom, Problem};

/// The corners of a box as a payload has them: any numbers of four bytes.
#[derive(Clone, Copy)]
pub(crate) struct Corners {
    pub west: u32,
    pub south: u32,
    pub east: u32,
    pub north: u32,
}

#[tactic(auto, unfolding(amr_payload::specs::Tests::read_box))]
pub(crate) fn read_corners(reader: &mut Reader<'_>) -> Result<Corners, CodecFault>
    ensures read { IfOk result (λ b. read_box (left_of reader.old) ≡ read (box_at b) (left_of reader.new)) }
    ensures bad { IfErr result (IsFaultOf (read_box (left_of reader.old))) }
    ensures whole { whole_of reader.new ≡ whole_of reader.old }
{
    let west = reader.read_u32()?;
    let south = reader.read_u32()?;
    let east = reader.read_u32()?;
    let north = reader.read_u32()?;
    Ok(Corners {
        west,
        south,
        east,
        north,
    })
}

/// Whether a column and a row are those of a cell of the domain.
#[tactic(auto, unfolding(amr_def::specs::Domain::in_domain))]
fn is_cell(dom: &Dom, x: u32, y: u32) -> bool
    ensures value { result ≡ in_domain (domain_of dom.now) (cell (pos x) (pos y)) }
    ensures column { IsTrue result → x < 4096 }
    ensures row { IsTrue result → y < 4096 }
{
    let column = x < dom.columns();
    let row = y < dom.rows();
    column & row
}

/// Whether both corners are cells of the domain.
fn lies_in(dom: &Dom, b: Corners) -> bool
    ensures value { result ≡ lies_in (domain_of dom.now) (box_at b) }
    ensures east { IsTrue result → b.east < 4096 }
    ensures north { IsTrue result → b.north < 4096 }
{
    let low = is_cell(dom, b.west, b.south);
    let high = is_cell(dom, b.east, b.north);
    low & high
}

/// Whether the corners are in order.
fn is_proper(b: Corners) -> bool
    ensures value { result ≡ is_proper (box_at b) }
    ensures wide { IsTrue result → b.west ≤ b.east }
    ensures high { IsTrue result → b.south ≤ b.north }
{
    let wide = b.west <= b.east;
    let high = b.south <= b.north;
    wide & high
}

/// Whether a coordinate is a multiple of the blocking factor.
fn begins_block(n: u32, blocking: u32) -> bool
    requires { 1 ≤ blocking }
    ensures { result ≡ is_multiple blocking (pos n) }
{
    n % blocking == 0
}

/// Whether low coordinates are multiples of the blocking factor, and high ones one less than a multiple.
fn is_aligned(blocking: u32, b: Corners) -> bool
    requires some { 1 ≤ blocking }
    requires east { b.east < 2 ^ 31 }
    requires north { b.north < 2 ^ 31 }
    ensures { result ≡ is_aligned blocking (box_at b) }
{
    let west = begins_block(b.west, blocking);
    let south = begins_block(b.south, blocking);
    let east = begins_block(b.east + 1, blocking);
    let north = begins_block(b.north + 1, blocking);
    (west & south) & (east & north)
}

/// The box with these corners, which are in order and small.
pub(crate) fn as_box(b: Corners) -> Bx
    requires { IsSmall b }
    ensures value { result ≡ box_at b }
    ensures near { IsNear result }
{
    let lo = Cell {
        x: b.west as i32,
        y: b.south as i32,
    };
    let hi = Cell {
        x: b.east as i32,
        y: b.north as i32,
    };
    match Bx::try_new(lo, hi) {
        Some(b) => b,
        None => unreachable!(),
    }
}

/// Whether the corners are those of the domain.
fn is_domain_box(dom: &Dom, b: Corners) -> bool
    ensures value { result ≡ is_same_box (box_at b) (domain_box (domain_of dom.now)) }
    ensures small { IsTrue result → IsSmall b }
{
    let west = b.west == 0;
    let south = b.south == 0;
    let east = b.east == dom.columns() - 1;
    let north = b.north == dom.rows() - 1;
    (west & south) & (east & north)
}

/// Whether a box lies in the domain of a finer level, is proper and aligned.
fn is_fine(dom: &Dom, blocking: u32, b: Corners) -> bool
    requires { 1 ≤ blocking }
    ensures value { result ≡ (lies_in (domain_of dom.now) (box_at b) && is_proper (box_at b) && is_aligned blocking (box_at b)) }
    ensures small { IsTrue result → IsSmall b }
{
    if !lies_in(dom, b) {
        return false;
    }
    let proper = is_proper(b);
    let aligned = is_aligned(blocking, b);
    proper & aligned
}

/// Whether a box of level `l` passes the tests on itself. That of level 0 is the domain. One of a finer level lies in
/// the domain, is proper and aligned.
pub(crate) fn is_fit(p: &Problem, l: u32, b: Corners) -> bool
    requires { l ≤ 4 }
    ensures value { result ≡ is_box_of p.now l [] (box_at b) }
    ensures small { IsTrue result → IsSmall b }
{
    let dom = p.domain(l);
    if l == 0 {
        is_domain_box(&dom, b)
    } else {
        is_fine(&dom, p.blocking, b)
    }
}
