//! States that are drawn, as payloads. A state that isn't sound has no payload, so most of what is drawn is refused.

ghost use Rattle.std.specs.Prelude.{◌≤◌, ◌<◌};

use crate::problems::between;
use amr_def::Problem;
use amr_trial::Generator;
use std::alloc::Global;
use std::test::Fail;

/// A box, by its corners.
#[derive(Clone, Copy)]
struct Corners {
    west: u32,
    south: u32,
    east: u32,
    north: u32,
}

/// How wide a block is, and the most blocks along a side of a box, and boxes over one.
#[derive(Clone, Copy)]
struct Blocks {
    side: u32,
    most: u32,
}

/// A number below `n` for a cell of level `l`, the same whenever it is asked for.
fn number_at(seed: u32, l: u32, x: u32, y: u32, n: u32) -> u32
    requires { 0 < n }
    ensures { result < n }
{
    let row = l.wrapping_mul(4096).wrapping_add(y);
    let place = row.wrapping_mul(4096).wrapping_add(x);
    let mut g = Generator::of_trial(place.wrapping_mul(69_069).wrapping_add(seed));
    g.draw(n)
}

/// The mass of a cell of level 0: none, little, or up to a bound that each finer cell may have.
fn base_mass(seed: u32, x: u32, y: u32) -> u32 {
    match number_at(seed, 0, x, y, 4) {
        0 => 0,
        1 => number_at(seed, 1, x, y, 9),
        2 => number_at(seed, 2, x, y, 900),
        _ => number_at(seed, 3, x, y, 4_194_304),
    }
}

/// What child 0 to 3 of a cell gets of its mass: all, if it is the favoured one, and a quarter, if none is.
fn share(mass: u32, child: u32, favoured: u32) -> u32 {
    let quarter = mass / 4;
    if favoured == child {
        mass
    } else if favoured < 4 {
        0
    } else if child == 0 {
        mass - 3 * quarter
    } else {
        quarter
    }
}

/// The mass of a cell of level `l`: the shares of four children add up to the mass of their parent.
fn mass_at(seed: u32, l: u32, x: u32, y: u32) -> u32 {
    if l == 0 {
        return base_mass(seed, x, y);
    }
    let mass = mass_at(seed, l - 1, x / 2, y / 2);
    let favoured = number_at(seed, l, x / 2, y / 2, 6);
    share(mass, 2 * (y % 2) + x % 2, favoured)
}

fn put(bytes: &mut Vec<u8>, number: u32) -> Result<(), Fail> {
    bytes.extend_from_slice(&number.to_le_bytes())?;
    Ok(())
}

/// A box of level `l`, and its masses.
fn put_box(bytes: &mut Vec<u8>, seed: u32, l: u32, b: Corners) -> Result<(), Fail> {
    for corner in [b.west, b.south, b.east, b.north] {
        put(bytes, corner)?;
    }
    for y in b.south..b.north.saturating_add(1) {
        for x in b.west..b.east.saturating_add(1) {
            put(bytes, mass_at(seed, l, x, y))?;
        }
    }
    Ok(())
}

/// Up to so many whole blocks of the next finer level over a span of columns or rows: at its low end, at its high end, or between.
fn draw_span(g: &mut Generator, low: u32, high: u32, blocks: Blocks) -> (u32, u32)
    requires wide { 0 < blocks.side }
    requires some { 1 ≤ blocks.most }
{
    let cells = high.saturating_sub(low).saturating_add(1).saturating_mul(2);
    let count = (cells / blocks.side).min(64).max(1);
    let size = between(g, 1, count.min(blocks.most));
    let first = match g.draw(3) {
        0 => 0,
        1 => count - size,
        _ => between(g, 0, count - size),
    };
    let start = low
        .saturating_mul(2)
        .saturating_add(first.saturating_mul(blocks.side));
    let end = start.saturating_add(size.saturating_mul(blocks.side));
    (start, end.saturating_sub(1))
}

/// A box of the level above that of another, over a part of it.
fn draw_box(g: &mut Generator, coarser: Corners, blocks: Blocks) -> Corners
    requires wide { 0 < blocks.side }
    requires some { 1 ≤ blocks.most }
{
    let (west, east) = draw_span(g, coarser.west, coarser.east, blocks);
    let (south, north) = draw_span(g, coarser.south, coarser.north, blocks);
    Corners {
        west,
        south,
        east,
        north,
    }
}

/// Boxes of level `l` over a coarser one; the last of them is given back.
fn put_level(
    bytes: &mut Vec<u8>,
    g: &mut Generator,
    seed: u32,
    l: u32,
    coarser: Corners,
    blocks: Blocks,
) -> Result<Corners, Fail>
    requires wide { 0 < blocks.side }
    requires some { 1 ≤ blocks.most }
    requires few { blocks.most ≤ 8 }
{
    let count = between(g, 1, blocks.most);
    put(bytes, count)?;
    let mut last = coarser;
    for _ in 0..count {
        last = draw_box(g, coarser, blocks);
        put_box(bytes, seed, l, last)?;
    }
    Ok(last)
}

/// The step, 0 or 1, and the ledger's rows up to it.
fn put_rows(bytes: &mut Vec<u8>, g: &mut Generator, seed: u32, base: Corners) -> Result<(), Fail> {
    let mut mass = 0u64;
    for y in 0..base.north.saturating_add(1) {
        for x in 0..base.east.saturating_add(1) {
            mass = mass.saturating_add(u64::from(base_mass(seed, x, y)));
        }
    }
    let step = g.draw(2);
    put(bytes, step)?;
    for row in [[mass, 0, 0], [mass, 7, 7]].iter().take(1 + step as usize) {
        for number in row {
            bytes.extend_from_slice(&number.to_le_bytes())?;
        }
    }
    Ok(())
}

/// What is a payload if the state is sound: masses of 4 bytes, and so many levels. The more levels, the smaller they are.
pub(crate) fn payload(
    alloc: Global,
    g: &mut Generator,
    seed: u32,
    p: &Problem,
    levels: u8,
) -> Result<Vec<u8>, Fail>
    requires some { 1 ≤ levels }
    requires few { levels ≤ 5 }
{
    let base = Corners {
        west: 0,
        south: 0,
        east: p.nx.saturating_sub(1),
        north: p.ny.saturating_sub(1),
    };
    let blocks = Blocks {
        side: p.blocking.max(2),
        most: 8 / u32::from(levels),
    };
    let mut bytes = Vec::new(alloc);
    put_rows(&mut bytes, g, seed, base)?;
    bytes.push(levels)?;
    put(&mut bytes, 1)?;
    put_box(&mut bytes, seed, 0, base)?;
    let mut coarser = base;
    for l in 1..u32::from(levels) {
        coarser = put_level(&mut bytes, g, seed, l, coarser, blocks)?;
    }
    Ok(bytes)
}
