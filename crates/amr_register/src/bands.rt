//! Bands: the register cells of a belt, with their sides. Each is worked out by itself, and then they are put together.

ghost use Rattle.std.specs.Prelude.{◌≡◌, ℕ, suc, ◌+◌, ◌*◌, ◌<◌, ◌≤◌, pos, ◌-ℤ◌, length, IfOk, OnOk};
ghost use Rattle.amr_def.specs.declared.problem.Problem.{Problem};
ghost use Rattle.amr_def.specs.State.{Masses};
ghost use Rattle.amr_patch.specs.Levels.{level_of};
ghost use Rattle.amr_register.specs.Bands.{AreBandsOf, IsBandOf, IsWhole};

use crate::belts::belt_at;
use crate::beside::register_cells;
use crate::pair::LevelPair;
use crate::sides::{CoveredSides, sides_of_all};
use amr_box::Cell;
use amr_causes::NoMemory;
use std::alloc::Global;
use std::thread::{Threads, map_indices};

/// So many bars a cover has at least, where threads are made. Fewer are gone through about as soon as threads begin.
const LEAST_BARS: usize = 2048;

/// No domain has more rows.
const ALL_ROWS: u32 = 4096;

/// The register cells of a belt, by row, within a row by column, and on which sides of each covered ones lie.
#[derive(Drop)]
pub(crate) struct Band {
    pub(crate) cells: Vec<Cell>,
    pub(crate) sides: Vec<CoveredSides>,
}

/// The band of belt `k` of those of `size` rows.
fn band_of(alloc: Global, pair: &LevelPair<'_>, k: u32, size: u32) -> Result<Band, NoMemory>
    requires few { k < 4096 }
    requires small { size ≤ 4097 }
    ensures { IfOk result (IsBandOf pair.now.p.now pair.now.l (level_of pair.now.coarse.now).masses (level_of pair.now.fine.now).masses (pos (k * size))
        (pos ((k + 1) * size) -ℤ pos 1)) }
{
    let cells = register_cells(alloc, pair, belt_at(k, size))?;
    let sides = sides_of_all(alloc, &pair.p.domain(pair.l), pair.cover, &cells)?;
    Ok(Band { cells, sides })
}

/// Adds the band of the next rows.
fn add_band(band: &mut Band, next: &Band) -> Result<(), NoMemory>
    ensures { (p : Problem) (l : ℕ) (m fine : Masses) (n size : ℕ) → IsBandOf p l m fine (pos 0) (pos (n * size) -ℤ pos 1) band.old
        → IsBandOf p l m fine (pos (n * size)) (pos ((n + 1) * size) -ℤ pos 1) next.now
        → OnOk result (IsBandOf p l m fine (pos 0) (pos ((n + 1) * size) -ℤ pos 1) band.new) }
{
    band.cells.extend_from_slice(&next.cells)?;
    band.sides.extend_from_slice(&next.sides)?;
    Ok(())
}

/// Adds the band of the next rows, if memory was enough for it.
fn add_found(band: &mut Band, next: &Result<Band, NoMemory>) -> Result<(), NoMemory>
    ensures { (p : Problem) (l : ℕ) (m fine : Masses) (n size : ℕ) → IsBandOf p l m fine (pos 0) (pos (n * size) -ℤ pos 1) band.old
        → IfOk next.now (IsBandOf p l m fine (pos (n * size)) (pos ((n + 1) * size) -ℤ pos 1))
        → OnOk result (IsBandOf p l m fine (pos 0) (pos ((n + 1) * size) -ℤ pos 1) band.new) }
{
    match next {
        Ok(next) => add_band(band, next),
        Err(fault) => Err(*fault),
    }
}

/// The bands of belts one behind the other, as one.
fn put_together(alloc: Global, bands: &[Result<Band, NoMemory>]) -> Result<Band, NoMemory>
    ensures { (p : Problem) (l : ℕ) (m fine : Masses) (size : ℕ) → AreBandsOf p l m fine size bands.now
        → IfOk result (IsBandOf p l m fine (pos 0) (pos (length bands.now * size) -ℤ pos 1)) }
{
    let mut all = Band {
        cells: Vec::new(alloc),
        sides: Vec::new(alloc),
    };
    for k in 0..bands.len() {
        add_found(&mut all, &bands[k])?;
    }
    Ok(all)
}

/// All register cells of the coarser level, with their sides.
pub(crate) fn whole(alloc: Global, pair: &LevelPair<'_>) -> Result<Band, NoMemory>
    ensures { IfOk result (IsWhole pair.now.p.now pair.now.l (level_of pair.now.coarse.now).masses (level_of pair.now.fine.now).masses) }
{
    band_of(alloc, pair, 0, ALL_ROWS)
}

/// The same, by so many belts, each in a thread of its own where one can be had.
fn whole_by_belts<R: Threads + Sync>(
    rt: &R,
    belts: u32,
    alloc: Global,
    pair: &LevelPair<'_>,
) -> Result<Band, NoMemory>
    requires some { 0 < belts }
    requires few { belts ≤ 4096 }
    ensures { IfOk result (IsWhole pair.now.p.now pair.now.l (level_of pair.now.coarse.now).masses (level_of pair.now.fine.now).masses) }
{
    let size = pair.p.domain(pair.l).rows() / belts + 1;
    let part = move |k: usize| -> Result<Band, NoMemory>
        requires { (k < 4096) × (size ≤ 4097) }
        ensures { IfOk result (IsBandOf pair.entry.now.p.now pair.entry.now.l (level_of pair.entry.now.coarse.now).masses
            (level_of pair.entry.now.fine.now).masses (pos (k * size)) (pos ((k + 1) * size) -ℤ pos 1)) }
    { band_of(alloc, pair, k as u32, size) };
    let bands = map_indices(rt, alloc, belts as usize, &part)?;
    put_together(alloc, &bands)
}

/// The same as `whole`, by as many threads at once as `threads` says. Where there is little to do, no thread is made.
pub(crate) fn whole_in_threads<R: Threads + Sync>(
    rt: &R,
    threads: usize,
    alloc: Global,
    pair: &LevelPair<'_>,
) -> Result<Band, NoMemory>
    ensures { IfOk result (IsWhole pair.now.p.now pair.now.l (level_of pair.now.coarse.now).masses (level_of pair.now.fine.now).masses) }
{
    if threads < 2 {
        return whole(alloc, pair);
    }
    if pair.cover.bar_count() < LEAST_BARS {
        return whole(alloc, pair);
    }
    let belts = threads.min(ALL_ROWS as usize) as u32;
    whole_by_belts(rt, belts, alloc, pair)
}
