//! Flux registers.

ghost use Rattle.std.specs.Prelude.{◌≡◌, ℕ, pos, length, slice_index_or, IfOk};
ghost use Rattle.std.specs.List.{All};
ghost use Rattle.amr_register.specs.Beside.{IsDomainCell};
ghost use Rattle.amr_register.specs.Entries.{AreRising};

use crate::bands::{Band, whole, whole_in_threads};
use crate::cover::Cover;
use crate::edge_lists::{edge_lists, take_nets};
use crate::edges::EdgeCell;
use crate::flows::{Edge, take_away};
use crate::pair::LevelPair;
use crate::reflux::add_in_patch;
use crate::sides::CoveredSides;
use amr_box::Cell;
use amr_causes::NoMemory;
use amr_def::Problem;
use amr_patch::{Level, Patch};
use std::alloc::Global;
use std::mem::replace;
use std::thread::Threads;

/// So many entries of 0.
fn no_entries(alloc: Global, count: usize) -> Result<Vec<i64>, NoMemory>
    ensures length { IfOk result (λ v. length v.items ≡ count) }
    ensures zero { IfOk result (λ v. (k : ℕ) → slice_index_or v.items k (pos 0) ≡ pos 0) }
{
    let entries = vec![in alloc; 0i64; count]?;
    Ok(entries)
}

/// A flux register of a level beside the next finer one: an entry for each register cell. That is a cell of the level that is
/// not covered, beside a covered one, past the end of a periodic axis too. The cells stand by row, within a row by
/// column. An entry is what the step of the level leaves out at its cell's coarse-fine edges, in units of mass, above 0
/// towards the cell (Berger and Colella 1989). For each patch of the level there is a list of the cells that it has, each with
/// its number.
#[derive(Drop)]
pub struct Register {
    cells: Vec<Cell>,
    sides: Vec<CoveredSides>,
    entries: Vec<i64>,
    edges: Vec<Vec<EdgeCell>>,
    ghost rising: { AreRising cells.items },
    ghost near: { All IsDomainCell cells.items },
    ghost side_count: { length sides.items ≡ length cells.items },
    ghost entry_count: { length entries.items ≡ length cells.items },
}

#[tactic(auto, unfolding(crate::specs::Fields::cells_in, crate::specs::Fields::sides_in, crate::specs::Fields::edges_in, crate::specs::Fields::entry_in))]
impl Register {
    ghost use Rattle.std.specs.Prelude.{ℕ, [], map, ℤ, suc, ◌<◌, ◌≤◌, ◌≢◌, ◌^◌, pos, negsuc, ◌+ℤ◌, ◌-ℤ◌, ◌≤ℤ◌};
    ghost use Rattle.std.specs.Prelude.{◌<ℤ◌, IfOk, IsSome, IsTrue, slice_index_or, unsigned_abs};
    ghost use Rattle.std.specs.List.{Contains};
    ghost use Rattle.amr_box.specs.declared.Cell.{Cell};
    ghost use Rattle.amr_box.specs.Cells.{at_least_zero, holds};
    ghost use Rattle.amr_def.specs.declared.problem.Problem.{Problem};
    ghost use Rattle.amr_def.specs.Domain.{domain};
    ghost use Rattle.amr_def.specs.Facts.{IsLevel, IsNestedLevel};
    ghost use Rattle.amr_def.specs.Flux.{net};
    ghost use Rattle.amr_def.specs.State.{Masses, mass_of};
    ghost use Rattle.amr_patch.specs.Levels.{level_of, patches_of};
    ghost use Rattle.amr_patch.specs.Pairwise.{Pairwise};
    ghost use Rattle.amr_patch.specs.Patches.{ArePatchesApart, KeepsFrameAndFluxes, box, in_patches, mass_in, masses_in};
    ghost use Rattle.amr_faces.specs.Faces.{IsInDomain};
    ghost use Rattle.amr_register.specs.Bands.{IsWhole};
    ghost use Rattle.amr_register.specs.CoarseFlows.{coarse_flows};
    ghost use Rattle.amr_register.specs.Entries.{with_entries};
    ghost use Rattle.amr_register.specs.EdgeCells.{IsSmallNet, lists_of};
    ghost use Rattle.amr_register.specs.Fields.{HasEdgesOf, IsBoxAt, IsPlaced, IsRegisterOf, IsWithEdges, SameCells, cells_in, edges_in, entry_in};

    /// The register of level `l`, 0 to 3, below the finer level `l + 1`. Each entry is 0. The two levels are nested. The finer
    /// level's boxes tell which cells are covered, a stretch of a row at a look. Which patch of the coarse level has a
    /// register cell is looked up here, once: each patch has its list of them.
    pub fn make(
        alloc: Global,
        p: &Problem,
        l: u32,
        coarse: &Level,
        fine: &Level,
    ) -> Result<Register, NoMemory>
        requires level { l ≤ 3 }
        requires coarse { IsLevel p.now l (level_of coarse.now) }
        requires fine { IsLevel p.now (suc l) (level_of fine.now) }
        requires nested { IsNestedLevel p.now l (level_of coarse.now) (level_of fine.now) }
        ensures cells { IfOk result (IsRegisterOf p.now l (level_of coarse.now).masses (level_of fine.now).masses) }
        ensures edges { IfOk result (HasEdgesOf (map box (patches_of coarse.now))) }
        ensures zero { IfOk result (λ r. (c : Cell) → entry_in r c ≡ pos 0) }
    {
        let cover = Cover::make(alloc, fine)?;
        let pair = LevelPair {
            p,
            l,
            coarse,
            fine,
            cover: &cover,
        };
        let band = whole(alloc, &pair)?;
        Register::over(alloc, coarse, band)
    }

    /// The same as `make`, by as many threads at once as `threads` says: 0 or 1 makes none, nor does a small level. The rows
    /// are shared out among them.
    pub fn make_in_threads<R: Threads + Sync>(
        rt: &R,
        threads: usize,
        alloc: Global,
        p: &Problem,
        l: u32,
        coarse: &Level,
        fine: &Level,
    ) -> Result<Register, NoMemory>
        requires level { l ≤ 3 }
        requires coarse { IsLevel p.now l (level_of coarse.now) }
        requires fine { IsLevel p.now (suc l) (level_of fine.now) }
        requires nested { IsNestedLevel p.now l (level_of coarse.now) (level_of fine.now) }
        ensures cells { IfOk result (IsRegisterOf p.now l (level_of coarse.now).masses (level_of fine.now).masses) }
        ensures edges { IfOk result (HasEdgesOf (map box (patches_of coarse.now))) }
        ensures zero { IfOk result (λ r. (c : Cell) → entry_in r c ≡ pos 0) }
    {
        let cover = Cover::make(alloc, fine)?;
        let pair = LevelPair {
            p,
            l,
            coarse,
            fine,
            cover: &cover,
        };
        let band = whole_in_threads(rt, threads, alloc, &pair)?;
        Register::over(alloc, coarse, band)
    }

    /// The register that has the cells of a band, which are cells of a level. Each entry is 0.
    fn over(alloc: Global, coarse: &Level, band: Band) -> Result<Register, NoMemory>
        requires there { All (λ c. IsTrue (in_patches (patches_of coarse.now) c)) band.cells.items }
        requires few { length band.cells.items < 2 ^ 32 }
        requires rising { AreRising band.cells.items }
        requires near { All IsDomainCell band.cells.items }
        requires side_count { length band.sides.items ≡ length band.cells.items }
        ensures cells { (p : Problem) (l : ℕ) (m fine : Masses) → IsWhole p l m fine band → IfOk result (IsRegisterOf p l m fine) }
        ensures edges { IfOk result (HasEdgesOf (map box (patches_of coarse.now))) }
        ensures zero { IfOk result (λ r. (c : Cell) → entry_in r c ≡ pos 0) }
    {
        let Band { cells, sides } = band;
        let entries = no_entries(alloc, cells.len())?;
        let edges = edge_lists(alloc, coarse.patches(), coarse.order(), &cells, &sides)?;
        Ok(Register {
            cells,
            sides,
            entries,
            edges,
        })
    }

    /// The register cells, by row, within a row by column. The place of a cell here is its number.
    pub fn cells(&self) -> &[Cell]
        ensures { result.now ≡ cells_in self.now }
    {
        self.cells.as_slice()
    }

    /// The entry of register cell `k`.
    pub fn entry(&self, k: u32) -> i64
        requires { k < length (cells_in self.now) }
        ensures { (c : Cell) → result ≡ entry_in self.now (slice_index_or (cells_in self.now) k c) }
    {
        self.entries[k as usize]
    }

    /// Takes the lists of edge cells out, one for each patch of the level. The register has none until they are put back.
    pub fn take_edges(&mut self) -> Vec<Vec<EdgeCell>>
        ensures lists { lists_of result.items ≡ edges_in self.old }
        ensures rest { IsWithEdges [] self.old self.new }
    {
        let none = Vec::new(*self.edges.allocator());
        replace(&mut self.edges, none)
    }

    /// Puts the lists of edge cells back.
    pub fn put_edges(&mut self, edges: Vec<Vec<EdgeCell>>)
        ensures { IsWithEdges (lists_of edges.items) self.old self.new }
    {
        self.edges = edges;
    }

    /// Takes what flows into each register cell through its coarse-fine edges, as its list has it, away from its entry, list by
    /// list. Entries lie between -2^62 and 2^62.
    pub fn take_nets(&mut self)
        requires placed { IsPlaced self.old }
        requires small { All (All IsSmallNet) (edges_in self.old) }
        requires room { (c : Cell) → unsigned_abs (entry_in self.old c) < 2 ^ 62 }
        ensures taken { (flow : Cell → ℤ) → All (All (λ e. e.net ≡ flow e.cell)) (edges_in self.old) → (c : Cell) → Contains (cells_in self.old) c
            → entry_in self.new c ≡ entry_in self.old c -ℤ flow c }
        ensures cells { SameCells self.old self.new }
    {
        take_nets(&self.edges, &mut self.entries);
    }

    /// Takes away the plain flows through those coarse-fine edges of the level that one patch owns, by its values before the step. An
    /// edge belongs to the patch that has the cell at its high side. Over all patches each edge's flow is taken away once, as by
    /// `find_nets_of_all` and `take_nets`. Entries lie between -2^62 and 2^62.
    pub fn coarse_part(&mut self, p: &Problem, l: u32, patch: &Patch)
        requires level { l ≤ 3 }
        requires inside { IsInDomain (domain p.now l) (box patch.now) }
        requires room { (c : Cell) → unsigned_abs (entry_in self.old c) < 2 ^ 62 }
        ensures taken { (m fine : Masses) → IsRegisterOf p.now l m fine self.old → (c : Cell) → Contains (cells_in self.old) c
            → entry_in self.new c ≡ entry_in self.old c -ℤ net (coarse_flows p.now l fine patch.now) c }
        ensures cells { SameCells self.old self.new }
    {
        let edge = Edge {
            cells: &self.cells,
            sides: &self.sides,
        };
        take_away(p, l, patch, edge, &mut self.entries);
    }

    /// Adds `gain - loss`, what flowed through finer faces into register cell `k` and out of it, to the entry of that cell.
    pub fn absorb(&mut self, k: u32, gain: u64, loss: u64)
        requires there { k < length (cells_in self.old) }
        requires gain { gain < 2 ^ 63 }
        requires loss { loss < 2 ^ 63 }
        requires low { (c : Cell) → negsuc (2 ^ 62) <ℤ (entry_in self.old (slice_index_or (cells_in self.old) k c) +ℤ pos gain -ℤ pos loss) }
        requires high { (c : Cell) → (entry_in self.old (slice_index_or (cells_in self.old) k c) +ℤ pos gain -ℤ pos loss) <ℤ pos (2 ^ 62) }
        ensures added { (c : Cell) → c ≡ slice_index_or (cells_in self.old) k c → entry_in self.new c ≡ entry_in self.old c +ℤ pos gain -ℤ pos loss }
        ensures others { (c : Cell) → c ≢ slice_index_or (cells_in self.old) k c → entry_in self.new c ≡ entry_in self.old c }
        ensures cells { SameCells self.old self.new }
    {
        self.entries[k as usize] += gain as i64 - loss as i64;
    }

    /// Puts each entry back to 0. The cells stay, so that a register serves each step of its level until the next regrid.
    pub fn clear(&mut self)
        ensures zero { (c : Cell) → entry_in self.new c ≡ pos 0 }
        ensures cells { SameCells self.old self.new }
    {
        self.entries.fill(0);
    }

    /// Adds its entry to the mass of each register cell of patch `k` of the level, and all else of the patch stays. The register was made over
    /// the level's patch boxes, of which the patch has number `k`. No sum is below 0, or 2^32 or more.
    pub fn reflux_patch(&self, k: usize, patch: &mut Patch)
        requires placed { IsPlaced self.now }
        requires place { IsBoxAt k (box patch.old) self.now }
        requires kept { (c : Cell) → Contains (cells_in self.now) c → IsTrue (holds (box patch.old) c)
            → pos 0 ≤ℤ (pos (mass_in patch.old c) +ℤ entry_in self.now c) }
        requires fits { (c : Cell) → Contains (cells_in self.now) c → IsTrue (holds (box patch.old) c)
            → (pos (mass_in patch.old c) +ℤ entry_in self.now c) <ℤ pos (2 ^ 32) }
        ensures kept { KeepsFrameAndFluxes patch.old patch.new }
        ensures masses { (c : Cell) → IsTrue (holds (box patch.old) c)
            → mass_in patch.new c ≡ at_least_zero (pos (mass_in patch.old c) +ℤ entry_in self.now c) }
    {
        add_in_patch(&self.edges[k], &self.entries, patch);
    }

    /// Adds each entry to the mass of its cell, patch by patch. The level has patches over the boxes that the register was made
    /// over, and no sum is below 0, or 2^32 or more.
    pub fn reflux(&self, level: &mut Level)
        requires placed { IsPlaced self.now }
        requires edges { HasEdgesOf (map box (patches_of level.old)) self.now }
        requires of_level { (c : Cell) → Contains (cells_in self.now) c → IsSome ((level_of level.old).masses c) }
        requires kept { (c : Cell) → Contains (cells_in self.now) c → pos 0 ≤ℤ (pos (mass_of (level_of level.old).masses c) +ℤ entry_in self.now c) }
        requires fits { (c : Cell) → Contains (cells_in self.now) c → (pos (mass_of (level_of level.old).masses c) +ℤ entry_in self.now c) <ℤ pos (2 ^ 32) }
        ensures masses { (level_of level.new).masses ≡ with_entries (entry_in self.now) (level_of level.old).masses }
        ensures boxes { (level_of level.new).boxes ≡ (level_of level.old).boxes }
        ensures patches { Pairwise KeepsFrameAndFluxes (patches_of level.old) (patches_of level.new) }
    {
        let order = level.order();
        let mut patches = level.take_patches();
        self.reflux_all(&mut patches);
        level.put_patches_in_order(patches, order);
    }

    /// The same for the patches of a level.
    fn reflux_all(&self, patches: &mut [Patch])
        requires placed { IsPlaced self.now }
        requires edges { HasEdgesOf (map box patches.old) self.now }
        requires apart { ArePatchesApart patches.old }
        requires kept { (c : Cell) → Contains (cells_in self.now) c → pos 0 ≤ℤ (pos (mass_of (masses_in patches.old) c) +ℤ entry_in self.now c) }
        requires fits { (c : Cell) → Contains (cells_in self.now) c → (pos (mass_of (masses_in patches.old) c) +ℤ entry_in self.now c) <ℤ pos (2 ^ 32) }
        ensures masses { masses_in patches.new ≡ with_entries (entry_in self.now) (masses_in patches.old) }
        ensures kept { Pairwise KeepsFrameAndFluxes patches.old patches.new }
    {
        for k in 0..patches.len() {
            self.reflux_patch(k, &mut patches[k]);
        }
    }
}
