//! What a step of a level gives to flux registers (Berger and Colella 1989). That of the next coarser level gains the totals of the
//! step's words. That over the next finer level loses the level's own flows through its coarse-fine edges: its lists of register cells
//! are taken out of it for the step, which works these flows out, and are put back afterwards.

ghost use Rattle.std.specs.Prelude.{◌≡◌, ℕ, ◌+◌, ◌*◌, ◌<◌, ◌≤◌, ◌^◌, [], pos, ◌+ℤ◌, ◌-ℤ◌, length, map, slice_index, slice_index_or, unsigned_abs, IfSome};
ghost use Rattle.std.specs.List.{All};
ghost use Rattle.std.specs.Option.{option_copied};
ghost use Rattle.amr_box.specs.declared.Cell.{Cell};
ghost use Rattle.amr_def.specs.declared.problem.Problem.{Problem};
ghost use Rattle.amr_def.specs.State.{Masses};
ghost use Rattle.amr_ghost.specs.Frames.{old_masses};
ghost use Rattle.amr_patch.specs.Patches.{box, masses_in};
ghost use Rattle.amr_register.specs.EdgeCells.{IsSmallNet, SameEdges, lists_of};
ghost use Rattle.amr_register.specs.Fields.{IsRegisterOf, SameCells, cells_in, entry_in};
ghost use Rattle.amr_advance.specs.Registers.{AreEdgesFor, AreNetsOf, BothAreWithEdges, BothHaveTakenNets, MayTakeNets, edges_of};

use amr_register::{EdgeCell, Register};
use std::alloc::Global;

/// What a step of a level adds to. The flux register of the next coarser level gains what flows through this level's
/// faces beside its cells. The one over the next finer level loses the level's own flows there. And two sums get what
/// flowed into the domain and out of it beside cells that no finer level covers. (Berger and Colella 1989)
#[derive(Drop)]
pub struct Regs {
    /// Of the next coarser level, where there is one.
    pub coarser: Option<Register>,
    /// Of this level, where there is a finer one.
    pub finer: Option<Register>,
    pub inflow: u64,
    pub outflow: u64,
}

/// Takes the lists of register cells out of a flux register. There are none where there is no register.
pub(crate) fn take_edges(alloc: Global, register: &mut Option<Register>) -> Vec<Vec<EdgeCell>>
    ensures lists { lists_of result.items ≡ edges_of register.old }
    ensures rest { BothAreWithEdges [] register.old register.new }
{
    match register {
        Some(register) => register.take_edges(),
        None => Vec::new(alloc),
    }
}

/// Puts lists of register cells back into the flux register that they were taken out of, where there is one.
pub(crate) fn put_edges(register: &mut Option<Register>, edges: Vec<Vec<EdgeCell>>)
    ensures { BothAreWithEdges (lists_of edges.items) register.old register.new }
{
    match register {
        Some(register) => register.put_edges(edges),
        None => (),
    }
}

/// Takes what the lists of a flux register tell away from its entries, where there is a register.
pub(crate) fn take_nets(register: &mut Option<Register>)
    requires { IfSome register.old MayTakeNets }
    ensures { BothHaveTakenNets register.old register.new }
{
    match register {
        Some(register) => register.take_nets(),
        None => (),
    }
}

/// Adds what flowed into each register cell of the next coarser level, less what flowed out of it, by the totals of the
/// words. Words `2 + 2 * k` and `3 + 2 * k` are those of cell `k`. Entries are below 2^61 in size, and so is what is
/// added.
pub(crate) fn absorb_totals(totals: &[u64], register: &mut Register)
    requires count { length totals.now ≡ 2 + 2 * length (cells_in register.old) }
    requires few { length totals.now < 2 ^ 32 }
    requires small { (word : ℕ) → word < length totals.now → slice_index totals.now word < 2 ^ 63 }
    requires made { (p : Problem) × ((l : ℕ) × ((m : Masses) × ((fine : Masses) × IsRegisterOf p l m fine register.old))) }
    requires room { (c : Cell) → unsigned_abs (entry_in register.old c) < 2 ^ 61 }
    requires net { (k : ℕ) → k < length (cells_in register.old)
        → unsigned_abs (pos (slice_index totals.now (2 + 2 * k)) -ℤ pos (slice_index totals.now (3 + 2 * k))) < 2 ^ 61 }
    ensures gained { (k : ℕ) (c : Cell) → k < length (cells_in register.old) → c ≡ slice_index_or (cells_in register.old) k c
        → entry_in register.new c ≡ entry_in register.old c +ℤ (pos (slice_index totals.now (2 + 2 * k)) -ℤ pos (slice_index totals.now (3 + 2 * k))) }
    ensures cells { SameCells register.old register.new }
{
    for k in 0..register.cells().len() as u32 {
        let at = k as usize;
        register.absorb(k, totals[2 + 2 * at], totals[3 + 2 * at]);
    }
}
