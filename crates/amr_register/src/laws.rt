//! Laws of registers. Each call has an empty body, and what it ensures is the law.

ghost use Rattle.amr_register.specs.Laws.{EdgesAreTakenOnce, RegistersGoByCells};

/// The patches of a level together take the plain flow through each of its coarse-fine edges away once, whoever owns
/// it. What they take from the entry of a register cell is its net plain flow through its edges.
pub fn edges_are_taken_once()
    ensures { EdgesAreTakenOnce }
{}

/// A register depends on which cells its two levels have, and not on their masses. So it serves until the next regrid.
pub fn registers_go_by_cells()
    ensures { RegistersGoByCells }
{}
