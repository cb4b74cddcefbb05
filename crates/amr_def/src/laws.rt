//! Laws of the definitions. Each call has an empty body, and what it ensures is the law: it holds for
//! every problem, so for every one that is accepted.

ghost use Rattle.amr_def.specs.Laws.{FinishInParts, MassChangesByFlows, MassesAreSmall, NewMassIsExact, StepKeepsSound};

/// One step of a sound state with any number of levels gives a sound state.
pub fn step_keeps_sound()
    ensures { StepKeepsSound }
{}

/// No mass of level 0 falls below 0 in a step: as whole numbers the new mass is the old one and the
/// net inflow.
pub fn new_mass_is_exact()
    ensures { NewMassIsExact }
{}

/// A step changes the mass of level 0 by what flows through open sides.
pub fn mass_changes_by_flows()
    ensures { MassChangesByFlows }
{}

/// Each mass of a sound state is below 2^31.
pub fn masses_are_small()
    ensures { MassesAreSmall }
{}

/// To finish a state to a step and then to a later one is to finish it to the later one.
pub fn finish_in_parts()
    ensures { FinishInParts }
{}
