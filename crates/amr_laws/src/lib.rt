//! Laws of the definitions of `amr_def`, for every problem and any number of levels. Each call has an
//! empty body, and what it ensures is the law.
#![tactic(auto)]

ghost use Rattle.amr_laws.specs.Laws.{BoxesLieInLevel, FinishIsSound, FourFluxesAreWithinShare, InflowByLevels, LevelStepByRegisters};
ghost use Rattle.amr_laws.specs.Laws.{LevelStepGivesMasses, LevelStepIsExact, LevelStepIsTwoFiner, LevelStepKeepsBoxes, LevelStepKeepsLevels};
ghost use Rattle.amr_laws.specs.Laws.{NextIsSound, OutflowByLevels, PlotIgnoresGridSize, ProductsAreSmall, RefluxIsEffectiveStep};
ghost use Rattle.amr_laws.specs.Laws.{RegistersLieBesideCovered, RegridHoldsTags, RegridKeepsMasses, RegridKeepsSound, RunIgnoresGridSize};
ghost use Rattle.amr_laws.specs.Laws.{RunIsSound, SharesAddUp, StartIsSound, SubstepsAreOfLevels, SubstepsFit, ValuesAreSmall};
ghost use Rattle.amr_laws.specs.Species.{RegridByGivesSameBoxes, RegridByKeepsMasses, RegridByKeepsSound, RunAllIgnoresGridSize};

pub mod species;

/// The start of a run is sound: nested, synced, bounded and telescoped, with boxes that have cells and rows of 64 bits.
pub fn start_is_sound()
    ensures { StartIsSound }
{}

/// A regrid of a sound state gives a sound state. Its new boxes are disjoint, in the domain, aligned to the blocking
/// factor and nested. Covered cells stay the sums of their children, and masses stay within their bound. So it is by
/// its own tags and by any others; and states on the same boxes get the same new ones.
pub fn regrid_keeps_sound()
    ensures by_its_tags { RegridKeepsSound }
    ensures by_any_tags { RegridByKeepsSound }
    ensures same_boxes { RegridByGivesSameBoxes }
{}

/// After a regrid each cell that was tagged is covered, but those of the greatest level.
pub fn regrid_holds_tags()
    ensures { RegridHoldsTags }
{}

/// A cell that is of a level before and after a regrid keeps its mass, whatever the tags are.
pub fn regrid_keeps_masses()
    ensures by_its_tags { RegridKeepsMasses }
    ensures by_any_tags { RegridByKeepsMasses }
{}

/// The shares of the four children of a cell add up to its mass.
pub fn shares_add_up()
    ensures { SharesAddUp }
{}

/// From a sound state below the last step the regrid that is due and one step give a sound state.
pub fn next_is_sound()
    ensures { NextIsSound }
{}

/// A sound state is finished to a sound state.
pub fn finish_is_sound()
    ensures { FinishIsSound }
{}

/// Each state of a run is sound.
pub fn run_is_sound()
    ensures { RunIsSound }
{}

/// The boxes of a level lie in its domain, and their coordinates are as small as the calls on boxes ask.
pub fn boxes_lie_in_level()
    ensures { BoxesLieInLevel }
{}

/// In a sound state the value of each cell, ghost cells too, is below 2^31.
pub fn values_are_small()
    ensures { ValuesAreSmall }
{}

/// In a sound state each product of a Courant number and a value is below 2^42.
pub fn products_are_small()
    ensures { ProductsAreSmall }
{}

/// Problems that differ in the greatest size of a patch alone have the same runs, also of several species.
pub fn run_ignores_grid_size()
    ensures one { RunIgnoresGridSize }
    ensures all { RunAllIgnoresGridSize }
{}

/// And the same plots.
pub fn plot_ignores_grid_size()
    ensures { PlotIgnoresGridSize }
{}

/// In a step of a level and of those finer than it no mass falls below 0. As whole numbers the new mass is the old one
/// and the net inflow.
pub fn level_step_is_exact()
    ensures { LevelStepIsExact }
{}

/// Take four fluxes out of ghost cells of a quarter of a coarse mass, through the child faces of one face and over both
/// finer steps. They are at most the coarse cell's share at that face.
pub fn four_fluxes_are_within_share()
    ensures { FourFluxesAreWithinShare }
{}

/// A step with plain fluxes and then a correction by flux registers is the step with effective fluxes.
pub fn reflux_is_effective_step()
    ensures { RefluxIsEffectiveStep }
{}

/// A flux register has nothing to correct at a face with no covered cell beside it.
pub fn registers_lie_beside_covered()
    ensures { RegistersLieBesideCovered }
{}

/// The level step of a level over finer ones, at each of its cells. At a cell that is not covered it is what a step
/// with plain fluxes and the registers of its faces make. At a covered one it is the sum of its children.
pub fn level_step_by_registers()
    ensures { LevelStepByRegisters }
{}

/// A step of levels keeps what the laws on it ask: each in its domain, nested and in sync with the next finer one. All
/// levels stay, with their boxes, and have the masses of the step. So what `level_step_is_exact` and `level_step_by_registers` say of a first finer step
/// they say of the second too.
pub fn level_step_keeps_levels()
    ensures levels { LevelStepKeepsLevels }
    ensures boxes { LevelStepKeepsBoxes }
    ensures masses { LevelStepGivesMasses }
{}

/// A step of a level over finer ones is made of two steps of those, the second of what the first left, both with the
/// level's masses of before.
pub fn level_step_is_two_finer()
    ensures { LevelStepIsTwoFiner }
{}

/// Each step of levels within the step from a sound state is one of levels in their domains, nested and in sync.
pub fn substeps_are_of_levels()
    ensures { SubstepsAreOfLevels }
{}

/// In each step of levels within the step from a sound state masses, values and fluxes are below 2^31, products below
/// 2^42 and sums below 2^52. Four fluxes take no more than a cell has.
pub fn substeps_fit()
    ensures { SubstepsFit }
{}

/// What flows through open sides in the step from a sound state is what flows there beside cells that no finer level
/// covers. It is summed over all levels and the steps that each makes. So the ledger's row is a sum of plain fluxes.
pub fn ledger_by_levels()
    ensures inflow { InflowByLevels }
    ensures outflow { OutflowByLevels }
{}
