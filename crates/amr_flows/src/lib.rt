//! Laws of what a layout's words hold. Over the patches of a level they add up to what flows through its open sides,
//! and into and out of each register cell of the next coarser level. And laws of what registers and sums over children
//! make of them: the step of a level over finer ones. Each call has an empty body, and what it ensures is the law.
//!
//! Below them, in `edges`, laws that join what several crates know of a level's edges, so that a step can stand on all of them.
#![tactic(auto)]

ghost use Rattle.amr_flows.specs.Layouts.{LayoutsAreExact};
ghost use Rattle.amr_flows.specs.Laws.{InflowIsOfLevel, OutflowIsOfLevel, RegisterWordsAreOfChildren};
ghost use Rattle.amr_flows.specs.Subcycle.{FlowsAreOfFinerSteps, FlowsAreOfLevelAlone, FlowsFit, PartsTakenFit};
ghost use Rattle.amr_flows.specs.Subcycle.{PlainFluxesGiveTheStep, RefluxFits, RegistersGiveTheStep, StepKeepsCover};

mod edges;

pub use edges::{
    borders_are_put, patches_are_coarsenable, posts_are_on_edges, registers_serve_layouts,
};

/// The layout of a level, by counts, where its patches stand in groups of any size. A border face lies beside a cell of the level that no
/// patch of the group has. Each is put once, by the patch that owns it, the one with the cell at its high side.
/// Each face on the edges of a patch adds its flow once to the word that the flow goes to, and to no other: to the ledger's words where
/// the side is open and the cell beside it is not covered, to a register cell's gain or loss where the face lies on the coarse-fine
/// edge. `amr_layout::plan` makes that layout.
pub fn layouts_are_exact()
    ensures { LayoutsAreExact }
{}

/// What the patches of a level add to word 0 of its layout is what flows into the domain beside its uncovered cells.
pub fn inflow_is_of_level()
    ensures { InflowIsOfLevel }
{}

/// What they add to word 1 is what flows out of the domain there.
pub fn outflow_is_of_level()
    ensures { OutflowIsOfLevel }
{}

/// The gain of a register cell less its loss is what comes into the cell through the child faces of its coarse-fine edges.
/// (Berger and Colella 1989)
pub fn register_words_are_of_children()
    ensures { RegisterWordsAreOfChildren }
{}

/// Plain fluxes, then a register's entries, then sums over children give the step of a level over finer ones. The register
/// gathers the flows through child faces of both finer steps, less the plain flows through coarse-fine edges. Of a level alone
/// the step has plain fluxes. (Berger and Colella 1989)
pub fn registers_give_the_step()
    ensures finer { RegistersGiveTheStep }
    ensures alone { PlainFluxesGiveTheStep }
{}

/// A step of levels leaves what the coarsest of them covers: so one register serves both finer steps.
pub fn step_keeps_cover()
    ensures { StepKeepsCover }
{}

/// In each step of levels within the step from a sound state a register cell's mass and entry add up to at least 0 and
/// below 2^31. The parts of the entry are below 2^34.
pub fn reflux_fits()
    ensures { RefluxFits }
{}

/// What any patches of a level take from an entry, those with the level's values and no cell in common, is below 2^33. So while
/// one patch after the other takes its part, no entry leaves the range of the calls.
pub fn parts_taken_fit()
    ensures { PartsTakenFit }
{}

/// What flows through open sides in a step of levels is what flows there at the coarsest level, beside cells that are not
/// covered, and in both finer steps. Of one level alone it is the level's.
pub fn flows_are_of_finer_steps()
    ensures finer { FlowsAreOfFinerSteps }
    ensures alone { FlowsAreOfLevelAlone }
{}

/// In each step of levels within the step from a sound state, what flows in through open sides is at most 2^41, and so is what
/// flows out.
pub fn flows_fit()
    ensures { FlowsFit }
{}
