//! Laws of runs. Each call has an empty body, and what it ensures is the law.

ghost use Rattle.amr_drive.specs.Regrids.{RunsHoldTags, StartsHoldTags};

/// Each regrid of the start of a run covers each cell that is tagged, but those of the greatest level.
pub fn start_holds_tags()
    ensures { StartsHoldTags }
{}

/// So does each regrid that is due in a run from a sound state.
pub fn run_holds_tags()
    ensures { RunsHoldTags }
{}
