//! Laws of several species on the same boxes.

ghost use Rattle.amr_laws.specs.Species.{FinishAllInParts, FinishAllIsFlock, FinishOfOne, NextAllIsFlock, OneSpeciesIsWhole};
ghost use Rattle.amr_laws.specs.Species.{RegridAllHoldsTags, RegridAllKeepsAlike, RegridOfOne, RunAllIsFlock, RunOfOne, SoundIsOfSpecies};
ghost use Rattle.amr_laws.specs.Species.{SpeciesGoByThemselves, SpeciesStepKeepsBoxes, SpeciesStepKeepsSound, StartAllIsFlock, StartOfOne};

/// A state is sound for a problem where it is for one of its species: blocks and inflows don't matter.
pub fn sound_is_of_species()
    ensures { SoundIsOfSpecies }
{}

/// A step of a species of a sound state gives a sound state on the same boxes.
pub fn species_step_keeps_sound()
    ensures sound { SpeciesStepKeepsSound }
    ensures boxes { SpeciesStepKeepsBoxes }
{}

/// A regrid of all species gives sound states on the same boxes again. Each cell that was tagged for one of them is
/// covered for all.
pub fn regrid_all_keeps_alike()
    ensures alike { RegridAllKeepsAlike }
    ensures tags { RegridAllHoldsTags }
{}

/// The states of all species in a run are one of each, sound, at one step and on the same boxes. So each species has what
/// holds of one run, with its own ledger.
pub fn run_all_is_flock()
    ensures start { StartAllIsFlock }
    ensures next { NextAllIsFlock }
    ensures finish { FinishAllIsFlock }
    ensures run { RunAllIsFlock }
{}

/// To finish states to a step and then to a later one is to finish them to the later one. Up to the next regrid that is due
/// each species goes by itself.
pub fn finish_all_in_parts()
    ensures parts { FinishAllInParts }
    ensures species { SpeciesGoByThemselves }
{}

/// What is said of all species is, of one species, what is said of one state.
pub fn one_species_is_whole()
    ensures problem { OneSpeciesIsWhole }
    ensures regrid { RegridOfOne }
    ensures start { StartOfOne }
    ensures finish { FinishOfOne }
    ensures run { RunOfOne }
{}
