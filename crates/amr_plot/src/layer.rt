//! The levels of all species at one number: they have the same boxes.

ghost use Rattle.std.specs.Prelude.{◌≡◌, ◌<◌, length, slice_index_or};
ghost use Rattle.amr_def.specs.Facts.{IsLevel};
ghost use Rattle.amr_def.specs.Plot.{names_species};
ghost use Rattle.amr_def.specs.State.{no_level};
ghost use Rattle.amr_patch.specs.Levels.{level_of};
ghost use Rattle.amr_plot.specs.Layers.{IsLayer, layer_boxes, levels_in};

use amr_box::Bx;
use amr_def::Problem;
use amr_patch::{Level, Mesh};

/// Level `l` of each of some meshes, one for each species.
#[derive(Clone, Copy)]
pub(crate) struct Layer<'a> {
    pub problem: &'a Problem,
    pub meshes: &'a [Mesh],
    pub l: u32,
}

impl<'a> Layer<'a> {
    /// The level of a species.
    pub(crate) fn level(self, species: usize) -> &'a Level
        requires layer { IsLayer self }
        requires there { species < length self.meshes.now }
        ensures level { level_of result.now ≡ slice_index_or (levels_in self.entry) species no_level }
        ensures sound { IsLevel self.entry.problem.now self.entry.l (level_of result.now) }
        ensures boxes { (level_of result.now).boxes ≡ layer_boxes self.entry }
    {
        &self.meshes[species].levels()[self.l as usize]
    }

    /// The boxes that the levels have, in order.
    pub(crate) fn boxes(self) -> &'a [Bx]
        requires { IsLayer self }
        ensures { result.now ≡ layer_boxes self.entry }
    {
        self.level(0).boxes()
    }

    /// Whether a plot names species.
    pub(crate) fn names_species(self) -> bool
        ensures { result ≡ names_species self.entry.problem.now }
    {
        self.problem.version >= 3
    }
}
