//! The table of keys.

ghost use Rattle.std.specs.Prelude.{◌≡◌, option_map, option_and_then, is_none};
ghost use Rattle.toml.specs.Data.{as_integer};
ghost use Rattle.amr_problem.specs.Keys.{text_of, absent_of, version_of, stands, is_known};
ghost use Rattle.amr_problem.specs.Values.{integers_of};

use std::alloc::Global;

/// What stands where a key is absent.
#[derive(Clone, Copy, PartialEq, Eq)]
pub enum Absent {
    /// Nothing: the key is required.
    Required,
    /// This integer.
    Number(i64),
    /// The empty array.
    Empty,
}

/// A key of a problem.
#[derive(Clone, Copy, Debug, PartialEq, Eq)]
pub enum Key {
    /// The version of the format.
    Version,
    /// The name, which the plot repeats.
    Name,
    /// How many columns and rows level 0 has.
    Cells,
    /// The last step.
    Steps,
    /// The Courant numbers of both axes, and their denominator.
    Courant,
    /// The low and the high side of the x axis, then those of the y axis. A side is -1 where the axis is periodic, else
    /// what a cell of level 0 would hold beyond it.
    Sides,
    /// The finest level that there may be.
    MaxLevel,
    /// For each level below `max_level` the difference of values that tags a cell.
    Tag,
    /// By how many cells tags are grown; 1 where it is absent.
    NErrorBuf,
    /// Of 100 cells of a new box, how many are to be tagged; 70 where it is absent.
    Efficiency,
    /// The least width of a part of a box that is cut; 2 where it is absent.
    MinWidth,
    /// How many steps lie between two regrids; 2 where it is absent.
    RegridInt,
    /// The greatest side of a patch that a box is chopped into; 32 where it is absent.
    MaxGridSize,
    /// The rectangles that start with mass: low column, low row, high column, high row, and the mass of each cell; in version 3
    /// then the species.
    Blocks,
    /// From version 2 on: for each row of level 0 what stands in the place of the x axis's numerator.
    ShearX,
    /// From version 2 on: for each column of level 0 what stands in the place of the y axis's numerator.
    ShearY,
    /// From version 2 on: the multiple that corners of boxes above level 0 lie on; 2 where it is absent.
    Blocking,
    /// From version 3 on: how many species there are; 1 where it is absent.
    Species,
}

/// Every key, in the table's order.
pub static KEYS: [Key; 18] = [
    Key::Version,
    Key::Name,
    Key::Cells,
    Key::Steps,
    Key::Courant,
    Key::Sides,
    Key::MaxLevel,
    Key::Tag,
    Key::NErrorBuf,
    Key::Efficiency,
    Key::MinWidth,
    Key::RegridInt,
    Key::MaxGridSize,
    Key::Blocks,
    Key::ShearX,
    Key::ShearY,
    Key::Blocking,
    Key::Species,
];

impl Absent {
    pub fn is_required(self) -> bool
        ensures { result ≡ is_none (stands self) }
    {
        matches!(self, Absent::Required)
    }

    /// The integer that stands there, if one does.
    pub fn number(self) -> Option<i64>
        ensures { result ≡ option_and_then as_integer (stands self) }
    {
        match self {
            Absent::Number(number) => Some(number),
            Absent::Required | Absent::Empty => None,
        }
    }

    /// The integers of the array that stands there, if one does.
    pub fn integers(self, alloc: Global) -> Option<Vec<i64>>
        ensures { option_map (λ v. v.items) result ≡ option_and_then integers_of (stands self) }
    {
        match self {
            Absent::Empty => Some(Vec::new(alloc)),
            Absent::Required | Absent::Number(_) => None,
        }
    }
}

impl Key {
    /// The key as a problem writes it.
    pub fn text(self) -> &'static str
        ensures { result.now ≡ text_of self }
    {
        match self {
            Key::Version => "version",
            Key::Name => "name",
            Key::Cells => "cells",
            Key::Steps => "steps",
            Key::Courant => "courant",
            Key::Sides => "sides",
            Key::MaxLevel => "max_level",
            Key::Tag => "tag",
            Key::NErrorBuf => "n_error_buf",
            Key::Efficiency => "efficiency",
            Key::MinWidth => "min_width",
            Key::RegridInt => "regrid_int",
            Key::MaxGridSize => "max_grid_size",
            Key::Blocks => "blocks",
            Key::ShearX => "shear_x",
            Key::ShearY => "shear_y",
            Key::Blocking => "blocking",
            Key::Species => "species",
        }
    }

    /// The first version of the format that has it.
    pub fn version(self) -> u32
        ensures { result ≡ version_of self }
    {
        match self {
            Key::ShearX | Key::ShearY | Key::Blocking => 2,
            Key::Species => 3,
            _ => 1,
        }
    }

    /// What stands where it is absent.
    pub(crate) fn absent(self) -> Absent
        ensures { result ≡ absent_of self }
    {
        match self {
            Key::Tag | Key::ShearX | Key::ShearY => Absent::Empty,
            Key::NErrorBuf | Key::Species => Absent::Number(1),
            Key::Efficiency => Absent::Number(70),
            Key::MinWidth | Key::RegridInt | Key::Blocking => Absent::Number(2),
            Key::MaxGridSize => Absent::Number(32),
            _ => Absent::Required,
        }
    }
}

/// Whether some key of the version is written so.
pub fn is_known(version: u32, text: &str) -> bool
    ensures { result ≡ is_known version text.now }
{
    KEYS.iter()
        .any(|key| key.version() <= version && key.text() == text)
}
