//! The ranges of the table of keys.

ghost use Rattle.std.specs.Prelude.{◌≡◌};
ghost use Rattle.amr_problem.specs.Keys.{ranges_of};

use crate::key::Key;
use crate::range::{Among, Range};

/// The versions of the format.
pub const VERSIONS: Range = Range {
    low: 1,
    high: 3,
    among: Among::Every,
};

// How many bytes a name has.
const NAME_LENGTH: Range = Range {
    low: 1,
    high: 32,
    among: Among::Every,
};

// How many columns or rows there are.
const CELLS: Range = Range {
    low: 2,
    high: 256,
    among: Among::Every,
};

// How many steps are made.
const STEPS: Range = Range {
    low: 0,
    high: 4096,
    among: Among::Every,
};

/// The numerator of a Courant number.
pub const COURANT: Range = Range {
    low: -1024,
    high: 1024,
    among: Among::Every,
};

// The denominator of Courant numbers.
const DENOMINATOR: Range = Range {
    low: 1,
    high: 1024,
    among: Among::Every,
};

// -1, which says that the axis is periodic, or the mass of a cell beyond the side.
const SIDE: Range = Range {
    low: -1,
    high: 1073741824,
    among: Among::Every,
};

// The finest level that there may be.
const LEVELS: Range = Range {
    low: 0,
    high: 4,
    among: Among::Every,
};

/// A difference of values that tags a cell.
pub const THRESHOLD: Range = Range {
    low: 1,
    high: 1073741824,
    among: Among::Every,
};

// By how many cells tags are grown.
const GROWTH: Range = Range {
    low: 0,
    high: 8,
    among: Among::Every,
};

// Per cent.
const EFFICIENCY: Range = Range {
    low: 1,
    high: 100,
    among: Among::Every,
};

// The least width of a part of a box.
const WIDTH: Range = Range {
    low: 1,
    high: 16,
    among: Among::Every,
};

// How many steps lie between two regrids.
const INTERVAL: Range = Range {
    low: 1,
    high: 4096,
    among: Among::Every,
};

// The greatest side of a patch.
const GRID_SIZE: Range = Range {
    low: 4,
    high: 256,
    among: Among::Even,
};

// A column or a row of a block.
const COORDINATE: Range = Range {
    low: 0,
    high: 255,
    among: Among::Every,
};

// The mass of a cell at the start.
const MASS: Range = Range {
    low: 0,
    high: 1073741824,
    among: Among::Every,
};

// The species of a block.
const BLOCK_SPECIES: Range = Range {
    low: 0,
    high: 3,
    among: Among::Every,
};

// The blocking factor.
const BLOCKING: Range = Range {
    low: 2,
    high: 8,
    among: Among::TwoFourEight,
};

// How many species there are.
const SPECIES: Range = Range {
    low: 1,
    high: 4,
    among: Among::Every,
};

impl Key {
    /// The ranges of its numbers, in order: of a value, of the length of a text, of each of many numbers, or of each row of many.
    pub(crate) fn ranges(self) -> &'static [Range]
        ensures { result.now ≡ ranges_of self }
    {
        match self {
            Key::Version => &[VERSIONS],
            Key::Name => &[NAME_LENGTH],
            Key::Cells => &[CELLS, CELLS],
            Key::Steps => &[STEPS],
            Key::Courant => &[COURANT, COURANT, DENOMINATOR],
            Key::Sides => &[SIDE, SIDE, SIDE, SIDE],
            Key::MaxLevel => &[LEVELS],
            Key::Tag => &[THRESHOLD],
            Key::NErrorBuf => &[GROWTH],
            Key::Efficiency => &[EFFICIENCY],
            Key::MinWidth => &[WIDTH],
            Key::RegridInt => &[INTERVAL],
            Key::MaxGridSize => &[GRID_SIZE],
            Key::Blocks => &[
                COORDINATE,
                COORDINATE,
                COORDINATE,
                COORDINATE,
                MASS,
                BLOCK_SPECIES,
            ],
            Key::ShearX => &[COURANT],
            Key::ShearY => &[COURANT],
            Key::Blocking => &[BLOCKING],
            Key::Species => &[SPECIES],
        }
    }
}
