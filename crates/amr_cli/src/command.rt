//! The commands.

/// What the words ask for.
#[derive(Clone, Copy, Debug, PartialEq, Eq, Drop)]
pub enum Command {
    /// Reads a problem and writes the plot of its run.
    Run(RunOptions),
    /// Reads a problem and says what it is.
    Check,
    /// Writes the plot of the state that the store holds.
    Show,
    /// Runs a drawn problem and writes one line on how it ended.
    Trial {
        /// Where the draws begin: any number of 32 bits.
        number: u32,
        /// The cells along each axis, from 8 to 256.
        size: u32,
        /// How many workers share a step, from 1 to 64.
        workers: u32,
    },
    /// Reads a batch of problems and writes the reply of each.
    Batch {
        /// How many workers solve jobs, from 1 to 64.
        workers: u32,
    },
    /// Reads a problem and writes the masses of a box after its last step.
    View(ViewOptions),
}

/// The options of a run.
#[derive(Clone, Copy, Debug, PartialEq, Eq, Drop)]
pub struct RunOptions {
    /// How many workers share a step, from 1 to 64.
    pub workers: u32,
    /// The step to stop at, up to 4096. None: the problem's last step.
    pub to: Option<u32>,
    /// A checkpoint is kept each time that so many steps are made, from 1 to 4096. None: none is kept.
    pub keep: Option<u32>,
    /// How many records follow each whole state in a store that the run creates, from 1 to 7. None: the store has whole states alone.
    pub deltas: Option<u32>,
}

/// The corners of a box as they are given, both inside, each number up to 4095. The first may lie past the second.
#[derive(Clone, Copy, Debug, PartialEq, Eq, Drop)]
pub struct Corners {
    /// The first column.
    pub x0: u32,
    /// The first row.
    pub y0: u32,
    /// The last column.
    pub x1: u32,
    /// The last row.
    pub y1: u32,
}

/// What is seen by a view.
#[derive(Clone, Copy, Debug, PartialEq, Eq, Drop)]
pub struct ViewOptions {
    /// The level whose cells the box has, up to 4.
    pub level: u32,
    /// The box.
    pub corners: Corners,
    /// The species, up to 3.
    pub species: u32,
    /// How many workers share a step, from 1 to 64.
    pub workers: u32,
}
