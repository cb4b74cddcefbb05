//! The words of the command line: the command that they are, or that they are none.
//!
//! The command set is one table (`table.rt`, and `specs/Table.antt` for contracts): the commands with their options, each with
//! its name and its range. The definition that `clap` parses by follows from it, here and in `specs/`. Where `clap` takes the
//! words, the number that an option's text writes and its range are read again from the text.
#![tactic(auto)]

mod command;
mod laws;
mod line;
mod number;
mod options;
mod program;
mod table;
mod words;

pub use command::{Command, Corners, RunOptions, ViewOptions};
pub use laws::{numbers_are_read_alike, usage_has_no_other_cause};
pub use line::Line;
pub use words::{CliFault, parse};
