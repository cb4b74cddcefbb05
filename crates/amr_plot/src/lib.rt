//! The plot: the state of a mesh as text, its boxes in order and each box's masses row by row. The patch boxes that a box is
//! chopped into leave no trace in it.
//!
//! - [`plot_all`]: it is written, by the mesh of each species; [`plot`]: by the only one.
//! - [`plot_all_in_threads`], [`plot_in_threads`]: the same, with the texts of the boxes of large levels made by several threads.
//! - [`plot_all_len`], [`plot_len`]: how long it is, counted and not written.
//! - [`Pen`]: who takes the texts: a [`Sheet`] before a stream, or a count of bytes; [`put_masses`]: the masses of a row.
//! - [`plots_are_short`]: the law that this fits 64 bits.
#![tactic(auto)]

ghost use Rattle.amr_plot.specs.Laws.{PlotsAreShort};

mod boxes;
mod layer;
mod levels;
mod lines;
mod parts;
mod pen;
mod plots;
mod rows;
mod runs;
mod texts;

pub use pen::{Pen, Sheet};
pub use plots::{plot, plot_all, plot_all_in_threads, plot_all_len, plot_in_threads, plot_len};
pub use rows::put_masses;

/// The plot of sound states, one of each of at most four species, has fewer than 2^64 bytes.
pub fn plots_are_short()
    ensures { PlotsAreShort }
{}
