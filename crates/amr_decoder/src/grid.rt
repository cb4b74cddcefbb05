//! A box of a payload and its masses.

use amr_box::Bx;
use amr_codec::MassWidth;

/// Where the masses of a box are: row by row from the low row, within a row from the low column.
#[derive(Drop)]
pub(crate) enum Source {
    /// In the bytes, each of a width, from a place on.
    Bytes(MassWidth, usize),
    /// In a list.
    List(Vec<u32>),
}

/// A box and its masses.
#[derive(Drop)]
pub(crate) struct Grid {
    pub bx: Bx,
    pub masses: Source,
}
