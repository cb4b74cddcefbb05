//! Whose frame is filled, and where look-ups begin: where the last one ended.

use amr_patch::{Order, Starts};

/// The patch whose frame is filled: the number of its level, how that level's patches stand, where they start, if that is known,
/// and its own number among them.
#[derive(Clone, Copy)]
pub(crate) struct Target<'a> {
    pub(crate) level: u32,
    pub(crate) order: Order,
    pub(crate) starts: Option<&'a Starts>,
    pub(crate) patch: usize,
}

/// Where the look-ups for each side of a patch begin: at the patch that served last. That one or the next is mostly the one for the same
/// side of the next patch, so that few look-ups search.
#[derive(Clone, Copy, Debug)]
pub(crate) struct NearSides {
    pub(crate) west: usize,
    pub(crate) east: usize,
    pub(crate) south: usize,
    pub(crate) north: usize,
}

/// Look-ups that begin with the first patch.
pub(crate) fn near_first() -> NearSides {
    NearSides {
        west: 0,
        east: 0,
        south: 0,
        north: 0,
    }
}
