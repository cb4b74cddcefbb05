//! A view: the finest masses that are known in a box of a level, as text, row by row as in a plot.
//!
//! - [`view`]: it is written.
//! - [`views_add_up`]: the law that the finest masses of a whole level make up the mass of the last row of the ledger.
#![tactic(auto)]

ghost use Rattle.amr_view.specs.Laws.{ViewsAddUp};

mod boxes;
mod laid;
mod rows;

pub use boxes::view;

/// In a sound state the finest masses of all cells of a level's domain make up the mass of the last row of the ledger, at every level.
pub fn views_add_up()
    ensures { ViewsAddUp }
{}
