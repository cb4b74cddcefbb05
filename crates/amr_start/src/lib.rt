//! Level 0 of a problem before any regrid, over patches. It is chopped into patches of at most `max_grid_size` by
//! `max_grid_size` cells, which get the masses of the blocks; the ledger gets its row 0.
#![tactic(auto)]

mod blank;
mod blocks;
mod placed;
mod starts;

pub use starts::base;
