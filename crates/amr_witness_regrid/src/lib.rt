//! A regrid of a state as plainly as its definition reads, over states as ordered maps. Each cell's tag, each
//! block and each new mass is worked out by itself. It is there to be compared with, and slow; no program
//! calls it.
#![tactic(auto)]

mod both;
mod cells;
mod masses;
mod mesh;
mod regrid;
mod same;
mod tagged;
mod wanted;

pub use both::regrid_both;
pub use mesh::plain_of;
pub use regrid::slow_regrid;
pub use same::are_same;
