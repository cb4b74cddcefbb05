//! Ghost cells: the frame of each patch of a level, by the value of a cell.
#![tactic(auto)]

mod entries;
mod fills;
mod gap_cells;
mod ghosts;
mod lookup;
mod messages;
mod outer;
mod outside;
mod parts;
mod places;
mod plan;
mod runs;
mod sides;
mod sources;

pub use fills::{FrameSources, fill, find_sources};
pub use messages::{Message, fill_run, pack_messages};
pub use outer::OuterGhosts;
pub use outside::outside_value;
pub use parts::{FrameCopy, FrameParts, part_frames};
pub use plan::{FramePlan, plan_frames};
pub use runs::plan_frames_in_threads;
pub use sources::GhostSpan;
