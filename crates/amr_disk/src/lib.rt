//! A disk as a checkpoint store sees it: what it reads, what a stop may leave of it, and how often it failed.
#![tactic(auto)]

mod buffer;
mod disk;
mod file;
mod leave;
mod memory;
mod step;

pub use disk::{Disk, DiskFault};
pub use file::FileDisk;
pub use leave::Leave;
pub use memory::MemDisk;
