//! A phase of tasks and their posts as a pure machine of atomic events: the reference that a running board is proved to be.
//!
//! A task puts amounts into places, each place once, and adds amounts to words. Workers draw tasks, take their pieces,
//! make the posts in order and give the next pieces back. (profile)
#![tactic(auto)]

mod laws;
mod list;
mod machine;
mod plan;

pub use laws::{every_list_of_events, layouts_and_plans, tests_of_plans};
pub use list::List;
pub use machine::{Core, Event, Hold, Stage};
pub use plan::{Plan, Post, Task};
