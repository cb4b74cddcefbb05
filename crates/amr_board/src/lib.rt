//! A board on which workers in threads draw the tasks of a phase, move its pieces and make its posts, by single atomic
//! steps and without a lock. (profile)
#![tactic(auto)]

mod board;
mod ended;
mod laws;
mod piece;
mod rule;
mod slots;
mod view;

pub use board::{Board, MakeFault, Seat, Shape};
pub use ended::Ended;
pub use laws::{
    each_deed_is_one_event, looks_alone, plans_of_pieces, posts_in_a_loop,
    running_board_is_the_core,
};
pub use piece::Piece;
pub use rule::{BoardRule, BoardSetup};
pub use view::{Deed, Look, Progress, View};
