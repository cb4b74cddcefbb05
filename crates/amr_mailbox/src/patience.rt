//! How a thread waits between two looks.

use std::hint::spin_loop;
use std::thread::yield_now;

/// Counts the looks of one wait. The first ones come at once; before a later one another thread has to run.
#[derive(Drop)]
pub struct Patience {
    left: u32,
}

impl Patience {
    /// So many looks come at once. A thousand take some 5 microseconds.
    pub fn new(looks: u32) -> Patience {
        Patience { left: looks }
    }

    /// Spends a look. Whether there was one left, so that the next look comes at once.
    pub fn spend(&mut self) -> bool {
        if self.left == 0 {
            return false;
        }
        self.left -= 1;
        spin_loop();
        true
    }

    /// Passes the time until the next look: where it does not come at once, another thread runs before.
    pub fn pause(&mut self) {
        if !self.spend() {
            yield_now();
        }
    }
}
