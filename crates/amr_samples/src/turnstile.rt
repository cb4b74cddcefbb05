//! A gate that holds the first task until another one is done.

use amr_workers::Gate;
use std::sync::atomic::{AtomicBool, Ordering};
use std::thread;

/// How often a worker at the gate looks whether it may go on.
const TURNS: u32 = 10_000_000;

/// Holds whoever comes first until another task is done, for so many turns at most.
#[derive(Drop)]
pub struct Turnstile {
    entered: AtomicBool,
    left: AtomicBool,
    waited_in_vain: AtomicBool,
}

impl Turnstile {
    /// A gate that nobody has passed.
    pub fn new() -> Turnstile {
        Turnstile {
            entered: AtomicBool::new(false),
            left: AtomicBool::new(false),
            waited_in_vain: AtomicBool::new(false),
        }
    }

    /// Whether a task was held until another one was done.
    pub fn has_held(&self) -> bool {
        self.entered.load(Ordering::SeqCst) && !self.waited_in_vain.load(Ordering::SeqCst)
    }
}

impl Gate for Turnstile {
    ghost admits = { λ _ _ _. Unit {0} };

    fn enter(&self, _worker: u32, _task: u32) {
        if self.entered.swap(true, Ordering::SeqCst) {
            return;
        }
        for _ in 0..TURNS {
            if self.left.load(Ordering::SeqCst) {
                return;
            }
            thread::yield_now();
        }
        self.waited_in_vain.store(true, Ordering::SeqCst);
    }

    fn leave(&self, _worker: u32, _task: u32) {
        self.left.store(true, Ordering::SeqCst);
    }
}
