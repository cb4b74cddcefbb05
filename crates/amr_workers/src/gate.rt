//! What is called around each task.
ghost use Rattle.std.specs.Prelude.{ℕ};

/// Called by each worker before it takes a task's piece and after it gave the next one. It sees neither board nor
/// piece: a test can hold workers at it.
pub trait Gate {
    // The numbers of a worker and a task that it may be called with.
    ghost admits: { Self → ℕ → ℕ → Type 0 };

    /// Before the worker takes the piece of the task that it drew.
    fn enter(&self, worker: u32, task: u32)
        requires { admits self.now worker task };

    /// After the worker gave the task's next piece back.
    fn leave(&self, worker: u32, task: u32)
        requires { admits self.now worker task };
}

/// A gate that holds nobody.
#[derive(Clone, Copy, Debug)]
pub struct OpenGate;

impl Gate for OpenGate {
    ghost admits = { λ _ _ _. Unit {0} };

    fn enter(&self, _worker: u32, _task: u32) {}

    fn leave(&self, _worker: u32, _task: u32) {}
}
