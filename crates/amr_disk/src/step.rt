//! The steps that a disk in memory keeps.
ghost use Rattle.std.specs.Prelude.{◌≡◌, ◌≤◌, ◌<◌, ◌++◌, ◌∷◌, [], vec_len, vec_capacity};

#[derive(Clone, Copy)]
pub enum Step {
    Write { at: usize, len: usize },
    Sync,
}

// Adds a step to a list that has room for it.
pub fn keep(steps: &mut Vec<Step>, step: Step)
    requires room { vec_len steps.old < vec_capacity steps.old }
    ensures items { steps.new.items ≡ steps.old.items ++ step ∷ [] }
    ensures room { vec_capacity steps.old ≤ vec_capacity steps.new }
{
    match steps.push(step) {
        Ok(()) => {}
        Err(_) => unreachable!(),
    }
}
