//! The machine: each event is one atomic action of one worker.
ghost use Rattle.std.specs.Prelude.{◌≡◌, ℕ, ◌<◌, IfOk, IfSome, length, position, slice_index};
ghost use Rattle.std.specs.Option.{option_and_then};
ghost use Rattle.amr_phase.specs.Plans.{PlanOf};
ghost use Rattle.amr_phase.specs.declared.machine.Event.{Event};

use crate::plan::Plan;
use amr_causes::NoMemory;
use std::alloc::Global;
use std::marker::Model;

/// How far a task is.
#[derive(Clone, Copy)]
pub enum Stage {
    /// Nobody has drawn it.
    Waiting,
    /// This worker has drawn it, and its piece is at home.
    Drawn(u32),
    /// The worker has its piece, and has made so many of its puts and adds.
    Held { worker: u32, puts: u64, adds: u64 },
    /// Its next piece is at home.
    Given,
}

/// The task that a worker holds, and how many of its puts and adds are made.
#[derive(Clone, Copy)]
pub struct Hold {
    pub task: usize,
    pub worker: u32,
    pub puts: u64,
    pub adds: u64,
}

/// An atomic action of a worker. Workers and places are numbered from 0.
#[derive(Clone, Copy, PartialEq, Eq, Debug)]
pub enum Event {
    /// The worker, which holds no task and hasn't drawn past the end, draws the next task, or is past the end.
    Draw(u32),
    /// The worker takes the piece of the task that it drew.
    Take(u32),
    /// The worker makes its task's next put.
    Put(u32),
    /// The worker makes its task's next add.
    Add(u32),
    /// The worker looks at a place.
    Face(u32, u32),
    /// The worker, all of whose task's posts are made, gives the next piece.
    Give(u32),
}

/// A phase under way: who has which task, and what places and words hold.
#[derive(Drop)]
pub struct Core {
    plan: Plan,
    counter: u64,
    stages: Vec<Stage>,
    past: Vec<bool>,
    faces: Vec<Option<u64>>,
    totals: Vec<u64>,
}

impl Model for Core {
    ghost use Rattle.std.specs.Prelude.{◌<◌, ◌^◌, length};
    ghost use Rattle.amr_phase.specs.Machine.{CoreOf};
    ghost use Rattle.amr_phase.specs.Laws.{IsConsistent};

    ghost Value = { CoreOf };

    ghost view = { λ c. record {
      plan = c.plan;
      counter = c.counter;
      stages = c.stages.items;
      past = c.past.items;
      faces = c.faces.items;
      totals = c.totals.items;
    } };

    ghost invariant = { λ c. IsConsistent
        (record { plan = c.plan; counter = c.counter; stages = c.stages.items; past = c.past.items; faces = c.faces.items; totals = c.totals.items })
        × (length c.past.items < 2 ^ 32) };
}

impl Stage {
    ghost use Rattle.amr_phase.specs.Machine.{is_with, is_given};

    fn is_with(&self, worker: u32) -> bool
        ensures { result ≡ is_with worker self.now }
    {
        match *self {
            Stage::Waiting => false,
            Stage::Drawn(by) => by == worker,
            Stage::Held { worker: by, .. } => by == worker,
            Stage::Given => false,
        }
    }

    fn is_given(&self) -> bool
        ensures { result ≡ is_given self.now }
    {
        match *self {
            Stage::Given => true,
            _ => false,
        }
    }
}

impl Core {
    ghost use Rattle.amr_phase.specs.Machine.{Steps, Moves, fresh, is_with, is_complete, after_draw, next_at};
    ghost use Rattle.amr_phase.specs.Machine.{after_take, hold_of, after_put, after_add, after_give};
    ghost use Rattle.amr_phase.specs.Laws.{place_of};

    /// The start of a phase by so many workers: all tasks wait, all places are empty and all words are 0. It is refused
    /// only if allocation fails.
    pub fn make(alloc: Global, plan: Plan, workers: u32) -> Result<Core, NoMemory>
        ensures { IfOk result (λ c. c ≡ fresh plan workers) }
    {
        let stages = vec![in alloc; Stage::Waiting; plan.tasks().len()]?;
        let past = vec![in alloc; false; workers as usize]?;
        let faces = vec![in alloc; None; plan.places() as usize]?;
        let totals = vec![in alloc; 0; plan.words() as usize]?;
        Ok(Core {
            plan,
            counter: 0,
            stages,
            past,
            faces,
            totals,
        })
    }

    /// The plan of the phase.
    pub fn plan(&self) -> &Plan
        ensures { result.now ≡ self.now.plan }
    {
        &self.plan
    }

    /// What was put at the place: None exactly where nothing was yet.
    pub fn place(&self, place: u32) -> Option<u64>
        requires { place < self.now.plan.places }
        ensures { result ≡ place_of self.now place }
    {
        self.faces[place as usize]
    }

    /// What was added to the word so far.
    pub fn total(&self, word: u32) -> u64
        requires { word < self.now.plan.words }
        ensures { result ≡ slice_index self.now.totals word }
    {
        self.totals[word as usize]
    }

    /// Whether all tasks are given back.
    pub fn complete(&self) -> bool
        ensures { result ≡ is_complete self.now }
    {
        self.stages.iter().all(|stage| stage.is_given())
    }

    /// One event. False, and nothing changes, exactly where it isn't enabled.
    pub fn step(&mut self, event: Event) -> bool
        ensures { Steps self.old event result self.new }
    {
        match event {
            Event::Draw(worker) => self.draw(worker),
            Event::Take(worker) => self.take(worker),
            Event::Put(worker) => self.put(worker),
            Event::Add(worker) => self.add(worker),
            Event::Face(worker, place) => {
                (worker as usize) < self.past.len() && place < self.plan.places()
            }
            Event::Give(worker) => self.give(worker),
        }
    }

    // The task of this worker.
    fn task_of(&self, worker: u32) -> Option<usize>
        ensures { result ≡ position (is_with worker) self.now.stages }
    {
        self.stages.iter().position(|s| s.is_with(worker))
    }

    fn draw(&mut self, worker: u32) -> bool
        ensures { Moves (after_draw self.old worker) self.old result self.new }
    {
        let at = worker as usize;
        if at >= self.past.len() || self.task_of(worker).is_some() || self.past[at] {
            return false;
        }
        if self.counter < self.stages.len() as u64 {
            self.stages[self.counter as usize] = Stage::Drawn(worker);
            self.counter += 1;
            return true;
        }
        self.past[at] = true;
        self.counter += 1;
        true
    }

    fn take(&mut self, worker: u32) -> bool
        ensures { Moves (next_at self.old worker (after_take self.old)) self.old result self.new }
    {
        if worker as usize >= self.past.len() {
            return false;
        }
        let Some(task) = self.task_of(worker) else {
            return false;
        };
        let Stage::Drawn(by) = self.stages[task] else {
            return false;
        };
        self.stages[task] = Stage::Held {
            worker: by,
            puts: 0,
            adds: 0,
        };
        true
    }

    /// What this worker holds: None where it has no task, or has not taken its piece.
    pub fn hold_of(&self, worker: u32) -> Option<Hold>
        ensures hold { result ≡ hold_of self.now worker }
        ensures task { IfSome result (λ held. held.task < length self.now.stages) }
    {
        if worker as usize >= self.past.len() {
            return None;
        }
        let Some(task) = self.task_of(worker) else {
            return None;
        };
        match self.stages[task] {
            Stage::Held { worker, puts, adds } => Some(Hold {
                task,
                worker,
                puts,
                adds,
            }),
            _ => None,
        }
    }

    fn put(&mut self, worker: u32) -> bool
        ensures { Moves (option_and_then (after_put self.old) (hold_of self.old worker)) self.old result self.new }
    {
        let Some(held) = self.hold_of(worker) else {
            return false;
        };
        let posts = self.plan.tasks()[held.task].puts.as_slice();
        if held.puts as usize >= posts.len() {
            return false;
        }
        let post = posts[held.puts as usize];
        self.faces[post.at as usize] = Some(post.amount);
        self.stages[held.task] = Stage::Held {
            worker: held.worker,
            puts: held.puts + 1,
            adds: held.adds,
        };
        true
    }

    fn add(&mut self, worker: u32) -> bool
        ensures { Moves (option_and_then (after_add self.old) (hold_of self.old worker)) self.old result self.new }
    {
        let Some(held) = self.hold_of(worker) else {
            return false;
        };
        let posts = self.plan.tasks()[held.task].adds.as_slice();
        if held.adds as usize >= posts.len() {
            return false;
        }
        let post = posts[held.adds as usize];
        self.totals[post.at as usize] += post.amount;
        self.stages[held.task] = Stage::Held {
            worker: held.worker,
            puts: held.puts,
            adds: held.adds + 1,
        };
        true
    }

    fn give(&mut self, worker: u32) -> bool
        ensures { Moves (option_and_then (after_give self.old) (hold_of self.old worker)) self.old result self.new }
    {
        let Some(held) = self.hold_of(worker) else {
            return false;
        };
        let task = &self.plan.tasks()[held.task];
        let puts = task.puts.as_slice().len();
        let adds = task.adds.as_slice().len();
        if held.puts as usize != puts || held.adds as usize != adds {
            return false;
        }
        self.stages[held.task] = Stage::Given;
        true
    }
}
