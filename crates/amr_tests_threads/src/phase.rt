//! Worked examples of plans and of the core.

use amr_phase::{Core, Event, List, Plan, Post, Task};
use std::alloc::{AllocError, Global};
use std::process::Abort;
use std::test::Fail;

fn posts(alloc: Global, at: u32, amount: u64) -> Result<List<Post>, AllocError> {
    Ok(List::new(vec![in alloc; Post { at, amount }; 1]?))
}

fn none(alloc: Global) -> List<Post> {
    List::new(Vec::new(alloc))
}

fn pair(alloc: Global, first: Task, second: Task) -> Result<List<Task>, AllocError> {
    let mut tasks = Vec::new(alloc);
    tasks.push(first)?;
    tasks.push(second)?;
    Ok(List::new(tasks))
}

// Two tasks that add these amounts to word 0.
fn adding(alloc: Global, first: u64, second: u64) -> Result<List<Task>, AllocError> {
    let one = Task {
        puts: none(alloc),
        adds: posts(alloc, 0, first)?,
    };
    let two = Task {
        puts: none(alloc),
        adds: posts(alloc, 0, second)?,
    };
    pair(alloc, one, two)
}

// Two tasks that put 0 and 9 at these places, and add 3 and 5 to word 0.
fn putting(alloc: Global, first: u32, second: u32) -> Result<List<Task>, AllocError> {
    let one = Task {
        puts: posts(alloc, first, 0)?,
        adds: posts(alloc, 0, 3)?,
    };
    let two = Task {
        puts: posts(alloc, second, 9)?,
        adds: posts(alloc, 0, 5)?,
    };
    pair(alloc, one, two)
}

// What the core tells of places 0 and 1.
fn look(rt: &impl Abort, core: &Core, first: Option<u64>, second: Option<u64>) {
    assert!(rt; core.plan().places() == 2);
    assert!(rt; core.place(0) == first && core.place(1) == second);
}

fn sum(rt: &impl Abort, core: &Core) -> u64 {
    assert!(rt; core.plan().words() == 1);
    core.total(0)
}

// Makes these steps, each of which the core takes or refuses.
fn follow(rt: &impl Abort, core: &mut Core, steps: &[(Event, bool)]) {
    for step in steps {
        let (event, taken) = *step;
        assert_eq!(rt; core.step(event), taken, "{event:?}");
    }
}

#[test]
fn limits_of_a_plan(rt: HostRuntime) -> Result<(), Fail> {
    let alloc = rt.alloc();
    let large = 1u64 << 62;
    for (words, first, second, is_plan) in [
        (1, large, large, false),
        (1, large, large - 1, true),
        (0, 1, 1, false),
    ] {
        let plan = Plan::try_new(0, words, adding(alloc, first, second)?);
        assert_eq!(rt; plan.is_some(), is_plan, "{first} and {second}");
    }
    for (first, second, is_plan) in [(1, 1, false), (0, 2, false), (0, 1, true)] {
        let plan = Plan::try_new(2, 1, putting(alloc, first, second)?);
        assert_eq!(rt; plan.is_some(), is_plan, "{first} and {second}");
    }
    Ok(())
}

#[test]
fn two_workers_in_either_order(rt: HostRuntime) -> Result<(), Fail> {
    let alloc = rt.alloc();
    for first in [0u32, 1] {
        let other = 1 - first;
        let Some(plan) = Plan::try_new(2, 1, putting(alloc, 0, 1)?) else {
            panic!(rt; "no plan");
        };
        let mut core = Core::make(alloc, plan, 2)?;
        let drawn = [
            (Event::Take(first), false),
            (Event::Draw(first), true),
            (Event::Draw(other), true),
            (Event::Draw(first), false),
            (Event::Put(first), false),
            (Event::Take(other), true),
            (Event::Take(first), true),
            (Event::Put(other), true),
        ];
        follow(&rt, &mut core, &drawn);
        look(&rt, &core, None, Some(9));
        let put = [
            (Event::Face(first, 1), true),
            (Event::Face(first, 2), false),
            (Event::Put(first), true),
            (Event::Put(first), false),
            (Event::Give(first), false),
        ];
        follow(&rt, &mut core, &put);
        look(&rt, &core, Some(0), Some(9));
        let given = [
            (Event::Add(first), true),
            (Event::Add(other), true),
            (Event::Give(other), true),
            (Event::Give(first), true),
            (Event::Draw(first), true),
            (Event::Draw(first), false),
        ];
        follow(&rt, &mut core, &given);
        assert!(rt; core.complete());
        assert_eq!(rt; sum(&rt, &core), 8);
    }
    Ok(())
}
