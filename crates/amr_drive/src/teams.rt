//! Workers who last from the first step of several to the last.

ghost use Rattle.std.specs.Prelude.{◌<◌, ◌≤◌, ℕ};
ghost use Rattle.std.specs.List.{All};
ghost use Rattle.std.specs.Arc.{arc_value};
ghost use Rattle.amr_workers.specs.Helpers.{IsRecruit};
ghost use Rattle.amr_advance.specs.Crews.{MayRun};

use amr_advance::Workers;
use amr_lots::{LevelWork, Work};
use amr_workers::{Gate, Recruit, Team, serve_all};
use std::alloc::Global;
use std::sync::Wait;
use std::thread::{Threads, join_mut};

/// So many workers, and those of them who have to begin ([`while_served`]). Several are a team. Where there is no memory for
/// a team, threads are made for each phase of a level.
pub(crate) fn hire<'a, R: Threads + Wait + Sync, G: Gate + Sync>(
    rt: &'a R,
    alloc: Global,
    job: &'a LevelWork<'a>,
    count: u32,
    gate: &'a G,
) -> (Workers<'a, R, G>, Vec<Recruit<Work, LevelWork<'a>, G>>)
    requires some_workers { 1 ≤ count }
    requires few_workers { count ≤ 64 }
    requires gate { (worker task : ℕ) → worker < count → G.admits gate.now worker task }
    ensures crew { (tasks : ℕ) → MayRun G.admits job.now.problem.now tasks result.0 }
    ensures recruits { All (λ r. IsRecruit job.now gate.now (arc_value r.mailbox) r.worker r.number) result.1.items }
{
    let mut workers = Workers {
        runtime: rt,
        gate,
        count,
        team: None,
    };
    if count == 1 {
        return (workers, Vec::new(alloc));
    }
    let Ok((team, recruits)) = Team::hire(alloc, job, gate, count) else {
        return (workers, Vec::new(alloc));
    };
    workers.team = Some(team);
    (workers, recruits)
}

/// Waits until each kept worker has begun, but not for ever.
pub(crate) fn gather<R, G: Gate>(workers: &Workers<'_, R, G>) {
    if let Some(team) = &workers.team {
        team.gather();
    }
}

/// Lets the kept workers go.
pub(crate) fn dismiss<R, G: Gate>(workers: &mut Workers<'_, R, G>) {
    if let Some(team) = &mut workers.team {
        drop(team.dismiss());
    }
}

/// Has steps made while kept workers serve: one side of a join serves, the other makes the steps, and lets the workers go
/// at their end.
pub(crate) fn while_served<'a, R: Threads + Wait + Sync, G: Gate + Sync, X, F: FnMut() -> X>(
    rt: &'a R,
    job: &'a LevelWork<'a>,
    gate: &'a G,
    recruits: Vec<Recruit<Work, LevelWork<'a>, G>>,
    steps: &mut F,
) -> X
    requires recruits { All (λ r. IsRecruit job.now gate.now (arc_value r.mailbox) r.worker r.number) recruits.items }
    requires steps { F.pre steps.old }
    ensures { F.step steps.old result steps.new }
{
    let mut recruits = recruits;
    if recruits.is_empty() {
        return steps();
    }
    let ((), made) = join_mut(
        rt,
        &mut ||
            requires { All (λ r. IsRecruit job.now gate.now (arc_value r.mailbox) r.worker r.number) recruits.items }
        { serve_all(rt, &mut recruits, job, gate) },
        &mut || -> X
            requires { F.pre steps.now }
            ensures { F.step steps.entry.now result steps.exit.now }
        { steps() },
    );
    made
}
