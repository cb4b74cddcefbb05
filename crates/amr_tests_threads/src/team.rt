//! A team of workers over several boards.

ghost use Rattle.std.specs.Prelude.{◌≡◌, ◌<◌};
ghost use Rattle.std.specs.List.{All};
ghost use Rattle.std.specs.Arc.{arc_value};
ghost use Rattle.amr_workers.specs.Helpers.{IsRecruit};

use crate::board::{Counted, check, opened};
use amr_board::{Board, Seat};
use amr_samples::Turnstile;
use amr_workers::{Job, Team, serve_all};
use std::alloc::{AllocError, Global};
use std::process::Abort;
use std::sync::Wait;
use std::test::Fail;
use std::thread::{Threads, join_mut};

// Makes the posts of a task, however often it is asked.
#[derive(Drop)]
struct Poster;

impl Job<Counted> for Poster {
    ghost ready = { λ _ _ _. Unit {0} };

    fn work(
        &self,
        board: &Board<Counted>,
        seat: &mut Seat<Counted>,
        mut piece: Counted,
    ) -> Counted {
        board.put(seat, piece.task, u64::from(piece.task));
        board.add(seat, 0, u64::from(piece.task));
        piece.done = true;
        piece
    }
}

// Runs three boards one after another.
fn run_three<R: Wait + Abort>(
    rt: &R,
    alloc: Global,
    team: &mut Team<'_, Counted, Poster, Turnstile>,
) -> Result<(), AllocError> {
    team.gather();
    for _ in 0..3 {
        let (board, seat) = opened(rt, alloc)?;
        check(rt, team.run_phase(rt, alloc, board, seat));
    }
    Ok(())
}

// Has a team of three run boards, and lets its kept workers go.
fn conduct<R: Threads + Wait + Abort + Sync>(
    rt: &R,
    alloc: Global,
    poster: &Poster,
    gate: &Turnstile,
) -> Result<(), AllocError> {
    let (mut team, mut recruits) = Team::hire(alloc, poster, gate, 3)?;
    let ((), done) = join_mut(
        rt,
        &mut ||
            requires { All (λ r. IsRecruit poster.now gate.now (arc_value r.mailbox) r.worker r.number) recruits.items }
        { serve_all(rt, &mut recruits, poster, gate) },
        &mut || {
            let done = run_three(rt, alloc, &mut team);
            drop(team.dismiss());
            done
        },
    );
    done
}

/// The first task is held until another is done, so a kept worker takes part.
#[test]
fn second_task_first(rt: HostRuntime) -> Result<(), Fail> {
    let gate = Turnstile::new();
    conduct(&rt, rt.alloc(), &Poster, &gate)?;
    assert!(rt; gate.has_held());
    Ok(())
}
