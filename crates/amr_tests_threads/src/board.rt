//! Workers on a board of five tasks.

ghost use Rattle.std.specs.Prelude.{◌≡◌, ◌<◌, ◌≤◌, [], ◌∷◌, false, IfOk, map, length};
ghost use Rattle.amr_board.specs.Views.{first_view};
ghost use Rattle.amr_board.specs.BoardOf.{IsSeatOf, view};

use amr_board::{Board, Ended, MakeFault, Piece, Seat, Shape};
use amr_samples::Turnstile;
use amr_workers::{Gate, Job, run_phase};
use std::alloc::{AllocError, Global};
use std::process::Abort;
use std::sync::atomic::{AtomicBool, AtomicU64, Ordering};
use std::test::Fail;
use std::thread;

// A bit for each of five numbers.
const ALL: u64 = 31;

// How often a worker at a gate looks whether it may go on.
const TURNS: u32 = 10_000_000;

// A task that puts its number at the place of its number, and adds it to word 0.
#[derive(Clone, Copy)]
pub(crate) struct Counted {
    pub(crate) task: u32,
    pub(crate) done: bool,
}

impl Piece for Counted {
    ghost use Rattle.std.specs.Prelude.{◌≡◌, [], ◌∷◌, true};

    ghost task = { λ p. p.task };

    ghost puts = { λ p. record { at = p.task; amount = p.task } ∷ [] };

    ghost adds = { λ p. record { at = 0; amount = p.task } ∷ [] };

    ghost becomes = { λ p q. (q.task ≡ p.task) × (q.done ≡ true) };
}

// Notes which workers and tasks passed the gate and which tasks were worked on, and whether anything came out of turn.
#[derive(Drop)]
struct RollCall {
    workers: AtomicU64,
    entered: AtomicU64,
    worked: AtomicU64,
    left: AtomicU64,
    wrong: AtomicBool,
}

impl RollCall {
    fn new() -> RollCall {
        RollCall {
            workers: AtomicU64::new(0),
            entered: AtomicU64::new(0),
            worked: AtomicU64::new(0),
            left: AtomicU64::new(0),
            wrong: AtomicBool::new(false),
        }
    }

    // Notes that something is wrong, unless this holds.
    fn expect(&self, holds: bool) {
        if !holds {
            self.wrong.store(true, Ordering::SeqCst);
        }
    }
}

// Whether the number is noted among these.
fn has(noted: &AtomicU64, number: u32) -> bool {
    noted.load(Ordering::SeqCst) & 1u64.wrapping_shl(number) != 0
}

// Notes the number. False where it was noted before.
fn note(noted: &AtomicU64, number: u32) -> bool {
    let bit = 1u64.wrapping_shl(number);
    noted.fetch_or(bit, Ordering::SeqCst) & bit == 0
}

// A worker comes once, and waits until all five have come. A task is left once it was worked on.
impl Gate for RollCall {
    ghost use Rattle.std.specs.Prelude.{◌<◌};

    ghost admits = { λ _ worker task. (worker < 5) × (task < 5) };

    fn enter(&self, worker: u32, task: u32) {
        self.expect(note(&self.entered, task));
        self.expect(note(&self.workers, worker));
        for _ in 0..TURNS {
            if self.workers.load(Ordering::SeqCst) == ALL {
                return;
            }
            thread::yield_now();
        }
        self.expect(false);
    }

    fn leave(&self, _worker: u32, task: u32) {
        self.expect(has(&self.worked, task));
        self.expect(note(&self.left, task));
    }
}

// A task is worked on once, after it was entered and before it is left.
impl Job<Counted> for RollCall {
    ghost ready = { λ _ _ _. Unit {0} };

    fn work(
        &self,
        board: &Board<Counted>,
        seat: &mut Seat<Counted>,
        mut piece: Counted,
    ) -> Counted {
        self.expect(has(&self.entered, piece.task));
        self.expect(!has(&self.left, piece.task));
        self.expect(note(&self.worked, piece.task));
        board.put(seat, piece.task, u64::from(piece.task));
        board.add(seat, 0, u64::from(piece.task));
        piece.done = true;
        piece
    }
}

fn five_pieces(alloc: Global) -> Result<Vec<Counted>, AllocError>
    ensures { IfOk result (λ v. v.items ≡ map (λ t. record { task = t; done = false }) (0 ∷ 1 ∷ 2 ∷ 3 ∷ 4 ∷ [])) }
{
    let done = false;
    let mut pieces = Vec::new(alloc);
    pieces.push(Counted { task: 0, done })?;
    pieces.push(Counted { task: 1, done })?;
    pieces.push(Counted { task: 2, done })?;
    pieces.push(Counted { task: 3, done })?;
    pieces.push(Counted { task: 4, done })?;
    Ok(pieces)
}

pub(crate) fn opened(
    rt: &impl Abort,
    alloc: Global,
) -> Result<(Board<Counted>, Seat<Counted>), AllocError>
    ensures seat { IfOk result (λ r. IsSeatOf r.0 r.1 × (view r.1 ≡ first_view r.0.plan r.0.pieces)) }
    ensures shape { IfOk result (λ r. (r.0.plan.words ≡ 1) × (length r.0.plan.tasks ≡ 5)) }
    ensures pieces { IfOk result (λ r. r.0.pieces ≡ map (λ t. record { task = t; done = false }) (0 ∷ 1 ∷ 2 ∷ 3 ∷ 4 ∷ [])) }
{
    let shape = Shape {
        places: 5,
        words: 1,
    };
    match Board::make(alloc, shape, five_pieces(alloc)?) {
        Ok(both) => Ok(both),
        Err(MakeFault::NoMemory(pieces)) => {
            assert!(rt; pieces.len() == 5);
            Err(AllocError)
        }
    }
}

// The sum of the tasks' numbers.
pub(crate) fn check(rt: &impl Abort, ended: Ended<Counted>)
    requires { ended.registers ≡ 1 }
{
    assert!(rt; ended.total(0) == 10);
}

// Each of the five draws one task, under its own number, and passes the gate before and after its work.
#[test]
fn five_workers_come_at_once(rt: HostRuntime) -> Result<(), Fail> {
    let roll = RollCall::new();
    let (board, seat) = opened(&rt, rt.alloc())?;
    let last = run_phase(&rt, &board, seat, &roll, &roll, 5);
    check(&rt, board.close(last));
    assert!(rt; roll.workers.load(Ordering::SeqCst) == ALL);
    assert!(rt;
        roll.entered.load(Ordering::SeqCst) == ALL && roll.left.load(Ordering::SeqCst) == ALL
    );
    assert!(rt; !roll.wrong.load(Ordering::SeqCst));
    Ok(())
}

/// The first task is held until another is done, so a second worker takes part.
#[test]
fn second_task_first(rt: HostRuntime) -> Result<(), Fail> {
    let gate = Turnstile::new();
    let (board, seat) = opened(&rt, rt.alloc())?;
    let last = run_phase(&rt, &board, seat, &RollCall::new(), &gate, 2);
    check(&rt, board.close(last));
    assert!(rt; gate.has_held());
    Ok(())
}

/// A board of which nobody drew a task has all pieces, each in its slot, and empty words.
#[test]
fn pieces_come_back_undrawn(rt: HostRuntime) -> Result<(), Fail> {
    let (board, seat) = opened(&rt, rt.alloc())?;
    let mut ended = board.dismiss(seat);
    assert!(rt; ended.total(0) == 0);
    let first = ended.hand(0);
    let last = ended.hand(4);
    assert!(rt; first.task == 0 && !first.done);
    assert!(rt; last.task == 4 && !last.done);
    Ok(())
}
