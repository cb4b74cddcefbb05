//! A small board, stepped by hand.
ghost use Rattle.std.specs.Prelude.{◌≡◌, ◌+◌, ◌<◌, [], ◌∷◌, true, false, Some, IfOk};
ghost use Rattle.amr_phase.specs.Plans.{planned_face};
ghost use Rattle.amr_tests_store.specs.declared.board.Simple.{Simple};
ghost use Rattle.amr_board.specs.Views.{first_view, HoldsNone};
ghost use Rattle.amr_board.specs.Ended.{face_of};
ghost use Rattle.amr_board.specs.BoardOf.{IsSeatOf, view};
ghost use mathlib.Core.Option.{some};
ghost use lib.ListN.{get_elem?};

use amr_board::{Board, Ended, MakeFault, Piece, Seat, Shape};
use std::alloc::{AllocError, Global};
use std::process::Abort;
use std::test::Fail;

// A task that puts a value at the place of its number, and adds an amount to word 0.
#[derive(Clone, Copy)]
struct Simple {
    task: u32,
    value: u64,
    amount: u64,
    done: bool,
}

impl Piece for Simple {
    ghost use Rattle.std.specs.Prelude.{◌≡◌, [], ◌∷◌, true};

    ghost task = { λ p. p.task };

    ghost puts = { λ p. record { at = p.task; amount = p.value } ∷ [] };

    ghost adds = { λ p. record { at = 0; amount = p.amount } ∷ [] };

    ghost becomes = { λ p q. (q.task ≡ p.task) × (q.done ≡ true) };
}

fn two_pieces(alloc: Global) -> Result<Vec<Simple>, AllocError>
    ensures { IfOk result (λ v. v.items
        ≡ record { task = 0; value = 0; amount = 3; done = false } ∷ record { task = 1; value = 9; amount = 5; done = false } ∷ []) }
{
    let mut pieces = Vec::new(alloc);
    pieces.push(Simple {
        task: 0,
        value: 0,
        amount: 3,
        done: false,
    })?;
    pieces.push(Simple {
        task: 1,
        value: 9,
        amount: 5,
        done: false,
    })?;
    Ok(pieces)
}

fn opened(rt: &impl Abort, alloc: Global) -> Result<(Board<Simple>, Seat<Simple>), AllocError>
    ensures seat { IfOk result (λ r. IsSeatOf r.0 r.1 × (view r.1 ≡ first_view r.0.plan r.0.pieces)) }
    ensures shape { IfOk result (λ r. (r.0.plan.places ≡ 2) × (r.0.plan.words ≡ 1)) }
    ensures faces { IfOk result (λ r. (planned_face r.0.plan 0 ≡ 1) × (planned_face r.0.plan 1 ≡ 10)) }
    ensures pieces { IfOk result (λ r. ((p : Simple) × (get_elem? r.0.pieces 0 ≡ some p)) × ((p : Simple) × (get_elem? r.0.pieces 1 ≡ some p))) }
{
    let shape = Shape {
        places: 2,
        words: 1,
    };
    match Board::make(alloc, shape, two_pieces(alloc)?) {
        Ok(both) => Ok(both),
        Err(MakeFault::NoMemory(pieces)) => {
            assert!(rt; pieces.len() == 2);
            Err(AllocError)
        }
    }
}

// Draws the next task, which is this one, makes its add before its put, and gives the next piece.
fn work(rt: &impl Abort, board: &Board<Simple>, seat: &mut Seat<Simple>, want: u32)
    requires seat { IsSeatOf board.now seat.old }
    requires none { HoldsNone (view seat.old) }
    requires here { (view seat.old).past ≡ false }
    ensures seat { IsSeatOf board.now seat.new }
    ensures none { HoldsNone (view seat.new) }
    ensures same { ((view seat.new).share ≡ (view seat.old).share) × ((view seat.new).past ≡ false) }
{
    let Some(task) = board.draw(seat) else {
        panic!(rt; "no task");
    };
    let mut piece = board.take(seat, task);
    board.add(seat, 0, piece.amount);
    board.put(seat, piece.task, piece.value);
    assert!(rt; task == want && !piece.done);
    piece.done = true;
    board.give(seat, task, piece);
}

// Looks at a place, where this is to be found.
fn look(
    rt: &impl Abort,
    board: &Board<Simple>,
    seat: &mut Seat<Simple>,
    place: u32,
    want: Option<u64>,
)
    requires seat { IsSeatOf board.now seat.old }
    requires place { place < board.now.plan.places }
    ensures seat { IsSeatOf board.now seat.new }
    ensures same { ((view seat.new).tasks ≡ (view seat.old).tasks) × ((view seat.new).share ≡ (view seat.old).share)
        × ((view seat.new).past ≡ (view seat.old).past) }
{
    let found = board.face(seat, place);
    assert!(rt; found == want);
}

// Finds that no task is left.
fn finish(rt: &impl Abort, board: &Board<Simple>, seat: &mut Seat<Simple>)
    requires seat { IsSeatOf board.now seat.old }
    requires none { HoldsNone (view seat.old) }
    requires here { (view seat.old).past ≡ false }
    ensures seat { IsSeatOf board.now seat.new }
    ensures none { HoldsNone (view seat.new) }
    ensures share { (view seat.new).share ≡ (view seat.old).share }
    ensures past { (view seat.new).past ≡ true }
{
    if board.draw(seat).is_some() {
        panic!(rt; "a task is left");
    }
}

// The first seat makes the posts of task 0, and the second those of task 1.
fn run(
    rt: &impl Abort,
    board: &Board<Simple>,
    mut one: Seat<Simple>,
    mut two: Seat<Simple>,
) -> Seat<Simple>
    requires places { board.now.plan.places ≡ 2 }
    requires one { IsSeatOf board.now one × HoldsNone (view one) × ((view one).past ≡ false) }
    requires two { IsSeatOf board.now two × HoldsNone (view two) × ((view two).past ≡ false) }
    ensures seat { IsSeatOf board.now result }
    ensures none { HoldsNone (view result) }
    ensures past { (view result).past ≡ true }
    ensures share { (view result).share ≡ (view one).share + (view two).share }
{
    look(rt, board, &mut one, 0, None);
    look(rt, board, &mut two, 0, None);
    work(rt, board, &mut one, 0);
    look(rt, board, &mut one, 0, Some(0));
    look(rt, board, &mut two, 0, Some(0));
    look(rt, board, &mut one, 1, None);
    work(rt, board, &mut two, 1);
    finish(rt, board, &mut one);
    finish(rt, board, &mut two);
    board.join(&mut one, two);
    look(rt, board, &mut one, 0, Some(0));
    look(rt, board, &mut one, 1, Some(9));
    one
}

fn check(rt: &impl Abort, mut ended: Ended<Simple>)
    requires shape { (ended.places ≡ 2) × (ended.registers ≡ 1) }
    requires faces { (face_of ended 0 ≡ 1) × (face_of ended 1 ≡ 10) }
    requires first { (p : Simple) × (get_elem? ended.pieces 0 ≡ some (Some p)) }
    requires second { (p : Simple) × (get_elem? ended.pieces 1 ≡ some (Some p)) }
{
    assert!(rt; ended.total(0) == 8);
    assert!(rt; ended.face(0) == 0);
    assert!(rt; ended.face(1) == 9);
    let second = ended.hand(1);
    let first = ended.hand(0);
    assert!(rt; first.task == 0 && first.done && second.task == 1 && second.done);
}

#[test]
fn two_seats_in_either_order(rt: HostRuntime) -> Result<(), Fail> {
    let (board, mut seat) = opened(&rt, rt.alloc())?;
    let other = board.split(&mut seat);
    let last = run(&rt, &board, seat, other);
    check(&rt, board.close(last));
    let (board, mut seat) = opened(&rt, rt.alloc())?;
    let other = board.split(&mut seat);
    let last = run(&rt, &board, other, seat);
    check(&rt, board.close(last));
    Ok(())
}
