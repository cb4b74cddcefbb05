//! Workers in threads that last from one phase to the next, and the phases that they run.
ghost use Rattle.std.specs.Prelude.{◌≡◌, ℕ, ◌+◌, ◌<◌, ◌≤◌, ◌^◌, true, false, [], length, IfOk, Some};
ghost use Rattle.std.specs.List.{All, AllZip};
ghost use Rattle.std.specs.Arc.{arc_value};
ghost use Rattle.std.specs.Vec.{vec_capacity};
ghost use mathlib.Core.Option.{some};
ghost use lib.ListN.{get_elem?};
ghost use Rattle.amr_phase.specs.Plans.{planned_total, planned_face};
ghost use Rattle.amr_board.specs.Views.{HoldsNone};
ghost use Rattle.amr_board.specs.BoardOf.{IsSeatOf, view};
ghost use Rattle.amr_board.specs.Ended.{total_of, face_of};
ghost use Rattle.amr_mailbox.specs.declared.view.Turn.TheVariants.{Free, Over};
ghost use Rattle.amr_mailbox.specs.MailboxOf.{end_of};
ghost use Rattle.amr_workers.specs.Asked.{IsOut, Keeps};
ghost use Rattle.amr_workers.specs.Orders.{MayDraw, HasDrawn, IsReady, Admits, MayAsk, Serves};
ghost use Rattle.amr_workers.specs.Helpers.{AdmitsWorker, HaveNumbers, IsHelper, IsRecruit};
ghost use Rattle.amr_workers.specs.Shares.{MayLend, whole};

use crate::asked::Asked;
use crate::gate::Gate;
use crate::helper::{Helper, Recruit, new_worker};
use crate::job::Job;
use crate::order::DrawOrder;
use crate::phase::draw_all;
use crate::shared::sole;
use crate::shares::Shares;
use amr_board::{Board, Ended, Piece, Seat};
use std::alloc::{AllocError, AllocFailed, Global};
use std::marker::Model;
use std::mem::replace;
use std::sync::{Arc, Wait};
use std::thread::yield_now;

// How often a team looks for workers who have not begun.
const LOOKS: u32 = 1 << 20;

/// A team of kept workers for phases of one job under one gate. Its caller works too, as worker 0.
#[derive(Drop)]
pub struct Team<'a, P: Piece, J: Job<P>, G: Gate> {
    helpers: Vec<Helper<P, J, G>>,
    // Those who were asked, while a phase is run. It has room for all.
    asked: Vec<Asked<P, J, G>>,
    job: &'a J,
    gate: &'a G,
}

impl<'a, P: Piece, J: Job<P>, G: Gate> Model for Team<'a, P, J, G> {
    ghost use Rattle.std.specs.Prelude.{◌≡◌, ◌+◌, ◌<◌, ◌≤◌, [], length};
    ghost use Rattle.std.specs.List.{All};
    ghost use Rattle.std.specs.Arc.{arc_value};
    ghost use Rattle.std.specs.Vec.{vec_capacity};
    ghost use Rattle.amr_workers.specs.Helpers.{IsHelper};
    ghost use Rattle.amr_workers.specs.TeamOf.{TeamOf};

    ghost Value = { TeamOf J G };

    ghost view = { λ t. record { job = t.job.now; gate = t.gate.now; workers = 1 + length t.helpers.items } };

    ghost invariant = { λ t. All (λ h. IsHelper t.job.now t.gate.now (1 + length t.helpers.items) (arc_value h.mailbox) h.asker) t.helpers.items
        × (length t.helpers.items < 64) × (t.asked.items ≡ []) × (length t.helpers.items ≤ vec_capacity t.asked) };
}

impl<'a, P: Piece, J: Job<P>, G: Gate> Team<'a, P, J, G> {
    /// A team of so many workers, its caller among them, and those that have to begin ([`serve_all`](crate::serve_all)), with
    /// numbers from 1 on. All memory is taken here.
    pub fn hire(
        alloc: Global,
        job: &'a J,
        gate: &'a G,
        workers: u32,
    ) -> Result<(Team<'a, P, J, G>, Vec<Recruit<P, J, G>>), AllocError>
        requires some { 1 ≤ workers }
        requires few { workers ≤ 64 }
        ensures team { IfOk result (λ r. r.0 ≡ record { job = job.now; gate = gate.now; workers = workers }) }
        ensures recruits { IfOk result (λ r. All (λ h. IsRecruit job.now gate.now (arc_value h.mailbox) h.worker h.number) r.1.items) }
        ensures numbers { IfOk result (λ r. HaveNumbers workers r.1.items) }
    {
        let mut helpers = Vec::new(alloc);
        let mut recruits = Vec::new(alloc);
        for number in 1..workers {
            let (helper, recruit) = new_worker(alloc, job, gate, number)?;
            helpers.push(helper)?;
            recruits.push(recruit)?;
        }
        let asked = Vec::with_capacity(alloc, helpers.len())?;
        Ok((Team::new(job, gate, helpers, asked), recruits))
    }

    // A team of these kept workers, each of whom waits for an order, and its caller.
    fn new(
        job: &'a J,
        gate: &'a G,
        helpers: Vec<Helper<P, J, G>>,
        asked: Vec<Asked<P, J, G>>,
    ) -> Team<'a, P, J, G>
        requires helpers { All (λ h. IsHelper job.now gate.now (1 + length helpers.items) (arc_value h.mailbox) h.asker) helpers.items }
        requires few { length helpers.items < 64 }
        requires nobody_asked { asked.items ≡ [] }
        requires room { length helpers.items ≤ vec_capacity asked }
        ensures { result ≡ record { job = job.now; gate = gate.now; workers = 1 + length helpers.items } }
    {
        Team {
            helpers,
            asked,
            job,
            gate,
        }
    }

    /// Waits until each kept worker has begun, but not for ever: where no thread can be had for one, it begins after the
    /// others have ended. Phases go on without those who are not there.
    pub fn gather(&self) {
        for _ in 0..LOOKS {
            if are_there(&self.helpers) {
                return;
            }
            yield_now();
        }
    }

    /// Runs all tasks of a board and closes it. The seat is its only one, and holds no task. The gate is handed the
    /// numbers of the team's workers, and of tasks of the plan. At most as many workers are asked as there are tasks, the caller
    /// among them. Once the caller finds no task left it draws on the seats of those who have not begun. Where there is no memory
    /// to share the board, the caller draws all tasks itself.
    pub fn run_phase<W: Wait>(
        &mut self,
        rt: &W,
        alloc: Global,
        board: Board<P>,
        seat: Seat<P>,
    ) -> Ended<P>
        requires seat { IsSeatOf board seat }
        requires none { HoldsNone (view seat) }
        requires here { (view seat).past ≡ false }
        requires alone { (view seat).share ≡ 2 ^ 32 }
        requires ready { (t : ℕ) (p : P) → get_elem? board.pieces t ≡ some p → J.ready self.old.job board.plan p }
        requires gate { (worker task : ℕ) → worker < self.old.workers → task < length board.plan.tasks → G.admits self.old.gate worker task }
        ensures team { self.new ≡ self.old }
        ensures shape { (result.places ≡ board.plan.places) × (result.registers ≡ board.plan.words) }
        ensures totals { (w : ℕ) → w < board.plan.words → total_of result w ≡ planned_total board.plan w }
        ensures faces { (p : ℕ) → p < board.plan.places → face_of result p ≡ planned_face board.plan p }
        ensures pieces { (t : ℕ) (p : P) → get_elem? board.pieces t ≡ some p → (y : P) × P.becomes p y × (get_elem? result.pieces t ≡ some (Some y)) }
    {
        let shared = match Arc::new(alloc, board) {
            Ok(shared) => shared,
            Err(AllocFailed { value: board }) => {
                let mut seat = seat;
                draw_all(&board, &mut seat, self.job, self.gate, 0);
                return board.close(seat);
            }
        };
        let seats = Shares::of(&shared, seat);
        let most = shared.tasks().saturating_sub(1);
        let seat = run_with(
            rt,
            &mut self.helpers,
            &mut self.asked,
            &shared,
            seats,
            most,
            self.job,
            self.gate,
        );
        sole(rt, shared).close(seat)
    }

    /// Lets the kept workers go, each of whom then returns. The caller stays alone.
    pub fn dismiss(&mut self) -> Vec<Helper<P, J, G>>
        ensures alone { self.new ≡ record { job = self.old.job; gate = self.old.gate; workers = 1 } }
        ensures over { All (λ h. h.asker ≡ end_of (arc_value h.mailbox) Over) result.items }
        ensures count { 1 + length result.items ≡ self.old.workers }
    {
        let alloc = *self.helpers.allocator();
        let mut helpers = replace(&mut self.helpers, Vec::new(alloc));
        dismiss_all(&mut helpers);
        helpers
    }
}

// Whether each of these kept workers has begun.
fn are_there<P: Piece, J: Job<P>, G: Gate>(helpers: &[Helper<P, J, G>]) -> bool {
    for helper in helpers {
        if !helper.is_there() {
            return false;
        }
    }
    true
}

// Dismisses each kept worker.
fn dismiss_all<P: Piece, J: Job<P>, G: Gate>(helpers: &mut Vec<Helper<P, J, G>>)
    requires { All (λ h. h.asker ≡ end_of (arc_value h.mailbox) Free) helpers.old.items }
    ensures over { All (λ h. h.asker ≡ end_of (arc_value h.mailbox) Over) helpers.new.items }
    ensures count { length helpers.new.items ≡ length helpers.old.items }
    ensures room { vec_capacity helpers.new ≡ vec_capacity helpers.old }
{
    let Some(mut helper) = helpers.pop() else {
        return;
    };
    dismiss_all(helpers);
    helper.dismiss();
    helpers.push_reserved(helper);
}

// Takes back each order that its worker has not begun, and draws on its seat. A later one's worker may begin meanwhile.
fn take_back_all<P: Piece, J: Job<P>, G: Gate>(job: &J, gate: &G, asked: &mut [Asked<P, J, G>])
    requires { All (IsOut (MayAsk (J.ready job.now) (G.admits gate.now 0))) asked.old }
    ensures { AllZip (Keeps Serves) asked.old asked.new }
{
    for k in 0..asked.len() {
        asked[k].take_back(job, gate);
    }
}

// The caller draws the tasks of a board until none is left, and then takes back what nobody has begun.
fn draw_rest<P: Piece, J: Job<P>, G: Gate>(
    asked: &mut [Asked<P, J, G>],
    board: &Board<P>,
    seats: Shares<P>,
    job: &J,
    gate: &G,
) -> Seat<P>
    requires seats { MayLend board.now 0 seats }
    requires asked { All (IsOut (MayAsk (J.ready job.now) (G.admits gate.now 0))) asked.old }
    requires ready { IsReady (J.ready job.now) board.now }
    requires caller { Admits (G.admits gate.now 0) board.now }
    ensures seat { HasDrawn board.now (whole seats) result }
    ensures asked { AllZip (Keeps Serves) asked.old asked.new }
{
    let mut seat = seats.joined(board);
    draw_all(board, &mut seat, job, gate, 0);
    take_back_all(job, gate, asked);
    seat
}

// The caller and at most so many of these kept workers draw the tasks of a board until none is left, while those who were
// asked before do so. The seat of each kept worker has drawn its first task when it is asked, in the same order in each phase: so
// the same worker mostly meets the same task. Before the caller waits for anybody it has taken back what nobody has begun.
fn run_with<W: Wait, P: Piece, J: Job<P>, G: Gate>(
    rt: &W,
    helpers: &mut Vec<Helper<P, J, G>>,
    asked: &mut Vec<Asked<P, J, G>>,
    board: &Arc<Board<P>, Global>,
    seats: Shares<P>,
    most: u32,
    job: &J,
    gate: &G,
) -> Seat<P>
    requires seats { MayLend (arc_value board.now) (length helpers.old.items) seats }
    requires helpers { All (λ h. IsHelper job.now gate.now 64 (arc_value h.mailbox) h.asker) helpers.old.items }
    requires asked { All (IsOut (MayAsk (J.ready job.now) (G.admits gate.now 0))) asked.old.items }
    requires asked_room { length helpers.old.items + length asked.old.items ≤ vec_capacity asked.old }
    requires ready { IsReady (J.ready job.now) (arc_value board.now) }
    requires gate { All (λ h. AdmitsWorker (G.admits gate.now) (arc_value h.mailbox) (arc_value board.now)) helpers.old.items }
    requires caller { Admits (G.admits gate.now 0) (arc_value board.now) }
    ensures seat { HasDrawn (arc_value board.now) (whole seats) result }
    ensures helpers { helpers.new.items ≡ helpers.old.items }
    ensures helper_room { vec_capacity helpers.new ≡ vec_capacity helpers.old }
    ensures asked { AllZip (Keeps Serves) asked.old.items asked.new.items }
    ensures asked_room { vec_capacity asked.new ≡ vec_capacity asked.old }
{
    if most == 0 {
        return draw_rest(asked, board, seats, job, gate);
    }
    let Some(helper) = helpers.pop() else {
        return draw_rest(asked, board, seats, job, gate);
    };
    let Ok(shared) = helper.share(board) else {
        let seat = run_with(rt, helpers, asked, board, seats, most, job, gate);
        helpers.push_reserved(helper);
        return seat;
    };
    let (mut seat, others) = seats.lend(board);
    let Some(task) = board.draw(&mut seat) else {
        let mut all = draw_rest(asked, board, others, job, gate);
        board.join(&mut all, seat);
        helpers.push_reserved(helper);
        return all;
    };
    let order = DrawOrder {
        board: shared,
        seat,
        task,
    };
    asked.push_reserved(Asked::new(helper, order));
    let mut all = run_with(rt, helpers, asked, board, others, most - 1, job, gate);
    let Some(last) = asked.pop() else {
        unreachable!()
    };
    let (back, helper) = last.finish(rt);
    board.join(&mut all, back);
    helpers.push_reserved(helper);
    all
}
