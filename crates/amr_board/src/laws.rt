//! Laws of a running board.
ghost use Rattle.std.specs.Prelude.{◌+◌, ◌<◌, ◌≤◌, ◌≡◌, ◌≢◌, ℕ, true, List, [], ◌∷◌, ◌++◌, Option, length, slice_index_or, slice_set};
ghost use mathlib.Core.Option.{some};
ghost use lib.ListN.{get_elem?};
ghost use Rattle.atomic_table.specs.Table.{State};
ghost use Rattle.amr_phase.specs.declared.plan.Post.{Post};
ghost use Rattle.amr_phase.specs.Plans.{PlanOf, IsPlan, total, added, stored, no_post, puts_of, adds_of, planned_total, planned_face};
ghost use Rattle.amr_phase.specs.Machine.{CoreOf};
ghost use Rattle.amr_phase.specs.Laws.{IsReached};
ghost use Rattle.amr_board.specs.declared.view.Deed.{Deed};
ghost use Rattle.amr_board.specs.declared.view.View.{View};
ghost use Rattle.amr_board.specs.declared.rule.BoardSetup.{BoardSetup};
ghost use Rattle.amr_board.specs.Piece.{plan_of};
ghost use Rattle.amr_board.specs.Core.{IsCore, Shows, event_of};
ghost use Rattle.amr_board.specs.Rule.{Rule};
ghost use Rattle.amr_board.specs.Steps.{IsSeen, Leaves, GrowsBy, HasNoEvent};
ghost use Rattle.amr_board.specs.Posts.{HasPosted, HasLooked};
ghost use Rattle.amr_board.specs.Views.{current, HoldsNone, IsHolding, IsFresh, IsNextPut, IsNextAdd, HasWorked, put_done};
ghost use Rattle.amr_board.specs.Views.{add_done, looked, keeps_half, other_half, joined, spent_view};

use crate::piece::Piece;
use crate::rule::{BoardRule, BoardSetup};
use crate::view::View;
use atomic_table::TableRule;

/// Whatever workers do on a board: what its table keeps at each moment is the rule, so each number drawn stands in one
/// view. Words, slots and views that meet the rule show a state of the machine that the events made so far lead to,
/// each enabled where it came. That state is a reached one, so each law of the machine over every list of events holds
/// of it. It does nothing: it stands for its contract.
pub fn running_board_is_the_core<P: Piece>()
    ensures kept { (about : BoardSetup P) (s : State (Option P) (View P)) → ⟦<BoardRule<P> as TableRule<Option<P>, View<P>, BoardSetup<P>>>⟧.holds about s
        → Rule (plan_of P.puts P.adds about.shape.places about.shape.words about.pieces.value.items) about.pieces.value.items P.becomes s }
    ensures core { (plan : PlanOf) (pieces : List P) (s : State (Option P) (View P)) → Rule plan pieces P.becomes s → IsCore plan s }
    ensures reached { (plan : PlanOf) (pieces : List P) (s : State (Option P) (View P)) (workers : ℕ) → Rule plan pieces P.becomes s
        → length s.views ≤ workers → (c : CoreOf) × IsReached c × Shows plan s c }
{}

/// Each deed of a seat keeps the rule and is the next event of the machine, whatever the events before: the list of
/// events grows by this one alone. A split and a join are no events. It does nothing: it stands for its contract.
pub fn each_deed_is_one_event<P: Piece>()
    ensures rule { (plan : PlanOf) (pieces : List P) (s t : State (Option P) (View P)) (seat : ℕ) (v : View P) (deed : Deed) → Rule plan pieces P.becomes s
        → IsSeen s seat v → Leaves P.becomes s seat v deed t → Rule plan pieces P.becomes t }
    ensures event { (plan : PlanOf) (pieces : List P) (s t : State (Option P) (View P)) (seat : ℕ) (v : View P) (deed : Deed) → Rule plan pieces P.becomes s
        → IsSeen s seat v → Leaves P.becomes s seat v deed t → GrowsBy plan s t (event_of seat deed) }
    ensures split { (plan : PlanOf) (pieces : List P) (s : State (Option P) (View P)) (seat : ℕ) (v : View P) → Rule plan pieces P.becomes s → IsSeen s seat v
        → HasNoEvent plan s (record { words = s.words; homes = s.homes; views = slice_set s.views seat (keeps_half v) ++ other_half v ∷ [] }) }
    ensures join { (plan : PlanOf) (pieces : List P) (s : State (Option P) (View P)) (seat other : ℕ) (v w : View P) → Rule plan pieces P.becomes s
        → IsSeen s seat v → IsSeen s other w → other ≢ seat → HoldsNone w
        → HasNoEvent plan s (record { words = s.words; homes = s.homes; views = slice_set (slice_set s.views seat (joined v w)) other spent_view }) }
{}

/// Posts made one by one: a put or an add of the task that the seat holds is one more, and all else stays. From a task
/// that was just taken they lead to the conditions of `put`, `add` and, once all are made, `give`; looks may follow them.
/// It does nothing: it stands for its contract.
pub fn posts_in_a_loop<P: Piece>()
    ensures none { (v : View P) → HasPosted v v 0 0 }
    ensures put { (v w : View P) (puts adds place : ℕ) → 0 < length v.tasks → HasPosted v w puts adds → HasPosted v (put_done w place) (puts + 1) adds }
    ensures add { (v w : View P) (puts adds : ℕ) → 0 < length v.tasks → HasPosted v w puts adds → HasPosted v (add_done w) puts (adds + 1) }
    ensures next_put { (v w : View P) (puts adds place amount : ℕ) → IsFresh v → HasPosted v w puts adds → puts < length (puts_of v.plan (current v).task)
        → slice_index_or (puts_of v.plan (current v).task) puts no_post ≡ record { at = place; amount = amount } → IsNextPut w place amount }
    ensures next_add { (v w : View P) (puts adds word amount : ℕ) → IsFresh v → HasPosted v w puts adds → adds < length (adds_of v.plan (current v).task)
        → slice_index_or (adds_of v.plan (current v).task) adds no_post ≡ record { at = word; amount = amount } → IsNextAdd w word amount }
    ensures worked { (v w u : View P) (puts adds looks : ℕ) → IsFresh v → HasPosted v w puts adds → HasLooked w u looks
        → puts ≡ length (puts_of v.plan (current v).task) → adds ≡ length (adds_of v.plan (current v).task) → HasWorked v.plan v u }
    ensures give { (plan : PlanOf) (v u : View P) → IsFresh v → HasWorked plan v u → IsHolding u (current v).task true }
{}

/// Looks, and nothing else. It does nothing: it stands for its contract.
pub fn looks_alone<P: Piece>()
    ensures none { (v : View P) → HasLooked v v 0 }
    ensures once { (v : View P) (place found : ℕ) → HasLooked v (looked v place found) 1 }
    ensures more { (v w u : View P) (m n : ℕ) → HasLooked v w m → HasLooked w u n → HasLooked v u (m + n) }
{}

/// The plan of a list of pieces. What is planned at a word or a place is a sum over the pieces, and at the place of a
/// piece's put it is what that put stores. It does nothing: it stands for its contract.
pub fn plans_of_pieces<P: Piece>()
    ensures totals { (places words : ℕ) (pieces : List P) (word : ℕ)
        → planned_total (plan_of P.puts P.adds places words pieces) word ≡ total (λ (p : P). total (added word) (P.adds p)) pieces }
    ensures faces { (places words : ℕ) (pieces : List P) (place : ℕ)
        → planned_face (plan_of P.puts P.adds places words pieces) place ≡ total (λ (p : P). total (stored place) (P.puts p)) pieces }
    ensures put { (places words : ℕ) (pieces : List P) (task k : ℕ) (p : P) (put : Post) → IsPlan (plan_of P.puts P.adds places words pieces)
        → get_elem? pieces task ≡ some p → get_elem? (P.puts p) k ≡ some put
        → planned_face (plan_of P.puts P.adds places words pieces) put.at ≡ put.amount + 1 }
{}
