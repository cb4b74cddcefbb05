//! Laws of the machine over every list of events.
ghost use Rattle.std.specs.Prelude.{ℕ, ◌+◌, ◌<◌, ◌≡◌, ◌↔◌, true, None, [], ◌∷◌, length};
ghost use Rattle.amr_phase.specs.declared.machine.Event.{Event};
ghost use Rattle.amr_phase.specs.Plans.{PlanOf, IsPlan, IsLayout, is_plan, puts_of, put_at, planned_face};
ghost use Rattle.amr_phase.specs.Machine.{CoreOf, next_of, after};
ghost use Rattle.amr_phase.specs.Laws.{IsReached, WordsAreSums, PlacesAreEmptyOrPlanned, DrawnAreBelowCounter, HasOneWorker, HasOneTask, EndsAsPlanned};

/// What holds of every state that a list of events leads to, each event enabled or not, in every order and by any number
/// of workers. It does nothing: it stands for its contract.
pub fn every_list_of_events()
    ensures words { (c : CoreOf) → IsReached c → WordsAreSums c }
    ensures places { (c : CoreOf) → IsReached c → PlacesAreEmptyOrPlanned c }
    ensures counter { (c : CoreOf) → IsReached c → DrawnAreBelowCounter c }
    ensures one_worker { (c : CoreOf) → IsReached c → HasOneWorker c }
    ensures one_task { (c : CoreOf) → IsReached c → HasOneTask c }
    ensures complete { (c : CoreOf) → IsReached c → EndsAsPlanned c }
    ensures disabled { (c : CoreOf) (e : Event) → next_of c e ≡ None → after c (e ∷ []) ≡ c }
{}

/// The test of a plan says what a plan is. It does nothing: it stands for its contract.
pub fn tests_of_plans()
    ensures { (plan : PlanOf) → (is_plan plan ≡ true) ↔ IsPlan plan }
{}

/// What a layout promises: where its puts name places apart it is a plan, and each put of a plan is what the plan has at
/// its place. It does nothing: it stands for its contract.
pub fn layouts_and_plans()
    ensures layout { (plan : PlanOf) → IsLayout plan → IsPlan plan }
    ensures put { (plan : PlanOf) (task put : ℕ) → IsPlan plan → put < length (puts_of plan task)
        → planned_face plan (put_at plan task put).at ≡ (put_at plan task put).amount + 1 }
{}
