//! Laws. Each call has an empty body, and what it ensures is the law.
ghost use Rattle.std.specs.Prelude.{ℕ, ◌≤◌, List, Option};
ghost use Rattle.amr_def.specs.declared.problem.Problem.{Problem};
ghost use Rattle.amr_checkpoint.specs.Contents.{Content};
ghost use Rattle.amr_checkpoint.specs.Laws.{AcknowledgesMarks, CheckpointsRise, CheckpointsRunOn, CreationHolds, GoesOnOrRefuses, HoldsOne, HoldsSome};
ghost use Rattle.amr_checkpoint.specs.Laws.{HoldsSound, IsLeftBy, NotBoth, NotBothShown, PutHolds, RecordHolds, RefusesOnce, RenewalHolds, RunsOn, SameRun};
ghost use Rattle.amr_checkpoint.specs.Laws.{ShowsOrRefuses};
ghost use Rattle.amr_checkpoint.specs.Marks.{to_make};
ghost use Rattle.amr_checkpoint.specs.Times.{Time, StopsLeave};

use amr_disk::Disk;

/// An image holds one content: at most one, and at least one where the bytes of its problem are judged.
pub fn image_holds_one()
    ensures most { HoldsOne }
    ensures least { HoldsSome }
{}

/// A state that an image is at is sound, and a state of the problem that the image's bytes are.
pub fn stored_state_is_sound()
    ensures { HoldsSound }
{}

/// What a creation, a put, whole or of a record, and a renewal make is held: no state yet, or the state that was put.
pub fn what_is_made_is_held()
    ensures creation { CreationHolds }
    ensures put { PutHolds }
    ensures recorded { RecordHolds }
    ensures renewal { RenewalHolds }
{}

/// What is stored lets a run go on or refuses it, not both, and refuses it in one way. So it is with what is shown.
pub fn run_goes_on_or_is_refused()
    ensures either { GoesOnOrRefuses }
    ensures not_both { NotBoth }
    ensures once { RefusesOnce }
    ensures shown { ShowsOrRefuses }
    ensures not_both_shown { NotBothShown }
{}

/// What a run makes of a store goes further each time: a checkpoint never goes back. All of it is acknowledged by one line for
/// each mark, in order.
pub fn checkpoints_rise()
    ensures rise { CheckpointsRise }
    ensures lines { AcknowledgesMarks }
{}

/// Where what was found was left by runs of the problem, so is all that the run makes of it. The run goes on from it as if it
/// had never stopped: to the same state, with the same plot.
pub fn same_run()
    ensures checkpoints { CheckpointsRunOn }
    ensures same { SameRun }
{}

/// A run that found what runs of the problem left: at each moment from then on a stop leaves an image from which the bytes of
/// the run follow.
pub fn stops_leave_the_run<D: Disk>(disk: &D)
    ensures { (found : Time) (now : ℕ) (bytes : List ℕ) (p : Problem) (every target : ℕ) (times : List Time) (attempt : Option Content)
        → StopsLeave (D.leaves disk.now) found now (to_make bytes p every found.content target) times attempt → RunsOn bytes p target found.content
        → (t : ℕ) (image : List ℕ) → found.moment ≤ t → t ≤ now → D.leaves disk.now t image → IsLeftBy bytes p target image }
{}
