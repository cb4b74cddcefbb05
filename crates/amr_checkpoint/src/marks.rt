//! The steps at which a checkpoint is put.
ghost use Rattle.std.specs.Prelude.{◌≡◌, ◌<◌};
ghost use Rattle.amr_checkpoint.specs.Marks.{is_mark};

/// Whether a checkpoint is put at a step of a run: at each multiple of `every`, but 0, and at the step that the run goes to.
pub fn is_mark(every: u32, target: u32, step: u32) -> bool
    requires { 0 < every }
    ensures { result ≡ is_mark every target step }
{
    step == target || (step > 0 && step % every == 0)
}
