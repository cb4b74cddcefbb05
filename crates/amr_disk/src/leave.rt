//! What a stop leaves of a disk in memory.
ghost use Rattle.std.specs.Prelude.{◌≡◌, ◌≤◌, ◌<◌, ◌+◌, ◌^◌, List, [], ◌∷◌, length, max, drop, vec_len, vec_capacity};
ghost use Rattle.amr_disk.specs.Calls.{left_after};
ghost use Rattle.amr_disk.specs.Left.{part_of};
ghost use Rattle.amr_disk.specs.Log.{calls_of, size_of, reach_of};
ghost use Rattle.amr_disk.specs.declared.step.Step.{Step};

use crate::buffer::{fill, place, refill};
use crate::step::Step;

/// What a stop leaves of each write that no sync followed.
#[derive(Clone, Copy, Debug, PartialEq, Eq)]
pub enum Leave {
    /// Nothing of it.
    Old,
    /// All of it.
    New,
    /// This byte throughout its range and any gap before it.
    Filled(u8),
}

// Leaves a write as the mode says.
fn leave_part(mode: Leave, image: &mut Vec<u8>, at: usize, chunk: &[u8])
    requires room { at + length chunk.now ≤ vec_capacity image.old }
    ensures items { image.new.items ≡ part_of mode at chunk.now image.old.items }
    ensures room { vec_capacity image.old ≤ vec_capacity image.new }
{
    match mode {
        Leave::Old => {}
        Leave::New => place(image, at, chunk),
        Leave::Filled(byte) => fill(image, at, chunk.len(), byte),
    }
}

// Takes a step of the log again: what was written goes into `made`, what is left of it into the image. Gives where the bytes of the
// next step start.
pub fn replay(
    mode: Leave,
    step: Step,
    written: &[u8],
    start: usize,
    made: &mut Vec<u8>,
    image: &mut Vec<u8>,
) -> usize
    requires within { start + size_of (step ∷ []) ≤ length written.now }
    requires made_room { reach_of (step ∷ []) ≤ vec_capacity made.old }
    requires image_room { reach_of (step ∷ []) ≤ vec_capacity image.old }
    requires small { reach_of (step ∷ []) < 2 ^ 64 }
    requires fits { vec_len made.old ≤ vec_capacity image.old }
    ensures end { result ≡ start + size_of (step ∷ []) }
    ensures left { (rest : List Step)
        → left_after (part_of mode) image.new.items made.new.items (calls_of rest (drop result written.now))
        ≡ left_after (part_of mode) image.old.items made.old.items (calls_of (step ∷ rest) (drop start written.now)) }
    ensures made_fits { vec_len made.new ≤ max (vec_len made.old) (reach_of (step ∷ [])) }
    ensures image_fits { vec_len image.new ≤ max (max (vec_len image.old) (vec_len made.old)) (reach_of (step ∷ [])) }
    ensures made_grows { vec_capacity made.old ≤ vec_capacity made.new }
    ensures image_grows { vec_capacity image.old ≤ vec_capacity image.new }
{
    match step {
        Step::Write { at, len } => {
            let chunk = &written[start..start + len];
            leave_part(mode, image, at, chunk);
            place(made, at, chunk);
            start + len
        }
        Step::Sync => {
            refill(image, made);
            start
        }
    }
}
