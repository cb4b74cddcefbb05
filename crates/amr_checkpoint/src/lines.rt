//! The lines of checkpoints and of refusals.
ghost use Rattle.std.specs.Prelude.{◌≡◌, OnOk, OnErr};
ghost use Rattle.amr_causes.specs.Causes.{HasCause};
ghost use Rattle.amr_causes.specs.Bytes.{Grows};
ghost use Rattle.amr_io.specs.Short.{FallsShort};
ghost use Rattle.amr_checkpoint.specs.Marks.{checkpoint_line};
ghost use Rattle.amr_checkpoint.specs.Refusals.{refusal_line};

use crate::refusal::Refusal;
use amr_io::{Fragment, Sink, WriteFault, write_fragments};
use amr_store::Part;

/// Writes the line that a checkpoint of this step has, all of it where no fault comes, and otherwise a prefix that isn't the whole.
pub fn put_checkpoint_line<E: Sink>(err: &mut E, step: u32) -> Result<(), WriteFault>
    ensures whole { OnOk result (Grows E.holds err.old err.new (checkpoint_line step)) }
    ensures short { OnErr result (FallsShort E.holds err.old err.new (checkpoint_line step)) }
    ensures cause { HasCause (E.faults err.old) (E.faults err.new) result }
    ensures no_fault { OnOk result (E.faults err.new ≡ E.faults err.old) }
{
    write_fragments(
        err,
        &[
            Fragment::Str("checkpoint "),
            Fragment::Number(u64::from(step)),
            Fragment::Str("\n"),
        ],
    )
}

/// Writes the line of a refusal, all of it where no fault comes, and otherwise a prefix that isn't the whole.
pub fn put_refusal<E: Sink>(err: &mut E, refusal: Refusal) -> Result<(), WriteFault>
    ensures whole { OnOk result (Grows E.holds err.old err.new (refusal_line refusal)) }
    ensures short { OnErr result (FallsShort E.holds err.old err.new (refusal_line refusal)) }
    ensures cause { HasCause (E.faults err.old) (E.faults err.new) result }
    ensures no_fault { OnOk result (E.faults err.new ≡ E.faults err.old) }
{
    match refusal {
        Refusal::Damaged(part) => put_damaged(err, part),
        Refusal::WrongProblem { kept, given, place } => write_fragments(
            err,
            &[
                Fragment::Str("amr: store holds another problem: "),
                Fragment::Number(kept),
                Fragment::Str(" "),
                Fragment::Number(given),
                Fragment::Str(" at "),
                Fragment::Number(place),
                Fragment::Str("\n"),
            ],
        ),
        Refusal::Ahead { stored, target } => write_fragments(
            err,
            &[
                Fragment::Str("amr: store is ahead: "),
                Fragment::Number(u64::from(stored)),
                Fragment::Str(" "),
                Fragment::Number(u64::from(target)),
                Fragment::Str("\n"),
            ],
        ),
        Refusal::Empty => write_fragments(err, &[Fragment::Str("amr: store is empty\n")]),
    }
}

fn put_damaged<E: Sink>(err: &mut E, part: Part) -> Result<(), WriteFault>
    ensures whole { OnOk result (Grows E.holds err.old err.new (refusal_line (Refusal.Damaged part))) }
    ensures short { OnErr result (FallsShort E.holds err.old err.new (refusal_line (Refusal.Damaged part))) }
    ensures cause { HasCause (E.faults err.old) (E.faults err.new) result }
    ensures no_fault { OnOk result (E.faults err.new ≡ E.faults err.old) }
{
    match part {
        Part::Head => write_fragments(err, &[Fragment::Str("amr: store damaged: head\n")]),
        Part::Text => write_fragments(err, &[Fragment::Str("amr: store damaged: text\n")]),
        Part::Deltas => write_fragments(err, &[Fragment::Str("amr: store damaged: deltas\n")]),
        Part::Size => write_fragments(err, &[Fragment::Str("amr: store damaged: size\n")]),
        Part::Slot(number) => write_fragments(
            err,
            &[
                Fragment::Str("amr: store damaged: slot "),
                Fragment::Number(u64::from(number)),
                Fragment::Str("\n"),
            ],
        ),
        Part::Tie => write_fragments(err, &[Fragment::Str("amr: store damaged: tie\n")]),
        Part::Problem => write_fragments(err, &[Fragment::Str("amr: store damaged: problem\n")]),
        Part::State(place) => write_fragments(
            err,
            &[
                Fragment::Str("amr: store damaged: state "),
                Fragment::Number(place),
                Fragment::Str("\n"),
            ],
        ),
        Part::Sequence => write_fragments(err, &[Fragment::Str("amr: store damaged: sequence\n")]),
        Part::Chain(number) => write_fragments(
            err,
            &[
                Fragment::Str("amr: store damaged: record "),
                Fragment::Number(u64::from(number)),
                Fragment::Str("\n"),
            ],
        ),
        Part::Renewal => write_fragments(err, &[Fragment::Str("amr: store damaged: renewal\n")]),
    }
}
