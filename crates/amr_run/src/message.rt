//! The line of a refusal.
ghost use Rattle.std.specs.Prelude.{◌≡◌, OnOk, OnErr, unsigned_abs};
ghost use Rattle.amr_causes.specs.Causes.{HasCause};
ghost use Rattle.amr_causes.specs.Bytes.{Grows};
ghost use Rattle.amr_io.specs.Short.{FallsShort};
ghost use Rattle.amr_run.specs.Texts.{axis_text, fault_text, message, part_text, refusal, sign_text};

use crate::Status;
use crate::line::put_line;
use crate::views::ViewPart;
use amr_box::Axis;
use amr_checkpoint::put_refusal;
use amr_io::{Fragment, Sink, WriteFault};
use amr_problem::{Key, ProblemFault};

const USAGE: &str =
    "amr: usage: run [--workers W] [--to K] [--keep E] [--deltas D] | check | show | trial NUMBER SIZE [--workers W] | batch [--workers W] \
    | view LEVEL X0 Y0 X1 Y1 [--species S] [--workers W]";

/// Writes the line of a refusal, nothing where all is done.
pub(crate) fn tell<E: Sink>(err: &mut E, status: &Status) -> Result<(), WriteFault>
    ensures whole { OnOk result (Grows E.holds err.old err.new (message status.now)) }
    ensures short { OnErr result (FallsShort E.holds err.old err.new (message status.now)) }
    ensures cause { HasCause (E.faults err.old) (E.faults err.new) result }
    ensures quiet { status.now ≡ Status.Done → err.new ≡ err.old }
{
    match status {
        Status::Done => Ok(()),
        Status::Usage => put_line(err, &[Fragment::Str(USAGE)]),
        Status::ReadFault => put_line(err, &[Fragment::Str("amr: read failed")]),
        Status::Problem(fault) => put_fault(err, fault),
        Status::BadBatch(place) => put_line(
            err,
            &[
                Fragment::Str("amr: batch malformed at "),
                Fragment::Number(*place),
            ],
        ),
        Status::Species(count) => put_line(
            err,
            &[
                Fragment::Str("amr: store keeps one species: "),
                Fragment::Number(u64::from(*count)),
                Fragment::Str(" given"),
            ],
        ),
        Status::BadView(part) => put_line(
            err,
            &[
                Fragment::Str("amr: view outside: "),
                Fragment::Str(part_name(*part)),
            ],
        ),
        Status::DiskFault => put_line(err, &[Fragment::Str("amr: disk failed")]),
        Status::Store(refusal) => put_refusal(err, *refusal),
        Status::WriteFault => put_line(err, &[Fragment::Str("amr: write failed")]),
        Status::NoMemory => put_line(err, &[Fragment::Str("amr: out of memory")]),
    }
}

fn put_fault<E: Sink>(err: &mut E, fault: &ProblemFault) -> Result<(), WriteFault>
    ensures whole { OnOk result (Grows E.holds err.old err.new (refusal (fault_text fault.now))) }
    ensures short { OnErr result (FallsShort E.holds err.old err.new (refusal (fault_text fault.now))) }
    ensures cause { HasCause (E.faults err.old) (E.faults err.new) result }
{
    match fault {
        ProblemFault::TooLong => put_line(err, &[Fragment::Str("amr: problem: too long")]),
        ProblemFault::NotToml => put_line(err, &[Fragment::Str("amr: problem: not TOML")]),
        ProblemFault::UnknownKey(key) => put_line(
            err,
            &[
                Fragment::Str("amr: problem: unknown key "),
                Fragment::Str(key.text()),
            ],
        ),
        ProblemFault::Missing(key) => put_line(
            err,
            &[
                Fragment::Str("amr: problem: missing key "),
                Fragment::Str(key.text()),
            ],
        ),
        ProblemFault::WrongKind(key) => put_line(
            err,
            &[
                Fragment::Str("amr: problem: wrong kind "),
                Fragment::Str(key.text()),
            ],
        ),
        ProblemFault::OutOfRange(key, value) => put_out_of_range(err, *key, value),
        ProblemFault::Courant(sum, d) => put_courant(err, sum, d),
        ProblemFault::SidesDiffer(axis) => put_line(
            err,
            &[
                Fragment::Str("amr: problem: sides differ "),
                Fragment::Str(axis_name(*axis)),
            ],
        ),
        ProblemFault::BlockOutside(index) => put_line(
            err,
            &[
                Fragment::Str("amr: problem: block "),
                Fragment::Number(u64::from(*index)),
                Fragment::Str(" outside"),
            ],
        ),
        ProblemFault::TagCount(given, max_level) => put_tag_count(err, given, max_level),
        ProblemFault::Blocking(axis, blocking) => put_blocking(err, *axis, blocking),
        ProblemFault::SpeciesOutside(index, species) => put_species(err, *index, species),
    }
}

fn put_out_of_range<E: Sink>(err: &mut E, key: Key, value: &i64) -> Result<(), WriteFault>
    ensures whole { OnOk result (Grows E.holds err.old err.new (refusal (fault_text (ProblemFault.OutOfRange key value.now)))) }
    ensures short { OnErr result (FallsShort E.holds err.old err.new (refusal (fault_text (ProblemFault.OutOfRange key value.now)))) }
    ensures cause { HasCause (E.faults err.old) (E.faults err.new) result }
{
    put_line(
        err,
        &[
            Fragment::Str("amr: problem: out of range "),
            Fragment::Str(key.text()),
            Fragment::Str(" "),
            Fragment::Str(sign(value)),
            Fragment::Number(size(value)),
        ],
    )
}

fn put_courant<E: Sink>(err: &mut E, sum: &i64, d: &i64) -> Result<(), WriteFault>
    ensures whole { OnOk result (Grows E.holds err.old err.new (refusal (fault_text (ProblemFault.Courant sum.now d.now)))) }
    ensures short { OnErr result (FallsShort E.holds err.old err.new (refusal (fault_text (ProblemFault.Courant sum.now d.now)))) }
    ensures cause { HasCause (E.faults err.old) (E.faults err.new) result }
{
    put_line(
        err,
        &[
            Fragment::Str("amr: problem: courant "),
            Fragment::Str(sign(sum)),
            Fragment::Number(size(sum)),
            Fragment::Str(" over "),
            Fragment::Str(sign(d)),
            Fragment::Number(size(d)),
        ],
    )
}

fn put_tag_count<E: Sink>(err: &mut E, given: &i64, max_level: &i64) -> Result<(), WriteFault>
    ensures whole { OnOk result (Grows E.holds err.old err.new (refusal (fault_text (ProblemFault.TagCount given.now max_level.now)))) }
    ensures short { OnErr result (FallsShort E.holds err.old err.new (refusal (fault_text (ProblemFault.TagCount given.now max_level.now)))) }
    ensures cause { HasCause (E.faults err.old) (E.faults err.new) result }
{
    put_line(
        err,
        &[
            Fragment::Str("amr: problem: "),
            Fragment::Str(sign(given)),
            Fragment::Number(size(given)),
            Fragment::Str(" tags for "),
            Fragment::Str(sign(max_level)),
            Fragment::Number(size(max_level)),
            Fragment::Str(" levels"),
        ],
    )
}

fn put_blocking<E: Sink>(err: &mut E, axis: Axis, blocking: &i64) -> Result<(), WriteFault>
    ensures whole { OnOk result (Grows E.holds err.old err.new (refusal (fault_text (ProblemFault.Blocking axis blocking.now)))) }
    ensures short { OnErr result (FallsShort E.holds err.old err.new (refusal (fault_text (ProblemFault.Blocking axis blocking.now)))) }
    ensures cause { HasCause (E.faults err.old) (E.faults err.new) result }
{
    put_line(
        err,
        &[
            Fragment::Str("amr: problem: blocking "),
            Fragment::Str(sign(blocking)),
            Fragment::Number(size(blocking)),
            Fragment::Str(" does not fit "),
            Fragment::Str(axis_name(axis)),
        ],
    )
}

fn put_species<E: Sink>(err: &mut E, index: u32, species: &i64) -> Result<(), WriteFault>
    ensures whole { OnOk result (Grows E.holds err.old err.new (refusal (fault_text (ProblemFault.SpeciesOutside index species.now)))) }
    ensures short { OnErr result (FallsShort E.holds err.old err.new (refusal (fault_text (ProblemFault.SpeciesOutside index species.now)))) }
    ensures cause { HasCause (E.faults err.old) (E.faults err.new) result }
{
    put_line(
        err,
        &[
            Fragment::Str("amr: problem: block "),
            Fragment::Number(u64::from(index)),
            Fragment::Str(" of species "),
            Fragment::Str(sign(species)),
            Fragment::Number(size(species)),
        ],
    )
}

/// What stands before a number's digits.
fn sign(value: &i64) -> &'static str
    ensures { result.now ≡ sign_text value.now }
{
    if *value < 0 { "-" } else { "" }
}

fn size(value: &i64) -> u64
    ensures { result ≡ unsigned_abs value.now }
{
    let value = *value;
    value.unsigned_abs()
}

fn axis_name(axis: Axis) -> &'static str
    ensures { result.now ≡ axis_text axis }
{
    match axis {
        Axis::X => "x",
        Axis::Y => "y",
    }
}

fn part_name(part: ViewPart) -> &'static str
    ensures { result.now ≡ part_text part }
{
    match part {
        ViewPart::Level => "level",
        ViewPart::Box => "box",
        ViewPart::Species => "species",
    }
}
