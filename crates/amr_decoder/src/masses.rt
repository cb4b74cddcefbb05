//! The masses of a box.

ghost use Rattle.std.specs.Prelude.{◌≡◌, ℕ, ◌+◌, ◌*◌, ◌^◌, ◌<◌, ◌≤◌, length, nat_le, OnOk, IfErr};
ghost use Rattle.std.specs.Int.{byte_len};
ghost use Rattle.amr_codec.specs.MassWidths.{width_of};
ghost use Rattle.amr_def.specs.Facts.{growth};
ghost use Rattle.amr_payload.specs.Tests.{is_mass, read, read_masses};
ghost use Rattle.amr_decoder.specs.Faults.{IsFaultOf};
ghost use Rattle.amr_decoder.specs.Lefts.{left_of, whole_of};
ghost use Rattle.amr_decoder.specs.Numbers.{number_at, numbers};

use crate::faults::CodecFault;
use crate::reader::Reader;
use amr_codec::MassWidth;
use amr_def::Problem;

/// What bounds the masses of a level: the step and the level.
#[derive(Clone, Copy)]
pub struct MassKind {
    /// The step: 0 to 4096.
    pub step: u32,
    /// The level: 0 to 4.
    pub level: u32,
}

/// By how much the bound of masses grows at a step.
fn growth(max_level: u32) -> u64
    ensures value { result ≡ growth max_level }
    ensures small { result ≤ 131072 }
{
    if max_level <= 2 { 2048 } else { 131_072 }
}

/// The greatest mass of a cell.
fn greatest_mass(p: &Problem, kind: MassKind) -> u64
    requires step { kind.step ≤ 4096 }
    requires level { kind.level ≤ 4 }
    ensures value { (m : ℕ) → is_mass p.now kind.step kind.level m ≡ nat_le m result }
    ensures small { result < 2 ^ 32 }
{
    let bound = (1 << 30) + growth(p.max_level) * (u64::from(kind.step) + 1);
    bound >> (2 * kind.level)
}

/// Reads `count` masses, each of which is tested, in one pass over their bytes.
pub(crate) fn read_masses(
    p: &Problem,
    width: MassWidth,
    kind: MassKind,
    count: u64,
    reader: &mut Reader<'_>,
) -> Result<(), CodecFault>
    requires step { kind.step ≤ 4096 }
    requires level { kind.level ≤ 4 }
    ensures read { OnOk result (read_masses (width_of width) p.now kind.step kind.level count (left_of reader.old)
        ≡ read (numbers (width_of width) count (left_of reader.old).bytes) (left_of reader.new)) }
    ensures bad { IfErr result (IsFaultOf (read_masses (width_of width) p.now kind.step kind.level count (left_of reader.old))) }
    ensures inside { OnOk result ((left_of reader.old).place + byte_len (width_of width) * count ≤ length (whole_of reader.old)) }
    ensures small { OnOk result ((i : ℕ) → i < count → number_at (width_of width) (left_of reader.old).bytes i < 2 ^ 32) }
    ensures whole { whole_of reader.new ≡ whole_of reader.old }
{
    let greatest = greatest_mass(p, kind);
    let passed = reader.pass_masses(width, count, greatest);
    if passed < count {
        let place = reader.place() as u64;
        return Err(CodecFault::Bad { place });
    }
    Ok(())
}
