//! Numbers as bytes, the low byte first.

ghost use Rattle.std.specs.Prelude.{◌≡◌, ◌*◌, ◌^◌, ◌≤◌, ◌++◌, ◌≤ℤ◌, length, pos, OnOk};
ghost use Rattle.std.specs.Int.{w8, w32, w64};
ghost use Rattle.std.specs.List.{flat_map};
ghost use Rattle.amr_box.specs.Cells.{at_least_zero};
ghost use Rattle.amr_codec.specs.MassWidths.{width_of};
ghost use Rattle.amr_payload.specs.Payload.{corner_bytes, number_bytes, row_bytes};

use amr_box::Cell;
use amr_causes::NoMemory;
use amr_def::Row;

/// How many bytes a mass takes.
#[derive(Clone, Copy)]
pub enum MassWidth {
    /// Four, in payload 2.
    Four,
    /// Eight, in payload 1.
    Eight,
}

#[tactic(auto, unfolding(amr_payload::specs::Payload::number_bytes))]
pub(crate) fn put_u32(n: u32, out: &mut Vec<u8>) -> Result<(), NoMemory>
    ensures { OnOk result (out.new.items ≡ out.old.items ++ number_bytes w32 n) }
{
    out.extend_from_slice(&n.to_le_bytes())?;
    Ok(())
}

/// Appends a number of eight bytes.
#[tactic(auto, unfolding(amr_payload::specs::Payload::number_bytes))]
pub fn put_u64(n: u64, out: &mut Vec<u8>) -> Result<(), NoMemory>
    ensures { OnOk result (out.new.items ≡ out.old.items ++ number_bytes w64 n) }
{
    out.extend_from_slice(&n.to_le_bytes())?;
    Ok(())
}

/// A number of one byte.
#[tactic(auto, unfolding(amr_payload::specs::Payload::number_bytes))]
pub(crate) fn put_flag(flag: u8, out: &mut Vec<u8>) -> Result<(), NoMemory>
    ensures { OnOk result (out.new.items ≡ out.old.items ++ number_bytes w8 flag) }
{
    out.push(flag)?;
    Ok(())
}

/// The low byte of a count.
#[tactic(auto, unfolding(amr_payload::specs::Payload::number_bytes))]
pub(crate) fn put_count_of_levels(n: usize, out: &mut Vec<u8>) -> Result<(), NoMemory>
    ensures { OnOk result (out.new.items ≡ out.old.items ++ number_bytes w8 n) }
{
    let bytes = (n as u64).to_le_bytes();
    out.push(bytes[0])?;
    Ok(())
}

/// The low four bytes of a count.
#[tactic(auto, unfolding(amr_payload::specs::Payload::number_bytes))]
pub(crate) fn put_count_of_boxes(n: usize, out: &mut Vec<u8>) -> Result<(), NoMemory>
    ensures { OnOk result (out.new.items ≡ out.old.items ++ number_bytes w32 n) }
{
    let bytes = (n as u64).to_le_bytes();
    out.extend_from_slice(&bytes[..4])?;
    Ok(())
}

/// Numbers of four bytes, one after another, written over as many bytes.
#[tactic(auto, unfolding(amr_payload::specs::Payload::number_bytes))]
fn write_words(numbers: &[u32], bytes: &mut [u8])
    requires { length bytes.old ≡ 4 * length numbers.now }
    ensures { bytes.new ≡ flat_map (number_bytes w32) numbers.now }
{
    for k in 0..numbers.len() {
        let word = numbers[k].to_le_bytes();
        bytes[4 * k..4 * k + 4].copy_from_slice(&word);
    }
}

/// The same of eight bytes.
#[tactic(auto, unfolding(amr_payload::specs::Payload::number_bytes))]
fn write_longs(numbers: &[u32], bytes: &mut [u8])
    requires { length bytes.old ≡ 8 * length numbers.now }
    ensures { bytes.new ≡ flat_map (number_bytes w64) numbers.now }
{
    for k in 0..numbers.len() {
        let long = u64::from(numbers[k]).to_le_bytes();
        bytes[8 * k..8 * k + 8].copy_from_slice(&long);
    }
}

/// Masses, one after another. There are no more than the cells of a row.
pub(crate) fn put_masses(
    width: MassWidth,
    masses: &[u32],
    out: &mut Vec<u8>,
) -> Result<(), NoMemory>
    requires { length masses.now ≤ 2 ^ 26 }
    ensures { OnOk result (out.new.items ≡ out.old.items ++ flat_map (number_bytes (width_of width)) masses.now) }
{
    let from = out.len();
    match width {
        MassWidth::Four => {
            out.resize(from + 4 * masses.len(), 0)?;
            write_words(masses, &mut out[from..]);
        }
        MassWidth::Eight => {
            out.resize(from + 8 * masses.len(), 0)?;
            write_longs(masses, &mut out[from..]);
        }
    }
    Ok(())
}

/// A coordinate that is not below 0.
fn coordinate(z: i32) -> u32
    requires { pos 0 ≤ℤ z }
    ensures { result ≡ at_least_zero z }
{
    z as u32
}

/// The column of a corner of a box, then its row, neither below 0.
#[tactic(auto, unfolding(amr_payload::specs::Payload::corner_bytes))]
fn put_corner(c: Cell, out: &mut Vec<u8>) -> Result<(), NoMemory>
    requires west { pos 0 ≤ℤ c.x }
    requires south { pos 0 ≤ℤ c.y }
    ensures { OnOk result (out.new.items ≡ out.old.items ++ corner_bytes c) }
{
    put_u32(coordinate(c.x), out)?;
    put_u32(coordinate(c.y), out)?;
    Ok(())
}

/// The corners of a box, whose coordinates are not below 0.
pub(crate) fn put_corners(lo: Cell, hi: Cell, out: &mut Vec<u8>) -> Result<(), NoMemory>
    requires west { pos 0 ≤ℤ lo.x }
    requires south { pos 0 ≤ℤ lo.y }
    requires east { pos 0 ≤ℤ hi.x }
    requires north { pos 0 ≤ℤ hi.y }
    ensures { OnOk result (out.new.items ≡ out.old.items ++ (corner_bytes lo ++ corner_bytes hi)) }
{
    put_corner(lo, out)?;
    put_corner(hi, out)?;
    Ok(())
}

/// A row of the ledger.
#[tactic(auto, unfolding(amr_payload::specs::Payload::row_bytes))]
pub(crate) fn put_ledger_row(row: Row, out: &mut Vec<u8>) -> Result<(), NoMemory>
    ensures { OnOk result (out.new.items ≡ out.old.items ++ row_bytes row) }
{
    put_u64(row.mass, out)?;
    put_u64(row.inflow, out)?;
    put_u64(row.outflow, out)?;
    Ok(())
}
