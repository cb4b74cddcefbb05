//! Whether entries are within their ranges.

ghost use Rattle.std.specs.Prelude.{◌≡◌, pos, None, option_map, map, [], ◌∷◌};
ghost use Rattle.std.specs.List.{list_all};
ghost use Rattle.amr_def.specs.Limits.{is_name_byte};
ghost use Rattle.amr_problem.specs.Keys.{ranges_of, range, threshold, courant_number, first_outside, first_beyond};
ghost use Rattle.amr_problem.specs.Faults.{first_some, text_outside, rows_outside};
ghost use Rattle.amr_problem.specs.Entries.{numbers_outside, basics_outside, refining_outside, overlay_outside, range_fault, IsInRange};

use crate::entries::{Basics, Entries, Overlay, Refining};
use crate::fault::ProblemFault;
use crate::key::Key;
use crate::limits::{COURANT, THRESHOLD};
use crate::range::{first_beyond, first_outside};

/// The greatest number of blocks.
pub const MOST_BLOCKS: usize = 256;

/// The first number, in the order of the keys, that is out of its range.
pub fn out_of_range(entries: &Entries) -> Option<ProblemFault>
    ensures first { result ≡ range_fault entries.now }
    ensures in_range { result ≡ None → IsInRange entries.now }
{
    basics(&entries.basics)
        .or(refining(&entries.refining))
        .or(overlay(&entries.overlay))
}

fn basics(basics: &Basics) -> Option<ProblemFault>
    ensures { result ≡ basics_outside basics.now }
{
    numbers(Key::Version, &[basics.version])
        .or(name(basics.name.as_slice()))
        .or(numbers(Key::Cells, &[basics.nx, basics.ny]))
        .or(numbers(Key::Steps, &[basics.steps]))
        .or(numbers(Key::Courant, &[basics.cx, basics.cy, basics.d]))
        .or(numbers(
            Key::Sides,
            &[basics.x_low, basics.x_high, basics.y_low, basics.y_high],
        ))
        .or(numbers(Key::MaxLevel, &[basics.max_level]))
}

fn refining(refining: &Refining) -> Option<ProblemFault>
    ensures { result ≡ refining_outside refining.now }
{
    tag(refining.tag.as_slice())
        .or(numbers(Key::NErrorBuf, &[refining.n_error_buf]))
        .or(numbers(Key::Efficiency, &[refining.efficiency]))
        .or(numbers(Key::MinWidth, &[refining.min_width]))
        .or(numbers(Key::RegridInt, &[refining.regrid_int]))
        .or(numbers(Key::MaxGridSize, &[refining.max_grid_size]))
}

fn overlay(overlay: &Overlay) -> Option<ProblemFault>
    ensures { result ≡ overlay_outside overlay.now }
{
    blocks(overlay.blocks.as_slice())
        .or(shear(Key::ShearX, overlay.shear_x.as_slice()))
        .or(shear(Key::ShearY, overlay.shear_y.as_slice()))
        .or(numbers(Key::Blocking, &[overlay.blocking]))
        .or(numbers(Key::Species, &[overlay.species]))
}

fn numbers(key: Key, numbers: &[i64]) -> Option<ProblemFault>
    ensures { result ≡ numbers_outside key numbers.now }
{
    match first_outside(key.ranges(), numbers) {
        Some(number) => Some(ProblemFault::OutOfRange(key, number)),
        None => None,
    }
}

fn tag(numbers: &[i64]) -> Option<ProblemFault>
    ensures { result ≡ option_map (ProblemFault.OutOfRange Key.Tag) (first_beyond threshold numbers.now) }
{
    match first_beyond(THRESHOLD, numbers) {
        Some(number) => Some(ProblemFault::OutOfRange(Key::Tag, number)),
        None => None,
    }
}

fn shear(key: Key, numbers: &[i64]) -> Option<ProblemFault>
    ensures { result ≡ option_map (ProblemFault.OutOfRange key) (first_beyond courant_number numbers.now) }
{
    match first_beyond(COURANT, numbers) {
        Some(number) => Some(ProblemFault::OutOfRange(key, number)),
        None => None,
    }
}

fn name(bytes: &[u8]) -> Option<ProblemFault>
    ensures { result ≡ option_map (ProblemFault.OutOfRange Key.Name) (text_outside (range (pos 1) (pos 32)) bytes.now) }
{
    let length = bytes.len() as i64;
    let fits = first_outside(Key::Name.ranges(), &[length]).is_none();
    if fits && is_name(bytes) {
        None
    } else {
        Some(ProblemFault::OutOfRange(Key::Name, length))
    }
}

fn is_name(bytes: &[u8]) -> bool
    ensures { result ≡ list_all is_name_byte bytes.now }
{
    bytes.iter().all(|&byte| is_name_byte(byte))
}

fn is_name_byte(byte: u8) -> bool
    ensures { result ≡ is_name_byte byte }
{
    byte.is_ascii_lowercase() || byte.is_ascii_digit() || byte == b'-' || byte == b'_'
}

fn blocks(rows: &[[i64; 6]]) -> Option<ProblemFault>
    ensures { result ≡ option_map (ProblemFault.OutOfRange Key.Blocks) (rows_outside 256 (ranges_of Key.Blocks) rows.now) }
{
    let outside = if rows.len() > MOST_BLOCKS {
        Some(rows.len() as i64)
    } else {
        first_row_outside(rows)
    };
    match outside {
        Some(number) => Some(ProblemFault::OutOfRange(Key::Blocks, number)),
        None => None,
    }
}

fn first_row_outside(rows: &[[i64; 6]]) -> Option<i64>
    ensures { result ≡ first_some (map (first_outside (ranges_of Key.Blocks)) rows.now) }
{
    for row in rows {
        if let Some(number) = first_outside(Key::Blocks.ranges(), row) {
            return Some(number);
        }
    }
    None
}
