//! The greatest length of a payload.

ghost use Rattle.std.specs.Prelude.{◌≡◌, ◌+◌, ◌*◌, ◌≤◌, ◌^◌};
ghost use Rattle.std.specs.Int.{w32, w64};
ghost use Rattle.amr_codec.specs.MassWidths.{width_of};
ghost use Rattle.amr_payload.specs.Payload.{level_cells, room, slot_size};

use crate::numbers::MassWidth;
use amr_def::Problem;

/// A power of four, up to that of the greatest level.
fn power_of_four(l: u32) -> u64
    requires { l ≤ 4 }
    ensures power { result ≡ 4 ^ l }
    ensures few { result ≤ 256 }
{
    4u64.pow(l)
}

/// How many cells the domain of level `l` has.
fn cells_of_level(p: &Problem, l: u32) -> u64
    requires { l ≤ 4 }
    ensures cells { result ≡ level_cells p.now l }
    ensures few { result ≤ 2 ^ 24 }
{
    let across = u64::from(p.nx);
    let up = u64::from(p.ny);
    across * up * power_of_four(l)
}

/// The number of boxes of level `l`, its masses, each of at most so many bytes, and for each cell a quarter of a box's 16 bytes.
fn bytes_of_level(p: &Problem, l: u32, each: u32) -> u64
    requires level { l ≤ 4 }
    requires small { each ≤ 8 }
    ensures bytes { result ≡ 4 + (each + 4) * level_cells p.now l }
    ensures few { result ≤ 2 ^ 30 }
{
    4 + (u64::from(each) + 4) * cells_of_level(p, l)
}

/// Room for fixed fields, for 24 bytes a row of the ledger, and for levels whose masses take at most so many bytes a cell, as
/// `room` in crate `amr_payload` has it.
pub fn room(p: &Problem, fixed: u32, each: u32) -> u64
    requires fixed { fixed ≤ 100 }
    requires small { each ≤ 8 }
    ensures { result ≡ room fixed each p.now }
{
    let mut size = u64::from(fixed) + 24 * (u64::from(p.steps) + 1);
    let count = p.max_level + 1;
    for l in 0..count {
        size += bytes_of_level(p, l, each);
    }
    size
}

/// The greatest length of a payload 1 of the problem: masses of 8 bytes.
#[tactic(auto, unfolding(amr_payload::specs::Payload::slot_size))]
pub fn slot_size(p: &Problem) -> u64
    ensures { result ≡ slot_size w64 p.now }
{
    room(p, 21, 8)
}

/// The greatest length of a payload 2 of the problem: masses of 4 bytes.
#[tactic(auto, unfolding(amr_payload::specs::Payload::slot_size))]
pub fn slot_size2(p: &Problem) -> u64
    ensures { result ≡ slot_size w32 p.now }
{
    room(p, 21, 4)
}

/// The greatest length of a payload with masses of this width.
pub(crate) fn size_for(p: &Problem, width: MassWidth) -> u64
    ensures { result ≡ slot_size (width_of width) p.now }
{
    match width {
        MassWidth::Four => slot_size2(p),
        MassWidth::Eight => slot_size(p),
    }
}
