//! Reads, and writes that are synced.
ghost use Rattle.std.specs.Prelude.{◌≡◌, ◌<◌, ◌+◌, ◌^◌, nat_lt, ◌&&◌, List, ℕ, Some, length, drop, IfOk, OnOk, option_map};
ghost use Rattle.amr_causes.specs.Causes.{HasCause};
ghost use Rattle.amr_disk.specs.Image.{written_at, Torn, Only};
ghost use Rattle.amr_store.specs.Phases.{OnlyReads, StopsFrom, Told, TornTwice, TornThrice};
ghost use Rattle.amr_store.specs.Fields.{IsRead};
ghost use Rattle.amr_store.specs.Stored.{is_open};

use crate::put::OPEN;
use amr_disk::{Disk, DiskFault};

// Bytes, and the place on the disk where they are written.
#[derive(Clone, Copy)]
pub struct Write<'a> {
    pub at: u64,
    pub bytes: &'a [u8],
}

// Whether the disk has a byte at a place.
pub fn has_byte<D: Disk>(disk: &mut D, at: u64) -> Result<bool, DiskFault>
    requires small { at + 1 < 2 ^ 48 }
    ensures told { IfOk result (λ has. Told (D.seen disk.old) (λ s. has ≡ nat_lt at (length s))) }
    ensures reads { OnlyReads D.seen D.moment D.leaves disk.old disk.new }
    ensures cause { HasCause (D.faults disk.old) (D.faults disk.new) result }
    ensures no_fault { OnOk result (D.faults disk.new ≡ D.faults disk.old) }
{
    let mut byte = [0u8];
    let n = disk.read_at(at, &mut byte)?;
    Ok(n == 1)
}

// Whether the part of the disk from a base on has a byte at a place.
pub fn has_byte_from<D: Disk>(disk: &mut D, base: u64, at: u64) -> Result<bool, DiskFault>
    requires small { base + at + 1 < 2 ^ 48 }
    ensures told { IfOk result (λ has. Told (D.seen disk.old) (λ s. has ≡ nat_lt at (length (drop base s)))) }
    ensures reads { OnlyReads D.seen D.moment D.leaves disk.old disk.new }
    ensures cause { HasCause (D.faults disk.old) (D.faults disk.new) result }
    ensures no_fault { OnOk result (D.faults disk.new ≡ D.faults disk.old) }
{
    has_byte(disk, base + at)
}

// Reads what stands at a place of the part of the disk from a base on, as many bytes as there are.
pub fn read_from<D: Disk>(
    disk: &mut D,
    base: u64,
    at: u64,
    into: &mut [u8],
) -> Result<usize, DiskFault>
    requires small { base + at + length into.old < 2 ^ 48 }
    ensures told { IfOk result (λ n. Told (D.seen disk.old) (λ s. IsRead (drop base s) at into.new n)) }
    ensures reads { OnlyReads D.seen D.moment D.leaves disk.old disk.new }
    ensures cause { HasCause (D.faults disk.old) (D.faults disk.new) result }
    ensures no_fault { OnOk result (D.faults disk.new ≡ D.faults disk.old) }
{
    disk.read_at(base + at, into)
}

// Whether the disk has two bytes at a place, of which the first is an open gate.
pub fn has_open_gate<D: Disk>(disk: &mut D, at: u64) -> Result<bool, DiskFault>
    requires small { at + 2 < 2 ^ 48 }
    ensures told { IfOk result (λ has. Told (D.seen disk.old) (λ s. has ≡ (nat_lt (at + 1) (length s) && is_open s at))) }
    ensures reads { OnlyReads D.seen D.moment D.leaves disk.old disk.new }
    ensures cause { HasCause (D.faults disk.old) (D.faults disk.new) result }
    ensures no_fault { OnOk result (D.faults disk.new ≡ D.faults disk.old) }
{
    let mut bytes = [0u8; 2];
    let n = disk.read_at(at, &mut bytes)?;
    if n < 2 {
        return Ok(false);
    }
    Ok(bytes[0] == OPEN)
}

// Writes a chunk and syncs it.
pub fn write_synced<D: Disk>(disk: &mut D, at: u64, chunk: &[u8]) -> Result<(), DiskFault>
    requires small { at + length chunk.now < 2 ^ 48 }
    requires settled { Only (D.seen disk.old) (D.leaves disk.old (D.moment disk.old)) }
    ensures stops { StopsFrom D.seen D.moment D.leaves disk.old disk.new (Torn at (length chunk.now)) }
    ensures seen { OnOk result (D.seen disk.new ≡ option_map (written_at at chunk.now) (D.seen disk.old)) }
    ensures settled { OnOk result (Only (D.seen disk.new) (D.leaves disk.new (D.moment disk.new))) }
    ensures cause { HasCause (D.faults disk.old) (D.faults disk.new) result }
    ensures no_fault { OnOk result (D.faults disk.new ≡ D.faults disk.old) }
{
    disk.write_at(at, chunk)?;
    disk.sync()
}

// Writes two chunks and syncs them.
pub fn write_two_synced<D: Disk>(
    disk: &mut D,
    first_at: u64,
    first: &[u8],
    last_at: u64,
    last: &[u8],
) -> Result<(), DiskFault>
    requires first { first_at + length first.now < 2 ^ 48 }
    requires last { last_at + length last.now < 2 ^ 48 }
    requires settled { Only (D.seen disk.old) (D.leaves disk.old (D.moment disk.old)) }
    ensures stops { StopsFrom D.seen D.moment D.leaves disk.old disk.new (TornTwice first_at (length first.now) last_at (length last.now)) }
    ensures seen { OnOk result (D.seen disk.new ≡ option_map (λ s. written_at last_at last.now (written_at first_at first.now s)) (D.seen disk.old)) }
    ensures settled { OnOk result (Only (D.seen disk.new) (D.leaves disk.new (D.moment disk.new))) }
    ensures cause { HasCause (D.faults disk.old) (D.faults disk.new) result }
    ensures no_fault { OnOk result (D.faults disk.new ≡ D.faults disk.old) }
{
    disk.write_at(first_at, first)?;
    disk.write_at(last_at, last)?;
    disk.sync()?;
    Ok(())
}

// Writes three chunks and syncs them.
pub fn write_three_synced<D: Disk>(
    disk: &mut D,
    first: Write<'_>,
    second: Write<'_>,
    third: Write<'_>,
) -> Result<(), DiskFault>
    requires first { first.at + length first.bytes.now < 2 ^ 48 }
    requires second { second.at + length second.bytes.now < 2 ^ 48 }
    requires third { third.at + length third.bytes.now < 2 ^ 48 }
    requires settled { Only (D.seen disk.old) (D.leaves disk.old (D.moment disk.old)) }
    ensures stops { StopsFrom D.seen D.moment D.leaves disk.old disk.new
        (TornThrice first.entry.at (length first.entry.bytes.now) second.entry.at (length second.entry.bytes.now) third.entry.at
        (length third.entry.bytes.now)) }
    ensures seen { OnOk result (D.seen disk.new
        ≡ option_map (λ s. written_at third.entry.at third.entry.bytes.now
        (written_at second.entry.at second.entry.bytes.now (written_at first.entry.at first.entry.bytes.now s))) (D.seen disk.old)) }
    ensures settled { OnOk result (Only (D.seen disk.new) (D.leaves disk.new (D.moment disk.new))) }
    ensures cause { HasCause (D.faults disk.old) (D.faults disk.new) result }
    ensures no_fault { OnOk result (D.faults disk.new ≡ D.faults disk.old) }
{
    disk.write_at(first.at, first.bytes)?;
    disk.write_at(second.at, second.bytes)?;
    disk.write_at(third.at, third.bytes)?;
    disk.sync()?;
    Ok(())
}
