//! A source of bytes.
ghost use Rattle.std.specs.Prelude.{◌≡◌, ◌≢◌, ◌≤◌, ◌+◌, List, ℕ, Option, length, IfOk, IsErrOf, OnOk};
ghost use Rattle.std.specs.Io.{ReadsAtMost};
ghost use Rattle.std.specs.Io.KnownBytes.{ReadConsumes, Consumes, IsAtEnd};
ghost use Rattle.amr_causes.specs.Causes.{Rose, HasCause};

use std::alloc::{AllocError, Global};

/// The source failed.
#[derive(Clone, Copy, Debug, PartialEq, Eq, Drop)]
pub struct ReadFault;

/// A source of bytes.
pub trait Source {
    /// The bytes that are left, where the source tells them.
    ghost left: { Self → Option (List ℕ) };

    /// How often the source has failed; a count at its last value is read as risen.
    ghost faults: { Self → ℕ };

    /// Reads some bytes into the front of `into`, and says how many. None into a buffer that isn't empty is the end.
    fn read(&mut self, into: &mut [u8]) -> Result<usize, ReadFault>
        // At most as many bytes as `into` has.
        ensures bound { ReadsAtMost result into.new }
        // They are the first of those that were left; a fault takes none.
        ensures bytes { ReadConsumes (left self.old) (left self.new) result into.new }
        // A fault comes only where the count rose, and the count doesn't fall.
        ensures cause { HasCause (faults self.old) (faults self.new) result }
        // An `Ok` leaves the count as it was.
        ensures no_fault { OnOk result (faults self.new ≡ faults self.old) };
}

/// Why [`read_all`] has no answer.
#[derive(Clone, Copy, Debug, PartialEq, Eq, Drop)]
pub enum ReadAll {
    /// The source gave more bytes than were wanted.
    TooLong,
    /// The source failed.
    ReadFault,
    /// Memory ran out.
    NoMemory,
}

impl From<ReadFault> for ReadAll {
    ghost use Rattle.amr_io.specs.declared.source.ReadAll.TheVariants.{ReadFault as read_fault};

    ghost from_gives = { λ _ e. e ≡ read_fault };

    fn from(_: ReadFault) -> Self {
        ReadAll::ReadFault
    }
}

impl From<AllocError> for ReadAll {
    ghost use Rattle.amr_io.specs.declared.source.ReadAll.TheVariants.{NoMemory};

    ghost from_gives = { λ _ e. e ≡ NoMemory };

    fn from(_: AllocError) -> Self {
        ReadAll::NoMemory
    }
}

const CHUNK: usize = 4096;

/// Reads a source to its end, where it has at most `max` bytes. After an `Err` what is left of the source is a suffix of
/// what was left before.
pub fn read_all<S: Source>(alloc: Global, src: &mut S, max: usize) -> Result<Vec<u8>, ReadAll>
    // The answer is all of the source, and no more than was wanted.
    ensures whole { IfOk result (λ v. Consumes (S.left src.old) (S.left src.new) v.items
        × IsAtEnd (S.left src.new) × (length v.items ≤ max)) }
    // It is too long where one byte more than was wanted came.
    ensures too_long { IsErrOf result ReadAll.TooLong
        → (taken : List ℕ) × Consumes (S.left src.old) (S.left src.new) taken × (length taken ≡ max + 1) }
    // However it ends, at most one byte more than was wanted was taken, from the front.
    ensures taken { (taken : List ℕ) × Consumes (S.left src.old) (S.left src.new) taken × (length taken ≤ max + 1) }
    ensures read_fault { IsErrOf result ReadAll.ReadFault → Rose (S.faults src.old) (S.faults src.new) }
    ensures later { S.faults src.old ≤ S.faults src.new }
    // Any answer but a read fault leaves the count as it was.
    ensures no_fault { result ≢ Err ReadAll.ReadFault → S.faults src.new ≡ S.faults src.old }
{
    let mut all = Vec::new(alloc);
    let mut chunk = [0u8; CHUNK];
    while all.len() <= max {
        let want = CHUNK.min((max - all.len()).saturating_add(1));
        let n = src.read(&mut chunk[..want])?;
        if n == 0 {
            return Ok(all);
        }
        all.extend_from_slice(&chunk[..n])?;
    }
    Err(ReadAll::TooLong)
}
