//! A sink of bytes.
ghost use Rattle.std.specs.Prelude.{◌≡◌, ◌≤◌, ◌<◌, List, ℕ, length, IfOk, OnOk, OnErr};
ghost use Rattle.amr_causes.specs.Causes.{HasCause};
ghost use Rattle.amr_causes.specs.Bytes.{Grows, TakesPrefix, written};
ghost use Rattle.amr_io.specs.Short.{FallsShort};

/// The sink failed.
#[derive(Clone, Copy, Debug, PartialEq, Eq, Drop)]
pub struct WriteFault;

/// A sink of bytes.
pub trait Sink {
    /// The sink holds these bytes. One that doesn't tell holds none, in this sense.
    ghost holds: { Self → List ℕ → Type 0 };

    /// How often the sink has failed; a count at its last value is read as risen.
    ghost faults: { Self → ℕ };

    /// Writes bytes from the front of `chunk`, and says how many: at least one of a chunk that isn't empty.
    fn write(&mut self, chunk: &[u8]) -> Result<usize, WriteFault>
        ensures bound { IfOk result (λ n. n ≤ length chunk.now) }
        ensures some { IfOk result (λ n. 0 < length chunk.now → 0 < n) }
        // What it holds grows by the bytes taken; a fault takes none.
        ensures bytes { Grows holds self.old self.new (written result chunk.now) }
        // A fault comes only where the count rose, and the count doesn't fall.
        ensures cause { HasCause (faults self.old) (faults self.new) result }
        // An `Ok` leaves the count as it was.
        ensures no_fault { OnOk result (faults self.new ≡ faults self.old) };
}

/// Writes all the bytes. After a fault what went out is a prefix of them, and not all of them.
pub fn write_whole<O: Sink>(sink: &mut O, bytes: &[u8]) -> Result<(), WriteFault>
    ensures whole { OnOk result (Grows O.holds sink.old sink.new bytes.now) }
    ensures part { TakesPrefix O.holds sink.old sink.new bytes.now }
    ensures short { OnErr result (FallsShort O.holds sink.old sink.new bytes.now) }
    ensures cause { HasCause (O.faults sink.old) (O.faults sink.new) result }
    ensures no_fault { OnOk result (O.faults sink.new ≡ O.faults sink.old) }
{
    let mut at = 0;
    while at < bytes.len() {
        at += sink.write(&bytes[at..])?;
    }
    Ok(())
}
