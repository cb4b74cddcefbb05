//! The disk.
ghost use Rattle.std.specs.Prelude.{◌≡◌, ◌≤◌, ◌<◌, ◌+◌, ◌^◌, List, ℕ, Option, Some, length, IfOk, OnOk, option_map};
ghost use Rattle.std.specs.Io.{ReadsAtMost};
ghost use Rattle.amr_causes.specs.Causes.{HasCause};
ghost use Rattle.amr_disk.specs.Image.{written_at, Torn, ReadsAt, Only};
ghost use Rattle.amr_disk.specs.Moments.{Passes, Rests};

/// The disk failed.
#[derive(Clone, Copy, Debug, PartialEq, Eq, Drop)]
pub struct DiskFault;

/// A disk: bytes from place 0 on, that are read and written at any place, and that a sync makes durable.
pub trait Disk {
    /// What a read gives, where the disk tells it.
    ghost seen: { Self → Option (List ℕ) };

    /// The clock: a number that doesn't fall. While it stands still the images stay as they are.
    ghost moment: { Self → ℕ };

    /// The images that a stop at a moment, up to this one, may leave. A disk that doesn't tell them has none.
    ghost leaves: { Self → ℕ → List ℕ → Type 0 };

    /// How often the disk has failed. An `Ok` leaves the count as it was.
    ghost faults: { Self → ℕ };

    /// As many bytes as there are, at most `into`.
    fn read_at(&mut self, at: u64, into: &mut [u8]) -> Result<usize, DiskFault>
        requires { at + length into.old < 2 ^ 48 }
        ensures bound { ReadsAtMost result into.new }
        ensures bytes { IfOk result (ReadsAt (seen self.old) at into.new) }
        ensures seen { seen self.new ≡ seen self.old }
        ensures images { Rests (seen self.old) (moment self.old) (moment self.new) (leaves self.old) (leaves self.new) }
        ensures cause { HasCause (faults self.old) (faults self.new) result }
        ensures no_fault { OnOk result (faults self.new ≡ faults self.old) };

    /// Writes over what is there, and past the end. Until a sync a stop may leave any bytes in the range.
    fn write_at(&mut self, at: u64, bytes: &[u8]) -> Result<(), DiskFault>
        requires { at + length bytes.now < 2 ^ 48 }
        ensures seen { OnOk result (seen self.new ≡ option_map (written_at at bytes.now) (seen self.old)) }
        ensures images { Passes (moment self.old) (moment self.new) (leaves self.old) (leaves self.new) (Torn at (length bytes.now)) }
        ensures cause { HasCause (faults self.old) (faults self.new) result }
        ensures no_fault { OnOk result (faults self.new ≡ faults self.old) };

    /// After it a stop leaves what a read gives.
    fn sync(&mut self) -> Result<(), DiskFault>
        ensures seen { seen self.new ≡ seen self.old }
        ensures durable { OnOk result (Only (seen self.old) (leaves self.new (moment self.new))) }
        ensures images { Rests (seen self.old) (moment self.old) (moment self.new) (leaves self.old) (leaves self.new) }
        ensures cause { HasCause (faults self.old) (faults self.new) result }
        ensures no_fault { OnOk result (faults self.new ≡ faults self.old) };

    /// What a read gives is one of the images.
    ghost reads_image: { (d : Self) (s : List ℕ) → seen d ≡ Some s → leaves d (moment d) s };
}
