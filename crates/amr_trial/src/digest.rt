//! A sink that keeps a digest alone.

ghost use Rattle.std.specs.Prelude.{◌≡◌, List, ℕ, [], Ok, length};
ghost use Rattle.sha2.specs.Sha256.{sha256};
ghost use Rattle.amr_causes.specs.Bytes.{Grows};

use amr_io::{Sink, WriteFault};
use sha2::{Digest, Sha256};

/// A sink that keeps the SHA-256 (FIPS 180-4) of the bytes that it took, and not the bytes. It takes all of each chunk, and
/// never fails.
#[derive(Drop)]
pub struct DigestSink {
    hasher: Sha256,
}

impl DigestSink {
    ghost use Rattle.amr_trial.specs.Digests.{HasTaken};

    /// A sink that took no bytes so far.
    pub fn make() -> DigestSink
        ensures taken { HasTaken result [] }
        ensures faultless { ⟦<DigestSink as Sink>⟧.faults result ≡ 0 }
    {
        DigestSink {
            hasher: Sha256::new(),
        }
    }

    /// The digest of all bytes that it took.
    pub fn finish(self) -> [u8; 32]
        ensures { (bytes : List ℕ) → HasTaken self bytes → result ≡ sha256 bytes }
    {
        self.hasher.finalize()
    }
}

impl Sink for DigestSink {
    ghost use Rattle.amr_trial.specs.Digests.{HasTaken};

    ghost holds = { HasTaken };

    ghost faults = { λ s. 0 };

    fn write(&mut self, chunk: &[u8]) -> Result<usize, WriteFault>
        ensures whole { result ≡ Ok (length chunk.now) }
        ensures taken { Grows HasTaken self.old self.new chunk.now }
    {
        self.hasher.update(chunk);
        Ok(chunk.len())
    }
}
