//! Sources and sinks over a reader and a writer of std.
ghost use Rattle.std.specs.Prelude.{◌≡◌, List, ℕ, Some};

use crate::{ReadFault, Sink, Source, WriteFault};
use std::io::{Read, Write};

/// A reader of std whose errors are counted. It tells what the reader tells, of a real stream nothing.
#[derive(Drop)]
pub struct StdSource<R> {
    inner: R,
    faults: u64,
}

impl<R: Read> StdSource<R> {
    /// The source over this reader, with no faults so far.
    pub fn make(inner: R) -> StdSource<R>
        ensures told { ⟦<StdSource<R> as Source>⟧.left result ≡ R.remaining inner }
        ensures faultless { ⟦<StdSource<R> as Source>⟧.faults result ≡ 0 }
    {
        StdSource { inner, faults: 0 }
    }
}

impl<R: Read> Source for StdSource<R> {
    ghost left = { λ s. R.remaining s.inner };

    ghost faults = { λ s. s.faults };

    fn read(&mut self, into: &mut [u8]) -> Result<usize, ReadFault> {
        match self.inner.read(into) {
            Ok(n) => Ok(n),
            Err(_) => {
                self.faults = self.faults.saturating_add(1);
                Err(ReadFault)
            }
        }
    }
}

/// A writer of std whose errors are counted; that it takes nothing of a chunk that isn't empty is one too. It tells what
/// the writer tells, of a real stream nothing.
#[derive(Drop)]
pub struct StdSink<W> {
    inner: W,
    faults: u64,
}

impl<W: Write> StdSink<W> {
    /// The sink over this writer, with no faults so far.
    pub fn make(inner: W) -> StdSink<W>
        ensures told { (bytes : List ℕ) → W.contents inner ≡ Some bytes → ⟦<StdSink<W> as Sink>⟧.holds result bytes }
        ensures faultless { ⟦<StdSink<W> as Sink>⟧.faults result ≡ 0 }
    {
        StdSink { inner, faults: 0 }
    }
}

impl<W: Write> Sink for StdSink<W> {
    ghost holds = { λ s bytes. W.contents s.inner ≡ Some bytes };

    ghost faults = { λ s. s.faults };

    fn write(&mut self, chunk: &[u8]) -> Result<usize, WriteFault> {
        match self.inner.write(chunk) {
            Ok(n) => {
                if n == 0 && !chunk.is_empty() {
                    self.faults = self.faults.saturating_add(1);
                    return Err(WriteFault);
                }
                Ok(n)
            }
            Err(_) => {
                self.faults = self.faults.saturating_add(1);
                Err(WriteFault)
            }
        }
    }
}
