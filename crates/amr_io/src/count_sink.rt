//! A sink that counts bytes and keeps none.
ghost use Rattle.std.specs.Prelude.{◌≡◌, ℕ, ◌+◌, ◌<◌, ◌≤◌, [], IfOk, OnOk, length};
ghost use Rattle.amr_causes.specs.Causes.{HasCause};
ghost use Rattle.amr_causes.specs.Bytes.{Grows, written};
ghost use Rattle.amr_io.specs.Counts.{Counts, capped};
ghost use Rattle.amr_io.specs.Buffered.{entry_text, fragment_text, fragments_text};

use crate::digits::count_digits;
use crate::{Fragment, Sink, WriteFault};
use std::marker::Model;

/// The number of bytes that were put into it: it keeps none of them, takes no memory and never fails. From 2^64 - 1 on it
/// counts no further. It is seen as that number.
#[derive(Drop)]
pub struct CountSink {
    count: u64,
}

impl Model for CountSink {
    ghost use Rattle.std.specs.Prelude.{ℕ};

    ghost Value = { ℕ };

    ghost view = { λ s. s.count };
}

impl CountSink {
    /// A sink with no bytes.
    pub fn make() -> CountSink
        ensures count { result ≡ 0 }
        ensures told { ⟦<CountSink as Sink>⟧.holds result ([]) }
    {
        CountSink { count: 0 }
    }

    /// How many bytes were put into it.
    pub fn count(&self) -> u64
        ensures { result ≡ self.now }
    {
        self.count
    }

    /// Puts a string.
    pub fn put_str(&mut self, text: &str)
        ensures { Counts self.old self.new text.now }
    {
        self.add(text.len());
    }

    /// Puts a number of a row in decimal digits, and a space before it unless it is the first: the digits are counted and not
    /// made.
    pub fn put_entry(&mut self, first: bool, n: u64)
        ensures { Counts self.old self.new (entry_text first n) }
    {
        if !first {
            self.add(1);
        }
        self.add(count_digits(n));
    }

    /// Puts fragments in turn, the digits of numbers counted and not made.
    pub fn put_fragments(&mut self, fragments: &[Fragment<'_>])
        ensures { Counts self.old self.new (fragments_text fragments.now) }
    {
        for fragment in fragments {
            self.put_fragment(fragment);
        }
    }

    fn put_fragment(&mut self, fragment: &Fragment<'_>)
        ensures { Counts self.old self.new (fragment_text fragment.now) }
    {
        match fragment {
            Fragment::Str(text) => self.add(text.len()),
            Fragment::Number(n) => self.add(count_digits(*n)),
        }
    }

    /// So many bytes more.
    fn add(&mut self, bytes: usize)
        ensures { self.new ≡ capped (self.old + bytes) }
    {
        self.count = self.count.saturating_add(bytes as u64);
    }
}

impl Sink for CountSink {
    ghost holds = { λ s bytes. s ≡ capped (length bytes) };

    ghost faults = { λ _. 0 };

    fn write(&mut self, chunk: &[u8]) -> Result<usize, WriteFault>
        ensures bound { IfOk result (λ n. n ≤ length chunk.now) }
        ensures some { IfOk result (λ n. 0 < length chunk.now → 0 < n) }
        ensures bytes { Grows (λ s bytes. s ≡ capped (length bytes)) self.old self.new (written result chunk.now) }
        ensures cause { HasCause 0 0 result }
        ensures no_fault { OnOk result (◌≡◌ {A = ℕ} 0 0) }
        // It takes the whole chunk and never fails.
        ensures whole { result ≡ Ok (length chunk.now) }
        ensures count { Counts self.old self.new chunk.now }
    {
        self.add(chunk.len());
        Ok(chunk.len())
    }
}
