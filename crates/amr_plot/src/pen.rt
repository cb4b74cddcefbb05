//! Who takes the bytes of a plot in turn: a stream, or a count of them.

ghost use Rattle.std.specs.Prelude.{ℕ, List};
ghost use Rattle.amr_io.specs.Buffered.{entry_text, fragments_text};
ghost use Rattle.amr_plot.specs.Pens.{IsPen, Puts};

use amr_io::{CountSink, Fragment, Sink, Text, WriteFault, write_whole};
use std::convert::Infallible;

/// Takes texts in turn.
///
/// An implementation says what it does by two meanings, with laws (`IsPen`).
/// - `wrote`: the relation of calls that are done, between itself before, the text of all of them, and itself after.
/// - `failed`: the same where the last call failed, with a text of which not all was taken.
pub trait Pen {
    /// Why a text is not taken.
    type Fault;

    ghost wrote: { Self → Self → List ℕ → Type 0 };

    ghost failed: { Self → Self → List ℕ → Type 0 };

    /// Takes fragments in turn.
    fn put_fragments(&mut self, line: &[Fragment<'_>]) -> Result<(), Self::Fault>
        ensures { Puts wrote failed self.old self.new (fragments_text line.now) result };

    /// Takes a number of a row, and a space before it unless it is the first.
    fn put_entry(&mut self, first: bool, n: u64) -> Result<(), Self::Fault>
        ensures { Puts wrote failed self.old self.new (entry_text first n) result };

    /// Takes bytes that were made before.
    fn put_bytes(&mut self, bytes: &[u8]) -> Result<(), Self::Fault>
        ensures { Puts wrote failed self.old self.new bytes.now result };

    // Texts follow one another.
    ghost laws: { IsPen wrote failed };
}

/// A buffer of fixed size before a lent sink.
#[derive(Drop)]
pub struct Sheet<'a, O: Sink> {
    pub text: Text,
    pub sink: &'a mut O,
}

impl<'a, O: Sink> Sheet<'a, O> {
    ghost use Rattle.std.specs.Prelude.{◌≡◌, [], OnErr, OnOk};
    ghost use Rattle.amr_plot.specs.Pens.{Falls, Goes};

    /// Sends what the buffer keeps back.
    pub fn finish(&mut self) -> Result<(), WriteFault>
        ensures same { self.new.sink.ghost_name ≡ self.old.sink.ghost_name }
        ensures sent { OnOk result (Goes O.holds O.faults self.old.sink.now self.new.sink.now self.old.text self.new.text []) }
        ensures empty { OnOk result (self.new.text ≡ []) }
        ensures short { OnErr result (Falls O.holds O.faults self.old.sink.now self.new.sink.now self.old.text []) }
    {
        self.text.flush(self.sink)
    }
}

impl<'a, O: Sink> Pen for Sheet<'a, O> {
    ghost use Rattle.std.specs.Prelude.{◌≡◌, refl};
    ghost use Rattle.std.proofs.Common.{◌∙◌};
    ghost use Rattle.amr_plot.specs.Pens.{Falls, Goes};
    ghost use Rattle.amr_plot.specs.Sheets.{falls_later, falls_longer, goes_more, goes_nowhere};

    type Fault = WriteFault;

    ghost wrote = { λ a b t. (b.sink.ghost_name ≡ a.sink.ghost_name) × Goes O.holds O.faults a.sink.now b.sink.now a.text b.text t };

    ghost failed = { λ a b t. (b.sink.ghost_name ≡ a.sink.ghost_name) × Falls O.holds O.faults a.sink.now b.sink.now a.text t };

    ghost laws = { record {
      nothing = λ a. (refl, goes_nowhere O.holds O.faults a.sink.now a.text);
      more = λ a b c t u first second. (
        second.0 ∙ first.0,
        goes_more O.holds O.faults a.sink.now b.sink.now c.sink.now a.text b.text c.text t u first.1 second.1,
      );
      later = λ a b c t u first second. (
        second.0 ∙ first.0,
        falls_later O.holds O.faults a.sink.now b.sink.now c.sink.now a.text b.text t u first.1 second.1,
      );
      longer = λ a b t u first. (first.0, falls_longer O.holds O.faults a.sink.now b.sink.now a.text t u first.1);
    } };

    fn put_fragments(&mut self, line: &[Fragment<'_>]) -> Result<(), WriteFault> {
        self.text.put_fragments(self.sink, line)
    }

    fn put_entry(&mut self, first: bool, n: u64) -> Result<(), WriteFault> {
        self.text.put_entry(self.sink, first, n)
    }

    fn put_bytes(&mut self, bytes: &[u8]) -> Result<(), WriteFault> {
        self.text.flush(self.sink)?;
        write_whole(self.sink, bytes)
    }
}

impl Pen for CountSink {
    ghost use Rattle.amr_io.specs.Counts.{Counts};
    ghost use Rattle.amr_io.proofs.Counting.{counts_none, counts_then};

    type Fault = Infallible;

    ghost wrote = { Counts };

    ghost failed = { λ _ _ _. ⊥ };

    ghost laws = { record { nothing = counts_none; more = counts_then; later = λ _ _ _ _ _ _ failed. failed; longer = λ _ _ _ _ failed. failed } };

    fn put_fragments(&mut self, line: &[Fragment<'_>]) -> Result<(), Infallible> {
        CountSink::put_fragments(self, line);
        Ok(())
    }

    fn put_entry(&mut self, first: bool, n: u64) -> Result<(), Infallible> {
        CountSink::put_entry(self, first, n);
        Ok(())
    }

    fn put_bytes(&mut self, bytes: &[u8]) -> Result<(), Infallible> {
        drop(self.write(bytes));
        Ok(())
    }
}
