//! Text on its way to a sink.
ghost use Rattle.std.specs.Prelude.{◌≡◌, ◌≤◌, ◌<◌, ◌+◌, ◌++◌, [], cond, codes, length, OnOk, OnErr, decimal};
ghost use Rattle.amr_causes.specs.Causes.{HasCause};
ghost use Rattle.amr_causes.specs.Bytes.{Grows, TakesPrefix};
ghost use Rattle.amr_io.specs.Buffered.{Sent, entry_text, fragment_text, fragments_text};
ghost use Rattle.amr_io.specs.Short.{FallsShort};

use crate::digits::count_digits;
use crate::{Fragment, Sink, WriteFault, write_whole};
use itoa::write_digits;
use std::marker::Model;

const ROOM: usize = 4096;

/// The bytes of the longest entry of a row: a space and 20 digits.
const ENTRY: usize = 21;

/// Text on its way to a sink, through a buffer of 4,096 bytes. It is seen as what it keeps back: after a call that succeeded,
/// what the sink got and then what is kept back is all that was put. A call that failed has sent a prefix of that, and not
/// the whole; the buffer is then only dropped. No call takes memory.
#[derive(Drop)]
pub struct Text {
    kept: [u8; ROOM],
    len: usize,
}

impl Model for Text {
    ghost use Rattle.std.specs.Prelude.{◌≤◌, List, ℕ, take};

    ghost Value = { List ℕ };

    ghost view = { λ t. take t.len t.kept };

    ghost invariant = { λ t. t.len ≤ 4096 };
}

impl Text {
    /// A buffer that keeps nothing back.
    pub fn make() -> Text
        ensures { result ≡ [] }
    {
        Text {
            kept: [0; ROOM],
            len: 0,
        }
    }

    /// Puts a string.
    pub fn put_str<O: Sink>(&mut self, sink: &mut O, text: &str) -> Result<(), WriteFault>
        ensures sent { OnOk result (Sent O.holds sink.old sink.new self.old self.new text.now) }
        ensures part { OnErr result (TakesPrefix O.holds sink.old sink.new (self.old ++ text.now)) }
        ensures short { OnErr result (FallsShort O.holds sink.old sink.new (self.old ++ text.now)) }
        ensures cause { HasCause (O.faults sink.old) (O.faults sink.new) result }
        ensures no_fault { OnOk result (O.faults sink.new ≡ O.faults sink.old) }
    {
        self.put(sink, text.as_bytes())
    }

    /// Puts a number in decimal digits.
    pub fn put_number<O: Sink>(&mut self, sink: &mut O, n: u64) -> Result<(), WriteFault>
        ensures sent { OnOk result (Sent O.holds sink.old sink.new self.old self.new (decimal n)) }
        ensures part { OnErr result (TakesPrefix O.holds sink.old sink.new (self.old ++ decimal n)) }
        ensures short { OnErr result (FallsShort O.holds sink.old sink.new (self.old ++ decimal n)) }
        ensures cause { HasCause (O.faults sink.old) (O.faults sink.new) result }
        ensures no_fault { OnOk result (O.faults sink.new ≡ O.faults sink.old) }
    {
        self.put_entry(sink, true, n)
    }

    /// Puts a number of a row in decimal digits, and a space before it unless it is the first.
    pub fn put_entry<O: Sink>(
        &mut self,
        sink: &mut O,
        first: bool,
        n: u64,
    ) -> Result<(), WriteFault>
        ensures sent { OnOk result (Sent O.holds sink.old sink.new self.old self.new (entry_text first n)) }
        ensures part { OnErr result (TakesPrefix O.holds sink.old sink.new (self.old ++ entry_text first n)) }
        ensures short { OnErr result (FallsShort O.holds sink.old sink.new (self.old ++ entry_text first n)) }
        ensures cause { HasCause (O.faults sink.old) (O.faults sink.new) result }
        ensures no_fault { OnOk result (O.faults sink.new ≡ O.faults sink.old) }
    {
        self.make_room(sink)?;
        self.append_space(first);
        self.append_number(n);
        Ok(())
    }

    /// Puts fragments in turn. Its callers have one place to stop at, where as many calls of one fragment each would have many.
    pub fn put_fragments<O: Sink>(
        &mut self,
        sink: &mut O,
        fragments: &[Fragment<'_>],
    ) -> Result<(), WriteFault>
        ensures sent { OnOk result (Sent O.holds sink.old sink.new self.old self.new (fragments_text fragments.now)) }
        ensures part { OnErr result (TakesPrefix O.holds sink.old sink.new (self.old ++ fragments_text fragments.now)) }
        ensures short { OnErr result (FallsShort O.holds sink.old sink.new (self.old ++ fragments_text fragments.now)) }
        ensures cause { HasCause (O.faults sink.old) (O.faults sink.new) result }
        ensures no_fault { OnOk result (O.faults sink.new ≡ O.faults sink.old) }
    {
        for fragment in fragments {
            self.put_fragment(sink, fragment)?;
        }
        Ok(())
    }

    fn put_fragment<O: Sink>(
        &mut self,
        sink: &mut O,
        fragment: &Fragment<'_>,
    ) -> Result<(), WriteFault>
        ensures sent { OnOk result (Sent O.holds sink.old sink.new self.old self.new (fragment_text fragment.now)) }
        ensures part { OnErr result (TakesPrefix O.holds sink.old sink.new (self.old ++ fragment_text fragment.now)) }
        ensures short { OnErr result (FallsShort O.holds sink.old sink.new (self.old ++ fragment_text fragment.now)) }
        ensures cause { HasCause (O.faults sink.old) (O.faults sink.new) result }
        ensures no_fault { OnOk result (O.faults sink.new ≡ O.faults sink.old) }
    {
        match fragment {
            Fragment::Str(text) => self.put_str(sink, text),
            Fragment::Number(n) => self.put_number(sink, *n),
        }
    }

    /// Sends what is kept back. After a fault it is kept back as before, though a part of it went out.
    pub fn flush<O: Sink>(&mut self, sink: &mut O) -> Result<(), WriteFault>
        ensures sent { OnOk result (Sent O.holds sink.old sink.new self.old self.new []) }
        ensures part { OnErr result (TakesPrefix O.holds sink.old sink.new self.old) }
        ensures short { OnErr result (FallsShort O.holds sink.old sink.new self.old) }
        ensures empty { OnOk result (self.new ≡ []) }
        ensures stays { OnErr result (self.new ≡ self.old) }
        ensures cause { HasCause (O.faults sink.old) (O.faults sink.new) result }
        ensures no_fault { OnOk result (O.faults sink.new ≡ O.faults sink.old) }
    {
        write_whole(sink, &self.kept[..self.len])?;
        self.len = 0;
        Ok(())
    }

    fn put<O: Sink>(&mut self, sink: &mut O, bytes: &[u8]) -> Result<(), WriteFault>
        ensures sent { OnOk result (Sent O.holds sink.old sink.new self.old self.new bytes.now) }
        ensures part { OnErr result (TakesPrefix O.holds sink.old sink.new (self.old ++ bytes.now)) }
        ensures short { OnErr result (FallsShort O.holds sink.old sink.new (self.old ++ bytes.now)) }
        ensures cause { HasCause (O.faults sink.old) (O.faults sink.new) result }
        ensures no_fault { OnOk result (O.faults sink.new ≡ O.faults sink.old) }
    {
        if bytes.len() <= ROOM - self.len {
            self.append(bytes);
            return Ok(());
        }
        self.flush(sink)?;
        if bytes.len() <= ROOM {
            self.append(bytes);
            return Ok(());
        }
        write_whole(sink, bytes)?;
        Ok(())
    }

    /// Sends what is kept back where an entry might not fit behind it.
    fn make_room<O: Sink>(&mut self, sink: &mut O) -> Result<(), WriteFault>
        ensures sent { OnOk result (Sent O.holds sink.old sink.new self.old self.new []) }
        ensures short { OnErr result (FallsShort O.holds sink.old sink.new self.old) }
        ensures room { OnOk result (length self.new + 21 ≤ 4096) }
        ensures cause { HasCause (O.faults sink.old) (O.faults sink.new) result }
        ensures no_fault { OnOk result (O.faults sink.new ≡ O.faults sink.old) }
    {
        if ROOM - self.len >= ENTRY {
            return Ok(());
        }
        self.flush(sink)
    }

    /// What stands before an entry of a row.
    fn append_space(&mut self, first: bool)
        requires { length self.old < 4096 }
        ensures { self.new ≡ self.old ++ cond first [] (codes " ") }
    {
        if first {
            return;
        }
        self.kept[self.len] = b' ';
        self.len += 1;
    }

    fn append_number(&mut self, n: u64)
        requires { length self.old + 20 ≤ 4096 }
        ensures { self.new ≡ self.old ++ decimal n }
    {
        let end = self.len + count_digits(n);
        write_digits(n, &mut self.kept, end);
        self.len = end;
    }

    fn append(&mut self, bytes: &[u8])
        requires { length self.old + length bytes.now ≤ 4096 }
        ensures { self.new ≡ self.old ++ bytes.now }
    {
        let end = self.len + bytes.len();
        self.kept[self.len..end].copy_from_slice(bytes);
        self.len = end;
    }
}

/// Writes fragments in turn, all of them where no fault comes, and otherwise a prefix that isn't the whole.
pub fn write_fragments<O: Sink>(sink: &mut O, fragments: &[Fragment<'_>]) -> Result<(), WriteFault>
    ensures whole { OnOk result (Grows O.holds sink.old sink.new (fragments_text fragments.now)) }
    ensures part { TakesPrefix O.holds sink.old sink.new (fragments_text fragments.now) }
    ensures short { OnErr result (FallsShort O.holds sink.old sink.new (fragments_text fragments.now)) }
    ensures cause { HasCause (O.faults sink.old) (O.faults sink.new) result }
    ensures no_fault { OnOk result (O.faults sink.new ≡ O.faults sink.old) }
{
    let mut text = Text::make();
    text.put_fragments(sink, fragments)?;
    text.flush(sink)?;
    Ok(())
}
