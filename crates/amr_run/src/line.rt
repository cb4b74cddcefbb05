//! A line of text.
ghost use Rattle.std.specs.Prelude.{◌≡◌, OnOk, OnErr};
ghost use Rattle.amr_causes.specs.Causes.{HasCause};
ghost use Rattle.amr_causes.specs.Bytes.{Grows};
ghost use Rattle.amr_def.specs.Plot.{line};
ghost use Rattle.amr_io.specs.Buffered.{fragments_text};
ghost use Rattle.amr_io.specs.Short.{FallsShort};

use amr_io::{Fragment, Sink, Text, WriteFault};

/// Writes fragments in turn and a newline, all of them where no fault comes, and otherwise a prefix that isn't the whole.
pub(crate) fn put_line<O: Sink>(sink: &mut O, fragments: &[Fragment<'_>]) -> Result<(), WriteFault>
    ensures whole { OnOk result (Grows O.holds sink.old sink.new (line (fragments_text fragments.now))) }
    ensures short { OnErr result (FallsShort O.holds sink.old sink.new (line (fragments_text fragments.now))) }
    ensures cause { HasCause (O.faults sink.old) (O.faults sink.new) result }
    ensures no_fault { OnOk result (O.faults sink.new ≡ O.faults sink.old) }
{
    let mut text = Text::make();
    text.put_fragments(sink, fragments)?;
    text.put_str(sink, "\n")?;
    text.flush(sink)?;
    Ok(())
}
