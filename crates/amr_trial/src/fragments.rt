//! Fragments of text, written into memory.

ghost use Rattle.std.specs.Prelude.{◌≡◌, ◌++◌, OnOk};
ghost use Rattle.amr_io.specs.Buffered.{fragment_text, fragments_text};

use amr_causes::NoMemory;
use amr_io::Fragment;
use itoa::Buffer;

fn put_fragment(fragment: &Fragment<'_>, out: &mut Vec<u8>) -> Result<(), NoMemory>
    ensures { OnOk result (out.new.items ≡ out.old.items ++ fragment_text fragment.now) }
{
    match fragment {
        Fragment::Str(text) => out.extend_from_slice(text.as_bytes())?,
        Fragment::Number(n) => {
            let mut digits = Buffer::new();
            out.extend_from_slice(digits.format(*n).as_bytes())?;
        }
    }
    Ok(())
}

/// Writes fragments in turn.
pub(crate) fn put(fragments: &[Fragment<'_>], out: &mut Vec<u8>) -> Result<(), NoMemory>
    ensures { OnOk result (out.new.items ≡ out.old.items ++ fragments_text fragments.now) }
{
    for fragment in fragments {
        put_fragment(fragment, out)?;
    }
    Ok(())
}
