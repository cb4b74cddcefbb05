//! Laws of the words. Each call has an empty body, and what it ensures is the law.

ghost use Rattle.amr_cli.specs.Laws.{NumbersAreReadAlike, UsageHasNoOtherCause};

/// The texts that `clap` takes for a number in a range are those that this program reads as one.
pub fn numbers_are_read_alike()
    ensures { NumbersAreReadAlike }
{}

/// Words are refused only where the first names no command, a word asks for help or for the version, or `clap` finds a fault in
/// them: a text that it takes is never refused for its number.
pub fn usage_has_no_other_cause()
    ensures { UsageHasNoOtherCause }
{}
