//! From words to a command.
ghost use Rattle.std.specs.Prelude.{◌≡◌, ◌<◌, [], Some, None, IfOk, IsErrOf, length, map, string_bytes};
ghost use Rattle.std.specs.List.{list_any};
ghost use Rattle.std.specs.Str.{bytes_eq};
ghost use Rattle.clap.specs.Words.{fault_of, subcommand_of, subcommand_rows_of};
ghost use Rattle.amr_cli.specs.Program.{program_app};
ghost use Rattle.amr_cli.specs.Words.{HasRanges, HasWorkers, command_of, is_command_name, is_help, may_be_command};

use crate::options::command_from;
use crate::program::program;
use crate::table::{CommandForm, command_forms};
use crate::{Command, Line};
use clap::ArgMatches;
use clap::error::ErrorKind;
use std::alloc::{AllocError, Global};

/// Why words were not read as a command.
#[derive(Clone, Copy, Debug, PartialEq, Eq, Drop)]
pub enum CliFault {
    /// The words are no command of the set.
    Usage,
    /// Memory ran out.
    NoMemory,
}

impl From<AllocError> for CliFault {
    ghost use Rattle.amr_cli.specs.declared.words.CliFault.TheVariants.{NoMemory};

    ghost from_gives = { λ _ fault. fault ≡ NoMemory };

    fn from(_: AllocError) -> Self {
        CliFault::NoMemory
    }
}

/// The command that the words are, each of its numbers in its range. `Usage` comes exactly where they are none of the
/// set. Memory may run out at any time; that is tied to no cause.
pub fn parse(alloc: Global, line: &Line) -> Result<Command, CliFault>
    ensures command { IfOk result (λ command. command_of line.now ≡ Some command) }
    ensures usage { IsErrOf result CliFault.Usage → command_of line.now ≡ None }
    ensures workers { IfOk result HasWorkers }
    ensures ranges { IfOk result HasRanges }
{
    let words = line.words();
    if !may_be_command(words) {
        return Err(CliFault::Usage);
    }
    let matches = matches_of(alloc, words)?;
    match command_from(&matches) {
        Some(command) => Ok(command),
        None => Err(CliFault::Usage),
    }
}

// What `clap` finds in the words.
fn matches_of<'a>(alloc: Global, words: &'a [String]) -> Result<ArgMatches<'a>, CliFault>
    ensures faultless { IfOk result (λ _. fault_of program_app (map string_bytes words.entry.now) ≡ []) }
    ensures found { IfOk result (λ matches. subcommand_rows_of matches ≡ subcommand_of program_app (map string_bytes words.entry.now)) }
    ensures usage { IsErrOf result CliFault.Usage → 0 < length (fault_of program_app (map string_bytes words.entry.now)) }
{
    let program = program(alloc)?;
    match program.try_get_matches_from(words) {
        Ok(matches) => Ok(matches),
        Err(error) => match error.kind() {
            ErrorKind::OutOfMemory => Err(CliFault::NoMemory),
            _ => Err(CliFault::Usage),
        },
    }
}

// Whether the first word is a command's name, and no word asks for help or for the version.
fn may_be_command(words: &[String]) -> bool
    ensures { result ≡ may_be_command (map string_bytes words.now) }
{
    match words {
        [] => false,
        [first, ..] => is_command_name(first.as_str()) && !any_is_help(words),
    }
}

fn any_is_help(words: &[String]) -> bool
    ensures { result ≡ list_any (λ word. is_help (string_bytes word)) words.now }
{
    words.iter().any(|word| is_help(word.as_str()))
}

fn is_command_name(word: &str) -> bool
    ensures { result ≡ is_command_name word.now }
{
    any_is_named(command_forms(), word)
}

fn any_is_named(forms: &[CommandForm], name: &str) -> bool
    ensures { result ≡ list_any (λ form. bytes_eq name.now form.name.now) forms.now }
{
    forms.iter().any(|form| name == form.name)
}

fn is_help(word: &str) -> bool
    ensures { result ≡ is_help word.now }
{
    word == "-h" || word == "--help" || word == "-V" || word == "--version"
}
