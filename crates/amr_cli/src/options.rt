//! What the matches of `clap` say.
ghost use Rattle.std.specs.Prelude.{◌≡◌, ◌<◌, ◌^◌, option_map};
ghost use Rattle.clap.specs.Words.{first_of, found_of, rows_of, subcommand_rows_of};
ghost use Rattle.amr_cli.specs.Rows.{number_row};
ghost use Rattle.amr_cli.specs.Words.{batch_of, command_from, corners_of, option_of, option_or, place_of, run_of, trial_of, view_of};

use crate::number::number_between;
use crate::table::{
    DELTAS, KEEP, LEVEL, NUMBER, NumberForm, SIZE, SPECIES, TO, WORKERS, X0, X1, Y0, Y1,
};
use crate::{Command, Corners, RunOptions, ViewOptions};
use clap::ArgMatches;

/// The command that was found, with its numbers. None where a text is no number in its range.
pub(crate) fn command_from(matches: &ArgMatches) -> Option<Command>
    ensures { result ≡ command_from (subcommand_rows_of matches.now) }
{
    let (name, found) = matches.subcommand()?;
    match name {
        "run" => run_from(found),
        "check" => Some(Command::Check),
        "show" => Some(Command::Show),
        "trial" => trial_from(found),
        "batch" => batch_from(found),
        "view" => view_from(found),
        _ => None,
    }
}

fn run_from(matches: &ArgMatches) -> Option<Command>
    ensures { result ≡ run_of (rows_of (found_of matches.now)) }
{
    let workers = option_or(matches, &WORKERS, 1)?;
    let to = option_from(matches, &TO)?;
    let keep = option_from(matches, &KEEP)?;
    let deltas = option_from(matches, &DELTAS)?;
    Some(Command::Run(RunOptions {
        workers,
        to,
        keep,
        deltas,
    }))
}

fn trial_from(matches: &ArgMatches) -> Option<Command>
    ensures { result ≡ trial_of (rows_of (found_of matches.now)) }
{
    let number = place_from(matches, &NUMBER)?;
    let size = place_from(matches, &SIZE)?;
    let workers = option_or(matches, &WORKERS, 1)?;
    Some(Command::Trial {
        number,
        size,
        workers,
    })
}

fn batch_from(matches: &ArgMatches) -> Option<Command>
    ensures { result ≡ batch_of (rows_of (found_of matches.now)) }
{
    let workers = option_or(matches, &WORKERS, 1)?;
    Some(Command::Batch { workers })
}

fn corners_from(matches: &ArgMatches) -> Option<Corners>
    ensures { result ≡ corners_of (rows_of (found_of matches.now)) }
{
    let x0 = place_from(matches, &X0)?;
    let y0 = place_from(matches, &Y0)?;
    let x1 = place_from(matches, &X1)?;
    let y1 = place_from(matches, &Y1)?;
    Some(Corners { x0, y0, x1, y1 })
}

fn view_from(matches: &ArgMatches) -> Option<Command>
    ensures { result ≡ view_of (rows_of (found_of matches.now)) }
{
    let level = place_from(matches, &LEVEL)?;
    let corners = corners_from(matches)?;
    let species = option_or(matches, &SPECIES, 0)?;
    let workers = option_or(matches, &WORKERS, 1)?;
    Some(Command::View(ViewOptions {
        level,
        corners,
        species,
        workers,
    }))
}

// The value of an option, and this number where none is given. None where its text is no number in its range.
fn option_or(matches: &ArgMatches, option: &NumberForm, absent: u32) -> Option<u32>
    requires { option.now.high < 2 ^ 32 }
    ensures { result ≡ option_or absent (number_row option.now) (rows_of (found_of matches.now)) }
{
    Some(option_from(matches, option)?.unwrap_or(absent))
}

// The value of an option that may be absent. None where its text is no number in its range.
fn option_from(matches: &ArgMatches, option: &NumberForm) -> Option<Option<u32>>
    requires { option.now.high < 2 ^ 32 }
    ensures { result ≡ option_of (number_row option.now) (rows_of (found_of matches.now)) }
{
    match text_of(matches, option.name) {
        None => Some(None),
        Some(text) => match number_between(text, option.low, option.high) {
            Some(n) => Some(Some(n)),
            None => None,
        },
    }
}

// The number in a place. None where none stands there, or its text is no number in its range.
fn place_from(matches: &ArgMatches, place: &NumberForm) -> Option<u32>
    requires { place.now.high < 2 ^ 32 }
    ensures { result ≡ place_of (number_row place.now) (rows_of (found_of matches.now)) }
{
    match text_of(matches, place.name) {
        None => None,
        Some(text) => number_between(text, place.low, place.high),
    }
}

fn text_of<'a>(matches: &ArgMatches<'a>, name: &str) -> Option<&'a str>
    ensures { option_map (λ text. text.now) result ≡ first_of name.now (rows_of (found_of matches.now)) }
{
    matches.get_str(name)
}
