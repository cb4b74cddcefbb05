//! The command line in the terms of `clap`, as the table gives it.
ghost use Rattle.std.specs.Prelude.{◌≡◌, false, IfOk};
ghost use Rattle.clap.specs.Words.{app_of, rule_of};
ghost use Rattle.clap.specs.declared.builder.command.Command.TheViews.{out-Command as fields_of};
ghost use Rattle.amr_cli.specs.Rows.{command_row, number_row};
ghost use Rattle.amr_cli.specs.Program.{bare_app, command_app, option_rule, place_rule, placed_app, program_app};

use crate::table::{CommandForm, NumberForm, command_forms};
use clap::builder::ValueParser;
use clap::{Arg, Command};
use std::alloc::{AllocError, Global};

/// The whole command line.
pub(crate) fn program<'a>(alloc: Global) -> Result<Command<'a>, AllocError>
    ensures { IfOk result (λ program. app_of program ≡ program_app) }
{
    let mut program = bare_program(alloc);
    for form in command_forms() {
        let command = command_from(alloc, form)?;
        program = program.subcommand(command)?;
    }
    Ok(program)
}

// The program before it has commands: all words are arguments, and one of them has to name a command.
fn bare_program<'a>(alloc: Global) -> Command<'a>
    ensures { app_of result ≡ bare_app }
{
    Command::new(alloc, "amr")
        .no_binary_name(true)
        .subcommand_required(true)
}

fn command_from<'a>(alloc: Global, form: &CommandForm) -> Result<Command<'a>, AllocError>
    ensures app { IfOk result (λ command. app_of command ≡ command_app (command_row form.now)) }
    ensures local { IfOk result (λ command. (fields_of command).has_globals ≡ false) }
{
    let mut command = placed_command(alloc, form)?;
    for number in form.options {
        command = command.arg(option_argument(alloc, number))?;
    }
    Ok(command)
}

// The command before it has options.
fn placed_command<'a>(alloc: Global, form: &CommandForm) -> Result<Command<'a>, AllocError>
    ensures app { IfOk result (λ command. app_of command ≡ placed_app (command_row form.now)) }
    ensures local { IfOk result (λ command. (fields_of command).has_globals ≡ false) }
{
    let mut command = Command::new(alloc, form.name);
    for number in form.places {
        command = command.arg(place_argument(alloc, number))?;
    }
    Ok(command)
}

fn place_argument<'a>(alloc: Global, number: &NumberForm) -> Arg<'a>
    ensures rule { rule_of result ≡ place_rule (number_row number.now) }
    ensures local { result.global ≡ false }
{
    Arg::new(alloc, number.name)
        .required(true)
        .value_parser(ValueParser::Unsigned(number.low, number.high))
}

fn option_argument<'a>(alloc: Global, number: &NumberForm) -> Arg<'a>
    ensures rule { rule_of result ≡ option_rule (number_row number.now) }
    ensures local { result.global ≡ false }
{
    Arg::new(alloc, number.name)
        .long(number.name)
        .value_parser(ValueParser::Unsigned(number.low, number.high))
}
