//! The grammar of the command line, as `clap` reads it.

ghost use Rattle.std.specs.Prelude.{IfOk, map};
ghost use Rattle.osn_invocation.specs.Grammar.{HasArguments, HasCommands, IsCommand};
ghost use Rattle.osn_invocation.specs.Grammar.{command_line, command_of_row, date_commands};
ghost use Rattle.osn_invocation.specs.Grammar.{other_commands, table_commands};

use crate::argument::{Argument, argument_of};
use crate::commands::{CommandRow, OTHERS, TABLES};
use crate::dates::DATES;
use clap::Command;
use std::alloc::{AllocError, Global};

const ABOUT: &str = "Says which day the date on a document means, by the calendar, the beginning \
of the year and the rule of Easter that were in force where it was written";

const STATUSES: &str = "Statuses:
  0  done
  1  the input was refused
  2  an argument is wrong
  3  a file, a stream or the disk failed
  4  memory ran out
If the status is not 0, standard error says what was refused or failed.

JOURNAL may be left out of a command that begins with it: --journal FILE then names the file. Each
of these commands except audit has a default: the file that OLDSTYLE_JOURNAL names, or else the
user's own journal, oldstyle/register.journal in XDG_DATA_HOME or ~/.local/share. The command
publish makes it if it is not there.

The script oldstyle of the sources also takes --prove, which only proves and builds the program,
and install [PREFIX] and uninstall [PREFIX], by default under ~/.local.";

/// Returns a command with these arguments added.
fn with_arguments<'a>(
    alloc: Global,
    command: Command<'a>,
    arguments: &[Argument],
) -> Result<Command<'a>, AllocError>
    ensures { IfOk result (HasArguments command.entry arguments.now) }
{
    let mut command = command;
    for argument in arguments {
        command = command.arg(argument_of(alloc, *argument))?;
    }
    Ok(command)
}

/// Returns the command of a row.
fn command_of<'a>(alloc: Global, row: &CommandRow) -> Result<Command<'a>, AllocError>
    ensures { IfOk result (IsCommand (command_of_row row.now)) }
{
    let command = Command::new(alloc, row.name)
        .about(row.about)
        .after_help(row.examples);
    with_arguments(alloc, command, row.arguments)
}

/// Returns a program with the commands of these rows added.
fn with_commands<'a>(
    alloc: Global,
    program: Command<'a>,
    rows: &[CommandRow],
) -> Result<Command<'a>, AllocError>
    ensures { IfOk result (HasCommands program.entry (map command_of_row rows.now)) }
{
    let mut program = program;
    for row in rows {
        program = program.subcommand(command_of(alloc, row)?)?;
    }
    Ok(program)
}

/// Returns the program, with the commands that say what a date means.
fn with_dates<'a>(alloc: Global, program: Command<'a>) -> Result<Command<'a>, AllocError>
    ensures { IfOk result (HasCommands program.entry date_commands) }
{
    with_commands(alloc, program, &DATES)
}

/// Returns the program, with the commands for tables, the service and the register as a text.
fn with_tables<'a>(alloc: Global, program: Command<'a>) -> Result<Command<'a>, AllocError>
    ensures { IfOk result (HasCommands program.entry table_commands) }
{
    with_commands(alloc, program, &TABLES)
}

/// Returns the program, with the other commands.
fn with_others<'a>(alloc: Global, program: Command<'a>) -> Result<Command<'a>, AllocError>
    ensures { IfOk result (HasCommands program.entry other_commands) }
{
    with_commands(alloc, program, &OTHERS)
}

/// Returns the program with all its commands.
///
/// # Errors
///
/// Returns `AllocError` if memory runs out.
pub fn command_line<'a>(alloc: Global) -> Result<Command<'a>, AllocError>
    ensures { IfOk result (IsCommand command_line) }
{
    let program = Command::new(alloc, "oldstyle")
        .version("0.1.0")
        .about(ABOUT)
        .after_help(STATUSES);
    let program = with_tables(alloc, with_dates(alloc, program)?)?;
    with_others(alloc, program)
}
