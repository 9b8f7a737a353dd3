//! The text that completes command lines, with a row for each argument of the grammar.
ghost use Rattle.std.specs.Prelude.{◌≡◌, ◌++◌, IfOk, OnOk, string_bytes};
ghost use Rattle.std.specs.List.{flat_map};
ghost use Rattle.clap.specs.Words.{app_of, rule_of};
ghost use Rattle.clap.specs.Simple.{shape_of};
ghost use Rattle.osn_invocation.specs.Completions as spec;

use crate::grammar::command_line;
use crate::shell::Shell;
use crate::shell_texts::{BASH_END, BASH_HEAD, FISH_END, FISH_HEAD, ZSH_END, ZSH_HEAD};
use clap::{Arg, ArgAction, Command};
use std::alloc::{AllocError, Global};
use std::fmt::Write;

/// The room that the text gets at first: it takes some 7,000 bytes.
const ROOM: usize = 8192;

/// Returns whether an argument with this action takes a value.
fn takes_value(action: ArgAction) -> bool
    ensures { result ≡ spec.takes_value action }
{
    match action {
        ArgAction::Set | ArgAction::Append => true,
        _ => false,
    }
}

const WEEKDAYS: &str = " Monday Tuesday Wednesday Thursday Friday Saturday Sunday";

const MONTHS: &str =
    " January February March April May June July August September October November December";

/// Returns what the value of the argument of this name of a command may be: words of a list, a
/// file, the code of a territory, or other text.
fn values_named(command: &str, id: &str) -> &'static str
    ensures { result.now ≡ spec.values_named command.now id.now }
{
    match id {
        "journal"
        | "journal-file"
        | "save"
        | "keep"
        | "follow"
        | "schedule"
        | "script"
        | "questions"
        | "transcript"
        | "text"
        | "table"
        | "places" => " FILE",
        "order" => " dmy mdy",
        "separator" => " comma semicolon tab",
        "calendar" => " gregorian julian swedish day jdn",
        "shell" => " bash zsh fish",
        "code" | "in" => " CODE",
        "weekday" if command == "read" => WEEKDAYS,
        "month" if command == "month" => MONTHS,
        _ => " TEXT",
    }
}

/// Returns what the value of an argument of a command may be, or an empty text if it takes no
/// value.
fn values_of(command: &str, arg: &Arg<'_>) -> &'static str
    ensures { result.now ≡ spec.values_of command.now (rule_of arg.now) }
{
    if takes_value(arg.get_action()) {
        values_named(command, arg.get_id())
    } else {
        ""
    }
}

/// Appends the row of an argument of a command.
#[tactic(auto, unfolding(crate::specs::Completions::row_of))]
fn push_row(out: &mut String, command: &str, arg: &Arg<'_>) -> Result<(), AllocError>
    ensures { OnOk result (string_bytes out.new
        ≡ string_bytes out.old ++ spec.row_of command.now (rule_of arg.now)) }
{
    let values = values_of(command, arg);
    match arg.get_long() {
        Some(name) => writeln!(out, "_oldstyle_row {command} --{name}{values}"),
        None => writeln!(out, "_oldstyle_row {command} argument{values}"),
    }
}

/// Appends the rows of these arguments of a command.
fn push_rows(out: &mut String, command: &str, arguments: &[Arg<'_>]) -> Result<(), AllocError>
    ensures { OnOk result (string_bytes out.new ≡ string_bytes out.old
        ++ flat_map (λ arg. spec.row_of command.now (rule_of arg)) arguments.now) }
{
    for arg in arguments {
        push_row(out, command, arg)?;
    }
    Ok(())
}

/// Appends the row that names a command.
#[tactic(auto, unfolding(crate::specs::Completions::name_row))]
fn push_name(out: &mut String, command: &str) -> Result<(), AllocError>
    ensures { OnOk result (string_bytes out.new
        ≡ string_bytes out.old ++ spec.name_row command.now) }
{
    writeln!(out, "_oldstyle_row {command}")
}

/// Appends the rows of a command: the one that names it, and those of its arguments.
fn push_command(out: &mut String, command: &Command<'_>) -> Result<(), AllocError>
    ensures { OnOk result (string_bytes out.new
        ≡ string_bytes out.old ++ spec.command_rows (shape_of command.now)) }
{
    let name = command.get_name();
    push_name(out, name)?;
    push_rows(out, name, command.get_arguments())
}

/// Appends the rows of these commands.
fn push_commands(out: &mut String, commands: &[Command<'_>]) -> Result<(), AllocError>
    ensures { OnOk result (string_bytes out.new ≡ string_bytes out.old
        ++ flat_map (λ command. spec.command_rows (shape_of command)) commands.now) }
{
    for command in commands {
        push_command(out, command)?;
    }
    Ok(())
}

/// Appends the rows of a grammar: those of the program's own arguments, and those of its commands.
fn push_grammar(out: &mut String, grammar: &Command<'_>) -> Result<(), AllocError>
    ensures { OnOk result (string_bytes out.new
        ≡ string_bytes out.old ++ spec.grammar_rows (app_of grammar.now)) }
{
    push_rows(out, grammar.get_name(), grammar.get_arguments())?;
    push_commands(out, grammar.get_subcommands())
}

/// Returns the text before the rows, and the text after them.
#[tactic(auto, unfolding(crate::specs::Completions::head_of, crate::specs::Completions::end_of))]
fn frame_of(shell: Shell) -> (&'static str, &'static str)
    ensures head { result.0.now ≡ spec.head_of shell }
    ensures end { result.1.now ≡ spec.end_of shell }
{
    match shell {
        Shell::Bash => (BASH_HEAD, BASH_END),
        Shell::Zsh => (ZSH_HEAD, ZSH_END),
        Shell::Fish => (FISH_HEAD, FISH_END),
    }
}

/// Returns the text with which a shell completes command lines.
///
/// # Errors
///
/// Returns `AllocError` if memory runs out.
#[tactic(auto, unfolding(crate::specs::Completions::completions))]
pub fn completions(alloc: Global, shell: Shell) -> Result<String, AllocError>
    ensures { IfOk result (λ text. string_bytes text ≡ spec.completions shell) }
{
    let (head, end) = frame_of(shell);
    let grammar = command_line(alloc)?;
    let mut text = String::with_capacity(alloc, ROOM)?;
    text.push_str(head)?;
    push_grammar(&mut text, &grammar)?;
    text.push_str(end)?;
    Ok(text)
}
