//! An argument of a command, as it is typed and as help shows it.

ghost use Rattle.osn_invocation.specs.Grammar.{IsArgument, journal_option, readers_option};
ghost use Rattle.osn_invocation.specs.Grammar.{required_argument};
ghost use Rattle.osn_invocation.specs.Grammar.{rule_of_argument};

use clap::{Arg, ArgAction, value_parser};
use std::alloc::Global;

/// An argument of a command: its name, how help shows its value, and what help says of it.
#[derive(Clone, Copy, Debug)]
pub(crate) enum Argument {
    /// A required argument, such as JOURNAL.
    Required(&'static str, &'static str, &'static str),
    /// An optional argument, such as CODE.
    Optional(&'static str, &'static str, &'static str),
    /// The required argument YEAR, 0 to 4294967295.
    Year(&'static str),
    /// An option with a value, such as `--journal FILE`.
    Valued(&'static str, &'static str, &'static str),
    /// The option `--journal FILE`, in place of the argument JOURNAL.
    Journal(&'static str),
    /// An option without a value, such as `--strict`.
    Flag(&'static str, &'static str),
    /// The option `--readers N`, 1 to 64.
    Readers(&'static str),
    /// The option `--readers N`, 1 to 64, which is required.
    RequiredReaders(&'static str),
}

/// Returns the option `--readers`.
fn readers_of<'a>(alloc: Global) -> Arg<'a>
    ensures { IsArgument readers_option result }
{
    Arg::new(alloc, "readers")
        .long("readers")
        .value_name("N")
        .value_parser(value_parser!(u32).range(1..65))
}

/// Returns the option `--journal`. Its name differs from that of the argument JOURNAL.
fn journal_of<'a>(alloc: Global) -> Arg<'a>
    ensures { IsArgument journal_option result }
{
    Arg::new(alloc, "journal-file")
        .long("journal")
        .value_name("FILE")
}

/// Returns an argument that is required.
fn required_of<'a>(alloc: Global, id: &'a str, value_name: &'a str) -> Arg<'a>
    ensures { IsArgument (required_argument id.now) result }
{
    Arg::new(alloc, id).value_name(value_name).required(true)
}

/// Returns an argument for `clap`.
pub(crate) fn argument_of<'a>(alloc: Global, argument: Argument) -> Arg<'a>
    ensures { IsArgument (rule_of_argument argument) result }
{
    match argument {
        Argument::Required(id, value_name, help) => required_of(alloc, id, value_name).help(help),
        Argument::Optional(id, value_name, help) => Arg::new(alloc, id)
            .value_name(value_name)
            .help(help),
        Argument::Year(help) => required_of(alloc, "year", "YEAR")
            .value_parser(value_parser!(u32))
            .help(help),
        Argument::Valued(id, value_name, help) => {
            Arg::new(alloc, id)
                .long(id)
                .value_name(value_name)
                .help(help)
        }
        Argument::Journal(help) => journal_of(alloc).help(help),
        Argument::Flag(id, help) => Arg::new(alloc, id)
            .long(id)
            .action(ArgAction::Count)
            .help(help),
        Argument::Readers(help) => readers_of(alloc).help(help),
        Argument::RequiredReaders(help) => readers_of(alloc).required(true).help(help),
    }
}
