//! What a command line asks for, by what the grammar finds in its arguments.

ghost use Rattle.std.specs.Prelude.{◌≡◌, Contains, IfErr, IfOk, Some, map, option_map, true};
ghost use Rattle.clap.specs.Words.{FailsBy, fault_of, found_of, kind_of, rows_of};
ghost use Rattle.clap.specs.Words.{subcommand_rows_of, takes};
ghost use Rattle.clap.specs.declared.error.kind.ErrorKind.TheVariants.{OutOfMemory};
ghost use Rattle.osn_invocation.specs.Grammar.{HasMatches, command_line};
ghost use Rattle.osn_invocation.specs.Invocation.{command_by, command_model, command_named};
ghost use Rattle.osn_invocation.specs.Invocation.{command_names, completions_command};
ghost use Rattle.osn_invocation.specs.Invocation.{convert_command, invocation_by, invocation_in};
ghost use Rattle.osn_invocation.specs.Invocation.{model_of, serve_command, with_limits};

use crate::file_words::{audit_of, desk_of, replay_of};
use crate::grammar::command_line;
use crate::letters::{LettersOptions, letters_of};
use crate::pages::{almanac_of, day_of, month_of, page_of, read_of, territory_of, year_of};
use crate::register_text::{check_of, diff_of, editions_of, plan_of, publish_of, register_text_of};
use crate::values::{is_given, number_of, text_of, value_of};
use clap::{ArgMatches, Error};
use std::alloc::Global;
use std::convert::AsStr;

/// The number of readers of the service, if no number is given.
pub(crate) const READERS: u32 = 8;

/// The options of the service. Files are named by their paths; the readers are 1 to 64.
#[derive(Clone, Copy, Debug, PartialEq, Eq)]
pub struct ServeOptions<'a> {
    /// The journal to begin with, if any.
    pub journal: Option<&'a str>,
    /// The file to which the journal is saved in the end, if any.
    pub save: Option<&'a str>,
    /// The file in which the journal is kept while the service runs, if any.
    pub keep: Option<&'a str>,
    /// Whether the journal that is kept is first upgraded, if it is of an earlier version.
    pub upgrade: bool,
    /// The journal that another run keeps and this one follows, if any.
    pub follow: Option<&'a str>,
    /// The number of readers.
    pub readers: u32,
    /// Whether edits and publishes are refused.
    pub read_only: bool,
    /// Whether the first line that is refused is the last to be answered.
    pub stop_at_refusal: bool,
    /// Whether a reply that reports a refusal or a fault has a message for people.
    pub explains: bool,
    /// Whether a member that a request doesn't have is refused.
    pub strict_members: bool,
}

/// A page of what a journal published, by its arguments.
#[derive(Clone, Copy, Debug, PartialEq, Eq)]
pub enum PageRequest<'a> {
    /// The almanac of a territory and year.
    Almanac {
        /// The code of the territory.
        code: &'a str,
        /// The year, counted from 1 January.
        year: u32,
    },
    /// Which day a written date means in a territory.
    Read {
        /// The territory, by its code or its name.
        code: &'a str,
        /// The date as written in the document.
        date: &'a str,
        /// The name of the weekday that the document has, if any.
        weekday: Option<&'a str>,
        /// The word of the order in which a date's three numbers are read, if it is named.
        order: Option<&'a str>,
        /// Whether a date that means no day is a refusal.
        strict: bool,
        /// Whether the answer is printed as a line of JSON.
        json: bool,
    },
    /// How a territory dated a day.
    Day {
        /// The territory, by its code or its name.
        code: &'a str,
        /// A Gregorian date, or a day number.
        date: &'a str,
        /// Whether the answer is printed as a line of JSON.
        json: bool,
    },
    /// A month as a territory dated its days.
    Month {
        /// The territory, by its code or its name.
        code: &'a str,
        /// The year as the territory counted it.
        year: &'a str,
        /// The month, by its number or its name.
        month: &'a str,
        /// Whether the answer is printed as a line of JSON.
        json: bool,
    },
    /// A year as a territory counted it.
    Year {
        /// The territory, by its code or its name.
        code: &'a str,
        /// The year as the territory counted it.
        year: &'a str,
        /// Whether the answers are printed as lines of JSON.
        json: bool,
    },
    /// The periods of a territory, or all territories.
    Territory {
        /// The territory, by its code or its name, if one is named.
        code: Option<&'a str>,
        /// Whether the answer is printed as a line of JSON.
        json: bool,
    },
}

/// What a command has to do. Files are named by their paths.
#[derive(Clone, Copy, Debug, PartialEq, Eq)]
pub enum CommandWords<'a> {
    /// To answer request lines.
    Serve(ServeOptions<'a>),
    /// To print what each step of a schedule gives. The readers are 1 to 64.
    Replay {
        /// How many readers there are.
        readers: u32,
        /// The file of the steps.
        schedule: &'a str,
    },
    /// To print the replies to readers while an editor works through a script.
    Desk {
        /// The file of what the editor does.
        script: &'a str,
        /// The file of what the readers ask.
        questions: &'a str,
    },
    /// To print a page of what a journal published.
    Page {
        /// The file of the journal.
        journal: &'a str,
        /// The word of the edition, if one is named.
        edition: Option<&'a str>,
        /// Which page.
        page: PageRequest<'a>,
    },
    /// To compare a transcript with a journal.
    Audit {
        /// The file of the journal.
        journal: &'a str,
        /// The file of what readers asked, and of the replies.
        transcript: &'a str,
    },
    /// To say of each letter of a table which day its date means.
    Letters {
        /// The file of the journal.
        journal: &'a str,
        /// The file of the table, if one is named.
        table: Option<&'a str>,
        /// Which columns, and how they are read.
        options: LettersOptions<'a>,
    },
    /// To print a day by every calendar.
    Convert {
        /// The word of the date's calendar, or `day`.
        calendar: &'a str,
        /// The date, or after `day` a day number.
        date: &'a str,
    },
    /// To list the editions of a journal.
    Editions {
        /// The file of the journal.
        journal: &'a str,
    },
    /// To print what changed from one edition of a journal to a later one.
    Diff {
        /// The file of the journal.
        journal: &'a str,
        /// The word of the earlier edition.
        from: &'a str,
        /// The word of the later edition.
        to: &'a str,
    },
    /// To print the territories that a journal published as a text.
    Text {
        /// The file of the journal.
        journal: &'a str,
        /// The word of the edition, if one is named.
        edition: Option<&'a str>,
        /// The code of the only territory to print, if one is named.
        code: Option<&'a str>,
    },
    /// To say whether a text has a fault.
    Check {
        /// The file of the text.
        text: &'a str,
    },
    /// To print the edits that change what a journal published into what a text says.
    Plan {
        /// The file of the journal.
        journal: &'a str,
        /// The file of the text.
        text: &'a str,
        /// Whether edits are a refusal.
        strict: bool,
    },
    /// To publish those edits as one edition.
    Publish {
        /// The file of the journal.
        journal: &'a str,
        /// The file of the text.
        text: &'a str,
        /// Whether they may change again what later editions than that of the text changed.
        onto_newest: bool,
    },
    /// To print the text with which a shell completes command lines.
    Completions {
        /// The word of the shell.
        shell: &'a str,
    },
}

/// What a command line asks for.
#[derive(Clone, Copy, Debug, PartialEq, Eq)]
pub struct Invocation<'a> {
    /// The text of the limits of the register, if any is given.
    pub limits: Option<&'a str>,
    /// The command.
    pub command: CommandWords<'a>,
}

/// Returns what the grammar finds in the arguments of a command line.
fn matches_in<'a, S: AsStr>(alloc: Global, args: &'a [S]) -> Result<ArgMatches<'a>, Error>
    ensures ok { IfOk result (HasMatches (map S.text args.now)) }
    ensures err { IfErr result (λ e. takes command_line (map S.text args.now) ≡ true
        → kind_of e ≡ OutOfMemory) }
    ensures kinds { FailsBy (fault_of command_line (map S.text args.now)) result }
{
    command_line(alloc)?.try_get_matches_from(args)
}

/// Reads the arguments of a command line. The first one is the program's name.
///
/// # Errors
///
/// Returns what is shown to the user in place of a command: help or the version if they were
/// requested, a mistake in the arguments, or that memory ran out.
pub fn parse_arguments<'a, S: AsStr>(alloc: Global, args: &'a [S]) -> Result<Invocation<'a>, Error>
    ensures ok { IfOk result (λ found. model_of found ≡ invocation_in (map S.text args.now)) }
    ensures err { IfErr result (λ e. takes command_line (map S.text args.now) ≡ true
        → kind_of e ≡ OutOfMemory) }
    ensures kinds { FailsBy (fault_of command_line (map S.text args.now)) result }
{
    let matches = matches_in(alloc, args)?;
    Ok(invocation_of(&matches))
}

/// Returns the invocation of what was found; without a command, that of `serve`.
fn invocation_of<'a>(matches: &ArgMatches<'a>) -> Invocation<'a>
    ensures { model_of result
        ≡ invocation_by (rows_of (found_of matches.now)) (subcommand_rows_of matches.now) }
{
    match matches.subcommand() {
        Some((name, matches)) => with_limits(matches, command_or_serve(name, matches)),
        None => with_limits(matches, serve_of(matches)),
    }
}

/// Returns an invocation of a command, with the text of its limits.
fn with_limits<'a>(matches: &ArgMatches<'a>, command: CommandWords<'a>) -> Invocation<'a>
    ensures { model_of result
        ≡ with_limits (rows_of (found_of matches.now)) (command_model command.entry) }
{
    Invocation {
        limits: value_of(matches, "limits"),
        command,
    }
}

/// Returns what a command asks for, by its name and the arguments after it. For each name that the
/// grammar has, this is what its own command asks for.
#[tactic(auto, unfolding(crate::specs::Invocation::command_by))]
fn command_or_serve<'a>(name: &str, matches: &ArgMatches<'a>) -> CommandWords<'a>
    ensures value { command_model result ≡ command_by name.now (rows_of (found_of matches.now)) }
    ensures named { Contains command_names name.now
        → command_named name.now (rows_of (found_of matches.now)) ≡ Some (command_model result) }
{
    match command_of(name, matches) {
        Some(command) => command,
        None => serve_of(matches),
    }
}

/// Returns what a command asks for, by its name and the arguments after it, if the program has a
/// command of this name.
fn command_of<'a>(name: &str, matches: &ArgMatches<'a>) -> Option<CommandWords<'a>>
    ensures { option_map command_model result
        ≡ command_named name.now (rows_of (found_of matches.now)) }
{
    match name {
        "serve" => Some(serve_of(matches)),
        "replay" => Some(replay_of(matches)),
        "desk" => Some(desk_of(matches)),
        "audit" => Some(audit_of(matches)),
        "convert" => Some(convert_of(matches)),
        "letters" => Some(letters_of(matches)),
        "completions" => Some(completions_of(matches)),
        "editions" => Some(editions_of(matches)),
        "diff" => Some(diff_of(matches)),
        "text" => Some(register_text_of(matches)),
        "check" => Some(check_of(matches)),
        "plan" => Some(plan_of(matches)),
        "publish" => Some(publish_of(matches)),
        "almanac" => Some(page_of(matches, almanac_of(matches))),
        "read" => Some(page_of(matches, read_of(matches))),
        "day" => Some(page_of(matches, day_of(matches))),
        "month" => Some(page_of(matches, month_of(matches))),
        "year" => Some(page_of(matches, year_of(matches))),
        "territory" => Some(page_of(matches, territory_of(matches))),
        _ => None,
    }
}

/// Returns what the options of `serve` ask for; without options, nothing is named.
fn serve_of<'a>(matches: &ArgMatches<'a>) -> CommandWords<'a>
    ensures { command_model result ≡ serve_command (rows_of (found_of matches.now)) }
{
    CommandWords::Serve(ServeOptions {
        journal: value_of(matches, "journal"),
        save: value_of(matches, "save"),
        keep: value_of(matches, "keep"),
        upgrade: is_given(matches, "upgrade"),
        follow: value_of(matches, "follow"),
        readers: number_of(matches, "readers", READERS),
        read_only: is_given(matches, "read-only"),
        stop_at_refusal: is_given(matches, "stop-at-refusal"),
        explains: is_given(matches, "explain"),
        strict_members: is_given(matches, "strict-members"),
    })
}

/// Returns what the arguments of `convert` ask for.
fn convert_of<'a>(matches: &ArgMatches<'a>) -> CommandWords<'a>
    ensures { command_model result ≡ convert_command (rows_of (found_of matches.now)) }
{
    CommandWords::Convert {
        calendar: text_of(matches, "calendar"),
        date: text_of(matches, "date"),
    }
}

/// Returns what the argument of `completions` asks for.
fn completions_of<'a>(matches: &ArgMatches<'a>) -> CommandWords<'a>
    ensures { command_model result ≡ completions_command (rows_of (found_of matches.now)) }
{
    CommandWords::Completions {
        shell: text_of(matches, "shell"),
    }
}
