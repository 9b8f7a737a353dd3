//! The command `serve`, if no journal is kept.
ghost use Rattle.std.specs.Prelude.{◌≡◌, IfOk, IfErr, option_map, string_bytes};
ghost use Rattle.osn_lines.specs.Streams.{input_of, output_of};
ghost use Rattle.osn_report.specs.Journal.{Begins, BeginsNot};
ghost use Rattle.osn_report.specs.declared.fault.CommandFault.{CommandFault};
ghost use Rattle.osn_serve_commands.specs.Serve.{LeavesJournal, Serves, ServesLines, input_if};
ghost use Rattle.osn_service.specs.Faults.{MatchServiceFault};

use osn_core::Object;
use osn_files::{FileFault, journal_text, load_journal};
use osn_lines::{Sink, Source};
use osn_register::Limits;
use osn_report::{CommandFault, Status, report, report_at, report_no_memory};
use osn_service::{ServeRules, ServiceFault, serve_store};
use std::alloc::Global;
use std::convert::Infallible;

/// The result of a service.
#[derive(Debug, Drop)]
pub struct ServeResult {
    /// How it ended.
    pub status: Status,
    /// The journal, if it must be saved and all lines were answered.
    pub journal: Option<String>,
    /// How many editions were published.
    pub editions: usize,
}

impl ServeResult {
    /// Returns the result with no journal.
    fn without_journal(status: Status, editions: usize) -> ServeResult
        ensures { result ≡ record { status = status; journal = None; editions = editions } }
    {
        ServeResult {
            status,
            journal: None,
            editions,
        }
    }
}

/// Returns the object of the journal, if there is one, or else an empty one under these limits.
///
/// # Errors
///
/// Why the journal makes no object.
pub fn initial_object<J: Source>(
    alloc: Global,
    limits: Limits,
    journal: &mut Option<J>,
) -> Result<Object, FileFault>
    ensures ok { IfOk result
        (Begins limits (input_if J.remaining J.has_failed journal.old journal.new)) }
    ensures err { IfErr result
        (BeginsNot limits (input_if J.remaining J.has_failed journal.old journal.new)) }
{
    match journal {
        Some(source) => load_journal(alloc, limits, source),
        None => Ok(Object::new(alloc, limits)),
    }
}

/// Returns the fault of a service over an object alone.
fn fault_of(cause: ServiceFault<Infallible>) -> CommandFault
    ensures { MatchServiceFault cause (λ fault. result ≡ CommandFault.Service fault) (λ never. ⊥) }
{
    match cause {
        ServiceFault::Serve(fault) => CommandFault::Service(fault),
        ServiceFault::NotKept(never) => match never {},
    }
}

/// Returns the journal of an object, if it must be saved.
fn leave_journal<E: Sink>(
    alloc: Global,
    object: &Object,
    saves: bool,
    editions: usize,
    errors: &mut E,
) -> ServeResult
    ensures left { LeavesJournal saves object.now (option_map string_bytes result.journal)
        (output_of E.contents E.has_failed E.holds_back errors.old errors.new) result.status }
    ensures editions { result.editions ≡ editions }
{
    if !saves {
        return ServeResult::without_journal(Status::Done, editions);
    }
    match journal_text(alloc, object) {
        Ok(text) => ServeResult {
            status: Status::Done,
            journal: Some(text),
            editions,
        },
        Err(_) => ServeResult::without_journal(report_no_memory(errors), editions),
    }
}

/// Answers the lines from an object.
fn serve_lines<R: Source, W: Sink, E: Sink>(
    alloc: Global,
    object: &mut Object,
    rules: ServeRules,
    saves: bool,
    input: &mut R,
    output: &mut W,
    errors: &mut E,
) -> ServeResult
    ensures { ServesLines rules object.old saves
        (input_of R.remaining R.has_failed input.old input.new)
        (output_of W.contents W.has_failed W.holds_back output.old output.new)
        (output_of E.contents E.has_failed E.holds_back errors.old errors.new)
        (option_map string_bytes result.journal) result.editions result.status }
{
    let before = object.batches().len();
    let outcome = serve_store(alloc, object, rules, input, output);
    let editions = object.batches().len().saturating_sub(before);
    match outcome {
        Ok(end) => {
            if !end.refused {
                return leave_journal(alloc, object, saves, editions, errors);
            }
            let fault = CommandFault::RefusedLine(end.lines);
            ServeResult::without_journal(report(alloc, errors, fault), editions)
        }
        Err(end) => {
            let fault = fault_of(end.cause);
            ServeResult::without_journal(report(alloc, errors, fault), editions)
        }
    }
}

/// Runs the command `serve`: answers the request lines of the input, by these rules, from the
/// object of the journal of this path or from an empty one, under these limits. The journal is read
/// whole before the first line is read. If the journal must be saved and all lines were answered,
/// its text is returned too.
///
/// All lines are answered, or those up to the first refused one if the rules say so. That is a
/// fault then, and there is no journal to save.
///
/// If the service ends early, a line on standard error reports why, and the status says so.
pub fn serve_command<J: Source, R: Source, W: Sink, E: Sink>(
    alloc: Global,
    limits: Limits,
    path: &str,
    journal: &mut Option<J>,
    rules: ServeRules,
    saves: bool,
    input: &mut R,
    output: &mut W,
    errors: &mut E,
) -> ServeResult
    ensures { Serves limits path.now rules (input_if J.remaining J.has_failed journal.old
        journal.new) saves
        (input_of R.remaining R.has_failed input.old input.new)
        (output_of W.contents W.has_failed W.holds_back output.old output.new)
        (output_of E.contents E.has_failed E.holds_back errors.old errors.new)
        (option_map string_bytes result.journal) result.editions result.status }
{
    match initial_object(alloc, limits, journal) {
        Ok(mut object) => serve_lines(alloc, &mut object, rules, saves, input, output, errors),
        Err(fault) => {
            let fault = CommandFault::File(fault);
            ServeResult::without_journal(report_at(alloc, errors, path, fault), 0)
        }
    }
}
