//! The command `serve` with a journal that is kept: the service begins with what the file contains,
//! and each change is in it before its reply is written.
ghost use Rattle.std.specs.Prelude.{◌≡◌, ◌^◌, ◌<◌, ◌+◌, ℕ, List, Option, IfOk, IfErr, OnOk};
ghost use Rattle.std.specs.Prelude.{string_bytes};
ghost use Rattle.osn_files.specs.CountedPrefix.{IsCountedPrefix, whole_bytes};
ghost use Rattle.osn_journal.specs.KeptJournal.{file_of};
ghost use Rattle.osn_lines.specs.Streams.{input_of, output_of};
ghost use Rattle.osn_report.specs.Messages.{Reports, ReportsAt};
ghost use Rattle.osn_report.specs.declared.fault.CommandFault.{CommandFault};
ghost use Rattle.osn_serve_commands.specs.Keep.{cut_line, for_version, missing_head};
ghost use Rattle.osn_serve_commands.specs.Keep.{missing_text, ReportsCut, IsChangeFault};
ghost use Rattle.osn_serve_commands.specs.Keep.{Begins, DoesNotBegin, EndsKept, IfHeld, KeepsLines};
ghost use Rattle.osn_serve_commands.specs.KeepInside.{IsCut, IsCompleted, IsCompletedInPart};
ghost use Rattle.osn_serve_commands.specs.KeepInside.{IsReady, IsUnready};
ghost use Rattle.osn_service.specs.Faults.{MatchServiceFault};

use crate::loaded_journal::{check_version_to_keep, read_journal_to_keep};
use osn_core::Object;
use osn_files::{CountedPrefix, LastLine, head_line};
use osn_folder::{KeptFile, KeptFileFault};
use osn_journal::serve_kept;
use osn_lines::{Sink, Source};
use osn_register::Limits;
use osn_report::{CommandFault, Status, report, report_at, write_line};
use osn_request::Version;
use osn_service::{ServeRules, ServiceFault};
use std::alloc::{AllocError, Global};

/// Returns the line on a line that is cut off.
pub(crate) fn cut_text(alloc: Global, line: u64) -> Result<String, AllocError>
    ensures { IfOk result (λ text. string_bytes text ≡ cut_line line) }
{
    format!(in alloc; "oldstyle: journal line {line} was unfinished, and is cut off\n")
}

/// Cuts off the last line of a kept file, if it was not finished, and reports that on standard
/// error.
pub fn cut_unfinished<K: KeptFile, E: Sink>(
    alloc: Global,
    part: CountedPrefix,
    keeper: &mut K,
    errors: &mut E,
) -> Result<(), CommandFault>
    requires { part.lines < 2 ^ 63 }
    ensures sound { OnOk result (K.fault keeper.new ≡ K.fault keeper.old) }
    ensures ok { OnOk result ((cut : Option ℕ)
        × ReportsCut (output_of E.contents E.has_failed E.holds_back errors.old errors.new) cut
        × IsCut part cut (K.contents keeper.old) (K.contents keeper.new)) }
    ensures err { IfErr result (λ fault. IsChangeFault fault (K.fault keeper.new)
        × (E.contents errors.new ≡ E.contents errors.old)
        × (K.contents keeper.new ≡ K.contents keeper.old)) }
{
    match part.last {
        LastLine::Ended | LastLine::LacksFeed => Ok(()),
        LastLine::Unfinished => {
            let message = cut_text(alloc, part.lines + 1)?;
            keeper.cut(part.bytes)?;
            write_line(errors, message.as_str());
            Ok(())
        }
    }
}

/// Returns the head of a journal if no line counts, or else nothing.
fn missing_head(alloc: Global, part: CountedPrefix) -> Result<Vec<u8>, AllocError>
    ensures { IfOk result (λ head. (content : List ℕ) → IsCountedPrefix part content
        → head.items ≡ missing_head (whole_bytes content)) }
{
    if part.bytes == 0 {
        return head_line(alloc);
    }
    Ok(Vec::new(alloc))
}

/// Returns what is missing after the lines of a kept file that count: the line feed of the last
/// one, or the head if no line counts.
pub fn missing_text(alloc: Global, part: CountedPrefix) -> Result<Vec<u8>, AllocError>
    ensures { IfOk result (λ text. (content : List ℕ) → IsCountedPrefix part content
        → text.items ≡ missing_text content) }
{
    match part.last {
        LastLine::LacksFeed => vec![in alloc; b'\n'; 1],
        LastLine::Ended | LastLine::Unfinished => missing_head(alloc, part),
    }
}

/// Appends to a kept file of lines that count what is missing after them, and makes sure that all
/// is on the disk.
fn append_missing<K: KeptFile>(
    alloc: Global,
    part: CountedPrefix,
    keeper: &mut K,
) -> Result<(), CommandFault>
    ensures sound { OnOk result (K.fault keeper.new ≡ K.fault keeper.old) }
    ensures ok { OnOk result (IsCompleted part (K.contents keeper.old) (K.contents keeper.new)
        (K.synced keeper.new)) }
    ensures err { IfErr result (λ fault. IsChangeFault fault (K.fault keeper.new)
        × IsCompletedInPart part (K.contents keeper.old) (K.contents keeper.new)) }
{
    let text = missing_text(alloc, part)?;
    keeper.append(&text)?;
    keeper.sync()?;
    Ok(())
}

/// Makes a kept file ready for the service. It then contains the lines that count, each with its
/// line feed, and a head, and all of it is on the disk.
fn make_ready<K: KeptFile, E: Sink>(
    alloc: Global,
    part: CountedPrefix,
    keeper: &mut K,
    errors: &mut E,
) -> Result<(), CommandFault>
    requires { part.lines < 2 ^ 63 }
    ensures sound { OnOk result (K.fault keeper.new ≡ K.fault keeper.old) }
    ensures ok { OnOk result ((cut : Option ℕ)
        × ReportsCut (output_of E.contents E.has_failed E.holds_back errors.old errors.new) cut
        × IsReady part cut (K.contents keeper.old) (K.contents keeper.new) (K.synced keeper.new)) }
    ensures err { IfErr result (λ fault. IsChangeFault fault (K.fault keeper.new)
        × (cut : Option ℕ)
        × ReportsCut (output_of E.contents E.has_failed E.holds_back errors.old errors.new) cut
        × IsUnready part cut (K.contents keeper.old) (K.contents keeper.new)) }
{
    cut_unfinished(alloc, part, keeper, errors)?;
    append_missing(alloc, part, keeper)
}

/// Returns the object of a kept file, and the version of its journal, once the file is ready for
/// the service.
fn begin<K: KeptFile, J: Source, E: Sink>(
    alloc: Global,
    limits: Limits,
    keeper: &mut K,
    journal: &mut J,
    errors: &mut E,
) -> Result<(Object, Version), CommandFault>
    ensures ok { IfOk result (λ initial. (cut : Option ℕ)
        × ReportsCut (output_of E.contents E.has_failed E.holds_back errors.old errors.new) cut
        × IfHeld (file_of K.contents K.synced K.fault keeper.old) (J.remaining journal.old)
        (λ content. Begins limits content (K.fault keeper.old) cut initial.1 initial.0
        (file_of K.contents K.synced K.fault keeper.new))) }
    ensures err { IfErr result (λ fault. (cut : Option ℕ)
        × ReportsCut (output_of E.contents E.has_failed E.holds_back errors.old errors.new) cut
        × IfHeld (file_of K.contents K.synced K.fault keeper.old) (J.remaining journal.old)
        (λ content. DoesNotBegin limits content (J.has_failed journal.new) cut
        (file_of K.contents K.synced K.fault keeper.new) fault)) }
{
    let loaded_journal = read_journal_to_keep(alloc, limits, journal)?;
    check_version_to_keep(loaded_journal.version)?;
    make_ready(alloc, loaded_journal.part, keeper, errors)?;
    Ok((loaded_journal.object, loaded_journal.version))
}

/// Reports on standard error why a service that keeps the file of this path ended early.
fn report_end<E: Sink>(
    alloc: Global,
    errors: &mut E,
    path: &str,
    cause: ServiceFault<KeptFileFault>,
) -> Status
    ensures { MatchServiceFault cause
        (λ fault. Reports (output_of E.contents E.has_failed E.holds_back errors.old errors.new)
        (CommandFault.Service fault) result)
        (λ why. ReportsAt path.now
        (output_of E.contents E.has_failed E.holds_back errors.old errors.new)
        (CommandFault.KeptFile why) result) }
{
    match cause {
        ServiceFault::Serve(fault) => report(alloc, errors, CommandFault::Service(fault)),
        ServiceFault::NotKept(why) => {
            report_at(alloc, errors, path, CommandFault::KeptFile(why))
        }
    }
}

/// Answers the lines from the object, and keeps the file.
fn keep_lines<K: KeptFile, R: Source, W: Sink, E: Sink>(
    alloc: Global,
    path: &str,
    object: &mut Object,
    rules: ServeRules,
    keeper: &mut K,
    input: &mut R,
    output: &mut W,
    errors: &mut E,
) -> Status
    ensures { KeepsLines path.now rules object.old
        (file_of K.contents K.synced K.fault keeper.old)
        (file_of K.contents K.synced K.fault keeper.new)
        (input_of R.remaining R.has_failed input.old input.new)
        (output_of W.contents W.has_failed W.holds_back output.old output.new)
        (output_of E.contents E.has_failed E.holds_back errors.old errors.new) result }
{
    match serve_kept(alloc, object, rules, input, output, keeper) {
        Ok(end) => {
            if !end.refused {
                return Status::Done;
            }
            report(alloc, errors, CommandFault::RefusedLine(end.lines))
        }
        Err(end) => report_end(alloc, errors, path, end.cause),
    }
}

/// Returns what the lines may do over a file of this version: an edit may give a source if the
/// version has sources.
fn for_version(rules: ServeRules, version: Version) -> ServeRules
    ensures { result ≡ for_version version rules }
{
    ServeRules {
        takes_sources: version.has_sources(),
        ..rules
    }
}

/// Runs the command `serve` with a journal of this path that is kept: answers the request lines of
/// the input, by these rules. The object is that of the kept file, or an empty one under these
/// limits if no line of the file counts. Each change is in the file before its reply is written.
/// All lines are answered, or those up to the first refused one if the rules say so, which is a
/// fault then.
///
/// The source gives the bytes of the file, which are loaded as far as lines count. A last line that
/// was not finished is cut off, which is reported on standard error. One that counts and lacks its
/// line feed gets it. A file with no line gets a head. All of it is on the disk before the first
/// line is answered. A file with a bad line, or with a head of the first version, is left as it is.
/// An edit may give a source if the head says a version that has sources.
///
/// If the service ends early, a line on standard error reports why, and the status says so.
pub fn keep_command<K: KeptFile, J: Source, R: Source, W: Sink, E: Sink>(
    alloc: Global,
    limits: Limits,
    path: &str,
    keeper: &mut K,
    journal: &mut J,
    rules: ServeRules,
    input: &mut R,
    output: &mut W,
    errors: &mut E,
) -> Status
    ensures { EndsKept limits path.now rules (file_of K.contents K.synced K.fault keeper.old)
        (file_of K.contents K.synced K.fault keeper.new)
        (input_of J.remaining J.has_failed journal.old journal.new)
        (input_of R.remaining R.has_failed input.old input.new)
        (output_of W.contents W.has_failed W.holds_back output.old output.new)
        (output_of E.contents E.has_failed E.holds_back errors.old errors.new) result }
{
    match begin(alloc, limits, keeper, journal, errors) {
        Ok((mut object, version)) => {
            let rules = for_version(rules, version);
            keep_lines(
                alloc,
                path,
                &mut object,
                rules,
                keeper,
                input,
                output,
                errors,
            )
        }
        Err(fault) => report_at(alloc, errors, path, fault),
    }
}
