//! Reports why a command ended early at a file: the line of the fault, and one that explains it
//! with the path of the file.
ghost use Rattle.std.specs.Prelude.{◌≡◌, ℕ, List, Option, Some, IfOk, option_map, string_bytes};
ghost use Rattle.osn_lines.specs.Streams.{output_of};
ghost use Rattle.osn_report.specs.Explanation as spec;
ghost use Rattle.osn_report.specs.Messages.{ReportsAt, ReportsExplanation, ReportsMore};

use crate::fault::CommandFault;
use crate::fault_report::{report, write_line};
use crate::open_failure::{cause_text, report_open_failure};
use crate::status::Status;
use osn_files::{FileFault, LineFault, Role};
use osn_folder::{ChangeCause, FollowFault, KeepFault, KeptFileFault};
use osn_lines::{EscapedText, Sink};
use osn_request::{Member, WireFault};
use std::alloc::{AllocError, Global};

/// Returns the text on why a file could not be made or changed.
fn change_text(cause: ChangeCause) -> &'static str
    ensures { result.now ≡ spec.change_text cause }
{
    match cause {
        ChangeCause::NoFolder => "no such folder",
        ChangeCause::PermissionDenied => "permission denied",
        ChangeCause::NoSpace => "no space left on the device",
        ChangeCause::Other => "write fault",
    }
}

/// Returns the note that says this about the file of a path.
fn note(alloc: Global, path: &str, message: &str) -> Result<Option<String>, AllocError>
    ensures { IfOk result (λ text.
        option_map string_bytes text ≡ Some (spec.note path.now message.now)) }
{
    Ok(Some(format!(in alloc; "note: {}: {message}\n", EscapedText(path))?))
}

/// Returns the text that a file is not a journal, how the journal is named if its word was left
/// out, and how one begins.
fn head_text(alloc: Global, path: &str) -> Result<String, AllocError>
    ensures { IfOk result (λ text. string_bytes text ≡ spec.head_text path.now) }
{
    format!(in alloc;
        "help: {} is not a journal: --journal FILE names one, and oldstyle publish FILE TEXT \
begins one in a new or empty file\n",
        EscapedText(path)
    )
}

/// Returns what a stop may have left at the end of a journal, and what cuts it off.
fn torn_text(alloc: Global, line: u64, path: &str) -> Result<String, AllocError>
    ensures { IfOk result (λ text. string_bytes text ≡ spec.torn_text line path.now) }
{
    format!(in alloc;
        "help: if line {line} is the last, a run that was stopped left it unfinished: \
oldstyle serve --keep {} \
< /dev/null cuts it off\n",
        EscapedText(path)
    )
}

/// Returns the help on the first line of a journal, if it is not a head.
fn head_help(alloc: Global, path: &str, fault: WireFault) -> Result<Option<String>, AllocError>
    ensures { IfOk result (λ text.
        option_map string_bytes text ≡ spec.head_help path.now fault) }
{
    match fault {
        WireFault::LineTooLong | WireFault::NotJson | WireFault::NotObject | WireFault::BadHead => {
            Ok(Some(head_text(alloc, path)?))
        }
        _ => Ok(None),
    }
}

/// Returns the help on a later line, if it is not JSON.
fn torn_help(
    alloc: Global,
    path: &str,
    line: u64,
    fault: WireFault,
) -> Result<Option<String>, AllocError>
    ensures { IfOk result (λ text.
        option_map string_bytes text ≡ spec.torn_help path.now line fault) }
{
    match fault {
        WireFault::NotJson => Ok(Some(torn_text(alloc, line, path)?)),
        _ => Ok(None),
    }
}

/// Returns the help on a bad line of a journal.
fn line_help(
    alloc: Global,
    path: &str,
    line: u64,
    fault: LineFault,
) -> Result<Option<String>, AllocError>
    ensures { IfOk result (λ text.
        option_map string_bytes text ≡ spec.line_help path.now line fault) }
{
    let LineFault::Wire(fault) = fault else {
        return Ok(None);
    };
    if line == 1 {
        head_help(alloc, path, fault)
    } else {
        torn_help(alloc, path, line, fault)
    }
}

/// Returns the text of what the lines of a file are that is not a journal.
fn form_text(role: Role) -> &'static str
    ensures { result.now ≡ spec.form_text role }
{
    match role {
        Role::Journal => "",
        Role::Script => "the first line of a script is {\"journal\":2}",
        Role::Questions => {
            "each line of the questions is a query, such as {\"op\":\"lands\",\"reader\":1}"
        }
        Role::Schedule => "each line of a schedule is a step, such as {\"step\":\"publish\"}",
        Role::Transcript => {
            "each line of a transcript is a query with its reply, as oldstyle desk prints them"
        }
    }
}

/// Returns the line of what the lines of a file are that is not a journal.
fn form_line(alloc: Global, path: &str, role: Role) -> Result<String, AllocError>
    ensures { IfOk result (λ text. string_bytes text ≡ spec.form_line path.now role) }
{
    format!(in alloc; "help: {}: {}\n", EscapedText(path), form_text(role))
}

/// Returns whether a line is of another kind than those of a file: it is not an object, or lacks
/// the member that all of them have.
fn is_other_kind(role: Role, fault: WireFault) -> bool
    ensures { result ≡ spec.is_other_kind role fault }
{
    match (role, fault) {
        (_, WireFault::NotJson | WireFault::NotObject)
        | (Role::Script, WireFault::BadHead)
        | (Role::Questions, WireFault::BadField(Member::Op))
        | (Role::Schedule, WireFault::BadField(Member::Step))
        | (Role::Transcript, WireFault::BadField(Member::Ask)) => true,
        _ => false,
    }
}

/// Returns the help on the first line of a file that is not a journal, if it is of another kind.
fn form_help(
    alloc: Global,
    path: &str,
    role: Role,
    line: u64,
    fault: LineFault,
) -> Result<Option<String>, AllocError>
    ensures { IfOk result (λ text.
        option_map string_bytes text ≡ spec.form_help path.now role line fault) }
{
    match fault {
        LineFault::Wire(fault) if line == 1 && is_other_kind(role, fault) => {
            Ok(Some(form_line(alloc, path, role)?))
        }
        _ => Ok(None),
    }
}

/// Returns the help on a bad line of a file.
fn role_help(
    alloc: Global,
    path: &str,
    role: Role,
    line: u64,
    fault: LineFault,
) -> Result<Option<String>, AllocError>
    ensures { IfOk result (λ text.
        option_map string_bytes text ≡ spec.role_help path.now role line fault) }
{
    match role {
        Role::Journal => line_help(alloc, path, line, fault),
        _ => form_help(alloc, path, role, line, fault),
    }
}

fn file_explanation(
    alloc: Global,
    path: &str,
    fault: &FileFault,
) -> Result<Option<String>, AllocError>
    ensures { IfOk result (λ text.
        option_map string_bytes text ≡ spec.file_explanation path.now fault.now) }
{
    match *fault {
        FileFault::NoMemory => Ok(None),
        FileFault::ReadFault => note(alloc, path, "read fault"),
        FileFault::BadLine { role, line, fault } => role_help(alloc, path, role, line, fault),
    }
}

fn keep_explanation(
    alloc: Global,
    path: &str,
    fault: KeepFault,
) -> Result<Option<String>, AllocError>
    ensures { IfOk result (λ text.
        option_map string_bytes text ≡ spec.keep_explanation path.now fault) }
{
    match fault {
        KeepFault::Held => Ok(None),
        KeepFault::NotOpened(cause) => note(alloc, path, cause_text(cause)),
    }
}

fn kept_explanation(
    alloc: Global,
    path: &str,
    fault: KeptFileFault,
) -> Result<Option<String>, AllocError>
    ensures { IfOk result (λ text.
        option_map string_bytes text ≡ spec.kept_explanation path.now fault) }
{
    match fault {
        KeptFileFault::ChangeFailed(cause) => note(alloc, path, change_text(cause)),
        KeptFileFault::Replaced => Ok(None),
    }
}

fn followed_explanation(
    alloc: Global,
    path: &str,
    fault: FollowFault,
) -> Result<Option<String>, AllocError>
    ensures { IfOk result (λ text.
        option_map string_bytes text ≡ spec.followed_explanation path.now fault) }
{
    match fault {
        FollowFault::NotRead(cause) => note(alloc, path, cause_text(cause)),
        FollowFault::NoMemory | FollowFault::Shorter | FollowFault::Replaced => Ok(None),
    }
}

/// Returns the line that explains a fault of the file of a path, if one does.
fn explanation(
    alloc: Global,
    path: &str,
    fault: &CommandFault,
) -> Result<Option<String>, AllocError>
    ensures { IfOk result (λ text.
        option_map string_bytes text ≡ spec.explanation path.now fault.now) }
{
    match fault {
        CommandFault::File(fault) => file_explanation(alloc, path, fault),
        CommandFault::ReadFault(cause) => note(alloc, path, cause_text(*cause)),
        CommandFault::Keep(fault) => keep_explanation(alloc, path, *fault),
        CommandFault::KeptFile(fault) => kept_explanation(alloc, path, *fault),
        CommandFault::FollowedFile(fault) => followed_explanation(alloc, path, *fault),
        CommandFault::NotSaved(cause) => note(alloc, path, change_text(*cause)),
        _ => Ok(None),
    }
}

/// Writes the line that explains a fault, if there is one and there was memory for it.
fn report_more<E: Sink>(errors: &mut E, text: Result<Option<String>, AllocError>)
    // For any text that was made.
    ensures { (expected : Option (List ℕ))
        → IfOk text (λ text. option_map string_bytes text ≡ expected)
        → ReportsMore (output_of E.contents E.has_failed E.holds_back errors.old errors.new)
        expected }
{
    if let Ok(Some(text)) = text {
        write_line(errors, text.as_str());
    }
}

fn report_explanation<E: Sink>(
    alloc: Global,
    errors: &mut E,
    path: &str,
    fault: CommandFault,
) -> Status
    ensures { ReportsExplanation path.now
        (output_of E.contents E.has_failed E.holds_back errors.old errors.new) fault result }
{
    let text = explanation(alloc, path, &fault);
    let status = report(alloc, errors, fault);
    report_more(errors, text);
    status
}

/// Reports on standard error why a command ended early at the file of this path: as `report` does,
/// and then in a line that explains it, if one does and there is memory for it. Returns the status.
pub fn report_at<E: Sink>(alloc: Global, errors: &mut E, path: &str, fault: CommandFault) -> Status
    ensures { ReportsAt path.now
        (output_of E.contents E.has_failed E.holds_back errors.old errors.new) fault result }
{
    match fault {
        CommandFault::NotOpened(cause) => report_open_failure(alloc, errors, path, cause),
        _ => report_explanation(alloc, errors, path, fault),
    }
}
