//! Reports on standard error why a command ended early.
ghost use Rattle.std.specs.Prelude.{◌≡◌, ◌++◌, codes, ℕ, List, IfOk, string_bytes};
ghost use Rattle.osn_lines.specs.Streams.{output_of};
ghost use Rattle.osn_report.specs.Fault.{bad_line, hinted_line, older_line, refused_line};
ghost use Rattle.osn_report.specs.Fault.{refusal_end};
ghost use Rattle.osn_report.specs.Fault.{role_name};
ghost use Rattle.osn_report.specs.Messages.{WritesLine, EndsBy, Reports, ReportsIfMade};
ghost use Rattle.osn_report.specs.declared.fault.CommandFault.{CommandFault};

use crate::fault::CommandFault;
use crate::hint::{limit_hint, line_hint};
use crate::status::Status;
use osn_files::{FileFault, LineFault, Role};
use osn_folder::{FollowFault, KeepFault, KeptFileFault};
use osn_lines::{Sink, write_all};
use osn_live::DeskFault;
use osn_register::Refusal;
use osn_request::Version;
use osn_service::ServeFault;
use std::alloc::{AllocError, Global};

const READ_FAULT: &str = "oldstyle: read fault\n";

const WRITE_FAULT: &str = "oldstyle: write fault\n";

const NO_MEMORY: &str = "oldstyle: no memory\n";

const KEPT_WITH_OTHER: &str = "oldstyle: --keep can't be used with --journal or --save\n";

const UPGRADE_WITHOUT_KEEP: &str = "oldstyle: --upgrade can only be used with --keep\n";

const KEPT_ELSEWHERE: &str = "oldstyle: another run of the program keeps that journal\n";

const KEPT_REPLACED: &str = "oldstyle: another program moved, replaced or changed the journal: \
no more is kept in it\n";

const FOLLOWED_WITH_OTHER: &str =
    "oldstyle: --follow can't be used with --journal, --save or --keep\n";

const FOLLOWED_SHORTER: &str = "oldstyle: the journal that is followed got shorter: \
no further line is answered\n";

const FOLLOWED_REPLACED: &str = "oldstyle: the journal that is followed was replaced or removed: \
no further line is answered\n";

/// Writes a line. If standard error fails too, only the status reports the fault.
pub fn write_line<E: Sink>(errors: &mut E, line: &str)
    ensures { WritesLine
        (output_of E.contents E.has_failed E.holds_back errors.old errors.new) line.now }
{
    let _ = write_all(errors, line.as_bytes());
}

/// Writes a line that takes no memory, and returns this status.
pub(crate) fn report_text<E: Sink>(errors: &mut E, status: Status, line: &str) -> Status
    ensures status { result ≡ status }
    ensures line { WritesLine
        (output_of E.contents E.has_failed E.holds_back errors.old errors.new) line.now }
{
    write_line(errors, line);
    status
}

/// Reports on standard error that memory ran out. Returns the status.
pub fn report_no_memory<E: Sink>(errors: &mut E) -> Status
    ensures { EndsBy (output_of E.contents E.has_failed E.holds_back errors.old errors.new)
        CommandFault.NoMemory result }
{
    report_text(errors, Status::NoMemory, NO_MEMORY)
}

/// Reports on standard error that a write failed. Returns the status.
pub(crate) fn report_write_fault<E: Sink>(errors: &mut E) -> Status
    ensures { EndsBy (output_of E.contents E.has_failed E.holds_back errors.old errors.new)
        CommandFault.WriteFault result }
{
    report_text(errors, Status::WriteFault, WRITE_FAULT)
}

/// Writes a line, and returns this status; or reports that there was no memory for the line.
pub fn report_line<E: Sink>(
    errors: &mut E,
    status: Status,
    line: Result<String, AllocError>,
) -> Status
    // For any text that was made.
    ensures { (expected : List ℕ) → IfOk line (λ text. string_bytes text ≡ expected) → ReportsIfMade
        (output_of E.contents E.has_failed E.holds_back errors.old errors.new)
        status expected result }
{
    match line {
        Ok(line) => report_text(errors, status, line.as_str()),
        Err(_) => report_no_memory(errors),
    }
}

fn name_of(role: Role) -> &'static str
    ensures { result.now ≡ role_name role }
{
    match role {
        Role::Journal => "journal",
        Role::Script => "script",
        Role::Questions => "questions",
        Role::Schedule => "schedule",
        Role::Transcript => "transcript",
    }
}

/// Returns the line on a refused line of a file.
fn bad_line(alloc: Global, role: Role, line: u64, fault: LineFault) -> Result<String, AllocError>
    ensures { IfOk result (λ text. string_bytes text ≡ bad_line role line fault) }
{
    let file = name_of(role);
    let number = fault.number();
    let name = fault.name();
    let hint = line_hint(fault);
    format!(in alloc; "oldstyle: {file} line {line}: {number} {name}{hint}\n")
}

/// Returns the line on a journal of a version that is not kept.
fn older_version(alloc: Global, version: Version) -> Result<String, AllocError>
    ensures { IfOk result (λ text. string_bytes text ≡ older_line version) }
{
    let number = version.number();
    format!(in alloc;
        "oldstyle: a journal of version {number} is not kept: serve --keep with --upgrade saves it \
as version 4\n"
    )
}

/// Returns the line on a refused line that the service ended at.
fn refused_at(alloc: Global, line: u64) -> Result<String, AllocError>
    ensures { IfOk result (λ text. string_bytes text ≡ refused_line line) }
{
    format!(in alloc; "oldstyle: line {line} is refused, and no line after it was answered\n")
}

/// Returns the line on what is refused by this number and name.
///
/// # Errors
///
/// Only that there was no memory for the line.
pub fn refusal_number_line(
    alloc: Global,
    number: u8,
    name: &'static str,
) -> Result<String, AllocError>
    ensures { IfOk result (λ text. string_bytes text
        ≡ codes "oldstyle: " ++ refusal_end number name.now) }
{
    format!(in alloc; "oldstyle: {number} {name}\n")
}

/// Returns the line on a refusal, and how more is allowed if that is at a limit.
fn hinted_line(alloc: Global, refusal: Refusal) -> Result<String, AllocError>
    ensures { IfOk result (λ text. string_bytes text ≡ hinted_line refusal) }
{
    let number = refusal.number();
    let name = refusal.name();
    let hint = limit_hint(refusal);
    format!(in alloc; "oldstyle: {number} {name}{hint}\n")
}

fn report_file<E: Sink>(alloc: Global, errors: &mut E, fault: FileFault) -> Status
    ensures { Reports (output_of E.contents E.has_failed E.holds_back errors.old errors.new)
        (CommandFault.File fault) result }
{
    match fault {
        FileFault::NoMemory => report_no_memory(errors),
        FileFault::ReadFault => report_text(errors, Status::ReadFault, READ_FAULT),
        FileFault::BadLine { role, line, fault } => {
            report_line(errors, Status::Refused, bad_line(alloc, role, line, fault))
        }
    }
}

fn report_service<E: Sink>(errors: &mut E, fault: ServeFault) -> Status
    ensures { EndsBy (output_of E.contents E.has_failed E.holds_back errors.old errors.new)
        (CommandFault.Service fault) result }
{
    match fault {
        ServeFault::NoMemory => report_text(errors, Status::NoMemory, NO_MEMORY),
        ServeFault::ReadFault => report_text(errors, Status::ReadFault, READ_FAULT),
        ServeFault::WriteFault => report_text(errors, Status::WriteFault, WRITE_FAULT),
    }
}

fn report_refusal<E: Sink>(alloc: Global, errors: &mut E, refusal: Refusal) -> Status
    ensures { Reports (output_of E.contents E.has_failed E.holds_back errors.old errors.new)
        (CommandFault.Refused refusal) result }
{
    match refusal {
        Refusal::NoMemory => report_no_memory(errors),
        _ => {
            let line = hinted_line(alloc, refusal);
            report_line(errors, Status::Refused, line)
        }
    }
}

fn report_desk<E: Sink>(alloc: Global, errors: &mut E, fault: DeskFault) -> Status
    ensures { Reports (output_of E.contents E.has_failed E.holds_back errors.old errors.new)
        (CommandFault.Desk fault) result }
{
    match fault {
        DeskFault::NoMemory => report_no_memory(errors),
        _ => {
            let line = refusal_number_line(alloc, fault.number(), fault.name());
            report_line(errors, Status::Refused, line)
        }
    }
}

fn report_keep<E: Sink>(errors: &mut E, fault: KeepFault) -> Status
    ensures { EndsBy (output_of E.contents E.has_failed E.holds_back errors.old errors.new)
        (CommandFault.Keep fault) result }
{
    match fault {
        KeepFault::Held => report_text(errors, Status::ReadFault, KEPT_ELSEWHERE),
        KeepFault::NotOpened(_) => report_text(errors, Status::ReadFault, READ_FAULT),
    }
}

fn report_kept_file<E: Sink>(errors: &mut E, fault: KeptFileFault) -> Status
    ensures { EndsBy (output_of E.contents E.has_failed E.holds_back errors.old errors.new)
        (CommandFault.KeptFile fault) result }
{
    match fault {
        KeptFileFault::ChangeFailed(_) => report_text(errors, Status::WriteFault, WRITE_FAULT),
        KeptFileFault::Replaced => report_text(errors, Status::WriteFault, KEPT_REPLACED),
    }
}

fn report_followed_file<E: Sink>(errors: &mut E, fault: FollowFault) -> Status
    ensures { EndsBy (output_of E.contents E.has_failed E.holds_back errors.old errors.new)
        (CommandFault.FollowedFile fault) result }
{
    match fault {
        FollowFault::NoMemory => report_no_memory(errors),
        FollowFault::NotRead(_) => report_text(errors, Status::ReadFault, READ_FAULT),
        FollowFault::Shorter => report_text(errors, Status::Refused, FOLLOWED_SHORTER),
        FollowFault::Replaced => report_text(errors, Status::Refused, FOLLOWED_REPLACED),
    }
}

/// Reports on standard error in a line why a command ended early. Returns the status.
pub fn report<E: Sink>(alloc: Global, errors: &mut E, fault: CommandFault) -> Status
    ensures { Reports (output_of E.contents E.has_failed E.holds_back errors.old errors.new)
        fault result }
{
    match fault {
        CommandFault::File(fault) => report_file(alloc, errors, fault),
        CommandFault::Service(fault) => report_service(errors, fault),
        CommandFault::Refused(refusal) => report_refusal(alloc, errors, refusal),
        CommandFault::Desk(fault) => report_desk(alloc, errors, fault),
        CommandFault::KeptWithOther => report_text(errors, Status::Misused, KEPT_WITH_OTHER),
        CommandFault::UpgradeWithoutKeep => report_text(
            errors,
            Status::Misused,
            UPGRADE_WITHOUT_KEEP,
        ),
        CommandFault::Keep(fault) => report_keep(errors, fault),
        CommandFault::KeptFile(fault) => report_kept_file(errors, fault),
        CommandFault::FollowedWithOther => report_text(
            errors,
            Status::Misused,
            FOLLOWED_WITH_OTHER,
        ),
        CommandFault::FollowedFile(fault) => report_followed_file(errors, fault),
        CommandFault::OlderVersion(version) => {
            report_line(errors, Status::Refused, older_version(alloc, version))
        }
        CommandFault::RefusedLine(line) => {
            report_line(errors, Status::Refused, refused_at(alloc, line))
        }
        CommandFault::NotOpened(_) => report_text(errors, Status::ReadFault, READ_FAULT),
        CommandFault::ReadFault(_) => report_text(errors, Status::ReadFault, READ_FAULT),
        CommandFault::WriteFault => report_write_fault(errors),
        CommandFault::NotSaved(_) => report_write_fault(errors),
        CommandFault::NoMemory => report_no_memory(errors),
    }
}
