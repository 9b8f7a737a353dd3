//! The commands over the files of a folder, which are opened by their paths first.
ghost use Rattle.std.specs.Prelude.{IfErr, IfOk, string_bytes};
ghost use Rattle.osn_folder.specs.Folder.{MayFail};
ghost use Rattle.osn_file_commands.specs.Audit.{Audits, AuditFails};
ghost use Rattle.osn_file_commands.specs.Replay.{Replays, ReplayFails};
ghost use Rattle.osn_file_commands.specs.Transcript.{Transcribes, TranscribesNot};
ghost use Rattle.osn_report.specs.Failure as spec;
ghost use Rattle.osn_report.specs.Folders.{ReadsOne, ReadsTwo, folders_of};

use crate::audit_outcome::audit_command;
use crate::desk::desk_command;
use crate::replay::replay_command;
use osn_folder::{Folder, open_both, open_named};
use osn_lines::{Sink, Source};
use osn_register::Limits;
use osn_report::{Failure, ProgressSource, ReadProgress, failure_of_two};
use std::alloc::Global;
use std::sync::Wait;
use std::thread::Threads;

/// Opens a schedule, and does what `replay_command` does.
///
/// # Errors
///
/// Why the schedule could not be opened, and those of `replay_command`, with its path.
pub fn replay_in_folder<'a, D: Folder>(
    alloc: Global,
    limits: Limits,
    folder: &mut D,
    readers: u32,
    schedule: &'a str,
) -> Result<String, Failure<'a>>
    ensures ok { IfOk result (λ text. ReadsOne schedule.now (MayFail D.File.has_failed)
        (folders_of D.known folder.old folder.new)
        (λ file. Replays limits readers file (string_bytes text))) }
    ensures err { IfErr result (λ failure. spec.FailsOnOne schedule.now (MayFail D.File.has_failed)
        (folders_of D.known folder.old folder.new) (ReplayFails readers)
        failure.path.now failure.fault) }
{
    let mut file = open_named(folder, schedule)?;
    match replay_command(alloc, limits, readers, &mut file) {
        Ok(text) => Ok(text),
        Err(fault) => Err(Failure {
            path: schedule,
            fault,
        }),
    }
}

/// Opens a script and then questions, and does what `desk_command` does.
///
/// # Errors
///
/// Why a file could not be opened, and those of `desk_command`, with the path of the file.
pub fn desk_in_folder<'a, F: Threads + Wait + AllocGlobal, D: Folder>(
    rt: &F,
    limits: Limits,
    folder: &mut D,
    script: &'a str,
    questions: &'a str,
) -> Result<String, Failure<'a>>
    ensures ok { IfOk result (λ text. ReadsTwo script.now questions.now
        (MayFail D.File.has_failed) (folders_of D.known folder.old folder.new)
        (λ file other. Transcribes limits file other (string_bytes text))) }
    ensures err { IfErr result (λ failure. spec.FailsOnTwo script.now questions.now
        (MayFail D.File.has_failed) (folders_of D.known folder.old folder.new)
        (TranscribesNot limits) failure.path.now failure.fault) }
{
    let (mut editor, mut readers) = open_both(folder, script, questions)?;
    match desk_command(rt, limits, &mut editor, &mut readers) {
        Ok(text) => Ok(text),
        Err(fault) => Err(failure_of_two(fault, script, questions, readers.failed())),
    }
}

/// Opens a journal and then a transcript, and does what `audit_command` does. A terminal, if there
/// is one, shows how much of the transcript was read.
///
/// # Errors
///
/// Why a file could not be opened, and those of `audit_command`, with the path of the file.
pub fn audit_in_folder<'a, D: Folder, T: Sink + Drop>(
    alloc: Global,
    limits: Limits,
    folder: &mut D,
    journal: &'a str,
    transcript: &'a str,
    terminal: Option<T>,
) -> Result<String, Failure<'a>>
    ensures ok { IfOk result (λ text. ReadsTwo journal.now transcript.now
        (MayFail D.File.has_failed) (folders_of D.known folder.old folder.new)
        (λ file other. Audits limits file other (string_bytes text))) }
    ensures err { IfErr result (λ failure. spec.FailsOnTwo journal.now transcript.now
        (MayFail D.File.has_failed) (folders_of D.known folder.old folder.new)
        (AuditFails limits) failure.path.now failure.fault) }
{
    let (mut edits, answers) = open_both(folder, journal, transcript)?;
    let progress = ReadProgress::new(alloc, "transcript", terminal);
    let mut answers = ProgressSource::new(answers, progress);
    match audit_command(alloc, limits, &mut edits, &mut answers) {
        Ok(text) => Ok(text),
        Err(fault) => Err(failure_of_two(fault, journal, transcript, answers.failed())),
    }
}
