//! The command `desk`.
ghost use Rattle.std.specs.Prelude.{IfErr, IfOk, string_bytes};
ghost use Rattle.osn_lines.specs.Streams.{input_of};
ghost use Rattle.osn_file_commands.specs.Transcript.{DeskFails, DeskAnswers, MakeDesk, MakeNoDesk};
ghost use Rattle.osn_file_commands.specs.Transcript.{Transcribes, TranscribesNot};

use crate::transcript::transcript;
use osn_core::Command;
use osn_files::{FileFault, read_questions, read_script};
use osn_lines::Source;
use osn_live::{OpenGate, run_desk};
use osn_register::{Limits, Query};
use osn_report::CommandFault;
use std::alloc::Global;
use std::sync::Wait;
use std::thread::Threads;

/// Reads the commands of the editor, and then the questions of each reader.
fn desk_files<J: Source, K: Source>(
    alloc: Global,
    script: &mut J,
    questions: &mut K,
) -> Result<(Vec<Command>, Vec<Vec<Query>>), FileFault>
    ensures ok { IfOk result (λ made. MakeDesk
        (input_of J.remaining J.has_failed script.old script.new)
        (input_of K.remaining K.has_failed questions.old questions.new) made.0.items made.1.items) }
    ensures err { IfErr result (MakeNoDesk
        (input_of J.remaining J.has_failed script.old script.new)
        (input_of K.remaining K.has_failed questions.old questions.new)) }
{
    let commands = read_script(alloc, script)?;
    let lists = read_questions(alloc, questions)?;
    Ok((commands, lists))
}

/// Returns the replies of a desk to the readers, while its editor works through commands.
fn desk_text<R: Threads + Wait + AllocGlobal>(
    rt: &R,
    limits: Limits,
    commands: &[Command],
    lists: &[Vec<Query>],
) -> Result<String, CommandFault>
    ensures ok { IfOk result
        (λ text. DeskAnswers limits commands.now lists.now (string_bytes text)) }
    ensures err { IfErr result (DeskFails limits commands.now lists.now) }
{
    let alloc = rt.alloc();
    match run_desk(rt, alloc, limits, &OpenGate, commands, lists) {
        Ok(answers) => Ok(transcript(alloc, lists, &answers)?),
        Err(fault) => Err(CommandFault::Desk(fault)),
    }
}

/// Runs the command `desk`: an editor works through the commands of a script, under these limits,
/// while readers ask the questions of a question file, each in its own thread. The text is what
/// each reader asked with the reply to it, a line for each, by reader and then by place. A command
/// of the editor that is refused is skipped. The script is read whole before the questions, and
/// both before a thread is started.
///
/// # Errors
///
/// The first line that is refused, that there is no question, or why a file could not be read.
pub fn desk_command<R: Threads + Wait + AllocGlobal, J: Source, K: Source>(
    rt: &R,
    limits: Limits,
    script: &mut J,
    questions: &mut K,
) -> Result<String, CommandFault>
    ensures ok { IfOk result (λ text. Transcribes limits
        (input_of J.remaining J.has_failed script.old script.new)
        (input_of K.remaining K.has_failed questions.old questions.new) (string_bytes text)) }
    ensures err { IfErr result (TranscribesNot limits
        (input_of J.remaining J.has_failed script.old script.new)
        (input_of K.remaining K.has_failed questions.old questions.new)) }
{
    match desk_files(rt.alloc(), script, questions) {
        Ok((commands, lists)) => desk_text(rt, limits, &commands, &lists),
        Err(fault) => Err(CommandFault::File(fault)),
    }
}
