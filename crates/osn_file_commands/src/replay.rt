//! The command `replay`.
ghost use Rattle.std.specs.Prelude.{◌≡◌, IfErr, IfOk, string_bytes};
ghost use Rattle.std.specs.List.{flat_map};
ghost use Rattle.osn_lines.specs.Streams.{input_of};
ghost use Rattle.osn_service.specs.OutText.{out_line};
ghost use Rattle.osn_file_commands.specs.Replay.{Replays, ReplayFails, StepsFail, StepsGive};

use osn_core::{Out, Step, replay};
use osn_files::read_schedule;
use osn_lines::Source;
use osn_register::Limits;
use osn_report::CommandFault;
use osn_service::out_text;
use std::alloc::{AllocError, Global};

/// Returns a line for what each step gave.
fn out_lines(alloc: Global, outs: &[Out]) -> Result<String, AllocError>
    ensures { IfOk result (λ text. string_bytes text ≡ flat_map out_line outs.now) }
{
    let mut text = String::new(alloc);
    for out in outs {
        let line = out_text(alloc, out)?;
        text.push_str(line.as_str())?;
    }
    Ok(text)
}

/// Returns what steps give from the first state on.
fn steps_text(
    alloc: Global,
    limits: Limits,
    readers: u32,
    steps: &[Step],
) -> Result<String, CommandFault>
    ensures ok { IfOk result (λ text. StepsGive limits readers steps.now (string_bytes text)) }
    ensures err { IfErr result (StepsFail readers) }
{
    match replay(alloc, limits, readers, steps) {
        Ok(outs) => Ok(out_lines(alloc, &outs)?),
        Err(refusal) => Err(CommandFault::Refused(refusal)),
    }
}

/// Runs the command `replay`: takes the steps of a schedule, of one editor and this many readers,
/// from the first state on under these limits. The text is a line for what each of them gives. The
/// schedule is read whole before a step is taken.
///
/// # Errors
///
/// The first line that is refused, that the readers are not 1 to 64, or why the file could not be
/// read.
pub fn replay_command<J: Source>(
    alloc: Global,
    limits: Limits,
    readers: u32,
    schedule: &mut J,
) -> Result<String, CommandFault>
    ensures ok { IfOk result (λ text. Replays limits readers
        (input_of J.remaining J.has_failed schedule.old schedule.new) (string_bytes text)) }
    ensures err { IfErr result (ReplayFails readers
        (input_of J.remaining J.has_failed schedule.old schedule.new)) }
{
    match read_schedule(alloc, readers, schedule) {
        Ok(steps) => steps_text(alloc, limits, readers, &steps),
        Err(fault) => Err(CommandFault::File(fault)),
    }
}
