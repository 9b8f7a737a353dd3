//! Reads a script.
ghost use Rattle.osn_files.specs.Files.{ReadsFile};
ghost use Rattle.osn_files.specs.Script.{script};
ghost use Rattle.osn_files.specs.declared.fault.Role.TheVariants.{Script};

use crate::command_line::command_in;
use crate::fault::{FileFault, Role};
use crate::reading::{LineFold, read_lines};
use crate::stop::LineStop;
use osn_core::Command;
use osn_lines::Source;
use osn_request::{LineObject, Version};
use std::alloc::Global;

impl LineFold for Vec<Command> {
    ghost use Rattle.std.specs.Prelude.{List};
    ghost use Rattle.osn_core.specs.declared.command.Command.{Command};
    ghost use Rattle.osn_files.specs.Script.{with_command};

    ghost State = { List Command };

    ghost state = { λ commands. commands.items };

    ghost step = { λ _. with_command };

    fn take_object(
        &mut self,
        alloc: Global,
        version: Version,
        object: &LineObject<'_>,
    ) -> Result<(), LineStop> {
        let command = command_in(alloc, version, object)?;
        match self.push(command) {
            Ok(()) => Ok(()),
            Err(_) => Err(LineStop::NoMemory),
        }
    }
}

/// Reads the commands of a script, which has the form of a journal. They are read, in the form of
/// the head's version, and not run, so a line is refused for its form alone.
///
/// # Errors
///
/// As `load_journal`, except for refusals of an edit or a publish.
pub fn read_script<R: Source>(alloc: Global, source: &mut R) -> Result<Vec<Command>, FileFault>
    ensures { ReadsFile Script script (λ commands. commands.items) result
        R.remaining R.has_failed source.old source.new }
{
    let none = Vec::new(alloc);
    let (commands, _) = read_lines(alloc, Role::Script, None, none, source)?;
    Ok(commands)
}
