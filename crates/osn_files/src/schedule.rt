//! Reads a schedule.
ghost use Rattle.osn_files.specs.Files.{ReadsFile};
ghost use Rattle.osn_files.specs.Schedule as spec;
ghost use Rattle.osn_files.specs.declared.fault.Role.TheVariants.{Schedule};

use crate::fault::{FileFault, Role};
use crate::reading::{LineFold, read_lines};
use crate::step_line::step_in;
use crate::stop::LineStop;
use osn_core::Step;
use osn_lines::Source;
use osn_request::{LineObject, Version};
use std::alloc::Global;

/// The steps of one editor and of a number of readers.
#[derive(Drop)]
struct Steps {
    readers: u32,
    steps: Vec<Step>,
}

impl LineFold for Steps {
    ghost use Rattle.std.specs.Prelude.{List};
    ghost use Rattle.osn_core.specs.declared.step.Step.{Step};
    ghost use Rattle.osn_files.specs.Schedule.{with_step};

    ghost State = { List Step };

    ghost state = { λ s. s.steps.items };

    ghost step = { λ s. with_step s.readers };

    fn take_object(
        &mut self,
        alloc: Global,
        version: Version,
        object: &LineObject<'_>,
    ) -> Result<(), LineStop> {
        let step = step_in(alloc, version, self.readers, object)?;
        match self.steps.push(step) {
            Ok(()) => Ok(()),
            Err(_) => Err(LineStop::NoMemory),
        }
    }
}

/// Reads the steps of a schedule, a line each, of one editor and this many readers.
///
/// # Errors
///
/// Returns `BadLine` for the first line that is not a step, `ReadFault` if the source failed or
/// didn't end within 4,294,967,295 reads, and `NoMemory` if memory ran out.
pub fn read_schedule<R: Source>(
    alloc: Global,
    readers: u32,
    source: &mut R,
) -> Result<Vec<Step>, FileFault>
    ensures { ReadsFile Schedule (spec.schedule readers) (λ steps. steps.items) result
        R.remaining R.has_failed source.old source.new }
{
    let version = Some(Version::newest());
    let none = Steps {
        readers,
        steps: Vec::new(alloc),
    };
    let (read, _) = read_lines(alloc, Role::Schedule, version, none, source)?;
    Ok(read.steps)
}
