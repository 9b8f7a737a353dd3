//! Reads a question file.
ghost use Rattle.std.specs.Prelude.{map};
ghost use Rattle.osn_files.specs.Files.{ReadsFile};
ghost use Rattle.osn_files.specs.Questions as spec;
ghost use Rattle.osn_files.specs.declared.fault.Role.TheVariants.{Questions};

use crate::fault::{FileFault, Role};
use crate::lists::Lists;
use crate::reading::read_lines;
use osn_lines::Source;
use osn_register::Query;
use osn_request::Version;
use std::alloc::Global;

/// Reads the questions of a file, a query a line, each with its reader, who is 1 to 64. There is a
/// list for each reader from 1 to the greatest that is named, in the order of the lines.
///
/// # Errors
///
/// Returns `BadLine` for the first line that is not a query, `ReadFault` if the source failed or
/// didn't end within 4,294,967,295 reads, and `NoMemory` if memory ran out.
pub fn read_questions<R: Source>(
    alloc: Global,
    source: &mut R,
) -> Result<Vec<Vec<Query>>, FileFault>
    ensures { ReadsFile Questions spec.questions (λ lists. map (λ qs. qs.items) lists.items) result
        R.remaining R.has_failed source.old source.new }
{
    let version = Some(Version::newest());
    let none = Lists::new(alloc);
    let (lists, _) = read_lines(alloc, Role::Questions, version, none, source)?;
    Ok(lists.into_inner())
}
