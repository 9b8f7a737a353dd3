//! Which column of a header a name may be meant for.
ghost use Rattle.std.specs.Prelude.{◌≡◌, [], get_or, find, map, IfOk};
ghost use Rattle.csv.specs.Records.{fields_of};
ghost use Rattle.osn_lines.specs.Near.{is_near as is_name_near};
ghost use Rattle.osn_letters.specs.NearColumn as spec;

use crate::columns::field_at;
use crate::row_field::trimmed;
use csv::ByteRecord;
use osn_lines::is_near;
use osn_register::Text;
use std::alloc::{AllocError, Global};

/// Returns the name of a column as a text, without the white space around it. Bytes that aren't
/// UTF-8 are replaced.
fn name_text(alloc: Global, header: &ByteRecord, index: usize) -> Result<Text, AllocError>
    ensures { IfOk result
        (λ name. name ≡ spec.name_text (get_or (fields_of header.now) index [])) }
{
    let name = trimmed(field_at(header, index));
    Ok(Text::new(String::from_utf8_lossy(alloc, name)?))
}

/// Returns the first name of a column that is near a name, and no further than `most`.
fn first_near(
    alloc: Global,
    most: usize,
    header: &ByteRecord,
    name: &str,
) -> Result<Option<Text>, AllocError>
    ensures { IfOk result (λ found. found
        ≡ find (is_name_near most name.now) (map spec.name_text (fields_of header.now))) }
{
    for index in 0..header.len() {
        let text = name_text(alloc, header, index)?;
        if is_near(alloc, most, name, text.as_str())? {
            return Ok(Some(text));
        }
    }
    Ok(None)
}

/// Returns the name of the column that is nearest to a name, if one is near.
pub(crate) fn nearest_column(
    alloc: Global,
    header: &ByteRecord,
    name: &str,
) -> Result<Option<Text>, AllocError>
    ensures { IfOk result
        (λ found. found ≡ spec.nearest_column name.now (fields_of header.now)) }
{
    match first_near(alloc, 1, header, name)? {
        Some(found) => Ok(Some(found)),
        None => first_near(alloc, 2, header, name),
    }
}
