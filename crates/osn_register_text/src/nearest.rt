//! The name that is nearest to a mistyped word.
ghost use Rattle.std.specs.Prelude.{◌≡◌, find, map, IfOk, option_map};
ghost use Rattle.osn_lines.specs.Near.{is_near as is_name_near};
ghost use Rattle.osn_register_text.specs.Nearest as spec;

use osn_lines::is_near;
use std::alloc::{AllocError, Global};

/// Returns the first of these names that is near a word, and no further than `most`.
fn first_near(
    alloc: Global,
    most: usize,
    word: &str,
    names: &[&'static str],
) -> Result<Option<&'static str>, AllocError>
    ensures { IfOk result (λ found. option_map (λ name. name.now) found
        ≡ find (is_name_near most word.now) (map (λ name. name.now) names.now)) }
{
    for name in names {
        if is_near(alloc, most, word, name)? {
            return Ok(Some(name));
        }
    }
    Ok(None)
}

/// Returns the first of these names that is near a word: one step away, or else two.
fn nearest_other(
    alloc: Global,
    word: &str,
    names: &[&'static str],
) -> Result<Option<&'static str>, AllocError>
    ensures { IfOk result (λ found. option_map (λ name. name.now) found
        ≡ spec.nearest_other (map (λ name. name.now) names.now) word.now) }
{
    match first_near(alloc, 1, word, names)? {
        Some(name) => Ok(Some(name)),
        None => first_near(alloc, 2, word, names),
    }
}

/// Returns the nearest of these names, if one is near a word: the first of those that differ least.
pub(crate) fn nearest_of(
    alloc: Global,
    word: &str,
    names: &[&'static str],
) -> Result<Option<&'static str>, AllocError>
    ensures { IfOk result (λ found. option_map (λ name. name.now) found
        ≡ spec.nearest_of (map (λ name. name.now) names.now) word.now) }
{
    match first_near(alloc, 0, word, names)? {
        Some(name) => Ok(Some(name)),
        None => nearest_other(alloc, word, names),
    }
}
