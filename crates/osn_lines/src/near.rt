//! Which of several names a word may be meant for, by the edit distance of Damerau and Levenshtein.
//! What the crate promises to those above: `is_near` compares that distance with how far a name may
//! be from a word of this length.
ghost use Rattle.std.specs.Prelude.{◌≡◌, IfOk};
ghost use Rattle.osn_lines.specs.Near as spec;

use std::alloc::{AllocError, Global};
use strsim::osa_distance;

/// Returns the distance of a name from a word: how many letters are inserted, left out, replaced or
/// swapped with the next one. Capital and small letters of ASCII are the same.
fn distance(alloc: Global, word: &str, name: &str) -> Result<usize, AllocError>
    ensures { IfOk result (λ steps. steps ≡ spec.distance word.now name.now) }
{
    let word = word.to_ascii_lowercase(alloc)?;
    let name = name.to_ascii_lowercase(alloc)?;
    osa_distance(alloc, word.as_str(), name.as_str())
}

/// Returns the distance up to which a name is near a word: a third of the word's bytes, and at most
/// 2.
fn reach(word: &str) -> usize
    ensures { result ≡ spec.reach word.now }
{
    (word.len() / 3).min(2)
}

/// Returns whether a name is near a word, and at most as far from it as `most`. A name is near if
/// its distance is at most 2, and at most a third of the word's length in bytes. The distance is
/// the number of letters that are inserted, left out, replaced or swapped with the next one (F. J.
/// Damerau, *A technique for computer detection and correction of spelling errors*, 1964). Capital
/// and small letters of ASCII are the same.
///
/// # Errors
///
/// If memory runs out.
pub fn is_near(alloc: Global, most: usize, word: &str, name: &str) -> Result<bool, AllocError>
    ensures { IfOk result (λ near. near ≡ spec.is_near most word.now name.now) }
{
    Ok(distance(alloc, word, name)? <= most.min(reach(word)))
}
