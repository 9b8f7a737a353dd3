//! Which territory of a register a word names.
ghost use Rattle.std.specs.Prelude.{◌≡◌, find, IfOk, option_map};
ghost use Rattle.std.specs.List.{filter};
ghost use Rattle.osn_page_commands.specs.Place as spec;

use osn_lines::is_near;
use osn_register::{Land, LandList, Register, Text};
use osn_written::{Listing, parts_at};
use std::alloc::{AllocError, Global};

/// What a word names.
#[derive(Debug, Drop)]
pub(crate) enum Place {
    /// The territory of this code, and no other.
    One(Text),
    /// No territory, or several, each of which it may be.
    NotOne(LandList),
}

/// Returns whether a territory has the word as its code or its name, in capital or small letters.
fn is_called(word: &str, territory: &Land) -> bool
    ensures { result ≡ spec.is_called word.now territory.now }
{
    territory.code.as_str().eq_ignore_ascii_case(word)
        || territory.name.as_str().eq_ignore_ascii_case(word)
}

/// Returns the only one of these territories, or all of them.
fn only_of(territories: Vec<Land>) -> Result<Place, AllocError>
    ensures { IfOk result (λ place. place ≡ spec.only_of territories.items) }
{
    if let [only] = territories.as_slice() {
        return Ok(Place::One(only.code.copy()?));
    }
    Ok(Place::NotOne(Listing::new(territories)))
}

/// Returns the territories that have the word as their code or their name.
pub(crate) fn territories_called(register: &Register, word: &str) -> Result<Vec<Land>, AllocError>
    ensures { IfOk result (λ territories.
        territories.items ≡ spec.territories_called word.now register.now.territories) }
{
    let mut territories = register.list_territories()?;
    territories.retain(|territory| is_called(word, territory));
    Ok(territories)
}

/// Returns what a word names: the territory whose code it is, as published; or else the only one
/// that has it as its code or its name, in capital or small letters.
pub(crate) fn place_named(
    alloc: Global,
    register: &Register,
    word: &str,
) -> Result<Place, AllocError>
    ensures { IfOk result (λ place. place ≡ spec.place_named word.now register.now.territories) }
{
    if register.find_territory(word).is_some() {
        return Ok(Place::One(Text::from_str(alloc, word)?));
    }
    only_of(territories_called(register, word)?)
}

/// Returns whether the code or the name of a territory is near a word, and no further than `most`.
fn is_territory_near(
    alloc: Global,
    most: usize,
    word: &str,
    territory: &Land,
) -> Result<bool, AllocError>
    ensures { IfOk result (λ near. near ≡ spec.is_territory_near most word.now territory.now) }
{
    Ok(
        is_near(alloc, most, word, territory.code.as_str())?
            || is_near(alloc, most, word, territory.name.as_str())?,
    )
}

/// Returns the first of these territories that is near a word, and no further than `most`.
fn first_near<'a>(
    alloc: Global,
    most: usize,
    word: &str,
    territories: &'a [Land],
) -> Result<Option<&'a Land>, AllocError>
    ensures { IfOk result (λ found. option_map (λ territory. territory.now) found
        ≡ find (spec.is_territory_near most word.now) territories.now) }
{
    for territory in territories {
        if is_territory_near(alloc, most, word, territory)? {
            return Ok(Some(territory));
        }
    }
    Ok(None)
}

/// Returns the nearest of these territories, by its code or its name, if one is near the word.
fn nearest_territory<'a>(
    alloc: Global,
    word: &str,
    territories: &'a [Land],
) -> Result<Option<&'a Land>, AllocError>
    ensures { IfOk result (λ found. option_map (λ territory. territory.now) found
        ≡ spec.nearest_territory word.now territories.now) }
{
    match first_near(alloc, 1, word, territories)? {
        Some(territory) => Ok(Some(territory)),
        None => first_near(alloc, 2, word, territories),
    }
}

/// Returns whether a code begins with a word of two letters or more, in capital or small letters.
fn begins_with(alloc: Global, word: &str, code: &str) -> Result<bool, AllocError>
    ensures { IfOk result (λ begins. begins ≡ spec.begins_with word.now code.now) }
{
    let start = word.to_ascii_lowercase(alloc)?;
    let code = code.to_ascii_lowercase(alloc)?;
    Ok(word.len() >= 2 && code.as_bytes().starts_with(start.as_bytes()))
}

/// Returns whether one of the words of a name is near a word.
fn has_word_near(alloc: Global, word: &str, name: &str) -> Result<bool, AllocError>
    ensures { IfOk result (λ near. near ≡ spec.has_word_near word.now name.now) }
{
    let mut rest = name;
    while let Some((part, further)) = parts_at(rest, ' ') {
        if is_near(alloc, 2, word, part)? {
            return Ok(true);
        }
        rest = further;
    }
    is_near(alloc, 2, word, rest)
}

/// Returns whether the code of a territory begins with a word, or one of the words of its name is
/// near it.
fn is_similar(alloc: Global, word: &str, territory: &Land) -> Result<bool, AllocError>
    ensures { IfOk result (λ similar. similar ≡ spec.is_similar word.now territory.now) }
{
    Ok(
        begins_with(alloc, word, territory.code.as_str())?
            || has_word_near(alloc, word, territory.name.as_str())?,
    )
}

/// Returns a territory equal to this one.
fn copy_of(territory: &Land) -> Result<Land, AllocError>
    ensures { IfOk result (λ copy. copy ≡ territory.now) }
{
    Ok(Land {
        code: territory.code.copy()?,
        name: territory.name.copy()?,
    })
}

/// Returns those of these territories that are similar to a word.
fn similar_territories(
    alloc: Global,
    word: &str,
    territories: &[Land],
) -> Result<Vec<Land>, AllocError>
    ensures { IfOk result (λ similar.
        similar.items ≡ filter (spec.is_similar word.now) territories.now) }
{
    let mut similar = Vec::new(alloc);
    for territory in territories {
        if is_similar(alloc, word, territory)? {
            similar.push(copy_of(territory)?)?;
        }
    }
    Ok(similar)
}

/// Returns those of these territories that may be meant by a word that names none: the nearest one,
/// or else those whose code begins with the word, and those that have a word near it in their name.
pub(crate) fn suggested_territories(
    alloc: Global,
    word: &str,
    territories: &[Land],
) -> Result<Vec<Land>, AllocError>
    ensures { IfOk result (λ suggested.
        suggested.items ≡ spec.suggested word.now territories.now) }
{
    match nearest_territory(alloc, word, territories)? {
        Some(territory) => Ok(vec![in alloc; copy_of(territory)?]?),
        None => similar_territories(alloc, word, territories),
    }
}
