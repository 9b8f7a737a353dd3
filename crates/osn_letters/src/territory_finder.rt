//! The territory that a table means, by its code or its name.
ghost use Rattle.std.specs.Prelude.{◌≡◌, ◌||◌, ℕ, List, [], true, option_map, unwrap_or, IfOk};
ghost use Rattle.std.specs.Prelude.{OnOk};
ghost use Rattle.std.specs.Result.{result_map_both};
ghost use Rattle.std.specs.Str.{str_eq_ignore_ascii_case};
ghost use Rattle.osn_letters.specs.FinderInside as inside;
ghost use Rattle.osn_letters.specs.PlaceEntries as entries;
ghost use Rattle.osn_letters.specs.RowFields as spec;
ghost use Rattle.osn_letters.specs.TerritoryNames as by_name;

use crate::no_place::NoPlace;
use crate::places::Places;
use crate::row_field::text_in_field;
use indexmap::IndexMap;
use osn_register::Register;
use osn_territory::Territory;
use std::alloc::{AllocError, Global};
use std::marker::Model;

/// The territory that is meant, or why there is no such territory.
type NamedTerritory<'a> = Result<&'a Territory, NoPlace>;

/// The territories of a register, which are found by code or by name. For each code and each name,
/// in small letters, a map has the only territory that is called so, or that there are several.
/// Contracts see the territories of the register's definition.
#[derive(Drop)]
pub struct TerritoryFinder<'a> {
    register: &'a Register,
    names: IndexMap<String, NamedTerritory<'a>>,
}

impl<'a> Model for TerritoryFinder<'a> {
    ghost use Rattle.std.specs.Prelude.{◌≡◌, ℕ, List};
    ghost use Rattle.osn_letters.specs.FinderInside.{found_in};
    ghost use Rattle.osn_letters.specs.TerritoryNames.{only_called};
    ghost use Rattle.osn_register.specs.Plain.{EntryModel};

    ghost Value = { List EntryModel };

    ghost view = { λ finder. finder.register.now.territories };

    ghost invariant = { λ finder. (text : List ℕ) → found_in finder.names text
        ≡ only_called text finder.register.now.territories };
}

/// Returns the only territory of those that were found and of one more.
fn with_territory<'a>(found: NamedTerritory<'a>, territory: &'a Territory) -> NamedTerritory<'a>
    ensures { result_map_both (λ t. t.now) (λ reason. reason) result
        ≡ by_name.with_territory true
        (result_map_both (λ t. t.now) (λ reason. reason) found.entry) territory.now }
{
    match found {
        Err(NoPlace::Unknown) => Ok(territory),
        Ok(_) => Err(NoPlace::Ambiguous),
        Err(reason) => Err(reason),
    }
}

/// Returns what a map has under a key.
fn found_under<'a>(names: &IndexMap<String, NamedTerritory<'a>>, key: &str) -> NamedTerritory<'a>
    ensures { result_map_both (λ t. t.now) (λ reason. reason) result
        ≡ inside.found_under names.now key.now }
{
    match names.get(key) {
        Some(found) => *found,
        None => Err(NoPlace::Unknown),
    }
}

/// Adds a territory under its code or its name.
fn add_name<'a>(
    alloc: Global,
    names: &mut IndexMap<String, NamedTerritory<'a>>,
    name: &str,
    territory: &'a Territory,
) -> Result<(), AllocError>
    ensures { OnOk result ((text : List ℕ) → inside.found_in names.new text
        ≡ by_name.with_territory (str_eq_ignore_ascii_case name.now text)
        (inside.found_in names.old text) territory.now) }
{
    let key = name.to_ascii_lowercase(alloc)?;
    let found = with_territory(found_under(names, &key), territory);
    names.insert(key, found)?;
    Ok(())
}

/// Adds a territory under its code and its name.
fn add_territory<'a>(
    alloc: Global,
    names: &mut IndexMap<String, NamedTerritory<'a>>,
    code: &str,
    name: &str,
    territory: &'a Territory,
) -> Result<(), AllocError>
    ensures { OnOk result ((text : List ℕ) → inside.found_in names.new text
        ≡ by_name.with_territory (str_eq_ignore_ascii_case code.now text
        || str_eq_ignore_ascii_case name.now text)
        (inside.found_in names.old text) territory.now) }
{
    add_name(alloc, names, code, territory)?;
    if code.eq_ignore_ascii_case(name) {
        return Ok(());
    }
    add_name(alloc, names, name, territory)
}

/// Returns the territories of a register by their codes and names in small letters.
fn names_in<'a>(
    alloc: Global,
    register: &'a Register,
) -> Result<IndexMap<String, NamedTerritory<'a>>, AllocError>
    ensures { IfOk result (λ names. (text : List ℕ) → inside.found_in names text
        ≡ by_name.only_called text register.now.territories) }
{
    let mut names = IndexMap::new(alloc);
    for index in 0..register.limits().lands as usize {
        let Some((code, name, territory)) = register.territory_at(index) else {
            break;
        };
        add_territory(alloc, &mut names, code, name, territory)?;
    }
    Ok(names)
}

/// Returns the code that a table of places has for a text.
fn code_of<'a>(places: Option<&'a Places>, text: &str) -> Option<&'a str>
    ensures { option_map (λ code. code.now) result ≡ entries.code_of text.now
        (unwrap_or (option_map (λ places. places.now) places.entry) []) }
{
    places?.code_of(text)
}

impl<'a> TerritoryFinder<'a> {
    /// Returns the finder of the territories of a register.
    pub fn new(alloc: Global, register: &'a Register) -> Result<TerritoryFinder<'a>, AllocError>
        ensures { IfOk result (λ finder. finder ≡ register.now.territories) }
    {
        let names = names_in(alloc, register)?;
        Ok(TerritoryFinder { register, names })
    }

    /// Returns the territory of a code, if some territory has it.
    fn of_code(&self, code: &str) -> Option<&'a Territory>
        ensures { option_map (λ t. t.now) result ≡ spec.territory_of_code self.now code.now }
    {
        let (_, territory) = self.register.territory(code).ok()?;
        Some(territory)
    }

    /// Returns the only territory that has the text as its code or its name, in capital or small
    /// letters.
    fn only_called(&self, alloc: Global, text: &str) -> Result<NamedTerritory<'a>, AllocError>
        ensures { IfOk result (λ found. result_map_both (λ t. t.now) (λ reason. reason) found
            ≡ by_name.only_called text.now self.now) }
    {
        let key = text.to_ascii_lowercase(alloc)?;
        Ok(found_under(&self.names, &key))
    }

    /// Returns the territory of a code, or else the only one that is called so.
    fn of_text(&self, alloc: Global, text: &str) -> Result<NamedTerritory<'a>, AllocError>
        ensures { IfOk result (λ found. result_map_both (λ t. t.now) (λ reason. reason) found
            ≡ spec.territory_of_text self.now text.now) }
    {
        match self.of_code(text) {
            Some(territory) => Ok(Ok(territory)),
            None => self.only_called(alloc, text),
        }
    }

    /// Returns the territory of a code that a table of places has.
    fn of_listed(&self, code: &str) -> NamedTerritory<'a>
        ensures { result_map_both (λ t. t.now) (λ reason. reason) result
            ≡ spec.territory_listed self.now code.now }
    {
        match self.of_code(code) {
            Some(territory) => Ok(territory),
            None => Err(NoPlace::Unknown),
        }
    }

    /// Returns the territory of a field, or why it has none.
    ///
    /// # Errors
    ///
    /// If memory runs out for the text in small letters.
    pub fn find(
        &self,
        alloc: Global,
        places: Option<&Places>,
        place: &[u8],
    ) -> Result<NamedTerritory<'a>, AllocError>
        ensures { IfOk result (λ found. result_map_both (λ t. t.now) (λ reason. reason) found
            ≡ spec.territory_in self.now
            (unwrap_or (option_map (λ places. places.now) places.entry) []) place.now) }
    {
        let Some(text) = text_in_field(place) else {
            return Ok(Err(NoPlace::NotUtf8));
        };
        match code_of(places, text) {
            Some(code) => Ok(self.of_listed(code)),
            None => self.of_text(alloc, text),
        }
    }
}
