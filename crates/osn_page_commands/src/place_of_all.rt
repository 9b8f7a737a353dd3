//! The one place of all rows of a table, if it has no territory.
ghost use Rattle.std.specs.Prelude.{◌≡◌, IfOk, string_bytes};
ghost use Rattle.osn_page_commands.specs.Letters.{settings_model};
ghost use Rattle.osn_page_commands.specs.PlaceOfAll as spec;

use crate::place::territories_called;
use crate::place_lines::place_lines;
use osn_letters::{NoPlace, TableSettings, TerritoryFinder};
use osn_register::{Land, Register};
use std::alloc::{AllocError, Global};

/// Returns why the place of all rows has no territory. If a column has the places, there is no such
/// place.
pub(crate) fn place_fault(
    alloc: Global,
    register: &Register,
    settings: TableSettings<'_>,
) -> Result<Option<NoPlace>, AllocError>
    ensures { IfOk result (λ fault. fault ≡ spec.place_fault register.now.territories
        (settings_model settings.entry).places (settings_model settings.entry).names) }
{
    if settings.names.place.is_some() {
        return Ok(None);
    }
    let finder = TerritoryFinder::new(alloc, register)?;
    let place = settings.names.place_of_all.as_bytes();
    match finder.find(alloc, settings.places, place)? {
        Ok(_) => Ok(None),
        Err(reason) => Ok(Some(reason)),
    }
}

/// Returns the territories that a place without one may mean.
fn territories_meant(
    alloc: Global,
    reason: NoPlace,
    place: &str,
    register: &Register,
) -> Result<Vec<Land>, AllocError>
    ensures { IfOk result (λ territories. territories.items
        ≡ spec.territories_meant reason place.now register.now.territories) }
{
    match reason {
        NoPlace::Unknown | NoPlace::NotUtf8 => Ok(Vec::new(alloc)),
        NoPlace::Ambiguous => territories_called(register, place),
    }
}

/// Returns the lines on a place that has no territory, for that reason. The path is that of the
/// journal.
pub(crate) fn place_fault_lines(
    alloc: Global,
    path: &str,
    place: &str,
    reason: NoPlace,
    register: &Register,
) -> Result<String, AllocError>
    ensures { IfOk result (λ lines. string_bytes lines
        ≡ spec.place_fault_lines path.now place.now reason register.now.territories) }
{
    let territories = territories_meant(alloc, reason, place, register)?;
    place_lines(alloc, path, place, &territories, register)
}
