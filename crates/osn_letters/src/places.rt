//! The codes of places, as a table of places has them.
ghost use Rattle.std.specs.Prelude.{◌≡◌, ◌≢◌, ◌++◌, ◌∷◌, [], None, Ok, Err};
ghost use Rattle.std.specs.Prelude.{IfErr, OnOk, option_map};
ghost use Rattle.std.specs.Prelude.{string_bytes};
ghost use Rattle.osn_letters.specs.PlaceEntries as entries;
ghost use Rattle.osn_letters.specs.Places as spec;
ghost use Rattle.osn_letters.specs.declared.places_fault.PlacesFault.TheVariants.{NoMemory};

use crate::places_fault::PlacesFault;
use indexmap::IndexMap;
use osn_register::Text;
use std::alloc::{AllocError, Global};
use std::marker::Model;

/// The codes of places. Contracts see its entries, in the order of the table.
#[derive(Debug, Drop)]
pub struct Places {
    codes: IndexMap<String, String>,
}

impl Model for Places {
    ghost use Rattle.std.specs.Prelude.{List, map, string_bytes};
    ghost use Rattle.osn_letters.specs.PlaceEntries.{PlaceEntry, entry_in};

    ghost Value = { List PlaceEntry };

    ghost view = { λ places. map (entry_in string_bytes string_bytes) places.codes.entries };
}

impl Places {
    /// Returns places without an entry.
    pub(crate) fn new(alloc: Global) -> Places
        ensures { result ≡ [] }
    {
        Places {
            codes: IndexMap::new(alloc),
        }
    }

    /// Returns the code of a place, if the place is listed.
    pub(crate) fn code_of(&self, place: &str) -> Option<&str>
        ensures { option_map (λ code. code.now) result ≡ entries.code_of place.now self.now }
    {
        match self.codes.get(place) {
            Some(code) => Some(code.as_str()),
            None => None,
        }
    }

    /// Appends the entry of a place that is not listed.
    fn insert(&mut self, place: String, code: String) -> Result<(), AllocError>
        requires { entries.code_of (string_bytes place) self.old ≡ None }
        ensures { OnOk result (self.new ≡ self.old
            ++ record { place = string_bytes place; code = string_bytes code } ∷ []) }
    {
        self.codes.insert(place, code)?;
        Ok(())
    }

    /// Takes the entry of a record that begins on the line. An entry that is there already is not
    /// added.
    ///
    /// # Errors
    ///
    /// `TwoCodes` if the place has another code, and `NoMemory`.
    pub(crate) fn take(
        &mut self,
        alloc: Global,
        line: u64,
        place: &str,
        code: &str,
    ) -> Result<(), PlacesFault>
        ensures value { OnOk result (spec.with_entry self.old line
            (record { place = place.now; code = code.now }) ≡ Ok self.new) }
        ensures fault { IfErr result (λ fault. (fault ≢ NoMemory) → spec.with_entry self.old line
            (record { place = place.now; code = code.now }) ≡ Err fault) }
    {
        match self.code_of(place) {
            None => {
                let place = String::from_str(alloc, place)?;
                let code = String::from_str(alloc, code)?;
                Ok(self.insert(place, code)?)
            }
            Some(known) if known == code => Ok(()),
            Some(_) => Err(PlacesFault::TwoCodes {
                line,
                place: Text::from_str(alloc, place)?,
            }),
        }
    }
}
