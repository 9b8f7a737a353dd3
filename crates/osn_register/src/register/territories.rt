//! Territories that the register lends, by their code or by their place.
ghost use Rattle.std.specs.Prelude.{◌≡◌, ℕ, List, Some, is_some, option_map, slice_get, IfOk};
ghost use Rattle.std.specs.Prelude.{IfSome};
ghost use Rattle.osn_territory.specs.Territory.{TerritoryModel};
ghost use Rattle.osn_days.specs.Rules.{newest_rules};
ghost use Rattle.osn_register.specs.NamedTerritories.{listing_of, named_of};
ghost use Rattle.osn_register.specs.Plain.{IsWellFormed, code_refusal, entry_of};
ghost use Rattle.osn_register.specs.Refusal.{IsCheckOf};

use crate::code::is_code;
use crate::refusal::Refusal;
use crate::register::Register;
use osn_territory::Territory;

impl Register {
    /// Returns the code, the name and the territory at a place, from 0, in the order of addition.
    pub fn territory_at(&self, place: usize) -> Option<(&str, &str, &Territory)>
        ensures value { option_map {U = List ℕ × List ℕ × TerritoryModel}
            (λ l. (l.0.now, l.1.now, l.2.now)) result
            ≡ option_map listing_of (slice_get self.now.territories place) }
        ensures well_formed { IsWellFormed newest_rules self.now }
    {
        match self.territories.get_index(place) {
            Some((code, entry)) => Some((code.as_str(), entry.name.as_str(), &entry.territory)),
            None => None,
        }
    }

    /// Returns the name and the territory of a code, if some territory has it.
    pub fn find_territory(&self, code: &str) -> Option<(&str, &Territory)>
        ensures value { IfSome result (λ l.
            named_of code.now self.now.territories ≡ Some (l.0.now, l.1.now)) }
        ensures known { is_some result ≡ is_some (entry_of code.now self.now.territories) }
    {
        match self.territories.get(code) {
            Some(entry) => Some((entry.name.as_str(), &entry.territory)),
            None => None,
        }
    }

    /// Returns the name and the territory of a code.
    ///
    /// # Errors
    ///
    /// `BadCode` if no territory may have the code, then `UnknownLand` if no territory has it.
    pub fn territory(&self, code: &str) -> Result<(&str, &Territory), Refusal>
        ensures test { IsCheckOf (code_refusal self.now.territories code.now) result }
        ensures value { IfOk result (λ l.
            named_of code.now self.now.territories ≡ Some (l.0.now, l.1.now)) }
    {
        if !is_code(code) {
            return Err(Refusal::BadCode);
        }
        self.find_territory(code).ok_or(Refusal::UnknownLand)
    }
}
