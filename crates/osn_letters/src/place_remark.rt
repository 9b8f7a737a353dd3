//! What is said of the place of a letter of which no date is read.
ghost use Rattle.std.specs.Prelude.{◌≡◌};
ghost use Rattle.std.specs.Result.{result_map_both};
ghost use Rattle.osn_letters.specs.Fields as spec;

use crate::no_place::NoPlace;
use crate::remark::{PossibleRemark, Remark};
use osn_territory::Territory;

/// Returns what is remarked of the place of a letter.
pub(crate) fn place_remark(territory: Result<&Territory, NoPlace>) -> PossibleRemark
    ensures { result ≡ spec.place_remark
        (result_map_both (λ t. t.now) (λ reason. reason) territory.entry) }
{
    match territory {
        Ok(_) => (false, Remark::NoPlace(NoPlace::Unknown)),
        Err(reason) => (true, Remark::NoPlace(reason)),
    }
}

/// Returns what is remarked of the place beside a date that is not UTF-8.
pub(crate) fn place_remark_beside(territory: Result<&Territory, NoPlace>) -> PossibleRemark
    ensures { result ≡ spec.place_remark_beside
        (result_map_both (λ t. t.now) (λ reason. reason) territory.entry) }
{
    match territory {
        Err(NoPlace::NotUtf8) => (false, Remark::NoPlace(NoPlace::Unknown)),
        _ => place_remark(territory),
    }
}
