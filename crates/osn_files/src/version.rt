//! The head of a journal or a script: the version of its form.
ghost use Rattle.std.specs.Prelude.{◌≡◌};
ghost use Rattle.osn_request.specs.LineObject.{line_data};
ghost use Rattle.osn_request.specs.Field.{or_fault};
ghost use Rattle.osn_request.specs.declared.wire_fault.WireFault.TheVariants.{BadHead};
ghost use Rattle.osn_files.specs.Version as spec;

use osn_request::{JsonObject, LineObject, Member, Version, WireFault};

/// Returns the version that the object of a head says, if it says one.
fn version_in(object: &LineObject<'_>) -> Option<Version>
    ensures { result ≡ spec.version_in (line_data object.now) }
{
    Version::from_number(object.whole(Member::Journal.name())?)
}

/// Returns the version of a head's object, or its fault.
pub(crate) fn version_of(object: &LineObject<'_>) -> Result<Version, WireFault>
    ensures { result ≡ or_fault BadHead (spec.version_in (line_data object.now)) }
{
    match version_in(object) {
        Some(version) => Ok(version),
        None => Err(WireFault::BadHead),
    }
}
