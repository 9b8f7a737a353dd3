//! The limits of the register, as the command line names them.
ghost use Rattle.std.specs.Prelude.{◌≡◌, option_map};
ghost use Rattle.osn_register.specs.Limits.{standard_limits};
ghost use Rattle.osn_commands.specs.Limits as spec;

use osn_register::Limits;
use osn_report::Misuse;
use osn_written::parts_at;

/// Returns the number that a text is, 0 to 4,294,967,295, if it is one.
fn number_of(text: &str) -> Option<u32>
    ensures { result ≡ spec.number_of text.now }
{
    text.parse::<u32>().ok()
}

/// Returns the limits with the one of this name set, if there is one.
fn with_limit(limits: Limits, name: &str, number: u32) -> Option<Limits>
    ensures { result ≡ spec.with_limit limits name.now number }
{
    let mut limits = limits;
    match name {
        "lands" => limits.lands = number,
        "changes" => limits.changes = number,
        "exceptions" => limits.exceptions = number,
        "edits" => limits.edits = number,
        "editions" => limits.editions = number,
        _ => return None,
    }
    Some(limits)
}

/// Returns the limits with one set as a text says, `NAME=NUMBER`.
fn with_setting(limits: Limits, text: &str) -> Option<Limits>
    ensures { result ≡ spec.with_setting limits text.now }
{
    let (name, number) = parts_at(text, '=')?;
    with_limit(limits, name, number_of(number)?)
}

/// Returns the standard limits with those set that a text names.
fn limits_of(text: &str) -> Option<Limits>
    ensures { result ≡ spec.with_settings standard_limits (spec.settings text.now) }
{
    let mut limits = Limits::standard();
    let mut rest = text;
    while let Some((first, further)) = parts_at(rest, ',') {
        limits = with_setting(limits, first)?;
        rest = further;
    }
    with_setting(limits, rest)
}

/// Returns the limits that words ask for: the standard ones if there are no words.
pub(crate) fn limits_of_words(words: Option<&str>) -> Result<Limits, Misuse>
    ensures { result ≡ spec.limits_of_words (option_map (λ words. words.now) words.entry) }
{
    match words {
        None => Ok(Limits::standard()),
        Some(text) => limits_of(text).ok_or(Misuse::Limits),
    }
}
