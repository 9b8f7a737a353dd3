//! What was found for an argument of a command.
ghost use Rattle.std.specs.Prelude.{◌≡◌, option_map};
ghost use Rattle.clap.specs.Words.{first_of, found_of, rows_of};
ghost use Rattle.osn_invocation.specs.Invocation.{is_given, number_of, text_of};

use clap::ArgMatches;

/// Returns the text of an argument, if it is given.
pub(crate) fn value_of<'a>(matches: &ArgMatches<'a>, id: &str) -> Option<&'a str>
    ensures { option_map (λ text. text.now) result
        ≡ first_of id.now (rows_of (found_of matches.now)) }
{
    matches.get_str(id)
}

/// Returns the text of a required argument.
pub(crate) fn text_of<'a>(matches: &ArgMatches<'a>, id: &str) -> &'a str
    ensures { result.now ≡ text_of id.now (rows_of (found_of matches.now)) }
{
    matches.get_str(id).unwrap_or_default()
}

/// Returns whether an option without a value was given.
pub(crate) fn is_given(matches: &ArgMatches<'_>, id: &str) -> bool
    ensures { result ≡ is_given id.now (rows_of (found_of matches.now)) }
{
    matches.get_count(id) > 0
}

/// Returns the number of an argument, or the other one if it isn't given.
pub(crate) fn number_of(matches: &ArgMatches<'_>, id: &str, other: u32) -> u32
    ensures { result ≡ number_of other id.now (rows_of (found_of matches.now)) }
{
    matches.get_one(id).unwrap_or(other)
}
