//! How a table of letters is read, by the arguments.
ghost use Rattle.std.specs.Prelude.{◌≡◌, [], Ok, Err, IfErr, IfOk, is_some, option_map, unwrap_or};
ghost use Rattle.osn_invocation.specs.Invocation.{date_model, letters_model};
ghost use Rattle.osn_letters.specs.Columns.{dates_of, is_required, weekday_name};
ghost use Rattle.osn_page_commands.specs.Letters.{settings_model};
ghost use Rattle.osn_page_commands.specs.TableWords as spec;

use crate::order::order_of_word;
use osn_invocation::{DateOptions, LettersOptions};
use osn_letters::{ColumnNames, DateNames, Separator, TableSettings, WeekdayName};
use osn_report::Misuse;

/// Returns what separates the fields of a table, by its word, if there is one.
fn separator_of_word(word: Option<&str>) -> Result<Option<Separator>, Misuse>
    ensures { result ≡ spec.separator_of_word (option_map (λ word. word.now) word.entry) }
{
    let Some(word) = word else {
        return Ok(None);
    };
    match word {
        "comma" => Ok(Some(Separator::Comma)),
        "semicolon" => Ok(Some(Separator::Semicolon)),
        "tab" => Ok(Some(Separator::Tab)),
        _ => Err(Misuse::Separator),
    }
}

/// Returns the name of the column of weekdays, which is required if it is named.
fn weekday_column<'a>(name: Option<&'a str>) -> WeekdayName<'a>
    ensures text { weekday_name result
        ≡ spec.weekday_column (option_map (λ name. name.now) name.entry) }
    ensures required { is_required result ≡ is_some name.entry }
{
    match name {
        Some(name) => WeekdayName::Required(name),
        None => WeekdayName::Optional("weekday"),
    }
}

/// A word of a command line that is wrong, and why.
#[derive(Clone, Copy, Debug, PartialEq, Eq)]
pub(crate) struct WrongWord<'a> {
    pub(crate) misuse: Misuse,
    /// The word as it was typed.
    pub(crate) argument: &'a str,
}

/// Returns a word, or an empty text if there is none.
fn or_empty<'a>(word: Option<&'a str>) -> &'a str
    ensures { result.now ≡ unwrap_or (option_map (λ word. word.now) word.entry) [] }
{
    match word {
        Some(word) => word,
        None => "",
    }
}

/// Returns a word that is wrong, as it was typed.
fn wrong_word<'a>(misuse: Misuse, word: Option<&'a str>) -> WrongWord<'a>
    ensures misuse { result.misuse ≡ misuse }
    ensures argument { result.argument.now
        ≡ unwrap_or (option_map (λ word. word.now) word.entry) [] }
{
    WrongWord {
        misuse,
        argument: or_empty(word),
    }
}

/// Returns the names of the columns of the date. If no column is named, one has the whole date.
///
/// # Errors
///
/// The option that can't be used with the others, or lacks one.
fn dates_of_options<'a>(options: DateOptions<'a>) -> Result<DateNames<'a>, WrongWord<'a>>
    ensures ok { IfOk result
        (λ names. spec.dates_of_options (date_model options.entry) ≡ Ok (dates_of names)) }
    ensures err { IfErr result (λ wrong. spec.dates_of_options (date_model options.entry)
        ≡ Err (wrong.misuse, wrong.argument.now)) }
{
    let (misuse, argument) = match (options.date, options.year, options.month, options.day) {
        (None, None, None, None) => return Ok(DateNames::Whole("date")),
        (Some(date), None, None, None) => return Ok(DateNames::Whole(date)),
        (Some(_), _, _, _) => (Misuse::DateAndParts, "--date"),
        (None, None, Some(_), _) => (Misuse::PartWithoutYear, "--month"),
        (None, None, None, Some(_)) => (Misuse::PartWithoutYear, "--day"),
        (None, Some(_), None, Some(_)) => (Misuse::DayWithoutMonth, "--day"),
        (None, Some(year), month, day) => return Ok(DateNames::Apart { year, month, day }),
    };
    Err(WrongWord { misuse, argument })
}

/// Returns the name of the column of places, unless one place of all rows is named.
///
/// # Errors
///
/// The option of the one place, if both are named.
fn place_named<'a>(
    place_of_all: Option<&'a str>,
    name: Option<&'a str>,
) -> Result<Option<&'a str>, WrongWord<'a>>
    ensures ok { IfOk result (λ place.
        spec.place_named (option_map (λ place. place.now) place_of_all.entry)
        (option_map (λ name. name.now) name.entry)
        ≡ Ok (option_map (λ place. place.now) place)) }
    ensures err { IfErr result (λ wrong.
        spec.place_named (option_map (λ place. place.now) place_of_all.entry)
        (option_map (λ name. name.now) name.entry) ≡ Err (wrong.misuse, wrong.argument.now)) }
{
    match (place_of_all, name) {
        (None, None) => Ok(Some("place")),
        (None, Some(name)) => Ok(Some(name)),
        (Some(_), None) => Ok(None),
        (Some(_), Some(_)) => Err(WrongWord {
            misuse: Misuse::PlaceAndColumn,
            argument: "--in",
        }),
    }
}

/// Returns how a table is read, by the name of its column of places, if it has one.
///
/// # Errors
///
/// The first of the other words that is wrong.
fn settings_at<'a>(
    options: LettersOptions<'a>,
    place: Option<&'a str>,
) -> Result<TableSettings<'a>, WrongWord<'a>>
    ensures ok { IfOk result (λ settings. spec.settings_at (letters_model options.entry)
        (option_map (λ place. place.now) place.entry) ≡ Ok (settings_model settings)) }
    ensures err { IfErr result (λ wrong. spec.settings_at (letters_model options.entry)
        (option_map (λ place. place.now) place.entry) ≡ Err (wrong.misuse, wrong.argument.now)) }
{
    let separator = separator_of_word(options.separator);
    let order = order_of_word(options.order);
    match (dates_of_options(options.date), separator, order) {
        (Err(wrong), _, _) => Err(wrong),
        (Ok(_), Err(misuse), _) => Err(wrong_word(misuse, options.separator)),
        (Ok(_), Ok(_), Err(misuse)) => Err(wrong_word(misuse, options.order)),
        (Ok(date), Ok(separator), Ok(order)) => Ok(TableSettings {
            names: ColumnNames {
                place,
                place_of_all: or_empty(options.place_of_all),
                date,
                weekday: weekday_column(options.weekday),
                replaces: options.replace,
            },
            separator,
            order,
            places: None,
            keeps_going: options.keep_going,
        }),
    }
}

/// Returns how a table is read, by the names of its columns, the word of what separates its fields,
/// and that of the order of a date's three numbers. It has no table of places yet.
///
/// # Errors
///
/// The first of these words that is wrong.
pub(crate) fn settings_of_options<'a>(
    options: LettersOptions<'a>,
) -> Result<TableSettings<'a>, WrongWord<'a>>
    ensures ok { IfOk result (λ settings.
        spec.settings_of_options (letters_model options.entry) ≡ Ok (settings_model settings)) }
    ensures err { IfErr result (λ wrong. spec.settings_of_options (letters_model options.entry)
        ≡ Err (wrong.misuse, wrong.argument.now)) }
{
    let place = place_named(options.place_of_all, options.place)?;
    settings_at(options, place)
}
