//! The words of a page's arguments: the date, the place, and the one that is wrong.
ghost use Rattle.std.specs.Prelude.{◌≡◌};
ghost use Rattle.osn_invocation.specs.Invocation.{page_request};
ghost use Rattle.osn_page_commands.specs.PageRequest as spec;

use osn_invocation::PageRequest;
use osn_report::Misuse;

/// Returns the text of the date that words name, or an empty text if they name no date.
pub(crate) fn date_text_of<'a>(words: PageRequest<'a>) -> &'a str
    ensures { result.now ≡ spec.date_text_of (page_request words.entry) }
{
    match words {
        PageRequest::Read { date, .. } => date,
        _ => "",
    }
}

/// Returns the word that names the territory of a page, or an empty text if there is none.
pub(crate) fn territory_word<'a>(words: PageRequest<'a>) -> &'a str
    ensures { result.now ≡ spec.territory_word (page_request words.entry) }
{
    match words {
        PageRequest::Almanac { code, .. }
        | PageRequest::Read { code, .. }
        | PageRequest::Day { code, .. }
        | PageRequest::Month { code, .. }
        | PageRequest::Year { code, .. }
        | PageRequest::Territory {
            code: Some(code),
            ..
        } => code,
        PageRequest::Territory { code: None, .. } => "",
    }
}

/// Returns the argument of a page that is wrong.
pub(crate) fn wrong_word<'a>(words: PageRequest<'a>, misuse: Misuse) -> &'a str
    ensures { result.now ≡ spec.wrong_word (page_request words.entry) misuse }
{
    match (words, misuse) {
        (
            PageRequest::Read {
                weekday: Some(weekday),
                ..
            },
            Misuse::Weekday | Misuse::OtherWeekday(_),
        ) => weekday,
        (
            PageRequest::Read {
                order: Some(order),
                ..
            },
            Misuse::Order,
        ) => order,
        (PageRequest::Read { date, .. } | PageRequest::Day { date, .. }, _) => date,
        (PageRequest::Month { month, .. }, Misuse::Month) => month,
        (PageRequest::Month { year, .. } | PageRequest::Year { year, .. }, _) => year,
        (PageRequest::Almanac { .. } | PageRequest::Territory { .. }, _) => "",
    }
}
