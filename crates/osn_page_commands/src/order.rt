//! The word of the order in which the three numbers of a date are read.
ghost use Rattle.std.specs.Prelude.{◌≡◌, option_map};
ghost use Rattle.osn_page_commands.specs.Order as spec;

use osn_grammar::DateOrder;
use osn_report::Misuse;

/// Returns the order in which a date's three numbers are read, by its word. Without a word, a date
/// that may begin with its day or its month is refused.
///
/// # Errors
///
/// `Order` for a word that is neither `dmy` nor `mdy`.
pub(crate) fn order_of_word(word: Option<&str>) -> Result<DateOrder, Misuse>
    ensures { result ≡ spec.order_of_word (option_map (λ word. word.now) word.entry) }
{
    match word {
        None => Ok(DateOrder::Unknown),
        Some("dmy") => Ok(DateOrder::DayMonth),
        Some("mdy") => Ok(DateOrder::MonthDay),
        Some(_) => Err(Misuse::Order),
    }
}
