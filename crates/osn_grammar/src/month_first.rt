//! A range of days after its month, such as `May 3-10, 1640`.
ghost use Rattle.std.specs.Prelude.{◌≡◌, IfOk};
ghost use Rattle.osn_grammar.specs.MonthFirst as spec;

use crate::simple::is_long;
use crate::token::Token::{self, Dash, Month, Number, Or, To};
use std::alloc::{AllocError, Global};

/// Returns whether a part joins the two days of a range.
fn joins_days(token: Token) -> bool
    ensures { result ≡ spec.joins_days token }
{
    matches!(token, Dash | To | Or)
}

/// Returns whether parts begin with a month and a range of its days.
pub fn has_month_first(tokens: &[Token]) -> bool
    ensures { result ≡ spec.has_month_first tokens.now }
{
    match tokens {
        [Month(_), Number(first), token, Number(last), ..] => {
            joins_days(*token) && !is_long(*first) && !is_long(*last)
        }
        _ => false,
    }
}

/// Returns such parts with the month after the days.
pub fn month_moved(alloc: Global, tokens: &[Token]) -> Result<Vec<Token>, AllocError>
    ensures { IfOk result (λ moved. moved.items ≡ spec.month_moved tokens.now) }
{
    let mut moved = Vec::new(alloc);
    if let [month, first, token, last, years @ ..] = tokens {
        moved.push(*first)?;
        moved.push(*token)?;
        moved.push(*last)?;
        moved.push(*month)?;
        moved.extend_from_slice(years)?;
    }
    Ok(moved)
}
