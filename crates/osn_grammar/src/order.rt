//! Which of two numbers is the month.
ghost use Rattle.std.specs.Prelude.{◌≡◌};
ghost use Rattle.osn_grammar.specs.Simple as spec;

use crate::text_reading::DateOrder;

/// Returns whether a number is that of a month.
pub fn is_month(number: u32) -> bool
    ensures { result ≡ spec.is_between 1 12 number }
{
    number >= 1 && number <= 12
}

/// Returns whether each of two numbers may be the month, and it is not the same day either way.
fn is_either_month(first: u32, second: u32) -> bool
    ensures { result ≡ spec.is_either_month first second }
{
    is_month(first) && is_month(second) && first != second
}

/// Returns the order of two numbers, which is found unless each of them may be the month.
pub fn order_of(order: DateOrder, first: u32, second: u32) -> DateOrder
    ensures { result ≡ spec.order_of order first second }
{
    match order {
        DateOrder::Unknown if is_either_month(first, second) => DateOrder::Unknown,
        DateOrder::Unknown if second > 12 => DateOrder::MonthDay,
        DateOrder::Unknown => DateOrder::DayMonth,
        known => known,
    }
}
