//! A year in Roman numerals, such as `MDCCXXXI`.
ghost use Rattle.std.specs.Prelude.{◌≡◌};
ghost use Rattle.osn_grammar.specs.RomanYear as spec;

/// Returns the value of a small letter of Roman numerals, or 0 for another one.
fn letter_value(letter: u8) -> u32
    ensures { result ≡ spec.letter_value letter }
{
    match letter {
        b'i' | b'j' => 1,
        b'v' => 5,
        b'x' => 10,
        b'l' => 50,
        b'c' => 100,
        b'd' => 500,
        b'm' => 1000,
        _ => 0,
    }
}

/// Returns whether a letter may be before a greater one: `i` before `v` and `x`, `x` before `l` and
/// `c`, and `c` before `d` and `m`.
fn is_less_before(letter: u32, next: u32) -> bool
    ensures { result ≡ spec.is_less_before letter next }
{
    match letter {
        1 => next == 5 || next == 10,
        10 => next == 50 || next == 100,
        100 => next == 500 || next == 1000,
        _ => false,
    }
}

/// Returns the value of a letter and of those after it, the first of which is `next`.
fn with_letter(letter: u32, next: u32, rest: u32) -> Option<u32>
    ensures { result ≡ spec.with_letter letter next rest }
{
    if letter == 0 || letter > 1000 || rest > 4000 {
        None
    } else if letter >= next {
        Some(rest + letter)
    } else if is_less_before(letter, next) && rest >= letter {
        Some(rest - letter)
    } else {
        None
    }
}

/// Returns the value of the first letter, or 0 if there is no letter.
fn first_value(word: &[u8]) -> u32
    ensures { result ≡ spec.first_value word.now }
{
    match word {
        [first, ..] => letter_value(*first),
        [] => 0,
    }
}

/// Returns the value with one more letter before the others, if they have one.
fn sum_with(letter: u8, rest: &[u8], value: Option<u32>) -> Option<u32>
    ensures { result ≡ spec.sum_with letter rest.now value }
{
    with_letter(letter_value(letter), first_value(rest), value?)
}

/// Returns the value of a Roman numeral in small letters, if it is one.
fn roman_value(word: &[u8]) -> Option<u32>
    ensures { result ≡ spec.roman_value word.now }
{
    let mut value = Some(0);
    let mut place = word.len();
    while place > 0 {
        place -= 1;
        value = sum_with(word[place], &word[place + 1..], value);
    }
    value
}

/// Returns the year of a Roman numeral of three letters or more that begins with `m`, if it is 1401
/// to 2099.
pub fn roman_year(word: &[u8]) -> Option<u32>
    ensures { result ≡ spec.roman_year word.now }
{
    if word.len() < 3 || first_value(word) != 1000 {
        return None;
    }
    match roman_value(word) {
        Some(year) if year > 1400 && year < 2100 => Some(year),
        _ => None,
    }
}
