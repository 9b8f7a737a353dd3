//! The word of a command line that names an edition.
ghost use Rattle.std.specs.Prelude.{◌≡◌, Ok, Err, IfErr, IfOk, option_map};
ghost use Rattle.osn_core.specs.Edition as spec;

use osn_written::number_of;

/// Returns the number of the edition that a word names, if there is a word.
///
/// # Errors
///
/// Returns the word, if it is not a number of 1 to 9 digits.
pub fn edition_of_word<'a>(word: Option<&'a str>) -> Result<Option<u32>, &'a str>
    ensures ok { IfOk result (λ number.
        spec.edition_of_word (option_map (λ word. word.now) word.entry) ≡ Ok number) }
    ensures err { IfErr result (λ typed.
        spec.edition_of_word (option_map (λ word. word.now) word.entry) ≡ Err typed.now) }
{
    let Some(word) = word else {
        return Ok(None);
    };
    match number_of(word) {
        Some(number) => Ok(Some(number)),
        None => Err(word),
    }
}
