//! The words of a command line.
use std::alloc::{AllocError, Global};

/// Adds a character to a word, and begins the word if there is none.
fn extend(alloc: Global, word: &mut Option<String>, character: char) -> Result<(), AllocError> {
    word.get_or_insert_with(|| String::new(alloc))
        .push(character)
}

/// Returns the words of a command line, with blanks between them. What is between `"` and `"`, or
/// between `'` and `'`, is taken as it is; nothing is expanded.
///
/// # Errors
///
/// Returns `AllocError` if memory runs out.
pub(crate) fn words_of(alloc: Global, line: &str) -> Result<Vec<String>, AllocError> {
    let mut words = Vec::new(alloc);
    let mut word = None;
    let mut quote = None;
    for character in line.chars() {
        if quote == Some(character) {
            quote = None;
        } else if quote.is_some() {
            extend(alloc, &mut word, character)?;
        } else if character == '"' || character == '\'' {
            quote = Some(character);
            word.get_or_insert_with(|| String::new(alloc));
        } else if character != ' ' {
            extend(alloc, &mut word, character)?;
        } else if let Some(whole) = word.take() {
            words.push(whole)?;
        }
    }
    if let Some(whole) = word {
        words.push(whole)?;
    }
    Ok(words)
}
