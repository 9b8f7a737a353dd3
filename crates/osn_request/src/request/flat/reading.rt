//! Reads a flat object, and each token of its text once.
ghost use Rattle.std.specs.Prelude.{◌≡◌, ◌<◌, ◌∷◌, ℕ, IfSome, IfOk, OnErr, List, length, Some};
ghost use Rattle.std.specs.Prelude.{true, false, IsTrue};
ghost use Rattle.std.specs.Prelude.{slice_index, ◌==◌};
ghost use Rattle.fast_float.specs.Text.{scan};
ghost use Rattle.json.specs.Json.{members, value};
ghost use Rattle.json.specs.Reads.{token_of};
ghost use Rattle.json.specs.Scratch.{room};
ghost use Rattle.json.specs.Token.{Token as Lexed};
ghost use Rattle.serde_json.specs.Data.{no_members, object};
ghost use Rattle.serde_json.specs.Find.{of_integer};
ghost use Rattle.serde_json.specs.Read.{converted, number_from, number_of};
ghost use Rattle.serde_json.specs.Read.{of_json, of_members, read};
ghost use Rattle.osn_request.specs.Flat.{flat_members, scalar_data};

use crate::request::flat::{FlatObject, Scalar};
use arrayvec::ArrayVec;
use fast_float::Numeral;
use json::{Reader, Scratch, Token};
use std::alloc::AllocError;

/// Returns the number, unless it is minus zero or has more than 64 bits.
fn negative_of(digits: &[u8]) -> Option<i64>
    ensures { IfSome result (λ z. number_from true (scan digits.now) ≡ Some (of_integer z)) }
{
    let number = Numeral::scan(digits).to_i64(true)?;
    if number < 0 { Some(number) } else { None }
}

fn positive_of(digits: &[u8]) -> Option<i64>
    ensures { IfSome result (λ z. number_from false (scan digits.now) ≡ Some (of_integer z)) }
{
    Numeral::scan(digits).to_i64(false)
}

fn has_minus(bytes: &[u8]) -> bool
    ensures value { result ≡ (slice_index bytes.now 0 == 45) }
    ensures len { IsTrue result → 0 < length bytes.now }
{
    !bytes.is_empty() && bytes[0] == b'-'
}

/// Returns the whole number of a number's text, if it fits in 64 bits.
fn whole_of(text: &str) -> Option<i64>
    ensures { IfSome result (λ z. number_of text.now ≡ Some (of_integer z)) }
{
    let bytes = text.as_bytes();
    if has_minus(bytes) {
        negative_of(&bytes[1..])
    } else {
        positive_of(bytes)
    }
}

/// Returns the text or the whole number of a token.
fn scalar_of<'a>(token: Token<'a>) -> Option<Scalar<'a>>
    ensures { IfSome result (λ s. (depth : ℕ) (rest : List Lexed) →
        converted of_json (value depth (token_of token.entry ∷ rest))
        ≡ Some (scalar_data s, rest)) }
{
    match token {
        Token::String(text) => Some(Scalar::Text(text)),
        Token::Number(text) => Some(Scalar::Whole(whole_of(text)?)),
        _ => None,
    }
}

/// Returns the members of an object whose brace was read, if they are few texts and whole numbers.
fn members_in<'a>(reader: &mut Reader<'a>) -> Option<FlatObject<'a>>
    ensures { IfSome result (λ found. (depth : ℕ) →
        converted (λ ms. of_members ms no_members)
        (members (value depth) (length reader.old) reader.old)
        ≡ Some (flat_members found, reader.new)) }
{
    let mut members = ArrayVec::new();
    while let Some(name) = reader.next_key().ok()? {
        let value = scalar_of(reader.next()?)?;
        if members.is_full() {
            return None;
        }
        members.push((name, value));
    }
    Some(FlatObject { members })
}

/// Returns the next object of a reader, if its members are few texts and whole numbers. Otherwise
/// the reader is after the tokens that were tried.
fn flat_object_in<'a>(reader: &mut Reader<'a>) -> Option<FlatObject<'a>>
    ensures { IfSome result (λ found. (depth : ℕ) → 0 < depth →
        converted of_json (value depth reader.old)
        ≡ Some (object (flat_members found), reader.new)) }
{
    match reader.next()? {
        Token::BeginObject => members_in(reader),
        _ => None,
    }
}

/// Returns the object of a text, if its members are few texts and whole numbers.
///
/// # Errors
/// Returns `AllocError` if memory runs out. The scratch grows to the length of the text.
pub(crate) fn flat_object_of<'a>(
    text: &'a str,
    scratch: &'a mut Scratch,
) -> Result<Option<FlatObject<'a>>, AllocError>
    ensures object { IfOk result (λ found. IfSome found (λ f.
        read text.now ≡ Some (object (flat_members f)))) }
    ensures full { OnErr result (room scratch.old < length text.now) }
{
    let mut reader = Reader::new(text, scratch)?;
    let Some(object) = flat_object_in(&mut reader) else {
        return Ok(None);
    };
    if reader.next().is_some() {
        return Ok(None);
    }
    Ok(Some(object))
}
