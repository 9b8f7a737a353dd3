//! The members of a line's object, by their types.
ghost use Rattle.std.specs.Prelude.{◌≡◌, true, MatchResult, IfOk, IfSome, Ok, Err, option_map};
ghost use Rattle.osn_register.specs.Sources.{is_source};
ghost use Rattle.osn_written.specs.WrittenDate.{weekday_named};
ghost use Rattle.osn_request.specs.declared.member.Member.TheVariants as members;
ghost use Rattle.osn_request.specs.Field as spec;
ghost use Rattle.osn_request.specs.Version.{rules_of};

use crate::member::Member;
use crate::request::json_object::JsonObject;
use crate::version::Version;
use crate::wire_fault::WireFault;
use osn_days::{Calendar, Keyword, Weekday};
use osn_register::Source;
use osn_territory::{Regime, Style};
use osn_written::weekday_named;

/// Returns a member that is a text.
///
/// # Errors
/// Returns `BadField` if the member is missing or not a text.
pub fn text_at<O: JsonObject>(object: &O, member: Member) -> Result<&str, WireFault>
    ensures { MatchResult result
        (λ s. spec.text_at member (O.value object.now) ≡ Ok s.now)
        (λ f. spec.text_at member (O.value object.now) ≡ Err f) }
{
    match object.text(member.name()) {
        Some(text) => Ok(text),
        None => Err(WireFault::BadField(member)),
    }
}

/// Returns a member that is a whole number.
///
/// # Errors
/// Returns `BadField` if the member is missing or not a whole number.
pub fn whole_at<O: JsonObject>(object: &O, member: Member) -> Result<i64, WireFault>
    ensures { result ≡ spec.whole_at member (O.value object.now) }
{
    match object.whole(member.name()) {
        Some(number) => Ok(number),
        None => Err(WireFault::BadField(member)),
    }
}

/// Returns a member that is one of some words.
fn word_at<O: JsonObject, W: Keyword>(object: &O, member: Member) -> Result<W, WireFault>
    ensures { result ≡ spec.word_at member W.meaning (O.value object.now) }
{
    match W::from_word(text_at(object, member)?) {
        Some(meaning) => Ok(meaning),
        None => Err(WireFault::BadField(member)),
    }
}

/// Returns the weekday that a required member names.
fn named_weekday_at<O: JsonObject>(object: &O) -> Result<Weekday, WireFault>
    ensures { result ≡ spec.word_at members.Weekday weekday_named (O.value object.now) }
{
    match weekday_named(text_at(object, Member::Weekday)?) {
        Some(weekday) => Ok(weekday),
        None => Err(WireFault::BadField(Member::Weekday)),
    }
}

/// Returns the weekday of an optional member, by its English name in letters of any case.
pub fn weekday_at<O: JsonObject>(object: &O) -> Result<Option<Weekday>, WireFault>
    ensures { result ≡ spec.weekday_at (O.value object.now) }
{
    if !object.has(Member::Weekday.name()) {
        return Ok(None);
    }
    Ok(Some(named_weekday_at(object)?))
}

/// Returns the calendar that a member names.
///
/// # Errors
/// Returns `BadField` if the member is missing, not a text or not the word of a calendar.
pub fn calendar_at<O: JsonObject>(object: &O) -> Result<Calendar, WireFault>
    ensures { result ≡ spec.calendar_at (O.value object.now) }
{
    word_at(object, Member::Calendar)
}

/// Returns the style that a member gives, if its word is one of the version's.
fn style_at<O: JsonObject>(version: Version, object: &O) -> Result<Style, WireFault>
    ensures { result ≡ spec.style_at (rules_of version) (O.value object.now) }
{
    let style = word_at(object, Member::Style)?;
    if version.has_style(style) {
        Ok(style)
    } else {
        Err(WireFault::BadField(Member::Style))
    }
}

/// Returns the regime that three members give, by the rules of a version.
#[tactic(auto, unfolding(crate::specs::Field::regime_of))]
pub fn regime_of<O: JsonObject>(version: Version, object: &O) -> Result<Regime, WireFault>
    ensures { result ≡ spec.regime_of (rules_of version) (O.value object.now) }
{
    let calendar = word_at(object, Member::Calendar)?;
    let style = style_at(version, object)?;
    let rule = word_at(object, Member::Rule)?;
    Ok(Regime {
        calendar,
        style,
        rule,
    })
}

/// Returns the text of a source that a required member gives.
fn given_source_at<O: JsonObject>(object: &O) -> Result<&str, WireFault>
    ensures source { MatchResult result
        (λ text. spec.given_source_at (O.value object.now) ≡ Ok text.now)
        (λ f. spec.given_source_at (O.value object.now) ≡ Err f) }
    ensures allowed { IfOk result (λ text. is_source text.now ≡ true) }
{
    let text = text_at(object, Member::Source)?;
    if Source::is_source(text) {
        Ok(text)
    } else {
        Err(WireFault::BadField(Member::Source))
    }
}

/// Returns the text of the source of an optional member. A version that has no sources does not
/// look at the member.
pub fn source_at<O: JsonObject>(version: Version, object: &O) -> Result<Option<&str>, WireFault>
    ensures source { MatchResult result
        (λ source. spec.source_at version (O.value object.now)
        ≡ Ok (option_map (λ text. text.now) source))
        (λ f. spec.source_at version (O.value object.now) ≡ Err f) }
    ensures allowed { IfOk result (λ source.
        IfSome source (λ text. is_source text.now ≡ true)) }
{
    if !version.has_sources() || !object.has(Member::Source.name()) {
        return Ok(None);
    }
    Ok(Some(given_source_at(object)?))
}
