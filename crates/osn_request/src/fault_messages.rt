//! What a line has to be, for each fault of a line: messages for people.
ghost use Rattle.std.specs.Prelude.{◌≡◌};
ghost use Rattle.osn_request.specs.FaultMessages as spec;

use crate::member::Member;
use crate::wire_fault::WireFault;

/// Returns the text on a member that is missing, of another type, or not one of its words. It says
/// what the member is.
fn member_message(member: Member) -> &'static str
    ensures { result.now ≡ spec.member_message member }
{
    match member {
        Member::Op => "op is a text: the name of an edit or of a query, or publish",
        Member::Code => "code is a text: the code of a territory, such as GB",
        Member::Name => "name is a text: the name of a territory",
        Member::Calendar => "calendar is julian, gregorian or swedish",
        Member::Style => { "style is january, annunciation, nativity, september, pisan or easter" }
        Member::Rule => "rule is julian or gregorian",
        Member::Source => {
            "source is a text of 1 to 1000 bytes with no control character, or is left out"
        }
        Member::Reader => "reader is a whole number, such as 1",
        Member::Year => "year is a whole number, such as 1731",
        Member::Month => "month is a whole number, such as 2 for February",
        Member::Day => "day is a whole number",
        Member::Date => "date is a text, such as 11 February 1731",
        Member::Weekday => "weekday is the English name of a weekday, or is left out",
        Member::Journal => "journal is the whole number 1, 2 or 4",
        Member::Step => "step is a text: the name of a step",
        Member::Ask => "ask is an object: the request of a query",
        Member::Reply => "reply is an object: the reply to the query",
        Member::Edition => "edition is a whole number from 0",
    }
}

/// Returns the text on a member that a request doesn't have.
pub fn unknown_member_message() -> &'static str
    ensures { result.now ≡ spec.unknown_member_message }
{
    "the request has no member of this name (--strict-members)"
}

/// Returns the text on a fault of a line, which says what a line has to be.
pub fn fault_message(fault: WireFault) -> &'static str
    ensures { result.now ≡ spec.fault_message fault }
{
    match fault {
        WireFault::LineTooLong => "a line has at most 65536 bytes",
        WireFault::NotJson => "a line is one JSON object in UTF-8, and this one is not JSON",
        WireFault::NotObject => "a line is one JSON object, and this one is another value",
        WireFault::BadField(member) => member_message(member),
        WireFault::UnknownOp => {
            "op is add_land, add_change, alter_change, drop_change, add_exception, \
drop_exception or publish, or the query read, day, easter, figures, lands, periods, exceptions, \
changes, feasts, convert or written"
        }
        WireFault::UnknownReader => "a reader is 1 to the number of readers (--readers N)",
        WireFault::BadHead => "the first line says a version of journals: 1, 2 or 4",
        WireFault::UnknownStep => {
            "step is look, pin, check, answer, leave, stage, publish, claim or absorb"
        }
        WireFault::NotAQuery => "a question is a query, and no edit or publish",
        WireFault::WrongReply => "the reply is not that to the query at its edition",
        WireFault::UnknownEdition => "the journal has fewer editions",
        WireFault::EditionFell => "a reader's editions never get earlier",
        WireFault::ReadOnly => "this service answers queries, and takes no edit and no publish",
        WireFault::NeedsUpgrade => {
            "the journal has no sources: serve --keep with --upgrade saves it as version 4"
        }
    }
}
