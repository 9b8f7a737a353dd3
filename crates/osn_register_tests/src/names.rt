//! The numbers and names that replies give, as the formats list them, and the lists that answers
//! contain.
use crate::compare::same;
use osn_register::{Listing, Refusal};
use osn_request::{Member, WireFault};
use std::alloc::AllocError;
use std::process::Abort;

/// The refusals.
const REFUSALS: [(Refusal, u8, &str); 21] = [
    (Refusal::BadCode, 1, "BadCode"),
    (Refusal::BadName, 2, "BadName"),
    (Refusal::UnknownLand, 3, "UnknownLand"),
    (Refusal::LandExists, 4, "LandExists"),
    (Refusal::DayOffLine, 5, "DayOffLine"),
    (Refusal::ChangeExists, 6, "ChangeExists"),
    (Refusal::NoSuchChange, 7, "NoSuchChange"),
    (Refusal::OpeningPeriod, 8, "OpeningPeriod"),
    (Refusal::YearOffRange, 9, "YearOffRange"),
    (Refusal::ExceptionExists, 10, "ExceptionExists"),
    (Refusal::NoSuchException, 11, "NoSuchException"),
    (Refusal::TooManyLands, 12, "TooManyLands"),
    (Refusal::TooManyChanges, 13, "TooManyChanges"),
    (Refusal::TooManyExceptions, 14, "TooManyExceptions"),
    (Refusal::NothingPending, 15, "NothingPending"),
    (Refusal::JournalFull, 16, "JournalFull"),
    (Refusal::EditionsFull, 17, "EditionsFull"),
    (Refusal::BadDate, 18, "BadDate"),
    (Refusal::StyleNeedsJulian, 19, "StyleNeedsJulian"),
    (Refusal::NoMemory, 90, "NoMemory"),
    (Refusal::BadCount, 92, "BadCount"),
];

fn are_refusals(rt: &impl Abort, rows: &[(Refusal, u8, &str)]) {
    for (refusal, number, name) in rows {
        same(rt, (refusal.number(), refusal.name()), (*number, *name));
    }
}

/// The faults of lines, except `ReadOnly`.
const FAULTS: [(WireFault, u8, &str); 12] = [
    (WireFault::LineTooLong, 31, "LineTooLong"),
    (WireFault::NotJson, 32, "NotJson"),
    (WireFault::NotObject, 33, "NotObject"),
    (WireFault::BadField(Member::Day), 34, "BadField"),
    (WireFault::UnknownOp, 35, "UnknownOp"),
    (WireFault::UnknownReader, 36, "UnknownReader"),
    (WireFault::BadHead, 37, "BadHead"),
    (WireFault::UnknownStep, 38, "UnknownStep"),
    (WireFault::NotAQuery, 41, "NotAQuery"),
    (WireFault::WrongReply, 42, "WrongReply"),
    (WireFault::UnknownEdition, 43, "UnknownEdition"),
    (WireFault::EditionFell, 44, "EditionFell"),
];

fn are_faults(rt: &impl Abort, rows: &[(WireFault, u8, &str)]) {
    for (fault, number, name) in rows {
        same(rt, (fault.number(), fault.name()), (*number, *name));
    }
}

/// The members of lines, except a written date and its weekday.
const MEMBERS: [(Member, &str); 15] = [
    (Member::Op, "op"),
    (Member::Code, "code"),
    (Member::Name, "name"),
    (Member::Calendar, "calendar"),
    (Member::Style, "style"),
    (Member::Rule, "rule"),
    (Member::Reader, "reader"),
    (Member::Year, "year"),
    (Member::Month, "month"),
    (Member::Day, "day"),
    (Member::Journal, "journal"),
    (Member::Step, "step"),
    (Member::Ask, "ask"),
    (Member::Reply, "reply"),
    (Member::Edition, "edition"),
];

fn are_members(rt: &impl Abort, rows: &[(Member, &str)]) {
    for (member, name) in rows {
        same(rt, member.name(), *name);
    }
}

#[test]
fn numbers_and_names(rt: HostRuntime) {
    are_refusals(&rt, &REFUSALS);
    are_faults(&rt, &FAULTS);
    are_members(&rt, &MEMBERS);
}

#[test]
fn a_listing_has_what_was_moved_in(rt: HostRuntime) -> Result<(), AllocError> {
    let items = Vec::from_slice(rt.alloc(), &[3_u32, 1, 2])?;
    let listing = Listing::new(items);
    same(&rt, listing.as_slice(), [3, 1, 2].as_slice());
    Ok(())
}
