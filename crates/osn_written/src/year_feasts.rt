//! The principal feasts that a territory dated in a year, as it counted the year.
ghost use Rattle.std.specs.Prelude.{◌≡◌, ◌++◌, IfOk, OnOk};
ghost use Rattle.std.specs.List.{flat_map};
ghost use Rattle.osn_days.specs.Rules.{newest_rules};
ghost use Rattle.osn_written.specs.YearFeasts as spec;

use crate::feast::Feast;
use osn_days::{Day, Year};
use osn_territory::Territory;
use std::alloc::{AllocError, Global};

/// The feasts that an almanac has, in order.
pub const PRINCIPAL_FEASTS: [Feast; 6] = [
    Feast::Septuagesima,
    Feast::AshWednesday,
    Feast::Easter,
    Feast::Ascension,
    Feast::Pentecost,
    Feast::Trinity,
];

/// A feast on a day.
#[derive(Clone, Copy, Debug, PartialEq, Eq, Drop)]
pub struct FeastDay {
    pub feast: Feast,
    /// The year counted from 1 January with the Easter that the feast is counted from.
    pub january_year: Year,
    pub day: Day,
}

/// Returns whether the territory dated a day in a year.
fn is_dated_in(territory: &Territory, year: Year, day: Day) -> bool
    ensures { result ≡ spec.is_dated_in newest_rules territory.now year day }
{
    territory.dated(day).label.year == year.number() as i32
}

/// Appends a feast of an Easter, if the territory dated it in the year.
fn push_feast(
    feasts: &mut Vec<FeastDay>,
    territory: &Territory,
    year: Year,
    january_year: Year,
    easter: Day,
    feast: Feast,
) -> Result<(), AllocError>
    ensures { OnOk result (feasts.new.items ≡ feasts.old.items
        ++ spec.feast_in newest_rules territory.now year january_year easter feast) }
{
    match feast.day(easter) {
        Some(day) if is_dated_in(territory, year, day) => {
            feasts.push(FeastDay {
                feast,
                january_year,
                day,
            })?;
            Ok(())
        }
        _ => Ok(()),
    }
}

/// Appends those of these feasts of an Easter that the territory dated in the year.
fn push_feasts_among(
    feasts: &mut Vec<FeastDay>,
    territory: &Territory,
    year: Year,
    january_year: Year,
    easter: Day,
    among: &[Feast],
) -> Result<(), AllocError>
    ensures { OnOk result (feasts.new.items ≡ feasts.old.items ++ flat_map
        (spec.feast_in newest_rules territory.now year january_year easter) among.now) }
{
    for feast in among {
        push_feast(feasts, territory, year, january_year, easter, *feast)?;
    }
    Ok(())
}

/// Appends the feasts of the Easters of a year from 1 January, if that has figures.
fn push_feasts_of(
    feasts: &mut Vec<FeastDay>,
    territory: &Territory,
    year: Year,
    january_year: u32,
) -> Result<(), AllocError>
    ensures { OnOk result (feasts.new.items ≡ feasts.old.items
        ++ spec.feasts_of newest_rules territory.now year january_year) }
{
    let Some(january_year) = Year::new(i64::from(january_year)) else {
        return Ok(());
    };
    let easters = territory.easters(january_year)?;
    for easter in &easters {
        push_feasts_among(
            feasts,
            territory,
            year,
            january_year,
            *easter,
            &PRINCIPAL_FEASTS,
        )?;
    }
    Ok(())
}

/// Returns the principal feasts that a territory dated in a year from 1 to 9999, as it counted the
/// year, in the order of their Easters. A year that does not begin on 1 January may have feasts of
/// two Easters.
///
/// # Errors
///
/// If memory runs out.
pub fn feasts_of_year(
    alloc: Global,
    territory: &Territory,
    year: Year,
) -> Result<Vec<FeastDay>, AllocError>
    ensures { IfOk result (λ feasts.
        feasts.items ≡ spec.feasts_of_year newest_rules territory.now year) }
{
    let number = year.number();
    let mut feasts = Vec::new(alloc);
    push_feasts_of(&mut feasts, territory, year, number - 1)?;
    push_feasts_of(&mut feasts, territory, year, number)?;
    push_feasts_of(&mut feasts, territory, year, number + 1)?;
    Ok(feasts)
}
