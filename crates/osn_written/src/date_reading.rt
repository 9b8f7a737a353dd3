//! The date that a text is, or why it is not a date.
ghost use Rattle.std.specs.Prelude.{◌≡◌, IfOk};

use crate::any_date::AnyDate;
use crate::listing::Listing;
use crate::written_date::DateFault;
use std::alloc::{AllocError, Global};

/// What a text says of a date, once it is read.
#[derive(Debug, Drop)]
pub enum DateReading {
    /// One date, a range or a bound.
    Date(AnyDate),
    /// One of several dates.
    Set(Listing<AnyDate>),
    /// Nothing, and why.
    Fault(DateFault),
}

/// Returns a list of the same dates.
fn copy_of(alloc: Global, dates: &[AnyDate]) -> Result<Vec<AnyDate>, AllocError>
    ensures { IfOk result (λ copy. copy.items ≡ dates.now) }
{
    dates.iter().copied().collect(alloc)
}

impl DateReading {
    /// Returns a reading equal to this one.
    ///
    /// # Errors
    ///
    /// If memory runs out.
    pub fn copy(&self, alloc: Global) -> Result<DateReading, AllocError>
        ensures { IfOk result (λ reading. reading ≡ self.now) }
    {
        Ok(match self {
            DateReading::Date(date) => DateReading::Date(*date),
            DateReading::Set(dates) => {
                DateReading::Set(Listing::new(copy_of(alloc, dates.as_slice())?))
            }
            DateReading::Fault(fault) => DateReading::Fault(*fault),
        })
    }
}
