//! An edition of the object of a journal.
ghost use Rattle.std.specs.Prelude.{◌≡◌, ◌≤◌, IfErr, IfOk, OnOk, Some, length};
ghost use Rattle.osn_days.specs.Rules.{newest_rules};
ghost use Rattle.osn_core.specs.Sequential.{joined};
ghost use Rattle.osn_register.specs.BorrowedQuery.{as_query};
ghost use Rattle.osn_register.specs.Plain.{after_edits};
ghost use Rattle.osn_core.specs.Edition as spec;

use crate::batch::Batch;
use crate::object::Object;
use crate::step::Reply;
use osn_register::{BorrowedQuery, Register};
use std::alloc::{AllocError, Global};

/// Why an edition can't be looked at.
#[derive(Clone, Copy, Debug, PartialEq, Eq)]
pub enum EditionFault {
    /// The journal has no edition of the number.
    TooLate {
        /// The number.
        number: u32,
        /// The number of the newest edition.
        newest: usize,
    },
    /// Memory ran out.
    NoMemory,
}

impl From<AllocError> for EditionFault {
    ghost use Rattle.std.specs.Prelude.{◌≡◌};
    ghost use Rattle.osn_core.specs.declared.edition.EditionFault.TheVariants.{NoMemory};

    ghost from_gives = { λ _ fault. fault ≡ NoMemory };

    fn from(_: AllocError) -> EditionFault {
        EditionFault::NoMemory
    }
}

/// An edition of a journal, which pages are printed of.
#[derive(Drop)]
pub enum Edition {
    /// The newest edition, with what is pending.
    Newest(Object),
    /// The edition of a number, and nothing that came later.
    Numbered {
        /// What was published by then.
        register: Register,
        /// Its number.
        number: u32,
    },
}

impl Edition {
    /// Returns the register.
    pub fn register(&self) -> &Register
        ensures { result.now.territories ≡ (spec.edition_model self.now).territories }
    {
        match self {
            Edition::Newest(object) => object.register(),
            Edition::Numbered { register, .. } => register,
        }
    }

    /// Returns the number of the edition, 0 before the first one.
    pub fn number(&self) -> usize
        ensures { result ≡ (spec.edition_model self.now).number }
    {
        match self {
            Edition::Newest(object) => object.batches().len(),
            Edition::Numbered { number, .. } => *number as usize,
        }
    }

    /// Returns how many edits wait to be published.
    pub fn pending(&self) -> usize
        ensures { result ≡ (spec.edition_model self.now).pending }
    {
        match self {
            Edition::Newest(object) => object.pending().len(),
            Edition::Numbered { .. } => 0,
        }
    }

    /// Returns the reply to a query of the edition.
    ///
    /// # Errors
    ///
    /// If memory runs out.
    pub fn ask_borrowed(&self, query: BorrowedQuery<'_>) -> Result<Reply, AllocError>
        ensures { IfOk result (λ reply.
            reply ≡ spec.reply_in (spec.edition_model self.now) (as_query query.entry)) }
    {
        match self {
            Edition::Newest(object) => object.ask_borrowed(query),
            Edition::Numbered { register, number } => Ok(Reply {
                edition: *number,
                answer: register.answer_borrowed(query)?,
            }),
        }
    }
}

/// Applies the edits of batches, each in its turn.
fn apply_batches(register: &mut Register, batches: &[Batch]) -> Result<(), AllocError>
    ensures { OnOk result (register.new ≡ record register.old {
      territories = after_edits newest_rules register.old.limits register.old.territories
          (joined batches.now);
    }) }
{
    for batch in batches {
        register.apply_all(batch.edits())?;
    }
    Ok(())
}

/// Returns the register of the edition of a number, which the object has.
///
/// # Errors
///
/// If memory runs out.
pub fn register_of(alloc: Global, object: &Object, number: u32) -> Result<Register, AllocError>
    requires { number ≤ length object.now.batches }
    ensures limits { IfOk result (λ register. register.limits ≡ object.now.limits) }
    ensures territories { IfOk result (λ register. register.territories
        ≡ (spec.newest_edition (spec.published_by number object.now)).territories) }
{
    let mut register = Register::new(alloc, object.register().limits());
    apply_batches(&mut register, &object.batches()[..number as usize])?;
    Ok(register)
}

/// Returns the edition of a number, or the newest one without a number.
///
/// # Errors
///
/// Returns `TooLate` if the number is greater than that of the newest edition, and `NoMemory` if
/// memory runs out.
pub fn edition_of(
    alloc: Global,
    object: Object,
    number: Option<u32>,
) -> Result<Edition, EditionFault>
    ensures ok { IfOk result (λ edition.
        spec.edition_of number object ≡ Some (spec.edition_model edition)) }
    ensures err { IfErr result (spec.IsEditionFault number object) }
{
    let Some(number) = number else {
        return Ok(Edition::Newest(object));
    };
    let newest = object.batches().len();
    if number as usize > newest {
        return Err(EditionFault::TooLate { number, newest });
    }
    let register = register_of(alloc, &object, number)?;
    Ok(Edition::Numbered { register, number })
}
