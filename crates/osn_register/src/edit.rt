//! The edits of a register.
ghost use Rattle.std.specs.Prelude.{◌≡◌, IfOk, option_map};
ghost use Rattle.osn_register.specs.Lawful.{code_of, source_given};

use crate::source::Source;
use crate::text::Text;
use osn_territory::Regime;
use std::alloc::AllocError;

/// A change of the register. An edit with a wrong member is refused when it is checked. The source
/// of an edit names the text that states what the edit says. What is altered or dropped loses the
/// source that it had.
#[derive(Debug, Drop)]
pub enum Edit {
    /// Adds a territory, with its regime from the first day on.
    AddLand {
        code: Text,
        name: Text,
        regime: Regime,
        source: Option<Source>,
    },
    /// Changes a territory's regime from a day on, until its next change.
    AddChange {
        code: Text,
        day: i64,
        regime: Regime,
        source: Option<Source>,
    },
    /// Alters the regime that starts on a day, on day 1 the opening one.
    AlterChange {
        code: Text,
        day: i64,
        regime: Regime,
        source: Option<Source>,
    },
    /// Drops the change on a day, so that the period before it goes on.
    DropChange {
        code: Text,
        day: i64,
    },
    /// Lists a day as the Easter of a year from 1 to 9999, in place of the rule's. It may be any
    /// day of the line.
    AddException {
        code: Text,
        year: i64,
        day: i64,
        source: Option<Source>,
    },
    /// Drops the exception of a year, whose Easter is the rule's again.
    DropException {
        code: Text,
        year: i64,
    },
}

impl Edit {
    /// Returns an edit equal to this one.
    ///
    /// # Errors
    ///
    /// If memory runs out.
    pub fn copy(&self) -> Result<Edit, AllocError>
        ensures { IfOk result (λ e. e ≡ self.now) }
    {
        match self {
            Edit::AddLand {
                code,
                name,
                regime,
                source,
            } => Ok(Edit::AddLand {
                code: code.copy()?,
                name: name.copy()?,
                regime: *regime,
                source: Source::copy_if_given(source)?,
            }),
            Edit::AddChange {
                code,
                day,
                regime,
                source,
            } => Ok(Edit::AddChange {
                code: code.copy()?,
                day: *day,
                regime: *regime,
                source: Source::copy_if_given(source)?,
            }),
            Edit::AlterChange {
                code,
                day,
                regime,
                source,
            } => Ok(Edit::AlterChange {
                code: code.copy()?,
                day: *day,
                regime: *regime,
                source: Source::copy_if_given(source)?,
            }),
            Edit::DropChange { code, day } => Ok(Edit::DropChange {
                code: code.copy()?,
                day: *day,
            }),
            Edit::AddException {
                code,
                year,
                day,
                source,
            } => Ok(Edit::AddException {
                code: code.copy()?,
                year: *year,
                day: *day,
                source: Source::copy_if_given(source)?,
            }),
            Edit::DropException { code, year } => Ok(Edit::DropException {
                code: code.copy()?,
                year: *year,
            }),
        }
    }

    /// Returns the code of the territory that the edit is of.
    pub fn code(&self) -> &Text
        ensures { result.now ≡ code_of self.now }
    {
        match self {
            Edit::AddLand { code, .. }
            | Edit::AddChange { code, .. }
            | Edit::AlterChange { code, .. }
            | Edit::DropChange { code, .. }
            | Edit::AddException { code, .. }
            | Edit::DropException { code, .. } => code,
        }
    }

    /// Returns the source that the edit gives, if it gives one.
    pub fn source(&self) -> Option<&Source>
        ensures { option_map (λ s. s.now) result ≡ source_given self.now }
    {
        match self {
            Edit::AddLand { source, .. }
            | Edit::AddChange { source, .. }
            | Edit::AlterChange { source, .. }
            | Edit::AddException { source, .. } => source.as_ref(),
            Edit::DropChange { .. } | Edit::DropException { .. } => None,
        }
    }
}
