//! The queries of each reader.
ghost use Rattle.std.specs.Prelude.{◌≡◌, ◌-◌, ◌<◌, ◌≤◌, [], length, map, OnOk};
ghost use Rattle.osn_register.specs.declared.query.Query.{Query as QueryValue};
ghost use Rattle.osn_files.specs.QuestionsInside.{with_query_at, with_query};

use crate::question_line::question_in;
use crate::reading::LineFold;
use crate::stop::LineStop;
use osn_register::Query;
use osn_request::{LineObject, Version};
use std::alloc::{AllocError, Global};
use std::marker::Model;

/// The queries of each reader, the first counted 1, in the order in which they came.
#[derive(Drop)]
pub(crate) struct Lists {
    lists: Vec<Vec<Query>>,
}

impl Model for Lists {
    ghost use Rattle.std.specs.Prelude.{List, map};
    ghost use Rattle.osn_register.specs.declared.query.Query.{Query};

    ghost Value = { List (List Query) };

    ghost view = { λ l. map (λ qs. qs.items) l.lists.items };
}

impl Lists {
    /// Returns lists for no reader.
    pub(crate) fn new(alloc: Global) -> Lists
        ensures { result ≡ [] }
    {
        Lists {
            lists: Vec::new(alloc),
        }
    }

    /// Returns the list of each reader.
    pub(crate) fn into_inner(self) -> Vec<Vec<Query>>
        ensures { map (λ qs. qs.items) result.items ≡ self }
    {
        self.lists
    }

    /// Gives each reader up to this one a list, which is empty at first.
    fn grow(&mut self, alloc: Global, reader: u32) -> Result<(), AllocError>
        ensures long { OnOk result (reader ≤ length self.new) }
        ensures same { OnOk result ((q : QueryValue) →
            with_query_at self.new (reader - 1) q ≡ with_query_at self.old (reader - 1) q) }
    {
        while self.lists.len() < reader as usize {
            self.lists.push(Vec::new(alloc))?;
        }
        Ok(())
    }

    /// Puts a query after those of its reader.
    ///
    /// # Errors
    /// Returns `AllocError` if memory runs out.
    pub(crate) fn add(&mut self, alloc: Global, reader: u32, query: Query) -> Result<(), AllocError>
        requires { 0 < reader }
        ensures { OnOk result (self.new ≡ with_query self.old reader query) }
    {
        self.grow(alloc, reader)?;
        self.lists[(reader - 1) as usize].push(query)?;
        Ok(())
    }
}

impl LineFold for Lists {
    ghost use Rattle.std.specs.Prelude.{List};
    ghost use Rattle.osn_register.specs.declared.query.Query.{Query};
    ghost use Rattle.osn_files.specs.QuestionsInside.{with_object};

    ghost State = { List (List Query) };

    ghost state = { λ lists. lists };

    ghost step = { λ _. with_object };

    fn take_object(
        &mut self,
        alloc: Global,
        _version: Version,
        object: &LineObject<'_>,
    ) -> Result<(), LineStop> {
        let (reader, query) = question_in(alloc, object)?;
        self.add(alloc, reader, query)?;
        Ok(())
    }
}
