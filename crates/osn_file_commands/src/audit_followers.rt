//! The registers that replies are compared with: one of the greatest edition that a reply named,
//! and one for each reader with a reply of an earlier edition.
ghost use Rattle.std.specs.Prelude.{◌≡◌, ◌<◌, ◌≤◌, ◌-◌, Ok, Err, IfOk, OnOk, MatchResult, length};
ghost use Rattle.std.specs.Prelude.{take, slice_set};
ghost use Rattle.osn_days.specs.Rules.{newest_rules};
ghost use Rattle.osn_register.specs.BorrowedQuery.{as_query};
ghost use Rattle.osn_core.specs.Sequential.{reply_at};
ghost use Rattle.osn_file_commands.specs.TranscriptAudit.{known_edition, last_of, no_replies};

use crate::audit_follower::RegisterCursor;
use osn_core::{MOST_READERS, Object, Reply};
use osn_register::{Answer, BorrowedQuery};
use osn_request::WireFault;
use std::alloc::{AllocError, Global};
use std::marker::Model;

/// What is known of a reader.
#[derive(Drop)]
struct Place {
    /// The edition of the reader's last reply.
    last: u32,
    /// The register of an edition that is not after that.
    own: RegisterCursor,
}

/// The object of a journal, and registers of it. Each register only advances from edition to
/// edition, so an audit applies each edit once, and at most once more for each reader.
#[derive(Drop)]
pub(crate) struct Followers {
    alloc: Global,
    object: Object,
    /// The register of the greatest edition that a reply named.
    latest: RegisterCursor,
    places: Vec<Place>,
}

impl Model for Followers {
    ghost use Rattle.osn_file_commands.specs.AuditState.{AuditState};

    ghost Value = { AuditState };

    ghost use Rattle.osn_file_commands.specs.InsideFollowers.{AreFollowing, audit_state};

    ghost view = { audit_state };

    ghost invariant = { AreFollowing };
}

impl Followers {
    /// Returns followers that have no reply of a reader.
    pub(crate) fn new(alloc: Global, object: Object) -> Result<Followers, AllocError>
        ensures object { IfOk result (λ f. f.object ≡ object) }
        ensures last { IfOk result (λ f. f.last ≡ no_replies) }
    {
        let limits = object.register().limits();
        let mut places = Vec::with_capacity(alloc, MOST_READERS as usize)?;
        for _ in 0..MOST_READERS {
            let own = RegisterCursor::new(alloc, limits);
            places.push(Place { last: 0, own })?;
        }
        let latest = RegisterCursor::new(alloc, limits);
        Ok(Followers {
            alloc,
            object,
            latest,
            places,
        })
    }

    /// Checks that a reader may be given an edition now.
    pub(crate) fn check(&self, reader: u32, edition: u32) -> Result<(), WireFault>
        requires from_one { 0 < reader }
        requires known { reader ≤ MOST_READERS }
        ensures { MatchResult result
            (λ _. known_edition (length self.now.object.batches) (last_of self.now.last reader)
            edition ≡ Ok edition)
            (λ f. known_edition (length self.now.object.batches) (last_of self.now.last reader)
            edition ≡ Err f) }
    {
        if edition as usize > self.object.batches().len() {
            return Err(WireFault::UnknownEdition);
        }
        if edition < self.places[(reader - 1) as usize].last {
            return Err(WireFault::EditionFell);
        }
        Ok(())
    }

    /// Returns the answer to a query under the edition of a reader's last reply, from the latest
    /// register if that is not after the edition, and otherwise from the reader's own.
    fn answer(&mut self, reader: u32, query: BorrowedQuery<'_>) -> Result<Answer, AllocError>
        requires from_one { 0 < reader }
        requires known { reader ≤ MOST_READERS }
        ensures answer { IfOk result (λ a. a ≡ (reply_at newest_rules self.old.object.limits
            (take (last_of self.old.last reader) self.old.object.batches)
            (as_query query.entry)).answer) }
        ensures same { self.new ≡ self.old }
    {
        let place = &mut self.places[(reader - 1) as usize];
        if self.latest.edition <= place.last {
            self.latest.ask(self.alloc, &self.object, place.last, query)
        } else {
            place.own.ask(self.alloc, &self.object, place.last, query)
        }
    }

    /// Returns the reply to a query of a reader under an edition that `check` accepted, which is
    /// then the reader's last one.
    pub(crate) fn ask(
        &mut self,
        reader: u32,
        edition: u32,
        query: BorrowedQuery<'_>,
    ) -> Result<Reply, AllocError>
        requires from_one { 0 < reader }
        requires known { reader ≤ MOST_READERS }
        requires edition { known_edition (length self.old.object.batches)
            (last_of self.old.last reader) edition ≡ Ok edition }
        ensures reply { IfOk result (λ r. r ≡ reply_at newest_rules self.old.object.limits
            (take edition self.old.object.batches) (as_query query.entry)) }
        ensures last { OnOk result
            (self.new.last ≡ slice_set self.old.last (reader - 1) edition) }
        ensures object { self.new.object ≡ self.old.object }
    {
        self.places[(reader - 1) as usize].last = edition;
        let answer = self.answer(reader, query)?;
        Ok(Reply { edition, answer })
    }
}
