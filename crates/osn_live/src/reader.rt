//! A reader of a running register: it answers without waiting, and never from less than it has
//! seen.
ghost use Rattle.std.specs.Prelude.{◌≡◌, true, length, IfOk, IfErr, Some};
ghost use Rattle.left_right.specs.Sides.{view};
ghost use Rattle.osn_days.specs.Rules.{newest_rules};
ghost use Rattle.osn_register.specs.Answer.{takes_memory};
ghost use Rattle.osn_core.specs.Sequential.{reply_at};
ghost use Rattle.osn_live.specs.declared.protocol.Origin.{Origin};
ghost use Rattle.osn_live.specs.Batches.{Begins, IsLater};
ghost use Rattle.osn_live.specs.Running.{edition_of, origin_of};
ghost use Rattle.osn_live.specs.InsideReader.{IsAnswerAt};

use crate::edition::Edition;
use crate::faults::AskFault;
use crate::history::Certificate;
use crate::note::Note;
use crate::protocol::{FindOrigin, OneOrigin, View};
use core::mem::replace_with;
use osn_core::Reply;
use osn_register::{Limits, Query};
use std::alloc::AllocError;
use std::marker::Model;

/// A reader's place at the two copies of what is published.
pub type Place = left_right::reader::Reader<Edition, View, OneOrigin>;

/// A reader, which waits for nobody. Its seen list has the batches that it has seen, or learnt of
/// by a note.
#[derive(Drop)]
pub struct Reader {
    limits: Limits,
    place: Place,
    certificate: Certificate,
}

impl Model for Reader {
    ghost use Rattle.osn_live.specs.Running.{ReaderState};

    ghost Value = { ReaderState };

    ghost use Rattle.osn_live.specs.InsideReader.{reader_in, IsPlaced};

    ghost view = { reader_in };

    ghost invariant = { IsPlaced };
}

/// A look at one moment: the batches that were published then, and the answer under them.
type Look = (Certificate, Result<Reply, AllocError>);

/// The place once it was left, and the look, if the reader was admitted.
type ReadResult = (Place, Option<Look>);

fn look(place: Place, query: &Query) -> ReadResult
    ensures origin { (o : Origin) → view place.place ≡ Some o → view result.0.place ≡ Some o }
    ensures answer { (o : Origin) → view place.place ≡ Some o → IsAnswerAt o query.now result.1 }
{
    match place.enter_as::<FindOrigin>() {
        Ok(reading) => {
            let certificate = reading.get().certificate();
            let answer = reading.get().ask(query);
            (reading.leave(), Some((certificate, answer)))
        }
        Err(place) => (place, None),
    }
}

impl Reader {
    pub(crate) fn new(limits: Limits, place: Place, certificate: Certificate) -> Reader
        requires { view place.place ≡ Some (origin_of (edition_of limits certificate)) }
        ensures origin { result.origin ≡ origin_of (edition_of limits certificate) }
        ensures seen { result.seen ≡ certificate.batches }
    {
        Reader {
            limits,
            place,
            certificate,
        }
    }

    /// Returns the reply to a query of all that is published at one moment, which is at least what
    /// this reader has seen or learnt of.
    ///
    /// # Errors
    ///
    /// `NoPlace` if the editor was closed. Nothing has changed then. `NoMemory` if memory runs out.
    /// A refused query, the figures of a year and an empty list of territories need none.
    pub fn ask(&mut self, query: &Query) -> Result<Reply, AskFault>
        ensures origin { self.new.origin ≡ self.old.origin }
        ensures seen { Begins self.old.seen self.new.seen }
        ensures value { IfOk result
            (λ r. r ≡ reply_at newest_rules self.new.origin.limits self.new.seen query.now) }
        ensures memory { IfErr result (λ f. f ≡ AskFault.NoMemory → takes_memory
            (reply_at newest_rules self.new.origin.limits self.new.seen query.now).answer ≡ true) }
        ensures no_place { IfErr result (λ f. f ≡ AskFault.NoPlace → self.new ≡ self.old) }
    {
        let read_result = replace_with(
            &mut self.place,
            query,
            |place: Place, query: &Query| -> ReadResult
                ensures origin { (o : Origin) →
                    view place.place ≡ Some o → view result.0.place ≡ Some o }
                ensures answer { (o : Origin) →
                    view place.place ≡ Some o → IsAnswerAt o query.entry.now result.1 }
            { look(place, query) },
        );
        let Some((certificate, answer)) = read_result else {
            return Err(AskFault::NoPlace);
        };
        if !self.certificate.follow(certificate) {
            return Err(AskFault::NoPlace);
        }
        match answer {
            Ok(reply) => Ok(reply),
            Err(_) => Err(AskFault::NoMemory),
        }
    }

    /// Learns a note: from now on this reader answers from at least what the note says.
    pub fn learn(&mut self, note: Note)
        requires { note.origin ≡ self.old.origin }
        ensures origin { self.new.origin ≡ self.old.origin }
        ensures later { IsLater self.old.seen note.batches self.new.seen }
    {
        self.certificate.learn(note.into_certificate());
    }

    pub(crate) fn edition(&self) -> u32
        ensures { result ≡ length self.now.seen }
    {
        self.certificate.len()
    }
}
