//! The one editor of a running register: it stages edits, and shows readers the editions that it
//! makes of them.
ghost use Rattle.std.specs.Prelude.{◌≡◌, ◌<◌, [], length, drop, IfOk, IfErr, OnOk, OnErr};
ghost use Rattle.std.specs.Prelude.{MatchResult, Some, None};
ghost use Rattle.left_right.specs.Sides.{view};
ghost use Rattle.osn_days.specs.Rules.{newest_rules};
ghost use Rattle.osn_register.specs.Refusal.{IsCheckOf, IsRefusalOrNoMemory};
ghost use Rattle.osn_core.specs.Sequential.{empty_object, with_pending, with_edition};
ghost use Rattle.osn_core.specs.Sequential.{stage_refusal};
ghost use Rattle.osn_core.specs.Sequential.{publish_refusal, stage_after, publish_after};
ghost use Rattle.osn_core.specs.Script.{command_after};
ghost use Rattle.osn_live.specs.Certificate.{none_of};
ghost use Rattle.osn_live.specs.Faults.{refusal_of};
ghost use Rattle.osn_live.specs.Running.{edition_of, origin_of};

use crate::edition::Edition;
use crate::faults::PublishFault;
use crate::history::{Certificate, History};
use crate::note::Note;
use crate::protocol::{FindOrigin, OneOrigin, ShareOrigin, View};
use crate::reader::Reader;
use core::mem::replace_with;
use left_right::writer::Writer;
use osn_core::{Command, Draft};
use osn_register::{Edit, Limits, Refusal};
use std::alloc::{AllocError, Global};
use std::marker::Model;
use std::sync::{Arc, Wait};

/// The two copies of what is published.
pub type EditionWriter = Writer<Edition, Edition, View, OneOrigin>;

/// The copies after a publish, and whether it showed what it was to show.
pub type ShowResult = (EditionWriter, Result<(), AllocError>);

/// The one editor. It behaves as the sequential object.
///
/// It is not `Drop`: end it by `close`.
pub struct Editor {
    alloc: Global,
    copies: EditionWriter,
    history: History,
    certificate: Certificate,
    /// All edits, published and pending.
    draft: Draft,
}

impl Model for Editor {
    ghost use Rattle.osn_live.specs.Running.{EditorState};

    ghost Value = { EditorState };

    ghost use Rattle.osn_live.specs.InsideEditor.{editor_in, IsEditing};

    ghost view = { editor_in };

    ghost invariant = { IsEditing };
}

/// Shows readers the next edition, at one moment.
pub(crate) fn show<R: Wait>(copies: EditionWriter, next: Edition, rt: &R) -> ShowResult
    requires { origin_of next ≡ origin_of copies.desk.shown.value }
    ensures ok { OnOk result.1 ((result.0.desk.shown.value ≡ next)
        × (view result.0.desk.place ≡ Some (origin_of next))) }
    ensures err { OnErr result.1 ((result.0.desk.shown.value ≡ copies.desk.shown.value)
        × (view result.0.desk.place ≡ view copies.desk.place)) }
{
    let mut copies = copies;
    if copies.has_pending_operations() {
        return (copies, Err(AllocError));
    }
    let Ok(()) = copies.append(next) else {
        return (copies, Err(AllocError));
    };
    let (copies, outcome) = copies.publish_as::<FindOrigin, R>(rt);
    match outcome {
        Ok(()) => (align_copies(copies, rt), Ok(())),
        Err(failed) => (copies, Err(failed)),
    }
}

/// Makes the copy that readers leave like the one that they are shown, so that both share one
/// register. It waits for those that still read the edition before.
fn align_copies<R: Wait>(copies: EditionWriter, rt: &R) -> EditionWriter
    requires none { drop copies.behind copies.log.items ≡ [] }
    requires known { view copies.desk.place ≡ Some (origin_of copies.desk.shown.value) }
    ensures edition { result.desk.shown.value ≡ copies.desk.shown.value }
    ensures known { view result.desk.place ≡ view copies.desk.place }
{
    copies.publish_as::<FindOrigin, R>(rt).0
}

impl Editor {
    pub(crate) fn begin(
        alloc: Global,
        limits: Limits,
        copies: EditionWriter,
        history: History,
        certificate: Certificate,
    ) -> Editor
        requires none { certificate ≡ none_of history }
        requires edition { copies.desk.shown.value ≡ edition_of limits certificate }
        requires known { view copies.desk.place
            ≡ Some (origin_of (edition_of limits certificate)) }
        ensures object { result.object ≡ empty_object limits }
        ensures origin { result.origin ≡ origin_of (edition_of limits certificate) }
    {
        Editor {
            alloc,
            copies,
            history,
            certificate,
            draft: Draft::new(alloc, limits),
        }
    }

    /// Returns another reader, if there is a place.
    pub(crate) fn reader(&mut self) -> Result<Reader, AllocError>
        ensures same { self.new ≡ self.old }
        ensures origin { IfOk result (λ r. r.origin ≡ self.old.origin) }
        ensures seen { IfOk result (λ r. r.seen ≡ self.old.object.batches) }
    {
        let mut place = self.copies.factory().reader()?;
        place.learn::<ShareOrigin>(self.copies.tell::<ShareOrigin>());
        Ok(Reader::new(self.draft.limits(), place, self.certificate.again()))
    }

    /// Returns a note of what is published.
    pub fn note(&self) -> Note
        ensures batches { result.batches ≡ self.now.object.batches }
        ensures origin { result.origin ≡ self.now.origin }
    {
        Note::new(self.draft.limits(), self.certificate.again())
    }

    /// Waits for the readers that are reading, and ends. From then on, readers get no replies.
    pub fn close<R: Wait>(self, rt: &R) {
        let Editor {
            alloc: _,
            copies,
            history: _,
            certificate: _,
            draft: _,
        } = self;
        copies.take(rt);
    }
}

impl Editor {
    /// Stages an edit, and returns how many are pending then.
    ///
    /// # Errors
    ///
    /// The first refusal that applies. Otherwise `NoMemory` if memory runs out. On an error nothing
    /// has changed.
    pub fn stage(&mut self, edit: &Edit) -> Result<u32, Refusal>
        ensures lawful { OnOk result (stage_refusal newest_rules self.old.object edit.now ≡ None) }
        ensures ok { OnOk result
            (self.new ≡ record self.old { object = with_pending self.old.object edit.now }) }
        ensures count { IfOk result (λ n. n ≡ length self.new.object.pending) }
        ensures refused { IfErr result
            (IsRefusalOrNoMemory (stage_refusal newest_rules self.old.object edit.now)) }
        ensures err { OnErr result (self.new ≡ self.old) }
    {
        self.check(edit)?;
        Ok(self.admit(edit.copy()?)?)
    }

    /// Checks whether an edit may be staged now.
    fn check(&self, edit: &Edit) -> Result<u32, Refusal>
        ensures { IsCheckOf (stage_refusal newest_rules self.now.object edit.now) result }
    {
        self.draft.check(edit)
    }

    /// Stages an edit that `check` accepted.
    fn admit(&mut self, edit: Edit) -> Result<u32, AllocError>
        requires { stage_refusal newest_rules self.old.object edit ≡ None }
        ensures ok { OnOk result
            (self.new ≡ record self.old { object = with_pending self.old.object edit }) }
        ensures count { IfOk result (λ n. n ≡ length self.new.object.pending) }
        ensures err { OnErr result (self.new ≡ self.old) }
    {
        Ok(self.draft.admit(edit)?)
    }
}

impl Editor {
    /// Publishes the pending edits as the next edition, and returns a note of it. It waits for
    /// readers that still read the edition before.
    ///
    /// # Errors
    ///
    /// The first refusal that applies. Otherwise `NoMemory` if memory runs out. On an error nothing
    /// has changed.
    pub fn publish<R: Wait>(&mut self, rt: &R) -> Result<Note, PublishFault>
        ensures lawful { OnOk result (publish_refusal self.old.object ≡ None) }
        ensures ok { OnOk result
            (self.new ≡ record self.old { object = with_edition self.old.object }) }
        ensures batches { IfOk result (λ n. n.batches ≡ self.new.object.batches) }
        ensures origin { IfOk result (λ n. n.origin ≡ self.new.origin) }
        ensures refused { IfErr result
            (λ f. IsRefusalOrNoMemory (publish_refusal self.old.object) (refusal_of f)) }
        ensures err { OnErr result (self.new ≡ self.old) }
    {
        self.check_publish()?;
        match self.make_edition(rt) {
            Ok(()) => Ok(self.note()),
            Err(_) => Err(PublishFault::NoMemory),
        }
    }

    /// Checks that there may be another edition now.
    fn check_publish(&self) -> Result<(), PublishFault>
        ensures { MatchResult result
            (λ _. publish_refusal self.now.object ≡ None)
            (λ f. publish_refusal self.now.object ≡ Some (refusal_of f)) }
    {
        if self.draft.pending().is_empty() {
            return Err(PublishFault::NothingPending);
        }
        if self.draft.edition() >= self.draft.limits().editions {
            return Err(PublishFault::EditionsFull);
        }
        Ok(())
    }

    /// Makes the next edition. Once the batch is in the history, no step that is left needs memory:
    /// the queue of the copies has had room for one edition since they were made, and sharing a
    /// register needs none.
    fn make_edition<R: Wait>(&mut self, rt: &R) -> Result<(), AllocError>
        requires { publish_refusal self.old.object ≡ None }
        ensures ok { OnOk result
            (self.new ≡ record self.old { object = with_edition self.old.object }) }
        ensures err { OnErr result (self.new ≡ self.old) }
    {
        let register_copy = self.draft.register().copy()?;
        let Ok(register) = Arc::new(self.alloc, register_copy) else {
            return Err(AllocError);
        };
        let Some(certificate) = self.history.add(&self.certificate, self.draft.pending()) else {
            return Err(AllocError);
        };
        let next = Edition::new(self.draft.limits(), register, certificate.again());
        let show_result = replace_with(
            &mut self.copies,
            (next, rt),
            |copies: EditionWriter, with: (Edition, &R)| -> ShowResult
                requires { origin_of with.0 ≡ origin_of copies.desk.shown.value }
            { show(copies, with.0, with.1) },
        );
        show_result?;
        self.certificate = certificate;
        let _published = self.draft.make_edition();
        Ok(())
    }
}

impl Editor {
    /// Executes a command, and ignores one that is refused.
    ///
    /// # Errors
    ///
    /// If memory runs out. On an error nothing has changed.
    pub(crate) fn execute<R: Wait>(&mut self, rt: &R, command: &Command) -> Result<(), AllocError>
        ensures ok { OnOk result (self.new
            ≡ record self.old { object = command_after newest_rules self.old.object command.now }) }
        ensures err { OnErr result (self.new ≡ self.old) }
    {
        match command {
            Command::Stage(edit) => self.stage_if_lawful(edit),
            Command::Publish => self.publish_if_lawful(rt),
        }
    }

    fn stage_if_lawful(&mut self, edit: &Edit) -> Result<(), AllocError>
        ensures ok { OnOk result (self.new
            ≡ record self.old { object = stage_after newest_rules self.old.object edit.now }) }
        ensures err { OnErr result (self.new ≡ self.old) }
    {
        match self.check(edit) {
            Ok(_) => {
                self.admit(edit.copy()?)?;
                Ok(())
            }
            Err(_) => Ok(()),
        }
    }

    fn publish_if_lawful<R: Wait>(&mut self, rt: &R) -> Result<(), AllocError>
        ensures ok { OnOk result (self.new
            ≡ record self.old { object = publish_after self.old.object }) }
        ensures err { OnErr result (self.new ≡ self.old) }
    {
        match self.check_publish() {
            Ok(()) => self.make_edition(rt),
            Err(_) => Ok(()),
        }
    }
}
