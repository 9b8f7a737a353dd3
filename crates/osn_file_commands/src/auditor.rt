//! The lines of a transcript, taken in turn, each compared with the journal.
ghost use Rattle.std.specs.Prelude.{◌≡◌, IfOk};

use crate::audit_followers::Followers;
use crate::entry_check::take_entry;
use crate::transcript_line::entry_in;
use osn_core::Object;
use osn_files::{LineFold, LineStop};
use osn_request::{LineObject, Version};
use std::alloc::{AllocError, Global};

/// A transcript that is being compared with an object.
#[derive(Drop)]
pub(crate) struct Auditor {
    followers: Followers,
    /// The last expected reply line. The next one reuses its memory.
    expected_line: Vec<u8>,
}

impl Auditor {
    ghost use Rattle.osn_file_commands.specs.TranscriptAudit.{no_replies};

    /// Returns an auditor that has no reply of a reader.
    pub(crate) fn new(alloc: Global, object: Object) -> Result<Auditor, AllocError>
        ensures object { IfOk result (λ a. a.followers.object ≡ object) }
        ensures last { IfOk result (λ a. a.followers.last ≡ no_replies) }
    {
        Ok(Auditor {
            followers: Followers::new(alloc, object)?,
            expected_line: Vec::new(alloc),
        })
    }
}

impl LineFold for Auditor {
    ghost use Rattle.std.specs.Prelude.{ℕ, List};
    ghost use Rattle.osn_file_commands.specs.TranscriptAudit.{after_object};

    ghost State = { List ℕ };

    ghost state = { λ auditor. auditor.followers.last };

    ghost step = { λ auditor. after_object auditor.followers.object };

    fn take_object(
        &mut self,
        alloc: Global,
        _version: Version,
        object: &LineObject<'_>,
    ) -> Result<(), LineStop> {
        let entry = entry_in(object)?;
        take_entry(alloc, &mut self.followers, &mut self.expected_line, &entry)?;
        Ok(())
    }
}
