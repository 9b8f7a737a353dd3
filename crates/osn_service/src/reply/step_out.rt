//! What a step of the core gives, as a line.
ghost use Rattle.std.specs.Prelude.{◌≡◌, ◌++◌, OnOk};
ghost use Rattle.serde_json.specs.Written.{compact_text};
ghost use Rattle.osn_service.specs.OutText.{word_data, out_data};

use crate::line_writer::LineWriter;
use crate::reply::answer::write_reply;
use crate::reply::write_json::WriteJson;
use crate::reply::{write_published, write_refused, write_staged};
use osn_core::Out;
use std::alloc::AllocError;

/// Writes an out that is a word alone.
fn write_word(out: &mut LineWriter, word: &str) -> Result<(), AllocError>
    ensures text { OnOk result (out.new.text
        ≡ out.old.text ++ compact_text (word_data word.now)) }
    ensures before { out.new.before ≡ out.old.before }
{
    out.push_text(r#"{"out":"#, word)?;
    out.push("}")
}

impl WriteJson for Out {
    ghost json_value = { out_data };

    fn write_json(&self, out: &mut LineWriter) -> Result<(), AllocError> {
        match self {
            Out::NotNow => write_word(out, "not_now"),
            Out::Moved => write_word(out, "moved"),
            Out::Again => write_word(out, "again"),
            Out::Entered => write_word(out, "entered"),
            Out::Ready => write_word(out, "ready"),
            Out::Staged { pending } => write_staged(out, *pending),
            Out::Published { edition } => write_published(out, *edition),
            Out::Refused(refusal) => write_refused(out, refusal.number(), refusal.name()),
            Out::Replied { reader, reply } => write_reply(out, *reader, reply),
        }
    }
}
