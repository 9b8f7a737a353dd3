//! The lines of the questions of readers and of the replies to them.
ghost use Rattle.std.specs.Prelude.{◌≡◌, ◌≤◌, ◌++◌, length, IfOk, OnOk, string_bytes};
ghost use Rattle.osn_file_commands.specs.Transcript as spec;

use osn_core::Reply;
use osn_register::Query;
use osn_service::transcript_text;
use std::alloc::{AllocError, Global};

/// Appends the lines of one reader.
fn push_reader(
    alloc: Global,
    text: &mut String,
    reader: u32,
    questions: &[Query],
    replies: &[Reply],
) -> Result<(), AllocError>
    ensures { OnOk result (string_bytes text.new
        ≡ string_bytes text.old ++ spec.reader_lines reader questions.now replies.now) }
{
    for (question, reply) in questions.iter().zip(replies) {
        let line = transcript_text(alloc, reader, question, reply)?;
        text.push_str(line.as_str())?;
    }
    Ok(())
}

/// Returns the lines of all readers, from reader 1 on.
pub(crate) fn transcript(
    alloc: Global,
    lists: &[Vec<Query>],
    answers: &[Vec<Reply>],
) -> Result<String, AllocError>
    requires { length lists.now ≤ 64 }
    ensures { IfOk result
        (λ text. string_bytes text ≡ spec.transcript_from 1 lists.now answers.now) }
{
    let mut text = String::new(alloc);
    let mut reader = 0u32;
    for (questions, replies) in lists.iter().zip(answers) {
        reader += 1;
        push_reader(alloc, &mut text, reader, questions, replies)?;
    }
    Ok(text)
}
