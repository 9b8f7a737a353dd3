//! What a command leaves, over a folder in memory.
use crate::case_file::Step;
use crate::memory_folder::MemoryFolder;
use osn_commands::run;
use osn_lines::Plain;
use std::alloc::{AllocError, Global};
use std::sync::Wait;
use std::thread::Threads;

/// What a command left: its output, its text on standard error and its status.
#[derive(Drop)]
pub(crate) struct Actual {
    pub output: Vec<u8>,
    pub errors: Vec<u8>,
    pub status: u8,
}

/// The variable of the environment that names the journal of a command line without one.
const JOURNAL_VARIABLE: &str = "OLDSTYLE_JOURNAL=";

/// Returns what a run of the program leaves, with this journal if its words name none.
fn run_program<R: Threads + Wait + AllocGlobal>(
    rt: &R,
    folder: &mut MemoryFolder,
    words: &[String],
    journal: Option<&str>,
    input: &[u8],
) -> Actual {
    let mut output = Plain::new(Vec::new(rt.alloc()));
    let mut errors = Plain::new(Vec::new(rt.alloc()));
    let terminal: Option<Plain<Vec<u8>>> = None;
    let mut input = Plain::new(input);
    let status = run(
        rt,
        folder,
        words,
        journal,
        &mut input,
        &mut output,
        &mut errors,
        terminal,
    );
    Actual {
        output: output.into_inner(),
        errors: errors.into_inner(),
        status: status.code(),
    }
}

/// Returns what a command leaves that prints these bytes.
fn printed(alloc: Global, bytes: &[u8]) -> Result<Actual, AllocError> {
    Ok(Actual {
        output: Vec::from_slice(alloc, bytes)?,
        errors: Vec::new(alloc),
        status: 0,
    })
}

/// Returns what a command leaves that can't be done.
fn refused(alloc: Global, word: &str, why: &str) -> Result<Actual, AllocError> {
    Ok(Actual {
        output: Vec::new(alloc),
        errors: format!(in alloc; "{word}: {why}\n")?.into_bytes(),
        status: 1,
    })
}

/// Does what a step says, and returns what that left.
///
/// # Errors
///
/// Returns `AllocError` if memory runs out.
pub(crate) fn do_step<R: Threads + Wait + AllocGlobal>(
    rt: &R,
    folder: &mut MemoryFolder,
    step: &Step,
) -> Result<Actual, AllocError> {
    let alloc = rt.alloc();
    let (words, input) = match step.words.as_slice() {
        [words @ .., mark, _] if mark.as_str() == "<<" => (words, step.given.clone()?),
        [words @ .., mark, name] if mark.as_str() == "<" => {
            match folder.contents(name.as_str()) {
                Some(contents) => (words, Vec::from_slice(alloc, contents)?),
                None => return refused(alloc, name.as_str(), "no such file"),
            }
        }
        words => (words, step.given.clone()?),
    };
    match words {
        [program, ..] if matches!(program.as_str(), "oldstyle" | "./oldstyle") => {
            Ok(run_program(rt, folder, words, None, &input))
        }
        [setting, words @ ..] if setting.as_str().starts_with(JOURNAL_VARIABLE) => {
            let journal = setting.as_str().strip_prefix(JOURNAL_VARIABLE);
            Ok(run_program(rt, folder, words, journal, &input))
        }
        [cat, to, name] if cat.as_str() == "cat" && to.as_str() == ">" => {
            folder.put(name.as_str(), &input)?;
            printed(alloc, b"")
        }
        [cat, name] if cat.as_str() == "cat" => match folder.contents(name.as_str()) {
            Some(contents) => printed(alloc, contents),
            None => refused(alloc, name.as_str(), "no such file"),
        },
        [ls] if ls.as_str() == "ls" => printed(alloc, &folder.names()?),
        _ => refused(
            alloc,
            "cases",
            "a command is oldstyle, cat > NAME, cat NAME or ls",
        ),
    }
}
