//! The calendar change register, as a program over files and the standard streams.
#![tactic(auto)]

mod title;

use crate::title::Titled;
use osn_commands::{first_plain_word, report_no_words, run, takes_text, text_alone};
use osn_folder::Disk;
use osn_lines::Plain;
use osn_report::{StandardOutput, end_output};
use std::env::VarError;
use std::fs::{DirBuilder, File, OpenOptions};
use std::io::IsTerminal;
use std::os::fd::{AsRawFd, RawFd};
use std::os::unix::fs::DirBuilderExt;
use std::process::ExitCode;
use std::rt::{Env, Files};
use std::{env, fs, io};

/// Returns the arguments, of which the first is the program's name.
fn given_args(rt: &(impl Env + AllocGlobal)) -> io::Result<Vec<String>> {
    Ok(env::args(rt)?.collect(rt.alloc())?)
}

/// Returns the value of a variable of the environment, if it is set and not empty.
fn variable(rt: &(impl Env + AllocGlobal), name: &str) -> Option<String> {
    env::var(rt, name).ok().filter(|value| !value.is_empty())
}

/// Returns the folder of the user's own journal, as the environment says it.
fn own_folder(rt: &(impl Env + AllocGlobal)) -> Option<String> {
    let alloc = rt.alloc();
    match variable(rt, "XDG_DATA_HOME") {
        Some(folder) => format!(in alloc; "{folder}/oldstyle").ok(),
        None => {
            let home = variable(rt, "HOME")?;
            format!(in alloc; "{home}/.local/share/oldstyle").ok()
        }
    }
}

/// Returns whether there is a file at a path.
fn is_there(rt: &impl Files, path: &str) -> bool {
    fs::exists(rt, path).unwrap_or(false)
}

/// Returns the word of the command, or an empty text without one.
fn command_in(args: &[String]) -> &str {
    match args.get(1) {
        Some(word) => word.as_str(),
        None => "",
    }
}

/// Returns whether the command line plans or publishes a text that is there, for a journal that it
/// leaves out.
fn takes_text_alone(rt: &impl Files, args: &[String]) -> bool {
    text_alone(args).is_some_and(|text| is_there(rt, text))
}

/// Returns the path of the user's own journal. If a text is given for it, its folder is made if
/// it is not there, readable by the user alone; if it can't be made, the command reports that it is
/// not there.
fn own_journal(rt: &(impl Env + Files + AllocGlobal), args: &[String]) -> Option<String> {
    let folder = own_folder(rt)?;
    if takes_text_alone(rt, args) {
        let mut builder = DirBuilder::new();
        builder.recursive(true).mode(0o700);
        let _ = builder.create(rt, folder.as_str());
    }
    format!(in rt.alloc(); "{folder}/register.journal").ok()
}

/// Returns the path of the journal of a command line that names none: what `OLDSTYLE_JOURNAL` says,
/// or else the user's own journal, if there is one. If the first argument after the command names
/// a file, it is the journal, and there is no default. But after `plan` and `publish` it may be the
/// text, and the user's own journal need not be there.
fn default_journal(rt: &(impl Env + Files + AllocGlobal), args: &[String]) -> Option<String> {
    let takes_text = takes_text(command_in(args));
    if !takes_text
        && let Some(first) = first_plain_word(args)
        && is_there(rt, first)
    {
        return None;
    }
    match env::var(rt, "OLDSTYLE_JOURNAL") {
        Ok(path) if !path.is_empty() => Some(path),
        Ok(_) | Err(VarError::NotPresent) => {
            own_journal(rt, args).filter(|path| takes_text || is_there(rt, path.as_str()))
        }
        Err(_) => None,
    }
}

/// Returns whether a terminal shows bold letters, as far as the environment says.
fn shows_bold(rt: &(impl Env + AllocGlobal)) -> bool {
    let is_plain = match variable(rt, "TERM") {
        Some(terminal) => terminal.as_str() == "dumb",
        None => true,
    };
    !is_plain && variable(rt, "NO_COLOR").is_none()
}

/// Returns whether the command prints a page whose first line is its title.
fn prints_titled_page(args: &[String]) -> bool {
    let has_title = matches!(
        command_in(args),
        "read" | "day" | "month" | "year" | "territory" | "almanac"
    );
    has_title
        && !args
            .iter()
            .any(|word| matches!(word.as_str(), "--json" | "--help" | "-h"))
}

/// Returns a file that was opened in the place of a closed standard stream: it has that stream's
/// number.
fn in_place(opened: io::Result<File>, number: RawFd) -> Option<File> {
    match opened {
        Ok(file) if file.as_raw_fd() == number => Some(file),
        _ => None,
    }
}

fn main(rt: HostRuntime) -> ExitCode {
    // A file takes the first free number, so each of these files replaces a standard stream that is
    // closed. The first can't be read and the others can't be written, so no reply goes to a
    // journal.
    let _input = in_place(OpenOptions::new().write(true).open(&rt, "/dev/null"), 0);
    let _output = in_place(fs::open(&rt, "/dev/null"), 1);
    let _errors = in_place(fs::open(&rt, "/dev/null"), 2);
    let mut input = Plain::new(rt.reader());
    let args = given_args(&rt);
    let has_title = rt.stdout().is_terminal()
        && shows_bold(&rt)
        && args.as_ref().is_ok_and(|args| prints_titled_page(args));
    let mut output = Titled::new(StandardOutput::new(io::writer(&rt)), has_title);
    let mut errors = Plain::new(rt.stderr());
    let terminal = rt.stderr().is_terminal().then(|| Plain::new(rt.stderr()));
    let mut disk = Disk::new(&rt);
    let status = match args {
        Ok(args) => {
            let journal = default_journal(&rt, &args);
            run(
                &rt,
                &mut disk,
                &args,
                journal.as_deref(),
                &mut input,
                &mut output,
                &mut errors,
                terminal,
            )
        }
        Err(why) => report_no_words(&why, &mut errors),
    };
    let status = end_output(&mut errors, status, output.inner().cause());
    ExitCode::from(status.code())
}
