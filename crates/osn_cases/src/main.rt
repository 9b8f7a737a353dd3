//! Runs cases of the program, which people write as sessions of a shell, each over a folder in
//! memory of its own. Prints each line that is not as its case says, and then a verdict.
//!
//! ```text
//! osn_cases [FILE..]
//! ```
//!
//! With no file it runs those of its folder whose names end in `.cases`.
#![tactic(auto)]

mod actual;
mod case_file;
mod difference;
mod escapes;
mod expected;
mod kept_file;
mod memory_folder;
mod reading;
mod report;
mod words;

use crate::reading::read_cases;
use crate::report::{Tally, run_cases};
use std::process::ExitCode;
use std::rt::{Env, Files};
use std::sync::Wait;
use std::thread::Threads;
use std::{env, fs, io};

/// Returns the files that the command line names, or those of cases in this folder.
fn file_names<R: Env + Files + AllocGlobal + Clone + Drop>(rt: &R) -> io::Result<Vec<String>> {
    let mut names = env::args(rt)?.skip(1).collect::<Vec<String>>(rt.alloc())?;
    if !names.is_empty() {
        return Ok(names);
    }
    for entry in fs::read_dir(rt, ".")? {
        let entry = entry?;
        if entry.file_name().ends_with(".cases") {
            names.push(String::from_str(rt.alloc(), entry.file_name())?)?;
        }
    }
    names.sort()?;
    Ok(names)
}

/// Runs the cases of a file.
fn run_file<R: Files + Threads + Wait + AllocGlobal + Print>(
    rt: &R,
    name: &str,
    tally: &mut Tally,
) -> io::Result<()> {
    let text = match fs::read_to_string(rt, name) {
        Ok(text) => text,
        Err(why) => return tally.add_fault(rt, name, &why),
    };
    match read_cases(rt.alloc(), text.as_str()) {
        Ok(file) => run_cases(rt, name, &file, tally),
        Err(fault) => tally.add_fault(rt, name, &fault),
    }
}

fn main(rt: HostRuntime) -> io::Result<ExitCode> {
    let mut tally = Tally::NONE;
    for name in &file_names(&rt)? {
        run_file(&rt, name.as_str(), &mut tally)?;
    }
    tally.print_verdict(&rt)
}
