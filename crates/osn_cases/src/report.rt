//! Runs cases in turn, and prints their results.
use crate::actual::do_step;
use crate::case_file::{Case, CaseFile, Step};
use crate::difference::{Difference, difference_of};
use crate::memory_folder::MemoryFolder;
use std::fmt::Display;
use std::io;
use std::process::ExitCode;
use std::sync::Wait;
use std::thread::Threads;

/// How many cases there were, and how many of them differ.
#[derive(Clone, Copy)]
pub(crate) struct Tally {
    cases: u64,
    differ: u64,
}

impl Tally {
    pub(crate) const NONE: Tally = Tally {
        cases: 0,
        differ: 0,
    };

    fn add(&mut self, holds: bool) {
        self.cases = self.cases.saturating_add(1);
        if !holds {
            self.differ = self.differ.saturating_add(1);
        }
    }

    /// Prints why a file has no cases, which counts as one that differs.
    ///
    /// # Errors
    ///
    /// Returns an error of the system.
    pub(crate) fn add_fault<R: Print, F: Display>(
        &mut self,
        rt: &R,
        name: &str,
        fault: &F,
    ) -> io::Result<()> {
        self.add(false);
        println!(rt; "{name}: {fault}")
    }

    /// Prints the verdict. A run without cases fails.
    ///
    /// # Errors
    ///
    /// Returns an error of the system.
    pub(crate) fn print_verdict<R: Print>(&self, rt: &R) -> io::Result<ExitCode> {
        if self.cases > 0 && self.differ == 0 {
            println!(rt; "all cases hold")?;
            return Ok(ExitCode::SUCCESS);
        }
        println!(rt; "{} of {} cases differ", self.differ, self.cases)?;
        Ok(ExitCode::FAILURE)
    }
}

/// Prints where a step differs from what is expected of it.
fn print_difference<R: Print>(rt: &R, step: &Step, difference: &Difference) -> io::Result<()> {
    print!(rt; "  line {}: $", step.line)?;
    for word in &step.words {
        print!(rt; " {word}")?;
    }
    println!(rt; "")?;
    println!(rt;
        "  line {}: expected: {}",
        difference.line, difference.expected
    )?;
    println!(rt;
        "  line {}: actual:   {}",
        difference.line, difference.actual
    )
}

/// Runs a case after the head of its file. Prints each step that differs, and returns whether none
/// does.
fn holds<R: Threads + Wait + AllocGlobal + Print>(
    rt: &R,
    name: &str,
    head: &[Step],
    case: &Case,
) -> io::Result<bool> {
    let mut folder = MemoryFolder::new(rt.alloc());
    let mut holds = true;
    for step in head.iter().chain(case.steps.iter()) {
        let actual = do_step(rt, &mut folder, step)?;
        if let Some(difference) = difference_of(rt.alloc(), step, &actual)? {
            if holds {
                println!(rt; "{name}:{}: {}", case.line, case.title)?;
            }
            holds = false;
            print_difference(rt, step, &difference)?;
        }
    }
    Ok(holds)
}

/// Runs each case of a file, prints where it differs, and counts it.
///
/// # Errors
///
/// Returns an error of the system, or an error if memory runs out.
pub(crate) fn run_cases<R: Threads + Wait + AllocGlobal + Print>(
    rt: &R,
    name: &str,
    file: &CaseFile,
    tally: &mut Tally,
) -> io::Result<()> {
    for case in &file.cases {
        tally.add(holds(rt, name, &file.head, case)?);
    }
    Ok(())
}
