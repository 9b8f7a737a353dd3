//! The lines of a file, taken one after another.
ghost use Rattle.std.specs.Prelude.{◌≡◌, ◌<◌, ◌^◌, Result, Ok, IfOk, IfErr, IfSome, OnOk};
ghost use Rattle.std.specs.Prelude.{length, List, ℕ, Some, None};
ghost use Rattle.serde_json.specs.Data.{Data};
ghost use Rattle.serde_json.specs.Read.{read};
ghost use Rattle.osn_lines.specs.Lines.{IsLine, lines};
ghost use Rattle.osn_request.specs.declared.version.Version.{Version as LineVersion};
ghost use Rattle.osn_request.specs.LineObject.{line_data};
ghost use Rattle.osn_request.specs.Request as spec;
ghost use Rattle.osn_files.specs.declared.fault.LineFault.{LineFault as Fault};
ghost use Rattle.osn_files.specs.Files.{ReadsFile};
ghost use Rattle.osn_files.specs.LoadedText.{IsOfVersion};
ghost use Rattle.osn_files.specs.Stops.{Stops, file_fault};
ghost use Rattle.osn_files.specs.Turns.{in_turn, on_read};

use crate::fault::{FileFault, LineFault, Role};
use crate::stop::LineStop;
use crate::version::version_of;
use json::Scratch;
use osn_lines::{EndedEarly, Line, LineTaker, Source, TakeFault, take_lines};
use osn_request::{LineObject, Version, WireFault, object_in, text_of};
use std::alloc::Global;

/// What makes a value of the lines of a file, one after another.
pub trait LineFold {
    // What lines make.
    ghost State: { Type 0 };

    // What they have made so far.
    ghost state: { Self → State };

    // What the object of a line makes of that by the rules of a version, or the line's fault.
    ghost step: { Self → LineVersion → State → Data → Result State Fault };

    /// Takes the object of a line, which is read by the rules of a version.
    ///
    /// # Errors
    ///
    /// Returns the line's fault, or `NoMemory`. No other line is given to it then.
    fn take_object(
        &mut self,
        alloc: Global,
        version: Version,
        object: &LineObject<'_>,
    ) -> Result<(), LineStop>
        ensures ok { OnOk result
            (step self.old version (state self.old) (line_data object.now) ≡ Ok (state self.new)) }
        ensures err { IfErr result
            (Stops (step self.old version (state self.old) (line_data object.now))) }

        // The rule stays the same.
        ensures same { OnOk result (step self.new ≡ step self.old) };
}

/// A file that is being read: what reads its lines, the version by which they are read, once that
/// is known, and what makes a value of them.
#[derive(Drop)]
pub(crate) struct Reading<F> {
    alloc: Global,
    scratch: Scratch,
    version: Option<Version>,
    fold: F,
}

impl<F: LineFold> Reading<F> {
    ghost use Rattle.osn_files.specs.ReadingInside.{after_line};

    /// Takes the object of a line: it says the version, if that isn't known.
    fn take_object(
        alloc: Global,
        version: &mut Option<Version>,
        fold: &mut F,
        object: &LineObject<'_>,
    ) -> Result<(), LineStop>
        ensures ok { OnOk result ((after_line (F.step fold.old) version.old (F.state fold.old)
            (line_data object.now) ≡ Ok (version.new, F.state fold.new))
            × (F.step fold.new ≡ F.step fold.old)) }
        ensures err { IfErr result (Stops (after_line (F.step fold.old) version.old
            (F.state fold.old) (line_data object.now))) }
    {
        match *version {
            Some(version) => fold.take_object(alloc, version, object),
            None => {
                *version = Some(version_of(object)?);
                Ok(())
            }
        }
    }

    /// Takes the text of a line. Its object is dropped before the next line is read.
    fn take_text(
        alloc: Global,
        scratch: &mut Scratch,
        version: &mut Option<Version>,
        fold: &mut F,
        text: &str,
    ) -> Result<(), LineStop>
        ensures ok { OnOk result ((on_read (spec.object_in (read text.now))
            (after_line (F.step fold.old) version.old (F.state fold.old))
            ≡ Ok (version.new, F.state fold.new))
            × (F.step fold.new ≡ F.step fold.old)) }
        ensures err { IfErr result (Stops (on_read (spec.object_in (read text.now))
            (after_line (F.step fold.old) version.old (F.state fold.old)))) }
    {
        let object = object_in(alloc, scratch, text)?;
        Reading::take_object(alloc, version, fold, &object)
    }

    fn take_line(
        alloc: Global,
        scratch: &mut Scratch,
        version: &mut Option<Version>,
        fold: &mut F,
        line: Line<'_>,
    ) -> Result<(), LineStop>
        ensures ok { OnOk result (((whole : List ℕ) → IsLine line.entry whole →
            on_read (spec.object_of whole)
            (after_line (F.step fold.old) version.old (F.state fold.old))
            ≡ Ok (version.new, F.state fold.new))
            × (F.step fold.new ≡ F.step fold.old)) }
        ensures err { IfErr result (λ why. (whole : List ℕ) → IsLine line.entry whole →
            Stops (on_read (spec.object_of whole)
            (after_line (F.step fold.old) version.old (F.state fold.old))) why) }
    {
        let text = text_of(line)?;
        Reading::take_text(alloc, scratch, version, fold, text)
    }
}

impl<F: LineFold> LineTaker for Reading<F> {
    ghost use Rattle.osn_files.specs.ReadingInside.{Reads, StopsReading};

    type Stop = LineStop;

    ghost after = { Reads F.step F.state };

    ghost stopped = { λ initial lines at _ why. StopsReading F.step F.state initial lines at why };

    fn take(&mut self, line: Line<'_>) -> Result<(), LineStop> {
        Reading::take_line(
            self.alloc,
            &mut self.scratch,
            &mut self.version,
            &mut self.fold,
            line,
        )
    }

    fn before_read(&mut self) -> Result<(), LineStop> {
        Ok(())
    }
}

/// Returns the fault of a file of this role, if the reading of its lines ended early.
fn fault_of(role: Role, end: EndedEarly<TakeFault<LineStop>>) -> FileFault
    requires { end.lines < 2 ^ 63 }
    ensures { result ≡ file_fault role end.lines end.cause }
{
    match end.cause {
        TakeFault::NoMemory | TakeFault::Stopped(LineStop::NoMemory) => FileFault::NoMemory,
        TakeFault::ReadFault => FileFault::ReadFault,
        TakeFault::Stopped(LineStop::Fault(fault)) => FileFault::BadLine {
            role,
            line: end.lines + 1,
            fault,
        },
    }
}

/// What was read of a file.
#[derive(Drop)]
pub(crate) struct FileRead<F> {
    /// The fold after its lines.
    pub(crate) fold: F,
    /// How many lines it has.
    pub(crate) lines: u64,
    /// The version by whose rules they were read.
    pub(crate) version: Version,
}

/// Returns what the lines of a file of this role make, as for `read_lines`, and the version by
/// which they were read.
pub(crate) fn read_file<F: LineFold + Drop, R: Source>(
    alloc: Global,
    role: Role,
    version: Option<Version>,
    fold: F,
    source: &mut R,
) -> Result<FileRead<F>, FileFault>
    ensures file { ReadsFile role (in_turn (F.step fold) 1 version (F.state fold))
        (λ file. F.state file.fold) result R.remaining R.has_failed source.old source.new }
    ensures count { IfOk result (λ file. IfSome (R.remaining source.old) (λ input.
        file.lines ≡ length (lines input))) }
    ensures version { IfOk result (λ file. version ≡ None →
        IfSome (R.remaining source.old) (λ input. IsOfVersion file.version (lines input))) }
    ensures same { IfOk result (λ file. IfSome version (λ known. file.version ≡ known)) }
{
    let mut reading = Reading {
        alloc,
        scratch: Scratch::new(alloc),
        version,
        fold,
    };
    match take_lines(alloc, &mut reading, source) {
        Ok(lines) => match reading.version {
            Some(version) => Ok(FileRead {
                fold: reading.fold,
                lines,
                version,
            }),
            None => Err(FileFault::BadLine {
                role,
                line: 1,
                fault: LineFault::Wire(WireFault::BadHead),
            }),
        },
        Err(end) => Err(fault_of(role, end)),
    }
}

/// Returns what the lines of a file of this role make, from what was begun, and their number. They
/// are read by the rules of the version. If no version is given, the first line is a head that says
/// it.
///
/// # Errors
///
/// Returns `BadLine` for the first line that has a fault, or for line 1 if it must be a head and
/// there is no line. Returns `ReadFault` if the source failed, or didn't end within 4,294,967,295
/// reads, and `NoMemory` if memory ran out.
pub fn read_lines<F: LineFold + Drop, R: Source>(
    alloc: Global,
    role: Role,
    version: Option<Version>,
    fold: F,
    source: &mut R,
) -> Result<(F, u64), FileFault>
    ensures file { ReadsFile role (in_turn (F.step fold) 1 version (F.state fold))
        (λ pair. F.state pair.0) result R.remaining R.has_failed source.old source.new }
    ensures count { IfOk result (λ pair. IfSome (R.remaining source.old) (λ input.
        pair.1 ≡ length (lines input))) }
{
    let file = read_file(alloc, role, version, fold, source)?;
    Ok((file.fold, file.lines))
}
