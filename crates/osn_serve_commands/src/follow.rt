//! The command `serve` with a journal that another run keeps: each line is answered from the newest
//! edition that the file contains.
ghost use Rattle.osn_lines.specs.Streams.{output_of};
ghost use Rattle.osn_report.specs.declared.fault.CommandFault.{CommandFault};
ghost use Rattle.osn_serve_commands.specs.Follow.{EndsFollowed};
ghost use Rattle.std.specs.Prelude.{◌≡◌};
ghost use Rattle.osn_serve_commands.specs.Follow as spec;

use osn_journal::{Arrivals, FollowerFault, follow};
use osn_lines::Sink;
use osn_register::Limits;
use osn_report::{CommandFault, Status, report, report_at};
use osn_service::ServeRules;
use std::alloc::Global;

/// Returns the fault of the command if following ended early.
fn fault_of(cause: FollowerFault) -> CommandFault
    ensures { result ≡ spec.fault_of cause }
{
    match cause {
        FollowerFault::Serve(fault) => CommandFault::Service(fault),
        FollowerFault::Journal(fault) => CommandFault::File(fault),
        FollowerFault::File(fault) => CommandFault::FollowedFile(fault),
    }
}

/// Runs the command `serve` with a journal of this path that another run keeps. Answers the request
/// lines by these rules, as `follow` does; if that ends early, the reason is reported on standard
/// error, and the status says so.
pub fn follow_command<A: Arrivals, W: Sink, E: Sink>(
    alloc: Global,
    limits: Limits,
    path: &str,
    rules: ServeRules,
    arrivals: &mut A,
    output: &mut W,
    errors: &mut E,
) -> Status
    ensures { EndsFollowed limits path.now rules (A.arrived arrivals.old) (A.arrived arrivals.new)
        (output_of W.contents W.has_failed W.holds_back output.old output.new)
        (output_of E.contents E.has_failed E.holds_back errors.old errors.new) result }
{
    match follow(alloc, limits, rules, arrivals, output) {
        Ok(end) if end.refused => { report(alloc, errors, CommandFault::RefusedLine(end.lines)) }
        Ok(_) => Status::Done,
        Err(end) => report_at(alloc, errors, path, fault_of(end.cause)),
    }
}
