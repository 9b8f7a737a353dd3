//! What is written to standard error if there is no plan.
ghost use Rattle.std.specs.Prelude.{◌≡◌, IfOk, string_bytes};
ghost use Rattle.osn_lines.specs.Streams.{output_of};
ghost use Rattle.osn_commands.specs.PlanFault as spec;

use osn_lines::{EscapedText, Sink};
use osn_register::Refusal;
use osn_register_text::PlanFault;
use osn_report::{Status, limit_hint, report_line, report_no_memory};
use std::alloc::{AllocError, Global};

/// Returns what to do about a name that a text changes.
#[tactic(auto, unfolding(crate::specs::PlanFault::renamed_help))]
fn renamed_help(alloc: Global, name: &str, new_name: &str) -> Result<String, AllocError>
    ensures { IfOk result (λ help. string_bytes help ≡ spec.renamed_help name.now new_name.now) }
{
    let name = EscapedText(name);
    let new_name = EscapedText(new_name);
    format!(in alloc; "\nhelp: write {name} again, or give {new_name} a code of its own\n")
}

/// Returns the lines on a name that the text of this path changes.
fn renamed_line(
    alloc: Global,
    path: &str,
    code: &str,
    name: &str,
    new_name: &str,
) -> Result<String, AllocError>
    ensures { IfOk result (λ line. string_bytes line
        ≡ spec.renamed_line path.now code.now name.now new_name.now) }
{
    let help = renamed_help(alloc, name, new_name)?;
    format!(in alloc;
        "oldstyle: {}: {}: a name can't be changed: it is {}, and the text has {}{help}",
        EscapedText(path),
        EscapedText(code),
        EscapedText(name),
        EscapedText(new_name)
    )
}

/// Returns the line on an edit that is refused, of the territory of a code that the text of this
/// path has, and how more is allowed if that is at a limit.
fn refused_line(
    alloc: Global,
    path: &str,
    code: &str,
    refusal: Refusal,
) -> Result<String, AllocError>
    ensures { IfOk result (λ line.
        string_bytes line ≡ spec.refused_line path.now code.now refusal) }
{
    let number = refusal.number();
    let name = refusal.name();
    let hint = limit_hint(refusal);
    let path = EscapedText(path);
    let code = EscapedText(code);
    format!(in alloc; "oldstyle: {path}: {code}: {number} {name}{hint}\n")
}

/// Reports on standard error why there is no plan to what the text of this path says. Returns the
/// status.
pub(crate) fn report_plan_fault<E: Sink>(
    alloc: Global,
    errors: &mut E,
    path: &str,
    fault: &PlanFault,
) -> Status
    ensures { spec.ReportsPlanFault path.now
        (output_of E.contents E.has_failed E.holds_back errors.old errors.new) fault.now result }
{
    match fault {
        PlanFault::Renamed {
            code,
            name,
            new_name,
        } => {
            let line = renamed_line(alloc, path, code.as_str(), name.as_str(), new_name.as_str());
            report_line(errors, Status::Refused, line)
        }
        PlanFault::Refused { code, refusal } => {
            let line = refused_line(alloc, path, code.as_str(), *refusal);
            report_line(errors, Status::Refused, line)
        }
        PlanFault::NoMemory => report_no_memory(errors),
    }
}
