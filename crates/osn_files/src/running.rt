//! Runs the lines of a journal on its object.
ghost use Rattle.std.specs.Prelude.{◌≡◌, Ok, OnOk, IfErr};
ghost use Rattle.osn_days.specs.Rules.{newest_rules};
ghost use Rattle.osn_core.specs.declared.command.Command.TheVariants.{Stage, Publish};
ghost use Rattle.osn_files.specs.Journal.{after_command};
ghost use Rattle.osn_files.specs.Stops.{Stops};

use crate::command_line::command_in;
use crate::reading::LineFold;
use crate::stop::LineStop;
use osn_core::{Command, Object};
use osn_register::Edit;
use osn_request::{LineObject, Version};
use std::alloc::Global;

fn stage(object: &mut Object, edit: Edit) -> Result<(), LineStop>
    ensures ok { OnOk result
        (after_command newest_rules object.old (Stage edit) ≡ Ok object.new) }
    ensures err { IfErr result (Stops (after_command newest_rules object.old (Stage edit))) }
{
    object.check(&edit)?;
    object.admit(edit)?;
    Ok(())
}

fn publish(object: &mut Object) -> Result<(), LineStop>
    ensures ok { OnOk result (after_command newest_rules object.old Publish ≡ Ok object.new) }
    ensures err { IfErr result (Stops (after_command newest_rules object.old Publish)) }
{
    object.check_publish()?;
    object.make_edition()?;
    Ok(())
}

/// Runs a command on the object.
fn run(object: &mut Object, command: Command) -> Result<(), LineStop>
    ensures ok { OnOk result (after_command newest_rules object.old command ≡ Ok object.new) }
    ensures err { IfErr result (Stops (after_command newest_rules object.old command)) }
{
    match command {
        Command::Stage(edit) => stage(object, edit),
        Command::Publish => publish(object),
    }
}

impl LineFold for Object {
    ghost use Rattle.osn_days.specs.Rules.{newest_rules};
    ghost use Rattle.osn_core.specs.Sequential.{ObjectState};
    ghost use Rattle.osn_files.specs.Journal.{after_object};

    ghost State = { ObjectState };

    ghost state = { λ object. object };

    ghost step = { λ _. after_object newest_rules };

    fn take_object(
        &mut self,
        alloc: Global,
        version: Version,
        object: &LineObject<'_>,
    ) -> Result<(), LineStop> {
        run(self, command_in(alloc, version, object)?)
    }
}
