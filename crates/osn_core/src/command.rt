//! The commands to an editor.
ghost use Rattle.std.specs.Prelude.{◌≡◌, true, IfOk, OnErr};
ghost use Rattle.osn_core.specs.Script.{copy_takes_memory};

use osn_register::Edit;
use std::alloc::AllocError;

/// A command to an editor.
#[derive(Debug, Drop)]
pub enum Command {
    /// To stage an edit.
    Stage(Edit),
    /// To publish what is pending.
    Publish,
}

impl Command {
    /// Returns a command equal to this one.
    ///
    /// # Errors
    ///
    /// If memory runs out.
    pub fn copy(&self) -> Result<Command, AllocError>
        ensures value { IfOk result (λ c. c ≡ self.now) }
        ensures memory { OnErr result (copy_takes_memory self.now ≡ true) }
    {
        match self {
            Command::Stage(edit) => Ok(Command::Stage(edit.copy()?)),
            Command::Publish => Ok(Command::Publish),
        }
    }
}
