//! The edits that were published together.
ghost use Rattle.std.specs.Prelude.{◌≡◌};

use osn_register::Edit;
use std::marker::Model;

/// Edits that were published together, in the order in which they were staged.
#[derive(Debug, Drop)]
pub struct Batch {
    edits: Vec<Edit>,
}

impl Model for Batch {
    ghost use Rattle.std.specs.Prelude.{List};
    ghost use Rattle.osn_register.specs.declared.edit.Edit.{Edit};

    ghost Value = { List Edit };

    ghost view = { λ b. b.edits.items };
}

impl Batch {
    /// Returns the edits that were moved in.
    pub fn new(edits: Vec<Edit>) -> Batch
        ensures { result ≡ edits.items }
    {
        Batch { edits }
    }

    /// Returns the edits, to read.
    pub fn edits(&self) -> &[Edit]
        ensures { result.now ≡ self.now }
    {
        self.edits.as_slice()
    }
}
