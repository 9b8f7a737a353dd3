//! What the lines of a service may do, and when it ends.
ghost use Rattle.std.specs.Prelude.{◌≡◌};
ghost use Rattle.osn_service.specs.Session as spec;

/// What the lines of a service may do, and when it ends.
#[derive(Clone, Copy, Debug, PartialEq, Eq)]
pub struct ServeRules {
    /// The number of readers; they are counted from 1.
    pub readers: u32,
    /// Whether the reply to each edit and each publish is the fault `ReadOnly`.
    pub read_only: bool,
    /// Whether an edit may give a source. Otherwise the reply to one that does is `NeedsUpgrade`.
    pub takes_sources: bool,
    /// Whether the first line whose reply is a refusal or a fault is the last to be answered.
    pub stop_at_refusal: bool,
    /// Whether a reply that reports a refusal or a fault has a message for people.
    pub explains: bool,
    /// Whether a member that a request doesn't have is refused.
    pub strict_members: bool,
}

impl ServeRules {
    /// Returns the rules of a service that takes edits, also those that give a source. All lines
    /// are answered, no reply has a message, and members that a request doesn't have are ignored.
    pub fn editing(readers: u32) -> ServeRules
        ensures { result ≡ spec.editing readers }
    {
        ServeRules {
            readers,
            read_only: false,
            takes_sources: true,
            stop_at_refusal: false,
            explains: false,
            strict_members: false,
        }
    }
}
