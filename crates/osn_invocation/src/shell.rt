//! The shells whose words are completed.
ghost use Rattle.std.specs.Prelude.{◌≡◌};
ghost use Rattle.osn_invocation.specs.Completions as spec;

/// A shell.
#[derive(Clone, Copy, Debug, PartialEq, Eq)]
pub enum Shell {
    /// GNU Bash.
    Bash,
    /// The Z shell.
    Zsh,
    /// The friendly interactive shell.
    Fish,
}

/// Returns the shell that a word names, if it names one.
pub fn shell_named(word: &str) -> Option<Shell>
    ensures { result ≡ spec.shell_named word.now }
{
    match word {
        "bash" => Some(Shell::Bash),
        "zsh" => Some(Shell::Zsh),
        "fish" => Some(Shell::Fish),
        _ => None,
    }
}
