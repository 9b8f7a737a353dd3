//! The value that a test found, compared with the one that it expects: one function, since each
//! `assert_eq!` is proved with the texts that it prints.
ghost use Rattle.std.specs.Prelude.{◌≡◌, true};

use std::fmt::Debug;
use std::process::Abort;

/// Checks that a value that was found is the expected one. If the two alone don't say which row of
/// a table they are of, both contain the row too.
pub fn same<T: PartialEq + Debug + Drop>(rt: &impl Abort, actual: T, expected: T)
    ensures { T.eq actual expected ≡ true }
{
    assert_eq!(rt; actual, expected);
}
