//! Opens the files that are read, in their order.
ghost use Rattle.std.specs.Prelude.{◌∷◌, [], IfErr, IfOk, OnOk, OnErr, option_map};
ghost use Rattle.osn_folder.specs.Crash.{LeavesAllSafe};
ghost use Rattle.osn_folder.specs.Folder.{Changes, IsCauseAt, IsFileOf, IsFileIf, IsOpenFailure};
ghost use Rattle.osn_folder.specs.Folder.{Opens, CannotOpen, path_if};

use crate::fault::{OpenFailed, OpenFailure};
use crate::folder::Folder;

/// Opens a file.
///
/// # Errors
///
/// Why the file could not be opened.
pub fn open_file<D: Folder>(folder: &mut D, path: &str) -> Result<D::File, OpenFailed>
    ensures file { IfOk result
        (λ file. IsFileOf (D.known folder.old) path.now (D.File.remaining file)) }
    ensures ok { OnOk result
        (Changes (Opens (path.now ∷ [])) (D.known folder.old) (D.known folder.new)) }
    ensures err { OnErr result
        (CannotOpen (path.now ∷ []) (D.known folder.old) (D.known folder.new)) }
    ensures cause { IfErr result (IsCauseAt (D.known folder.old) path.now) }
    ensures crash { Changes LeavesAllSafe (D.known folder.old) (D.known folder.new) }
{
    folder.open(path)
}

/// Opens a file as `open_file` does, and names its path if that fails.
///
/// # Errors
///
/// The path, and why the file could not be opened.
pub fn open_named<'a, D: Folder>(folder: &mut D, path: &'a str) -> Result<D::File, OpenFailure<'a>>
    ensures file { IfOk result
        (λ file. IsFileOf (D.known folder.old) path.now (D.File.remaining file)) }
    ensures ok { OnOk result
        (Changes (Opens (path.now ∷ [])) (D.known folder.old) (D.known folder.new)) }
    ensures err { IfErr result (λ why. IsOpenFailure (path.now ∷ []) why.path.now why.cause
        (D.known folder.old) (D.known folder.new)) }
    ensures crash { Changes LeavesAllSafe (D.known folder.old) (D.known folder.new) }
{
    match open_file(folder, path) {
        Ok(file) => Ok(file),
        Err(cause) => Err(OpenFailure { path, cause }),
    }
}

/// Opens two files, one after the other.
///
/// # Errors
///
/// The path of one of them, and why it could not be opened. The second is not tried if the first
/// could not be.
pub fn open_both<'a, D: Folder>(
    folder: &mut D,
    first: &'a str,
    second: &'a str,
) -> Result<(D::File, D::File), OpenFailure<'a>>
    ensures first { IfOk result
        (λ files. IsFileOf (D.known folder.old) first.now (D.File.remaining files.0)) }
    ensures second { IfOk result
        (λ files. IsFileOf (D.known folder.old) second.now (D.File.remaining files.1)) }
    ensures ok { OnOk result (Changes (Opens (first.now ∷ second.now ∷ []))
        (D.known folder.old) (D.known folder.new)) }
    ensures err { IfErr result (λ why. IsOpenFailure (first.now ∷ second.now ∷ []) why.path.now
        why.cause (D.known folder.old) (D.known folder.new)) }
    ensures crash { Changes LeavesAllSafe (D.known folder.old) (D.known folder.new) }
{
    let one = open_named(folder, first)?;
    let other = open_named(folder, second)?;
    Ok((one, other))
}

/// Opens a file, if there is a path.
///
/// # Errors
///
/// The path, and why the file could not be opened.
pub fn open_if<'a, D: Folder>(
    folder: &mut D,
    path: Option<&'a str>,
) -> Result<Option<D::File>, OpenFailure<'a>>
    ensures file { IfOk result (λ file. IsFileIf (D.known folder.old)
        (option_map (λ path. path.now) path.entry) (option_map D.File.remaining file)) }
    ensures ok { OnOk result (Changes (Opens (path_if (option_map (λ path. path.now) path.entry)))
        (D.known folder.old) (D.known folder.new)) }
    ensures err { IfErr result (λ why. IsOpenFailure
        (path_if (option_map (λ path. path.now) path.entry)) why.path.now why.cause
        (D.known folder.old) (D.known folder.new)) }
    ensures crash { Changes LeavesAllSafe (D.known folder.old) (D.known folder.new) }
{
    match path {
        Some(path) => Ok(Some(open_named(folder, path)?)),
        None => Ok(None),
    }
}
