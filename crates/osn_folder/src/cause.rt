//! Why the system failed, by the error of its call or by what is at a path.

use crate::fault::{ChangeCause, OpenFailed};
use std::fs::Metadata;
use std::io;
use std::io::ErrorKind;

/// Returns why a file that must be there could not be opened.
pub(crate) fn open_cause(error: &io::Error) -> OpenFailed {
    match error.kind() {
        ErrorKind::NotFound => OpenFailed::NotFound,
        ErrorKind::PermissionDenied => OpenFailed::PermissionDenied,
        ErrorKind::IsADirectory => OpenFailed::IsDirectory,
        _ => OpenFailed::Other,
    }
}

/// Returns why a file that is made if there is none could not be opened.
pub(crate) fn make_cause(error: &io::Error) -> OpenFailed {
    match open_cause(error) {
        OpenFailed::NotFound => OpenFailed::NoFolder,
        cause => cause,
    }
}

/// Returns why what is at a path is not opened, if it is not a file.
pub(crate) fn cause_of_kind(metadata: &Metadata) -> OpenFailed {
    if metadata.is_dir() {
        OpenFailed::IsDirectory
    } else {
        OpenFailed::Other
    }
}

/// Returns why a file could not be made or changed.
pub(crate) fn change_cause(error: &io::Error) -> ChangeCause {
    match error.kind() {
        ErrorKind::NotFound => ChangeCause::NoFolder,
        ErrorKind::PermissionDenied => ChangeCause::PermissionDenied,
        ErrorKind::StorageFull | ErrorKind::QuotaExceeded => ChangeCause::NoSpace,
        _ => ChangeCause::Other,
    }
}
