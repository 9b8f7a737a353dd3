//! Files by their paths: those that are opened to be read, in order, those that a text is saved to,
//! and those that are kept. What the crate promises to those above, of a folder that is known: the
//! functions `open_file`, `open_named`, `open_both` and `open_if` open the files that are named and
//! no others. `save_file` puts a text in the place of a file that was locked, whole or not at all,
//! and of none that anyone else has changed. A crash of the machine leaves the file that was there,
//! or the text. A file may also be kept, to be appended to while a program runs, or followed, to be
//! read while another run appends to it.
#![tactic(auto)]

mod cause;
mod disk;
mod disk_backup;
mod disk_file;
mod disk_lock;
mod disk_names;
mod fault;
mod folder;
mod followed_disk_file;
mod followed_file;
mod kept_file;
mod opening;
mod save;
mod saving_beside;

pub use disk::Disk;
pub use disk_file::DiskFile;
pub use disk_lock::DiskLock;
pub use fault::{
    ChangeCause, ChangeFailed, FollowFault, KeepFault, KeptFileFault, MoveFault, OpenFailed,
    OpenFailure, SaveFault,
};
pub use folder::Folder;
pub use followed_disk_file::FollowedDiskFile;
pub use followed_file::FollowedFile;
pub use kept_file::KeptFile;
pub use opening::{open_both, open_file, open_if, open_named};
pub use save::save_file;
pub use saving_beside::save_beside;
