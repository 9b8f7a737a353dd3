//! The sequential object over the register, an edition of it, and the machine over two copies of
//! the register, whose steps are those of readers and one editor. What the crate promises to those
//! above: over every list of steps, the editor and the readers get what the sequential object gives
//! them, and each query is answered as at the place where its reader entered. An edition that is
//! asked for by its number has the register of the first batches, as many as that number, and no
//! pending edit; without a number it is the newest one. A number beyond the newest edition is
//! refused.
#![tactic(auto)]

mod batch;
mod command;
mod draft;
mod edition;
mod edition_word;
mod live_and_standby;
mod machine;
mod object;
mod phase;
mod reader;
mod readers;
mod run;
mod step;

pub use batch::Batch;
pub use command::Command;
pub use draft::Draft;
pub use edition::{Edition, EditionFault, edition_of, register_of};
pub use edition_word::edition_of_word;
pub use machine::{Core, MOST_READERS};
pub use object::Object;
pub use run::replay;
pub use step::{Out, Reply, Step};
