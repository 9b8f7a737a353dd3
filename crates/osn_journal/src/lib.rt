//! A journal in a file while lines are answered: kept by this run, or followed while another run
//! appends to it. The crate guarantees that `serve_kept` answers as `serve_store` does. Before the
//! reply to a change is written, the file contains the line of that change, and the line of a
//! publish is on the disk. `follow` answers each line from the journal that the file contained when
//! it was looked at, after the line was read. The edition in its replies never falls, and no reply
//! shows edits that are not published yet.
#![tactic(auto)]

mod arrivals;
mod followed_journal;
mod follower;
mod follower_fault;
mod kept_object;
mod kept_service;
mod line_front;

pub use arrivals::{Arrivals, Feed};
pub use follower::follow;
pub use follower_fault::FollowerFault;
pub use kept_object::append_synced;
pub use kept_service::serve_kept;
