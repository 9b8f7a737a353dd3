//! Memory as scarce as a test needs it, and calls to which growths of memory are refused in turn.
//! It takes all memory that the C library has for the process. An allocator that checks each
//! access, as under `rt try`, keeps some of its own, and then the tests say that a call was never
//! refused.
mod change;
mod scarce_memory;
mod trials;

pub use change::Change;
pub use trials::{
    ANSWERS_OTHERWISE, Ample, CHANGES_FIRST, NEVER_REFUSED, STAYS_REFUSED, Wrong, is_sound, tried,
};
