//! How answering a stream of lines ends early.

use thiserror::Error;

/// Why not every line was answered. The number of lines beside it counts those whose reply was
/// written whole.
#[derive(Clone, Copy, Debug, PartialEq, Eq, Error)]
pub enum ServeFault {
    /// Memory ran out. No line after those was answered.
    #[error("memory ran out; no further line is answered")]
    NoMemory,
    /// The source failed, or gave no end within 4,294,967,295 reads. No line after those was
    /// answered.
    #[error("the input failed; no further line is answered")]
    ReadFault,
    /// The sink failed, or did not take a text within 4,294,967,295 calls. The reply to the next
    /// line may be written in part. That line may have changed the object, and no line after it
    /// has.
    #[error("the output failed; the next line may have been applied")]
    WriteFault,
}

/// Why not every line was answered from a store.
#[derive(Clone, Copy, Debug, PartialEq, Eq)]
pub enum ServiceFault<F> {
    /// The fault of a service whose object is kept nowhere. What the store had to keep is kept.
    Serve(ServeFault),
    /// The change that the next line made could not be kept. The object has changed, and no reply
    /// was written. No line after it was answered.
    NotKept(F),
}
