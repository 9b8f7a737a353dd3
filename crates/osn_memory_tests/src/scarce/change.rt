//! A call that may change what it is made on.
use crate::scarce::trials::Ample;
use std::fmt::Debug;
use std::process::Abort;
use std::sync::Wait;

/// A call that may change what it is made on, and that may lack memory.
pub trait Change {
    /// What it is made on.
    type On;

    /// What it returns with enough memory.
    type Answer: Debug + Drop;

    /// Returns what it is made on, as it is before the call.
    fn on<R: Wait + AllocGlobal + Abort>(&self, rt: &R) -> Self::On;

    /// Makes the call, and returns `None` if it lacks memory.
    fn make<R: Wait + AllocGlobal + Abort>(
        &self,
        rt: &R,
        on: &mut Self::On,
    ) -> Option<Self::Answer>;

    /// Returns a text of the state of what it is made on.
    fn text<R: Wait + AllocGlobal + Abort>(&self, rt: &R, on: &mut Self::On) -> String;

    /// Ends what it was made on.
    fn end<R: Wait + AllocGlobal + Abort>(&self, rt: &R, on: Self::On);

    /// Returns whether the state after a refusal is as it must be: as before the call.
    fn stands<R: Wait + AllocGlobal + Abort>(
        &self,
        rt: &R,
        on: &mut Self::On,
        ample: &Ample,
    ) -> bool {
        self.text(rt, on).as_str() == ample.before.as_str()
    }
}
