//! A line as it is given to a taker.

/// The most bytes that a line may have, without its line feed.
pub const LONGEST_LINE: usize = 65_536;

/// A line, without its line feed.
#[derive(Clone, Copy, Debug)]
pub enum Line<'a> {
    /// All its bytes, 65,536 at most.
    Whole(&'a [u8]),
    /// It has more than 65,536 bytes, and none of them is given.
    TooLong,
}
