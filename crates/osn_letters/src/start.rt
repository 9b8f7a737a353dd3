//! The byte order mark that a text may begin with.
ghost use Rattle.std.specs.Prelude.{◌≡◌};
ghost use Rattle.osn_letters.specs.ByteOrderMark as spec;

/// The first bytes of a byte order mark.
pub(crate) const MARK: [u8; 2] = [0xef, 0xbb];

/// How much of a byte order mark a text has begun with. These bytes are held back.
#[derive(Clone, Copy, PartialEq, Eq)]
pub(crate) enum ByteOrderMark {
    /// Nothing of it: no byte has come.
    Nothing,
    /// Its first byte.
    OneByte,
    /// Its first two bytes.
    TwoBytes,
    /// The beginning was read, with or without a mark.
    Past,
}

impl ByteOrderMark {
    /// Returns how much of the mark was read after the next byte, if that byte continues the mark.
    pub(crate) fn next(self, byte: u8) -> Option<ByteOrderMark>
        ensures { result ≡ spec.next_start self byte }
    {
        match (self, byte) {
            (ByteOrderMark::Nothing, 0xef) => Some(ByteOrderMark::OneByte),
            (ByteOrderMark::OneByte, 0xbb) => Some(ByteOrderMark::TwoBytes),
            (ByteOrderMark::TwoBytes, 0xbf) => Some(ByteOrderMark::Past),
            _ => None,
        }
    }
}
