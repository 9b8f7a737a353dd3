//! The number of bytes in lines that have ended.
ghost use Rattle.std.specs.Prelude.{◌≡◌, ◌≤◌, length};
ghost use Rattle.osn_lines.specs.LastLineFeed as spec;

use memchr::memrchr;

/// Returns the number of bytes up to the last line feed, with it.
pub fn ended_length(bytes: &[u8]) -> usize
    ensures value { result ≡ spec.ended_length bytes.now }
    ensures within { result ≤ length bytes.now }
{
    match memrchr(b'\n', bytes) {
        Some(index) => index + 1,
        None => 0,
    }
}
