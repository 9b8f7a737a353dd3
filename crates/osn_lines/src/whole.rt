//! Reads a source to its end, with all its bytes in memory.
ghost use Rattle.std.specs.Prelude.{◌≡◌, IfOk, IfErr, IfSome, OnOk};
ghost use Rattle.std.specs.Io.KnownBytes.{IsAtEnd};
ghost use Rattle.osn_lines.specs.Whole.{WhyNotRead};
ghost use Rattle.osn_lines.specs.declared.whole.ReadAllFault.{ReadAllFault};

use crate::source::{Source, read_buffer};
use std::alloc::{AllocError, Global};

/// Why a source was not read to its end.
#[derive(Clone, Copy, Debug, PartialEq, Eq)]
pub enum ReadAllFault {
    /// Memory ran out.
    NoMemory,
    /// The source failed, or gave no end within 4,294,967,295 reads.
    ReadFault,
}

impl From<AllocError> for ReadAllFault {
    ghost from_gives = { λ _ value. value ≡ ReadAllFault.NoMemory };

    fn from(_error: AllocError) -> ReadAllFault {
        ReadAllFault::NoMemory
    }
}

/// Reads all bytes that a source has left.
///
/// # Errors
///
/// Returns `NoMemory` if memory ran out, which does not mark the source as failed. Returns
/// `ReadFault` if the source failed, or didn't end within 4,294,967,295 reads.
pub fn read_all<R: Source>(alloc: Global, source: &mut R) -> Result<Vec<u8>, ReadAllFault>
    ensures bytes { IfOk result (λ read. IfSome (R.remaining source.old)
        (λ bytes. read.items ≡ bytes)) }
    ensures end { OnOk result (IsAtEnd (R.remaining source.new)) }
    ensures sound { OnOk result (R.has_failed source.new ≡ R.has_failed source.old) }
    ensures reason { IfErr result (λ why. WhyNotRead why (R.has_failed source.old)
        (R.has_failed source.new) (R.remaining source.old)) }
{
    let mut buffer = read_buffer(alloc)?;
    let mut bytes = Vec::new(alloc);
    for _call in 0..u32::MAX {
        let Ok(read) = source.read(&mut buffer) else {
            return Err(ReadAllFault::ReadFault);
        };
        if read == 0 {
            return Ok(bytes);
        }
        bytes.extend_from_slice(&buffer[..read])?;
    }
    Err(ReadAllFault::ReadFault)
}
