//! The form of codes and names.
ghost use Rattle.std.specs.Prelude.{◌≡◌};
ghost use Rattle.std.specs.List.{list_all};
ghost use Rattle.osn_register.specs.Code as form;

fn is_capital(byte: u8) -> bool
    ensures { result ≡ form.is_capital byte }
{
    byte >= b'A' && byte <= b'Z'
}

fn is_code_byte(byte: u8) -> bool
    ensures { result ≡ form.is_code_byte byte }
{
    is_capital(byte) || (byte >= b'0' && byte <= b'9')
}

fn is_name_byte(byte: u8) -> bool
    ensures { result ≡ form.is_name_byte byte }
{
    byte >= 0x20 && byte != 0x7f
}

fn are_code_bytes(bytes: &[u8]) -> bool
    ensures { result ≡ list_all form.is_code_byte bytes.now }
{
    bytes.iter().all(|byte| is_code_byte(*byte))
}

pub(crate) fn are_name_bytes(bytes: &[u8]) -> bool
    ensures { result ≡ list_all form.is_name_byte bytes.now }
{
    bytes.iter().all(|byte| is_name_byte(*byte))
}

/// Returns whether a territory may have the code: 2 to 8 capital letters or digits, the first a
/// letter.
pub(crate) fn is_code(code: &str) -> bool
    ensures { result ≡ form.is_code code.now }
{
    let bytes = code.as_bytes();
    bytes.len() >= 2 && bytes.len() <= 8 && is_capital(bytes[0]) && are_code_bytes(bytes)
}

/// Returns whether a territory may have the name: 1 to 64 bytes, none a control byte.
pub(crate) fn is_name(name: &str) -> bool
    ensures { result ≡ form.is_name name.now }
{
    let bytes = name.as_bytes();
    if bytes.is_empty() || bytes.len() > 64 {
        return false;
    }
    are_name_bytes(bytes)
}
