//! Lower-case hexadecimal digits, tested and read in one pass.

ghost use Rattle.std.specs.Prelude.{◌≡◌, ◌≤◌, ◌<◌, ◌*◌, true, false, length, Some, IfOk};
ghost use Rattle.std.specs.List.{list_all};
ghost use Rattle.hex.specs.Hex.{hex_digit_value};
ghost use Rattle.script_lang.specs.Digits.{are_numbers};
ghost use Rattle.script_lang.specs.Kinds.{is_lower_digit, is_hex, decoded, if_formed};

use std::alloc::{AllocError, Global};
use wl_wire::Bytes;

/// What a byte that is no digit has for a number.
const NO: u16 = 256;

/// The number of each byte as a digit, 0 to 9 and a to f.
static NUMBERS: [u16; 256] = [
    NO, NO, NO, NO, NO, NO, NO, NO, NO, NO, NO, NO, NO, NO, NO, NO, NO, NO, NO, NO, NO, NO, NO, NO,
    NO, NO, NO, NO, NO, NO, NO, NO, NO, NO, NO, NO, NO, NO, NO, NO, NO, NO, NO, NO, NO, NO, NO, NO,
    0, 1, 2, 3, 4, 5, 6, 7, 8, 9, NO, NO, NO, NO, NO, NO, NO, NO, NO, NO, NO, NO, NO, NO, NO, NO,
    NO, NO, NO, NO, NO, NO, NO, NO, NO, NO, NO, NO, NO, NO, NO, NO, NO, NO, NO, NO, NO, NO, NO, 10,
    11, 12, 13, 14, 15, NO, NO, NO, NO, NO, NO, NO, NO, NO, NO, NO, NO, NO, NO, NO, NO, NO, NO, NO,
    NO, NO, NO, NO, NO, NO, NO, NO, NO, NO, NO, NO, NO, NO, NO, NO, NO, NO, NO, NO, NO, NO, NO, NO,
    NO, NO, NO, NO, NO, NO, NO, NO, NO, NO, NO, NO, NO, NO, NO, NO, NO, NO, NO, NO, NO, NO, NO, NO,
    NO, NO, NO, NO, NO, NO, NO, NO, NO, NO, NO, NO, NO, NO, NO, NO, NO, NO, NO, NO, NO, NO, NO, NO,
    NO, NO, NO, NO, NO, NO, NO, NO, NO, NO, NO, NO, NO, NO, NO, NO, NO, NO, NO, NO, NO, NO, NO, NO,
    NO, NO, NO, NO, NO, NO, NO, NO, NO, NO, NO, NO, NO, NO, NO, NO, NO, NO, NO, NO, NO, NO, NO, NO,
    NO, NO, NO, NO, NO, NO, NO, NO, NO, NO, NO, NO, NO, NO,
];

/// The bytes of an even count of digits, 0 to 9 and a to f, or None where a field is none of such
/// digits.
///
/// # Errors
/// Only where memory runs out.
pub fn decode(alloc: Global, field: &[u8]) -> Result<Option<Bytes>, AllocError>
    ensures { IfOk result (λ it. it ≡ if_formed (is_hex field.now) (decoded field.now)) }
{
    if field.len() % 2 != 0 {
        return Ok(None);
    }
    let mut bytes = vec![in alloc; 0u8; field.len() / 2]?;
    if decode_into(field, &mut bytes) {
        Ok(Some(Bytes::from_vec(bytes)))
    } else {
        Ok(None)
    }
}

/// Reads digits into room for their bytes, and tells whether they all are digits. Where one isn't,
/// the bytes are those of the digits before it.
pub fn decode_into(digits: &[u8], bytes: &mut [u8]) -> bool
    requires { length digits.now ≡ 2 * length bytes.old }
    ensures digits { result ≡ list_all is_lower_digit digits.now }
    ensures bytes { result ≡ true → bytes.new ≡ decoded digits.now }
{
    'pairs: for i in 0..bytes.len() {
        let byte = 16 * digit_number(digits[2 * i]) + digit_number(digits[2 * i + 1]);
        if byte > 255 {
            return false;
        }
        bytes[i] = byte as u8;
    }
    true
}

/// The number of a digit, and 256 where a byte is none.
fn digit_number(digit: u8) -> u16
    ensures digit { is_lower_digit digit ≡ true → (hex_digit_value digit ≡ Some result)
        × (result < 16) }
    ensures other { is_lower_digit digit ≡ false → result ≡ 256 }
    ensures small { result ≤ 256 }
{
    numbers()[usize::from(digit)]
}

/// The number of each byte as a digit.
fn numbers() -> &'static [u16; 256]
    ensures { are_numbers 0 result.now ≡ true }
{
    &NUMBERS
}
