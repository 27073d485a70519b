//! Decimal numbers: read at the front of a text, added at its end.

ghost use Rattle.std.specs.Prelude.{◌≡◌, ◌≤◌, ◌++◌, length, decimal, OnOk};
ghost use Rattle.std.specs.Char.{is_ascii_digit};
ghost use Rattle.std.specs.Fmt.{signed_decimal};
ghost use Rattle.std.specs.List.{prefix_len};
ghost use Rattle.std.specs.Str.Parse.{AllDigits};
ghost use Rattle.wl_text.specs.Front.{read_view};
ghost use Rattle.wl_text.specs.Decimals.{word_of, negative, positive, number_at, signed_at};

use crate::front::behind;
use itoa::Buffer;
use std::alloc::AllocError;
use wl_wire::Text;

/// The number of digits, if it has 32 bits.
fn word_of(digits: &[u8]) -> Option<u32>
    requires { AllDigits 10 digits.now }
    ensures { result ≡ word_of digits.now }
{
    let mut word = 0u32;
    'digits: for digit in digits {
        word = word.checked_mul(10)?.checked_add(u32::from(*digit - b'0'))?;
    }
    Some(word)
}

/// How many digits stand at the front.
fn digit_count(text: &[u8]) -> usize
    ensures count { result ≡ prefix_len is_ascii_digit text.now }
    ensures within { result ≤ length text.now }
{
    text.iter().take_while(|byte| byte.is_ascii_digit()).count()
}

/// An unsigned number, without leading zeros.
pub(crate) fn number_at(text: &[u8]) -> Option<(u32, &[u8])>
    ensures { read_view result ≡ number_at text.now }
{
    let (digits, rest) = text.split_at(digit_count(text));
    let number = word_of(digits)?;
    let mut buffer = Buffer::new();
    if buffer.format(number).as_bytes() == digits {
        Some((number, rest))
    } else {
        None
    }
}

/// The number of this size behind a sign.
fn negative(size: u32, rest: &[u8]) -> Option<(i32, &[u8])>
    ensures { read_view result ≡ negative (size, rest.now) }
{
    if size == 0 || size > 0x8000_0000 {
        None
    } else {
        Some(((-i64::from(size)) as i32, rest))
    }
}

/// The number of this size without a sign.
fn positive(size: u32, rest: &[u8]) -> Option<(i32, &[u8])>
    ensures { read_view result ≡ positive (size, rest.now) }
{
    if size < 0x8000_0000 {
        Some((size as i32, rest))
    } else {
        None
    }
}

/// A signed number, without leading zeros, and with a sign only where it is negative.
#[tactic(auto, unfolding(crate::specs::Decimals::signed_at))]
pub(crate) fn signed_at(text: &[u8]) -> Option<(i32, &[u8])>
    ensures { read_view result ≡ signed_at text.now }
{
    match behind(b"-", text) {
        Some(rest) => {
            let (size, rest) = number_at(rest)?;
            negative(size, rest)
        }
        None => {
            let (size, rest) = number_at(text)?;
            positive(size, rest)
        }
    }
}

/// Adds an unsigned number.
pub(crate) fn put_number(out: &mut Text, number: u32) -> Result<(), AllocError>
    ensures { OnOk result (out.new ≡ out.old ++ decimal number) }
{
    let mut buffer = Buffer::new();
    out.append(buffer.format(number).as_bytes())
}

/// Adds a signed number.
pub(crate) fn put_signed(out: &mut Text, number: i32) -> Result<(), AllocError>
    ensures { OnOk result (out.new ≡ out.old ++ signed_decimal number) }
{
    let mut buffer = Buffer::new();
    out.append(buffer.format(number).as_bytes())
}
