//! Decimal numbers without leading zeros.

ghost use Rattle.std.specs.Prelude.{◌≡◌, ◌^◌, ◌<◌};
ghost use Rattle.std.specs.List.{list_all};
ghost use Rattle.std.specs.Option.{SomeIff};
ghost use Rattle.script_lang.specs.Numbers.{is_decimal_digit, is_number, number_value, is_negative};
ghost use Rattle.script_lang.specs.Numbers.{is_zero, unsigned, is_signed};

fn is_decimal_digit(byte: u8) -> bool
    ensures { result ≡ is_decimal_digit byte }
{
    byte >= b'0' && byte <= b'9'
}

fn all_decimal(bytes: &[u8]) -> bool
    ensures { result ≡ list_all is_decimal_digit bytes.now }
{
    bytes.iter().all(|byte| is_decimal_digit(*byte))
}

/// Whether a field is a number: digits alone, at least one, and no 0 in front of others.
pub fn is_number(field: &[u8]) -> bool
    ensures { result ≡ is_number field.now }
{
    match field {
        [] => false,
        [digit] => is_decimal_digit(*digit),
        [first, ..] => *first != b'0' && all_decimal(field),
    }
}

/// The number that digits stand for, where it fits.
pub fn number_value(digits: &[u8]) -> Option<u64>
    ensures { SomeIff result (number_value digits.now < 2 ^ 64) (number_value digits.now) }
{
    let mut value = 0u64;
    for digit in digits {
        let more = 10 * u128::from(value) + u128::from(digit.saturating_sub(b'0'));
        if more > u128::from(u64::MAX) {
            return None;
        }
        value = more as u64;
    }
    Some(value)
}

/// Whether a minus sign stands in front.
pub fn is_negative(field: &[u8]) -> bool
    ensures { result ≡ is_negative field.now }
{
    match field {
        [] => false,
        [first, ..] => *first == b'-',
    }
}

/// What stands behind the sign, if there is one.
pub fn unsigned(field: &[u8]) -> &[u8]
    ensures { result.now ≡ unsigned field.now }
{
    match field {
        [b'-', digits @ ..] => digits,
        _ => field,
    }
}

fn is_zero(digits: &[u8]) -> bool
    ensures { result ≡ is_zero digits.now }
{
    match digits {
        [digit] => *digit == b'0',
        _ => false,
    }
}

/// Whether a field is a number, which may have a minus sign unless it is 0.
pub fn is_signed(field: &[u8]) -> bool
    ensures { result ≡ is_signed field.now }
{
    is_number(unsigned(field)) && !(is_negative(field) && is_zero(unsigned(field)))
}
