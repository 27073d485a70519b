//! The sum of bytes.

ghost use Rattle.std.specs.Prelude.{◌≡◌, sum};

/// The sum of all bytes. It fits, since no slice has 2 ^ 64 bytes.
pub(crate) fn sum_of(bytes: &[u8]) -> u128
    ensures { result ≡ sum bytes.now }
{
    let mut total = 0u128;
    for byte in bytes {
        total += u128::from(*byte);
    }
    total
}
