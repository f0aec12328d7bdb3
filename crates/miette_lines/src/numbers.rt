//! Decimal numbers.

ghost use Rattle.std.specs.Prelude.{◌≡◌, ◌++◌, OnOk, decimal, string_bytes};

use itoa::Buffer;
use std::alloc::AllocError;

/// Appends a number in decimal.
///
/// # Errors
/// `AllocError` if allocation fails.
pub fn push_number(out: &mut String, number: usize) -> Result<(), AllocError>
    ensures { OnOk result (string_bytes out.new ≡ string_bytes out.old ++ decimal number) }
{
    let mut digits = Buffer::new();
    out.push_str(digits.format(number))
}
