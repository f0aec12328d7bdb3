//! Checked sums.

ghost use Rattle.std.specs.Prelude.{◌≡◌, ◌+◌, IfOk};

use std::alloc::AllocError;

/// Adds two numbers.
///
/// # Errors
/// `AllocError` if the sum exceeds `usize::MAX`.
#[inline(always)]
pub fn sum(a: usize, b: usize) -> Result<usize, AllocError>
    ensures { IfOk result (λ n. n ≡ a + b) }
{
    a.checked_add(b).ok_or(AllocError)
}
