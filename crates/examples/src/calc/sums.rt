//! Sums of products of integers.

use thiserror::Error;

/// Why an expression has no value.
#[derive(Clone, Copy, Debug, Error)]
pub enum Reason {
    /// A part isn't a number.
    #[error("a number is wanted")]
    NoNumber,
    /// A value doesn't fit in 64 bits.
    #[error("the value is too big")]
    TooBig,
}

/// A reason and the part that it is about.
#[derive(Clone, Copy)]
pub struct Fault {
    /// Why there is no value.
    pub reason: Reason,
    /// The offset of the part, in bytes.
    pub start: usize,
    /// The length of the part, in bytes.
    pub length: usize,
}

impl Fault {
    /// Returns the error of the part at `start`, without the blanks around it.
    fn new(reason: Reason, start: usize, part: &str) -> Fault {
        let text = part.trim_start();
        Fault {
            reason,
            start: start.saturating_add(part.len().saturating_sub(text.len())),
            length: text.trim_end().len(),
        }
    }
}

/// Returns the value of an expression.
///
/// # Errors
/// The leftmost fault.
pub fn value_of(text: &str) -> Result<i64, Fault> {
    let mut sum = 0i64;
    let mut start = 0usize;
    for term in text.split('+') {
        let product = product_of(term, start)?;
        sum = match sum.checked_add(product) {
            Some(sum) => sum,
            None => return Err(Fault::new(Reason::TooBig, start, term)),
        };
        start = start.saturating_add(term.len()).saturating_add(1);
    }
    Ok(sum)
}

/// Returns the value of the term at `start`.
fn product_of(term: &str, start: usize) -> Result<i64, Fault> {
    let mut product = 1i64;
    let mut start = start;
    for factor in term.split('*') {
        let Ok(number) = factor.trim().parse::<i64>() else {
            return Err(Fault::new(Reason::NoNumber, start, factor));
        };
        product = match product.checked_mul(number) {
            Some(product) => product,
            None => return Err(Fault::new(Reason::TooBig, start, factor)),
        };
        start = start.saturating_add(factor.len()).saturating_add(1);
    }
    Ok(product)
}
