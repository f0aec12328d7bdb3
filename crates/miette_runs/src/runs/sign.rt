//! Signs: style changes and escape sequences between characters.

ghost use Rattle.std.specs.Prelude.{◌≡◌, IfOk, true};
ghost use Rattle.miette_runs.specs.views.Interleaving.{sign_text};

use miette_style::laws::comparison_laws;
use miette_style::style::Style;
use std::alloc::{AllocError, Global};
use std::rc::Rc;

// How many of the last signs are compared with a new one.
const RECENT: usize = 16;

/// The start or end of a style, or another complete escape sequence. A sign has no columns.
#[derive(Debug, Drop)]
pub enum Sign {
    /// A style begins.
    Begin(Style),
    /// The style ends.
    End,
    /// The start or end of a link, or a sequence of the text.
    Sequence(Vec<char>),
}

/// A sign, which other tags may share, and its position.
#[derive(Debug, Drop)]
pub struct Tag {
    /// How many characters precede it.
    pub at: usize,
    /// The sign.
    pub sign: Rc<Sign>,
}

// Whether two signs certainly print the same.
fn are_alike(one: &Sign, other: &Sign) -> bool
    ensures { result ≡ true → sign_text one.now ≡ sign_text other.now }
{
    comparison_laws();
    match (one, other) {
        (Sign::Begin(one), Sign::Begin(other)) => *one == *other,
        (Sign::End, Sign::End) => true,
        (Sign::Sequence(one), Sign::Sequence(other)) => one.as_slice() == other.as_slice(),
        _ => false,
    }
}

/// Returns a shared sign: that of one of the last tags if it prints the same, else a new one.
pub(crate) fn shared_sign(alloc: Global, tags: &[Tag], sign: Sign) -> Result<Rc<Sign>, AllocError>
    ensures { IfOk result (λ s. sign_text s.value ≡ sign_text sign) }
{
    for tag in &tags[tags.len().saturating_sub(RECENT)..] {
        if are_alike(&tag.sign, &sign) {
            let copy = tag.sign.clone()?;
            return Ok(copy);
        }
    }
    let own = Rc::new(alloc, sign)?;
    Ok(own)
}
