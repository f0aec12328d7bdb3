//! Canvases that accept signs.

ghost use Rattle.std.specs.Prelude.{◌≡◌, ◌++◌, OnOk};
ghost use Rattle.miette_runs.specs.views.Interleaving.{sign_text};

use crate::runs::sign::Sign;
use miette_style::canvas::Canvas;
use std::alloc::AllocError;
use std::rc::Rc;

/// A canvas that signs can be appended to.
pub trait Sink: Canvas {
    /// Appends a sign. After an error a beginning of it may be appended.
    ///
    /// # Errors
    /// `AllocError` if allocation fails.
    fn push_sign(&mut self, sign: &Rc<Sign>) -> Result<(), AllocError>
        ensures { OnOk result (Self.written self.new ≡ Self.written self.old ++ sign_text sign.now.value) };
}

impl Sink for String {
    fn push_sign(&mut self, sign: &Rc<Sign>) -> Result<(), AllocError> {
        match sign.as_ref() {
            Sign::Begin(style) => self.begin(*style)?,
            Sign::End => self.end()?,
            Sign::Sequence(codes) => self.push_chars(codes)?,
        }
        Ok(())
    }
}
