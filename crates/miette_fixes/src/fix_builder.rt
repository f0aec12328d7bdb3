//! A fix and its builder.

ghost use Rattle.std.specs.Prelude.{◌≡◌, ◌≢◌, List, [], ◌∷◌, ◌++◌, length, IfOk, IfErr, None, Some};
ghost use Rattle.std.specs.Iterator.{Drains, IsFinite};
ghost use Rattle.miette_fixes.specs.declared.applicability.Applicability.TheVariants.{Unspecified};
ghost use Rattle.miette_fixes.specs.declared.error.FixError.TheVariants.{Memory};
ghost use Rattle.miette_fixes.specs.rules.Applying.{applied, edits_error};
ghost use Rattle.miette_fixes.specs.rules.Edits.{Replacement};

use crate::applicability::Applicability;
use crate::apply::apply_edits;
use crate::edit::Edit;
use crate::error::FixError;
use serde::{Deserialize, Serialize};
use std::alloc::{AllocError, Global};
use std::marker::Model;

/// A fix: a message, edits of a source in the order given, and how certain it is. A builder method that returns
/// `AllocError` drops the fix.
#[derive(Debug, Drop, Serialize, Deserialize)]
pub struct Fix {
    message: String,
    #[serde(default)]
    applicability: Applicability,
    edits: Vec<Edit>,
}

impl Model for Fix {
    ghost use Rattle.std.specs.Prelude.{string_bytes};
    ghost use Rattle.miette_fixes.specs.rules.Edits.{FixModel};

    ghost Value = { FixModel };

    ghost view = { λ it. record {
      message = string_bytes it.message;
      applicability = it.applicability;
      edits = it.edits.items;
    } };
}

impl Fix {
    /// Creates a fix with a copy of a message. It has no edits, and its applicability is `Unspecified`.
    ///
    /// # Errors
    /// `AllocError` if allocation fails.
    pub fn new(alloc: Global, message: &str) -> Result<Self, AllocError>
        ensures { IfOk result (λ it. it ≡ record {
          message = message.now;
          applicability = Unspecified;
          edits = [];
        }) }
    {
        Ok(Fix {
            message: String::from_str(alloc, message)?,
            applicability: Applicability::Unspecified,
            edits: Vec::new(alloc),
        })
    }

    /// Appends an edit.
    ///
    /// # Errors
    /// `AllocError` if allocation fails. The value is then dropped.
    pub fn with_edit(mut self, edit: Edit) -> Result<Self, AllocError>
        ensures { IfOk result (λ it. it ≡ record self { edits = self.edits ++ edit ∷ [] }) }
    {
        self.edits.push(edit)?;
        Ok(self)
    }

    /// Appends the edits of an iterator.
    ///
    /// # Errors
    /// `AllocError` if allocation fails. The value is then dropped.
    pub fn with_edits_from<I: IntoIterator<Item = Edit>>(
        mut self,
        alloc: Global,
        edits: I,
    ) -> Result<Self, AllocError>
        requires { (it : I.IntoIter) → I.into_iter_gives edits it →
            I.IntoIter.can_next it × IsFinite (I.IntoIter.remaining it) }
        ensures { IfOk result (λ it. (from : I.IntoIter) × (given : List Replacement)
            × I.into_iter_gives edits from × Drains I.IntoIter.next_gives from given
            × (it ≡ record self { edits = self.edits ++ given })) }
    {
        let mut more = Vec::from_iter(alloc, edits)?;
        self.edits.append(&mut more)?;
        Ok(self)
    }

    /// Sets how certain the fix is. Does not allocate.
    pub fn with_applicability(self, applicability: Applicability) -> Self
        ensures { result ≡ record self { applicability = applicability } }
    {
        Fix {
            applicability,
            ..self
        }
    }

    /// Returns the message.
    pub fn message(&self) -> &str
        ensures { result.now ≡ self.now.message }
    {
        self.message.as_str()
    }

    /// Returns how certain the fix is.
    pub fn applicability(&self) -> Applicability
        ensures { result ≡ self.now.applicability }
    {
        self.applicability
    }

    /// Returns the edits, in the order in which they were added.
    pub fn edits(&self) -> &[Edit]
        ensures { result.now ≡ self.now.edits }
    {
        self.edits.as_slice()
    }

    /// Applies the fix to a source and returns the new text.
    ///
    /// # Errors
    /// `OutOfBounds` if an edit ends after the end of the source, else `Overlap` if two edits overlap; both say which
    /// edits. `Memory` if allocation fails.
    pub fn apply(&self, alloc: Global, source: &[u8]) -> Result<Vec<u8>, FixError>
        ensures ok { IfOk result (λ text.
            (edits_error (length source.now) self.now.edits ≡ None) × (text.items ≡ applied source.now self.now.edits)) }
        ensures refused { IfErr result (λ e. e ≢ Memory → edits_error (length source.now) self.now.edits ≡ Some e) }
    {
        apply_edits(alloc, source, self.edits())
    }
}
