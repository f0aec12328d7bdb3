//! Clone, comparison, hash and debug output of named sources.

ghost use Rattle.std.specs.Prelude.{◌≡◌, ◌↔◌, ◌++◌, IfOk, IsTrue};
ghost use Rattle.std.specs.Hash as fed;
ghost use Rattle.std.specs.Ordering.{on, then_cmp, nat_cmp};
ghost use Rattle.std.specs.Cmp.Lexicographic.{slice_cmp};
ghost use Rattle.std.specs.Option.{option_cmp};
ghost use Rattle.miette_protocol.specs.views.NamedSources.{inner_of, source_name, given_language};

use crate::named_source::NamedSource;
use std::alloc::AllocError;
use std::fmt;
use std::hash::Hash;

impl<S: Clone> NamedSource<S> {
    /// Clones the inner source, the name and the language. The clone equals the original if clones of the inner source
    /// do.
    ///
    /// # Errors
    /// `AllocError` if the inner source fails to clone or allocation fails.
    pub fn clone(&self) -> Result<Self, AllocError>
        ensures inner { IfOk result (λ it. S.is_clone (inner_of self.now) (inner_of it)) }
        ensures equal { ((s t : S) → S.is_clone s t → t ≡ s)
            → IfOk result (λ it. inner_of it ≡ inner_of self.now) }
        ensures name { IfOk result (λ it. source_name it ≡ source_name self.now) }
        ensures language { IfOk result (λ it. given_language it ≡ given_language self.now) }
    {
        let source = self.source.clone()?;
        let name = self.name.clone()?;
        let language = match &self.language {
            Some(language) => Some(language.clone()?),
            None => None,
        };
        Ok(NamedSource {
            source,
            name,
            language,
        })
    }
}

/// Named sources are equal if their inner sources, names and languages are.
pub fn named_source_equality_law<S: PartialEq>()
    ensures { (a b : NamedSource S) → IsTrue (⟦<NamedSource<S> as PartialEq>⟧.eq a b)
        ↔ (IsTrue (S.eq (inner_of a) (inner_of b))
        × ((source_name a ≡ source_name b) × (given_language a ≡ given_language b))) }
{}

/// Named sources are ordered by inner source, then name, then language; no language comes first.
pub fn named_source_order_law<S: Ord>()
    ensures { (a b : NamedSource S) → ⟦<NamedSource<S> as Ord>⟧.cmp a b
        ≡ then_cmp (on inner_of S.cmp) (then_cmp (on source_name (slice_cmp nat_cmp))
        (on given_language (option_cmp (slice_cmp nat_cmp)))) a b }
{}

/// Named sources hash the inner source, the name and the language, in this order.
pub fn named_source_hash_law<S: Hash>()
    ensures { (a : NamedSource S) → ⟦<NamedSource<S> as Hash>⟧.hash_input a
        ≡ S.hash_input (inner_of a) ++ fed.str (source_name a) ++ fed.option fed.str (given_language a) }
{}

/// Prints the name and the language, and `"<redacted>"` for the source.
impl<S> fmt::Debug for NamedSource<S> {
    ghost use Rattle.miette_protocol.specs.rules.DebugForms.{named_form};

    ghost debug_output = { λ it. named_form (source_name it) (given_language it) };

    fn fmt<W: fmt::Write>(&self, f: &mut fmt::Formatter<W>) -> fmt::Result {
        if f.alternate() {
            return f
                .debug_struct("NamedSource")
                .field("name", &self.name)
                .field("source", &"<redacted>")
                .field("language", &self.language)
                .finish();
        }
        write!(
            f,
            "NamedSource {{ name: {:?}, source: \"<redacted>\", language: {:?} }}",
            self.name, self.language
        )
    }
}
