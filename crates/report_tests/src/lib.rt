//! Tests of reports and handlers as callers write them: drops, themes, highlighters, and sources
//! that fail. The expected texts were written by hand from the rules.
//!
//! Other files have tests of values: locations, reads of sources, JSON, printing, highlighters
//! and wrapped texts. What a clause says literally isn't tested again. Examples are the parts of
//! spans, labels, diagnostics, errors, styles and themes, and how they are compared, hashed and
//! cloned (`miette_protocol::protocol::comparison_laws` and others).
//!
//! `cases/` has the tests that a description can express, the output of `calls`, and programs on
//! failing streams.
//!
//! Tests are proved too. If allocation fails, they end by `expect`, because `?` would drop values
//! on the way out. Expected rows are statics, which cost no proof.
#![tactic(auto)]

#[cfg(test)]
mod by_hand;
#[cfg(test)]
mod by_macro;
#[cfg(test)]
mod comparing;
#[cfg(test)]
mod controls;
#[cfg(test)]
mod debug_forms;
#[cfg(test)]
mod drops;
#[cfg(test)]
mod edges;
#[cfg(test)]
mod first_chapter;
#[cfg(test)]
mod highlighting;
#[cfg(test)]
mod json;
#[cfg(test)]
mod patterns;
#[cfg(test)]
mod positions;
#[cfg(test)]
mod printing;
#[cfg(test)]
mod reads;
#[cfg(test)]
mod renderings;
#[cfg(test)]
mod spans;
#[cfg(test)]
mod values_as_json;
#[cfg(test)]
mod wrapping;
