//! Syntax highlighters: the trait, a highlighter made of rules with rules for three languages, and a helper that styles
//! characters one by one.
#![tactic(auto)]

pub mod characters;
pub mod highlight;
mod highlighter;
mod languages;
pub mod patterns;
mod rule;
mod tokens;
mod words;
