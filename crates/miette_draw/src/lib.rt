//! The program `draw`: draws one label on a part of a file.
#![tactic(auto)]

pub mod draw;
pub mod drawing;
