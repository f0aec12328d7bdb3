//! Everything around the text of source lines: frames, gutters, underlines, connectors and label texts.
#![tactic(auto)]

pub mod connectors;
pub mod end_texts;
pub mod frame;
pub mod gutters;
mod label_text;
pub mod line_context;
pub mod underlines;
