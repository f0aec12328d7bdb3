//! Printing fixes: the diff of a source in frames, or why a fix can't be applied.
#![tactic(auto)]

mod ascii_lines;
mod changed_line;
mod changed_rows;
pub mod counting;
mod cursor;
pub mod diff_position;
pub mod edit_pieces;
mod edit_spans;
mod edit_underline_row;
pub mod fix;
mod frame_lines;
mod frames;
mod hunks;
pub mod kept_row;
mod line_ends;
mod line_starts;
mod segments;
pub mod spans;
pub mod texts;
pub mod visible_text;
