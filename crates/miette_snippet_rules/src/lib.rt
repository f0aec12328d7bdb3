//! The rules of snippets: the rows that are drawn for source lines and labels, the options of the layout, and the
//! printing of a line's text.
#![tactic(auto)]

mod cells;
mod cut_text;
pub mod dots;
pub mod label_columns;
pub mod line_bytes;
pub mod line_part;
pub mod line_printing;
pub mod line_scan;
pub mod line_underlines;
pub mod options;
mod plain_cut;
mod tabs;
pub mod underlines;
