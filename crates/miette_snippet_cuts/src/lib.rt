//! Cutting long lines around their labels, and moving the underlines along.
#![tactic(auto)]

mod counting;
pub mod cutting;
mod line_part;
mod line_split;
mod nearness;
mod plain_parts;
mod reach;
mod row_columns;
mod window;
