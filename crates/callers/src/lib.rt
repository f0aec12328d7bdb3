//! Callers of the library with contracts of their own, written like programs. The pages for
//! callers start with them. A module is named after its crate, and `printing` is on the page of
//! `miette`.
//!
//! `handlers` shows what the contract of a graphical handler says about one report. `load` shows
//! an error on its way up. The output of `handlers` and `fix_pictures` is in
//! `cases/worked.jsonl`.
#![tactic(auto)]

pub mod brief;
pub mod colours;
pub mod descriptions;
pub mod fix_pictures;
pub mod fix_rows;
pub mod fixes;
pub mod handlers;
pub mod highlight;
pub mod layout;
pub mod line_breaks;
pub mod load;
pub mod narrated;
pub mod pictures;
pub mod positions;
pub mod printing;
pub mod protocol;
pub mod several;
pub mod text;
pub mod tree;
