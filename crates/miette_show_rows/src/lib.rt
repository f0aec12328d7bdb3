//! Reads the input of `show` line by line, looks up the files that it names, and applies rustc's machine-applicable
//! fixes.
#![tactic(auto)]

pub mod applicable_fixes;
pub mod current_spans;
pub mod fix_files;
pub mod fixes_by_file;
pub mod folder;
pub mod folder_store;
pub mod loader;
mod lookup;
pub mod mask_controls;
mod names;
mod outdated_files;
pub mod parts;
mod rewrite;
pub mod row_fixes;
pub mod row_reader;
pub mod selected_fixes;
mod skipped_fixes;
pub mod store;
pub mod streams;
pub mod value;
pub mod verdict;
