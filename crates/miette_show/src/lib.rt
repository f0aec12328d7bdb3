//! The work of the program `show`: prints the messages of compilers and linters as graphical reports, over any reader,
//! writers and files.
#![tactic(auto)]

pub mod log;
mod message;
pub mod parts;
pub mod request;
pub mod rows;
pub mod show;
pub mod terminal;
mod unplaced_reports;
pub mod value_kinds;
pub mod words;

pub use miette_show_rows::{fix_files, folder, folder_store, loader, row_reader, store, verdict};
