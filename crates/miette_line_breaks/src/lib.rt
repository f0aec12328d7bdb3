//! Line break opportunities of a text, by UAX #14 (Unicode Line Breaking Algorithm) for Unicode 15.0.
#![tactic(auto)]

mod ascii;
pub mod ascii_state;
pub mod breaks;
mod characters;
mod classes;
mod opportunity;
mod remaining;
mod state;
