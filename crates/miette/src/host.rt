//! The bounds that a program's functions need of the handle that `main` gets, under one name.

use crate::terminal::Streams;
use std::env::Env;
use std::fs::Files;
use std::io::{Input, Print};

/// The handle of a program that reads files and input, has arguments and variables, and prints. Functions of a program
/// with reports take `&impl Host`.
pub trait Host: Env + Files + Print + Input + AllocGlobal + Streams {}

impl<R: Env + Files + Print + Input + AllocGlobal + Streams> Host for R {}
