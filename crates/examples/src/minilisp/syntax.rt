//! Finds the syntax errors of a Lisp text.

use std::alloc::{AllocError, Global};

/// A syntax error with its offset, in bytes.
#[derive(Clone, Copy)]
pub enum Slip {
    /// A list that is never closed.
    Unclosed(usize),
    /// A quoted text that is never closed.
    UnclosedText(usize),
    /// A `)` without an open list.
    Stray(usize),
    /// A list without items.
    Empty(usize),
}

/// The state of the reader.
#[derive(Clone, Copy)]
enum State {
    Code,
    /// In a text that starts at this offset.
    Text(usize),
    /// After a backslash in a text that starts at this offset.
    Escape(usize),
    Comment,
}

/// The errors so far, and the offsets of the open lists.
#[derive(Drop)]
struct Reader {
    slips: Vec<Slip>,
    open: Vec<usize>,
}

/// Returns the errors of a text. Unclosed lists come last, the outermost first.
///
/// # Errors
/// `AllocError` if allocation fails.
pub fn slips_of(alloc: Global, text: &str) -> Result<Vec<Slip>, AllocError> {
    let mut reader = Reader {
        slips: Vec::new(alloc),
        open: Vec::new(alloc),
    };
    let mut state = State::Code;
    for (at, c) in text.char_indices() {
        state = reader.step(state, at, c)?;
    }
    if let State::Text(start) | State::Escape(start) = state {
        reader.slips.push(Slip::UnclosedText(start))?;
    }
    for start in reader.open.iter() {
        reader.slips.push(Slip::Unclosed(*start))?;
    }
    Ok(reader.slips)
}

impl Reader {
    fn step(&mut self, state: State, at: usize, c: char) -> Result<State, AllocError> {
        match (state, c) {
            (State::Comment, '\n') => Ok(State::Code),
            (State::Comment, _) => Ok(State::Comment),
            (State::Escape(start), _) => Ok(State::Text(start)),
            (State::Text(start), '\\') => Ok(State::Escape(start)),
            (State::Text(_), '"') => Ok(State::Code),
            (State::Text(start), _) => Ok(State::Text(start)),
            (State::Code, _) => self.code(at, c),
        }
    }

    fn code(&mut self, at: usize, c: char) -> Result<State, AllocError> {
        match c {
            '(' => self.open.push(at)?,
            ')' => self.close(at)?,
            '"' => return Ok(State::Text(at)),
            ';' => return Ok(State::Comment),
            _ => {}
        }
        Ok(State::Code)
    }

    fn close(&mut self, at: usize) -> Result<(), AllocError> {
        match self.open.pop() {
            Some(start) if at == start.saturating_add(1) => self.slips.push(Slip::Empty(start))?,
            Some(_) => {}
            None => self.slips.push(Slip::Stray(at))?,
        }
        Ok(())
    }
}
