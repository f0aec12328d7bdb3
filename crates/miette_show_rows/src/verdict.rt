//! Kinds of lines, and the verdict on all of them.

ghost use Rattle.std.specs.Prelude.{◌≡◌, ◌||◌, false};
ghost use Rattle.miette_show_rows.specs.rules.Notes.{kind_is_error, kind_is_read, kind_is_unread};
ghost use Rattle.miette_show_rows.specs.rules.Statuses.{status_of};

/// What failed.
#[derive(Clone, Copy, Debug, PartialEq, Eq)]
pub enum Failure {
    /// The build, as cargo's last line says.
    Build,
    /// The tool, as its log says.
    Tool,
}

/// The kind of a line.
#[derive(Clone, Copy, Debug, PartialEq, Eq)]
pub enum RowKind {
    /// It doesn't start like a message. It is copied to the error stream.
    Passed,
    /// It starts like a message, but can't be read. It is copied to the error stream after a note.
    Unread,
    /// It has messages. The flag says whether one of them is an error.
    Messages(bool),
    /// It reports a failure, which counts as an error. It may have messages too.
    Failed(Failure),
}

impl RowKind {
    /// Returns whether it can't be read.
    pub fn is_unread(self) -> bool
        ensures { result ≡ kind_is_unread self }
    {
        match self {
            RowKind::Unread => true,
            RowKind::Passed | RowKind::Messages(_) | RowKind::Failed(_) => false,
        }
    }

    /// Returns whether it has an error.
    pub fn is_error(self) -> bool
        ensures { result ≡ kind_is_error self }
    {
        match self {
            RowKind::Messages(error) => error,
            RowKind::Failed(_) => true,
            RowKind::Passed | RowKind::Unread => false,
        }
    }

    /// Returns whether it is a value of the format that is read.
    pub fn is_read(self) -> bool
        ensures { result ≡ kind_is_read self }
    {
        match self {
            RowKind::Messages(_) | RowKind::Failed(_) => true,
            RowKind::Passed | RowKind::Unread => false,
        }
    }
}

/// The verdict on all lines.
#[derive(Clone, Copy, Debug, PartialEq, Eq)]
pub struct Verdict {
    /// Whether a line can't be read, or the tool's output is missing.
    pub unread: bool,
    /// Whether a message is an error.
    pub error: bool,
}

impl Verdict {
    /// The verdict on no lines.
    pub fn none() -> Verdict
        ensures { result ≡ record { unread = false; error = false } }
    {
        Verdict {
            unread: false,
            error: false,
        }
    }

    /// Adds a line.
    pub fn with(self, kind: RowKind) -> Verdict
        ensures { result ≡ record {
          unread = self.unread || kind_is_unread kind;
          error = self.error
              || kind_is_error kind;
        } }
    {
        Verdict {
            unread: self.unread || kind.is_unread(),
            error: self.error || kind.is_error(),
        }
    }

    /// Adds whether the tool's output is missing.
    pub fn with_missing(self, missing: bool) -> Verdict
        ensures { result ≡ record { unread = self.unread || missing; error = self.error } }
    {
        Verdict {
            unread: self.unread || missing,
            error: self.error,
        }
    }

    /// Returns the exit code: 3 if a line can't be read, else 1 if a message is an error, else 0.
    pub fn status(self) -> u8
        ensures { result ≡ status_of self }
    {
        if self.unread {
            3
        } else if self.error {
            1
        } else {
            0
        }
    }
}
