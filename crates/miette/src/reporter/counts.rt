//! Counts the reports of a session by severity.

ghost use Rattle.std.specs.Prelude.{◌≡◌};
ghost use Rattle.miette.specs.rules.Counting.{no_counts, plural, with_one};

use miette_protocol::protocol::Severity;
use std::fmt;

/// Number of reports of each severity, at most `usize::MAX`. Related reports and causes aren't counted: they are parts
/// of a report.
#[derive(Clone, Copy, Debug, PartialEq, Eq)]
pub struct Counts {
    /// Error reports, and reports without a severity.
    pub errors: usize,
    /// Warnings.
    pub warnings: usize,
    /// Advice.
    pub advices: usize,
}

impl Counts {
    /// All counts are zero.
    pub fn zero() -> Counts
        ensures { result ≡ no_counts }
    {
        Counts {
            errors: 0,
            warnings: 0,
            advices: 0,
        }
    }

    /// Adds one report of this severity.
    pub fn with_one(self, severity: Option<Severity>) -> Counts
        ensures { result ≡ with_one self severity }
    {
        let Counts {
            errors,
            warnings,
            advices,
        } = self;
        match severity {
            Some(Severity::Advice) => Counts {
                errors,
                warnings,
                advices: advices.saturating_add(1),
            },
            Some(Severity::Warning) => Counts {
                errors,
                warnings: warnings.saturating_add(1),
                advices,
            },
            Some(Severity::Error) | None => Counts {
                errors: errors.saturating_add(1),
                warnings,
                advices,
            },
        }
    }
}

/// Prints like `2 errors, 1 warning`. Advice is printed if there is any.
impl fmt::Display for Counts {
    ghost use Rattle.std.specs.Prelude.{Some};
    ghost use Rattle.miette.specs.rules.Counting.{counts_text};

    ghost output = { λ it. Some (counts_text it) };

    fn fmt<W: fmt::Write>(&self, f: &mut fmt::Formatter<W>) -> fmt::Result {
        let Counts {
            errors,
            warnings,
            advices,
        } = *self;
        let (first, second) = (plural(errors), plural(warnings));
        if advices == 0 {
            write!(f, "{errors} error{first}, {warnings} warning{second}")
        } else {
            let third = plural(advices);
            write!(
                f,
                "{errors} error{first}, {warnings} warning{second}, {advices} advice{third}"
            )
        }
    }
}

// Plural ending of the word after `count`.
fn plural(count: usize) -> &'static str
    ensures { result.now ≡ plural count }
{
    if count == 1 { "" } else { "s" }
}
