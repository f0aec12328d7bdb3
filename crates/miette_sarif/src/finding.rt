//! The findings of a log: all that results and rules need from a report.

use miette_fixes::fix::Applicability;
use miette_positions::position::Stretch;

/// Identifies a source: its name (empty if it has none), and the number of sources read before it.
#[derive(Clone, Copy)]
pub struct SourceId<'a> {
    pub name: &'a str,
    pub number: usize,
}

/// A region of a source, and its text if the log shows it.
#[derive(Clone, Copy)]
pub struct SarifRegion<'a> {
    pub stretch: Stretch,
    pub snippet: Option<&'a str>,
}

/// A location in a source. It has no region if the label is refused.
#[derive(Clone, Copy)]
pub struct PhysicalLocation<'a> {
    pub source: SourceId<'a>,
    pub area: Option<SarifRegion<'a>>,
}

/// A location with a message. The message is empty if there is none.
#[derive(Clone, Copy)]
pub struct SarifLocation<'a> {
    pub place: Option<PhysicalLocation<'a>>,
    pub text: &'a str,
}

/// Text that replaces a region of a source.
#[derive(Drop)]
pub struct Replacement {
    pub deleted: Stretch,
    pub text: String,
}

/// A fix that can be applied.
#[derive(Drop)]
pub struct Proposal<'a> {
    pub message: &'a str,
    pub applicability: Applicability,
    pub source: SourceId<'a>,
    pub replacements: Vec<Replacement>,
}

/// The texts of a report: everything except locations and fixes.
#[derive(Drop)]
pub struct ReportTexts<'a> {
    pub code: &'a str,
    pub level: &'static str,
    pub message: &'a str,
    pub causes: Vec<&'a str>,
    pub help: Option<&'a str>,
    pub url: Option<&'a str>,
}

/// A finding: what the log has for one report.
#[derive(Drop)]
pub struct Finding<'a> {
    pub report_texts: ReportTexts<'a>,
    pub primary: Option<SarifLocation<'a>>,
    pub locations: Vec<SarifLocation<'a>>,
    pub fixes: Vec<Proposal<'a>>,
    /// Messages of the fixes that can't be applied.
    pub unapplied: Vec<&'a str>,
}
