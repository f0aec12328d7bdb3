//! JSON reports over sources that fail. `cases/worked.jsonl` has more of them, by `job`.
ghost use Rattle.std.specs.Prelude.{None, false};

use crate::comparing::same;
use miette::diagnostic::MietteDiagnostic;
use miette::error::MietteError;
use miette::handlers::{JSONReportHandler, ReportHandler};
use miette::protocol::{LabeledSpan, SourceSpan};
use miette::report::Report;
use miette::source::{MietteSpanContents, NamedSource, SourceCode};
use std::io;
use std::io::ErrorKind;

/// A source that reads at most four bytes at once.
#[derive(Drop)]
struct FailingSource {
    bytes: &'static [u8],
}

impl SourceCode for FailingSource {
    ghost source = { λ it. record { bytes = it.bytes.now; name = None; language = None; always_reads = false } };

    fn read_span(
        &self,
        span: &SourceSpan,
        before: usize,
        after: usize,
    ) -> Result<MietteSpanContents<'_>, MietteError> {
        if span.len() > 4 {
            return Err(MietteError::IoError(io::Error::from(ErrorKind::Other)));
        }
        self.bytes.read_span(span, before, after)
    }
}

/// The length of a label, and the JSON report of the message `m` with that label over a source
/// named `f`.
static TEXTS: [(usize, &str); 2] = [
    (
        2,
        "{\"message\": \"m\",\"severity\": \"error\",\"causes\": [],\"filename\": \"f\",\
        \"labels\": [{\"span\": {\"offset\": 0,\"length\": 2}}],\"related\": []}",
    ),
    (
        5,
        "{\"message\": \"m\",\"severity\": \"error\",\"causes\": [],\"filename\": \"\",\
        \"labels\": [{\"span\": {\"offset\": 0,\"length\": 5}}],\"related\": []}",
    ),
];

#[test]
fn a_source_that_stops_gives_no_name(rt: HostRuntime) {
    let alloc = rt.alloc();
    for (length, wanted) in &TEXTS {
        let source = NamedSource::new(alloc, "f", FailingSource { bytes: b"abcdef" });
        let diagnostic = MietteDiagnostic::new(alloc, "m")
            .expect(&rt, "memory")
            .with_label(alloc, LabeledSpan::new(None, 0, *length))
            .expect(&rt, "memory");
        let report: Report<MietteDiagnostic, NamedSource<FailingSource>> = Report::built(
            diagnostic,
        ).with_source_code(source.expect(&rt, "memory"));
        let mut text = String::new(alloc);
        let written = JSONReportHandler::new().debug(&report, &mut text);
        same(&rt, (written, text.as_str()), (Ok(()), *wanted));
    }
}
