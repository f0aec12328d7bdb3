//! The output of `{:?}` and `{:#?}` for values with texts outside ASCII, and of a system error in
//! a source. Contracts say what the other errors print.

use crate::comparing::gives;
use miette_protocol::error::MietteError;
use miette_protocol::protocol::LabeledSpan;
use miette_protocol::source::NamedSource;
use std::io;
use std::io::ErrorKind;

/// The forms of a label and a source, each in one line and in several, and of the error.
const FORMS: &str =
    "LabeledSpan { label: Some(\"é\\t\\\"\"), span: SourceSpan { offset: SourceOffset(9), length: 4 }, \
    primary: false, context_lines: Some(2) }\n\
    LabeledSpan {\n    label: Some(\n        \"é\\t\\\"\",\n    ),\n    span: SourceSpan {\n        \
    offset: SourceOffset(\n            9,\n        ),\n        length: 4,\n    },\n    \
    primary: false,\n    context_lines: Some(\n        2,\n    ),\n}\n\
    NamedSource { name: \"é.rs\", source: \"<redacted>\", language: None }\n\
    NamedSource {\n    name: \"é.rs\",\n    source: \"<redacted>\",\n    language: None,\n}\n\
    entity not found";

#[test]
fn forms_in_a_row_and_in_rows(rt: HostRuntime) {
    let alloc = rt.alloc();
    let label = LabeledSpan::at(alloc, (9, 4), "é\t\"")
        .expect(&rt, "memory")
        .with_context_lines(2);
    let source = NamedSource::new(alloc, "é.rs", "x").expect(&rt, "memory");
    let missing = MietteError::from(io::Error::from(ErrorKind::NotFound));
    let found = format!(in alloc; "{label:?}\n{label:#?}\n{source:?}\n{source:#?}\n{missing}");
    gives(&rt, found, FORMS);
}
