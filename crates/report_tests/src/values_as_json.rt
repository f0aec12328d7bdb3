//! Serializing values as JSON: the debug form of what is read, and the text that is written.

use crate::comparing::same;
use miette_fixes::fix::Fix;
use miette_protocol::diagnostic::MietteDiagnostic;
use miette_protocol::protocol::{LabeledSpan, Severity, SourceOffset, SourceSpan};
use serde::{Deserialize, Serialize};
use std::alloc::Global;
use std::fmt::Debug;
use std::process::Abort;

/// A JSON text, the debug form of its value, and the text that the value is written as.
type Row = (&'static str, &'static str, &'static str);

/// Asserts that the values of the first texts have these debug forms, and are written as the last
/// texts.
fn are_read_and_written<'de, T: Serialize + Deserialize<'de> + Debug + Drop>(
    rt: &impl Abort,
    alloc: Global,
    rows: &[(&'de str, &str, &str)],
) {
    for (text, form, written) in rows {
        let value = serde_json::from_str::<T>(alloc, *text).expect(rt, "a value");
        let shown = format!(in alloc; "{value:?}").expect(rt, "memory");
        let json = serde_json::to_string(alloc, &value).expect(rt, "a text");
        same(rt, (shown.as_str(), json.as_str()), (*form, *written));
    }
}

static SEVERITIES: [Row; 1] = [("\"Advice\"", "Advice", "\"Advice\"")];

static OFFSETS: [Row; 1] = [("0", "SourceOffset(0)", "0")];

static SPANS: [Row; 1] = [(
    r#"{"offset":3,"length":4}"#,
    "SourceSpan { offset: SourceOffset(3), length: 4 }",
    r#"{"offset":3,"length":4}"#,
)];

/// A label without context lines of its own.
const PLAIN: &str =
    "LabeledSpan { label: None, span: SourceSpan { offset: SourceOffset(1), length: 2 }, primary: false, \
    context_lines: None }";

/// The text that it is written as.
const PLAIN_LABEL: &str = r#"{"span":{"offset":1,"length":2},"primary":false}"#;

const WITH_TWO: &str = r#"{"span":{"offset":1,"length":2},"primary":false,"context_lines":2}"#;

const WITH_MOST: &str =
    r#"{"span":{"offset":1,"length":2},"primary":false,"context_lines":18446744073709551615}"#;

static LABELS: [Row; 6] = [
    (PLAIN_LABEL, PLAIN, PLAIN_LABEL),
    (
        r#"{"label":null,"span":{"offset":1,"length":2},"primary":false}"#,
        PLAIN,
        PLAIN_LABEL,
    ),
    (
        r#"{"span":{"offset":1,"length":2},"primary":false,"context_lines":0}"#,
        PLAIN,
        PLAIN_LABEL,
    ),
    (
        r#"{"span":{"offset":1,"length":2},"primary":false,"context_lines":null}"#,
        PLAIN,
        PLAIN_LABEL,
    ),
    (
        WITH_TWO,
        "LabeledSpan { label: None, span: SourceSpan { offset: SourceOffset(1), length: 2 }, primary: false, \
        context_lines: Some(2) }",
        WITH_TWO,
    ),
    (
        WITH_MOST,
        "LabeledSpan { label: None, span: SourceSpan { offset: SourceOffset(1), length: 2 }, primary: false, \
        context_lines: Some(18446744073709551615) }",
        WITH_MOST,
    ),
];

/// With invalid context lines.
static NO_LABELS: [&str; 6] = [
    r#"{"span":{"offset":1,"length":2},"primary":false,"context_lines":-1}"#,
    r#"{"span":{"offset":1,"length":2},"primary":false,"context_lines":1.5}"#,
    r#"{"span":{"offset":1,"length":2},"primary":false,"context_lines":"2"}"#,
    r#"{"span":{"offset":1,"length":2},"primary":false,"context_lines":true}"#,
    r#"{"span":{"offset":1,"length":2},"primary":false,"context_lines":[]}"#,
    r#"{"span":{"offset":1,"length":2},"primary":false,"context_lines":18446744073709551616}"#,
];

/// A message alone.
const ALONE: &str =
    "MietteDiagnostic { message: \"m\", code: None, severity: None, help: None, url: None, labels: None }";

/// The text that it is written as.
const MESSAGE: &str = r#"{"message":"m"}"#;

/// A diagnostic with all parts.
const FULL: &str =
    "{\"message\":\"m\",\"code\":\"c\",\"severity\":\"Warning\",\"help\":\"h\",\"url\":\"u\",\
    \"labels\":[{\"label\":\"t\",\"span\":{\"offset\":1,\"length\":2},\"primary\":false}]}";

static DIAGNOSTICS: [Row; 3] = [
    (MESSAGE, ALONE, MESSAGE),
    (
        r#"{"message":"m","code":null,"severity":null,"help":null,"url":null,"labels":null}"#,
        ALONE,
        MESSAGE,
    ),
    (
        FULL,
        "MietteDiagnostic { message: \"m\", code: Some(\"c\"), severity: Some(Warning), help: Some(\"h\"), \
        url: Some(\"u\"), labels: Some([LabeledSpan { label: Some(\"t\"), \
        span: SourceSpan { offset: SourceOffset(1), length: 2 }, primary: false, context_lines: None }]) }",
        FULL,
    ),
];

/// A fix with one edit.
const COLON: &str = "{\"message\":\"m\",\"applicability\":\"machine-applicable\",\
    \"edits\":[{\"span\":{\"offset\":9,\"length\":0},\"text\":\":\"}]}";

/// The last fix has no applicability.
static FIXES: [Row; 2] = [
    (
        COLON,
        "Fix { message: \"m\", applicability: MachineApplicable, edits: [Edit { \
        span: SourceSpan { offset: SourceOffset(9), length: 0 }, text: \":\" }] }",
        COLON,
    ),
    (
        r#"{"message":"m","edits":[]}"#,
        "Fix { message: \"m\", applicability: Unspecified, edits: [] }",
        r#"{"message":"m","applicability":"unspecified","edits":[]}"#,
    ),
];

#[test]
fn values_are_read_and_written(rt: HostRuntime) {
    let alloc = rt.alloc();
    are_read_and_written::<Severity>(&rt, alloc, &SEVERITIES);
    are_read_and_written::<SourceOffset>(&rt, alloc, &OFFSETS);
    are_read_and_written::<SourceSpan>(&rt, alloc, &SPANS);
    are_read_and_written::<LabeledSpan>(&rt, alloc, &LABELS);
    are_read_and_written::<MietteDiagnostic>(&rt, alloc, &DIAGNOSTICS);
    are_read_and_written::<Fix>(&rt, alloc, &FIXES);
}

#[test]
fn no_labels_are_read(rt: HostRuntime) {
    for text in &NO_LABELS {
        let read = serde_json::from_str::<LabeledSpan>(rt.alloc(), text);
        let _error = read.expect_err(&rt, "no label");
    }
}
