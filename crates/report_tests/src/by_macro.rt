//! What the macros make.
//!
//! The program `calls` prints the texts and parts of each macro's report. `cases/examples.jsonl`
//! has missing files, and reports with the other keys. The contract of `wrap_err_with` says that
//! a lazy text is made only if it is needed.

use crate::comparing::same;
use miette_tree::ensure;
use miette_tree::report::Result;
use std::alloc::Global;

/// Returns half of an even number. For an odd one, the report has a code and a primary label, and
/// a message with all kinds of arguments.
fn half(alloc: Global, n: u32) -> Result<u32> {
    ensure!(
        in alloc;
        n % 2 == 0,
        code = "odd::number",
        primary = ((1, 2), "here"),
        "{n} / {} leaves {rest}",
        2,
        rest = n % 2
    );
    Ok(n / 2)
}

#[test]
fn what_is_ensured(rt: HostRuntime) {
    let alloc = rt.alloc();
    same(&rt, half(alloc, 8).expect(&rt, "an even number"), 4);
    let report = half(alloc, 3).expect_err(&rt, "an odd number");
    let label = match report.labels() {
        Some([label]) => Some((label.primary(), label.label())),
        _ => None,
    };
    let parts = (report.message(), report.code(), label);
    let wanted = (
        "3 / 2 leaves 1",
        Some("odd::number"),
        Some((true, Some("here"))),
    );
    same(&rt, parts, wanted);
}
