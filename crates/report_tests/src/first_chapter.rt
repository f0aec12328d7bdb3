//! The report that docs/GUIDE.md tests, with the calls that it shows. `cases/gallery.jsonl`
//! starts with the same report by `job`, graphical and narrated.

use crate::renderings::draws;
use miette::diagnostic::MietteDiagnostic;
use miette::handlers::GraphicalReportHandler;
use miette::protocol::LabeledSpan;
use miette::report::{OwnedSource, Report};
use miette::theme::GraphicalTheme;

const ONE_LABEL: &str =
    "  × oops!\n   ╭─[bad_file.rs:2:3]\n 1 │ source\n 2 │   text\n   ·   ──┬─\n   \
    ·     ╰── This bit here\n 3 │     here\n   ╰────\n  \
    help: try doing it better next time?\n";

#[test]
fn one_label(rt: HostRuntime) {
    let alloc = rt.alloc();
    let label = LabeledSpan::at(alloc, (9, 4), "This bit here").expect(&rt, "memory");
    let diagnostic = MietteDiagnostic::new(alloc, "oops!")
        .expect(&rt, "memory")
        .with_help(alloc, "try doing it better next time?")
        .expect(&rt, "memory")
        .with_label(alloc, label)
        .expect(&rt, "memory");
    let bytes = b"source\n  text\n    here"
        .to_vec(alloc)
        .expect(&rt, "memory");
    let source = OwnedSource::named(alloc, "bad_file.rs", None, bytes).expect(&rt, "memory");
    let report: Report = Report::new(diagnostic).with_owned_source(source);
    let theme = GraphicalTheme::unicode_nocolor(alloc).expect(&rt, "memory");
    let handler = GraphicalReportHandler::new_themed(theme).with_width(80);
    draws(&rt, alloc, handler, &report, ONE_LABEL);
}
