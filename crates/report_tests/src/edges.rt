//! Custom themes: a bar that is a space, before line feeds at the end of an inner report, and no
//! style for labels.

use crate::renderings::{draws, over_ab};
use miette::handlers::GraphicalReportHandler;
use miette::report::Report;
use miette::theme::GraphicalTheme;

/// After the message of the related report stand a line feed, the colours of a bar without spaces, and two line feeds.
const NESTED: &str =
    "  \u{1B}[31m×\u{1B}[0m top\n\u{1B}[31m  ╰─▶ \u{1B}[0m  \u{1B}[31m×\u{1B}[0m r\u{1B}[31m\u{1B}[0m\n";

/// Colours, with a space where a bar goes down; a related report under an arrow, and no wrapping.
#[test]
fn line_feeds_around_colours_at_the_end(rt: HostRuntime) {
    let alloc = rt.alloc();
    let mut related = Vec::new(alloc);
    let inner = Report::msg(alloc, "r\n\n").expect(&rt, "memory");
    related.push(inner).expect(&rt, "memory");
    let report: Report = Report::msg(alloc, "top")
        .expect(&rt, "memory")
        .with_related(related);
    let mut theme = GraphicalTheme::unicode(alloc).expect(&rt, "memory");
    let bar = ' ';
    theme.characters.vbar = bar;
    let handler = GraphicalReportHandler::themed(theme)
        .with_show_related_as_nested(true)
        .with_wrap_lines(false);
    draws(&rt, alloc, handler, &report, NESTED);
}

/// The underline of a label without a style.
const UNSTYLED: &str =
    "  \u{1b}[31m×\u{1b}[0m m\n   ╭────\n \u{1b}[2m1\u{1b}[0m │ ab\n   · ─\n   ╰────\n";

#[test]
fn no_style_for_labels(rt: HostRuntime) {
    let alloc = rt.alloc();
    let report = over_ab(alloc, 0).expect(&rt, "memory");
    let mut theme = GraphicalTheme::unicode(alloc).expect(&rt, "memory");
    theme.styles.highlights = Vec::new(alloc);
    let handler = GraphicalReportHandler::themed(theme);
    draws(&rt, alloc, handler, &report, UNSTYLED);
}
