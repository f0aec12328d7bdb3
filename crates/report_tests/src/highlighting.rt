//! Reports whose source lines a highlighter styles.

use crate::renderings::{draws, over_ab};
use miette::handlers::GraphicalReportHandler;
use miette::highlight::Highlighter;
use miette::source::MietteSpanContents;
use miette::style::{Color, Style};
use miette::theme::GraphicalTheme;
use std::alloc::{AllocError, Global};

/// Highlights the first byte of a line in red.
#[derive(Drop)]
struct FirstRed;

impl Highlighter for FirstRed {
    fn highlight_line(
        &mut self,
        alloc: Global,
        line: &str,
    ) -> Result<Vec<(usize, Style)>, AllocError> {
        if line.is_char_boundary(1) && 1 <= line.len() {
            let red = Style::new().color(Color::Red);
            Ok(vec![in alloc; (1, red), (line.len() - 1, Style::new())]?)
        } else {
            Ok(vec![in alloc; (line.len(), Style::new())]?)
        }
    }

    fn restart(&mut self, _contents: &MietteSpanContents<'_>) {}
}

#[test]
fn pieces_are_styled(rt: HostRuntime) {
    let alloc = rt.alloc();
    let report = over_ab(alloc, 0).expect(&rt, "memory");
    let theme = GraphicalTheme::unicode_nocolor(alloc).expect(&rt, "memory");
    let highlighter: Box<dyn Highlighter> = Box::new(alloc, FirstRed).expect(&rt, "memory");
    let handler = GraphicalReportHandler::themed(theme).with_syntax_highlighting(highlighter);
    let styled = "  × m\n   ╭────\n 1 │ \u{1b}[31ma\u{1b}[0mb\n   · ─\n   ╰────\n";
    draws(&rt, alloc, handler, &report, styled);
}
