//! The calls of the program by name, in the order of their rows.

use crate::attached::{
    PartCall as Part, WITH_ALL_SNIPPETS, WITH_FIX, WITH_FIXES, WITH_OWNED_SNIPPETS, WITH_SNIPPETS,
};
use crate::diagnostics::DiagnosticCall as Diagnostic;
use crate::examples::HandlerKind;
use crate::fixes::FixCall as Fix;
use crate::handlers::HandlerCall as Handler;
use crate::highlighters::HighlighterCall as Highlighter;
use crate::labels::LabelCall as Label;
use crate::outputs::OutputCall as Output;
use crate::printing::PrintingCall as Printing;
use crate::reports::{IN_FRONT, NO_ITEM, NOTHING, ReportCall as Report, SEVEN, WrapMethod};
use crate::runs::RunsCall as Runs;
use crate::sources::SourceCall as Source;
use crate::texts::TextCall as Text;
use crate::themes::ThemeCall as Theme;

/// A call by its module.
#[derive(Clone, Copy)]
pub enum Call {
    Label(Label),
    Diagnostic(Diagnostic),
    Source(Source),
    Theme(Theme),
    Highlighter(Highlighter),
    Report(Report),
    Part(Part),
    Text(Text),
    Runs(Runs),
    Output(Output),
    Handler(Handler),
    Fix(Fix),
    Printing(Printing),
}

/// The number of tables.
pub const TABLES: usize = 12;

/// Returns a table of calls. Several tables are proved faster than one long one.
pub fn table(number: usize) -> &'static [(&'static str, Call)] {
    match number {
        0 => &DIAGNOSTICS,
        1 => &SOURCES,
        2 => &THEMES,
        3 => &HIGHLIGHTERS,
        4 => &REPORTS,
        5 => &PARTS,
        6 => &TEXTS,
        7 => &RUNS,
        8 => &OUTPUTS,
        9 => &HANDLERS,
        10 => &FIXES,
        _ => &PRINTING,
    }
}

static DIAGNOSTICS: [(&str, Call); 14] = [
    ("LabeledSpan::at", Call::Label(Label::At)),
    ("LabeledSpan::at_offset", Call::Label(Label::AtOffset)),
    ("LabeledSpan::clone", Call::Label(Label::Clones)),
    ("MietteDiagnostic::new", Call::Diagnostic(Diagnostic::New)),
    (
        "MietteDiagnostic::copied",
        Call::Diagnostic(Diagnostic::Copied),
    ),
    (
        "MietteDiagnostic::with_code",
        Call::Diagnostic(Diagnostic::WithCode),
    ),
    (
        "MietteDiagnostic::with_help",
        Call::Diagnostic(Diagnostic::WithHelp),
    ),
    (
        "MietteDiagnostic::with_url",
        Call::Diagnostic(Diagnostic::WithUrl),
    ),
    (
        "MietteDiagnostic::with_label",
        Call::Diagnostic(Diagnostic::WithLabel),
    ),
    (
        "MietteDiagnostic::with_labels_from",
        Call::Diagnostic(Diagnostic::WithLabelsFrom),
    ),
    (
        "MietteDiagnostic::and_label",
        Call::Diagnostic(Diagnostic::AndLabel),
    ),
    (
        "MietteDiagnostic::and_labels",
        Call::Diagnostic(Diagnostic::AndLabels),
    ),
    (
        "MietteDiagnostic::clone",
        Call::Diagnostic(Diagnostic::Clones),
    ),
    ("diagnostic!", Call::Diagnostic(Diagnostic::Macro)),
];

static SOURCES: [(&str, Call); 8] = [
    ("IndexedSource::new", Call::Source(Source::Indexed)),
    ("NamedSource::new", Call::Source(Source::Named)),
    (
        "NamedSource::with_language",
        Call::Source(Source::NamedWithLanguage),
    ),
    ("NamedSource::clone", Call::Source(Source::NamedClones)),
    ("OwnedSource::new", Call::Source(Source::Owned)),
    (
        "OwnedSource::unindexed",
        Call::Source(Source::OwnedUnindexed),
    ),
    ("OwnedSource::named", Call::Source(Source::OwnedNamed)),
    (
        "OwnedSource::named_unindexed",
        Call::Source(Source::OwnedNamedUnindexed),
    ),
];

static THEMES: [(&str, Call); 16] = [
    (
        "ThemeCharacters::unicode",
        Call::Theme(Theme::UnicodeCharacters),
    ),
    (
        "ThemeCharacters::emoji",
        Call::Theme(Theme::EmojiCharacters),
    ),
    (
        "ThemeCharacters::ascii",
        Call::Theme(Theme::AsciiCharacters),
    ),
    (
        "ThemeCharacters::clone",
        Call::Theme(Theme::CharactersClones),
    ),
    ("ThemeStyles::rgb", Call::Theme(Theme::RgbStyles)),
    ("ThemeStyles::ansi", Call::Theme(Theme::AnsiStyles)),
    ("ThemeStyles::none", Call::Theme(Theme::NoStyles)),
    ("ThemeStyles::clone", Call::Theme(Theme::StylesClones)),
    ("GraphicalTheme::ascii", Call::Theme(Theme::Ascii)),
    ("GraphicalTheme::unicode", Call::Theme(Theme::Unicode)),
    (
        "GraphicalTheme::unicode_nocolor",
        Call::Theme(Theme::UnicodeWithoutColour),
    ),
    ("GraphicalTheme::none", Call::Theme(Theme::NoTheme)),
    (
        "GraphicalTheme::for_terminal",
        Call::Theme(Theme::ForTerminal),
    ),
    ("GraphicalTheme::clone", Call::Theme(Theme::Clones)),
    (
        "Highlighter::highlight_line for BlankHighlighter",
        Call::Theme(Theme::BlankLine),
    ),
    (
        "Highlighter::highlight_line for Box",
        Call::Theme(Theme::BoxedLine),
    ),
];

static HIGHLIGHTERS: [(&str, Call); 11] = [
    ("style_each_char", Call::Highlighter(Highlighter::ByChar)),
    (
        "Delimiters::new",
        Call::Highlighter(Highlighter::NewDelimiters),
    ),
    (
        "Delimiters::clone",
        Call::Highlighter(Highlighter::DelimitersClones),
    ),
    ("Pattern::words", Call::Highlighter(Highlighter::Words)),
    (
        "Pattern::clone",
        Call::Highlighter(Highlighter::PatternClones),
    ),
    ("Rule::clone", Call::Highlighter(Highlighter::RuleClones)),
    (
        "PatternHighlighter::json",
        Call::Highlighter(Highlighter::Json),
    ),
    (
        "PatternHighlighter::toml",
        Call::Highlighter(Highlighter::Toml),
    ),
    (
        "PatternHighlighter::rust",
        Call::Highlighter(Highlighter::Rust),
    ),
    (
        "PatternHighlighter::clone",
        Call::Highlighter(Highlighter::Clones),
    ),
    (
        "Highlighter::highlight_line for PatternHighlighter",
        Call::Highlighter(Highlighter::Line),
    ),
];

static REPORTS: [(&str, Call); 18] = [
    ("Report::copied", Call::Report(Report::Copied)),
    ("Report::msg", Call::Report(Report::Msg)),
    ("Report::from_err", Call::Report(Report::FromErr)),
    (
        "Report::with_diagnostic_cause",
        Call::Report(Report::WithDiagnosticCause),
    ),
    ("Report::wrap_err", Call::Report(Report::WrapErr)),
    ("Report::context", Call::Report(Report::Context)),
    (
        "WrapErr::wrap_err for Option",
        Call::Report(Report::InFrontOfNone(WrapMethod::WrapErr, NOTHING)),
    ),
    (
        "WrapErr::context for Option",
        Call::Report(Report::InFrontOfNone(WrapMethod::Context, NOTHING)),
    ),
    (
        "WrapErr::wrap_err_with for Option",
        Call::Report(Report::InFrontOfNone(WrapMethod::WrapErrWith, NO_ITEM)),
    ),
    (
        "WrapErr::with_context for Option",
        Call::Report(Report::InFrontOfNone(WrapMethod::WithContext, NO_ITEM)),
    ),
    (
        "WrapErr::wrap_err for Result",
        Call::Report(Report::InFrontOfErr(WrapMethod::WrapErr, IN_FRONT)),
    ),
    (
        "WrapErr::context for Result",
        Call::Report(Report::InFrontOfErr(WrapMethod::Context, IN_FRONT)),
    ),
    (
        "WrapErr::wrap_err_with for Result",
        Call::Report(Report::InFrontOfErr(WrapMethod::WrapErrWith, SEVEN)),
    ),
    (
        "WrapErr::with_context for Result",
        Call::Report(Report::InFrontOfErr(WrapMethod::WithContext, SEVEN)),
    ),
    (
        "IntoDiagnostic::into_diagnostic for Result",
        Call::Report(Report::IntoDiagnostic),
    ),
    ("miette!", Call::Report(Report::Miette)),
    ("bail!", Call::Report(Report::Bail)),
    ("ensure!", Call::Report(Report::Ensure)),
];

static PARTS: [(&str, Call); 6] = [
    ("Report::with_snippets", Call::Part(WITH_SNIPPETS)),
    (
        "Report::with_owned_snippets",
        Call::Part(WITH_OWNED_SNIPPETS),
    ),
    ("Report::with_all_snippets", Call::Part(WITH_ALL_SNIPPETS)),
    ("Report::with_fix", Call::Part(WITH_FIX)),
    ("Report::with_fixes", Call::Part(WITH_FIXES)),
    ("miette! for a report with fixes", Call::Part(Part::Macro)),
];

static TEXTS: [(&str, Call); 10] = [
    ("fill", Call::Text(Text::Fill)),
    ("wrap", Call::Text(Text::Wrap)),
    ("push_if_fits", Call::Text(Text::PushFitting)),
    ("trim_leading_feeds", Call::Text(Text::WithoutLeading)),
    ("trim_trailing_feeds", Call::Text(Text::WithoutTrailing)),
    ("read", Call::Text(Text::Read)),
    ("parse_text", Call::Text(Text::ReadText)),
    ("print", Call::Text(Text::Print)),
    ("printed_columns", Call::Text(Text::ColumnsOf)),
    ("append_all_or_nothing", Call::Text(Text::AppendWhole)),
];

static RUNS: [(&str, Call); 11] = [
    ("Runs::new", Call::Runs(Runs::New)),
    ("Runs::push", Call::Runs(Runs::Push)),
    ("Runs::push_chars", Call::Runs(Runs::PushChars)),
    ("Runs::push_str", Call::Runs(Runs::PushStr)),
    ("Runs::begin", Call::Runs(Runs::Begin)),
    ("Runs::end", Call::Runs(Runs::End)),
    ("Runs::push_run", Call::Runs(Runs::PushRun)),
    ("Runs::push_run_chars", Call::Runs(Runs::PushRunChars)),
    ("Runs::push_link", Call::Runs(Runs::PushLink)),
    ("Runs::push_link_end", Call::Runs(Runs::PushLinkEnd)),
    ("Runs::append", Call::Runs(Runs::Append)),
];

static OUTPUTS: [(&str, Call); 13] = [
    ("Output::for_text", Call::Output(Output::ForText)),
    ("Output::for_runs", Call::Output(Output::ForRuns)),
    ("Output::reserve", Call::Output(Output::Reserve)),
    ("Output::push", Call::Output(Output::Push)),
    ("Output::push_chars", Call::Output(Output::PushChars)),
    ("Output::push_str", Call::Output(Output::PushStr)),
    ("Output::begin", Call::Output(Output::Begin)),
    ("Output::end", Call::Output(Output::End)),
    ("Output::push_run", Call::Output(Output::PushRun)),
    ("Output::push_link", Call::Output(Output::PushLink)),
    ("Output::push_link_end", Call::Output(Output::PushLinkEnd)),
    ("Output::into_text", Call::Output(Output::IntoText)),
    ("Output::into_runs", Call::Output(Output::IntoRuns)),
];

static HANDLERS: [(&str, Call); 18] = [
    (
        "GraphicalReportHandler::new",
        Call::Handler(Handler::NewGraphical),
    ),
    (
        "GraphicalReportHandler::render_report",
        Call::Handler(Handler::RenderGraphical),
    ),
    (
        "ReportHandler::debug for GraphicalReportHandler",
        Call::Handler(Handler::Debug(HandlerKind::Graphical)),
    ),
    (
        "NarratableReportHandler::render_report",
        Call::Handler(Handler::ReportNarrated),
    ),
    (
        "NarratableReportHandler::render",
        Call::Handler(Handler::RenderNarrated),
    ),
    (
        "NarratableReportHandler::clone",
        Call::Handler(Handler::NarratedClones),
    ),
    (
        "ReportHandler::debug for NarratableReportHandler",
        Call::Handler(Handler::Debug(HandlerKind::Narrated)),
    ),
    (
        "BriefReportHandler::render_report",
        Call::Handler(Handler::ReportBrief),
    ),
    (
        "BriefReportHandler::render",
        Call::Handler(Handler::RenderBrief),
    ),
    (
        "ReportHandler::debug for BriefReportHandler",
        Call::Handler(Handler::Debug(HandlerKind::Brief)),
    ),
    (
        "JSONReportHandler::render_report",
        Call::Handler(Handler::ReportJson),
    ),
    (
        "ReportHandler::debug for JSONReportHandler",
        Call::Handler(Handler::Debug(HandlerKind::Json)),
    ),
    (
        "DebugReportHandler::render_report",
        Call::Handler(Handler::ReportDebug),
    ),
    (
        "ReportHandler::debug for DebugReportHandler",
        Call::Handler(Handler::Debug(HandlerKind::Debug)),
    ),
    ("ReportHandler::display", Call::Handler(Handler::Display)),
    ("MietteHandlerOpts::build", Call::Handler(Handler::Build)),
    ("MietteHandler::new", Call::Handler(Handler::NewChosen)),
    (
        "ReportHandler::debug for MietteHandler",
        Call::Handler(Handler::DebugChosen),
    ),
];

static FIXES: [(&str, Call); 7] = [
    ("Edit::delete", Call::Fix(Fix::Delete)),
    ("Edit::clone", Call::Fix(Fix::EditClones)),
    ("Fix::new", Call::Fix(Fix::New)),
    ("Fix::with_edit", Call::Fix(Fix::WithEdit)),
    ("Fix::with_edits_from", Call::Fix(Fix::WithEditsFrom)),
    ("Fix::apply", Call::Fix(Fix::Apply)),
    ("apply_all", Call::Fix(Fix::ApplyAll)),
];

static PRINTING: [(&str, Call); 9] = [
    ("Variables::read", Call::Printing(Printing::Read)),
    ("detect_terminal", Call::Printing(Printing::Detect)),
    ("write_report", Call::Printing(Printing::Write)),
    ("print_to_writer", Call::Printing(Printing::To)),
    ("print_with_outputs", Call::Printing(Printing::On)),
    ("print_report", Call::Printing(Printing::Print)),
    ("print_report_with", Call::Printing(Printing::PrintWith)),
    ("eprint_report", Call::Printing(Printing::Eprint)),
    ("eprint_report_with", Call::Printing(Printing::EprintWith)),
];
