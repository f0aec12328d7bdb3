//! The rows of a fix.

ghost use Rattle.std.specs.Prelude.{◌≡◌, ◌≢◌, ◌∷◌, [], IsTrue, length, nat_lt, option_copied, None, true, false, OnOk};
ghost use Rattle.std.specs.List.{list_all};
ghost use Rattle.miette_protocol.specs.rules.Reading.{Source};
ghost use Rattle.miette_style.specs.views.Printouts.{◌⊕◌};
ghost use Rattle.miette_style.specs.views.Tokens.{rows_tokens, styled_tokens};
ghost use Rattle.miette_snippet_rules.specs.views.SnippetSettings.{settings_of};
ghost use Rattle.miette_fixes.specs.declared.error.FixError.TheVariants.{Memory};
ghost use Rattle.miette_fixes.specs.rules.Applying.{by_offset, edits_error};
ghost use Rattle.miette_fixes.specs.views.Ordered.{edits_of};
ghost use Rattle.miette_fix_rows.specs.rules.DiffFrames.{frames_of};
ghost use Rattle.miette_fix_rows.specs.rules.DiffRows.{error_name, fix_rows, refused_fix_row, rows_of_frames};
ghost use Rattle.miette_fix_rows.specs.rules.Hunks.{diff};

use crate::edit_spans::{deleted_spans, inserted_spans};
use crate::frames::{FixDrawing, push_frames};
use crate::hunks::hunks_of;
use crate::line_starts::PushResult;
use miette_fix_rows::changes::changes;
use miette_fixes::apply::check_edits;
use miette_fixes::fix::{Edit, Fix, FixError};
use miette_protocol::source::SourceCode;
use miette_snippet_rules::options::SnippetSettings;
use miette_style::canvas::Canvas;
use miette_style::page::{PLAIN, RowPrinter};
use miette_style::style::Style;
use std::alloc::AllocError;

/// A source over which fixes are drawn.
#[derive_where(Clone, Copy)]
pub struct WholeSource<'a, S> {
    /// All its bytes.
    pub bytes: &'a [u8],
    /// Its name, if it has one.
    pub name: Option<&'a str>,
    /// The source itself, which is asked for line numbers. If it has a line index, no bytes before a change are read.
    pub asked: &'a S,
}

// Prints a run of ASCII characters.
fn push_ascii<O: Canvas>(page: &mut RowPrinter<O>, style: Style, text: &str) -> PushResult
    requires { IsTrue (list_all (λ b. nat_lt b 128) text.now) }
    ensures { OnOk result (page.new ≡ page.old ⊕ styled_tokens style text.now) }
{
    page.begin(style)?;
    page.push_str(text)
}

/// Prints the row that replaces the frames of a fix that can't be applied: "  [Failed to apply fix: Overlap]".
/// `AllocError` if allocation fails.
pub fn push_refused_fix<O: Canvas>(
    page: &mut RowPrinter<O>,
    settings: &SnippetSettings<'_>,
    name: &str,
) -> Result<(), AllocError>
    requires { IsTrue (list_all (λ b. nat_lt b 128) name.now) }
    ensures { OnOk result (page.new ≡ page.old
        ⊕ rows_tokens (refused_fix_row (settings_of settings.now) name.now ∷ [])) }
{
    let styles = &settings.theme.styles;
    push_ascii(page, PLAIN, "  [")?;
    push_ascii(page, styles.error, "Failed to apply fix")?;
    push_ascii(page, PLAIN, ": ")?;
    push_ascii(page, styles.warning, name)?;
    push_ascii(page, PLAIN, "]")?;
    page.end_row()
}

/// Prints the row that replaces the frames of a fix if the source can't be read. Prints nothing if the fix has no
/// edits. `AllocError` if allocation fails.
pub fn push_unread_fix<O: Canvas>(
    page: &mut RowPrinter<O>,
    settings: &SnippetSettings<'_>,
    fix: &Fix,
) -> Result<(), AllocError>
    ensures { OnOk result ((whole : Source) → page.new ≡ page.old
        ⊕ rows_tokens (fix_rows (settings_of settings.now) whole true fix.now.edits)) }
{
    if fix.edits().is_empty() {
        return Ok(());
    }
    push_refused_fix(page, settings, "IoError")
}

// Prints the row of a fix that can't be applied.
fn push_refusal<O: Canvas>(
    page: &mut RowPrinter<O>,
    settings: &SnippetSettings<'_>,
    error: FixError,
) -> PushResult
    ensures { OnOk result ((error ≢ Memory) × (page.new ≡ page.old
        ⊕ rows_tokens (refused_fix_row (settings_of settings.now) (error_name error) ∷ []))) }
{
    match error {
        FixError::OutOfBounds { .. } => push_refused_fix(page, settings, "OutOfBounds"),
        FixError::Overlap { .. } => push_refused_fix(page, settings, "Overlap"),
        FixError::Memory => Err(AllocError),
    }
}

// Prints the frames of a fix that can be applied. `edits` are its edits in order.
fn push_ordered_fix<O: Canvas, S: SourceCode>(
    page: &mut RowPrinter<O>,
    settings: &SnippetSettings<'_>,
    source: &WholeSource<'_, S>,
    fix: &Fix,
    edits: &[&Edit],
) -> PushResult
    requires asked { (S.source source.now.asked.now).bytes ≡ source.now.bytes.now }
    requires unrefused { edits_error (length source.now.bytes.now) fix.now.edits ≡ None }
    requires order { edits_of edits.now ≡ by_offset fix.now.edits }
    ensures { OnOk result ((whole : Source) → whole.bytes ≡ source.now.bytes.now →
        whole.name ≡ option_copied source.now.name →
        page.new ≡ page.old ⊕ rows_tokens (rows_of_frames (settings_of settings.now) whole (by_offset fix.now.edits)
        (frames_of (settings_of settings.now).layout.context_lines (diff whole.bytes fix.now.edits)))) }
{
    let alloc = settings.alloc;
    let made = match changes(alloc, source.bytes, fix) {
        Ok(made) => made,
        Err(_) => return Err(AllocError),
    };
    let deleted = deleted_spans(alloc, edits)?;
    let inserted = inserted_spans(alloc, edits)?;
    let (hunks, after) = hunks_of(alloc, source.bytes, &made)?;
    let drawing = FixDrawing {
        settings: *settings,
        name: source.name,
        source: source.bytes,
        deleted: &deleted,
        inserted: &inserted,
    };
    push_frames(page, &drawing, source.asked, &hunks, after)
}

/// Prints the rows below a fix's message: its frames, or why it can't be applied. Prints nothing if the fix has no
/// edits or changes nothing. If the source can't be read again, lines are counted. `AllocError` if allocation fails or
/// a number exceeds `usize::MAX`.
pub fn push_fix_rows<O: Canvas, S: SourceCode>(
    page: &mut RowPrinter<O>,
    settings: &SnippetSettings<'_>,
    source: &WholeSource<'_, S>,
    fix: &Fix,
) -> Result<(), AllocError>
    requires asked { (S.source source.now.asked.now).bytes ≡ source.now.bytes.now }
    ensures { OnOk result ((whole : Source) → whole.bytes ≡ source.now.bytes.now →
        whole.name ≡ option_copied source.now.name → page.new ≡ page.old
        ⊕ rows_tokens (fix_rows (settings_of settings.now) whole false fix.now.edits)) }
{
    if fix.edits().is_empty() {
        return Ok(());
    }
    match check_edits(settings.alloc, source.bytes.len(), fix.edits()) {
        Ok(edits) => push_ordered_fix(page, settings, source, fix, &edits),
        Err(error) => push_refusal(page, settings, error),
    }
}
