//! Writes the messages of a report's causes.

ghost use Rattle.std.specs.Prelude.{◌∷◌, map, string_bytes};
ghost use Rattle.std.specs.Fmt.{WritesOnOk};
ghost use Rattle.miette_tree.specs.rules.Display.{after_colons};
ghost use Rattle.miette_tree.specs.rules.Tree.{cause_of, causes_of};
ghost use Rattle.miette_tree.specs.views.Report.{tree_of};

use crate::chain::cause_texts;
use crate::tree::{Cause, Report};
use miette_protocol::protocol::Diagnostic;
use miette_protocol::source::SourceCode;
use std::fmt;

/// Writes the causes of a report, each after `: `.
pub(crate) fn write_causes<D: Diagnostic, S: SourceCode, W: fmt::Write>(
    f: &mut fmt::Formatter<W>,
    report: &Report<D, S>,
) -> fmt::Result
    ensures { WritesOnOk W.write_str_gives f.old result
        (after_colons (causes_of (cause_of (tree_of D.meaning S.source report.now)))) f.new }
{
    let mut at = report;
    while let Cause::Diagnostic(next) = at.cause() {
        write_after_colon(f, next.message())?;
        at = next;
    }
    write_each_after_colon(f, cause_texts(at))
}

/// Writes a text after `: `.
fn write_after_colon<W: fmt::Write>(f: &mut fmt::Formatter<W>, text: &str) -> fmt::Result
    ensures { WritesOnOk W.write_str_gives f.old result (58 ∷ 32 ∷ text.now) f.new }
{
    f.write_str(": ")?;
    f.write_str(text)
}

/// Writes texts, each after `: `.
fn write_each_after_colon<W: fmt::Write>(f: &mut fmt::Formatter<W>, texts: &[String]) -> fmt::Result
    ensures { WritesOnOk W.write_str_gives f.old result (after_colons (map string_bytes texts.now)) f.new }
{
    for text in texts {
        write_after_colon(f, text.as_str())?;
    }
    Ok(())
}
