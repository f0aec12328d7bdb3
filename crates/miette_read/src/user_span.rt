//! Finds the user's span for a span in a macro: the call site in the user's own files.

ghost use Rattle.std.specs.Prelude.{◌≡◌, [], nat_eq, option_map};
ghost use Rattle.std.specs.List.{ends_with, starts_with};
ghost use Rattle.std.specs.Option.{option_copied};
ghost use Rattle.serde_json.specs.View.{view};
ghost use Rattle.miette_read.specs.rules.Rustc.{before_end, build_of, call_of, ends_with_parts, ends_part, first_from};
ghost use Rattle.miette_read.specs.rules.Rustc.{first_call_span, is_absolute, is_moved, is_packaged, is_relative};
ghost use Rattle.miette_read.specs.rules.Rustc.{has_file};
ghost use Rattle.miette_read.specs.rules.Rustc.{lies_from, is_in_package, package_folder, user_span};
ghost use Rattle.miette_read.specs.views.Builds.{built};
ghost use Rattle.miette_read.specs.views.Spans.{is_in_scope};

use crate::files::Files;
use crate::members::{member_object, member_text};
use crate::spans::{expansion_of, file_name};
use serde_json::Value;

// How deep macro calls are followed. JSON that can be read nests no deeper.
const CALLS: usize = 64;

/// The files that can be found, and the folder of the compiled package if it is known.
#[derive(Drop)]
pub(crate) struct Build<'f, 'v, F: Files> {
    pub(crate) files: &'f F,
    pub(crate) folder: Option<&'v [u8]>,
}

pub(crate) fn begins_with(bytes: &[u8], front: &[u8]) -> bool
    ensures { result ≡ starts_with nat_eq bytes.now front.now }
{
    bytes.starts_with(front)
}

pub(crate) fn ends_with(bytes: &[u8], end: &[u8]) -> bool
    ensures { result ≡ ends_with nat_eq bytes.now end.now }
{
    bytes.ends_with(end)
}

/// Returns the text before the given end.
fn before_end<'t>(text: &'t [u8], end: &[u8]) -> Option<&'t [u8]>
    ensures { option_copied result ≡ before_end end.now text.now }
{
    if ends_with(text, end) {
        Some(&text[..text.len().saturating_sub(end.len())])
    } else {
        None
    }
}

/// Returns the package folder of a line of cargo, from `manifest_path`.
fn package_folder(row: &Value) -> Option<&[u8]>
    ensures { option_copied result ≡ package_folder (view row.now) }
{
    let manifest = member_text(row, "manifest_path")?;
    before_end(manifest.as_bytes(), "/Cargo.toml".as_bytes())
}

/// Returns the build of a line of cargo or rustc.
pub(crate) fn build_of<'f, 'v, F: Files>(files: &'f F, row: &'v Value) -> Build<'f, 'v, F>
    ensures { built F.found result ≡ build_of (F.found files.now) (view row.now) }
{
    Build {
        files,
        folder: package_folder(row),
    }
}

/// Returns whether `front` is empty or ends with a slash.
fn ends_part(front: &[u8]) -> bool
    ensures { result ≡ ends_part front.now }
{
    front.is_empty() || ends_with(front, "/".as_bytes())
}

/// Returns whether the folder's path ends with these components. There is at least one.
fn ends_with_parts(folder: &[u8], parts: &[u8]) -> bool
    ensures { result ≡ ends_with_parts folder.now parts.now }
{
    if parts.is_empty() || !ends_with(folder, parts) {
        return false;
    }
    ends_part(&folder[..folder.len().saturating_sub(parts.len())])
}

/// Returns whether the folder's path ends with the first components of a file name.
fn lies_below(folder: &[u8], name: &[u8]) -> bool
    ensures { result ≡ lies_from folder.now [] name.now }
{
    for (at, byte) in name.iter().enumerate() {
        if *byte == b'/' && ends_with_parts(folder, &name[..at]) {
            return true;
        }
    }
    false
}

/// Which files to accept: of the package, of the workspace, or any.
#[derive(Clone, Copy)]
enum SearchScope {
    Package,
    Workspace,
    Any,
}

impl<'f, 'v, F: Files> Build<'f, 'v, F> {
    /// Returns whether a file is in the package.
    fn holds(&self, name: &str) -> bool
        ensures { result ≡ is_in_package (built F.found self.now).folder name.now }
    {
        match self.folder {
            Some(folder) => lies_below(folder, name.as_bytes()),
            None => false,
        }
    }

    /// Returns whether a span's file is found.
    fn has(&self, span: &Value) -> bool
        ensures { result ≡ has_file (built F.found self.now) (view span.now) }
    {
        self.files.find(file_name(span)).is_some()
    }

    /// Returns whether a span's file is one of the wanted ones.
    fn is_in_scope(&self, wanted: SearchScope, span: &Value) -> bool
        ensures { result ≡ is_in_scope (built F.found self.now) wanted (view span.now) }
    {
        match wanted {
            SearchScope::Package => self.holds(file_name(span)) && self.has(span),
            SearchScope::Workspace => !is_absolute(file_name(span)) && self.has(span),
            SearchScope::Any => self.has(span),
        }
    }

    /// Returns the first span in a wanted file: the span itself or a macro call around it.
    fn first_call_span<'s>(&self, wanted: SearchScope, span: &'s Value) -> Option<&'s Value>
        ensures { option_map (λ v. view v.now) result
            ≡ first_call_span (is_in_scope (built F.found self.now) wanted) (view span.now) }
    {
        first_from(self, wanted, span, CALLS)
    }

    /// Returns the span to annotate: in the package, else in the workspace, else in any file that is found.
    pub(crate) fn user_span<'s>(&self, span: &'s Value) -> &'s Value
        ensures { view result.now ≡ user_span (built F.found self.now) (view span.now) }
    {
        if let Some(found) = self.first_call_span(SearchScope::Package, span) {
            return found;
        }
        if let Some(found) = self.first_call_span(SearchScope::Workspace, span) {
            return found;
        }
        match self.first_call_span(SearchScope::Any, span) {
            Some(found) => found,
            None => span,
        }
    }

    /// Returns whether the annotation moves to another file although the span's own file is found.
    pub(crate) fn is_moved(&self, span: &Value) -> bool
        ensures { result ≡ is_moved (built F.found self.now) (view span.now) }
    {
        file_name(span) != file_name(self.user_span(span)) && self.has(span)
    }
}

/// Returns whether a path is absolute.
fn is_absolute(name: &str) -> bool
    ensures { result ≡ is_absolute name.now }
{
    begins_with(name.as_bytes(), "/".as_bytes())
}

/// Returns the call site of the macro that contains the span.
fn call_of(span: &Value) -> Option<&Value>
    ensures { option_map (λ v. view v.now) result ≡ call_of (view span.now) }
{
    member_object(expansion_of(span)?, "span")
}

/// Returns the first span in a wanted file, among the span and the macro calls around it. It looks at `left` spans at
/// most.
#[tactic(auto, unfolding(crate::specs::rules::Rustc::first_from))]
fn first_from<'s, F: Files>(
    build: &Build<'_, '_, F>,
    wanted: SearchScope,
    span: &'s Value,
    left: usize,
) -> Option<&'s Value>
    ensures { option_map (λ v. view v.now) result
        ≡ first_from (is_in_scope (built F.found build.now) wanted) left (view span.now) }
{
    if left == 0 {
        return None;
    }
    if build.is_in_scope(wanted, span) {
        return Some(span);
    }
    first_from(build, wanted, call_of(span)?, left - 1)
}
