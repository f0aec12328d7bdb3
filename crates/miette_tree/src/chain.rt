//! Iterates over the messages of a report and its causes, from either end.
ghost use Rattle.std.specs.Prelude.{◌≡◌, ◌<◌, ◌≤◌, ◌+◌, ◌^◌, [], ◌∷◌, ◌++◌, length, map, take, string_bytes, Some};
ghost use Rattle.std.specs.Prelude.{None};
ghost use Rattle.std.specs.List.{last_or};
ghost use Rattle.std.specs.Option.{option_map};
ghost use Rattle.std.specs.Iterator.{YieldsFirstBy, YieldsLastBy, item_count};
ghost use Rattle.miette_tree.specs.rules.Tree.{chain_of, cause_of};
ghost use Rattle.miette_tree.specs.rules.Chain.{spine, spine_below, spine_from, texts_below};
ghost use Rattle.miette_tree.specs.views.Report.{tree_of};

use crate::tree::{Cause, Report};
use miette_protocol::protocol::Diagnostic;
use miette_protocol::source::SourceCode;
use std::alloc::AllocError;

/// An iterator over the messages of at most `count` reports, starting with `at`, and then over the texts.
#[derive(Drop)]
pub struct Chain<'a, D = Box<dyn Diagnostic>, S = Box<dyn SourceCode>> {
    at: Option<&'a Report<D, S>>,
    count: usize,
    texts: &'a [String],
    ghost small: { count + length texts.now < 2 ^ 64 },
}

/// Returns the report that is the diagnostic cause, if there is one.
fn cause_report<'a, D: Diagnostic, S: SourceCode>(
    report: &'a Report<D, S>,
) -> Option<&'a Report<D, S>>
    ensures { spine_from (option_map (λ r. tree_of D.meaning S.source r.now) result)
        ≡ spine_below (cause_of (tree_of D.meaning S.source report.now)) }
{
    match report.cause() {
        Cause::Diagnostic(next) => Some(next),
        _ => None,
    }
}

/// Returns the last message of at most `count` reports, and how many messages precede it.
fn last_within<'a, D: Diagnostic, S: SourceCode>(
    report: &'a Report<D, S>,
    count: usize,
) -> (&'a str, usize)
    requires { 0 < count }
    ensures parts { take count (spine (tree_of D.meaning S.source report.now))
        ≡ take result.1 (spine (tree_of D.meaning S.source report.now)) ++ result.0.now ∷ [] }
    ensures fewer { result.1 < count }
{
    let mut at = report;
    for before in 1..count {
        match cause_report(at) {
            Some(next) => at = next,
            None => return (at.message(), before - 1),
        }
    }
    (at.message(), count - 1)
}

/// Counts the reports from this one on, up to `count`.
fn count_within<D: Diagnostic, S: SourceCode>(report: &Report<D, S>, count: usize) -> usize
    ensures is { result ≡ length (take count (spine (tree_of D.meaning S.source report.now))) }
    ensures most { result ≤ count }
{
    let mut at = report;
    for before in 0..count {
        match cause_report(at) {
            Some(next) => at = next,
            None => return before + 1,
        }
    }
    count
}

/// Takes items from the front.
impl<'a, D: Diagnostic, S: SourceCode> Iterator for Chain<'a, D, S> {
    ghost use Rattle.miette_tree.specs.views.RemainingChain.{remaining_chain};

    type Item = &'a str;

    ghost next_gives = { YieldsFirstBy (λ x. x.now) (remaining_chain D.meaning S.source) };

    ghost remaining = { item_count (remaining_chain D.meaning S.source) };

    fn next(&mut self) -> Option<&'a str> {
        if self.count > 0
            && let Some(report) = self.at
        {
            self.count -= 1;
            self.at = cause_report(report);
            return Some(report.message());
        }
        match self.texts.split_first() {
            Some((first, rest)) => {
                self.texts = rest;
                Some(first.as_str())
            }
            None => None,
        }
    }
}

/// Takes items from the back.
impl<'a, D: Diagnostic, S: SourceCode> DoubleEndedIterator for Chain<'a, D, S> {
    ghost use Rattle.miette_tree.specs.views.RemainingChain.{remaining_chain};

    ghost next_back_gives = { YieldsLastBy (λ x. x.now) (remaining_chain D.meaning S.source) };

    fn next_back(&mut self) -> Option<&'a str> {
        if let Some((last, rest)) = self.texts.split_last() {
            self.texts = rest;
            return Some(last.as_str());
        }
        if self.count > 0
            && let Some(report) = self.at
        {
            let (message, before) = last_within(report, self.count);
            self.count = before;
            return Some(message);
        }
        None
    }
}

/// Counts the items that are left.
impl<'a, D: Diagnostic, S: SourceCode> ExactSizeIterator for Chain<'a, D, S> {
    fn len(&self) -> usize {
        match self.at {
            Some(report) => count_within(report, self.count) + self.texts.len(),
            None => self.texts.len(),
        }
    }
}

/// A clone continues from the same position.
impl<'a, D: Diagnostic, S: SourceCode> Clone for Chain<'a, D, S> {
    ghost use Rattle.miette_tree.specs.views.RemainingChain.{remaining_chain};

    ghost is_clone = { λ chain made. remaining_chain D.meaning S.source made
        ≡ remaining_chain D.meaning S.source chain };

    ghost is_infallible = { λ _. Unit {0} };

    fn clone(&self) -> Result<Chain<'a, D, S>, AllocError> {
        Ok(Chain {
            at: self.at,
            count: self.count,
            texts: self.texts,
        })
    }
}

/// An empty chain.
impl<'a, D: Diagnostic, S: SourceCode> Default for Chain<'a, D, S> {
    ghost use Rattle.miette_tree.specs.views.RemainingChain.{remaining_chain};

    ghost is_default = { λ chain. remaining_chain D.meaning S.source chain ≡ [] };

    fn default() -> Chain<'a, D, S> {
        Chain {
            at: None,
            count: 0,
            texts: &[],
        }
    }
}

impl<D: Diagnostic, S: SourceCode> Report<D, S> {
    ghost use Rattle.miette_tree.specs.views.RemainingChain.{remaining_chain};

    /// Returns an iterator over the message of the report and the messages or texts of its causes. It yields at most
    /// `usize::MAX` items.
    pub fn chain(&self) -> Chain<'_, D, S>
        ensures { remaining_chain D.meaning S.source result ≡ take usize.MAX (chain_of
            (tree_of D.meaning S.source self.now)) }
    {
        let mut count = 1;
        let mut at = self;
        while let Cause::Diagnostic(next) = at.cause() {
            if count == usize::MAX {
                return Chain {
                    at: Some(self),
                    count,
                    texts: &[],
                };
            }
            count += 1;
            at = next;
        }
        Chain {
            at: Some(self),
            count,
            texts: first_texts(cause_texts(at), usize::MAX - count),
        }
    }
}

impl<D: Diagnostic, S: SourceCode> Report<D, S> {
    /// Returns the last item of the chain: the farthest cause text, or else the message of the last diagnostic cause. A
    /// report without a cause returns its own message. Does not allocate.
    pub fn root_cause(&self) -> &str
        ensures { last_or None (chain_of (tree_of D.meaning S.source self.now)) ≡ Some result.now }
    {
        let mut at = self;
        while let Cause::Diagnostic(next) = at.cause() {
            at = next;
        }
        match cause_texts(at).split_last() {
            Some((last, _)) => last.as_str(),
            None => at.message(),
        }
    }
}

/// Returns the cause texts of a report. The list is empty if the cause is a diagnostic.
pub fn cause_texts<D: Diagnostic, S: SourceCode>(report: &Report<D, S>) -> &[String]
    ensures { map string_bytes result.now ≡ texts_below (cause_of (tree_of D.meaning S.source report.now)) }
{
    match report.cause() {
        Cause::Texts(texts) => texts,
        _ => &[],
    }
}

fn first_texts(texts: &[String], most: usize) -> &[String]
    ensures { result.now ≡ take most texts.now }
{
    if most < texts.len() {
        &texts[..most]
    } else {
        texts
    }
}
