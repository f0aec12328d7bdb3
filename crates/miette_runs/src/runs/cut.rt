//! Removes line feeds at an end of runs.

ghost use Rattle.std.specs.Prelude.{◌≡◌, ◌≤◌, length, map};
ghost use Rattle.miette_runs.specs.rules.Cutting.{cut_end, cut_front};
ghost use Rattle.miette_runs.specs.steps.Feeds.{capped_tag, feeds_len, kept_len, lowered_tag};

use crate::runs::Runs;
use crate::runs::sign::Tag;
use crate::runs::tags::{are_colours, count_tags_before};

// Counts the line feeds at the front that have only colours before and between them.
fn feeds_len(codes: &[char], tags: &[Tag]) -> usize
    ensures value { result ≡ feeds_len 0 codes.now tags.now }
    ensures within { result ≤ length codes.now }
{
    let mut left = tags;
    for (i, code) in codes.iter().enumerate() {
        let (before, after) = left.split_at(count_tags_before(i, left));
        if *code != '\n' || !are_colours(before) {
            return i;
        }
        left = after;
    }
    codes.len()
}

// Counts the characters before the line feeds and colours at the end.
fn kept_len(codes: &[char], tags: &[Tag]) -> usize
    ensures value { result ≡ kept_len 0 codes.now tags.now }
    ensures within { result ≤ length codes.now }
{
    let mut left = tags;
    let mut kept: usize = 0;
    for (i, code) in codes.iter().enumerate() {
        let (before, after) = left.split_at(count_tags_before(i, left));
        if *code != '\n' {
            kept = i + 1;
        } else if !are_colours(before) {
            kept = i;
        }
        left = after;
    }
    if are_colours(left) { kept } else { codes.len() }
}

// Lowers the index of each sign by `by`.
fn lower(tags: &mut [Tag], by: usize)
    ensures { tags.new ≡ map (lowered_tag by) tags.old }
{
    for i in 0..tags.len() {
        let tag = &mut tags[i];
        tag.at = tag.at.saturating_sub(by);
    }
}

// Limits the index of each sign to `at`.
fn cap(tags: &mut [Tag], at: usize)
    ensures { tags.new ≡ map (capped_tag at) tags.old }
{
    for i in 0..tags.len() {
        let tag = &mut tags[i];
        tag.at = tag.at.min(at);
    }
}

impl Runs {
    /// Removes the line feeds at the front. Colours before and between them stay.
    pub(crate) fn cut_front(&mut self)
        ensures { self.new ≡ cut_front self.old }
    {
        let n = feeds_len(&self.codes, &self.tags);
        if 0 < n {
            self.codes.drain(..n);
            lower(&mut self.tags, n);
        }
    }

    /// Removes the line feeds at the end. Colours after and between them stay.
    pub(crate) fn cut_end(&mut self)
        ensures { self.new ≡ cut_end self.old }
    {
        let n = kept_len(&self.codes, &self.tags);
        if n < self.codes.len() {
            self.codes.truncate(n);
            cap(&mut self.tags, n);
        }
    }
}
