//! The settings of the narrated handler.

/// The settings of one rendering.
#[derive(Clone, Copy)]
pub(crate) struct NarrationSettings<'a> {
    pub(crate) cause_chain: bool,
    pub(crate) context_lines: usize,
    pub(crate) footer: Option<&'a str>,
}
