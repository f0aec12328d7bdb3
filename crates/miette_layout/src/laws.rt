//! Theorems about which lines snippets show and what is in their rows.

pub use miette_snippet_laws::range_laws::{
    groups_are_ranges, labels_have_one_group, left_out_lines_are_inside, ranges_are_maximal,
    ranges_end_kept, short_labels_stay, snippets_draw_ranges,
};
pub use miette_snippet_laws::row_laws::{
    connectors_lead_to_texts, cut_lines_are_parted, cut_rows_are_narrow, ends_are_drawn,
    lines_are_cut_by_reach, lines_that_fit_stay, rows_hold_no_escape, rows_turn_plain,
    underlines_are_apart, underlines_are_under_their_labels, underlines_keep_their_characters,
    wide_lines_are_cut,
};
