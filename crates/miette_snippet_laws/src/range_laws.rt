//! Theorems about the lines that snippets show: ranges, groups of labels, folded labels.

ghost use Rattle.std.specs.Prelude.{◌≡◌, ℕ, List, Option, Some, Bool, true, false};
ghost use Rattle.std.specs.Prelude.{length};
ghost use Rattle.std.specs.Prelude.{◌<◌, ◌+◌, ◌-◌, ◌||◌};
ghost use Rattle.std.specs.List.{AllByRecursion, concat};
ghost use Rattle.miette_snippet_rules.specs.rules.Numbers.{ranges, IsRange, AreParted};
ghost use Rattle.miette_lines.specs.rules.Lines.{lines_of};
ghost use Rattle.miette_style.specs.declared.style.Style.{Style};
ghost use Rattle.miette_protocol.specs.views.Meaning.{Label};
ghost use Rattle.miette_protocol.specs.rules.Reading.{Source};
ghost use Rattle.miette_snippet_laws.specs.laws.Belonging.{HasOneGroup};
ghost use Rattle.miette_snippet_laws.specs.laws.Folding.{EndsPass, FitsIn, IsFarInside, IsFoldedInAll, IsInside};
ghost use Rattle.miette_labels.specs.rules.Answers.{Answers, AlwaysReads, NoneFails};
ghost use Rattle.miette_labels.specs.rules.Around.{HaveContext, group_context, label_context};
ghost use Rattle.miette_labels.specs.rules.Groups.{AreInBounds, in_order, groups_of, lines_of_groups};
ghost use Rattle.miette_snippet_rules.specs.rules.Snippets.{snippets, shown_numbers, is_kept, is_left_out};
ghost use Rattle.miette_labels.specs.rules.Labels.{drawn_from, multi_line};
ghost use Rattle.miette_snippet_rules.specs.rules.SnippetSettings.{SnippetSettings, folded_at, unfolded};
ghost use Rattle.miette_snippet_rules.specs.rules.SnippetLayout.{snippet_rows};
ghost use Rattle.miette_snippet_rules.specs.rules.ShownLines.{framed_ranges, line_at};

/// The groups of labels show the maximal ranges of lines that are in the context of some label. This holds if no read
/// fails and each label has at least one line of context.
pub fn groups_are_ranges()
    ensures { (context : ℕ) (source : Source) (fails : List Bool) (labels : List Label) → HaveContext context labels →
        NoneFails fails →
        lines_of_groups (group_context context (in_order labels)) source
        (groups_of context source fails (in_order labels)) ≡ snippets context source.bytes labels }
{}

/// The ranges of a list contain its numbers, each once and in order. Each range is consecutive, and no range continues
/// the previous one.
pub fn ranges_are_maximal()
    ensures { (ks : List ℕ) → (concat (ranges ks) ≡ ks) × AllByRecursion IsRange (ranges ks) × AreParted (ranges ks) }
{}

/// If labels have their own numbers of context lines, each label belongs to exactly one group: the one that contains
/// the data of its read.
pub fn labels_have_one_group()
    ensures { (context : ℕ) (source : Source) (labels : List Label) → AreInBounds source.bytes labels →
        AllByRecursion (HasOneGroup context source labels) labels }
{}

/// The rows of the snippets are those of the maximal ranges of shown lines. Each line appears once, with its number and
/// its text, and each range has a frame. If labels are folded, exactly the lines that no label keeps are left out, and
/// a break row replaces them. This holds if the source always reads and accepts the labels, and each label has at least
/// one line of context.
pub fn snippets_draw_ranges()
    ensures { (s : SnippetSettings) (source : Source) (labels : List Label) (answers : Answers) →
        HaveContext s.layout.context_lines labels → AreInBounds source.bytes labels → AlwaysReads answers →
        snippet_rows s source labels answers ≡ Some (framed_ranges s source labels answers) }
{}

/// If labels are folded, the first and the last line of each range are kept.
pub fn ranges_end_kept()
    ensures { (limit : Option ℕ) (context : ℕ) (bytes : List ℕ) (labels : List Label) → HaveContext context labels →
        AllByRecursion (EndsPass (is_kept limit context bytes labels)) (ranges (shown_numbers context bytes labels)) }
{}

/// No label begins or ends on a line that no label keeps, so every label on it runs through it (`inside`). The labels
/// on such a line are those on the next one, if no label keeps that one either (`same`). So a break row has a bar for
/// exactly the labels that run through all lines that it replaces. At least two adjacent lines are left out together
/// (`pairs`). None of them is among the lines shown around a label's first or last line (`near`).
pub fn left_out_lines_are_inside()
    ensures inside { (ends : Bool) (styles : List Style) (limit : ℕ) (context : ℕ) (bytes : List ℕ)
        (labels : List Label) (k : ℕ) → HaveContext context labels → k < length (lines_of bytes) →
        is_kept (Some limit) context bytes labels k ≡ false →
        AllByRecursion (IsInside (line_at (lines_of bytes) k))
        (drawn_from ends styles (length bytes) 0 (in_order labels)) }
    ensures same { (ends : Bool) (styles : List Style) (limit : ℕ) (context : ℕ) (bytes : List ℕ)
        (labels : List Label) (k : ℕ) → HaveContext context labels → k + 1 < length (lines_of bytes) →
        is_kept (Some limit) context bytes labels k ≡ false →
        is_kept (Some limit) context bytes labels (k + 1) ≡ false →
        multi_line (line_at (lines_of bytes) k) (drawn_from ends styles (length bytes) 0 (in_order labels))
        ≡ multi_line (line_at (lines_of bytes) (k + 1)) (drawn_from ends styles (length bytes) 0 (in_order labels)) }
    ensures pairs { (limit : ℕ) (context : ℕ) (bytes : List ℕ) (labels : List Label) (k : ℕ) →
        is_left_out (Some limit) context bytes labels k ≡ true →
        (is_left_out (Some limit) context bytes labels (k - 1) || is_left_out (Some limit) context bytes labels (k + 1))
        ≡ true }
    ensures near { (limit : ℕ) (context : ℕ) (bytes : List ℕ) (labels : List Label) (k : ℕ) →
        is_left_out (Some limit) context bytes labels k ≡ true →
        AllByRecursion (λ label. IsFarInside (label_context context labels label) bytes k label.span) labels }
{}

/// Folding leaves lines out. Suppose two adjacent lines are in the context of labels. Suppose each of these labels has
/// more lines than the limit, and the lines are further from its first and its last line than the lines shown around
/// these. Then both lines are left out.
pub fn folds_leave_lines_out()
    ensures { (limit : ℕ) (context : ℕ) (bytes : List ℕ) (labels : List Label) (k : ℕ) →
        IsFoldedInAll limit context bytes labels k → IsFoldedInAll limit context bytes labels (k + 1) →
        (is_left_out (Some limit) context bytes labels k ≡ true)
        × (is_left_out (Some limit) context bytes labels (k + 1) ≡ true) }
{}

/// If no label has more lines than the folding limit, the rows are those without folding.
pub fn short_labels_stay()
    ensures { (s : SnippetSettings) (limit : ℕ) (source : Source) (labels : List Label) (answers : Answers) →
        HaveContext s.layout.context_lines labels → AreInBounds source.bytes labels → AlwaysReads answers →
        AllByRecursion (FitsIn limit source.bytes) labels →
        snippet_rows (folded_at (Some limit) s) source labels answers ≡ snippet_rows (unfolded s) source labels answers }
{}
