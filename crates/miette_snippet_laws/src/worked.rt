//! Examples of snippets, computed by the definitions.

ghost use Rattle.std.specs.Prelude.{◌≡◌, [], ◌∷◌, codes, Some, true};
ghost use Rattle.miette_style.specs.rules.Styles.{plain};
ghost use Rattle.miette_style.specs.rules.Themes.{Styles};
ghost use Rattle.miette_style.specs.declared.style.Style.{Style};
ghost use Rattle.miette_snippet_rules.specs.rules.Defaults.{default_layout};
ghost use Rattle.miette_snippet_laws.specs.laws.Worked.{as_primary, labelled, nameless, snippet_styles};
ghost use Rattle.miette_snippet_laws.specs.laws.Worked.{snippet_texts, source_f, unlabelled};

/// The definitions give these rows for these labels. The frame shows where the primary label begins (`primary`), or the
/// first label if none is marked (`first`), and no position of one line without a name (`one_line`). A label out of
/// bounds has one row in place of the snippets (`refused`). Labels of several lines have gutters (`nested`), and bars
/// through a break (`broken`). A label at the end is after the text (`at_end`). A cut line has its number and gutter
/// (`cut`). Each run has its style (`styles`).
pub fn worked_snippets()
    ensures primary { snippet_texts default_layout (source_f (codes "ab cd\nef gh\n"))
        (labelled 0 2 (codes "one") ∷ as_primary (labelled 9 2 (codes "two")) ∷ [])
        ≡ Some (codes "   ╭─[f:2:4]"
        ∷ codes " 1 │ ab cd"
        ∷ codes "   · ─┬"
        ∷ codes "   ·  ╰── one"
        ∷ codes " 2 │ ef gh"
        ∷ codes "   ·    ─┬"
        ∷ codes "   ·     ╰── two"
        ∷ codes "   ╰────"
        ∷ []) }
    ensures first { snippet_texts default_layout (nameless (codes "ab cd\nef gh\n"))
        (labelled 9 2 (codes "two") ∷ labelled 3 2 (codes "one") ∷ [])
        ≡ Some (codes "   ╭─[1:4]"
        ∷ codes " 1 │ ab cd"
        ∷ codes "   ·    ─┬"
        ∷ codes "   ·     ╰── one"
        ∷ codes " 2 │ ef gh"
        ∷ codes "   ·    ─┬"
        ∷ codes "   ·     ╰── two"
        ∷ codes "   ╰────"
        ∷ []) }
    ensures one_line { snippet_texts default_layout (nameless (codes "ab cd\n")) (unlabelled 3 0 ∷ [])
        ≡ Some (codes "   ╭────"
        ∷ codes " 1 │ ab cd"
        ∷ codes "   ·    ▲"
        ∷ codes "   ╰────"
        ∷ []) }
    ensures refused { snippet_texts default_layout (source_f (codes "ab\n"))
        (unlabelled 4 1 ∷ labelled 2 3 (codes "far") ∷ [])
        ≡ Some (codes "  [Failed to read contents for label `far` (offset: 2, length: 3): OutOfBounds]"
        ∷ []) }
    ensures nested { snippet_texts default_layout (source_f (codes "f(\n g(\n a),\n b)\n"))
        (labelled 0 15 (codes "outer\nof two") ∷ labelled 4 6 (codes "inner") ∷ [])
        ≡ Some (codes "   ╭─[f:1:1]"
        ∷ codes " 1 │ ╭──▶ f("
        ∷ codes " 2 │ │╭─▶  g("
        ∷ codes " 3 │ │├─▶  a),"
        ∷ codes "   · │╰──── inner"
        ∷ codes " 4 │ ├──▶  b)"
        ∷ codes "   · ╰───┤ outer"
        ∷ codes "   ·     │ of two"
        ∷ codes "   ╰────"
        ∷ []) }
    ensures broken { snippet_texts (record default_layout { label_lines = Some 2 })
        (source_f (codes "f(\n1\n2\n3\n4\n5\n)\n")) (labelled 0 14 (codes "long") ∷ unlabelled 1 13 ∷ [])
        ≡ Some (codes "   ╭─[f:1:1]"
        ∷ codes " 1 │ ╭──▶ f("
        ∷ codes " 2 │ ││   1"
        ∷ codes "...│ ││"
        ∷ codes " 6 │ ││   5"
        ∷ codes " 7 │ ├──▶ )"
        ∷ codes "   · ╰───── long"
        ∷ codes "   ╰────"
        ∷ []) }
    ensures at_end { snippet_texts (record default_layout { end_labels = true }) (source_f (codes "ab\ncd"))
        (labelled 5 0 (codes "here") ∷ [])
        ≡ Some (codes "   ╭─[f:2:3]"
        ∷ codes " 1 │ ab"
        ∷ codes " 2 │ cd"
        ∷ codes "   ·   ▲"
        ∷ codes "   ·   ╰── here"
        ∷ codes "   ╰────"
        ∷ []) }
    ensures cut { snippet_texts (record default_layout { line_columns = Some 10 })
        (source_f (codes "f(\nabcdefghijklmnop)\n")) (labelled 0 20 (codes "call") ∷ labelled 8 2 (codes "cut") ∷ [])
        ≡ Some (codes "   ╭─[f:1:1]"
        ∷ codes " 1 │ ╭─▶ f("
        ∷ codes " 2 │ ├─▶ …efgh…p)"
        ∷ codes "   · ╰───  ─┬"
        ∷ codes "   · ╰───   ╰── cut"
        ∷ codes "   · ╰──── call"
        ∷ codes "   ╰────"
        ∷ []) }
    ensures styles { (styles : Styles) (red : Style) (green : Style) →
        snippet_styles (record styles { highlights = red ∷ green ∷ [] }) default_layout (source_f (codes "ab cd\n"))
        (labelled 0 2 (codes "one") ∷ labelled 3 2 (codes "two") ∷ [])
        ≡ Some ((plain ∷ plain ∷ plain ∷ styles.link ∷ plain ∷ [])
        ∷ (plain ∷ styles.linum ∷ plain ∷ plain ∷ plain ∷ [])
        ∷ (plain ∷ plain ∷ plain ∷ plain ∷ red ∷ plain ∷ green ∷ [])
        ∷ (plain ∷ plain ∷ plain ∷ plain ∷ red ∷ plain ∷ green ∷ [])
        ∷ (plain ∷ plain ∷ plain ∷ plain ∷ red ∷ [])
        ∷ (plain ∷ plain ∷ [])
        ∷ []) }
{}
