//! Examples of fixes, computed by the definitions.

ghost use Rattle.std.specs.Prelude.{◌≡◌, [], ◌∷◌, ◌++◌, codes};
ghost use Rattle.miette_fix_rows.specs.laws.Worked.{cut_rows, han, one_edit, worked_rows};

/// The definitions give these rows for these fixes.
pub fn worked_examples()
    ensures a_word { worked_rows (codes "let a = lenght;\nb\n") (one_edit 8 6 (codes "len") ∷ [])
        ≡ codes "   ╭─[f:1:9]"
        ∷ codes " 1 - let a = lenght;"
        ∷ codes " 1 + let a = len;"
        ∷ codes " 2 │ b"
        ∷ codes "   ╰────"
        ∷ [] }
    ensures deleted_lines { worked_rows (codes "use a;\nuse b;\n\nc();\n") (one_edit 0 14 (codes "") ∷ [])
        ≡ codes "   ╭─[f:1:1]"
        ∷ codes " 1 - use a;"
        ∷ codes " 2 - use b;"
        ∷ codes " 3 │ "
        ∷ codes "   ╰────"
        ∷ [] }
    ensures inserted_lines { worked_rows (codes "a\nb\n") (one_edit 2 0 (codes "x\ny\n") ∷ [])
        ≡ codes "   ╭─[f:2:1]"
        ∷ codes " 1 │ a"
        ∷ codes " 2 + x"
        ∷ codes " 3 + y"
        ∷ codes " 2 │ b"
        ∷ codes "   ╰────"
        ∷ [] }
    ensures two_edits_near { worked_rows (codes "a\nb\nc\nd\n") (one_edit 2 2 (codes "") ∷ one_edit 6 1 (codes "D")
        ∷ [])
        ≡ codes "   ╭─[f:2:1]"
        ∷ codes " 1 │ a"
        ∷ codes " 2 - b"
        ∷ codes " 3 │ c"
        ∷ codes " 4 - d"
        ∷ codes " 3 + D"
        ∷ codes "   ╰────"
        ∷ [] }
    ensures far_apart { worked_rows (codes "1\n2\n3\n4\n5\n6\n7\n8\n9\n10\n")
        (one_edit 2 0 (codes "b\n") ∷ one_edit 18 2 (codes "x") ∷ [])
        ≡ codes "   ╭─[f:2:1]"
        ∷ codes " 1 │ 1"
        ∷ codes " 2 + b"
        ∷ codes " 2 │ 2"
        ∷ codes "   ╰────"
        ∷ codes "    ╭─[f:10:1]"
        ∷ codes "  9 │ 9"
        ∷ codes " 10 - 10"
        ∷ codes " 11 + x"
        ∷ codes "    ╰────"
        ∷ [] }
    ensures neighbours { worked_rows (codes "a\nb\nc\n") (one_edit 0 1 (codes "A") ∷ one_edit 2 1 (codes "B") ∷ [])
        ≡ codes "   ╭─[f:1:1]"
        ∷ codes " 1 - a"
        ∷ codes " 2 - b"
        ∷ codes " 1 + A"
        ∷ codes " 2 + B"
        ∷ codes " 3 │ c"
        ∷ codes "   ╰────"
        ∷ [] }
    ensures no_final_terminator { worked_rows (codes "a\nend") (one_edit 5 0 (codes "\nmore\n") ∷ [])
        ≡ codes "   ╭─[f:2:4]"
        ∷ codes " 1 │ a"
        ∷ codes " 2 - end"
        ∷ codes " 2 + end"
        ∷ codes "   ·    +"
        ∷ codes " 3 + more"
        ∷ codes "   ╰────"
        ∷ [] }
    ensures in_a_word { worked_rows (codes "ab\n") (one_edit 1 0 (codes "x") ∷ [])
        ≡ codes "   ╭─[f:1:2]"
        ∷ codes " 1 - ab"
        ∷ codes " 1 + axb"
        ∷ codes "   ╰────"
        ∷ [] }
    ensures cr_lf { worked_rows (codes "a\r\nb\r\n") (one_edit 1 1 (codes "") ∷ [])
        ≡ codes "   ╭─[f:1:2]"
        ∷ codes " 1 - a"
        ∷ codes "   ·  -"
        ∷ codes " 1 + a"
        ∷ codes " 2 │ b"
        ∷ codes "   ╰────"
        ∷ [] }
    ensures a_tab { worked_rows (codes "a\n \tb\n") (one_edit 2 2 (codes "    ") ∷ [])
        ≡ codes "   ╭─[f:2:1]"
        ∷ codes " 1 │ a"
        ∷ codes " 2 -     b"
        ∷ codes "   · ----"
        ∷ codes " 2 +     b"
        ∷ codes "   · ++++"
        ∷ codes "   ╰────"
        ∷ [] }
    ensures a_blank_at_the_end { worked_rows (han) (one_edit 6 1 (codes "") ∷ [])
        ≡ codes "   ╭─[f:1:7]"
        ∷ codes " 1 - 漢字 "
        ∷ codes "   ·     -"
        ∷ codes " 1 + 漢字"
        ∷ codes " 2 │ b"
        ∷ codes "   ╰────"
        ∷ [] }
    ensures nothing { worked_rows (codes "ab\nc\n") (one_edit 0 2 (codes "ab") ∷ [])
        ≡ [] }
    ensures refused { worked_rows (codes "ab\n") (one_edit 2 2 (codes "") ∷ [])
        ≡ codes "  [Failed to apply fix: OutOfBounds]"
        ∷ [] }
    ensures overlapping { worked_rows (codes "abc\n") (one_edit 0 2 (codes "x") ∷ one_edit 1 1 (codes "") ∷ [])
        ≡ codes "  [Failed to apply fix: Overlap]"
        ∷ [] }
    ensures a_pair_of_terminators { worked_rows (codes "a\rb\nc\n") (one_edit 2 1 (codes "") ∷ [])
        ≡ codes "   ╭─[f:2:1]"
        ∷ codes " 1 - a"
        ∷ codes " 2 - b"
        ∷ codes " 1 + a"
        ∷ codes " 3 │ c"
        ∷ codes "   ╰────"
        ∷ [] }
    ensures cut_lines { cut_rows 12 (codes "first line of many columns\nabcdefghijklmnopqrst\n")
        (one_edit 36 2 (codes "XYZWVU") ∷ [])
        ≡ codes "   ╭─[f:2:10]"
        ∷ codes " 1 │ first line …"
        ∷ codes " 2 - …hijklm…"
        ∷ codes " 2 + …hiXYZWVUlm…"
        ∷ codes "   ╰────"
        ∷ [] }
{}
