//! Example lists, computed from the definitions.

ghost use Rattle.std.specs.Prelude.{◌≡◌, [], ◌∷◌, ◌++◌, codes};
ghost use Rattle.miette_json.specs.rules.Json.{json_text};
ghost use Rattle.miette_lsp.specs.laws.Examples.{bad_file_list, in_two, integer, integer_list, located_diagnostic_text};
ghost use Rattle.miette_lsp.specs.rules.Documents.{documents};
ghost use Rattle.miette_lsp.specs.rules.LspText.{lsp_text};
ghost use Rattle.miette_sarif.specs.laws.Examples.{bad_file};
ghost use Rattle.miette_tree.specs.rules.Tree.{trees};

/// The definitions give exactly these lists.
pub fn lsp_list_examples()
    ensures one { lsp_text (codes "lint") (trees (bad_file ∷ [])) ≡ bad_file_list }
    ensures related { lsp_text (codes "lint") (trees (integer ∷ [])) ≡ integer_list }
    ensures sources { json_text (documents (codes "lint") in_two)
        ≡ codes "[{\"uri\": \"a\",\"diagnostics\": [" ++ located_diagnostic_text (codes "1") ++ codes ","
        ++ located_diagnostic_text (codes "4")
        ++ codes "]},{\"uri\": \"untitled:1\",\"diagnostics\": [" ++ located_diagnostic_text (codes "3")
        ++ codes "]}]" }
{}
