//! Example logs, computed from the definitions.

ghost use Rattle.std.specs.Prelude.{◌≡◌, [], ◌∷◌, ◌++◌, codes, Some};
ghost use Rattle.miette_tree.specs.rules.Tree.{no_trees, trees};
ghost use Rattle.miette_sarif.specs.laws.Examples.{after_emoji, bad_file, bad_file_log, lint, region_text, source};
ghost use Rattle.miette_sarif.specs.laws.Examples.{span};
ghost use Rattle.miette_sarif.specs.rules.Artifacts.{uris_in, untitled_in};
ghost use Rattle.miette_sarif.specs.rules.LogText.{log_text};

/// The definitions give exactly these logs and parts of logs.
pub fn sarif_log_examples()
    ensures whole { log_text lint (trees (bad_file ∷ [])) ≡ bad_file_log }
    ensures sources { let names = source 0 (codes "my dir/a.rs") ∷ source 3 [] ∷ source 1 (codes "/a:b")
        ∷ source 2 (codes "a:b") ∷ source 5 [] ∷ source 3 [] ∷ source 4 (codes "https://x.org/a b") ∷ [] in
        uris_in (untitled_in names) names ≡ codes "my%20dir/a.rs" ∷ codes "untitled:1" ∷ codes "file:///a:b"
        ∷ codes "a%3Ab" ∷ codes "untitled:2" ∷ codes "https://x.org/a%20b" ∷ [] }
    ensures place { region_text after_emoji (span 4 1)
        ≡ Some (codes "{\"startLine\": 1,\"startColumn\": 3,\"endLine\": 1,\"endColumn\": 4,"
        ++ codes "\"byteOffset\": 4,\"byteLength\": 1,\"snippet\": {\"text\": \"b\"}}") }
{}
