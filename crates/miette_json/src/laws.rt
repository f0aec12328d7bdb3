//! Theorems about all JSON texts and values. Each theorem is the contract of an empty function: call the function to
//! use it.

ghost use Rattle.std.specs.Prelude.{◌≡◌, ℕ, List, true};
ghost use Rattle.miette_tree.specs.rules.Tree.{Tree};
ghost use Rattle.miette_tree.specs.rules.Reads.{AlwaysReads, report_reads};
ghost use Rattle.miette_json.specs.rules.Json.{Json, json_text};
ghost use Rattle.miette_json.specs.rules.Denotes.{Denotes, HasTokensOf};
ghost use Rattle.miette_json.specs.rules.Writing.{JsonPrefix, with_text, with_value};
ghost use Rattle.miette_json.specs.laws.Utf8Texts.{HasUtf8Texts};

/// A text represents at most one value (RFC 8259, over whole numbers, strings, lists and objects).
pub fn json_text_denotes_one_value()
    ensures { (bytes : List ℕ) (v w : Json) → Denotes bytes v → Denotes bytes w → v ≡ w }
{}

/// The strings and keys of a value that a text represents are UTF-8. A text with other bytes represents no value.
pub fn json_text_denotes_utf8()
    ensures { (bytes : List ℕ) (v : Json) → Denotes bytes v → HasUtf8Texts v }
{}

/// The text that the handler writes for a value has the value's tokens. It represents the value if all strings and keys
/// are UTF-8.
pub fn json_spelling_denotes_its_value()
    ensures tokens { (v : Json) → HasTokensOf (json_text v) v }
    ensures value { (v : Json) → HasUtf8Texts v → Denotes (json_text v) v }
{}

/// What a `JsonWriter` writes of a value, part by part, is the value's text, after a comma if one is due.
pub fn written_parts_are_json_text()
    ensures { (v : Json) (p : JsonPrefix) → with_value v p ≡ with_text (json_text v) p }
{}

/// Two values with the same text are the same value.
pub fn equal_json_spellings_have_equal_values()
    ensures { (v w : Json) → json_text v ≡ json_text w → v ≡ w }
{}

/// If all sources of a report always read, then so do the sources that its file names are read from.
pub fn json_file_names_are_read_where_sources_are()
    ensures { (t : Tree) → AlwaysReads t → report_reads t ≡ true }
{}
