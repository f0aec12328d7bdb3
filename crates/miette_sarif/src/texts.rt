//! Sets of strings, and values written by their texts.

ghost use Rattle.std.specs.Prelude.{◌≡◌, IfOk, OnOk, not, string_bytes};
ghost use Rattle.std.specs.List.{list_any};
ghost use Rattle.std.specs.Str.{bytes_eq};
ghost use Rattle.indexmap.specs.IndexSet.{insert_key};
ghost use Rattle.miette_json.specs.rules.Writing.{closed, opened};
ghost use Rattle.miette_sarif.specs.steps.Members.{with_texts};
ghost use Rattle.miette_sarif.specs.views.Findings.{texts_of};

use indexmap::IndexSet;
use miette_json::writer::JsonWriter;
use std::alloc::AllocError;

/// Adds a string. Returns whether it is new.
#[tactic(auto, using(crate::proofs::Keys::first_texts))]
pub fn insert_text(texts: &mut IndexSet<String>, text: String) -> Result<bool, AllocError>
    ensures first { IfOk result (λ is. is
        ≡ not (list_any (bytes_eq (string_bytes text)) (texts_of texts.old.keys))) }
    ensures texts { OnOk result (texts_of texts.new.keys
        ≡ insert_key bytes_eq (texts_of texts.old.keys) (string_bytes text)) }
{
    let is_new = texts.insert(text)?;
    Ok(is_new)
}

/// Writes a list of values by their texts.
pub fn push_texts(json: &mut JsonWriter, texts: &[String]) -> Result<(), AllocError>
    ensures { OnOk result (json.new ≡ closed 93 (with_texts (texts_of texts.now) (opened 91 json.old))) }
{
    json.begin_list()?;
    for text in texts {
        json.value_text(text.as_str())?;
    }
    json.end_list()
}
