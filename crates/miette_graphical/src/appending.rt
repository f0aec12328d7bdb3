//! Appending printed output to a text.

ghost use Rattle.std.specs.Prelude.{◌≡◌, ◌++◌, OnErr, OnOk, encode_utf8_all, string_bytes};

use miette_runs::runs::output::Output;
use std::alloc::{AllocError, Global};

// Appends a text, or replaces an empty one by it. On `Err`, `out` is unchanged.
fn append(out: &mut String, text: String) -> Result<(), AllocError>
    ensures ok { OnOk result (string_bytes out.new ≡ string_bytes out.old ++ string_bytes text) }
    ensures err { OnErr result (string_bytes out.new ≡ string_bytes out.old) }
{
    if out.is_empty() {
        *out = text;
        return Ok(());
    }
    out.push_str(text.as_str())
}

/// Appends printed output. On `Err`, `out` is unchanged.
pub fn append_output(out: &mut String, alloc: Global, printed: Output) -> Result<(), AllocError>
    ensures ok { OnOk result (string_bytes out.new ≡ string_bytes out.old ++ encode_utf8_all printed) }
    ensures err { OnErr result (string_bytes out.new ≡ string_bytes out.old) }
{
    let text = printed.into_text(alloc)?;
    append(out, text)
}
