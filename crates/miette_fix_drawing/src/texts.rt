//! Texts of lines.

ghost use Rattle.std.specs.Prelude.{◌≡◌, ◌≤◌, length};
ghost use Rattle.std.specs.List.{prefix_len};
ghost use Rattle.miette_lines.specs.rules.Lines.{is_text};
ghost use Rattle.miette_fix_rows.specs.rules.DiffTexts.{without_terminator};

// Returns whether a byte isn't part of a terminator.
fn is_text(byte: u8) -> bool
    ensures { result ≡ is_text byte }
{
    byte != b'\n' && byte != b'\r'
}

// Returns the number of bytes of a line's text.
fn text_len(line: &[u8]) -> usize
    ensures len { result ≡ prefix_len is_text line.now }
    ensures within { result ≤ length line.now }
{
    let mut len = 0;
    while len < line.len() && is_text(line[len]) {
        len += 1;
    }
    len
}

/// Returns a line without its terminator.
pub fn strip_terminator(line: &[u8]) -> &[u8]
    ensures text { result.now ≡ without_terminator line.now }
    ensures within { length result.now ≤ length line.now }
{
    let len = text_len(line);
    &line[..len]
}
