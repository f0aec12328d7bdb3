//! JSON values over several lines: where they end.

ghost use Rattle.std.specs.Prelude.{◌≡◌, ◌≤◌, ◌&&◌, length};
ghost use Rattle.miette_show_rows.specs.rules.Parts.{after_bytes, begins_alone, begins_value, beside_text, closed};
ghost use Rattle.miette_show_rows.specs.rules.Parts.{count_row_ends, in_text, is_inner, is_unclosed, opens_value};
ghost use Rattle.miette_show_rows.specs.rules.Parts.{with_byte};
ghost use Rattle.miette_show_rows.specs.rules.Rows.{begins_with_bracket, is_closing_bracket, is_quote_or_bracket};
ghost use Rattle.miette_show_rows.specs.rules.Rows.{is_opening_bracket, is_json_space, is_utf16};
ghost use Rattle.miette_show_rows.specs.rules.Rows.{leads_in, without_byte_order_mark};

/// The state of a scan of JSON.
#[derive(Clone, Copy)]
pub(crate) struct JsonState {
    /// The number of open brackets.
    pub depth: u64,
    /// Whether a string is open.
    pub quoted: bool,
    /// Whether the string's last byte is a backslash that escapes the next one.
    pub escaped: bool,
}

impl JsonState {
    /// The state before the first byte.
    pub(crate) fn nothing() -> JsonState
        ensures { result ≡ closed }
    {
        JsonState {
            depth: 0,
            quoted: false,
            escaped: false,
        }
    }

    /// Returns the state after a byte inside a string.
    fn in_text(self, byte: u8) -> JsonState
        ensures { result ≡ in_text self byte }
    {
        if self.escaped {
            return JsonState {
                escaped: false,
                ..self
            };
        }
        match byte {
            b'\\' => JsonState {
                escaped: true,
                ..self
            },
            b'"' => JsonState {
                quoted: false,
                ..self
            },
            _ => self,
        }
    }

    /// Returns the state after a byte outside of strings.
    fn beside_text(self, byte: u8) -> JsonState
        ensures { result ≡ beside_text self byte }
    {
        match byte {
            b'"' => JsonState {
                quoted: true,
                ..self
            },
            b'{' | b'[' => JsonState {
                depth: self.depth.saturating_add(1),
                ..self
            },
            b'}' | b']' => JsonState {
                depth: self.depth.saturating_sub(1),
                ..self
            },
            _ => self,
        }
    }

    /// Returns the state after a byte.
    fn with_byte(self, byte: u8) -> JsonState
        ensures { result ≡ with_byte self byte }
    {
        if self.quoted {
            self.in_text(byte)
        } else {
            self.beside_text(byte)
        }
    }

    /// Returns the state after these bytes.
    pub(crate) fn after_bytes(self, bytes: &[u8]) -> JsonState
        ensures { result ≡ after_bytes self bytes.now }
    {
        let mut state = self;
        for byte in bytes {
            state = state.with_byte(*byte);
        }
        state
    }

    /// Returns whether a bracket is open, and no string.
    pub(crate) fn is_unclosed(self) -> bool
        ensures { result ≡ is_unclosed self }
    {
        self.depth > 0 && !self.quoted
    }
}

/// Returns whether a byte is white space of JSON.
fn is_json_space(byte: u8) -> bool
    ensures { result ≡ is_json_space byte }
{
    matches!(byte, b' ' | b'\t' | b'\n' | b'\r')
}

/// Returns whether a byte closes a bracket.
fn is_closing_bracket(byte: u8) -> bool
    ensures { result ≡ is_closing_bracket byte }
{
    matches!(byte, b'}' | b']')
}

/// Returns whether a byte opens a bracket.
fn is_opening_bracket(byte: u8) -> bool
    ensures { result ≡ is_opening_bracket byte }
{
    matches!(byte, b'{' | b'[')
}

/// Returns whether a byte is a quote or a bracket.
fn is_quote_or_bracket(byte: u8) -> bool
    ensures { result ≡ is_quote_or_bracket byte }
{
    byte == b'"' || is_opening_bracket(byte) || is_closing_bracket(byte)
}

/// Returns whether the bytes are white space only, or have a quote or bracket after white space.
fn leads_in(bytes: &[u8]) -> bool
    ensures { result ≡ leads_in bytes.now }
{
    let mut rest = bytes;
    while let Some((first, more)) = rest.split_first() {
        if !is_json_space(*first) {
            return is_quote_or_bracket(*first);
        }
        rest = more;
    }
    true
}

/// Returns whether a part starts with this bracket, then white space only, or a quote or bracket after white space.
pub(crate) fn begins_with_bracket(bracket: u8, part: &[u8]) -> bool
    ensures { result ≡ begins_with_bracket bracket part.now }
{
    match part.split_first() {
        Some((first, rest)) => *first == bracket && leads_in(rest),
        None => false,
    }
}

/// Returns the bytes without a byte order mark of UTF-8.
pub(crate) fn without_byte_order_mark(part: &[u8]) -> &[u8]
    ensures { result.now ≡ without_byte_order_mark part.now }
{
    if part.starts_with(b"\xEF\xBB\xBF") {
        &part[3..]
    } else {
        part
    }
}

/// Returns whether the bytes start with a byte order mark of UTF-16.
pub(crate) fn is_utf16(part: &[u8]) -> bool
    ensures { result ≡ is_utf16 part.now }
{
    part.starts_with(b"\xFF\xFE") || part.starts_with(b"\xFE\xFF")
}

/// Returns whether the bytes start with a bracket, then a quote, a bracket, white space or the end of the line.
fn opens_value(bytes: &[u8]) -> bool
    ensures { result ≡ opens_value bytes.now }
{
    match bytes {
        [first, second, ..] => is_opening_bracket(*first)
            && (is_quote_or_bracket(*second) || is_json_space(*second)),
        _ => false,
    }
}

/// Returns the same for a part, after a byte order mark.
pub(crate) fn begins_value(part: &[u8]) -> bool
    ensures { result ≡ begins_value part.now }
{
    opens_value(without_byte_order_mark(part))
}

/// Returns whether the first line is a single bracket.
pub(crate) fn begins_alone(part: &[u8]) -> bool
    ensures { result ≡ begins_alone part.now }
{
    let bytes = without_byte_order_mark(part);
    bytes.starts_with(b"{\n")
        || bytes.starts_with(b"{\r\n")
        || bytes.starts_with(b"[\n")
        || bytes.starts_with(b"[\r\n")
}

/// Returns whether a line starts like those inside a value: with white space or a closing bracket.
pub(crate) fn is_inner(row: &[u8]) -> bool
    ensures { result ≡ is_inner row.now }
{
    match row.first() {
        Some(first) => is_json_space(*first) || is_closing_bracket(*first),
        None => false,
    }
}

/// Returns the number of line feeds.
pub fn count_row_ends(bytes: &[u8]) -> u64
    ensures { result ≡ count_row_ends bytes.now }
{
    let mut ends: u64 = 0;
    for byte in bytes {
        if *byte == b'\n' {
            ends += 1;
        }
    }
    ends
}
