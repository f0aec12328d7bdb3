//! Printable ASCII. Each byte is a character of one column.

ghost use Rattle.std.specs.Prelude.{◌≡◌, ◌≤◌, length};
ghost use Rattle.std.specs.List.{list_all, prefix_len};
ghost use Rattle.miette_columns.specs.views.Printable.{is_printable};

/// The number of bytes in a block.
const BLOCK: usize = 16;

// Whether a byte is printable ASCII.
fn is_printable(byte: u8) -> bool
    ensures { result ≡ is_printable byte }
{
    0x20 <= byte && byte < 0x7f
}

// Whether all bytes of a block are printable ASCII. It has no early exit, so the compiler can use vector instructions.
#[inline(always)]
fn is_plain_block(block: &[u8]) -> bool
    ensures { result ≡ list_all is_printable block.now }
{
    let mut plain = true;
    for byte in block {
        plain &= is_printable(*byte);
    }
    plain
}

/// Counts the printable ASCII characters at the front.
#[inline(never)]
pub fn plain_len(bytes: &[u8]) -> usize
    ensures len { result ≡ prefix_len is_printable bytes.now }
    ensures within { result ≤ length bytes.now }
{
    let mut len = 0;
    while bytes.len() - len >= BLOCK && is_plain_block(&bytes[len..len + BLOCK]) {
        len += BLOCK;
    }
    while len < bytes.len() && is_printable(bytes[len]) {
        len += 1;
    }
    len
}

/// Whether all bytes are printable ASCII.
pub fn all_printable(bytes: &[u8]) -> bool
    ensures { result ≡ list_all is_printable bytes.now }
{
    plain_len(bytes) == bytes.len()
}
