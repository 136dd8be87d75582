//! What the bytes of a token say.

ghost use Rattle.std.specs.Prelude.{◌≡◌, ◌==◌, ◌<◌, drop, slice_index};
ghost use Rattle.lx_annot_read.specs.Said.{all_but_last, struct_of};

/// What is left behind the first byte.
fn behind_first(bytes: &[u8]) -> &[u8]
    ensures { result.now ≡ drop 1 bytes.now }
{
    if bytes.is_empty() {
        bytes
    } else {
        bytes.split_at(1).1
    }
}

/// The bytes without the last of them.
fn all_but_last(bytes: &[u8]) -> &[u8]
    ensures { result.now ≡ all_but_last bytes.now }
{
    if bytes.is_empty() {
        bytes
    } else {
        bytes.split_at(bytes.len() - 1).0
    }
}

fn begins_with(bytes: &[u8], b: u8) -> bool
    requires { 0 < b }
    ensures { result ≡ (slice_index bytes.now 0 == b) }
{
    !bytes.is_empty() && bytes[0] == b
}

/// The name behind the `%` of a token, without quotes.
pub fn struct_of(bytes: &[u8]) -> &[u8]
    ensures { result.now ≡ struct_of bytes.now }
{
    let name = behind_first(bytes);
    if begins_with(name, b'"') {
        all_but_last(behind_first(name))
    } else {
        name
    }
}
