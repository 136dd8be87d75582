//! Pieces of text: bytes, names and what stands between items.
ghost use Rattle.std.specs.Prelude.{◌≡◌, ◌++◌, OnOk};
ghost use Rattle.std.specs.List.{list_all};
ghost use Rattle.lx_ir.specs.Text.{is_name_byte, name_text, local_text, global_text, separator};

use lx_words::Memory;

/// Appends bytes.
pub fn put(out: &mut Vec<u8>, text: &[u8]) -> Result<(), Memory>
    ensures { OnOk result (out.new.items ≡ out.old.items ++ text.now) }
{
    out.extend_from_slice(text)?;
    Ok(())
}

/// Whether a name may stand without quotes when this byte is in it.
fn is_name_byte(byte: u8) -> bool
    ensures { result ≡ is_name_byte byte }
{
    matches!(byte, b'A'..=b'Z' | b'a'..=b'z' | b'0'..=b'9' | b'-' | b'$' | b'.' | b'_')
}

/// Whether a name may stand without quotes.
fn is_bare(name: &[u8]) -> bool
    ensures { result ≡ list_all is_name_byte name.now }
{
    name.iter().all(|byte| is_name_byte(*byte))
}

/// Appends a name, in quotes where it needs them.
#[tactic(auto, unfolding(crate::specs::Text::name_text))]
fn put_name(out: &mut Vec<u8>, name: &[u8]) -> Result<(), Memory>
    ensures { OnOk result (out.new.items ≡ out.old.items ++ name_text name.now) }
{
    if is_bare(name) {
        put(out, name)
    } else {
        put(out, b"\"")?;
        put(out, name)?;
        put(out, b"\"")
    }
}

/// Appends the name of a type, a register or a label.
pub fn put_local(out: &mut Vec<u8>, name: &[u8]) -> Result<(), Memory>
    ensures { OnOk result (out.new.items ≡ out.old.items ++ local_text name.now) }
{
    put(out, b"%")?;
    put_name(out, name)
}

/// Appends the name of a function or a global.
pub fn put_global(out: &mut Vec<u8>, name: &[u8]) -> Result<(), Memory>
    ensures { OnOk result (out.new.items ≡ out.old.items ++ global_text name.now) }
{
    put(out, b"@")?;
    put_name(out, name)
}

/// Appends what stands before an item with this number: a comma and a space, but before the first.
pub fn put_separator(out: &mut Vec<u8>, number: usize) -> Result<(), Memory>
    ensures { OnOk result (out.new.items ≡ out.old.items ++ separator number) }
{
    if number == 0 {
        return Ok(());
    }
    put(out, b", ")
}
