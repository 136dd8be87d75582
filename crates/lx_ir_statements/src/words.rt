//! Words that are passed over in the heads of statements.

ghost use Rattle.std.specs.Prelude.{◌≡◌, ◌≤◌, length};
ghost use Rattle.lx_ir_terms.specs.Reading.{Passes, has};
ghost use Rattle.lx_ir_constants.specs.Constants.{skipped};
ghost use Rattle.lx_ir_statements.specs.Words.{is_linkage_word, is_any_word, is_import_word, has_import_attribute, import_attributes_at, has_function_attribute, function_attributes_at};

use lx_ir_operands::one_attribute;
use lx_ir_terms::{ReadError, Reader};
use lx_ir_tokens::{Keyword, Kind, Mark, StatementWord};

fn is_linkage_word(kind: Kind) -> bool
    ensures { result ≡ is_linkage_word kind }
{
    matches!(kind, Kind::Word(Keyword::Linkage))
}

/// Whether a word that may stand before a global stands next.
fn has_linkage(reader: &Reader<'_>) -> bool
    ensures { result ≡ has is_linkage_word reader.now }
{
    match reader.rest {
        [] => false,
        [token, ..] => is_linkage_word(token.kind),
    }
}

/// Goes over the words before a global.
#[tactic(auto, using(lx_ir_constants::proofs::Skips::skips))]
pub fn skip_linkage(reader: &mut Reader<'_>)
    ensures passed { reader.new ≡ skipped is_linkage_word reader.old }
    ensures shrinks { length reader.new ≤ length reader.old }
{
    while has_linkage(reader) {
        reader.skip();
    }
}

fn is_any_word(kind: Kind) -> bool
    ensures { result ≡ is_any_word kind }
{
    matches!(kind, Kind::Word(_))
}

/// Whether a word stands next.
pub fn has_any_word(reader: &Reader<'_>) -> bool
    ensures { result ≡ has is_any_word reader.now }
{
    match reader.rest {
        [] => false,
        [token, ..] => is_any_word(token.kind),
    }
}

fn is_import_word(kind: Kind) -> bool
    ensures { result ≡ is_import_word kind }
{
    match kind {
        Kind::Word(Keyword::Statement(StatementWord::Declare | StatementWord::Define)) => false,
        Kind::Word(_) => true,
        _ => false,
    }
}

/// Whether a word that does not begin the next statement stands next.
fn has_import_word(reader: &Reader<'_>) -> bool
    ensures { result ≡ has is_import_word reader.now }
{
    match reader.rest {
        [] => false,
        [token, ..] => is_import_word(token.kind),
    }
}

/// Whether what stands next belongs to an import.
fn has_import_attribute(reader: &Reader<'_>) -> bool
    ensures { result ≡ has_import_attribute reader.now }
{
    reader.has(Mark::Hash) || has_import_word(reader)
}

/// Goes over what stands behind the parentheses of an import.
pub fn import_attributes(reader: &mut Reader<'_>) -> Result<(), ReadError>
    ensures reads { Passes result reader.new (import_attributes_at reader.old) }
    ensures shrinks { length reader.new ≤ length reader.old }
{
    while has_import_attribute(reader) {
        one_attribute(reader)?;
    }
    Ok(())
}

/// Whether what stands next belongs to the head of a function.
fn has_function_attribute(reader: &Reader<'_>) -> bool
    ensures { result ≡ has_function_attribute reader.now }
{
    reader.has(Mark::Hash) || has_any_word(reader)
}

/// Goes over what stands between the parentheses of a function and its brace.
pub fn function_attributes(reader: &mut Reader<'_>) -> Result<(), ReadError>
    ensures reads { Passes result reader.new (function_attributes_at reader.old) }
    ensures shrinks { length reader.new ≤ length reader.old }
{
    while has_function_attribute(reader) {
        one_attribute(reader)?;
    }
    Ok(())
}
