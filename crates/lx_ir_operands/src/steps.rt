//! What is passed over before and behind the operands of an instruction.

ghost use Rattle.std.specs.Prelude.{◌≡◌, ◌≤◌, length, IfOk};
ghost use Rattle.lx_ir_terms.specs.Reading.{Gives, Passes, behind, has, is_mark, pick_at, next_at};
ghost use Rattle.lx_ir_terms.specs.Words.{count_over};
ghost use Rattle.lx_ir_constants.specs.Constants.{is_flag_word, skipped, when, word_refusal};
ghost use Rattle.lx_ir_operands.specs.Steps.{has_further, has_comma, is_metadata_name, one_metadata_at, metadata_at, is_align, one_align_at, align_at, is_idle_word, may_be_label, has_attribute, is_text, attribute_in, attribute_tail, attribute_word_at, one_attribute_at, attributes_at};

use lx_ir_terms::{FaultKind, ReadError, Reader, is_mark};
use lx_ir_tokens::{Keyword, Kind, Mark, Tok};

/// Something without content, where the test holds, and else nothing.
pub fn when(test: bool) -> Option<()>
    ensures { result ≡ when test }
{
    if test { Some(()) } else { None }
}

/// How a token is refused where words are passed over: any word is outside the profile there, another token cannot
/// stand.
pub fn word_refusal(kind: Kind) -> FaultKind
    ensures { result ≡ word_refusal kind }
{
    match kind {
        Kind::Word(_) => FaultKind::OutOfProfile,
        _ => FaultKind::Statement,
    }
}

fn is_flag_word(kind: Kind) -> bool
    ensures { result ≡ is_flag_word kind }
{
    matches!(kind, Kind::Word(Keyword::Flag))
}

/// Whether a flag stands next.
fn has_flag(reader: &Reader<'_>) -> bool
    ensures { result ≡ has is_flag_word reader.now }
{
    match reader.rest {
        [] => false,
        [token, ..] => is_flag_word(token.kind),
    }
}

/// Goes over the flags that stand next, such as `nsw`.
#[tactic(auto, using(lx_ir_constants::proofs::Skips::skips))]
pub fn skip_flags(reader: &mut Reader<'_>)
    ensures passed { reader.new ≡ skipped is_flag_word reader.old }
    ensures shrinks { length reader.new ≤ length reader.old }
{
    while has_flag(reader) {
        reader.skip();
    }
}

/// Whether an exclamation mark stands behind the next token.
fn has_exclamation_behind(reader: &Reader<'_>) -> bool
    ensures { result ≡ has (is_mark Mark.Exclamation) (behind reader.now) }
{
    match reader.rest {
        [_, token, ..] => is_mark(token.kind, Mark::Exclamation),
        _ => false,
    }
}

/// Whether a comma stands next, and no metadata behind it.
pub fn has_further(reader: &Reader<'_>) -> bool
    ensures { result ≡ has_further reader.now }
{
    reader.has(Mark::Comma) && !has_exclamation_behind(reader)
}

fn is_metadata_name(kind: Kind) -> bool
    ensures { result ≡ is_metadata_name kind }
{
    match kind {
        Kind::Word(word) => !matches!(word, Keyword::Debug),
        _ => false,
    }
}

/// Goes over the name of metadata.
fn metadata_name(reader: &mut Reader<'_>) -> Result<(), ReadError>
    ensures reads { Passes result reader.new (pick_at (λ t. when (is_metadata_name t.kind)) word_refusal reader.old) }
    ensures shrinks { length reader.new ≤ length reader.old }
{
    let [token, ..] = reader.rest else {
        return Err(reader.fault(FaultKind::Statement));
    };
    reader.picked(when(is_metadata_name(token.kind)), word_refusal(token.kind))?;
    Ok(())
}

/// Goes over `!name !N`.
fn one_metadata(reader: &mut Reader<'_>) -> Result<(), ReadError>
    ensures reads { Passes result reader.new (one_metadata_at reader.old) }
    ensures shrinks { length reader.new ≤ length reader.old }
{
    reader.mark(Mark::Exclamation)?;
    metadata_name(reader)?;
    reader.mark(Mark::Exclamation)?;
    reader.count()?;
    Ok(())
}

/// Goes over a comma and the metadata behind it.
fn further_metadata(reader: &mut Reader<'_>) -> Result<(), ReadError>
    ensures reads { Passes result reader.new (one_metadata_at (behind reader.old)) }
    ensures shrinks { length reader.new ≤ length (behind reader.old) }
{
    reader.skip();
    one_metadata(reader)?;
    Ok(())
}

/// Goes over the metadata that stands next, each behind its comma.
///
/// A fault is at the first token that cannot stand there: behind a comma that is anything but metadata, and `dbg` is
/// outside the profile.
pub fn metadata(reader: &mut Reader<'_>) -> Result<(), ReadError>
    ensures reads { Passes result reader.new (metadata_at reader.old) }
    ensures shrinks { length reader.new ≤ length reader.old }
{
    while reader.has(Mark::Comma) {
        further_metadata(reader)?;
    }
    Ok(())
}

fn is_align(kind: Kind) -> bool
    ensures { result ≡ is_align kind }
{
    matches!(kind, Kind::Word(Keyword::Align))
}

/// Goes over `align N`.
///
/// A fault is at the first token that cannot stand there; any word but `align` is outside the profile.
pub fn one_align(reader: &mut Reader<'_>) -> Result<(), ReadError>
    ensures reads { Passes result reader.new (one_align_at reader.old) }
    ensures shrinks { length reader.new ≤ length reader.old }
{
    let [token, ..] = reader.rest else {
        return Err(reader.fault(FaultKind::Statement));
    };
    reader.picked(when(is_align(token.kind)), word_refusal(token.kind))?;
    reader.count()?;
    Ok(())
}

/// Goes over a comma and an alignment, where a comma stands next and no metadata behind it.
///
/// A fault is at the first token that cannot stand there; any word but `align` is outside the profile.
pub fn align(reader: &mut Reader<'_>) -> Result<(), ReadError>
    ensures reads { Passes result reader.new (align_at reader.old) }
    ensures shrinks { length reader.new ≤ length reader.old }
{
    if has_further(reader) {
        reader.skip();
        one_align(reader)?;
    }
    Ok(())
}

/// Whether a word begins no instruction.
fn is_idle_word(kind: Kind) -> bool
    ensures { result ≡ is_idle_word kind }
{
    match kind {
        Kind::Word(word) => !matches!(word, Keyword::Instruction(_) | Keyword::Tail),
        _ => false,
    }
}

/// Whether a word that begins no instruction stands next.
fn has_idle_word(reader: &Reader<'_>) -> bool
    ensures { result ≡ has is_idle_word reader.now }
{
    match reader.rest {
        [] => false,
        [token, ..] => is_idle_word(token.kind),
    }
}

/// Whether a colon stands behind the next token, or no token does.
fn may_be_label(reader: &Reader<'_>) -> bool
    ensures { result ≡ may_be_label reader.now }
{
    match reader.rest {
        [_, token, ..] => is_mark(token.kind, Mark::Colon),
        _ => true,
    }
}

/// Whether what stands next belongs to the call before it: `#`, or a word that begins no instruction and is no label.
fn has_attribute(reader: &Reader<'_>) -> bool
    ensures { result ≡ has_attribute reader.now }
{
    reader.has(Mark::Hash) || has_idle_word(reader) && !may_be_label(reader)
}

fn attribute_in(kind: Kind) -> Option<Keyword>
    ensures { result ≡ attribute_in kind }
{
    match kind {
        Kind::Word(word) => {
            if word.is_behind_parentheses() {
                Some(word)
            } else {
                None
            }
        }
        _ => None,
    }
}

/// Goes over a string.
fn text(reader: &mut Reader<'_>) -> Result<(), ReadError>
    ensures reads { Passes result reader.new (next_at is_text reader.old) }
    ensures shrinks { length reader.new ≤ length reader.old }
{
    match reader.rest {
        [
            Tok {
                kind: Kind::Text,
                ..
            },
            rest @ ..,
        ] => {
            reader.rest = rest;
            Ok(())
        }
        _ => Err(reader.fault(FaultKind::Statement)),
    }
}

/// Goes over what stands behind a word behind parentheses.
fn attribute_rest(reader: &mut Reader<'_>, word: Keyword) -> Result<(), ReadError>
    ensures reads { Passes result reader.new (attribute_tail word reader.old) }
    ensures shrinks { length reader.new ≤ length reader.old }
{
    match word {
        Keyword::Align => {
            reader.count()?;
        }
        Keyword::Section => text(reader)?,
        _ => {}
    }
    Ok(())
}

/// A word that stands behind parentheses.
fn attribute(reader: &mut Reader<'_>) -> Result<Keyword, ReadError>
    ensures reads { Gives result reader.new (pick_at (λ t. attribute_in t.kind) word_refusal reader.old) }
    ensures shrinks { IfOk result (λ word. length reader.new ≤ length (behind reader.old)) }
    ensures stays { length reader.new ≤ length reader.old }
{
    let [token, ..] = reader.rest else {
        return Err(reader.fault(FaultKind::Statement));
    };
    let word = reader.picked(attribute_in(token.kind), word_refusal(token.kind))?;
    Ok(word)
}

/// Goes over a word behind parentheses, with what belongs to it.
fn attribute_word(reader: &mut Reader<'_>) -> Result<(), ReadError>
    ensures reads { Passes result reader.new (attribute_word_at reader.old) }
    ensures shrinks { IfOk result (λ u. length reader.new ≤ length (behind reader.old)) }
    ensures stays { length reader.new ≤ length reader.old }
{
    let word = attribute(reader)?;
    attribute_rest(reader, word)?;
    Ok(())
}

/// Goes over `#` and its number.
fn group(reader: &mut Reader<'_>) -> Result<(), ReadError>
    ensures reads { Passes result reader.new (count_over (behind reader.old)) }
    ensures shrinks { length reader.new ≤ length (behind reader.old) }
{
    reader.skip();
    reader.count()?;
    Ok(())
}

/// Goes over `#` and its number, or over a word behind parentheses with what belongs to it.
///
/// A fault is at the first token that cannot stand there; a word that does not belong there is outside the profile.
pub fn one_attribute(reader: &mut Reader<'_>) -> Result<(), ReadError>
    ensures reads { Passes result reader.new (one_attribute_at reader.old) }
    ensures shrinks { IfOk result (λ u. length reader.new ≤ length (behind reader.old)) }
    ensures stays { length reader.new ≤ length reader.old }
{
    if reader.has(Mark::Hash) {
        group(reader)?;
        return Ok(());
    }
    attribute_word(reader)?;
    Ok(())
}

/// Goes over what stands behind the parentheses of a call: `#` and a number, and words that begin no instruction and are
/// no label.
///
/// A fault is at the first token that cannot stand there; a word that does not belong there is outside the profile.
pub fn attributes(reader: &mut Reader<'_>) -> Result<(), ReadError>
    ensures reads { Passes result reader.new (attributes_at reader.old) }
    ensures shrinks { length reader.new ≤ length reader.old }
{
    while has_attribute(reader) {
        one_attribute(reader)?;
    }
    Ok(())
}
