//! From a text to the tokens that its grammar speaks of.

ghost use Rattle.std.specs.Prelude.{◌≡◌, ℕ, List, ◌+◌, ◌^◌, ◌<◌, [], All, length, IfOk, OnOk};
ghost use Rattle.std.specs.List.{AllZip};
ghost use Rattle.lx_words.specs.Cuts.{IsTokenOf, IsWithin};
ghost use Rattle.lx_ir_tokens.specs.Reading.{said_at, names_of, with_said, IsNumbered, IsTokOf, Readings, ReadsAs, StandsFor};
ghost use Rattle.lx_ir_tokens.specs.Said.{said};

use crate::lines::{kept_tokens, last_line};
use crate::names::NameTable;
use crate::said::{bytes_said, kind_of, name_said};
use crate::token::{Tok, Toks};
use lx_words::{Memory, Stop, Token, TokenKind, TokenRule, Tokens, one_way, scan};
use std::alloc::Global;

/// The tokens of a text that its grammar speaks of: those before the first byte that begins none, without the lines
/// that are passed over.
pub struct IrTokens {
    pub toks: Toks,
    /// Where the tokens stand, one for one.
    pub places: Tokens,
    /// The names of the tokens.
    pub names: NameTable,
    /// The first byte that begins no token, where there is one.
    pub stop: Option<Stop>,
    /// The line of the last token, also where that is passed over; 1 where there is none.
    pub last_line: u32,
}

impl Drop for IrTokens {
    fn drop(self) {
        let IrTokens {
            toks: _,
            places: _,
            names: _,
            stop: _,
            last_line: _,
        } = self;
    }
}

/// The number of the name that a token of these bytes says, which the table has from then on, or 0 where it says none.
fn number(
    alloc: Global,
    kind: TokenKind,
    bytes: &[u8],
    names: &mut NameTable,
) -> Result<u32, Memory>
    requires { length names.old + 1 < 2 ^ 32 }
    ensures number { IfOk result (λ n. StandsFor names.new n (said kind bytes.now)) }
    ensures table { OnOk result (names.new ≡ with_said names.old (said kind bytes.now)) }
{
    let number = match kind {
        TokenKind::Word | TokenKind::Number => names.intern(alloc, bytes)?,
        TokenKind::Local | TokenKind::Global => names.intern(alloc, name_said(bytes))?,
        TokenKind::Bytes => {
            let said = bytes_said(alloc, bytes)?;
            names.intern(alloc, said.as_slice())?
        }
        TokenKind::Text | TokenKind::Mark => 0,
    };
    Ok(number)
}

/// A token as the grammar sees it. The table has its name from then on.
fn seen(alloc: Global, text: &[u8], place: Token, names: &mut NameTable) -> Result<Tok, Memory>
    requires within { IsWithin text.now place }
    requires room { length names.old + 1 < 2 ^ 32 }
    ensures tok { IfOk result (λ tok. IsTokOf text.now names.new place tok) }
    ensures table { OnOk result (names.new ≡ with_said names.old (said_at text.now place)) }
{
    let bytes = place.bytes(text);
    let kind = kind_of(place.kind, bytes);
    let name = number(alloc, place.kind, bytes, names)?;
    Ok(Tok { kind, name })
}

/// Tokens as the grammar sees them, whose names go into an empty table.
fn all_seen(
    alloc: Global,
    text: &[u8],
    places: &[Token],
    names: &mut NameTable,
) -> Result<Toks, Memory>
    requires within { All (IsWithin text.now) places.now }
    requires room { length places.now + 1 < 2 ^ 32 }
    requires empty { names.old ≡ [] }
    ensures toks { IfOk result (λ toks. AllZip (IsTokOf text.now names.new) places.now toks) }
    ensures table { OnOk result (names.new ≡ names_of text.now places.now) }
{
    let mut toks = Toks::new(alloc);
    for place in places {
        let tok = seen(alloc, text, *place, names)?;
        toks.push(tok)?;
    }
    Ok(toks)
}

/// The tokens of a text that its grammar speaks of.
pub fn read_tokens(alloc: Global, text: &[u8]) -> Result<IrTokens, Memory>
    requires { length text.now + 1 < 2 ^ 32 }
    ensures reads { IfOk result (λ ir. ReadsAs text.now ir) }
    ensures each { IfOk result (λ ir. All (IsTokenOf TokenRule.Ir text.now) ir.places) }
    ensures numbered { IfOk result (λ ir. All (IsNumbered ir.names) ir.toks) }
    ensures paired { IfOk result (λ ir. length ir.toks ≡ length ir.places) }
{
    let scanned = scan(alloc, text, TokenRule::Ir)?;
    let tokens = scanned.tokens.as_slice();
    let places = kept_tokens(alloc, text, tokens)?;
    let mut names = NameTable::new(alloc);
    let toks = all_seen(alloc, text, places.as_slice(), &mut names)?;
    Ok(IrTokens {
        toks,
        places,
        names,
        stop: scanned.stop,
        last_line: last_line(tokens),
    })
}

/// A text is read in one way, and numbers tell names apart.
pub fn readings()
    ensures { (text : List ℕ) → Readings text }
{
    one_way();
}
