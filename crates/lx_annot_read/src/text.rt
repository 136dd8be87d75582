//! Interface texts.

ghost use Rattle.std.specs.Prelude.{◌≡◌, ◌+◌, ◌<◌, ◌≤◌, ◌^◌, All, drop, length, IfOk, IfErr, OnOk};
ghost use Rattle.lx_words.specs.Cuts.{IsWithin};
ghost use Rattle.lx_annot_expressions.specs.Tokens.{most_tokens};
ghost use Rattle.lx_annot_read.specs.Aside.{TokensSayAll};
ghost use Rattle.lx_annot_read.specs.Draft.{IsTabled};
ghost use Rattle.lx_annot_read.specs.Faults.{Gives};
ghost use Rattle.lx_annot_read.specs.Interfaces.{empty};
ghost use Rattle.lx_annot_read.specs.Texts.{InterfaceFails, IsFailed, SaysInterface, body_at, first_at, interface_at, next_at, window};

use crate::draft::Draft;
use crate::fault::{Failure, InterfaceFault, lexical, met_at};
use crate::head::{Version, read_head};
use lx_annot::interface::Interface;
use lx_annot_expressions::{Fault, MOST_TOKENS, ReadError, Reader};
use lx_words::{Stop, Token, TokenRule, scan};
use std::alloc::Global;

/// The tokens that a statement may have.
#[tactic(auto, using(crate::proofs::Windows::all_taken, crate::proofs::Windows::within_window))]
pub fn window<'a>(text: &[u8], tokens: &'a [Token]) -> &'a [Token]
    requires { All (IsWithin text.now) tokens.now }
    ensures is { result.now ≡ window tokens.now }
    ensures within { All (IsWithin text.now) result.now }
    ensures room { length result.now ≤ most_tokens }
    ensures shrinks { length result.now ≤ length tokens.now }
{
    if tokens.len() > MOST_TOKENS {
        tokens.split_at(MOST_TOKENS).0
    } else {
        tokens
    }
}

/// What is met where reading the next tokens fails.
pub fn failed(
    alloc: Global,
    text: &[u8],
    stop: Option<Stop>,
    tokens: &[Token],
    error: ReadError,
) -> Failure
    requires { All (IsWithin text.now) tokens.now }
    ensures { IsFailed text.now stop tokens.now error result }
{
    match error {
        ReadError::Memory => Failure::Memory,
        ReadError::Fault(Fault { kind, left }) => {
            let place = window(text, tokens).len().saturating_sub(left);
            met_at(alloc, text, stop, tokens, kind, place)
        }
    }
}

/// The tokens behind the first `count`.
#[tactic(auto, using(crate::proofs::Windows::within_rest))]
pub fn behind<'a>(text: &[u8], tokens: &'a [Token], count: usize) -> &'a [Token]
    requires within { All (IsWithin text.now) tokens.now }
    requires room { count ≤ length tokens.now }
    ensures rest { result.now ≡ drop count tokens.now }
    ensures within { All (IsWithin text.now) result.now }
{
    tokens.split_at(count).1
}

/// The version of a text, and the tokens behind it.
#[tactic(auto, unfolding(crate::specs::Texts::first_at))]
fn behind_head<'a>(
    alloc: Global,
    text: &'a [u8],
    stop: Option<Stop>,
    tokens: &'a [Token],
) -> Result<(Version, &'a [Token]), Failure>
    requires { All (IsWithin text.now) tokens.now }
    ensures reads { Gives (λ h. (h.0, h.1.now)) result (first_at text.now stop tokens.now) }
    ensures within { IfOk result (λ h. All (IsWithin text.now) h.1.now) }
{
    let window = window(text, tokens);
    let mut reader = Reader::new(text, window);
    match read_head(&mut reader) {
        Ok(version) => Ok((version, behind(text, tokens, window.len() - reader.left()))),
        Err(error) => Err(failed(alloc, text, stop, tokens, error)),
    }
}

/// Adds the statement that begins with the first of these tokens, and gives those behind it.
#[tactic(auto, using(crate::proofs::Windows::shorter), unfolding(crate::specs::Texts::next_at))]
fn add_next<'a>(
    alloc: Global,
    text: &'a [u8],
    stop: Option<Stop>,
    line: u32,
    draft: &mut Draft<'a>,
    tokens: &'a [Token],
) -> Result<&'a [Token], Failure>
    requires within { All (IsWithin text.now) tokens.now }
    requires tabled { IsTabled draft.old }
    ensures reads { Gives (λ ts. (draft.new.interface, ts.now)) result (next_at text.now stop draft.old.version line draft.old.interface tokens.now) }
    ensures version { OnOk result (draft.new.version ≡ draft.old.version) }
    ensures tabled { OnOk result (IsTabled draft.new) }
    ensures within { IfOk result (λ ts. All (IsWithin text.now) ts.now) }
    ensures shrinks { IfOk result (λ ts. length ts.now < length tokens.now) }
{
    let window = window(text, tokens);
    let mut reader = Reader::new(text, window);
    match draft.add(alloc, line, &mut reader) {
        Ok(()) => Ok(behind(text, tokens, window.len() - reader.left())),
        Err(error) => Err(failed(alloc, text, stop, tokens, error)),
    }
}

/// The interface that the statements of a text of this version say.
fn body(
    alloc: Global,
    text: &[u8],
    stop: Option<Stop>,
    version: Version,
    tokens: &[Token],
) -> Result<Interface, Failure>
    requires { All (IsWithin text.now) tokens.now }
    ensures { Gives (λ i. i) result (body_at text.now stop version (length tokens.now) empty tokens.now) }
{
    let mut draft = Draft::new(alloc, version);
    let mut rest = tokens;
    while let Some(first) = rest.first() {
        rest = add_next(alloc, text, stop, first.line, &mut draft, rest)?;
    }
    Ok(draft.interface)
}

/// The interface that the tokens of a text say.
#[tactic(auto, unfolding(crate::specs::Texts::interface_at))]
fn interface_in(
    alloc: Global,
    text: &[u8],
    stop: Option<Stop>,
    tokens: &[Token],
) -> Result<Interface, Failure>
    requires { All (IsWithin text.now) tokens.now }
    ensures { Gives (λ i. i) result (interface_at text.now stop tokens.now) }
{
    let (version, rest) = behind_head(alloc, text, stop, tokens)?;
    let interface = body(alloc, text, stop, version, rest)?;
    match stop {
        Some(stop) => Err(lexical(alloc, stop)),
        None => Ok(interface),
    }
}

/// The interface that a text says.
///
/// # Errors
/// The first fault that is met: `Lexical`, `Statement`, `Unknown`, `Twice` or `NeedsSize`. `Memory` where there is not
/// enough memory for the interface.
pub fn read_interface(alloc: Global, bytes: &[u8]) -> Result<Interface, InterfaceFault>
    requires { length bytes.now + 1 < 2 ^ 32 }
    ensures ok { IfOk result (λ i. SaysInterface bytes.now i) }
    ensures fault { IfErr result (λ e. InterfaceFails bytes.now e) }
{
    let scanned = scan(alloc, bytes, TokenRule::Interface)?;
    let interface = interface_in(alloc, bytes, scanned.stop, scanned.tokens.as_slice())?;
    Ok(interface)
}

/// Two texts with the same tokens say the same interface, but for its lines: spaces and comments say nothing.
pub fn tokens_say_all()
    ensures { TokensSayAll }
{}
