//! The longest lexeme at the front of a text.

ghost use Rattle.std.specs.Prelude.{◌≡◌, ◌==◌, ◌&&◌, ℕ, ◌+◌, ◌≤◌, List, [], ◌∷◌, length, Bool, false, MatchOption, IfSome};
ghost use Rattle.std.specs.Option.{option_map};
ghost use Rattle.std.specs.List.{list_all, prefix_len};
ghost use Rattle.lx_words.specs.Lexemes.{is_nil, is_ir_mark, is_interface_mark, is_comment_mark, is_digit, is_word_byte, is_name_byte, is_line_byte, is_quoted_name_byte, is_text_byte, ends_quoted, ends_escaped, ends_name, ends_block, is_name, is_escaped, is_slashed, some_all, lexeme_of, lexeme_behind, word_lexeme, other_lexeme};
ghost use Rattle.lx_words.specs.Longest.{FrontLen, Front, Begins, NothingBegins, IsInside};

use crate::classes::{
    continues_name, continues_word, is_a_digit, is_a_hex_digit, is_a_mark, is_a_space, is_plain,
    stands_in_quoted_name, starts_word,
};
use crate::token::{Lexeme, TokenKind, TokenRule};

fn digits_len(text: &[u8]) -> usize
    ensures { result ≡ prefix_len is_digit text.now }
{
    text.iter().take_while(|b| is_a_digit(**b)).count()
}

fn word_len(text: &[u8]) -> usize
    ensures { result ≡ prefix_len is_word_byte text.now }
{
    text.iter().take_while(|b| continues_word(**b)).count()
}

fn plain_name_len(text: &[u8]) -> usize
    ensures { result ≡ prefix_len is_name_byte text.now }
{
    text.iter().take_while(|b| continues_name(**b)).count()
}

fn line_len(text: &[u8]) -> usize
    ensures { result ≡ prefix_len is_line_byte text.now }
{
    text.iter().take_while(|b| **b != b'\n').count()
}

fn text_len(text: &[u8]) -> usize
    ensures { result ≡ prefix_len is_text_byte text.now }
{
    text.iter().take_while(|b| **b != b'"').count()
}

fn quoted_name_len(text: &[u8]) -> usize
    ensures { result ≡ prefix_len is_quoted_name_byte text.now }
{
    text.iter()
        .take_while(|b| stands_in_quoted_name(**b))
        .count()
}

/// As many bytes as passed, where there is one at all.
fn some_len(text: &[u8], len: usize) -> Option<usize>
    ensures { (p : ℕ → Bool) → len ≡ prefix_len p text.now → FrontLen (some_all p) text.now result }
{
    if len > 0 { Some(len) } else { None }
}

/// As many bytes as passed and the quote behind them.
fn closed_len(text: &[u8], len: usize) -> Option<usize>
    ensures { (p : ℕ → Bool) → p 34 ≡ false → len ≡ prefix_len p text.now → FrontLen (ends_quoted p) text.now result }
{
    if len < text.len() && text[len] == b'"' {
        Some(len + 1)
    } else {
        None
    }
}

/// How many hexadecimal digits are to come behind this byte, or None where it cannot stand there.
fn digits_behind(digits: u8, b: u8) -> Option<u8>
    requires { IsInside digits b }
    ensures { MatchOption result ((bs : List ℕ) → ends_escaped digits (b ∷ bs) ≡ false) (λ d. (bs : List ℕ) → ends_escaped digits (b ∷ bs) ≡ ends_escaped d bs) }
{
    if digits > 0 {
        if is_a_hex_digit(b) {
            Some(digits - 1)
        } else {
            None
        }
    } else if b == b'\\' {
        Some(2)
    } else if is_plain(b) {
        Some(0)
    } else {
        None
    }
}

/// How many bytes behind the `c` of a byte string and its quote.
fn escaped_len(text: &[u8]) -> Option<usize>
    ensures { FrontLen (ends_escaped 0) text.now result }
{
    let mut digits = 0;
    for (i, b) in text.iter().enumerate() {
        if digits == 0 && *b == b'"' {
            return Some(i + 1);
        }
        let Some(behind) = digits_behind(digits, *b) else {
            return None;
        };
        digits = behind;
    }
    None
}

/// The first byte, and those behind it.
fn first_and_rest(text: &[u8]) -> Option<(u8, &[u8])>
    ensures { MatchOption result (text.now ≡ []) (λ p. text.now ≡ p.0 ∷ p.1.now) }
{
    if text.is_empty() {
        None
    } else {
        Some((text[0], &text[1..]))
    }
}

/// The byte before the rest too.
fn one_more(rest: &[u8], len: Option<usize>) -> Option<usize>
    requires { IfSome len (λ n. n ≤ length rest.now) }
    ensures { result ≡ option_map (λ n. n + 1) len }
{
    match len {
        Some(n) => {
            let room = rest.len();
            prove!(n <= room);
            Some(n + 1)
        }
        None => None,
    }
}

/// How many bytes behind the quote of a name.
fn quoted_rest_len(text: &[u8]) -> Option<usize>
    ensures { FrontLen ends_name text.now result }
{
    let (first, rest) = first_and_rest(text)?;
    if !stands_in_quoted_name(first) {
        return None;
    }
    one_more(rest, closed_len(rest, quoted_name_len(rest)))
}

/// How many bytes behind the `%` or `@` of a name.
fn name_len(text: &[u8]) -> Option<usize>
    ensures { FrontLen is_name text.now result }
{
    let (first, rest) = first_and_rest(text)?;
    if first == b'"' {
        one_more(rest, quoted_rest_len(rest))
    } else {
        some_len(text, plain_name_len(text))
    }
}

/// How many bytes behind the `c` of a byte string.
fn bytes_len(text: &[u8]) -> Option<usize>
    ensures { FrontLen is_escaped text.now result }
{
    let (first, rest) = first_and_rest(text)?;
    if first != b'"' {
        return None;
    }
    one_more(rest, escaped_len(rest))
}

/// Whether a byte ends a comment, where the one before it may be a `*`.
fn closes_block(starred: bool, b: u8) -> bool
    ensures { result ≡ (starred && b == 47) }
{
    starred && b == b'/'
}

/// How many bytes behind the `/*` of a comment.
fn block_len(text: &[u8]) -> Option<usize>
    ensures { FrontLen (ends_block false) text.now result }
{
    let mut starred = false;
    for (i, b) in text.iter().enumerate() {
        if closes_block(starred, *b) {
            return Some(i + 1);
        }
        starred = *b == b'*';
    }
    None
}

/// How many bytes of a comment behind its first.
fn slashed_len(text: &[u8]) -> Option<usize>
    ensures { FrontLen is_slashed text.now result }
{
    let (first, rest) = first_and_rest(text)?;
    if first == b'/' {
        one_more(rest, Some(line_len(rest)))
    } else if first == b'*' {
        one_more(rest, block_len(rest))
    } else {
        None
    }
}

fn tagged(lexeme: Lexeme, len: Option<usize>) -> Option<(Lexeme, usize)>
    ensures { result ≡ option_map (λ n. (lexeme, n)) len }
{
    len.map(|n| (lexeme, n))
}

/// How many bytes of a byte string behind its first.
fn byte_string_len(first: u8, rest: &[u8]) -> Option<usize>
    ensures { FrontLen (λ bs. first == 99 && is_escaped bs) rest.now result }
{
    if first == b'c' { bytes_len(rest) } else { None }
}

fn ir_word_behind(first: u8, rest: &[u8]) -> Option<(Lexeme, usize)>
    ensures { Front (word_lexeme TokenRule.Ir first) rest.now result }
{
    match byte_string_len(first, rest) {
        Some(len) => Some((Lexeme::Token(TokenKind::Bytes), len)),
        None => Some((Lexeme::Token(TokenKind::Word), word_len(rest))),
    }
}

#[tactic(auto, using(crate::proofs::Fronts::run_to))]
fn word_behind(rule: TokenRule, first: u8, rest: &[u8]) -> Option<(Lexeme, usize)>
    ensures { Front (word_lexeme rule first) rest.now result }
{
    match rule {
        TokenRule::Ir => ir_word_behind(first, rest),
        TokenRule::Interface | TokenRule::Prototype => {
            tagged(Lexeme::Token(TokenKind::Word), Some(word_len(rest)))
        }
    }
}

/// Whether a byte is a mark of an interface's text by itself.
fn is_a_single_mark(b: u8) -> bool
    ensures { result ≡ is_interface_mark b [] }
{
    matches!(
        b,
        b':' | b'('
            | b')'
            | b'{'
            | b'}'
            | b','
            | b';'
            | b'+'
            | b'-'
            | b'*'
            | b'&'
            | b'|'
            | b'^'
            | b'<'
            | b'>'
            | b'!'
    )
}

fn is_a_double_mark(b: u8, c: u8) -> bool
    ensures { result ≡ is_interface_mark b (c ∷ []) }
{
    if c == b'=' {
        b == b'=' || b == b'!' || b == b'<' || b == b'>'
    } else {
        b == c && (b == b'<' || b == b'>' || b == b'&' || b == b'|')
    }
}

fn interface_mark_len(first: u8, rest: &[u8]) -> Option<usize>
    ensures { FrontLen (is_interface_mark first) rest.now result }
{
    if !rest.is_empty() && is_a_double_mark(first, rest[0]) {
        Some(1)
    } else if is_a_single_mark(first) {
        Some(0)
    } else {
        None
    }
}

fn ir_mark_len(first: u8, _rest: &[u8]) -> Option<usize>
    ensures { FrontLen (λ bs. is_ir_mark first && is_nil bs) _rest.now result }
{
    if is_a_mark(first) { Some(0) } else { None }
}

#[tactic(auto, unfolding(crate::specs::Lexemes::other_lexeme))]
fn other_behind(rule: TokenRule, first: u8, rest: &[u8]) -> Option<(Lexeme, usize)>
    ensures { Front (other_lexeme rule first) rest.now result }
{
    match rule {
        TokenRule::Ir => {
            if first == b'@' {
                tagged(Lexeme::Token(TokenKind::Global), name_len(rest))
            } else if first == b'"' {
                tagged(
                    Lexeme::Token(TokenKind::Text),
                    closed_len(rest, text_len(rest)),
                )
            } else if first == b'-' {
                tagged(
                    Lexeme::Token(TokenKind::Number),
                    some_len(rest, digits_len(rest)),
                )
            } else {
                tagged(Lexeme::Token(TokenKind::Mark), ir_mark_len(first, rest))
            }
        }
        TokenRule::Interface => {
            tagged(
                Lexeme::Token(TokenKind::Mark),
                interface_mark_len(first, rest),
            )
        }
        TokenRule::Prototype => {
            if first == b'/' {
                tagged(Lexeme::Comment, slashed_len(rest))
            } else {
                tagged(
                    Lexeme::Token(TokenKind::Mark),
                    interface_mark_len(first, rest),
                )
            }
        }
    }
}

fn begins_comment(rule: TokenRule, first: u8) -> bool
    ensures { result ≡ is_comment_mark rule first }
{
    match rule {
        TokenRule::Ir => first == b';',
        TokenRule::Interface => first == b'#',
        TokenRule::Prototype => false,
    }
}

#[tactic(auto, using(crate::proofs::Fronts::run_to), unfolding(crate::specs::Lexemes::lexeme_behind))]
fn lexeme_behind_first(rule: TokenRule, first: u8, rest: &[u8]) -> Option<(Lexeme, usize)>
    ensures { Front (lexeme_behind rule first) rest.now result }
{
    if is_a_space(first) {
        tagged(Lexeme::Space, Some(0))
    } else if begins_comment(rule, first) {
        tagged(Lexeme::Comment, Some(line_len(rest)))
    } else if first == b'%' {
        tagged(Lexeme::Token(TokenKind::Local), name_len(rest))
    } else if is_a_digit(first) {
        tagged(Lexeme::Token(TokenKind::Number), Some(digits_len(rest)))
    } else if starts_word(first) {
        word_behind(rule, first, rest)
    } else {
        other_behind(rule, first, rest)
    }
}

/// The longest lexeme at the front of a text, and its length less one.
pub fn front(rule: TokenRule, text: &[u8]) -> Option<(Lexeme, usize)>
    ensures { MatchOption result (NothingBegins (lexeme_of rule) text.now) (λ f. Begins (lexeme_of rule) text.now f.0 (f.1 + 1)) }
{
    let (first, rest) = first_and_rest(text)?;
    lexeme_behind_first(rule, first, rest)
}
