//! A text as statements, one in a line, and a statement as words.

ghost use Rattle.std.specs.Prelude.{◌≡◌, ◌+◌, ◌<◌, ◌^◌, [], ◌∷◌, ◌++◌, length, MatchOption};
ghost use Rattle.std.specs.List.{prefix_len};
ghost use Rattle.lx_words.specs.Lexemes.{is_within};
ghost use Rattle.lx_script.specs.Lines.{says_something, statement_text, statements_from, words_of};
ghost use Rattle.lx_script.specs.LineParts.{is_letter, is_space, said};

use std::marker::Model;

fn line_len(text: &[u8]) -> usize
    ensures { result ≡ prefix_len (is_within 32 126) text.now }
{
    text.iter()
        .take_while(|b| b' ' <= **b && **b <= b'~')
        .count()
}

fn spaces_len(text: &[u8]) -> usize
    ensures { result ≡ prefix_len is_space text.now }
{
    text.iter().take_while(|b| **b == b' ').count()
}

fn word_len(text: &[u8]) -> usize
    ensures { result ≡ prefix_len is_letter text.now }
{
    text.iter().take_while(|b| **b != b' ').count()
}

/// What is left of a statement: its words, and the byte that cuts its line off, where there is one.
#[derive(Drop)]
pub struct Statement<'a> {
    pub row: u32,
    pub text: &'a [u8],
    pub stop: Option<u8>,
}

impl<'a> Model for Statement<'a> {
    ghost use Rattle.lx_script.specs.Lines.{Statement as Said, words_of};

    ghost Value = { Said };

    ghost view = { λ s. record { row = s.row; words = words_of s.text.now; stop = s.stop } };
}

/// The first word of a line, and what stands behind it.
fn front_word(text: &[u8]) -> Option<(&[u8], &[u8])>
    ensures { MatchOption result (words_of text.now ≡ []) (λ r. words_of text.now ≡ r.0.now ∷ words_of r.1.now) }
{
    let (_, rest) = text.split_at(spaces_len(text));
    let (word, behind) = rest.split_at(word_len(rest));
    if word.is_empty() {
        None
    } else {
        Some((word, behind))
    }
}

impl<'a> Statement<'a> {
    /// The next word, or none where the line has no word more.
    pub fn word(&mut self) -> Option<&'a [u8]>
        ensures stays { (self.new.row ≡ self.old.row) × (self.new.stop ≡ self.old.stop) }
        ensures word { MatchOption result (self.old.words ≡ []) (λ w. self.old.words ≡ w.now ∷ self.new.words) }
    {
        let (word, behind) = front_word(self.text)?;
        self.text = behind;
        Some(word)
    }

    /// Whether it has a word, or a byte cuts it off: else the line is passed over.
    fn says_something(&self) -> bool
        ensures { result ≡ says_something self.now }
    {
        front_word(self.text).is_some() || self.stop.is_some()
    }
}

/// A line as a statement; one that begins with `#` has no words.
fn statement_in(row: u32, line: &[u8], stop: Option<u8>) -> Statement<'_>
    ensures { result ≡ record { row = row; words = words_of (statement_text line.now); stop = stop } }
{
    let text = if line.starts_with(b"#") { &[] } else { line };
    Statement { row, text, stop }
}

/// The statement in the first line of a text, and what is left behind the line with its number: nothing, where a byte
/// cuts the line off.
fn front_statement(row: u32, text: &[u8]) -> (Statement<'_>, u32, &[u8])
    requires some { 0 < length text.now }
    requires room { row + length text.now < 2 ^ 32 }
    ensures front { statements_from row text.now ≡ said result.0 ++ statements_from result.1 result.2.now }
    ensures less { length result.2.now < length text.now }
    ensures room { result.1 + length result.2.now < 2 ^ 32 }
{
    let (line, behind) = text.split_at(line_len(text));
    match behind.first() {
        None => (statement_in(row, line, None), row, behind),
        Some(b'\n') => (statement_in(row, line, None), row + 1, &behind[1..]),
        Some(byte) => (statement_in(row, line, Some(*byte)), row, &[]),
    }
}

/// The statements that are left of a text.
#[derive(Drop)]
pub struct Statements<'a> {
    row: u32,
    text: &'a [u8],
}

impl<'a> Model for Statements<'a> {
    ghost use Rattle.std.specs.Prelude.{List, ◌+◌, ◌<◌, ◌^◌, length};
    ghost use Rattle.lx_script.specs.Lines.{Statement as Said, statements_from};

    ghost Value = { List Said };

    ghost view = { λ s. statements_from s.row s.text.now };

    ghost invariant = { λ s. s.row + length s.text.now < 2 ^ 32 };
}

impl<'a> Statements<'a> {
    /// The statements of a text.
    pub fn new(text: &'a [u8]) -> Self
        requires { length text.now + 1 < 2 ^ 32 }
        ensures { result ≡ statements_from 1 text.now }
    {
        Statements { row: 1, text }
    }

    /// The next statement.
    pub fn next_statement(&mut self) -> Option<Statement<'a>>
        ensures { MatchOption result ((self.old ≡ []) × (self.new ≡ [])) (λ s. self.old ≡ s ∷ self.new) }
    {
        while !self.text.is_empty() {
            let (statement, row, text) = front_statement(self.row, self.text);
            self.row = row;
            self.text = text;
            if statement.says_something() {
                return Some(statement);
            }
        }
        None
    }
}
