//! A text as words between blanks.

ghost use Rattle.std.specs.Prelude.{◌≡◌, ◌+◌, ◌<◌, ◌≤◌, ◌^◌, length, MatchOption};
ghost use Rattle.std.specs.List.{prefix_len};
ghost use Rattle.lx_script.specs.Words.{is_blank, is_printable, feeds, HasWord, HasNoWord};

pub fn blanks_len(text: &[u8]) -> usize
    ensures { result ≡ prefix_len is_blank text.now }
{
    text.iter()
        .take_while(|b| **b == b' ' || **b == b'\n')
        .count()
}

pub fn word_len(text: &[u8]) -> usize
    ensures { result ≡ prefix_len is_printable text.now }
{
    text.iter()
        .take_while(|b| b'!' <= **b && **b <= b'~')
        .count()
}

pub fn line_feeds(text: &[u8]) -> usize
    ensures value { result ≡ feeds text.now }
    ensures within { result ≤ length text.now }
{
    text.iter().filter(|b| **b == b'\n').count()
}

/// What is left of a text, and its line.
#[derive(Drop)]
pub struct Words<'a> {
    pub rest: &'a [u8],
    pub line: u32,
}

impl<'a> Words<'a> {
    /// Goes over the next word.
    pub fn next_word(&mut self) -> Option<&'a [u8]>
        requires { self.old.line + length self.old.rest.now < 2 ^ 32 }
        ensures step { MatchOption result (HasNoWord self.old.rest.now self.old.line self.new.rest.now self.new.line) (λ w. HasWord self.old.rest.now self.old.line (record { bytes = w.now; line = self.new.line }) self.new.rest.now) }
        ensures room { self.new.line + length self.new.rest.now < 2 ^ 32 }
    {
        let (blanks, rest) = self.rest.split_at(blanks_len(self.rest));
        self.line += line_feeds(blanks) as u32;
        let (word, after) = rest.split_at(word_len(rest));
        self.rest = after;
        if word.is_empty() { None } else { Some(word) }
    }
}
