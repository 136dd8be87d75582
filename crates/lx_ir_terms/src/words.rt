//! Words that are passed over before and behind types.

ghost use Rattle.std.specs.Prelude.{◌≡◌, ◌≤◌, ◌<◌, true, length};
ghost use Rattle.lx_ir_terms.specs.Reading.{Gives, Passes, behind, has, next_at, pick_at};
ghost use Rattle.lx_ir_terms.specs.Types.{result_in};
ghost use Rattle.lx_ir_terms.specs.Words.{is_passed_word, is_passed, is_nothing_word, count_over, enclosed_count_at, enclosed_nothing_at, tail_at, first_word, passed_at, word_refusal, passed_result_at};

use crate::fault::{FaultKind, ReadError};
use crate::reader::Reader;
use crate::types::{result_in, scalar_refusal};
use lx_ir::types::Scalar;
use lx_ir_tokens::{Keyword, Kind, Mark, Tok};

fn is_passed_word(linkage: bool, word: Keyword) -> bool
    ensures { result ≡ is_passed_word linkage word }
{
    match word {
        Keyword::Linkage => linkage,
        Keyword::Parameter | Keyword::Align | Keyword::Dereferenceable | Keyword::Captures => true,
        _ => false,
    }
}

/// How a token is refused where words are passed over.
fn word_refusal(kind: Kind) -> FaultKind
    ensures { result ≡ word_refusal kind }
{
    match kind {
        Kind::Word(_) => FaultKind::OutOfProfile,
        _ => scalar_refusal(kind),
    }
}

impl<'a> Reader<'a> {
    /// Whether a word that is passed over stands next.
    fn has_passed(&self, linkage: bool) -> bool
        ensures { result ≡ has (is_passed linkage) self.now }
    {
        match self.rest {
            [
                Tok {
                    kind: Kind::Word(word),
                    ..
                },
                ..
            ] => is_passed_word(linkage, *word),
            _ => false,
        }
    }

    fn nothing_word(&mut self) -> Result<(), ReadError>
        ensures reads { Passes result self.new (next_at is_nothing_word self.old) }
        ensures shrinks { length self.new ≤ length self.old }
    {
        match self.rest {
            [
                Tok {
                    kind: Kind::Word(Keyword::Nothing),
                    ..
                },
                rest @ ..,
            ] => {
                self.rest = rest;
                Ok(())
            }
            _ => Err(self.fault(FaultKind::Statement)),
        }
    }

    fn count_over(&mut self) -> Result<(), ReadError>
        ensures reads { Passes result self.new (count_over self.old) }
        ensures shrinks { length self.new ≤ length self.old }
    {
        self.count()?;
        Ok(())
    }

    /// A number in parentheses.
    fn enclosed_count(&mut self) -> Result<(), ReadError>
        ensures reads { Passes result self.new (enclosed_count_at self.old) }
        ensures shrinks { length self.new ≤ length self.old }
    {
        self.mark(Mark::OpenParenthesis)?;
        self.count()?;
        self.mark(Mark::CloseParenthesis)?;
        Ok(())
    }

    /// `none` in parentheses.
    fn enclosed_nothing(&mut self) -> Result<(), ReadError>
        ensures reads { Passes result self.new (enclosed_nothing_at self.old) }
        ensures shrinks { length self.new ≤ length self.old }
    {
        self.mark(Mark::OpenParenthesis)?;
        self.nothing_word()?;
        self.mark(Mark::CloseParenthesis)?;
        Ok(())
    }

    /// What stands behind a word that is passed over.
    fn tail(&mut self, word: Keyword) -> Result<(), ReadError>
        ensures reads { Passes result self.new (tail_at word self.old) }
        ensures shrinks { length self.new ≤ length self.old }
    {
        match word {
            Keyword::Align => self.count_over()?,
            Keyword::Dereferenceable => self.enclosed_count()?,
            Keyword::Captures => self.enclosed_nothing()?,
            _ => {}
        }
        Ok(())
    }

    /// The word that stands next.
    fn first_word(&self) -> Keyword
        ensures { result ≡ first_word self.now }
    {
        match self.rest {
            [
                Tok {
                    kind: Kind::Word(word),
                    ..
                },
                ..
            ] => *word,
            _ => Keyword::Other,
        }
    }

    /// A word that is passed over, with what stands behind it.
    fn passed_word(&mut self) -> Result<(), ReadError>
        ensures reads { Passes result self.new (tail_at (first_word self.old) (behind self.old)) }
        ensures shrinks { length self.new ≤ length (behind self.old) }
    {
        let word = self.first_word();
        self.skip();
        self.tail(word)?;
        Ok(())
    }

    /// Goes over the words at a parameter, argument or result that are passed over, as `noundef` and `align 8`, and,
    /// where they may stand too, those before a global or function, as `dso_local`.
    pub fn passed(&mut self, linkage: bool) -> Result<(), ReadError>
        ensures reads { Passes result self.new (passed_at linkage self.old) }
        ensures shrinks { length self.new ≤ length self.old }
    {
        while self.has_passed(linkage) {
            self.passed_word()?;
        }
        Ok(())
    }

    /// The type of a result behind words that are passed over; none is `void`.
    pub fn passed_result(&mut self, linkage: bool) -> Result<Option<Scalar>, ReadError>
        ensures reads { Gives result self.new (passed_result_at linkage self.old) }
        ensures shrinks { length self.new ≤ length self.old }
    {
        self.passed(linkage)?;
        let [token, ..] = self.rest else {
            return Err(self.fault(FaultKind::Statement));
        };
        let ret = self.picked(result_in(token.kind), word_refusal(token.kind))?;
        Ok(ret)
    }
}
