//! Files of the shelf.

ghost use Rattle.std.specs.Prelude.{◌≡◌, ◌≤◌, ◌<◌, ◌≢◌, Some, length, IfOk, string_bytes};
ghost use Rattle.std.specs.Str.{IsAscii};
ghost use Rattle.lx_files.specs.Turns.{Asks, Took, HasLength, most_bytes};

use crate::line::{FaultKind, FaultLine};
use crate::stop::InputStop;
use lx_outside::{Shelf, ShelfFault};
use lx_words::{Items, Memory, Name};
use std::alloc::Global;

/// The bytes that a file may have.
const MOST_BYTES: usize = 1_048_576;

/// The bytes of a text.
pub type Text = Items<u8>;

/// A name of a case as text.
#[tactic(auto, using(crate::proofs::Ascii::name_utf8))]
pub fn name_text(alloc: Global, name: &[u8]) -> Result<String, Memory>
    requires { IsAscii name.now }
    ensures { IfOk result (λ text. string_bytes text ≡ name.now) }
{
    let text = String::from_utf8_lossy(alloc, name)?;
    Ok(text)
}

/// The text of a file, where it does not have too many bytes.
fn text_within(alloc: Global, file: Name, text: Vec<u8>) -> Result<Text, InputStop>
    ensures { HasLength file text.items result }
{
    if text.len() > MOST_BYTES {
        return Err(InputStop::Fault(FaultLine {
            file,
            line: 1,
            kind: FaultKind::Limit,
            number: 1,
            what: Name::from_bytes(alloc, b"file")?,
        }));
    }
    Ok(Text::from_vec(text))
}

/// The text of a file.
pub fn file_text<S: Shelf>(alloc: Global, shelf: &mut S, file: &str) -> Result<Text, InputStop>
    ensures turn { Took (S.files shelf.old) (S.files shelf.new) (S.faults shelf.old) (S.faults shelf.new) (λ files. Asks files file.now) result }
    ensures within { IfOk result (λ text. length text ≤ most_bytes) }
{
    let name = Name::from_bytes(alloc, file.as_bytes())?;
    match shelf.read(alloc, file) {
        Ok(text) => {
            let text = text_within(alloc, name, text)?;
            Ok(text)
        }
        Err(ShelfFault::Failed) => Err(InputStop::Unread(name)),
        Err(ShelfFault::Memory) => Err(InputStop::Memory),
    }
}
