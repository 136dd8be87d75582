//! What takes memory where the instructions of an image are checked.

ghost use Rattle.std.specs.Prelude.{◌≡◌, ◌+◌, ◌<◌, IsTrue, MatchResult, ⊤};
ghost use Rattle.lx_ir.specs.Lawful.{is_lawful_function};
ghost use Rattle.lx_spared.specs.Rooms.{AreRoomsOf};
ghost use Rattle.lx_image_texts.specs.ImageFaults.{reaches_body};

use crate::mentions::reaches_body;
use crate::text::ImageText;
use lx_ir::instr::Op;
use lx_ir::module::{Function, Module};
use lx_spared::{Rooms, rooms_of};
use lx_words::{Memory, Name};
use std::alloc::Global;

/// What takes memory where the instructions of an image are checked. Faults are looked for over any means, so that the
/// contracts can say where want of memory comes: only where the means lacked it, and never in the place of a fault.
pub trait Means {
    /// There was no memory for rooms, operands or a name, or no number of 32 bits for the place of an instruction.
    ghost lacks: { Self → Type 0 };

    /// The rooms by which the stores of a function are spared.
    fn rooms_of(&self, m: &Module, f: &Function) -> Result<Rooms, Memory>
        requires { IsTrue (is_lawful_function m.now f.now) }
        ensures { MatchResult result (AreRoomsOf m.now f.now) (λ _. lacks self.now) };

    /// Whether an instruction calls an import in the place of its wrapper, or mentions a name that images alone have.
    fn reaches_body(&self, text: &ImageText<'_>, op: &Op) -> Result<bool, Memory>
        ensures { MatchResult result (λ reaches. reaches ≡ reaches_body text.now op.now) (λ _. lacks self.now) };

    /// The number of the instruction so many behind another.
    fn behind_by(&self, place: u32, count: usize) -> Result<u32, Memory>
        ensures { MatchResult result (λ n. n ≡ count + place) (λ _. lacks self.now) };

    /// The name of these bytes, for a fault.
    fn name(&self, bytes: &[u8]) -> Result<Name, Memory>
        ensures { MatchResult result (λ name. name ≡ bytes.now) (λ _. lacks self.now) };
}

/// The number of the instruction so many behind another. A text with more instructions than numbers of 32 bits is want of memory.
fn behind_by(place: u32, count: usize) -> Result<u32, Memory>
    ensures { MatchResult result (λ n. n ≡ count + place) (λ _. 0xffffffff < count + place) }
{
    let Ok(count) = u32::try_from(count) else {
        return Err(Memory);
    };
    match place.checked_add(count) {
        Some(place) => Ok(place),
        None => Err(Memory),
    }
}

impl Means for Global {
    ghost lacks = { λ _. ⊤ };

    fn rooms_of(&self, m: &Module, f: &Function) -> Result<Rooms, Memory> {
        let rooms = rooms_of(*self, m, f)?;
        Ok(rooms)
    }

    fn reaches_body(&self, text: &ImageText<'_>, op: &Op) -> Result<bool, Memory> {
        let reaches = reaches_body(*self, text, op)?;
        Ok(reaches)
    }

    fn behind_by(&self, place: u32, count: usize) -> Result<u32, Memory> {
        let place = behind_by(place, count)?;
        Ok(place)
    }

    fn name(&self, bytes: &[u8]) -> Result<Name, Memory> {
        let name = Name::from_bytes(*self, bytes)?;
        Ok(name)
    }
}
