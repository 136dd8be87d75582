//! Room for what a reply needs, so that taking it in takes no memory.
ghost use Rattle.std.specs.Prelude.{◌≡◌, ◌<◌, OnErr, OnOk, true};
ghost use Rattle.lx_images.specs.Image.{Code as Images};
ghost use Rattle.lx_frames.specs.Frames.{CountsOn, HasSpaceOn, IsUnwrapped, past_line_on};
ghost use Rattle.lx_frames.specs.Stack.{CanEnter, CanGoOn, HasRoomFor, IsRoomier, takes_room};

use super::FrameStack;
use crate::registers::empty_with_room;
use lx_image_code::Code;
use lx_model::request::What;
use lx_words::Memory;

impl FrameStack {
    // The function that runs has room for bytes of the stack more.
    fn make_space(&mut self) -> Result<(), Memory>
        ensures space { OnOk result (HasSpaceOn self.new.top) }
        ensures rest { (c : Images) → IsRoomier c self.old self.new }
    {
        if let Some(frame) = &mut self.top {
            frame.make_space()?;
        }
        Ok(())
    }

    /// There is room for the registers of whatever function is entered with so many arguments, and for so many frames.
    ///
    /// # Errors
    /// Want of memory; the frames and the principals stay.
    pub fn prepare(&mut self, code: &Code, args: usize, frames: usize) -> Result<(), Memory>
        ensures prepared { OnOk result (CanEnter code.now self.new args frames) }
        ensures top { self.new.top ≡ self.old.top }
        ensures shadow { self.new.shadow ≡ self.old.shadow }
        ensures rest { (c : Images) → IsRoomier c self.old self.new }
    {
        empty_with_room(&mut self.registers, args, code.most_locals())?;
        self.below.reserve(frames)?;
        Ok(())
    }

    /// There is room for an entry with so many arguments, for so many frames, and for the principal of a wrapper.
    ///
    /// # Errors
    /// Want of memory; the frames and the principals stay.
    pub fn prepare_entry(&mut self, code: &Code, args: usize, frames: usize) -> Result<(), Memory>
        ensures prepared { OnOk result (CanEnter code.now self.new args frames) }
        ensures shadow { OnOk result (0 < self.new.shadow.room) }
        ensures top { self.new.top ≡ self.old.top }
        ensures rest { (c : Images) → IsRoomier c self.old self.new }
    {
        self.prepare(code, args, frames)?;
        self.shadow.make_room()?;
        Ok(())
    }

    // Whether a number counts the lines that the wrapper on top may come to behind an action.
    fn counts_on(&self) -> bool
        ensures { result ≡ true → CountsOn (past_line_on self.now.top) }
    {
        match &self.top {
            Some(frame) => frame.counts_on(),
            None => true,
        }
    }

    /// There is what the reply to an action of the wrapper on top needs: behind it the wrapper may go into its body.
    ///
    /// # Errors
    /// Want of memory, which more lines than a number counts are too; the frames and the principals stay.
    pub fn prepare_line(&mut self, code: &Code) -> Result<(), Memory>
        ensures prepared { OnOk result (CanGoOn code.now self.new self.new.top) }
        ensures top { self.new.top ≡ self.old.top }
        ensures rest { (c : Images) → IsRoomier c self.old self.new }
    {
        if !self.counts_on() {
            return Err(Memory);
        }
        let args = self.args().len();
        self.prepare(code, args, 1)?;
        Ok(())
    }

    /// There is what the reply to a request needs that no wrapper makes. Only an entry and bytes of the stack take memory.
    ///
    /// # Errors
    /// Want of memory; the frames and the principals stay.
    pub fn make_room(&mut self, code: &Code, what: &What) -> Result<(), Memory>
        requires { IsUnwrapped self.old.top }
        ensures room { OnOk result (HasRoomFor code.now self.new what.now) }
        ensures rest { (c : Images) → IsRoomier c self.old self.new }
        ensures lacks { OnErr result (takes_room what.now ≡ true) }
    {
        match what {
            What::Alloca { .. } => self.make_space()?,
            What::Enter { args, .. } => self.prepare_entry(code, args.len(), 2)?,
            What::Load { .. }
            | What::Store { .. }
            | What::Copy { .. }
            | What::Fill { .. }
            | What::Perform { .. }
            | What::Return { .. }
            | What::Native { .. }
            | What::Finish { .. } => {}
        }
        Ok(())
    }
}
