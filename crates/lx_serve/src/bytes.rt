//! Requests that read, write and take bytes.
ghost use Rattle.std.specs.Prelude.{◌≡◌, ◌<◌, ◌≤◌, ◌-◌, ℕ, true, false};
ghost use Rattle.lx_caps.specs.Regions.{mapped, stack_end, stack_start};
ghost use Rattle.lx_caps.specs.declared.Principal.{Principal};
ghost use Rattle.lx_model.specs.declared.program.Program.{Program};
ghost use Rattle.lx_model.specs.declared.request.What.TheVariants as what;
ghost use Rattle.lx_model.specs.Fits.{FitsStack};
ghost use Rattle.lx_model.specs.State.{State};
ghost use Rattle.lx_serve.specs.Room.{lacks_memory};
ghost use Rattle.lx_serve.specs.Stands.{Keeps, Tries};
ghost use Rattle.lx_writer_sets.specs.RecordedStands.{spare_of};

use crate::halt::Halt;
use crate::monitor::Monitor;
use crate::rights::{cells_given, give, unless_copied, unless_writable};
use crate::space::{copy, fill, read, write};
use crate::terms::{unless_mapped, unless_room};
use lx_caps::{Cap, CapStore, Principal};
use lx_model::request::Reply;
use lx_words::{Width, Word};

impl<C: CapStore + Drop> Monitor<C> {
    ghost use Rattle.std.specs.Prelude.{◌≡◌, ◌<◌, ◌≤◌, true};

    pub(crate) fn load(&self, at: u64, width: Width) -> Result<Reply, Halt>
        ensures tries { (p : Program) (s : State) (t : ℕ) (by : Principal) → Keeps C.stands p self.now s
            → Tries C.stands p self.now s t by (what.Load at width) result }
        ensures no_memory { lacks_memory result ≡ false }
    {
        let size = width.byte_count();
        if let Some(outcome) = unless_mapped(at, u64::from(size)) {
            return Err(Halt::Ended(outcome));
        }
        Ok(Reply::Value(Word::new(width, read(&self.space, at, size))))
    }

    pub(crate) fn store(&mut self, who: Principal, at: u64, value: Word) -> Result<Reply, Halt>
        ensures tries { (p : Program) (s : State) (t : ℕ) → Keeps C.stands p self.old s
            → Tries C.stands p self.new s t who (what.Store at value) result }
        ensures spare { spare_of C.spare self.new.caps ≡ spare_of C.spare self.old.caps }
        ensures no_memory { lacks_memory result ≡ false }
    {
        let size = value.width.byte_count();
        if let Some(outcome) = unless_writable(&self.caps, who, at, u64::from(size)) {
            return Err(Halt::Ended(outcome));
        }
        write(&mut self.space, at, size, value.bits);
        Ok(Reply::Done)
    }

    pub(crate) fn copy(
        &mut self,
        who: Principal,
        to: u64,
        from: u64,
        len: u64,
    ) -> Result<Reply, Halt>
        ensures tries { (p : Program) (s : State) (t : ℕ) → Keeps C.stands p self.old s
            → Tries C.stands p self.new s t who (what.Copy to from len) result }
        ensures spare { spare_of C.spare self.new.caps ≡ spare_of C.spare self.old.caps }
        ensures no_memory { lacks_memory result ≡ false }
    {
        if let Some(outcome) = unless_copied(&self.caps, who, to, from, len) {
            return Err(Halt::Ended(outcome));
        }
        copy(&mut self.space, to, from, len);
        Ok(Reply::Done)
    }

    pub(crate) fn fill(
        &mut self,
        who: Principal,
        to: u64,
        byte: u8,
        len: u64,
    ) -> Result<Reply, Halt>
        ensures tries { (p : Program) (s : State) (t : ℕ) → Keeps C.stands p self.old s
            → Tries C.stands p self.new s t who (what.Fill to byte len) result }
        ensures spare { spare_of C.spare self.new.caps ≡ spare_of C.spare self.old.caps }
        ensures no_memory { lacks_memory result ≡ false }
    {
        if let Some(outcome) = unless_writable(&self.caps, who, to, len) {
            return Err(Halt::Ended(outcome));
        }
        fill(&mut self.space, to, byte, len);
        Ok(Reply::Done)
    }

    /// Bytes of the stack are zeroed, taken from everyone, and given to a module that asked.
    pub(crate) fn alloca(
        &mut self,
        thread: u32,
        who: Principal,
        at: u64,
        size: u64,
    ) -> Result<Reply, Halt>
        requires thread { thread < 16 }
        requires low { stack_start thread ≤ at }
        ensures tries { (p : Program) (s : State) → Keeps C.stands p self.old s
            → Tries C.stands p self.new s thread who (what.Alloca at size) result }
        ensures spare { spare_of C.spare self.old.caps ≤ spare_of C.spare self.new.caps }
    {
        if let Some(outcome) = unless_room(thread, at, size) {
            return Err(Halt::Ended(outcome));
        }
        let cap = Cap::Write { at, size };
        self.make_more_room(cells_given(who, cap) + 1)?;
        fill(&mut self.space, at, 0, size);
        self.caps.strip(cap);
        give(&mut self.caps, who, cap);
        Ok(Reply::Done)
    }

    /// The bytes of a function that returns are taken from everyone.
    #[tactic(auto, using(crate::proofs::Places::stack_mapped))]
    pub(crate) fn give_back(&mut self, thread: u32, low: u64, high: u64) -> Result<Reply, Halt>
        requires thread { thread < 16 }
        requires stack { FitsStack thread low high }
        ensures tries { (p : Program) (s : State) (by : Principal) → Keeps C.stands p self.old s
            → Tries C.stands p self.new s thread by (what.Return low high) result }
        ensures spare { spare_of C.spare self.old.caps ≤ spare_of C.spare self.new.caps }
    {
        self.make_more_room(1)?;
        self.strip(low, high - low);
        Ok(Reply::Done)
    }
}
