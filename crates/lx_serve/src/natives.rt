//! Calls of natives.
ghost use Rattle.std.specs.Prelude.{◌≡◌, ℕ};
ghost use Rattle.lx_caps.specs.declared.Principal.{Principal};
ghost use Rattle.lx_model.specs.declared.program.Program.{Program};
ghost use Rattle.lx_model.specs.declared.request.What.TheVariants as what;
ghost use Rattle.lx_model.specs.State.{State};
ghost use Rattle.lx_serve.specs.NativeCalls.{TriesNative};
ghost use Rattle.lx_serve.specs.Stands.{Keeps, Tries};
ghost use Rattle.lx_model.specs.Program.{Alloc, Free, ZeroBytes, TryLock, NoteValue, AliasPrincipal};
ghost use Rattle.lx_writer_sets.specs.RecordedStands.{spare_of};

use crate::halt::Halt;
use crate::heap::{give_out, take_back};
use crate::monitor::Monitor;
use crate::space::{fill, read, write};
use crate::terms::{arg, unless_mapped};
use lx_caps::{CapStore, Principal};
use lx_model::account::Note;
use lx_model::request::{Outcome, Refusal, Reply, Trap};
use lx_principals::AliasFault;
use lx_words::{Width, Word};

impl<C: CapStore + Drop> Monitor<C> {
    ghost use Rattle.std.specs.Prelude.{◌≡◌, ◌<◌, ◌≤◌, true};

    fn alloc(&mut self, args: &[Word]) -> Result<Reply, Halt>
        ensures tries { (p : Program) (s : State) (t : ℕ) (by : Principal) → Keeps C.stands p self.old s
            → TriesNative C.stands p self.new s t by Alloc args.now result }
        ensures spare { spare_of C.spare self.new.caps ≡ spare_of C.spare self.old.caps }
    {
        let at = give_out(&mut self.heap, arg(args, 0))?;
        Ok(Reply::Value(Word::new(Width::W64, at)))
    }

    fn free(&mut self, args: &[Word]) -> Result<Reply, Halt>
        ensures tries { (p : Program) (s : State) (t : ℕ) (by : Principal) → Keeps C.stands p self.old s
            → TriesNative C.stands p self.new s t by Free args.now result }
        ensures spare { spare_of C.spare self.new.caps ≡ spare_of C.spare self.old.caps }
    {
        let at = arg(args, 0);
        match take_back(&mut self.heap, at) {
            Ok(()) => Ok(Reply::Done),
            Err(_) => Err(Halt::Ended(Outcome::Trapped(Trap::NotLive { at }))),
        }
    }

    fn zero(&mut self, args: &[Word]) -> Result<Reply, Halt>
        ensures tries { (p : Program) (s : State) (t : ℕ) (by : Principal) → Keeps C.stands p self.old s
            → TriesNative C.stands p self.new s t by ZeroBytes args.now result }
        ensures spare { spare_of C.spare self.new.caps ≡ spare_of C.spare self.old.caps }
    {
        let (at, size) = (arg(args, 0), arg(args, 1));
        if let Some(outcome) = unless_mapped(at, size) {
            return Err(Halt::Ended(outcome));
        }
        fill(&mut self.space, at, 0, size);
        self.caps.zero(at, size);
        Ok(Reply::Done)
    }

    /// The lock is taken where its four bytes are 0.
    fn try_lock(&mut self, args: &[Word]) -> Result<Reply, Halt>
        ensures tries { (p : Program) (s : State) (t : ℕ) (by : Principal) → Keeps C.stands p self.old s
            → TriesNative C.stands p self.new s t by TryLock args.now result }
        ensures spare { spare_of C.spare self.new.caps ≡ spare_of C.spare self.old.caps }
    {
        let at = arg(args, 0);
        if let Some(outcome) = unless_mapped(at, 4) {
            return Err(Halt::Ended(outcome));
        }
        if read(&self.space, at, 4) == 0 {
            write(&mut self.space, at, 4, 1);
            Ok(Reply::Value(Word::new(Width::W32, 1)))
        } else {
            Ok(Reply::Value(Word::new(Width::W32, 0)))
        }
    }

    fn note(&mut self, thread: u32, args: &[Word]) -> Result<Reply, Halt>
        ensures tries { (p : Program) (s : State) (by : Principal) → Keeps C.stands p self.old s
            → TriesNative C.stands p self.new s thread by NoteValue args.now result }
        ensures spare { spare_of C.spare self.new.caps ≡ spare_of C.spare self.old.caps }
    {
        let value = arg(args, 0);
        match self.notes.push(Note { thread, value }) {
            Ok(()) => Ok(Reply::Done),
            Err(_) => Err(Halt::Memory),
        }
    }

    fn alias(&mut self, who: Principal, args: &[Word]) -> Result<Reply, Halt>
        ensures tries { (p : Program) (s : State) (t : ℕ) → Keeps C.stands p self.old s
            → TriesNative C.stands p self.new s t who AliasPrincipal args.now result }
        ensures spare { spare_of C.spare self.new.caps ≡ spare_of C.spare self.old.caps }
    {
        let (known, further) = (arg(args, 0), arg(args, 1));
        match self.names.alias(who, known, further) {
            Ok(()) => Ok(Reply::Done),
            Err(AliasFault::Memory) => Err(Halt::Memory),
            Err(_) => Err(Halt::Ended(Outcome::Refused(Refusal::Alias {
                who,
                known,
                further,
            }))),
        }
    }

    /// Calls a native by its number.
    pub(crate) fn native(
        &mut self,
        thread: u32,
        who: Principal,
        native: u32,
        args: &[Word],
    ) -> Result<Reply, Halt>
        ensures tries { (p : Program) (s : State) → Keeps C.stands p self.old s
            → Tries C.stands p self.new s thread who (what.Native native args.now) result }
        ensures spare { spare_of C.spare self.new.caps ≡ spare_of C.spare self.old.caps }
    {
        match native {
            0 => self.alloc(args),
            1 => self.free(args),
            2 => self.zero(args),
            3 => self.try_lock(args),
            4 => self.note(thread, args),
            _ => self.alias(who, args),
        }
    }
}
