//! A stack of principals.
ghost use Rattle.std.specs.Prelude.{◌≡◌, ◌+◌, ◌<◌, ◌≤◌, ◌∷◌, [], length, IfOk, IsOk, OnOk};
ghost use Rattle.lx_images.specs.Image.{below_top, tail, top};
ghost use Rattle.lx_frames.specs.Shadow.{innermost};

use lx_caps::Principal;
use lx_words::Memory;
use std::alloc::Global;
use std::marker::Model;

/// How many principals there is room for from the beginning: as many as the wrappers of code that a checker accepts may
/// push, one for each function that runs and one for a wrapper that is not in its body.
const FIRST_ROOM: usize = 257;

/// The principals of a thread's wrappers. Contracts see their list, the innermost first, and the room for more.
pub struct Shadow {
    principals: Vec<Principal>,
}

impl Drop for Shadow {
    fn drop(self) {
        let Shadow { principals: _ } = self;
    }
}

impl Model for Shadow {
    ghost use Rattle.std.specs.Prelude.{◌-◌, ◌≤◌, reverse, vec_capacity, vec_len};
    ghost use Rattle.lx_frames.specs.Shadow.{Stack};

    ghost Value = { Stack };

    ghost view = { λ s. record { principals = reverse s.principals.items; room = vec_capacity s.principals - vec_len s.principals } };

    ghost invariant = { λ s. 257 ≤ vec_capacity s.principals };
}

impl Shadow {
    /// No principal, with room for 257.
    ///
    /// # Errors
    /// Want of memory.
    pub fn open(alloc: Global) -> Result<Shadow, Memory>
        ensures empty { IfOk result (λ s. s.principals ≡ []) }
        ensures room { IfOk result (λ s. 257 ≤ s.room) }
    {
        let principals = Vec::with_capacity(alloc, FIRST_ROOM)?;
        Ok(Shadow { principals })
    }

    /// How many principals there are.
    pub fn len(&self) -> usize
        ensures { result ≡ length self.now.principals }
    {
        self.principals.len()
    }

    /// For how many more there is room.
    pub fn room(&self) -> usize
        ensures { result ≡ self.now.room }
    {
        self.principals.capacity() - self.principals.len()
    }

    /// Makes room for one more. Fewer than 257 have it from the beginning, and then this takes no memory.
    ///
    /// # Errors
    /// Want of memory; the principals stay.
    pub fn make_room(&mut self) -> Result<(), Memory>
        ensures room { OnOk result (0 < self.new.room) }
        ensures first { length self.old.principals < 257 → IsOk result }
        ensures grows { self.old.room ≤ self.new.room }
        ensures stays { self.new.principals ≡ self.old.principals }
    {
        if self.principals.len() == self.principals.capacity() {
            self.principals.reserve(1)?;
        }
        Ok(())
    }

    /// A principal goes on top. This takes no memory.
    pub fn push(&mut self, principal: Principal)
        requires { 0 < self.old.room }
        ensures on_top { self.new.principals ≡ principal ∷ self.old.principals }
        ensures takes { self.old.room ≤ self.new.room + 1 }
    {
        if self.principals.push(principal).is_err() {
            unreachable!()
        }
    }

    /// Takes the top one away; none, exactly where there is none.
    pub fn pop(&mut self) -> Option<Principal>
        ensures popped { result ≡ innermost self.old.principals }
        ensures rest { self.new.principals ≡ tail self.old.principals }
        ensures grows { self.old.room ≤ self.new.room }
    {
        self.principals.pop()
    }

    /// The top one, and the kernel where there is none.
    pub fn top(&self) -> Principal
        ensures { result ≡ top self.now.principals }
    {
        match self.principals.last() {
            Some(principal) => *principal,
            None => Principal::Kernel,
        }
    }

    /// The one below the top one, and the kernel where there is none.
    pub fn below_top(&self) -> Principal
        ensures { result ≡ below_top self.now.principals }
    {
        let count = self.principals.len();
        if count < 2 {
            return Principal::Kernel;
        }
        self.principals[count - 2]
    }

    /// No principal is left.
    pub fn clear(&mut self)
        ensures empty { self.new.principals ≡ [] }
        ensures grows { self.old.room ≤ self.new.room }
    {
        self.principals.clear();
    }
}
