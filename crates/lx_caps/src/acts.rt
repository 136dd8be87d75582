// A list of acts that contracts see.
ghost use Rattle.std.specs.Prelude.{◌≡◌, ◌+◌, ◌<◌, ◌≤◌, ◌∷◌, [], ◌++◌, OnOk};

use crate::Act;
use lx_words::Memory;
use std::alloc::Global;
use std::marker::Model;

/// Acts, the oldest first, seen as their list and the room for more.
pub struct Acts {
    acts: Vec<Act>,
}

impl Drop for Acts {
    fn drop(self) {
        let Acts { acts: _ } = self;
    }
}

impl Model for Acts {
    ghost use Rattle.std.specs.Prelude.{◌-◌, vec_capacity, vec_len};
    ghost use Rattle.lx_caps.specs.Acts.{Kept};

    ghost Value = { Kept };

    ghost view = { λ a. record { list = a.acts.items; room = vec_capacity a.acts - vec_len a.acts } };
}

impl Acts {
    /// An empty list.
    pub fn new(alloc: Global) -> Self
        ensures { result.list ≡ [] }
    {
        Acts {
            acts: Vec::new(alloc),
        }
    }

    /// The list of these acts. It takes no memory.
    pub fn from_vec(acts: Vec<Act>) -> Self
        ensures { result.list ≡ acts.items }
    {
        Acts { acts }
    }

    /// The acts. It takes no memory.
    pub fn into_vec(self) -> Vec<Act>
        ensures { result.items ≡ self.list }
    {
        let Acts { acts } = self;
        acts
    }

    pub fn as_slice(&self) -> &[Act]
        ensures { result.now ≡ self.now.list }
    {
        self.acts.as_slice()
    }

    pub(crate) fn reserve(&mut self, n: u64) -> Result<(), Memory>
        ensures room { OnOk result (n ≤ self.new.room) }
        ensures grows { self.old.room ≤ self.new.room }
        ensures stays { self.new.list ≡ self.old.list }
    {
        self.acts.reserve(n as usize)?;
        Ok(())
    }

    pub(crate) fn push(&mut self, act: Act)
        requires { 0 < self.old.room }
        ensures appends { self.new.list ≡ self.old.list ++ act ∷ [] }
        ensures takes { self.old.room ≤ self.new.room + 1 }
    {
        self.acts.push(act).unwrap();
    }
}
