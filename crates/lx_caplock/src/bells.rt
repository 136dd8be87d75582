//! Where those who wait for their turn sleep. Nothing here says whose turn it is: who wakes up looks at the lock.
ghost use Rattle.std.specs.Prelude.{◌≡◌, ◌<◌};

use atomic_table::{Play, Table, TableRule};
use lx_words::Memory;
use std::alloc::Global;
use std::sync::Wait;

// How many bells there are. At most 17 tickets are out at a time, and there are at most 17 threads; a power of two also keeps tickets apart
// where they wrap.
const BELLS: u64 = 32;

// A bell at which nobody sleeps, or is about to.
const QUIET: u64 = 0;

// A bell at which somebody sleeps, or is about to.
const AWAITED: u64 = 1;

// Any words, of which nobody knows anything.
struct Anything;

impl TableRule<u8, (), ()> for Anything {
    ghost holds = { λ _ _. Unit {0} };

    ghost first = { λ _. tt };
}

impl Play<u8, ()> for Anything {
    ghost then = { λ _ _ _ _. Unit {0} };
}

/// Bells that are told apart by numbers, to sleep at.
#[derive(Drop)]
pub(crate) struct Bells {
    table: Table<u8, (), (), Anything, Global>,
    ghost sized: { table.shared.table_id.words ≡ 32 },
}

// Which bell is the number's.
fn bell_of(number: u64) -> usize
    ensures { result < 32 }
{
    (number % BELLS) as usize
}

impl Bells {
    /// Bells at which nobody sleeps.
    ///
    /// # Errors
    /// Want of memory.
    pub(crate) fn new(alloc: Global) -> Result<Bells, Memory> {
        let (table, _seat) = Table::of_words(alloc, &[QUIET; 32], &())?;
        Ok(Bells { table })
    }

    /// Says at the number's bell that somebody is about to sleep. Where that is said already, sleeps there until a wake, and may also
    /// come back for no reason. Whoever waits looks at the lock before each call: between saying and sleeping it then has looked once
    /// more, and who ends a turn looks at the bell behind that, so that one of the two sees the other.
    pub(crate) fn sleep<R: Wait>(&self, rt: &R, number: u64) {
        let bell = bell_of(number);
        let (found, _seat) = self.table.shared.swap_new_seat::<Anything>(bell, AWAITED);
        if found == AWAITED {
            self.table.shared.park(rt, bell, AWAITED as u32);
        }
    }

    /// Wakes who sleeps at the number's bell, and who is about to; says whether there was anybody. It costs a load where nobody is.
    pub(crate) fn wake(&self, number: u64) -> bool {
        let bell = bell_of(number);
        let awaited = self.table.shared.peek(bell) == AWAITED;
        if awaited {
            let (_found, _seat) = self.table.shared.swap_new_seat::<Anything>(bell, QUIET);
            self.table.shared.wake_all(bell);
        }
        awaited
    }

    /// Wakes at the first bell at which somebody sleeps, of those of the numbers below `count`, from one on and round.
    pub(crate) fn wake_one_below(&self, count: u64, from: u64) {
        for k in 0..count {
            if self.wake(from.wrapping_add(k) % count) {
                return;
            }
        }
    }
}
