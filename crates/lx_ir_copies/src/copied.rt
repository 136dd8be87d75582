//! What can be copied, and lists of it.
ghost use Rattle.std.specs.Prelude.{◌≡◌, ◌++◌, ◌∷◌, [], IfOk, OnOk};

use lx_words::{Items, Memory, Name};
use std::alloc::Global;

/// A value of which there is another where there is memory for it.
pub trait Copied {
    ghost use Rattle.std.specs.Prelude.{◌≡◌, IfOk};

    /// A copy.
    ///
    /// # Errors
    /// Want of memory.
    fn copied(&self, alloc: Global) -> Result<Self, Memory>
        ensures { IfOk result (λ copy. copy ≡ self.now) };
}

impl Copied for Name {
    fn copied(&self, alloc: Global) -> Result<Name, Memory> {
        let name = Name::from_bytes(alloc, self.as_slice())?;
        Ok(name)
    }
}

fn push_copy<T: Copied + Drop>(alloc: Global, list: &mut Items<T>, value: &T) -> Result<(), Memory>
    ensures { OnOk result (list.new ≡ list.old ++ value.now ∷ []) }
{
    let copy = value.copied(alloc)?;
    list.push(copy)?;
    Ok(())
}

fn push_copies<T: Copied + Drop>(
    alloc: Global,
    list: &mut Items<T>,
    values: &[T],
) -> Result<(), Memory>
    ensures { OnOk result (list.new ≡ list.old ++ values.now) }
{
    for value in values {
        push_copy(alloc, list, value)?;
    }
    Ok(())
}

/// Copies of these values, in order.
///
/// # Errors
/// Want of memory.
pub fn copies<T: Copied + Drop>(alloc: Global, values: &[T]) -> Result<Items<T>, Memory>
    ensures { IfOk result (λ list. list ≡ values.now) }
{
    let mut list = Items::new(alloc);
    match push_copies(alloc, &mut list, values) {
        Ok(()) => Ok(list),
        Err(why) => {
            drop(list);
            Err(why)
        }
    }
}
