//! Lists that contracts see as lists.

ghost use Rattle.std.specs.Prelude.{◌≡◌, ◌++◌, ◌∷◌, [], ◌==◌, length, is_ok, IfOk, IfErr, if◌then◌else◌, bytes_eq};

use std::alloc::{AllocError, AllocFailed, Global};
use std::fmt;
use std::marker::Model;

/// A list of values.
#[derive(Debug)]
pub struct Items<T> {
    pub items: Vec<T>,
}

impl<T: Drop> Drop for Items<T> {
    fn drop(self) {
        let Items { items: _ } = self;
    }
}

impl<T> Model for Items<T> {
    ghost use Rattle.std.specs.Prelude.{List};
    ghost use Rattle.std.specs.Coded.{coded_list};

    ghost Value = { List T };

    ghost coded = { coded_list T.code };

    ghost view = { λ s. s.items.items };
}

impl<T> Items<T> {
    /// The empty list, which keeps `alloc` for what it is given later.
    pub fn new(alloc: Global) -> Self
        ensures { result ≡ [] }
    {
        Items {
            items: Vec::new(alloc),
        }
    }

    /// The elements of a vector.
    pub fn from_vec(items: Vec<T>) -> Self
        ensures { result ≡ items.items }
    {
        Items { items }
    }

    /// The elements as a vector.
    pub fn into_vec(self) -> Vec<T>
        ensures { result.items ≡ self }
    {
        let Items { items } = self;
        items
    }

    /// The elements in order.
    pub fn as_slice(&self) -> &[T]
        ensures { result.now ≡ self.now }
    {
        self.items.as_slice()
    }

    /// How many elements there are.
    pub fn len(&self) -> usize
        ensures { result ≡ length self.now }
    {
        self.items.len()
    }

    /// Whether there is no element.
    pub fn is_empty(&self) -> bool
        ensures { result ≡ (length self.now == 0) }
    {
        self.items.is_empty()
    }

    /// Adds an element at the end; without memory for it the list stays, and the element comes back.
    pub fn push(&mut self, value: T) -> Result<(), AllocFailed<T>>
        ensures items { self.new ≡ (if is_ok result then self.old ++ value ∷ [] else self.old) }
        ensures value_returned { IfErr result (λ failed. failed.value ≡ value) }
    {
        self.items.push(value)
    }
}

impl<T: Copy> Items<T> {
    /// The list of these values.
    pub fn from_slice(alloc: Global, values: &[T]) -> Result<Self, AllocError>
        ensures { IfOk result (λ list. list ≡ values.now) }
    {
        let items = Vec::from_slice(alloc, values)?;
        Ok(Items { items })
    }
}

impl Items<u8> {
    /// The name of these bytes.
    pub fn from_bytes(alloc: Global, bytes: &[u8]) -> Result<Self, AllocError>
        ensures { IfOk result (λ list. list ≡ bytes.now) }
    {
        Items::from_slice(alloc, bytes)
    }

    /// Whether the bytes are the same.
    pub fn is_same(&self, other: &[u8]) -> bool
        ensures { result ≡ bytes_eq self.now other.now }
    {
        self.items.as_slice() == other
    }
}

/// A name as text, each byte as the character of its number.
impl fmt::Display for Items<u8> {
    fn fmt<W: fmt::Write>(&self, f: &mut fmt::Formatter<W>) -> fmt::Result {
        for byte in self.as_slice() {
            f.write_char(char::from(*byte))?;
        }
        Ok(())
    }
}
