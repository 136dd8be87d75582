//! Things with names, numbered in order.

ghost use Rattle.std.specs.Prelude.{◌≡◌, ◌<◌, ◌^◌, [], length, slice_get, IfOk, OnOk};
ghost use Rattle.lx_ir_tables.specs.Numbering.{numbering, numbers_from, table_of, with_thing, is_free, is_new, noted, forgotten};

use lx_words::Memory;
use std::alloc::Global;
use std::marker::Model;

/// Things with names, in order, and for each name of a table of names the number of the thing that it names. A name is
/// its number in that table; a thing whose name is not in it has none.
#[derive(Drop)]
pub struct Numbering {
    things: Vec<Option<u32>>,
    table: Vec<Option<u32>>,
}

impl Model for Numbering {
    ghost use Rattle.std.specs.Prelude.{◌≡◌, ◌<◌, ◌^◌, length};
    ghost use Rattle.lx_ir_tables.specs.Numbering.{Numbering as Meaning, numbering, numbers_from};

    ghost Value = { Meaning };

    ghost view = { λ t. numbering (length t.table.items) t.things.items };

    ghost invariant = { λ t. (t.table.items ≡ numbers_from 0 (length t.table.items) t.things.items) × (length t.things.items < 2 ^ 32) };
}

/// A table of so many names that name nothing.
#[tactic(auto, using(crate::proofs::Noting::free_table))]
fn empty_table(alloc: Global, count: u32) -> Result<Vec<Option<u32>>, Memory>
    ensures { IfOk result (λ table. table.items ≡ numbers_from 0 count []) }
{
    let nothing: Option<u32> = None;
    let table = vec![in alloc; nothing; count as usize]?;
    Ok(table)
}

/// Notes the number of a thing, where its name names nothing yet.
fn note(table: &mut Vec<Option<u32>>, name: Option<u32>, number: u32)
    ensures { table.new.items ≡ noted table.old.items name number }
{
    let Some(name) = name else {
        return;
    };
    if let Some(None) = table.get(name as usize) {
        table[name as usize] = Some(number);
    }
}

/// Takes back that the last thing was noted.
fn forget(table: &mut Vec<Option<u32>>, name: Option<u32>, number: u32)
    ensures { table.new.items ≡ forgotten table.old.items name number }
{
    let Some(name) = name else {
        return;
    };
    if let Some(Some(noted)) = table.get(name as usize) {
        if *noted == number {
            table[name as usize] = None;
        }
    }
}

/// Takes all things away, and back that they were noted.
fn forget_all(things: &mut Vec<Option<u32>>, table: &mut Vec<Option<u32>>)
    requires table { table.old.items ≡ numbers_from 0 (length table.old.items) things.old.items }
    requires few { length things.old.items < 2 ^ 32 }
    ensures none { things.new.items ≡ [] }
    ensures table { table.new.items ≡ numbers_from 0 (length table.old.items) [] }
{
    while let Some(name) = things.pop() {
        forget(table, name, things.len() as u32);
    }
}

/// Whether a table has the name, and it names nothing.
fn is_free(table: &[Option<u32>], name: u32) -> bool
    ensures { result ≡ is_free (slice_get table.now name) }
{
    matches!(table.get(name as usize), Some(None))
}

impl Numbering {
    /// No things, over a table of so many names.
    pub fn new(alloc: Global, count: u32) -> Result<Self, Memory>
        ensures { IfOk result (λ t. t ≡ numbering count []) }
    {
        let table = empty_table(alloc, count)?;
        Ok(Numbering {
            things: Vec::new(alloc),
            table,
        })
    }

    /// How many things there are.
    pub fn len(&self) -> u32
        ensures { result ≡ length self.now.things }
    {
        self.things.len() as u32
    }

    /// The things by their names.
    pub fn things(&self) -> &[Option<u32>]
        ensures { result.now ≡ self.now.things }
    {
        self.things.as_slice()
    }

    /// For each name the number of the thing that it names.
    pub fn table(&self) -> &[Option<u32>]
        ensures { result.now ≡ table_of self.now }
    {
        self.table.as_slice()
    }

    /// Whether the table has the name, and it names nothing yet.
    pub fn is_new(&self, name: u32) -> bool
        ensures { result ≡ is_new self.now name }
    {
        is_free(self.table.as_slice(), name)
    }

    /// A thing more. Without memory for it, or a number, there is no more to say of the things.
    pub fn add(&mut self, name: Option<u32>) -> Result<(), Memory>
        ensures { OnOk result (self.new ≡ with_thing self.old name) }
    {
        let number = self.things.len();
        if number >= u32::MAX as usize {
            return Err(Memory);
        }
        self.things.push(name)?;
        note(&mut self.table, name, number as u32);
        Ok(())
    }

    /// Takes all things away; the names stay.
    pub fn clear(&mut self)
        ensures { self.new ≡ numbering self.old.count [] }
    {
        forget_all(&mut self.things, &mut self.table);
    }
}
