//! What the functions of each text name there, in tables.
ghost use Rattle.std.specs.Prelude.{◌≡◌, ℕ, Some, [], IfOk, slice_get, unwrap_or};
ghost use Rattle.lx_code.specs.Places.{HasAddresses, at_key};
ghost use Rattle.lx_code.specs.Reach.{IsWithinReach};
ghost use Rattle.lx_code.specs.Targets.{target_of, target_at, table_of, HasTable, HasTables};
ghost use Rattle.lx_model.specs.Program.{module_of};

use crate::places::{Key, addresses_of};
use crate::targets::{Lookup, Target};
use indexmap::IndexMap;
use lx_ir::module::Module;
use lx_model::program::Program;
use lx_words::{Items, Memory, number_of};
use std::alloc::Global;

/// What the functions of the kernel and of each module name, by their numbers there, and the addresses of globals.
pub(crate) struct Tables {
    kernel: Items<Target>,
    modules: Items<Items<Target>>,
    addresses: IndexMap<Key, u64>,
}

impl Drop for Tables {
    fn drop(self) {
        let Tables {
            kernel: _,
            modules: _,
            addresses: _,
        } = self;
    }
}

// What the functions of a text name.
fn table_of(
    alloc: Global,
    lookup: &Lookup<'_>,
    home: Option<u32>,
    text: &Module,
) -> Result<Items<Target>, Memory>
    requires { text.now ≡ module_of lookup.now home }
    ensures { IfOk result (λ table. HasTable lookup.now home table) }
{
    let mut table = Items::new(alloc);
    for function in text.functions.as_slice() {
        table.push(lookup.target(home, table.len(), function))?;
    }
    Ok(table)
}

// What the functions of a module name.
fn module_table(
    alloc: Global,
    lookup: &Lookup<'_>,
    number: usize,
    text: &Module,
) -> Result<Items<Target>, Memory>
    requires { text.now ≡ module_of lookup.now (Some number) }
    ensures { IfOk result (λ table. HasTable lookup.now (Some number) table) }
{
    let home = number_of(number)?;
    let table = table_of(alloc, lookup, Some(home), text)?;
    Ok(table)
}

// What the functions of each module name.
fn module_tables(alloc: Global, lookup: &Lookup<'_>) -> Result<Items<Items<Target>>, Memory>
    ensures { IfOk result (λ tables. (m : ℕ) → HasTable lookup.now (Some m) (unwrap_or (slice_get tables m) [])) }
{
    let mut tables = Items::new(alloc);
    for entry in lookup.program().modules.as_slice() {
        let table = module_table(alloc, lookup, tables.len(), &entry.module)?;
        tables.push(table)?;
    }
    Ok(tables)
}

// What a function names by a text's table.
fn target_at(table: &[Target], function: u32) -> Target
    ensures { target_of result ≡ target_at table.now function }
{
    match table.get(function as usize) {
        Some(target) => *target,
        None => Target::Nowhere,
    }
}

impl Tables {
    /// The tables of a program. More modules than a number of 32 bits counts are want of memory.
    pub(crate) fn new(alloc: Global, program: &Program) -> Result<Tables, Memory>
        requires { IsWithinReach program.now }
        ensures targets { IfOk result (λ tables. HasTables program.now tables.kernel tables.modules) }
        ensures addresses { IfOk result (λ tables. HasAddresses program.now.globals tables.addresses.entries) }
    {
        let lookup = Lookup::new(alloc, program)?;
        let tables = Tables::found(alloc, &lookup, program);
        drop(lookup);
        tables
    }

    // The tables of a program whose names are looked up there. The maps are borrowed, so that they are dropped once, whatever it gives.
    fn found(alloc: Global, lookup: &Lookup<'_>, program: &Program) -> Result<Tables, Memory>
        requires { lookup.now ≡ program.now }
        ensures targets { IfOk result (λ tables. HasTables program.now tables.kernel tables.modules) }
        ensures addresses { IfOk result (λ tables. HasAddresses program.now.globals tables.addresses.entries) }
    {
        let kernel = table_of(alloc, lookup, None, &program.kernel)?;
        let modules = module_tables(alloc, lookup)?;
        let addresses = addresses_of(alloc, program.globals.as_slice())?;
        Ok(Tables {
            kernel,
            modules,
            addresses,
        })
    }

    // The table of a text; an empty one, where there is none.
    fn table(&self, home: Option<u32>) -> &[Target]
        ensures { result.now ≡ table_of self.now.kernel self.now.modules home }
    {
        match home {
            None => self.kernel.as_slice(),
            Some(number) => match self.modules.items.get(number as usize) {
                Some(table) => table.as_slice(),
                None => &[],
            },
        }
    }

    /// What the function with this number in a text names there.
    pub(crate) fn target(&self, home: Option<u32>, function: u32) -> Target
        ensures { target_of result ≡ target_at (table_of self.now.kernel self.now.modules home) function }
    {
        target_at(self.table(home), function)
    }

    /// The address of a global.
    pub(crate) fn address(&self, home: Option<u32>, global: u32) -> Option<u64>
        ensures { result ≡ at_key self.now.addresses.entries home global }
    {
        self.addresses.get(&(home, global as usize)).copied()
    }
}
