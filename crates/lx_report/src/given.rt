//! The first names of instances, in a map. It is filled from the last to the first, so that of the names of one instance
//! the first stays.

ghost use Rattle.std.specs.Prelude.{◌≡◌, ℕ, Some, cond, IfOk, OnOk};
ghost use Rattle.lx_report.specs.Given.{at_key, is_of, HasGivenNames};
ghost use Rattle.lx_report.specs.Report.{given_name};

use indexmap::IndexMap;
use lx_model::account::InstanceName;
use lx_words::Memory;
use std::alloc::Global;
use std::marker::Model;

/// A module and an instance of it.
type Key = (u32, u32);

/// Names of instances, and the first one's value by module and instance. Contracts see the names.
#[derive(Drop)]
pub struct GivenNames<'a> {
    names: &'a [InstanceName],
    values: IndexMap<Key, u64>,
}

impl<'a> Model for GivenNames<'a> {
    ghost use Rattle.std.specs.Prelude.{List};
    ghost use Rattle.std.specs.Coded.{coded_list};
    ghost use Rattle.lx_model.specs.declared.account.InstanceName.{InstanceName as Name};
    ghost use Rattle.lx_model.specs.contracts.account.InstanceName as name_row;
    ghost use Rattle.lx_report.specs.Given.{HasGivenNames};

    ghost Value = { List Name };

    ghost coded = { coded_list name_row.the_row.coded };

    ghost view = { λ n. n.names.now };

    ghost invariant = { λ n. HasGivenNames n.names.now n.values.entries };
}

fn put_name(values: &mut IndexMap<Key, u64>, name: &InstanceName) -> Result<(), Memory>
    ensures { OnOk result ((m : ℕ) → (k : ℕ) → at_key values.new.entries m k ≡ cond (is_of m k name.now) (Some name.now.value) (at_key values.old.entries m k)) }
{
    values.insert((name.module, name.instance), name.value)?;
    Ok(())
}

fn filled(alloc: Global, names: &[InstanceName]) -> Result<IndexMap<Key, u64>, Memory>
    ensures { IfOk result (λ values. HasGivenNames names.now values.entries) }
{
    let mut values = IndexMap::new(alloc);
    let mut left = names.len();
    while left > 0 {
        left -= 1;
        put_name(&mut values, &names[left])?;
    }
    Ok(values)
}

impl<'a> GivenNames<'a> {
    /// The names of instances. Want of memory is the only error.
    pub(crate) fn new(alloc: Global, names: &'a [InstanceName]) -> Result<Self, Memory>
        ensures { IfOk result (λ given. given ≡ names.now) }
    {
        let values = filled(alloc, names)?;
        Ok(GivenNames { names, values })
    }

    /// The value by which an instance was named first; 0 where it has no name.
    pub(crate) fn value_of(&self, m: u32, k: u32) -> u64
        ensures { result ≡ given_name self.now m k }
    {
        self.values.get(&(m, k)).copied().unwrap_or(0)
    }
}
