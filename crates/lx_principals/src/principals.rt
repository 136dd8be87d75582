//! Instances by name.
ghost use Rattle.std.specs.Prelude.{◌≡◌, ◌<◌, ℕ, suc, [], ◌∷◌, ◌++◌, None, length, slice_index, slice_set, IfOk, IfSome, OnErr, OnOk};
ghost use Rattle.std.specs.List.{IsDistinct};
ghost use Rattle.std.specs.Map.{keys_of, lookup};
ghost use Rattle.lx_principals.specs.Kept.{same_pair};

use crate::fault::AliasFault;
use indexmap::IndexMap;
use lx_caps::Principal;
use lx_words::Memory;
use std::alloc::{AllocError, Global};
use std::marker::Model;

/// The names of the instances of modules. Contracts see how many modules there are, and the acts that gave the names,
/// the newest first.
pub struct Principals {
    /// The instance of each module's value, in the order in which the names were given.
    names: IndexMap<(u32, u64), u32>,
    /// The first name of each module's instance.
    firsts: IndexMap<(u32, u32), u64>,
    /// How many instances each module has.
    counts: Vec<u32>,
}

impl Drop for Principals {
    fn drop(self) {
        let Principals {
            names: _,
            firsts: _,
            counts: _,
        } = self;
    }
}

impl Model for Principals {
    ghost use Rattle.std.specs.Prelude.{length};
    ghost use Rattle.lx_principals.specs.Instances.{Instances};
    ghost use Rattle.lx_principals.specs.Kept.{IsKept, namings};

    ghost Value = { Instances };

    ghost view = { λ p. record { modules = length p.counts.items; names = namings p.names.entries } };

    ghost invariant = { λ p. IsKept p.names.entries p.firsts.entries p.counts.items };
}

/// Adds a name that the table lacks, at its end.
fn put_name(
    names: &mut IndexMap<(u32, u64), u32>,
    name: (u32, u64),
    instance: u32,
) -> Result<(), AllocError>
    requires { lookup (same_pair name) names.old.entries ≡ None }
    ensures ok { OnOk result (names.new.entries ≡ names.old.entries ++ (name, instance) ∷ []) }
    ensures once { OnOk result (IsDistinct same_pair (keys_of names.new.entries)) }
    ensures err { OnErr result (names.new.entries ≡ names.old.entries) }
{
    names.insert(name, instance)?;
    Ok(())
}

/// No instance of so many modules.
fn no_counts(alloc: Global, modules: u32) -> Result<Vec<u32>, AllocError>
    ensures { IfOk result (λ counts. (length counts.items ≡ modules) × ((m : ℕ) → m < modules → slice_index counts.items m ≡ 0)) }
{
    let counts = vec![in alloc; 0; modules as usize]?;
    Ok(counts)
}

/// The number of a module's next instance, which is how many it has, where one more can be counted.
fn next_number(counts: &[u32], home: u32) -> Result<u32, Memory>
    requires { home < length counts.now }
    ensures number { IfOk result (λ n. n ≡ slice_index counts.now home) }
    ensures small { IfOk result (λ n. n < 0xffffffff) }
    ensures last { OnErr result (slice_index counts.now home ≡ 0xffffffff) }
{
    let number = counts[home as usize];
    if number < u32::MAX {
        Ok(number)
    } else {
        Err(Memory)
    }
}

/// Counts one more instance of a module.
fn count_one(counts: &mut Vec<u32>, home: u32)
    requires there { home < length counts.old.items }
    requires small { slice_index counts.old.items home < 0xffffffff }
    ensures { counts.new.items ≡ slice_set counts.old.items home (suc (slice_index counts.old.items home)) }
{
    counts[home as usize] += 1;
}

impl Principals {
    ghost use Rattle.lx_caps.specs.Names.{named, instance_count, first_name, new_instance};
    ghost use Rattle.lx_caps.specs.declared.Principal.TheVariants.{Inst};
    ghost use Rattle.lx_principals.specs.Instances.{number_named, with_instance};
    ghost use Rattle.lx_principals.specs.Aliases.{current, alias_fault, with_alias, fault_told};

    /// So many modules, none of which has an instance.
    ///
    /// # Errors
    /// Want of memory.
    pub fn new(alloc: Global, modules: u32) -> Result<Self, Memory>
        ensures { IfOk result (λ p. p ≡ record { modules = modules; names = [] }) }
    {
        let counts = no_counts(alloc, modules)?;
        Ok(Principals {
            names: IndexMap::new(alloc),
            firsts: IndexMap::new(alloc),
            counts,
        })
    }

    /// How many modules there are.
    pub fn modules(&self) -> usize
        ensures modules { result ≡ self.now.modules }
        ensures small { result < 0x100000000 }
    {
        self.counts.len()
    }

    /// How many instances a module has.
    pub fn count(&self, home: u32) -> u32
        requires { home < self.now.modules }
        ensures { result ≡ instance_count self.now.names home }
    {
        self.counts[home as usize]
    }

    /// The instance of a module that the value names, if it names one.
    fn find(&self, home: u32, value: u64) -> Option<u32>
        ensures named { result ≡ named self.now.names home value }
        ensures below { IfSome result (λ k. k < instance_count self.now.names home) }
    {
        self.names.get(&(home, value)).copied()
    }

    /// Makes the module's next instance, with a name that names nobody.
    fn make(&mut self, home: u32, value: u64) -> Result<u32, Memory>
        requires there { home < self.old.modules }
        requires unnamed { named self.old.names home value ≡ None }
        ensures number { IfOk result (λ k. k ≡ instance_count self.old.names home) }
        ensures ok { OnOk result (self.new ≡ record { modules = self.old.modules; names = new_instance self.old.names home value ∷ self.old.names }) }
        ensures err { OnErr result (self.new ≡ self.old) }
    {
        let number = next_number(&self.counts, home)?;
        self.firsts.reserve(1)?;
        put_name(&mut self.names, (home, value), number)?;
        self.firsts.insert((home, number), value).unwrap();
        count_one(&mut self.counts, home);
        Ok(number)
    }

    /// The instance of a module that the value names. Where it names nobody, the module's next instance is made, and
    /// this is its first name.
    ///
    /// # Errors
    /// Want of memory, which changes nothing. More instances of a module than a `u32` counts are want of memory too. A value
    /// that is a name already takes no memory.
    pub fn named(&mut self, home: u32, value: u64) -> Result<Principal, Memory>
        requires { home < self.old.modules }
        ensures principal { IfOk result (λ p. p ≡ Inst home (number_named self.old.names home value)) }
        ensures ok { OnOk result (self.new ≡ record { modules = self.old.modules; names = with_instance self.old.names home value }) }
        ensures err { OnErr result (self.new ≡ self.old) }
        ensures known { OnErr result (named self.old.names home value ≡ None) }
    {
        let instance = match self.find(home, value) {
            Some(instance) => instance,
            None => self.make(home, value)?,
        };
        Ok(Principal::Inst(home, instance))
    }

    /// The caller's module and the number of its instance with this name, where the caller is that instance or the
    /// module's global principal.
    fn current(&self, who: Principal, known: u64) -> Option<(u32, u32)>
        ensures current { result ≡ current self.now.names who known }
        ensures below { IfSome result (λ i. i.1 < instance_count self.now.names i.0) }
    {
        match who {
            Principal::Kernel | Principal::Shared(_) => None,
            Principal::Global(home) => {
                let instance = self.find(home, known)?;
                Some((home, instance))
            }
            Principal::Inst(home, own) => {
                let instance = self.find(home, known)?;
                if own == instance {
                    Some((home, instance))
                } else {
                    None
                }
            }
        }
    }

    /// Gives an instance that there is a name that names nobody.
    fn name(&mut self, home: u32, instance: u32, value: u64) -> Result<(), Memory>
        requires there { instance < instance_count self.old.names home }
        requires unnamed { named self.old.names home value ≡ None }
        ensures ok { OnOk result (self.new ≡ record { modules = self.old.modules; names = record { «module» = home; value = value; instance = instance } ∷ self.old.names }) }
        ensures err { OnErr result (self.new ≡ self.old) }
    {
        put_name(&mut self.names, (home, value), instance)?;
        Ok(())
    }

    /// Gives the instance of the caller's module that is named `known` the further name `further`.
    ///
    /// # Errors
    /// First `NotCurrent`, exactly where `known` names nobody in the caller's module, or the caller is neither that
    /// instance nor the module's global principal; then `NameTaken`, exactly where `further` names somebody there.
    /// An error, want of memory too, changes nothing.
    pub fn alias(&mut self, who: Principal, known: u64, further: u64) -> Result<(), AliasFault>
        ensures fault { alias_fault self.old.names who known further ≡ fault_told result }
        ensures ok { OnOk result (self.new ≡ record { modules = self.old.modules; names = with_alias self.old.names who known further }) }
        ensures err { OnErr result (self.new ≡ self.old) }
    {
        let Some((home, instance)) = self.current(who, known) else {
            return Err(AliasFault::NotCurrent { known });
        };
        if self.find(home, further).is_some() {
            return Err(AliasFault::NameTaken { further });
        }
        self.name(home, instance, further)?;
        Ok(())
    }

    /// The first name of a module's instance. `None` exactly where there is no such instance.
    pub fn first_name(&self, home: u32, instance: u32) -> Option<u64>
        ensures { result ≡ first_name self.now.names home instance }
    {
        self.firsts.get(&(home, instance)).copied()
    }
}
