//! A case as far as its statements are read.

ghost use Rattle.std.specs.Prelude.{◌≡◌, ◌+◌, ◌<◌, ◌≤◌, [], ◌∷◌, ◌++◌, length, position, bytes_eq, is_some, false, IfOk, OnOk, OnErr};
ghost use Rattle.lx_script.specs.Reading.{Gives, call_at, file_of_module, module_at, module_named, names_of, statement_at, statement_by, thread_at, with_call};

use crate::case::{Case, CaseCall, CaseThread, CaseThreads, Origin};
use crate::fault::{FaultKind, ReadError, met};
use crate::keyword::{CALL, MODULE, THREAD};
use crate::modules::Modules;
use crate::reading::{call, end, word};
use crate::statement::Statement;
use crate::symbol::names_module;
use lx_words::Memory;
use std::alloc::{AllocFailed, Global};
use std::marker::Model;

const MOST_MODULES: u32 = 64;

const MOST_THREADS: usize = 16;

const MOST_CALLS: u32 = 4096;

/// What the statements so far say.
#[derive(Drop)]
pub struct Draft<'a> {
    modules: Modules<'a>,
    threads: CaseThreads,
    calls: u32,
    fuel: u32,
}

impl<'a> Model for Draft<'a> {
    ghost use Rattle.lx_script.specs.Reading.{Draft as Said, IsCounted};

    ghost Value = { Said };

    ghost view = { λ d. record { modules = d.modules; threads = d.threads } };

    ghost invariant = { λ d. IsCounted d.modules d.threads d.calls d.fuel };
}

/// Adds a call to the last thread; without memory for it the threads stay.
fn push_call(threads: &mut CaseThreads, call: CaseCall) -> Result<(), AllocFailed<CaseCall>>
    requires { 0 < length threads.old }
    ensures ok { OnOk result (threads.new ≡ with_call call threads.old) }
    ensures err { OnErr result (threads.new ≡ threads.old) }
{
    let last = threads.len() - 1;
    threads.items[last].push(call)?;
    Ok(())
}

impl<'a> Draft<'a> {
    /// Nothing.
    pub fn new(alloc: Global) -> Self
        ensures { result ≡ record { modules = []; threads = [] } }
    {
        Draft {
            modules: Modules::new(alloc),
            threads: CaseThreads::new(alloc),
            calls: 0,
            fuel: 0,
        }
    }

    /// Adds a module of a name that is new.
    #[tactic(auto, unfolding(crate::specs::Reading::file_of_module))]
    fn add_file(
        &mut self,
        alloc: Global,
        name: &'a [u8],
        s: &mut Statement<'a>,
    ) -> Result<(), ReadError>
        requires room { length self.old.modules < 64 }
        requires new { is_some (position (bytes_eq name.now) (names_of self.old.modules)) ≡ false }
        ensures { Gives (λ _. self.new) result (file_of_module self.old name.now s.old) }
    {
        let file = word(alloc, s)?;
        end(alloc, s)?;
        self.modules.add(name, file)?;
        Ok(())
    }

    /// Adds a module of a name.
    #[tactic(auto, unfolding(crate::specs::Reading::module_named))]
    fn add_named(
        &mut self,
        alloc: Global,
        row: u32,
        name: &'a [u8],
        s: &mut Statement<'a>,
    ) -> Result<(), ReadError>
        requires { length self.old.modules < 64 }
        ensures { Gives (λ _. self.new) result (module_named self.old row name.now s.old) }
    {
        if !names_module(name) {
            return Err(met(alloc, FaultKind::Statement, row, name));
        }
        if self.modules.number_of(name).is_some() {
            return Err(met(alloc, FaultKind::Twice, row, name));
        }
        self.add_file(alloc, name, s)?;
        Ok(())
    }

    /// Adds a module.
    #[tactic(auto, unfolding(crate::specs::Reading::module_at))]
    fn add_module(&mut self, alloc: Global, s: &mut Statement<'a>) -> Result<(), ReadError>
        ensures { Gives (λ _. self.new) result (module_at self.old s.old) }
    {
        let row = s.row;
        if !self.threads.is_empty() {
            return Err(met(alloc, FaultKind::Statement, row, MODULE));
        }
        if self.modules.len() >= MOST_MODULES {
            return Err(met(alloc, FaultKind::Limit, row, b"modules"));
        }
        let name = word(alloc, s)?;
        self.add_named(alloc, row, name, s)?;
        Ok(())
    }

    /// Adds a thread without calls.
    #[tactic(auto, unfolding(crate::specs::Reading::thread_at))]
    fn add_thread(&mut self, alloc: Global, s: &mut Statement<'_>) -> Result<(), ReadError>
        ensures { Gives (λ _. self.new) result (thread_at self.old s.old) }
    {
        if self.threads.len() >= MOST_THREADS {
            return Err(met(alloc, FaultKind::Limit, s.row, b"threads"));
        }
        end(alloc, s)?;
        self.threads.push(CaseThread::new(alloc))?;
        Ok(())
    }

    /// Adds a call to the last thread.
    #[tactic(auto, unfolding(crate::specs::Reading::call_at))]
    fn add_call(&mut self, alloc: Global, s: &mut Statement<'_>) -> Result<(), ReadError>
        ensures { Gives (λ _. self.new) result (call_at self.old s.old) }
    {
        if self.threads.is_empty() {
            return Err(met(alloc, FaultKind::Statement, s.row, CALL));
        }
        if self.calls >= MOST_CALLS {
            return Err(met(alloc, FaultKind::Limit, s.row, b"calls"));
        }
        let call = call(alloc, &self.modules, self.fuel, s)?;
        let fuel = call.fuel;
        push_call(&mut self.threads, call)?;
        self.calls += 1;
        self.fuel += fuel;
        Ok(())
    }

    /// Adds what a statement says, of which `first` is the first word.
    #[tactic(auto, unfolding(crate::specs::Reading::statement_by))]
    fn add_by(
        &mut self,
        alloc: Global,
        row: u32,
        first: &[u8],
        s: &mut Statement<'a>,
    ) -> Result<(), ReadError>
        ensures { Gives (λ _. self.new) result (statement_by self.old row first.now s.old) }
    {
        if first == MODULE {
            self.add_module(alloc, s)?;
        } else if first == THREAD {
            self.add_thread(alloc, s)?;
        } else if first == CALL {
            self.add_call(alloc, s)?;
        } else {
            return Err(met(alloc, FaultKind::Statement, row, first));
        }
        Ok(())
    }

    /// Adds what a statement says.
    #[tactic(auto, unfolding(crate::specs::Reading::statement_at))]
    pub fn add(&mut self, alloc: Global, s: &mut Statement<'a>) -> Result<(), ReadError>
        ensures { Gives (λ _. self.new) result (statement_at self.old s.old) }
    {
        let row = s.row;
        let first = word(alloc, s)?;
        self.add_by(alloc, row, first, s)?;
        Ok(())
    }

    /// The case that all statements say.
    pub fn into_case(self, alloc: Global, kernel: Origin, interface: Origin) -> Result<Case, Memory>
        ensures { IfOk result (λ c. c ≡ record { kernel = kernel; interface = interface; modules = self.entry.modules; threads = self.entry.threads }) }
    {
        let modules = self.modules.to_list(alloc)?;
        Ok(Case {
            kernel,
            interface,
            modules,
            threads: self.threads,
        })
    }
}
