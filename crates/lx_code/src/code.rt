//! The code that a machine runs: what the numbers of a program name.
ghost use Rattle.std.specs.Prelude.{◌≡◌, ◌+◌, ◌<◌, true, IfOk, Some, length, option_copied, option_and_then, slice_get};
ghost use Rattle.lx_model.specs.Program.{module_of, function_of, home_or_kernel, result_width, target};
ghost use Rattle.lx_model.specs.Next.{actions_of, has_action};
ghost use Rattle.lx_code.specs.Reach.{IsWithinReach, CountsActions, count_in};
ghost use Rattle.lx_code.specs.Targets.{target_of};

use crate::named::Names;
use crate::targets::Target;
use crate::words::width_of;
use lx_ir::module::{Function, Module};
use lx_model::program::{Program, ProgramFunction};
use lx_words::{Memory, Width};
use std::alloc::Global;
use std::marker::Model;
use std::sync::Arc;

/// How many actions the annotation of a function has, before its body and behind it.
#[derive(Clone, Copy)]
pub struct ActionCounts {
    pub pre: u32,
    pub post: u32,
}

/// The code of a program, which others may hold too. Contracts see the program.
pub struct Code {
    names: Names,
    actions: Vec<ActionCounts>,
}

impl Drop for Code {
    fn drop(self) {
        let Code {
            names: _,
            actions: _,
        } = self;
    }
}

impl Model for Code {
    ghost use Rattle.lx_model.specs.declared.program.Program.{Program as Meaning};
    ghost use Rattle.lx_code.specs.Runnable.{IsRunnable};
    ghost use Rattle.lx_model.specs.contracts.program.Program as program_row;

    ghost Value = { Meaning };

    ghost coded = { program_row.the_row.coded };

    ghost view = { λ c. c.names };

    ghost invariant = { λ c. IsRunnable c.names c.actions.items };
}

// The function of a text with this number.
fn function_in<'a>(text: &'a Module, number: u32) -> Option<&'a Function>
    ensures { option_copied result ≡ slice_get text.now.functions number }
{
    text.functions.items.get(number as usize)
}

// How many actions stand behind the body, or before it.
fn count_of(counts: &ActionCounts, post: bool) -> u32
    ensures { result ≡ count_in post (Some counts.now) }
{
    if post { counts.post } else { counts.pre }
}

// The width of a function's result.
fn result_of(function: &Function) -> Option<Width>
    ensures { result ≡ result_width function.now }
{
    match &function.ret {
        Some(ty) => Some(width_of(ty)),
        None => None,
    }
}

impl Code {
    ghost use Rattle.std.specs.Arc.{arc_value};

    /// The code of a program, whose functions have so many actions.
    ///
    /// # Errors
    /// Want of memory; more modules than a number of 32 bits counts are that too.
    pub fn new(
        alloc: Global,
        program: Arc<Program>,
        actions: Vec<ActionCounts>,
    ) -> Result<Code, Memory>
        requires reach { IsWithinReach (arc_value program) }
        requires actions { CountsActions (arc_value program) actions.items }
        ensures { IfOk result (λ code. code ≡ arc_value program) }
    {
        let names = Names::new(alloc, program)?;
        Ok(Code { names, actions })
    }

    /// What the names of the program stand for.
    pub(crate) fn names(&self) -> &Names
        ensures { result.now ≡ self.now }
    {
        &self.names
    }

    /// The program that runs.
    pub fn program(&self) -> &Program
        ensures whole { result.now ≡ self.now }
        ensures reach { IsWithinReach self.now }
    {
        self.names.program()
    }

    /// The text of a module, or of the kernel; an empty one, where there is none.
    pub fn text(&self, home: Option<u32>) -> &Module
        ensures { result.now ≡ module_of self.now home }
    {
        self.names.text(home)
    }

    /// Whose text a function runs.
    pub fn home(&self, number: u32) -> Option<u32>
        ensures { result ≡ home_or_kernel self.now number }
    {
        match self.program().functions.items.get(number as usize) {
            Some(ProgramFunction::Of { module, .. }) => *module,
            Some(ProgramFunction::Native(_)) => None,
            None => None,
        }
    }

    // The function with this number, if a text defines it.
    fn function(&self, number: u32) -> Option<&Function>
        ensures { option_copied result ≡ function_of self.now number }
    {
        match self.program().functions.items.get(number as usize) {
            Some(ProgramFunction::Of { module, function }) => {
                function_in(self.text(*module), *function)
            }
            Some(ProgramFunction::Native(_)) => None,
            None => None,
        }
    }

    /// What the function with this number in a text names there.
    pub fn target(&self, home: Option<u32>, function: u32) -> Target
        ensures { target_of result ≡ target self.now home function }
    {
        self.names.target(home, function)
    }

    // How many actions a function has behind its body, or before it.
    fn count(&self, number: u32, post: bool) -> u32
        ensures { result ≡ length (actions_of self.now number post) }
    {
        match self.actions.get(number as usize) {
            Some(counts) => count_of(counts, post),
            None => 0,
        }
    }

    /// Whether a function has an action with this number behind its body, or before it.
    pub fn has_action(&self, number: u32, post: bool, action: u32) -> bool
        ensures has { result ≡ has_action self.now number post action }
        ensures within { result ≡ true → action < 4294967295 }
    {
        action < self.count(number, post)
    }

    /// Whether a function has an action behind the one with this number.
    pub fn has_next(&self, number: u32, post: bool, action: u32) -> bool
        ensures has { result ≡ has_action self.now number post (action + 1) }
        ensures within { result ≡ true → action < 4294967295 }
    {
        u64::from(action) + 1 < u64::from(self.count(number, post))
    }

    /// The width of a function's result, if there is a function and it has one.
    pub fn result_width(&self, number: u32) -> Option<Width>
        ensures { result ≡ option_and_then result_width (function_of self.now number) }
    {
        match self.function(number) {
            Some(function) => result_of(function),
            None => None,
        }
    }
}
