//! An image, with what is looked up in it.
ghost use Rattle.std.specs.Prelude.{◌≡◌, ◌++◌, ◌∷◌, [], Some, is_some, slice_get, IfOk};
ghost use Rattle.lx_image_texts.specs.ImageFaults.{may_call, may_call_function, wraps_import};
ghost use Rattle.lx_image_marks.specs.Named.{callable_of};

use crate::imports::Imports;
use crate::names::{is_alias, is_own_name};
use lx_ir::instr::Callee;
use lx_ir::module::{Function, Module, Symbol};
use lx_words::Memory;
use std::alloc::Global;
use std::marker::Model;

// Whether some import has a wrapper of this name.
#[tactic(auto, using(crate::proofs::Firsts::wraps))]
fn wraps_import(imports: &Imports<'_>, name: &[u8]) -> bool
    ensures { result ≡ wraps_import imports.now name.now }
{
    imports.wrapped_number(name).is_some()
}

// Whether a function may be called: a wrapper of an import, what the program defines, and the import that has no wrapper.
fn may_call_function(imports: &Imports<'_>, f: &Function) -> bool
    ensures { result ≡ may_call_function imports.now (Some f.now) }
{
    let is_defined = f.blocks.is_some();
    if is_own_name(f.name.as_slice()) {
        is_defined && wraps_import(imports, f.name.as_slice())
    } else {
        is_defined || is_alias(f)
    }
}

// Whether each function may be called.
#[tactic(auto, using(std::proofs::lemmas::Grind::common_steps))]
fn callable_of(alloc: Global, imports: &Imports<'_>) -> Result<Vec<bool>, Memory>
    ensures { IfOk result (λ callable. callable.items ≡ callable_of imports.now) }
{
    let mut callable = Vec::new(alloc);
    let text = imports.text();
    for f in text.functions.as_slice() {
        callable.push(may_call_function(imports, f))?;
    }
    Ok(callable)
}

fn is_callable(callable: &[bool], number: u32) -> Option<bool>
    ensures { result ≡ slice_get callable.now number }
{
    callable.get(number as usize).copied()
}

/// An image, with which of its functions may be called. Contracts see the image.
#[derive(Drop)]
pub struct ImageText<'a> {
    imports: Imports<'a>,
    callable: Vec<bool>,
}

impl<'a> Model for ImageText<'a> {
    ghost use Rattle.std.specs.Prelude.{◌≡◌};
    ghost use Rattle.lx_ir.specs.declared.module.Module.{Module as Meaning};
    ghost use Rattle.lx_ir.specs.contracts.module.Module as module_row;
    ghost use Rattle.lx_image_marks.specs.Named.{callable_of};

    ghost Value = { Meaning };

    ghost coded = { module_row.the_row.coded };

    ghost view = { λ t. t.imports };

    ghost invariant = { λ t. t.callable.items ≡ callable_of t.imports };
}

impl<'a> ImageText<'a> {
    /// That of an image.
    ///
    /// # Errors
    /// Want of memory.
    pub fn new(alloc: Global, image: &'a Module) -> Result<Self, Memory>
        ensures { IfOk result (λ text. text ≡ image.now) }
    {
        let imports = Imports::new(alloc, image)?;
        let callable = callable_of(alloc, &imports)?;
        Ok(ImageText { imports, callable })
    }

    /// The image.
    pub fn module(&self) -> &'a Module
        ensures { result.now ≡ self.now }
    {
        self.imports.text()
    }

    #[tactic(auto, using(crate::proofs::Callable::may_call_at, crate::proofs::Callable::may_call_past))]
    fn may_call_number(&self, number: u32) -> bool
        ensures { result ≡ may_call_function self.now (slice_get self.now.functions number) }
    {
        match is_callable(&self.callable, number) {
            Some(may) => may,
            None => false,
        }
    }

    /// Whether this may be called.
    pub(crate) fn may_call(&self, callee: Callee) -> bool
        ensures { result ≡ may_call self.now callee }
    {
        match callee {
            Callee::Symbol(Symbol::Function(number)) => self.may_call_number(number),
            Callee::Symbol(Symbol::Global(_)) => false,
            Callee::Register(_) => true,
        }
    }
}
