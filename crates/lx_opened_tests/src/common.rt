//! Small programs, built by hand: a kernel and one module, which have no types and no globals.
ghost use Rattle.std.specs.Prelude.{◌≡◌, ◌∷◌, [], IfOk};
ghost use Rattle.std.specs.Arc.{arc_value};
ghost use Rattle.lx_caps.specs.History.{History};
ghost use Rattle.lx_model.specs.Opening.{opening_history, opening_state, with_globals};
ghost use Rattle.lx_opened_tests.specs.Programs.{function_with, interface_with, kernel_alone, module_with, one_function, slot_with};
ghost use Rattle.lx_serve.specs.Sources.{IsLinked, Knows};
ghost use Rattle.lx_serve.specs.Stands.{StandsForState};
ghost use Rattle.lx_writer_sets.specs.RecordedStands.{StandsRecorded};

use lx_annot::action::Annotation;
use lx_annot::expr::Ty;
use lx_annot::interface::{Interface, Slot};
use lx_caps::CapStore;
use lx_ir::NamedTypes;
use lx_ir::module::{Function, Module};
use lx_ir::types::Scalar;
use lx_memory::Space;
use lx_model::program::{Program, ProgramFunction, ProgramModule, ScriptCall};
use lx_serve::SharedPart;
use lx_words::{Items, Memory, Name, Names};
use lx_writer_sets::Recorded;
use std::alloc::Global;
use std::sync::Arc;
use std::test::Fail;

/// A function without parameters that has no instruction.
pub fn function_with(alloc: Global, name: Name, ret: Option<Scalar>) -> Function
    ensures { result ≡ function_with name ret }
{
    Function {
        name,
        params: Items::new(alloc),
        locals: Items::new(alloc),
        ret,
        blocks: Some(Items::new(alloc)),
        line: 1,
    }
}

/// A module of functions alone.
pub fn module_with(alloc: Global, functions: Vec<Function>) -> Module
    ensures { result ≡ module_with functions.items }
{
    Module {
        types: NamedTypes::empty(alloc),
        globals: Items::new(alloc),
        functions: Items::from_vec(functions),
    }
}

/// The one module of a program.
pub fn modules_with(
    alloc: Global,
    name: Name,
    functions: Vec<Function>,
) -> Result<Items<ProgramModule>, Memory>
    ensures { IfOk result (λ modules. modules ≡ record { name = name; «module» = module_with functions.items } ∷ []) }
{
    let module = module_with(alloc, functions);
    let modules = vec![in alloc; ProgramModule { name, module }]?;
    Ok(Items::from_vec(modules))
}

/// A slot type of functions without parameters, and without an annotation.
pub fn slot_with(alloc: Global, name: Name) -> Slot
    ensures { result ≡ slot_with name }
{
    Slot {
        name,
        params: Items::new(alloc),
        ret: Ty::Void,
        annotation: Annotation {
            principal: None,
            pre: Items::new(alloc),
            post: Items::new(alloc),
        },
        line: 1,
    }
}

/// An interface of reference types and slot types alone.
pub fn interface_with(alloc: Global, reftypes: Names, slots: Items<Slot>) -> Interface
    ensures { result ≡ interface_with reftypes slots }
{
    Interface {
        reftypes,
        iterators: Items::new(alloc),
        slots,
        fields: Items::new(alloc),
        exports: Items::new(alloc),
    }
}

/// A program of one function, which its module defines.
pub fn one_function(alloc: Global, function: Function) -> Result<Program, Memory>
    ensures { IfOk result (λ p. p ≡ one_function function) }
{
    let functions = vec![in alloc; function]?;
    let modules = modules_with(alloc, Items::new(alloc), functions)?;
    let first = ProgramFunction::Of {
        module: Some(0),
        function: 0,
    };
    let numbers = vec![in alloc; first]?;
    Ok(Program {
        kernel: module_with(alloc, Vec::new(alloc)),
        modules,
        functions: Items::from_vec(numbers),
        globals: Items::new(alloc),
        interface: interface_with(alloc, Items::new(alloc), Items::new(alloc)),
    })
}

/// A program of one function, which the kernel defines.
pub fn kernel_alone(alloc: Global, function: Function) -> Result<Program, Memory>
    ensures { IfOk result (λ p. p ≡ kernel_alone function) }
{
    let functions = vec![in alloc; function]?;
    let first = ProgramFunction::Of {
        module: None,
        function: 0,
    };
    let numbers = vec![in alloc; first]?;
    Ok(Program {
        kernel: module_with(alloc, functions),
        modules: Items::new(alloc),
        functions: Items::from_vec(numbers),
        globals: Items::new(alloc),
        interface: interface_with(alloc, Items::new(alloc), Items::new(alloc)),
    })
}

/// A program that others may own too.
pub fn owned(alloc: Global, program: Program) -> Result<Arc<Program>, Memory>
    ensures { IfOk result (λ owner. arc_value owner ≡ program) }
{
    match Arc::new(alloc, program) {
        Ok(owner) => Ok(owner),
        Err(failed) => {
            drop(failed);
            Err(Memory)
        }
    }
}

/// A call of function 0 with this fuel.
pub fn call_with(alloc: Global, fuel: u32) -> ScriptCall {
    ScriptCall {
        function: 0,
        args: Items::new(alloc),
        fuel,
    }
}

/// What threads share before the first call of a program without globals and annotations, with room for thirty events.
#[tactic(auto, unfolding(lx_actions::specs::Shown::IsShownBy))]
pub fn part_of<C: CapStore + Drop>(
    alloc: Global,
    program: Arc<Program>,
    caps: Recorded<C>,
) -> Result<SharedPart<C>, Fail>
    requires linked { IsLinked (arc_value program) }
    requires written { with_globals (arc_value program) (arc_value program).globals [] ≡ [] }
    requires owned { StandsRecorded C.stands caps (opening_history (arc_value program)) }
    requires known { Knows (arc_value program) [] }
    ensures { IfOk result (λ part. StandsForState C.stands (arc_value program) part (opening_state (arc_value program))) }
{
    match Space::new(alloc) {
        Ok(space) => {
            let part = SharedPart::open(alloc, program, space, caps, Vec::new(alloc), 30)?;
            Ok(part)
        }
        Err(error) => {
            drop(program);
            drop(caps);
            Err(error.into())
        }
    }
}
