//! Numbers of a width: rows that were reckoned by hand. What names name in a small program.
ghost use Rattle.std.specs.Prelude.{◌≡◌, ◌∷◌, [], IfOk};
ghost use Rattle.lx_opened_tests.specs.Programs.{import_with, naming, naming_kernel, naming_module};

use crate::common::{function_with, interface_with, module_with, modules_with, owned, slot_with};
use lx_annot::interface::Slot;
use lx_code::{Code, Target};
use lx_ir::module::Function;
use lx_model::program::{Program, ProgramFunction};
use lx_words::{Items, Memory, Name, Width, Word};
use std::alloc::Global;

static CUT: [(Width, u64, u64); 5] = [
    (Width::W1, 3, 1),
    (Width::W8, 0x1ff, 0xff),
    (Width::W16, 0x1_8000, 0x8000),
    (Width::W32, 0xffff_ffff_0000_0001, 1),
    (Width::W64, 0xffff_ffff_ffff_ffff, 0xffff_ffff_ffff_ffff),
];

#[test]
fn numbers_are_cut_to_their_width(rt: HostRuntime) {
    for (width, number, wanted) in CUT.as_slice() {
        assert_eq!(rt; Word::new(*width, *number).bits, *wanted);
    }
}

/// A function without parameters that a text imports.
fn import_with(alloc: Global, name: Name) -> Function
    ensures { result ≡ import_with name }
{
    Function {
        name,
        params: Items::new(alloc),
        locals: Items::new(alloc),
        ret: None,
        blocks: None,
        line: 1,
    }
}

fn kernel_functions(alloc: Global) -> Result<Vec<Function>, Memory>
    ensures { IfOk result (λ fs. fs.items ≡ naming_kernel) }
{
    let work = Name::from_bytes(alloc, b"k.work")?;
    let native = Name::from_bytes(alloc, b"k.alloc")?;
    let slot = Name::from_bytes(alloc, b"k.slot.s")?;
    let nothing = Name::from_bytes(alloc, b"k.other")?;
    let functions = vec![in alloc;
        function_with(alloc, work, None),
        import_with(alloc, native),
        import_with(alloc, slot),
        import_with(alloc, nothing),
    ]?;
    Ok(functions)
}

fn module_functions(alloc: Global) -> Result<Vec<Function>, Memory>
    ensures { IfOk result (λ fs. fs.items ≡ naming_module) }
{
    let nothing = Name::from_bytes(alloc, b"k.other")?;
    let native = Name::from_bytes(alloc, b"lxfi_princ_alias")?;
    let work = Name::from_bytes(alloc, b"k.work")?;
    let own = Name::from_bytes(alloc, b"own")?;
    let functions = vec![in alloc;
        import_with(alloc, nothing),
        import_with(alloc, native),
        import_with(alloc, work),
        function_with(alloc, own, None),
    ]?;
    Ok(functions)
}

fn numbers(alloc: Global) -> Result<Items<ProgramFunction>, Memory>
    ensures { IfOk result (λ numbers. numbers ≡ naming.functions) }
{
    let work = ProgramFunction::Of {
        module: None,
        function: 0,
    };
    let own = ProgramFunction::Of {
        module: Some(0),
        function: 3,
    };
    let numbers = vec![in alloc; work, own]?;
    Ok(Items::from_vec(numbers))
}

fn slots(alloc: Global) -> Result<Items<Slot>, Memory>
    ensures { IfOk result (λ slots. slots ≡ naming.interface.slots) }
{
    let name = Name::from_bytes(alloc, b"s")?;
    let slots = vec![in alloc; slot_with(alloc, name)]?;
    Ok(Items::from_vec(slots))
}

fn naming(alloc: Global) -> Result<Program, Memory>
    ensures { IfOk result (λ p. p ≡ naming) }
{
    let own = module_functions(alloc)?;
    let modules = modules_with(alloc, Items::new(alloc), own)?;
    let functions = numbers(alloc)?;
    let slots = slots(alloc)?;
    let kernel = kernel_functions(alloc)?;
    Ok(Program {
        kernel: module_with(alloc, kernel),
        modules,
        functions,
        globals: Items::new(alloc),
        interface: interface_with(alloc, Items::new(alloc), slots),
    })
}

#[tactic(auto, using(crate::proofs::Programs::naming_within_reach, crate::proofs::Programs::naming_counts))]
fn code(alloc: Global) -> Result<Code, Memory> {
    let program = naming(alloc)?;
    let program = owned(alloc, program)?;
    let code = Code::new(alloc, program, Vec::new(alloc))?;
    Ok(code)
}

/// A function of the kernel's text is its own, a native, a slot, or nothing, and past the last there is nothing.
fn kernel_names(code: &Code) -> bool {
    matches!(code.target(None, 0), Target::Own(0))
        && matches!(code.target(None, 1), Target::Native(0))
        && matches!(code.target(None, 2), Target::Slot(0))
        && matches!(code.target(None, 3), Target::Nowhere)
        && matches!(code.target(None, 4), Target::Nowhere)
}

/// A function of the module's text is nothing, the one native that a module calls, the kernel's, or its own, and a module
/// that there is not has none.
fn module_names(code: &Code) -> bool {
    matches!(code.target(Some(0), 0), Target::Nowhere)
        && matches!(code.target(Some(0), 1), Target::Native(5))
        && matches!(code.target(Some(0), 2), Target::Import(0))
        && matches!(code.target(Some(0), 3), Target::Own(1))
        && matches!(code.target(Some(1), 3), Target::Nowhere)
}

#[test]
fn names_name_each_kind_of_thing(rt: HostRuntime) -> Result<(), Memory> {
    let code = code(rt.alloc())?;
    let in_kernel = kernel_names(&code);
    let in_module = module_names(&code);
    drop(code);
    assert!(rt; in_kernel);
    assert!(rt; in_module);
    Ok(())
}
