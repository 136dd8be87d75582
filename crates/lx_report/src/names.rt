//! What numbers of a program name.

ghost use Rattle.std.specs.Prelude.{◌≡◌, ◌++◌, OnOk, codes, option_copied, slice_index_or, []};
ghost use Rattle.lx_model.specs.Program.{function_of, home_or_kernel, module_of};
ghost use Rattle.lx_report.specs.Report.{address_text, number_text, called_text, function_name, given_name, given_text, home_text, module_name, principal_text, result_type};

use crate::given::GivenNames;
use crate::teller::Teller;
use crate::text::{put, put_address, put_bytes};
use lx_annot::interface::Interface;
use lx_caps::Principal;
use lx_ir::module::Function;
use lx_ir::types::Scalar;
use lx_model::program::{Program, ProgramFunction};
use lx_words::Memory;

pub(crate) fn module_name(p: &Program, m: usize) -> &[u8]
    ensures { result.now ≡ module_name p.now m }
{
    match p.modules.as_slice().get(m) {
        Some(module) => module.name.as_slice(),
        None => &[],
    }
}

pub(crate) fn reftype_name(i: &Interface, ty: u32) -> &[u8]
    ensures { result.now ≡ slice_index_or i.now.reftypes ty [] }
{
    match i.reftypes.as_slice().get(ty as usize) {
        Some(name) => name.as_slice(),
        None => &[],
    }
}

fn functions_of(p: &Program, home: Option<u32>) -> &[Function]
    ensures { result.now ≡ (module_of p.now home).functions }
{
    match home {
        None => p.kernel.functions.as_slice(),
        Some(m) => match p.modules.as_slice().get(m as usize) {
            Some(module) => module.module.functions.as_slice(),
            None => &[],
        },
    }
}

/// The text that defines the function with this number; a native is the kernel's.
fn home_of(p: &Program, n: u32) -> Option<u32>
    ensures { result ≡ home_or_kernel p.now n }
{
    match p.functions.as_slice().get(n as usize) {
        Some(ProgramFunction::Of { module, .. }) => *module,
        _ => None,
    }
}

pub(crate) fn function_of(p: &Program, n: u32) -> Option<&Function>
    ensures { option_copied result ≡ function_of p.now n }
{
    match p.functions.as_slice().get(n as usize) {
        Some(ProgramFunction::Of { module, function }) => {
            functions_of(p, *module).get(*function as usize)
        }
        _ => None,
    }
}

pub(crate) fn result_type(p: &Program, n: u32) -> Option<Scalar>
    ensures { result ≡ result_type p.now n }
{
    match function_of(p, n) {
        Some(function) => function.ret,
        None => None,
    }
}

fn put_home(out: &mut Vec<u8>, p: &Program, home: Option<u32>) -> Result<(), Memory>
    ensures { OnOk result (out.new.items ≡ out.old.items ++ home_text p.now home) }
{
    match home {
        None => put(out, "kernel"),
        Some(m) => put_bytes(out, module_name(p, m as usize)),
    }
}

fn function_name(p: &Program, n: u32) -> &[u8]
    ensures { result.now ≡ function_name (function_of p.now n) }
{
    match function_of(p, n) {
        Some(function) => function.name.as_slice(),
        None => &[],
    }
}

/// Adds a function by the text that defines it and its name there. Want of memory is the only error.
pub fn put_called(out: &mut Vec<u8>, p: &Program, n: u32) -> Result<(), Memory>
    ensures { OnOk result (out.new.items ≡ out.old.items ++ called_text p.now n) }
{
    put_home(out, p, home_of(p, n))?;
    put(out, ":")?;
    put_bytes(out, function_name(p, n))
}

fn put_given_name(out: &mut Vec<u8>, names: &GivenNames, m: u32, k: u32) -> Result<(), Memory>
    ensures { OnOk result (out.new.items ≡ out.old.items ++ address_text (given_name names.now m k)) }
{
    put_address(out, names.value_of(m, k))
}

fn put_given(out: &mut Vec<u8>, names: &GivenNames, m: u32, k: u32) -> Result<(), Memory>
    ensures { OnOk result (out.new.items ≡ out.old.items ++ given_text names.now m k) }
{
    put(out, "[")?;
    put_given_name(out, names, m, k)?;
    put(out, "]")
}

/// The name of a module, and what follows it.
fn put_of_module(out: &mut Vec<u8>, p: &Program, m: u32, ending: &str) -> Result<(), Memory>
    ensures { OnOk result (out.new.items ≡ out.old.items ++ module_name p.now m ++ ending.now) }
{
    put_bytes(out, module_name(p, m as usize))?;
    put(out, ending)
}

/// Adds what a principal is told as: a module's name with `.shared`, `.global` or its instance's first name in brackets, or
/// `kernel`. Want of memory is the only error.
pub fn put_principal(out: &mut Vec<u8>, teller: &Teller, who: Principal) -> Result<(), Memory>
    ensures { OnOk result (out.new.items ≡ out.old.items ++ principal_text teller.now.program.now teller.now.names who) }
{
    match who {
        Principal::Kernel => put(out, "kernel"),
        Principal::Shared(m) => put_of_module(out, teller.program, m, ".shared"),
        Principal::Global(m) => put_of_module(out, teller.program, m, ".global"),
        Principal::Inst(m, k) => {
            put_bytes(out, module_name(teller.program, m as usize))?;
            put_given(out, &teller.names, m, k)
        }
    }
}
