//! What the names of a script name in a program.
ghost use Rattle.std.specs.Prelude.{◌≡◌, option_map};
ghost use Rattle.lx_model.specs.Program.{address_of, module_of};
ghost use Rattle.lx_link.specs.Calls.{function_named, named_address};

use lx_ir::module::Function;
use lx_model::program::Program;
use lx_name_tables::ProgramNames;

/// The functions of a text.
pub fn functions_in(program: &Program, home: Option<u32>) -> &[Function]
    ensures { result.now ≡ (module_of program.now home).functions }
{
    match home {
        None => program.kernel.functions.as_slice(),
        Some(number) => match program.modules.as_slice().get(number as usize) {
            None => &[],
            Some(entry) => entry.module.functions.as_slice(),
        },
    }
}

/// The number of the function of that name that a text defines.
pub fn function_named(names: &ProgramNames<'_>, home: Option<u32>, name: &[u8]) -> Option<u32>
    ensures { result ≡ function_named names.now home name.now }
{
    names.function_named(home, name)
}

/// The address of the function of that name that a text defines.
fn function_address(names: &ProgramNames<'_>, home: Option<u32>, name: &[u8]) -> Option<u64>
    ensures { result ≡ option_map address_of (function_named names.now home name.now) }
{
    match function_named(names, home, name) {
        None => None,
        Some(number) => Some(0x10000 + 16 * u64::from(number)),
    }
}

/// The address of the global or the defined function of that name.
#[tactic(auto, unfolding(crate::specs::Calls::named_address))]
pub fn named_address(names: &ProgramNames<'_>, home: Option<u32>, name: &[u8]) -> Option<u64>
    ensures { result ≡ named_address names.now home name.now }
{
    match names.global_named(home, name) {
        Some(address) => Some(address),
        None => function_address(names, home, name),
    }
}
