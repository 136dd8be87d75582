//! Whether numbers of 32 bits count the functions of an image and the registers of each.
ghost use Rattle.std.specs.Prelude.{◌≡◌, ◌+◌, nat_lt};
ghost use Rattle.std.specs.List.{list_all};
ghost use Rattle.lx_instrument.specs.Room.{has_few_registers, has_room};

use lx_ir::module::Function;

/// There are fewer than so many things of each kind that numbers of 32 bits count: their greatest number is given to none.
const NUMBERS: usize = u32::MAX as usize;

/// Whether so many things and so many more are few enough to be numbered.
fn are_few(count: usize, more: usize) -> bool
    ensures { result ≡ nat_lt (count + more) 4294967295 }
{
    count < NUMBERS && more < NUMBERS - count
}

fn has_few_registers(f: &Function) -> bool
    ensures { result ≡ has_few_registers f.now }
{
    are_few(f.params.len(), f.locals.len())
}

fn all_have_few_registers(functions: &[Function]) -> bool
    ensures { result ≡ list_all has_few_registers functions.now }
{
    functions.iter().all(|f| has_few_registers(f))
}

/// Whether the functions of an image and the registers of each are few enough to be numbered.
pub(crate) fn has_room(functions: &[Function]) -> bool
    ensures { result ≡ has_room functions.now }
{
    functions.len() < NUMBERS && all_have_few_registers(functions)
}
