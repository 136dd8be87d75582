//! Inputs of cases whose files stand in memory.
ghost use Rattle.std.specs.Prelude.{IfOk};
ghost use Rattle.lx_input.specs.Laws.{IsReady};

use lx_input::{Asked, Input, read_input};
use lx_outside::MemShelf;
use std::alloc::Global;
use std::test::Fail;

/// The name of the case's file.
const CASE: &str = "row.case";

/// What a case with these files comes to, once they stand on a shelf.
fn input_on(
    alloc: Global,
    shelf: &mut MemShelf,
    case: &str,
    files: &[(&str, &str)],
) -> Result<Input, Fail>
    ensures { IfOk result IsReady }
{
    shelf.put_file(alloc, CASE, case.as_bytes())?;
    for (name, text) in files {
        shelf.put_file(alloc, name, text.as_bytes())?;
    }
    let asked = Asked {
        module: None,
        schedule: None,
        image: None,
    };
    let input = read_input(alloc, shelf, CASE, asked)?;
    Ok(input)
}

/// What a case with these files comes to.
pub fn input_of(alloc: Global, case: &str, files: &[(&str, &str)]) -> Result<Input, Fail>
    ensures { IfOk result IsReady }
{
    let mut shelf = MemShelf::new(alloc, Vec::new(alloc));
    let input = input_on(alloc, &mut shelf, case, files);
    drop(shelf);
    input
}
