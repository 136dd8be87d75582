//! The functions of a program by number.
ghost use Rattle.std.specs.Prelude.{◌≡◌, ◌<◌, ◌^◌, ◌++◌, All, IfOk, OnOk, length};
ghost use Rattle.lx_ir.specs.Lookup.{is_defined};
ghost use Rattle.lx_model.specs.declared.program.ProgramFunction.TheVariants as functions;
ghost use Rattle.lx_link_texts.specs.Placing.{HasFewFunctions, HasLimits, entries_from, entry_if, functions_of, module_entries, natives};

use crate::sources::Sources;
use lx_ir::module::Function;
use lx_model::program::{ProgramFunction, ProgramModule};
use lx_words::{Items, Memory};
use std::alloc::Global;

fn natives(alloc: Global) -> Result<Items<ProgramFunction>, Memory>
    ensures { IfOk result (λ entries. entries ≡ natives) }
{
    let entries = vec![in alloc;
        ProgramFunction::Native(0),
        ProgramFunction::Native(1),
        ProgramFunction::Native(2),
        ProgramFunction::Native(3),
        ProgramFunction::Native(4),
        ProgramFunction::Native(5),
    ]?;
    Ok(Items::from_vec(entries))
}

/// Adds a function, where the text defines it.
fn push_entry(
    entries: &mut Items<ProgramFunction>,
    home: Option<u32>,
    number: u32,
    function: &Function,
) -> Result<(), Memory>
    ensures { OnOk result (entries.new ≡ entries.old ++ entry_if (is_defined function.now) (functions.Of home number)) }
{
    if function.blocks.is_some() {
        entries.push(ProgramFunction::Of {
            module: home,
            function: number,
        })?;
    }
    Ok(())
}

/// Adds the functions that a text defines.
#[tactic(auto, using(crate::proofs::Entries::entries_step, crate::proofs::Entries::entries_end))]
fn push_entries(
    entries: &mut Items<ProgramFunction>,
    home: Option<u32>,
    functions: &[Function],
) -> Result<(), Memory>
    requires { length functions.now < 2 ^ 32 }
    ensures { OnOk result (entries.new ≡ entries.old ++ entries_from home 0 functions.now) }
{
    for (number, function) in functions.iter().enumerate() {
        push_entry(entries, home, number as u32, function)?;
    }
    Ok(())
}

/// Adds the functions that modules define.
#[tactic(auto, using(crate::proofs::Entries::module_entries_step, crate::proofs::Entries::module_entries_end))]
fn push_module_entries(
    entries: &mut Items<ProgramFunction>,
    modules: &[ProgramModule],
) -> Result<(), Memory>
    requires few { length modules.now < 2 ^ 32 }
    requires functions { All HasFewFunctions modules.now }
    ensures { OnOk result (entries.new ≡ entries.old ++ module_entries 0 modules.now) }
{
    for (number, entry) in modules.iter().enumerate() {
        push_entries(
            entries,
            Some(number as u32),
            entry.module.functions.as_slice(),
        )?;
    }
    Ok(())
}

/// The functions of the texts by number: the natives, then those that the kernel defines, then those of each module.
#[tactic(auto, unfolding(crate::specs::Placing::functions_of))]
pub fn functions_of(alloc: Global, sources: &Sources) -> Result<Items<ProgramFunction>, Memory>
    requires { HasLimits sources.now }
    ensures { IfOk result (λ entries. entries ≡ functions_of sources.now) }
{
    let mut entries = natives(alloc)?;
    push_entries(&mut entries, None, sources.kernel.functions.as_slice())?;
    push_module_entries(&mut entries, sources.modules.as_slice())?;
    Ok(entries)
}
