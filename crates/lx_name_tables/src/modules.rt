//! The names of modules.
ghost use Rattle.std.specs.Prelude.{◌≡◌, ◌++◌, ◌∷◌, [], OnErr, OnOk};
ghost use Rattle.lx_name_tables.specs.Texts.{AreTextsOf};

use crate::texts::TextNames;
use lx_ir::module::Module;
use lx_model::program::ProgramModule;
use lx_words::{Items, Memory};
use std::alloc::Global;

fn push_names<'a>(
    alloc: Global,
    names: &mut Items<TextNames<'a>>,
    text: &'a Module,
) -> Result<(), Memory>
    ensures ok { OnOk result (names.new ≡ names.old ++ text.now ∷ []) }
    ensures err { OnErr result (names.new ≡ names.old) }
{
    match names.push(TextNames::new(alloc, text)) {
        Ok(()) => Ok(()),
        Err(_) => Err(Memory),
    }
}

/// The names of modules: of as many of the first ones as there is memory for.
#[tactic(auto, using(crate::proofs::FirstTexts::are_texts))]
pub(crate) fn names_of<'a>(alloc: Global, modules: &'a [ProgramModule]) -> Items<TextNames<'a>>
    ensures { AreTextsOf modules.now result }
{
    let mut names = Items::new(alloc);
    for entry in modules {
        match push_names(alloc, &mut names, &entry.module) {
            Ok(()) => {}
            Err(_) => return names,
        }
    }
    names
}
