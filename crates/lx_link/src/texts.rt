//! The texts that are linked, and their modules with the names of a case.
ghost use Rattle.std.specs.Prelude.{◌≡◌, ◌++◌, ◌∷◌, [], IfOk, OnOk, length};
ghost use Rattle.lx_ir.specs.Verified.{IsVerified};
ghost use Rattle.lx_link.specs.Answers.{AreVerified, named, named_modules, sources_of};

use lx_annot::interface::Interface;
use lx_ir_verify::Verified;
use lx_link_texts::sources::Sources;
use lx_model::program::ProgramModule;
use lx_script::CaseModule;
use lx_words::{Items, Memory, Name};
use std::alloc::Global;

/// A kernel and the modules of a case, in its order, each verified, and the interface between them.
#[derive(Drop)]
pub struct VerifiedTexts {
    pub kernel: Verified,
    pub interface: Interface,
    pub modules: Vec<Verified>,
}

/// Names one module more.
fn push_module(
    alloc: Global,
    list: &mut Items<ProgramModule>,
    name: &CaseModule,
    verified: Verified,
) -> Result<(), Memory>
    ensures list { OnOk result (list.new ≡ list.old ++ named name.now verified ∷ []) }
    ensures verified { OnOk result (IsVerified verified) }
{
    let name = Name::from_bytes(alloc, name.name.as_slice())?;
    let module = verified.into_module();
    list.push(ProgramModule { name, module })?;
    Ok(())
}

/// The modules, with the names that the case gives them.
fn named_modules(
    alloc: Global,
    names: &[CaseModule],
    modules: Vec<Verified>,
) -> Result<Items<ProgramModule>, Memory>
    requires { length modules.items ≡ length names.now }
    ensures list { IfOk result (λ list. list ≡ named_modules names.now modules.items) }
    ensures verified { IfOk result AreVerified }
{
    let mut list = Items::new(alloc);
    for verified in modules {
        let name = &names[list.len()];
        push_module(alloc, &mut list, name, verified)?;
    }
    Ok(list)
}

/// The texts, with the names that the case gives the modules.
///
/// # Errors
/// Want of memory for the names.
pub fn named_sources(
    alloc: Global,
    texts: VerifiedTexts,
    names: &[CaseModule],
) -> Result<Sources, Memory>
    requires { length texts.modules.items ≡ length names.now }
    ensures sources { IfOk result (λ sources. sources ≡ sources_of texts.kernel texts.interface (named_modules names.now texts.modules.items)) }
    ensures verified { IfOk result (λ sources. IsVerified sources.kernel × AreVerified sources.modules) }
{
    let VerifiedTexts {
        kernel,
        interface,
        modules,
    } = texts;
    match named_modules(alloc, names, modules) {
        Ok(modules) => Ok(Sources {
            kernel: kernel.into_module(),
            interface,
            modules,
        }),
        Err(why) => {
            drop(kernel);
            drop(interface);
            Err(why)
        }
    }
}
