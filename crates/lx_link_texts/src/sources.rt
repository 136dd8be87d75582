//! The texts that are linked.
use lx_annot::interface::Interface;
use lx_ir::module::Module;
use lx_model::program::ProgramModule;
use lx_words::Items;

/// The kernel, the interface, and the modules with their names.
#[derive(Drop)]
pub struct Sources {
    pub kernel: Module,
    pub interface: Interface,
    pub modules: Items<ProgramModule>,
}
