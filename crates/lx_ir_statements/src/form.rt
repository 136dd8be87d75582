//! The forms of statements.

use lx_ir::module::{Block, Init, Parameter};
use lx_ir::types::{IrType, Scalar};
use lx_words::Items;

/// A statement. Its name is a number in the table of names.
#[derive(Drop)]
pub enum Statement {
    /// `%name = type {..}`
    Type {
        name: u32,
        ty: IrType,
    },
    /// `@name = global T C`, or `constant T C`.
    Global {
        name: u32,
        constant: bool,
        ty: IrType,
        init: Init,
    },
    /// `declare R @name(T, ..)`; no result is `void`.
    Import {
        name: u32,
        ret: Option<Scalar>,
        params: Items<Scalar>,
    },
    /// `define R @name(T %a, ..) { blocks }`; no result is `void`.
    Function {
        name: u32,
        ret: Option<Scalar>,
        params: Items<Parameter>,
        blocks: Items<Block>,
    },
}
