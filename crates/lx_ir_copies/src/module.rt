//! Copies of globals and parameters.
ghost use Rattle.std.specs.Prelude.{◌≡◌, IfOk};

use crate::copied::Copied;
use crate::inits::copied_init;
use crate::types::copied_type;
use lx_ir::module::{GlobalVar, Parameter};
use lx_words::Memory;
use std::alloc::Global;

impl Copied for Parameter {
    fn copied(&self, alloc: Global) -> Result<Parameter, Memory> {
        let name = self.name.copied(alloc)?;
        Ok(Parameter { name, ty: self.ty })
    }
}

impl Copied for GlobalVar {
    fn copied(&self, alloc: Global) -> Result<GlobalVar, Memory> {
        let name = self.name.copied(alloc)?;
        let ty = copied_type(alloc, &self.ty)?;
        let init = copied_init(alloc, &self.init)?;
        Ok(GlobalVar {
            name,
            constant: self.constant,
            ty,
            init,
            line: self.line,
        })
    }
}
