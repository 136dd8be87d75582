//! The code that a machine of images runs: what runs of the functions of a program.
ghost use Rattle.std.specs.Prelude.{◌≡◌, ℕ, ◌≤◌, IfErr, IfOk, IfSome, IsTrue, OnOk, drop, map, bytes_eq, option_copied, position};
ghost use Rattle.lx_model.specs.Thread.{code_block_of};
ghost use Rattle.lx_code.specs.Reach.{IsWithinReach, CountsActions};
ghost use Rattle.lx_images.specs.Image.{image_function, image_routine, out_import};
ghost use Rattle.lx_images.specs.WrapperForm.{have_formed_wrappers};
ghost use Rattle.lx_images.specs.Wrappers.{in_lines};
ghost use Rattle.lx_image_code.specs.Code.{code_of};
ghost use Rattle.lx_image_code.specs.Form.{Tells};
ghost use Rattle.lx_image_code.specs.Jumps.{op_at, IsCaseAt, IsEdgeAt, IsPhiDecided, IsRoomAt, IsRouteAt, IsSwitchDecided};
ghost use Rattle.lx_image_code.specs.Reach.{AreSized, AreWithinReach};
ghost use Rattle.lx_image_code.specs.Tables.{HasLocals};
ghost use Rattle.lx_image_code.specs.Wrappers.{first_op, line_of, wrapper_lines};

use crate::entered::entered_at;
use crate::fault::CodeFault;
use crate::form::check_form;
use crate::functions::function_named;
use crate::imports::import_at;
use crate::jumps::{first_block, first_case, first_edge, room_at, route_at};
use crate::line::Line;
use crate::tables::{Tables, tables_of};
use crate::wrappers::{Wrapper, line_at};
use lx_code::{ActionCounts, Code as ProgramCode, Room, Route};
use lx_ir::module::{Block, Function};
use lx_ir_uses::blocks_of;
use lx_ir_verify::Verified;
use lx_model::program::Program;
use lx_words::Memory;
use std::alloc::Global;
use std::marker::Model;
use std::sync::Arc;

/// The code of a program and of the images of its modules, one for each, in the modules' order. Contracts see the program and
/// the images.
pub struct Code {
    program: ProgramCode,
    images: Vec<Verified>,
    tables: Tables,
}

impl Drop for Code {
    fn drop(self) {
        let Code {
            program: _,
            images: _,
            tables: _,
        } = self;
    }
}

impl Model for Code {
    ghost use Rattle.std.specs.Coded.{codes};
    ghost use Rattle.lx_ir.specs.contracts.module.Module as module_row;
    ghost use Rattle.lx_model.specs.contracts.program.Program as program_row;
    ghost use Rattle.lx_images.specs.Image.{Code as Meaning};
    ghost use Rattle.lx_image_code.specs.Code.{code_of};
    ghost use Rattle.lx_image_code.specs.Ready.{IsReady};

    ghost Value = { Meaning };

    ghost coded = { Prim.hlevel (codes, program_row.the_row.coded, module_row.the_row.coded) };

    ghost view = { λ c. code_of c.program c.images.items };

    ghost invariant = { λ c. IsReady (code_of c.program c.images.items) c.tables };
}

impl Code {
    ghost use Rattle.std.specs.Arc.{arc_value};

    // The code of a program and of images whose wrappers have the form of wrappers.
    fn of_formed(
        alloc: Global,
        program: Arc<Program>,
        images: Vec<Verified>,
        actions: Vec<ActionCounts>,
    ) -> Result<Code, Memory>
        requires reach { IsWithinReach (arc_value program) }
        requires images { AreWithinReach (arc_value program) images.items }
        requires formed { IsTrue (have_formed_wrappers images.items) }
        requires actions { CountsActions (arc_value program) actions.items }
        ensures { IfOk result (λ code. code ≡ code_of (arc_value program) images.items) }
    {
        let program = ProgramCode::new(alloc, program, actions)?;
        let tables = tables_of(alloc, &program, images.as_slice())?;
        Ok(Code {
            program,
            images,
            tables,
        })
    }

    /// The code of a program, whose functions have so many actions, and of the images of its modules.
    ///
    /// # Errors
    /// The first function of an image that is named as a wrapper and has not the form of one, before anything else. Want of memory;
    /// more modules, or functions of one text, than a number of 32 bits counts are that too.
    pub fn new(
        alloc: Global,
        program: Arc<Program>,
        images: Vec<Verified>,
        actions: Vec<ActionCounts>,
    ) -> Result<Code, CodeFault>
        requires reach { IsWithinReach (arc_value program) }
        requires images { AreWithinReach (arc_value program) images.items }
        requires actions { CountsActions (arc_value program) actions.items }
        ensures code { IfOk result (λ code. code ≡ code_of (arc_value program) images.items) }
        ensures formed { OnOk result (IsTrue (have_formed_wrappers images.items)) }
        ensures fault { IfErr result (Tells images.items) }
    {
        match check_form(images.as_slice()) {
            Ok(()) => match Code::of_formed(alloc, program, images, actions) {
                Ok(code) => Ok(code),
                Err(_) => Err(CodeFault::Memory),
            },
            Err(why) => Err(why),
        }
    }

    /// The program. Who has it knows too that each type whose layout an instruction asks for is within the limits.
    #[tactic(auto, using(crate::proofs::Sized::sized_code))]
    pub fn program(&self) -> &Program
        ensures whole { result.now ≡ self.now.program }
        ensures reach { IsWithinReach self.now.program }
        ensures images { AreWithinReach self.now.program self.now.images }
        ensures sized { AreSized self.now }
    {
        self.program.program()
    }

    /// The code of the program, by which its texts, targets and actions are looked up.
    pub fn program_code(&self) -> &ProgramCode
        ensures { result.now ≡ self.now.program }
    {
        &self.program
    }

    /// The function with this number that runs, if a text defines it: that of its module's image, or the kernel's own.
    pub fn function(&self, number: u32) -> Option<&Function>
        ensures { option_copied result ≡ image_function self.now number }
    {
        let program = self.program.program();
        match program.functions.items.get(number as usize) {
            Some(entry) => function_named(program, self.images.as_slice(), entry),
            None => None,
        }
    }

    /// How many registers the instructions of a function give.
    pub fn locals(&self, number: u32) -> usize
        ensures { result ≡ (image_routine self.now number).locals }
    {
        match self.function(number) {
            Some(function) => function.locals.items.len(),
            None => 0,
        }
    }

    /// The greatest number of registers that the instructions of a function give.
    pub fn most_locals(&self) -> usize
        ensures enough { HasLocals self.now result }
        ensures least { (other : ℕ) → HasLocals self.now other → result ≤ other }
    {
        self.tables.most_locals
    }

    /// The blocks of a function.
    pub fn blocks(&self, number: u32) -> &[Block]
        ensures { map code_block_of result.now ≡ (image_routine self.now number).blocks }
    {
        match self.function(number) {
            Some(function) => blocks_of(function),
            None => &[],
        }
    }

    /// The number of a function's first block with a label.
    pub fn block_named(&self, number: u32, label: &[u8]) -> Option<usize>
        ensures { result ≡ position (λ b. bytes_eq b.label label.now) (image_routine self.now number).blocks }
    {
        first_block(self.tables.jumps.as_slice(), number, label)
    }

    /// The place of the first case that is equal to a number, if one is, in the switch at a place of a function's block.
    /// None, where that has no table; then its cases have to be searched. A switch of more than eight cases, each of which is a constant,
    /// has one.
    pub fn case(&self, number: u32, block: usize, place: usize, bits: u64) -> Option<Option<usize>>
        ensures quick { IsSwitchDecided (op_at (image_routine self.now number).blocks block place) result }
        ensures first { IfSome result (λ found. IsCaseAt self.now.program number (op_at (image_routine self.now number).blocks block place) bits found) }
    {
        first_case(self.tables.jumps.as_slice(), number, block, place, bits)
    }

    /// The place of the first edge from a label, if one is, in the phi at a place of a function's block. None, where that
    /// has no table; then its edges have to be searched. A phi of more than eight edges has one.
    pub fn edge(
        &self,
        number: u32,
        block: usize,
        place: usize,
        label: &[u8],
    ) -> Option<Option<usize>>
        ensures quick { IsPhiDecided (op_at (image_routine self.now number).blocks block place) result }
        ensures first { IfSome result (λ found. IsEdgeAt (op_at (image_routine self.now number).blocks block place) label.now found) }
    {
        first_edge(self.tables.jumps.as_slice(), number, block, place, label)
    }

    /// What room the `alloca` at a place of a function's block asks for. None, where that has no table; then its type has to
    /// be laid out.
    pub fn room(&self, number: u32, block: usize, place: usize) -> Option<Room>
        ensures { IfSome result (λ room. IsRoomAt self.now.program number (op_at (image_routine self.now number).blocks block place) room) }
    {
        room_at(self.tables.jumps.as_slice(), number, block, place)
    }

    /// How far the indices of the `getelementptr` at a place of a function's block go. None, where that has no table; then
    /// they have to be followed through its type.
    pub fn route(&self, number: u32, block: usize, place: usize) -> Option<&Route>
        ensures { IfSome result (λ route. IsRouteAt self.now.program number (op_at (image_routine self.now number).blocks block place) route.now) }
    {
        route_at(self.tables.jumps.as_slice(), number, block, place)
    }

    /// The import, by its number in the program, that a function of a module's image wraps, by its number there; none, where
    /// it is no wrapper of one. The kernel's text wraps none.
    pub fn wrapped_import(&self, home: Option<u32>, function: u32) -> Option<u32>
        ensures { result ≡ out_import self.now home function }
    {
        match home {
            None => None,
            Some(number) => import_at(self.tables.imports.as_slice(), number, function),
        }
    }

    /// The wrapper by which a function is entered from elsewhere: of a module's function the one that its image names for it, if it
    /// has one, and of the kernel's the one of its annotation.
    pub fn entered_wrapper(&self, number: u32) -> Wrapper
        ensures { wrapper_lines self.now result ≡ in_lines self.now number }
    {
        entered_at(self.tables.entered.as_slice(), number)
    }

    /// What the line at a place of a wrapper does.
    pub fn line(&self, wrapper: Wrapper, at: usize) -> Line
        ensures { result ≡ line_of (first_op (drop at (wrapper_lines self.now wrapper))) }
    {
        line_at(
            self.images.as_slice(),
            self.tables.kernel.as_slice(),
            wrapper,
            at,
        )
    }
}
