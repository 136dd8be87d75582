//! The tables of a function.
ghost use Rattle.std.specs.Prelude.{◌≡◌, ℕ, true, Some, List, position, IfOk, IfSome, IsSome, IsTrue};
ghost use Rattle.std.specs.List.{list_all};
ghost use Rattle.lx_ir.specs.declared.instr.Argument.{Argument};
ghost use Rattle.lx_ir.specs.declared.instr.Edge.{Edge};
ghost use Rattle.lx_ir.specs.declared.instr.SwitchCase.{SwitchCase};
ghost use Rattle.lx_ir.specs.declared.instr.Op.TheVariants as op;
ghost use Rattle.lx_ir.specs.declared.module.Block.{Block};
ghost use Rattle.lx_ir.specs.declared.module.Value.{Value};
ghost use Rattle.lx_ir.specs.declared.types.NamedType.{NamedType};
ghost use Rattle.lx_ir.specs.declared.types.Scalar.{Scalar};
ghost use Rattle.lx_ir.specs.IrType.{IrType};
ghost use Rattle.lx_ir.specs.Layout.{layout, layout_of};
ghost use Rattle.lx_code.specs.Firsts.{is_case, is_fixed, is_from, is_named, Numbers};
ghost use Rattle.lx_code.specs.Fits.{op_at, wants_table, AreTablesOf};
ghost use Rattle.lx_code.specs.Routes.{IsRoute};
ghost use Rattle.lx_code.specs.Sized.{are_sized};

use crate::instructions::{Place, Table, tables_of};
use crate::names::labels_of;
use crate::routes::{Room, Route};
use crate::text::PlacedText;
use indexmap::IndexMap;
use lx_ir::module::Block;
use lx_words::Memory;
use std::alloc::Global;

/// The blocks of a function by their labels, and what is known of its instructions before they run: tables of switches and
/// phis that have more than a few cases or edges, and layouts of types that have more than a few parts as they are written.
/// They are made once, in a pass over the blocks, and own copies of the labels.
pub struct CodeTables {
    labels: IndexMap<Vec<u8>, usize>,
    tables: IndexMap<Place, Table>,
}

impl Drop for CodeTables {
    fn drop(self) {
        let CodeTables {
            labels: _,
            tables: _,
        } = self;
    }
}

impl CodeTables {
    /// The tables of blocks of a text.
    ///
    /// # Errors
    /// Want of memory.
    pub fn new<C: PlacedText>(
        alloc: Global,
        text: &C,
        blocks: &[Block],
    ) -> Result<CodeTables, Memory>
        requires { IsTrue (are_sized (C.has text.now).types blocks.now) }
        ensures { IfOk result (λ tables. AreTablesOf (C.has text.now).types (C.comes_to text.now) blocks.now tables) }
    {
        let labels = labels_of(alloc, blocks)?;
        let tables = tables_of(alloc, text, blocks)?;
        Ok(CodeTables { labels, tables })
    }

    /// The number of the first block with a label.
    pub fn block_named(&self, label: &[u8]) -> Option<usize>
        ensures { (types : List NamedType) → (numbers : Numbers) → (blocks : List Block) → AreTablesOf types numbers blocks self.now → result ≡ position (is_named label.now) blocks }
    {
        self.labels.get(label).copied()
    }

    /// The place of the first case with a number, if a case has it, in the switch at a place of a block. None, where that
    /// has no table; then its cases have to be searched. A switch of more than eight cases, each of which is a constant, has one.
    pub fn case(&self, block: usize, place: usize, number: u64) -> Option<Option<usize>>
        ensures fixed { IfSome result (λ found. (types : List NamedType) → (numbers : Numbers) → (blocks : List Block) → (ty : Scalar) → (v : Value) → (otherwise : List ℕ) → (cases : List SwitchCase) → AreTablesOf types numbers blocks self.now → op_at blocks block place ≡ Some (op.Switch ty v otherwise cases) → list_all is_fixed cases ≡ true) }
        ensures first { IfSome result (λ found. (types : List NamedType) → (numbers : Numbers) → (blocks : List Block) → (ty : Scalar) → (v : Value) → (otherwise : List ℕ) → (cases : List SwitchCase) → AreTablesOf types numbers blocks self.now → op_at blocks block place ≡ Some (op.Switch ty v otherwise cases) → found ≡ position (is_case numbers number) cases) }
        ensures quick { (types : List NamedType) → (numbers : Numbers) → (blocks : List Block) → (ty : Scalar) → (v : Value) → (otherwise : List ℕ) → (cases : List SwitchCase) → AreTablesOf types numbers blocks self.now → op_at blocks block place ≡ Some (op.Switch ty v otherwise cases) → wants_table (op.Switch ty v otherwise cases) ≡ true → IsSome result }
    {
        match self.tables.get(&(block, place)) {
            Some(Table::Cases(numbers)) => Some(numbers.get(&number).copied()),
            _ => None,
        }
    }

    /// The place of the first edge with a label, if an edge has it, in the phi at a place of a block. None, where that has
    /// no table; then its edges have to be searched. A phi of more than eight edges has one.
    pub fn edge(&self, block: usize, place: usize, label: &[u8]) -> Option<Option<usize>>
        ensures first { IfSome result (λ found. (types : List NamedType) → (numbers : Numbers) → (blocks : List Block) → (to : ℕ) → (ty : Scalar) → (edges : List Edge) → AreTablesOf types numbers blocks self.now → op_at blocks block place ≡ Some (op.Phi to ty edges) → found ≡ position (is_from label.now) edges) }
        ensures quick { (types : List NamedType) → (numbers : Numbers) → (blocks : List Block) → (to : ℕ) → (ty : Scalar) → (edges : List Edge) → AreTablesOf types numbers blocks self.now → op_at blocks block place ≡ Some (op.Phi to ty edges) → wants_table (op.Phi to ty edges) ≡ true → IsSome result }
    {
        match self.tables.get(&(block, place)) {
            Some(Table::Edges(labels)) => Some(labels.get(label).copied()),
            _ => None,
        }
    }

    /// What room the `alloca` at a place of a block asks for. None, where that has no table; then its type has to be laid
    /// out.
    pub fn room(&self, block: usize, place: usize) -> Option<Room>
        ensures { IfSome result (λ room. (types : List NamedType) → (numbers : Numbers) → (blocks : List Block) → (to : ℕ) → (ty : IrType) → AreTablesOf types numbers blocks self.now → op_at blocks block place ≡ Some (op.Alloca to ty) → layout room.size room.align ≡ layout_of types ty) }
    {
        match self.tables.get(&(block, place)) {
            Some(Table::Room(room)) => Some(*room),
            _ => None,
        }
    }

    /// How far the indices of the `getelementptr` at a place of a block go. None, where that has no table; then they have to
    /// be followed through its type.
    pub fn route(&self, block: usize, place: usize) -> Option<&Route>
        ensures { IfSome result (λ route. (types : List NamedType) → (numbers : Numbers) → (blocks : List Block) → (to : ℕ) → (ty : IrType) → (base : Value) → (indices : List Argument) → AreTablesOf types numbers blocks self.now → op_at blocks block place ≡ Some (op.GetElementPtr to ty base indices) → IsRoute types ty indices route.now) }
    {
        match self.tables.get(&(block, place)) {
            Some(Table::Route(route)) => Some(route),
            _ => None,
        }
    }
}
