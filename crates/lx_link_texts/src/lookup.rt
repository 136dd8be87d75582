//! What names name.
ghost use Rattle.std.specs.Prelude.{◌≡◌, ◌<◌, IfSome};
ghost use Rattle.std.specs.List.{list_any};
ghost use Rattle.lx_ir.specs.Lookup.{is_indirect_call};
ghost use Rattle.lx_link_texts.specs.Faults.{calls_indirectly, defines, is_alias, is_kernel_name, kernel_native};

use lx_ir::instr::{Callee, Instr, Op};
use lx_ir::module::{Block, Function};
use lx_ir_uses::blocks_of;

/// Whether the text defines the function, under this name.
pub fn defines(function: &Function, name: &[u8]) -> bool
    ensures { result ≡ defines name.now function.now }
{
    function.blocks.is_some() && function.name.is_same(name)
}

/// The native of that name that the kernel may call.
pub fn kernel_native(name: &[u8]) -> Option<u32>
    ensures native { result ≡ kernel_native name.now }
    ensures small { IfSome result (λ k. k < 5) }
{
    if name == b"k.alloc".as_slice() {
        Some(0)
    } else if name == b"k.free".as_slice() {
        Some(1)
    } else if name == b"k.zero".as_slice() {
        Some(2)
    } else if name == b"k.try_lock".as_slice() {
        Some(3)
    } else if name == b"k.note".as_slice() {
        Some(4)
    } else {
        None
    }
}

/// Whether the name is that of the native that modules call.
pub fn is_alias(name: &[u8]) -> bool
    ensures { result ≡ is_alias name.now }
{
    name == b"lxfi_princ_alias".as_slice()
}

/// Whether no module may import a function of that name.
pub fn is_kernel_name(name: &[u8]) -> bool
    ensures { result ≡ is_kernel_name name.now }
{
    name.starts_with(b"k.")
}

/// Whether an instruction calls what a register holds.
pub fn is_indirect_call(op: &Op) -> bool
    ensures { result ≡ is_indirect_call op.now }
{
    matches!(
        op,
        Op::Call {
            callee: Callee::Register(_),
            ..
        }
    )
}

fn have_indirect_call(instrs: &[Instr]) -> bool
    ensures { result ≡ list_any (λ i. is_indirect_call i.op) instrs.now }
{
    instrs.iter().any(|instr| is_indirect_call(&instr.op))
}

fn have_indirect_calls(blocks: &[Block]) -> bool
    ensures { result ≡ list_any (λ b. list_any (λ i. is_indirect_call i.op) b.instrs) blocks.now }
{
    blocks
        .iter()
        .any(|block| have_indirect_call(block.instrs.as_slice()))
}

/// Whether a function calls what a register holds.
pub fn calls_indirectly(function: &Function) -> bool
    ensures { result ≡ calls_indirectly function.now }
{
    let blocks = blocks_of(function);
    have_indirect_calls(blocks)
}
