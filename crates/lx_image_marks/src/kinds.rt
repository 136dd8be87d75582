//! The faults of marks at one instruction, by its neighbours.
ghost use Rattle.std.specs.Prelude.{◌≡◌, option_copied, option_map};
ghost use Rattle.lx_image_texts.specs.ImageFaults.{differs, fits_next, has_indirect_call, has_write, is_bare_call, is_bare_store, is_checking, is_guarding, is_stray, mark_kind};
ghost use Rattle.lx_ir.specs.declared.instr.Op.TheVariants as op;
ghost use Rattle.lx_image_marks.specs.Told.{kind_of};
ghost use Rattle.lx_image_marks.specs.Sites.{HasRooms};

use crate::fault::FaultKind;
use crate::marks::{Guard, check_fits, guard_fits, is_indirect_call, is_write};
use crate::walk::{Body, Site};
use lx_ir::instr::Op;
use lx_ir::module::Value;

fn has_write(next: Option<&Op>) -> bool
    ensures { result ≡ has_write (option_copied next.entry) }
{
    match next {
        Some(op) => is_write(op),
        None => false,
    }
}

fn has_indirect_call(next: Option<&Op>) -> bool
    ensures { result ≡ has_indirect_call (option_copied next.entry) }
{
    match next {
        Some(op) => is_indirect_call(op),
        None => false,
    }
}

/// Whether an instruction is a mark before nothing that wants one, or a line that wrappers alone have.
fn is_stray(next: Option<&Op>, op: &Op) -> bool
    ensures { result ≡ is_stray (option_copied next.entry) op.now }
{
    match op {
        Op::Guard { .. } => !has_write(next),
        Op::Check { .. } => !has_indirect_call(next),
        Op::Enter { .. } | Op::Pre { .. } | Op::Post { .. } | Op::Leave { .. } => true,
        _ => false,
    }
}

fn guard_fits_next(guard: &Guard, next: Option<&Op>) -> bool
    ensures { result ≡ fits_next (op.Guard guard.now.at guard.now.size guard.now.narrow) (option_copied next.entry) }
{
    match next {
        Some(next) => guard_fits(guard, next),
        None => true,
    }
}

fn check_fits_next(target: Value, next: Option<&Op>) -> bool
    ensures { result ≡ fits_next (op.Check target) (option_copied next.entry) }
{
    match next {
        Some(next) => check_fits(target, next),
        None => true,
    }
}

/// Whether an instruction is a mark with another operand or size than what stands behind it wants.
fn differs(next: Option<&Op>, op: &Op) -> bool
    ensures { result ≡ differs (option_copied next.entry) op.now }
{
    match op {
        Op::Guard { at, size, narrow } => {
            let guard = Guard {
                at: *at,
                size: *size,
                narrow: *narrow,
            };
            !guard_fits_next(&guard, next)
        }
        Op::Check { target } => !check_fits_next(*target, next),
        _ => false,
    }
}

fn is_guarding(before: Option<&Op>) -> bool
    ensures { result ≡ is_guarding (option_copied before.entry) }
{
    match before {
        Some(op) => is_guard(op),
        None => false,
    }
}

fn is_guard(op: &Op) -> bool
    ensures { result ≡ is_guarding (Some op.now) }
{
    matches!(op, Op::Guard { .. })
}

fn is_checking(before: Option<&Op>) -> bool
    ensures { result ≡ is_checking (option_copied before.entry) }
{
    match before {
        Some(op) => is_check(op),
        None => false,
    }
}

fn is_check(op: &Op) -> bool
    ensures { result ≡ is_checking (Some op.now) }
{
    matches!(op, Op::Check { .. })
}

/// Whether an instruction is a write that is not spared, without a guard directly before it.
fn is_bare_store(body: &Body<'_>, before: Option<&Op>, op: &Op) -> bool
    requires { HasRooms body.now }
    ensures { result ≡ is_bare_store body.now.text.now body.now.function.now (option_copied before.entry) op.now }
{
    is_write(op) && !is_guarding(before) && !body.rooms.spares(op)
}

/// Whether an instruction is an indirect call without a check directly before it.
fn is_bare_call(before: Option<&Op>, op: &Op) -> bool
    ensures { result ≡ is_bare_call (option_copied before.entry) op.now }
{
    is_indirect_call(op) && !is_checking(before)
}

/// The fault of marks, or of what wants one.
pub(crate) fn mark_kind(body: &Body<'_>, site: &Site<'_>) -> Option<FaultKind>
    requires { HasRooms body.now }
    ensures { option_map kind_of result ≡ mark_kind body.now.text.now body.now.function.now (option_copied site.now.before) site.now.instr.now.op (option_copied site.now.next) }
{
    let op = &site.instr.op;
    if is_stray(site.next, op) {
        Some(FaultKind::StrayGuard)
    } else if differs(site.next, op) {
        Some(FaultKind::GuardDiffers)
    } else if is_bare_store(body, site.before, op) {
        Some(FaultKind::BareStore)
    } else if is_bare_call(site.before, op) {
        Some(FaultKind::BareIndirect)
    } else {
        None
    }
}
