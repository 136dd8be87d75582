//! The text of block writes, of what ends a block, and of the lines of an image.
ghost use Rattle.std.specs.Prelude.{◌≡◌, ◌++◌, OnOk, codes, flat_map};
ghost use Rattle.lx_ir.specs.Text.{op_text, copy_word, value_text, symbol_text, length_text, case_text, cases_text, mark_text, guard_word, guarded_text, action_text};
ghost use Rattle.lx_ir.specs.Operands.{guard_width};
ghost use Rattle.lx_ir.specs.declared.instr.Op.TheVariants as form;

use crate::instr::{Argument, SwitchCase};
use crate::module::{Symbol, Value};
use crate::text::constants::{put_number, put_symbol};
use crate::text::line::{Piece, put_pieces};
use crate::text::operands::{Scope, put_argument, put_operand, put_value};
use crate::text::pieces::put;
use crate::text::types::put_scalar;
use crate::types::Scalar;
use lx_words::{Memory, Name, Width, Word};

fn copy_word(moves: bool) -> &'static [u8]
    ensures { result.now ≡ copy_word moves }
{
    if moves {
        b"call void @llvm.memmove.p0.p0."
    } else {
        b"call void @llvm.memcpy.p0.p0."
    }
}

/// Appends the length of a block write and what stands behind it.
fn put_length(out: &mut Vec<u8>, scope: Scope, len: Argument) -> Result<(), Memory>
    ensures { OnOk result (out.new.items ≡ out.old.items ++ length_text scope.entry.m.now scope.entry.f.now len) }
{
    put(out, b", ")?;
    put_argument(out, scope, len)?;
    put(out, b", i1 false)")
}

/// Appends the arguments of a block write: its destination, the type and the value of what is written, and its length.
fn put_written(
    out: &mut Vec<u8>,
    scope: Scope,
    dest: Value,
    ty: &[u8],
    value: Value,
    len: Argument,
) -> Result<(), Memory>
    ensures { OnOk result (out.new.items ≡ out.old.items ++ (codes "(ptr " ++ value_text scope.entry.m.now scope.entry.f.now dest ++ ty.now ++ value_text scope.entry.m.now scope.entry.f.now value ++ length_text scope.entry.m.now scope.entry.f.now len)) }
{
    put(out, b"(ptr ")?;
    put_value(out, scope, dest)?;
    put(out, ty)?;
    put_value(out, scope, value)?;
    put_length(out, scope, len)
}

pub fn put_copy_block(
    out: &mut Vec<u8>,
    scope: Scope,
    moves: bool,
    dest: Value,
    source: Value,
    len: Argument,
) -> Result<(), Memory>
    ensures { OnOk result (out.new.items ≡ out.old.items ++ op_text scope.entry.m.now scope.entry.f.now (form.CopyBlock moves dest source len)) }
{
    put(out, copy_word(moves))?;
    put_scalar(out, len.ty)?;
    put_written(out, scope, dest, b", ptr ", source, len)
}

pub fn put_fill_block(
    out: &mut Vec<u8>,
    scope: Scope,
    dest: Value,
    byte: Value,
    len: Argument,
) -> Result<(), Memory>
    ensures { OnOk result (out.new.items ≡ out.old.items ++ op_text scope.entry.m.now scope.entry.f.now (form.FillBlock dest byte len)) }
{
    put(out, b"call void @llvm.memset.p0.")?;
    put_scalar(out, len.ty)?;
    put_written(out, scope, dest, b", i8 ", byte, len)
}

pub fn put_ret(out: &mut Vec<u8>, scope: Scope, value: Option<Argument>) -> Result<(), Memory>
    ensures { OnOk result (out.new.items ≡ out.old.items ++ op_text scope.entry.m.now scope.entry.f.now (form.Ret value)) }
{
    match value {
        None => put(out, b"ret void"),
        Some(value) => put_pieces(
            out,
            scope,
            &[Piece::Text(b"ret "), Piece::Operand(value.ty, value.value)],
        ),
    }
}

pub fn put_jump(out: &mut Vec<u8>, scope: Scope, label: &Name) -> Result<(), Memory>
    ensures { OnOk result (out.new.items ≡ out.old.items ++ op_text scope.entry.m.now scope.entry.f.now (form.Jump label.now)) }
{
    put_pieces(
        out,
        scope,
        &[Piece::Text(b"br label "), Piece::Local(label.as_slice())],
    )
}

pub fn put_branch<'a>(
    out: &mut Vec<u8>,
    scope: Scope,
    condition: Value,
    if_true: &'a Name,
    if_false: &'a Name,
) -> Result<(), Memory>
    ensures { OnOk result (out.new.items ≡ out.old.items ++ op_text scope.entry.m.now scope.entry.f.now (form.Branch condition if_true.now if_false.now)) }
{
    put_pieces(
        out,
        scope,
        &[
            Piece::Text(b"br i1 "),
            Piece::Value(condition),
            Piece::Text(b", label "),
            Piece::Local(if_true.as_slice()),
            Piece::Text(b", label "),
            Piece::Local(if_false.as_slice()),
        ],
    )
}

fn put_case(out: &mut Vec<u8>, scope: Scope, ty: Scalar, case: &SwitchCase) -> Result<(), Memory>
    ensures { OnOk result (out.new.items ≡ out.old.items ++ case_text scope.entry.m.now scope.entry.f.now ty case.now) }
{
    put_pieces(
        out,
        scope,
        &[
            Piece::Operand(ty, case.value),
            Piece::Text(b", label "),
            Piece::Local(case.label.as_slice()),
        ],
    )
}

fn put_each_case(
    out: &mut Vec<u8>,
    scope: Scope,
    ty: Scalar,
    cases: &[SwitchCase],
) -> Result<(), Memory>
    ensures { OnOk result (out.new.items ≡ out.old.items ++ flat_map (λ x. codes " " ++ case_text scope.entry.m.now scope.entry.f.now ty x) cases.now) }
{
    for case in cases {
        put(out, b" ")?;
        put_case(out, scope, ty, case)?;
    }
    Ok(())
}

/// Appends the cases of a switch, on one line.
#[tactic(auto, using(crate::proofs::TypeLists::cases_some, std::proofs::lemmas::Grind::common_steps))]
fn put_cases(
    out: &mut Vec<u8>,
    scope: Scope,
    ty: Scalar,
    cases: &[SwitchCase],
) -> Result<(), Memory>
    ensures { OnOk result (out.new.items ≡ out.old.items ++ cases_text scope.entry.m.now scope.entry.f.now ty cases.now) }
{
    if cases.is_empty() {
        return put(out, b"[]");
    }
    put(out, b"[")?;
    put_each_case(out, scope, ty, cases)?;
    put(out, b" ]")
}

pub fn put_switch(
    out: &mut Vec<u8>,
    scope: Scope,
    ty: Scalar,
    value: Value,
    otherwise: &Name,
    cases: &[SwitchCase],
) -> Result<(), Memory>
    ensures { OnOk result (out.new.items ≡ out.old.items ++ op_text scope.entry.m.now scope.entry.f.now (form.Switch ty value otherwise.now cases.now)) }
{
    put_pieces(
        out,
        scope,
        &[
            Piece::Text(b"switch "),
            Piece::Operand(ty, value),
            Piece::Text(b", label "),
            Piece::Local(otherwise.as_slice()),
            Piece::Text(b" "),
        ],
    )?;
    put_cases(out, scope, ty, cases)
}

/// Appends a call of one of the monitor's names, before its first argument.
fn put_mark(out: &mut Vec<u8>, name: &[u8]) -> Result<(), Memory>
    ensures { OnOk result (out.new.items ≡ out.old.items ++ mark_text name.now) }
{
    put(out, b"call void @lxfi.")?;
    put(out, name)?;
    put(out, b"(ptr ")
}

fn guard_word(narrow: bool) -> &'static [u8]
    ensures { result.now ≡ guard_word narrow }
{
    if narrow { b"guard32" } else { b"guard" }
}

fn guard_width(narrow: bool) -> Width
    ensures { result ≡ guard_width narrow }
{
    if narrow { Width::W32 } else { Width::W64 }
}

fn put_guarded(out: &mut Vec<u8>, scope: Scope, narrow: bool, size: Value) -> Result<(), Memory>
    ensures { OnOk result (out.new.items ≡ out.old.items ++ guarded_text scope.entry.m.now scope.entry.f.now narrow size) }
{
    put(out, b", ")?;
    put_operand(out, scope, Scalar::Int(guard_width(narrow)), size)?;
    put(out, b")")
}

pub fn put_guard(
    out: &mut Vec<u8>,
    scope: Scope,
    at: Value,
    size: Value,
    narrow: bool,
) -> Result<(), Memory>
    ensures { OnOk result (out.new.items ≡ out.old.items ++ op_text scope.entry.m.now scope.entry.f.now (form.Guard at size narrow)) }
{
    put_mark(out, guard_word(narrow))?;
    put_value(out, scope, at)?;
    put_guarded(out, scope, narrow, size)
}

pub fn put_check(out: &mut Vec<u8>, scope: Scope, target: Value) -> Result<(), Memory>
    ensures { OnOk result (out.new.items ≡ out.old.items ++ op_text scope.entry.m.now scope.entry.f.now (form.Check target)) }
{
    put_mark(out, b"check")?;
    put_value(out, scope, target)?;
    put(out, b")")
}

/// Appends the entering or the leaving of a function, as this name of the monitor says.
pub fn put_crossing(
    out: &mut Vec<u8>,
    scope: Scope,
    name: &[u8],
    function: Symbol,
) -> Result<(), Memory>
    ensures { OnOk result (out.new.items ≡ out.old.items ++ (mark_text name.now ++ symbol_text scope.entry.m.now function ++ codes ")")) }
{
    put_mark(out, name)?;
    put_symbol(out, scope.m, function)?;
    put(out, b")")
}

/// Appends the number of an annotation's action.
fn put_action(out: &mut Vec<u8>, number: u32) -> Result<(), Memory>
    ensures { OnOk result (out.new.items ≡ out.old.items ++ action_text number) }
{
    put(out, b", i32 ")?;
    put_number(
        out,
        Word {
            width: Width::W32,
            bits: u64::from(number),
        },
    )?;
    put(out, b")")
}

/// Appends an action of a function's annotation, before the call or behind it, as this name of the monitor says.
pub fn put_hook(
    out: &mut Vec<u8>,
    scope: Scope,
    name: &[u8],
    function: Symbol,
    number: u32,
) -> Result<(), Memory>
    ensures { OnOk result (out.new.items ≡ out.old.items ++ (mark_text name.now ++ symbol_text scope.entry.m.now function ++ action_text number)) }
{
    put_mark(out, name)?;
    put_symbol(out, scope.m, function)?;
    put_action(out, number)
}
