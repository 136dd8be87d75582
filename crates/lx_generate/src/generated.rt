//! The texts of a generated case.
ghost use Rattle.std.specs.Prelude.{◌≡◌, ◌++◌, ◌+◌, ◌*◌, IfOk, OnOk};
ghost use Rattle.lx_generate.specs.Generated.{call_line, callee, callee_words, case_text, head_lines, line_in, module_text, number_words, thread_lines};

use lx_words::{Memory, put_decimal};
use std::alloc::Global;

/// The most calls of a generated case that is within the limits of cases.
pub const MOST_CALLS: u32 = 4096;

const HEAD: &str = "lxfi case 1\nkernel builtin\ninterface builtin\nmodule gen gen.ll\n";

const MODULE: &str = "\
declare ptr @kmalloc(i64)
declare void @kfree(ptr)
define i64 @work(i64 %n) {
%p = call ptr @kmalloc(i64 16)
store i64 %n, ptr %p
%v = load i64, ptr %p
call void @kfree(ptr %p)
ret i64 %v
}
define i64 @stray(i64 %n) {
%p = inttoptr i64 16777216 to ptr
store i64 %n, ptr %p
ret i64 %n
}
";

/// The texts of a generated case.
#[derive(Drop)]
pub struct Generated {
    /// The case: it names its module's file `gen.ll`.
    pub case: Vec<u8>,
    /// The text of its module.
    pub module: Vec<u8>,
}

/// The text of the module whose functions a generated case calls.
#[tactic(auto, unfolding(crate::specs::Generated::module_text))]
pub fn module_text() -> &'static [u8]
    ensures { result.now ≡ module_text }
{
    MODULE.as_bytes()
}

/// The argument of call `j` of `n`.
fn argument(n: u32, j: u32) -> u64
    ensures { result ≡ 3 * j + n }
{
    3 * u64::from(j) + u64::from(n)
}

/// The function of call `j`.
#[tactic(auto, unfolding(crate::specs::Generated::callee))]
fn callee(j: u32) -> &'static [u8]
    ensures { result.now ≡ callee j }
{
    if j % 10 == 9 { b"stray" } else { b"work" }
}

fn put_callee(case: &mut Vec<u8>, j: u32) -> Result<(), Memory>
    ensures { OnOk result (case.new.items ≡ case.old.items ++ callee_words j) }
{
    case.extend_from_slice(b"call gen:")?;
    case.extend_from_slice(callee(j))?;
    Ok(())
}

#[tactic(auto, unfolding(crate::specs::Generated::number_words))]
fn put_number(case: &mut Vec<u8>, number: u64) -> Result<(), Memory>
    ensures { OnOk result (case.new.items ≡ case.old.items ++ number_words number) }
{
    case.extend_from_slice(b" ")?;
    put_decimal(case, i128::from(number))
}

/// Adds the line of call `j` of `n`.
fn put_call(case: &mut Vec<u8>, n: u32, j: u32) -> Result<(), Memory>
    ensures { OnOk result (case.new.items ≡ case.old.items ++ call_line n j) }
{
    put_callee(case, j)?;
    put_number(case, argument(n, j))?;
    case.extend_from_slice(b" fuel 100\n")?;
    Ok(())
}

/// Adds the line of call `j` of `n`, where it stands in this thread.
fn put_call_in(case: &mut Vec<u8>, n: u32, thread: u32, j: u32) -> Result<(), Memory>
    ensures { OnOk result (case.new.items ≡ case.old.items ++ line_in n thread j) }
{
    if j % 4 == thread {
        put_call(case, n, j)?;
    }
    Ok(())
}

/// Adds a thread and its calls.
#[tactic(auto, unfolding(crate::specs::Generated::thread_lines))]
fn put_thread(case: &mut Vec<u8>, n: u32, thread: u32) -> Result<(), Memory>
    ensures { OnOk result (case.new.items ≡ case.old.items ++ thread_lines n thread) }
{
    case.extend_from_slice(b"thread\n")?;
    for j in 0..n {
        put_call_in(case, n, thread, j)?;
    }
    Ok(())
}

/// The case of `n` calls.
#[tactic(auto, unfolding(crate::specs::Generated::head_lines))]
fn case_text(alloc: Global, n: u32) -> Result<Vec<u8>, Memory>
    ensures { IfOk result (λ case. case.items ≡ case_text n) }
{
    let mut case = Vec::new(alloc);
    case.extend_from_slice(HEAD.as_bytes())?;
    put_thread(&mut case, n, 0)?;
    put_thread(&mut case, n, 1)?;
    put_thread(&mut case, n, 2)?;
    put_thread(&mut case, n, 3)?;
    Ok(case)
}

/// The texts of the case of `n` calls: over the kernel and the interface that the program brings along, with one module
/// `gen`. Call `j` from 0 on stands in thread `j mod 4` in order, with `fuel 100` and the argument `3j + n`; it is one of `gen:stray`, whose
/// store is refused, where `j mod 10` is 9, and else one of `gen:work`, which returns its argument.
///
/// # Errors
/// Want of memory.
pub fn generate(alloc: Global, n: u32) -> Result<Generated, Memory>
    ensures case { IfOk result (λ g. g.case.items ≡ case_text n) }
    ensures text { IfOk result (λ g. g.module.items ≡ module_text) }
{
    let case = case_text(alloc, n)?;
    let mut module = Vec::new(alloc);
    module.extend_from_slice(module_text())?;
    Ok(Generated { case, module })
}
