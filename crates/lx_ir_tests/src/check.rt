//! Images are read from texts and checked, and the programs of those that are taken are printed.

use crate::image_rows::rows;
use lx_annot::interface::Interface;
use lx_image_check::{Checked, Refusal, check, erase};
use lx_ir::print;
use lx_ir_lawful::whole_laws;
use lx_ir_read::{TextForm, read_module};
use lx_ir_verify::{Verified, verify};
use lx_propagate::PropagateFault;
use lx_words::{Items, Memory, Name};
use std::alloc::Global;
use std::process::Abort;
use std::test::Fail;

/// What begins a part of a table.
const MARK: &str = "---- ";

/// An interface that says nothing.
pub fn bare_interface(alloc: Global) -> Interface {
    Interface {
        reftypes: Items::new(alloc),
        iterators: Items::new(alloc),
        slots: Items::new(alloc),
        fields: Items::new(alloc),
        exports: Items::new(alloc),
    }
}

/// The verified module of an image's text.
pub fn verified(alloc: Global, text: &[u8]) -> Result<Verified, Fail> {
    if text.len() > 1000000 {
        return Err(Fail::new("a text is too long"));
    }
    whole_laws();
    let module = read_module(alloc, TextForm::Image, text)?;
    let verified = verify(alloc, module)?;
    Ok(verified)
}

/// What the checker says of a module, in an interface that says nothing.
fn check_alone(alloc: Global, image: Verified) -> Result<Checked, Refusal> {
    let interface = bare_interface(alloc);
    let checked = check(alloc, &interface, image);
    drop(interface);
    checked
}

/// A fault as it is printed behind a file's name.
fn told(alloc: Global, refusal: &Refusal) -> Result<String, Fail> {
    match refusal {
        Refusal::Fault(fault) => {
            let text = format!(in alloc;
                "{}: image {} @{} {}",
                fault.line,
                fault.kind.number(),
                fault.function,
                fault.place
            )?;
            Ok(text)
        }
        Refusal::Memory => Err(Fail::new("want of memory")),
    }
}

/// What the checker says of a text.
fn answer(alloc: Global, text: &str) -> Result<String, Fail> {
    let image = verified(alloc, text.as_bytes())?;
    match check_alone(alloc, image) {
        Ok(checked) => {
            drop(checked);
            let accepted = String::from_str(alloc, "accepted")?;
            Ok(accepted)
        }
        Err(refusal) => {
            let said = told(alloc, &refusal);
            drop(refusal);
            said
        }
    }
}

/// Notes the first line of a part and what is said of its text, where the line does not begin so.
fn note(wrong: &mut String, head: &str, said: &str) -> Result<(), Fail> {
    if !head.starts_with(said) {
        wrong.push_str(head)?;
        wrong.push('\n')?;
        wrong.push_str(said)?;
        wrong.push('\n')?;
    }
    Ok(())
}

/// Compares what is said of the text of a part with what the part's first line wants, behind which stands why.
fn compare(alloc: Global, wrong: &mut String, part: &str) -> Result<(), Fail> {
    let Some((head, text)) = part.split_once('\n') else {
        return Ok(());
    };
    let said = answer(alloc, text)?;
    let noted = note(wrong, head, said.as_str());
    drop(said);
    noted
}

fn compare_all(alloc: Global, wrong: &mut String, table: &'static str) -> Result<(), Fail> {
    let mut rest = table;
    for _ in 0..table.len() {
        let Some((part, behind)) = rest.split_once(MARK) else {
            break;
        };
        compare(alloc, wrong, part)?;
        rest = behind;
    }
    compare(alloc, wrong, rest)
}

/// Nothing is said of the texts of the table but what is wanted.
fn assert_none_wrong(rt: &impl Abort, alloc: Global, wrong: &mut String) -> Result<(), Fail> {
    compare_all(alloc, wrong, rows())?;
    assert_eq!(rt; wrong.as_str(), "");
    Ok(())
}

#[test]
fn texts_are_accepted_or_their_first_fault_is_told(rt: HostRuntime) -> Result<(), Fail> {
    let mut wrong = String::new(rt.alloc());
    let compared = assert_none_wrong(&rt, rt.alloc(), &mut wrong);
    drop(wrong);
    compared
}

/// What the fault of a text says.
fn fault_text(alloc: Global, text: &str) -> Result<String, Fail> {
    let image = verified(alloc, text.as_bytes())?;
    match check_alone(alloc, image) {
        Ok(checked) => {
            drop(checked);
            Err(Fail::new("accepted"))
        }
        Err(refusal) => {
            let said = format!(in alloc; "{refusal}");
            drop(refusal);
            Ok(said?)
        }
    }
}

#[test]
fn the_fault_of_an_image_says_what_is_wrong(rt: HostRuntime) -> Result<(), Fail> {
    let text =
        "@g = global i32 0\ndefine void @main() {\n0:\n  store i32 7, ptr @g\n  ret void\n}\n";
    let said = fault_text(rt.alloc(), text)?;
    assert_eq!(rt;
        said.as_str(),
        "line 4: `@main`, instruction 0: a store or block write has no guard"
    );
    Ok(())
}

fn conflict(alloc: Global) -> Result<PropagateFault, Memory> {
    let function = Name::from_bytes(alloc, b"h")?;
    let first = Name::from_bytes(alloc, b"probe")?;
    let second = Name::from_bytes(alloc, b"xmit")?;
    Ok(PropagateFault::Conflict {
        line: 4,
        function,
        first,
        second,
    })
}

#[test]
fn two_slot_types_that_differ_are_told(rt: HostRuntime) -> Result<(), Fail> {
    let fault = conflict(rt.alloc())?;
    let said = format!(in rt.alloc(); "{fault}");
    drop(fault);
    let text = said?;
    assert_eq!(rt;
        text.as_str(),
        "line 4: `@h` gets the slot types `probe` and `xmit`, whose annotations differ"
    );
    Ok(())
}

/// The text of the program of an image.
fn erased(alloc: Global, checked: &Checked) -> Result<Vec<u8>, Memory> {
    let program = erase(alloc, checked)?;
    let text = print(alloc, &program);
    drop(program);
    text
}

/// Whether a text is an image whose program has this text.
fn has_program(alloc: Global, text: &str, wanted: &[u8]) -> Result<bool, Fail> {
    let image = verified(alloc, text.as_bytes())?;
    match check_alone(alloc, image) {
        Ok(checked) => {
            let erased = erased(alloc, &checked);
            drop(checked);
            let program = erased?;
            Ok(program.as_slice() == wanted)
        }
        Err(refusal) => {
            drop(refusal);
            Err(Fail::new("refused"))
        }
    }
}

#[test]
fn the_program_of_an_image_calls_its_imports(rt: HostRuntime) -> Result<(), Fail> {
    let same = has_program(
        rt.alloc(),
        "declare void @f()
@g = global ptr null
define void @main(ptr %p) {
0:
  call void @lxfi.out.f()
  call void @lxfi.guard(ptr @g, i64 8)
  store ptr %p, ptr @g
  call void @lxfi.check(ptr %p)
  call void %p()
  ret void
}
define void @lxfi.out.f() {
0:
  call void @lxfi.enter(ptr @f)
  call void @f()
  call void @lxfi.leave(ptr @f)
  ret void
}
",
        br#"@g = global ptr null
declare void @f()
define void @main(ptr %p) {
0:
  call void @f()
  store ptr %p, ptr @g
  call void %p()
  ret void
}
"#,
    )?;
    assert!(rt; same);
    Ok(())
}
