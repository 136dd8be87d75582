//! Wrappers, printed in their modules.

use lx_annot::action::{Action, ActionNode, Actions, Annotation};
use lx_annot::expr::Ty;
use lx_annot::interface::{Export, Interface};
use lx_ir::module::{Function, Module, Parameter};
use lx_ir::types::Scalar;
use lx_ir::{NamedTypes, print};
use lx_slot_types::Annotated;
use lx_words::{Items, Memory, Name, Width};
use lx_wrap::{Side, wrapper, wrappers};
use std::alloc::Global;
use std::test::Fail;

fn actions(alloc: Global, count: u32) -> Result<Actions, Memory> {
    let mut list = Actions::new(alloc);
    for number in 0..count {
        list.push(Action {
            node: ActionNode::End(number),
        })?;
    }
    Ok(list)
}

fn annotation(alloc: Global, pre: u32, post: u32) -> Result<Annotation, Memory> {
    let pre = actions(alloc, pre)?;
    let post = actions(alloc, post)?;
    Ok(Annotation {
        principal: None,
        pre,
        post,
    })
}

/// The parameters `ptr` and `i32`, without names, as imports have them.
fn parameters(alloc: Global) -> Result<Items<Parameter>, Memory> {
    let mut list = Items::new(alloc);
    for ty in [Scalar::Ptr, Scalar::Int(Width::W32)] {
        list.push(Parameter {
            name: Name::new(alloc),
            ty,
        })?;
    }
    Ok(list)
}

fn import(alloc: Global, name: &[u8], ret: Option<Scalar>) -> Result<Function, Memory> {
    let name = Name::from_bytes(alloc, name)?;
    let params = parameters(alloc)?;
    Ok(Function {
        name,
        params,
        locals: Items::new(alloc),
        ret,
        blocks: None,
        line: 1,
    })
}

/// A module of these imports, which give these results.
fn module_of(alloc: Global, imports: &[(&'static [u8], Option<Scalar>)]) -> Result<Module, Memory> {
    let mut functions = Items::new(alloc);
    for (name, ret) in imports {
        functions.push(import(alloc, name, *ret)?)?;
    }
    Ok(Module {
        types: NamedTypes::empty(alloc),
        globals: Items::new(alloc),
        functions,
    })
}

/// Which wrappers a module gets.
#[derive(Clone, Copy)]
enum Wrapped {
    /// That of its first function, which has so many actions before and behind its body.
    First(u32, u32, Side),
    /// All, where `f` is exported twice.
    All,
}

/// The wrapper of the first function, which has so many actions before and behind its body.
fn first_wrapper(
    alloc: Global,
    m: &Module,
    pre: u32,
    post: u32,
    side: Side,
) -> Result<Function, Memory> {
    if m.functions.len() < 1 {
        return Err(Memory);
    }
    let annotation = annotation(alloc, pre, post)?;
    let made = wrapper(alloc, m, 0, &annotation, side);
    drop(annotation);
    made
}

/// An interface that exports `f` twice, first with an action before the body.
fn exports_twice(alloc: Global) -> Result<Interface, Memory> {
    let mut exports = Items::new(alloc);
    for count in [1, 0] {
        exports.push(Export {
            name: Name::from_bytes(alloc, b"f")?,
            params: Items::new(alloc),
            ret: Ty::Void,
            annotation: annotation(alloc, count, 0)?,
            line: 2,
        })?;
    }
    Ok(Interface {
        reftypes: Items::new(alloc),
        iterators: Items::new(alloc),
        slots: Items::new(alloc),
        fields: Items::new(alloc),
        exports,
    })
}

/// The wrappers of a module in an interface without slot types.
#[tactic(auto, using(crate::proofs::Untyped::none_annotated))]
fn all_wrappers(alloc: Global, i: &Interface, m: &Module) -> Result<Vec<Function>, Memory> {
    if i.slots.len() > 0 {
        return Err(Memory);
    }
    wrappers(alloc, i, m, &Annotated::new(alloc))
}

/// The wrappers of a module where `f` is exported twice.
fn every_wrapper(alloc: Global, m: &Module) -> Result<Vec<Function>, Memory> {
    let interface = exports_twice(alloc)?;
    let made = all_wrappers(alloc, &interface, m);
    drop(interface);
    made
}

fn wrappers_of(alloc: Global, m: &Module, wrapped: Wrapped) -> Result<Vec<Function>, Memory> {
    match wrapped {
        Wrapped::First(pre, post, side) => {
            let made = first_wrapper(alloc, m, pre, post, side)?;
            let list = vec![in alloc; made]?;
            Ok(list)
        }
        Wrapped::All => every_wrapper(alloc, m),
    }
}

/// The module with its wrappers behind its functions, printed.
fn printed(alloc: Global, m: &mut Module, wrapped: Wrapped) -> Result<Vec<u8>, Memory> {
    for made in wrappers_of(alloc, m, wrapped)? {
        m.functions.push(made)?;
    }
    print(alloc, m)
}

/// Whether a module of these imports is printed so with its wrappers.
fn is_printed(
    alloc: Global,
    imports: &[(&'static [u8], Option<Scalar>)],
    wrapped: Wrapped,
    wanted: &[u8],
) -> Result<bool, Memory> {
    let mut m = module_of(alloc, imports)?;
    let printed = printed(alloc, &mut m, wrapped);
    drop(m);
    let text = printed?;
    Ok(text.as_slice() == wanted)
}

#[test]
fn a_wrapper_returns_what_the_call_gave(rt: HostRuntime) -> Result<(), Fail> {
    let same = is_printed(
        rt.alloc(),
        &[(b"f", Some(Scalar::Int(Width::W32)))],
        Wrapped::First(1, 2, Side::Out),
        br#"declare i32 @f(ptr, i32)
define i32 @lxfi.out.f(ptr %0, i32 %1) {
0:
  call void @lxfi.enter(ptr @f)
  call void @lxfi.pre(ptr @f, i32 0)
  %r = call i32 @f(ptr %0, i32 %1)
  call void @lxfi.post(ptr @f, i32 0)
  call void @lxfi.post(ptr @f, i32 1)
  call void @lxfi.leave(ptr @f)
  ret i32 %r
}
"#,
    )?;
    assert!(rt; same);
    Ok(())
}

#[test]
fn a_wrapper_may_return_nothing(rt: HostRuntime) -> Result<(), Fail> {
    let same = is_printed(
        rt.alloc(),
        &[(b"f", None)],
        Wrapped::First(0, 0, Side::In),
        br#"declare void @f(ptr, i32)
define void @lxfi.in.f(ptr %0, i32 %1) {
0:
  call void @lxfi.enter(ptr @f)
  call void @f(ptr %0, i32 %1)
  call void @lxfi.leave(ptr @f)
  ret void
}
"#,
    )?;
    assert!(rt; same);
    Ok(())
}

#[test]
fn imports_have_wrappers_by_their_first_exports(rt: HostRuntime) -> Result<(), Fail> {
    let same = is_printed(
        rt.alloc(),
        &[(b"lxfi_princ_alias", None), (b"g", None), (b"f", None)],
        Wrapped::All,
        br#"declare void @lxfi_princ_alias(ptr, i32)
declare void @g(ptr, i32)
declare void @f(ptr, i32)
define void @lxfi.out.g(ptr %0, i32 %1) {
0:
  call void @lxfi.enter(ptr @g)
  call void @g(ptr %0, i32 %1)
  call void @lxfi.leave(ptr @g)
  ret void
}
define void @lxfi.out.f(ptr %0, i32 %1) {
0:
  call void @lxfi.enter(ptr @f)
  call void @lxfi.pre(ptr @f, i32 0)
  call void @f(ptr %0, i32 %1)
  call void @lxfi.leave(ptr @f)
  ret void
}
"#,
    )?;
    assert!(rt; same);
    Ok(())
}
