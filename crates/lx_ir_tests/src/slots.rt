//! The images of a module whose function has a slot type.

use crate::instrument::{Version, printed};
use lx_annot::action::{Actions, Annotation};
use lx_annot::expr::Ty;
use lx_annot::interface::{Field, Interface, Slot};
use lx_words::{Items, Memory, Name};
use std::alloc::Global;
use std::test::Fail;

/// One slot type, of functions without parameters, results and actions.
fn slots(alloc: Global) -> Result<Items<Slot>, Memory> {
    let name = Name::from_bytes(alloc, b"op")?;
    let slot = Slot {
        name,
        params: Items::new(alloc),
        ret: Ty::Void,
        annotation: Annotation {
            principal: None,
            pre: Actions::new(alloc),
            post: Actions::new(alloc),
        },
        line: 1,
    };
    let slots = vec![in alloc; slot]?;
    Ok(Items::from_vec(slots))
}

/// The first field of `ops`, which has the first slot type.
fn fields(alloc: Global) -> Result<Items<Field>, Memory> {
    let name = Name::from_bytes(alloc, b"ops")?;
    let field = Field {
        name,
        index: 0,
        slot: 0,
        line: 2,
    };
    let fields = vec![in alloc; field]?;
    Ok(Items::from_vec(fields))
}

/// An interface in which the first field of `ops` has a slot type.
fn one_slot(alloc: Global) -> Result<Interface, Memory> {
    let slots = slots(alloc)?;
    let fields = fields(alloc)?;
    Ok(Interface {
        reftypes: Items::new(alloc),
        iterators: Items::new(alloc),
        slots,
        fields,
        exports: Items::new(alloc),
    })
}

/// Whether the module of a text has an image; it has none where there is want of memory.
fn has_image(alloc: Global, version: Version, text: &[u8]) -> Result<bool, Fail> {
    let interface = one_slot(alloc)?;
    let image = printed(alloc, version, &interface, text);
    drop(interface);
    Ok(image?.is_some())
}

/// Whether the module of a text has both images, or neither.
fn has_images(alloc: Global, text: &str) -> Result<bool, Fail> {
    let full = has_image(alloc, Version::Full, text.as_bytes())?;
    let spared = has_image(alloc, Version::Spared, text.as_bytes())?;
    if full != spared {
        return Err(Fail::new("one image alone"));
    }
    Ok(full)
}

#[test]
fn a_function_with_a_slot_type_has_a_wrapper(rt: HostRuntime) -> Result<(), Fail> {
    let there = has_images(
        rt.alloc(),
        "%ops = type { ptr }
@o = global %ops { ptr @f }
define void @f() {
  ret void
}
",
    )?;
    assert!(rt; there);
    Ok(())
}
