//! What the fault of an interface says.

use crate::interfaces::interface_in;
use std::alloc::Global;
use std::test::Fail;

/// An interface, and what its first fault says.
struct Said(&'static [u8], &'static str);

static SAID: [Said; 6] = [
    Said(b"interface 1\n\x01", "line 2: the byte 0x1 begins no token"),
    Said(b"interface 1\nreftype", "line 2: `end` cannot stand here"),
    Said(
        b"interface 1\nfield %t 0 : s",
        "line 2: `s` is not declared",
    ),
    Said(
        b"interface 1\nreftype t\nreftype t",
        "line 3: `t` is declared twice",
    ),
    Said(
        b"interface 1\nexport f : void ()\nexport f : void ()",
        "line 3: `f` is declared twice",
    ),
    Said(
        b"interface 1\nexport f : void (ptr p)\npre(copy(write, p))",
        "line 3: `write` has no size",
    ),
];

fn told_text(alloc: Global, text: &[u8]) -> Result<String, Fail> {
    match interface_in(alloc, text) {
        Err(fault) => {
            let text = format!(in alloc; "{fault}")?;
            Ok(text)
        }
        Ok(_) => Err(Fail::new("it is an interface")),
    }
}

#[test]
fn the_fault_of_an_interface_says_what_is_wrong(rt: HostRuntime) -> Result<(), Fail> {
    for row in SAID.iter() {
        assert_eq!(rt; told_text(rt.alloc(), row.0)?.as_str(), row.1);
    }
    Ok(())
}
