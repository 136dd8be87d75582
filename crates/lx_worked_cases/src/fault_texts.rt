//! What the faults of the input say, wherever they are told but in the program's own lines.

use lx_input::{FaultKind, FaultLine, InputStop};
use lx_link::LinkFault;
use lx_link_texts::PlaceError;
use lx_words::{Memory, Name};
use std::alloc::Global;
use std::test::Fail;

/// A fault that is told.
#[derive(Clone, Copy)]
enum Fault {
    /// A signature in this file differs.
    Link(&'static str),
    /// Globals have no place.
    Place,
    /// A file is not read.
    Unread,
    /// The verifier finds a fault in a file.
    Verify,
}

/// A fault, and what it says.
struct Saying(Fault, &'static str);

static SAYINGS: [Saying; 5] = [
    Saying(
        Fault::Link("k.ll"),
        "k.ll, line 3: the signature of `@f` does not fit",
    ),
    Saying(
        Fault::Link(""),
        "line 3: the signature of `@f` does not fit",
    ),
    Saying(Fault::Place, "the globals end past their region"),
    Saying(Fault::Unread, "the file `m.ll` cannot be read"),
    Saying(Fault::Verify, "m.ll, line 3: verify fault 2, `x`"),
];

fn name(alloc: Global, text: &str) -> Result<Name, Memory> {
    let name = Name::from_bytes(alloc, text.as_bytes())?;
    Ok(name)
}

/// The names of a file and of what a fault is about.
fn names(alloc: Global, file: &str, what: &str) -> Result<(Name, Name), Memory> {
    let file = name(alloc, file)?;
    match name(alloc, what) {
        Ok(what) => Ok((file, what)),
        Err(want) => {
            drop(file);
            Err(want)
        }
    }
}

fn link_text(alloc: Global, file: &str) -> Result<String, Fail> {
    let (file, what) = names(alloc, file, "@f")?;
    let fault = LinkFault::SignatureDiffers {
        file,
        line: 3,
        what,
    };
    let text = format!(in alloc; "{fault}");
    drop(fault);
    Ok(text?)
}

fn place_text(alloc: Global) -> Result<String, Fail> {
    let fault = PlaceError::Past;
    let text = format!(in alloc; "{fault}")?;
    Ok(text)
}

fn unread(alloc: Global) -> Result<InputStop, Memory> {
    let file = name(alloc, "m.ll")?;
    Ok(InputStop::Unread(file))
}

fn verify_fault(alloc: Global) -> Result<InputStop, Memory> {
    let (file, what) = names(alloc, "m.ll", "x")?;
    Ok(InputStop::Fault(FaultLine {
        file,
        line: 3,
        kind: FaultKind::Verify,
        number: 2,
        what,
    }))
}

fn stop_text(alloc: Global, stop: InputStop) -> Result<String, Fail> {
    let text = format!(in alloc; "{stop}");
    drop(stop);
    Ok(text?)
}

fn text_of(alloc: Global, fault: Fault) -> Result<String, Fail> {
    match fault {
        Fault::Link(file) => link_text(alloc, file),
        Fault::Place => place_text(alloc),
        Fault::Unread => stop_text(alloc, unread(alloc)?),
        Fault::Verify => stop_text(alloc, verify_fault(alloc)?),
    }
}

fn says_so(alloc: Global, saying: &Saying) -> Result<bool, Fail> {
    let text = text_of(alloc, saying.0)?;
    let is = text.as_str() == saying.1;
    drop(text);
    Ok(is)
}

#[test]
fn a_fault_says_what_is_wrong(rt: HostRuntime) -> Result<(), Fail> {
    for (number, saying) in SAYINGS.iter().enumerate() {
        assert!(rt; says_so(rt.alloc(), saying)?, "row {number}");
    }
    Ok(())
}
