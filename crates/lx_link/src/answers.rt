//! Faults as they are answered: with the names of their files, and with marks before names.
ghost use Rattle.std.specs.Prelude.{◌≡◌, IfOk};
ghost use Rattle.lx_link.specs.Answers.{answered, fault_named, file_of, mark_of, origin_name, what_of};

use crate::fault::LinkFault;
use lx_link_texts::fault::{FaultKind, Found, Source};
use lx_script::{Case, Origin};
use lx_words::{Memory, Name};
use std::alloc::Global;

/// The name of the file that a text comes from.
fn origin_name(origin: &Origin) -> &[u8]
    ensures { result.now ≡ origin_name origin.now }
{
    match origin {
        Origin::None => &[],
        Origin::Builtin => b"builtin",
        Origin::File(name) => name.as_slice(),
    }
}

/// The name of the file of a text; empty for the case.
fn file_of(case: &Case, source: Source) -> &[u8]
    ensures { result.now ≡ file_of case.now source }
{
    match source {
        Source::Kernel => origin_name(&case.kernel),
        Source::Interface => origin_name(&case.interface),
        Source::Module(number) => match case.modules.as_slice().get(number as usize) {
            Some(module) => module.file.as_slice(),
            None => &[],
        },
        Source::Case => &[],
    }
}

/// The mark before a name; the word for a limit has none.
fn mark_of(kind: FaultKind) -> &'static [u8]
    ensures { result.now ≡ mark_of kind }
{
    match kind {
        FaultKind::TooLarge => b"",
        FaultKind::Missing
        | FaultKind::Unannotated
        | FaultKind::SignatureDiffers
        | FaultKind::KernelIndirect => b"@",
    }
}

/// A name behind its mark.
fn what_of(alloc: Global, kind: FaultKind, name: &[u8]) -> Result<Name, Memory>
    ensures { IfOk result (λ what. what ≡ what_of kind name.now) }
{
    let mut bytes = Vec::from_slice(alloc, mark_of(kind))?;
    bytes.extend_from_slice(name)?;
    Ok(Name::from_vec(bytes))
}

/// The fault as it is answered.
fn named(kind: FaultKind, file: Name, line: u32, what: Name) -> LinkFault
    ensures { result ≡ fault_named kind file line what }
{
    match kind {
        FaultKind::Missing => LinkFault::Missing { file, line, what },
        FaultKind::Unannotated => LinkFault::Unannotated { file, line, what },
        FaultKind::SignatureDiffers => LinkFault::SignatureDiffers { file, line, what },
        FaultKind::TooLarge => LinkFault::TooLarge { file, line, what },
        FaultKind::KernelIndirect => LinkFault::KernelIndirect { file, line, what },
    }
}

/// The fault that is answered for one that was found.
pub fn answered(alloc: Global, case: &Case, found: &Found<'_>) -> Result<LinkFault, Memory>
    ensures { IfOk result (λ fault. fault ≡ answered case.now found.now) }
{
    let file = Name::from_bytes(alloc, file_of(case, found.source))?;
    let what = what_of(alloc, found.kind, found.name)?;
    Ok(named(found.kind, file, found.line, what))
}
