//! Annotations that are the same.

ghost use Rattle.std.specs.Prelude.{◌≡◌, IfOk, bytes_eq};
ghost use Rattle.lx_annot.specs.Canonical.{canonical};

use lx_annot::action::Annotation;
use lx_annot::canonical::canonical;
use lx_annot::interface::Interface;
use lx_words::Memory;
use std::alloc::Global;

fn is_same(a: &[u8], b: &[u8]) -> bool
    ensures { result ≡ bytes_eq a.now b.now }
{
    a == b
}

/// Whether two annotations are the same: their canonical texts are.
pub fn is_same_annotation(
    alloc: Global,
    i: &Interface,
    a: &Annotation,
    b: &Annotation,
) -> Result<bool, Memory>
    ensures { IfOk result (λ same. same ≡ bytes_eq (canonical i.now a.now) (canonical i.now b.now)) }
{
    let first = canonical(alloc, i, a)?;
    let second = canonical(alloc, i, b)?;
    Ok(is_same(&first, &second))
}
