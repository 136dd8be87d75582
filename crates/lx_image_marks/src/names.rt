//! Names that images alone have, and functions by their names.
ghost use Rattle.std.specs.Prelude.{◌≡◌, ℕ, false, ◌++◌, List, bytes_eq, MatchOption};
ghost use Rattle.lx_ir.specs.Lawful.{is_own_name};
ghost use Rattle.lx_image_texts.specs.Marks.{is_alias};
ghost use Rattle.lx_image_texts.specs.ImageFaults.{has_out_wrapper, is_wrapper};

use lx_ir::module::Function;

/// Whether a name is one that no program has.
pub fn is_own_name(name: &[u8]) -> bool
    ensures { result ≡ is_own_name name.now }
{
    name.starts_with(b"lxfi.")
}

/// Whether a function is one that images alone have, by its name.
pub fn is_wrapper(f: &Function) -> bool
    ensures { result ≡ is_wrapper f.now }
{
    is_own_name(f.name.as_slice())
}

/// Whether a function has the name of the import by which a module gives a principal a further name.
pub(crate) fn is_alias(f: &Function) -> bool
    ensures { result ≡ is_alias f.now }
{
    f.name.is_same(b"lxfi_princ_alias")
}

/// Whether a function is an import of the program that has a wrapper.
pub(crate) fn has_out_wrapper(f: &Function) -> bool
    ensures { result ≡ has_out_wrapper f.now }
{
    f.blocks.is_none() && !is_alias(f) && !is_own_name(f.name.as_slice())
}

fn is_same(a: &[u8], b: &[u8]) -> bool
    ensures { result ≡ bytes_eq a.now b.now }
{
    a == b
}

/// What stands in a name behind a text, if the name begins with that text.
#[tactic(auto, using(lx_words::proofs::Lists::longer_name))]
pub(crate) fn behind<'a>(front: &[u8], name: &'a [u8]) -> Option<&'a [u8]>
    ensures { MatchOption result ((back : List ℕ) → bytes_eq (front.now ++ back) name.now ≡ false) (λ rest. (back : List ℕ) → bytes_eq (front.now ++ back) name.now ≡ bytes_eq back rest.now) }
{
    if name.len() < front.len() {
        return None;
    }
    let (first, rest) = name.split_at(front.len());
    if is_same(front, first) {
        Some(rest)
    } else {
        None
    }
}
