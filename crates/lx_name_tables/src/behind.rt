//! Names that are made of two texts.
ghost use Rattle.std.specs.Prelude.{◌≡◌, ℕ, false, ◌++◌, List, bytes_eq, MatchOption};

fn is_same(a: &[u8], b: &[u8]) -> bool
    ensures { result ≡ bytes_eq a.now b.now }
{
    a == b
}

/// What stands in a name behind a text, if the name begins with that text.
#[tactic(auto, using(lx_words::proofs::Lists::longer_name))]
pub(crate) fn behind<'a>(front: &[u8], name: &'a [u8]) -> Option<&'a [u8]>
    ensures { MatchOption result ((back : List ℕ) → bytes_eq (front.now ++ back) name.now ≡ false) (λ rest. (back : List ℕ) → bytes_eq (front.now ++ back) name.now ≡ bytes_eq back rest.now) }
{
    if name.len() < front.len() {
        return None;
    }
    let (first, rest) = name.split_at(front.len());
    if is_same(front, first) {
        Some(rest)
    } else {
        None
    }
}
