// What principals reach, what capabilities are made of, and how atoms are ordered.
ghost use Rattle.std.specs.Prelude.{◌≡◌, ◌||◌, Bool};
ghost use Rattle.lx_caps.specs.Cells.{cells};
ghost use Rattle.lx_caps.specs.History.{has, is_of, reaches, same_principal};
ghost use Rattle.lx_caps.specs.Order.{is_before, is_behind};
ghost use Rattle.lx_caps.specs.Precedence.{follows, is_found, module_rank, precedes, rank_in_module, IsFirstPrincipal};
ghost use Rattle.lx_caps.specs.declared.Principal.{Principal};

use crate::{Atom, Cap, Principal};

/// How much of a store's room a grant of the capability takes at most.
pub fn cells(cap: Cap) -> u64
    ensures { result ≡ cells cap }
{
    match cap {
        Cap::Write { size, .. } => size / 64 + 2,
        Cap::Call { .. } | Cap::Ref { .. } => 1,
    }
}

/// Says whether two principals are the same.
pub fn is_same(p: Principal, q: Principal) -> bool
    ensures { result ≡ same_principal p q }
{
    match (p, q) {
        (Principal::Kernel, Principal::Kernel) => true,
        (Principal::Shared(m), Principal::Shared(n)) => m == n,
        (Principal::Global(m), Principal::Global(n)) => m == n,
        (Principal::Inst(m, k), Principal::Inst(n, l)) => m == n && k == l,
        _ => false,
    }
}

fn is_of(m: u32, p: Principal) -> bool
    ensures { result ≡ is_of m p }
{
    match p {
        Principal::Kernel => false,
        Principal::Shared(n) | Principal::Global(n) | Principal::Inst(n, _) => m == n,
    }
}

/// Says whether a principal may use what `owner` owns. The kernel and a shared principal reach themselves, an
/// instance reaches itself and its module's shared principal, and a global one every principal of its module.
pub fn reaches(p: Principal, owner: Principal) -> bool
    ensures { result ≡ reaches p owner }
{
    match p {
        Principal::Kernel | Principal::Shared(_) => is_same(p, owner),
        Principal::Global(m) => is_of(m, owner),
        Principal::Inst(m, _) => is_same(p, owner) || is_same(Principal::Shared(m), owner),
    }
}

fn module_rank(p: Principal) -> u64
    ensures { result ≡ module_rank p }
{
    match p {
        Principal::Kernel => 0,
        Principal::Shared(m) | Principal::Global(m) | Principal::Inst(m, _) => m as u64 + 1,
    }
}

fn rank_in_module(p: Principal) -> u64
    ensures { result ≡ rank_in_module p }
{
    match p {
        Principal::Kernel | Principal::Shared(_) => 0,
        Principal::Global(_) => 1,
        Principal::Inst(_, k) => k as u64 + 2,
    }
}

/// Says whether the first principal comes before the second one: the kernel comes first, then for each module its
/// shared principal, its global one, and its instances by number.
pub fn precedes(p: Principal, q: Principal) -> bool
    ensures { result ≡ precedes p q }
{
    let a = module_rank(p);
    let b = module_rank(q);
    a < b || (a == b && rank_in_module(p) < rank_in_module(q))
}

/// Says whether a principal comes behind `after`: any does behind `None`.
pub fn follows(after: Option<Principal>, who: Principal) -> bool
    ensures { result ≡ follows after who }
{
    match after {
        None => true,
        Some(last) => precedes(last, who),
    }
}

/// Gives the first of two principals in order, where there are two. The first one that passes a test, and one that was
/// found, give the first one of all that pass the test or were found.
pub fn earlier(first: Option<Principal>, found: Option<Principal>) -> Option<Principal>
    ensures { (p : Principal → Bool) → IsFirstPrincipal p first → IsFirstPrincipal (λ q. p q || is_found found q) result }
{
    match (first, found) {
        (None, _) => found,
        (_, None) => first,
        (Some(one), Some(other)) => if precedes(other, one) { found } else { first },
    }
}

/// Says whether the atom is one of the capability's.
pub fn has(cap: Cap, atom: Atom) -> bool
    ensures { result ≡ has cap atom }
{
    match (cap, atom) {
        (Cap::Write { at, size }, Atom::Byte(b)) => at <= b && b - at < size,
        (Cap::Call { at }, Atom::Call(a)) => at == a,
        (Cap::Ref { ty, at }, Atom::Ref(t, a)) => ty == t && at == a,
        _ => false,
    }
}

/// Says whether the first atom comes before the second one: bytes by address, then calls by address, then references by
/// type and address.
pub fn is_before(x: Atom, y: Atom) -> bool
    ensures { result ≡ is_before x y }
{
    match (x, y) {
        (Atom::Byte(a), Atom::Byte(b)) => a < b,
        (Atom::Call(a), Atom::Call(b)) => a < b,
        (Atom::Ref(t, a), Atom::Ref(u, b)) => t < u || (t == u && a < b),
        (Atom::Byte(_), _) => true,
        (Atom::Call(_), Atom::Ref(..)) => true,
        _ => false,
    }
}

/// Says whether an atom comes behind `after`: any does behind `None`.
pub fn is_behind(after: Option<Atom>, atom: Atom) -> bool
    ensures { result ≡ is_behind after atom }
{
    match after {
        None => true,
        Some(last) => is_before(last, atom),
    }
}
