// Which atoms of a capability an act touches, by their places.
ghost use Rattle.std.specs.Prelude.{◌≡◌, ◌+◌, ◌<◌, ◌≤◌, ℕ};
ghost use Rattle.lx_caps.specs.History.{has, reaches};
ghost use Rattle.lx_caps.specs.Regions.{covers};
ghost use Rattle.lx_certificates.specs.Givers.{count_of, first_of, nth_atom, touches};
ghost use Rattle.lx_certificates.specs.Spans.{is_in};

use lx_caps::{Act, Cap, Principal, reaches};

/// Places from one to before another.
#[derive(Clone, Copy)]
pub struct Span {
    pub from: u64,
    pub end: u64,
}

pub fn is_in(span: Span, place: u64) -> bool
    ensures { result ≡ is_in span place }
{
    span.from <= place && place < span.end
}

/// The bytes of one range that another one covers.
fn covered(at: u64, size: u64, by_at: u64, by_size: u64) -> Span
    ensures { (k : ℕ) → k < size → covers by_at by_size (at + k) ≡ is_in result k }
{
    if by_at <= at {
        Span {
            from: 0,
            end: by_size.saturating_sub(at - by_at),
        }
    } else {
        let from = by_at - at;
        Span {
            from,
            end: from.saturating_add(by_size),
        }
    }
}

const NOWHERE: Span = Span { from: 0, end: 0 };

/// The one place where the test holds, else none.
fn place_if(test: bool) -> Span
    ensures { (k : ℕ) → k < 1 → test ≡ is_in result k }
{
    if test {
        Span { from: 0, end: 1 }
    } else {
        NOWHERE
    }
}

/// The atoms of one capability that another one has.
fn shared(cap: Cap, other: Cap) -> Span
    ensures { (k : ℕ) → k < count_of cap → has other (nth_atom cap k) ≡ is_in result k }
{
    match (cap, other) {
        (
            Cap::Write { at, size },
            Cap::Write {
                at: by_at,
                size: by_size,
            },
        ) => { covered(at, size, by_at, by_size) }
        (Cap::Call { at }, Cap::Call { at: by_at }) => place_if(by_at == at),
        (
            Cap::Ref { ty, at },
            Cap::Ref {
                ty: by_ty,
                at: by_at,
            },
        ) => { place_if(by_ty == ty && by_at == at) }
        _ => NOWHERE,
    }
}

/// The atoms of a capability that an act gives to someone in reach of the principal, or takes from everyone.
pub fn touched(cap: Cap, act: Act, who: Principal) -> Span
    ensures { (k : ℕ) → k < count_of cap → touches (reaches who) act (nth_atom cap k) ≡ is_in result k }
{
    match act {
        Act::Grant(to, given) | Act::Lend(_, to, given) => if reaches(who, to) {
            shared(cap, given)
        } else {
            NOWHERE
        },
        Act::Strip(taken) => shared(cap, taken),
        _ => NOWHERE,
    }
}

/// How far the places from one on lie in the span as that one does, but no farther than `until`.
pub fn alike_until(span: Span, from: u64, until: u64) -> u64
    requires { from < until }
    ensures more { from < result }
    ensures bound { result ≤ until }
    ensures alike { (k : ℕ) → from ≤ k → k < result → is_in span k ≡ is_in span from }
{
    if from < span.from {
        until.min(span.from)
    } else if from < span.end {
        until.min(span.end)
    } else {
        until
    }
}
