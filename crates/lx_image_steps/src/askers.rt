//! For whom a text makes its requests.
ghost use Rattle.std.specs.Prelude.{◌≡◌, List};
ghost use Rattle.lx_caps.specs.declared.Principal.{Principal};
ghost use Rattle.lx_images.specs.Image.{asker, covered, is_checked, module_asker, principal_if, top as top_of};

use crate::marks::{Guarded, Marks};
use lx_caps::Principal;
use lx_model::request::{Way, What};

// Whether a guard names all of the bytes.
fn covers(guarded: &Option<Guarded>, at: u64, size: u64) -> bool
    ensures { result ≡ covered guarded.now at size }
{
    match guarded {
        Some(named) => {
            let end = u128::from(named.at) + u128::from(named.size);
            named.at <= at && u128::from(at) + u128::from(size) <= end
        }
        None => false,
    }
}

// Whether a check names the address.
fn is_checked(checked: Option<u64>, at: u64) -> bool
    ensures { result ≡ is_checked checked at }
{
    match checked {
        Some(named) => named == at,
        None => false,
    }
}

// The principal on top where the mark is there, and the kernel otherwise.
fn top_if(marked: bool, top: Principal) -> Principal
    ensures { (shadow : List Principal) → top_of shadow ≡ top → result ≡ principal_if marked shadow }
{
    if marked { top } else { Principal::Kernel }
}

// For whom a module's text makes a request.
fn module_asker(marks: &Marks, top: Principal, what: &What) -> Principal
    ensures { (shadow : List Principal) → top_of shadow ≡ top → result ≡ module_asker marks.now shadow what.now }
{
    match what {
        What::Store { at, value } => {
            let size = u64::from(value.width.byte_count());
            top_if(covers(&marks.guarded, *at, size), top)
        }
        What::Copy { to, len, .. } => top_if(covers(&marks.guarded, *to, *len), top),
        What::Fill { to, len, .. } => top_if(covers(&marks.guarded, *to, *len), top),
        What::Enter { way, .. } => match way {
            Way::Indirect(at) => top_if(is_checked(marks.checked, *at), top),
            _ => top,
        },
        _ => top,
    }
}

/// For whom the text of a module, or of the kernel, makes a request, where the marks stand before it and the principal is the top
/// one of the shadow stack: the kernel's text asks for the kernel; a module's asks for the top principal, but for the kernel
/// where it writes memory that no guard names, or calls an address that no check names.
pub fn asker(home: Option<u32>, marks: &Marks, top: Principal, what: &What) -> Principal
    ensures { (shadow : List Principal) → top_of shadow ≡ top → result ≡ asker home marks.now shadow what.now }
{
    match home {
        None => Principal::Kernel,
        Some(_) => module_asker(marks, top, what),
    }
}
