//! Certificates: why a principal holds a capability, or what it lacks, by the numbers of the acts that say so.
//!
//! [`check_cert`] judges a certificate by a list of acts alone; [`cert_for`] makes the one that a need has, and [`certs_for`]
//! those of needs up to the first that is not met. [`told_acts`] leaves out the acts that give and take nothing.
//!
//! ```
//! // The global was granted when the run opened; the store is one byte longer.
//! let who = Principal::Shared(0);
//! let acts = [Act::Grant(who, Cap::Write { at: 0x1000000, size: 7 })];
//! let cert = cert_for(alloc, &acts, who, Cap::Write { at: 0x1000000, size: 8 }, false)?;
//! // Cert::Deny { atom: Atom::Byte(0x1000007), strip: None, .. }
//! ```
#![tactic(auto)]

mod check;
mod givers;
mod laws;
mod make;
mod needs;
mod spans;
mod told;

pub use check::check_cert;
pub use givers::{Gifts, Piece, Sought, count_of, first_of};
pub use laws::{certificate_laws, need_laws, standing_laws, worked_certificates};
use lx_caps::{Atom, Cap, Principal};
use lx_words::Items;
pub use make::{Cutting, atom_at, cert_for, number_if, part_of};
pub use needs::certs_for;
pub use told::{is_told, told_acts, told_laws};

/// Atoms of a capability from the one at an address on, how many they are, and the number of the act that gives them. Acts
/// are numbered from the oldest, from 0.
#[derive(Clone, Copy, PartialEq)]
pub struct Part {
    pub low: u64,
    pub size: u64,
    pub act: u32,
}

/// A list of parts.
pub type Parts = Items<Part>;

/// Why a principal holds a capability, or what it lacks, by the acts so far.
#[derive(Drop)]
pub enum Cert {
    /// Each atom was given by the act of its part: a grant, or where it need not be kept also a lend.
    Allow {
        who: Principal,
        cap: Cap,
        kept: bool,
        parts: Parts,
    },
    /// Nobody in reach owns the atom, the first one so. The newest strip that has it is this act, if one has.
    Deny {
        who: Principal,
        cap: Cap,
        atom: Atom,
        strip: Option<u32>,
    },
    /// The capability is held, and the atom, the first one so, on loan alone: this act lent it last.
    Borrowed {
        who: Principal,
        cap: Cap,
        atom: Atom,
        act: u32,
    },
}

/// A list of certificates.
pub type Certs = Items<Cert>;

/// A principal needs a capability: to hold it, or to keep it too.
#[derive(Clone, Copy)]
pub struct Need {
    pub who: Principal,
    pub cap: Cap,
    pub kept: bool,
}
