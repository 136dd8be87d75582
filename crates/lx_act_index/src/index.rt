//! The index of acts.
ghost use Rattle.lx_act_index.specs.Table.{IsTable};

use crate::make::{cert_by, certs_by};
use crate::note::note_act;
use crate::table::{Table, new_table};
use crate::threads::Thread;
use lx_caps::{Act, Cap, Principal};
use lx_certificates::{Cert, Certs, Need};
use lx_words::{Memory, number_of};
use std::alloc::Global;

/// An index of acts by what they touch. It stands for a history of acts, which have the numbers of their places, the oldest
/// first, from 0.
#[derive(Drop)]
pub struct ActIndex {
    pub(crate) table: Table,
    pub(crate) threads: Vec<Thread>,
    pub(crate) count: usize,
    ghost is_table: { IsTable table },
}

impl ActIndex {
    ghost use Rattle.std.specs.Prelude.{◌≡◌, ◌≢◌, ◌∷◌, [], true, false, All, IfOk, OnOk, OnErr};
    ghost use Rattle.lx_caps.specs.History.{History};
    ghost use Rattle.lx_caps.specs.Placed.{is_placed_act};
    ghost use Rattle.lx_certificates.specs.Certificates.{is_kernel};
    ghost use Rattle.lx_certificates.specs.Laws.{IsCertFor};
    ghost use Rattle.lx_certificates.specs.Needs.{AreCertsOf, up_to_unmet};
    ghost use Rattle.lx_certificates.specs.declared.Need.{Need};
    ghost use Rattle.lx_act_index.specs.Standing.{StandsForActs};

    /// An index of no acts.
    ///
    /// # Errors
    /// Want of memory.
    pub fn new(alloc: Global) -> Result<Self, Memory>
        ensures { IfOk result (λ index. StandsForActs index []) }
    {
        let table = new_table(alloc)?;
        Ok(ActIndex {
            table,
            threads: Vec::new(alloc),
            count: 0,
        })
    }

    /// Notes one act more, whose bytes lie in memory.
    ///
    /// # Errors
    /// Want of memory, as for a number of an act of more than 32 bits. The index stands for what it did then.
    pub fn note(&mut self, act: Act) -> Result<(), Memory>
        requires { is_placed_act act ≡ true }
        ensures ok { OnOk result ((h : History) → StandsForActs self.old h → StandsForActs self.new (act ∷ h)) }
        ensures err { OnErr result ((h : History) → StandsForActs self.old h → StandsForActs self.new h) }
    {
        let number = number_of(self.count)?;
        note_act(&mut self.table, &mut self.threads, number, act)?;
        self.count += 1;
        Ok(())
    }

    /// The certificate of a module's need of a capability, which must be kept or only held, by the acts so far.
    ///
    /// # Errors
    /// Want of memory, and an atom outside of the address space.
    pub fn cert_for(
        &self,
        alloc: Global,
        who: Principal,
        cap: Cap,
        kept: bool,
    ) -> Result<Cert, Memory>
        requires { is_kernel who ≡ false }
        ensures { IfOk result (λ c. (h : History) → StandsForActs self.now h → IsCertFor h who cap kept c) }
    {
        let cert = cert_by(alloc, self, Need { who, cap, kept })?;
        Ok(cert)
    }

    /// The certificates of needs by the acts so far, up to and with that of the first need that is not met.
    ///
    /// # Errors
    /// As [`ActIndex::cert_for`].
    pub fn certs_for(&self, alloc: Global, needs: &[Need]) -> Result<Certs, Memory>
        requires { All (λ (n : Need). is_kernel n.who ≡ false) needs.now }
        ensures { IfOk result (λ cs. (h : History) → StandsForActs self.now h → AreCertsOf h (up_to_unmet h needs.now) cs) }
    {
        let certs = certs_by(alloc, self, needs)?;
        Ok(certs)
    }
}
