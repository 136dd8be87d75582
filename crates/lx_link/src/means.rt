//! What linking makes that takes memory.
ghost use Rattle.std.specs.Prelude.{◌≡◌, ◌≤◌, IfOk, OnErr, length, ⊤};
ghost use Rattle.lx_ir.specs.Verified.{IsVerified};
ghost use Rattle.lx_link_texts.specs.Faults.{most_functions};
ghost use Rattle.lx_link_texts.specs.Placing.{HasLimits, functions_of, globals_end, globals_of, last_end};
ghost use Rattle.lx_link.specs.Answers.{AreVerified, answered, named_modules, sources_of};
ghost use Rattle.lx_link.specs.Calls.{calls_of};

use crate::answers::answered;
use crate::calls::resolve;
use crate::fault::LinkFault;
use crate::texts::{VerifiedTexts, named_sources};
use lx_link_texts::fault::Found;
use lx_link_texts::sources::Sources;
use lx_link_texts::{functions_of, globals_of};
use lx_model::program::{Calls, Program, ProgramFunction, ProgramGlobal};
use lx_name_tables::ProgramNames;
use lx_script::{Case, CaseModule, CaseThread};
use lx_words::{Items, Memory};
use std::alloc::Global;

/// What linking makes that takes memory. Linking is written over any means, so that its contracts can say where want of
/// memory comes: only where the means lacked it, and never in the place of a fault that is reckoned without memory.
pub trait Means {
    /// There was no memory for the names of a fault.
    ghost unnamed: { Self → Type 0 };

    /// There was no memory for names of modules, tables or calls.
    ghost lacks: { Self → Type 0 };

    /// The fault that is answered for one that was found.
    fn answered(&self, case: &Case, found: &Found<'_>) -> Result<LinkFault, Memory>
        ensures ok { IfOk result (λ fault. fault ≡ answered case.now found.now) }
        ensures err { OnErr result (unnamed self.now) };

    /// The texts, with the names that the case gives the modules.
    fn sources(&self, texts: VerifiedTexts, names: &[CaseModule]) -> Result<Sources, Memory>
        requires { length texts.modules.items ≡ length names.now }
        ensures sources { IfOk result (λ sources. sources ≡ sources_of texts.kernel texts.interface (named_modules names.now texts.modules.items)) }
        ensures verified { IfOk result (λ sources. IsVerified sources.kernel × AreVerified sources.modules) }
        ensures err { OnErr result (lacks self.now) };

    /// The functions of texts by number.
    fn functions(&self, sources: &Sources) -> Result<Items<ProgramFunction>, Memory>
        requires { HasLimits sources.now }
        ensures ok { IfOk result (λ functions. functions ≡ functions_of sources.now) }
        ensures err { OnErr result (lacks self.now) };

    /// The globals of texts by address.
    fn globals(&self, sources: &Sources) -> Result<Items<ProgramGlobal>, Memory>
        requires limits { HasLimits sources.now }
        requires fits { globals_end sources.now ≤ last_end }
        ensures ok { IfOk result (λ globals. globals ≡ globals_of sources.now) }
        ensures err { OnErr result (lacks self.now) };

    /// The names of a program. A table that there is no memory for is left out, and its list is searched.
    fn names<'a>(&self, program: &'a Program) -> ProgramNames<'a>
        requires { length program.now.functions ≤ most_functions }
        ensures { result ≡ program.now };

    /// The calls of each thread by numbers and words.
    fn resolve(
        &self,
        names: &ProgramNames<'_>,
        threads: &[CaseThread],
    ) -> Result<Items<Calls>, Memory>
        ensures ok { IfOk result (λ list. list ≡ calls_of names.now threads.now) }
        ensures err { OnErr result (lacks self.now) };
}

impl Means for Global {
    ghost unnamed = { λ _. ⊤ };

    ghost lacks = { λ _. ⊤ };

    fn answered(&self, case: &Case, found: &Found<'_>) -> Result<LinkFault, Memory> {
        let fault = answered(*self, case, found)?;
        Ok(fault)
    }

    fn sources(&self, texts: VerifiedTexts, names: &[CaseModule]) -> Result<Sources, Memory> {
        let sources = named_sources(*self, texts, names)?;
        Ok(sources)
    }

    fn functions(&self, sources: &Sources) -> Result<Items<ProgramFunction>, Memory> {
        let functions = functions_of(*self, sources)?;
        Ok(functions)
    }

    /// The globals end within their region, so that no other error than want of memory comes.
    fn globals(&self, sources: &Sources) -> Result<Items<ProgramGlobal>, Memory> {
        match globals_of(*self, sources) {
            Ok(globals) => Ok(globals),
            Err(_) => Err(Memory),
        }
    }

    fn names<'a>(&self, program: &'a Program) -> ProgramNames<'a> {
        ProgramNames::new(*self, program)
    }

    fn resolve(
        &self,
        names: &ProgramNames<'_>,
        threads: &[CaseThread],
    ) -> Result<Items<Calls>, Memory> {
        let calls = resolve(*self, names, threads)?;
        Ok(calls)
    }
}
