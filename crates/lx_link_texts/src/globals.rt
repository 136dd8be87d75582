//! The globals of a program by address.
ghost use Rattle.std.specs.Prelude.{◌≡◌, ◌+◌, ◌<◌, ◌≤◌, ◌^◌, ◌++◌, ◌∷◌, [], All, IfErr, IfOk, IsTrue, OnOk, length};
ghost use Rattle.lx_ir.specs.Layout.{is_lawful_type};
ghost use Rattle.lx_link_texts.specs.Placing.{HasGlobals, HasLawfulGlobals, HasLimits, IsPast, end_behind, global_size, globals_end, globals_of, last_end, module_places, modules_end, place, places_from, start_behind};

use crate::limits::do_globals_fit;
use crate::sources::Sources;
use lx_caps::GLOBALS_START;
use lx_ir::module::{GlobalVar, Module};
use lx_ir::size_of;
use lx_model::program::{ProgramGlobal, ProgramModule};
use lx_words::{Items, Memory};
use std::alloc::Global;
use thiserror::Error;

/// Why globals have no place.
#[derive(Clone, Copy, Debug, Error)]
pub enum PlaceError {
    /// They end past the region.
    #[error("the globals end past their region")]
    Past,
    /// There was not enough memory.
    #[error("out of memory")]
    Memory,
}

/// How many bytes a global takes.
#[tactic(auto, using(crate::proofs::Places::size_within), unfolding(crate::specs::Placing::global_size))]
pub fn global_size(m: &Module, global: &GlobalVar) -> u64
    requires { IsTrue (is_lawful_type m.now.types global.now.ty) }
    ensures value { result ≡ global_size m.now.types global.now }
    ensures small { result ≤ 4294967296 }
{
    size_of(m, &global.ty)
}

/// The next address divisible by 16.
pub fn start_behind(end: u64) -> u64
    requires { end ≤ last_end }
    ensures value { result ≡ start_behind end }
    ensures near { result ≤ last_end }
{
    (end + 15) / 16 * 16
}

/// Adds a global behind an end, and answers where it ends.
fn push_place(
    places: &mut Items<ProgramGlobal>,
    home: Option<u32>,
    number: u32,
    end: u64,
    size: u64,
) -> Result<u64, Memory>
    requires end { end ≤ last_end }
    requires size { size ≤ 4294967296 }
    ensures { IfOk result (λ next. (next ≡ start_behind end + size) × (places.new ≡ places.old ++ place home number (start_behind end) ∷ [])) }
{
    let at = start_behind(end);
    places.push(ProgramGlobal {
        module: home,
        global: number,
        at,
    })?;
    Ok(at + size)
}

/// Adds the globals of a text behind an end, and answers where they end.
#[tactic(auto, using(crate::proofs::Places::places_step, crate::proofs::Places::places_end, crate::proofs::Places::end_step, crate::proofs::Places::end_all, crate::proofs::Places::next_within))]
fn push_places(
    places: &mut Items<ProgramGlobal>,
    home: Option<u32>,
    m: &Module,
    from: u64,
) -> Result<u64, Memory>
    requires lawful { HasLawfulGlobals m.now }
    requires end { from ≤ last_end }
    requires fits { end_behind m.now.types from m.now.globals ≤ last_end }
    ensures { IfOk result (λ next. (next ≡ end_behind m.now.types from m.now.globals) × (places.new ≡ places.old ++ places_from m.now.types home 0 from m.now.globals)) }
{
    let mut end = from;
    for (number, global) in m.globals.as_slice().iter().enumerate() {
        let size = global_size(m, global);
        end = push_place(places, home, number as u32, end, size)?;
    }
    Ok(end)
}

/// Adds the globals of modules behind an end.
#[tactic(auto, using(crate::proofs::Places::module_places_step, crate::proofs::Places::module_places_end, crate::proofs::Places::modules_end_step, crate::proofs::Places::module_within))]
fn push_module_places(
    places: &mut Items<ProgramGlobal>,
    modules: &[ProgramModule],
    from: u64,
) -> Result<(), Memory>
    requires few { length modules.now < 2 ^ 32 }
    requires lawful { All HasGlobals modules.now }
    requires end { from ≤ last_end }
    requires fits { modules_end from modules.now ≤ last_end }
    ensures { OnOk result (places.new ≡ places.old ++ module_places 0 from modules.now) }
{
    let mut end = from;
    for (number, entry) in modules.iter().enumerate() {
        end = push_places(places, Some(number as u32), &entry.module, end)?;
    }
    Ok(())
}

/// The places of globals that end within their region.
#[tactic(auto, using(crate::proofs::Places::kernel_within), unfolding(crate::specs::Placing::globals_of, crate::specs::Placing::globals_end))]
fn places_of(alloc: Global, sources: &Sources) -> Result<Items<ProgramGlobal>, Memory>
    requires limits { HasLimits sources.now }
    requires fits { globals_end sources.now ≤ last_end }
    ensures { IfOk result (λ places. places ≡ globals_of sources.now) }
{
    let mut places = Items::new(alloc);
    let end = push_places(&mut places, None, &sources.kernel, GLOBALS_START)?;
    push_module_places(&mut places, sources.modules.as_slice(), end)?;
    Ok(places)
}

/// The globals of the texts by address: the kernel's, then those of each module, each at the next address divisible by
/// 16.
///
/// # Errors
/// `Past` where they end past the region of globals, whatever memory there is; `Memory` only where they do not.
pub fn globals_of(alloc: Global, sources: &Sources) -> Result<Items<ProgramGlobal>, PlaceError>
    requires { HasLimits sources.now }
    ensures ok { IfOk result (λ places. (globals_end sources.now ≤ last_end) × (places ≡ globals_of sources.now)) }
    ensures err { IfErr result (λ e. IsPast (globals_end sources.now) e) }
{
    if !do_globals_fit(sources) {
        return Err(PlaceError::Past);
    }
    match places_of(alloc, sources) {
        Ok(places) => Ok(places),
        Err(_) => Err(PlaceError::Memory),
    }
}
