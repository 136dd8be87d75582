//! The texts that say what is run: cases and schedules.
//!
//! A case says where kernel and interface come from, names modules, and lists the calls of each thread:
//!
//! ```text
//! lxfi case 1
//! kernel file kernel.ll
//! interface file interface
//! module m m.ll
//! thread
//! call m:main 3 &m:buffer fuel 100
//! ```
//!
//! A schedule says which thread each event is of, as `schedule 0*8 1*6 0*8`. [`read_case`] and [`read_schedule`] answer
//! the value that a text says, or the first fault that is met in it, with its line and its words. [`one_case`] and
//! [`one_schedule`] state that a text has no second value and no second fault. [`generate`] makes cases of any number of calls.
#![tactic(auto)]

mod case;
mod draft;
mod fault;
mod keyword;
mod modules;
mod reader;
mod reading;
mod run;
mod schedule;
mod statement;
mod symbol;
mod words;

pub use case::{
    Case, CaseArg, CaseArgs, CaseCall, CaseModule, CaseModules, CaseTarget, CaseThread,
    CaseThreads, Origin,
};
pub use fault::CaseFault;
pub use lx_generate::{Generated, generate};
pub use reader::{one_case, read_case};
pub use schedule::{one_schedule, read_schedule};
