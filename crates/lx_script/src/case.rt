//! What a case says.

use lx_words::{Items, Name};
use std::marker::Model;

/// Where a text comes from.
#[derive(Drop)]
pub enum Origin {
    /// There is none.
    None,
    /// The text that the program brings along.
    Builtin,
    /// A file of this name.
    File(Name),
}

/// A module: its name, and the name of its file.
pub struct CaseModule {
    pub name: Name,
    pub file: Name,
}

impl Drop for CaseModule {
    fn drop(self) {
        let CaseModule { name: _, file: _ } = self;
    }
}

/// The modules of a case, in order.
pub type CaseModules = Items<CaseModule>;

/// A function that is called.
pub struct CaseTarget {
    /// The number of the case's module; none is the kernel.
    pub module: Option<u32>,
    pub function: Name,
}

impl Drop for CaseTarget {
    fn drop(self) {
        let CaseTarget {
            module: _,
            function: _,
        } = self;
    }
}

/// An argument of a call.
#[derive(Drop)]
pub enum CaseArg {
    /// A number from -2^63 to 2^64 - 1.
    Number(i128),
    /// The address of a global or a function of a module; none is the kernel.
    Address { module: Option<u32>, name: Name },
}

/// The arguments of a call, in order.
pub type CaseArgs = Items<CaseArg>;

/// A call: whom, with what, with how much fuel, and the line in which it stands.
pub struct CaseCall {
    pub target: CaseTarget,
    pub args: CaseArgs,
    pub fuel: u32,
    pub line: u32,
}

impl Drop for CaseCall {
    fn drop(self) {
        let CaseCall {
            target: _,
            args: _,
            fuel: _,
            line: _,
        } = self;
    }
}

/// The calls of a thread, in order.
pub type CaseThread = Items<CaseCall>;

/// The threads of a case, in order.
pub type CaseThreads = Items<CaseThread>;

/// A case: where kernel and interface come from, the modules, and the calls of each thread. It has at most 64
/// modules, 16 threads, 4,096 calls and 1,048,576 units of fuel in all.
pub struct Case {
    pub kernel: Origin,
    pub interface: Origin,
    pub modules: CaseModules,
    pub threads: CaseThreads,
}

impl Drop for Case {
    fn drop(self) {
        let Case {
            kernel: _,
            interface: _,
            modules: _,
            threads: _,
        } = self;
    }
}

impl Model for Case {
    ghost use Rattle.lx_script.specs.Case.{Case as Meaning, IsWithinLimits};

    ghost Value = { Meaning };

    ghost view = { λ c. record { kernel = c.kernel; interface = c.interface; modules = c.modules; threads = c.threads } };

    ghost invariant = { λ c. IsWithinLimits c.modules c.threads };
}
