//! A whole report, with ample memory.
ghost use Rattle.std.specs.Prelude.{IfOk};
ghost use Rattle.lx_report.specs.Lawful.{HasLawfulModules};

use crate::common::{function_with, interface_with, module_with, modules_with};
use lx_caps::{Cap, Principal};
use lx_ir::module::Function;
use lx_ir::types::Scalar;
use lx_model::account::{Account, CallOutcome, ImageCount, InstanceName, Note, Owned};
use lx_model::program::{Program, ProgramFunction};
use lx_model::request::{Outcome, Refusal};
use lx_report::report;
use lx_words::{Items, Memory, Name, Width, Word};
use std::alloc::{AllocError, Global};
use std::test::Fail;

/// Two threads race for a packet: one sends it, and the other one pokes it too late.
const RACED: &str = "schedule 0*2 1*1 0*1\n\
call 0.0 kernel:make returned\n\
call 0.1 kernel:send returned -1\n\
call 1.0 kernel:poke refused 1 m.shared write 0x2000040+1\n\
note 0 8\n\
image m guards 3 checks 0 wrappers 2\n\
owns m.shared write 0x10000e0+8\n\
owns m.shared call 0x100d0\n\
owns m[0x1000020] ref device 0x1000020\n";

const SHARED: Principal = Principal::Shared(0);

/// The numbers of the kernel's functions, behind a native.
static NUMBERS: [ProgramFunction; 4] = [
    ProgramFunction::Native(0),
    ProgramFunction::Of {
        module: None,
        function: 0,
    },
    ProgramFunction::Of {
        module: None,
        function: 1,
    },
    ProgramFunction::Of {
        module: None,
        function: 2,
    },
];

/// The kernel's functions, and what they give.
static FUNCTIONS: [(&str, Option<Scalar>); 3] = [
    ("send", Some(Scalar::Int(Width::W32))),
    ("make", None),
    ("poke", None),
];

static SCHEDULE: [u32; 4] = [0, 0, 1, 0];

/// How the calls ended. (A word stands in no static.)
fn outcomes() -> [CallOutcome; 3] {
    [
        CallOutcome {
            thread: 0,
            function: 2,
            outcome: Outcome::Returned(None),
        },
        CallOutcome {
            thread: 0,
            function: 1,
            outcome: Outcome::Returned(Some(Word {
                width: Width::W32,
                bits: 0xffff_ffff,
            })),
        },
        CallOutcome {
            thread: 1,
            function: 3,
            outcome: Outcome::Refused(Refusal::Write {
                who: SHARED,
                at: 0x2000040,
                size: 1,
            }),
        },
    ]
}

static NOTES: [Note; 1] = [Note {
    thread: 0,
    value: 8,
}];

static IMAGES: [ImageCount; 1] = [ImageCount {
    guards: 3,
    checks: 0,
    wrappers: 2,
}];

static OWNERS: [Owned; 3] = [
    Owned {
        who: SHARED,
        cap: Cap::Write {
            at: 0x10000e0,
            size: 8,
        },
    },
    Owned {
        who: SHARED,
        cap: Cap::Call { at: 0x100d0 },
    },
    Owned {
        who: Principal::Inst(0, 0),
        cap: Cap::Ref {
            ty: 0,
            at: 0x1000020,
        },
    },
];

static NAMES: [InstanceName; 1] = [InstanceName {
    module: 0,
    instance: 0,
    value: 0x1000020,
}];

fn name(alloc: Global, text: &str) -> Result<Name, AllocError> {
    Items::from_bytes(alloc, text.as_bytes())
}

fn kernel_functions(alloc: Global) -> Result<Vec<Function>, Memory> {
    let mut functions = Vec::new(alloc);
    for (text, ret) in FUNCTIONS.iter() {
        functions.push(function_with(alloc, name(alloc, text)?, *ret))?;
    }
    Ok(functions)
}

fn reftypes(alloc: Global) -> Result<Items<Name>, Memory> {
    let device = name(alloc, "device")?;
    let reftypes = vec![in alloc; device]?;
    Ok(Items::from_vec(reftypes))
}

#[tactic(auto, using(crate::proofs::Programs::has_lawful_modules))]
fn program(alloc: Global) -> Result<Program, Memory>
    ensures { IfOk result HasLawfulModules }
{
    let m = name(alloc, "m")?;
    let modules = modules_with(alloc, m, Vec::new(alloc))?;
    let functions = Items::from_slice(alloc, &NUMBERS)?;
    let reftypes = reftypes(alloc)?;
    let kernel = kernel_functions(alloc)?;
    Ok(Program {
        kernel: module_with(alloc, kernel),
        modules,
        functions,
        globals: Items::new(alloc),
        interface: interface_with(alloc, reftypes, Items::new(alloc)),
    })
}

/// An account of nothing.
fn no_account(alloc: Global) -> Account {
    Account {
        schedule: Items::new(alloc),
        outcomes: Items::new(alloc),
        notes: Items::new(alloc),
        images: Items::new(alloc),
        owners: Items::new(alloc),
        names: Items::new(alloc),
    }
}

/// Puts values at the end of a list.
fn put_all<T: Copy + Drop>(list: &mut Items<T>, values: &[T]) -> Result<(), Memory> {
    for value in values {
        list.push(*value)?;
    }
    Ok(())
}

/// Puts what came of the race into an account.
fn put_race(account: &mut Account) -> Result<(), Memory> {
    put_all(&mut account.schedule, &SCHEDULE)?;
    put_all(&mut account.outcomes, &outcomes())?;
    put_all(&mut account.notes, &NOTES)?;
    put_all(&mut account.images, &IMAGES)?;
    put_all(&mut account.owners, &OWNERS)?;
    put_all(&mut account.names, &NAMES)?;
    Ok(())
}

fn report_of(alloc: Global, account: &Account) -> Result<Vec<u8>, Memory> {
    let program = program(alloc)?;
    let text = report(alloc, account, &program);
    drop(program);
    text
}

/// Whether the race is reported as it has to be.
fn is_reported(alloc: Global, account: &mut Account) -> Result<bool, Memory> {
    put_race(account)?;
    let text = report_of(alloc, account)?;
    Ok(text.as_slice() == RACED.as_bytes())
}

#[test]
fn a_report_of_two_threads(rt: HostRuntime) -> Result<(), Fail> {
    let alloc = rt.alloc();
    let mut account = no_account(alloc);
    let reported = is_reported(alloc, &mut account);
    drop(account);
    assert!(rt; reported?);
    Ok(())
}
