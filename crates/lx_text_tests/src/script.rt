//! Hostile cases and schedules, with the value or the first fault that each has.

use lx_script::{Case, CaseArg, CaseCall, CaseFault, Origin, read_case, read_schedule};
use lx_words::Schedule;
use std::alloc::Global;
use std::test::Fail;

/// The bytes that a file may have.
const MOST_BYTES: usize = 1 << 20;

fn case_in(alloc: Global, text: &[u8]) -> Result<Case, CaseFault> {
    if text.len() > MOST_BYTES {
        return Err(CaseFault::Memory);
    }
    read_case(alloc, text)
}

fn schedule_in(alloc: Global, text: &[u8]) -> Result<Schedule, CaseFault> {
    if text.len() > MOST_BYTES {
        return Err(CaseFault::Memory);
    }
    read_schedule(alloc, text)
}

/// A text, and its first fault: the number of its kind, its line, and its words.
struct Row(&'static [u8], u8, u32, &'static [u8]);

fn is_fault(fault: &CaseFault, kind: u8, line: u32, what: &[u8]) -> bool {
    let (found, at, words) = match fault {
        CaseFault::Memory => return false,
        CaseFault::Lexical { line, what } => (1, *line, what),
        CaseFault::Statement { line, what } => (2, *line, what),
        CaseFault::Unknown { line, what } => (3, *line, what),
        CaseFault::Twice { line, what } => (4, *line, what),
        CaseFault::Range { line, what } => (5, *line, what),
        CaseFault::Limit { line, what } => (6, *line, what),
    };
    found == kind && at == line && words.is_same(what)
}

static SCHEDULES: [Row; 17] = [
    Row(b"schedule 0*1\n1*", 2, 2, b"1*"),
    Row(b"schedule\nschedule", 2, 2, b"schedule"),
    Row(b"0*1 schedule", 2, 1, b"schedule"),
    Row(b"*1", 2, 1, b"*1"),
    Row(b"0*-1", 2, 1, b"0*-1"),
    Row(b"0*1*1", 2, 1, b"0*1*1"),
    Row(b"0 * 1", 2, 1, b"0"),
    Row(b"# 0*1", 2, 1, b"#"),
    Row(b"\n0*1\n\n 7*00", 5, 4, b"00"),
    Row(b"4294967296*0", 5, 1, b"4294967296"),
    Row(b"4294967295*4294967296", 5, 1, b"4294967296"),
    Row(b"0*99999999999999999999", 5, 1, b"99999999999999999999"),
    Row(b"0*1052672\n1*1", 6, 2, b"entries"),
    Row(b"0*1052673", 6, 1, b"entries"),
    Row(b"0*1\t1*1", 1, 1, b"0x9"),
    Row(b"0*1\n1*1\r", 1, 2, b"0xd"),
    Row(b"0*0\x00", 5, 1, b"0"),
];

fn schedule_row_fails(alloc: Global, row: &Row) -> bool {
    match schedule_in(alloc, row.0) {
        Ok(_) => false,
        Err(fault) => is_fault(&fault, row.1, row.2, row.3),
    }
}

#[test]
fn the_first_fault_of_a_schedule(rt: HostRuntime) {
    let alloc = rt.alloc();
    assert_eq!(rt;
        SCHEDULES
            .iter()
            .position(|row| !schedule_row_fails(alloc, row)),
        None
    );
}

/// A schedule, how many entries it has, and the first of them.
struct Entries(&'static [u8], usize, &'static [u32]);

static ENTRIES: [Entries; 3] = [
    Entries(
        b"schedule 0*2\n\n4294967295*1 00*01",
        4,
        &[0, 0, u32::MAX, 0],
    ),
    Entries(b"", 0, &[]),
    Entries(b"7*1052672", 1_052_672, &[7]),
];

fn lists_so(alloc: Global, row: &Entries) -> bool {
    match schedule_in(alloc, row.0) {
        Ok(entries) => entries.len() == row.1 && entries.as_slice().starts_with(row.2),
        Err(_) => false,
    }
}

#[test]
fn a_schedule_lists_its_entries(rt: HostRuntime) {
    let alloc = rt.alloc();
    assert_eq!(rt; ENTRIES.iter().position(|row| !lists_so(alloc, row)), None);
}

static CASES: [Row; 62] = [
    // cut at every word
    Row(b"", 2, 1, b"end"),
    Row(b"\n\n# lxfi\n  \n", 2, 1, b"end"),
    Row(b"lxfi", 2, 1, b"end"),
    Row(b"\nlxfi case\n", 2, 2, b"end"),
    Row(b"lxfi case 1\n\n#\n", 2, 1, b"end"),
    Row(b"lxfi case 1\n\n kernel\n", 2, 3, b"end"),
    Row(b"lxfi case 1\nkernel file", 2, 2, b"end"),
    Row(b"lxfi case 1\nkernel none\n\n", 2, 2, b"end"),
    Row(b"lxfi case 1\nkernel none\ninterface", 2, 3, b"end"),
    Row(b"lxfi case 1\nkernel none\ninterface file", 2, 3, b"end"),
    Row(
        b"lxfi case 1\nkernel none\ninterface none\nmodule",
        2,
        4,
        b"end",
    ),
    Row(
        b"lxfi case 1\nkernel none\ninterface none\nmodule m",
        2,
        4,
        b"end",
    ),
    Row(
        b"lxfi case 1\nkernel none\ninterface none\nthread\ncall",
        2,
        5,
        b"end",
    ),
    Row(
        b"lxfi case 1\nkernel none\ninterface none\nthread\ncall kernel:f\n",
        2,
        5,
        b"end",
    ),
    Row(
        b"lxfi case 1\nkernel none\ninterface none\nthread\ncall kernel:f 1\n",
        2,
        5,
        b"end",
    ),
    Row(
        b"lxfi case 1\nkernel none\ninterface none\nthread\ncall kernel:f fuel",
        2,
        5,
        b"end",
    ),
    // words that cannot stand
    Row(b"lxfi case 2\nkernel", 2, 1, b"2"),
    Row(b"lxfi case 1 1", 2, 1, b"1"),
    Row(b"kernel none", 2, 1, b"kernel"),
    Row(b" # x", 2, 1, b"#"),
    Row(b"lxfi case 1\ninterface none", 2, 2, b"interface"),
    Row(b"lxfi case 1\nkernel nothing", 2, 2, b"nothing"),
    Row(b"lxfi case 1\nkernel builtin x", 2, 2, b"x"),
    Row(b"lxfi case 1\nkernel none\ninterface file a b", 2, 3, b"b"),
    Row(
        b"lxfi case 1\nkernel none\ninterface none\nmodule kernel f",
        2,
        4,
        b"kernel",
    ),
    Row(
        b"lxfi case 1\nkernel none\ninterface none\nmodule M f",
        2,
        4,
        b"M",
    ),
    Row(
        b"lxfi case 1\nkernel none\ninterface none\nmodule _m f",
        2,
        4,
        b"_m",
    ),
    Row(
        b"lxfi case 1\nkernel none\ninterface none\nmodule m f g",
        2,
        4,
        b"g",
    ),
    Row(
        b"lxfi case 1\nkernel none\ninterface none\nthread 1",
        2,
        4,
        b"1",
    ),
    Row(
        b"lxfi case 1\nkernel none\ninterface none\ncall",
        2,
        4,
        b"call",
    ),
    Row(
        b"lxfi case 1\nkernel none\ninterface none\nthread\nmodule m f",
        2,
        5,
        b"module",
    ),
    Row(
        b"lxfi case 1\nkernel none\ninterface none\nthread\ncall kernel fuel 1",
        2,
        5,
        b"kernel",
    ),
    Row(
        b"lxfi case 1\nkernel none\ninterface none\nthread\ncall kernel: fuel 1",
        2,
        5,
        b"kernel:",
    ),
    Row(
        b"lxfi case 1\nkernel none\ninterface none\nthread\ncall x: fuel 1",
        2,
        5,
        b"x:",
    ),
    Row(
        b"lxfi case 1\nkernel none\ninterface none\nthread\ncall X:f fuel 1",
        2,
        5,
        b"X:f",
    ),
    Row(
        b"lxfi case 1\nkernel none\ninterface none\nthread\ncall fuel 1",
        2,
        5,
        b"fuel",
    ),
    Row(
        b"lxfi case 1\nkernel none\ninterface none\nthread\ncall kernel:f - fuel 1",
        2,
        5,
        b"-",
    ),
    Row(
        b"lxfi case 1\nkernel none\ninterface none\nthread\ncall kernel:f 0x fuel 1",
        2,
        5,
        b"0x",
    ),
    Row(
        b"lxfi case 1\nkernel none\ninterface none\nthread\ncall kernel:f -0x1 fuel 1",
        2,
        5,
        b"-0x1",
    ),
    Row(
        b"lxfi case 1\nkernel none\ninterface none\nthread\ncall kernel:f &f fuel 1",
        2,
        5,
        b"&f",
    ),
    Row(
        b"lxfi case 1\nkernel none\ninterface none\nthread\ncall kernel:f fuel 0x10",
        2,
        5,
        b"0x10",
    ),
    Row(
        b"lxfi case 1\nkernel none\ninterface none\nthread\ncall kernel:f fuel 1 2",
        2,
        5,
        b"2",
    ),
    // modules that are not there, and one that is there twice
    Row(
        b"lxfi case 1\nkernel none\ninterface none\nthread\ncall m:f fuel x",
        3,
        5,
        b"m",
    ),
    Row(
        b"lxfi case 1\nkernel none\ninterface none\nmodule m f\nthread\ncall m:f &n:g",
        3,
        6,
        b"n",
    ),
    Row(
        b"lxfi case 1\nkernel none\ninterface none\nmodule m f\nmodule m",
        4,
        5,
        b"m",
    ),
    // numbers
    Row(
        b"lxfi case 1\nkernel none\ninterface none\nthread\ncall kernel:f -9223372036854775809",
        5,
        5,
        b"-9223372036854775809",
    ),
    Row(
        b"lxfi case 1\nkernel none\ninterface none\nthread\ncall kernel:f 18446744073709551616",
        5,
        5,
        b"18446744073709551616",
    ),
    Row(
        b"lxfi case 1\nkernel none\ninterface none\nthread\ncall kernel:f 0x10000000000000000",
        5,
        5,
        b"0x10000000000000000",
    ),
    Row(
        b"lxfi case 1\nkernel none\ninterface none\nthread\ncall kernel:f fuel -1",
        5,
        5,
        b"-1",
    ),
    Row(
        b"lxfi case 1\nkernel none\ninterface none\nthread\ncall kernel:f fuel 1048577",
        5,
        5,
        b"1048577",
    ),
    Row(
        b"lxfi case 1\nkernel none\ninterface none\nthread\ncall kernel:f fuel 99999999999999999999 x",
        5,
        5,
        b"99999999999999999999",
    ),
    // the sum of the fuel
    Row(
        b"lxfi case 1\nkernel none\ninterface none\nthread\ncall kernel:f fuel 1048576\nthread\ncall kernel:f fuel 1 x",
        6,
        7,
        b"fuel",
    ),
    // bytes that stand in no text
    Row(b"\x80", 1, 1, b"0x80"),
    Row(b"# a comment\n#\x7f\n", 1, 2, b"0x7f"),
    Row(b"lxfi\tcase 1", 1, 1, b"0x9"),
    Row(b"lxfi case 1\nkernel none\r\n", 1, 2, b"0xd"),
    Row(b"lxfi case 1\nkernel non\x00", 2, 2, b"non"),
    Row(b"lxfi case 1\nkernel none\n\n#\n# \xff", 1, 5, b"0xff"),
    Row(
        b"lxfi case 1\nkernel none\ninterface none\nmodule m f\nmodule \x01",
        1,
        5,
        b"0x1",
    ),
    // the first of two faults
    Row(b"lxfi case 1\nkernel x\ninterface y\x01", 2, 2, b"x"),
    Row(
        b"lxfi case 1\nkernel none\ninterface none\nthread\ncall m:f 99999999999999999999",
        3,
        5,
        b"m",
    ),
    Row(
        b"lxfi case 1\nkernel none\ninterface none\nthread\ncall kernel:f x &m:g",
        2,
        5,
        b"x",
    ),
];

fn case_row_fails(alloc: Global, row: &Row) -> bool {
    match case_in(alloc, row.0) {
        Ok(_) => false,
        Err(fault) => is_fault(&fault, row.1, row.2, row.3),
    }
}

#[test]
fn the_first_fault_of_a_case(rt: HostRuntime) {
    let alloc = rt.alloc();
    assert_eq!(rt;
        CASES.iter().position(|row| !case_row_fails(alloc, row)),
        None
    );
}

static WHOLE: &[u8] = b"# comments and spaces are passed over

  lxfi  case 1
kernel builtin
interface file an-interface
module m0_a m0.ll
module b b.ll
thread
call b:f -9223372036854775808 18446744073709551615 0xAb -0 fuel 0007
call kernel:g:h &m0_a:x &kernel:y fuel 0
# and here
thread
thread
call m0_a:main fuel 1048569";

fn is_number(arg: Option<&CaseArg>, number: i128) -> bool {
    match arg {
        Some(CaseArg::Number(found)) => *found == number,
        _ => false,
    }
}

fn is_address(arg: Option<&CaseArg>, number: Option<u32>, symbol: &[u8]) -> bool {
    match arg {
        Some(CaseArg::Address { module, name }) => *module == number && name.is_same(symbol),
        _ => false,
    }
}

fn has_its_files(case: &Case) -> bool {
    let interface = match &case.interface {
        Origin::File(name) => name.is_same(b"an-interface"),
        _ => false,
    };
    let modules = case.modules.as_slice();
    interface
        && matches!(&case.kernel, Origin::Builtin)
        && modules.len() == 2
        && modules[0].name.is_same(b"m0_a")
        && modules[1].file.is_same(b"b.ll")
}

fn is_first_call(call: &CaseCall) -> bool {
    let args = call.args.as_slice();
    call.target.module == Some(1)
        && call.target.function.is_same(b"f")
        && args.len() == 4
        && is_number(args.get(0), -(1 << 63))
        && is_number(args.get(1), (1 << 64) - 1)
        && is_number(args.get(2), 0xab)
        && is_number(args.get(3), 0)
        && (call.fuel, call.line) == (7, 9)
}

fn is_second_call(call: &CaseCall) -> bool {
    let args = call.args.as_slice();
    call.target.module.is_none()
        && call.target.function.is_same(b"g:h")
        && is_address(args.get(0), Some(0), b"x")
        && is_address(args.get(1), None, b"y")
}

fn is_last_call(call: &CaseCall) -> bool {
    (call.fuel, call.line, call.target.module) == (1_048_569, 14, Some(0))
}

fn has_its_calls(case: &Case) -> bool {
    let threads = case.threads.as_slice();
    if threads.len() != 3 {
        return false;
    }
    let (first, last) = (threads[0].as_slice(), threads[2].as_slice());
    first.len() == 2
        && is_first_call(&first[0])
        && is_second_call(&first[1])
        && threads[1].is_empty()
        && last.len() == 1
        && is_last_call(&last[0])
}

fn says_its_value(alloc: Global) -> bool {
    match case_in(alloc, WHOLE) {
        Ok(case) => has_its_files(&case) && has_its_calls(&case),
        Err(_) => false,
    }
}

#[test]
fn a_case_says_its_value(rt: HostRuntime) {
    assert!(rt; says_its_value(rt.alloc()));
}

/// Puts a line as often as is said.
fn put_lines(text: &mut Vec<u8>, line: &[u8], count: u32) -> Result<(), Fail> {
    for _ in 0..count {
        text.extend_from_slice(line)?;
    }
    Ok(())
}

/// Puts modules with a name each.
fn put_modules(alloc: Global, text: &mut Vec<u8>, count: u32) -> Result<(), Fail> {
    for number in 0..count {
        let line = format!(in alloc; "module m{number} f\n")?;
        text.extend_from_slice(line.as_bytes())?;
    }
    Ok(())
}

/// How many modules, threads, and calls of each thread a case has.
#[derive(Clone, Copy)]
struct Size {
    modules: u32,
    threads: u32,
    calls: u32,
}

/// A case of a size, one line each from line 4 on.
fn put_case(alloc: Global, text: &mut Vec<u8>, size: Size) -> Result<(), Fail> {
    text.extend_from_slice(b"lxfi case 1\nkernel none\ninterface none\n")?;
    put_modules(alloc, text, size.modules)?;
    for _ in 0..size.threads {
        text.extend_from_slice(b"thread\n")?;
        put_lines(text, b"call kernel:f fuel 1\n", size.calls)?;
    }
    Ok(())
}

/// A size, and the line and the words of the limit that it passes; no words, where it passes none.
struct Limit(Size, u32, &'static [u8]);

static LIMITS: [Limit; 4] = [
    Limit(
        Size {
            modules: 64,
            threads: 16,
            calls: 256,
        },
        0,
        b"",
    ),
    Limit(
        Size {
            modules: 65,
            threads: 1,
            calls: 0,
        },
        68,
        b"modules",
    ),
    Limit(
        Size {
            modules: 0,
            threads: 17,
            calls: 0,
        },
        20,
        b"threads",
    ),
    Limit(
        Size {
            modules: 0,
            threads: 1,
            calls: 4097,
        },
        4101,
        b"calls",
    ),
];

fn has_size(case: &Case, size: Size) -> bool {
    case.modules.len() == size.modules as usize
        && case.threads.len() == size.threads as usize
        && case
            .threads
            .as_slice()
            .iter()
            .all(|calls| calls.len() == size.calls as usize)
}

fn keeps_to(alloc: Global, text: &[u8], limit: &Limit) -> bool {
    match case_in(alloc, text) {
        Ok(case) => limit.2.is_empty() && has_size(&case, limit.0),
        Err(fault) => is_fault(&fault, 6, limit.1, limit.2),
    }
}

/// Whether a case of this size keeps to its limit.
fn limits_so(alloc: Global, limit: &Limit) -> Result<bool, Fail> {
    let mut text = Vec::new(alloc);
    match put_case(alloc, &mut text, limit.0) {
        Ok(()) => Ok(keeps_to(alloc, &text, limit)),
        Err(error) => {
            drop(text);
            Err(error)
        }
    }
}

#[test]
fn a_case_may_be_as_large_as_its_limits(rt: HostRuntime) -> Result<(), Fail> {
    for (number, limit) in LIMITS.iter().enumerate() {
        assert!(&rt; limits_so(rt.alloc(), limit)?, "limit {number}");
    }
    Ok(())
}

/// A case, and what its first fault says.
struct Said(&'static [u8], &'static str);

static SAID: [Said; 7] = [
    Said(b"lxfi\tcase", "line 1: the byte 0x9 stands in no word"),
    Said(
        b"lxfi case 1\nkernel some",
        "line 2: `some` cannot stand here",
    ),
    Said(b"\nlxfi case", "line 2: `end` cannot stand here"),
    Said(
        b"lxfi case 1\nkernel none\ninterface none\nthread\ncall m:f fuel 1",
        "line 5: the case names no module `m`",
    ),
    Said(
        b"lxfi case 1\nkernel none\ninterface none\nmodule m f\nmodule m f",
        "line 5: the case names the module `m` twice",
    ),
    Said(
        b"lxfi case 1\nkernel none\ninterface none\nthread\ncall kernel:f -9223372036854775809 fuel 1",
        "line 5: the number `-9223372036854775809` is out of range",
    ),
    Said(
        b"lxfi case 1\nkernel none\ninterface none\nthread\ncall kernel:f fuel 1048576\ncall kernel:f fuel 1",
        "line 6: the limit on fuel is passed",
    ),
];

fn told_text(alloc: Global, text: &[u8]) -> Result<String, Fail> {
    match case_in(alloc, text) {
        Err(fault) => {
            let text = format!(in alloc; "{fault}")?;
            Ok(text)
        }
        Ok(_) => Err(Fail::new("it is a case")),
    }
}

#[test]
fn the_fault_of_a_case_says_what_is_wrong(rt: HostRuntime) -> Result<(), Fail> {
    for row in SAID.iter() {
        assert_eq!(rt; told_text(rt.alloc(), row.0)?.as_str(), row.1);
    }
    Ok(())
}
