//! Cases whose texts or reports have thousands of lines.

use std::fmt::Write;
use std::test::Fail;

/// A part of a text: lines that are written for each number from the first up to the second, which is left out. In them
/// `#` stands for the number, and `$` for the same in hexadecimal.
pub type Part = (&'static str, u32, u32);

/// The case of a call that copies so many references, each in seven units and three events, up to what the module owns of them.
macro_rules! references {
    ($why:literal, $count:literal, $fuel:literal, $events:literal) => {
        (concat!("---- ", $why, "
---- case
lxfi case 1
kernel file many.ll
interface file many.txt
module m files.ll
thread
call m:main ", $count, " fuel ", $fuel, "
---- whole
status 0
schedule 0*", $events, "
call 0.0 m:main returned
image m guards 0 checks 0 wrappers 1
owns m.shared call 0x10060
owns m.shared call 0x10090
"), 0, 1)
    };
}

/// Calls through a slot, each of eight events; references that are copied, each in three events; a module that may call more
/// functions than 12 bits count; and a function of more blocks than 16 bits count.
static LONG: [Part; 20] = [
    (
        "---- 2,000 slot calls
---- case
lxfi case 1
kernel builtin
interface builtin
module m probe.ll
thread
call m:init fuel 100
",
        0,
        1,
    ),
    ("call kernel:do_probe 0 fuel 100\n", 0, 2000),
    (
        "---- whole
status 0
schedule 0*16011
call 0.0 m:init returned
",
        0,
        1,
    ),
    ("call 0.# kernel:do_probe returned 0\n", 1, 2001),
    (
        "image m guards 0 checks 0 wrappers 2
owns m.shared write 0x10000e0+16
owns m.shared call 0x10090
owns m.shared call 0x10130
owns m.shared call 0x10140
owns m[0x1000020] ref device 0x1000020
",
        0,
        1,
    ),
    references!("1,000 copied references", 1000, 7003, 3003),
    ("owns m.shared ref file 0x$\n", 0, 1000),
    references!("5,000 references of one type", 5000, 35003, 15003),
    ("owns m.shared ref file 0x$\n", 0, 5000),
    (
        "---- 4,097 functions that one module may call
---- file thousands.txt
interface 1
",
        0,
        1,
    ),
    ("export f# : void ()\n", 0, 4097),
    ("---- file thousands.ll\n", 0, 1),
    ("define void @f#() {\nret void\n}\n", 0, 4097),
    ("---- file caller.ll\n", 0, 1),
    ("declare void @f#()\n", 0, 4097),
    (
        "define void @main() {
call void @f4096()
ret void
}
---- case
lxfi case 1
kernel file thousands.ll
interface file thousands.txt
module m caller.ll
thread
call m:main fuel 10
---- whole
status 0
schedule 0*5
call 0.0 m:main returned
image m guards 0 checks 0 wrappers 4097
",
        0,
        1,
    ),
    ("owns m.shared call 0x$0\n", 4102, 8200),
    (
        "---- 65,537 blocks
---- file blocks.ll
define void @main() {
",
        0,
        1,
    ),
    ("#:\nret void\n", 0, 65537),
    (
        "}
---- case
lxfi case 1
kernel none
interface none
module m blocks.ll
thread
call m:main fuel 10
---- whole
status 0
schedule 0*3
call 0.0 m:main returned
image m guards 0 checks 0 wrappers 0
owns m.shared call 0x10060
",
        0,
        1,
    ),
];

/// As many calls as a case may have, in which four threads take turns: 14 events with kmalloc and kfree, 8 with dev_wipe, 8
/// through a slot, and 2 up to a store that is refused.
static ALL_CALLS: [Part; 19] = [
    (
        "---- 4,096 calls of four kinds
---- case
lxfi case 1
kernel builtin
interface builtin
module m mixed.ll
thread
",
        0,
        1,
    ),
    ("call m:work # fuel 100\n", 0, 1024),
    ("thread\n", 0, 1),
    ("call m:wipe fuel 100\n", 0, 1024),
    ("thread\ncall m:init fuel 100\n", 0, 1),
    ("call kernel:do_probe 0 fuel 100\n", 1, 1024),
    ("thread\n", 0, 1),
    ("call m:stray # fuel 100\n", 0, 1024),
    ("---- schedule\n0*14 1*8 2*11 3*2", 0, 1),
    (" 0*14 1*8 2*8 3*2", 1, 1024),
    ("---- whole\nstatus 1\nschedule 0*14 1*8 2*11 3*2", 0, 1),
    (" 0*14 1*8 2*8 3*2", 1, 1024),
    ("\n", 0, 1),
    ("call 0.# m:work returned #\n", 0, 1024),
    ("call 1.# m:wipe returned\n", 0, 1024),
    ("call 2.0 m:init returned\n", 0, 1),
    ("call 2.# kernel:do_probe returned 0\n", 1, 1024),
    (
        "call 3.# m:stray refused 1 m.shared write 0x1000000+8\n",
        0,
        1024,
    ),
    (
        "image m guards 2 checks 0 wrappers 5
owns m.shared write 0x10000e0+32
owns m.shared call 0x10060
owns m.shared call 0x10080
owns m.shared call 0x10090
owns m.shared call 0x100c0
owns m.shared call 0x10130
owns m.shared call 0x10140
owns m.shared call 0x10150
owns m.shared call 0x10160
owns m.shared call 0x10170
owns m[0x1000020] ref device 0x1000020
",
        0,
        1,
    ),
];

/// Writes the lines of a part for a number.
fn put_lines(text: &mut String, lines: &str, number: u32) -> Result<(), Fail> {
    for letter in lines.chars() {
        match letter {
            '#' => write!(text, "{number}")?,
            '$' => write!(text, "{number:x}")?,
            _ => text.push(letter)?,
        }
    }
    Ok(())
}

fn put_part(text: &mut String, part: &Part) -> Result<(), Fail> {
    let (lines, first, end) = *part;
    for number in first..end {
        put_lines(text, lines, number)?;
    }
    Ok(())
}

/// Writes parts, one behind another.
pub fn put_parts(text: &mut String, parts: &[Part]) -> Result<(), Fail> {
    for part in parts {
        put_part(text, part)?;
    }
    Ok(())
}

pub fn put_long_reports(text: &mut String) -> Result<(), Fail> {
    put_parts(text, &LONG)
}

pub fn put_all_calls(text: &mut String) -> Result<(), Fail> {
    put_parts(text, &ALL_CALLS)
}
