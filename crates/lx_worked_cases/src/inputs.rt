//! Inputs with faults that the checks find, and some without.

use crate::shelves::Files;
use crate::wanted::{Row, Wanted, assert_rows};
use std::test::Fail;

const UNASSIGNED: &str = "define i32 @f() {\nret i32 %x\n}\n";

const BOTH: &str =
    "%struct.dev_ops = type { ptr, ptr }\n@ops = global %struct.dev_ops { ptr @h, ptr @h }\ndefine i32 @h(ptr %d) {\nret i32 0\n}\n";

const IMPORT: &str = "declare i32 @do_probe(i64)\n";

/// One function in two fields.
const TWICE: &str =
    "%struct.dev_ops = type { ptr, ptr }\n@ops = global %struct.dev_ops { ptr @h, ptr @h }\ndefine i32 @h() {\nret i32 0\n}\n";

/// One function that is stored to the second field, by a register.
const STORED: &str =
    "%struct.dev_ops = type { ptr, ptr }\n@ops = global %struct.dev_ops zeroinitializer\ndefine i32 @h() {\n%r = getelementptr %struct.dev_ops, ptr @ops, i32 0, i32 1\nstore ptr @h, ptr %r\nret i32 0\n}\n";

/// Two fields with two slot types, whose functions run as different principals.
const APART: &str =
    "interface 1\nslot probe : i32 () principal(shared)\nslot xmit : i32 () principal(global)\nfield %struct.dev_ops 0 : probe\nfield %struct.dev_ops 1 : xmit\n";

/// Two fields with two slot types that agree.
const ALIKE: &str =
    "interface 1\nslot probe : i32 () principal(shared)\nslot xmit : i32 () principal(shared)\nfield %struct.dev_ops 0 : probe\nfield %struct.dev_ops 1 : xmit\n";

/// The same, of names that are longer than 8 bits count.
const LONG_NAMES: &str =
    "interface 1\nslot aaaaaaaaaaaaaaaaaaaaaaaaaaaaaaaaaaaaaaaaaaaaaaaaaaaaaaaaaaaaaaaaaaaaaaaaaaaaaaaaaaaaaaaaaaaaaaaaaaaaaaaaaaaaaaaaaaaaaaaaaaaaaaaaaaaaaaaaaaaaaaaaaaaaaaaaaaaaaaaaaaaaaaaaaaaaaaaaaaaaaaaaaaaaaaaaaaaaaaaaaaaaaaaaaaaaaaaaaaaaaaaaaaaaaaaaaaaaaaaaaaaaaaaaaaaaaaaaaaaaaaaaaaaaaaaaaaaaaaaaaaaaaaaaaaaaaaaaaaaa : i32 () principal(shared)\nslot bbbbbbbbbbbbbbbbbbbbbbbbbbbbbbbbbbbbbbbbbbbbbbbbbbbbbbbbbbbbbbbbbbbbbbbbbbbbbbbbbbbbbbbbbbbbbbbbbbbbbbbbbbbbbbbbbbbbbbbbbbbbbbbbbbbbbbbbbbbbbbbbbbbbbbbbbbbbbbbbbbbbbbbbbbbbbbbbbbbbbbbbbbbbbbbbbbbbbbbbbbbbbbbbbbbbbbbbbbbbbbbbbbbbbbbbbbbbbbbbbbbbbbbbbbbbbbbbbbbbbbbbbbbbbbbbbbbbbbbbbbbbbbbbbbbbbbbbbbbb : i32 () principal(global)\nfield %struct.dev_ops 0 : aaaaaaaaaaaaaaaaaaaaaaaaaaaaaaaaaaaaaaaaaaaaaaaaaaaaaaaaaaaaaaaaaaaaaaaaaaaaaaaaaaaaaaaaaaaaaaaaaaaaaaaaaaaaaaaaaaaaaaaaaaaaaaaaaaaaaaaaaaaaaaaaaaaaaaaaaaaaaaaaaaaaaaaaaaaaaaaaaaaaaaaaaaaaaaaaaaaaaaaaaaaaaaaaaaaaaaaaaaaaaaaaaaaaaaaaaaaaaaaaaaaaaaaaaaaaaaaaaaaaaaaaaaaaaaaaaaaaaaaaaaaaaaaaaaaaaaaaaaaa\nfield %struct.dev_ops 1 : bbbbbbbbbbbbbbbbbbbbbbbbbbbbbbbbbbbbbbbbbbbbbbbbbbbbbbbbbbbbbbbbbbbbbbbbbbbbbbbbbbbbbbbbbbbbbbbbbbbbbbbbbbbbbbbbbbbbbbbbbbbbbbbbbbbbbbbbbbbbbbbbbbbbbbbbbbbbbbbbbbbbbbbbbbbbbbbbbbbbbbbbbbbbbbbbbbbbbbbbbbbbbbbbbbbbbbbbbbbbbbbbbbbbbbbbbbbbbbbbbbbbbbbbbbbbbbbbbbbbbbbbbbbbbbbbbbbbbbbbbbbbbbbbbbbbbbbbbbbb\n";

const OWN_INTERFACE: &str = "lxfi case 1\nkernel none\ninterface file i.txt\nmodule m m.ll\n";

const OWN_KERNEL: &str = "lxfi case 1\nkernel file k.ll\ninterface none\n";

const NOTHING: &str = "lxfi case 1\nkernel none\ninterface none\n";

const PROBE: &str =
    "%struct.dev_ops = type { ptr, ptr }\n@ops = global %struct.dev_ops { ptr @probe, ptr null }\ndefine i32 @probe(ptr %d) {\nret i32 0\n}\n";

const OWN_MODULE: &str = "lxfi case 1\nkernel none\ninterface none\nmodule m m.ll\n";

const TWO_MODULES: &str =
    "lxfi case 1\nkernel none\ninterface none\nmodule a a.ll\nmodule b b.ll\n";

/// As many bytes of globals as their region has.
const ALL_BYTES: &str = "@g = global [1048576 x i8] zeroinitializer\n";

const ONE_BYTE_MORE: &str = "@g = global [1048577 x i8] zeroinitializer\n";

const ONE_BYTE: &str = "@g = global i8 0\n";

const UNSHARED: &str = "define void @f() {\nret void\n}\n";

static ROWS: [Row; 17] = [
    Row(
        Files::These(&[
            (
                "one.case",
                "lxfi case 1\nkernel none\ninterface none\nmodule m un.ll\n",
            ),
            ("un.ll", UNASSIGNED),
        ]),
        Wanted::Linked("un.ll:2: verify 3 %x\n"),
    ),
    Row(
        Files::These(&[
            (
                "one.case",
                "lxfi case 1\nkernel builtin\ninterface builtin\nmodule m both.ll\n",
            ),
            ("both.ll", BOTH),
        ]),
        Wanted::Linked("both.ll:3: propagate 1 @h probe xmit\n"),
    ),
    Row(
        Files::These(&[
            (
                "one.case",
                "lxfi case 1\nkernel builtin\ninterface builtin\nmodule m imp.ll\n",
            ),
            ("imp.ll", IMPORT),
        ]),
        Wanted::Linked("imp.ll:1: link 2 @do_probe\n"),
    ),
    // Slot types that differ by their principals alone.
    Row(
        Files::These(&[
            ("one.case", OWN_INTERFACE),
            ("i.txt", APART),
            ("m.ll", TWICE),
        ]),
        Wanted::Linked("m.ll:3: propagate 1 @h probe xmit\n"),
    ),
    Row(
        Files::These(&[
            ("one.case", OWN_INTERFACE),
            ("i.txt", LONG_NAMES),
            ("m.ll", TWICE),
        ]),
        Wanted::Linked(
            "m.ll:3: propagate 1 @h aaaaaaaaaaaaaaaaaaaaaaaaaaaaaaaaaaaaaaaaaaaaaaaaaaaaaaaaaaaaaaaaaaaaaaaaaaaaaaaaaaaaaaaaaaaaaaaaaaaaaaaaaaaaaaaaaaaaaaaaaaaaaaaaaaaaaaaaaaaaaaaaaaaaaaaaaaaaaaaaaaaaaaaaaaaaaaaaaaaaaaaaaaaaaaaaaaaaaaaaaaaaaaaaaaaaaaaaaaaaaaaaaaaaaaaaaaaaaaaaaaaaaaaaaaaaaaaaaaaaaaaaaaaaaaaaaaaaaaaaaaaaaaaaaaaaaaaaaaaa bbbbbbbbbbbbbbbbbbbbbbbbbbbbbbbbbbbbbbbbbbbbbbbbbbbbbbbbbbbbbbbbbbbbbbbbbbbbbbbbbbbbbbbbbbbbbbbbbbbbbbbbbbbbbbbbbbbbbbbbbbbbbbbbbbbbbbbbbbbbbbbbbbbbbbbbbbbbbbbbbbbbbbbbbbbbbbbbbbbbbbbbbbbbbbbbbbbbbbbbbbbbbbbbbbbbbbbbbbbbbbbbbbbbbbbbbbbbbbbbbbbbbbbbbbbbbbbbbbbbbbbbbbbbbbbbbbbbbbbbbbbbbbbbbbbbbbbbbbbb\n",
        ),
    ),
    // What the kernel declares is a native, with its parameters.
    Row(
        Files::These(&[
            ("one.case", OWN_KERNEL),
            ("k.ll", "declare void @k.panic()\n"),
        ]),
        Wanted::Linked("k.ll:1: link 1 @k.panic\n"),
    ),
    Row(
        Files::These(&[
            ("one.case", OWN_KERNEL),
            ("k.ll", "declare void @k.note()\n"),
        ]),
        Wanted::Linked("k.ll:1: link 3 @k.note\n"),
    ),
    // The kernel is verified first.
    Row(
        Files::These(&[
            (
                "one.case",
                "lxfi case 1\nkernel file k.ll\ninterface none\nmodule m un.ll\n",
            ),
            ("k.ll", UNASSIGNED),
            ("un.ll", UNASSIGNED),
        ]),
        Wanted::Linked("k.ll:2: verify 3 %x\n"),
    ),
    // All modules are verified before slot types are handed on.
    Row(
        Files::These(&[
            (
                "one.case",
                "lxfi case 1\nkernel builtin\ninterface builtin\nmodule a both.ll\nmodule b un.ll\n",
            ),
            ("both.ll", BOTH),
            ("un.ll", UNASSIGNED),
        ]),
        Wanted::Linked("un.ll:2: verify 3 %x\n"),
    ),
    // And linking comes last.
    Row(
        Files::These(&[
            (
                "one.case",
                "lxfi case 1\nkernel builtin\ninterface builtin\nmodule a imp.ll\nmodule b both.ll\n",
            ),
            ("imp.ll", IMPORT),
            ("both.ll", BOTH),
        ]),
        Wanted::Linked("both.ll:3: propagate 1 @h probe xmit\n"),
    ),
    Row(
        Files::These(&[(
            "one.case",
            "lxfi case 1\nkernel none\ninterface none\nthread\ncall kernel:f fuel 1\n",
        )]),
        Wanted::Linked("one.case:5: link 1 @f\n"),
    ),
    // Globals have a region of 1 MiB.
    Row(
        Files::These(&[("one.case", OWN_MODULE), ("m.ll", ALL_BYTES)]),
        Wanted::Linked(""),
    ),
    Row(
        Files::These(&[("one.case", OWN_MODULE), ("m.ll", ONE_BYTE_MORE)]),
        Wanted::Linked("m.ll:1: link 4 globals\n"),
    ),
    Row(
        Files::These(&[("one.case", OWN_KERNEL), ("k.ll", ONE_BYTE_MORE)]),
        Wanted::Linked("k.ll:1: link 4 globals\n"),
    ),
    // The last module is named, also where an earlier one takes all bytes.
    Row(
        Files::These(&[
            ("one.case", TWO_MODULES),
            ("a.ll", ALL_BYTES),
            ("b.ll", ONE_BYTE),
        ]),
        Wanted::Linked("b.ll:1: link 4 globals\n"),
    ),
    Row(
        Files::These(&[
            ("one.case", TWO_MODULES),
            ("a.ll", ONE_BYTE_MORE),
            ("b.ll", UNSHARED),
        ]),
        Wanted::Linked("b.ll:1: link 4 globals\n"),
    ),
    Row(
        Files::These(&[(
            "one.case",
            "lxfi case 1\nkernel builtin\ninterface builtin\n",
        )]),
        Wanted::Linked(""),
    ),
];

#[test]
fn each_check_tells_its_fault(rt: HostRuntime) -> Result<(), Fail> {
    assert_rows(&rt, rt.alloc(), &ROWS)
}

/// A function that is named by its number.
const FUNCTION: &str = "define void@#(){ret void}";

/// A program has numbers for 65,536 functions. Six of them are natives, so ten modules of one text have 6,553 each.
const TEN_MODULES: &str =
    "lxfi case 1\nkernel none\ninterface none\nmodule a m.ll\nmodule b m.ll\nmodule c m.ll\nmodule d m.ll\nmodule e m.ll\nmodule f m.ll\nmodule g m.ll\nmodule h m.ll\nmodule i m.ll\nmodule j m.ll\n";

/// The same, and a module with a function more.
const ONE_MORE: &str =
    "lxfi case 1\nkernel none\ninterface none\nmodule a m.ll\nmodule b m.ll\nmodule c m.ll\nmodule d m.ll\nmodule e m.ll\nmodule f m.ll\nmodule g m.ll\nmodule h m.ll\nmodule i m.ll\nmodule j m.ll\nmodule k one.ll\n";

static COUNTED: [Row; 2] = [
    Row(
        Files::Parts(
            &[("one.case", TEN_MODULES), ("one.ll", UNSHARED)],
            &[(FUNCTION, 0, 6_553)],
        ),
        Wanted::Linked(""),
    ),
    Row(
        Files::Parts(
            &[("one.case", ONE_MORE), ("one.ll", UNSHARED)],
            &[(FUNCTION, 0, 6_553)],
        ),
        Wanted::Linked("one.ll:1: link 4 functions\n"),
    ),
];

#[test]
fn a_program_has_numbers_for_65536_functions(rt: HostRuntime) -> Result<(), Fail> {
    assert_rows(&rt, rt.alloc(), &COUNTED)
}

static PLACED: [Row; 2] = [
    Row(
        Files::Parts(
            &[("one.case", ONE_MORE), ("one.ll", UNSHARED)],
            &[(ALL_BYTES, 0, 1), (FUNCTION, 0, 6_553)],
        ),
        Wanted::Linked("one.ll:1: link 4 functions\n"),
    ),
    Row(
        Files::Parts(
            &[("one.case", TEN_MODULES), ("one.ll", UNSHARED)],
            &[(ALL_BYTES, 0, 1), (FUNCTION, 0, 1)],
        ),
        Wanted::Linked("m.ll:1: link 4 globals\n"),
    ),
];

#[test]
fn functions_are_counted_before_globals_are_placed(rt: HostRuntime) -> Result<(), Fail> {
    assert_rows(&rt, rt.alloc(), &PLACED)
}

const WHOLE: &str =
    "lxfi case 1\nkernel builtin\ninterface builtin\nmodule m probe.ll\nthread\ncall m:probe 0 fuel 9\n";

static LINKED: [Row; 4] = [
    Row(
        Files::These(&[("one.case", WHOLE), ("probe.ll", PROBE), ("two.txt", "0*2")]),
        Wanted::Whole,
    ),
    // Without texts there are the natives.
    Row(Files::These(&[("one.case", NOTHING)]), Wanted::Natives),
    // A function has the slot type of its field: of slot types that agree the first.
    Row(
        Files::These(&[
            ("one.case", OWN_INTERFACE),
            ("i.txt", ALIKE),
            ("m.ll", TWICE),
        ]),
        Wanted::Slot(0),
    ),
    Row(
        Files::These(&[
            ("one.case", OWN_INTERFACE),
            ("i.txt", APART),
            ("m.ll", STORED),
        ]),
        Wanted::Slot(1),
    ),
];

#[test]
fn a_whole_input_is_linked(rt: HostRuntime) -> Result<(), Fail> {
    assert_rows(&rt, rt.alloc(), &LINKED)
}
