//! Hostile shelves, with what each comes to.

use crate::shelves::Files;
use crate::wanted::{Row, Wanted, assert_rows};
use std::test::Fail;

const NONE: &str = "lxfi case 1\nkernel none\ninterface none\n";

const TWO: &str =
    "lxfi case 1\nkernel file k.ll\ninterface file i.txt\nmodule a a.ll\nmodule b b.ll\n";

const BUILT_IN: &str = "lxfi case 1\nkernel builtin\ninterface builtin\nthread\n";

const WRITES: &str = "interface 1\nexport f : void (ptr p) pre(copy(write, p))\n";

const CUT: &str = "define i32 @f(i32 %0) {\nswitch i32 %0, label %3 [\ni32 1, label %2\n";

const ONE_MODULE: &str = "lxfi case 1\nkernel none\ninterface none\nmodule m m.ll\n";

static ROWS: [Row; 17] = [
    Row(Files::These(&[]), Wanted::Scheduled("cannot read one.case")),
    Row(
        Files::These(&[("one.case", "lxfi case 2\n")]),
        Wanted::Scheduled("one.case:1: case 2 2\n"),
    ),
    Row(
        Files::These(&[("one.case", TWO)]),
        Wanted::Scheduled("cannot read k.ll"),
    ),
    Row(
        Files::These(&[("one.case", TWO), ("k.ll", "@g = global i33 0\n")]),
        Wanted::Scheduled("k.ll:1: ir 3 i33\n"),
    ),
    Row(
        Files::These(&[("one.case", TWO), ("k.ll", "")]),
        Wanted::Scheduled("cannot read i.txt"),
    ),
    Row(
        Files::These(&[("one.case", TWO), ("k.ll", ""), ("i.txt", WRITES)]),
        Wanted::Scheduled("i.txt:2: interface 5 write\n"),
    ),
    Row(
        Files::These(&[("one.case", TWO), ("k.ll", ""), ("i.txt", "interface 1")]),
        Wanted::Scheduled("cannot read a.ll"),
    ),
    Row(
        Files::These(&[
            ("one.case", TWO),
            ("k.ll", ""),
            ("i.txt", "interface 1"),
            ("b.ll", CUT),
        ]),
        Wanted::Scheduled("cannot read a.ll"),
    ),
    Row(
        Files::These(&[
            ("one.case", TWO),
            ("k.ll", ""),
            ("i.txt", "interface 1"),
            ("a.ll", CUT),
        ]),
        Wanted::Scheduled("a.ll:3: ir 2 end\n"),
    ),
    Row(
        Files::These(&[
            ("one.case", TWO),
            ("k.ll", ""),
            ("i.txt", "interface 1"),
            ("a.ll", ""),
        ]),
        Wanted::Scheduled("cannot read b.ll"),
    ),
    Row(
        Files::These(&[("one.case", NONE), ("two.txt", "0*0")]),
        Wanted::Scheduled("two.txt:1: schedule 5 0\n"),
    ),
    Row(
        Files::These(&[("one.case", NONE)]),
        Wanted::Scheduled("cannot read two.txt"),
    ),
    Row(Files::These(&[("one.case", NONE)]), Wanted::Read("")),
    Row(
        Files::These(&[("one.case", NONE), ("two.txt", "schedule 0*2")]),
        Wanted::Scheduled(""),
    ),
    Row(Files::These(&[("one.case", BUILT_IN)]), Wanted::Read("")),
    // A long file is not read.
    Row(
        Files::Parts(&[("one.case", ONE_MODULE)], &[(" ", 0, 1_048_577)]),
        Wanted::Read("m.ll:1: limit 1 file\n"),
    ),
    Row(
        Files::Parts(&[("one.case", ONE_MODULE)], &[(" ", 0, 1_048_576)]),
        Wanted::Read(""),
    ),
];

#[test]
fn each_turn_ends_where_it_should(rt: HostRuntime) -> Result<(), Fail> {
    assert_rows(&rt, rt.alloc(), &ROWS)
}
