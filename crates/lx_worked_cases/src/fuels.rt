//! A call through a slot whose callee calls the kernel, at every fuel up to the first at which it returns, and behind it.
//!
//! `kernel:do_probe 0` over `span.ll` crosses two wrappers. Its units are, in order: the start (1), an address (2), the load
//! of the table (3), the call through the slot (4), the copy of the reference (5); in the module an address (6) and the call
//! of `dev_wipe` (7), the transfer of eight bytes to the kernel (8), `k.zero` (9), its `ret` (10), the transfer back (11), an
//! address (12), the store (13), `ret` (14); the action behind the probe (15), and the kernel's `ret` (16). Where the fuel
//! ends before a unit, the end of the call takes its place, and what came before it stays.
//!
//! The units are events, but for the three computations of addresses; so is the end of the call, at every fuel. Before them stand
//! the 11 events of `m:init`: its entry and `dev_register`'s, `k.try_lock`, a load, four stores, two `ret`, and its end.
//!
//! The last eight of the shared principal's 32 bytes go at unit 8, for good. The instance owns the reference from unit 5 on, and
//! from unit 11 on the bytes that `dev_wipe` gave back. The same call with ample fuel begins anew; it is refused only where the
//! bytes stayed with the kernel, in its transfer, which is its sixth event.

use crate::forms::put_rows;
use std::test::Fail;

/// The case of a call at a fuel, with the same call behind it where there is a second reply, and its report.
fn form() -> &'static str {
    "---- fuel <0>
---- case
lxfi case 1
kernel builtin
interface builtin
module m span.ll
thread
call m:init fuel 100
call kernel:do_probe 0 fuel <0>
<7?call kernel:do_probe 0 fuel 100
>---- whole
status <1>
schedule 0*<2>
call 0.0 m:init returned
call 0.1 kernel:do_probe <3>
<7?call 0.2 kernel:do_probe ><7><7?
>image m guards 1 checks 0 wrappers 3
owns m.shared write 0x10000e0+<4>
owns m.shared call 0x10090
owns m.shared call 0x100c0
owns m.shared call 0x10130
owns m.shared call 0x10140
<6?owns m[0x1000020] write 0x10000f8+8
><5?owns m[0x1000020] ref device 0x1000020
>"
}

/// Each fuel up to the first at which the call returns, and three with which something is left over; the status, the number of
/// events and the reply; how many bytes the shared principal owns; whether the instance owns the reference, and the bytes; and the
/// reply of the call behind it, if there is one.
fn rows() -> &'static str {
    "0|1|12|budget|32
0|1|26|budget|24|ref|bytes|returned 0
1|1|13|budget|32
1|1|27|budget|24|ref|bytes|returned 0
2|1|13|budget|32
2|1|27|budget|24|ref|bytes|returned 0
3|1|14|budget|32
3|1|28|budget|24|ref|bytes|returned 0
4|1|15|budget|32
4|1|29|budget|24|ref|bytes|returned 0
5|1|16|budget|32|ref
5|1|30|budget|24|ref|bytes|returned 0
6|1|16|budget|32|ref
6|1|30|budget|24|ref|bytes|returned 0
7|1|17|budget|32|ref
7|1|31|budget|24|ref|bytes|returned 0
8|1|18|budget|24|ref
8|1|24|budget|24|ref||refused 1 m[0x1000020] write 0x10000f8+8
9|1|19|budget|24|ref
9|1|25|budget|24|ref||refused 1 m[0x1000020] write 0x10000f8+8
10|1|20|budget|24|ref
10|1|26|budget|24|ref||refused 1 m[0x1000020] write 0x10000f8+8
11|1|21|budget|24|ref|bytes
11|1|35|budget|24|ref|bytes|returned 0
12|1|21|budget|24|ref|bytes
12|1|35|budget|24|ref|bytes|returned 0
13|1|22|budget|24|ref|bytes
13|1|36|budget|24|ref|bytes|returned 0
14|1|23|budget|24|ref|bytes
14|1|37|budget|24|ref|bytes|returned 0
15|1|24|budget|24|ref|bytes
15|1|38|budget|24|ref|bytes|returned 0
16|0|25|returned 0|24|ref|bytes
16|0|39|returned 0|24|ref|bytes|returned 0
17|0|25|returned 0|24|ref|bytes
17|0|39|returned 0|24|ref|bytes|returned 0
18|0|25|returned 0|24|ref|bytes
18|0|39|returned 0|24|ref|bytes|returned 0
100|0|25|returned 0|24|ref|bytes
100|0|39|returned 0|24|ref|bytes|returned 0
"
}

/// Puts the call at each fuel, alone and with the same call behind it.
pub fn put_fuels(text: &mut String) -> Result<(), Fail> {
    put_rows(text, form(), rows())
}
