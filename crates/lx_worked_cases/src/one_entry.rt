//! A guard and the store behind it are one event: no call of another thread comes between them.
//!
//! Thread 0 stores to bytes of the module (`put`) in four events: entry, store, `ret` and end. Thread 1 crosses into the
//! module by `quit`, whose action behind the body takes these bytes away: entry, `ret`, action and end. So the bytes are
//! there exactly in those schedules in which thread 0's second entry stands before thread 1's third; where they are not,
//! the store is refused in that entry, which is thread 0's last.

use crate::forms::put_rows;
use crate::reports::entries_in;
use std::test::Fail;

/// The events of each call that is not refused.
pub const CALL: u32 = 4;

/// The entries of both calls where the store is made.
const MADE: u32 = 8;

/// Their entries where it is refused.
const REFUSED: u32 = 6;

/// The files and the case.
pub fn store() -> &'static str {
    "---- file quits.txt
interface 1
slot done : void (ptr p) post(transfer(write, p, 8))
field %struct.ops 0 : done
---- file puts.ll
%struct.ops = type { ptr }
@ops = global %struct.ops { ptr @quit }
@own = global i64 0
define void @put() {
  store i64 7, ptr @own
  ret void
}
define void @quit(ptr %p) {
  ret void
}
---- case
lxfi case 1
kernel none
interface file quits.txt
module m puts.ll
thread
call m:put fuel 100
thread
call m:quit &m:own fuel 100
"
}

/// A schedule that is whole, its status, and what it tells of thread 0's call.
fn whole_form() -> &'static str {
    "---- schedule
schedule <0>---- whole
status <1>
schedule <0>
call 0.0 m:put <2>
call 1.0 m:quit returned
image m guards 1 checks 0 wrappers 1
owns m.shared write 0x1000000+8
owns m.shared call 0x10060
owns m.shared call 0x10070
"
}

/// The schedules of eight entries in which the store is made, and those of six in which it is refused.
fn whole_rows() -> &'static str {
    "1*2 0*2 1*2 0*2|0|returned
1*1 0*1 1*1 0*1 1*2 0*2|0|returned
0*1 1*2 0*1 1*2 0*2|0|returned
1*1 0*2 1*3 0*2|0|returned
0*1 1*1 0*1 1*3 0*2|0|returned
0*2 1*4 0*2|0|returned
1*2 0*2 1*1 0*1 1*1 0*1|0|returned
1*1 0*1 1*1 0*1 1*1 0*1 1*1 0*1|0|returned
0*1 1*2 0*1 1*1 0*1 1*1 0*1|0|returned
1*1 0*2 1*2 0*1 1*1 0*1|0|returned
0*1 1*1 0*1 1*2 0*1 1*1 0*1|0|returned
0*2 1*3 0*1 1*1 0*1|0|returned
1*2 0*3 1*2 0*1|0|returned
1*1 0*1 1*1 0*2 1*2 0*1|0|returned
0*1 1*2 0*2 1*2 0*1|0|returned
1*1 0*2 1*1 0*1 1*2 0*1|0|returned
0*1 1*1 0*1 1*1 0*1 1*2 0*1|0|returned
0*2 1*2 0*1 1*2 0*1|0|returned
1*1 0*3 1*3 0*1|0|returned
0*1 1*1 0*2 1*3 0*1|0|returned
0*2 1*1 0*1 1*3 0*1|0|returned
0*3 1*4 0*1|0|returned
1*2 0*2 1*1 0*2 1*1|0|returned
1*1 0*1 1*1 0*1 1*1 0*2 1*1|0|returned
0*1 1*2 0*1 1*1 0*2 1*1|0|returned
1*1 0*2 1*2 0*2 1*1|0|returned
0*1 1*1 0*1 1*2 0*2 1*1|0|returned
0*2 1*3 0*2 1*1|0|returned
1*2 0*3 1*1 0*1 1*1|0|returned
1*1 0*1 1*1 0*2 1*1 0*1 1*1|0|returned
0*1 1*2 0*2 1*1 0*1 1*1|0|returned
1*1 0*2 1*1 0*1 1*1 0*1 1*1|0|returned
0*1 1*1 0*1 1*1 0*1 1*1 0*1 1*1|0|returned
0*2 1*2 0*1 1*1 0*1 1*1|0|returned
1*1 0*3 1*2 0*1 1*1|0|returned
0*1 1*1 0*2 1*2 0*1 1*1|0|returned
0*2 1*1 0*1 1*2 0*1 1*1|0|returned
0*3 1*3 0*1 1*1|0|returned
1*2 0*4 1*2|0|returned
1*1 0*1 1*1 0*3 1*2|0|returned
0*1 1*2 0*3 1*2|0|returned
1*1 0*2 1*1 0*2 1*2|0|returned
0*1 1*1 0*1 1*1 0*2 1*2|0|returned
0*2 1*2 0*2 1*2|0|returned
1*1 0*3 1*1 0*1 1*2|0|returned
0*1 1*1 0*2 1*1 0*1 1*2|0|returned
0*2 1*1 0*1 1*1 0*1 1*2|0|returned
0*3 1*2 0*1 1*2|0|returned
1*1 0*4 1*3|0|returned
0*1 1*1 0*3 1*3|0|returned
0*2 1*1 0*2 1*3|0|returned
0*3 1*1 0*1 1*3|0|returned
0*4 1*4|0|returned
1*4 0*2|1|refused 1 m.shared write 0x1000010+8
1*3 0*1 1*1 0*1|1|refused 1 m.shared write 0x1000010+8
1*2 0*1 1*2 0*1|1|refused 1 m.shared write 0x1000010+8
1*1 0*1 1*3 0*1|1|refused 1 m.shared write 0x1000010+8
0*1 1*4 0*1|1|refused 1 m.shared write 0x1000010+8
1*3 0*2 1*1|1|refused 1 m.shared write 0x1000010+8
1*2 0*1 1*1 0*1 1*1|1|refused 1 m.shared write 0x1000010+8
1*1 0*1 1*2 0*1 1*1|1|refused 1 m.shared write 0x1000010+8
0*1 1*3 0*1 1*1|1|refused 1 m.shared write 0x1000010+8
"
}

/// A schedule, and the entry at which it is not whole.
fn broken_form() -> &'static str {
    "---- schedule
schedule <0>---- whole
status 7
lxfi: schedule not whole at entry <1>
"
}

/// The other ones: with eight entries a refused call has no third event, and with six a call whose store is made has no fourth.
fn broken_rows() -> &'static str {
    "1*4 0*4|6
1*3 0*1 1*1 0*3|6
1*2 0*1 1*2 0*3|6
1*1 0*1 1*3 0*3|6
0*1 1*4 0*3|6
1*3 0*2 1*1 0*2|6
1*2 0*1 1*1 0*1 1*1 0*2|6
1*1 0*1 1*2 0*1 1*1 0*2|6
0*1 1*3 0*1 1*1 0*2|6
1*3 0*3 1*1 0*1|5
1*2 0*1 1*1 0*2 1*1 0*1|5
1*1 0*1 1*2 0*2 1*1 0*1|5
0*1 1*3 0*2 1*1 0*1|5
1*3 0*4 1*1|5
1*2 0*1 1*1 0*3 1*1|5
1*1 0*1 1*2 0*3 1*1|5
0*1 1*3 0*3 1*1|5
1*2 0*2 1*2|6
1*1 0*1 1*1 0*1 1*2|6
0*1 1*2 0*1 1*2|6
1*1 0*2 1*3|6
0*1 1*1 0*1 1*3|6
0*2 1*4|6
"
}

/// Puts the 70 schedules with four entries of each thread, and the 15 with two of thread 0.
pub fn put_entries(text: &mut String) -> Result<(), Fail> {
    put_rows(text, whole_form(), whole_rows())?;
    put_rows(text, broken_form(), broken_rows())
}

/// The lines behind the schedule where the store is made, or refused.
fn replies(made: bool) -> &'static str {
    if made {
        "call 0.0 m:put returned
call 1.0 m:quit returned
image m guards 1 checks 0 wrappers 1
owns m.shared write 0x1000000+8
owns m.shared call 0x10060
owns m.shared call 0x10070
"
    } else {
        "call 0.0 m:put refused 1 m.shared write 0x1000010+8
call 1.0 m:quit returned
image m guards 1 checks 0 wrappers 1
owns m.shared write 0x1000000+8
owns m.shared call 0x10060
owns m.shared call 0x10070
"
    }
}

/// Whether a report is that of a run in which the store is made, or refused, with an entry for each request.
pub fn is_store(report: &str, made: bool) -> bool {
    let (head, entries) = if made {
        ("status 0\nschedule ", MADE)
    } else {
        ("status 1\nschedule ", REFUSED)
    };
    let Some(told) = report.strip_prefix(head) else {
        return false;
    };
    match told.split_once('\n') {
        Some((schedule, lines)) => lines == replies(made) && entries_in(schedule) == entries,
        None => false,
    }
}
