//! Runs that end before a trace, and outputs without room for one.

/// A fault in the case, in the schedule and in the module, and files that are exchanged; a file that is not there; schedules that are not
/// whole; a case alone, of one thread, whose schedule is the whole one; words that are no case, and an output that takes ten bytes, of a trace and
/// of a fault's line.
pub fn ends() -> &'static str {
    "---- file one.case
lxfi case 1
kernel none
interface none
module m one.ll
thread
call m:main fuel 4
---- file one.ll
define i32 @main() {
ret i32 7
}
---- file whole.schedule
schedule 0*3
---- file short.schedule
schedule 0*2
---- file long.schedule
schedule 0*4
---- file nobody.schedule
schedule 1*1 0*3
---- file empty.schedule
schedule 0*0
---- file cut.case
lxfi case 1
kernel none
interface none
module m one.ll
thread
call m:main
---- file odd.case
lxfi case 1
kernel none
interface none
module m odd.ll
---- file odd.ll
@g = global i33 0
---- file lacking.case
lxfi case 1
kernel none
interface none
module m lacking.ll
---- words one.case whole.schedule
---- a whole schedule
---- whole
status 0
done 0 0.0 kernel script: calls m:main() enters m:main as m.shared
done 1 0.0 m.shared m:main:2: leaves 0 at 0x3000000
ends 2 0.0 kernel script: ends: returned 7
---- words cut.case whole.schedule
---- a fault in the case
---- whole
status 3
cut.case:6: case 2 end
---- words one.case empty.schedule
---- a fault in the schedule
---- whole
status 3
empty.schedule:1: schedule 5 0
---- words odd.case whole.schedule
---- a fault in a module
---- whole
status 3
odd.ll:1: ir 3 i33
---- words whole.schedule one.case
---- files that are exchanged
---- whole
status 3
whole.schedule:1: case 2 schedule
---- words absent.case whole.schedule
---- no case
---- whole
status 4
lxfi: cannot read absent.case
---- words one.case absent.schedule
---- no schedule
---- whole
status 4
lxfi: cannot read absent.schedule
---- words lacking.case whole.schedule
---- no module
---- whole
status 4
lxfi: cannot read lacking.ll
---- words one.case short.schedule
---- a schedule that ends before the calls
---- whole
status 7
lxfi: schedule not whole at entry 2
---- words one.case long.schedule
---- a schedule that goes on behind the calls
---- whole
status 7
lxfi: schedule not whole at entry 3
---- words one.case nobody.schedule
---- a schedule of a thread that there is none of
---- whole
status 7
lxfi: schedule not whole at entry 0
---- words one.case
---- a case alone
---- whole
status 0
done 0 0.0 kernel script: calls m:main() enters m:main as m.shared
done 1 0.0 m.shared m:main:2: leaves 0 at 0x3000000
ends 2 0.0 kernel script: ends: returned 7
---- words odd.case
---- a fault in a module of a case alone
---- whole
status 3
odd.ll:1: ir 3 i33
---- words absent.case
---- no case, and no schedule
---- whole
status 4
lxfi: cannot read absent.case
---- words --schedule
---- an option alone
---- whole
status 2
usage: lxfi_trace CASE [SCHEDULE]
---- words one.case --schedule
---- an option
---- whole
status 2
usage: lxfi_trace CASE [SCHEDULE]
---- words trace one.case whole.schedule
---- three words
---- whole
status 2
usage: lxfi_trace CASE [SCHEDULE]
---- no words
---- whole
status 2
usage: lxfi_trace CASE [SCHEDULE]
---- words one.case whole.schedule
---- a trace without room
---- short output
---- whole
status 5
done 0 0.0---- words odd.case whole.schedule
---- a fault without room
---- short output
---- whole
status 5
odd.ll:1: ---- words one.case whole.schedule
---- room again
---- whole
status 0
done 0 0.0 kernel script: calls m:main() enters m:main as m.shared
done 1 0.0 m.shared m:main:2: leaves 0 at 0x3000000
ends 2 0.0 kernel script: ends: returned 7
"
}
