//! Cases with a schedule of their own.

/// Schedules that are replayed.
pub fn replayed_cases() -> &'static str {
    "---- a packet that was sent
---- case
lxfi case 1
kernel builtin
interface builtin
module m race.ll
thread
call m:make fuel 100
call m:send fuel 100
thread
call m:poke fuel 100
---- schedule
0*16 1*4 0*4 1*1 0*5
---- whole
status 1
schedule 0*16 1*4 0*4 1*1 0*5
call 0.0 m:make returned
call 0.1 m:send returned 0
call 1.0 m:poke refused 1 m.shared write 0x2000040+1
note 0 8
image m guards 3 checks 0 wrappers 2
owns m.shared write 0x10000e0+8
owns m.shared call 0x100d0
owns m.shared call 0x100e0
owns m.shared call 0x10130
owns m.shared call 0x10140
owns m.shared call 0x10150
---- a packet before it is sent
---- case
lxfi case 1
kernel builtin
interface builtin
module m race.ll
thread
call m:make fuel 100
call m:send fuel 100
thread
call m:poke fuel 100
---- schedule
0*16 1*7 0*9
---- whole
status 0
schedule 0*16 1*7 0*9
call 0.0 m:make returned
call 0.1 m:send returned 0
call 1.0 m:poke returned
note 0 8
image m guards 3 checks 0 wrappers 2
owns m.shared write 0x10000e0+8
owns m.shared call 0x100d0
owns m.shared call 0x100e0
owns m.shared call 0x10130
owns m.shared call 0x10140
owns m.shared call 0x10150
---- replayed
---- case
lxfi case 1
kernel none
interface none
module m one.ll
thread
call m:main fuel 4
---- schedule
0*5
---- whole
status 0
schedule 0*5
call 0.0 m:main returned 7
image m guards 1 checks 0 wrappers 0
owns m.shared write 0x1000000+4
owns m.shared call 0x10060
---- work remains
---- case
lxfi case 1
kernel none
interface none
module m one.ll
thread
call m:main fuel 4
---- schedule
0*4
---- whole
status 7
lxfi: schedule not whole at entry 4
---- no work is left
---- case
lxfi case 1
kernel none
interface none
module m one.ll
thread
call m:main fuel 4
---- schedule
0*6
---- whole
status 7
lxfi: schedule not whole at entry 5
---- no such thread
---- case
lxfi case 1
kernel none
interface none
module m one.ll
thread
call m:main fuel 4
---- schedule
1*1
---- whole
status 7
lxfi: schedule not whole at entry 0
---- a range that was given back
---- case
lxfi case 1
kernel file k2.ll
interface file i2.txt
module m u.ll
thread
call m:make fuel 100
call m:drop fuel 100
thread
call m:poke fuel 100
---- schedule
0*8 1*3 0*4 1*1 0*4
---- whole
status 1
schedule 0*8 1*3 0*4 1*1 0*4
call 0.0 m:make returned
call 0.1 m:drop returned
call 1.0 m:poke refused 1 m.shared write 0x2000000+8
image m guards 3 checks 0 wrappers 2
owns m.shared write 0x1000000+8
owns m.shared call 0x10060
owns m.shared call 0x10070
owns m.shared call 0x10080
owns m.shared call 0x10090
owns m.shared call 0x100a0
---- a range before it is given back
---- case
lxfi case 1
kernel file k2.ll
interface file i2.txt
module m u.ll
thread
call m:make fuel 100
call m:drop fuel 100
thread
call m:poke fuel 100
---- schedule
0*8 1*6 0*8
---- whole
status 0
schedule 0*8 1*6 0*8
call 0.0 m:make returned
call 0.1 m:drop returned
call 1.0 m:poke returned
image m guards 3 checks 0 wrappers 2
owns m.shared write 0x1000000+8
owns m.shared call 0x10060
owns m.shared call 0x10070
owns m.shared call 0x10080
owns m.shared call 0x10090
owns m.shared call 0x100a0
"
}
