//! Modules without a kernel, and inputs with a fault.

/// Modules without a kernel.
pub fn plain_cases() -> &'static str {
    "---- returns
---- case
lxfi case 1
kernel none
interface none
module m one.ll
thread
call m:main fuel 4
---- whole
status 0
schedule 0*5
call 0.0 m:main returned 7
image m guards 1 checks 0 wrappers 0
owns m.shared write 0x1000000+4
owns m.shared call 0x10060
---- out of fuel
---- case
lxfi case 1
kernel none
interface none
module m one.ll
thread
call m:main fuel 3
---- whole
status 1
schedule 0*4
call 0.0 m:main budget
image m guards 1 checks 0 wrappers 0
owns m.shared write 0x1000000+4
owns m.shared call 0x10060
---- past a global
---- case
lxfi case 1
kernel none
interface none
module m past.ll
thread
call m:main fuel 100
---- whole
status 1
schedule 0*2
call 0.0 m:main refused 1 m.shared write 0x1000000+8
image m guards 1 checks 0 wrappers 0
owns m.shared write 0x1000000+7
owns m.shared call 0x10060
---- a constant
---- case
lxfi case 1
kernel none
interface none
module m constant.ll
thread
call m:main fuel 100
---- whole
status 1
schedule 0*3
call 0.0 m:main refused 1 m.shared write 0x1000000+4
image m guards 2 checks 0 wrappers 0
owns m.shared write 0x1000010+4
owns m.shared call 0x10060
---- nothing
---- case
lxfi case 1
kernel none
interface none
module m empty.ll
---- whole
status 0
schedule
image m guards 0 checks 0 wrappers 0
---- text of a compiler
---- case
lxfi case 1
kernel none
interface none
module m clang.ll
thread
call m:both 3 5 fuel 15
call m:both 0 5 fuel 100
---- whole
status 0
schedule 0*21
call 0.0 m:both returned 1
call 0.1 m:both returned 0
image m guards 3 checks 0 wrappers 0
owns m.shared write 0x1000000+4
owns m.shared call 0x10060
---- division
---- case
lxfi case 1
kernel none
interface none
module m math.ll
thread
call m:div 7 0 fuel 100
call m:div -7 2 fuel 100
call m:div -2147483648 -1 fuel 100
call m:loop fuel 10
---- lines
status 1
schedule 0*9
call 0.0 m:div trap 2
call 0.1 m:div returned -3
call 0.2 m:div trap 2
call 0.3 m:loop budget
---- too deep
---- case
lxfi case 1
kernel none
interface none
module m deep.ll
thread
call m:f fuel 1000
---- lines
status 1
schedule 0*2
call 0.0 m:f trap 5
---- too wide
---- case
lxfi case 1
kernel none
interface none
module m wide.ll
thread
call m:a fuel 1000
call m:b fuel 1000
---- lines
status 1
schedule 0*6
call 0.0 m:a returned
call 0.1 m:b trap 4
"
}

/// Inputs with a fault.
pub fn faulty_cases() -> &'static str {
    "---- cut off
---- case
lxfi case 1
kernel none
interface none
module m cut.ll
---- whole
status 3
cut.ll:3: ir 2 end
---- two slot types
---- case
lxfi case 1
kernel builtin
interface builtin
module m both.ll
---- whole
status 3
both.ll:3: propagate 1 @h probe xmit
---- a register that nothing gives
---- case
lxfi case 1
kernel none
interface none
module m un.ll
---- whole
status 3
un.ll:2: verify 3 %x
---- an import that is not exported
---- case
lxfi case 1
kernel builtin
interface builtin
module m imp.ll
---- whole
status 3
imp.ll:1: link 2 @do_probe
---- a range without a size
---- case
lxfi case 1
kernel builtin
interface file i.txt
module m empty.ll
---- whole
status 3
i.txt:2: interface 5 write
"
}
