//! Modules over the kernel that the program brings along, and over kernels of their own.

/// What modules own over the built-in kernel: heap, stack, and what transfers take.
pub fn memory_cases() -> &'static str {
    "---- after a free
---- case
lxfi case 1
kernel builtin
interface builtin
module m free.ll
thread
call m:main fuel 100
---- without
owns m.shared write
---- lines
status 1
schedule 0*12
call 0.0 m:main refused 1 m.shared write 0x2000010+8
owns m.shared call 0x10060
owns m.shared call 0x10080
owns m.shared call 0x10130
---- a bent packet
---- case
lxfi case 1
kernel builtin
interface builtin
module m bent.ll
thread
call m:main fuel 100
---- lines
status 1
call 0.0 m:main refused 1 m.shared write 0x1000000+8
owns m.shared write 0x2000010+24
owns m.shared write 0x2000040+8
---- stack bytes
---- case
lxfi case 1
kernel builtin
interface builtin
module m stack.ll
thread
call m:main fuel 100
---- without
owns m.shared write
---- lines
status 1
schedule 0*8
call 0.0 m:main refused 7 m.shared write 0x3000000+8
---- fuel for one action of two
---- case
lxfi case 1
kernel builtin
interface builtin
module m race.ll
thread
call m:make fuel 33
---- whole
status 1
schedule 0*13
call 0.0 m:make budget
image m guards 3 checks 0 wrappers 2
owns m.shared write 0x10000e0+8
owns m.shared write 0x2000010+24
owns m.shared call 0x100d0
owns m.shared call 0x100e0
owns m.shared call 0x10130
owns m.shared call 0x10140
owns m.shared call 0x10150
---- fuel for both
---- case
lxfi case 1
kernel builtin
interface builtin
module m race.ll
thread
call m:make fuel 36
---- lines
status 0
call 0.0 m:make returned
---- edges of memory
---- case
lxfi case 1
kernel builtin
interface builtin
module m edge.ll
thread
call m:main 0 0 fuel 100
call m:main 0x10ffff8 16 fuel 100
call m:main -8 16 fuel 100
---- lines
status 1
call 0.0 m:main returned
call 0.1 m:main refused 8 m.shared write 0x10ffff8+16
call 0.2 m:main refused 8 m.shared write 0xfffffffffffffff8+16
"
}

/// Shared principals and instances over the built-in kernel.
pub fn principal_cases() -> &'static str {
    "---- over two principals
---- case
lxfi case 1
kernel builtin
interface builtin
module m span.ll
thread
call m:init fuel 100
call kernel:do_probe 0 fuel 100
---- whole
status 0
schedule 0*25
call 0.0 m:init returned
call 0.1 kernel:do_probe returned 0
image m guards 1 checks 0 wrappers 3
owns m.shared write 0x10000e0+24
owns m.shared call 0x10090
owns m.shared call 0x100c0
owns m.shared call 0x10130
owns m.shared call 0x10140
owns m[0x1000020] write 0x10000f8+8
owns m[0x1000020] ref device 0x1000020
---- a failed probe
---- case
lxfi case 1
kernel builtin
interface builtin
module m neg.ll
thread
call m:init fuel 100
call kernel:do_probe 0 fuel 100
call m:late 0x1000020 fuel 100
---- without
owns m.shared ref
owns m[0x1000020] ref
---- lines
status 1
call 0.0 m:init returned
call 0.1 kernel:do_probe returned -5
call 0.2 m:late refused 3 m.shared ref device 0x1000020
---- another instance
---- case
lxfi case 1
kernel builtin
interface builtin
module m two.ll
thread
call m:init fuel 100
call kernel:do_probe 1 fuel 100
call kernel:do_probe 0 fuel 100
---- lines
status 1
call 0.2 kernel:do_probe refused 1 m[0x1000020] write 0x2000010+8
---- an alias
---- case
lxfi case 1
kernel builtin
interface builtin
module m two.ll
thread
call m:init fuel 100
call m:mode 1 fuel 100
call kernel:do_probe 1 fuel 100
call kernel:do_probe 0 fuel 100
---- lines
status 0
call 0.0 m:init returned
call 0.1 m:mode returned
call 0.2 kernel:do_probe returned 0
call 0.3 kernel:do_probe returned 0
owns m[0x1000038] write 0x2000010+8
---- an alias that is taken
---- case
lxfi case 1
kernel builtin
interface builtin
module m two.ll
thread
call m:init fuel 100
call m:mode 1 fuel 100
call kernel:do_probe 0 fuel 100
call kernel:do_probe 1 fuel 100
---- lines
status 1
call 0.2 kernel:do_probe refused 1 m[0x1000020] write 0x0+8
call 0.3 kernel:do_probe refused 9 m[0x1000038] alias 0x1000038 0x1000020
"
}

/// Calls by an address and through slots over the built-in kernel, and a slot of a kernel of its own that two instances write.
pub fn slot_cases() -> &'static str {
    "---- a bent slot
---- case
lxfi case 1
kernel builtin
interface builtin
module m bad.ll
thread
call m:init fuel 100
call m:bend fuel 100
call kernel:do_probe 0 fuel 100
---- lines
status 1
call 0.2 kernel:do_probe refused 6 m.shared call 0x10100 slot 0x10000e0
---- a slot of another annotation
---- case
lxfi case 1
kernel builtin
interface builtin
module m bad.ll
thread
call m:init fuel 100
call m:swap fuel 100
call kernel:do_probe 0 fuel 100
---- lines
status 1
call 0.2 kernel:do_probe refused 5 kernel call 0x10180: principal($0) pre(copy(ref(device), $0)) post(if ((return < 0)) transfer(ref(device), $0)) | principal($1) pre(transfer(skb_caps($0))) post(if ((return < 0)) transfer(skb_caps($0)))
---- bent again after zeroing
---- case
lxfi case 1
kernel builtin
interface builtin
module m bad.ll
thread
call m:init fuel 100
call m:again fuel 100
call kernel:do_probe 0 fuel 100
---- lines
status 1
call 0.2 kernel:do_probe refused 6 m.shared call 0x10100 slot 0x10000e0
---- a clean slot of 0
---- case
lxfi case 1
kernel builtin
interface builtin
module m bad.ll
thread
call m:cold fuel 100
call kernel:do_probe 0 fuel 100
---- lines
status 1
call 0.1 kernel:do_probe refused 4 kernel call 0x0
---- a call by an address
---- case
lxfi case 1
kernel builtin
interface builtin
module m hook.ll
thread
call m:wild fuel 100
call m:main fuel 100
---- lines
status 1
call 0.0 m:wild refused 2 m.shared call 0x10100
call 0.1 m:main returned 42
---- two writers of a slot, of which the first does not hold the call of what is in it
---- file writers_kernel.ll
@cell = global ptr null
declare void @k.slot.go(ptr)
define void @target() {
ret void
}
define void @by(ptr %s) {
call void @k.slot.go(ptr %s)
ret void
}
---- file writers.txt
interface 1
slot holder : void (ptr d, ptr s) principal(d) pre(copy(write, s, 8)) pre(copy(call, 65632))
slot writer : void (ptr d, ptr s) principal(d) pre(copy(write, s, 8))
slot go : void ()
field %struct.t 0 : holder
field %struct.t 1 : writer
export target : void ()
---- file writers.ll
%struct.t = type { ptr, ptr }
@table = global %struct.t { ptr @holder, ptr @writer }
define void @holder(ptr %d, ptr %s) {
store ptr inttoptr (i64 65632 to ptr), ptr %s
ret void
}
define void @writer(ptr %d, ptr %s) {
ret void
}
---- case
lxfi case 1
kernel file writers_kernel.ll
interface file writers.txt
module m writers.ll
thread
call m:writer 1 &kernel:cell fuel 100
call m:holder 2 &kernel:cell fuel 100
call kernel:by &kernel:cell fuel 100
---- lines
status 1
call 0.0 m:writer returned
call 0.1 m:holder returned
call 0.2 kernel:by refused 6 m[0x1] call 0x10060 slot 0x1000000
---- and of which the second does not
---- case
lxfi case 1
kernel file writers_kernel.ll
interface file writers.txt
module m writers.ll
thread
call m:holder 1 &kernel:cell fuel 100
call m:writer 2 &kernel:cell fuel 100
call kernel:by &kernel:cell fuel 100
---- lines
status 1
call 0.2 kernel:by refused 6 m[0x2] call 0x10060 slot 0x1000000
---- and of which both hold it
---- case
lxfi case 1
kernel file writers_kernel.ll
interface file writers.txt
module m writers.ll
thread
call m:holder 1 &kernel:cell fuel 100
call m:holder 2 &kernel:cell fuel 100
call kernel:by &kernel:cell fuel 100
---- lines
status 0
call 0.2 kernel:by returned
"
}

/// Kernels and interfaces of the case.
pub fn own_kernel_cases() -> &'static str {
    "---- an action under a condition
---- case
lxfi case 1
kernel file k5.ll
interface file i5.txt
module m file.ll
thread
call m:main 3 fuel 100
call m:main 5 fuel 100
call m:main -1 fuel 100
---- whole
status 1
schedule 0*24
call 0.0 m:main returned
call 0.1 m:main refused 3 m.shared ref file 0x5
call 0.2 m:main returned
image m guards 0 checks 0 wrappers 2
owns m.shared call 0x10060
owns m.shared call 0x10070
owns m.shared call 0x10080
owns m.shared ref file 0x3
owns m.shared ref file 0xffffffffffffffff
---- an alias of nobody
---- case
lxfi case 1
kernel file k5.ll
interface file i5.txt
module m alias.ll
thread
call m:main fuel 100
---- lines
status 1
schedule 0*2
call 0.0 m:main refused 9 m.shared alias 0x0 0x0
"
}
