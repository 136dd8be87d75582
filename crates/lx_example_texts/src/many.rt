//! Cases with thousands of actions, whose reports are short.

/// Pairs of kmalloc and kfree, each of nine events; transfers to the kernel and back by dev_wipe, each of five; a principal
/// for each number up to 300, each of three events, where a reference is copied to those whose numbers agree in their low
/// eight bits; and address 0, of which no call is owned at first, and then one.
pub fn many_cases() -> &'static str {
    "---- 28 pairs of kmalloc and kfree
---- case
lxfi case 1
kernel builtin
interface builtin
module m pairs.ll
thread
call m:main 28 fuel 10000
---- whole
status 0
schedule 0*255
call 0.0 m:main returned
image m guards 0 checks 0 wrappers 2
owns m.shared call 0x10060
owns m.shared call 0x10080
owns m.shared call 0x10130
---- 2,000 pairs of kmalloc and kfree
---- case
lxfi case 1
kernel builtin
interface builtin
module m pairs.ll
thread
call m:main 2000 fuel 46003
call m:main 1 fuel 25
---- whole
status 1
schedule 0*18014
call 0.0 m:main returned
call 0.1 m:main budget
image m guards 0 checks 0 wrappers 2
owns m.shared call 0x10060
owns m.shared call 0x10080
owns m.shared call 0x10130
---- 2,000 calls of dev_wipe
---- case
lxfi case 1
kernel builtin
interface builtin
module m wipes.ll
thread
call m:main 2000 fuel 16003
---- whole
status 0
schedule 0*10003
call 0.0 m:main returned
image m guards 0 checks 0 wrappers 1
owns m.shared write 0x10000e0+16
owns m.shared call 0x100c0
owns m.shared call 0x10130
---- 300 instances
---- case
lxfi case 1
kernel file many.ll
interface file many.txt
module m each.ll
thread
call kernel:each &m:ops 300 fuel 1803
---- whole
status 0
schedule 0*903
call 0.0 kernel:each returned
image m guards 0 checks 0 wrappers 1
owns m.shared write 0x1000000+8
owns m.shared call 0x10090
owns m[0x0] ref file 0x0
owns m[0x100] ref file 0x100
---- calls of address 0
---- case
lxfi case 1
kernel file many.ll
interface file many.txt
module m zero.ll
thread
call m:wild fuel 100
call m:main fuel 100
call m:wild fuel 100
---- whole
status 1
schedule 0*9
call 0.0 m:wild refused 2 m.shared call 0x0
call 0.1 m:main refused 4 m.shared call 0x0
call 0.2 m:wild refused 4 m.shared call 0x0
image m guards 0 checks 2 wrappers 1
owns m.shared call 0x0
owns m.shared call 0x10070
owns m.shared call 0x10090
owns m.shared call 0x100a0
"
}

/// What the cases with many actions run, and a kernel for some of them.
pub fn many_files() -> &'static str {
    "---- file pairs.ll
declare ptr @kmalloc(i64)
declare void @kfree(ptr)
define void @main(i64 %n) {
a:
  br label %l
l:
  %i = phi i64 [ 0, %a ], [ %j, %l ]
  %p = call ptr @kmalloc(i64 8)
  call void @kfree(ptr %p)
  %j = add i64 %i, 1
  %c = icmp ult i64 %j, %n
  br i1 %c, label %l, label %e
e:
  ret void
}
---- file wipes.ll
@buf = global [16 x i8] zeroinitializer
declare void @dev_wipe(ptr, i64)
define void @main(i64 %n) {
a:
  br label %l
l:
  %i = phi i64 [ 0, %a ], [ %j, %l ]
  call void @dev_wipe(ptr @buf, i64 16)
  %j = add i64 %i, 1
  %c = icmp ult i64 %j, %n
  br i1 %c, label %l, label %e
e:
  ret void
}
---- file probe.ll
%struct.dev_ops = type { ptr, ptr }
@ops = global %struct.dev_ops { ptr @probe, ptr null }
declare ptr @dev_register(ptr)
define void @init() {
  %d = call ptr @dev_register(ptr @ops)
  ret void
}
define i32 @probe(ptr %d) {
  ret i32 0
}
---- file mixed.ll
%struct.dev_ops = type { ptr, ptr }
@ops = global %struct.dev_ops { ptr @probe, ptr null }
@buf = global [16 x i8] zeroinitializer
declare ptr @kmalloc(i64)
declare void @kfree(ptr)
declare ptr @dev_register(ptr)
declare void @dev_wipe(ptr, i64)
define void @init() {
  %d = call ptr @dev_register(ptr @ops)
  ret void
}
define i32 @probe(ptr %d) {
  ret i32 0
}
define i64 @work(i64 %n) {
  %p = call ptr @kmalloc(i64 16)
  store i64 %n, ptr %p
  %v = load i64, ptr %p
  call void @kfree(ptr %p)
  ret i64 %v
}
define void @wipe() {
  call void @dev_wipe(ptr @buf, i64 16)
  ret void
}
define i64 @stray(i64 %n) {
  %p = inttoptr i64 16777216 to ptr
  store i64 %n, ptr %p
  ret i64 %n
}
---- file many.ll
declare void @k.slot.work(ptr, i64)
define void @give(ptr %p) {
  ret void
}
define ptr @nothing() {
  ret ptr null
}
define void @each(ptr %s, i64 %n) {
a:
  br label %l
l:
  %i = phi i64 [ 0, %a ], [ %j, %l ]
  call void @k.slot.work(ptr %s, i64 %i)
  %j = add i64 %i, 1
  %c = icmp ult i64 %j, %n
  br i1 %c, label %l, label %e
e:
  ret void
}
---- file many.txt
interface 1
reftype file
slot work : void (i64 x) principal(x) pre(if ((x & 255) == 0) copy(ref(file), x))
field %struct.ops 0 : work
export give : void (ptr p) post(copy(ref(file), p))
export nothing : ptr () post(copy(call, return))
---- file zero.ll
declare ptr @nothing()
define i64 @main() {
  %f = call ptr @nothing()
  %r = call i64 %f(i64 1)
  ret i64 %r
}
define i64 @wild() {
  %f = inttoptr i64 0 to ptr
  %r = call i64 %f(i64 1)
  ret i64 %r
}
---- file each.ll
%struct.ops = type { ptr }
@ops = global %struct.ops { ptr @work }
define void @work(i64 %x) {
  ret void
}
---- file files.ll
declare void @give(ptr)
define void @main(i64 %n) {
a:
  br label %l
l:
  %i = phi i64 [ 0, %a ], [ %j, %l ]
  %p = inttoptr i64 %i to ptr
  call void @give(ptr %p)
  %j = add i64 %i, 1
  %c = icmp ult i64 %j, %n
  br i1 %c, label %l, label %e
e:
  ret void
}
"
}
