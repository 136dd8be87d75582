//! Texts that do not go together, as the manual's tables show them.
//! Written by `tools/example-texts` from `examples/` and `docs/MANUAL.md`.

/// Texts that do not go together, as the manual's tables show them: what is run, over which files beside those of `file_table`, and what it writes.
pub fn input_faults_table() -> &'static str {
    r#"---- file x.case
lxfi case 1
kernel builtin
interface builtin
module m m.ll
---- file m.ll
%struct.dev_ops = type { ptr, ptr }
@ops = global %struct.dev_ops { ptr @h, ptr @h }
define i32 @h(ptr %d) {
ret i32 0
}
---- words run x.case
---- m.ll:3: propagate 1 @h probe xmit
---- whole
status 3
m.ll:3: propagate 1 @h probe xmit
---- file x.case
lxfi case 1
kernel none
interface builtin
---- words run x.case
---- builtin:8: link 1 @kmalloc
---- whole
status 3
builtin:8: link 1 @kmalloc
---- file x.case
lxfi case 1
kernel file k.ll
interface none
---- file k.ll
declare void @k.panic()
---- words run x.case
---- k.ll:1: link 1 @k.panic
---- whole
status 3
k.ll:1: link 1 @k.panic
---- file k.ll
declare void @k.slot.open(ptr)
---- words run x.case
---- k.ll:1: link 1 @k.slot.open
---- whole
status 3
k.ll:1: link 1 @k.slot.open
---- file x.case
lxfi case 1
kernel none
interface none
module m m.ll
---- file m.ll
declare void @f()
---- words run x.case
---- m.ll:1: link 1 @f
---- whole
status 3
m.ll:1: link 1 @f
---- file x.case
lxfi case 1
kernel builtin
interface builtin
module m m.ll
---- file m.ll
declare ptr @k.alloc(i64)
---- words run x.case
---- m.ll:1: link 1 @k.alloc
---- whole
status 3
m.ll:1: link 1 @k.alloc
---- file x.case
lxfi case 1
kernel none
interface none
thread
call kernel:f fuel 1
---- words run x.case
---- x.case:5: link 1 @f
---- whole
status 3
x.case:5: link 1 @f
---- file x.case
lxfi case 1
kernel builtin
interface builtin
module m m.ll
---- file m.ll
declare i32 @do_probe(i64)
---- words run x.case
---- m.ll:1: link 2 @do_probe
---- whole
status 3
m.ll:1: link 2 @do_probe
---- file x.case
lxfi case 1
kernel file k.ll
interface file i.txt
---- file i.txt
interface 1
export f : i64 ()
---- file k.ll
define i32 @f() {
ret i32 0
}
---- words run x.case
---- i.txt:2: link 3 @f
---- whole
status 3
i.txt:2: link 3 @f
---- file x.case
lxfi case 1
kernel file k.ll
interface none
---- file k.ll
declare void @k.note()
---- words run x.case
---- k.ll:1: link 3 @k.note
---- whole
status 3
k.ll:1: link 3 @k.note
---- file x.case
lxfi case 1
kernel builtin
interface builtin
module m m.ll
---- file m.ll
declare ptr @kmalloc(i32)
---- words run x.case
---- m.ll:1: link 3 @kmalloc
---- whole
status 3
m.ll:1: link 3 @kmalloc
---- file m.ll
%struct.dev_ops = type { ptr, ptr }
@ops = global %struct.dev_ops { ptr @h, ptr null }
define i32 @h() {
ret i32 0
}
---- words run x.case
---- m.ll:3: link 3 @h
---- whole
status 3
m.ll:3: link 3 @h
---- file x.case
lxfi case 1
kernel none
interface none
module m m.ll
thread
call m:id 4294967296 fuel 9
---- file m.ll
define i32 @id(i32 %n) {
ret i32 %n
}
---- words run x.case
---- x.case:6: link 3 @id
---- whole
status 3
x.case:6: link 3 @id
---- file x.case
lxfi case 1
kernel none
interface none
module m m.ll
---- file m.ll
@g = global [1048577 x i8] zeroinitializer
---- words run x.case
---- m.ll:1: link 4 globals
---- whole
status 3
m.ll:1: link 4 globals
---- file x.case
lxfi case 1
kernel file k.ll
interface none
---- file k.ll
define void @f(ptr %p) {
call void %p()
ret void
}
---- words run x.case
---- k.ll:1: link 5 @f
---- whole
status 3
k.ll:1: link 5 @f
"#
}
