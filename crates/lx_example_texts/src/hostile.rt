//! What a stranger may try, and what a device may do: each answer is reasoned from what an image is, who holds what, and what is read first.

/// Images of `one.ll` that were cut or bent.
pub fn forged_images() -> &'static str {
    "---- the first four lines
---- file img.ll
@g = global i32 0
define i32 @main() {
0:
  call void @lxfi.guard(ptr @g, i64 4)
---- words check one.case m img.ll
---- whole
status 3
img.ll:4: ir 2 end
---- a guard behind its store
---- file img.ll
@g = global i32 0
define i32 @main() {
0:
  store i32 7, ptr @g
  call void @lxfi.guard(ptr @g, i64 4)
  %v = load i32, ptr @g
  ret i32 %v
}
---- words check one.case m img.ll
---- whole
status 8
img.ll:4: image 1 @main 0
---- a function that enters itself
---- file img.ll
@g = global i32 0
define i32 @main() {
0:
  call void @lxfi.enter(ptr @main)
  call void @lxfi.guard(ptr @g, i64 4)
  store i32 7, ptr @g
  %v = load i32, ptr @g
  ret i32 %v
}
---- words check one.case m img.ll
---- whole
status 8
img.ll:4: image 6 @main 0
---- a wrapper of nothing that is called out
---- file img.ll
@g = global i32 0
define i32 @main() {
0:
  call void @lxfi.guard(ptr @g, i64 4)
  store i32 7, ptr @g
  %v = load i32, ptr @g
  ret i32 %v
}
define void @lxfi.out.main() {
0:
  ret void
}
---- words check one.case m img.ll
---- whole
status 8
img.ll:9: image 4 @lxfi.out.main 0
"
}

/// A packet that one thread makes and sends, and to which another stores twice.
pub fn raced_pokes() -> &'static str {
    "---- case
lxfi case 1
kernel builtin
interface builtin
module m race.ll
thread
call m:make fuel 100
call m:send fuel 100
thread
call m:poke fuel 100
---- the packet is sent before both stores
---- schedule
0*20 1*4 0*5
---- lines
status 1
call 1.0 m:poke refused 1 m.shared write 0x2000040+1
---- there is no packet yet
---- schedule
1*3 0*25
---- lines
status 1
call 1.0 m:poke trap 1 0x0
---- one store before the sending begins, the other before the packet is taken
---- schedule
0*16 1*5 0*9 1*2
---- lines
status 0
call 1.0 m:poke returned
---- both stores are asked for before the packet is taken
---- schedule
0*16 1*4 0*3 1*1 0*6 1*2
---- lines
status 0
call 1.0 m:poke returned
"
}

/// A store to the first address of another thread's stack.
pub fn guessed_addresses() -> &'static str {
    "---- file guess.ll
define void @own() {
%a = alloca i64
store i64 1, ptr %a
ret void
}
define void @spy(ptr %p) {
store i8 1, ptr %p
ret void
}
---- case
lxfi case 1
kernel none
interface none
module m guess.ll
thread
call m:own fuel 9
thread
call m:spy 0x3000000 fuel 9
---- while the bytes are the module's, for whom both calls run
---- schedule
0*2 1*4 0*3
---- lines
status 0
call 1.0 m:spy returned
---- when they were taken back
---- schedule
0*5 1*2
---- lines
status 1
call 1.0 m:spy refused 1 m.shared write 0x3000000+1
---- before they were anybody's
---- schedule
1*2 0*5
---- lines
status 1
call 1.0 m:spy refused 1 m.shared write 0x3000000+1
"
}

/// Reads that fail at each file of a replay, and outputs that fail at once.
pub fn failing_devices() -> &'static str {
    "---- file one.schedule
0*5
---- the case is not read
---- failing read 0
---- words replay one.case one.schedule
---- whole
status 4
lxfi: cannot read one.case
---- the module is not read
---- failing read 1
---- words replay one.case one.schedule
---- whole
status 4
lxfi: cannot read one.ll
---- the schedule is not read
---- failing read 2
---- words replay one.case one.schedule
---- whole
status 4
lxfi: cannot read one.schedule
---- all are read
---- words replay one.case one.schedule
---- lines
status 0
schedule 0*5
---- failing output
---- nobody is told what was not read
---- failing read 0
---- words replay one.case one.schedule
---- whole
status 5
---- failing read 1
---- words replay one.case one.schedule
---- whole
status 5
---- failing read 2
---- words replay one.case one.schedule
---- whole
status 5
---- nor a report
---- words replay one.case one.schedule
---- whole
status 5
---- words run one.case
---- whole
status 5
"
}
