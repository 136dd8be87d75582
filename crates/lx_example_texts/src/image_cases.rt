//! Images that are made and checked.
//! Written by `tools/example-texts` from `examples/` and `docs/MANUAL.md`.

/// Images that are made and checked: what is run, over which files beside those of `file_table`, and what it writes.
pub fn image_cases_table() -> &'static str {
    r#"---- words instrument examples/one.case m
---- instrument examples/one.case m
---- whole
status 0
@g = global i32 0
define i32 @main() {
0:
  call void @lxfi.guard(ptr @g, i64 4)
  store i32 7, ptr @g
  %v = load i32, ptr @g
  ret i32 %v
}
---- words instrument examples/manual/quiet.case m
---- instrument examples/manual/quiet.case m
---- whole
status 0
define i32 @f(i32 %a) {
0:
  %s = alloca i32
  store i32 %a, ptr %s
  %v = load i32, ptr %s
  ret i32 %v
}
---- words run examples/manual/quiet.case
---- run examples/manual/quiet.case
---- whole
status 0
schedule 0*6
call 0.0 m:f returned 5
image m guards 1 checks 0 wrappers 0
owns m.shared call 0x10060
---- words instrument examples/manual/hook.case m
---- instrument examples/manual/hook.case m
---- whole
status 0
declare ptr @hook_get()
define i64 @main() {
0:
  %f = call ptr @lxfi.out.hook_get()
  call void @lxfi.check(ptr %f)
  %r = call i64 %f(i64 41)
  ret i64 %r
}
define i64 @wild() {
0:
  %f = inttoptr i64 65792 to ptr
  call void @lxfi.check(ptr %f)
  %r = call i64 %f(i64 1)
  ret i64 %r
}
define ptr @lxfi.out.hook_get() {
0:
  call void @lxfi.enter(ptr @hook_get)
  %r = call ptr @hook_get()
  call void @lxfi.post(ptr @hook_get, i32 0)
  call void @lxfi.leave(ptr @hook_get)
  ret ptr %r
}
---- words check examples/one.case m examples/manual/one.image
---- check examples/one.case m examples/manual/one.image
---- whole
status 0
accepted
---- words check examples/one.case m examples/manual/image_1.ll
---- check examples/one.case m examples/manual/image_1.ll
---- whole
status 8
examples/manual/image_1.ll:4: image 1 @main 0
---- words check examples/one.case m examples/manual/image_2.ll
---- check examples/one.case m examples/manual/image_2.ll
---- whole
status 8
examples/manual/image_2.ll:4: image 2 @main 0
---- words check examples/manual/hook.case m examples/manual/image_3.ll
---- check examples/manual/hook.case m examples/manual/image_3.ll
---- whole
status 8
examples/manual/image_3.ll:5: image 3 @main 1
---- words check examples/manual/hook.case m examples/manual/image_4.ll
---- check examples/manual/hook.case m examples/manual/image_4.ll
---- whole
status 8
examples/manual/image_4.ll:20: image 4 @lxfi.out.hook_get 2
---- words check examples/manual/hook.case m examples/manual/image_5.ll
---- check examples/manual/hook.case m examples/manual/image_5.ll
---- whole
status 8
examples/manual/image_5.ll:4: image 5 @main 0
---- words check examples/one.case m examples/manual/image_6.ll
---- check examples/one.case m examples/manual/image_6.ll
---- whole
status 8
examples/manual/image_6.ll:4: image 6 @main 0
"#
}
