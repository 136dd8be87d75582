//! Modules that go to the limits of the machine, and wide calls.

/// Modules at the limits of the machine: 256 frames and no more, a loop of a million instructions with just enough fuel,
/// the last unit of fuel, and where the bytes of the stack of the second thread lie; then calls with seven arguments, which cross by
/// five actions before the body.
pub fn limit_cases() -> &'static str {
    "---- as many frames as there are
---- case
lxfi case 1
kernel none
interface none
module m down.ll
thread
call m:down 255 fuel 2000
call m:down 256 fuel 2000
call m:ever fuel 256
call m:ever fuel 257
---- whole
status 1
schedule 0*264
call 0.0 m:down returned 255
call 0.1 m:down trap 5
call 0.2 m:ever budget
call 0.3 m:ever trap 5
image m guards 0 checks 0 wrappers 0
owns m.shared call 0x10060
owns m.shared call 0x10070
---- a million instructions
---- case
lxfi case 1
kernel none
interface none
module m loop.ll
thread
call m:loop 333333 fuel 1000002
call m:loop 2 fuel 9
call m:loop 2 fuel 8
---- whole
status 1
schedule 0*8
call 0.0 m:loop returned 333333
call 0.1 m:loop returned 2
call 0.2 m:loop budget
image m guards 0 checks 0 wrappers 0
owns m.shared call 0x10060
---- stack bytes of the second thread
---- case
lxfi case 1
kernel none
interface none
module m places.ll
thread
thread
call m:byte fuel 100
call m:word fuel 100
---- whole
status 0
schedule 1*10
call 1.0 m:byte returned 0x3010000
call 1.1 m:word returned 0x3010008
image m guards 0 checks 0 wrappers 0
owns m.shared call 0x10060
owns m.shared call 0x10070
---- seven arguments, and five actions before the body
---- file wide.txt
interface 1
export wide : i64 (i64 a, i64 b, i64 c, i64 d, i64 e, i64 f, ptr p)
  pre(check(write, p, 1)) pre(check(write, p + 1, 1)) pre(check(write, p + 2, 1)) pre(check(write, p + 3, 1)) pre(check(write, p + f, 1))
---- file wide.ll
define i64 @wide(i64 %a, i64 %b, i64 %c, i64 %d, i64 %e, i64 %f, ptr %p) {
%f0 = mul i64 %f, 10
%ef = add i64 %f0, %e
%e0 = mul i64 %ef, 10
%df = add i64 %e0, %d
%d0 = mul i64 %df, 10
%cf = add i64 %d0, %c
%c0 = mul i64 %cf, 10
%bf = add i64 %c0, %b
%b0 = mul i64 %bf, 10
%af = add i64 %b0, %a
ret i64 %af
}
---- file width.ll
@g = global i32 0
declare i64 @wide(i64, i64, i64, i64, i64, i64, ptr)
define i64 @main(i64 %a, i64 %b, i64 %c, i64 %d, i64 %e, i64 %f, i64 %g) {
%r = call i64 @wide(i64 %a, i64 %b, i64 %c, i64 %d, i64 %e, i64 %f, ptr @g)
%h = mul i64 %g, 1000000
%s = add i64 %r, %h
ret i64 %s
}
---- case
lxfi case 1
kernel file wide.ll
interface file wide.txt
module m width.ll
thread
call m:main 1 2 3 4 5 3 7 fuel 100
call m:main 1 2 3 4 5 4 7 fuel 100
---- whole
status 1
schedule 0*17
call 0.0 m:main returned 7354321
call 0.1 m:main refused 1 m.shared write 0x1000004+1
image m guards 0 checks 0 wrappers 1
owns m.shared write 0x1000000+4
owns m.shared call 0x10060
owns m.shared call 0x10070
"
}
