//! The smallest cases, event by event.
//! Written by `tools/example-texts` from `examples/` and `docs/MANUAL.md`.

/// The smallest cases, event by event: what is run, over which files beside those of `file_table`, and what it writes.
pub fn first_traces_table() -> &'static str {
    r#"---- file examples/one.schedule
schedule 0*5
---- words examples/one.case examples/one.schedule
---- trace examples/one.case
---- whole
status 0
done 0 0.0 kernel script: calls m:main() enters m:main as m.shared
done 1 0.0 m.shared m:main:3: store i32 7 at 0x1000000 (m:@g+0)
done 2 0.0 m.shared m:main:4: load i32 at 0x1000000 (m:@g+0) = 7
done 3 0.0 m.shared m:main:5: leaves 0 at 0x3000000
ends 4 0.0 kernel script: ends: returned 7
---- file examples/budget.schedule
schedule 0*4
---- words examples/budget.case examples/budget.schedule
---- trace examples/budget.case
---- whole
status 1
done 0 0.0 kernel script: calls m:main() enters m:main as m.shared
done 1 0.0 m.shared m:main:3: store i32 7 at 0x1000000 (m:@g+0)
done 2 0.0 m.shared m:main:4: load i32 at 0x1000000 (m:@g+0) = 7
ends 3 0.0 kernel m:main:5: ends: budget
---- file examples/past.schedule
schedule 0*2
---- words examples/past.case examples/past.schedule
---- trace examples/past.case
---- whole
status 1
done 0 0.0 kernel script: calls m:main() enters m:main as m.shared
refused 1 0.0 m.shared m:main:3: store i64 0x7 at 0x1000000 (m:@g+0): refused 1 m.shared write 0x1000000+8
---- words examples/shared.case examples/shared.schedule
---- trace examples/shared.case
---- whole
status 1
done 0 0.0 kernel script: calls m:make() enters m:make as m.shared
done 1 0.0 m.shared m:make:5: calls kernel:get(0x8) enters kernel:get as kernel
done 2 0.0 kernel kernel:get:4: calls k.alloc(0x8) = 0x2000000
done 3 0.0 kernel kernel:get:5: leaves 0 at 0x3000000
done 4 0.0 kernel m:make:5: post 0 of kernel:get from kernel to m.shared
done 5 0.0 m.shared m:make:6: store i64 0x2000000 at 0x1000000 (m:@box+0)
done 6 0.0 m.shared m:make:7: leaves 0 at 0x3000000
ends 7 0.0 kernel script: ends: returned
done 8 1.0 kernel script: calls m:poke() enters m:poke as m.shared
done 9 1.0 m.shared m:poke:15: load i64 at 0x1000000 (m:@box+0) = 0x2000000
done 10 1.0 m.shared m:poke:16: store i64 0x5 at 0x2000000 (event 2+0)
done 11 0.1 kernel script: calls m:drop() enters m:drop as m.shared
done 12 0.1 m.shared m:drop:10: load i64 at 0x1000000 (m:@box+0) = 0x2000000
done 13 0.1 m.shared m:drop:11: calls kernel:put(0x2000000) enters kernel:put as kernel
done 14 0.1 m.shared m:drop:11: pre 0 of kernel:put from m.shared to kernel
refused 15 1.0 m.shared m:poke:17: store i64 0x6 at 0x2000000 (event 2+0): refused 1 m.shared write 0x2000000+8
done 16 0.1 kernel kernel:put:8: calls k.free(0x2000000)
done 17 0.1 kernel kernel:put:9: leaves 0 at 0x3000000
done 18 0.1 m.shared m:drop:12: leaves 0 at 0x3000000
ends 19 0.1 kernel script: ends: returned
---- file examples/letters.schedule
schedule 0*55
---- words examples/letters.case examples/letters.schedule
---- trace examples/letters.case
---- whole
status 1
done 0 0.0 kernel script: calls m:send(0x3) enters m:send as m.shared
done 1 0.0 m.shared m:send:5: calls kernel:box_open(0x3) enters kernel:box_open as kernel
done 2 0.0 kernel kernel:box_open:5: leaves 0 at 0x3000000
done 3 0.0 kernel m:send:5: post 0 of kernel:box_open from kernel to m.shared
done 4 0.0 m.shared m:send:6: calls kernel:letter_new(0x8) enters kernel:letter_new as kernel
done 5 0.0 kernel kernel:letter_new:8: calls k.alloc(0x10) = 0x2000000
done 6 0.0 kernel kernel:letter_new:9: calls k.alloc(0x8) = 0x2000010
done 7 0.0 kernel kernel:letter_new:10: store i64 0x2000010 at 0x2000000 (event 5+0)
done 8 0.0 kernel kernel:letter_new:12: store i64 0x8 at 0x2000008 (event 5+8)
done 9 0.0 kernel kernel:letter_new:13: leaves 0 at 0x3000000
done 10 0.0 kernel m:send:6: post 0 of kernel:letter_new from kernel to m.shared
done 11 0.0 m.shared m:send:7: load i64 at 0x2000000 (event 5+0) = 0x2000010
done 12 0.0 m.shared m:send:8: store i64 0x7 at 0x2000010 (event 6+0)
done 13 0.0 m.shared m:send:9: calls kernel:letter_send(0x3, 0x2000000) enters kernel:letter_send as kernel
done 14 0.0 m.shared m:send:9: pre 0 of kernel:letter_send from m.shared to kernel
done 15 0.0 m.shared m:send:9: pre 1 of kernel:letter_send from m.shared to kernel
done 16 0.0 kernel kernel:letter_send:17: load i64 at 0x2000008 (event 5+8) = 0x8
done 17 0.0 kernel kernel:letter_send:18: calls k.note(0x8)
done 18 0.0 kernel kernel:letter_send:19: leaves 0 at 0x3000000
done 19 0.0 m.shared m:send:10: leaves 0 at 0x3000000
ends 20 0.0 kernel script: ends: returned
done 21 0.1 kernel script: calls m:send(0x7) enters m:send as m.shared
done 22 0.1 m.shared m:send:5: calls kernel:box_open(0x7) enters kernel:box_open as kernel
done 23 0.1 kernel kernel:box_open:5: leaves 0 at 0x3000000
done 24 0.1 kernel m:send:5: post 0 of kernel:box_open from kernel to m.shared
done 25 0.1 m.shared m:send:6: calls kernel:letter_new(0x8) enters kernel:letter_new as kernel
done 26 0.1 kernel kernel:letter_new:8: calls k.alloc(0x10) = 0x2000020
done 27 0.1 kernel kernel:letter_new:9: calls k.alloc(0x8) = 0x2000030
done 28 0.1 kernel kernel:letter_new:10: store i64 0x2000030 at 0x2000020 (event 26+0)
done 29 0.1 kernel kernel:letter_new:12: store i64 0x8 at 0x2000028 (event 26+8)
done 30 0.1 kernel kernel:letter_new:13: leaves 0 at 0x3000000
done 31 0.1 kernel m:send:6: post 0 of kernel:letter_new from kernel to m.shared
done 32 0.1 m.shared m:send:7: load i64 at 0x2000020 (event 26+0) = 0x2000030
done 33 0.1 m.shared m:send:8: store i64 0x7 at 0x2000030 (event 27+0)
done 34 0.1 m.shared m:send:9: calls kernel:letter_send(0x7, 0x2000020) enters kernel:letter_send as kernel
refused 35 0.1 m.shared m:send:9: pre 0 of kernel:letter_send from m.shared to kernel: refused 3 m.shared ref box 0x7
done 36 0.2 kernel script: calls m:send_and_write(0x2) enters m:send_and_write as m.shared
done 37 0.2 m.shared m:send_and_write:13: calls kernel:box_open(0x2) enters kernel:box_open as kernel
done 38 0.2 kernel kernel:box_open:5: leaves 0 at 0x3000000
done 39 0.2 kernel m:send_and_write:13: post 0 of kernel:box_open from kernel to m.shared
done 40 0.2 m.shared m:send_and_write:14: calls kernel:letter_new(0x8) enters kernel:letter_new as kernel
done 41 0.2 kernel kernel:letter_new:8: calls k.alloc(0x10) = 0x2000040
done 42 0.2 kernel kernel:letter_new:9: calls k.alloc(0x8) = 0x2000050
done 43 0.2 kernel kernel:letter_new:10: store i64 0x2000050 at 0x2000040 (event 41+0)
done 44 0.2 kernel kernel:letter_new:12: store i64 0x8 at 0x2000048 (event 41+8)
done 45 0.2 kernel kernel:letter_new:13: leaves 0 at 0x3000000
done 46 0.2 kernel m:send_and_write:14: post 0 of kernel:letter_new from kernel to m.shared
done 47 0.2 m.shared m:send_and_write:15: load i64 at 0x2000040 (event 41+0) = 0x2000050
done 48 0.2 m.shared m:send_and_write:16: calls kernel:letter_send(0x2, 0x2000040) enters kernel:letter_send as kernel
done 49 0.2 m.shared m:send_and_write:16: pre 0 of kernel:letter_send from m.shared to kernel
done 50 0.2 m.shared m:send_and_write:16: pre 1 of kernel:letter_send from m.shared to kernel
done 51 0.2 kernel kernel:letter_send:17: load i64 at 0x2000048 (event 41+8) = 0x8
done 52 0.2 kernel kernel:letter_send:18: calls k.note(0x8)
done 53 0.2 kernel kernel:letter_send:19: leaves 0 at 0x3000000
refused 54 0.2 m.shared m:send_and_write:17: store i64 0x7 at 0x2000050 (event 42+0): refused 1 m.shared write 0x2000050+8
---- file examples/manual/arguments.schedule
schedule 0*27
---- words examples/manual/arguments.case examples/manual/arguments.schedule
---- trace examples/manual/arguments.case
---- whole
status 0
done 0 0.0 kernel script: calls m:same(0xfffffffffffffffb) enters m:same as m.shared
done 1 0.0 m.shared m:same:3: leaves 0 at 0x3000000
ends 2 0.0 kernel script: ends: returned -5
done 3 0.1 kernel script: calls m:same(0xffffffffffffffff) enters m:same as m.shared
done 4 0.1 m.shared m:same:3: leaves 0 at 0x3000000
ends 5 0.1 kernel script: ends: returned -1
done 6 0.2 kernel script: calls m:same(0xff) enters m:same as m.shared
done 7 0.2 m.shared m:same:3: leaves 0 at 0x3000000
ends 8 0.2 kernel script: ends: returned 255
done 9 0.3 kernel script: calls m:byte(-1) enters m:byte as m.shared
done 10 0.3 m.shared m:byte:6: leaves 0 at 0x3000000
ends 11 0.3 kernel script: ends: returned -1
done 12 0.4 kernel script: calls m:byte(-128) enters m:byte as m.shared
done 13 0.4 m.shared m:byte:6: leaves 0 at 0x3000000
ends 14 0.4 kernel script: ends: returned -128
done 15 0.5 kernel script: calls m:truth(1) enters m:truth as m.shared
done 16 0.5 m.shared m:truth:9: leaves 0 at 0x3000000
ends 17 0.5 kernel script: ends: returned 1
done 18 0.6 kernel script: calls m:place(0x10000e0) enters m:place as m.shared
done 19 0.6 m.shared m:place:12: leaves 0 at 0x3000000
ends 20 0.6 kernel script: ends: returned 0x10000e0
done 21 0.7 kernel script: calls m:place(0x10130) enters m:place as m.shared
done 22 0.7 m.shared m:place:12: leaves 0 at 0x3000000
ends 23 0.7 kernel script: ends: returned 0x10130
done 24 0.8 kernel script: calls m:place(0x10060) enters m:place as m.shared
done 25 0.8 m.shared m:place:12: leaves 0 at 0x3000000
ends 26 0.8 kernel script: ends: returned 0x10060
---- file examples/manual/quiet.schedule
schedule 0*6
---- words examples/manual/quiet.case examples/manual/quiet.schedule
---- trace examples/manual/quiet.case
---- whole
status 0
done 0 0.0 kernel script: calls m:f(5) enters m:f as m.shared
done 1 0.0 m.shared m:f:2: alloca 4 at 0x3000000
done 2 0.0 m.shared m:f:3: store i32 5 at 0x3000000 (event 1+0)
done 3 0.0 m.shared m:f:4: load i32 at 0x3000000 (event 1+0) = 5
done 4 0.0 m.shared m:f:5: leaves 4 at 0x3000000
ends 5 0.0 kernel script: ends: returned 5
"#
}
