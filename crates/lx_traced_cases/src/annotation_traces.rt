//! What annotations say, event by event.
//! Written by `tools/example-texts` from `examples/` and `docs/MANUAL.md`.

/// What annotations say, event by event: what is run, over which files beside those of `file_table`, and what it writes.
pub fn annotation_traces_table() -> &'static str {
    r#"---- file examples/manual/sites.schedule
schedule 0*47
---- words examples/manual/sites.case examples/manual/sites.schedule
---- trace examples/manual/sites.case
---- whole
status 1
done 0 0.0 kernel script: calls m:set_a() enters m:set_a as m.shared
done 1 0.0 m.shared m:set_a:20: calls kernel:timer_set(0x10080) enters kernel:timer_set as kernel
done 2 0.0 m.shared m:set_a:20: pre 0 of kernel:timer_set from m.shared to kernel
done 3 0.0 kernel kernel:timer_set:4: store i64 0x10080 at 0x1000000 (kernel:@timer+0)
done 4 0.0 kernel kernel:timer_set:5: leaves 0 at 0x3000000
done 5 0.0 m.shared m:set_a:21: leaves 0 at 0x3000000
ends 6 0.0 kernel script: ends: returned
done 7 0.1 kernel script: calls kernel:do_tick(0x1) enters kernel:do_tick as kernel
done 8 0.1 kernel kernel:do_tick:8: calls slot tick at 0x1000000(0x1) enters m:a as m.shared
done 9 0.1 m.shared m:a:8: leaves 0 at 0x3000000
done 10 0.1 kernel kernel:do_tick:9: leaves 0 at 0x3000000
ends 11 0.1 kernel script: ends: returned
done 12 0.2 kernel script: calls m:set_b() enters m:set_b as m.shared
done 13 0.2 m.shared m:set_b:24: store i64 0x10090 at 0x1000028 (m:@second+8)
done 14 0.2 m.shared m:set_b:25: calls kernel:timer_set(0x10090) enters kernel:timer_set as kernel
done 15 0.2 m.shared m:set_b:25: pre 0 of kernel:timer_set from m.shared to kernel
done 16 0.2 kernel kernel:timer_set:4: store i64 0x10090 at 0x1000000 (kernel:@timer+0)
done 17 0.2 kernel kernel:timer_set:5: leaves 0 at 0x3000000
done 18 0.2 m.shared m:set_b:26: leaves 0 at 0x3000000
ends 19 0.2 kernel script: ends: returned
done 20 0.3 kernel script: calls kernel:do_tick(0x2) enters kernel:do_tick as kernel
done 21 0.3 kernel kernel:do_tick:8: calls slot tick at 0x1000000(0x2) enters m:b as m.shared
done 22 0.3 m.shared m:b:11: leaves 0 at 0x3000000
done 23 0.3 kernel kernel:do_tick:9: leaves 0 at 0x3000000
ends 24 0.3 kernel script: ends: returned
done 25 0.4 kernel script: calls m:set_c(0x3) enters m:set_c as m.shared
done 26 0.4 m.shared m:set_c:30: store i64 0x100a0 at 0x1000048 (m:@third+24)
done 27 0.4 m.shared m:set_c:31: calls kernel:timer_set(0x100a0) enters kernel:timer_set as kernel
done 28 0.4 m.shared m:set_c:31: pre 0 of kernel:timer_set from m.shared to kernel
done 29 0.4 kernel kernel:timer_set:4: store i64 0x100a0 at 0x1000000 (kernel:@timer+0)
done 30 0.4 kernel kernel:timer_set:5: leaves 0 at 0x3000000
done 31 0.4 m.shared m:set_c:32: leaves 0 at 0x3000000
ends 32 0.4 kernel script: ends: returned
done 33 0.5 kernel script: calls kernel:do_tick(0x3) enters kernel:do_tick as kernel
done 34 0.5 kernel kernel:do_tick:8: calls slot tick at 0x1000000(0x3) enters m:c as m.shared
done 35 0.5 m.shared m:c:14: leaves 0 at 0x3000000
done 36 0.5 kernel kernel:do_tick:9: leaves 0 at 0x3000000
ends 37 0.5 kernel script: ends: returned
done 38 0.6 kernel script: calls m:set_d() enters m:set_d as m.shared
done 39 0.6 m.shared m:set_d:35: calls kernel:timer_set(0x100b0) enters kernel:timer_set as kernel
done 40 0.6 m.shared m:set_d:35: pre 0 of kernel:timer_set from m.shared to kernel
done 41 0.6 kernel kernel:timer_set:4: store i64 0x100b0 at 0x1000000 (kernel:@timer+0)
done 42 0.6 kernel kernel:timer_set:5: leaves 0 at 0x3000000
done 43 0.6 m.shared m:set_d:36: leaves 0 at 0x3000000
ends 44 0.6 kernel script: ends: returned
done 45 0.7 kernel script: calls kernel:do_tick(0x4) enters kernel:do_tick as kernel
refused 46 0.7 kernel kernel:do_tick:8: calls slot tick at 0x1000000(0x4): refused 4 kernel call 0x100b0
---- file examples/manual/principals.schedule
schedule 0*55
---- words examples/manual/principals.case examples/manual/principals.schedule
---- trace examples/manual/principals.case
---- whole
status 1
done 0 0.0 kernel script: calls m:init() enters m:init as m.shared
done 1 0.0 m.shared m:init:14: calls kernel:set(0x1000010) enters kernel:set as kernel
done 2 0.0 kernel kernel:set:12: store i64 0x1000010 at 0x1000000 (kernel:@ops+0)
done 3 0.0 kernel kernel:set:13: leaves 0 at 0x3000000
done 4 0.0 m.shared m:init:15: leaves 0 at 0x3000000
ends 5 0.0 kernel script: ends: returned
done 6 0.1 kernel script: calls kernel:open(0x1) enters kernel:open as kernel
done 7 0.1 kernel kernel:open:16: load i64 at 0x1000000 (kernel:@ops+0) = 0x1000010
done 8 0.1 kernel kernel:open:17: calls slot open at 0x1000010(0x1) enters m:open_box as m[0x1]
done 9 0.1 m[0x1] m:open_box:22: alloca 8 at 0x3000000
done 10 0.1 m[0x1] m:open_box:23: store i64 0x1 at 0x3000000 (event 9+0)
done 11 0.1 m[0x1] m:open_box:24: load i64 at 0x1000030 (m:@opened+0) = 0x0
done 12 0.1 m[0x1] m:open_box:26: store i64 0x1 at 0x1000030 (m:@opened+0)
done 13 0.1 m[0x1] m:open_box:27: calls kernel:get(0x8) enters kernel:get as kernel
done 14 0.1 kernel kernel:get:8: calls k.alloc(0x8) = 0x2000000
done 15 0.1 kernel kernel:get:9: leaves 0 at 0x3000008
done 16 0.1 kernel m:open_box:27: post 0 of kernel:get from kernel to m[0x1]
done 17 0.1 m[0x1] m:open_box:28: store i64 0x2000000 at 0x1000040 (m:@box+0)
done 18 0.1 m[0x1] m:open_box:29: leaves 8 at 0x3000000
done 19 0.1 kernel kernel:open:18: leaves 0 at 0x3000000
ends 20 0.1 kernel script: ends: returned 0
done 21 0.2 kernel script: calls kernel:poke(0x1) enters kernel:poke as kernel
done 22 0.2 kernel kernel:poke:21: load i64 at 0x1000000 (kernel:@ops+0) = 0x1000010
done 23 0.2 kernel kernel:poke:23: calls slot poke at 0x1000018(0x1) enters m:poke_box as m[0x1]
done 24 0.2 m[0x1] m:poke_box:34: alloca 8 at 0x3000000
done 25 0.2 m[0x1] m:poke_box:35: store i64 0x1 at 0x3000000 (event 24+0)
done 26 0.2 m[0x1] m:poke_box:36: load i64 at 0x1000040 (m:@box+0) = 0x2000000
done 27 0.2 m[0x1] m:poke_box:37: store i64 0x1 at 0x2000000 (event 14+0)
done 28 0.2 m[0x1] m:poke_box:38: leaves 8 at 0x3000000
done 29 0.2 kernel kernel:poke:24: leaves 0 at 0x3000000
ends 30 0.2 kernel script: ends: returned 1
done 31 0.3 kernel script: calls kernel:poke(0x2) enters kernel:poke as kernel
done 32 0.3 kernel kernel:poke:21: load i64 at 0x1000000 (kernel:@ops+0) = 0x1000010
done 33 0.3 kernel kernel:poke:23: calls slot poke at 0x1000018(0x2) enters m:poke_box as m[0x2]
done 34 0.3 m[0x2] m:poke_box:34: alloca 8 at 0x3000000
done 35 0.3 m[0x2] m:poke_box:35: store i64 0x2 at 0x3000000 (event 34+0)
done 36 0.3 m[0x2] m:poke_box:36: load i64 at 0x1000040 (m:@box+0) = 0x2000000
refused 37 0.3 m[0x2] m:poke_box:37: store i64 0x1 at 0x2000000 (event 14+0): refused 1 m[0x2] write 0x2000000+8
done 38 0.4 kernel script: calls kernel:sum(0x1) enters kernel:sum as kernel
done 39 0.4 kernel kernel:sum:27: load i64 at 0x1000000 (kernel:@ops+0) = 0x1000010
done 40 0.4 kernel kernel:sum:29: calls slot sum at 0x1000020(0x1) enters m:sum_box as m.shared
done 41 0.4 m.shared m:sum_box:43: alloca 8 at 0x3000000
done 42 0.4 m.shared m:sum_box:44: store i64 0x1 at 0x3000000 (event 41+0)
done 43 0.4 m.shared m:sum_box:45: load i64 at 0x1000040 (m:@box+0) = 0x2000000
refused 44 0.4 m.shared m:sum_box:46: store i64 0x2 at 0x2000000 (event 14+0): refused 1 m.shared write 0x2000000+8
done 45 0.5 kernel script: calls kernel:tidy(0x1) enters kernel:tidy as kernel
done 46 0.5 kernel kernel:tidy:33: load i64 at 0x1000000 (kernel:@ops+0) = 0x1000010
done 47 0.5 kernel kernel:tidy:35: calls slot tidy at 0x1000028(0x1) enters m:tidy_box as m.global
done 48 0.5 m.global m:tidy_box:52: alloca 8 at 0x3000000
done 49 0.5 m.global m:tidy_box:53: store i64 0x1 at 0x3000000 (event 48+0)
done 50 0.5 m.global m:tidy_box:54: load i64 at 0x1000040 (m:@box+0) = 0x2000000
done 51 0.5 m.global m:tidy_box:55: store i64 0x3 at 0x2000000 (event 14+0)
done 52 0.5 m.global m:tidy_box:56: leaves 8 at 0x3000000
done 53 0.5 kernel kernel:tidy:36: leaves 0 at 0x3000000
ends 54 0.5 kernel script: ends: returned 3
---- file examples/manual/lists.schedule
schedule 0*12
---- words examples/manual/lists.case examples/manual/lists.schedule
---- trace examples/manual/lists.case
---- whole
status 1
done 0 0.0 kernel script: calls m:take() enters m:take as m.shared
done 1 0.0 m.shared m:take:4: calls kernel:give(0x1) enters kernel:give as kernel
done 2 0.0 kernel kernel:give:2: leaves 0 at 0x3000000
done 3 0.0 kernel m:take:4: post 0 of kernel:give from kernel to m.shared
done 4 0.0 m.shared m:take:5: calls kernel:want(0x1000000) enters kernel:want as kernel
done 5 0.0 m.shared m:take:5: pre 0 of kernel:want from m.shared to kernel
done 6 0.0 kernel kernel:want:6: leaves 0 at 0x3000000
done 7 0.0 m.shared m:take:6: leaves 0 at 0x3000000
ends 8 0.0 kernel script: ends: returned
done 9 0.1 kernel script: calls m:show(0x1000010) enters m:show as m.shared
done 10 0.1 m.shared m:show:9: calls kernel:want(0x1000010) enters kernel:want as kernel
refused 11 0.1 m.shared m:show:9: pre 0 of kernel:want from m.shared to kernel: refused 1 m.shared write 0x1000010+16
---- file examples/manual/values.schedule
schedule 0*30
---- words examples/manual/values.case examples/manual/values.schedule
---- trace examples/manual/values.case
---- whole
status 1
done 0 0.0 kernel script: calls m:shift(0x3, 0x4) enters m:shift as m.shared
done 1 0.0 m.shared m:shift:7: calls kernel:shifts(0x3, 0x4) enters kernel:shifts as kernel
refused 2 0.0 m.shared m:shift:7: pre 0 of kernel:shifts from m.shared to kernel: refused 2 m.shared call 0x30
done 3 0.1 kernel script: calls m:shift(0x3, 0x40) enters m:shift as m.shared
done 4 0.1 m.shared m:shift:7: calls kernel:shifts(0x3, 0x40) enters kernel:shifts as kernel
refused 5 0.1 m.shared m:shift:7: pre 0 of kernel:shifts from m.shared to kernel: refused 2 m.shared call 0x0
done 6 0.2 kernel script: calls m:compare(0xffffffffffffffff, 0x0) enters m:compare as m.shared
done 7 0.2 m.shared m:compare:11: calls kernel:compares(0xffffffffffffffff, 0x0) enters kernel:compares as kernel
refused 8 0.2 m.shared m:compare:11: pre 0 of kernel:compares from m.shared to kernel: refused 2 m.shared call 0x101
done 9 0.3 kernel script: calls m:compare(0x0, 0xffffffffffffffff) enters m:compare as m.shared
done 10 0.3 m.shared m:compare:11: calls kernel:compares(0x0, 0xffffffffffffffff) enters kernel:compares as kernel
refused 11 0.3 m.shared m:compare:11: pre 0 of kernel:compares from m.shared to kernel: refused 2 m.shared call 0x100
done 12 0.4 kernel script: calls m:decide(0x0) enters m:decide as m.shared
done 13 0.4 m.shared m:decide:15: calls kernel:lazy(0x0) enters kernel:lazy as kernel
done 14 0.4 m.shared m:decide:15: pre 0 of kernel:lazy from m.shared to kernel
done 15 0.4 kernel kernel:lazy:8: leaves 0 at 0x3000000
done 16 0.4 m.shared m:decide:16: leaves 0 at 0x3000000
ends 17 0.4 kernel script: ends: returned
done 18 0.5 kernel script: calls m:decide(0x1000000) enters m:decide as m.shared
done 19 0.5 m.shared m:decide:15: calls kernel:lazy(0x1000000) enters kernel:lazy as kernel
refused 20 0.5 m.shared m:decide:15: pre 0 of kernel:lazy from m.shared to kernel: refused 2 m.shared call 0x1
done 21 0.6 kernel script: calls m:decide(0x1) enters m:decide as m.shared
done 22 0.6 m.shared m:decide:15: calls kernel:lazy(0x1) enters kernel:lazy as kernel
trap 23 0.6 m.shared m:decide:15: pre 0 of kernel:lazy from m.shared to kernel: trap 1 0x1
done 24 0.7 kernel script: calls m:look(0x1000000) enters m:look as m.shared
done 25 0.7 m.shared m:look:19: calls kernel:loads(0x1000000) enters kernel:loads as kernel
refused 26 0.7 m.shared m:look:19: pre 0 of kernel:loads from m.shared to kernel: refused 2 m.shared call 0x5
done 27 0.8 kernel script: calls m:look(0x10ffffc) enters m:look as m.shared
done 28 0.8 m.shared m:look:19: calls kernel:loads(0x10ffffc) enters kernel:loads as kernel
trap 29 0.8 m.shared m:look:19: pre 0 of kernel:loads from m.shared to kernel: trap 1 0x1100000
---- file examples/manual/signs.schedule
schedule 0*9
---- words examples/manual/signs.case examples/manual/signs.schedule
---- trace examples/manual/signs.case
---- whole
status 1
done 0 0.0 kernel script: calls m:i8() enters m:i8 as m.shared
done 1 0.0 m.shared m:i8:5: calls kernel:take_i8(-1) enters kernel:take_i8 as kernel
refused 2 0.0 m.shared m:i8:5: pre 0 of kernel:take_i8 from m.shared to kernel: refused 2 m.shared call 0xffffffffffffffff
done 3 0.1 kernel script: calls m:u8() enters m:u8 as m.shared
done 4 0.1 m.shared m:u8:9: calls kernel:take_u8(-1) enters kernel:take_u8 as kernel
refused 5 0.1 m.shared m:u8:9: pre 0 of kernel:take_u8 from m.shared to kernel: refused 2 m.shared call 0xff
done 6 0.2 kernel script: calls m:bool() enters m:bool as m.shared
done 7 0.2 m.shared m:bool:13: calls kernel:take_bool(1) enters kernel:take_bool as kernel
refused 8 0.2 m.shared m:bool:13: pre 0 of kernel:take_bool from m.shared to kernel: refused 2 m.shared call 0x1
---- file examples/manual/canonical.schedule
schedule 0*11
---- words examples/manual/canonical.case examples/manual/canonical.schedule
---- trace examples/manual/canonical.case
---- whole
status 1
done 0 0.0 kernel script: calls m:init() enters m:init as m.shared
done 1 0.0 m.shared m:init:10: load i64 at 0x1000020 (m:@other+0) = 0x10080
done 2 0.0 m.shared m:init:11: store i64 0x10080 at 0x1000010 (m:@table+0)
done 3 0.0 m.shared m:init:12: calls kernel:set(0x1000010) enters kernel:set as kernel
done 4 0.0 kernel kernel:set:4: store i64 0x1000010 at 0x1000000 (kernel:@hook+0)
done 5 0.0 kernel kernel:set:5: leaves 0 at 0x3000000
done 6 0.0 m.shared m:init:13: leaves 0 at 0x3000000
ends 7 0.0 kernel script: ends: returned
done 8 0.1 kernel script: calls kernel:go() enters kernel:go as kernel
done 9 0.1 kernel kernel:go:8: load i64 at 0x1000000 (kernel:@hook+0) = 0x1000010
refused 10 0.1 kernel kernel:go:9: calls slot plain at 0x1000010(0x0, 0x0): refused 5 kernel call 0x10080:  | pre(check(call, (($0 - $1) - 1))) pre(check(call, ((-$0) * $1))) pre(check(call, (($0 << (1 + 2)) >> $1))) pre(check(call, ($0 & ($1 == 1)))) pre(check(call, ($0 || ($1 && 1)))) pre(check(call, (load64(($0 + 8)) + 8)))
"#
}
