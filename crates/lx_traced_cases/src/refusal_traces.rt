//! Refusals, event by event.
//! Written by `tools/example-texts` from `examples/` and `docs/MANUAL.md`.

/// Refusals, event by event: what is run, over which files beside those of `file_table`, and what it writes.
pub fn refusal_traces_table() -> &'static str {
    r#"---- file examples/manual/hook.schedule
schedule 0*15
---- words examples/manual/hook.case examples/manual/hook.schedule
---- trace examples/manual/hook.case
---- whole
status 1
done 0 0.0 kernel script: calls m:wild() enters m:wild as m.shared
refused 1 0.0 m.shared m:wild:9: calls 0x10100 (kernel:hook_fn)(0x1): refused 2 m.shared call 0x10100
done 2 0.1 kernel script: calls m:main() enters m:main as m.shared
done 3 0.1 m.shared m:main:3: calls kernel:hook_get() enters kernel:hook_get as kernel
done 4 0.1 kernel kernel:hook_get:121: leaves 0 at 0x3000000
done 5 0.1 kernel m:main:3: post 0 of kernel:hook_get from kernel to m.shared
done 6 0.1 m.shared m:main:4: calls 0x10100 (kernel:hook_fn)(0x29) enters kernel:hook_fn as kernel
done 7 0.1 kernel kernel:hook_fn:126: leaves 0 at 0x3000000
done 8 0.1 m.shared m:main:5: leaves 0 at 0x3000000
ends 9 0.1 kernel script: ends: returned 42
done 10 0.2 kernel script: calls m:wild() enters m:wild as m.shared
done 11 0.2 m.shared m:wild:9: calls 0x10100 (kernel:hook_fn)(0x1) enters kernel:hook_fn as kernel
done 12 0.2 kernel kernel:hook_fn:126: leaves 0 at 0x3000000
done 13 0.2 m.shared m:wild:10: leaves 0 at 0x3000000
ends 14 0.2 kernel script: ends: returned 2
---- file examples/manual/bad_swap.schedule
schedule 0*19
---- words examples/manual/bad_swap.case examples/manual/bad_swap.schedule
---- trace examples/manual/bad_swap.case
---- whole
status 1
done 0 0.0 kernel script: calls m:init() enters m:init as m.shared
done 1 0.0 m.shared m:init:6: calls kernel:dev_register(0x10000e0) enters kernel:dev_register as kernel
done 2 0.0 kernel kernel:dev_register:56: calls k.try_lock(0x1000000) = 1
done 3 0.0 kernel kernel:dev_register:60: load i64 at 0x1000010 (kernel:@ndevs+0) = 0x0
done 4 0.0 kernel kernel:dev_register:65: store i64 0x10000e0 at 0x1000020 (kernel:@devs+0)
done 5 0.0 kernel kernel:dev_register:67: store i64 0x0 at 0x1000028 (kernel:@devs+8)
done 6 0.0 kernel kernel:dev_register:69: store i64 0x1 at 0x1000010 (kernel:@ndevs+0)
done 7 0.0 kernel kernel:dev_register:73: store i32 0 at 0x1000000 (kernel:@lock+0)
done 8 0.0 kernel kernel:dev_register:74: leaves 0 at 0x3000000
done 9 0.0 m.shared m:init:7: leaves 0 at 0x3000000
ends 10 0.0 kernel script: ends: returned
done 11 0.1 kernel script: calls m:swap() enters m:swap as m.shared
done 12 0.1 m.shared m:swap:15: load i64 at 0x10000e8 (m:@ops+8) = 0x10180
done 13 0.1 m.shared m:swap:16: store i64 0x10180 at 0x10000e0 (m:@ops+0)
done 14 0.1 m.shared m:swap:17: leaves 0 at 0x3000000
ends 15 0.1 kernel script: ends: returned
done 16 0.2 kernel script: calls kernel:do_probe(0x0) enters kernel:do_probe as kernel
done 17 0.2 kernel kernel:do_probe:131: load i64 at 0x1000020 (kernel:@devs+0) = 0x10000e0
refused 18 0.2 kernel kernel:do_probe:132: calls slot probe at 0x10000e0(0x1000020): refused 5 kernel call 0x10180: principal($0) pre(copy(ref(device), $0)) post(if ((return < 0)) transfer(ref(device), $0)) | principal($1) pre(transfer(skb_caps($0))) post(if ((return < 0)) transfer(skb_caps($0)))
---- words examples/manual/bad_bend.case examples/manual/bad_bend.schedule
---- trace examples/manual/bad_bend.case
---- whole
status 1
done 0 0.0 kernel script: calls m:init() enters m:init as m.shared
done 1 0.0 m.shared m:init:6: calls kernel:dev_register(0x10000e0) enters kernel:dev_register as kernel
done 2 0.0 kernel kernel:dev_register:56: calls k.try_lock(0x1000000) = 1
done 3 0.0 kernel kernel:dev_register:60: load i64 at 0x1000010 (kernel:@ndevs+0) = 0x0
done 4 0.0 kernel kernel:dev_register:65: store i64 0x10000e0 at 0x1000020 (kernel:@devs+0)
done 5 0.0 kernel kernel:dev_register:67: store i64 0x0 at 0x1000028 (kernel:@devs+8)
done 6 0.0 kernel kernel:dev_register:69: store i64 0x1 at 0x1000010 (kernel:@ndevs+0)
done 7 0.0 kernel kernel:dev_register:73: store i32 0 at 0x1000000 (kernel:@lock+0)
done 8 0.0 kernel kernel:dev_register:74: leaves 0 at 0x3000000
done 9 0.0 m.shared m:init:7: leaves 0 at 0x3000000
ends 10 0.0 kernel script: ends: returned
done 11 0.1 kernel script: calls m:bend() enters m:bend as m.shared
done 12 0.1 m.shared m:bend:10: store i64 0x10100 at 0x10000e0 (m:@ops+0)
done 13 0.1 m.shared m:bend:11: leaves 0 at 0x3000000
ends 14 0.1 kernel script: ends: returned
done 15 0.2 kernel script: calls kernel:do_probe(0x0) enters kernel:do_probe as kernel
done 16 0.2 kernel kernel:do_probe:131: load i64 at 0x1000020 (kernel:@devs+0) = 0x10000e0
refused 17 0.2 kernel kernel:do_probe:132: calls slot probe at 0x10000e0(0x1000020): refused 6 m.shared call 0x10100 slot 0x10000e0
---- file examples/manual/bad_again.schedule
schedule 0*22
---- words examples/manual/bad_again.case examples/manual/bad_again.schedule
---- trace examples/manual/bad_again.case
---- whole
status 1
done 0 0.0 kernel script: calls m:init() enters m:init as m.shared
done 1 0.0 m.shared m:init:6: calls kernel:dev_register(0x10000e0) enters kernel:dev_register as kernel
done 2 0.0 kernel kernel:dev_register:56: calls k.try_lock(0x1000000) = 1
done 3 0.0 kernel kernel:dev_register:60: load i64 at 0x1000010 (kernel:@ndevs+0) = 0x0
done 4 0.0 kernel kernel:dev_register:65: store i64 0x10000e0 at 0x1000020 (kernel:@devs+0)
done 5 0.0 kernel kernel:dev_register:67: store i64 0x0 at 0x1000028 (kernel:@devs+8)
done 6 0.0 kernel kernel:dev_register:69: store i64 0x1 at 0x1000010 (kernel:@ndevs+0)
done 7 0.0 kernel kernel:dev_register:73: store i32 0 at 0x1000000 (kernel:@lock+0)
done 8 0.0 kernel kernel:dev_register:74: leaves 0 at 0x3000000
done 9 0.0 m.shared m:init:7: leaves 0 at 0x3000000
ends 10 0.0 kernel script: ends: returned
done 11 0.1 kernel script: calls m:again() enters m:again as m.shared
done 12 0.1 m.shared m:again:20: calls kernel:dev_zero(0x10000e0, 0x10) enters kernel:dev_zero as kernel
done 13 0.1 m.shared m:again:20: pre 0 of kernel:dev_zero from m.shared to kernel
done 14 0.1 kernel kernel:dev_zero:84: calls k.zero(0x10000e0, 0x10)
done 15 0.1 kernel kernel:dev_zero:85: leaves 0 at 0x3000000
done 16 0.1 m.shared m:again:21: store i64 0x10100 at 0x10000e0 (m:@ops+0)
done 17 0.1 m.shared m:again:22: leaves 0 at 0x3000000
ends 18 0.1 kernel script: ends: returned
done 19 0.2 kernel script: calls kernel:do_probe(0x0) enters kernel:do_probe as kernel
done 20 0.2 kernel kernel:do_probe:131: load i64 at 0x1000020 (kernel:@devs+0) = 0x10000e0
refused 21 0.2 kernel kernel:do_probe:132: calls slot probe at 0x10000e0(0x1000020): refused 6 m.shared call 0x10100 slot 0x10000e0
---- file examples/manual/bad_cold.schedule
schedule 0*14
---- words examples/manual/bad_cold.case examples/manual/bad_cold.schedule
---- trace examples/manual/bad_cold.case
---- whole
status 1
done 0 0.0 kernel script: calls m:cold() enters m:cold as m.shared
done 1 0.0 m.shared m:cold:31: calls kernel:dev_register(0x2000000) enters kernel:dev_register as kernel
done 2 0.0 kernel kernel:dev_register:56: calls k.try_lock(0x1000000) = 1
done 3 0.0 kernel kernel:dev_register:60: load i64 at 0x1000010 (kernel:@ndevs+0) = 0x0
done 4 0.0 kernel kernel:dev_register:65: store i64 0x2000000 at 0x1000020 (kernel:@devs+0)
done 5 0.0 kernel kernel:dev_register:67: store i64 0x0 at 0x1000028 (kernel:@devs+8)
done 6 0.0 kernel kernel:dev_register:69: store i64 0x1 at 0x1000010 (kernel:@ndevs+0)
done 7 0.0 kernel kernel:dev_register:73: store i32 0 at 0x1000000 (kernel:@lock+0)
done 8 0.0 kernel kernel:dev_register:74: leaves 0 at 0x3000000
done 9 0.0 m.shared m:cold:32: leaves 0 at 0x3000000
ends 10 0.0 kernel script: ends: returned
done 11 0.1 kernel script: calls kernel:do_probe(0x0) enters kernel:do_probe as kernel
done 12 0.1 kernel kernel:do_probe:131: load i64 at 0x1000020 (kernel:@devs+0) = 0x2000000
refused 13 0.1 kernel kernel:do_probe:132: calls slot probe at 0x2000000(0x1000020): refused 4 kernel call 0x0
---- file examples/manual/stack.schedule
schedule 0*8
---- words examples/manual/stack.case examples/manual/stack.schedule
---- trace examples/manual/stack.case
---- whole
status 1
done 0 0.0 kernel script: calls m:main() enters m:main as m.shared
done 1 0.0 m.shared m:main:4: alloca 8 at 0x3000000
done 2 0.0 m.shared m:main:5: calls kernel:dev_zero(0x3000000, 0x8) enters kernel:dev_zero as kernel
done 3 0.0 m.shared m:main:5: pre 0 of kernel:dev_zero from m.shared to kernel
done 4 0.0 kernel kernel:dev_zero:84: calls k.zero(0x3000000, 0x8)
done 5 0.0 kernel kernel:dev_zero:85: leaves 0 at 0x3000008
done 6 0.0 m.shared m:main:6: calls kernel:dev_wipe(0x3000000, 0x8) enters kernel:dev_wipe as kernel
refused 7 0.0 m.shared m:main:6: pre 0 of kernel:dev_wipe from m.shared to kernel: refused 7 m.shared write 0x3000000+8
---- file examples/manual/edge.schedule
schedule 0*13
---- words examples/manual/edge.case examples/manual/edge.schedule
---- trace examples/manual/edge.case
---- whole
status 1
done 0 0.0 kernel script: calls m:main(0x0, 0x0) enters m:main as m.shared
done 1 0.0 m.shared m:main:3: calls kernel:dev_zero(0x0, 0x0) enters kernel:dev_zero as kernel
done 2 0.0 m.shared m:main:3: pre 0 of kernel:dev_zero from m.shared to kernel
done 3 0.0 kernel kernel:dev_zero:84: calls k.zero(0x0, 0x0)
done 4 0.0 kernel kernel:dev_zero:85: leaves 0 at 0x3000000
done 5 0.0 m.shared m:main:4: leaves 0 at 0x3000000
ends 6 0.0 kernel script: ends: returned
done 7 0.1 kernel script: calls m:main(0x10ffff8, 0x10) enters m:main as m.shared
done 8 0.1 m.shared m:main:3: calls kernel:dev_zero(0x10ffff8, 0x10) enters kernel:dev_zero as kernel
refused 9 0.1 m.shared m:main:3: pre 0 of kernel:dev_zero from m.shared to kernel: refused 8 m.shared write 0x10ffff8+16
done 10 0.2 kernel script: calls m:main(0xfffffffffffffff8, 0x10) enters m:main as m.shared
done 11 0.2 m.shared m:main:3: calls kernel:dev_zero(0xfffffffffffffff8, 0x10) enters kernel:dev_zero as kernel
refused 12 0.2 m.shared m:main:3: pre 0 of kernel:dev_zero from m.shared to kernel: refused 8 m.shared write 0xfffffffffffffff8+16
---- file examples/manual/two.schedule
schedule 0*40
---- words examples/manual/two.case examples/manual/two.schedule
---- trace examples/manual/two.case
---- whole
status 1
done 0 0.0 kernel script: calls m:init() enters m:init as m.shared
done 1 0.0 m.shared m:init:10: calls kernel:dev_register(0x10000e0) enters kernel:dev_register as kernel
done 2 0.0 kernel kernel:dev_register:56: calls k.try_lock(0x1000000) = 1
done 3 0.0 kernel kernel:dev_register:60: load i64 at 0x1000010 (kernel:@ndevs+0) = 0x0
done 4 0.0 kernel kernel:dev_register:65: store i64 0x10000e0 at 0x1000020 (kernel:@devs+0)
done 5 0.0 kernel kernel:dev_register:67: store i64 0x0 at 0x1000028 (kernel:@devs+8)
done 6 0.0 kernel kernel:dev_register:69: store i64 0x1 at 0x1000010 (kernel:@ndevs+0)
done 7 0.0 kernel kernel:dev_register:73: store i32 0 at 0x1000000 (kernel:@lock+0)
done 8 0.0 kernel kernel:dev_register:74: leaves 0 at 0x3000000
done 9 0.0 m.shared m:init:11: calls kernel:dev_register(0x10000f0) enters kernel:dev_register as kernel
done 10 0.0 kernel kernel:dev_register:56: calls k.try_lock(0x1000000) = 1
done 11 0.0 kernel kernel:dev_register:60: load i64 at 0x1000010 (kernel:@ndevs+0) = 0x1
done 12 0.0 kernel kernel:dev_register:65: store i64 0x10000f0 at 0x1000038 (kernel:@devs+24)
done 13 0.0 kernel kernel:dev_register:67: store i64 0x1 at 0x1000040 (kernel:@devs+32)
done 14 0.0 kernel kernel:dev_register:69: store i64 0x2 at 0x1000010 (kernel:@ndevs+0)
done 15 0.0 kernel kernel:dev_register:73: store i32 0 at 0x1000000 (kernel:@lock+0)
done 16 0.0 kernel kernel:dev_register:74: leaves 0 at 0x3000000
done 17 0.0 m.shared m:init:12: leaves 0 at 0x3000000
ends 18 0.0 kernel script: ends: returned
done 19 0.1 kernel script: calls kernel:do_probe(0x1) enters kernel:do_probe as kernel
done 20 0.1 kernel kernel:do_probe:131: load i64 at 0x1000038 (kernel:@devs+24) = 0x10000f0
done 21 0.1 kernel kernel:do_probe:132: calls slot probe at 0x10000f0(0x1000038) enters m:probe_b as m[0x1000038]
done 22 0.1 kernel kernel:do_probe:132: pre 0 of m:probe_b from kernel to m[0x1000038]
done 23 0.1 m[0x1000038] m:probe_b:24: calls kernel:kmalloc(0x8) enters kernel:kmalloc as kernel
done 24 0.1 kernel kernel:kmalloc:20: calls k.alloc(0x18) = 0x2000000
done 25 0.1 kernel kernel:kmalloc:24: store i64 0x8 at 0x2000000 (event 24+0)
done 26 0.1 kernel kernel:kmalloc:26: leaves 0 at 0x3000000
done 27 0.1 kernel m:probe_b:24: post 0 of kernel:kmalloc from kernel to m[0x1000038]
done 28 0.1 m[0x1000038] m:probe_b:25: store i64 0x2000010 at 0x1000100 (m:@box+0)
done 29 0.1 m[0x1000038] m:probe_b:26: load i64 at 0x1000110 (m:@flag+0) = 0x0
done 30 0.1 m[0x1000038] m:probe_b:33: leaves 0 at 0x3000000
done 31 0.1 m[0x1000038] kernel:do_probe:132: post 0 of m:probe_b from m[0x1000038] to kernel
done 32 0.1 kernel kernel:do_probe:133: leaves 0 at 0x3000000
ends 33 0.1 kernel script: ends: returned 0
done 34 0.2 kernel script: calls kernel:do_probe(0x0) enters kernel:do_probe as kernel
done 35 0.2 kernel kernel:do_probe:131: load i64 at 0x1000020 (kernel:@devs+0) = 0x10000e0
done 36 0.2 kernel kernel:do_probe:132: calls slot probe at 0x10000e0(0x1000020) enters m:probe_a as m[0x1000020]
done 37 0.2 kernel kernel:do_probe:132: pre 0 of m:probe_a from kernel to m[0x1000020]
done 38 0.2 m[0x1000020] m:probe_a:19: load i64 at 0x1000100 (m:@box+0) = 0x2000010
refused 39 0.2 m[0x1000020] m:probe_a:20: store i64 0x9 at 0x2000010 (event 24+16): refused 1 m[0x1000020] write 0x2000010+8
---- file examples/manual/alias.schedule
schedule 0*49
---- words examples/manual/alias.case examples/manual/alias.schedule
---- trace examples/manual/alias.case
---- whole
status 0
done 0 0.0 kernel script: calls m:init() enters m:init as m.shared
done 1 0.0 m.shared m:init:10: calls kernel:dev_register(0x10000e0) enters kernel:dev_register as kernel
done 2 0.0 kernel kernel:dev_register:56: calls k.try_lock(0x1000000) = 1
done 3 0.0 kernel kernel:dev_register:60: load i64 at 0x1000010 (kernel:@ndevs+0) = 0x0
done 4 0.0 kernel kernel:dev_register:65: store i64 0x10000e0 at 0x1000020 (kernel:@devs+0)
done 5 0.0 kernel kernel:dev_register:67: store i64 0x0 at 0x1000028 (kernel:@devs+8)
done 6 0.0 kernel kernel:dev_register:69: store i64 0x1 at 0x1000010 (kernel:@ndevs+0)
done 7 0.0 kernel kernel:dev_register:73: store i32 0 at 0x1000000 (kernel:@lock+0)
done 8 0.0 kernel kernel:dev_register:74: leaves 0 at 0x3000000
done 9 0.0 m.shared m:init:11: calls kernel:dev_register(0x10000f0) enters kernel:dev_register as kernel
done 10 0.0 kernel kernel:dev_register:56: calls k.try_lock(0x1000000) = 1
done 11 0.0 kernel kernel:dev_register:60: load i64 at 0x1000010 (kernel:@ndevs+0) = 0x1
done 12 0.0 kernel kernel:dev_register:65: store i64 0x10000f0 at 0x1000038 (kernel:@devs+24)
done 13 0.0 kernel kernel:dev_register:67: store i64 0x1 at 0x1000040 (kernel:@devs+32)
done 14 0.0 kernel kernel:dev_register:69: store i64 0x2 at 0x1000010 (kernel:@ndevs+0)
done 15 0.0 kernel kernel:dev_register:73: store i32 0 at 0x1000000 (kernel:@lock+0)
done 16 0.0 kernel kernel:dev_register:74: leaves 0 at 0x3000000
done 17 0.0 m.shared m:init:12: leaves 0 at 0x3000000
ends 18 0.0 kernel script: ends: returned
done 19 0.1 kernel script: calls m:mode(0x1) enters m:mode as m.shared
done 20 0.1 m.shared m:mode:15: store i64 0x1 at 0x1000110 (m:@flag+0)
done 21 0.1 m.shared m:mode:16: leaves 0 at 0x3000000
ends 22 0.1 kernel script: ends: returned
done 23 0.2 kernel script: calls kernel:do_probe(0x1) enters kernel:do_probe as kernel
done 24 0.2 kernel kernel:do_probe:131: load i64 at 0x1000038 (kernel:@devs+24) = 0x10000f0
done 25 0.2 kernel kernel:do_probe:132: calls slot probe at 0x10000f0(0x1000038) enters m:probe_b as m[0x1000038]
done 26 0.2 kernel kernel:do_probe:132: pre 0 of m:probe_b from kernel to m[0x1000038]
done 27 0.2 m[0x1000038] m:probe_b:24: calls kernel:kmalloc(0x8) enters kernel:kmalloc as kernel
done 28 0.2 kernel kernel:kmalloc:20: calls k.alloc(0x18) = 0x2000000
done 29 0.2 kernel kernel:kmalloc:24: store i64 0x8 at 0x2000000 (event 28+0)
done 30 0.2 kernel kernel:kmalloc:26: leaves 0 at 0x3000000
done 31 0.2 kernel m:probe_b:24: post 0 of kernel:kmalloc from kernel to m[0x1000038]
done 32 0.2 m[0x1000038] m:probe_b:25: store i64 0x2000010 at 0x1000100 (m:@box+0)
done 33 0.2 m[0x1000038] m:probe_b:26: load i64 at 0x1000110 (m:@flag+0) = 0x1
done 34 0.2 m[0x1000038] m:probe_b:30: calls lxfi_princ_alias(0x1000038, 0x1000020)
done 35 0.2 m[0x1000038] m:probe_b:33: leaves 0 at 0x3000000
done 36 0.2 m[0x1000038] kernel:do_probe:132: post 0 of m:probe_b from m[0x1000038] to kernel
done 37 0.2 kernel kernel:do_probe:133: leaves 0 at 0x3000000
ends 38 0.2 kernel script: ends: returned 0
done 39 0.3 kernel script: calls kernel:do_probe(0x0) enters kernel:do_probe as kernel
done 40 0.3 kernel kernel:do_probe:131: load i64 at 0x1000020 (kernel:@devs+0) = 0x10000e0
done 41 0.3 kernel kernel:do_probe:132: calls slot probe at 0x10000e0(0x1000020) enters m:probe_a as m[0x1000038]
done 42 0.3 kernel kernel:do_probe:132: pre 0 of m:probe_a from kernel to m[0x1000038]
done 43 0.3 m[0x1000038] m:probe_a:19: load i64 at 0x1000100 (m:@box+0) = 0x2000010
done 44 0.3 m[0x1000038] m:probe_a:20: store i64 0x9 at 0x2000010 (event 28+16)
done 45 0.3 m[0x1000038] m:probe_a:21: leaves 0 at 0x3000000
done 46 0.3 m[0x1000038] kernel:do_probe:132: post 0 of m:probe_a from m[0x1000038] to kernel
done 47 0.3 kernel kernel:do_probe:133: leaves 0 at 0x3000000
ends 48 0.3 kernel script: ends: returned 0
---- file examples/manual/alias_taken.schedule
schedule 0*41
---- words examples/manual/alias_taken.case examples/manual/alias_taken.schedule
---- trace examples/manual/alias_taken.case
---- whole
status 1
done 0 0.0 kernel script: calls m:init() enters m:init as m.shared
done 1 0.0 m.shared m:init:10: calls kernel:dev_register(0x10000e0) enters kernel:dev_register as kernel
done 2 0.0 kernel kernel:dev_register:56: calls k.try_lock(0x1000000) = 1
done 3 0.0 kernel kernel:dev_register:60: load i64 at 0x1000010 (kernel:@ndevs+0) = 0x0
done 4 0.0 kernel kernel:dev_register:65: store i64 0x10000e0 at 0x1000020 (kernel:@devs+0)
done 5 0.0 kernel kernel:dev_register:67: store i64 0x0 at 0x1000028 (kernel:@devs+8)
done 6 0.0 kernel kernel:dev_register:69: store i64 0x1 at 0x1000010 (kernel:@ndevs+0)
done 7 0.0 kernel kernel:dev_register:73: store i32 0 at 0x1000000 (kernel:@lock+0)
done 8 0.0 kernel kernel:dev_register:74: leaves 0 at 0x3000000
done 9 0.0 m.shared m:init:11: calls kernel:dev_register(0x10000f0) enters kernel:dev_register as kernel
done 10 0.0 kernel kernel:dev_register:56: calls k.try_lock(0x1000000) = 1
done 11 0.0 kernel kernel:dev_register:60: load i64 at 0x1000010 (kernel:@ndevs+0) = 0x1
done 12 0.0 kernel kernel:dev_register:65: store i64 0x10000f0 at 0x1000038 (kernel:@devs+24)
done 13 0.0 kernel kernel:dev_register:67: store i64 0x1 at 0x1000040 (kernel:@devs+32)
done 14 0.0 kernel kernel:dev_register:69: store i64 0x2 at 0x1000010 (kernel:@ndevs+0)
done 15 0.0 kernel kernel:dev_register:73: store i32 0 at 0x1000000 (kernel:@lock+0)
done 16 0.0 kernel kernel:dev_register:74: leaves 0 at 0x3000000
done 17 0.0 m.shared m:init:12: leaves 0 at 0x3000000
ends 18 0.0 kernel script: ends: returned
done 19 0.1 kernel script: calls m:mode(0x1) enters m:mode as m.shared
done 20 0.1 m.shared m:mode:15: store i64 0x1 at 0x1000110 (m:@flag+0)
done 21 0.1 m.shared m:mode:16: leaves 0 at 0x3000000
ends 22 0.1 kernel script: ends: returned
done 23 0.2 kernel script: calls kernel:do_probe(0x0) enters kernel:do_probe as kernel
done 24 0.2 kernel kernel:do_probe:131: load i64 at 0x1000020 (kernel:@devs+0) = 0x10000e0
done 25 0.2 kernel kernel:do_probe:132: calls slot probe at 0x10000e0(0x1000020) enters m:probe_a as m[0x1000020]
done 26 0.2 kernel kernel:do_probe:132: pre 0 of m:probe_a from kernel to m[0x1000020]
done 27 0.2 m[0x1000020] m:probe_a:19: load i64 at 0x1000100 (m:@box+0) = 0x0
refused 28 0.2 m[0x1000020] m:probe_a:20: store i64 0x9 at 0x0: refused 1 m[0x1000020] write 0x0+8
done 29 0.3 kernel script: calls kernel:do_probe(0x1) enters kernel:do_probe as kernel
done 30 0.3 kernel kernel:do_probe:131: load i64 at 0x1000038 (kernel:@devs+24) = 0x10000f0
done 31 0.3 kernel kernel:do_probe:132: calls slot probe at 0x10000f0(0x1000038) enters m:probe_b as m[0x1000038]
done 32 0.3 kernel kernel:do_probe:132: pre 0 of m:probe_b from kernel to m[0x1000038]
done 33 0.3 m[0x1000038] m:probe_b:24: calls kernel:kmalloc(0x8) enters kernel:kmalloc as kernel
done 34 0.3 kernel kernel:kmalloc:20: calls k.alloc(0x18) = 0x2000000
done 35 0.3 kernel kernel:kmalloc:24: store i64 0x8 at 0x2000000 (event 34+0)
done 36 0.3 kernel kernel:kmalloc:26: leaves 0 at 0x3000000
done 37 0.3 kernel m:probe_b:24: post 0 of kernel:kmalloc from kernel to m[0x1000038]
done 38 0.3 m[0x1000038] m:probe_b:25: store i64 0x2000010 at 0x1000100 (m:@box+0)
done 39 0.3 m[0x1000038] m:probe_b:26: load i64 at 0x1000110 (m:@flag+0) = 0x1
refused 40 0.3 m[0x1000038] m:probe_b:30: calls lxfi_princ_alias(0x1000038, 0x1000020): refused 9 m[0x1000038] alias 0x1000038 0x1000020
"#
}
