//! What the manual teaches of loans, starts and what is let through, event by event.
//! Written by `tools/example-texts` from `examples/` and `docs/MANUAL.md`.

/// What the manual teaches of loans, starts and what is let through, event by event: what is run, over which files beside those of `file_table`, and what it writes.
pub fn lesson_traces_table() -> &'static str {
    r#"---- file examples/manual/lend.schedule
schedule 0*39
---- words examples/manual/lend.case examples/manual/lend.schedule
---- trace examples/manual/lend.case
---- whole
status 1
done 0 0.0 kernel script: calls m:init() enters m:init as m.shared
done 1 0.0 m.shared m:init:6: calls kernel:dev_register(0x10000e0) enters kernel:dev_register as kernel
done 2 0.0 kernel kernel:dev_register:56: calls k.try_lock(0x1000000) = 1
done 3 0.0 kernel kernel:dev_register:60: load i64 at 0x1000010 (kernel:@ndevs+0) = 0x0
done 4 0.0 kernel kernel:dev_register:65: store i64 0x10000e0 at 0x1000020 (kernel:@devs+0)
done 5 0.0 kernel kernel:dev_register:67: store i64 0x0 at 0x1000028 (kernel:@devs+8)
done 6 0.0 kernel kernel:dev_register:69: store i64 0x1 at 0x1000010 (kernel:@ndevs+0)
done 7 0.0 kernel kernel:dev_register:73: store i32 0 at 0x1000000 (kernel:@lock+0)
done 8 0.0 kernel kernel:dev_register:74: leaves 0 at 0x3000000
done 9 0.0 m.shared m:init:7: leaves 0 at 0x3000000
ends 10 0.0 kernel script: ends: returned
done 11 0.1 kernel script: calls kernel:skb_new(0x8) enters kernel:skb_new as kernel
done 12 0.1 kernel kernel:kmalloc:20: calls k.alloc(0x28) = 0x2000000
done 13 0.1 kernel kernel:kmalloc:24: store i64 0x18 at 0x2000000 (event 12+0)
done 14 0.1 kernel kernel:kmalloc:26: leaves 0 at 0x3000000
done 15 0.1 kernel kernel:kmalloc:20: calls k.alloc(0x18) = 0x2000030
done 16 0.1 kernel kernel:kmalloc:24: store i64 0x8 at 0x2000030 (event 15+0)
done 17 0.1 kernel kernel:kmalloc:26: leaves 0 at 0x3000000
done 18 0.1 kernel kernel:skb_new:102: store i64 0x2000040 at 0x2000010 (event 12+16)
done 19 0.1 kernel kernel:skb_new:104: store i64 0x8 at 0x2000018 (event 12+24)
done 20 0.1 kernel kernel:skb_new:105: leaves 0 at 0x3000000
ends 21 0.1 kernel script: ends: returned 0x2000010
done 22 0.2 kernel script: calls kernel:do_xmit(0x0, 0x2000010) enters kernel:do_xmit as kernel
done 23 0.2 kernel kernel:do_xmit:138: load i64 at 0x1000020 (kernel:@devs+0) = 0x10000e0
done 24 0.2 kernel kernel:do_xmit:140: calls slot xmit at 0x10000e8(0x2000010, 0x1000020) enters m:xmit as m[0x1000020]
done 25 0.2 kernel kernel:do_xmit:140: pre 0 of m:xmit from kernel to m[0x1000020]
done 26 0.2 m[0x1000020] m:xmit:15: load i64 at 0x2000010 (event 12+16) = 0x2000040
done 27 0.2 m[0x1000020] m:xmit:16: store i64 0x5 at 0x2000040 (event 15+16)
done 28 0.2 m[0x1000020] m:xmit:17: store i64 0x2000040 at 0x10000f0 (m:@keep+0)
done 29 0.2 m[0x1000020] m:xmit:18: leaves 0 at 0x3000000
done 30 0.2 m[0x1000020] kernel:do_xmit:140: post 0 of m:xmit from m[0x1000020] to kernel
done 31 0.2 kernel kernel:do_xmit:141: leaves 0 at 0x3000000
ends 32 0.2 kernel script: ends: returned 0
done 33 0.3 kernel script: calls kernel:do_probe(0x0) enters kernel:do_probe as kernel
done 34 0.3 kernel kernel:do_probe:131: load i64 at 0x1000020 (kernel:@devs+0) = 0x10000e0
done 35 0.3 kernel kernel:do_probe:132: calls slot probe at 0x10000e0(0x1000020) enters m:probe as m[0x1000020]
done 36 0.3 kernel kernel:do_probe:132: pre 0 of m:probe from kernel to m[0x1000020]
done 37 0.3 m[0x1000020] m:probe:10: load i64 at 0x10000f0 (m:@keep+0) = 0x2000040
refused 38 0.3 m[0x1000020] m:probe:11: store i64 0x6 at 0x2000040 (event 15+16): refused 1 m[0x1000020] write 0x2000040+8
---- file examples/manual/lend_on.schedule
schedule 0*28
---- words examples/manual/lend_on.case examples/manual/lend_on.schedule
---- trace examples/manual/lend_on.case
---- whole
status 1
done 0 0.0 kernel script: calls m:init() enters m:init as m.shared
done 1 0.0 m.shared m:init:6: calls kernel:dev_register(0x10000e0) enters kernel:dev_register as kernel
done 2 0.0 kernel kernel:dev_register:56: calls k.try_lock(0x1000000) = 1
done 3 0.0 kernel kernel:dev_register:60: load i64 at 0x1000010 (kernel:@ndevs+0) = 0x0
done 4 0.0 kernel kernel:dev_register:65: store i64 0x10000e0 at 0x1000020 (kernel:@devs+0)
done 5 0.0 kernel kernel:dev_register:67: store i64 0x0 at 0x1000028 (kernel:@devs+8)
done 6 0.0 kernel kernel:dev_register:69: store i64 0x1 at 0x1000010 (kernel:@ndevs+0)
done 7 0.0 kernel kernel:dev_register:73: store i32 0 at 0x1000000 (kernel:@lock+0)
done 8 0.0 kernel kernel:dev_register:74: leaves 0 at 0x3000000
done 9 0.0 m.shared m:init:7: leaves 0 at 0x3000000
ends 10 0.0 kernel script: ends: returned
done 11 0.1 kernel script: calls kernel:skb_new(0x8) enters kernel:skb_new as kernel
done 12 0.1 kernel kernel:kmalloc:20: calls k.alloc(0x28) = 0x2000000
done 13 0.1 kernel kernel:kmalloc:24: store i64 0x18 at 0x2000000 (event 12+0)
done 14 0.1 kernel kernel:kmalloc:26: leaves 0 at 0x3000000
done 15 0.1 kernel kernel:kmalloc:20: calls k.alloc(0x18) = 0x2000030
done 16 0.1 kernel kernel:kmalloc:24: store i64 0x8 at 0x2000030 (event 15+0)
done 17 0.1 kernel kernel:kmalloc:26: leaves 0 at 0x3000000
done 18 0.1 kernel kernel:skb_new:102: store i64 0x2000040 at 0x2000010 (event 12+16)
done 19 0.1 kernel kernel:skb_new:104: store i64 0x8 at 0x2000018 (event 12+24)
done 20 0.1 kernel kernel:skb_new:105: leaves 0 at 0x3000000
ends 21 0.1 kernel script: ends: returned 0x2000010
done 22 0.2 kernel script: calls kernel:do_xmit(0x0, 0x2000010) enters kernel:do_xmit as kernel
done 23 0.2 kernel kernel:do_xmit:138: load i64 at 0x1000020 (kernel:@devs+0) = 0x10000e0
done 24 0.2 kernel kernel:do_xmit:140: calls slot xmit at 0x10000e8(0x2000010, 0x1000020) enters m:xmit as m[0x1000020]
done 25 0.2 kernel kernel:do_xmit:140: pre 0 of m:xmit from kernel to m[0x1000020]
done 26 0.2 m[0x1000020] m:xmit:13: calls kernel:netif_rx(0x2000010) enters kernel:netif_rx as kernel
refused 27 0.2 m[0x1000020] m:xmit:13: pre 0 of kernel:netif_rx from m[0x1000020] to kernel: refused 10 m[0x1000020] write 0x2000010+24
---- words examples/manual/start.case examples/manual/start.schedule
---- trace examples/manual/start.case
---- whole
status 0
done 0 1.0 kernel script: calls kernel:wait() enters kernel:wait as kernel
done 1 1.0 kernel kernel:wait:19: load i32 at 0x1000010 (kernel:@shut+0) = 1
done 2 1.0 kernel kernel:wait:19: load i32 at 0x1000010 (kernel:@shut+0) = 1
done 3 1.0 kernel kernel:wait:19: load i32 at 0x1000010 (kernel:@shut+0) = 1
done 4 0.0 kernel script: calls t:start() enters t:start as t.shared
done 5 0.0 t.shared t:start:13: load i64 at 0x1000020 (t:@timer+0) = 0x100d0
done 6 0.0 t.shared t:start:14: calls kernel:timer_set(0x100d0) enters kernel:timer_set as kernel
done 7 0.0 t.shared t:start:14: pre 0 of kernel:timer_set from t.shared to kernel
done 8 0.0 kernel kernel:timer_set:5: store i64 0x100d0 at 0x1000000 (kernel:@timer+0)
done 9 0.0 kernel kernel:timer_set:6: leaves 0 at 0x3000000
done 10 0.0 t.shared t:start:15: leaves 0 at 0x3000000
ends 11 0.0 kernel script: ends: returned
done 12 0.1 kernel script: calls kernel:open() enters kernel:open as kernel
done 13 0.1 kernel kernel:open:13: store i32 0 at 0x1000010 (kernel:@shut+0)
done 14 0.1 kernel kernel:open:14: leaves 0 at 0x3000000
ends 15 0.1 kernel script: ends: returned
done 16 1.0 kernel kernel:wait:19: load i32 at 0x1000010 (kernel:@shut+0) = 0
done 17 1.0 kernel kernel:wait:23: leaves 0 at 0x3010000
ends 18 1.0 kernel script: ends: returned
done 19 1.1 kernel script: calls kernel:do_tick(0x7) enters kernel:do_tick as kernel
done 20 1.1 kernel kernel:do_tick:9: calls slot tick at 0x1000000(0x7) enters t:on_tick as t.shared
done 21 1.1 t.shared t:on_tick:34: alloca 8 at 0x3010000
done 22 1.1 t.shared t:on_tick:35: store i64 0x7 at 0x3010000 (event 21+0)
done 23 1.1 t.shared t:on_tick:36: load i64 at 0x3010000 (event 21+0) = 0x7
done 24 1.1 t.shared t:on_tick:37: store i64 0x7 at 0x1000030 (t:@last+0)
done 25 1.1 t.shared t:on_tick:38: leaves 8 at 0x3010000
done 26 1.1 kernel kernel:do_tick:10: leaves 0 at 0x3010000
ends 27 1.1 kernel script: ends: returned
done 28 1.2 kernel script: calls t:read_last() enters t:read_last as t.shared
done 29 1.2 t.shared t:read_last:28: load i64 at 0x1000030 (t:@last+0) = 0x7
done 30 1.2 t.shared t:read_last:29: leaves 0 at 0x3010000
ends 31 1.2 kernel script: ends: returned 7
---- words examples/manual/start_early.case examples/manual/start_early.schedule
---- trace examples/manual/start_early.case
---- whole
status 1
done 0 1.0 kernel script: calls kernel:do_tick(0x7) enters kernel:do_tick as kernel
refused 1 1.0 kernel kernel:do_tick:9: calls slot tick at 0x1000000(0x7): refused 4 kernel call 0x0
done 2 1.1 kernel script: calls t:read_last() enters t:read_last as t.shared
done 3 1.1 t.shared t:read_last:28: load i64 at 0x1000030 (t:@last+0) = 0x0
done 4 1.1 t.shared t:read_last:29: leaves 0 at 0x3010000
ends 5 1.1 kernel script: ends: returned 0
done 6 0.0 kernel script: calls t:start() enters t:start as t.shared
done 7 0.0 t.shared t:start:13: load i64 at 0x1000020 (t:@timer+0) = 0x100d0
done 8 0.0 t.shared t:start:14: calls kernel:timer_set(0x100d0) enters kernel:timer_set as kernel
done 9 0.0 t.shared t:start:14: pre 0 of kernel:timer_set from t.shared to kernel
done 10 0.0 kernel kernel:timer_set:5: store i64 0x100d0 at 0x1000000 (kernel:@timer+0)
done 11 0.0 kernel kernel:timer_set:6: leaves 0 at 0x3000000
done 12 0.0 t.shared t:start:15: leaves 0 at 0x3000000
ends 13 0.0 kernel script: ends: returned
---- file examples/manual/held.schedule
schedule 0*42
---- words examples/manual/held.case examples/manual/held.schedule
---- trace examples/manual/held.case
---- whole
status 1
done 0 0.0 kernel script: calls m:start() enters m:start as m.shared
done 1 0.0 m.shared m:start:6: load i64 at 0x1000040 (m:@table+0) = 0x100d0
done 2 0.0 m.shared m:start:7: calls kernel:timer_set(0x100d0) enters kernel:timer_set as kernel
done 3 0.0 m.shared m:start:7: pre 0 of kernel:timer_set from m.shared to kernel
done 4 0.0 kernel kernel:timer_set:8: store i64 0x100d0 at 0x1000000 (kernel:@timer+0)
done 5 0.0 kernel kernel:timer_set:9: leaves 0 at 0x3000000
done 6 0.0 m.shared m:start:8: leaves 0 at 0x3000000
ends 7 0.0 kernel script: ends: returned
done 8 0.1 kernel script: calls kernel:locked_tick(0x7) enters kernel:locked_tick as kernel
done 9 0.1 kernel kernel:locked_tick:12: calls k.try_lock(0x1000010) = 1
done 10 0.1 kernel kernel:locked_tick:16: calls slot tick at 0x1000000(0x7) enters m:on_tick as m.shared
refused 11 0.1 m.shared m:on_tick:11: store i64 0x7 at 0x1000050 (m:@last+0): refused 1 m.shared write 0x1000050+8
done 12 0.2 kernel script: calls kernel:locked_tick(0x8) enters kernel:locked_tick as kernel
done 13 0.2 kernel kernel:locked_tick:12: calls k.try_lock(0x1000010) = 0
done 14 0.2 kernel kernel:locked_tick:20: leaves 0 at 0x3000000
ends 15 0.2 kernel script: ends: returned -16
done 16 0.3 kernel script: calls kernel:counted_tick(0x9) enters kernel:counted_tick as kernel
done 17 0.3 kernel kernel:counted_tick:23: load i64 at 0x1000020 (kernel:@inside+0) = 0x0
done 18 0.3 kernel kernel:counted_tick:25: store i64 0x1 at 0x1000020 (kernel:@inside+0)
done 19 0.3 kernel kernel:counted_tick:26: calls slot tick at 0x1000000(0x9) enters m:on_tick as m.shared
refused 20 0.3 m.shared m:on_tick:11: store i64 0x9 at 0x1000050 (m:@last+0): refused 1 m.shared write 0x1000050+8
done 21 0.4 kernel script: calls kernel:count() enters kernel:count as kernel
done 22 0.4 kernel kernel:count:43: load i64 at 0x1000020 (kernel:@inside+0) = 0x1
done 23 0.4 kernel kernel:count:44: leaves 0 at 0x3000000
ends 24 0.4 kernel script: ends: returned 1
done 25 0.5 kernel script: calls kernel:mend() enters kernel:mend as kernel
done 26 0.5 kernel kernel:mend:47: store i32 0 at 0x1000010 (kernel:@lock+0)
done 27 0.5 kernel kernel:mend:48: store i64 0x0 at 0x1000020 (kernel:@inside+0)
done 28 0.5 kernel kernel:mend:49: leaves 0 at 0x3000000
ends 29 0.5 kernel script: ends: returned
done 30 0.6 kernel script: calls kernel:careful_tick(0xa) enters kernel:careful_tick as kernel
done 31 0.6 kernel kernel:careful_tick:31: calls k.try_lock(0x1000010) = 1
done 32 0.6 kernel kernel:careful_tick:35: store i64 0xa at 0x1000030 (kernel:@asked+0)
done 33 0.6 kernel kernel:careful_tick:36: store i32 0 at 0x1000010 (kernel:@lock+0)
done 34 0.6 kernel kernel:careful_tick:37: calls slot tick at 0x1000000(0xa) enters m:on_tick as m.shared
refused 35 0.6 m.shared m:on_tick:11: store i64 0xa at 0x1000050 (m:@last+0): refused 1 m.shared write 0x1000050+8
done 36 0.7 kernel script: calls kernel:careful_tick(0xb) enters kernel:careful_tick as kernel
done 37 0.7 kernel kernel:careful_tick:31: calls k.try_lock(0x1000010) = 1
done 38 0.7 kernel kernel:careful_tick:35: store i64 0xb at 0x1000030 (kernel:@asked+0)
done 39 0.7 kernel kernel:careful_tick:36: store i32 0 at 0x1000010 (kernel:@lock+0)
done 40 0.7 kernel kernel:careful_tick:37: calls slot tick at 0x1000000(0xb) enters m:on_tick as m.shared
refused 41 0.7 m.shared m:on_tick:11: store i64 0xb at 0x1000050 (m:@last+0): refused 1 m.shared write 0x1000050+8
---- file examples/manual/uncaught.schedule
schedule 0*29
---- words examples/manual/uncaught.case examples/manual/uncaught.schedule
---- trace examples/manual/uncaught.case
---- whole
status 0
done 0 0.0 kernel script: calls m:inside() enters m:inside as m.shared
done 1 0.0 m.shared m:inside:7: store i8 9 at 0x1000018 (m:@record+8)
done 2 0.0 m.shared m:inside:9: load i64 at 0x1000018 (m:@record+8) = 0x9
done 3 0.0 m.shared m:inside:10: leaves 0 at 0x3000000
ends 4 0.0 kernel script: ends: returned 9
done 5 0.1 kernel script: calls m:neighbour() enters m:neighbour as m.shared
done 6 0.1 m.shared m:neighbour:13: calls kernel:get(0x10) enters kernel:get as kernel
done 7 0.1 kernel kernel:get:4: calls k.alloc(0x10) = 0x2000000
done 8 0.1 kernel kernel:get:5: leaves 0 at 0x3000000
done 9 0.1 kernel m:neighbour:13: post 0 of kernel:get from kernel to m.shared
done 10 0.1 m.shared m:neighbour:14: calls kernel:get(0x10) enters kernel:get as kernel
done 11 0.1 kernel kernel:get:4: calls k.alloc(0x10) = 0x2000010
done 12 0.1 kernel kernel:get:5: leaves 0 at 0x3000000
done 13 0.1 kernel m:neighbour:14: post 0 of kernel:get from kernel to m.shared
done 14 0.1 m.shared m:neighbour:16: store i64 0x5 at 0x2000010 (event 11+0)
done 15 0.1 m.shared m:neighbour:17: load i64 at 0x2000010 (event 11+0) = 0x5
done 16 0.1 m.shared m:neighbour:18: leaves 0 at 0x3000000
ends 17 0.1 kernel script: ends: returned 5
done 18 0.2 kernel script: calls m:look() enters m:look as m.shared
done 19 0.2 m.shared m:look:21: load i64 at 0x1000000 (kernel:@secret+0) = 0x2a
done 20 0.2 m.shared m:look:22: leaves 0 at 0x3000000
ends 21 0.2 kernel script: ends: returned 42
done 22 0.3 kernel script: calls m:through() enters m:through as m.shared
done 23 0.3 m.shared m:through:25: calls kernel:fill(0x1000000, 0x7) enters kernel:fill as kernel
done 24 0.3 kernel kernel:fill:8: store i64 0x7 at 0x1000000 (kernel:@secret+0)
done 25 0.3 kernel kernel:fill:9: leaves 0 at 0x3000000
done 26 0.3 m.shared m:through:26: load i64 at 0x1000000 (kernel:@secret+0) = 0x7
done 27 0.3 m.shared m:through:27: leaves 0 at 0x3000000
ends 28 0.3 kernel script: ends: returned 7
---- file examples/manual/caught.schedule
schedule 0*25
---- words examples/manual/caught.case examples/manual/caught.schedule
---- trace examples/manual/caught.case
---- whole
status 1
done 0 0.0 kernel script: calls m:inside() enters m:inside as m.shared
done 1 0.0 m.shared m:inside:7: store i8 9 at 0x1000018 (m:@record+8)
done 2 0.0 m.shared m:inside:9: load i64 at 0x1000018 (m:@record+8) = 0x9
done 3 0.0 m.shared m:inside:10: leaves 0 at 0x3000000
ends 4 0.0 kernel script: ends: returned 9
done 5 0.1 kernel script: calls m:neighbour() enters m:neighbour as m.shared
done 6 0.1 m.shared m:neighbour:13: calls kernel:get(0x10) enters kernel:get as kernel
done 7 0.1 kernel kernel:get:4: calls k.alloc(0x10) = 0x2000000
done 8 0.1 kernel kernel:get:5: leaves 0 at 0x3000000
done 9 0.1 kernel m:neighbour:13: post 0 of kernel:get from kernel to m.shared
done 10 0.1 m.shared m:neighbour:14: calls kernel:get(0x10) enters kernel:get as kernel
done 11 0.1 kernel kernel:get:4: calls k.alloc(0x10) = 0x2000010
done 12 0.1 kernel kernel:get:5: leaves 0 at 0x3000000
done 13 0.1 kernel m:neighbour:14: post 0 of kernel:get from kernel to m.shared
done 14 0.1 m.shared m:neighbour:16: store i64 0x5 at 0x2000010 (event 11+0)
done 15 0.1 m.shared m:neighbour:17: load i64 at 0x2000010 (event 11+0) = 0x5
done 16 0.1 m.shared m:neighbour:18: leaves 0 at 0x3000000
ends 17 0.1 kernel script: ends: returned 5
done 18 0.2 kernel script: calls m:look() enters m:look as m.shared
done 19 0.2 m.shared m:look:21: load i64 at 0x1000000 (kernel:@secret+0) = 0x2a
done 20 0.2 m.shared m:look:22: leaves 0 at 0x3000000
ends 21 0.2 kernel script: ends: returned 42
done 22 0.3 kernel script: calls m:through() enters m:through as m.shared
done 23 0.3 m.shared m:through:25: calls kernel:fill(0x1000000, 0x7) enters kernel:fill as kernel
refused 24 0.3 m.shared m:through:25: pre 0 of kernel:fill from m.shared to kernel: refused 1 m.shared write 0x1000000+8
---- file examples/manual/misspelt.schedule
schedule 0*10
---- words examples/manual/misspelt.case examples/manual/misspelt.schedule
---- trace examples/manual/misspelt.case
---- whole
status 1
done 0 0.0 kernel script: calls t:start() enters t:start as t.shared
done 1 0.0 t.shared t:start:13: load i64 at 0x1000010 (t:@timer+0) = 0x100b0
done 2 0.0 t.shared t:start:14: calls kernel:timer_set(0x100b0) enters kernel:timer_set as kernel
done 3 0.0 t.shared t:start:14: pre 0 of kernel:timer_set from t.shared to kernel
done 4 0.0 kernel kernel:timer_set:4: store i64 0x100b0 at 0x1000000 (kernel:@timer+0)
done 5 0.0 kernel kernel:timer_set:5: leaves 0 at 0x3000000
done 6 0.0 t.shared t:start:15: leaves 0 at 0x3000000
ends 7 0.0 kernel script: ends: returned
done 8 0.1 kernel script: calls kernel:do_tick(0x7) enters kernel:do_tick as kernel
refused 9 0.1 kernel kernel:do_tick:8: calls slot tick at 0x1000000(0x7): refused 4 kernel call 0x100b0
"#
}
