//! Cases whose needs `why` tells, event by event.
//! Written by `tools/example-texts` from `examples/` and `docs/MANUAL.md`.

/// Cases whose needs `why` tells, event by event: what is run, over which files beside those of `file_table`, and what it writes.
pub fn need_traces_table() -> &'static str {
    r#"---- words examples/manual/writers.case examples/manual/writers.schedule
---- trace examples/manual/writers.case
---- whole
status 1
done 0 0.0 kernel script: calls m:take(0x2000000, 0x10080) enters m:take as m.shared
done 1 0.0 m.shared m:take:4: calls kernel:open(0x2000000) enters kernel:open as kernel
done 2 0.0 kernel kernel:open:3: leaves 0 at 0x3000000
done 3 0.0 kernel m:take:4: post 0 of kernel:open from kernel to m.shared
done 4 0.0 m.shared m:take:5: store i64 0x10080 at 0x2000000
done 5 0.0 m.shared m:take:6: leaves 0 at 0x3000000
ends 6 0.0 kernel script: ends: returned
done 7 0.1 kernel script: calls n:take(0x2000000, 0x10080) enters n:take as n.shared
done 8 0.1 n.shared n:take:4: calls kernel:open(0x2000000) enters kernel:open as kernel
done 9 0.1 kernel kernel:open:3: leaves 0 at 0x3000000
done 10 0.1 kernel n:take:4: post 0 of kernel:open from kernel to n.shared
done 11 0.1 n.shared n:take:5: store i64 0x10080 at 0x2000000
done 12 0.1 n.shared n:take:6: leaves 0 at 0x3000000
ends 13 0.1 kernel script: ends: returned
done 14 0.2 kernel script: calls kernel:go(0x2000000) enters kernel:go as kernel
done 15 0.2 kernel kernel:go:6: calls slot act at 0x2000000() enters kernel:stop as kernel
done 16 0.2 kernel kernel:stop:10: leaves 0 at 0x3000000
done 17 0.2 kernel kernel:go:7: leaves 0 at 0x3000000
ends 18 0.2 kernel script: ends: returned
done 19 0.3 kernel script: calls n:take(0x2000000, 0x100c0) enters n:take as n.shared
done 20 0.3 n.shared n:take:4: calls kernel:open(0x2000000) enters kernel:open as kernel
done 21 0.3 kernel kernel:open:3: leaves 0 at 0x3000000
done 22 0.3 kernel n:take:4: post 0 of kernel:open from kernel to n.shared
done 23 0.3 n.shared n:take:5: store i64 0x100c0 at 0x2000000
done 24 0.3 n.shared n:take:6: leaves 0 at 0x3000000
ends 25 0.3 kernel script: ends: returned
done 26 0.4 kernel script: calls kernel:go(0x2000000) enters kernel:go as kernel
refused 27 0.4 kernel kernel:go:6: calls slot act at 0x2000000(): refused 6 m.shared call 0x100c0 slot 0x2000000
---- file examples/manual/writers_back.schedule
schedule 0*23
---- words examples/manual/writers_back.case examples/manual/writers_back.schedule
---- trace examples/manual/writers_back.case
---- whole
status 1
done 0 0.0 kernel script: calls m:take(0x2000000, 0x10080) enters m:take as m.shared
done 1 0.0 m.shared m:take:4: calls kernel:open(0x2000000) enters kernel:open as kernel
done 2 0.0 kernel kernel:open:3: leaves 0 at 0x3000000
done 3 0.0 kernel m:take:4: post 0 of kernel:open from kernel to m.shared
done 4 0.0 m.shared m:take:5: store i64 0x10080 at 0x2000000
done 5 0.0 m.shared m:take:6: leaves 0 at 0x3000000
ends 6 0.0 kernel script: ends: returned
done 7 0.1 kernel script: calls n:take(0x2000000, 0x10080) enters n:take as n.shared
done 8 0.1 n.shared n:take:4: calls kernel:open(0x2000000) enters kernel:open as kernel
done 9 0.1 kernel kernel:open:3: leaves 0 at 0x3000000
done 10 0.1 kernel n:take:4: post 0 of kernel:open from kernel to n.shared
done 11 0.1 n.shared n:take:5: store i64 0x10080 at 0x2000000
done 12 0.1 n.shared n:take:6: leaves 0 at 0x3000000
ends 13 0.1 kernel script: ends: returned
done 14 0.2 kernel script: calls m:take(0x2000000, 0x100a0) enters m:take as m.shared
done 15 0.2 m.shared m:take:4: calls kernel:open(0x2000000) enters kernel:open as kernel
done 16 0.2 kernel kernel:open:3: leaves 0 at 0x3000000
done 17 0.2 kernel m:take:4: post 0 of kernel:open from kernel to m.shared
done 18 0.2 m.shared m:take:5: store i64 0x100a0 at 0x2000000
done 19 0.2 m.shared m:take:6: leaves 0 at 0x3000000
ends 20 0.2 kernel script: ends: returned
done 21 0.3 kernel script: calls kernel:go(0x2000000) enters kernel:go as kernel
refused 22 0.3 kernel kernel:go:6: calls slot act at 0x2000000(): refused 6 n.shared call 0x100a0 slot 0x2000000
---- words examples/manual/items.case examples/manual/items.schedule
---- trace examples/manual/items.case
---- whole
status 1
done 0 0.0 kernel script: calls m:second() enters m:second as m.shared
done 1 0.0 m.shared m:second:6: calls kernel:look(0x1000000) enters kernel:look as kernel
refused 2 0.0 m.shared m:second:6: pre 0 of kernel:look from m.shared to kernel: refused 1 m.shared write 0x1000008+8
done 3 0.1 kernel script: calls m:nothing() enters m:nothing as m.shared
done 4 0.1 m.shared m:nothing:10: calls kernel:give(0x1000000, 0x0) enters kernel:give as kernel
done 5 0.1 m.shared m:nothing:10: pre 0 of kernel:give from m.shared to kernel
done 6 0.1 kernel kernel:give:5: leaves 0 at 0x3000000
done 7 0.1 kernel m:nothing:10: post 0 of kernel:give from kernel to m.shared
done 8 0.1 m.shared m:nothing:11: leaves 0 at 0x3000000
ends 9 0.1 kernel script: ends: returned
done 10 0.2 kernel script: calls m:turned() enters m:turned as m.shared
done 11 0.2 m.shared m:turned:14: calls kernel:turn(0x1000000) enters kernel:turn as kernel
done 12 0.2 m.shared m:turned:14: pre 0 of kernel:turn from m.shared to kernel
done 13 0.2 kernel kernel:turn:8: leaves 0 at 0x3000000
done 14 0.2 kernel m:turned:14: post 0 of kernel:turn from kernel to m.shared
done 15 0.2 m.shared m:turned:15: store i64 0x1 at 0x1000000 (m:@g+0)
done 16 0.2 m.shared m:turned:16: leaves 0 at 0x3000000
ends 17 0.2 kernel script: ends: returned
---- words examples/manual/lent.case examples/manual/lent.schedule
---- trace examples/manual/lent.case
---- whole
status 1
done 0 0.0 kernel script: calls m:use(0x2000000) enters m:use as m.shared
done 1 0.0 kernel script: pre 0 of m:use from kernel to m.shared
done 2 0.0 m.shared m:use:5: store i64 0x1 at 0x2000000
done 3 0.0 m.shared m:use:6: leaves 0 at 0x3000000
done 4 0.0 m.shared script: post 0 of m:use from m.shared to kernel
ends 5 0.0 kernel script: ends: returned
done 6 0.1 kernel script: calls m:give(0x2000000) enters m:give as m.shared
done 7 0.1 kernel script: pre 0 of m:give from kernel to m.shared
done 8 0.1 m.shared m:give:9: calls kernel:pass(0x2000000) enters kernel:pass as kernel
refused 9 0.1 m.shared m:give:9: pre 0 of kernel:pass from m.shared to kernel: refused 10 m.shared write 0x2000000+8
done 10 0.2 kernel script: calls m:late(0x2000000) enters m:late as m.shared
refused 11 0.2 m.shared m:late:13: store i64 0x2 at 0x2000000: refused 1 m.shared write 0x2000000+8
---- words examples/manual/further.case examples/manual/further.schedule
---- trace examples/manual/further.case
---- whole
status 1
done 0 0.0 kernel script: calls m:first(0x1, 0x2000000) enters m:first as m[0x1]
done 1 0.0 kernel script: pre 0 of m:first from kernel to m[0x1]
done 2 0.0 m[0x1] m:first:6: calls lxfi_princ_alias(0x1, 0x2)
done 3 0.0 m[0x1] m:first:7: leaves 0 at 0x3000000
ends 4 0.0 kernel script: ends: returned
done 5 0.1 kernel script: calls m:later(0x2, 0x2000000) enters m:later as m[0x1]
done 6 0.1 m[0x1] m:later:10: store i64 0x1 at 0x2000000
done 7 0.1 m[0x1] m:later:11: leaves 0 at 0x3000000
ends 8 0.1 kernel script: ends: returned
done 9 0.2 kernel script: calls m:later(0x3, 0x2000000) enters m:later as m[0x3]
refused 10 0.2 m[0x3] m:later:10: store i64 0x1 at 0x2000000: refused 1 m[0x3] write 0x2000000+8
"#
}
