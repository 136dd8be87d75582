//! Refusals.
//! Written by `tools/example-texts` from `examples/` and `docs/MANUAL.md`.

/// Refusals: what is run, over which files beside those of `file_table`, and what it writes.
pub fn refusal_cases_table() -> &'static str {
    r#"---- words run examples/manual/hook.case
---- run examples/manual/hook.case
---- whole
status 1
schedule 0*15
call 0.0 m:wild refused 2 m.shared call 0x10100
call 0.1 m:main returned 42
call 0.2 m:wild returned 2
image m guards 0 checks 2 wrappers 1
owns m.shared call 0x100f0
owns m.shared call 0x10100
owns m.shared call 0x10130
owns m.shared call 0x10140
---- words surface examples/manual/hook.case
---- surface examples/manual/hook.case
---- whole
status 0
surface m call kmalloc
surface m call kzalloc
surface m call kfree
surface m call dev_register
surface m call dev_set_priv
surface m call dev_zero
surface m call dev_wipe
surface m call skb_new
surface m call netif_rx
surface m call hook_get
surface m call hook_fn
surface m call do_probe
surface m call do_xmit
---- words run examples/manual/bad_swap.case
---- run examples/manual/bad_swap.case
---- whole
status 1
schedule 0*19
call 0.0 m:init returned
call 0.1 m:swap returned
call 0.2 kernel:do_probe refused 5 kernel call 0x10180: principal($0) pre(copy(ref(device), $0)) post(if ((return < 0)) transfer(ref(device), $0)) | principal($1) pre(transfer(skb_caps($0))) post(if ((return < 0)) transfer(skb_caps($0)))
image m guards 3 checks 0 wrappers 4
owns m.shared write 0x10000e0+16
owns m.shared call 0x10090
owns m.shared call 0x100b0
owns m.shared call 0x10130
owns m.shared call 0x10140
owns m.shared call 0x10150
owns m.shared call 0x10160
owns m.shared call 0x10170
owns m.shared call 0x10180
owns m.shared call 0x10190
---- words run examples/manual/bad_bend.case
---- run examples/manual/bad_bend.case
---- whole
status 1
schedule 0*18
call 0.0 m:init returned
call 0.1 m:bend returned
call 0.2 kernel:do_probe refused 6 m.shared call 0x10100 slot 0x10000e0
image m guards 3 checks 0 wrappers 4
owns m.shared write 0x10000e0+16
owns m.shared call 0x10090
owns m.shared call 0x100b0
owns m.shared call 0x10130
owns m.shared call 0x10140
owns m.shared call 0x10150
owns m.shared call 0x10160
owns m.shared call 0x10170
owns m.shared call 0x10180
owns m.shared call 0x10190
---- words run examples/manual/bad_again.case
---- run examples/manual/bad_again.case
---- whole
status 1
schedule 0*22
call 0.0 m:init returned
call 0.1 m:again returned
call 0.2 kernel:do_probe refused 6 m.shared call 0x10100 slot 0x10000e0
image m guards 3 checks 0 wrappers 4
owns m.shared write 0x10000e0+16
owns m.shared call 0x10090
owns m.shared call 0x100b0
owns m.shared call 0x10130
owns m.shared call 0x10140
owns m.shared call 0x10150
owns m.shared call 0x10160
owns m.shared call 0x10170
owns m.shared call 0x10180
owns m.shared call 0x10190
---- words run examples/manual/bad_cold.case
---- run examples/manual/bad_cold.case
---- whole
status 1
schedule 0*14
call 0.0 m:cold returned
call 0.1 kernel:do_probe refused 4 kernel call 0x0
image m guards 3 checks 0 wrappers 4
owns m.shared write 0x10000e0+16
owns m.shared call 0x10090
owns m.shared call 0x100b0
owns m.shared call 0x10130
owns m.shared call 0x10140
owns m.shared call 0x10150
owns m.shared call 0x10160
owns m.shared call 0x10170
owns m.shared call 0x10180
owns m.shared call 0x10190
---- words run examples/manual/stack.case
---- run examples/manual/stack.case
---- whole
status 1
schedule 0*8
call 0.0 m:main refused 7 m.shared write 0x3000000+8
image m guards 0 checks 0 wrappers 2
owns m.shared call 0x100b0
owns m.shared call 0x100c0
owns m.shared call 0x10130
---- words run examples/manual/edge.case
---- run examples/manual/edge.case
---- whole
status 1
schedule 0*13
call 0.0 m:main returned
call 0.1 m:main refused 8 m.shared write 0x10ffff8+16
call 0.2 m:main refused 8 m.shared write 0xfffffffffffffff8+16
image m guards 0 checks 0 wrappers 1
owns m.shared call 0x100b0
owns m.shared call 0x10130
---- words run examples/manual/two.case
---- run examples/manual/two.case
---- whole
status 1
schedule 0*40
call 0.0 m:init returned
call 0.1 kernel:do_probe returned 0
call 0.2 kernel:do_probe refused 1 m[0x1000020] write 0x2000010+8
image m guards 3 checks 0 wrappers 4
owns m.shared write 0x10000e0+40
owns m.shared write 0x1000110+8
owns m.shared call 0x10060
owns m.shared call 0x10090
owns m.shared call 0x10130
owns m.shared call 0x10140
owns m.shared call 0x10150
owns m.shared call 0x10160
owns m[0x1000038] write 0x2000010+8
owns m[0x1000038] ref device 0x1000038
owns m[0x1000020] ref device 0x1000020
---- words run examples/manual/writers_back.case
---- run examples/manual/writers_back.case
---- whole
status 1
schedule 0*23
call 0.0 m:take returned
call 0.1 n:take returned
call 0.2 m:take returned
call 0.3 kernel:go refused 6 n.shared call 0x100a0 slot 0x2000000
image m guards 1 checks 0 wrappers 2
image n guards 1 checks 0 wrappers 2
owns m.shared write 0x2000000+8
owns m.shared call 0x10060
owns m.shared call 0x10080
owns m.shared call 0x10090
owns m.shared call 0x100a0
owns n.shared write 0x2000000+8
owns n.shared call 0x10060
owns n.shared call 0x10080
owns n.shared call 0x100b0
owns n.shared call 0x100c0
---- words run examples/manual/alias.case
---- run examples/manual/alias.case
---- whole
status 0
schedule 0*49
call 0.0 m:init returned
call 0.1 m:mode returned
call 0.2 kernel:do_probe returned 0
call 0.3 kernel:do_probe returned 0
image m guards 3 checks 0 wrappers 4
owns m.shared write 0x10000e0+40
owns m.shared write 0x1000110+8
owns m.shared call 0x10060
owns m.shared call 0x10090
owns m.shared call 0x10130
owns m.shared call 0x10140
owns m.shared call 0x10150
owns m.shared call 0x10160
owns m[0x1000038] write 0x2000010+8
owns m[0x1000038] ref device 0x1000020
owns m[0x1000038] ref device 0x1000038
---- words run examples/manual/alias_taken.case
---- run examples/manual/alias_taken.case
---- whole
status 1
schedule 0*41
call 0.0 m:init returned
call 0.1 m:mode returned
call 0.2 kernel:do_probe refused 1 m[0x1000020] write 0x0+8
call 0.3 kernel:do_probe refused 9 m[0x1000038] alias 0x1000038 0x1000020
image m guards 3 checks 0 wrappers 4
owns m.shared write 0x10000e0+40
owns m.shared write 0x1000110+8
owns m.shared call 0x10060
owns m.shared call 0x10090
owns m.shared call 0x10130
owns m.shared call 0x10140
owns m.shared call 0x10150
owns m.shared call 0x10160
owns m[0x1000020] ref device 0x1000020
owns m[0x1000038] write 0x2000010+8
owns m[0x1000038] ref device 0x1000038
"#
}
