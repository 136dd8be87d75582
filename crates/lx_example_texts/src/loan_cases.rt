//! Loans.
//! Written by `tools/example-texts` from `examples/` and `docs/MANUAL.md`.

/// Loans: what is run, over which files beside those of `file_table`, and what it writes.
pub fn loan_cases_table() -> &'static str {
    r#"---- words run examples/manual/lend.case
---- run examples/manual/lend.case
---- whole
status 1
schedule 0*39
call 0.0 m:init returned
call 0.1 kernel:skb_new returned 0x2000010
call 0.2 kernel:do_xmit returned 0
call 0.3 kernel:do_probe refused 1 m[0x1000020] write 0x2000040+8
image m guards 3 checks 0 wrappers 3
owns m.shared write 0x10000e0+24
owns m.shared call 0x10090
owns m.shared call 0x10130
owns m.shared call 0x10140
owns m.shared call 0x10150
owns m[0x1000020] ref device 0x1000020
---- words run examples/manual/lend_on.case
---- run examples/manual/lend_on.case
---- whole
status 1
schedule 0*28
call 0.0 m:init returned
call 0.1 kernel:skb_new returned 0x2000010
call 0.2 kernel:do_xmit refused 10 m[0x1000020] write 0x2000010+24
image m guards 0 checks 0 wrappers 4
owns m.shared write 0x10000e0+16
owns m.shared call 0x10090
owns m.shared call 0x100e0
owns m.shared call 0x10130
owns m.shared call 0x10140
owns m.shared call 0x10150
"#
}
