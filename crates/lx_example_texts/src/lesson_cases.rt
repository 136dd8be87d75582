//! What the manual teaches of starts, of kernels whose driver is refused, and of what is not caught.
//! Written by `tools/example-texts` from `examples/` and `docs/MANUAL.md`.

/// What the manual teaches of starts, of kernels whose driver is refused, and of what is not caught: what is run, over which files beside those of `file_table`, and what it writes.
pub fn lesson_cases_table() -> &'static str {
    r#"---- words replay examples/manual/start.case examples/manual/start.schedule
---- replay examples/manual/start.case examples/manual/start.schedule
---- whole
status 0
schedule 1*4 0*12 1*16
call 0.0 t:start returned
call 0.1 kernel:open returned
call 1.0 kernel:wait returned
call 1.1 kernel:do_tick returned
call 1.2 t:read_last returned 7
image t guards 2 checks 0 wrappers 2
owns t.shared write 0x1000020+8
owns t.shared write 0x1000030+8
owns t.shared call 0x10060
owns t.shared call 0x100a0
owns t.shared call 0x100b0
owns t.shared call 0x100c0
owns t.shared call 0x100d0
---- words replay examples/manual/start_early.case examples/manual/start_early.schedule
---- replay examples/manual/start_early.case examples/manual/start_early.schedule
---- whole
status 1
schedule 1*6 0*8
call 0.0 t:start returned
call 1.0 kernel:do_tick refused 4 kernel call 0x0
call 1.1 t:read_last returned 0
image t guards 2 checks 0 wrappers 2
owns t.shared write 0x1000020+8
owns t.shared write 0x1000030+8
owns t.shared call 0x10060
owns t.shared call 0x100a0
owns t.shared call 0x100b0
owns t.shared call 0x100c0
owns t.shared call 0x100d0
---- words run examples/manual/held.case
---- run examples/manual/held.case
---- whole
status 1
schedule 0*42
call 0.0 m:start returned
call 0.1 kernel:locked_tick refused 1 m.shared write 0x1000050+8
call 0.2 kernel:locked_tick returned -16
call 0.3 kernel:counted_tick refused 1 m.shared write 0x1000050+8
call 0.4 kernel:count returned 1
call 0.5 kernel:mend returned
call 0.6 kernel:careful_tick refused 1 m.shared write 0x1000050+8
call 0.7 kernel:careful_tick refused 1 m.shared write 0x1000050+8
image m guards 1 checks 0 wrappers 2
owns m.shared write 0x1000040+8
owns m.shared write 0x1000050+4
owns m.shared call 0x10060
owns m.shared call 0x100c0
owns m.shared call 0x100d0
---- words run examples/manual/uncaught.case
---- run examples/manual/uncaught.case
---- whole
status 0
schedule 0*29
call 0.0 m:inside returned 9
call 0.1 m:neighbour returned 5
call 0.2 m:look returned 42
call 0.3 m:through returned 7
image m guards 2 checks 0 wrappers 2
owns m.shared write 0x1000010+16
owns m.shared write 0x2000000+32
owns m.shared call 0x10060
owns m.shared call 0x10070
owns m.shared call 0x10080
owns m.shared call 0x10090
owns m.shared call 0x100a0
owns m.shared call 0x100b0
---- words run examples/manual/caught.case
---- run examples/manual/caught.case
---- whole
status 1
schedule 0*25
call 0.0 m:inside returned 9
call 0.1 m:neighbour returned 5
call 0.2 m:look returned 42
call 0.3 m:through refused 1 m.shared write 0x1000000+8
image m guards 2 checks 0 wrappers 2
owns m.shared write 0x1000010+16
owns m.shared write 0x2000000+32
owns m.shared call 0x10060
owns m.shared call 0x10070
owns m.shared call 0x10080
owns m.shared call 0x10090
owns m.shared call 0x100a0
owns m.shared call 0x100b0
---- words run examples/manual/misspelt.case
---- run examples/manual/misspelt.case
---- whole
status 1
schedule 0*10
call 0.0 t:start returned
call 0.1 kernel:do_tick refused 4 kernel call 0x100b0
image t guards 2 checks 0 wrappers 1
owns t.shared write 0x1000010+8
owns t.shared write 0x1000020+8
owns t.shared call 0x10060
owns t.shared call 0x10080
owns t.shared call 0x10090
owns t.shared call 0x100a0
owns t.shared call 0x100b0
"#
}
