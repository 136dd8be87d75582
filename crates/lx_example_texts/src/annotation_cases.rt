//! What annotations say.
//! Written by `tools/example-texts` from `examples/` and `docs/MANUAL.md`.

/// What annotations say: what is run, over which files beside those of `file_table`, and what it writes.
pub fn annotation_cases_table() -> &'static str {
    r#"---- words run examples/manual/sites.case
---- run examples/manual/sites.case
---- whole
status 1
schedule 0*47
call 0.0 m:set_a returned
call 0.1 kernel:do_tick returned
call 0.2 m:set_b returned
call 0.3 kernel:do_tick returned
call 0.4 m:set_c returned
call 0.5 kernel:do_tick returned
call 0.6 m:set_d returned
call 0.7 kernel:do_tick refused 4 kernel call 0x100b0
image m guards 2 checks 0 wrappers 4
owns m.shared write 0x1000010+8
owns m.shared write 0x1000020+48
owns m.shared call 0x10060
owns m.shared call 0x10080
owns m.shared call 0x10090
owns m.shared call 0x100a0
owns m.shared call 0x100b0
owns m.shared call 0x100c0
owns m.shared call 0x100d0
owns m.shared call 0x100e0
owns m.shared call 0x100f0
---- words run examples/manual/principals.case
---- run examples/manual/principals.case
---- whole
status 1
schedule 0*55
call 0.0 m:init returned
call 0.1 kernel:open returned 0
call 0.2 kernel:poke returned 1
call 0.3 kernel:poke refused 1 m[0x2] write 0x2000000+8
call 0.4 kernel:sum refused 1 m.shared write 0x2000000+8
call 0.5 kernel:tidy returned 3
image m guards 9 checks 0 wrappers 6
owns m.shared write 0x1000010+40
owns m.shared write 0x1000040+8
owns m.shared call 0x10060
owns m.shared call 0x10070
owns m.shared call 0x100c0
owns m.shared call 0x100d0
owns m.shared call 0x100e0
owns m.shared call 0x100f0
owns m.shared call 0x10100
owns m[0x1] write 0x2000000+8
---- words run examples/manual/lists.case
---- run examples/manual/lists.case
---- whole
status 1
schedule 0*12
call 0.0 m:take returned
call 0.1 m:show refused 1 m.shared write 0x1000010+16
image m guards 0 checks 0 wrappers 2
owns m.shared write 0x1000000+16
owns m.shared call 0x1000
owns m.shared call 0x10060
owns m.shared call 0x10070
owns m.shared call 0x10080
owns m.shared call 0x10090
owns m.shared ref key 0x1000000
---- words run examples/manual/values.case
---- run examples/manual/values.case
---- whole
status 1
schedule 0*30
call 0.0 m:shift refused 2 m.shared call 0x30
call 0.1 m:shift refused 2 m.shared call 0x0
call 0.2 m:compare refused 2 m.shared call 0x101
call 0.3 m:compare refused 2 m.shared call 0x100
call 0.4 m:decide returned
call 0.5 m:decide refused 2 m.shared call 0x1
call 0.6 m:decide trap 1 0x1
call 0.7 m:look refused 2 m.shared call 0x5
call 0.8 m:look trap 1 0x1100000
image m guards 0 checks 0 wrappers 4
owns m.shared write 0x1000000+8
owns m.shared call 0x10060
owns m.shared call 0x10070
owns m.shared call 0x10080
owns m.shared call 0x10090
owns m.shared call 0x100a0
owns m.shared call 0x100b0
owns m.shared call 0x100c0
owns m.shared call 0x100d0
---- words run examples/manual/signs.case
---- run examples/manual/signs.case
---- whole
status 1
schedule 0*9
call 0.0 m:i8 refused 2 m.shared call 0xffffffffffffffff
call 0.1 m:u8 refused 2 m.shared call 0xff
call 0.2 m:bool refused 2 m.shared call 0x1
image m guards 0 checks 0 wrappers 3
owns m.shared call 0x10060
owns m.shared call 0x10070
owns m.shared call 0x10080
owns m.shared call 0x10090
owns m.shared call 0x100a0
owns m.shared call 0x100b0
---- words run examples/manual/canonical.case
---- run examples/manual/canonical.case
---- whole
status 1
schedule 0*11
call 0.0 m:init returned
call 0.1 kernel:go refused 5 kernel call 0x10080:  | pre(check(call, (($0 - $1) - 1))) pre(check(call, ((-$0) * $1))) pre(check(call, (($0 << (1 + 2)) >> $1))) pre(check(call, ($0 & ($1 == 1)))) pre(check(call, ($0 || ($1 && 1)))) pre(check(call, (load64(($0 + 8)) + 8)))
image m guards 1 checks 0 wrappers 2
owns m.shared write 0x1000010+8
owns m.shared write 0x1000020+8
owns m.shared call 0x10060
owns m.shared call 0x10080
owns m.shared call 0x10090
"#
}
