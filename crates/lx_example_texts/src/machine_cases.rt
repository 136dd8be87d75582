//! Results of instructions, limits, natives and traps.
//! Written by `tools/example-texts` from `examples/` and `docs/MANUAL.md`.

/// Results of instructions, limits, natives and traps: what is run, over which files beside those of `file_table`, and what it writes.
pub fn machine_cases_table() -> &'static str {
    r#"---- words run examples/manual/results.case
---- run examples/manual/results.case
---- whole
status 1
schedule 0*88
call 0.0 m:add returned -56
call 0.1 m:add returned -128
call 0.2 m:sdiv returned -3
call 0.3 m:srem returned -1
call 0.4 m:sdiv trap 2
call 0.5 m:udiv returned 2147483644
call 0.6 m:shl returned -2147483648
call 0.7 m:shl returned 0
call 0.8 m:lshr returned 15
call 0.9 m:lshr returned 0
call 0.10 m:ashr returned -4
call 0.11 m:ashr returned -1
call 0.12 m:slt returned 1
call 0.13 m:ult returned 0
call 0.14 m:sext returned -56
call 0.15 m:zext returned 200
call 0.16 m:trunc returned -1
call 0.17 m:ptrtoint returned 16
call 0.18 m:inttoptr returned 0xff
call 0.19 m:undefined returned 0
call 0.20 m:fresh returned 0
call 0.21 m:lowest returned 0
call 0.22 m:overlap returned 7378413942531514977
call 0.23 m:member returned 0x100001c
call 0.24 m:member returned 0x100000c
call 0.25 m:choose returned 10
call 0.26 m:choose returned 20
call 0.27 m:choose returned 3
image m guards 1 checks 0 wrappers 0
owns m.shared write 0x1000000+8
owns m.shared write 0x1000010+17
owns m.shared call 0x10060
owns m.shared call 0x10070
owns m.shared call 0x10080
owns m.shared call 0x10090
owns m.shared call 0x100a0
owns m.shared call 0x100b0
owns m.shared call 0x100c0
owns m.shared call 0x100d0
owns m.shared call 0x100e0
owns m.shared call 0x100f0
owns m.shared call 0x10100
owns m.shared call 0x10110
owns m.shared call 0x10120
owns m.shared call 0x10130
owns m.shared call 0x10140
owns m.shared call 0x10150
owns m.shared call 0x10160
owns m.shared call 0x10170
owns m.shared call 0x10180
owns m.shared call 0x10190
---- words run examples/manual/limits.case
---- run examples/manual/limits.case
---- whole
status 1
schedule 0*269
call 0.0 m:down returned 255
call 0.1 m:down trap 5
call 0.2 m:large returned
call 0.3 m:large trap 4
call 0.4 m:loop budget
image m guards 0 checks 0 wrappers 0
owns m.shared call 0x10060
owns m.shared call 0x10070
owns m.shared call 0x10080
---- words run examples/manual/natives.case
---- run examples/manual/natives.case
---- whole
status 1
schedule 0*50
call 0.0 kernel:alloc returned 0x2000000
call 0.1 kernel:alloc returned 0x2000010
call 0.2 kernel:alloc returned 0x0
call 0.3 kernel:alloc returned 0x0
call 0.4 kernel:free returned
call 0.5 kernel:alloc returned 0x2000000
call 0.6 kernel:free returned
call 0.7 kernel:free trap 7 0x2000000
call 0.8 kernel:lock returned 1
call 0.9 kernel:lock returned 0
call 0.10 kernel:zero returned
call 0.11 kernel:lock returned 1
call 0.12 kernel:note returned
note 0 -3
---- words run examples/manual/traps.case
---- run examples/manual/traps.case
---- whole
status 1
schedule 0*31
call 0.0 m:read trap 1 0x0
call 0.1 m:read trap 1 0x1100000
call 0.2 m:div trap 2
call 0.3 m:div trap 2
call 0.4 m:never trap 3
call 0.5 m:large trap 4
call 0.6 m:deep trap 5
call 0.7 m:narrow trap 6 0x10180
call 0.8 kernel:kmalloc returned 0x2000010
call 0.9 kernel:kfree returned
call 0.10 kernel:kfree trap 7 0x2000000
call 0.11 kernel:dev_zero trap 1 0x1100000
call 0.12 m:deep budget
image m guards 0 checks 1 wrappers 1
owns m.shared call 0x100b0
owns m.shared call 0x10130
owns m.shared call 0x10140
owns m.shared call 0x10150
owns m.shared call 0x10160
owns m.shared call 0x10170
owns m.shared call 0x10180
owns m.shared call 0x10190
"#
}
