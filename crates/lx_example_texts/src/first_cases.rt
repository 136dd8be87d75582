//! The smallest cases.
//! Written by `tools/example-texts` from `examples/` and `docs/MANUAL.md`.

/// The smallest cases: what is run, over which files beside those of `file_table`, and what it writes.
pub fn first_cases_table() -> &'static str {
    r#"---- words run examples/one.case
---- run examples/one.case
---- whole
status 0
schedule 0*5
call 0.0 m:main returned 7
image m guards 1 checks 0 wrappers 0
owns m.shared write 0x1000000+4
owns m.shared call 0x10060
---- words run examples/budget.case
---- run examples/budget.case
---- whole
status 1
schedule 0*4
call 0.0 m:main budget
image m guards 1 checks 0 wrappers 0
owns m.shared write 0x1000000+4
owns m.shared call 0x10060
---- words run examples/past.case
---- run examples/past.case
---- whole
status 1
schedule 0*2
call 0.0 m:main refused 1 m.shared write 0x1000000+8
image m guards 1 checks 0 wrappers 0
owns m.shared write 0x1000000+4
owns m.shared call 0x10060
---- words replay examples/shared.case examples/shared.schedule
---- replay examples/shared.case examples/shared.schedule
---- whole
status 1
schedule 0*8 1*3 0*4 1*1 0*4
call 0.0 m:make returned
call 0.1 m:drop returned
call 1.0 m:poke refused 1 m.shared write 0x2000000+8
image m guards 3 checks 0 wrappers 2
owns m.shared write 0x1000000+8
owns m.shared call 0x10060
owns m.shared call 0x10070
owns m.shared call 0x10080
owns m.shared call 0x10090
owns m.shared call 0x100a0
---- words run examples/letters.case
---- run examples/letters.case
---- whole
status 1
schedule 0*55
call 0.0 m:send returned
call 0.1 m:send refused 3 m.shared ref box 0x7
call 0.2 m:send_and_write refused 1 m.shared write 0x2000050+8
note 0 8
note 0 8
image m guards 2 checks 0 wrappers 3
owns m.shared write 0x2000020+24
owns m.shared call 0x10060
owns m.shared call 0x10070
owns m.shared call 0x10080
owns m.shared call 0x10090
owns m.shared call 0x100a0
owns m.shared ref box 0x2
owns m.shared ref box 0x3
---- words surface examples/letters.case
---- surface examples/letters.case
---- whole
status 0
surface m ref box
surface m call box_open
surface m call letter_new
surface m call letter_send
---- words run examples/manual/arguments.case
---- run examples/manual/arguments.case
---- whole
status 0
schedule 0*27
call 0.0 m:same returned -5
call 0.1 m:same returned -1
call 0.2 m:same returned 255
call 0.3 m:byte returned -1
call 0.4 m:byte returned -128
call 0.5 m:truth returned 1
call 0.6 m:place returned 0x10000e0
call 0.7 m:place returned 0x10130
call 0.8 m:place returned 0x10060
image m guards 0 checks 0 wrappers 0
owns m.shared write 0x10000e0+8
owns m.shared call 0x10130
owns m.shared call 0x10140
owns m.shared call 0x10150
owns m.shared call 0x10160
"#
}
