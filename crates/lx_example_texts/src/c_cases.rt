//! Modules of C files.
//! Written by `tools/example-texts` from `examples/` and `docs/MANUAL.md`.

/// Modules of C files: what is run, over which files beside those of `file_table`, and what it writes.
pub fn c_cases_table() -> &'static str {
    r#"---- words run examples/c_files.case
---- run examples/c_files.case
---- whole
status 0
schedule 0*2207
call 0.0 ring:ring_sum returned 35
call 0.1 ring:ring_sum returned 2380
call 0.2 ring:ring_put returned 0
call 0.3 ring:ring_take returned 9
call 0.4 ring:ring_take returned -1
call 0.5 sum:checksum_of_packet returned 45542
image ring guards 15 checks 0 wrappers 0
image sum guards 9 checks 0 wrappers 0
owns ring.shared write 0x1000000+24
owns ring.shared call 0x10060
owns ring.shared call 0x10070
owns ring.shared call 0x10080
owns ring.shared call 0x10090
owns sum.shared call 0x100a0
owns sum.shared call 0x100b0
owns sum.shared call 0x100c0
---- words run examples/driver.case
---- run examples/driver.case
---- whole
status 0
schedule 0*364
call 0.0 driver:driver_init returned 0
call 0.1 driver:driver_init returned -16
call 0.2 kernel:do_open returned 0
call 0.3 kernel:do_open returned 0
call 0.4 kernel:users returned 2
call 0.5 kernel:do_write returned 12
call 0.6 kernel:last returned 8583909746705986159
call 0.7 kernel:do_write returned 3
call 0.8 kernel:last returned 8583909746705982824
call 0.9 kernel:written returned 15
call 0.10 kernel:do_close returned
call 0.11 kernel:users returned 1
call 0.12 kernel:written returned 15
call 0.13 kernel:do_close returned
call 0.14 kernel:users returned 0
call 0.15 kernel:written returned 0
call 0.16 kernel:do_close returned
call 0.17 kernel:users returned 0
image driver guards 19 checks 0 wrappers 6
owns driver.shared write 0x2000000+32
owns driver.shared call 0x10060
owns driver.shared call 0x10070
owns driver.shared call 0x10080
owns driver.shared call 0x100f0
owns driver.shared call 0x10100
owns driver.shared call 0x10110
owns driver.shared call 0x10120
---- words run examples/device.case
---- run examples/device.case
---- whole
status 0
schedule 0*364
call 0.0 driver:driver_init returned 0
call 0.1 driver:driver_init returned -16
call 0.2 kernel:do_open returned 0
call 0.3 kernel:do_open returned 0
call 0.4 kernel:users returned 2
call 0.5 kernel:do_write returned 12
call 0.6 kernel:last returned 8583909746705986159
call 0.7 kernel:do_write returned 3
call 0.8 kernel:last returned 8583909746705982824
call 0.9 kernel:written returned 15
call 0.10 kernel:do_close returned
call 0.11 kernel:users returned 1
call 0.12 kernel:written returned 15
call 0.13 kernel:do_close returned
call 0.14 kernel:users returned 0
call 0.15 kernel:written returned 0
call 0.16 kernel:do_close returned
call 0.17 kernel:users returned 0
image driver guards 19 checks 0 wrappers 6
owns driver.shared write 0x2000000+32
owns driver.shared call 0x10060
owns driver.shared call 0x10070
owns driver.shared call 0x10080
owns driver.shared call 0x100f0
owns driver.shared call 0x10100
owns driver.shared call 0x10110
owns driver.shared call 0x10120
---- words run examples/manual/c_read.case
---- run examples/manual/c_read.case
---- whole
status 0
schedule 0*202
call 0.0 m:backslash returned 92
call 0.1 m:square returned 25
call 0.2 m:apply returned -4
call 0.3 m:distance returned 13
call 0.4 m:third_byte returned 34
call 0.5 m:header_size returned 6
call 0.6 m:is_large returned 1
call 0.7 m:absolute returned 7
call 0.8 m:counted returned 1
call 0.9 m:counted returned 2
call 0.10 m:classify returned 10
call 0.11 m:classify returned 20
call 0.12 m:classify returned -1
call 0.13 m:classify returned 0
call 0.14 m:filled returned 67372036
call 0.15 m:first_zero returned 3
image m guards 35 checks 1 wrappers 0
owns m.shared write 0x1000050+8
owns m.shared write 0x1000060+4
owns m.shared call 0x10060
owns m.shared call 0x10070
owns m.shared call 0x10080
owns m.shared call 0x10090
owns m.shared call 0x100a0
owns m.shared call 0x100b0
owns m.shared call 0x100c0
owns m.shared call 0x100d0
owns m.shared call 0x100e0
owns m.shared call 0x100f0
owns m.shared call 0x10100
owns m.shared call 0x10110
owns m.shared call 0x10120
owns m.shared call 0x10130
---- words run examples/manual/padded_field.case
---- run examples/manual/padded_field.case
---- whole
status 0
schedule 0*8
call 0.0 m:is_ready returned 0
call 0.1 m:count returned 0
image m guards 0 checks 0 wrappers 0
owns m.shared write 0x1000000+4
owns m.shared call 0x10060
owns m.shared call 0x10070
"#
}
