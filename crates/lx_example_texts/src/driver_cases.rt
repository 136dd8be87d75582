//! Drivers that the manual writes from the beginning.
//! Written by `tools/example-texts` from `examples/` and `docs/MANUAL.md`.

/// Drivers that the manual writes from the beginning: what is run, over which files beside those of `file_table`, and what it writes.
pub fn driver_cases_table() -> &'static str {
    r#"---- words run examples/manual/timer.case
---- run examples/manual/timer.case
---- whole
status 1
schedule 0*24
call 0.0 t:start returned
call 0.1 kernel:do_tick returned
call 0.2 t:read_last returned 7
call 0.3 t:wild refused 2 t.shared call 0x10070
image t guards 2 checks 0 wrappers 2
owns t.shared write 0x1000010+8
owns t.shared write 0x1000020+8
owns t.shared call 0x10060
owns t.shared call 0x10080
owns t.shared call 0x10090
owns t.shared call 0x100a0
owns t.shared call 0x100b0
---- words run examples/manual/disk.case
---- run examples/manual/disk.case
---- whole
status 1
schedule 0*561
call 0.0 disk:init returned 0
call 0.1 kernel:do_read returned 16
call 0.2 kernel:do_read returned 16
call 0.3 kernel:do_close returned 0
call 0.4 kernel:do_close refused 1 disk[0x1000010] write 0x2000000+32
note 0 7
note 0 9
image disk guards 14 checks 0 wrappers 6
owns disk.shared write 0x1000060+16
owns disk.shared call 0x10060
owns disk.shared call 0x10070
owns disk.shared call 0x10080
owns disk.shared call 0x10090
owns disk.shared call 0x100c0
owns disk.shared call 0x100d0
owns disk.shared call 0x100e0
owns disk[0x1000010] ref disk 0x1000010
owns disk[0x1000020] write 0x2000020+32
owns disk[0x1000020] ref disk 0x1000020
---- words run examples/manual/c_kernel.case
---- run examples/manual/c_kernel.case
---- whole
status 1
schedule 0*30
call 0.0 t:start returned
call 0.1 kernel:do_tick returned
call 0.2 t:read_last returned 7
call 0.3 t:wild refused 2 t.shared call 0x10070
image t guards 2 checks 0 wrappers 2
owns t.shared write 0x1000010+8
owns t.shared write 0x1000020+8
owns t.shared call 0x10060
owns t.shared call 0x10080
owns t.shared call 0x10090
owns t.shared call 0x100a0
owns t.shared call 0x100b0
"#
}
