//! Schedules that are whole or not, and what statuses come with.
//! Written by `tools/example-texts` from `examples/` and `docs/MANUAL.md`.

/// Schedules that are whole or not, and what statuses come with: what is run, over which files beside those of `file_table`, and what it writes.
pub fn word_cases_table() -> &'static str {
    r#"---- words replay examples/one.case examples/manual/whole.schedule
---- replay examples/one.case examples/manual/whole.schedule
---- whole
status 0
schedule 0*5
call 0.0 m:main returned 7
image m guards 1 checks 0 wrappers 0
owns m.shared write 0x1000000+4
owns m.shared call 0x10060
---- words replay examples/one.case examples/manual/short.schedule
---- replay examples/one.case examples/manual/short.schedule
---- whole
status 7
lxfi: schedule not whole at entry 4
---- words replay examples/one.case examples/manual/long.schedule
---- replay examples/one.case examples/manual/long.schedule
---- whole
status 7
lxfi: schedule not whole at entry 5
---- words replay examples/one.case examples/manual/nobody.schedule
---- replay examples/one.case examples/manual/nobody.schedule
---- whole
status 7
lxfi: schedule not whole at entry 0
---- words generate 200
---- generate 200
---- whole
status 0
generate 200 threads 4 calls 200 returned 180 refused 20 sum 89460 events 2560
---- words instrument examples/one.case n
---- instrument examples/one.case n
---- whole
status 3
examples/one.case:0: case 3 n
---- words run examples/manual/absent.case
---- run examples/manual/absent.case
---- whole
status 4
lxfi: cannot read examples/manual/absent.case
---- words run examples/manual/missing.case
---- run examples/manual/missing.case
---- whole
status 4
lxfi: cannot read examples/manual/absent.ll
---- words run
---- run
---- whole
status 2
usage: lxfi_run run CASE | replay CASE SCHEDULE | instrument CASE MODULE | check CASE MODULE IMAGE | generate N | why CASE SCHEDULE | surface CASE
---- words run --help
---- run --help
---- whole
status 2
usage: lxfi_run run CASE | replay CASE SCHEDULE | instrument CASE MODULE | check CASE MODULE IMAGE | generate N | why CASE SCHEDULE | surface CASE
---- words generate 4097
---- generate 4097
---- whole
status 2
usage: lxfi_run run CASE | replay CASE SCHEDULE | instrument CASE MODULE | check CASE MODULE IMAGE | generate N | why CASE SCHEDULE | surface CASE
---- words surface
---- surface
---- whole
status 2
usage: lxfi_run run CASE | replay CASE SCHEDULE | instrument CASE MODULE | check CASE MODULE IMAGE | generate N | why CASE SCHEDULE | surface CASE
"#
}
