//! Why needs were met, and why one was not.
//! Written by `tools/example-texts` from `examples/` and `docs/MANUAL.md`.

/// Why needs were met, and why one was not: what is run, over which files beside those of `file_table`, and what it writes.
pub fn why_cases_table() -> &'static str {
    r#"---- words run examples/manual/seven.case
---- run examples/manual/seven.case
---- whole
status 1
schedule 0*2
call 0.0 m:main refused 1 m.shared write 0x1000000+8
image m guards 1 checks 0 wrappers 0
owns m.shared write 0x1000000+7
owns m.shared call 0x10060
---- words why examples/manual/seven.case examples/manual/seven.schedule
---- why examples/manual/seven.case examples/manual/seven.schedule
---- whole
status 0
act 0 grant m.shared write 0x1000000+7
act 1 grant m.shared call 0x10060
act 2 strip write 0x3000000+65536
act 3 shutall 0
1 0 deny m.shared write 0x1000000+8 atom 0x1000007 strip none
---- words why examples/manual/bad_bend.case examples/manual/bad_bend.schedule
---- why examples/manual/bad_bend.case examples/manual/bad_bend.schedule
---- whole
status 0
act 0 grant m.shared write 0x10000e0+16
act 1 grant m.shared call 0x10090
act 2 grant m.shared call 0x100b0
act 3 grant m.shared call 0x10130
act 4 grant m.shared call 0x10140
act 5 grant m.shared call 0x10150
act 6 grant m.shared call 0x10160
act 7 grant m.shared call 0x10170
act 8 grant m.shared call 0x10180
act 9 grant m.shared call 0x10190
act 10 strip write 0x3000000+65536
act 11 shutall 0
act 12 strip write 0x3000000+65536
act 13 shutall 0
act 14 strip write 0x3000000+65536
act 15 shutall 0
12 0 allow m.shared write 0x10000e0+8 0x10000e0+8@0
17 0 deny m.shared call 0x10100 atom 0x10100 strip none
---- words why examples/shared.case examples/shared.schedule
---- why examples/shared.case examples/shared.schedule
---- whole
status 0
act 0 grant m.shared write 0x1000000+8
act 1 grant m.shared call 0x10060
act 2 grant m.shared call 0x10070
act 3 grant m.shared call 0x10080
act 4 grant m.shared call 0x10090
act 5 grant m.shared call 0x100a0
act 6 strip write 0x2000000+8
act 7 grant m.shared write 0x2000000+8
act 8 strip write 0x3000000+65536
act 9 shutall 0
act 10 strip write 0x2000000+8
act 11 strip write 0x3010000+65536
act 12 shutall 1
act 13 strip write 0x3000000+65536
act 14 shutall 0
5 0 allow m.shared write 0x1000000+8 0x1000000+8@0
10 1 allow m.shared write 0x2000000+8 0x2000000+8@7
14 0 keep m.shared write 0x2000000+8 0x2000000+8@7
15 1 deny m.shared write 0x2000000+8 atom 0x2000000 strip 10
---- words run examples/manual/items.case
---- run examples/manual/items.case
---- whole
status 1
schedule 0*18
call 0.0 m:second refused 1 m.shared write 0x1000008+8
call 0.1 m:nothing returned
call 0.2 m:turned returned
image m guards 1 checks 0 wrappers 3
owns m.shared write 0x1000000+8
owns m.shared call 0x10060
owns m.shared call 0x10070
owns m.shared call 0x10080
owns m.shared call 0x10090
owns m.shared call 0x100a0
owns m.shared call 0x100b0
---- words why examples/manual/items.case examples/manual/items.schedule
---- why examples/manual/items.case examples/manual/items.schedule
---- whole
status 0
act 0 grant m.shared write 0x1000000+8
act 1 grant m.shared call 0x10060
act 2 grant m.shared call 0x10070
act 3 grant m.shared call 0x10080
act 4 grant m.shared call 0x10090
act 5 grant m.shared call 0x100a0
act 6 grant m.shared call 0x100b0
act 7 strip write 0x3000000+65536
act 8 shutall 0
act 9 strip write 0x3000000+65536
act 10 shutall 0
act 11 strip write 0x1000000+4
act 12 strip write 0x1000000+4
act 13 grant m.shared write 0x1000000+4
act 14 strip write 0x3000000+65536
act 15 shutall 0
2 0 allow m.shared write 0x1000000+8 0x1000000+8@0
2 0 deny m.shared write 0x1000008+8 atom 0x1000008 strip none
5 0 keep m.shared write 0x1000000+0
12 0 keep m.shared write 0x1000000+4 0x1000000+4@0
15 0 allow m.shared write 0x1000000+8 0x1000000+4@13 0x1000004+4@0
---- words run examples/manual/lent.case
---- run examples/manual/lent.case
---- whole
status 1
schedule 0*12
call 0.0 m:use returned
call 0.1 m:give refused 10 m.shared write 0x2000000+8
call 0.2 m:late refused 1 m.shared write 0x2000000+8
image m guards 2 checks 0 wrappers 3
owns m.shared write 0x1000000+16
owns m.shared call 0x10060
owns m.shared call 0x10070
owns m.shared call 0x10080
owns m.shared call 0x10090
---- words why examples/manual/lent.case examples/manual/lent.schedule
---- why examples/manual/lent.case examples/manual/lent.schedule
---- whole
status 0
act 0 grant m.shared write 0x1000000+16
act 1 grant m.shared call 0x10060
act 2 grant m.shared call 0x10070
act 3 grant m.shared call 0x10080
act 4 grant m.shared call 0x10090
act 5 loan 0
act 6 lend 0 m.shared write 0x2000000+8
act 7 shut 0 1
act 8 strip write 0x3000000+65536
act 9 shutall 0
act 10 loan 0
act 11 lend 0 m.shared write 0x2000000+8
act 12 strip write 0x3000000+65536
act 13 shutall 0
act 14 strip write 0x3000000+65536
act 15 shutall 0
2 0 allow m.shared write 0x2000000+8 0x2000000+8@6
9 0 borrowed m.shared write 0x2000000+8 atom 0x2000000 loan 11
11 0 deny m.shared write 0x2000000+8 atom 0x2000000 strip none
---- words run examples/manual/writers.case
---- run examples/manual/writers.case
---- whole
status 1
schedule 0*28
call 0.0 m:take returned
call 0.1 n:take returned
call 0.2 kernel:go returned
call 0.3 n:take returned
call 0.4 kernel:go refused 6 m.shared call 0x100c0 slot 0x2000000
image m guards 1 checks 0 wrappers 2
image n guards 1 checks 0 wrappers 2
owns m.shared write 0x2000000+8
owns m.shared call 0x10060
owns m.shared call 0x10080
owns m.shared call 0x10090
owns m.shared call 0x100a0
owns n.shared write 0x2000000+8
owns n.shared call 0x10060
owns n.shared call 0x10080
owns n.shared call 0x100b0
owns n.shared call 0x100c0
---- words why examples/manual/writers.case examples/manual/writers.schedule
---- why examples/manual/writers.case examples/manual/writers.schedule
---- whole
status 0
act 0 grant m.shared call 0x10060
act 1 grant m.shared call 0x10080
act 2 grant m.shared call 0x10090
act 3 grant m.shared call 0x100a0
act 4 grant n.shared call 0x10060
act 5 grant n.shared call 0x10080
act 6 grant n.shared call 0x100b0
act 7 grant n.shared call 0x100c0
act 8 grant m.shared write 0x2000000+8
act 9 strip write 0x3000000+65536
act 10 shutall 0
act 11 grant n.shared write 0x2000000+8
act 12 strip write 0x3000000+65536
act 13 shutall 0
act 14 strip write 0x3000000+65536
act 15 shutall 0
act 16 grant n.shared write 0x2000000+8
act 17 strip write 0x3000000+65536
act 18 shutall 0
act 19 strip write 0x3000000+65536
act 20 shutall 0
4 0 allow m.shared write 0x2000000+8 0x2000000+8@8
11 0 allow n.shared write 0x2000000+8 0x2000000+8@11
15 0 allow m.shared call 0x10080 0x10080+1@1
15 0 allow n.shared call 0x10080 0x10080+1@5
23 0 allow n.shared write 0x2000000+8 0x2000000+8@16
27 0 deny m.shared call 0x100c0 atom 0x100c0 strip none
---- words run examples/manual/further.case
---- run examples/manual/further.case
---- whole
status 1
schedule 0*11
call 0.0 m:first returned
call 0.1 m:later returned
call 0.2 m:later refused 1 m[0x3] write 0x2000000+8
image m guards 1 checks 0 wrappers 2
owns m.shared write 0x1000000+16
owns m.shared call 0x10060
owns m.shared call 0x10070
owns m[0x1] write 0x2000000+8
---- words why examples/manual/further.case examples/manual/further.schedule
---- why examples/manual/further.case examples/manual/further.schedule
---- whole
status 0
act 0 grant m.shared write 0x1000000+16
act 1 grant m.shared call 0x10060
act 2 grant m.shared call 0x10070
act 3 grant m[0x1] write 0x2000000+8
act 4 strip write 0x3000000+65536
act 5 shutall 0
act 6 strip write 0x3000000+65536
act 7 shutall 0
act 8 strip write 0x3000000+65536
act 9 shutall 0
6 0 allow m[0x1] write 0x2000000+8 0x2000000+8@3
10 0 deny m[0x3] write 0x2000000+8 atom 0x2000000 strip none
---- words why examples/one.case examples/manual/short.schedule
---- why examples/one.case examples/manual/short.schedule
---- whole
status 7
lxfi: schedule not whole at entry 4
---- words why examples/shared.schedule examples/shared.case
---- why examples/shared.schedule examples/shared.case
---- whole
status 3
examples/shared.schedule:1: case 2 schedule
---- words why examples/one.case examples/one.case
---- why examples/one.case examples/one.case
---- whole
status 3
examples/one.case:1: schedule 2 lxfi
---- words why examples/one.case examples/manual/absent.schedule
---- why examples/one.case examples/manual/absent.schedule
---- whole
status 4
lxfi: cannot read examples/manual/absent.schedule
---- words why examples/one.case
---- why examples/one.case
---- whole
status 2
usage: lxfi_run run CASE | replay CASE SCHEDULE | instrument CASE MODULE | check CASE MODULE IMAGE | generate N | why CASE SCHEDULE | surface CASE
"#
}
