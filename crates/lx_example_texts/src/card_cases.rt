//! A driver of a network card, as it is and with each of its bugs.
//! Written by `tools/example-texts` from `examples/` and `docs/MANUAL.md`.

/// A driver of a network card, as it is and with each of its bugs: what is run, over which files beside those of `file_table`, and what it writes.
pub fn card_cases_table() -> &'static str {
    r#"---- words run examples/nic.case
---- run examples/nic.case
---- whole
status 0
schedule 0*136
call 0.0 nic:card_init returned 0
call 0.1 kernel:do_probe returned 0
call 0.2 kernel:skb_new returned 0x2000030
call 0.3 kernel:do_xmit returned 0
note 0 4
image nic guards 13 checks 0 wrappers 6
owns nic.shared write 0x10000e0+16
owns nic.shared call 0x10070
owns nic.shared call 0x10090
owns nic.shared call 0x100a0
owns nic.shared call 0x100e0
owns nic.shared call 0x10130
owns nic.shared call 0x10140
owns nic.shared call 0x10150
owns nic[0x1000020] write 0x2000010+16
owns nic[0x1000020] ref device 0x1000020
---- words surface examples/nic.case
---- surface examples/nic.case
---- whole
status 0
surface nic ref device
surface nic call kzalloc
surface nic call dev_register
surface nic call dev_set_priv
surface nic call netif_rx
---- words run examples/nic_past.case
---- run examples/nic_past.case
---- whole
status 1
schedule 0*131
call 0.0 nic:card_init returned 0
call 0.1 kernel:do_probe returned 0
call 0.2 kernel:skb_new returned 0x2000030
call 0.3 kernel:do_xmit refused 1 nic[0x1000020] write 0x2000064+1
image nic guards 14 checks 0 wrappers 6
owns nic.shared write 0x10000e0+16
owns nic.shared call 0x10070
owns nic.shared call 0x10090
owns nic.shared call 0x100a0
owns nic.shared call 0x100e0
owns nic.shared call 0x10130
owns nic.shared call 0x10140
owns nic.shared call 0x10150
owns nic[0x1000020] write 0x2000010+16
owns nic[0x1000020] write 0x2000030+24
owns nic[0x1000020] write 0x2000060+4
owns nic[0x1000020] ref device 0x1000020
---- words run examples/manual/builtin.case
---- run examples/manual/builtin.case
---- whole
status 1
schedule 0*131
call 0.0 nic:card_init returned 0
call 0.1 kernel:do_probe returned 0
call 0.2 kernel:skb_new returned 0x2000030
call 0.3 kernel:do_xmit refused 1 nic[0x1000020] write 0x2000064+1
image nic guards 14 checks 0 wrappers 6
owns nic.shared write 0x10000e0+16
owns nic.shared call 0x10070
owns nic.shared call 0x10090
owns nic.shared call 0x100a0
owns nic.shared call 0x100e0
owns nic.shared call 0x10130
owns nic.shared call 0x10140
owns nic.shared call 0x10150
owns nic[0x1000020] write 0x2000010+16
owns nic[0x1000020] write 0x2000030+24
owns nic[0x1000020] write 0x2000060+4
owns nic[0x1000020] ref device 0x1000020
---- words run examples/nic_after.case
---- run examples/nic_after.case
---- whole
status 1
schedule 0*134
call 0.0 nic:card_init returned 0
call 0.1 kernel:do_probe returned 0
call 0.2 kernel:skb_new returned 0x2000030
call 0.3 kernel:do_xmit refused 1 nic[0x1000020] write 0x2000040+8
note 0 4
image nic guards 14 checks 0 wrappers 6
owns nic.shared write 0x10000e0+16
owns nic.shared call 0x10070
owns nic.shared call 0x10090
owns nic.shared call 0x100a0
owns nic.shared call 0x100e0
owns nic.shared call 0x10130
owns nic.shared call 0x10140
owns nic.shared call 0x10150
owns nic[0x1000020] write 0x2000010+16
owns nic[0x1000020] ref device 0x1000020
---- words run examples/nic_bent.case
---- run examples/nic_bent.case
---- whole
status 1
schedule 0*21
call 0.0 nic:card_init returned 0
call 0.1 nic:card_bend returned
call 0.2 kernel:do_probe refused 6 nic.shared call 0x10100 slot 0x10000e0
image nic guards 14 checks 0 wrappers 6
owns nic.shared write 0x10000e0+16
owns nic.shared call 0x10070
owns nic.shared call 0x10090
owns nic.shared call 0x100a0
owns nic.shared call 0x100e0
owns nic.shared call 0x10130
owns nic.shared call 0x10140
owns nic.shared call 0x10150
owns nic.shared call 0x10160
---- words run examples/other.case
---- run examples/other.case
---- whole
status 1
schedule 0*100
call 0.0 nic:card_init returned 0
call 0.1 kernel:do_probe returned 0
call 0.2 kernel:do_probe returned 0
call 0.3 kernel:skb_new returned 0x2000050
call 0.4 kernel:do_xmit refused 1 nic[0x1000020] write 0x2000030+8
image nic guards 10 checks 0 wrappers 6
owns nic.shared write 0x10000e0+24
owns nic.shared call 0x10070
owns nic.shared call 0x10090
owns nic.shared call 0x100a0
owns nic.shared call 0x100e0
owns nic.shared call 0x10130
owns nic.shared call 0x10140
owns nic.shared call 0x10150
owns nic[0x1000020] write 0x2000010+16
owns nic[0x1000020] write 0x2000050+24
owns nic[0x1000020] write 0x2000080+4
owns nic[0x1000020] ref device 0x1000020
owns nic[0x1000038] write 0x2000030+16
owns nic[0x1000038] ref device 0x1000038
---- words run examples/left.case
---- run examples/left.case
---- whole
status 0
schedule 0*69
call 0.0 m:send returned 0
call 0.1 m:send returned -90
call 0.2 m:send returned -16
call 0.3 kernel:users returned 1
note 0 64
image m guards 5 checks 0 wrappers 5
owns m.shared call 0x10060
owns m.shared call 0x10070
owns m.shared call 0x10080
owns m.shared call 0x10090
owns m.shared call 0x100a0
owns m.shared call 0x100c0
owns m.shared ref device 0x1000010
"#
}
