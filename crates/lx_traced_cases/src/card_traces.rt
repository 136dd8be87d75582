//! A driver of a network card and its bugs, event by event.
//! Written by `tools/example-texts` from `examples/` and `docs/MANUAL.md`.

/// A driver of a network card and its bugs, event by event: what is run, over which files beside those of `file_table`, and what it writes.
pub fn card_traces_table() -> &'static str {
    r#"---- file examples/nic.schedule
schedule 0*136
---- words examples/nic.case examples/nic.schedule
---- trace examples/nic.case
---- whole
status 0
done 0 0.0 kernel script: calls nic:card_init() enters nic:card_init as nic.shared
done 1 0.0 nic.shared nic:card_init:15: alloca 8 at 0x3000000
done 2 0.0 nic.shared nic:card_init:16: calls kernel:dev_register(0x10000e0) enters kernel:dev_register as kernel
done 3 0.0 kernel kernel:dev_register:56: calls k.try_lock(0x1000000) = 1
done 4 0.0 kernel kernel:dev_register:60: load i64 at 0x1000010 (kernel:@ndevs+0) = 0x0
done 5 0.0 kernel kernel:dev_register:65: store i64 0x10000e0 at 0x1000020 (kernel:@devs+0)
done 6 0.0 kernel kernel:dev_register:67: store i64 0x0 at 0x1000028 (kernel:@devs+8)
done 7 0.0 kernel kernel:dev_register:69: store i64 0x1 at 0x1000010 (kernel:@ndevs+0)
done 8 0.0 kernel kernel:dev_register:73: store i32 0 at 0x1000000 (kernel:@lock+0)
done 9 0.0 kernel kernel:dev_register:74: leaves 0 at 0x3000008
done 10 0.0 nic.shared nic:card_init:17: store i64 0x1000020 at 0x3000000 (event 1+0)
done 11 0.0 nic.shared nic:card_init:18: load i64 at 0x3000000 (event 1+0) = 0x1000020
done 12 0.0 nic.shared nic:card_init:22: leaves 8 at 0x3000000
ends 13 0.0 kernel script: ends: returned 0
done 14 0.1 kernel script: calls kernel:do_probe(0x0) enters kernel:do_probe as kernel
done 15 0.1 kernel kernel:do_probe:131: load i64 at 0x1000020 (kernel:@devs+0) = 0x10000e0
done 16 0.1 kernel kernel:do_probe:132: calls slot probe at 0x10000e0(0x1000020) enters nic:card_probe as nic[0x1000020]
done 17 0.1 kernel kernel:do_probe:132: pre 0 of nic:card_probe from kernel to nic[0x1000020]
done 18 0.1 nic[0x1000020] nic:card_probe:29: alloca 4 at 0x3000000
done 19 0.1 nic[0x1000020] nic:card_probe:30: alloca 8 at 0x3000008
done 20 0.1 nic[0x1000020] nic:card_probe:31: alloca 8 at 0x3000010
done 21 0.1 nic[0x1000020] nic:card_probe:32: store i64 0x1000020 at 0x3000008 (event 19+0)
done 22 0.1 nic[0x1000020] nic:card_probe:33: calls kernel:kzalloc(0x10) enters kernel:kzalloc as kernel
done 23 0.1 kernel kernel:kmalloc:20: calls k.alloc(0x20) = 0x2000000
done 24 0.1 kernel kernel:kmalloc:24: store i64 0x10 at 0x2000000 (event 23+0)
done 25 0.1 kernel kernel:kmalloc:26: leaves 0 at 0x3000018
done 26 0.1 kernel kernel:kzalloc:36: calls k.zero(0x2000010, 0x10)
done 27 0.1 kernel kernel:kzalloc:39: leaves 0 at 0x3000018
done 28 0.1 kernel nic:card_probe:33: post 0 of kernel:kzalloc from kernel to nic[0x1000020]
done 29 0.1 nic[0x1000020] nic:card_probe:34: store i64 0x2000010 at 0x3000010 (event 20+0)
done 30 0.1 nic[0x1000020] nic:card_probe:35: load i64 at 0x3000010 (event 20+0) = 0x2000010
done 31 0.1 nic[0x1000020] nic:card_probe:44: load i64 at 0x3000008 (event 19+0) = 0x1000020
done 32 0.1 nic[0x1000020] nic:card_probe:45: load i64 at 0x3000010 (event 20+0) = 0x2000010
done 33 0.1 nic[0x1000020] nic:card_probe:46: calls kernel:dev_set_priv(0x1000020, 0x2000010) enters kernel:dev_set_priv as kernel
done 34 0.1 nic[0x1000020] nic:card_probe:46: pre 0 of kernel:dev_set_priv from nic[0x1000020] to kernel
done 35 0.1 kernel kernel:dev_set_priv:79: store i64 0x2000010 at 0x1000030 (kernel:@devs+16)
done 36 0.1 kernel kernel:dev_set_priv:80: leaves 0 at 0x3000018
done 37 0.1 nic[0x1000020] nic:card_probe:47: store i32 0 at 0x3000000 (event 18+0)
done 38 0.1 nic[0x1000020] nic:card_probe:51: load i32 at 0x3000000 (event 18+0) = 0
done 39 0.1 nic[0x1000020] nic:card_probe:52: leaves 24 at 0x3000000
done 40 0.1 nic[0x1000020] kernel:do_probe:132: post 0 of nic:card_probe from nic[0x1000020] to kernel
done 41 0.1 kernel kernel:do_probe:133: leaves 0 at 0x3000000
ends 42 0.1 kernel script: ends: returned 0
done 43 0.2 kernel script: calls kernel:skb_new(0x4) enters kernel:skb_new as kernel
done 44 0.2 kernel kernel:kmalloc:20: calls k.alloc(0x28) = 0x2000020
done 45 0.2 kernel kernel:kmalloc:24: store i64 0x18 at 0x2000020 (event 44+0)
done 46 0.2 kernel kernel:kmalloc:26: leaves 0 at 0x3000000
done 47 0.2 kernel kernel:kmalloc:20: calls k.alloc(0x14) = 0x2000050
done 48 0.2 kernel kernel:kmalloc:24: store i64 0x4 at 0x2000050 (event 47+0)
done 49 0.2 kernel kernel:kmalloc:26: leaves 0 at 0x3000000
done 50 0.2 kernel kernel:skb_new:102: store i64 0x2000060 at 0x2000030 (event 44+16)
done 51 0.2 kernel kernel:skb_new:104: store i64 0x4 at 0x2000038 (event 44+24)
done 52 0.2 kernel kernel:skb_new:105: leaves 0 at 0x3000000
ends 53 0.2 kernel script: ends: returned 0x2000030
done 54 0.3 kernel script: calls kernel:do_xmit(0x0, 0x2000030) enters kernel:do_xmit as kernel
done 55 0.3 kernel kernel:do_xmit:138: load i64 at 0x1000020 (kernel:@devs+0) = 0x10000e0
done 56 0.3 kernel kernel:do_xmit:140: calls slot xmit at 0x10000e8(0x2000030, 0x1000020) enters nic:card_xmit as nic[0x1000020]
done 57 0.3 kernel kernel:do_xmit:140: pre 0 of nic:card_xmit from kernel to nic[0x1000020]
done 58 0.3 nic[0x1000020] nic:card_xmit:57: alloca 8 at 0x3000000
done 59 0.3 nic[0x1000020] nic:card_xmit:58: alloca 8 at 0x3000008
done 60 0.3 nic[0x1000020] nic:card_xmit:59: alloca 8 at 0x3000010
done 61 0.3 nic[0x1000020] nic:card_xmit:60: alloca 8 at 0x3000018
done 62 0.3 nic[0x1000020] nic:card_xmit:61: store i64 0x2000030 at 0x3000000 (event 58+0)
done 63 0.3 nic[0x1000020] nic:card_xmit:62: store i64 0x1000020 at 0x3000008 (event 59+0)
done 64 0.3 nic[0x1000020] nic:card_xmit:63: load i64 at 0x3000008 (event 59+0) = 0x1000020
done 65 0.3 nic[0x1000020] nic:card_xmit:65: load i64 at 0x1000030 (kernel:@devs+16) = 0x2000010
done 66 0.3 nic[0x1000020] nic:card_xmit:66: store i64 0x2000010 at 0x3000010 (event 60+0)
done 67 0.3 nic[0x1000020] nic:card_xmit:67: load i64 at 0x3000010 (event 60+0) = 0x2000010
done 68 0.3 nic[0x1000020] nic:card_xmit:69: load i64 at 0x2000010 (event 23+16) = 0x0
done 69 0.3 nic[0x1000020] nic:card_xmit:71: store i64 0x1 at 0x2000010 (event 23+16)
done 70 0.3 nic[0x1000020] nic:card_xmit:72: store i64 0x0 at 0x3000018 (event 61+0)
done 71 0.3 nic[0x1000020] nic:card_xmit:76: load i64 at 0x3000018 (event 61+0) = 0x0
done 72 0.3 nic[0x1000020] nic:card_xmit:77: load i64 at 0x3000000 (event 58+0) = 0x2000030
done 73 0.3 nic[0x1000020] nic:card_xmit:79: load i64 at 0x2000038 (event 44+24) = 0x4
done 74 0.3 nic[0x1000020] nic:card_xmit:84: load i64 at 0x3000000 (event 58+0) = 0x2000030
done 75 0.3 nic[0x1000020] nic:card_xmit:86: load i64 at 0x2000030 (event 44+16) = 0x2000060
done 76 0.3 nic[0x1000020] nic:card_xmit:87: load i64 at 0x3000018 (event 61+0) = 0x0
done 77 0.3 nic[0x1000020] nic:card_xmit:89: load i8 at 0x2000060 (event 47+16) = 0
done 78 0.3 nic[0x1000020] nic:card_xmit:91: load i64 at 0x3000010 (event 60+0) = 0x2000010
done 79 0.3 nic[0x1000020] nic:card_xmit:93: load i64 at 0x2000018 (event 23+24) = 0x0
done 80 0.3 nic[0x1000020] nic:card_xmit:95: store i64 0x0 at 0x2000018 (event 23+24)
done 81 0.3 nic[0x1000020] nic:card_xmit:99: load i64 at 0x3000018 (event 61+0) = 0x0
done 82 0.3 nic[0x1000020] nic:card_xmit:101: store i64 0x1 at 0x3000018 (event 61+0)
done 83 0.3 nic[0x1000020] nic:card_xmit:76: load i64 at 0x3000018 (event 61+0) = 0x1
done 84 0.3 nic[0x1000020] nic:card_xmit:77: load i64 at 0x3000000 (event 58+0) = 0x2000030
done 85 0.3 nic[0x1000020] nic:card_xmit:79: load i64 at 0x2000038 (event 44+24) = 0x4
done 86 0.3 nic[0x1000020] nic:card_xmit:84: load i64 at 0x3000000 (event 58+0) = 0x2000030
done 87 0.3 nic[0x1000020] nic:card_xmit:86: load i64 at 0x2000030 (event 44+16) = 0x2000060
done 88 0.3 nic[0x1000020] nic:card_xmit:87: load i64 at 0x3000018 (event 61+0) = 0x1
done 89 0.3 nic[0x1000020] nic:card_xmit:89: load i8 at 0x2000061 (event 47+17) = 0
done 90 0.3 nic[0x1000020] nic:card_xmit:91: load i64 at 0x3000010 (event 60+0) = 0x2000010
done 91 0.3 nic[0x1000020] nic:card_xmit:93: load i64 at 0x2000018 (event 23+24) = 0x0
done 92 0.3 nic[0x1000020] nic:card_xmit:95: store i64 0x0 at 0x2000018 (event 23+24)
done 93 0.3 nic[0x1000020] nic:card_xmit:99: load i64 at 0x3000018 (event 61+0) = 0x1
done 94 0.3 nic[0x1000020] nic:card_xmit:101: store i64 0x2 at 0x3000018 (event 61+0)
done 95 0.3 nic[0x1000020] nic:card_xmit:76: load i64 at 0x3000018 (event 61+0) = 0x2
done 96 0.3 nic[0x1000020] nic:card_xmit:77: load i64 at 0x3000000 (event 58+0) = 0x2000030
done 97 0.3 nic[0x1000020] nic:card_xmit:79: load i64 at 0x2000038 (event 44+24) = 0x4
done 98 0.3 nic[0x1000020] nic:card_xmit:84: load i64 at 0x3000000 (event 58+0) = 0x2000030
done 99 0.3 nic[0x1000020] nic:card_xmit:86: load i64 at 0x2000030 (event 44+16) = 0x2000060
done 100 0.3 nic[0x1000020] nic:card_xmit:87: load i64 at 0x3000018 (event 61+0) = 0x2
done 101 0.3 nic[0x1000020] nic:card_xmit:89: load i8 at 0x2000062 (event 47+18) = 0
done 102 0.3 nic[0x1000020] nic:card_xmit:91: load i64 at 0x3000010 (event 60+0) = 0x2000010
done 103 0.3 nic[0x1000020] nic:card_xmit:93: load i64 at 0x2000018 (event 23+24) = 0x0
done 104 0.3 nic[0x1000020] nic:card_xmit:95: store i64 0x0 at 0x2000018 (event 23+24)
done 105 0.3 nic[0x1000020] nic:card_xmit:99: load i64 at 0x3000018 (event 61+0) = 0x2
done 106 0.3 nic[0x1000020] nic:card_xmit:101: store i64 0x3 at 0x3000018 (event 61+0)
done 107 0.3 nic[0x1000020] nic:card_xmit:76: load i64 at 0x3000018 (event 61+0) = 0x3
done 108 0.3 nic[0x1000020] nic:card_xmit:77: load i64 at 0x3000000 (event 58+0) = 0x2000030
done 109 0.3 nic[0x1000020] nic:card_xmit:79: load i64 at 0x2000038 (event 44+24) = 0x4
done 110 0.3 nic[0x1000020] nic:card_xmit:84: load i64 at 0x3000000 (event 58+0) = 0x2000030
done 111 0.3 nic[0x1000020] nic:card_xmit:86: load i64 at 0x2000030 (event 44+16) = 0x2000060
done 112 0.3 nic[0x1000020] nic:card_xmit:87: load i64 at 0x3000018 (event 61+0) = 0x3
done 113 0.3 nic[0x1000020] nic:card_xmit:89: load i8 at 0x2000063 (event 47+19) = 0
done 114 0.3 nic[0x1000020] nic:card_xmit:91: load i64 at 0x3000010 (event 60+0) = 0x2000010
done 115 0.3 nic[0x1000020] nic:card_xmit:93: load i64 at 0x2000018 (event 23+24) = 0x0
done 116 0.3 nic[0x1000020] nic:card_xmit:95: store i64 0x0 at 0x2000018 (event 23+24)
done 117 0.3 nic[0x1000020] nic:card_xmit:99: load i64 at 0x3000018 (event 61+0) = 0x3
done 118 0.3 nic[0x1000020] nic:card_xmit:101: store i64 0x4 at 0x3000018 (event 61+0)
done 119 0.3 nic[0x1000020] nic:card_xmit:76: load i64 at 0x3000018 (event 61+0) = 0x4
done 120 0.3 nic[0x1000020] nic:card_xmit:77: load i64 at 0x3000000 (event 58+0) = 0x2000030
done 121 0.3 nic[0x1000020] nic:card_xmit:79: load i64 at 0x2000038 (event 44+24) = 0x4
done 122 0.3 nic[0x1000020] nic:card_xmit:105: load i64 at 0x3000010 (event 60+0) = 0x2000010
done 123 0.3 nic[0x1000020] nic:card_xmit:107: load i64 at 0x2000018 (event 23+24) = 0x0
done 124 0.3 nic[0x1000020] nic:card_xmit:108: load i64 at 0x3000000 (event 58+0) = 0x2000030
done 125 0.3 nic[0x1000020] nic:card_xmit:110: store i64 0x0 at 0x2000040 (event 44+32)
done 126 0.3 nic[0x1000020] nic:card_xmit:111: load i64 at 0x3000000 (event 58+0) = 0x2000030
done 127 0.3 nic[0x1000020] nic:card_xmit:112: calls kernel:netif_rx(0x2000030) enters kernel:netif_rx as kernel
done 128 0.3 nic[0x1000020] nic:card_xmit:112: pre 0 of kernel:netif_rx from nic[0x1000020] to kernel
done 129 0.3 kernel kernel:netif_rx:115: load i64 at 0x2000038 (event 44+24) = 0x4
done 130 0.3 kernel kernel:netif_rx:116: calls k.note(0x4)
done 131 0.3 kernel kernel:netif_rx:117: leaves 0 at 0x3000020
done 132 0.3 nic[0x1000020] nic:card_xmit:113: leaves 32 at 0x3000000
done 133 0.3 nic[0x1000020] kernel:do_xmit:140: post 0 of nic:card_xmit from nic[0x1000020] to kernel
done 134 0.3 kernel kernel:do_xmit:141: leaves 0 at 0x3000000
ends 135 0.3 kernel script: ends: returned 0
---- file examples/nic_past.schedule
schedule 0*131
---- words examples/nic_past.case examples/nic_past.schedule
---- trace examples/nic_past.case
---- whole
status 1
done 0 0.0 kernel script: calls nic:card_init() enters nic:card_init as nic.shared
done 1 0.0 nic.shared nic:card_init:15: alloca 8 at 0x3000000
done 2 0.0 nic.shared nic:card_init:16: calls kernel:dev_register(0x10000e0) enters kernel:dev_register as kernel
done 3 0.0 kernel kernel:dev_register:56: calls k.try_lock(0x1000000) = 1
done 4 0.0 kernel kernel:dev_register:60: load i64 at 0x1000010 (kernel:@ndevs+0) = 0x0
done 5 0.0 kernel kernel:dev_register:65: store i64 0x10000e0 at 0x1000020 (kernel:@devs+0)
done 6 0.0 kernel kernel:dev_register:67: store i64 0x0 at 0x1000028 (kernel:@devs+8)
done 7 0.0 kernel kernel:dev_register:69: store i64 0x1 at 0x1000010 (kernel:@ndevs+0)
done 8 0.0 kernel kernel:dev_register:73: store i32 0 at 0x1000000 (kernel:@lock+0)
done 9 0.0 kernel kernel:dev_register:74: leaves 0 at 0x3000008
done 10 0.0 nic.shared nic:card_init:17: store i64 0x1000020 at 0x3000000 (event 1+0)
done 11 0.0 nic.shared nic:card_init:18: load i64 at 0x3000000 (event 1+0) = 0x1000020
done 12 0.0 nic.shared nic:card_init:22: leaves 8 at 0x3000000
ends 13 0.0 kernel script: ends: returned 0
done 14 0.1 kernel script: calls kernel:do_probe(0x0) enters kernel:do_probe as kernel
done 15 0.1 kernel kernel:do_probe:131: load i64 at 0x1000020 (kernel:@devs+0) = 0x10000e0
done 16 0.1 kernel kernel:do_probe:132: calls slot probe at 0x10000e0(0x1000020) enters nic:card_probe as nic[0x1000020]
done 17 0.1 kernel kernel:do_probe:132: pre 0 of nic:card_probe from kernel to nic[0x1000020]
done 18 0.1 nic[0x1000020] nic:card_probe:29: alloca 4 at 0x3000000
done 19 0.1 nic[0x1000020] nic:card_probe:30: alloca 8 at 0x3000008
done 20 0.1 nic[0x1000020] nic:card_probe:31: alloca 8 at 0x3000010
done 21 0.1 nic[0x1000020] nic:card_probe:32: store i64 0x1000020 at 0x3000008 (event 19+0)
done 22 0.1 nic[0x1000020] nic:card_probe:33: calls kernel:kzalloc(0x10) enters kernel:kzalloc as kernel
done 23 0.1 kernel kernel:kmalloc:20: calls k.alloc(0x20) = 0x2000000
done 24 0.1 kernel kernel:kmalloc:24: store i64 0x10 at 0x2000000 (event 23+0)
done 25 0.1 kernel kernel:kmalloc:26: leaves 0 at 0x3000018
done 26 0.1 kernel kernel:kzalloc:36: calls k.zero(0x2000010, 0x10)
done 27 0.1 kernel kernel:kzalloc:39: leaves 0 at 0x3000018
done 28 0.1 kernel nic:card_probe:33: post 0 of kernel:kzalloc from kernel to nic[0x1000020]
done 29 0.1 nic[0x1000020] nic:card_probe:34: store i64 0x2000010 at 0x3000010 (event 20+0)
done 30 0.1 nic[0x1000020] nic:card_probe:35: load i64 at 0x3000010 (event 20+0) = 0x2000010
done 31 0.1 nic[0x1000020] nic:card_probe:44: load i64 at 0x3000008 (event 19+0) = 0x1000020
done 32 0.1 nic[0x1000020] nic:card_probe:45: load i64 at 0x3000010 (event 20+0) = 0x2000010
done 33 0.1 nic[0x1000020] nic:card_probe:46: calls kernel:dev_set_priv(0x1000020, 0x2000010) enters kernel:dev_set_priv as kernel
done 34 0.1 nic[0x1000020] nic:card_probe:46: pre 0 of kernel:dev_set_priv from nic[0x1000020] to kernel
done 35 0.1 kernel kernel:dev_set_priv:79: store i64 0x2000010 at 0x1000030 (kernel:@devs+16)
done 36 0.1 kernel kernel:dev_set_priv:80: leaves 0 at 0x3000018
done 37 0.1 nic[0x1000020] nic:card_probe:47: store i32 0 at 0x3000000 (event 18+0)
done 38 0.1 nic[0x1000020] nic:card_probe:51: load i32 at 0x3000000 (event 18+0) = 0
done 39 0.1 nic[0x1000020] nic:card_probe:52: leaves 24 at 0x3000000
done 40 0.1 nic[0x1000020] kernel:do_probe:132: post 0 of nic:card_probe from nic[0x1000020] to kernel
done 41 0.1 kernel kernel:do_probe:133: leaves 0 at 0x3000000
ends 42 0.1 kernel script: ends: returned 0
done 43 0.2 kernel script: calls kernel:skb_new(0x4) enters kernel:skb_new as kernel
done 44 0.2 kernel kernel:kmalloc:20: calls k.alloc(0x28) = 0x2000020
done 45 0.2 kernel kernel:kmalloc:24: store i64 0x18 at 0x2000020 (event 44+0)
done 46 0.2 kernel kernel:kmalloc:26: leaves 0 at 0x3000000
done 47 0.2 kernel kernel:kmalloc:20: calls k.alloc(0x14) = 0x2000050
done 48 0.2 kernel kernel:kmalloc:24: store i64 0x4 at 0x2000050 (event 47+0)
done 49 0.2 kernel kernel:kmalloc:26: leaves 0 at 0x3000000
done 50 0.2 kernel kernel:skb_new:102: store i64 0x2000060 at 0x2000030 (event 44+16)
done 51 0.2 kernel kernel:skb_new:104: store i64 0x4 at 0x2000038 (event 44+24)
done 52 0.2 kernel kernel:skb_new:105: leaves 0 at 0x3000000
ends 53 0.2 kernel script: ends: returned 0x2000030
done 54 0.3 kernel script: calls kernel:do_xmit(0x0, 0x2000030) enters kernel:do_xmit as kernel
done 55 0.3 kernel kernel:do_xmit:138: load i64 at 0x1000020 (kernel:@devs+0) = 0x10000e0
done 56 0.3 kernel kernel:do_xmit:140: calls slot xmit at 0x10000e8(0x2000030, 0x1000020) enters nic:card_xmit as nic[0x1000020]
done 57 0.3 kernel kernel:do_xmit:140: pre 0 of nic:card_xmit from kernel to nic[0x1000020]
done 58 0.3 nic[0x1000020] nic:card_xmit:57: alloca 8 at 0x3000000
done 59 0.3 nic[0x1000020] nic:card_xmit:58: alloca 8 at 0x3000008
done 60 0.3 nic[0x1000020] nic:card_xmit:59: alloca 8 at 0x3000010
done 61 0.3 nic[0x1000020] nic:card_xmit:60: alloca 8 at 0x3000018
done 62 0.3 nic[0x1000020] nic:card_xmit:61: store i64 0x2000030 at 0x3000000 (event 58+0)
done 63 0.3 nic[0x1000020] nic:card_xmit:62: store i64 0x1000020 at 0x3000008 (event 59+0)
done 64 0.3 nic[0x1000020] nic:card_xmit:63: load i64 at 0x3000008 (event 59+0) = 0x1000020
done 65 0.3 nic[0x1000020] nic:card_xmit:65: load i64 at 0x1000030 (kernel:@devs+16) = 0x2000010
done 66 0.3 nic[0x1000020] nic:card_xmit:66: store i64 0x2000010 at 0x3000010 (event 60+0)
done 67 0.3 nic[0x1000020] nic:card_xmit:67: load i64 at 0x3000010 (event 60+0) = 0x2000010
done 68 0.3 nic[0x1000020] nic:card_xmit:69: load i64 at 0x2000010 (event 23+16) = 0x0
done 69 0.3 nic[0x1000020] nic:card_xmit:71: store i64 0x1 at 0x2000010 (event 23+16)
done 70 0.3 nic[0x1000020] nic:card_xmit:72: store i64 0x0 at 0x3000018 (event 61+0)
done 71 0.3 nic[0x1000020] nic:card_xmit:76: load i64 at 0x3000018 (event 61+0) = 0x0
done 72 0.3 nic[0x1000020] nic:card_xmit:77: load i64 at 0x3000000 (event 58+0) = 0x2000030
done 73 0.3 nic[0x1000020] nic:card_xmit:79: load i64 at 0x2000038 (event 44+24) = 0x4
done 74 0.3 nic[0x1000020] nic:card_xmit:84: load i64 at 0x3000000 (event 58+0) = 0x2000030
done 75 0.3 nic[0x1000020] nic:card_xmit:86: load i64 at 0x2000030 (event 44+16) = 0x2000060
done 76 0.3 nic[0x1000020] nic:card_xmit:87: load i64 at 0x3000018 (event 61+0) = 0x0
done 77 0.3 nic[0x1000020] nic:card_xmit:89: load i8 at 0x2000060 (event 47+16) = 0
done 78 0.3 nic[0x1000020] nic:card_xmit:91: load i64 at 0x3000010 (event 60+0) = 0x2000010
done 79 0.3 nic[0x1000020] nic:card_xmit:93: load i64 at 0x2000018 (event 23+24) = 0x0
done 80 0.3 nic[0x1000020] nic:card_xmit:95: store i64 0x0 at 0x2000018 (event 23+24)
done 81 0.3 nic[0x1000020] nic:card_xmit:99: load i64 at 0x3000018 (event 61+0) = 0x0
done 82 0.3 nic[0x1000020] nic:card_xmit:101: store i64 0x1 at 0x3000018 (event 61+0)
done 83 0.3 nic[0x1000020] nic:card_xmit:76: load i64 at 0x3000018 (event 61+0) = 0x1
done 84 0.3 nic[0x1000020] nic:card_xmit:77: load i64 at 0x3000000 (event 58+0) = 0x2000030
done 85 0.3 nic[0x1000020] nic:card_xmit:79: load i64 at 0x2000038 (event 44+24) = 0x4
done 86 0.3 nic[0x1000020] nic:card_xmit:84: load i64 at 0x3000000 (event 58+0) = 0x2000030
done 87 0.3 nic[0x1000020] nic:card_xmit:86: load i64 at 0x2000030 (event 44+16) = 0x2000060
done 88 0.3 nic[0x1000020] nic:card_xmit:87: load i64 at 0x3000018 (event 61+0) = 0x1
done 89 0.3 nic[0x1000020] nic:card_xmit:89: load i8 at 0x2000061 (event 47+17) = 0
done 90 0.3 nic[0x1000020] nic:card_xmit:91: load i64 at 0x3000010 (event 60+0) = 0x2000010
done 91 0.3 nic[0x1000020] nic:card_xmit:93: load i64 at 0x2000018 (event 23+24) = 0x0
done 92 0.3 nic[0x1000020] nic:card_xmit:95: store i64 0x0 at 0x2000018 (event 23+24)
done 93 0.3 nic[0x1000020] nic:card_xmit:99: load i64 at 0x3000018 (event 61+0) = 0x1
done 94 0.3 nic[0x1000020] nic:card_xmit:101: store i64 0x2 at 0x3000018 (event 61+0)
done 95 0.3 nic[0x1000020] nic:card_xmit:76: load i64 at 0x3000018 (event 61+0) = 0x2
done 96 0.3 nic[0x1000020] nic:card_xmit:77: load i64 at 0x3000000 (event 58+0) = 0x2000030
done 97 0.3 nic[0x1000020] nic:card_xmit:79: load i64 at 0x2000038 (event 44+24) = 0x4
done 98 0.3 nic[0x1000020] nic:card_xmit:84: load i64 at 0x3000000 (event 58+0) = 0x2000030
done 99 0.3 nic[0x1000020] nic:card_xmit:86: load i64 at 0x2000030 (event 44+16) = 0x2000060
done 100 0.3 nic[0x1000020] nic:card_xmit:87: load i64 at 0x3000018 (event 61+0) = 0x2
done 101 0.3 nic[0x1000020] nic:card_xmit:89: load i8 at 0x2000062 (event 47+18) = 0
done 102 0.3 nic[0x1000020] nic:card_xmit:91: load i64 at 0x3000010 (event 60+0) = 0x2000010
done 103 0.3 nic[0x1000020] nic:card_xmit:93: load i64 at 0x2000018 (event 23+24) = 0x0
done 104 0.3 nic[0x1000020] nic:card_xmit:95: store i64 0x0 at 0x2000018 (event 23+24)
done 105 0.3 nic[0x1000020] nic:card_xmit:99: load i64 at 0x3000018 (event 61+0) = 0x2
done 106 0.3 nic[0x1000020] nic:card_xmit:101: store i64 0x3 at 0x3000018 (event 61+0)
done 107 0.3 nic[0x1000020] nic:card_xmit:76: load i64 at 0x3000018 (event 61+0) = 0x3
done 108 0.3 nic[0x1000020] nic:card_xmit:77: load i64 at 0x3000000 (event 58+0) = 0x2000030
done 109 0.3 nic[0x1000020] nic:card_xmit:79: load i64 at 0x2000038 (event 44+24) = 0x4
done 110 0.3 nic[0x1000020] nic:card_xmit:84: load i64 at 0x3000000 (event 58+0) = 0x2000030
done 111 0.3 nic[0x1000020] nic:card_xmit:86: load i64 at 0x2000030 (event 44+16) = 0x2000060
done 112 0.3 nic[0x1000020] nic:card_xmit:87: load i64 at 0x3000018 (event 61+0) = 0x3
done 113 0.3 nic[0x1000020] nic:card_xmit:89: load i8 at 0x2000063 (event 47+19) = 0
done 114 0.3 nic[0x1000020] nic:card_xmit:91: load i64 at 0x3000010 (event 60+0) = 0x2000010
done 115 0.3 nic[0x1000020] nic:card_xmit:93: load i64 at 0x2000018 (event 23+24) = 0x0
done 116 0.3 nic[0x1000020] nic:card_xmit:95: store i64 0x0 at 0x2000018 (event 23+24)
done 117 0.3 nic[0x1000020] nic:card_xmit:99: load i64 at 0x3000018 (event 61+0) = 0x3
done 118 0.3 nic[0x1000020] nic:card_xmit:101: store i64 0x4 at 0x3000018 (event 61+0)
done 119 0.3 nic[0x1000020] nic:card_xmit:76: load i64 at 0x3000018 (event 61+0) = 0x4
done 120 0.3 nic[0x1000020] nic:card_xmit:77: load i64 at 0x3000000 (event 58+0) = 0x2000030
done 121 0.3 nic[0x1000020] nic:card_xmit:79: load i64 at 0x2000038 (event 44+24) = 0x4
done 122 0.3 nic[0x1000020] nic:card_xmit:105: load i64 at 0x3000010 (event 60+0) = 0x2000010
done 123 0.3 nic[0x1000020] nic:card_xmit:107: load i64 at 0x2000018 (event 23+24) = 0x0
done 124 0.3 nic[0x1000020] nic:card_xmit:108: load i64 at 0x3000000 (event 58+0) = 0x2000030
done 125 0.3 nic[0x1000020] nic:card_xmit:110: store i64 0x0 at 0x2000040 (event 44+32)
done 126 0.3 nic[0x1000020] nic:card_xmit:111: load i64 at 0x3000000 (event 58+0) = 0x2000030
done 127 0.3 nic[0x1000020] nic:card_xmit:113: load i64 at 0x2000030 (event 44+16) = 0x2000060
done 128 0.3 nic[0x1000020] nic:card_xmit:114: load i64 at 0x3000000 (event 58+0) = 0x2000030
done 129 0.3 nic[0x1000020] nic:card_xmit:116: load i64 at 0x2000038 (event 44+24) = 0x4
refused 130 0.3 nic[0x1000020] nic:card_xmit:118: store i8 0 at 0x2000064: refused 1 nic[0x1000020] write 0x2000064+1
---- file examples/nic_after.schedule
schedule 0*134
---- words examples/nic_after.case examples/nic_after.schedule
---- trace examples/nic_after.case
---- whole
status 1
done 0 0.0 kernel script: calls nic:card_init() enters nic:card_init as nic.shared
done 1 0.0 nic.shared nic:card_init:15: alloca 8 at 0x3000000
done 2 0.0 nic.shared nic:card_init:16: calls kernel:dev_register(0x10000e0) enters kernel:dev_register as kernel
done 3 0.0 kernel kernel:dev_register:56: calls k.try_lock(0x1000000) = 1
done 4 0.0 kernel kernel:dev_register:60: load i64 at 0x1000010 (kernel:@ndevs+0) = 0x0
done 5 0.0 kernel kernel:dev_register:65: store i64 0x10000e0 at 0x1000020 (kernel:@devs+0)
done 6 0.0 kernel kernel:dev_register:67: store i64 0x0 at 0x1000028 (kernel:@devs+8)
done 7 0.0 kernel kernel:dev_register:69: store i64 0x1 at 0x1000010 (kernel:@ndevs+0)
done 8 0.0 kernel kernel:dev_register:73: store i32 0 at 0x1000000 (kernel:@lock+0)
done 9 0.0 kernel kernel:dev_register:74: leaves 0 at 0x3000008
done 10 0.0 nic.shared nic:card_init:17: store i64 0x1000020 at 0x3000000 (event 1+0)
done 11 0.0 nic.shared nic:card_init:18: load i64 at 0x3000000 (event 1+0) = 0x1000020
done 12 0.0 nic.shared nic:card_init:22: leaves 8 at 0x3000000
ends 13 0.0 kernel script: ends: returned 0
done 14 0.1 kernel script: calls kernel:do_probe(0x0) enters kernel:do_probe as kernel
done 15 0.1 kernel kernel:do_probe:131: load i64 at 0x1000020 (kernel:@devs+0) = 0x10000e0
done 16 0.1 kernel kernel:do_probe:132: calls slot probe at 0x10000e0(0x1000020) enters nic:card_probe as nic[0x1000020]
done 17 0.1 kernel kernel:do_probe:132: pre 0 of nic:card_probe from kernel to nic[0x1000020]
done 18 0.1 nic[0x1000020] nic:card_probe:29: alloca 4 at 0x3000000
done 19 0.1 nic[0x1000020] nic:card_probe:30: alloca 8 at 0x3000008
done 20 0.1 nic[0x1000020] nic:card_probe:31: alloca 8 at 0x3000010
done 21 0.1 nic[0x1000020] nic:card_probe:32: store i64 0x1000020 at 0x3000008 (event 19+0)
done 22 0.1 nic[0x1000020] nic:card_probe:33: calls kernel:kzalloc(0x10) enters kernel:kzalloc as kernel
done 23 0.1 kernel kernel:kmalloc:20: calls k.alloc(0x20) = 0x2000000
done 24 0.1 kernel kernel:kmalloc:24: store i64 0x10 at 0x2000000 (event 23+0)
done 25 0.1 kernel kernel:kmalloc:26: leaves 0 at 0x3000018
done 26 0.1 kernel kernel:kzalloc:36: calls k.zero(0x2000010, 0x10)
done 27 0.1 kernel kernel:kzalloc:39: leaves 0 at 0x3000018
done 28 0.1 kernel nic:card_probe:33: post 0 of kernel:kzalloc from kernel to nic[0x1000020]
done 29 0.1 nic[0x1000020] nic:card_probe:34: store i64 0x2000010 at 0x3000010 (event 20+0)
done 30 0.1 nic[0x1000020] nic:card_probe:35: load i64 at 0x3000010 (event 20+0) = 0x2000010
done 31 0.1 nic[0x1000020] nic:card_probe:44: load i64 at 0x3000008 (event 19+0) = 0x1000020
done 32 0.1 nic[0x1000020] nic:card_probe:45: load i64 at 0x3000010 (event 20+0) = 0x2000010
done 33 0.1 nic[0x1000020] nic:card_probe:46: calls kernel:dev_set_priv(0x1000020, 0x2000010) enters kernel:dev_set_priv as kernel
done 34 0.1 nic[0x1000020] nic:card_probe:46: pre 0 of kernel:dev_set_priv from nic[0x1000020] to kernel
done 35 0.1 kernel kernel:dev_set_priv:79: store i64 0x2000010 at 0x1000030 (kernel:@devs+16)
done 36 0.1 kernel kernel:dev_set_priv:80: leaves 0 at 0x3000018
done 37 0.1 nic[0x1000020] nic:card_probe:47: store i32 0 at 0x3000000 (event 18+0)
done 38 0.1 nic[0x1000020] nic:card_probe:51: load i32 at 0x3000000 (event 18+0) = 0
done 39 0.1 nic[0x1000020] nic:card_probe:52: leaves 24 at 0x3000000
done 40 0.1 nic[0x1000020] kernel:do_probe:132: post 0 of nic:card_probe from nic[0x1000020] to kernel
done 41 0.1 kernel kernel:do_probe:133: leaves 0 at 0x3000000
ends 42 0.1 kernel script: ends: returned 0
done 43 0.2 kernel script: calls kernel:skb_new(0x4) enters kernel:skb_new as kernel
done 44 0.2 kernel kernel:kmalloc:20: calls k.alloc(0x28) = 0x2000020
done 45 0.2 kernel kernel:kmalloc:24: store i64 0x18 at 0x2000020 (event 44+0)
done 46 0.2 kernel kernel:kmalloc:26: leaves 0 at 0x3000000
done 47 0.2 kernel kernel:kmalloc:20: calls k.alloc(0x14) = 0x2000050
done 48 0.2 kernel kernel:kmalloc:24: store i64 0x4 at 0x2000050 (event 47+0)
done 49 0.2 kernel kernel:kmalloc:26: leaves 0 at 0x3000000
done 50 0.2 kernel kernel:skb_new:102: store i64 0x2000060 at 0x2000030 (event 44+16)
done 51 0.2 kernel kernel:skb_new:104: store i64 0x4 at 0x2000038 (event 44+24)
done 52 0.2 kernel kernel:skb_new:105: leaves 0 at 0x3000000
ends 53 0.2 kernel script: ends: returned 0x2000030
done 54 0.3 kernel script: calls kernel:do_xmit(0x0, 0x2000030) enters kernel:do_xmit as kernel
done 55 0.3 kernel kernel:do_xmit:138: load i64 at 0x1000020 (kernel:@devs+0) = 0x10000e0
done 56 0.3 kernel kernel:do_xmit:140: calls slot xmit at 0x10000e8(0x2000030, 0x1000020) enters nic:card_xmit as nic[0x1000020]
done 57 0.3 kernel kernel:do_xmit:140: pre 0 of nic:card_xmit from kernel to nic[0x1000020]
done 58 0.3 nic[0x1000020] nic:card_xmit:57: alloca 8 at 0x3000000
done 59 0.3 nic[0x1000020] nic:card_xmit:58: alloca 8 at 0x3000008
done 60 0.3 nic[0x1000020] nic:card_xmit:59: alloca 8 at 0x3000010
done 61 0.3 nic[0x1000020] nic:card_xmit:60: alloca 8 at 0x3000018
done 62 0.3 nic[0x1000020] nic:card_xmit:61: store i64 0x2000030 at 0x3000000 (event 58+0)
done 63 0.3 nic[0x1000020] nic:card_xmit:62: store i64 0x1000020 at 0x3000008 (event 59+0)
done 64 0.3 nic[0x1000020] nic:card_xmit:63: load i64 at 0x3000008 (event 59+0) = 0x1000020
done 65 0.3 nic[0x1000020] nic:card_xmit:65: load i64 at 0x1000030 (kernel:@devs+16) = 0x2000010
done 66 0.3 nic[0x1000020] nic:card_xmit:66: store i64 0x2000010 at 0x3000010 (event 60+0)
done 67 0.3 nic[0x1000020] nic:card_xmit:67: load i64 at 0x3000010 (event 60+0) = 0x2000010
done 68 0.3 nic[0x1000020] nic:card_xmit:69: load i64 at 0x2000010 (event 23+16) = 0x0
done 69 0.3 nic[0x1000020] nic:card_xmit:71: store i64 0x1 at 0x2000010 (event 23+16)
done 70 0.3 nic[0x1000020] nic:card_xmit:72: store i64 0x0 at 0x3000018 (event 61+0)
done 71 0.3 nic[0x1000020] nic:card_xmit:76: load i64 at 0x3000018 (event 61+0) = 0x0
done 72 0.3 nic[0x1000020] nic:card_xmit:77: load i64 at 0x3000000 (event 58+0) = 0x2000030
done 73 0.3 nic[0x1000020] nic:card_xmit:79: load i64 at 0x2000038 (event 44+24) = 0x4
done 74 0.3 nic[0x1000020] nic:card_xmit:84: load i64 at 0x3000000 (event 58+0) = 0x2000030
done 75 0.3 nic[0x1000020] nic:card_xmit:86: load i64 at 0x2000030 (event 44+16) = 0x2000060
done 76 0.3 nic[0x1000020] nic:card_xmit:87: load i64 at 0x3000018 (event 61+0) = 0x0
done 77 0.3 nic[0x1000020] nic:card_xmit:89: load i8 at 0x2000060 (event 47+16) = 0
done 78 0.3 nic[0x1000020] nic:card_xmit:91: load i64 at 0x3000010 (event 60+0) = 0x2000010
done 79 0.3 nic[0x1000020] nic:card_xmit:93: load i64 at 0x2000018 (event 23+24) = 0x0
done 80 0.3 nic[0x1000020] nic:card_xmit:95: store i64 0x0 at 0x2000018 (event 23+24)
done 81 0.3 nic[0x1000020] nic:card_xmit:99: load i64 at 0x3000018 (event 61+0) = 0x0
done 82 0.3 nic[0x1000020] nic:card_xmit:101: store i64 0x1 at 0x3000018 (event 61+0)
done 83 0.3 nic[0x1000020] nic:card_xmit:76: load i64 at 0x3000018 (event 61+0) = 0x1
done 84 0.3 nic[0x1000020] nic:card_xmit:77: load i64 at 0x3000000 (event 58+0) = 0x2000030
done 85 0.3 nic[0x1000020] nic:card_xmit:79: load i64 at 0x2000038 (event 44+24) = 0x4
done 86 0.3 nic[0x1000020] nic:card_xmit:84: load i64 at 0x3000000 (event 58+0) = 0x2000030
done 87 0.3 nic[0x1000020] nic:card_xmit:86: load i64 at 0x2000030 (event 44+16) = 0x2000060
done 88 0.3 nic[0x1000020] nic:card_xmit:87: load i64 at 0x3000018 (event 61+0) = 0x1
done 89 0.3 nic[0x1000020] nic:card_xmit:89: load i8 at 0x2000061 (event 47+17) = 0
done 90 0.3 nic[0x1000020] nic:card_xmit:91: load i64 at 0x3000010 (event 60+0) = 0x2000010
done 91 0.3 nic[0x1000020] nic:card_xmit:93: load i64 at 0x2000018 (event 23+24) = 0x0
done 92 0.3 nic[0x1000020] nic:card_xmit:95: store i64 0x0 at 0x2000018 (event 23+24)
done 93 0.3 nic[0x1000020] nic:card_xmit:99: load i64 at 0x3000018 (event 61+0) = 0x1
done 94 0.3 nic[0x1000020] nic:card_xmit:101: store i64 0x2 at 0x3000018 (event 61+0)
done 95 0.3 nic[0x1000020] nic:card_xmit:76: load i64 at 0x3000018 (event 61+0) = 0x2
done 96 0.3 nic[0x1000020] nic:card_xmit:77: load i64 at 0x3000000 (event 58+0) = 0x2000030
done 97 0.3 nic[0x1000020] nic:card_xmit:79: load i64 at 0x2000038 (event 44+24) = 0x4
done 98 0.3 nic[0x1000020] nic:card_xmit:84: load i64 at 0x3000000 (event 58+0) = 0x2000030
done 99 0.3 nic[0x1000020] nic:card_xmit:86: load i64 at 0x2000030 (event 44+16) = 0x2000060
done 100 0.3 nic[0x1000020] nic:card_xmit:87: load i64 at 0x3000018 (event 61+0) = 0x2
done 101 0.3 nic[0x1000020] nic:card_xmit:89: load i8 at 0x2000062 (event 47+18) = 0
done 102 0.3 nic[0x1000020] nic:card_xmit:91: load i64 at 0x3000010 (event 60+0) = 0x2000010
done 103 0.3 nic[0x1000020] nic:card_xmit:93: load i64 at 0x2000018 (event 23+24) = 0x0
done 104 0.3 nic[0x1000020] nic:card_xmit:95: store i64 0x0 at 0x2000018 (event 23+24)
done 105 0.3 nic[0x1000020] nic:card_xmit:99: load i64 at 0x3000018 (event 61+0) = 0x2
done 106 0.3 nic[0x1000020] nic:card_xmit:101: store i64 0x3 at 0x3000018 (event 61+0)
done 107 0.3 nic[0x1000020] nic:card_xmit:76: load i64 at 0x3000018 (event 61+0) = 0x3
done 108 0.3 nic[0x1000020] nic:card_xmit:77: load i64 at 0x3000000 (event 58+0) = 0x2000030
done 109 0.3 nic[0x1000020] nic:card_xmit:79: load i64 at 0x2000038 (event 44+24) = 0x4
done 110 0.3 nic[0x1000020] nic:card_xmit:84: load i64 at 0x3000000 (event 58+0) = 0x2000030
done 111 0.3 nic[0x1000020] nic:card_xmit:86: load i64 at 0x2000030 (event 44+16) = 0x2000060
done 112 0.3 nic[0x1000020] nic:card_xmit:87: load i64 at 0x3000018 (event 61+0) = 0x3
done 113 0.3 nic[0x1000020] nic:card_xmit:89: load i8 at 0x2000063 (event 47+19) = 0
done 114 0.3 nic[0x1000020] nic:card_xmit:91: load i64 at 0x3000010 (event 60+0) = 0x2000010
done 115 0.3 nic[0x1000020] nic:card_xmit:93: load i64 at 0x2000018 (event 23+24) = 0x0
done 116 0.3 nic[0x1000020] nic:card_xmit:95: store i64 0x0 at 0x2000018 (event 23+24)
done 117 0.3 nic[0x1000020] nic:card_xmit:99: load i64 at 0x3000018 (event 61+0) = 0x3
done 118 0.3 nic[0x1000020] nic:card_xmit:101: store i64 0x4 at 0x3000018 (event 61+0)
done 119 0.3 nic[0x1000020] nic:card_xmit:76: load i64 at 0x3000018 (event 61+0) = 0x4
done 120 0.3 nic[0x1000020] nic:card_xmit:77: load i64 at 0x3000000 (event 58+0) = 0x2000030
done 121 0.3 nic[0x1000020] nic:card_xmit:79: load i64 at 0x2000038 (event 44+24) = 0x4
done 122 0.3 nic[0x1000020] nic:card_xmit:105: load i64 at 0x3000010 (event 60+0) = 0x2000010
done 123 0.3 nic[0x1000020] nic:card_xmit:107: load i64 at 0x2000018 (event 23+24) = 0x0
done 124 0.3 nic[0x1000020] nic:card_xmit:108: load i64 at 0x3000000 (event 58+0) = 0x2000030
done 125 0.3 nic[0x1000020] nic:card_xmit:110: store i64 0x0 at 0x2000040 (event 44+32)
done 126 0.3 nic[0x1000020] nic:card_xmit:111: load i64 at 0x3000000 (event 58+0) = 0x2000030
done 127 0.3 nic[0x1000020] nic:card_xmit:112: calls kernel:netif_rx(0x2000030) enters kernel:netif_rx as kernel
done 128 0.3 nic[0x1000020] nic:card_xmit:112: pre 0 of kernel:netif_rx from nic[0x1000020] to kernel
done 129 0.3 kernel kernel:netif_rx:115: load i64 at 0x2000038 (event 44+24) = 0x4
done 130 0.3 kernel kernel:netif_rx:116: calls k.note(0x4)
done 131 0.3 kernel kernel:netif_rx:117: leaves 0 at 0x3000020
done 132 0.3 nic[0x1000020] nic:card_xmit:113: load i64 at 0x3000000 (event 58+0) = 0x2000030
refused 133 0.3 nic[0x1000020] nic:card_xmit:115: store i64 0x0 at 0x2000040 (event 44+32): refused 1 nic[0x1000020] write 0x2000040+8
---- file examples/nic_bent.schedule
schedule 0*21
---- words examples/nic_bent.case examples/nic_bent.schedule
---- trace examples/nic_bent.case
---- whole
status 1
done 0 0.0 kernel script: calls nic:card_init() enters nic:card_init as nic.shared
done 1 0.0 nic.shared nic:card_init:15: alloca 8 at 0x3000000
done 2 0.0 nic.shared nic:card_init:16: calls kernel:dev_register(0x10000e0) enters kernel:dev_register as kernel
done 3 0.0 kernel kernel:dev_register:56: calls k.try_lock(0x1000000) = 1
done 4 0.0 kernel kernel:dev_register:60: load i64 at 0x1000010 (kernel:@ndevs+0) = 0x0
done 5 0.0 kernel kernel:dev_register:65: store i64 0x10000e0 at 0x1000020 (kernel:@devs+0)
done 6 0.0 kernel kernel:dev_register:67: store i64 0x0 at 0x1000028 (kernel:@devs+8)
done 7 0.0 kernel kernel:dev_register:69: store i64 0x1 at 0x1000010 (kernel:@ndevs+0)
done 8 0.0 kernel kernel:dev_register:73: store i32 0 at 0x1000000 (kernel:@lock+0)
done 9 0.0 kernel kernel:dev_register:74: leaves 0 at 0x3000008
done 10 0.0 nic.shared nic:card_init:17: store i64 0x1000020 at 0x3000000 (event 1+0)
done 11 0.0 nic.shared nic:card_init:18: load i64 at 0x3000000 (event 1+0) = 0x1000020
done 12 0.0 nic.shared nic:card_init:22: leaves 8 at 0x3000000
ends 13 0.0 kernel script: ends: returned 0
done 14 0.1 kernel script: calls nic:card_bend() enters nic:card_bend as nic.shared
done 15 0.1 nic.shared nic:card_bend:29: store i64 0x10100 at 0x10000e0 (nic:@card_ops+0)
done 16 0.1 nic.shared nic:card_bend:30: leaves 0 at 0x3000000
ends 17 0.1 kernel script: ends: returned
done 18 0.2 kernel script: calls kernel:do_probe(0x0) enters kernel:do_probe as kernel
done 19 0.2 kernel kernel:do_probe:131: load i64 at 0x1000020 (kernel:@devs+0) = 0x10000e0
refused 20 0.2 kernel kernel:do_probe:132: calls slot probe at 0x10000e0(0x1000020): refused 6 nic.shared call 0x10100 slot 0x10000e0
---- file examples/other.schedule
schedule 0*100
---- words examples/other.case examples/other.schedule
---- trace examples/other.case
---- whole
status 1
done 0 0.0 kernel script: calls nic:card_init() enters nic:card_init as nic.shared
done 1 0.0 nic.shared nic:card_init:15: alloca 4 at 0x3000000
done 2 0.0 nic.shared nic:card_init:16: calls kernel:dev_register(0x10000e0) enters kernel:dev_register as kernel
done 3 0.0 kernel kernel:dev_register:56: calls k.try_lock(0x1000000) = 1
done 4 0.0 kernel kernel:dev_register:60: load i64 at 0x1000010 (kernel:@ndevs+0) = 0x0
done 5 0.0 kernel kernel:dev_register:65: store i64 0x10000e0 at 0x1000020 (kernel:@devs+0)
done 6 0.0 kernel kernel:dev_register:67: store i64 0x0 at 0x1000028 (kernel:@devs+8)
done 7 0.0 kernel kernel:dev_register:69: store i64 0x1 at 0x1000010 (kernel:@ndevs+0)
done 8 0.0 kernel kernel:dev_register:73: store i32 0 at 0x1000000 (kernel:@lock+0)
done 9 0.0 kernel kernel:dev_register:74: leaves 0 at 0x3000004
done 10 0.0 nic.shared nic:card_init:21: calls kernel:dev_register(0x10000e0) enters kernel:dev_register as kernel
done 11 0.0 kernel kernel:dev_register:56: calls k.try_lock(0x1000000) = 1
done 12 0.0 kernel kernel:dev_register:60: load i64 at 0x1000010 (kernel:@ndevs+0) = 0x1
done 13 0.0 kernel kernel:dev_register:65: store i64 0x10000e0 at 0x1000038 (kernel:@devs+24)
done 14 0.0 kernel kernel:dev_register:67: store i64 0x1 at 0x1000040 (kernel:@devs+32)
done 15 0.0 kernel kernel:dev_register:69: store i64 0x2 at 0x1000010 (kernel:@ndevs+0)
done 16 0.0 kernel kernel:dev_register:73: store i32 0 at 0x1000000 (kernel:@lock+0)
done 17 0.0 kernel kernel:dev_register:74: leaves 0 at 0x3000004
done 18 0.0 nic.shared nic:card_init:30: store i32 0 at 0x3000000 (event 1+0)
done 19 0.0 nic.shared nic:card_init:34: load i32 at 0x3000000 (event 1+0) = 0
done 20 0.0 nic.shared nic:card_init:35: leaves 4 at 0x3000000
ends 21 0.0 kernel script: ends: returned 0
done 22 0.1 kernel script: calls kernel:do_probe(0x0) enters kernel:do_probe as kernel
done 23 0.1 kernel kernel:do_probe:131: load i64 at 0x1000020 (kernel:@devs+0) = 0x10000e0
done 24 0.1 kernel kernel:do_probe:132: calls slot probe at 0x10000e0(0x1000020) enters nic:card_probe as nic[0x1000020]
done 25 0.1 kernel kernel:do_probe:132: pre 0 of nic:card_probe from kernel to nic[0x1000020]
done 26 0.1 nic[0x1000020] nic:card_probe:42: alloca 4 at 0x3000000
done 27 0.1 nic[0x1000020] nic:card_probe:43: alloca 8 at 0x3000008
done 28 0.1 nic[0x1000020] nic:card_probe:44: store i64 0x1000020 at 0x3000008 (event 27+0)
done 29 0.1 nic[0x1000020] nic:card_probe:45: calls kernel:kzalloc(0x10) enters kernel:kzalloc as kernel
done 30 0.1 kernel kernel:kmalloc:20: calls k.alloc(0x20) = 0x2000000
done 31 0.1 kernel kernel:kmalloc:24: store i64 0x10 at 0x2000000 (event 30+0)
done 32 0.1 kernel kernel:kmalloc:26: leaves 0 at 0x3000010
done 33 0.1 kernel kernel:kzalloc:36: calls k.zero(0x2000010, 0x10)
done 34 0.1 kernel kernel:kzalloc:39: leaves 0 at 0x3000010
done 35 0.1 kernel nic:card_probe:45: post 0 of kernel:kzalloc from kernel to nic[0x1000020]
done 36 0.1 nic[0x1000020] nic:card_probe:46: store i64 0x2000010 at 0x10000f0 (nic:@card+0)
done 37 0.1 nic[0x1000020] nic:card_probe:47: load i64 at 0x10000f0 (nic:@card+0) = 0x2000010
done 38 0.1 nic[0x1000020] nic:card_probe:56: load i64 at 0x3000008 (event 27+0) = 0x1000020
done 39 0.1 nic[0x1000020] nic:card_probe:57: load i64 at 0x10000f0 (nic:@card+0) = 0x2000010
done 40 0.1 nic[0x1000020] nic:card_probe:58: calls kernel:dev_set_priv(0x1000020, 0x2000010) enters kernel:dev_set_priv as kernel
done 41 0.1 nic[0x1000020] nic:card_probe:58: pre 0 of kernel:dev_set_priv from nic[0x1000020] to kernel
done 42 0.1 kernel kernel:dev_set_priv:79: store i64 0x2000010 at 0x1000030 (kernel:@devs+16)
done 43 0.1 kernel kernel:dev_set_priv:80: leaves 0 at 0x3000010
done 44 0.1 nic[0x1000020] nic:card_probe:59: store i32 0 at 0x3000000 (event 26+0)
done 45 0.1 nic[0x1000020] nic:card_probe:63: load i32 at 0x3000000 (event 26+0) = 0
done 46 0.1 nic[0x1000020] nic:card_probe:64: leaves 16 at 0x3000000
done 47 0.1 nic[0x1000020] kernel:do_probe:132: post 0 of nic:card_probe from nic[0x1000020] to kernel
done 48 0.1 kernel kernel:do_probe:133: leaves 0 at 0x3000000
ends 49 0.1 kernel script: ends: returned 0
done 50 0.2 kernel script: calls kernel:do_probe(0x1) enters kernel:do_probe as kernel
done 51 0.2 kernel kernel:do_probe:131: load i64 at 0x1000038 (kernel:@devs+24) = 0x10000e0
done 52 0.2 kernel kernel:do_probe:132: calls slot probe at 0x10000e0(0x1000038) enters nic:card_probe as nic[0x1000038]
done 53 0.2 kernel kernel:do_probe:132: pre 0 of nic:card_probe from kernel to nic[0x1000038]
done 54 0.2 nic[0x1000038] nic:card_probe:42: alloca 4 at 0x3000000
done 55 0.2 nic[0x1000038] nic:card_probe:43: alloca 8 at 0x3000008
done 56 0.2 nic[0x1000038] nic:card_probe:44: store i64 0x1000038 at 0x3000008 (event 55+0)
done 57 0.2 nic[0x1000038] nic:card_probe:45: calls kernel:kzalloc(0x10) enters kernel:kzalloc as kernel
done 58 0.2 kernel kernel:kmalloc:20: calls k.alloc(0x20) = 0x2000020
done 59 0.2 kernel kernel:kmalloc:24: store i64 0x10 at 0x2000020 (event 58+0)
done 60 0.2 kernel kernel:kmalloc:26: leaves 0 at 0x3000010
done 61 0.2 kernel kernel:kzalloc:36: calls k.zero(0x2000030, 0x10)
done 62 0.2 kernel kernel:kzalloc:39: leaves 0 at 0x3000010
done 63 0.2 kernel nic:card_probe:45: post 0 of kernel:kzalloc from kernel to nic[0x1000038]
done 64 0.2 nic[0x1000038] nic:card_probe:46: store i64 0x2000030 at 0x10000f0 (nic:@card+0)
done 65 0.2 nic[0x1000038] nic:card_probe:47: load i64 at 0x10000f0 (nic:@card+0) = 0x2000030
done 66 0.2 nic[0x1000038] nic:card_probe:56: load i64 at 0x3000008 (event 55+0) = 0x1000038
done 67 0.2 nic[0x1000038] nic:card_probe:57: load i64 at 0x10000f0 (nic:@card+0) = 0x2000030
done 68 0.2 nic[0x1000038] nic:card_probe:58: calls kernel:dev_set_priv(0x1000038, 0x2000030) enters kernel:dev_set_priv as kernel
done 69 0.2 nic[0x1000038] nic:card_probe:58: pre 0 of kernel:dev_set_priv from nic[0x1000038] to kernel
done 70 0.2 kernel kernel:dev_set_priv:79: store i64 0x2000030 at 0x1000048 (kernel:@devs+40)
done 71 0.2 kernel kernel:dev_set_priv:80: leaves 0 at 0x3000010
done 72 0.2 nic[0x1000038] nic:card_probe:59: store i32 0 at 0x3000000 (event 54+0)
done 73 0.2 nic[0x1000038] nic:card_probe:63: load i32 at 0x3000000 (event 54+0) = 0
done 74 0.2 nic[0x1000038] nic:card_probe:64: leaves 16 at 0x3000000
done 75 0.2 nic[0x1000038] kernel:do_probe:132: post 0 of nic:card_probe from nic[0x1000038] to kernel
done 76 0.2 kernel kernel:do_probe:133: leaves 0 at 0x3000000
ends 77 0.2 kernel script: ends: returned 0
done 78 0.3 kernel script: calls kernel:skb_new(0x4) enters kernel:skb_new as kernel
done 79 0.3 kernel kernel:kmalloc:20: calls k.alloc(0x28) = 0x2000040
done 80 0.3 kernel kernel:kmalloc:24: store i64 0x18 at 0x2000040 (event 79+0)
done 81 0.3 kernel kernel:kmalloc:26: leaves 0 at 0x3000000
done 82 0.3 kernel kernel:kmalloc:20: calls k.alloc(0x14) = 0x2000070
done 83 0.3 kernel kernel:kmalloc:24: store i64 0x4 at 0x2000070 (event 82+0)
done 84 0.3 kernel kernel:kmalloc:26: leaves 0 at 0x3000000
done 85 0.3 kernel kernel:skb_new:102: store i64 0x2000080 at 0x2000050 (event 79+16)
done 86 0.3 kernel kernel:skb_new:104: store i64 0x4 at 0x2000058 (event 79+24)
done 87 0.3 kernel kernel:skb_new:105: leaves 0 at 0x3000000
ends 88 0.3 kernel script: ends: returned 0x2000050
done 89 0.4 kernel script: calls kernel:do_xmit(0x0, 0x2000050) enters kernel:do_xmit as kernel
done 90 0.4 kernel kernel:do_xmit:138: load i64 at 0x1000020 (kernel:@devs+0) = 0x10000e0
done 91 0.4 kernel kernel:do_xmit:140: calls slot xmit at 0x10000e8(0x2000050, 0x1000020) enters nic:card_xmit as nic[0x1000020]
done 92 0.4 kernel kernel:do_xmit:140: pre 0 of nic:card_xmit from kernel to nic[0x1000020]
done 93 0.4 nic[0x1000020] nic:card_xmit:69: alloca 8 at 0x3000000
done 94 0.4 nic[0x1000020] nic:card_xmit:70: alloca 8 at 0x3000008
done 95 0.4 nic[0x1000020] nic:card_xmit:71: store i64 0x2000050 at 0x3000000 (event 93+0)
done 96 0.4 nic[0x1000020] nic:card_xmit:72: store i64 0x1000020 at 0x3000008 (event 94+0)
done 97 0.4 nic[0x1000020] nic:card_xmit:73: load i64 at 0x10000f0 (nic:@card+0) = 0x2000030
done 98 0.4 nic[0x1000020] nic:card_xmit:75: load i64 at 0x2000030 (event 58+16) = 0x0
refused 99 0.4 nic[0x1000020] nic:card_xmit:77: store i64 0x1 at 0x2000030 (event 58+16): refused 1 nic[0x1000020] write 0x2000030+8
---- file examples/left.schedule
schedule 0*69
---- words examples/left.case examples/left.schedule
---- trace examples/left.case
---- whole
status 0
done 0 0.0 kernel script: calls m:send(0x40) enters m:send as m.shared
done 1 0.0 m.shared m:send:8: alloca 4 at 0x3000000
done 2 0.0 m.shared m:send:9: alloca 8 at 0x3000008
done 3 0.0 m.shared m:send:10: alloca 8 at 0x3000010
done 4 0.0 m.shared m:send:11: store i64 0x40 at 0x3000008 (event 2+0)
done 5 0.0 m.shared m:send:12: calls kernel:queue_lock() enters kernel:queue_lock as kernel
done 6 0.0 kernel kernel:queue_lock:7: calls k.try_lock(0x1000000) = 1
done 7 0.0 kernel kernel:queue_lock:8: leaves 0 at 0x3000018
done 8 0.0 m.shared m:send:21: calls kernel:device_get(0x0) enters kernel:device_get as kernel
done 9 0.0 kernel kernel:device_get:19: load i64 at 0x1000010 (kernel:@devices+0) = 0x0
done 10 0.0 kernel kernel:device_get:21: store i64 0x1 at 0x1000010 (kernel:@devices+0)
done 11 0.0 kernel kernel:device_get:22: leaves 0 at 0x3000018
done 12 0.0 kernel m:send:21: post 0 of kernel:device_get from kernel to m.shared
done 13 0.0 m.shared m:send:22: store i64 0x1000010 at 0x3000010 (event 3+0)
done 14 0.0 m.shared m:send:23: load i64 at 0x3000008 (event 2+0) = 0x40
done 15 0.0 m.shared m:send:32: load i64 at 0x3000010 (event 3+0) = 0x1000010
done 16 0.0 m.shared m:send:33: load i64 at 0x3000008 (event 2+0) = 0x40
done 17 0.0 m.shared m:send:34: calls kernel:device_send(0x1000010, 0x40) enters kernel:device_send as kernel
done 18 0.0 m.shared m:send:34: pre 0 of kernel:device_send from m.shared to kernel
done 19 0.0 kernel kernel:device_send:33: calls k.note(0x40)
done 20 0.0 kernel kernel:device_send:34: leaves 0 at 0x3000018
done 21 0.0 m.shared m:send:35: load i64 at 0x3000010 (event 3+0) = 0x1000010
done 22 0.0 m.shared m:send:36: calls kernel:device_put(0x1000010) enters kernel:device_put as kernel
done 23 0.0 m.shared m:send:36: pre 0 of kernel:device_put from m.shared to kernel
done 24 0.0 kernel kernel:device_put:27: load i64 at 0x1000010 (kernel:@devices+0) = 0x1
done 25 0.0 kernel kernel:device_put:29: store i64 0x0 at 0x1000010 (kernel:@devices+0)
done 26 0.0 kernel kernel:device_put:30: leaves 0 at 0x3000018
done 27 0.0 m.shared m:send:37: calls kernel:queue_unlock() enters kernel:queue_unlock as kernel
done 28 0.0 kernel kernel:queue_unlock:11: store i32 0 at 0x1000000 (kernel:@lock+0)
done 29 0.0 kernel kernel:queue_unlock:12: leaves 0 at 0x3000018
done 30 0.0 m.shared m:send:38: store i32 0 at 0x3000000 (event 1+0)
done 31 0.0 m.shared m:send:42: load i32 at 0x3000000 (event 1+0) = 0
done 32 0.0 m.shared m:send:43: leaves 24 at 0x3000000
ends 33 0.0 kernel script: ends: returned 0
done 34 0.1 kernel script: calls m:send(0x2328) enters m:send as m.shared
done 35 0.1 m.shared m:send:8: alloca 4 at 0x3000000
done 36 0.1 m.shared m:send:9: alloca 8 at 0x3000008
done 37 0.1 m.shared m:send:10: alloca 8 at 0x3000010
done 38 0.1 m.shared m:send:11: store i64 0x2328 at 0x3000008 (event 36+0)
done 39 0.1 m.shared m:send:12: calls kernel:queue_lock() enters kernel:queue_lock as kernel
done 40 0.1 kernel kernel:queue_lock:7: calls k.try_lock(0x1000000) = 1
done 41 0.1 kernel kernel:queue_lock:8: leaves 0 at 0x3000018
done 42 0.1 m.shared m:send:21: calls kernel:device_get(0x0) enters kernel:device_get as kernel
done 43 0.1 kernel kernel:device_get:19: load i64 at 0x1000010 (kernel:@devices+0) = 0x0
done 44 0.1 kernel kernel:device_get:21: store i64 0x1 at 0x1000010 (kernel:@devices+0)
done 45 0.1 kernel kernel:device_get:22: leaves 0 at 0x3000018
done 46 0.1 kernel m:send:21: post 0 of kernel:device_get from kernel to m.shared
done 47 0.1 m.shared m:send:22: store i64 0x1000010 at 0x3000010 (event 37+0)
done 48 0.1 m.shared m:send:23: load i64 at 0x3000008 (event 36+0) = 0x2328
done 49 0.1 m.shared m:send:28: store i32 -90 at 0x3000000 (event 35+0)
done 50 0.1 m.shared m:send:42: load i32 at 0x3000000 (event 35+0) = -90
done 51 0.1 m.shared m:send:43: leaves 24 at 0x3000000
ends 52 0.1 kernel script: ends: returned -90
done 53 0.2 kernel script: calls m:send(0x40) enters m:send as m.shared
done 54 0.2 m.shared m:send:8: alloca 4 at 0x3000000
done 55 0.2 m.shared m:send:9: alloca 8 at 0x3000008
done 56 0.2 m.shared m:send:10: alloca 8 at 0x3000010
done 57 0.2 m.shared m:send:11: store i64 0x40 at 0x3000008 (event 55+0)
done 58 0.2 m.shared m:send:12: calls kernel:queue_lock() enters kernel:queue_lock as kernel
done 59 0.2 kernel kernel:queue_lock:7: calls k.try_lock(0x1000000) = 0
done 60 0.2 kernel kernel:queue_lock:8: leaves 0 at 0x3000018
done 61 0.2 m.shared m:send:17: store i32 -16 at 0x3000000 (event 54+0)
done 62 0.2 m.shared m:send:42: load i32 at 0x3000000 (event 54+0) = -16
done 63 0.2 m.shared m:send:43: leaves 24 at 0x3000000
ends 64 0.2 kernel script: ends: returned -16
done 65 0.3 kernel script: calls kernel:users(0x0) enters kernel:users as kernel
done 66 0.3 kernel kernel:users:38: load i64 at 0x1000010 (kernel:@devices+0) = 0x1
done 67 0.3 kernel kernel:users:39: leaves 0 at 0x3000000
ends 68 0.3 kernel script: ends: returned 1
"#
}
