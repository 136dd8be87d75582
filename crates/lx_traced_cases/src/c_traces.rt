//! Modules of C files, event by event.
//! Written by `tools/example-texts` from `examples/` and `docs/MANUAL.md`.

/// Modules of C files, event by event: what is run, over which files beside those of `file_table`, and what it writes.
pub fn c_traces_table() -> &'static str {
    r#"---- file examples/driver.schedule
schedule 0*364
---- words examples/driver.case examples/driver.schedule
---- trace examples/driver.case
---- whole
status 0
done 0 0.0 kernel script: calls driver:driver_init() enters driver:driver_init as driver.shared
done 1 0.0 driver.shared driver:driver_init:13: alloca 4 at 0x3000000
done 2 0.0 driver.shared driver:driver_init:14: alloca 8 at 0x3000008
done 3 0.0 driver.shared driver:driver_init:15: alloca 4 at 0x3000010
done 4 0.0 driver.shared driver:driver_init:16: calls kernel:kmalloc(0x20) enters kernel:kmalloc as kernel
done 5 0.0 kernel kernel:kmalloc:12: calls k.alloc(0x20) = 0x2000000
done 6 0.0 kernel kernel:kmalloc:13: leaves 0 at 0x3000014
done 7 0.0 kernel driver:driver_init:16: post 0 of kernel:kmalloc from kernel to driver.shared
done 8 0.0 driver.shared driver:driver_init:17: store i64 0x2000000 at 0x3000008 (event 2+0)
done 9 0.0 driver.shared driver:driver_init:18: load i64 at 0x3000008 (event 2+0) = 0x2000000
done 10 0.0 driver.shared driver:driver_init:27: load i64 at 0x3000008 (event 2+0) = 0x2000000
done 11 0.0 driver.shared driver:driver_init:29: store i64 0x1000020 at 0x2000000 (event 5+0)
done 12 0.0 driver.shared driver:driver_init:30: load i64 at 0x3000008 (event 2+0) = 0x2000000
done 13 0.0 driver.shared driver:driver_init:32: store i32 0 at 0x2000008 (event 5+8)
done 14 0.0 driver.shared driver:driver_init:33: load i64 at 0x3000008 (event 2+0) = 0x2000000
done 15 0.0 driver.shared driver:driver_init:35: store i64 0x0 at 0x2000010 (event 5+16)
done 16 0.0 driver.shared driver:driver_init:36: load i64 at 0x3000008 (event 2+0) = 0x2000000
done 17 0.0 driver.shared driver:driver_init:37: calls kernel:device_register(0x2000000) enters kernel:device_register as kernel
done 18 0.0 kernel kernel:device_register:22: load i64 at 0x1000000 (kernel:@device+0) = 0x0
done 19 0.0 kernel kernel:device_register:26: store i64 0x2000000 at 0x1000000 (kernel:@device+0)
done 20 0.0 kernel kernel:device_register:27: leaves 0 at 0x3000014
done 21 0.0 driver.shared driver:driver_init:38: store i32 0 at 0x3000010 (event 3+0)
done 22 0.0 driver.shared driver:driver_init:39: load i32 at 0x3000010 (event 3+0) = 0
done 23 0.0 driver.shared driver:driver_init:49: load i32 at 0x3000010 (event 3+0) = 0
done 24 0.0 driver.shared driver:driver_init:50: store i32 0 at 0x3000000 (event 1+0)
done 25 0.0 driver.shared driver:driver_init:54: load i32 at 0x3000000 (event 1+0) = 0
done 26 0.0 driver.shared driver:driver_init:55: leaves 20 at 0x3000000
ends 27 0.0 kernel script: ends: returned 0
done 28 0.1 kernel script: calls driver:driver_init() enters driver:driver_init as driver.shared
done 29 0.1 driver.shared driver:driver_init:13: alloca 4 at 0x3000000
done 30 0.1 driver.shared driver:driver_init:14: alloca 8 at 0x3000008
done 31 0.1 driver.shared driver:driver_init:15: alloca 4 at 0x3000010
done 32 0.1 driver.shared driver:driver_init:16: calls kernel:kmalloc(0x20) enters kernel:kmalloc as kernel
done 33 0.1 kernel kernel:kmalloc:12: calls k.alloc(0x20) = 0x2000020
done 34 0.1 kernel kernel:kmalloc:13: leaves 0 at 0x3000014
done 35 0.1 kernel driver:driver_init:16: post 0 of kernel:kmalloc from kernel to driver.shared
done 36 0.1 driver.shared driver:driver_init:17: store i64 0x2000020 at 0x3000008 (event 30+0)
done 37 0.1 driver.shared driver:driver_init:18: load i64 at 0x3000008 (event 30+0) = 0x2000020
done 38 0.1 driver.shared driver:driver_init:27: load i64 at 0x3000008 (event 30+0) = 0x2000020
done 39 0.1 driver.shared driver:driver_init:29: store i64 0x1000020 at 0x2000020 (event 33+0)
done 40 0.1 driver.shared driver:driver_init:30: load i64 at 0x3000008 (event 30+0) = 0x2000020
done 41 0.1 driver.shared driver:driver_init:32: store i32 0 at 0x2000028 (event 33+8)
done 42 0.1 driver.shared driver:driver_init:33: load i64 at 0x3000008 (event 30+0) = 0x2000020
done 43 0.1 driver.shared driver:driver_init:35: store i64 0x0 at 0x2000030 (event 33+16)
done 44 0.1 driver.shared driver:driver_init:36: load i64 at 0x3000008 (event 30+0) = 0x2000020
done 45 0.1 driver.shared driver:driver_init:37: calls kernel:device_register(0x2000020) enters kernel:device_register as kernel
done 46 0.1 kernel kernel:device_register:22: load i64 at 0x1000000 (kernel:@device+0) = 0x2000000
done 47 0.1 kernel kernel:device_register:29: leaves 0 at 0x3000014
done 48 0.1 driver.shared driver:driver_init:38: store i32 -16 at 0x3000010 (event 31+0)
done 49 0.1 driver.shared driver:driver_init:39: load i32 at 0x3000010 (event 31+0) = -16
done 50 0.1 driver.shared driver:driver_init:44: load i64 at 0x3000008 (event 30+0) = 0x2000020
done 51 0.1 driver.shared driver:driver_init:45: calls kernel:kfree(0x2000020) enters kernel:kfree as kernel
done 52 0.1 driver.shared driver:driver_init:45: pre 0 of kernel:kfree from driver.shared to kernel
done 53 0.1 kernel kernel:kfree:17: calls k.free(0x2000020)
done 54 0.1 kernel kernel:kfree:18: leaves 0 at 0x3000014
done 55 0.1 driver.shared driver:driver_init:49: load i32 at 0x3000010 (event 31+0) = -16
done 56 0.1 driver.shared driver:driver_init:50: store i32 -16 at 0x3000000 (event 29+0)
done 57 0.1 driver.shared driver:driver_init:54: load i32 at 0x3000000 (event 29+0) = -16
done 58 0.1 driver.shared driver:driver_init:55: leaves 20 at 0x3000000
ends 59 0.1 kernel script: ends: returned -16
done 60 0.2 kernel script: calls kernel:do_open() enters kernel:do_open as kernel
done 61 0.2 kernel kernel:do_open:33: load i64 at 0x1000000 (kernel:@device+0) = 0x2000000
done 62 0.2 kernel kernel:do_open:34: load i64 at 0x2000000 (event 5+0) = 0x1000020
done 63 0.2 kernel kernel:do_open:35: calls slot open at 0x1000020(0x2000000) enters driver:driver_open as driver.shared
done 64 0.2 driver.shared driver:driver_open:66: alloca 8 at 0x3000000
done 65 0.2 driver.shared driver:driver_open:67: store i64 0x2000000 at 0x3000000 (event 64+0)
done 66 0.2 driver.shared driver:driver_open:68: load i64 at 0x3000000 (event 64+0) = 0x2000000
done 67 0.2 driver.shared driver:driver_open:70: load i32 at 0x2000008 (event 5+8) = 0
done 68 0.2 driver.shared driver:driver_open:72: store i32 1 at 0x2000008 (event 5+8)
done 69 0.2 driver.shared driver:driver_open:73: leaves 8 at 0x3000000
done 70 0.2 kernel kernel:do_open:36: leaves 0 at 0x3000000
ends 71 0.2 kernel script: ends: returned 0
done 72 0.3 kernel script: calls kernel:do_open() enters kernel:do_open as kernel
done 73 0.3 kernel kernel:do_open:33: load i64 at 0x1000000 (kernel:@device+0) = 0x2000000
done 74 0.3 kernel kernel:do_open:34: load i64 at 0x2000000 (event 5+0) = 0x1000020
done 75 0.3 kernel kernel:do_open:35: calls slot open at 0x1000020(0x2000000) enters driver:driver_open as driver.shared
done 76 0.3 driver.shared driver:driver_open:66: alloca 8 at 0x3000000
done 77 0.3 driver.shared driver:driver_open:67: store i64 0x2000000 at 0x3000000 (event 76+0)
done 78 0.3 driver.shared driver:driver_open:68: load i64 at 0x3000000 (event 76+0) = 0x2000000
done 79 0.3 driver.shared driver:driver_open:70: load i32 at 0x2000008 (event 5+8) = 1
done 80 0.3 driver.shared driver:driver_open:72: store i32 2 at 0x2000008 (event 5+8)
done 81 0.3 driver.shared driver:driver_open:73: leaves 8 at 0x3000000
done 82 0.3 kernel kernel:do_open:36: leaves 0 at 0x3000000
ends 83 0.3 kernel script: ends: returned 0
done 84 0.4 kernel script: calls kernel:users() enters kernel:users as kernel
done 85 0.4 kernel kernel:users:56: load i64 at 0x1000000 (kernel:@device+0) = 0x2000000
done 86 0.4 kernel kernel:users:58: load i32 at 0x2000008 (event 5+8) = 2
done 87 0.4 kernel kernel:users:59: leaves 0 at 0x3000000
ends 88 0.4 kernel script: ends: returned 2
done 89 0.5 kernel script: calls kernel:do_write(0xc) enters kernel:do_write as kernel
done 90 0.5 kernel kernel:do_write:40: load i64 at 0x1000000 (kernel:@device+0) = 0x2000000
done 91 0.5 kernel kernel:do_write:41: load i64 at 0x2000000 (event 5+0) = 0x1000020
done 92 0.5 kernel kernel:do_write:43: calls slot write at 0x1000028(0x2000000, 0x1000010, 0xc) enters driver:driver_write as driver.shared
done 93 0.5 driver.shared driver:driver_write:78: alloca 8 at 0x3000000
done 94 0.5 driver.shared driver:driver_write:79: alloca 8 at 0x3000008
done 95 0.5 driver.shared driver:driver_write:80: alloca 8 at 0x3000010
done 96 0.5 driver.shared driver:driver_write:81: alloca 8 at 0x3000018
done 97 0.5 driver.shared driver:driver_write:82: store i64 0x2000000 at 0x3000000 (event 93+0)
done 98 0.5 driver.shared driver:driver_write:83: store i64 0x1000010 at 0x3000008 (event 94+0)
done 99 0.5 driver.shared driver:driver_write:84: store i64 0xc at 0x3000010 (event 95+0)
done 100 0.5 driver.shared driver:driver_write:85: store i64 0x0 at 0x3000018 (event 96+0)
done 101 0.5 driver.shared driver:driver_write:89: load i64 at 0x3000018 (event 96+0) = 0x0
done 102 0.5 driver.shared driver:driver_write:90: load i64 at 0x3000010 (event 95+0) = 0xc
done 103 0.5 driver.shared driver:driver_write:95: load i64 at 0x3000008 (event 94+0) = 0x1000010
done 104 0.5 driver.shared driver:driver_write:96: load i64 at 0x3000018 (event 96+0) = 0x0
done 105 0.5 driver.shared driver:driver_write:98: load i8 at 0x1000010 (kernel:@text+0) = 104
done 106 0.5 driver.shared driver:driver_write:99: load i64 at 0x3000000 (event 93+0) = 0x2000000
done 107 0.5 driver.shared driver:driver_write:101: load i64 at 0x3000018 (event 96+0) = 0x0
done 108 0.5 driver.shared driver:driver_write:104: store i8 104 at 0x2000018 (event 5+24)
done 109 0.5 driver.shared driver:driver_write:108: load i64 at 0x3000018 (event 96+0) = 0x0
done 110 0.5 driver.shared driver:driver_write:110: store i64 0x1 at 0x3000018 (event 96+0)
done 111 0.5 driver.shared driver:driver_write:89: load i64 at 0x3000018 (event 96+0) = 0x1
done 112 0.5 driver.shared driver:driver_write:90: load i64 at 0x3000010 (event 95+0) = 0xc
done 113 0.5 driver.shared driver:driver_write:95: load i64 at 0x3000008 (event 94+0) = 0x1000010
done 114 0.5 driver.shared driver:driver_write:96: load i64 at 0x3000018 (event 96+0) = 0x1
done 115 0.5 driver.shared driver:driver_write:98: load i8 at 0x1000011 (kernel:@text+1) = 101
done 116 0.5 driver.shared driver:driver_write:99: load i64 at 0x3000000 (event 93+0) = 0x2000000
done 117 0.5 driver.shared driver:driver_write:101: load i64 at 0x3000018 (event 96+0) = 0x1
done 118 0.5 driver.shared driver:driver_write:104: store i8 101 at 0x2000019 (event 5+25)
done 119 0.5 driver.shared driver:driver_write:108: load i64 at 0x3000018 (event 96+0) = 0x1
done 120 0.5 driver.shared driver:driver_write:110: store i64 0x2 at 0x3000018 (event 96+0)
done 121 0.5 driver.shared driver:driver_write:89: load i64 at 0x3000018 (event 96+0) = 0x2
done 122 0.5 driver.shared driver:driver_write:90: load i64 at 0x3000010 (event 95+0) = 0xc
done 123 0.5 driver.shared driver:driver_write:95: load i64 at 0x3000008 (event 94+0) = 0x1000010
done 124 0.5 driver.shared driver:driver_write:96: load i64 at 0x3000018 (event 96+0) = 0x2
done 125 0.5 driver.shared driver:driver_write:98: load i8 at 0x1000012 (kernel:@text+2) = 108
done 126 0.5 driver.shared driver:driver_write:99: load i64 at 0x3000000 (event 93+0) = 0x2000000
done 127 0.5 driver.shared driver:driver_write:101: load i64 at 0x3000018 (event 96+0) = 0x2
done 128 0.5 driver.shared driver:driver_write:104: store i8 108 at 0x200001a (event 5+26)
done 129 0.5 driver.shared driver:driver_write:108: load i64 at 0x3000018 (event 96+0) = 0x2
done 130 0.5 driver.shared driver:driver_write:110: store i64 0x3 at 0x3000018 (event 96+0)
done 131 0.5 driver.shared driver:driver_write:89: load i64 at 0x3000018 (event 96+0) = 0x3
done 132 0.5 driver.shared driver:driver_write:90: load i64 at 0x3000010 (event 95+0) = 0xc
done 133 0.5 driver.shared driver:driver_write:95: load i64 at 0x3000008 (event 94+0) = 0x1000010
done 134 0.5 driver.shared driver:driver_write:96: load i64 at 0x3000018 (event 96+0) = 0x3
done 135 0.5 driver.shared driver:driver_write:98: load i8 at 0x1000013 (kernel:@text+3) = 108
done 136 0.5 driver.shared driver:driver_write:99: load i64 at 0x3000000 (event 93+0) = 0x2000000
done 137 0.5 driver.shared driver:driver_write:101: load i64 at 0x3000018 (event 96+0) = 0x3
done 138 0.5 driver.shared driver:driver_write:104: store i8 108 at 0x200001b (event 5+27)
done 139 0.5 driver.shared driver:driver_write:108: load i64 at 0x3000018 (event 96+0) = 0x3
done 140 0.5 driver.shared driver:driver_write:110: store i64 0x4 at 0x3000018 (event 96+0)
done 141 0.5 driver.shared driver:driver_write:89: load i64 at 0x3000018 (event 96+0) = 0x4
done 142 0.5 driver.shared driver:driver_write:90: load i64 at 0x3000010 (event 95+0) = 0xc
done 143 0.5 driver.shared driver:driver_write:95: load i64 at 0x3000008 (event 94+0) = 0x1000010
done 144 0.5 driver.shared driver:driver_write:96: load i64 at 0x3000018 (event 96+0) = 0x4
done 145 0.5 driver.shared driver:driver_write:98: load i8 at 0x1000014 (kernel:@text+4) = 111
done 146 0.5 driver.shared driver:driver_write:99: load i64 at 0x3000000 (event 93+0) = 0x2000000
done 147 0.5 driver.shared driver:driver_write:101: load i64 at 0x3000018 (event 96+0) = 0x4
done 148 0.5 driver.shared driver:driver_write:104: store i8 111 at 0x200001c (event 5+28)
done 149 0.5 driver.shared driver:driver_write:108: load i64 at 0x3000018 (event 96+0) = 0x4
done 150 0.5 driver.shared driver:driver_write:110: store i64 0x5 at 0x3000018 (event 96+0)
done 151 0.5 driver.shared driver:driver_write:89: load i64 at 0x3000018 (event 96+0) = 0x5
done 152 0.5 driver.shared driver:driver_write:90: load i64 at 0x3000010 (event 95+0) = 0xc
done 153 0.5 driver.shared driver:driver_write:95: load i64 at 0x3000008 (event 94+0) = 0x1000010
done 154 0.5 driver.shared driver:driver_write:96: load i64 at 0x3000018 (event 96+0) = 0x5
done 155 0.5 driver.shared driver:driver_write:98: load i8 at 0x1000015 (kernel:@text+5) = 44
done 156 0.5 driver.shared driver:driver_write:99: load i64 at 0x3000000 (event 93+0) = 0x2000000
done 157 0.5 driver.shared driver:driver_write:101: load i64 at 0x3000018 (event 96+0) = 0x5
done 158 0.5 driver.shared driver:driver_write:104: store i8 44 at 0x200001d (event 5+29)
done 159 0.5 driver.shared driver:driver_write:108: load i64 at 0x3000018 (event 96+0) = 0x5
done 160 0.5 driver.shared driver:driver_write:110: store i64 0x6 at 0x3000018 (event 96+0)
done 161 0.5 driver.shared driver:driver_write:89: load i64 at 0x3000018 (event 96+0) = 0x6
done 162 0.5 driver.shared driver:driver_write:90: load i64 at 0x3000010 (event 95+0) = 0xc
done 163 0.5 driver.shared driver:driver_write:95: load i64 at 0x3000008 (event 94+0) = 0x1000010
done 164 0.5 driver.shared driver:driver_write:96: load i64 at 0x3000018 (event 96+0) = 0x6
done 165 0.5 driver.shared driver:driver_write:98: load i8 at 0x1000016 (kernel:@text+6) = 32
done 166 0.5 driver.shared driver:driver_write:99: load i64 at 0x3000000 (event 93+0) = 0x2000000
done 167 0.5 driver.shared driver:driver_write:101: load i64 at 0x3000018 (event 96+0) = 0x6
done 168 0.5 driver.shared driver:driver_write:104: store i8 32 at 0x200001e (event 5+30)
done 169 0.5 driver.shared driver:driver_write:108: load i64 at 0x3000018 (event 96+0) = 0x6
done 170 0.5 driver.shared driver:driver_write:110: store i64 0x7 at 0x3000018 (event 96+0)
done 171 0.5 driver.shared driver:driver_write:89: load i64 at 0x3000018 (event 96+0) = 0x7
done 172 0.5 driver.shared driver:driver_write:90: load i64 at 0x3000010 (event 95+0) = 0xc
done 173 0.5 driver.shared driver:driver_write:95: load i64 at 0x3000008 (event 94+0) = 0x1000010
done 174 0.5 driver.shared driver:driver_write:96: load i64 at 0x3000018 (event 96+0) = 0x7
done 175 0.5 driver.shared driver:driver_write:98: load i8 at 0x1000017 (kernel:@text+7) = 119
done 176 0.5 driver.shared driver:driver_write:99: load i64 at 0x3000000 (event 93+0) = 0x2000000
done 177 0.5 driver.shared driver:driver_write:101: load i64 at 0x3000018 (event 96+0) = 0x7
done 178 0.5 driver.shared driver:driver_write:104: store i8 119 at 0x200001f (event 5+31)
done 179 0.5 driver.shared driver:driver_write:108: load i64 at 0x3000018 (event 96+0) = 0x7
done 180 0.5 driver.shared driver:driver_write:110: store i64 0x8 at 0x3000018 (event 96+0)
done 181 0.5 driver.shared driver:driver_write:89: load i64 at 0x3000018 (event 96+0) = 0x8
done 182 0.5 driver.shared driver:driver_write:90: load i64 at 0x3000010 (event 95+0) = 0xc
done 183 0.5 driver.shared driver:driver_write:95: load i64 at 0x3000008 (event 94+0) = 0x1000010
done 184 0.5 driver.shared driver:driver_write:96: load i64 at 0x3000018 (event 96+0) = 0x8
done 185 0.5 driver.shared driver:driver_write:98: load i8 at 0x1000018 (kernel:@text+8) = 111
done 186 0.5 driver.shared driver:driver_write:99: load i64 at 0x3000000 (event 93+0) = 0x2000000
done 187 0.5 driver.shared driver:driver_write:101: load i64 at 0x3000018 (event 96+0) = 0x8
done 188 0.5 driver.shared driver:driver_write:104: store i8 111 at 0x2000018 (event 5+24)
done 189 0.5 driver.shared driver:driver_write:108: load i64 at 0x3000018 (event 96+0) = 0x8
done 190 0.5 driver.shared driver:driver_write:110: store i64 0x9 at 0x3000018 (event 96+0)
done 191 0.5 driver.shared driver:driver_write:89: load i64 at 0x3000018 (event 96+0) = 0x9
done 192 0.5 driver.shared driver:driver_write:90: load i64 at 0x3000010 (event 95+0) = 0xc
done 193 0.5 driver.shared driver:driver_write:95: load i64 at 0x3000008 (event 94+0) = 0x1000010
done 194 0.5 driver.shared driver:driver_write:96: load i64 at 0x3000018 (event 96+0) = 0x9
done 195 0.5 driver.shared driver:driver_write:98: load i8 at 0x1000019 (kernel:@text+9) = 114
done 196 0.5 driver.shared driver:driver_write:99: load i64 at 0x3000000 (event 93+0) = 0x2000000
done 197 0.5 driver.shared driver:driver_write:101: load i64 at 0x3000018 (event 96+0) = 0x9
done 198 0.5 driver.shared driver:driver_write:104: store i8 114 at 0x2000019 (event 5+25)
done 199 0.5 driver.shared driver:driver_write:108: load i64 at 0x3000018 (event 96+0) = 0x9
done 200 0.5 driver.shared driver:driver_write:110: store i64 0xa at 0x3000018 (event 96+0)
done 201 0.5 driver.shared driver:driver_write:89: load i64 at 0x3000018 (event 96+0) = 0xa
done 202 0.5 driver.shared driver:driver_write:90: load i64 at 0x3000010 (event 95+0) = 0xc
done 203 0.5 driver.shared driver:driver_write:95: load i64 at 0x3000008 (event 94+0) = 0x1000010
done 204 0.5 driver.shared driver:driver_write:96: load i64 at 0x3000018 (event 96+0) = 0xa
done 205 0.5 driver.shared driver:driver_write:98: load i8 at 0x100001a (kernel:@text+10) = 108
done 206 0.5 driver.shared driver:driver_write:99: load i64 at 0x3000000 (event 93+0) = 0x2000000
done 207 0.5 driver.shared driver:driver_write:101: load i64 at 0x3000018 (event 96+0) = 0xa
done 208 0.5 driver.shared driver:driver_write:104: store i8 108 at 0x200001a (event 5+26)
done 209 0.5 driver.shared driver:driver_write:108: load i64 at 0x3000018 (event 96+0) = 0xa
done 210 0.5 driver.shared driver:driver_write:110: store i64 0xb at 0x3000018 (event 96+0)
done 211 0.5 driver.shared driver:driver_write:89: load i64 at 0x3000018 (event 96+0) = 0xb
done 212 0.5 driver.shared driver:driver_write:90: load i64 at 0x3000010 (event 95+0) = 0xc
done 213 0.5 driver.shared driver:driver_write:95: load i64 at 0x3000008 (event 94+0) = 0x1000010
done 214 0.5 driver.shared driver:driver_write:96: load i64 at 0x3000018 (event 96+0) = 0xb
done 215 0.5 driver.shared driver:driver_write:98: load i8 at 0x100001b (kernel:@text+11) = 100
done 216 0.5 driver.shared driver:driver_write:99: load i64 at 0x3000000 (event 93+0) = 0x2000000
done 217 0.5 driver.shared driver:driver_write:101: load i64 at 0x3000018 (event 96+0) = 0xb
done 218 0.5 driver.shared driver:driver_write:104: store i8 100 at 0x200001b (event 5+27)
done 219 0.5 driver.shared driver:driver_write:108: load i64 at 0x3000018 (event 96+0) = 0xb
done 220 0.5 driver.shared driver:driver_write:110: store i64 0xc at 0x3000018 (event 96+0)
done 221 0.5 driver.shared driver:driver_write:89: load i64 at 0x3000018 (event 96+0) = 0xc
done 222 0.5 driver.shared driver:driver_write:90: load i64 at 0x3000010 (event 95+0) = 0xc
done 223 0.5 driver.shared driver:driver_write:114: load i64 at 0x3000010 (event 95+0) = 0xc
done 224 0.5 driver.shared driver:driver_write:115: load i64 at 0x3000000 (event 93+0) = 0x2000000
done 225 0.5 driver.shared driver:driver_write:117: load i64 at 0x2000010 (event 5+16) = 0x0
done 226 0.5 driver.shared driver:driver_write:119: store i64 0xc at 0x2000010 (event 5+16)
done 227 0.5 driver.shared driver:driver_write:120: load i64 at 0x3000010 (event 95+0) = 0xc
done 228 0.5 driver.shared driver:driver_write:121: leaves 32 at 0x3000000
done 229 0.5 kernel kernel:do_write:44: leaves 0 at 0x3000000
ends 230 0.5 kernel script: ends: returned 12
done 231 0.6 kernel script: calls kernel:last() enters kernel:last as kernel
done 232 0.6 kernel kernel:last:70: load i64 at 0x1000000 (kernel:@device+0) = 0x2000000
done 233 0.6 kernel kernel:last:72: load i64 at 0x2000018 (event 5+24) = 0x77202c6f646c726f
done 234 0.6 kernel kernel:last:73: leaves 0 at 0x3000000
ends 235 0.6 kernel script: ends: returned 8583909746705986159
done 236 0.7 kernel script: calls kernel:do_write(0x3) enters kernel:do_write as kernel
done 237 0.7 kernel kernel:do_write:40: load i64 at 0x1000000 (kernel:@device+0) = 0x2000000
done 238 0.7 kernel kernel:do_write:41: load i64 at 0x2000000 (event 5+0) = 0x1000020
done 239 0.7 kernel kernel:do_write:43: calls slot write at 0x1000028(0x2000000, 0x1000010, 0x3) enters driver:driver_write as driver.shared
done 240 0.7 driver.shared driver:driver_write:78: alloca 8 at 0x3000000
done 241 0.7 driver.shared driver:driver_write:79: alloca 8 at 0x3000008
done 242 0.7 driver.shared driver:driver_write:80: alloca 8 at 0x3000010
done 243 0.7 driver.shared driver:driver_write:81: alloca 8 at 0x3000018
done 244 0.7 driver.shared driver:driver_write:82: store i64 0x2000000 at 0x3000000 (event 240+0)
done 245 0.7 driver.shared driver:driver_write:83: store i64 0x1000010 at 0x3000008 (event 241+0)
done 246 0.7 driver.shared driver:driver_write:84: store i64 0x3 at 0x3000010 (event 242+0)
done 247 0.7 driver.shared driver:driver_write:85: store i64 0x0 at 0x3000018 (event 243+0)
done 248 0.7 driver.shared driver:driver_write:89: load i64 at 0x3000018 (event 243+0) = 0x0
done 249 0.7 driver.shared driver:driver_write:90: load i64 at 0x3000010 (event 242+0) = 0x3
done 250 0.7 driver.shared driver:driver_write:95: load i64 at 0x3000008 (event 241+0) = 0x1000010
done 251 0.7 driver.shared driver:driver_write:96: load i64 at 0x3000018 (event 243+0) = 0x0
done 252 0.7 driver.shared driver:driver_write:98: load i8 at 0x1000010 (kernel:@text+0) = 104
done 253 0.7 driver.shared driver:driver_write:99: load i64 at 0x3000000 (event 240+0) = 0x2000000
done 254 0.7 driver.shared driver:driver_write:101: load i64 at 0x3000018 (event 243+0) = 0x0
done 255 0.7 driver.shared driver:driver_write:104: store i8 104 at 0x2000018 (event 5+24)
done 256 0.7 driver.shared driver:driver_write:108: load i64 at 0x3000018 (event 243+0) = 0x0
done 257 0.7 driver.shared driver:driver_write:110: store i64 0x1 at 0x3000018 (event 243+0)
done 258 0.7 driver.shared driver:driver_write:89: load i64 at 0x3000018 (event 243+0) = 0x1
done 259 0.7 driver.shared driver:driver_write:90: load i64 at 0x3000010 (event 242+0) = 0x3
done 260 0.7 driver.shared driver:driver_write:95: load i64 at 0x3000008 (event 241+0) = 0x1000010
done 261 0.7 driver.shared driver:driver_write:96: load i64 at 0x3000018 (event 243+0) = 0x1
done 262 0.7 driver.shared driver:driver_write:98: load i8 at 0x1000011 (kernel:@text+1) = 101
done 263 0.7 driver.shared driver:driver_write:99: load i64 at 0x3000000 (event 240+0) = 0x2000000
done 264 0.7 driver.shared driver:driver_write:101: load i64 at 0x3000018 (event 243+0) = 0x1
done 265 0.7 driver.shared driver:driver_write:104: store i8 101 at 0x2000019 (event 5+25)
done 266 0.7 driver.shared driver:driver_write:108: load i64 at 0x3000018 (event 243+0) = 0x1
done 267 0.7 driver.shared driver:driver_write:110: store i64 0x2 at 0x3000018 (event 243+0)
done 268 0.7 driver.shared driver:driver_write:89: load i64 at 0x3000018 (event 243+0) = 0x2
done 269 0.7 driver.shared driver:driver_write:90: load i64 at 0x3000010 (event 242+0) = 0x3
done 270 0.7 driver.shared driver:driver_write:95: load i64 at 0x3000008 (event 241+0) = 0x1000010
done 271 0.7 driver.shared driver:driver_write:96: load i64 at 0x3000018 (event 243+0) = 0x2
done 272 0.7 driver.shared driver:driver_write:98: load i8 at 0x1000012 (kernel:@text+2) = 108
done 273 0.7 driver.shared driver:driver_write:99: load i64 at 0x3000000 (event 240+0) = 0x2000000
done 274 0.7 driver.shared driver:driver_write:101: load i64 at 0x3000018 (event 243+0) = 0x2
done 275 0.7 driver.shared driver:driver_write:104: store i8 108 at 0x200001a (event 5+26)
done 276 0.7 driver.shared driver:driver_write:108: load i64 at 0x3000018 (event 243+0) = 0x2
done 277 0.7 driver.shared driver:driver_write:110: store i64 0x3 at 0x3000018 (event 243+0)
done 278 0.7 driver.shared driver:driver_write:89: load i64 at 0x3000018 (event 243+0) = 0x3
done 279 0.7 driver.shared driver:driver_write:90: load i64 at 0x3000010 (event 242+0) = 0x3
done 280 0.7 driver.shared driver:driver_write:114: load i64 at 0x3000010 (event 242+0) = 0x3
done 281 0.7 driver.shared driver:driver_write:115: load i64 at 0x3000000 (event 240+0) = 0x2000000
done 282 0.7 driver.shared driver:driver_write:117: load i64 at 0x2000010 (event 5+16) = 0xc
done 283 0.7 driver.shared driver:driver_write:119: store i64 0xf at 0x2000010 (event 5+16)
done 284 0.7 driver.shared driver:driver_write:120: load i64 at 0x3000010 (event 242+0) = 0x3
done 285 0.7 driver.shared driver:driver_write:121: leaves 32 at 0x3000000
done 286 0.7 kernel kernel:do_write:44: leaves 0 at 0x3000000
ends 287 0.7 kernel script: ends: returned 3
done 288 0.8 kernel script: calls kernel:last() enters kernel:last as kernel
done 289 0.8 kernel kernel:last:70: load i64 at 0x1000000 (kernel:@device+0) = 0x2000000
done 290 0.8 kernel kernel:last:72: load i64 at 0x2000018 (event 5+24) = 0x77202c6f646c6568
done 291 0.8 kernel kernel:last:73: leaves 0 at 0x3000000
ends 292 0.8 kernel script: ends: returned 8583909746705982824
done 293 0.9 kernel script: calls kernel:written() enters kernel:written as kernel
done 294 0.9 kernel kernel:written:63: load i64 at 0x1000000 (kernel:@device+0) = 0x2000000
done 295 0.9 kernel kernel:written:65: load i64 at 0x2000010 (event 5+16) = 0xf
done 296 0.9 kernel kernel:written:66: leaves 0 at 0x3000000
ends 297 0.9 kernel script: ends: returned 15
done 298 0.10 kernel script: calls kernel:do_close() enters kernel:do_close as kernel
done 299 0.10 kernel kernel:do_close:48: load i64 at 0x1000000 (kernel:@device+0) = 0x2000000
done 300 0.10 kernel kernel:do_close:49: load i64 at 0x2000000 (event 5+0) = 0x1000020
done 301 0.10 kernel kernel:do_close:51: calls slot close at 0x1000030(0x2000000) enters driver:driver_close as driver.shared
done 302 0.10 driver.shared driver:driver_close:126: alloca 8 at 0x3000000
done 303 0.10 driver.shared driver:driver_close:127: store i64 0x2000000 at 0x3000000 (event 302+0)
done 304 0.10 driver.shared driver:driver_close:128: load i64 at 0x3000000 (event 302+0) = 0x2000000
done 305 0.10 driver.shared driver:driver_close:130: load i32 at 0x2000008 (event 5+8) = 2
done 306 0.10 driver.shared driver:driver_close:146: load i64 at 0x3000000 (event 302+0) = 0x2000000
done 307 0.10 driver.shared driver:driver_close:148: load i32 at 0x2000008 (event 5+8) = 2
done 308 0.10 driver.shared driver:driver_close:150: store i32 1 at 0x2000008 (event 5+8)
done 309 0.10 driver.shared driver:driver_close:154: leaves 8 at 0x3000000
done 310 0.10 kernel kernel:do_close:52: leaves 0 at 0x3000000
ends 311 0.10 kernel script: ends: returned
done 312 0.11 kernel script: calls kernel:users() enters kernel:users as kernel
done 313 0.11 kernel kernel:users:56: load i64 at 0x1000000 (kernel:@device+0) = 0x2000000
done 314 0.11 kernel kernel:users:58: load i32 at 0x2000008 (event 5+8) = 1
done 315 0.11 kernel kernel:users:59: leaves 0 at 0x3000000
ends 316 0.11 kernel script: ends: returned 1
done 317 0.12 kernel script: calls kernel:written() enters kernel:written as kernel
done 318 0.12 kernel kernel:written:63: load i64 at 0x1000000 (kernel:@device+0) = 0x2000000
done 319 0.12 kernel kernel:written:65: load i64 at 0x2000010 (event 5+16) = 0xf
done 320 0.12 kernel kernel:written:66: leaves 0 at 0x3000000
ends 321 0.12 kernel script: ends: returned 15
done 322 0.13 kernel script: calls kernel:do_close() enters kernel:do_close as kernel
done 323 0.13 kernel kernel:do_close:48: load i64 at 0x1000000 (kernel:@device+0) = 0x2000000
done 324 0.13 kernel kernel:do_close:49: load i64 at 0x2000000 (event 5+0) = 0x1000020
done 325 0.13 kernel kernel:do_close:51: calls slot close at 0x1000030(0x2000000) enters driver:driver_close as driver.shared
done 326 0.13 driver.shared driver:driver_close:126: alloca 8 at 0x3000000
done 327 0.13 driver.shared driver:driver_close:127: store i64 0x2000000 at 0x3000000 (event 326+0)
done 328 0.13 driver.shared driver:driver_close:128: load i64 at 0x3000000 (event 326+0) = 0x2000000
done 329 0.13 driver.shared driver:driver_close:130: load i32 at 0x2000008 (event 5+8) = 1
done 330 0.13 driver.shared driver:driver_close:140: load i64 at 0x3000000 (event 326+0) = 0x2000000
done 331 0.13 driver.shared driver:driver_close:142: store i64 0x0 at 0x2000010 (event 5+16)
done 332 0.13 driver.shared driver:driver_close:146: load i64 at 0x3000000 (event 326+0) = 0x2000000
done 333 0.13 driver.shared driver:driver_close:148: load i32 at 0x2000008 (event 5+8) = 1
done 334 0.13 driver.shared driver:driver_close:150: store i32 0 at 0x2000008 (event 5+8)
done 335 0.13 driver.shared driver:driver_close:154: leaves 8 at 0x3000000
done 336 0.13 kernel kernel:do_close:52: leaves 0 at 0x3000000
ends 337 0.13 kernel script: ends: returned
done 338 0.14 kernel script: calls kernel:users() enters kernel:users as kernel
done 339 0.14 kernel kernel:users:56: load i64 at 0x1000000 (kernel:@device+0) = 0x2000000
done 340 0.14 kernel kernel:users:58: load i32 at 0x2000008 (event 5+8) = 0
done 341 0.14 kernel kernel:users:59: leaves 0 at 0x3000000
ends 342 0.14 kernel script: ends: returned 0
done 343 0.15 kernel script: calls kernel:written() enters kernel:written as kernel
done 344 0.15 kernel kernel:written:63: load i64 at 0x1000000 (kernel:@device+0) = 0x2000000
done 345 0.15 kernel kernel:written:65: load i64 at 0x2000010 (event 5+16) = 0x0
done 346 0.15 kernel kernel:written:66: leaves 0 at 0x3000000
ends 347 0.15 kernel script: ends: returned 0
done 348 0.16 kernel script: calls kernel:do_close() enters kernel:do_close as kernel
done 349 0.16 kernel kernel:do_close:48: load i64 at 0x1000000 (kernel:@device+0) = 0x2000000
done 350 0.16 kernel kernel:do_close:49: load i64 at 0x2000000 (event 5+0) = 0x1000020
done 351 0.16 kernel kernel:do_close:51: calls slot close at 0x1000030(0x2000000) enters driver:driver_close as driver.shared
done 352 0.16 driver.shared driver:driver_close:126: alloca 8 at 0x3000000
done 353 0.16 driver.shared driver:driver_close:127: store i64 0x2000000 at 0x3000000 (event 352+0)
done 354 0.16 driver.shared driver:driver_close:128: load i64 at 0x3000000 (event 352+0) = 0x2000000
done 355 0.16 driver.shared driver:driver_close:130: load i32 at 0x2000008 (event 5+8) = 0
done 356 0.16 driver.shared driver:driver_close:154: leaves 8 at 0x3000000
done 357 0.16 kernel kernel:do_close:52: leaves 0 at 0x3000000
ends 358 0.16 kernel script: ends: returned
done 359 0.17 kernel script: calls kernel:users() enters kernel:users as kernel
done 360 0.17 kernel kernel:users:56: load i64 at 0x1000000 (kernel:@device+0) = 0x2000000
done 361 0.17 kernel kernel:users:58: load i32 at 0x2000008 (event 5+8) = 0
done 362 0.17 kernel kernel:users:59: leaves 0 at 0x3000000
ends 363 0.17 kernel script: ends: returned 0
---- file examples/manual/c_read.schedule
schedule 0*202
---- words examples/manual/c_read.case examples/manual/c_read.schedule
---- trace examples/manual/c_read.case
---- whole
status 0
done 0 0.0 kernel script: calls m:backslash() enters m:backslash as m.shared
done 1 0.0 m.shared m:backslash:18: load i8 at 0x1000001 (m:@path+1) = 92
done 2 0.0 m.shared m:backslash:20: leaves 0 at 0x3000000
ends 3 0.0 kernel script: ends: returned 92
done 4 0.1 kernel script: calls m:square(0x1, 0x2) enters m:square as m.shared
done 5 0.1 m.shared m:square:25: alloca 8 at 0x3000000
done 6 0.1 m.shared m:square:26: alloca 8 at 0x3000008
done 7 0.1 m.shared m:square:27: store i64 0x1 at 0x3000000 (event 5+0)
done 8 0.1 m.shared m:square:28: store i64 0x2 at 0x3000008 (event 6+0)
done 9 0.1 m.shared m:square:29: load i64 at 0x3000000 (event 5+0) = 0x1
done 10 0.1 m.shared m:square:31: load i64 at 0x3000008 (event 6+0) = 0x2
done 11 0.1 m.shared m:square:33: load i64 at 0x1000038 (m:@squares+40) = 0x19
done 12 0.1 m.shared m:square:34: leaves 16 at 0x3000000
ends 13 0.1 kernel script: ends: returned 25
done 14 0.2 kernel script: calls m:apply(1, 5, 9) enters m:apply as m.shared
done 15 0.2 m.shared m:apply:39: alloca 4 at 0x3000000
done 16 0.2 m.shared m:apply:40: alloca 4 at 0x3000004
done 17 0.2 m.shared m:apply:41: alloca 4 at 0x3000008
done 18 0.2 m.shared m:apply:42: store i32 1 at 0x3000000 (event 15+0)
done 19 0.2 m.shared m:apply:43: store i32 5 at 0x3000004 (event 16+0)
done 20 0.2 m.shared m:apply:44: store i32 9 at 0x3000008 (event 17+0)
done 21 0.2 m.shared m:apply:45: load i32 at 0x3000000 (event 15+0) = 1
done 22 0.2 m.shared m:apply:49: load i64 at 0x1000048 (m:@operators+8) = 0x10130
done 23 0.2 m.shared m:apply:50: load i32 at 0x3000004 (event 16+0) = 5
done 24 0.2 m.shared m:apply:51: load i32 at 0x3000008 (event 17+0) = 9
done 25 0.2 m.shared m:apply:52: calls 0x10130 (m:sub)(5, 9) enters m:sub as m.shared
done 26 0.2 m.shared m:sub:287: alloca 4 at 0x300000c
done 27 0.2 m.shared m:sub:288: alloca 4 at 0x3000010
done 28 0.2 m.shared m:sub:289: store i32 5 at 0x300000c (event 26+0)
done 29 0.2 m.shared m:sub:290: store i32 9 at 0x3000010 (event 27+0)
done 30 0.2 m.shared m:sub:291: load i32 at 0x300000c (event 26+0) = 5
done 31 0.2 m.shared m:sub:292: load i32 at 0x3000010 (event 27+0) = 9
done 32 0.2 m.shared m:sub:294: leaves 8 at 0x300000c
done 33 0.2 m.shared m:apply:53: leaves 12 at 0x3000000
ends 34 0.2 kernel script: ends: returned -4
done 35 0.3 kernel script: calls m:distance(0x100000001) enters m:distance as m.shared
done 36 0.3 m.shared m:distance:58: alloca 8 at 0x3000000
done 37 0.3 m.shared m:distance:59: alloca 8 at 0x3000008
done 38 0.3 m.shared m:distance:60: store i64 0x100000001 at 0x3000000 (event 36+0)
done 39 0.3 m.shared m:distance:61: copy 8 from 0x1000050 (m:@corner+0) to 0x3000008 (event 37+0)
done 40 0.3 m.shared m:distance:63: load i32 at 0x3000000 (event 36+0) = 1
done 41 0.3 m.shared m:distance:65: load i32 at 0x3000008 (event 37+0) = 3
done 42 0.3 m.shared m:distance:67: store i32 2 at 0x3000008 (event 37+0)
done 43 0.3 m.shared m:distance:69: load i32 at 0x3000004 (event 36+4) = 1
done 44 0.3 m.shared m:distance:71: load i32 at 0x300000c (event 37+4) = 4
done 45 0.3 m.shared m:distance:73: store i32 3 at 0x300000c (event 37+4)
done 46 0.3 m.shared m:distance:75: load i32 at 0x3000008 (event 37+0) = 2
done 47 0.3 m.shared m:distance:77: load i32 at 0x3000008 (event 37+0) = 2
done 48 0.3 m.shared m:distance:80: load i32 at 0x300000c (event 37+4) = 3
done 49 0.3 m.shared m:distance:82: load i32 at 0x300000c (event 37+4) = 3
done 50 0.3 m.shared m:distance:85: leaves 16 at 0x3000000
ends 51 0.3 kernel script: ends: returned 13
done 52 0.4 kernel script: calls m:third_byte(287454020) enters m:third_byte as m.shared
done 53 0.4 m.shared m:third_byte:93: alloca 4 at 0x3000000
done 54 0.4 m.shared m:third_byte:94: alloca 4 at 0x3000004
done 55 0.4 m.shared m:third_byte:95: store i32 287454020 at 0x3000000 (event 53+0)
done 56 0.4 m.shared m:third_byte:96: load i32 at 0x3000000 (event 53+0) = 287454020
done 57 0.4 m.shared m:third_byte:97: store i32 287454020 at 0x3000004 (event 54+0)
done 58 0.4 m.shared m:third_byte:99: load i8 at 0x3000006 (event 54+2) = 34
done 59 0.4 m.shared m:third_byte:101: leaves 8 at 0x3000000
ends 60 0.4 kernel script: ends: returned 34
done 61 0.5 kernel script: calls m:header_size() enters m:header_size as m.shared
done 62 0.5 m.shared m:header_size:106: alloca 10 at 0x3000000
done 63 0.5 m.shared m:header_size:113: leaves 10 at 0x3000000
ends 64 0.5 kernel script: ends: returned 6
done 65 0.6 kernel script: calls m:is_large(1) enters m:is_large as m.shared
done 66 0.6 m.shared m:is_large:118: alloca 4 at 0x3000000
done 67 0.6 m.shared m:is_large:119: store i32 1 at 0x3000000 (event 66+0)
done 68 0.6 m.shared m:is_large:120: load i32 at 0x3000000 (event 66+0) = 1
done 69 0.6 m.shared m:is_large:122: leaves 4 at 0x3000000
ends 70 0.6 kernel script: ends: returned 1
done 71 0.7 kernel script: calls m:absolute(-7) enters m:absolute as m.shared
done 72 0.7 m.shared m:absolute:127: alloca 4 at 0x3000000
done 73 0.7 m.shared m:absolute:128: store i32 -7 at 0x3000000 (event 72+0)
done 74 0.7 m.shared m:absolute:129: load i32 at 0x3000000 (event 72+0) = -7
done 75 0.7 m.shared m:absolute:133: leaves 4 at 0x3000000
ends 76 0.7 kernel script: ends: returned 7
done 77 0.8 kernel script: calls m:counted() enters m:counted as m.shared
done 78 0.8 m.shared m:counted:138: load i32 at 0x1000060 (m:@counted.calls+0) = 0
done 79 0.8 m.shared m:counted:140: store i32 1 at 0x1000060 (m:@counted.calls+0)
done 80 0.8 m.shared m:counted:141: leaves 0 at 0x3000000
ends 81 0.8 kernel script: ends: returned 1
done 82 0.9 kernel script: calls m:counted() enters m:counted as m.shared
done 83 0.9 m.shared m:counted:138: load i32 at 0x1000060 (m:@counted.calls+0) = 1
done 84 0.9 m.shared m:counted:140: store i32 2 at 0x1000060 (m:@counted.calls+0)
done 85 0.9 m.shared m:counted:141: leaves 0 at 0x3000000
ends 86 0.9 kernel script: ends: returned 2
done 87 0.10 kernel script: calls m:classify(1) enters m:classify as m.shared
done 88 0.10 m.shared m:classify:146: alloca 4 at 0x3000000
done 89 0.10 m.shared m:classify:147: alloca 4 at 0x3000004
done 90 0.10 m.shared m:classify:148: store i32 1 at 0x3000004 (event 89+0)
done 91 0.10 m.shared m:classify:149: load i32 at 0x3000004 (event 89+0) = 1
done 92 0.10 m.shared m:classify:158: store i32 10 at 0x3000000 (event 88+0)
done 93 0.10 m.shared m:classify:174: load i32 at 0x3000000 (event 88+0) = 10
done 94 0.10 m.shared m:classify:175: leaves 8 at 0x3000000
ends 95 0.10 kernel script: ends: returned 10
done 96 0.11 kernel script: calls m:classify(3) enters m:classify as m.shared
done 97 0.11 m.shared m:classify:146: alloca 4 at 0x3000000
done 98 0.11 m.shared m:classify:147: alloca 4 at 0x3000004
done 99 0.11 m.shared m:classify:148: store i32 3 at 0x3000004 (event 98+0)
done 100 0.11 m.shared m:classify:149: load i32 at 0x3000004 (event 98+0) = 3
done 101 0.11 m.shared m:classify:162: store i32 20 at 0x3000000 (event 97+0)
done 102 0.11 m.shared m:classify:174: load i32 at 0x3000000 (event 97+0) = 20
done 103 0.11 m.shared m:classify:175: leaves 8 at 0x3000000
ends 104 0.11 kernel script: ends: returned 20
done 105 0.12 kernel script: calls m:classify(-5) enters m:classify as m.shared
done 106 0.12 m.shared m:classify:146: alloca 4 at 0x3000000
done 107 0.12 m.shared m:classify:147: alloca 4 at 0x3000004
done 108 0.12 m.shared m:classify:148: store i32 -5 at 0x3000004 (event 107+0)
done 109 0.12 m.shared m:classify:149: load i32 at 0x3000004 (event 107+0) = -5
done 110 0.12 m.shared m:classify:166: load i32 at 0x3000004 (event 107+0) = -5
done 111 0.12 m.shared m:classify:170: store i32 -1 at 0x3000000 (event 106+0)
done 112 0.12 m.shared m:classify:174: load i32 at 0x3000000 (event 106+0) = -1
done 113 0.12 m.shared m:classify:175: leaves 8 at 0x3000000
ends 114 0.12 kernel script: ends: returned -1
done 115 0.13 kernel script: calls m:classify(9) enters m:classify as m.shared
done 116 0.13 m.shared m:classify:146: alloca 4 at 0x3000000
done 117 0.13 m.shared m:classify:147: alloca 4 at 0x3000004
done 118 0.13 m.shared m:classify:148: store i32 9 at 0x3000004 (event 117+0)
done 119 0.13 m.shared m:classify:149: load i32 at 0x3000004 (event 117+0) = 9
done 120 0.13 m.shared m:classify:166: load i32 at 0x3000004 (event 117+0) = 9
done 121 0.13 m.shared m:classify:170: store i32 0 at 0x3000000 (event 116+0)
done 122 0.13 m.shared m:classify:174: load i32 at 0x3000000 (event 116+0) = 0
done 123 0.13 m.shared m:classify:175: leaves 8 at 0x3000000
ends 124 0.13 kernel script: ends: returned 0
done 125 0.14 kernel script: calls m:filled(1) enters m:filled as m.shared
done 126 0.14 m.shared m:filled:180: alloca 4 at 0x3000000
done 127 0.14 m.shared m:filled:181: alloca 16 at 0x3000004
done 128 0.14 m.shared m:filled:182: alloca 4 at 0x3000014
done 129 0.14 m.shared m:filled:183: alloca 4 at 0x3000018
done 130 0.14 m.shared m:filled:184: store i32 1 at 0x3000000 (event 126+0)
done 131 0.14 m.shared m:filled:185: store i32 0 at 0x3000014 (event 128+0)
done 132 0.14 m.shared m:filled:186: store i32 0 at 0x3000018 (event 129+0)
done 133 0.14 m.shared m:filled:188: load i32 at 0x3000000 (event 126+0) = 1
done 134 0.14 m.shared m:filled:190: fill 16 with 1 at 0x3000004 (event 127+0)
done 135 0.14 m.shared m:filled:193: copy 8 from 0x3000004 (event 127+0) to 0x300000c (event 127+8)
done 136 0.14 m.shared m:filled:197: load i32 at 0x3000018 (event 129+0) = 0
done 137 0.14 m.shared m:filled:200: load i32 at 0x3000004 (event 127+0) = 16843009
done 138 0.14 m.shared m:filled:201: load i32 at 0x3000014 (event 128+0) = 0
done 139 0.14 m.shared m:filled:203: store i32 16843009 at 0x3000014 (event 128+0)
done 140 0.14 m.shared m:filled:207: load i32 at 0x3000018 (event 129+0) = 0
done 141 0.14 m.shared m:filled:209: store i32 1 at 0x3000018 (event 129+0)
done 142 0.14 m.shared m:filled:197: load i32 at 0x3000018 (event 129+0) = 1
done 143 0.14 m.shared m:filled:200: load i32 at 0x3000008 (event 127+4) = 16843009
done 144 0.14 m.shared m:filled:201: load i32 at 0x3000014 (event 128+0) = 16843009
done 145 0.14 m.shared m:filled:203: store i32 33686018 at 0x3000014 (event 128+0)
done 146 0.14 m.shared m:filled:207: load i32 at 0x3000018 (event 129+0) = 1
done 147 0.14 m.shared m:filled:209: store i32 2 at 0x3000018 (event 129+0)
done 148 0.14 m.shared m:filled:197: load i32 at 0x3000018 (event 129+0) = 2
done 149 0.14 m.shared m:filled:200: load i32 at 0x300000c (event 127+8) = 16843009
done 150 0.14 m.shared m:filled:201: load i32 at 0x3000014 (event 128+0) = 33686018
done 151 0.14 m.shared m:filled:203: store i32 50529027 at 0x3000014 (event 128+0)
done 152 0.14 m.shared m:filled:207: load i32 at 0x3000018 (event 129+0) = 2
done 153 0.14 m.shared m:filled:209: store i32 3 at 0x3000018 (event 129+0)
done 154 0.14 m.shared m:filled:197: load i32 at 0x3000018 (event 129+0) = 3
done 155 0.14 m.shared m:filled:200: load i32 at 0x3000010 (event 127+12) = 16843009
done 156 0.14 m.shared m:filled:201: load i32 at 0x3000014 (event 128+0) = 50529027
done 157 0.14 m.shared m:filled:203: store i32 67372036 at 0x3000014 (event 128+0)
done 158 0.14 m.shared m:filled:207: load i32 at 0x3000018 (event 129+0) = 3
done 159 0.14 m.shared m:filled:209: store i32 4 at 0x3000018 (event 129+0)
done 160 0.14 m.shared m:filled:214: load i32 at 0x3000014 (event 128+0) = 67372036
done 161 0.14 m.shared m:filled:215: leaves 28 at 0x3000000
ends 162 0.14 kernel script: ends: returned 67372036
done 163 0.15 kernel script: calls m:first_zero(0x1000000, 4) enters m:first_zero as m.shared
done 164 0.15 m.shared m:first_zero:223: alloca 4 at 0x3000000
done 165 0.15 m.shared m:first_zero:224: alloca 8 at 0x3000008
done 166 0.15 m.shared m:first_zero:225: alloca 4 at 0x3000010
done 167 0.15 m.shared m:first_zero:226: alloca 4 at 0x3000014
done 168 0.15 m.shared m:first_zero:227: store i64 0x1000000 at 0x3000008 (event 165+0)
done 169 0.15 m.shared m:first_zero:228: store i32 4 at 0x3000010 (event 166+0)
done 170 0.15 m.shared m:first_zero:229: store i32 0 at 0x3000014 (event 167+0)
done 171 0.15 m.shared m:first_zero:233: load i32 at 0x3000014 (event 167+0) = 0
done 172 0.15 m.shared m:first_zero:234: load i32 at 0x3000010 (event 166+0) = 4
done 173 0.15 m.shared m:first_zero:239: load i64 at 0x3000008 (event 165+0) = 0x1000000
done 174 0.15 m.shared m:first_zero:240: load i32 at 0x3000014 (event 167+0) = 0
done 175 0.15 m.shared m:first_zero:243: load i8 at 0x1000000 (m:@path+0) = 97
done 176 0.15 m.shared m:first_zero:259: load i32 at 0x3000014 (event 167+0) = 0
done 177 0.15 m.shared m:first_zero:261: store i32 1 at 0x3000014 (event 167+0)
done 178 0.15 m.shared m:first_zero:233: load i32 at 0x3000014 (event 167+0) = 1
done 179 0.15 m.shared m:first_zero:234: load i32 at 0x3000010 (event 166+0) = 4
done 180 0.15 m.shared m:first_zero:239: load i64 at 0x3000008 (event 165+0) = 0x1000000
done 181 0.15 m.shared m:first_zero:240: load i32 at 0x3000014 (event 167+0) = 1
done 182 0.15 m.shared m:first_zero:243: load i8 at 0x1000001 (m:@path+1) = 92
done 183 0.15 m.shared m:first_zero:259: load i32 at 0x3000014 (event 167+0) = 1
done 184 0.15 m.shared m:first_zero:261: store i32 2 at 0x3000014 (event 167+0)
done 185 0.15 m.shared m:first_zero:233: load i32 at 0x3000014 (event 167+0) = 2
done 186 0.15 m.shared m:first_zero:234: load i32 at 0x3000010 (event 166+0) = 4
done 187 0.15 m.shared m:first_zero:239: load i64 at 0x3000008 (event 165+0) = 0x1000000
done 188 0.15 m.shared m:first_zero:240: load i32 at 0x3000014 (event 167+0) = 2
done 189 0.15 m.shared m:first_zero:243: load i8 at 0x1000002 (m:@path+2) = 98
done 190 0.15 m.shared m:first_zero:259: load i32 at 0x3000014 (event 167+0) = 2
done 191 0.15 m.shared m:first_zero:261: store i32 3 at 0x3000014 (event 167+0)
done 192 0.15 m.shared m:first_zero:233: load i32 at 0x3000014 (event 167+0) = 3
done 193 0.15 m.shared m:first_zero:234: load i32 at 0x3000010 (event 166+0) = 4
done 194 0.15 m.shared m:first_zero:239: load i64 at 0x3000008 (event 165+0) = 0x1000000
done 195 0.15 m.shared m:first_zero:240: load i32 at 0x3000014 (event 167+0) = 3
done 196 0.15 m.shared m:first_zero:243: load i8 at 0x1000003 (m:@path+3) = 0
done 197 0.15 m.shared m:first_zero:254: load i32 at 0x3000014 (event 167+0) = 3
done 198 0.15 m.shared m:first_zero:255: store i32 3 at 0x3000000 (event 164+0)
done 199 0.15 m.shared m:first_zero:269: load i32 at 0x3000000 (event 164+0) = 3
done 200 0.15 m.shared m:first_zero:270: leaves 24 at 0x3000000
ends 201 0.15 kernel script: ends: returned 3
---- file examples/manual/padded_field.schedule
schedule 0*8
---- words examples/manual/padded_field.case examples/manual/padded_field.schedule
---- trace examples/manual/padded_field.case
---- whole
status 0
done 0 0.0 kernel script: calls m:is_ready() enters m:is_ready as m.shared
done 1 0.0 m.shared m:is_ready:12: load i32 at 0x1000000 (m:@flags+0) = 0
done 2 0.0 m.shared m:is_ready:14: leaves 0 at 0x3000000
ends 3 0.0 kernel script: ends: returned 0
done 4 0.1 kernel script: calls m:count() enters m:count as m.shared
done 5 0.1 m.shared m:count:19: load i32 at 0x1000000 (m:@flags+0) = 0
done 6 0.1 m.shared m:count:22: leaves 0 at 0x3000000
ends 7 0.1 kernel script: ends: returned 0
"#
}
