//! Drivers that the manual writes from the beginning, event by event.
//! Written by `tools/example-texts` from `examples/` and `docs/MANUAL.md`.

/// Drivers that the manual writes from the beginning, event by event: what is run, over which files beside those of `file_table`, and what it writes.
pub fn driver_traces_table() -> &'static str {
    r#"---- file examples/manual/timer.schedule
schedule 0*24
---- words examples/manual/timer.case examples/manual/timer.schedule
---- trace examples/manual/timer.case
---- whole
status 1
done 0 0.0 kernel script: calls t:start() enters t:start as t.shared
done 1 0.0 t.shared t:start:13: load i64 at 0x1000010 (t:@timer+0) = 0x100b0
done 2 0.0 t.shared t:start:14: calls kernel:timer_set(0x100b0) enters kernel:timer_set as kernel
done 3 0.0 t.shared t:start:14: pre 0 of kernel:timer_set from t.shared to kernel
done 4 0.0 kernel kernel:timer_set:4: store i64 0x100b0 at 0x1000000 (kernel:@timer+0)
done 5 0.0 kernel kernel:timer_set:5: leaves 0 at 0x3000000
done 6 0.0 t.shared t:start:15: leaves 0 at 0x3000000
ends 7 0.0 kernel script: ends: returned
done 8 0.1 kernel script: calls kernel:do_tick(0x7) enters kernel:do_tick as kernel
done 9 0.1 kernel kernel:do_tick:8: calls slot tick at 0x1000000(0x7) enters t:on_tick as t.shared
done 10 0.1 t.shared t:on_tick:34: alloca 8 at 0x3000000
done 11 0.1 t.shared t:on_tick:35: store i64 0x7 at 0x3000000 (event 10+0)
done 12 0.1 t.shared t:on_tick:36: load i64 at 0x3000000 (event 10+0) = 0x7
done 13 0.1 t.shared t:on_tick:37: store i64 0x7 at 0x1000020 (t:@last+0)
done 14 0.1 t.shared t:on_tick:38: leaves 8 at 0x3000000
done 15 0.1 kernel kernel:do_tick:9: leaves 0 at 0x3000000
ends 16 0.1 kernel script: ends: returned
done 17 0.2 kernel script: calls t:read_last() enters t:read_last as t.shared
done 18 0.2 t.shared t:read_last:28: load i64 at 0x1000020 (t:@last+0) = 0x7
done 19 0.2 t.shared t:read_last:29: leaves 0 at 0x3000000
ends 20 0.2 kernel script: ends: returned 7
done 21 0.3 kernel script: calls t:wild() enters t:wild as t.shared
done 22 0.3 t.shared t:wild:22: calls kernel:timer_set(0x10070) enters kernel:timer_set as kernel
refused 23 0.3 t.shared t:wild:22: pre 0 of kernel:timer_set from t.shared to kernel: refused 2 t.shared call 0x10070
---- file examples/manual/disk.schedule
schedule 0*561
---- words examples/manual/disk.case examples/manual/disk.schedule
---- trace examples/manual/disk.case
---- whole
status 1
done 0 0.0 kernel script: calls disk:init() enters disk:init as disk.shared
done 1 0.0 disk.shared disk:init:14: calls kernel:disk_add(0x1000060) enters kernel:disk_add as kernel
done 2 0.0 kernel kernel:disk_add:37: alloca 8 at 0x3000000
done 3 0.0 kernel kernel:disk_add:38: alloca 8 at 0x3000008
done 4 0.0 kernel kernel:disk_add:39: store i64 0x1000060 at 0x3000008 (event 3+0)
done 5 0.0 kernel kernel:disk_add:40: load i64 at 0x1000000 (kernel:@count+0) = 0x0
done 6 0.0 kernel kernel:disk_add:49: load i64 at 0x3000008 (event 3+0) = 0x1000060
done 7 0.0 kernel kernel:disk_add:50: load i64 at 0x1000000 (kernel:@count+0) = 0x0
done 8 0.0 kernel kernel:disk_add:53: store i64 0x1000060 at 0x1000010 (kernel:@disks+0)
done 9 0.0 kernel kernel:disk_add:54: load i64 at 0x1000000 (kernel:@count+0) = 0x0
done 10 0.0 kernel kernel:disk_add:56: store i64 0x1 at 0x1000000 (kernel:@count+0)
done 11 0.0 kernel kernel:disk_add:58: store i64 0x1000010 at 0x3000000 (event 2+0)
done 12 0.0 kernel kernel:disk_add:62: load i64 at 0x3000000 (event 2+0) = 0x1000010
done 13 0.0 kernel kernel:disk_add:63: leaves 16 at 0x3000000
done 14 0.0 disk.shared disk:init:19: calls kernel:disk_add(0x1000060) enters kernel:disk_add as kernel
done 15 0.0 kernel kernel:disk_add:37: alloca 8 at 0x3000000
done 16 0.0 kernel kernel:disk_add:38: alloca 8 at 0x3000008
done 17 0.0 kernel kernel:disk_add:39: store i64 0x1000060 at 0x3000008 (event 16+0)
done 18 0.0 kernel kernel:disk_add:40: load i64 at 0x1000000 (kernel:@count+0) = 0x1
done 19 0.0 kernel kernel:disk_add:49: load i64 at 0x3000008 (event 16+0) = 0x1000060
done 20 0.0 kernel kernel:disk_add:50: load i64 at 0x1000000 (kernel:@count+0) = 0x1
done 21 0.0 kernel kernel:disk_add:53: store i64 0x1000060 at 0x1000020 (kernel:@disks+16)
done 22 0.0 kernel kernel:disk_add:54: load i64 at 0x1000000 (kernel:@count+0) = 0x1
done 23 0.0 kernel kernel:disk_add:56: store i64 0x2 at 0x1000000 (kernel:@count+0)
done 24 0.0 kernel kernel:disk_add:58: store i64 0x1000020 at 0x3000000 (event 15+0)
done 25 0.0 kernel kernel:disk_add:62: load i64 at 0x3000000 (event 15+0) = 0x1000020
done 26 0.0 kernel kernel:disk_add:63: leaves 16 at 0x3000000
done 27 0.0 disk.shared disk:init:27: leaves 0 at 0x3000000
ends 28 0.0 kernel script: ends: returned 0
done 29 0.1 kernel script: calls kernel:do_read(0x0, 0x7) enters kernel:do_read as kernel
done 30 0.1 kernel kernel:do_read:81: alloca 8 at 0x3000000
done 31 0.1 kernel kernel:do_read:82: alloca 8 at 0x3000008
done 32 0.1 kernel kernel:do_read:83: alloca 8 at 0x3000010
done 33 0.1 kernel kernel:do_read:84: alloca 4 at 0x3000018
done 34 0.1 kernel kernel:do_read:85: store i64 0x0 at 0x3000000 (event 30+0)
done 35 0.1 kernel kernel:do_read:86: store i64 0x7 at 0x3000008 (event 31+0)
done 36 0.1 kernel kernel:do_read:87: load i64 at 0x3000000 (event 30+0) = 0x0
done 37 0.1 kernel kernel:do_read:89: store i64 0x1000010 at 0x3000010 (event 32+0)
done 38 0.1 kernel kernel:do_read:90: load i64 at 0x3000010 (event 32+0) = 0x1000010
done 39 0.1 kernel kernel:do_read:92: load i64 at 0x1000010 (kernel:@disks+0) = 0x1000060
done 40 0.1 kernel kernel:do_read:94: load i64 at 0x3000010 (event 32+0) = 0x1000010
done 41 0.1 kernel kernel:do_read:95: load i64 at 0x3000008 (event 31+0) = 0x7
done 42 0.1 kernel kernel:do_read:96: calls slot read at 0x1000060(0x1000010, 0x7, 0x1000050) enters disk:disk_read as disk[0x1000010]
done 43 0.1 kernel kernel:do_read:96: pre 0 of disk:disk_read from kernel to disk[0x1000010]
done 44 0.1 kernel kernel:do_read:96: pre 1 of disk:disk_read from kernel to disk[0x1000010]
done 45 0.1 disk[0x1000010] disk:disk_read:34: alloca 4 at 0x300001c
done 46 0.1 disk[0x1000010] disk:disk_read:35: alloca 8 at 0x3000020
done 47 0.1 disk[0x1000010] disk:disk_read:36: alloca 8 at 0x3000028
done 48 0.1 disk[0x1000010] disk:disk_read:37: alloca 8 at 0x3000030
done 49 0.1 disk[0x1000010] disk:disk_read:38: alloca 8 at 0x3000038
done 50 0.1 disk[0x1000010] disk:disk_read:39: alloca 4 at 0x3000040
done 51 0.1 disk[0x1000010] disk:disk_read:40: store i64 0x1000010 at 0x3000020 (event 46+0)
done 52 0.1 disk[0x1000010] disk:disk_read:41: store i64 0x7 at 0x3000028 (event 47+0)
done 53 0.1 disk[0x1000010] disk:disk_read:42: store i64 0x1000050 at 0x3000030 (event 48+0)
done 54 0.1 disk[0x1000010] disk:disk_read:43: load i64 at 0x3000020 (event 46+0) = 0x1000010
done 55 0.1 disk[0x1000010] disk:disk_read:45: load i64 at 0x1000018 (kernel:@disks+8) = 0x0
done 56 0.1 disk[0x1000010] disk:disk_read:46: store i64 0x0 at 0x3000038 (event 49+0)
done 57 0.1 disk[0x1000010] disk:disk_read:47: load i64 at 0x3000038 (event 49+0) = 0x0
done 58 0.1 disk[0x1000010] disk:disk_read:52: calls kernel:alloc(0x20) enters kernel:alloc as kernel
done 59 0.1 kernel kernel:alloc:15: alloca 8 at 0x3000048
done 60 0.1 kernel kernel:alloc:16: store i64 0x20 at 0x3000048 (event 59+0)
done 61 0.1 kernel kernel:alloc:17: load i64 at 0x3000048 (event 59+0) = 0x20
done 62 0.1 kernel kernel:alloc:18: calls k.alloc(0x20) = 0x2000000
done 63 0.1 kernel kernel:alloc:19: leaves 12 at 0x3000044
done 64 0.1 kernel disk:disk_read:52: post 0 of kernel:alloc from kernel to disk[0x1000010]
done 65 0.1 disk[0x1000010] disk:disk_read:53: store i64 0x2000000 at 0x3000038 (event 49+0)
done 66 0.1 disk[0x1000010] disk:disk_read:54: load i64 at 0x3000038 (event 49+0) = 0x2000000
done 67 0.1 disk[0x1000010] disk:disk_read:63: load i64 at 0x3000020 (event 46+0) = 0x1000010
done 68 0.1 disk[0x1000010] disk:disk_read:64: load i64 at 0x3000038 (event 49+0) = 0x2000000
done 69 0.1 disk[0x1000010] disk:disk_read:65: calls kernel:disk_private(0x1000010, 0x2000000) enters kernel:disk_private as kernel
done 70 0.1 disk[0x1000010] disk:disk_read:65: pre 0 of kernel:disk_private from disk[0x1000010] to kernel
done 71 0.1 kernel kernel:disk_private:68: alloca 8 at 0x3000048
done 72 0.1 kernel kernel:disk_private:69: alloca 8 at 0x3000050
done 73 0.1 kernel kernel:disk_private:70: store i64 0x1000010 at 0x3000048 (event 71+0)
done 74 0.1 kernel kernel:disk_private:71: store i64 0x2000000 at 0x3000050 (event 72+0)
done 75 0.1 kernel kernel:disk_private:72: load i64 at 0x3000050 (event 72+0) = 0x2000000
done 76 0.1 kernel kernel:disk_private:73: load i64 at 0x3000048 (event 71+0) = 0x1000010
done 77 0.1 kernel kernel:disk_private:75: store i64 0x2000000 at 0x1000018 (kernel:@disks+8)
done 78 0.1 kernel kernel:disk_private:76: leaves 20 at 0x3000044
done 79 0.1 disk[0x1000010] disk:disk_read:69: load i64 at 0x3000038 (event 49+0) = 0x2000000
done 80 0.1 disk[0x1000010] disk:disk_read:71: load i64 at 0x2000000 (event 62+0) = 0x0
done 81 0.1 disk[0x1000010] disk:disk_read:73: store i64 0x1 at 0x2000000 (event 62+0)
done 82 0.1 disk[0x1000010] disk:disk_read:74: load i64 at 0x3000028 (event 47+0) = 0x7
done 83 0.1 disk[0x1000010] disk:disk_read:75: load i64 at 0x3000038 (event 49+0) = 0x2000000
done 84 0.1 disk[0x1000010] disk:disk_read:77: store i64 0x7 at 0x2000008 (event 62+8)
done 85 0.1 disk[0x1000010] disk:disk_read:78: store i32 0 at 0x3000040 (event 50+0)
done 86 0.1 disk[0x1000010] disk:disk_read:82: load i32 at 0x3000040 (event 50+0) = 0
done 87 0.1 disk[0x1000010] disk:disk_read:87: load i64 at 0x3000028 (event 47+0) = 0x7
done 88 0.1 disk[0x1000010] disk:disk_read:88: load i32 at 0x3000040 (event 50+0) = 0
done 89 0.1 disk[0x1000010] disk:disk_read:92: load i64 at 0x3000038 (event 49+0) = 0x2000000
done 90 0.1 disk[0x1000010] disk:disk_read:94: load i32 at 0x3000040 (event 50+0) = 0
done 91 0.1 disk[0x1000010] disk:disk_read:97: store i8 7 at 0x2000010 (event 62+16)
done 92 0.1 disk[0x1000010] disk:disk_read:98: load i64 at 0x3000030 (event 48+0) = 0x1000050
done 93 0.1 disk[0x1000010] disk:disk_read:99: load i32 at 0x3000040 (event 50+0) = 0
done 94 0.1 disk[0x1000010] disk:disk_read:102: store i8 7 at 0x1000050 (kernel:@buffer+0)
done 95 0.1 disk[0x1000010] disk:disk_read:106: load i32 at 0x3000040 (event 50+0) = 0
done 96 0.1 disk[0x1000010] disk:disk_read:108: store i32 1 at 0x3000040 (event 50+0)
done 97 0.1 disk[0x1000010] disk:disk_read:82: load i32 at 0x3000040 (event 50+0) = 1
done 98 0.1 disk[0x1000010] disk:disk_read:87: load i64 at 0x3000028 (event 47+0) = 0x7
done 99 0.1 disk[0x1000010] disk:disk_read:88: load i32 at 0x3000040 (event 50+0) = 1
done 100 0.1 disk[0x1000010] disk:disk_read:92: load i64 at 0x3000038 (event 49+0) = 0x2000000
done 101 0.1 disk[0x1000010] disk:disk_read:94: load i32 at 0x3000040 (event 50+0) = 1
done 102 0.1 disk[0x1000010] disk:disk_read:97: store i8 8 at 0x2000011 (event 62+17)
done 103 0.1 disk[0x1000010] disk:disk_read:98: load i64 at 0x3000030 (event 48+0) = 0x1000050
done 104 0.1 disk[0x1000010] disk:disk_read:99: load i32 at 0x3000040 (event 50+0) = 1
done 105 0.1 disk[0x1000010] disk:disk_read:102: store i8 8 at 0x1000051 (kernel:@buffer+1)
done 106 0.1 disk[0x1000010] disk:disk_read:106: load i32 at 0x3000040 (event 50+0) = 1
done 107 0.1 disk[0x1000010] disk:disk_read:108: store i32 2 at 0x3000040 (event 50+0)
done 108 0.1 disk[0x1000010] disk:disk_read:82: load i32 at 0x3000040 (event 50+0) = 2
done 109 0.1 disk[0x1000010] disk:disk_read:87: load i64 at 0x3000028 (event 47+0) = 0x7
done 110 0.1 disk[0x1000010] disk:disk_read:88: load i32 at 0x3000040 (event 50+0) = 2
done 111 0.1 disk[0x1000010] disk:disk_read:92: load i64 at 0x3000038 (event 49+0) = 0x2000000
done 112 0.1 disk[0x1000010] disk:disk_read:94: load i32 at 0x3000040 (event 50+0) = 2
done 113 0.1 disk[0x1000010] disk:disk_read:97: store i8 9 at 0x2000012 (event 62+18)
done 114 0.1 disk[0x1000010] disk:disk_read:98: load i64 at 0x3000030 (event 48+0) = 0x1000050
done 115 0.1 disk[0x1000010] disk:disk_read:99: load i32 at 0x3000040 (event 50+0) = 2
done 116 0.1 disk[0x1000010] disk:disk_read:102: store i8 9 at 0x1000052 (kernel:@buffer+2)
done 117 0.1 disk[0x1000010] disk:disk_read:106: load i32 at 0x3000040 (event 50+0) = 2
done 118 0.1 disk[0x1000010] disk:disk_read:108: store i32 3 at 0x3000040 (event 50+0)
done 119 0.1 disk[0x1000010] disk:disk_read:82: load i32 at 0x3000040 (event 50+0) = 3
done 120 0.1 disk[0x1000010] disk:disk_read:87: load i64 at 0x3000028 (event 47+0) = 0x7
done 121 0.1 disk[0x1000010] disk:disk_read:88: load i32 at 0x3000040 (event 50+0) = 3
done 122 0.1 disk[0x1000010] disk:disk_read:92: load i64 at 0x3000038 (event 49+0) = 0x2000000
done 123 0.1 disk[0x1000010] disk:disk_read:94: load i32 at 0x3000040 (event 50+0) = 3
done 124 0.1 disk[0x1000010] disk:disk_read:97: store i8 10 at 0x2000013 (event 62+19)
done 125 0.1 disk[0x1000010] disk:disk_read:98: load i64 at 0x3000030 (event 48+0) = 0x1000050
done 126 0.1 disk[0x1000010] disk:disk_read:99: load i32 at 0x3000040 (event 50+0) = 3
done 127 0.1 disk[0x1000010] disk:disk_read:102: store i8 10 at 0x1000053 (kernel:@buffer+3)
done 128 0.1 disk[0x1000010] disk:disk_read:106: load i32 at 0x3000040 (event 50+0) = 3
done 129 0.1 disk[0x1000010] disk:disk_read:108: store i32 4 at 0x3000040 (event 50+0)
done 130 0.1 disk[0x1000010] disk:disk_read:82: load i32 at 0x3000040 (event 50+0) = 4
done 131 0.1 disk[0x1000010] disk:disk_read:87: load i64 at 0x3000028 (event 47+0) = 0x7
done 132 0.1 disk[0x1000010] disk:disk_read:88: load i32 at 0x3000040 (event 50+0) = 4
done 133 0.1 disk[0x1000010] disk:disk_read:92: load i64 at 0x3000038 (event 49+0) = 0x2000000
done 134 0.1 disk[0x1000010] disk:disk_read:94: load i32 at 0x3000040 (event 50+0) = 4
done 135 0.1 disk[0x1000010] disk:disk_read:97: store i8 11 at 0x2000014 (event 62+20)
done 136 0.1 disk[0x1000010] disk:disk_read:98: load i64 at 0x3000030 (event 48+0) = 0x1000050
done 137 0.1 disk[0x1000010] disk:disk_read:99: load i32 at 0x3000040 (event 50+0) = 4
done 138 0.1 disk[0x1000010] disk:disk_read:102: store i8 11 at 0x1000054 (kernel:@buffer+4)
done 139 0.1 disk[0x1000010] disk:disk_read:106: load i32 at 0x3000040 (event 50+0) = 4
done 140 0.1 disk[0x1000010] disk:disk_read:108: store i32 5 at 0x3000040 (event 50+0)
done 141 0.1 disk[0x1000010] disk:disk_read:82: load i32 at 0x3000040 (event 50+0) = 5
done 142 0.1 disk[0x1000010] disk:disk_read:87: load i64 at 0x3000028 (event 47+0) = 0x7
done 143 0.1 disk[0x1000010] disk:disk_read:88: load i32 at 0x3000040 (event 50+0) = 5
done 144 0.1 disk[0x1000010] disk:disk_read:92: load i64 at 0x3000038 (event 49+0) = 0x2000000
done 145 0.1 disk[0x1000010] disk:disk_read:94: load i32 at 0x3000040 (event 50+0) = 5
done 146 0.1 disk[0x1000010] disk:disk_read:97: store i8 12 at 0x2000015 (event 62+21)
done 147 0.1 disk[0x1000010] disk:disk_read:98: load i64 at 0x3000030 (event 48+0) = 0x1000050
done 148 0.1 disk[0x1000010] disk:disk_read:99: load i32 at 0x3000040 (event 50+0) = 5
done 149 0.1 disk[0x1000010] disk:disk_read:102: store i8 12 at 0x1000055 (kernel:@buffer+5)
done 150 0.1 disk[0x1000010] disk:disk_read:106: load i32 at 0x3000040 (event 50+0) = 5
done 151 0.1 disk[0x1000010] disk:disk_read:108: store i32 6 at 0x3000040 (event 50+0)
done 152 0.1 disk[0x1000010] disk:disk_read:82: load i32 at 0x3000040 (event 50+0) = 6
done 153 0.1 disk[0x1000010] disk:disk_read:87: load i64 at 0x3000028 (event 47+0) = 0x7
done 154 0.1 disk[0x1000010] disk:disk_read:88: load i32 at 0x3000040 (event 50+0) = 6
done 155 0.1 disk[0x1000010] disk:disk_read:92: load i64 at 0x3000038 (event 49+0) = 0x2000000
done 156 0.1 disk[0x1000010] disk:disk_read:94: load i32 at 0x3000040 (event 50+0) = 6
done 157 0.1 disk[0x1000010] disk:disk_read:97: store i8 13 at 0x2000016 (event 62+22)
done 158 0.1 disk[0x1000010] disk:disk_read:98: load i64 at 0x3000030 (event 48+0) = 0x1000050
done 159 0.1 disk[0x1000010] disk:disk_read:99: load i32 at 0x3000040 (event 50+0) = 6
done 160 0.1 disk[0x1000010] disk:disk_read:102: store i8 13 at 0x1000056 (kernel:@buffer+6)
done 161 0.1 disk[0x1000010] disk:disk_read:106: load i32 at 0x3000040 (event 50+0) = 6
done 162 0.1 disk[0x1000010] disk:disk_read:108: store i32 7 at 0x3000040 (event 50+0)
done 163 0.1 disk[0x1000010] disk:disk_read:82: load i32 at 0x3000040 (event 50+0) = 7
done 164 0.1 disk[0x1000010] disk:disk_read:87: load i64 at 0x3000028 (event 47+0) = 0x7
done 165 0.1 disk[0x1000010] disk:disk_read:88: load i32 at 0x3000040 (event 50+0) = 7
done 166 0.1 disk[0x1000010] disk:disk_read:92: load i64 at 0x3000038 (event 49+0) = 0x2000000
done 167 0.1 disk[0x1000010] disk:disk_read:94: load i32 at 0x3000040 (event 50+0) = 7
done 168 0.1 disk[0x1000010] disk:disk_read:97: store i8 14 at 0x2000017 (event 62+23)
done 169 0.1 disk[0x1000010] disk:disk_read:98: load i64 at 0x3000030 (event 48+0) = 0x1000050
done 170 0.1 disk[0x1000010] disk:disk_read:99: load i32 at 0x3000040 (event 50+0) = 7
done 171 0.1 disk[0x1000010] disk:disk_read:102: store i8 14 at 0x1000057 (kernel:@buffer+7)
done 172 0.1 disk[0x1000010] disk:disk_read:106: load i32 at 0x3000040 (event 50+0) = 7
done 173 0.1 disk[0x1000010] disk:disk_read:108: store i32 8 at 0x3000040 (event 50+0)
done 174 0.1 disk[0x1000010] disk:disk_read:82: load i32 at 0x3000040 (event 50+0) = 8
done 175 0.1 disk[0x1000010] disk:disk_read:87: load i64 at 0x3000028 (event 47+0) = 0x7
done 176 0.1 disk[0x1000010] disk:disk_read:88: load i32 at 0x3000040 (event 50+0) = 8
done 177 0.1 disk[0x1000010] disk:disk_read:92: load i64 at 0x3000038 (event 49+0) = 0x2000000
done 178 0.1 disk[0x1000010] disk:disk_read:94: load i32 at 0x3000040 (event 50+0) = 8
done 179 0.1 disk[0x1000010] disk:disk_read:97: store i8 15 at 0x2000018 (event 62+24)
done 180 0.1 disk[0x1000010] disk:disk_read:98: load i64 at 0x3000030 (event 48+0) = 0x1000050
done 181 0.1 disk[0x1000010] disk:disk_read:99: load i32 at 0x3000040 (event 50+0) = 8
done 182 0.1 disk[0x1000010] disk:disk_read:102: store i8 15 at 0x1000058 (kernel:@buffer+8)
done 183 0.1 disk[0x1000010] disk:disk_read:106: load i32 at 0x3000040 (event 50+0) = 8
done 184 0.1 disk[0x1000010] disk:disk_read:108: store i32 9 at 0x3000040 (event 50+0)
done 185 0.1 disk[0x1000010] disk:disk_read:82: load i32 at 0x3000040 (event 50+0) = 9
done 186 0.1 disk[0x1000010] disk:disk_read:87: load i64 at 0x3000028 (event 47+0) = 0x7
done 187 0.1 disk[0x1000010] disk:disk_read:88: load i32 at 0x3000040 (event 50+0) = 9
done 188 0.1 disk[0x1000010] disk:disk_read:92: load i64 at 0x3000038 (event 49+0) = 0x2000000
done 189 0.1 disk[0x1000010] disk:disk_read:94: load i32 at 0x3000040 (event 50+0) = 9
done 190 0.1 disk[0x1000010] disk:disk_read:97: store i8 16 at 0x2000019 (event 62+25)
done 191 0.1 disk[0x1000010] disk:disk_read:98: load i64 at 0x3000030 (event 48+0) = 0x1000050
done 192 0.1 disk[0x1000010] disk:disk_read:99: load i32 at 0x3000040 (event 50+0) = 9
done 193 0.1 disk[0x1000010] disk:disk_read:102: store i8 16 at 0x1000059 (kernel:@buffer+9)
done 194 0.1 disk[0x1000010] disk:disk_read:106: load i32 at 0x3000040 (event 50+0) = 9
done 195 0.1 disk[0x1000010] disk:disk_read:108: store i32 10 at 0x3000040 (event 50+0)
done 196 0.1 disk[0x1000010] disk:disk_read:82: load i32 at 0x3000040 (event 50+0) = 10
done 197 0.1 disk[0x1000010] disk:disk_read:87: load i64 at 0x3000028 (event 47+0) = 0x7
done 198 0.1 disk[0x1000010] disk:disk_read:88: load i32 at 0x3000040 (event 50+0) = 10
done 199 0.1 disk[0x1000010] disk:disk_read:92: load i64 at 0x3000038 (event 49+0) = 0x2000000
done 200 0.1 disk[0x1000010] disk:disk_read:94: load i32 at 0x3000040 (event 50+0) = 10
done 201 0.1 disk[0x1000010] disk:disk_read:97: store i8 17 at 0x200001a (event 62+26)
done 202 0.1 disk[0x1000010] disk:disk_read:98: load i64 at 0x3000030 (event 48+0) = 0x1000050
done 203 0.1 disk[0x1000010] disk:disk_read:99: load i32 at 0x3000040 (event 50+0) = 10
done 204 0.1 disk[0x1000010] disk:disk_read:102: store i8 17 at 0x100005a (kernel:@buffer+10)
done 205 0.1 disk[0x1000010] disk:disk_read:106: load i32 at 0x3000040 (event 50+0) = 10
done 206 0.1 disk[0x1000010] disk:disk_read:108: store i32 11 at 0x3000040 (event 50+0)
done 207 0.1 disk[0x1000010] disk:disk_read:82: load i32 at 0x3000040 (event 50+0) = 11
done 208 0.1 disk[0x1000010] disk:disk_read:87: load i64 at 0x3000028 (event 47+0) = 0x7
done 209 0.1 disk[0x1000010] disk:disk_read:88: load i32 at 0x3000040 (event 50+0) = 11
done 210 0.1 disk[0x1000010] disk:disk_read:92: load i64 at 0x3000038 (event 49+0) = 0x2000000
done 211 0.1 disk[0x1000010] disk:disk_read:94: load i32 at 0x3000040 (event 50+0) = 11
done 212 0.1 disk[0x1000010] disk:disk_read:97: store i8 18 at 0x200001b (event 62+27)
done 213 0.1 disk[0x1000010] disk:disk_read:98: load i64 at 0x3000030 (event 48+0) = 0x1000050
done 214 0.1 disk[0x1000010] disk:disk_read:99: load i32 at 0x3000040 (event 50+0) = 11
done 215 0.1 disk[0x1000010] disk:disk_read:102: store i8 18 at 0x100005b (kernel:@buffer+11)
done 216 0.1 disk[0x1000010] disk:disk_read:106: load i32 at 0x3000040 (event 50+0) = 11
done 217 0.1 disk[0x1000010] disk:disk_read:108: store i32 12 at 0x3000040 (event 50+0)
done 218 0.1 disk[0x1000010] disk:disk_read:82: load i32 at 0x3000040 (event 50+0) = 12
done 219 0.1 disk[0x1000010] disk:disk_read:87: load i64 at 0x3000028 (event 47+0) = 0x7
done 220 0.1 disk[0x1000010] disk:disk_read:88: load i32 at 0x3000040 (event 50+0) = 12
done 221 0.1 disk[0x1000010] disk:disk_read:92: load i64 at 0x3000038 (event 49+0) = 0x2000000
done 222 0.1 disk[0x1000010] disk:disk_read:94: load i32 at 0x3000040 (event 50+0) = 12
done 223 0.1 disk[0x1000010] disk:disk_read:97: store i8 19 at 0x200001c (event 62+28)
done 224 0.1 disk[0x1000010] disk:disk_read:98: load i64 at 0x3000030 (event 48+0) = 0x1000050
done 225 0.1 disk[0x1000010] disk:disk_read:99: load i32 at 0x3000040 (event 50+0) = 12
done 226 0.1 disk[0x1000010] disk:disk_read:102: store i8 19 at 0x100005c (kernel:@buffer+12)
done 227 0.1 disk[0x1000010] disk:disk_read:106: load i32 at 0x3000040 (event 50+0) = 12
done 228 0.1 disk[0x1000010] disk:disk_read:108: store i32 13 at 0x3000040 (event 50+0)
done 229 0.1 disk[0x1000010] disk:disk_read:82: load i32 at 0x3000040 (event 50+0) = 13
done 230 0.1 disk[0x1000010] disk:disk_read:87: load i64 at 0x3000028 (event 47+0) = 0x7
done 231 0.1 disk[0x1000010] disk:disk_read:88: load i32 at 0x3000040 (event 50+0) = 13
done 232 0.1 disk[0x1000010] disk:disk_read:92: load i64 at 0x3000038 (event 49+0) = 0x2000000
done 233 0.1 disk[0x1000010] disk:disk_read:94: load i32 at 0x3000040 (event 50+0) = 13
done 234 0.1 disk[0x1000010] disk:disk_read:97: store i8 20 at 0x200001d (event 62+29)
done 235 0.1 disk[0x1000010] disk:disk_read:98: load i64 at 0x3000030 (event 48+0) = 0x1000050
done 236 0.1 disk[0x1000010] disk:disk_read:99: load i32 at 0x3000040 (event 50+0) = 13
done 237 0.1 disk[0x1000010] disk:disk_read:102: store i8 20 at 0x100005d (kernel:@buffer+13)
done 238 0.1 disk[0x1000010] disk:disk_read:106: load i32 at 0x3000040 (event 50+0) = 13
done 239 0.1 disk[0x1000010] disk:disk_read:108: store i32 14 at 0x3000040 (event 50+0)
done 240 0.1 disk[0x1000010] disk:disk_read:82: load i32 at 0x3000040 (event 50+0) = 14
done 241 0.1 disk[0x1000010] disk:disk_read:87: load i64 at 0x3000028 (event 47+0) = 0x7
done 242 0.1 disk[0x1000010] disk:disk_read:88: load i32 at 0x3000040 (event 50+0) = 14
done 243 0.1 disk[0x1000010] disk:disk_read:92: load i64 at 0x3000038 (event 49+0) = 0x2000000
done 244 0.1 disk[0x1000010] disk:disk_read:94: load i32 at 0x3000040 (event 50+0) = 14
done 245 0.1 disk[0x1000010] disk:disk_read:97: store i8 21 at 0x200001e (event 62+30)
done 246 0.1 disk[0x1000010] disk:disk_read:98: load i64 at 0x3000030 (event 48+0) = 0x1000050
done 247 0.1 disk[0x1000010] disk:disk_read:99: load i32 at 0x3000040 (event 50+0) = 14
done 248 0.1 disk[0x1000010] disk:disk_read:102: store i8 21 at 0x100005e (kernel:@buffer+14)
done 249 0.1 disk[0x1000010] disk:disk_read:106: load i32 at 0x3000040 (event 50+0) = 14
done 250 0.1 disk[0x1000010] disk:disk_read:108: store i32 15 at 0x3000040 (event 50+0)
done 251 0.1 disk[0x1000010] disk:disk_read:82: load i32 at 0x3000040 (event 50+0) = 15
done 252 0.1 disk[0x1000010] disk:disk_read:87: load i64 at 0x3000028 (event 47+0) = 0x7
done 253 0.1 disk[0x1000010] disk:disk_read:88: load i32 at 0x3000040 (event 50+0) = 15
done 254 0.1 disk[0x1000010] disk:disk_read:92: load i64 at 0x3000038 (event 49+0) = 0x2000000
done 255 0.1 disk[0x1000010] disk:disk_read:94: load i32 at 0x3000040 (event 50+0) = 15
done 256 0.1 disk[0x1000010] disk:disk_read:97: store i8 22 at 0x200001f (event 62+31)
done 257 0.1 disk[0x1000010] disk:disk_read:98: load i64 at 0x3000030 (event 48+0) = 0x1000050
done 258 0.1 disk[0x1000010] disk:disk_read:99: load i32 at 0x3000040 (event 50+0) = 15
done 259 0.1 disk[0x1000010] disk:disk_read:102: store i8 22 at 0x100005f (kernel:@buffer+15)
done 260 0.1 disk[0x1000010] disk:disk_read:106: load i32 at 0x3000040 (event 50+0) = 15
done 261 0.1 disk[0x1000010] disk:disk_read:108: store i32 16 at 0x3000040 (event 50+0)
done 262 0.1 disk[0x1000010] disk:disk_read:82: load i32 at 0x3000040 (event 50+0) = 16
done 263 0.1 disk[0x1000010] disk:disk_read:112: store i32 16 at 0x300001c (event 45+0)
done 264 0.1 disk[0x1000010] disk:disk_read:116: load i32 at 0x300001c (event 45+0) = 16
done 265 0.1 disk[0x1000010] disk:disk_read:117: leaves 40 at 0x300001c
done 266 0.1 disk[0x1000010] kernel:do_read:96: post 0 of disk:disk_read from disk[0x1000010] to kernel
done 267 0.1 kernel kernel:do_read:97: store i32 16 at 0x3000018 (event 33+0)
done 268 0.1 kernel kernel:do_read:98: load i8 at 0x1000050 (kernel:@buffer+0) = 7
done 269 0.1 kernel kernel:do_read:100: calls k.note(0x7)
done 270 0.1 kernel kernel:do_read:101: load i32 at 0x3000018 (event 33+0) = 16
done 271 0.1 kernel kernel:do_read:102: leaves 28 at 0x3000000
ends 272 0.1 kernel script: ends: returned 16
done 273 0.2 kernel script: calls kernel:do_read(0x1, 0x9) enters kernel:do_read as kernel
done 274 0.2 kernel kernel:do_read:81: alloca 8 at 0x3000000
done 275 0.2 kernel kernel:do_read:82: alloca 8 at 0x3000008
done 276 0.2 kernel kernel:do_read:83: alloca 8 at 0x3000010
done 277 0.2 kernel kernel:do_read:84: alloca 4 at 0x3000018
done 278 0.2 kernel kernel:do_read:85: store i64 0x1 at 0x3000000 (event 274+0)
done 279 0.2 kernel kernel:do_read:86: store i64 0x9 at 0x3000008 (event 275+0)
done 280 0.2 kernel kernel:do_read:87: load i64 at 0x3000000 (event 274+0) = 0x1
done 281 0.2 kernel kernel:do_read:89: store i64 0x1000020 at 0x3000010 (event 276+0)
done 282 0.2 kernel kernel:do_read:90: load i64 at 0x3000010 (event 276+0) = 0x1000020
done 283 0.2 kernel kernel:do_read:92: load i64 at 0x1000020 (kernel:@disks+16) = 0x1000060
done 284 0.2 kernel kernel:do_read:94: load i64 at 0x3000010 (event 276+0) = 0x1000020
done 285 0.2 kernel kernel:do_read:95: load i64 at 0x3000008 (event 275+0) = 0x9
done 286 0.2 kernel kernel:do_read:96: calls slot read at 0x1000060(0x1000020, 0x9, 0x1000050) enters disk:disk_read as disk[0x1000020]
done 287 0.2 kernel kernel:do_read:96: pre 0 of disk:disk_read from kernel to disk[0x1000020]
done 288 0.2 kernel kernel:do_read:96: pre 1 of disk:disk_read from kernel to disk[0x1000020]
done 289 0.2 disk[0x1000020] disk:disk_read:34: alloca 4 at 0x300001c
done 290 0.2 disk[0x1000020] disk:disk_read:35: alloca 8 at 0x3000020
done 291 0.2 disk[0x1000020] disk:disk_read:36: alloca 8 at 0x3000028
done 292 0.2 disk[0x1000020] disk:disk_read:37: alloca 8 at 0x3000030
done 293 0.2 disk[0x1000020] disk:disk_read:38: alloca 8 at 0x3000038
done 294 0.2 disk[0x1000020] disk:disk_read:39: alloca 4 at 0x3000040
done 295 0.2 disk[0x1000020] disk:disk_read:40: store i64 0x1000020 at 0x3000020 (event 290+0)
done 296 0.2 disk[0x1000020] disk:disk_read:41: store i64 0x9 at 0x3000028 (event 291+0)
done 297 0.2 disk[0x1000020] disk:disk_read:42: store i64 0x1000050 at 0x3000030 (event 292+0)
done 298 0.2 disk[0x1000020] disk:disk_read:43: load i64 at 0x3000020 (event 290+0) = 0x1000020
done 299 0.2 disk[0x1000020] disk:disk_read:45: load i64 at 0x1000028 (kernel:@disks+24) = 0x0
done 300 0.2 disk[0x1000020] disk:disk_read:46: store i64 0x0 at 0x3000038 (event 293+0)
done 301 0.2 disk[0x1000020] disk:disk_read:47: load i64 at 0x3000038 (event 293+0) = 0x0
done 302 0.2 disk[0x1000020] disk:disk_read:52: calls kernel:alloc(0x20) enters kernel:alloc as kernel
done 303 0.2 kernel kernel:alloc:15: alloca 8 at 0x3000048
done 304 0.2 kernel kernel:alloc:16: store i64 0x20 at 0x3000048 (event 303+0)
done 305 0.2 kernel kernel:alloc:17: load i64 at 0x3000048 (event 303+0) = 0x20
done 306 0.2 kernel kernel:alloc:18: calls k.alloc(0x20) = 0x2000020
done 307 0.2 kernel kernel:alloc:19: leaves 12 at 0x3000044
done 308 0.2 kernel disk:disk_read:52: post 0 of kernel:alloc from kernel to disk[0x1000020]
done 309 0.2 disk[0x1000020] disk:disk_read:53: store i64 0x2000020 at 0x3000038 (event 293+0)
done 310 0.2 disk[0x1000020] disk:disk_read:54: load i64 at 0x3000038 (event 293+0) = 0x2000020
done 311 0.2 disk[0x1000020] disk:disk_read:63: load i64 at 0x3000020 (event 290+0) = 0x1000020
done 312 0.2 disk[0x1000020] disk:disk_read:64: load i64 at 0x3000038 (event 293+0) = 0x2000020
done 313 0.2 disk[0x1000020] disk:disk_read:65: calls kernel:disk_private(0x1000020, 0x2000020) enters kernel:disk_private as kernel
done 314 0.2 disk[0x1000020] disk:disk_read:65: pre 0 of kernel:disk_private from disk[0x1000020] to kernel
done 315 0.2 kernel kernel:disk_private:68: alloca 8 at 0x3000048
done 316 0.2 kernel kernel:disk_private:69: alloca 8 at 0x3000050
done 317 0.2 kernel kernel:disk_private:70: store i64 0x1000020 at 0x3000048 (event 315+0)
done 318 0.2 kernel kernel:disk_private:71: store i64 0x2000020 at 0x3000050 (event 316+0)
done 319 0.2 kernel kernel:disk_private:72: load i64 at 0x3000050 (event 316+0) = 0x2000020
done 320 0.2 kernel kernel:disk_private:73: load i64 at 0x3000048 (event 315+0) = 0x1000020
done 321 0.2 kernel kernel:disk_private:75: store i64 0x2000020 at 0x1000028 (kernel:@disks+24)
done 322 0.2 kernel kernel:disk_private:76: leaves 20 at 0x3000044
done 323 0.2 disk[0x1000020] disk:disk_read:69: load i64 at 0x3000038 (event 293+0) = 0x2000020
done 324 0.2 disk[0x1000020] disk:disk_read:71: load i64 at 0x2000020 (event 306+0) = 0x0
done 325 0.2 disk[0x1000020] disk:disk_read:73: store i64 0x1 at 0x2000020 (event 306+0)
done 326 0.2 disk[0x1000020] disk:disk_read:74: load i64 at 0x3000028 (event 291+0) = 0x9
done 327 0.2 disk[0x1000020] disk:disk_read:75: load i64 at 0x3000038 (event 293+0) = 0x2000020
done 328 0.2 disk[0x1000020] disk:disk_read:77: store i64 0x9 at 0x2000028 (event 306+8)
done 329 0.2 disk[0x1000020] disk:disk_read:78: store i32 0 at 0x3000040 (event 294+0)
done 330 0.2 disk[0x1000020] disk:disk_read:82: load i32 at 0x3000040 (event 294+0) = 0
done 331 0.2 disk[0x1000020] disk:disk_read:87: load i64 at 0x3000028 (event 291+0) = 0x9
done 332 0.2 disk[0x1000020] disk:disk_read:88: load i32 at 0x3000040 (event 294+0) = 0
done 333 0.2 disk[0x1000020] disk:disk_read:92: load i64 at 0x3000038 (event 293+0) = 0x2000020
done 334 0.2 disk[0x1000020] disk:disk_read:94: load i32 at 0x3000040 (event 294+0) = 0
done 335 0.2 disk[0x1000020] disk:disk_read:97: store i8 9 at 0x2000030 (event 306+16)
done 336 0.2 disk[0x1000020] disk:disk_read:98: load i64 at 0x3000030 (event 292+0) = 0x1000050
done 337 0.2 disk[0x1000020] disk:disk_read:99: load i32 at 0x3000040 (event 294+0) = 0
done 338 0.2 disk[0x1000020] disk:disk_read:102: store i8 9 at 0x1000050 (kernel:@buffer+0)
done 339 0.2 disk[0x1000020] disk:disk_read:106: load i32 at 0x3000040 (event 294+0) = 0
done 340 0.2 disk[0x1000020] disk:disk_read:108: store i32 1 at 0x3000040 (event 294+0)
done 341 0.2 disk[0x1000020] disk:disk_read:82: load i32 at 0x3000040 (event 294+0) = 1
done 342 0.2 disk[0x1000020] disk:disk_read:87: load i64 at 0x3000028 (event 291+0) = 0x9
done 343 0.2 disk[0x1000020] disk:disk_read:88: load i32 at 0x3000040 (event 294+0) = 1
done 344 0.2 disk[0x1000020] disk:disk_read:92: load i64 at 0x3000038 (event 293+0) = 0x2000020
done 345 0.2 disk[0x1000020] disk:disk_read:94: load i32 at 0x3000040 (event 294+0) = 1
done 346 0.2 disk[0x1000020] disk:disk_read:97: store i8 10 at 0x2000031 (event 306+17)
done 347 0.2 disk[0x1000020] disk:disk_read:98: load i64 at 0x3000030 (event 292+0) = 0x1000050
done 348 0.2 disk[0x1000020] disk:disk_read:99: load i32 at 0x3000040 (event 294+0) = 1
done 349 0.2 disk[0x1000020] disk:disk_read:102: store i8 10 at 0x1000051 (kernel:@buffer+1)
done 350 0.2 disk[0x1000020] disk:disk_read:106: load i32 at 0x3000040 (event 294+0) = 1
done 351 0.2 disk[0x1000020] disk:disk_read:108: store i32 2 at 0x3000040 (event 294+0)
done 352 0.2 disk[0x1000020] disk:disk_read:82: load i32 at 0x3000040 (event 294+0) = 2
done 353 0.2 disk[0x1000020] disk:disk_read:87: load i64 at 0x3000028 (event 291+0) = 0x9
done 354 0.2 disk[0x1000020] disk:disk_read:88: load i32 at 0x3000040 (event 294+0) = 2
done 355 0.2 disk[0x1000020] disk:disk_read:92: load i64 at 0x3000038 (event 293+0) = 0x2000020
done 356 0.2 disk[0x1000020] disk:disk_read:94: load i32 at 0x3000040 (event 294+0) = 2
done 357 0.2 disk[0x1000020] disk:disk_read:97: store i8 11 at 0x2000032 (event 306+18)
done 358 0.2 disk[0x1000020] disk:disk_read:98: load i64 at 0x3000030 (event 292+0) = 0x1000050
done 359 0.2 disk[0x1000020] disk:disk_read:99: load i32 at 0x3000040 (event 294+0) = 2
done 360 0.2 disk[0x1000020] disk:disk_read:102: store i8 11 at 0x1000052 (kernel:@buffer+2)
done 361 0.2 disk[0x1000020] disk:disk_read:106: load i32 at 0x3000040 (event 294+0) = 2
done 362 0.2 disk[0x1000020] disk:disk_read:108: store i32 3 at 0x3000040 (event 294+0)
done 363 0.2 disk[0x1000020] disk:disk_read:82: load i32 at 0x3000040 (event 294+0) = 3
done 364 0.2 disk[0x1000020] disk:disk_read:87: load i64 at 0x3000028 (event 291+0) = 0x9
done 365 0.2 disk[0x1000020] disk:disk_read:88: load i32 at 0x3000040 (event 294+0) = 3
done 366 0.2 disk[0x1000020] disk:disk_read:92: load i64 at 0x3000038 (event 293+0) = 0x2000020
done 367 0.2 disk[0x1000020] disk:disk_read:94: load i32 at 0x3000040 (event 294+0) = 3
done 368 0.2 disk[0x1000020] disk:disk_read:97: store i8 12 at 0x2000033 (event 306+19)
done 369 0.2 disk[0x1000020] disk:disk_read:98: load i64 at 0x3000030 (event 292+0) = 0x1000050
done 370 0.2 disk[0x1000020] disk:disk_read:99: load i32 at 0x3000040 (event 294+0) = 3
done 371 0.2 disk[0x1000020] disk:disk_read:102: store i8 12 at 0x1000053 (kernel:@buffer+3)
done 372 0.2 disk[0x1000020] disk:disk_read:106: load i32 at 0x3000040 (event 294+0) = 3
done 373 0.2 disk[0x1000020] disk:disk_read:108: store i32 4 at 0x3000040 (event 294+0)
done 374 0.2 disk[0x1000020] disk:disk_read:82: load i32 at 0x3000040 (event 294+0) = 4
done 375 0.2 disk[0x1000020] disk:disk_read:87: load i64 at 0x3000028 (event 291+0) = 0x9
done 376 0.2 disk[0x1000020] disk:disk_read:88: load i32 at 0x3000040 (event 294+0) = 4
done 377 0.2 disk[0x1000020] disk:disk_read:92: load i64 at 0x3000038 (event 293+0) = 0x2000020
done 378 0.2 disk[0x1000020] disk:disk_read:94: load i32 at 0x3000040 (event 294+0) = 4
done 379 0.2 disk[0x1000020] disk:disk_read:97: store i8 13 at 0x2000034 (event 306+20)
done 380 0.2 disk[0x1000020] disk:disk_read:98: load i64 at 0x3000030 (event 292+0) = 0x1000050
done 381 0.2 disk[0x1000020] disk:disk_read:99: load i32 at 0x3000040 (event 294+0) = 4
done 382 0.2 disk[0x1000020] disk:disk_read:102: store i8 13 at 0x1000054 (kernel:@buffer+4)
done 383 0.2 disk[0x1000020] disk:disk_read:106: load i32 at 0x3000040 (event 294+0) = 4
done 384 0.2 disk[0x1000020] disk:disk_read:108: store i32 5 at 0x3000040 (event 294+0)
done 385 0.2 disk[0x1000020] disk:disk_read:82: load i32 at 0x3000040 (event 294+0) = 5
done 386 0.2 disk[0x1000020] disk:disk_read:87: load i64 at 0x3000028 (event 291+0) = 0x9
done 387 0.2 disk[0x1000020] disk:disk_read:88: load i32 at 0x3000040 (event 294+0) = 5
done 388 0.2 disk[0x1000020] disk:disk_read:92: load i64 at 0x3000038 (event 293+0) = 0x2000020
done 389 0.2 disk[0x1000020] disk:disk_read:94: load i32 at 0x3000040 (event 294+0) = 5
done 390 0.2 disk[0x1000020] disk:disk_read:97: store i8 14 at 0x2000035 (event 306+21)
done 391 0.2 disk[0x1000020] disk:disk_read:98: load i64 at 0x3000030 (event 292+0) = 0x1000050
done 392 0.2 disk[0x1000020] disk:disk_read:99: load i32 at 0x3000040 (event 294+0) = 5
done 393 0.2 disk[0x1000020] disk:disk_read:102: store i8 14 at 0x1000055 (kernel:@buffer+5)
done 394 0.2 disk[0x1000020] disk:disk_read:106: load i32 at 0x3000040 (event 294+0) = 5
done 395 0.2 disk[0x1000020] disk:disk_read:108: store i32 6 at 0x3000040 (event 294+0)
done 396 0.2 disk[0x1000020] disk:disk_read:82: load i32 at 0x3000040 (event 294+0) = 6
done 397 0.2 disk[0x1000020] disk:disk_read:87: load i64 at 0x3000028 (event 291+0) = 0x9
done 398 0.2 disk[0x1000020] disk:disk_read:88: load i32 at 0x3000040 (event 294+0) = 6
done 399 0.2 disk[0x1000020] disk:disk_read:92: load i64 at 0x3000038 (event 293+0) = 0x2000020
done 400 0.2 disk[0x1000020] disk:disk_read:94: load i32 at 0x3000040 (event 294+0) = 6
done 401 0.2 disk[0x1000020] disk:disk_read:97: store i8 15 at 0x2000036 (event 306+22)
done 402 0.2 disk[0x1000020] disk:disk_read:98: load i64 at 0x3000030 (event 292+0) = 0x1000050
done 403 0.2 disk[0x1000020] disk:disk_read:99: load i32 at 0x3000040 (event 294+0) = 6
done 404 0.2 disk[0x1000020] disk:disk_read:102: store i8 15 at 0x1000056 (kernel:@buffer+6)
done 405 0.2 disk[0x1000020] disk:disk_read:106: load i32 at 0x3000040 (event 294+0) = 6
done 406 0.2 disk[0x1000020] disk:disk_read:108: store i32 7 at 0x3000040 (event 294+0)
done 407 0.2 disk[0x1000020] disk:disk_read:82: load i32 at 0x3000040 (event 294+0) = 7
done 408 0.2 disk[0x1000020] disk:disk_read:87: load i64 at 0x3000028 (event 291+0) = 0x9
done 409 0.2 disk[0x1000020] disk:disk_read:88: load i32 at 0x3000040 (event 294+0) = 7
done 410 0.2 disk[0x1000020] disk:disk_read:92: load i64 at 0x3000038 (event 293+0) = 0x2000020
done 411 0.2 disk[0x1000020] disk:disk_read:94: load i32 at 0x3000040 (event 294+0) = 7
done 412 0.2 disk[0x1000020] disk:disk_read:97: store i8 16 at 0x2000037 (event 306+23)
done 413 0.2 disk[0x1000020] disk:disk_read:98: load i64 at 0x3000030 (event 292+0) = 0x1000050
done 414 0.2 disk[0x1000020] disk:disk_read:99: load i32 at 0x3000040 (event 294+0) = 7
done 415 0.2 disk[0x1000020] disk:disk_read:102: store i8 16 at 0x1000057 (kernel:@buffer+7)
done 416 0.2 disk[0x1000020] disk:disk_read:106: load i32 at 0x3000040 (event 294+0) = 7
done 417 0.2 disk[0x1000020] disk:disk_read:108: store i32 8 at 0x3000040 (event 294+0)
done 418 0.2 disk[0x1000020] disk:disk_read:82: load i32 at 0x3000040 (event 294+0) = 8
done 419 0.2 disk[0x1000020] disk:disk_read:87: load i64 at 0x3000028 (event 291+0) = 0x9
done 420 0.2 disk[0x1000020] disk:disk_read:88: load i32 at 0x3000040 (event 294+0) = 8
done 421 0.2 disk[0x1000020] disk:disk_read:92: load i64 at 0x3000038 (event 293+0) = 0x2000020
done 422 0.2 disk[0x1000020] disk:disk_read:94: load i32 at 0x3000040 (event 294+0) = 8
done 423 0.2 disk[0x1000020] disk:disk_read:97: store i8 17 at 0x2000038 (event 306+24)
done 424 0.2 disk[0x1000020] disk:disk_read:98: load i64 at 0x3000030 (event 292+0) = 0x1000050
done 425 0.2 disk[0x1000020] disk:disk_read:99: load i32 at 0x3000040 (event 294+0) = 8
done 426 0.2 disk[0x1000020] disk:disk_read:102: store i8 17 at 0x1000058 (kernel:@buffer+8)
done 427 0.2 disk[0x1000020] disk:disk_read:106: load i32 at 0x3000040 (event 294+0) = 8
done 428 0.2 disk[0x1000020] disk:disk_read:108: store i32 9 at 0x3000040 (event 294+0)
done 429 0.2 disk[0x1000020] disk:disk_read:82: load i32 at 0x3000040 (event 294+0) = 9
done 430 0.2 disk[0x1000020] disk:disk_read:87: load i64 at 0x3000028 (event 291+0) = 0x9
done 431 0.2 disk[0x1000020] disk:disk_read:88: load i32 at 0x3000040 (event 294+0) = 9
done 432 0.2 disk[0x1000020] disk:disk_read:92: load i64 at 0x3000038 (event 293+0) = 0x2000020
done 433 0.2 disk[0x1000020] disk:disk_read:94: load i32 at 0x3000040 (event 294+0) = 9
done 434 0.2 disk[0x1000020] disk:disk_read:97: store i8 18 at 0x2000039 (event 306+25)
done 435 0.2 disk[0x1000020] disk:disk_read:98: load i64 at 0x3000030 (event 292+0) = 0x1000050
done 436 0.2 disk[0x1000020] disk:disk_read:99: load i32 at 0x3000040 (event 294+0) = 9
done 437 0.2 disk[0x1000020] disk:disk_read:102: store i8 18 at 0x1000059 (kernel:@buffer+9)
done 438 0.2 disk[0x1000020] disk:disk_read:106: load i32 at 0x3000040 (event 294+0) = 9
done 439 0.2 disk[0x1000020] disk:disk_read:108: store i32 10 at 0x3000040 (event 294+0)
done 440 0.2 disk[0x1000020] disk:disk_read:82: load i32 at 0x3000040 (event 294+0) = 10
done 441 0.2 disk[0x1000020] disk:disk_read:87: load i64 at 0x3000028 (event 291+0) = 0x9
done 442 0.2 disk[0x1000020] disk:disk_read:88: load i32 at 0x3000040 (event 294+0) = 10
done 443 0.2 disk[0x1000020] disk:disk_read:92: load i64 at 0x3000038 (event 293+0) = 0x2000020
done 444 0.2 disk[0x1000020] disk:disk_read:94: load i32 at 0x3000040 (event 294+0) = 10
done 445 0.2 disk[0x1000020] disk:disk_read:97: store i8 19 at 0x200003a (event 306+26)
done 446 0.2 disk[0x1000020] disk:disk_read:98: load i64 at 0x3000030 (event 292+0) = 0x1000050
done 447 0.2 disk[0x1000020] disk:disk_read:99: load i32 at 0x3000040 (event 294+0) = 10
done 448 0.2 disk[0x1000020] disk:disk_read:102: store i8 19 at 0x100005a (kernel:@buffer+10)
done 449 0.2 disk[0x1000020] disk:disk_read:106: load i32 at 0x3000040 (event 294+0) = 10
done 450 0.2 disk[0x1000020] disk:disk_read:108: store i32 11 at 0x3000040 (event 294+0)
done 451 0.2 disk[0x1000020] disk:disk_read:82: load i32 at 0x3000040 (event 294+0) = 11
done 452 0.2 disk[0x1000020] disk:disk_read:87: load i64 at 0x3000028 (event 291+0) = 0x9
done 453 0.2 disk[0x1000020] disk:disk_read:88: load i32 at 0x3000040 (event 294+0) = 11
done 454 0.2 disk[0x1000020] disk:disk_read:92: load i64 at 0x3000038 (event 293+0) = 0x2000020
done 455 0.2 disk[0x1000020] disk:disk_read:94: load i32 at 0x3000040 (event 294+0) = 11
done 456 0.2 disk[0x1000020] disk:disk_read:97: store i8 20 at 0x200003b (event 306+27)
done 457 0.2 disk[0x1000020] disk:disk_read:98: load i64 at 0x3000030 (event 292+0) = 0x1000050
done 458 0.2 disk[0x1000020] disk:disk_read:99: load i32 at 0x3000040 (event 294+0) = 11
done 459 0.2 disk[0x1000020] disk:disk_read:102: store i8 20 at 0x100005b (kernel:@buffer+11)
done 460 0.2 disk[0x1000020] disk:disk_read:106: load i32 at 0x3000040 (event 294+0) = 11
done 461 0.2 disk[0x1000020] disk:disk_read:108: store i32 12 at 0x3000040 (event 294+0)
done 462 0.2 disk[0x1000020] disk:disk_read:82: load i32 at 0x3000040 (event 294+0) = 12
done 463 0.2 disk[0x1000020] disk:disk_read:87: load i64 at 0x3000028 (event 291+0) = 0x9
done 464 0.2 disk[0x1000020] disk:disk_read:88: load i32 at 0x3000040 (event 294+0) = 12
done 465 0.2 disk[0x1000020] disk:disk_read:92: load i64 at 0x3000038 (event 293+0) = 0x2000020
done 466 0.2 disk[0x1000020] disk:disk_read:94: load i32 at 0x3000040 (event 294+0) = 12
done 467 0.2 disk[0x1000020] disk:disk_read:97: store i8 21 at 0x200003c (event 306+28)
done 468 0.2 disk[0x1000020] disk:disk_read:98: load i64 at 0x3000030 (event 292+0) = 0x1000050
done 469 0.2 disk[0x1000020] disk:disk_read:99: load i32 at 0x3000040 (event 294+0) = 12
done 470 0.2 disk[0x1000020] disk:disk_read:102: store i8 21 at 0x100005c (kernel:@buffer+12)
done 471 0.2 disk[0x1000020] disk:disk_read:106: load i32 at 0x3000040 (event 294+0) = 12
done 472 0.2 disk[0x1000020] disk:disk_read:108: store i32 13 at 0x3000040 (event 294+0)
done 473 0.2 disk[0x1000020] disk:disk_read:82: load i32 at 0x3000040 (event 294+0) = 13
done 474 0.2 disk[0x1000020] disk:disk_read:87: load i64 at 0x3000028 (event 291+0) = 0x9
done 475 0.2 disk[0x1000020] disk:disk_read:88: load i32 at 0x3000040 (event 294+0) = 13
done 476 0.2 disk[0x1000020] disk:disk_read:92: load i64 at 0x3000038 (event 293+0) = 0x2000020
done 477 0.2 disk[0x1000020] disk:disk_read:94: load i32 at 0x3000040 (event 294+0) = 13
done 478 0.2 disk[0x1000020] disk:disk_read:97: store i8 22 at 0x200003d (event 306+29)
done 479 0.2 disk[0x1000020] disk:disk_read:98: load i64 at 0x3000030 (event 292+0) = 0x1000050
done 480 0.2 disk[0x1000020] disk:disk_read:99: load i32 at 0x3000040 (event 294+0) = 13
done 481 0.2 disk[0x1000020] disk:disk_read:102: store i8 22 at 0x100005d (kernel:@buffer+13)
done 482 0.2 disk[0x1000020] disk:disk_read:106: load i32 at 0x3000040 (event 294+0) = 13
done 483 0.2 disk[0x1000020] disk:disk_read:108: store i32 14 at 0x3000040 (event 294+0)
done 484 0.2 disk[0x1000020] disk:disk_read:82: load i32 at 0x3000040 (event 294+0) = 14
done 485 0.2 disk[0x1000020] disk:disk_read:87: load i64 at 0x3000028 (event 291+0) = 0x9
done 486 0.2 disk[0x1000020] disk:disk_read:88: load i32 at 0x3000040 (event 294+0) = 14
done 487 0.2 disk[0x1000020] disk:disk_read:92: load i64 at 0x3000038 (event 293+0) = 0x2000020
done 488 0.2 disk[0x1000020] disk:disk_read:94: load i32 at 0x3000040 (event 294+0) = 14
done 489 0.2 disk[0x1000020] disk:disk_read:97: store i8 23 at 0x200003e (event 306+30)
done 490 0.2 disk[0x1000020] disk:disk_read:98: load i64 at 0x3000030 (event 292+0) = 0x1000050
done 491 0.2 disk[0x1000020] disk:disk_read:99: load i32 at 0x3000040 (event 294+0) = 14
done 492 0.2 disk[0x1000020] disk:disk_read:102: store i8 23 at 0x100005e (kernel:@buffer+14)
done 493 0.2 disk[0x1000020] disk:disk_read:106: load i32 at 0x3000040 (event 294+0) = 14
done 494 0.2 disk[0x1000020] disk:disk_read:108: store i32 15 at 0x3000040 (event 294+0)
done 495 0.2 disk[0x1000020] disk:disk_read:82: load i32 at 0x3000040 (event 294+0) = 15
done 496 0.2 disk[0x1000020] disk:disk_read:87: load i64 at 0x3000028 (event 291+0) = 0x9
done 497 0.2 disk[0x1000020] disk:disk_read:88: load i32 at 0x3000040 (event 294+0) = 15
done 498 0.2 disk[0x1000020] disk:disk_read:92: load i64 at 0x3000038 (event 293+0) = 0x2000020
done 499 0.2 disk[0x1000020] disk:disk_read:94: load i32 at 0x3000040 (event 294+0) = 15
done 500 0.2 disk[0x1000020] disk:disk_read:97: store i8 24 at 0x200003f (event 306+31)
done 501 0.2 disk[0x1000020] disk:disk_read:98: load i64 at 0x3000030 (event 292+0) = 0x1000050
done 502 0.2 disk[0x1000020] disk:disk_read:99: load i32 at 0x3000040 (event 294+0) = 15
done 503 0.2 disk[0x1000020] disk:disk_read:102: store i8 24 at 0x100005f (kernel:@buffer+15)
done 504 0.2 disk[0x1000020] disk:disk_read:106: load i32 at 0x3000040 (event 294+0) = 15
done 505 0.2 disk[0x1000020] disk:disk_read:108: store i32 16 at 0x3000040 (event 294+0)
done 506 0.2 disk[0x1000020] disk:disk_read:82: load i32 at 0x3000040 (event 294+0) = 16
done 507 0.2 disk[0x1000020] disk:disk_read:112: store i32 16 at 0x300001c (event 289+0)
done 508 0.2 disk[0x1000020] disk:disk_read:116: load i32 at 0x300001c (event 289+0) = 16
done 509 0.2 disk[0x1000020] disk:disk_read:117: leaves 40 at 0x300001c
done 510 0.2 disk[0x1000020] kernel:do_read:96: post 0 of disk:disk_read from disk[0x1000020] to kernel
done 511 0.2 kernel kernel:do_read:97: store i32 16 at 0x3000018 (event 277+0)
done 512 0.2 kernel kernel:do_read:98: load i8 at 0x1000050 (kernel:@buffer+0) = 9
done 513 0.2 kernel kernel:do_read:100: calls k.note(0x9)
done 514 0.2 kernel kernel:do_read:101: load i32 at 0x3000018 (event 277+0) = 16
done 515 0.2 kernel kernel:do_read:102: leaves 28 at 0x3000000
ends 516 0.2 kernel script: ends: returned 16
done 517 0.3 kernel script: calls kernel:do_close(0x0) enters kernel:do_close as kernel
done 518 0.3 kernel kernel:do_close:111: alloca 8 at 0x3000000
done 519 0.3 kernel kernel:do_close:112: alloca 8 at 0x3000008
done 520 0.3 kernel kernel:do_close:113: store i64 0x0 at 0x3000000 (event 518+0)
done 521 0.3 kernel kernel:do_close:114: load i64 at 0x3000000 (event 518+0) = 0x0
done 522 0.3 kernel kernel:do_close:116: store i64 0x1000010 at 0x3000008 (event 519+0)
done 523 0.3 kernel kernel:do_close:117: load i64 at 0x3000008 (event 519+0) = 0x1000010
done 524 0.3 kernel kernel:do_close:119: load i64 at 0x1000010 (kernel:@disks+0) = 0x1000060
done 525 0.3 kernel kernel:do_close:121: load i64 at 0x3000008 (event 519+0) = 0x1000010
done 526 0.3 kernel kernel:do_close:122: calls slot close at 0x1000068(0x1000010) enters disk:disk_close as disk[0x1000010]
done 527 0.3 disk[0x1000010] disk:disk_close:122: alloca 8 at 0x3000010
done 528 0.3 disk[0x1000010] disk:disk_close:123: store i64 0x1000010 at 0x3000010 (event 527+0)
done 529 0.3 disk[0x1000010] disk:disk_close:124: load i64 at 0x3000010 (event 527+0) = 0x1000010
done 530 0.3 disk[0x1000010] disk:disk_close:126: load i64 at 0x1000018 (kernel:@disks+8) = 0x2000000
done 531 0.3 disk[0x1000010] disk:disk_close:131: load i64 at 0x3000010 (event 527+0) = 0x1000010
done 532 0.3 disk[0x1000010] disk:disk_close:133: load i64 at 0x1000018 (kernel:@disks+8) = 0x2000000
done 533 0.3 disk[0x1000010] disk:disk_close:134: calls kernel:release(0x2000000) enters kernel:release as kernel
done 534 0.3 disk[0x1000010] disk:disk_close:134: pre 0 of kernel:release from disk[0x1000010] to kernel
done 535 0.3 kernel kernel:release:26: alloca 8 at 0x3000018
done 536 0.3 kernel kernel:release:27: store i64 0x2000000 at 0x3000018 (event 535+0)
done 537 0.3 kernel kernel:release:28: load i64 at 0x3000018 (event 535+0) = 0x2000000
done 538 0.3 kernel kernel:release:29: calls k.free(0x2000000)
done 539 0.3 kernel kernel:release:30: leaves 8 at 0x3000018
done 540 0.3 disk[0x1000010] disk:disk_close:138: leaves 8 at 0x3000010
done 541 0.3 kernel kernel:do_close:123: leaves 16 at 0x3000000
ends 542 0.3 kernel script: ends: returned 0
done 543 0.4 kernel script: calls kernel:do_close(0x0) enters kernel:do_close as kernel
done 544 0.4 kernel kernel:do_close:111: alloca 8 at 0x3000000
done 545 0.4 kernel kernel:do_close:112: alloca 8 at 0x3000008
done 546 0.4 kernel kernel:do_close:113: store i64 0x0 at 0x3000000 (event 544+0)
done 547 0.4 kernel kernel:do_close:114: load i64 at 0x3000000 (event 544+0) = 0x0
done 548 0.4 kernel kernel:do_close:116: store i64 0x1000010 at 0x3000008 (event 545+0)
done 549 0.4 kernel kernel:do_close:117: load i64 at 0x3000008 (event 545+0) = 0x1000010
done 550 0.4 kernel kernel:do_close:119: load i64 at 0x1000010 (kernel:@disks+0) = 0x1000060
done 551 0.4 kernel kernel:do_close:121: load i64 at 0x3000008 (event 545+0) = 0x1000010
done 552 0.4 kernel kernel:do_close:122: calls slot close at 0x1000068(0x1000010) enters disk:disk_close as disk[0x1000010]
done 553 0.4 disk[0x1000010] disk:disk_close:122: alloca 8 at 0x3000010
done 554 0.4 disk[0x1000010] disk:disk_close:123: store i64 0x1000010 at 0x3000010 (event 553+0)
done 555 0.4 disk[0x1000010] disk:disk_close:124: load i64 at 0x3000010 (event 553+0) = 0x1000010
done 556 0.4 disk[0x1000010] disk:disk_close:126: load i64 at 0x1000018 (kernel:@disks+8) = 0x2000000
done 557 0.4 disk[0x1000010] disk:disk_close:131: load i64 at 0x3000010 (event 553+0) = 0x1000010
done 558 0.4 disk[0x1000010] disk:disk_close:133: load i64 at 0x1000018 (kernel:@disks+8) = 0x2000000
done 559 0.4 disk[0x1000010] disk:disk_close:134: calls kernel:release(0x2000000) enters kernel:release as kernel
refused 560 0.4 disk[0x1000010] disk:disk_close:134: pre 0 of kernel:release from disk[0x1000010] to kernel: refused 1 disk[0x1000010] write 0x2000000+32
---- file examples/manual/c_kernel.schedule
schedule 0*30
---- words examples/manual/c_kernel.case examples/manual/c_kernel.schedule
---- trace examples/manual/c_kernel.case
---- whole
status 1
done 0 0.0 kernel script: calls t:start() enters t:start as t.shared
done 1 0.0 t.shared t:start:13: load i64 at 0x1000010 (t:@timer+0) = 0x100b0
done 2 0.0 t.shared t:start:14: calls kernel:timer_set(0x100b0) enters kernel:timer_set as kernel
done 3 0.0 t.shared t:start:14: pre 0 of kernel:timer_set from t.shared to kernel
done 4 0.0 kernel kernel:timer_set:10: alloca 8 at 0x3000000
done 5 0.0 kernel kernel:timer_set:11: store i64 0x100b0 at 0x3000000 (event 4+0)
done 6 0.0 kernel kernel:timer_set:12: load i64 at 0x3000000 (event 4+0) = 0x100b0
done 7 0.0 kernel kernel:timer_set:13: store i64 0x100b0 at 0x1000000 (kernel:@timer+0)
done 8 0.0 kernel kernel:timer_set:14: leaves 8 at 0x3000000
done 9 0.0 t.shared t:start:15: leaves 0 at 0x3000000
ends 10 0.0 kernel script: ends: returned
done 11 0.1 kernel script: calls kernel:do_tick(0x7) enters kernel:do_tick as kernel
done 12 0.1 kernel kernel:do_tick:19: alloca 8 at 0x3000000
done 13 0.1 kernel kernel:do_tick:20: store i64 0x7 at 0x3000000 (event 12+0)
done 14 0.1 kernel kernel:do_tick:21: load i64 at 0x3000000 (event 12+0) = 0x7
done 15 0.1 kernel kernel:do_tick:22: calls slot tick at 0x1000000(0x7) enters t:on_tick as t.shared
done 16 0.1 t.shared t:on_tick:34: alloca 8 at 0x3000008
done 17 0.1 t.shared t:on_tick:35: store i64 0x7 at 0x3000008 (event 16+0)
done 18 0.1 t.shared t:on_tick:36: load i64 at 0x3000008 (event 16+0) = 0x7
done 19 0.1 t.shared t:on_tick:37: store i64 0x7 at 0x1000020 (t:@last+0)
done 20 0.1 t.shared t:on_tick:38: leaves 8 at 0x3000008
done 21 0.1 kernel kernel:do_tick:23: leaves 8 at 0x3000000
ends 22 0.1 kernel script: ends: returned
done 23 0.2 kernel script: calls t:read_last() enters t:read_last as t.shared
done 24 0.2 t.shared t:read_last:28: load i64 at 0x1000020 (t:@last+0) = 0x7
done 25 0.2 t.shared t:read_last:29: leaves 0 at 0x3000000
ends 26 0.2 kernel script: ends: returned 7
done 27 0.3 kernel script: calls t:wild() enters t:wild as t.shared
done 28 0.3 t.shared t:wild:22: calls kernel:timer_set(0x10070) enters kernel:timer_set as kernel
refused 29 0.3 t.shared t:wild:22: pre 0 of kernel:timer_set from t.shared to kernel: refused 2 t.shared call 0x10070
"#
}
