//! The longest trace.
//! Written by `tools/example-texts` from `examples/` and `docs/MANUAL.md`.

/// The longest trace: what is run, over which files beside those of `file_table`, and what it writes.
pub fn long_traces_table() -> &'static str {
    r#"---- file examples/c_files.schedule
schedule 0*2207
---- words examples/c_files.case examples/c_files.schedule
---- trace examples/c_files.case
---- further
status 0
done 0 0.0 kernel script: calls ring:ring_sum(5) enters ring:ring_sum as ring.shared
done 1 0.0 ring.shared ring:ring_sum:90: alloca 4 at 0x3000000
done 2 0.0 ring.shared ring:ring_sum:91: alloca 4 at 0x3000004
done 3 0.0 ring.shared ring:ring_sum:92: alloca 4 at 0x3000008
done 4 0.0 ring.shared ring:ring_sum:93: store i32 5 at 0x3000000 (event 1+0)
done 5 0.0 ring.shared ring:ring_sum:94: store i32 0 at 0x3000004 (event 2+0)
done 6 0.0 ring.shared ring:ring_sum:95: store i32 0 at 0x3000008 (event 3+0)
done 7 0.0 ring.shared ring:ring_sum:99: load i32 at 0x3000008 (event 3+0) = 0
done 8 0.0 ring.shared ring:ring_sum:100: load i32 at 0x3000000 (event 1+0) = 5
done 9 0.0 ring.shared ring:ring_sum:105: load i32 at 0x3000008 (event 3+0) = 0
done 10 0.0 ring.shared ring:ring_put:12: alloca 4 at 0x300000c
done 11 0.0 ring.shared ring:ring_put:13: alloca 1 at 0x3000010
done 12 0.0 ring.shared ring:ring_put:14: store i8 1 at 0x3000010 (event 11+0)
done 13 0.0 ring.shared ring:used:43: alloca 8 at 0x3000018
done 14 0.0 ring.shared ring:used:44: store i64 0x1000000 at 0x3000018 (event 13+0)
done 15 0.0 ring.shared ring:used:45: load i64 at 0x3000018 (event 13+0) = 0x1000000
done 16 0.0 ring.shared ring:used:47: load i32 at 0x1000010 (ring:@ring+16) = 0
done 17 0.0 ring.shared ring:used:48: load i64 at 0x3000018 (event 13+0) = 0x1000000
done 18 0.0 ring.shared ring:used:50: load i32 at 0x1000014 (ring:@ring+20) = 0
done 19 0.0 ring.shared ring:used:53: leaves 15 at 0x3000011
done 20 0.0 ring.shared ring:ring_put:24: load i8 at 0x3000010 (event 11+0) = 1
done 21 0.0 ring.shared ring:ring_put:25: load i32 at 0x1000010 (ring:@ring+16) = 0
done 22 0.0 ring.shared ring:ring_put:28: store i8 1 at 0x1000000 (ring:@ring+0)
done 23 0.0 ring.shared ring:ring_put:29: load i32 at 0x1000010 (ring:@ring+16) = 0
done 24 0.0 ring.shared ring:ring_put:32: store i32 1 at 0x1000010 (ring:@ring+16)
done 25 0.0 ring.shared ring:ring_put:33: store i32 0 at 0x300000c (event 10+0)
done 26 0.0 ring.shared ring:ring_put:37: load i32 at 0x300000c (event 10+0) = 0
done 27 0.0 ring.shared ring:ring_put:38: leaves 5 at 0x300000c
done 28 0.0 ring.shared ring:ring_take:58: alloca 4 at 0x300000c
done 29 0.0 ring.shared ring:ring_take:59: alloca 1 at 0x3000010
done 30 0.0 ring.shared ring:used:43: alloca 8 at 0x3000018
done 31 0.0 ring.shared ring:used:44: store i64 0x1000000 at 0x3000018 (event 30+0)
done 32 0.0 ring.shared ring:used:45: load i64 at 0x3000018 (event 30+0) = 0x1000000
done 33 0.0 ring.shared ring:used:47: load i32 at 0x1000010 (ring:@ring+16) = 1
done 34 0.0 ring.shared ring:used:48: load i64 at 0x3000018 (event 30+0) = 0x1000000
done 35 0.0 ring.shared ring:used:50: load i32 at 0x1000014 (ring:@ring+20) = 0
done 36 0.0 ring.shared ring:used:53: leaves 15 at 0x3000011
done 37 0.0 ring.shared ring:ring_take:69: load i32 at 0x1000014 (ring:@ring+20) = 0
done 38 0.0 ring.shared ring:ring_take:72: load i8 at 0x1000000 (ring:@ring+0) = 1
done 39 0.0 ring.shared ring:ring_take:73: store i8 1 at 0x3000010 (event 29+0)
done 40 0.0 ring.shared ring:ring_take:74: load i32 at 0x1000014 (ring:@ring+20) = 0
done 41 0.0 ring.shared ring:ring_take:77: store i32 1 at 0x1000014 (ring:@ring+20)
done 42 0.0 ring.shared ring:ring_take:78: load i8 at 0x3000010 (event 29+0) = 1
done 43 0.0 ring.shared ring:ring_take:80: store i32 1 at 0x300000c (event 28+0)
done 44 0.0 ring.shared ring:ring_take:84: load i32 at 0x300000c (event 28+0) = 1
done 45 0.0 ring.shared ring:ring_take:85: leaves 5 at 0x300000c
done 46 0.0 ring.shared ring:ring_sum:111: load i32 at 0x3000004 (event 2+0) = 0
done 47 0.0 ring.shared ring:ring_sum:113: store i32 1 at 0x3000004 (event 2+0)
done 48 0.0 ring.shared ring:ring_sum:117: load i32 at 0x3000008 (event 3+0) = 0
done 49 0.0 ring.shared ring:ring_sum:119: store i32 1 at 0x3000008 (event 3+0)
done 50 0.0 ring.shared ring:ring_sum:99: load i32 at 0x3000008 (event 3+0) = 1
done 51 0.0 ring.shared ring:ring_sum:100: load i32 at 0x3000000 (event 1+0) = 5
done 52 0.0 ring.shared ring:ring_sum:105: load i32 at 0x3000008 (event 3+0) = 1
done 53 0.0 ring.shared ring:ring_put:12: alloca 4 at 0x300000c
done 54 0.0 ring.shared ring:ring_put:13: alloca 1 at 0x3000010
done 55 0.0 ring.shared ring:ring_put:14: store i8 4 at 0x3000010 (event 54+0)
done 56 0.0 ring.shared ring:used:43: alloca 8 at 0x3000018
done 57 0.0 ring.shared ring:used:44: store i64 0x1000000 at 0x3000018 (event 56+0)
done 58 0.0 ring.shared ring:used:45: load i64 at 0x3000018 (event 56+0) = 0x1000000
done 59 0.0 ring.shared ring:used:47: load i32 at 0x1000010 (ring:@ring+16) = 1
done 60 0.0 ring.shared ring:used:48: load i64 at 0x3000018 (event 56+0) = 0x1000000
done 61 0.0 ring.shared ring:used:50: load i32 at 0x1000014 (ring:@ring+20) = 1
done 62 0.0 ring.shared ring:used:53: leaves 15 at 0x3000011
done 63 0.0 ring.shared ring:ring_put:24: load i8 at 0x3000010 (event 54+0) = 4
done 64 0.0 ring.shared ring:ring_put:25: load i32 at 0x1000010 (ring:@ring+16) = 1
done 65 0.0 ring.shared ring:ring_put:28: store i8 4 at 0x1000001 (ring:@ring+1)
done 66 0.0 ring.shared ring:ring_put:29: load i32 at 0x1000010 (ring:@ring+16) = 1
done 67 0.0 ring.shared ring:ring_put:32: store i32 2 at 0x1000010 (ring:@ring+16)
done 68 0.0 ring.shared ring:ring_put:33: store i32 0 at 0x300000c (event 53+0)
done 69 0.0 ring.shared ring:ring_put:37: load i32 at 0x300000c (event 53+0) = 0
done 70 0.0 ring.shared ring:ring_put:38: leaves 5 at 0x300000c
done 71 0.0 ring.shared ring:ring_take:58: alloca 4 at 0x300000c
done 72 0.0 ring.shared ring:ring_take:59: alloca 1 at 0x3000010
done 73 0.0 ring.shared ring:used:43: alloca 8 at 0x3000018
done 74 0.0 ring.shared ring:used:44: store i64 0x1000000 at 0x3000018 (event 73+0)
done 75 0.0 ring.shared ring:used:45: load i64 at 0x3000018 (event 73+0) = 0x1000000
done 76 0.0 ring.shared ring:used:47: load i32 at 0x1000010 (ring:@ring+16) = 2
done 77 0.0 ring.shared ring:used:48: load i64 at 0x3000018 (event 73+0) = 0x1000000
done 78 0.0 ring.shared ring:used:50: load i32 at 0x1000014 (ring:@ring+20) = 1
done 79 0.0 ring.shared ring:used:53: leaves 15 at 0x3000011
done 80 0.0 ring.shared ring:ring_take:69: load i32 at 0x1000014 (ring:@ring+20) = 1
done 81 0.0 ring.shared ring:ring_take:72: load i8 at 0x1000001 (ring:@ring+1) = 4
done 82 0.0 ring.shared ring:ring_take:73: store i8 4 at 0x3000010 (event 72+0)
done 83 0.0 ring.shared ring:ring_take:74: load i32 at 0x1000014 (ring:@ring+20) = 1
done 84 0.0 ring.shared ring:ring_take:77: store i32 2 at 0x1000014 (ring:@ring+20)
done 85 0.0 ring.shared ring:ring_take:78: load i8 at 0x3000010 (event 72+0) = 4
done 86 0.0 ring.shared ring:ring_take:80: store i32 4 at 0x300000c (event 71+0)
done 87 0.0 ring.shared ring:ring_take:84: load i32 at 0x300000c (event 71+0) = 4
done 88 0.0 ring.shared ring:ring_take:85: leaves 5 at 0x300000c
done 89 0.0 ring.shared ring:ring_sum:111: load i32 at 0x3000004 (event 2+0) = 1
done 90 0.0 ring.shared ring:ring_sum:113: store i32 5 at 0x3000004 (event 2+0)
done 91 0.0 ring.shared ring:ring_sum:117: load i32 at 0x3000008 (event 3+0) = 1
done 92 0.0 ring.shared ring:ring_sum:119: store i32 2 at 0x3000008 (event 3+0)
done 93 0.0 ring.shared ring:ring_sum:99: load i32 at 0x3000008 (event 3+0) = 2
done 94 0.0 ring.shared ring:ring_sum:100: load i32 at 0x3000000 (event 1+0) = 5
done 95 0.0 ring.shared ring:ring_sum:105: load i32 at 0x3000008 (event 3+0) = 2
done 96 0.0 ring.shared ring:ring_put:12: alloca 4 at 0x300000c
done 97 0.0 ring.shared ring:ring_put:13: alloca 1 at 0x3000010
done 98 0.0 ring.shared ring:ring_put:14: store i8 7 at 0x3000010 (event 97+0)
done 99 0.0 ring.shared ring:used:43: alloca 8 at 0x3000018
done 100 0.0 ring.shared ring:used:44: store i64 0x1000000 at 0x3000018 (event 99+0)
done 101 0.0 ring.shared ring:used:45: load i64 at 0x3000018 (event 99+0) = 0x1000000
done 102 0.0 ring.shared ring:used:47: load i32 at 0x1000010 (ring:@ring+16) = 2
done 103 0.0 ring.shared ring:used:48: load i64 at 0x3000018 (event 99+0) = 0x1000000
done 104 0.0 ring.shared ring:used:50: load i32 at 0x1000014 (ring:@ring+20) = 2
done 105 0.0 ring.shared ring:used:53: leaves 15 at 0x3000011
done 106 0.0 ring.shared ring:ring_put:24: load i8 at 0x3000010 (event 97+0) = 7
done 107 0.0 ring.shared ring:ring_put:25: load i32 at 0x1000010 (ring:@ring+16) = 2
done 108 0.0 ring.shared ring:ring_put:28: store i8 7 at 0x1000002 (ring:@ring+2)
done 109 0.0 ring.shared ring:ring_put:29: load i32 at 0x1000010 (ring:@ring+16) = 2
done 110 0.0 ring.shared ring:ring_put:32: store i32 3 at 0x1000010 (ring:@ring+16)
done 111 0.0 ring.shared ring:ring_put:33: store i32 0 at 0x300000c (event 96+0)
done 112 0.0 ring.shared ring:ring_put:37: load i32 at 0x300000c (event 96+0) = 0
done 113 0.0 ring.shared ring:ring_put:38: leaves 5 at 0x300000c
done 114 0.0 ring.shared ring:ring_take:58: alloca 4 at 0x300000c
done 115 0.0 ring.shared ring:ring_take:59: alloca 1 at 0x3000010
done 116 0.0 ring.shared ring:used:43: alloca 8 at 0x3000018
done 117 0.0 ring.shared ring:used:44: store i64 0x1000000 at 0x3000018 (event 116+0)
done 118 0.0 ring.shared ring:used:45: load i64 at 0x3000018 (event 116+0) = 0x1000000
done 119 0.0 ring.shared ring:used:47: load i32 at 0x1000010 (ring:@ring+16) = 3
done 120 0.0 ring.shared ring:used:48: load i64 at 0x3000018 (event 116+0) = 0x1000000
done 121 0.0 ring.shared ring:used:50: load i32 at 0x1000014 (ring:@ring+20) = 2
done 122 0.0 ring.shared ring:used:53: leaves 15 at 0x3000011
done 123 0.0 ring.shared ring:ring_take:69: load i32 at 0x1000014 (ring:@ring+20) = 2
done 124 0.0 ring.shared ring:ring_take:72: load i8 at 0x1000002 (ring:@ring+2) = 7
done 125 0.0 ring.shared ring:ring_take:73: store i8 7 at 0x3000010 (event 115+0)
done 126 0.0 ring.shared ring:ring_take:74: load i32 at 0x1000014 (ring:@ring+20) = 2
done 127 0.0 ring.shared ring:ring_take:77: store i32 3 at 0x1000014 (ring:@ring+20)
done 128 0.0 ring.shared ring:ring_take:78: load i8 at 0x3000010 (event 115+0) = 7
done 129 0.0 ring.shared ring:ring_take:80: store i32 7 at 0x300000c (event 114+0)
done 130 0.0 ring.shared ring:ring_take:84: load i32 at 0x300000c (event 114+0) = 7
done 131 0.0 ring.shared ring:ring_take:85: leaves 5 at 0x300000c
done 132 0.0 ring.shared ring:ring_sum:111: load i32 at 0x3000004 (event 2+0) = 5
done 133 0.0 ring.shared ring:ring_sum:113: store i32 12 at 0x3000004 (event 2+0)
done 134 0.0 ring.shared ring:ring_sum:117: load i32 at 0x3000008 (event 3+0) = 2
done 135 0.0 ring.shared ring:ring_sum:119: store i32 3 at 0x3000008 (event 3+0)
done 136 0.0 ring.shared ring:ring_sum:99: load i32 at 0x3000008 (event 3+0) = 3
done 137 0.0 ring.shared ring:ring_sum:100: load i32 at 0x3000000 (event 1+0) = 5
done 138 0.0 ring.shared ring:ring_sum:105: load i32 at 0x3000008 (event 3+0) = 3
done 139 0.0 ring.shared ring:ring_put:12: alloca 4 at 0x300000c
done 140 0.0 ring.shared ring:ring_put:13: alloca 1 at 0x3000010
done 141 0.0 ring.shared ring:ring_put:14: store i8 10 at 0x3000010 (event 140+0)
done 142 0.0 ring.shared ring:used:43: alloca 8 at 0x3000018
done 143 0.0 ring.shared ring:used:44: store i64 0x1000000 at 0x3000018 (event 142+0)
done 144 0.0 ring.shared ring:used:45: load i64 at 0x3000018 (event 142+0) = 0x1000000
done 145 0.0 ring.shared ring:used:47: load i32 at 0x1000010 (ring:@ring+16) = 3
done 146 0.0 ring.shared ring:used:48: load i64 at 0x3000018 (event 142+0) = 0x1000000
done 147 0.0 ring.shared ring:used:50: load i32 at 0x1000014 (ring:@ring+20) = 3
done 148 0.0 ring.shared ring:used:53: leaves 15 at 0x3000011
done 149 0.0 ring.shared ring:ring_put:24: load i8 at 0x3000010 (event 140+0) = 10
done 150 0.0 ring.shared ring:ring_put:25: load i32 at 0x1000010 (ring:@ring+16) = 3
done 151 0.0 ring.shared ring:ring_put:28: store i8 10 at 0x1000003 (ring:@ring+3)
done 152 0.0 ring.shared ring:ring_put:29: load i32 at 0x1000010 (ring:@ring+16) = 3
done 153 0.0 ring.shared ring:ring_put:32: store i32 4 at 0x1000010 (ring:@ring+16)
done 154 0.0 ring.shared ring:ring_put:33: store i32 0 at 0x300000c (event 139+0)
done 155 0.0 ring.shared ring:ring_put:37: load i32 at 0x300000c (event 139+0) = 0
done 156 0.0 ring.shared ring:ring_put:38: leaves 5 at 0x300000c
done 157 0.0 ring.shared ring:ring_take:58: alloca 4 at 0x300000c
done 158 0.0 ring.shared ring:ring_take:59: alloca 1 at 0x3000010
done 159 0.0 ring.shared ring:used:43: alloca 8 at 0x3000018
done 160 0.0 ring.shared ring:used:44: store i64 0x1000000 at 0x3000018 (event 159+0)
done 161 0.0 ring.shared ring:used:45: load i64 at 0x3000018 (event 159+0) = 0x1000000
done 162 0.0 ring.shared ring:used:47: load i32 at 0x1000010 (ring:@ring+16) = 4
done 163 0.0 ring.shared ring:used:48: load i64 at 0x3000018 (event 159+0) = 0x1000000
done 164 0.0 ring.shared ring:used:50: load i32 at 0x1000014 (ring:@ring+20) = 3
done 165 0.0 ring.shared ring:used:53: leaves 15 at 0x3000011
done 166 0.0 ring.shared ring:ring_take:69: load i32 at 0x1000014 (ring:@ring+20) = 3
done 167 0.0 ring.shared ring:ring_take:72: load i8 at 0x1000003 (ring:@ring+3) = 10
done 168 0.0 ring.shared ring:ring_take:73: store i8 10 at 0x3000010 (event 158+0)
done 169 0.0 ring.shared ring:ring_take:74: load i32 at 0x1000014 (ring:@ring+20) = 3
done 170 0.0 ring.shared ring:ring_take:77: store i32 4 at 0x1000014 (ring:@ring+20)
done 171 0.0 ring.shared ring:ring_take:78: load i8 at 0x3000010 (event 158+0) = 10
done 172 0.0 ring.shared ring:ring_take:80: store i32 10 at 0x300000c (event 157+0)
done 173 0.0 ring.shared ring:ring_take:84: load i32 at 0x300000c (event 157+0) = 10
done 174 0.0 ring.shared ring:ring_take:85: leaves 5 at 0x300000c
done 175 0.0 ring.shared ring:ring_sum:111: load i32 at 0x3000004 (event 2+0) = 12
done 176 0.0 ring.shared ring:ring_sum:113: store i32 22 at 0x3000004 (event 2+0)
done 177 0.0 ring.shared ring:ring_sum:117: load i32 at 0x3000008 (event 3+0) = 3
done 178 0.0 ring.shared ring:ring_sum:119: store i32 4 at 0x3000008 (event 3+0)
done 179 0.0 ring.shared ring:ring_sum:99: load i32 at 0x3000008 (event 3+0) = 4
done 180 0.0 ring.shared ring:ring_sum:100: load i32 at 0x3000000 (event 1+0) = 5
done 181 0.0 ring.shared ring:ring_sum:105: load i32 at 0x3000008 (event 3+0) = 4
done 182 0.0 ring.shared ring:ring_put:12: alloca 4 at 0x300000c
done 183 0.0 ring.shared ring:ring_put:13: alloca 1 at 0x3000010
done 184 0.0 ring.shared ring:ring_put:14: store i8 13 at 0x3000010 (event 183+0)
done 185 0.0 ring.shared ring:used:43: alloca 8 at 0x3000018
done 186 0.0 ring.shared ring:used:44: store i64 0x1000000 at 0x3000018 (event 185+0)
done 187 0.0 ring.shared ring:used:45: load i64 at 0x3000018 (event 185+0) = 0x1000000
done 188 0.0 ring.shared ring:used:47: load i32 at 0x1000010 (ring:@ring+16) = 4
done 189 0.0 ring.shared ring:used:48: load i64 at 0x3000018 (event 185+0) = 0x1000000
done 190 0.0 ring.shared ring:used:50: load i32 at 0x1000014 (ring:@ring+20) = 4
done 191 0.0 ring.shared ring:used:53: leaves 15 at 0x3000011
done 192 0.0 ring.shared ring:ring_put:24: load i8 at 0x3000010 (event 183+0) = 13
done 193 0.0 ring.shared ring:ring_put:25: load i32 at 0x1000010 (ring:@ring+16) = 4
done 194 0.0 ring.shared ring:ring_put:28: store i8 13 at 0x1000004 (ring:@ring+4)
done 195 0.0 ring.shared ring:ring_put:29: load i32 at 0x1000010 (ring:@ring+16) = 4
done 196 0.0 ring.shared ring:ring_put:32: store i32 5 at 0x1000010 (ring:@ring+16)
done 197 0.0 ring.shared ring:ring_put:33: store i32 0 at 0x300000c (event 182+0)
done 198 0.0 ring.shared ring:ring_put:37: load i32 at 0x300000c (event 182+0) = 0
done 199 0.0 ring.shared ring:ring_put:38: leaves 5 at 0x300000c
done 200 0.0 ring.shared ring:ring_take:58: alloca 4 at 0x300000c
done 201 0.0 ring.shared ring:ring_take:59: alloca 1 at 0x3000010
done 202 0.0 ring.shared ring:used:43: alloca 8 at 0x3000018
done 203 0.0 ring.shared ring:used:44: store i64 0x1000000 at 0x3000018 (event 202+0)
done 204 0.0 ring.shared ring:used:45: load i64 at 0x3000018 (event 202+0) = 0x1000000
done 205 0.0 ring.shared ring:used:47: load i32 at 0x1000010 (ring:@ring+16) = 5
done 206 0.0 ring.shared ring:used:48: load i64 at 0x3000018 (event 202+0) = 0x1000000
done 207 0.0 ring.shared ring:used:50: load i32 at 0x1000014 (ring:@ring+20) = 4
done 208 0.0 ring.shared ring:used:53: leaves 15 at 0x3000011
done 209 0.0 ring.shared ring:ring_take:69: load i32 at 0x1000014 (ring:@ring+20) = 4
done 210 0.0 ring.shared ring:ring_take:72: load i8 at 0x1000004 (ring:@ring+4) = 13
done 211 0.0 ring.shared ring:ring_take:73: store i8 13 at 0x3000010 (event 201+0)
done 212 0.0 ring.shared ring:ring_take:74: load i32 at 0x1000014 (ring:@ring+20) = 4
done 213 0.0 ring.shared ring:ring_take:77: store i32 5 at 0x1000014 (ring:@ring+20)
done 214 0.0 ring.shared ring:ring_take:78: load i8 at 0x3000010 (event 201+0) = 13
done 215 0.0 ring.shared ring:ring_take:80: store i32 13 at 0x300000c (event 200+0)
done 216 0.0 ring.shared ring:ring_take:84: load i32 at 0x300000c (event 200+0) = 13
done 217 0.0 ring.shared ring:ring_take:85: leaves 5 at 0x300000c
done 218 0.0 ring.shared ring:ring_sum:111: load i32 at 0x3000004 (event 2+0) = 22
done 219 0.0 ring.shared ring:ring_sum:113: store i32 35 at 0x3000004 (event 2+0)
done 220 0.0 ring.shared ring:ring_sum:117: load i32 at 0x3000008 (event 3+0) = 4
done 221 0.0 ring.shared ring:ring_sum:119: store i32 5 at 0x3000008 (event 3+0)
done 222 0.0 ring.shared ring:ring_sum:99: load i32 at 0x3000008 (event 3+0) = 5
done 223 0.0 ring.shared ring:ring_sum:100: load i32 at 0x3000000 (event 1+0) = 5
done 224 0.0 ring.shared ring:ring_sum:123: load i32 at 0x3000004 (event 2+0) = 35
done 225 0.0 ring.shared ring:ring_sum:124: leaves 12 at 0x3000000
ends 226 0.0 kernel script: ends: returned 35
done 227 0.1 kernel script: calls ring:ring_sum(40) enters ring:ring_sum as ring.shared
done 228 0.1 ring.shared ring:ring_sum:90: alloca 4 at 0x3000000
done 229 0.1 ring.shared ring:ring_sum:91: alloca 4 at 0x3000004
done 230 0.1 ring.shared ring:ring_sum:92: alloca 4 at 0x3000008
done 231 0.1 ring.shared ring:ring_sum:93: store i32 40 at 0x3000000 (event 228+0)
done 232 0.1 ring.shared ring:ring_sum:94: store i32 0 at 0x3000004 (event 229+0)
done 233 0.1 ring.shared ring:ring_sum:95: store i32 0 at 0x3000008 (event 230+0)
done 234 0.1 ring.shared ring:ring_sum:99: load i32 at 0x3000008 (event 230+0) = 0
done 235 0.1 ring.shared ring:ring_sum:100: load i32 at 0x3000000 (event 228+0) = 40
done 236 0.1 ring.shared ring:ring_sum:105: load i32 at 0x3000008 (event 230+0) = 0
done 237 0.1 ring.shared ring:ring_put:12: alloca 4 at 0x300000c
done 238 0.1 ring.shared ring:ring_put:13: alloca 1 at 0x3000010
done 239 0.1 ring.shared ring:ring_put:14: store i8 1 at 0x3000010 (event 238+0)
done 240 0.1 ring.shared ring:used:43: alloca 8 at 0x3000018
done 241 0.1 ring.shared ring:used:44: store i64 0x1000000 at 0x3000018 (event 240+0)
done 242 0.1 ring.shared ring:used:45: load i64 at 0x3000018 (event 240+0) = 0x1000000
done 243 0.1 ring.shared ring:used:47: load i32 at 0x1000010 (ring:@ring+16) = 5
done 244 0.1 ring.shared ring:used:48: load i64 at 0x3000018 (event 240+0) = 0x1000000
done 245 0.1 ring.shared ring:used:50: load i32 at 0x1000014 (ring:@ring+20) = 5
done 246 0.1 ring.shared ring:used:53: leaves 15 at 0x3000011
done 247 0.1 ring.shared ring:ring_put:24: load i8 at 0x3000010 (event 238+0) = 1
done 248 0.1 ring.shared ring:ring_put:25: load i32 at 0x1000010 (ring:@ring+16) = 5
done 249 0.1 ring.shared ring:ring_put:28: store i8 1 at 0x1000005 (ring:@ring+5)
done 250 0.1 ring.shared ring:ring_put:29: load i32 at 0x1000010 (ring:@ring+16) = 5
done 251 0.1 ring.shared ring:ring_put:32: store i32 6 at 0x1000010 (ring:@ring+16)
done 252 0.1 ring.shared ring:ring_put:33: store i32 0 at 0x300000c (event 237+0)
done 253 0.1 ring.shared ring:ring_put:37: load i32 at 0x300000c (event 237+0) = 0
done 254 0.1 ring.shared ring:ring_put:38: leaves 5 at 0x300000c
done 255 0.1 ring.shared ring:ring_take:58: alloca 4 at 0x300000c
done 256 0.1 ring.shared ring:ring_take:59: alloca 1 at 0x3000010
done 257 0.1 ring.shared ring:used:43: alloca 8 at 0x3000018
done 258 0.1 ring.shared ring:used:44: store i64 0x1000000 at 0x3000018 (event 257+0)
done 259 0.1 ring.shared ring:used:45: load i64 at 0x3000018 (event 257+0) = 0x1000000
done 260 0.1 ring.shared ring:used:47: load i32 at 0x1000010 (ring:@ring+16) = 6
done 261 0.1 ring.shared ring:used:48: load i64 at 0x3000018 (event 257+0) = 0x1000000
done 262 0.1 ring.shared ring:used:50: load i32 at 0x1000014 (ring:@ring+20) = 5
done 263 0.1 ring.shared ring:used:53: leaves 15 at 0x3000011
done 264 0.1 ring.shared ring:ring_take:69: load i32 at 0x1000014 (ring:@ring+20) = 5
done 265 0.1 ring.shared ring:ring_take:72: load i8 at 0x1000005 (ring:@ring+5) = 1
done 266 0.1 ring.shared ring:ring_take:73: store i8 1 at 0x3000010 (event 256+0)
done 267 0.1 ring.shared ring:ring_take:74: load i32 at 0x1000014 (ring:@ring+20) = 5
done 268 0.1 ring.shared ring:ring_take:77: store i32 6 at 0x1000014 (ring:@ring+20)
done 269 0.1 ring.shared ring:ring_take:78: load i8 at 0x3000010 (event 256+0) = 1
done 270 0.1 ring.shared ring:ring_take:80: store i32 1 at 0x300000c (event 255+0)
done 271 0.1 ring.shared ring:ring_take:84: load i32 at 0x300000c (event 255+0) = 1
done 272 0.1 ring.shared ring:ring_take:85: leaves 5 at 0x300000c
done 273 0.1 ring.shared ring:ring_sum:111: load i32 at 0x3000004 (event 229+0) = 0
done 274 0.1 ring.shared ring:ring_sum:113: store i32 1 at 0x3000004 (event 229+0)
done 275 0.1 ring.shared ring:ring_sum:117: load i32 at 0x3000008 (event 230+0) = 0
done 276 0.1 ring.shared ring:ring_sum:119: store i32 1 at 0x3000008 (event 230+0)
done 277 0.1 ring.shared ring:ring_sum:99: load i32 at 0x3000008 (event 230+0) = 1
done 278 0.1 ring.shared ring:ring_sum:100: load i32 at 0x3000000 (event 228+0) = 40
done 279 0.1 ring.shared ring:ring_sum:105: load i32 at 0x3000008 (event 230+0) = 1
done 280 0.1 ring.shared ring:ring_put:12: alloca 4 at 0x300000c
done 281 0.1 ring.shared ring:ring_put:13: alloca 1 at 0x3000010
done 282 0.1 ring.shared ring:ring_put:14: store i8 4 at 0x3000010 (event 281+0)
done 283 0.1 ring.shared ring:used:43: alloca 8 at 0x3000018
done 284 0.1 ring.shared ring:used:44: store i64 0x1000000 at 0x3000018 (event 283+0)
done 285 0.1 ring.shared ring:used:45: load i64 at 0x3000018 (event 283+0) = 0x1000000
done 286 0.1 ring.shared ring:used:47: load i32 at 0x1000010 (ring:@ring+16) = 6
done 287 0.1 ring.shared ring:used:48: load i64 at 0x3000018 (event 283+0) = 0x1000000
done 288 0.1 ring.shared ring:used:50: load i32 at 0x1000014 (ring:@ring+20) = 6
done 289 0.1 ring.shared ring:used:53: leaves 15 at 0x3000011
done 290 0.1 ring.shared ring:ring_put:24: load i8 at 0x3000010 (event 281+0) = 4
done 291 0.1 ring.shared ring:ring_put:25: load i32 at 0x1000010 (ring:@ring+16) = 6
done 292 0.1 ring.shared ring:ring_put:28: store i8 4 at 0x1000006 (ring:@ring+6)
done 293 0.1 ring.shared ring:ring_put:29: load i32 at 0x1000010 (ring:@ring+16) = 6
done 294 0.1 ring.shared ring:ring_put:32: store i32 7 at 0x1000010 (ring:@ring+16)
done 295 0.1 ring.shared ring:ring_put:33: store i32 0 at 0x300000c (event 280+0)
done 296 0.1 ring.shared ring:ring_put:37: load i32 at 0x300000c (event 280+0) = 0
done 297 0.1 ring.shared ring:ring_put:38: leaves 5 at 0x300000c
done 298 0.1 ring.shared ring:ring_take:58: alloca 4 at 0x300000c
done 299 0.1 ring.shared ring:ring_take:59: alloca 1 at 0x3000010
done 300 0.1 ring.shared ring:used:43: alloca 8 at 0x3000018
done 301 0.1 ring.shared ring:used:44: store i64 0x1000000 at 0x3000018 (event 300+0)
done 302 0.1 ring.shared ring:used:45: load i64 at 0x3000018 (event 300+0) = 0x1000000
done 303 0.1 ring.shared ring:used:47: load i32 at 0x1000010 (ring:@ring+16) = 7
done 304 0.1 ring.shared ring:used:48: load i64 at 0x3000018 (event 300+0) = 0x1000000
done 305 0.1 ring.shared ring:used:50: load i32 at 0x1000014 (ring:@ring+20) = 6
done 306 0.1 ring.shared ring:used:53: leaves 15 at 0x3000011
done 307 0.1 ring.shared ring:ring_take:69: load i32 at 0x1000014 (ring:@ring+20) = 6
done 308 0.1 ring.shared ring:ring_take:72: load i8 at 0x1000006 (ring:@ring+6) = 4
done 309 0.1 ring.shared ring:ring_take:73: store i8 4 at 0x3000010 (event 299+0)
done 310 0.1 ring.shared ring:ring_take:74: load i32 at 0x1000014 (ring:@ring+20) = 6
done 311 0.1 ring.shared ring:ring_take:77: store i32 7 at 0x1000014 (ring:@ring+20)
done 312 0.1 ring.shared ring:ring_take:78: load i8 at 0x3000010 (event 299+0) = 4
done 313 0.1 ring.shared ring:ring_take:80: store i32 4 at 0x300000c (event 298+0)
done 314 0.1 ring.shared ring:ring_take:84: load i32 at 0x300000c (event 298+0) = 4
done 315 0.1 ring.shared ring:ring_take:85: leaves 5 at 0x300000c
done 316 0.1 ring.shared ring:ring_sum:111: load i32 at 0x3000004 (event 229+0) = 1
done 317 0.1 ring.shared ring:ring_sum:113: store i32 5 at 0x3000004 (event 229+0)
done 318 0.1 ring.shared ring:ring_sum:117: load i32 at 0x3000008 (event 230+0) = 1
done 319 0.1 ring.shared ring:ring_sum:119: store i32 2 at 0x3000008 (event 230+0)
done 320 0.1 ring.shared ring:ring_sum:99: load i32 at 0x3000008 (event 230+0) = 2
done 321 0.1 ring.shared ring:ring_sum:100: load i32 at 0x3000000 (event 228+0) = 40
done 322 0.1 ring.shared ring:ring_sum:105: load i32 at 0x3000008 (event 230+0) = 2
done 323 0.1 ring.shared ring:ring_put:12: alloca 4 at 0x300000c
done 324 0.1 ring.shared ring:ring_put:13: alloca 1 at 0x3000010
done 325 0.1 ring.shared ring:ring_put:14: store i8 7 at 0x3000010 (event 324+0)
done 326 0.1 ring.shared ring:used:43: alloca 8 at 0x3000018
done 327 0.1 ring.shared ring:used:44: store i64 0x1000000 at 0x3000018 (event 326+0)
done 328 0.1 ring.shared ring:used:45: load i64 at 0x3000018 (event 326+0) = 0x1000000
done 329 0.1 ring.shared ring:used:47: load i32 at 0x1000010 (ring:@ring+16) = 7
done 330 0.1 ring.shared ring:used:48: load i64 at 0x3000018 (event 326+0) = 0x1000000
done 331 0.1 ring.shared ring:used:50: load i32 at 0x1000014 (ring:@ring+20) = 7
done 332 0.1 ring.shared ring:used:53: leaves 15 at 0x3000011
done 333 0.1 ring.shared ring:ring_put:24: load i8 at 0x3000010 (event 324+0) = 7
done 334 0.1 ring.shared ring:ring_put:25: load i32 at 0x1000010 (ring:@ring+16) = 7
done 335 0.1 ring.shared ring:ring_put:28: store i8 7 at 0x1000007 (ring:@ring+7)
done 336 0.1 ring.shared ring:ring_put:29: load i32 at 0x1000010 (ring:@ring+16) = 7
done 337 0.1 ring.shared ring:ring_put:32: store i32 8 at 0x1000010 (ring:@ring+16)
done 338 0.1 ring.shared ring:ring_put:33: store i32 0 at 0x300000c (event 323+0)
done 339 0.1 ring.shared ring:ring_put:37: load i32 at 0x300000c (event 323+0) = 0
done 340 0.1 ring.shared ring:ring_put:38: leaves 5 at 0x300000c
done 341 0.1 ring.shared ring:ring_take:58: alloca 4 at 0x300000c
done 342 0.1 ring.shared ring:ring_take:59: alloca 1 at 0x3000010
done 343 0.1 ring.shared ring:used:43: alloca 8 at 0x3000018
done 344 0.1 ring.shared ring:used:44: store i64 0x1000000 at 0x3000018 (event 343+0)
done 345 0.1 ring.shared ring:used:45: load i64 at 0x3000018 (event 343+0) = 0x1000000
done 346 0.1 ring.shared ring:used:47: load i32 at 0x1000010 (ring:@ring+16) = 8
done 347 0.1 ring.shared ring:used:48: load i64 at 0x3000018 (event 343+0) = 0x1000000
done 348 0.1 ring.shared ring:used:50: load i32 at 0x1000014 (ring:@ring+20) = 7
done 349 0.1 ring.shared ring:used:53: leaves 15 at 0x3000011
done 350 0.1 ring.shared ring:ring_take:69: load i32 at 0x1000014 (ring:@ring+20) = 7
done 351 0.1 ring.shared ring:ring_take:72: load i8 at 0x1000007 (ring:@ring+7) = 7
done 352 0.1 ring.shared ring:ring_take:73: store i8 7 at 0x3000010 (event 342+0)
done 353 0.1 ring.shared ring:ring_take:74: load i32 at 0x1000014 (ring:@ring+20) = 7
done 354 0.1 ring.shared ring:ring_take:77: store i32 8 at 0x1000014 (ring:@ring+20)
done 355 0.1 ring.shared ring:ring_take:78: load i8 at 0x3000010 (event 342+0) = 7
done 356 0.1 ring.shared ring:ring_take:80: store i32 7 at 0x300000c (event 341+0)
done 357 0.1 ring.shared ring:ring_take:84: load i32 at 0x300000c (event 341+0) = 7
done 358 0.1 ring.shared ring:ring_take:85: leaves 5 at 0x300000c
done 359 0.1 ring.shared ring:ring_sum:111: load i32 at 0x3000004 (event 229+0) = 5
done 360 0.1 ring.shared ring:ring_sum:113: store i32 12 at 0x3000004 (event 229+0)
done 361 0.1 ring.shared ring:ring_sum:117: load i32 at 0x3000008 (event 230+0) = 2
done 362 0.1 ring.shared ring:ring_sum:119: store i32 3 at 0x3000008 (event 230+0)
done 363 0.1 ring.shared ring:ring_sum:99: load i32 at 0x3000008 (event 230+0) = 3
done 364 0.1 ring.shared ring:ring_sum:100: load i32 at 0x3000000 (event 228+0) = 40
done 365 0.1 ring.shared ring:ring_sum:105: load i32 at 0x3000008 (event 230+0) = 3
done 366 0.1 ring.shared ring:ring_put:12: alloca 4 at 0x300000c
done 367 0.1 ring.shared ring:ring_put:13: alloca 1 at 0x3000010
done 368 0.1 ring.shared ring:ring_put:14: store i8 10 at 0x3000010 (event 367+0)
done 369 0.1 ring.shared ring:used:43: alloca 8 at 0x3000018
done 370 0.1 ring.shared ring:used:44: store i64 0x1000000 at 0x3000018 (event 369+0)
done 371 0.1 ring.shared ring:used:45: load i64 at 0x3000018 (event 369+0) = 0x1000000
done 372 0.1 ring.shared ring:used:47: load i32 at 0x1000010 (ring:@ring+16) = 8
done 373 0.1 ring.shared ring:used:48: load i64 at 0x3000018 (event 369+0) = 0x1000000
done 374 0.1 ring.shared ring:used:50: load i32 at 0x1000014 (ring:@ring+20) = 8
done 375 0.1 ring.shared ring:used:53: leaves 15 at 0x3000011
done 376 0.1 ring.shared ring:ring_put:24: load i8 at 0x3000010 (event 367+0) = 10
done 377 0.1 ring.shared ring:ring_put:25: load i32 at 0x1000010 (ring:@ring+16) = 8
done 378 0.1 ring.shared ring:ring_put:28: store i8 10 at 0x1000008 (ring:@ring+8)
done 379 0.1 ring.shared ring:ring_put:29: load i32 at 0x1000010 (ring:@ring+16) = 8
done 380 0.1 ring.shared ring:ring_put:32: store i32 9 at 0x1000010 (ring:@ring+16)
done 381 0.1 ring.shared ring:ring_put:33: store i32 0 at 0x300000c (event 366+0)
done 382 0.1 ring.shared ring:ring_put:37: load i32 at 0x300000c (event 366+0) = 0
done 383 0.1 ring.shared ring:ring_put:38: leaves 5 at 0x300000c
done 384 0.1 ring.shared ring:ring_take:58: alloca 4 at 0x300000c
done 385 0.1 ring.shared ring:ring_take:59: alloca 1 at 0x3000010
done 386 0.1 ring.shared ring:used:43: alloca 8 at 0x3000018
done 387 0.1 ring.shared ring:used:44: store i64 0x1000000 at 0x3000018 (event 386+0)
done 388 0.1 ring.shared ring:used:45: load i64 at 0x3000018 (event 386+0) = 0x1000000
done 389 0.1 ring.shared ring:used:47: load i32 at 0x1000010 (ring:@ring+16) = 9
done 390 0.1 ring.shared ring:used:48: load i64 at 0x3000018 (event 386+0) = 0x1000000
done 391 0.1 ring.shared ring:used:50: load i32 at 0x1000014 (ring:@ring+20) = 8
done 392 0.1 ring.shared ring:used:53: leaves 15 at 0x3000011
done 393 0.1 ring.shared ring:ring_take:69: load i32 at 0x1000014 (ring:@ring+20) = 8
done 394 0.1 ring.shared ring:ring_take:72: load i8 at 0x1000008 (ring:@ring+8) = 10
done 395 0.1 ring.shared ring:ring_take:73: store i8 10 at 0x3000010 (event 385+0)
done 396 0.1 ring.shared ring:ring_take:74: load i32 at 0x1000014 (ring:@ring+20) = 8
done 397 0.1 ring.shared ring:ring_take:77: store i32 9 at 0x1000014 (ring:@ring+20)
done 398 0.1 ring.shared ring:ring_take:78: load i8 at 0x3000010 (event 385+0) = 10
done 399 0.1 ring.shared ring:ring_take:80: store i32 10 at 0x300000c (event 384+0)
done 400 0.1 ring.shared ring:ring_take:84: load i32 at 0x300000c (event 384+0) = 10
done 401 0.1 ring.shared ring:ring_take:85: leaves 5 at 0x300000c
done 402 0.1 ring.shared ring:ring_sum:111: load i32 at 0x3000004 (event 229+0) = 12
done 403 0.1 ring.shared ring:ring_sum:113: store i32 22 at 0x3000004 (event 229+0)
done 404 0.1 ring.shared ring:ring_sum:117: load i32 at 0x3000008 (event 230+0) = 3
done 405 0.1 ring.shared ring:ring_sum:119: store i32 4 at 0x3000008 (event 230+0)
done 406 0.1 ring.shared ring:ring_sum:99: load i32 at 0x3000008 (event 230+0) = 4
done 407 0.1 ring.shared ring:ring_sum:100: load i32 at 0x3000000 (event 228+0) = 40
done 408 0.1 ring.shared ring:ring_sum:105: load i32 at 0x3000008 (event 230+0) = 4
done 409 0.1 ring.shared ring:ring_put:12: alloca 4 at 0x300000c
done 410 0.1 ring.shared ring:ring_put:13: alloca 1 at 0x3000010
done 411 0.1 ring.shared ring:ring_put:14: store i8 13 at 0x3000010 (event 410+0)
done 412 0.1 ring.shared ring:used:43: alloca 8 at 0x3000018
done 413 0.1 ring.shared ring:used:44: store i64 0x1000000 at 0x3000018 (event 412+0)
done 414 0.1 ring.shared ring:used:45: load i64 at 0x3000018 (event 412+0) = 0x1000000
done 415 0.1 ring.shared ring:used:47: load i32 at 0x1000010 (ring:@ring+16) = 9
done 416 0.1 ring.shared ring:used:48: load i64 at 0x3000018 (event 412+0) = 0x1000000
done 417 0.1 ring.shared ring:used:50: load i32 at 0x1000014 (ring:@ring+20) = 9
done 418 0.1 ring.shared ring:used:53: leaves 15 at 0x3000011
done 419 0.1 ring.shared ring:ring_put:24: load i8 at 0x3000010 (event 410+0) = 13
done 420 0.1 ring.shared ring:ring_put:25: load i32 at 0x1000010 (ring:@ring+16) = 9
done 421 0.1 ring.shared ring:ring_put:28: store i8 13 at 0x1000009 (ring:@ring+9)
done 422 0.1 ring.shared ring:ring_put:29: load i32 at 0x1000010 (ring:@ring+16) = 9
done 423 0.1 ring.shared ring:ring_put:32: store i32 10 at 0x1000010 (ring:@ring+16)
done 424 0.1 ring.shared ring:ring_put:33: store i32 0 at 0x300000c (event 409+0)
done 425 0.1 ring.shared ring:ring_put:37: load i32 at 0x300000c (event 409+0) = 0
done 426 0.1 ring.shared ring:ring_put:38: leaves 5 at 0x300000c
done 427 0.1 ring.shared ring:ring_take:58: alloca 4 at 0x300000c
done 428 0.1 ring.shared ring:ring_take:59: alloca 1 at 0x3000010
done 429 0.1 ring.shared ring:used:43: alloca 8 at 0x3000018
done 430 0.1 ring.shared ring:used:44: store i64 0x1000000 at 0x3000018 (event 429+0)
done 431 0.1 ring.shared ring:used:45: load i64 at 0x3000018 (event 429+0) = 0x1000000
done 432 0.1 ring.shared ring:used:47: load i32 at 0x1000010 (ring:@ring+16) = 10
done 433 0.1 ring.shared ring:used:48: load i64 at 0x3000018 (event 429+0) = 0x1000000
done 434 0.1 ring.shared ring:used:50: load i32 at 0x1000014 (ring:@ring+20) = 9
done 435 0.1 ring.shared ring:used:53: leaves 15 at 0x3000011
done 436 0.1 ring.shared ring:ring_take:69: load i32 at 0x1000014 (ring:@ring+20) = 9
done 437 0.1 ring.shared ring:ring_take:72: load i8 at 0x1000009 (ring:@ring+9) = 13
done 438 0.1 ring.shared ring:ring_take:73: store i8 13 at 0x3000010 (event 428+0)
done 439 0.1 ring.shared ring:ring_take:74: load i32 at 0x1000014 (ring:@ring+20) = 9
done 440 0.1 ring.shared ring:ring_take:77: store i32 10 at 0x1000014 (ring:@ring+20)
done 441 0.1 ring.shared ring:ring_take:78: load i8 at 0x3000010 (event 428+0) = 13
done 442 0.1 ring.shared ring:ring_take:80: store i32 13 at 0x300000c (event 427+0)
done 443 0.1 ring.shared ring:ring_take:84: load i32 at 0x300000c (event 427+0) = 13
done 444 0.1 ring.shared ring:ring_take:85: leaves 5 at 0x300000c
done 445 0.1 ring.shared ring:ring_sum:111: load i32 at 0x3000004 (event 229+0) = 22
done 446 0.1 ring.shared ring:ring_sum:113: store i32 35 at 0x3000004 (event 229+0)
done 447 0.1 ring.shared ring:ring_sum:117: load i32 at 0x3000008 (event 230+0) = 4
done 448 0.1 ring.shared ring:ring_sum:119: store i32 5 at 0x3000008 (event 230+0)
done 449 0.1 ring.shared ring:ring_sum:99: load i32 at 0x3000008 (event 230+0) = 5
done 450 0.1 ring.shared ring:ring_sum:100: load i32 at 0x3000000 (event 228+0) = 40
done 451 0.1 ring.shared ring:ring_sum:105: load i32 at 0x3000008 (event 230+0) = 5
done 452 0.1 ring.shared ring:ring_put:12: alloca 4 at 0x300000c
done 453 0.1 ring.shared ring:ring_put:13: alloca 1 at 0x3000010
done 454 0.1 ring.shared ring:ring_put:14: store i8 16 at 0x3000010 (event 453+0)
done 455 0.1 ring.shared ring:used:43: alloca 8 at 0x3000018
done 456 0.1 ring.shared ring:used:44: store i64 0x1000000 at 0x3000018 (event 455+0)
done 457 0.1 ring.shared ring:used:45: load i64 at 0x3000018 (event 455+0) = 0x1000000
done 458 0.1 ring.shared ring:used:47: load i32 at 0x1000010 (ring:@ring+16) = 10
done 459 0.1 ring.shared ring:used:48: load i64 at 0x3000018 (event 455+0) = 0x1000000
done 460 0.1 ring.shared ring:used:50: load i32 at 0x1000014 (ring:@ring+20) = 10
done 461 0.1 ring.shared ring:used:53: leaves 15 at 0x3000011
done 462 0.1 ring.shared ring:ring_put:24: load i8 at 0x3000010 (event 453+0) = 16
done 463 0.1 ring.shared ring:ring_put:25: load i32 at 0x1000010 (ring:@ring+16) = 10
done 464 0.1 ring.shared ring:ring_put:28: store i8 16 at 0x100000a (ring:@ring+10)
done 465 0.1 ring.shared ring:ring_put:29: load i32 at 0x1000010 (ring:@ring+16) = 10
done 466 0.1 ring.shared ring:ring_put:32: store i32 11 at 0x1000010 (ring:@ring+16)
done 467 0.1 ring.shared ring:ring_put:33: store i32 0 at 0x300000c (event 452+0)
done 468 0.1 ring.shared ring:ring_put:37: load i32 at 0x300000c (event 452+0) = 0
done 469 0.1 ring.shared ring:ring_put:38: leaves 5 at 0x300000c
done 470 0.1 ring.shared ring:ring_take:58: alloca 4 at 0x300000c
done 471 0.1 ring.shared ring:ring_take:59: alloca 1 at 0x3000010
done 472 0.1 ring.shared ring:used:43: alloca 8 at 0x3000018
done 473 0.1 ring.shared ring:used:44: store i64 0x1000000 at 0x3000018 (event 472+0)
done 474 0.1 ring.shared ring:used:45: load i64 at 0x3000018 (event 472+0) = 0x1000000
done 475 0.1 ring.shared ring:used:47: load i32 at 0x1000010 (ring:@ring+16) = 11
done 476 0.1 ring.shared ring:used:48: load i64 at 0x3000018 (event 472+0) = 0x1000000
done 477 0.1 ring.shared ring:used:50: load i32 at 0x1000014 (ring:@ring+20) = 10
done 478 0.1 ring.shared ring:used:53: leaves 15 at 0x3000011
done 479 0.1 ring.shared ring:ring_take:69: load i32 at 0x1000014 (ring:@ring+20) = 10
done 480 0.1 ring.shared ring:ring_take:72: load i8 at 0x100000a (ring:@ring+10) = 16
done 481 0.1 ring.shared ring:ring_take:73: store i8 16 at 0x3000010 (event 471+0)
done 482 0.1 ring.shared ring:ring_take:74: load i32 at 0x1000014 (ring:@ring+20) = 10
done 483 0.1 ring.shared ring:ring_take:77: store i32 11 at 0x1000014 (ring:@ring+20)
done 484 0.1 ring.shared ring:ring_take:78: load i8 at 0x3000010 (event 471+0) = 16
done 485 0.1 ring.shared ring:ring_take:80: store i32 16 at 0x300000c (event 470+0)
done 486 0.1 ring.shared ring:ring_take:84: load i32 at 0x300000c (event 470+0) = 16
done 487 0.1 ring.shared ring:ring_take:85: leaves 5 at 0x300000c
done 488 0.1 ring.shared ring:ring_sum:111: load i32 at 0x3000004 (event 229+0) = 35
done 489 0.1 ring.shared ring:ring_sum:113: store i32 51 at 0x3000004 (event 229+0)
done 490 0.1 ring.shared ring:ring_sum:117: load i32 at 0x3000008 (event 230+0) = 5
done 491 0.1 ring.shared ring:ring_sum:119: store i32 6 at 0x3000008 (event 230+0)
done 492 0.1 ring.shared ring:ring_sum:99: load i32 at 0x3000008 (event 230+0) = 6
done 493 0.1 ring.shared ring:ring_sum:100: load i32 at 0x3000000 (event 228+0) = 40
done 494 0.1 ring.shared ring:ring_sum:105: load i32 at 0x3000008 (event 230+0) = 6
done 495 0.1 ring.shared ring:ring_put:12: alloca 4 at 0x300000c
done 496 0.1 ring.shared ring:ring_put:13: alloca 1 at 0x3000010
done 497 0.1 ring.shared ring:ring_put:14: store i8 19 at 0x3000010 (event 496+0)
done 498 0.1 ring.shared ring:used:43: alloca 8 at 0x3000018
done 499 0.1 ring.shared ring:used:44: store i64 0x1000000 at 0x3000018 (event 498+0)
done 500 0.1 ring.shared ring:used:45: load i64 at 0x3000018 (event 498+0) = 0x1000000
done 501 0.1 ring.shared ring:used:47: load i32 at 0x1000010 (ring:@ring+16) = 11
done 502 0.1 ring.shared ring:used:48: load i64 at 0x3000018 (event 498+0) = 0x1000000
done 503 0.1 ring.shared ring:used:50: load i32 at 0x1000014 (ring:@ring+20) = 11
done 504 0.1 ring.shared ring:used:53: leaves 15 at 0x3000011
done 505 0.1 ring.shared ring:ring_put:24: load i8 at 0x3000010 (event 496+0) = 19
done 506 0.1 ring.shared ring:ring_put:25: load i32 at 0x1000010 (ring:@ring+16) = 11
done 507 0.1 ring.shared ring:ring_put:28: store i8 19 at 0x100000b (ring:@ring+11)
done 508 0.1 ring.shared ring:ring_put:29: load i32 at 0x1000010 (ring:@ring+16) = 11
done 509 0.1 ring.shared ring:ring_put:32: store i32 12 at 0x1000010 (ring:@ring+16)
done 510 0.1 ring.shared ring:ring_put:33: store i32 0 at 0x300000c (event 495+0)
done 511 0.1 ring.shared ring:ring_put:37: load i32 at 0x300000c (event 495+0) = 0
done 512 0.1 ring.shared ring:ring_put:38: leaves 5 at 0x300000c
done 513 0.1 ring.shared ring:ring_take:58: alloca 4 at 0x300000c
done 514 0.1 ring.shared ring:ring_take:59: alloca 1 at 0x3000010
done 515 0.1 ring.shared ring:used:43: alloca 8 at 0x3000018
done 516 0.1 ring.shared ring:used:44: store i64 0x1000000 at 0x3000018 (event 515+0)
done 517 0.1 ring.shared ring:used:45: load i64 at 0x3000018 (event 515+0) = 0x1000000
done 518 0.1 ring.shared ring:used:47: load i32 at 0x1000010 (ring:@ring+16) = 12
done 519 0.1 ring.shared ring:used:48: load i64 at 0x3000018 (event 515+0) = 0x1000000
done 520 0.1 ring.shared ring:used:50: load i32 at 0x1000014 (ring:@ring+20) = 11
done 521 0.1 ring.shared ring:used:53: leaves 15 at 0x3000011
done 522 0.1 ring.shared ring:ring_take:69: load i32 at 0x1000014 (ring:@ring+20) = 11
done 523 0.1 ring.shared ring:ring_take:72: load i8 at 0x100000b (ring:@ring+11) = 19
done 524 0.1 ring.shared ring:ring_take:73: store i8 19 at 0x3000010 (event 514+0)
done 525 0.1 ring.shared ring:ring_take:74: load i32 at 0x1000014 (ring:@ring+20) = 11
done 526 0.1 ring.shared ring:ring_take:77: store i32 12 at 0x1000014 (ring:@ring+20)
done 527 0.1 ring.shared ring:ring_take:78: load i8 at 0x3000010 (event 514+0) = 19
done 528 0.1 ring.shared ring:ring_take:80: store i32 19 at 0x300000c (event 513+0)
done 529 0.1 ring.shared ring:ring_take:84: load i32 at 0x300000c (event 513+0) = 19
done 530 0.1 ring.shared ring:ring_take:85: leaves 5 at 0x300000c
done 531 0.1 ring.shared ring:ring_sum:111: load i32 at 0x3000004 (event 229+0) = 51
done 532 0.1 ring.shared ring:ring_sum:113: store i32 70 at 0x3000004 (event 229+0)
done 533 0.1 ring.shared ring:ring_sum:117: load i32 at 0x3000008 (event 230+0) = 6
done 534 0.1 ring.shared ring:ring_sum:119: store i32 7 at 0x3000008 (event 230+0)
done 535 0.1 ring.shared ring:ring_sum:99: load i32 at 0x3000008 (event 230+0) = 7
done 536 0.1 ring.shared ring:ring_sum:100: load i32 at 0x3000000 (event 228+0) = 40
done 537 0.1 ring.shared ring:ring_sum:105: load i32 at 0x3000008 (event 230+0) = 7
done 538 0.1 ring.shared ring:ring_put:12: alloca 4 at 0x300000c
done 539 0.1 ring.shared ring:ring_put:13: alloca 1 at 0x3000010
done 540 0.1 ring.shared ring:ring_put:14: store i8 22 at 0x3000010 (event 539+0)
done 541 0.1 ring.shared ring:used:43: alloca 8 at 0x3000018
done 542 0.1 ring.shared ring:used:44: store i64 0x1000000 at 0x3000018 (event 541+0)
done 543 0.1 ring.shared ring:used:45: load i64 at 0x3000018 (event 541+0) = 0x1000000
done 544 0.1 ring.shared ring:used:47: load i32 at 0x1000010 (ring:@ring+16) = 12
done 545 0.1 ring.shared ring:used:48: load i64 at 0x3000018 (event 541+0) = 0x1000000
done 546 0.1 ring.shared ring:used:50: load i32 at 0x1000014 (ring:@ring+20) = 12
done 547 0.1 ring.shared ring:used:53: leaves 15 at 0x3000011
done 548 0.1 ring.shared ring:ring_put:24: load i8 at 0x3000010 (event 539+0) = 22
done 549 0.1 ring.shared ring:ring_put:25: load i32 at 0x1000010 (ring:@ring+16) = 12
done 550 0.1 ring.shared ring:ring_put:28: store i8 22 at 0x100000c (ring:@ring+12)
done 551 0.1 ring.shared ring:ring_put:29: load i32 at 0x1000010 (ring:@ring+16) = 12
done 552 0.1 ring.shared ring:ring_put:32: store i32 13 at 0x1000010 (ring:@ring+16)
done 553 0.1 ring.shared ring:ring_put:33: store i32 0 at 0x300000c (event 538+0)
done 554 0.1 ring.shared ring:ring_put:37: load i32 at 0x300000c (event 538+0) = 0
done 555 0.1 ring.shared ring:ring_put:38: leaves 5 at 0x300000c
done 556 0.1 ring.shared ring:ring_take:58: alloca 4 at 0x300000c
done 557 0.1 ring.shared ring:ring_take:59: alloca 1 at 0x3000010
done 558 0.1 ring.shared ring:used:43: alloca 8 at 0x3000018
done 559 0.1 ring.shared ring:used:44: store i64 0x1000000 at 0x3000018 (event 558+0)
done 560 0.1 ring.shared ring:used:45: load i64 at 0x3000018 (event 558+0) = 0x1000000
done 561 0.1 ring.shared ring:used:47: load i32 at 0x1000010 (ring:@ring+16) = 13
done 562 0.1 ring.shared ring:used:48: load i64 at 0x3000018 (event 558+0) = 0x1000000
done 563 0.1 ring.shared ring:used:50: load i32 at 0x1000014 (ring:@ring+20) = 12
done 564 0.1 ring.shared ring:used:53: leaves 15 at 0x3000011
done 565 0.1 ring.shared ring:ring_take:69: load i32 at 0x1000014 (ring:@ring+20) = 12
done 566 0.1 ring.shared ring:ring_take:72: load i8 at 0x100000c (ring:@ring+12) = 22
done 567 0.1 ring.shared ring:ring_take:73: store i8 22 at 0x3000010 (event 557+0)
done 568 0.1 ring.shared ring:ring_take:74: load i32 at 0x1000014 (ring:@ring+20) = 12
done 569 0.1 ring.shared ring:ring_take:77: store i32 13 at 0x1000014 (ring:@ring+20)
done 570 0.1 ring.shared ring:ring_take:78: load i8 at 0x3000010 (event 557+0) = 22
done 571 0.1 ring.shared ring:ring_take:80: store i32 22 at 0x300000c (event 556+0)
done 572 0.1 ring.shared ring:ring_take:84: load i32 at 0x300000c (event 556+0) = 22
done 573 0.1 ring.shared ring:ring_take:85: leaves 5 at 0x300000c
done 574 0.1 ring.shared ring:ring_sum:111: load i32 at 0x3000004 (event 229+0) = 70
done 575 0.1 ring.shared ring:ring_sum:113: store i32 92 at 0x3000004 (event 229+0)
done 576 0.1 ring.shared ring:ring_sum:117: load i32 at 0x3000008 (event 230+0) = 7
done 577 0.1 ring.shared ring:ring_sum:119: store i32 8 at 0x3000008 (event 230+0)
done 578 0.1 ring.shared ring:ring_sum:99: load i32 at 0x3000008 (event 230+0) = 8
done 579 0.1 ring.shared ring:ring_sum:100: load i32 at 0x3000000 (event 228+0) = 40
done 580 0.1 ring.shared ring:ring_sum:105: load i32 at 0x3000008 (event 230+0) = 8
done 581 0.1 ring.shared ring:ring_put:12: alloca 4 at 0x300000c
done 582 0.1 ring.shared ring:ring_put:13: alloca 1 at 0x3000010
done 583 0.1 ring.shared ring:ring_put:14: store i8 25 at 0x3000010 (event 582+0)
done 584 0.1 ring.shared ring:used:43: alloca 8 at 0x3000018
done 585 0.1 ring.shared ring:used:44: store i64 0x1000000 at 0x3000018 (event 584+0)
done 586 0.1 ring.shared ring:used:45: load i64 at 0x3000018 (event 584+0) = 0x1000000
done 587 0.1 ring.shared ring:used:47: load i32 at 0x1000010 (ring:@ring+16) = 13
done 588 0.1 ring.shared ring:used:48: load i64 at 0x3000018 (event 584+0) = 0x1000000
done 589 0.1 ring.shared ring:used:50: load i32 at 0x1000014 (ring:@ring+20) = 13
done 590 0.1 ring.shared ring:used:53: leaves 15 at 0x3000011
done 591 0.1 ring.shared ring:ring_put:24: load i8 at 0x3000010 (event 582+0) = 25
done 592 0.1 ring.shared ring:ring_put:25: load i32 at 0x1000010 (ring:@ring+16) = 13
done 593 0.1 ring.shared ring:ring_put:28: store i8 25 at 0x100000d (ring:@ring+13)
done 594 0.1 ring.shared ring:ring_put:29: load i32 at 0x1000010 (ring:@ring+16) = 13
done 595 0.1 ring.shared ring:ring_put:32: store i32 14 at 0x1000010 (ring:@ring+16)
done 596 0.1 ring.shared ring:ring_put:33: store i32 0 at 0x300000c (event 581+0)
done 597 0.1 ring.shared ring:ring_put:37: load i32 at 0x300000c (event 581+0) = 0
done 598 0.1 ring.shared ring:ring_put:38: leaves 5 at 0x300000c
done 599 0.1 ring.shared ring:ring_take:58: alloca 4 at 0x300000c
done 600 0.1 ring.shared ring:ring_take:59: alloca 1 at 0x3000010
done 601 0.1 ring.shared ring:used:43: alloca 8 at 0x3000018
done 602 0.1 ring.shared ring:used:44: store i64 0x1000000 at 0x3000018 (event 601+0)
done 603 0.1 ring.shared ring:used:45: load i64 at 0x3000018 (event 601+0) = 0x1000000
done 604 0.1 ring.shared ring:used:47: load i32 at 0x1000010 (ring:@ring+16) = 14
done 605 0.1 ring.shared ring:used:48: load i64 at 0x3000018 (event 601+0) = 0x1000000
done 606 0.1 ring.shared ring:used:50: load i32 at 0x1000014 (ring:@ring+20) = 13
done 607 0.1 ring.shared ring:used:53: leaves 15 at 0x3000011
done 608 0.1 ring.shared ring:ring_take:69: load i32 at 0x1000014 (ring:@ring+20) = 13
done 609 0.1 ring.shared ring:ring_take:72: load i8 at 0x100000d (ring:@ring+13) = 25
done 610 0.1 ring.shared ring:ring_take:73: store i8 25 at 0x3000010 (event 600+0)
done 611 0.1 ring.shared ring:ring_take:74: load i32 at 0x1000014 (ring:@ring+20) = 13
done 612 0.1 ring.shared ring:ring_take:77: store i32 14 at 0x1000014 (ring:@ring+20)
done 613 0.1 ring.shared ring:ring_take:78: load i8 at 0x3000010 (event 600+0) = 25
done 614 0.1 ring.shared ring:ring_take:80: store i32 25 at 0x300000c (event 599+0)
done 615 0.1 ring.shared ring:ring_take:84: load i32 at 0x300000c (event 599+0) = 25
done 616 0.1 ring.shared ring:ring_take:85: leaves 5 at 0x300000c
done 617 0.1 ring.shared ring:ring_sum:111: load i32 at 0x3000004 (event 229+0) = 92
done 618 0.1 ring.shared ring:ring_sum:113: store i32 117 at 0x3000004 (event 229+0)
done 619 0.1 ring.shared ring:ring_sum:117: load i32 at 0x3000008 (event 230+0) = 8
done 620 0.1 ring.shared ring:ring_sum:119: store i32 9 at 0x3000008 (event 230+0)
done 621 0.1 ring.shared ring:ring_sum:99: load i32 at 0x3000008 (event 230+0) = 9
done 622 0.1 ring.shared ring:ring_sum:100: load i32 at 0x3000000 (event 228+0) = 40
done 623 0.1 ring.shared ring:ring_sum:105: load i32 at 0x3000008 (event 230+0) = 9
done 624 0.1 ring.shared ring:ring_put:12: alloca 4 at 0x300000c
done 625 0.1 ring.shared ring:ring_put:13: alloca 1 at 0x3000010
done 626 0.1 ring.shared ring:ring_put:14: store i8 28 at 0x3000010 (event 625+0)
done 627 0.1 ring.shared ring:used:43: alloca 8 at 0x3000018
done 628 0.1 ring.shared ring:used:44: store i64 0x1000000 at 0x3000018 (event 627+0)
done 629 0.1 ring.shared ring:used:45: load i64 at 0x3000018 (event 627+0) = 0x1000000
done 630 0.1 ring.shared ring:used:47: load i32 at 0x1000010 (ring:@ring+16) = 14
done 631 0.1 ring.shared ring:used:48: load i64 at 0x3000018 (event 627+0) = 0x1000000
done 632 0.1 ring.shared ring:used:50: load i32 at 0x1000014 (ring:@ring+20) = 14
done 633 0.1 ring.shared ring:used:53: leaves 15 at 0x3000011
done 634 0.1 ring.shared ring:ring_put:24: load i8 at 0x3000010 (event 625+0) = 28
done 635 0.1 ring.shared ring:ring_put:25: load i32 at 0x1000010 (ring:@ring+16) = 14
done 636 0.1 ring.shared ring:ring_put:28: store i8 28 at 0x100000e (ring:@ring+14)
done 637 0.1 ring.shared ring:ring_put:29: load i32 at 0x1000010 (ring:@ring+16) = 14
done 638 0.1 ring.shared ring:ring_put:32: store i32 15 at 0x1000010 (ring:@ring+16)
done 639 0.1 ring.shared ring:ring_put:33: store i32 0 at 0x300000c (event 624+0)
done 640 0.1 ring.shared ring:ring_put:37: load i32 at 0x300000c (event 624+0) = 0
done 641 0.1 ring.shared ring:ring_put:38: leaves 5 at 0x300000c
done 642 0.1 ring.shared ring:ring_take:58: alloca 4 at 0x300000c
done 643 0.1 ring.shared ring:ring_take:59: alloca 1 at 0x3000010
done 644 0.1 ring.shared ring:used:43: alloca 8 at 0x3000018
done 645 0.1 ring.shared ring:used:44: store i64 0x1000000 at 0x3000018 (event 644+0)
done 646 0.1 ring.shared ring:used:45: load i64 at 0x3000018 (event 644+0) = 0x1000000
done 647 0.1 ring.shared ring:used:47: load i32 at 0x1000010 (ring:@ring+16) = 15
done 648 0.1 ring.shared ring:used:48: load i64 at 0x3000018 (event 644+0) = 0x1000000
done 649 0.1 ring.shared ring:used:50: load i32 at 0x1000014 (ring:@ring+20) = 14
done 650 0.1 ring.shared ring:used:53: leaves 15 at 0x3000011
done 651 0.1 ring.shared ring:ring_take:69: load i32 at 0x1000014 (ring:@ring+20) = 14
done 652 0.1 ring.shared ring:ring_take:72: load i8 at 0x100000e (ring:@ring+14) = 28
done 653 0.1 ring.shared ring:ring_take:73: store i8 28 at 0x3000010 (event 643+0)
done 654 0.1 ring.shared ring:ring_take:74: load i32 at 0x1000014 (ring:@ring+20) = 14
done 655 0.1 ring.shared ring:ring_take:77: store i32 15 at 0x1000014 (ring:@ring+20)
done 656 0.1 ring.shared ring:ring_take:78: load i8 at 0x3000010 (event 643+0) = 28
done 657 0.1 ring.shared ring:ring_take:80: store i32 28 at 0x300000c (event 642+0)
done 658 0.1 ring.shared ring:ring_take:84: load i32 at 0x300000c (event 642+0) = 28
done 659 0.1 ring.shared ring:ring_take:85: leaves 5 at 0x300000c
done 660 0.1 ring.shared ring:ring_sum:111: load i32 at 0x3000004 (event 229+0) = 117
done 661 0.1 ring.shared ring:ring_sum:113: store i32 145 at 0x3000004 (event 229+0)
done 662 0.1 ring.shared ring:ring_sum:117: load i32 at 0x3000008 (event 230+0) = 9
done 663 0.1 ring.shared ring:ring_sum:119: store i32 10 at 0x3000008 (event 230+0)
done 664 0.1 ring.shared ring:ring_sum:99: load i32 at 0x3000008 (event 230+0) = 10
done 665 0.1 ring.shared ring:ring_sum:100: load i32 at 0x3000000 (event 228+0) = 40
done 666 0.1 ring.shared ring:ring_sum:105: load i32 at 0x3000008 (event 230+0) = 10
done 667 0.1 ring.shared ring:ring_put:12: alloca 4 at 0x300000c
done 668 0.1 ring.shared ring:ring_put:13: alloca 1 at 0x3000010
done 669 0.1 ring.shared ring:ring_put:14: store i8 31 at 0x3000010 (event 668+0)
done 670 0.1 ring.shared ring:used:43: alloca 8 at 0x3000018
done 671 0.1 ring.shared ring:used:44: store i64 0x1000000 at 0x3000018 (event 670+0)
done 672 0.1 ring.shared ring:used:45: load i64 at 0x3000018 (event 670+0) = 0x1000000
done 673 0.1 ring.shared ring:used:47: load i32 at 0x1000010 (ring:@ring+16) = 15
done 674 0.1 ring.shared ring:used:48: load i64 at 0x3000018 (event 670+0) = 0x1000000
done 675 0.1 ring.shared ring:used:50: load i32 at 0x1000014 (ring:@ring+20) = 15
done 676 0.1 ring.shared ring:used:53: leaves 15 at 0x3000011
done 677 0.1 ring.shared ring:ring_put:24: load i8 at 0x3000010 (event 668+0) = 31
done 678 0.1 ring.shared ring:ring_put:25: load i32 at 0x1000010 (ring:@ring+16) = 15
done 679 0.1 ring.shared ring:ring_put:28: store i8 31 at 0x100000f (ring:@ring+15)
done 680 0.1 ring.shared ring:ring_put:29: load i32 at 0x1000010 (ring:@ring+16) = 15
done 681 0.1 ring.shared ring:ring_put:32: store i32 0 at 0x1000010 (ring:@ring+16)
done 682 0.1 ring.shared ring:ring_put:33: store i32 0 at 0x300000c (event 667+0)
done 683 0.1 ring.shared ring:ring_put:37: load i32 at 0x300000c (event 667+0) = 0
done 684 0.1 ring.shared ring:ring_put:38: leaves 5 at 0x300000c
done 685 0.1 ring.shared ring:ring_take:58: alloca 4 at 0x300000c
done 686 0.1 ring.shared ring:ring_take:59: alloca 1 at 0x3000010
done 687 0.1 ring.shared ring:used:43: alloca 8 at 0x3000018
done 688 0.1 ring.shared ring:used:44: store i64 0x1000000 at 0x3000018 (event 687+0)
done 689 0.1 ring.shared ring:used:45: load i64 at 0x3000018 (event 687+0) = 0x1000000
done 690 0.1 ring.shared ring:used:47: load i32 at 0x1000010 (ring:@ring+16) = 0
done 691 0.1 ring.shared ring:used:48: load i64 at 0x3000018 (event 687+0) = 0x1000000
done 692 0.1 ring.shared ring:used:50: load i32 at 0x1000014 (ring:@ring+20) = 15
done 693 0.1 ring.shared ring:used:53: leaves 15 at 0x3000011
done 694 0.1 ring.shared ring:ring_take:69: load i32 at 0x1000014 (ring:@ring+20) = 15
done 695 0.1 ring.shared ring:ring_take:72: load i8 at 0x100000f (ring:@ring+15) = 31
done 696 0.1 ring.shared ring:ring_take:73: store i8 31 at 0x3000010 (event 686+0)
done 697 0.1 ring.shared ring:ring_take:74: load i32 at 0x1000014 (ring:@ring+20) = 15
done 698 0.1 ring.shared ring:ring_take:77: store i32 0 at 0x1000014 (ring:@ring+20)
done 699 0.1 ring.shared ring:ring_take:78: load i8 at 0x3000010 (event 686+0) = 31
done 700 0.1 ring.shared ring:ring_take:80: store i32 31 at 0x300000c (event 685+0)
done 701 0.1 ring.shared ring:ring_take:84: load i32 at 0x300000c (event 685+0) = 31
done 702 0.1 ring.shared ring:ring_take:85: leaves 5 at 0x300000c
done 703 0.1 ring.shared ring:ring_sum:111: load i32 at 0x3000004 (event 229+0) = 145
done 704 0.1 ring.shared ring:ring_sum:113: store i32 176 at 0x3000004 (event 229+0)
done 705 0.1 ring.shared ring:ring_sum:117: load i32 at 0x3000008 (event 230+0) = 10
done 706 0.1 ring.shared ring:ring_sum:119: store i32 11 at 0x3000008 (event 230+0)
done 707 0.1 ring.shared ring:ring_sum:99: load i32 at 0x3000008 (event 230+0) = 11
done 708 0.1 ring.shared ring:ring_sum:100: load i32 at 0x3000000 (event 228+0) = 40
done 709 0.1 ring.shared ring:ring_sum:105: load i32 at 0x3000008 (event 230+0) = 11
done 710 0.1 ring.shared ring:ring_put:12: alloca 4 at 0x300000c
done 711 0.1 ring.shared ring:ring_put:13: alloca 1 at 0x3000010
done 712 0.1 ring.shared ring:ring_put:14: store i8 34 at 0x3000010 (event 711+0)
done 713 0.1 ring.shared ring:used:43: alloca 8 at 0x3000018
done 714 0.1 ring.shared ring:used:44: store i64 0x1000000 at 0x3000018 (event 713+0)
done 715 0.1 ring.shared ring:used:45: load i64 at 0x3000018 (event 713+0) = 0x1000000
done 716 0.1 ring.shared ring:used:47: load i32 at 0x1000010 (ring:@ring+16) = 0
done 717 0.1 ring.shared ring:used:48: load i64 at 0x3000018 (event 713+0) = 0x1000000
done 718 0.1 ring.shared ring:used:50: load i32 at 0x1000014 (ring:@ring+20) = 0
done 719 0.1 ring.shared ring:used:53: leaves 15 at 0x3000011
done 720 0.1 ring.shared ring:ring_put:24: load i8 at 0x3000010 (event 711+0) = 34
done 721 0.1 ring.shared ring:ring_put:25: load i32 at 0x1000010 (ring:@ring+16) = 0
done 722 0.1 ring.shared ring:ring_put:28: store i8 34 at 0x1000000 (ring:@ring+0)
done 723 0.1 ring.shared ring:ring_put:29: load i32 at 0x1000010 (ring:@ring+16) = 0
done 724 0.1 ring.shared ring:ring_put:32: store i32 1 at 0x1000010 (ring:@ring+16)
done 725 0.1 ring.shared ring:ring_put:33: store i32 0 at 0x300000c (event 710+0)
done 726 0.1 ring.shared ring:ring_put:37: load i32 at 0x300000c (event 710+0) = 0
done 727 0.1 ring.shared ring:ring_put:38: leaves 5 at 0x300000c
done 728 0.1 ring.shared ring:ring_take:58: alloca 4 at 0x300000c
done 729 0.1 ring.shared ring:ring_take:59: alloca 1 at 0x3000010
done 730 0.1 ring.shared ring:used:43: alloca 8 at 0x3000018
done 731 0.1 ring.shared ring:used:44: store i64 0x1000000 at 0x3000018 (event 730+0)
done 732 0.1 ring.shared ring:used:45: load i64 at 0x3000018 (event 730+0) = 0x1000000
done 733 0.1 ring.shared ring:used:47: load i32 at 0x1000010 (ring:@ring+16) = 1
done 734 0.1 ring.shared ring:used:48: load i64 at 0x3000018 (event 730+0) = 0x1000000
done 735 0.1 ring.shared ring:used:50: load i32 at 0x1000014 (ring:@ring+20) = 0
done 736 0.1 ring.shared ring:used:53: leaves 15 at 0x3000011
done 737 0.1 ring.shared ring:ring_take:69: load i32 at 0x1000014 (ring:@ring+20) = 0
done 738 0.1 ring.shared ring:ring_take:72: load i8 at 0x1000000 (ring:@ring+0) = 34
"#
}
