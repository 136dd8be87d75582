//! Results of instructions, limits, natives and traps, event by event.
//! Written by `tools/example-texts` from `examples/` and `docs/MANUAL.md`.

/// Results of instructions, limits, natives and traps, event by event: what is run, over which files beside those of `file_table`, and what it writes.
pub fn machine_traces_table() -> &'static str {
    r#"---- file examples/manual/results.schedule
schedule 0*88
---- words examples/manual/results.case examples/manual/results.schedule
---- trace examples/manual/results.case
---- whole
status 1
done 0 0.0 kernel script: calls m:add(100, 100) enters m:add as m.shared
done 1 0.0 m.shared m:add:7: leaves 0 at 0x3000000
ends 2 0.0 kernel script: ends: returned -56
done 3 0.1 kernel script: calls m:add(127, 1) enters m:add as m.shared
done 4 0.1 m.shared m:add:7: leaves 0 at 0x3000000
ends 5 0.1 kernel script: ends: returned -128
done 6 0.2 kernel script: calls m:sdiv(-7, 2) enters m:sdiv as m.shared
done 7 0.2 m.shared m:sdiv:11: leaves 0 at 0x3000000
ends 8 0.2 kernel script: ends: returned -3
done 9 0.3 kernel script: calls m:srem(-7, 2) enters m:srem as m.shared
done 10 0.3 m.shared m:srem:15: leaves 0 at 0x3000000
ends 11 0.3 kernel script: ends: returned -1
done 12 0.4 kernel script: calls m:sdiv(7, 0) enters m:sdiv as m.shared
trap 13 0.4 kernel m:sdiv:10: ends: trap 2
done 14 0.5 kernel script: calls m:udiv(-7, 2) enters m:udiv as m.shared
done 15 0.5 m.shared m:udiv:19: leaves 0 at 0x3000000
ends 16 0.5 kernel script: ends: returned 2147483644
done 17 0.6 kernel script: calls m:shl(1, 31) enters m:shl as m.shared
done 18 0.6 m.shared m:shl:23: leaves 0 at 0x3000000
ends 19 0.6 kernel script: ends: returned -2147483648
done 20 0.7 kernel script: calls m:shl(1, 32) enters m:shl as m.shared
done 21 0.7 m.shared m:shl:23: leaves 0 at 0x3000000
ends 22 0.7 kernel script: ends: returned 0
done 23 0.8 kernel script: calls m:lshr(-1, 28) enters m:lshr as m.shared
done 24 0.8 m.shared m:lshr:27: leaves 0 at 0x3000000
ends 25 0.8 kernel script: ends: returned 15
done 26 0.9 kernel script: calls m:lshr(-1, 32) enters m:lshr as m.shared
done 27 0.9 m.shared m:lshr:27: leaves 0 at 0x3000000
ends 28 0.9 kernel script: ends: returned 0
done 29 0.10 kernel script: calls m:ashr(-8, 1) enters m:ashr as m.shared
done 30 0.10 m.shared m:ashr:31: leaves 0 at 0x3000000
ends 31 0.10 kernel script: ends: returned -4
done 32 0.11 kernel script: calls m:ashr(-8, 40) enters m:ashr as m.shared
done 33 0.11 m.shared m:ashr:31: leaves 0 at 0x3000000
ends 34 0.11 kernel script: ends: returned -1
done 35 0.12 kernel script: calls m:slt(-1, 1) enters m:slt as m.shared
done 36 0.12 m.shared m:slt:35: leaves 0 at 0x3000000
ends 37 0.12 kernel script: ends: returned 1
done 38 0.13 kernel script: calls m:ult(-1, 1) enters m:ult as m.shared
done 39 0.13 m.shared m:ult:39: leaves 0 at 0x3000000
ends 40 0.13 kernel script: ends: returned 0
done 41 0.14 kernel script: calls m:sext(-56) enters m:sext as m.shared
done 42 0.14 m.shared m:sext:43: leaves 0 at 0x3000000
ends 43 0.14 kernel script: ends: returned -56
done 44 0.15 kernel script: calls m:zext(-56) enters m:zext as m.shared
done 45 0.15 m.shared m:zext:47: leaves 0 at 0x3000000
ends 46 0.15 kernel script: ends: returned 200
done 47 0.16 kernel script: calls m:trunc(0x1ff) enters m:trunc as m.shared
done 48 0.16 m.shared m:trunc:51: leaves 0 at 0x3000000
ends 49 0.16 kernel script: ends: returned -1
done 50 0.17 kernel script: calls m:ptrtoint() enters m:ptrtoint as m.shared
done 51 0.17 m.shared m:ptrtoint:55: leaves 0 at 0x3000000
ends 52 0.17 kernel script: ends: returned 16
done 53 0.18 kernel script: calls m:inttoptr(-1) enters m:inttoptr as m.shared
done 54 0.18 m.shared m:inttoptr:59: leaves 0 at 0x3000000
ends 55 0.18 kernel script: ends: returned 0xff
done 56 0.19 kernel script: calls m:undefined() enters m:undefined as m.shared
done 57 0.19 m.shared m:undefined:63: leaves 0 at 0x3000000
ends 58 0.19 kernel script: ends: returned 0
done 59 0.20 kernel script: calls m:fresh() enters m:fresh as m.shared
done 60 0.20 m.shared m:fresh:66: alloca 8 at 0x3000000
done 61 0.20 m.shared m:fresh:67: load i64 at 0x3000000 (event 60+0) = 0x0
done 62 0.20 m.shared m:fresh:68: leaves 8 at 0x3000000
ends 63 0.20 kernel script: ends: returned 0
done 64 0.21 kernel script: calls m:lowest() enters m:lowest as m.shared
done 65 0.21 m.shared m:lowest:71: load i1 at 0x1000020 (m:@two+0) = 0
done 66 0.21 m.shared m:lowest:72: leaves 0 at 0x3000000
ends 67 0.21 kernel script: ends: returned 0
done 68 0.22 kernel script: calls m:overlap() enters m:overlap as m.shared
done 69 0.22 m.shared m:overlap:76: copy 6 from 0x1000000 (m:@bytes+0) to 0x1000002 (m:@bytes+2)
done 70 0.22 m.shared m:overlap:77: load i64 at 0x1000000 (m:@bytes+0) = 0x6665646362616261
done 71 0.22 m.shared m:overlap:78: leaves 0 at 0x3000000
ends 72 0.22 kernel script: ends: returned 7378413942531514977
done 73 0.23 kernel script: calls m:member(0x1) enters m:member as m.shared
done 74 0.23 m.shared m:member:82: leaves 0 at 0x3000000
ends 75 0.23 kernel script: ends: returned 0x100001c
done 76 0.24 kernel script: calls m:member(0xffffffffffffffff) enters m:member as m.shared
done 77 0.24 m.shared m:member:82: leaves 0 at 0x3000000
ends 78 0.24 kernel script: ends: returned 0x100000c
done 79 0.25 kernel script: calls m:choose(1) enters m:choose as m.shared
done 80 0.25 m.shared m:choose:95: leaves 0 at 0x3000000
ends 81 0.25 kernel script: ends: returned 10
done 82 0.26 kernel script: calls m:choose(2) enters m:choose as m.shared
done 83 0.26 m.shared m:choose:95: leaves 0 at 0x3000000
ends 84 0.26 kernel script: ends: returned 20
done 85 0.27 kernel script: calls m:choose(3) enters m:choose as m.shared
done 86 0.27 m.shared m:choose:95: leaves 0 at 0x3000000
ends 87 0.27 kernel script: ends: returned 3
---- file examples/manual/limits.schedule
schedule 0*269
---- words examples/manual/limits.case examples/manual/limits.schedule
---- trace examples/manual/limits.case
---- whole
status 1
done 0 0.0 kernel script: calls m:down(0xff) enters m:down as m.shared
done 1 0.0 m.shared m:down:10: leaves 0 at 0x3000000
done 2 0.0 m.shared m:down:8: leaves 0 at 0x3000000
done 3 0.0 m.shared m:down:8: leaves 0 at 0x3000000
done 4 0.0 m.shared m:down:8: leaves 0 at 0x3000000
done 5 0.0 m.shared m:down:8: leaves 0 at 0x3000000
done 6 0.0 m.shared m:down:8: leaves 0 at 0x3000000
done 7 0.0 m.shared m:down:8: leaves 0 at 0x3000000
done 8 0.0 m.shared m:down:8: leaves 0 at 0x3000000
done 9 0.0 m.shared m:down:8: leaves 0 at 0x3000000
done 10 0.0 m.shared m:down:8: leaves 0 at 0x3000000
done 11 0.0 m.shared m:down:8: leaves 0 at 0x3000000
done 12 0.0 m.shared m:down:8: leaves 0 at 0x3000000
done 13 0.0 m.shared m:down:8: leaves 0 at 0x3000000
done 14 0.0 m.shared m:down:8: leaves 0 at 0x3000000
done 15 0.0 m.shared m:down:8: leaves 0 at 0x3000000
done 16 0.0 m.shared m:down:8: leaves 0 at 0x3000000
done 17 0.0 m.shared m:down:8: leaves 0 at 0x3000000
done 18 0.0 m.shared m:down:8: leaves 0 at 0x3000000
done 19 0.0 m.shared m:down:8: leaves 0 at 0x3000000
done 20 0.0 m.shared m:down:8: leaves 0 at 0x3000000
done 21 0.0 m.shared m:down:8: leaves 0 at 0x3000000
done 22 0.0 m.shared m:down:8: leaves 0 at 0x3000000
done 23 0.0 m.shared m:down:8: leaves 0 at 0x3000000
done 24 0.0 m.shared m:down:8: leaves 0 at 0x3000000
done 25 0.0 m.shared m:down:8: leaves 0 at 0x3000000
done 26 0.0 m.shared m:down:8: leaves 0 at 0x3000000
done 27 0.0 m.shared m:down:8: leaves 0 at 0x3000000
done 28 0.0 m.shared m:down:8: leaves 0 at 0x3000000
done 29 0.0 m.shared m:down:8: leaves 0 at 0x3000000
done 30 0.0 m.shared m:down:8: leaves 0 at 0x3000000
done 31 0.0 m.shared m:down:8: leaves 0 at 0x3000000
done 32 0.0 m.shared m:down:8: leaves 0 at 0x3000000
done 33 0.0 m.shared m:down:8: leaves 0 at 0x3000000
done 34 0.0 m.shared m:down:8: leaves 0 at 0x3000000
done 35 0.0 m.shared m:down:8: leaves 0 at 0x3000000
done 36 0.0 m.shared m:down:8: leaves 0 at 0x3000000
done 37 0.0 m.shared m:down:8: leaves 0 at 0x3000000
done 38 0.0 m.shared m:down:8: leaves 0 at 0x3000000
done 39 0.0 m.shared m:down:8: leaves 0 at 0x3000000
done 40 0.0 m.shared m:down:8: leaves 0 at 0x3000000
done 41 0.0 m.shared m:down:8: leaves 0 at 0x3000000
done 42 0.0 m.shared m:down:8: leaves 0 at 0x3000000
done 43 0.0 m.shared m:down:8: leaves 0 at 0x3000000
done 44 0.0 m.shared m:down:8: leaves 0 at 0x3000000
done 45 0.0 m.shared m:down:8: leaves 0 at 0x3000000
done 46 0.0 m.shared m:down:8: leaves 0 at 0x3000000
done 47 0.0 m.shared m:down:8: leaves 0 at 0x3000000
done 48 0.0 m.shared m:down:8: leaves 0 at 0x3000000
done 49 0.0 m.shared m:down:8: leaves 0 at 0x3000000
done 50 0.0 m.shared m:down:8: leaves 0 at 0x3000000
done 51 0.0 m.shared m:down:8: leaves 0 at 0x3000000
done 52 0.0 m.shared m:down:8: leaves 0 at 0x3000000
done 53 0.0 m.shared m:down:8: leaves 0 at 0x3000000
done 54 0.0 m.shared m:down:8: leaves 0 at 0x3000000
done 55 0.0 m.shared m:down:8: leaves 0 at 0x3000000
done 56 0.0 m.shared m:down:8: leaves 0 at 0x3000000
done 57 0.0 m.shared m:down:8: leaves 0 at 0x3000000
done 58 0.0 m.shared m:down:8: leaves 0 at 0x3000000
done 59 0.0 m.shared m:down:8: leaves 0 at 0x3000000
done 60 0.0 m.shared m:down:8: leaves 0 at 0x3000000
done 61 0.0 m.shared m:down:8: leaves 0 at 0x3000000
done 62 0.0 m.shared m:down:8: leaves 0 at 0x3000000
done 63 0.0 m.shared m:down:8: leaves 0 at 0x3000000
done 64 0.0 m.shared m:down:8: leaves 0 at 0x3000000
done 65 0.0 m.shared m:down:8: leaves 0 at 0x3000000
done 66 0.0 m.shared m:down:8: leaves 0 at 0x3000000
done 67 0.0 m.shared m:down:8: leaves 0 at 0x3000000
done 68 0.0 m.shared m:down:8: leaves 0 at 0x3000000
done 69 0.0 m.shared m:down:8: leaves 0 at 0x3000000
done 70 0.0 m.shared m:down:8: leaves 0 at 0x3000000
done 71 0.0 m.shared m:down:8: leaves 0 at 0x3000000
done 72 0.0 m.shared m:down:8: leaves 0 at 0x3000000
done 73 0.0 m.shared m:down:8: leaves 0 at 0x3000000
done 74 0.0 m.shared m:down:8: leaves 0 at 0x3000000
done 75 0.0 m.shared m:down:8: leaves 0 at 0x3000000
done 76 0.0 m.shared m:down:8: leaves 0 at 0x3000000
done 77 0.0 m.shared m:down:8: leaves 0 at 0x3000000
done 78 0.0 m.shared m:down:8: leaves 0 at 0x3000000
done 79 0.0 m.shared m:down:8: leaves 0 at 0x3000000
done 80 0.0 m.shared m:down:8: leaves 0 at 0x3000000
done 81 0.0 m.shared m:down:8: leaves 0 at 0x3000000
done 82 0.0 m.shared m:down:8: leaves 0 at 0x3000000
done 83 0.0 m.shared m:down:8: leaves 0 at 0x3000000
done 84 0.0 m.shared m:down:8: leaves 0 at 0x3000000
done 85 0.0 m.shared m:down:8: leaves 0 at 0x3000000
done 86 0.0 m.shared m:down:8: leaves 0 at 0x3000000
done 87 0.0 m.shared m:down:8: leaves 0 at 0x3000000
done 88 0.0 m.shared m:down:8: leaves 0 at 0x3000000
done 89 0.0 m.shared m:down:8: leaves 0 at 0x3000000
done 90 0.0 m.shared m:down:8: leaves 0 at 0x3000000
done 91 0.0 m.shared m:down:8: leaves 0 at 0x3000000
done 92 0.0 m.shared m:down:8: leaves 0 at 0x3000000
done 93 0.0 m.shared m:down:8: leaves 0 at 0x3000000
done 94 0.0 m.shared m:down:8: leaves 0 at 0x3000000
done 95 0.0 m.shared m:down:8: leaves 0 at 0x3000000
done 96 0.0 m.shared m:down:8: leaves 0 at 0x3000000
done 97 0.0 m.shared m:down:8: leaves 0 at 0x3000000
done 98 0.0 m.shared m:down:8: leaves 0 at 0x3000000
done 99 0.0 m.shared m:down:8: leaves 0 at 0x3000000
done 100 0.0 m.shared m:down:8: leaves 0 at 0x3000000
done 101 0.0 m.shared m:down:8: leaves 0 at 0x3000000
done 102 0.0 m.shared m:down:8: leaves 0 at 0x3000000
done 103 0.0 m.shared m:down:8: leaves 0 at 0x3000000
done 104 0.0 m.shared m:down:8: leaves 0 at 0x3000000
done 105 0.0 m.shared m:down:8: leaves 0 at 0x3000000
done 106 0.0 m.shared m:down:8: leaves 0 at 0x3000000
done 107 0.0 m.shared m:down:8: leaves 0 at 0x3000000
done 108 0.0 m.shared m:down:8: leaves 0 at 0x3000000
done 109 0.0 m.shared m:down:8: leaves 0 at 0x3000000
done 110 0.0 m.shared m:down:8: leaves 0 at 0x3000000
done 111 0.0 m.shared m:down:8: leaves 0 at 0x3000000
done 112 0.0 m.shared m:down:8: leaves 0 at 0x3000000
done 113 0.0 m.shared m:down:8: leaves 0 at 0x3000000
done 114 0.0 m.shared m:down:8: leaves 0 at 0x3000000
done 115 0.0 m.shared m:down:8: leaves 0 at 0x3000000
done 116 0.0 m.shared m:down:8: leaves 0 at 0x3000000
done 117 0.0 m.shared m:down:8: leaves 0 at 0x3000000
done 118 0.0 m.shared m:down:8: leaves 0 at 0x3000000
done 119 0.0 m.shared m:down:8: leaves 0 at 0x3000000
done 120 0.0 m.shared m:down:8: leaves 0 at 0x3000000
done 121 0.0 m.shared m:down:8: leaves 0 at 0x3000000
done 122 0.0 m.shared m:down:8: leaves 0 at 0x3000000
done 123 0.0 m.shared m:down:8: leaves 0 at 0x3000000
done 124 0.0 m.shared m:down:8: leaves 0 at 0x3000000
done 125 0.0 m.shared m:down:8: leaves 0 at 0x3000000
done 126 0.0 m.shared m:down:8: leaves 0 at 0x3000000
done 127 0.0 m.shared m:down:8: leaves 0 at 0x3000000
done 128 0.0 m.shared m:down:8: leaves 0 at 0x3000000
done 129 0.0 m.shared m:down:8: leaves 0 at 0x3000000
done 130 0.0 m.shared m:down:8: leaves 0 at 0x3000000
done 131 0.0 m.shared m:down:8: leaves 0 at 0x3000000
done 132 0.0 m.shared m:down:8: leaves 0 at 0x3000000
done 133 0.0 m.shared m:down:8: leaves 0 at 0x3000000
done 134 0.0 m.shared m:down:8: leaves 0 at 0x3000000
done 135 0.0 m.shared m:down:8: leaves 0 at 0x3000000
done 136 0.0 m.shared m:down:8: leaves 0 at 0x3000000
done 137 0.0 m.shared m:down:8: leaves 0 at 0x3000000
done 138 0.0 m.shared m:down:8: leaves 0 at 0x3000000
done 139 0.0 m.shared m:down:8: leaves 0 at 0x3000000
done 140 0.0 m.shared m:down:8: leaves 0 at 0x3000000
done 141 0.0 m.shared m:down:8: leaves 0 at 0x3000000
done 142 0.0 m.shared m:down:8: leaves 0 at 0x3000000
done 143 0.0 m.shared m:down:8: leaves 0 at 0x3000000
done 144 0.0 m.shared m:down:8: leaves 0 at 0x3000000
done 145 0.0 m.shared m:down:8: leaves 0 at 0x3000000
done 146 0.0 m.shared m:down:8: leaves 0 at 0x3000000
done 147 0.0 m.shared m:down:8: leaves 0 at 0x3000000
done 148 0.0 m.shared m:down:8: leaves 0 at 0x3000000
done 149 0.0 m.shared m:down:8: leaves 0 at 0x3000000
done 150 0.0 m.shared m:down:8: leaves 0 at 0x3000000
done 151 0.0 m.shared m:down:8: leaves 0 at 0x3000000
done 152 0.0 m.shared m:down:8: leaves 0 at 0x3000000
done 153 0.0 m.shared m:down:8: leaves 0 at 0x3000000
done 154 0.0 m.shared m:down:8: leaves 0 at 0x3000000
done 155 0.0 m.shared m:down:8: leaves 0 at 0x3000000
done 156 0.0 m.shared m:down:8: leaves 0 at 0x3000000
done 157 0.0 m.shared m:down:8: leaves 0 at 0x3000000
done 158 0.0 m.shared m:down:8: leaves 0 at 0x3000000
done 159 0.0 m.shared m:down:8: leaves 0 at 0x3000000
done 160 0.0 m.shared m:down:8: leaves 0 at 0x3000000
done 161 0.0 m.shared m:down:8: leaves 0 at 0x3000000
done 162 0.0 m.shared m:down:8: leaves 0 at 0x3000000
done 163 0.0 m.shared m:down:8: leaves 0 at 0x3000000
done 164 0.0 m.shared m:down:8: leaves 0 at 0x3000000
done 165 0.0 m.shared m:down:8: leaves 0 at 0x3000000
done 166 0.0 m.shared m:down:8: leaves 0 at 0x3000000
done 167 0.0 m.shared m:down:8: leaves 0 at 0x3000000
done 168 0.0 m.shared m:down:8: leaves 0 at 0x3000000
done 169 0.0 m.shared m:down:8: leaves 0 at 0x3000000
done 170 0.0 m.shared m:down:8: leaves 0 at 0x3000000
done 171 0.0 m.shared m:down:8: leaves 0 at 0x3000000
done 172 0.0 m.shared m:down:8: leaves 0 at 0x3000000
done 173 0.0 m.shared m:down:8: leaves 0 at 0x3000000
done 174 0.0 m.shared m:down:8: leaves 0 at 0x3000000
done 175 0.0 m.shared m:down:8: leaves 0 at 0x3000000
done 176 0.0 m.shared m:down:8: leaves 0 at 0x3000000
done 177 0.0 m.shared m:down:8: leaves 0 at 0x3000000
done 178 0.0 m.shared m:down:8: leaves 0 at 0x3000000
done 179 0.0 m.shared m:down:8: leaves 0 at 0x3000000
done 180 0.0 m.shared m:down:8: leaves 0 at 0x3000000
done 181 0.0 m.shared m:down:8: leaves 0 at 0x3000000
done 182 0.0 m.shared m:down:8: leaves 0 at 0x3000000
done 183 0.0 m.shared m:down:8: leaves 0 at 0x3000000
done 184 0.0 m.shared m:down:8: leaves 0 at 0x3000000
done 185 0.0 m.shared m:down:8: leaves 0 at 0x3000000
done 186 0.0 m.shared m:down:8: leaves 0 at 0x3000000
done 187 0.0 m.shared m:down:8: leaves 0 at 0x3000000
done 188 0.0 m.shared m:down:8: leaves 0 at 0x3000000
done 189 0.0 m.shared m:down:8: leaves 0 at 0x3000000
done 190 0.0 m.shared m:down:8: leaves 0 at 0x3000000
done 191 0.0 m.shared m:down:8: leaves 0 at 0x3000000
done 192 0.0 m.shared m:down:8: leaves 0 at 0x3000000
done 193 0.0 m.shared m:down:8: leaves 0 at 0x3000000
done 194 0.0 m.shared m:down:8: leaves 0 at 0x3000000
done 195 0.0 m.shared m:down:8: leaves 0 at 0x3000000
done 196 0.0 m.shared m:down:8: leaves 0 at 0x3000000
done 197 0.0 m.shared m:down:8: leaves 0 at 0x3000000
done 198 0.0 m.shared m:down:8: leaves 0 at 0x3000000
done 199 0.0 m.shared m:down:8: leaves 0 at 0x3000000
done 200 0.0 m.shared m:down:8: leaves 0 at 0x3000000
done 201 0.0 m.shared m:down:8: leaves 0 at 0x3000000
done 202 0.0 m.shared m:down:8: leaves 0 at 0x3000000
done 203 0.0 m.shared m:down:8: leaves 0 at 0x3000000
done 204 0.0 m.shared m:down:8: leaves 0 at 0x3000000
done 205 0.0 m.shared m:down:8: leaves 0 at 0x3000000
done 206 0.0 m.shared m:down:8: leaves 0 at 0x3000000
done 207 0.0 m.shared m:down:8: leaves 0 at 0x3000000
done 208 0.0 m.shared m:down:8: leaves 0 at 0x3000000
done 209 0.0 m.shared m:down:8: leaves 0 at 0x3000000
done 210 0.0 m.shared m:down:8: leaves 0 at 0x3000000
done 211 0.0 m.shared m:down:8: leaves 0 at 0x3000000
done 212 0.0 m.shared m:down:8: leaves 0 at 0x3000000
done 213 0.0 m.shared m:down:8: leaves 0 at 0x3000000
done 214 0.0 m.shared m:down:8: leaves 0 at 0x3000000
done 215 0.0 m.shared m:down:8: leaves 0 at 0x3000000
done 216 0.0 m.shared m:down:8: leaves 0 at 0x3000000
done 217 0.0 m.shared m:down:8: leaves 0 at 0x3000000
done 218 0.0 m.shared m:down:8: leaves 0 at 0x3000000
done 219 0.0 m.shared m:down:8: leaves 0 at 0x3000000
done 220 0.0 m.shared m:down:8: leaves 0 at 0x3000000
done 221 0.0 m.shared m:down:8: leaves 0 at 0x3000000
done 222 0.0 m.shared m:down:8: leaves 0 at 0x3000000
done 223 0.0 m.shared m:down:8: leaves 0 at 0x3000000
done 224 0.0 m.shared m:down:8: leaves 0 at 0x3000000
done 225 0.0 m.shared m:down:8: leaves 0 at 0x3000000
done 226 0.0 m.shared m:down:8: leaves 0 at 0x3000000
done 227 0.0 m.shared m:down:8: leaves 0 at 0x3000000
done 228 0.0 m.shared m:down:8: leaves 0 at 0x3000000
done 229 0.0 m.shared m:down:8: leaves 0 at 0x3000000
done 230 0.0 m.shared m:down:8: leaves 0 at 0x3000000
done 231 0.0 m.shared m:down:8: leaves 0 at 0x3000000
done 232 0.0 m.shared m:down:8: leaves 0 at 0x3000000
done 233 0.0 m.shared m:down:8: leaves 0 at 0x3000000
done 234 0.0 m.shared m:down:8: leaves 0 at 0x3000000
done 235 0.0 m.shared m:down:8: leaves 0 at 0x3000000
done 236 0.0 m.shared m:down:8: leaves 0 at 0x3000000
done 237 0.0 m.shared m:down:8: leaves 0 at 0x3000000
done 238 0.0 m.shared m:down:8: leaves 0 at 0x3000000
done 239 0.0 m.shared m:down:8: leaves 0 at 0x3000000
done 240 0.0 m.shared m:down:8: leaves 0 at 0x3000000
done 241 0.0 m.shared m:down:8: leaves 0 at 0x3000000
done 242 0.0 m.shared m:down:8: leaves 0 at 0x3000000
done 243 0.0 m.shared m:down:8: leaves 0 at 0x3000000
done 244 0.0 m.shared m:down:8: leaves 0 at 0x3000000
done 245 0.0 m.shared m:down:8: leaves 0 at 0x3000000
done 246 0.0 m.shared m:down:8: leaves 0 at 0x3000000
done 247 0.0 m.shared m:down:8: leaves 0 at 0x3000000
done 248 0.0 m.shared m:down:8: leaves 0 at 0x3000000
done 249 0.0 m.shared m:down:8: leaves 0 at 0x3000000
done 250 0.0 m.shared m:down:8: leaves 0 at 0x3000000
done 251 0.0 m.shared m:down:8: leaves 0 at 0x3000000
done 252 0.0 m.shared m:down:8: leaves 0 at 0x3000000
done 253 0.0 m.shared m:down:8: leaves 0 at 0x3000000
done 254 0.0 m.shared m:down:8: leaves 0 at 0x3000000
done 255 0.0 m.shared m:down:8: leaves 0 at 0x3000000
done 256 0.0 m.shared m:down:8: leaves 0 at 0x3000000
ends 257 0.0 kernel script: ends: returned 255
done 258 0.1 kernel script: calls m:down(0x100) enters m:down as m.shared
trap 259 0.1 kernel m:down:6: ends: trap 5
done 260 0.2 kernel script: calls m:large(0x1) enters m:large as m.shared
done 261 0.2 m.shared m:large:13: alloca 65536 at 0x3000000
done 262 0.2 m.shared m:large:20: leaves 65536 at 0x3000000
ends 263 0.2 kernel script: ends: returned
done 264 0.3 kernel script: calls m:large(0x2) enters m:large as m.shared
done 265 0.3 m.shared m:large:13: alloca 65536 at 0x3000000
trap 266 0.3 m.shared m:large:17: alloca 1 at 0x3010000: trap 4
done 267 0.4 kernel script: calls m:loop() enters m:loop as m.shared
ends 268 0.4 kernel m:loop:25: ends: budget
---- file examples/manual/natives.schedule
schedule 0*50
---- words examples/manual/natives.case examples/manual/natives.schedule
---- trace examples/manual/natives.case
---- whole
status 1
done 0 0.0 kernel script: calls kernel:alloc(0x1) enters kernel:alloc as kernel
done 1 0.0 kernel kernel:alloc:8: calls k.alloc(0x1) = 0x2000000
done 2 0.0 kernel kernel:alloc:9: leaves 0 at 0x3000000
ends 3 0.0 kernel script: ends: returned 0x2000000
done 4 0.1 kernel script: calls kernel:alloc(0x14) enters kernel:alloc as kernel
done 5 0.1 kernel kernel:alloc:8: calls k.alloc(0x14) = 0x2000010
done 6 0.1 kernel kernel:alloc:9: leaves 0 at 0x3000000
ends 7 0.1 kernel script: ends: returned 0x2000010
done 8 0.2 kernel script: calls kernel:alloc(0x0) enters kernel:alloc as kernel
done 9 0.2 kernel kernel:alloc:8: calls k.alloc(0x0) = 0x0
done 10 0.2 kernel kernel:alloc:9: leaves 0 at 0x3000000
ends 11 0.2 kernel script: ends: returned 0x0
done 12 0.3 kernel script: calls kernel:alloc(0x100001) enters kernel:alloc as kernel
done 13 0.3 kernel kernel:alloc:8: calls k.alloc(0x100001) = 0x0
done 14 0.3 kernel kernel:alloc:9: leaves 0 at 0x3000000
ends 15 0.3 kernel script: ends: returned 0x0
done 16 0.4 kernel script: calls kernel:free(0x2000000) enters kernel:free as kernel
done 17 0.4 kernel kernel:free:12: calls k.free(0x2000000)
done 18 0.4 kernel kernel:free:13: leaves 0 at 0x3000000
ends 19 0.4 kernel script: ends: returned
done 20 0.5 kernel script: calls kernel:alloc(0x10) enters kernel:alloc as kernel
done 21 0.5 kernel kernel:alloc:8: calls k.alloc(0x10) = 0x2000000
done 22 0.5 kernel kernel:alloc:9: leaves 0 at 0x3000000
ends 23 0.5 kernel script: ends: returned 0x2000000
done 24 0.6 kernel script: calls kernel:free(0x2000000) enters kernel:free as kernel
done 25 0.6 kernel kernel:free:12: calls k.free(0x2000000)
done 26 0.6 kernel kernel:free:13: leaves 0 at 0x3000000
ends 27 0.6 kernel script: ends: returned
done 28 0.7 kernel script: calls kernel:free(0x2000000) enters kernel:free as kernel
trap 29 0.7 kernel kernel:free:12: calls k.free(0x2000000): trap 7 0x2000000
done 30 0.8 kernel script: calls kernel:lock() enters kernel:lock as kernel
done 31 0.8 kernel kernel:lock:16: calls k.try_lock(0x1000000) = 1
done 32 0.8 kernel kernel:lock:17: leaves 0 at 0x3000000
ends 33 0.8 kernel script: ends: returned 1
done 34 0.9 kernel script: calls kernel:lock() enters kernel:lock as kernel
done 35 0.9 kernel kernel:lock:16: calls k.try_lock(0x1000000) = 0
done 36 0.9 kernel kernel:lock:17: leaves 0 at 0x3000000
ends 37 0.9 kernel script: ends: returned 0
done 38 0.10 kernel script: calls kernel:zero(0x1000000, 0x4) enters kernel:zero as kernel
done 39 0.10 kernel kernel:zero:20: calls k.zero(0x1000000, 0x4)
done 40 0.10 kernel kernel:zero:21: leaves 0 at 0x3000000
ends 41 0.10 kernel script: ends: returned
done 42 0.11 kernel script: calls kernel:lock() enters kernel:lock as kernel
done 43 0.11 kernel kernel:lock:16: calls k.try_lock(0x1000000) = 1
done 44 0.11 kernel kernel:lock:17: leaves 0 at 0x3000000
ends 45 0.11 kernel script: ends: returned 1
done 46 0.12 kernel script: calls kernel:note(0xfffffffffffffffd) enters kernel:note as kernel
done 47 0.12 kernel kernel:note:24: calls k.note(0xfffffffffffffffd)
done 48 0.12 kernel kernel:note:25: leaves 0 at 0x3000000
ends 49 0.12 kernel script: ends: returned
---- file examples/manual/traps.schedule
schedule 0*31
---- words examples/manual/traps.case examples/manual/traps.schedule
---- trace examples/manual/traps.case
---- whole
status 1
done 0 0.0 kernel script: calls m:read(0x0) enters m:read as m.shared
trap 1 0.0 m.shared m:read:3: load i64 at 0x0: trap 1 0x0
done 2 0.1 kernel script: calls m:read(0x10ffffc) enters m:read as m.shared
trap 3 0.1 m.shared m:read:3: load i64 at 0x10ffffc: trap 1 0x1100000
done 4 0.2 kernel script: calls m:div(7, 0) enters m:div as m.shared
trap 5 0.2 kernel m:div:7: ends: trap 2
done 6 0.3 kernel script: calls m:div(-2147483648, -1) enters m:div as m.shared
trap 7 0.3 kernel m:div:7: ends: trap 2
done 8 0.4 kernel script: calls m:never() enters m:never as m.shared
trap 9 0.4 kernel m:never:11: ends: trap 3
done 10 0.5 kernel script: calls m:large() enters m:large as m.shared
trap 11 0.5 m.shared m:large:14: alloca 65537 at 0x3000000: trap 4
done 12 0.6 kernel script: calls m:deep() enters m:deep as m.shared
trap 13 0.6 kernel m:deep:18: ends: trap 5
done 14 0.7 kernel script: calls m:narrow(0x10180) enters m:narrow as m.shared
trap 15 0.7 m.shared m:narrow:25: calls 0x10180 (m:id)(1): trap 6 0x10180
done 16 0.8 kernel script: calls kernel:kmalloc(0x8) enters kernel:kmalloc as kernel
done 17 0.8 kernel kernel:kmalloc:20: calls k.alloc(0x18) = 0x2000000
done 18 0.8 kernel kernel:kmalloc:24: store i64 0x8 at 0x2000000 (event 17+0)
done 19 0.8 kernel kernel:kmalloc:26: leaves 0 at 0x3000000
ends 20 0.8 kernel script: ends: returned 0x2000010
done 21 0.9 kernel script: calls kernel:kfree(0x2000010) enters kernel:kfree as kernel
done 22 0.9 kernel kernel:kfree:47: calls k.free(0x2000000)
done 23 0.9 kernel kernel:kfree:50: leaves 0 at 0x3000000
ends 24 0.9 kernel script: ends: returned
done 25 0.10 kernel script: calls kernel:kfree(0x2000010) enters kernel:kfree as kernel
trap 26 0.10 kernel kernel:kfree:47: calls k.free(0x2000000): trap 7 0x2000000
done 27 0.11 kernel script: calls kernel:dev_zero(0x10ffff8, 0x10) enters kernel:dev_zero as kernel
trap 28 0.11 kernel kernel:dev_zero:84: calls k.zero(0x10ffff8, 0x10): trap 1 0x1100000
done 29 0.12 kernel script: calls m:deep() enters m:deep as m.shared
ends 30 0.12 kernel m:deep:18: ends: budget
"#
}
