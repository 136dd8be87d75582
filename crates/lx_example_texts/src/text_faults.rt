//! Cases, schedules and interfaces with a fault, as the manual's tables show them.
//! Written by `tools/example-texts` from `examples/` and `docs/MANUAL.md`.

/// Cases, schedules and interfaces with a fault, as the manual's tables show them: what is run, over which files beside those of `file_table`, and what it writes.
pub fn text_faults_table() -> &'static str {
    r#"---- file x.case
lxfi case 1
# für
---- words run x.case
---- x.case:2: case 1 0xc3
---- whole
status 3
x.case:2: case 1 0xc3
---- file x.case
lxfi case 2
---- words run x.case
---- x.case:1: case 2 2
---- whole
status 3
x.case:1: case 2 2
---- file x.case
lxfi case 1
kernel nothing
---- words run x.case
---- x.case:2: case 2 nothing
---- whole
status 3
x.case:2: case 2 nothing
---- file x.case
lxfi case 1

kernel
---- words run x.case
---- x.case:3: case 2 end
---- whole
status 3
x.case:3: case 2 end
---- file x.case
lxfi case 1
kernel none

---- words run x.case
---- x.case:2: case 2 end
---- whole
status 3
x.case:2: case 2 end
---- file x.case

---- words run x.case
---- x.case:1: case 2 end
---- whole
status 3
x.case:1: case 2 end
---- file x.case
lxfi case 1
kernel none
interface none
module kernel f
---- words run x.case
---- x.case:4: case 2 kernel
---- whole
status 3
x.case:4: case 2 kernel
---- file x.case
lxfi case 1
kernel none
interface none
module Nic f
---- words run x.case
---- x.case:4: case 2 Nic
---- whole
status 3
x.case:4: case 2 Nic
---- file x.case
lxfi case 1
kernel none
interface none
call
---- words run x.case
---- x.case:4: case 2 call
---- whole
status 3
x.case:4: case 2 call
---- file x.case
lxfi case 1
kernel none
interface none
thread
module m f
---- words run x.case
---- x.case:5: case 2 module
---- whole
status 3
x.case:5: case 2 module
---- file x.case
lxfi case 1
kernel none
interface none
thread
call kernel:f fuel 0x10
---- words run x.case
---- x.case:5: case 2 0x10
---- whole
status 3
x.case:5: case 2 0x10
---- file x.case
lxfi case 1
kernel none
interface none
thread
call kernel:f 1.5 fuel 9
---- words run x.case
---- x.case:5: case 2 1.5
---- whole
status 3
x.case:5: case 2 1.5
---- file x.case
lxfi case 1
kernel none
interface none
thread
call m:f fuel x
---- words run x.case
---- x.case:5: case 3 m
---- whole
status 3
x.case:5: case 3 m
---- file x.case
lxfi case 1
kernel none
interface none
thread
call kernel:f &m:g fuel 9
---- words run x.case
---- x.case:5: case 3 m
---- whole
status 3
x.case:5: case 3 m
---- file x.case
lxfi case 1
kernel none
interface none
module m f
module m
---- words run x.case
---- x.case:5: case 4 m
---- whole
status 3
x.case:5: case 4 m
---- file x.case
lxfi case 1
kernel none
interface none
thread
call kernel:f fuel 1048577
---- words run x.case
---- x.case:5: case 5 1048577
---- whole
status 3
x.case:5: case 5 1048577
---- file x.case
lxfi case 1
kernel none
interface none
thread
call kernel:f -9223372036854775809 fuel 9
---- words run x.case
---- x.case:5: case 5 -9223372036854775809
---- whole
status 3
x.case:5: case 5 -9223372036854775809
---- file x.case
lxfi case 1
kernel none
interface none
module m1 f
module m2 f
module m3 f
module m4 f
module m5 f
module m6 f
module m7 f
module m8 f
module m9 f
module m10 f
module m11 f
module m12 f
module m13 f
module m14 f
module m15 f
module m16 f
module m17 f
module m18 f
module m19 f
module m20 f
module m21 f
module m22 f
module m23 f
module m24 f
module m25 f
module m26 f
module m27 f
module m28 f
module m29 f
module m30 f
module m31 f
module m32 f
module m33 f
module m34 f
module m35 f
module m36 f
module m37 f
module m38 f
module m39 f
module m40 f
module m41 f
module m42 f
module m43 f
module m44 f
module m45 f
module m46 f
module m47 f
module m48 f
module m49 f
module m50 f
module m51 f
module m52 f
module m53 f
module m54 f
module m55 f
module m56 f
module m57 f
module m58 f
module m59 f
module m60 f
module m61 f
module m62 f
module m63 f
module m64 f
module m65 f
---- words run x.case
---- x.case:68: case 6 modules
---- whole
status 3
x.case:68: case 6 modules
---- file x.case
lxfi case 1
kernel none
interface none
thread
thread
thread
thread
thread
thread
thread
thread
thread
thread
thread
thread
thread
thread
thread
thread
thread
---- words run x.case
---- x.case:20: case 6 threads
---- whole
status 3
x.case:20: case 6 threads
---- file x.case
lxfi case 1
kernel none
interface none
thread
call kernel:f fuel 1048576
thread
call kernel:f fuel 1
---- words run x.case
---- x.case:7: case 6 fuel
---- whole
status 3
x.case:7: case 6 fuel
---- file x.case
lxfi case 1
kernel none
interface none
---- file x.txt
0*1 ü
---- words replay x.case x.txt
---- x.txt:1: schedule 1 0xc3
---- whole
status 3
x.txt:1: schedule 1 0xc3
---- file x.txt
0*1 schedule
---- words replay x.case x.txt
---- x.txt:1: schedule 2 schedule
---- whole
status 3
x.txt:1: schedule 2 schedule
---- file x.txt
0*1*1
---- words replay x.case x.txt
---- x.txt:1: schedule 2 0*1*1
---- whole
status 3
x.txt:1: schedule 2 0*1*1
---- file x.txt
# the first run
0*5
---- words replay x.case x.txt
---- x.txt:1: schedule 2 #
---- whole
status 3
x.txt:1: schedule 2 #
---- file x.txt
7*00
---- words replay x.case x.txt
---- x.txt:1: schedule 5 00
---- whole
status 3
x.txt:1: schedule 5 00
---- file x.txt
4294967296*0
---- words replay x.case x.txt
---- x.txt:1: schedule 5 4294967296
---- whole
status 3
x.txt:1: schedule 5 4294967296
---- file x.txt
0*1052673
---- words replay x.case x.txt
---- x.txt:1: schedule 6 entries
---- whole
status 3
x.txt:1: schedule 6 entries
---- file x.case
lxfi case 1
kernel none
interface file i.txt
---- file i.txt
interface 1
reftype a
"b"
---- words run x.case
---- i.txt:3: interface 1 0x22
---- whole
status 3
i.txt:3: interface 1 0x22
---- file i.txt
interface 1
export f : void (ptr p) pre(check(call, p % 2))
---- words run x.case
---- i.txt:2: interface 1 0x25
---- whole
status 3
i.txt:2: interface 1 0x25
---- file i.txt
interface 1
export f : void (ptr p) pre(check(call, p = 1))
---- words run x.case
---- i.txt:2: interface 1 0x3d
---- whole
status 3
i.txt:2: interface 1 0x3d
---- file i.txt
interface 01
---- words run x.case
---- i.txt:1: interface 2 01
---- whole
status 3
i.txt:1: interface 2 01
---- file i.txt
interface 1
slot s : int ()
---- words run x.case
---- i.txt:2: interface 2 int
---- whole
status 3
i.txt:2: interface 2 int
---- file i.txt
interface 1
slot s : i32 (ptr p) principal(p) principal(p)
---- words run x.case
---- i.txt:2: interface 2 principal
---- whole
status 3
i.txt:2: interface 2 principal
---- file i.txt
interface 1
export f : i32 (ptr p) pre(lend(call, p))
---- words run x.case
---- i.txt:2: interface 2 lend
---- whole
status 3
i.txt:2: interface 2 lend
---- file i.txt
interface 2
export f : i32 (ptr p) post(lend(call, p))
---- words run x.case
---- i.txt:2: interface 2 lend
---- whole
status 3
i.txt:2: interface 2 lend
---- file i.txt
interface 1
slot s : i32 (ptr global)
---- words run x.case
---- i.txt:2: interface 2 global
---- whole
status 3
i.txt:2: interface 2 global
---- file i.txt
interface 1
export f : void (ptr p) pre(check(call, 9223372036854775808))
---- words run x.case
---- i.txt:2: interface 2 9223372036854775808
---- whole
status 3
i.txt:2: interface 2 9223372036854775808
---- file i.txt
interface 1
slot s : i32 ()
field %t 4294967296 : s
---- words run x.case
---- i.txt:3: interface 2 4294967296
---- whole
status 3
i.txt:3: interface 2 4294967296
---- file i.txt
interface 1
iterator a(p) { call p; }
---- words run x.case
---- i.txt:2: interface 2 }
---- whole
status 3
i.txt:2: interface 2 }
---- file i.txt
interface 1
field %t 0 : s
---- words run x.case
---- i.txt:2: interface 3 s
---- whole
status 3
i.txt:2: interface 3 s
---- file i.txt
interface 1
export f : void (ptr p) pre(check(ref(d), p))
---- words run x.case
---- i.txt:2: interface 3 d
---- whole
status 3
i.txt:2: interface 3 d
---- file i.txt
interface 1
export f : void (ptr p) pre(check(call, q))
---- words run x.case
---- i.txt:2: interface 3 q
---- whole
status 3
i.txt:2: interface 3 q
---- file i.txt
interface 1
export f : i32 (ptr p) pre(check(call, return))
---- words run x.case
---- i.txt:2: interface 3 return
---- whole
status 3
i.txt:2: interface 3 return
---- file i.txt
interface 1
reftype a reftype
b reftype a
---- words run x.case
---- i.txt:3: interface 4 a
---- whole
status 3
i.txt:3: interface 4 a
---- file i.txt
interface 1
slot s : i32 (ptr p, i8 p)
---- words run x.case
---- i.txt:2: interface 4 p
---- whole
status 3
i.txt:2: interface 4 p
---- file i.txt
interface 1
slot s : i32 ()
field %t 0 : s
field %t 0 : s
---- words run x.case
---- i.txt:4: interface 4 %t
---- whole
status 3
i.txt:4: interface 4 %t
---- file i.txt
interface 1
export f : void (ptr p) pre(copy(write, p))
---- words run x.case
---- i.txt:2: interface 5 write
---- whole
status 3
i.txt:2: interface 5 write
---- file i.txt
lxfi_c 1
int f(void); # x
---- words run x.case
---- i.txt:2: cproto 1 0x23
---- whole
status 3
i.txt:2: cproto 1 0x23
---- file i.txt
lxfi_c 1
int f(void); /* x
---- words run x.case
---- i.txt:2: cproto 1 0x2f
---- whole
status 3
i.txt:2: cproto 1 0x2f
---- file i.txt
lxfi_c 1
void f(char a[4]);
---- words run x.case
---- i.txt:2: cproto 1 0x5b
---- whole
status 3
i.txt:2: cproto 1 0x5b
---- file i.txt
lxfi_c 1
int f(void)
---- words run x.case
---- i.txt:2: cproto 2 end
---- whole
status 3
i.txt:2: cproto 2 end
---- file i.txt
lxfi_c 1
int f(int);
---- words run x.case
---- i.txt:2: cproto 2 )
---- whole
status 3
i.txt:2: cproto 2 )
---- file i.txt
lxfi_c 1
int f();
---- words run x.case
---- i.txt:2: cproto 2 )
---- whole
status 3
i.txt:2: cproto 2 )
---- file i.txt
lxfi_c 1
int f(int shared);
---- words run x.case
---- i.txt:2: cproto 2 shared
---- whole
status 3
i.txt:2: cproto 2 shared
---- file i.txt
lxfi_c 1
int f(int a, ...);
---- words run x.case
---- i.txt:2: cproto 2 ...
---- whole
status 3
i.txt:2: cproto 2 ...
---- file i.txt
lxfi_c 1
u64 f(void);
---- words run x.case
---- i.txt:2: cproto 2 u64
---- whole
status 3
i.txt:2: cproto 2 u64
---- file i.txt
lxfi_c 1
long int f(void);
---- words run x.case
---- i.txt:2: cproto 2 f
---- whole
status 3
i.txt:2: cproto 2 f
---- file i.txt
lxfi_c 1
int f(struct s a);
---- words run x.case
---- i.txt:2: cproto 2 a
---- whole
status 3
i.txt:2: cproto 2 a
---- file i.txt
lxfi_c 1
struct s { void a; };
---- words run x.case
---- i.txt:2: cproto 2 a
---- whole
status 3
i.txt:2: cproto 2 a
---- file i.txt
lxfi_c 1
struct s { struct t { int a; }; };
---- words run x.case
---- i.txt:2: cproto 2 {
---- whole
status 3
i.txt:2: cproto 2 {
---- file i.txt
lxfi_c 1
struct s { int a;
---- words run x.case
---- i.txt:2: cproto 2 end
---- whole
status 3
i.txt:2: cproto 2 end
---- file i.txt
lxfi_c 1
iterator i(p) { call p };
---- words run x.case
---- i.txt:2: cproto 2 ;
---- whole
status 3
i.txt:2: cproto 2 ;
---- file i.txt
lxfi_c 1
void f(void *p) pre(check(ref(d), p));
reftype d;
---- words run x.case
---- i.txt:2: cproto 3 d
---- whole
status 3
i.txt:2: cproto 3 d
---- file i.txt
lxfi_c 1
void f(void) post(copy(call, return));
---- words run x.case
---- i.txt:2: cproto 3 return
---- whole
status 3
i.txt:2: cproto 3 return
---- file i.txt
lxfi_c 1
int f(void);
int f(void);
---- words run x.case
---- i.txt:3: cproto 4 f
---- whole
status 3
i.txt:3: cproto 4 f
---- file i.txt
lxfi_c 1
struct s { };
struct s { };
---- words run x.case
---- i.txt:3: cproto 4 s
---- whole
status 3
i.txt:3: cproto 4 s
---- file i.txt
lxfi_c 1
struct s { int a;
long a; };
---- words run x.case
---- i.txt:3: cproto 4 a
---- whole
status 3
i.txt:3: cproto 4 a
---- file i.txt
lxfi_c 1
struct s { int (*f)(void); };
struct t { int (*f)(void); };
---- words run x.case
---- i.txt:3: cproto 4 f
---- whole
status 3
i.txt:3: cproto 4 f
---- file i.txt
lxfi_c 1
void f(void *p) pre(copy(write, p));
---- words run x.case
---- i.txt:2: cproto 5 write
---- whole
status 3
i.txt:2: cproto 5 write
---- file i.txt
lxfi_c 2
---- words run x.case
---- i.txt:1: interface 2 lxfi_c
---- whole
status 3
i.txt:1: interface 2 lxfi_c
"#
}
