//! Cases whose interface is written as prototypes of C.

/// The built-in interface as prototypes, with which cases write what they write with the built-in one; members that count; and
/// first faults.
pub fn prototype_cases() -> &'static str {
    "---- file builtin_c.txt
lxfi_c 1
reftype device;
iterator skb_caps(p) { write p, 24; write load64(p), load64(p + 8) }
/* the functions of a driver */
struct dev_ops {
    int (*probe)(void *dev) principal(dev) pre(copy(ref(device), dev)) post(if (return < 0) transfer(ref(device), dev));
    int (*xmit)(void *skb, void *dev) principal(dev) pre(transfer(skb_caps(skb))) post(if (return < 0) transfer(skb_caps(skb)));
};
// memory
void *kmalloc(unsigned long n) post(if (return != 0) transfer(write, return, n));
void *kzalloc(unsigned long n) post(if (return != 0) transfer(write, return, n));
void kfree(const void *p) pre(if (p != 0) transfer(write, p, load64(p - 16)));
// devices
void *dev_register(const struct dev_ops *ops);
void dev_set_priv(void *dev, void *v) pre(check(ref(device), dev));
void dev_zero(void *p, size_t n) pre(check(write, p, n));
void dev_wipe(void *p, size_t n) pre(transfer(write, p, n)) post(transfer(write, p, n));
// packets
void *skb_new(unsigned long n) post(if (return != 0) transfer(write, return, 24)) post(if (return != 0) transfer(write, load64(return), n));
int netif_rx(void *skb) pre(transfer(skb_caps(skb)));
// hooks
void *hook_get(void) post(copy(call, return));
long hook_fn(long x);
---- file i5_c.txt
lxfi_c 1
reftype file;
void *open(long n) post(if (n < 4) copy(ref(file), return));
void use(const void *p) pre(check(ref(file), p));
---- file counted.txt
lxfi_c 1
struct ops {
    long users;
    int (*probe)(void *device);
    struct device *first;
    long (*count)(void);
};
---- file counted.ll
%struct.ops = type { i64, ptr, ptr, ptr }
@ops = global %struct.ops { i64 0, ptr @probe, ptr @beside, ptr @count }
define i32 @probe(ptr %d) {
ret i32 0
}
define i32 @beside(ptr %d) {
ret i32 0
}
define i64 @count() {
ret i64 0
}
---- file unnamed.txt
lxfi_c 1
int f(int);
---- file unsized.txt
lxfi_c 1
void f(void *p) pre(copy(write, p));
---- file twice.txt
lxfi_c 1
struct s { int (*f)(void); };
/* once
more */ struct s { };
---- file unknown.txt
lxfi_c 1
void f(void *p) pre(check(ref(device), p));
---- file hash.txt
lxfi_c 1
int f(void); # a comment of the other dialect
---- file returns.txt
lxfi_c 1\r
int f(void);
---- file other.txt
lxfi_c 2
---- a failed probe
---- case
lxfi case 1
kernel builtin
interface file builtin_c.txt
module m neg.ll
thread
call m:init fuel 100
call kernel:do_probe 0 fuel 100
call m:late 0x1000020 fuel 100
---- without
owns m.shared ref
owns m[0x1000020] ref
---- lines
status 1
call 0.0 m:init returned
call 0.1 kernel:do_probe returned -5
call 0.2 m:late refused 3 m.shared ref device 0x1000020
---- over two principals
---- case
lxfi case 1
kernel builtin
interface file builtin_c.txt
module m span.ll
thread
call m:init fuel 100
call kernel:do_probe 0 fuel 100
---- whole
status 0
schedule 0*25
call 0.0 m:init returned
call 0.1 kernel:do_probe returned 0
image m guards 1 checks 0 wrappers 3
owns m.shared write 0x10000e0+24
owns m.shared call 0x10090
owns m.shared call 0x100c0
owns m.shared call 0x10130
owns m.shared call 0x10140
owns m[0x1000020] write 0x10000f8+8
owns m[0x1000020] ref device 0x1000020
---- the canonical texts of two slots
---- case
lxfi case 1
kernel builtin
interface file builtin_c.txt
module m bad.ll
thread
call m:init fuel 100
call m:swap fuel 100
call kernel:do_probe 0 fuel 100
---- lines
status 1
call 0.2 kernel:do_probe refused 5 kernel call 0x10180: principal($0) pre(copy(ref(device), $0)) post(if ((return < 0)) transfer(ref(device), $0)) | principal($1) pre(transfer(skb_caps($0))) post(if ((return < 0)) transfer(skb_caps($0)))
---- what a module can come to hold
---- case
lxfi case 1
kernel builtin
interface file builtin_c.txt
module m neg.ll
---- words surface row.case
---- whole
status 0
surface m ref device
surface m call dev_register
surface m call dev_set_priv
---- a function in two members
---- case
lxfi case 1
kernel builtin
interface file builtin_c.txt
module m both.ll
---- whole
status 3
both.ll:3: propagate 1 @h probe xmit
---- an own kernel, and an action under a condition
---- case
lxfi case 1
kernel file k5.ll
interface file i5_c.txt
module m file.ll
thread
call m:main 3 fuel 100
call m:main 5 fuel 100
call m:main -1 fuel 100
---- whole
status 1
schedule 0*24
call 0.0 m:main returned
call 0.1 m:main refused 3 m.shared ref file 0x5
call 0.2 m:main returned
image m guards 0 checks 0 wrappers 2
owns m.shared call 0x10060
owns m.shared call 0x10070
owns m.shared call 0x10080
owns m.shared ref file 0x3
owns m.shared ref file 0xffffffffffffffff
---- members that hold no functions count: of three functions in a table, those at 1 and 3 have slots
---- case
lxfi case 1
kernel none
interface file counted.txt
module m counted.ll
---- lines
status 0
image m guards 0 checks 0 wrappers 2
---- a parameter without a name
---- case
lxfi case 1
kernel builtin
interface file unnamed.txt
module m empty.ll
---- whole
status 3
unnamed.txt:2: cproto 2 )
---- a range without a size
---- case
lxfi case 1
kernel builtin
interface file unsized.txt
module m empty.ll
---- whole
status 3
unsized.txt:2: cproto 5 write
---- a struct that is declared twice
---- case
lxfi case 1
kernel none
interface file twice.txt
module m empty.ll
---- whole
status 3
twice.txt:4: cproto 4 s
---- a reference type that is not declared
---- case
lxfi case 1
kernel none
interface file unknown.txt
module m empty.ll
---- whole
status 3
unknown.txt:2: cproto 3 device
---- a comment of the other dialect
---- case
lxfi case 1
kernel none
interface file hash.txt
module m empty.ll
---- whole
status 3
hash.txt:2: cproto 1 0x23
---- a first line that ends with a carriage return is none of this dialect, nor is one of another version
---- case
lxfi case 1
kernel none
interface file returns.txt
module m empty.ll
---- whole
status 3
returns.txt:1: interface 2 lxfi_c
---- case
lxfi case 1
kernel none
interface file other.txt
module m empty.ll
---- whole
status 3
other.txt:1: interface 2 lxfi_c
"
}
