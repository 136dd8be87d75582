//! What each module of a case can come to hold.
//!
//! What is wanted was worked out from the rules by hand; above each case stands why. The function with number n has the address
//! 65,536 + 16n: the six natives come first, then the kernel's functions, and then those of each module.

/// Bounds over the built-in kernel, between modules, by loans and by lists, and inputs without one.
pub fn surface_cases() -> &'static str {
    r#"---- the functions that are declared, and the reference that a slot's function is given
---- case
lxfi case 1
kernel builtin
interface builtin
module m neg.ll
---- words surface row.case
---- whole
status 0
surface m ref device
surface m call dev_register
surface m call dev_set_priv
---- a call by an address that no number says may be of every function, also of those that are not exported
---- case
lxfi case 1
kernel builtin
interface builtin
module m hook.ll
thread
call m:main fuel 100
---- words surface row.case
---- whole
status 0
surface m call kmalloc
surface m call kzalloc
surface m call kfree
surface m call dev_register
surface m call dev_set_priv
surface m call dev_zero
surface m call dev_wipe
surface m call skb_new
surface m call netif_rx
surface m call hook_get
surface m call hook_fn
surface m call do_probe
surface m call do_xmit
---- each module by itself, in the order of the case
---- case
lxfi case 1
kernel builtin
interface builtin
module n free.ll
module m neg.ll
module l race.ll
---- words surface row.case
---- whole
status 0
surface n call kmalloc
surface n call kfree
surface m ref device
surface m call dev_register
surface m call dev_set_priv
surface l call skb_new
surface l call netif_rx
---- no kernel
---- case
lxfi case 1
kernel none
interface none
module m one.ll
---- words surface row.case
---- whole
status 0
---- file passing_kernel.ll
define void @pick() {
ret void
}
define void @hand() {
ret void
}
---- file passing.txt
interface 1
reftype file
reftype key
slot get : ptr () post(copy(ref(file), return)) post(copy(ref(key), return))
slot put : void (ptr p) pre(copy(ref(file), p))
field %struct.ops 0 : get
field %struct.ops 1 : put
export pick : void () post(copy(call, 65680))
export hand : void () post(copy(call, 65696))
---- file picks.ll
declare void @pick()
define void @main() {
call void @pick()
ret void
}
---- file hands.ll
%struct.ops = type { ptr, ptr }
@ops = global %struct.ops { ptr @get, ptr null }
declare void @hand()
define ptr @get() {
ret ptr null
}
---- file holds.ll
%struct.ops = type { ptr, ptr }
@ops = global %struct.ops { ptr @get, ptr @put }
define ptr @get() {
ret ptr null
}
define void @put(ptr %p) {
ret void
}
---- a may call get of b (number 9), which gives files and keys behind its body; of these b can hold files
---- case
lxfi case 1
kernel file passing_kernel.ll
interface file passing.txt
module a picks.ll
module b holds.ll
---- words surface row.case
---- whole
status 0
surface a ref file
surface a call pick
surface b ref file
---- b, which a may call, holds nothing itself; and number 10, which b may call, is of no function
---- case
lxfi case 1
kernel file passing_kernel.ll
interface file passing.txt
module a picks.ll
module b hands.ll
---- words surface row.case
---- whole
status 0
surface a call pick
surface b call hand
---- a file goes from c (number 10) to b, and only then from b (number 9) to a
---- case
lxfi case 1
kernel file passing_kernel.ll
interface file passing.txt
module a picks.ll
module b hands.ll
module c holds.ll
---- words surface row.case
---- whole
status 0
surface a ref file
surface a call pick
surface b ref file
surface b call hand
surface c ref file
---- file lending_kernel.ll
define void @keep(ptr %p) {
ret void
}
---- file lending.txt
interface 2
reftype file
reftype key
reftype lock
slot use : void (ptr p, ptr q) pre(if (p != 0) lend(ref(file), p)) pre(check(ref(key), q)) post(copy(ref(lock), q))
field %struct.ops 0 : use
export keep : void (ptr p) pre(lend(ref(lock), p)) pre(transfer(ref(key), p))
---- file lending.ll
%struct.ops = type { ptr }
@ops = global %struct.ops { ptr @use }
declare void @keep(ptr)
define void @use(ptr %p, ptr %q) {
ret void
}
---- what is lent can be held; what a module shows, lends or hands on it does not get thereby
---- case
lxfi case 1
kernel file lending_kernel.ll
interface file lending.txt
module m lending.ll
---- words surface row.case
---- whole
status 0
surface m ref file
surface m call keep
---- file listing_kernel.ll
define void @first(ptr %p) {
ret void
}
define void @second() {
ret void
}
define void @third() {
ret void
}
define void @fourth() {
ret void
}
---- file listing.txt
interface 1
reftype box
reftype key
iterator thing(p) { write p, 16; if (load64(p)) ref key, p; call 65648 }
export first : void (ptr p) post(if (p != 0) transfer(thing(p)))
export second : void () post(copy(call, 65672)) post(copy(call, 65536)) post(copy(call, 16))
export third : void () post(copy(call, 65680)) post(copy(ref(box), 65680))
---- file listing.ll
declare void @first(ptr)
define void @main() {
call void @first(ptr null)
ret void
}
---- a list names a key and the second function (number 7), whose calls are of no function: between two, of a native, below all
---- case
lxfi case 1
kernel file listing_kernel.ll
interface file listing.txt
module m listing.ll
---- words surface row.case
---- whole
status 0
surface m ref key
surface m call first
surface m call second
---- a module with a fault
---- case
lxfi case 1
kernel none
interface none
module m cut.ll
---- words surface row.case
---- whole
status 3
cut.ll:3: ir 2 end
---- an import that is not exported
---- case
lxfi case 1
kernel builtin
interface builtin
module m imp.ll
---- words surface row.case
---- whole
status 3
imp.ll:1: link 2 @do_probe
---- a module that is not there
---- case
lxfi case 1
kernel builtin
interface builtin
module m absent.ll
---- words surface row.case
---- whole
status 4
lxfi: cannot read absent.ll
---- a case that is not there
---- words surface absent.case
---- whole
status 4
lxfi: cannot read absent.case
"#
}
