//! Loans: who may use what is lent, and what is no loan. The texts are cut into parts as those of `loans` are.

/// What may be lent, and what a borrower may not hand on.
pub fn borrowed_cases() -> &'static str {
    r#"---- what does not lie in memory is not lent
---- calls
thread
call m:lent_put 16 1 fuel 100
call m:far_put &kernel:buf 1 fuel 100
---- lines
status 1
call 0.0 m:lent_put refused 8 kernel write 0x10+8
call 0.1 m:far_put refused 8 kernel write 0x0+8
---- an address that cannot be read
---- calls
thread
call m:far_put 8 1 fuel 100
---- lines
status 1
schedule 0*2
call 0.0 m:far_put trap 1 0x8
---- a lend of a lend
---- calls
thread
call m:lent_lends &kernel:buf 1 fuel 100
---- lines
status 1
call 0.0 m:lent_lends refused 10 m[0x1] write 0x1000000+8
---- a copy of a lend
---- calls
thread
call m:lent_copies &kernel:buf 1 fuel 100
---- lines
status 1
call 0.0 m:lent_copies refused 10 m[0x1] write 0x1000000+8
---- a transfer of a lend; the loan is over behind the refusal
---- calls
thread
call m:lent_takes &kernel:buf 1 fuel 100
call m:plain_put &kernel:buf 1 fuel 100
---- lines
status 1
call 0.0 m:lent_takes refused 10 m[0x1] write 0x1000000+8
call 0.1 m:plain_put refused 1 m[0x1] write 0x1000000+8
---- a check is content with a loan
---- calls
thread
call m:lent_checks &kernel:buf 1 fuel 100
---- lines
status 0
call 0.0 m:lent_checks returned 0
---- half of a range is kept and half is on loan: a check is content with it, a lend is not
---- calls
thread
call m:given_put 0x1000008 1 fuel 100
call m:lent_wide &kernel:buf 1 fuel 100
---- lines
status 1
call 0.0 m:given_put returned 0
call 0.1 m:lent_wide refused 10 m[0x1] write 0x1000000+16
owns m[0x1] write 0x1000008+8
---- what is kept and on loan as well may be copied, and is kept behind the loan
---- calls
thread
call m:given_put &kernel:buf 1 fuel 100
call m:lent_copies &kernel:buf 1 fuel 100
call m:plain_put &kernel:buf 1 fuel 100
---- lines
status 0
call 0.1 m:lent_copies returned 0
call 0.2 m:plain_put returned 0
owns m[0x1] write 0x1000000+8"#
}

/// Who may use a loan.
pub fn borrower_cases() -> &'static str {
    r#"---- the shared principal may not use what is lent to an instance
---- calls
thread
call kernel:plan 6 &m:common_put_slot &kernel:buf 9 fuel 100
call m:lent_over &kernel:buf 1 fuel 100
---- lines
status 1
call 0.1 m:lent_over refused 1 m.shared write 0x1000000+8
---- an instance may use what is lent to the shared principal
---- calls
thread
call kernel:plan 0 &m:plain_put_slot &kernel:buf 1 fuel 100
call m:shares_over &kernel:buf 9 fuel 100
call m:plain_put &kernel:buf 1 fuel 100
---- lines
status 1
call 0.1 m:shares_over returned 0
call 0.2 m:plain_put refused 1 m[0x1] write 0x1000000+8
---- the global principal may use what is lent to an instance, while it is lent
---- calls
thread
call kernel:plan 7 &m:whole_put_slot &kernel:buf 9 fuel 100
call m:lent_over &kernel:buf 1 fuel 100
call m:whole_put &kernel:buf 9 fuel 100
---- lines
status 1
call 0.1 m:lent_over returned 0
call 0.2 m:whole_put refused 1 m.global write 0x1000000+8
---- a transfer by an owner takes what is on loan away
---- calls
thread
call kernel:plan 2 &m:given_put_slot &kernel:buf 2 fuel 100
call m:lent_over &kernel:buf 1 fuel 100
---- lines
status 1
call 0.1 m:lent_over refused 1 m[0x1] write 0x1000000+8
owns m[0x2] write 0x1000000+8
---- a lend takes nothing from an owner
---- calls
thread
call m:given_put &kernel:buf 2 fuel 100
call m:lent_put &kernel:buf 1 fuel 100
call m:plain_put &kernel:buf 2 fuel 100
call m:plain_put &kernel:buf 1 fuel 100
---- lines
status 1
call 0.1 m:lent_put returned 0
call 0.2 m:plain_put returned 0
call 0.3 m:plain_put refused 1 m[0x1] write 0x1000000+8
owns m[0x2] write 0x1000000+8"#
}

/// Loans and other threads.
pub fn thread_cases() -> &'static str {
    r#"---- another thread that runs as the borrower uses the loan
---- calls
thread
call m:lent_put &kernel:buf 1 fuel 100
thread
call m:plain_put &kernel:buf 1 fuel 100
---- schedule
0*2 1*4 0*4
---- lines
status 0
schedule 0*2 1*4 0*4
call 0.0 m:lent_put returned 0
call 1.0 m:plain_put returned 0
---- until the end of the loan
---- calls
thread
call m:lent_put &kernel:buf 1 fuel 100
thread
call m:plain_put &kernel:buf 1 fuel 100
---- schedule
0*4 1*2 0*2 1*2
---- lines
status 0
schedule 0*4 1*2 0*2 1*2
call 0.0 m:lent_put returned 0
call 1.0 m:plain_put returned 0
---- and not behind it, though the call has still to finish
---- calls
thread
call m:lent_put &kernel:buf 1 fuel 100
thread
call m:plain_put &kernel:buf 1 fuel 100
---- schedule
0*5 1*2 0*1
---- lines
status 1
schedule 0*5 1*2 0*1
call 0.0 m:lent_put returned 0
call 1.0 m:plain_put refused 1 m[0x1] write 0x1000000+8
---- a thread's end of loans is of its own loans alone
---- calls
thread
call m:lent_put &kernel:buf 1 fuel 100
thread
call m:lent_put &kernel:buf 1 fuel 100
---- schedule
0*2 1*6 0*4
---- lines
status 0
schedule 0*2 1*6 0*4
call 0.0 m:lent_put returned 0
call 1.0 m:lent_put returned 0
---- a trap ends the loans of its own thread alone
---- calls
thread
call m:lent_put &kernel:buf 1 fuel 100
thread
call m:lent_trap &kernel:buf 1 fuel 100
---- schedule
0*2 1*3 0*4
---- lines
status 1
schedule 0*2 1*3 0*4
call 0.0 m:lent_put returned 0
call 1.0 m:lent_trap trap 2
---- another thread transfers what is on loan
---- calls
thread
call m:lent_put &kernel:buf 1 fuel 100
thread
call m:given_put &kernel:buf 2 fuel 100
---- schedule
0*2 1*5 0*1
---- lines
status 1
schedule 0*2 1*5 0*1
call 0.0 m:lent_put refused 1 m[0x1] write 0x1000000+8
call 1.0 m:given_put returned 0
owns m[0x2] write 0x1000000+8"#
}

/// Calls and references, what stands behind a body, and loans to the kernel.
pub fn atomic_cases() -> &'static str {
    r#"---- a call that is lent, and behind the loan
---- calls
thread
call m:calls_run &kernel:idle 1 fuel 100
call m:plain_run &kernel:idle 1 fuel 100
---- lines
status 1
call 0.0 m:calls_run returned 4
call 0.1 m:plain_run refused 2 m[0x1] call 0x10150
---- a lend of a call that is lent
---- calls
thread
call m:calls_on &kernel:idle 1 fuel 100
---- lines
status 1
call 0.0 m:calls_on refused 10 m[0x1] call 0x10150
---- a reference that is lent, and behind the loan
---- calls
thread
call m:refers_show 0x77 1 fuel 100
call m:plain_show 0x77 1 fuel 100
---- lines
status 1
call 0.0 m:refers_show returned 0
call 0.1 m:plain_show refused 3 m[0x1] ref thing 0x77
---- a copy of a reference that is lent
---- calls
thread
call m:refers_pass 0x77 1 fuel 100
---- lines
status 1
call 0.0 m:refers_pass refused 10 m[0x1] ref thing 0x77
---- the borrower hands back by a transfer: the loan is not over yet, so it holds what it does not keep
---- calls
thread
call m:back_put &kernel:buf 1 fuel 100
---- lines
status 1
schedule 0*5
call 0.0 m:back_put refused 10 m[0x1] write 0x1000000+8
---- a check behind the body still finds the loan, and behind the end nothing is left
---- calls
thread
call m:seen_put &kernel:buf 1 fuel 100
call m:plain_put &kernel:buf 1 fuel 100
---- lines
status 1
schedule 0*9
call 0.0 m:seen_put returned 0
call 0.1 m:plain_put refused 1 m[0x1] write 0x1000000+8
---- a module lends its own to the kernel, and keeps it
---- calls
thread
call m:own_lends fuel 100
---- lines
status 0
schedule 0*8
call 0.0 m:own_lends returned
---- a loan of the kernel ends in its own turn: the loan that the module has stays
---- calls
thread
call m:lent_own &kernel:buf 1 fuel 100
---- lines
status 0
schedule 0*11
call 0.0 m:lent_own returned 0
---- bytes of a stack are lent, and never transferred
---- calls
thread
call m:stack_lends fuel 100
call m:stack_takes fuel 100
---- lines
status 1
call 0.0 m:stack_lends returned
call 0.1 m:stack_takes refused 7 m.shared write 0x3000000+8
---- what is not held is not lent, and nothing at all is held by everyone
---- calls
thread
call m:wild_lends &kernel:buf fuel 100
call m:wild_none &kernel:buf fuel 100
---- lines
status 1
call 0.0 m:wild_lends refused 1 m.shared write 0x1000000+8
call 0.1 m:wild_none returned"#
}

/// Slots: their annotations, and what borrowers wrote there.
pub fn lent_slot_cases() -> &'static str {
    r#"---- the end of loans is of the annotation's text: a slot that lends, with a function that does not
---- calls
thread
call kernel:by 1 &m:plain_put_slot &kernel:buf 1 fuel 100
---- lines
status 1
call 0.0 kernel:by refused 5 kernel call 0x10170: principal($1) pre(lend(write, $0, 8)) post(end) | principal($1)
---- a slot that does not lend, with a function that lends twice
---- calls
thread
call kernel:by 0 &m:both_put_slot &kernel:buf 1 fuel 100
---- lines
status 1
call 0.0 kernel:by refused 5 kernel call 0x10180: principal($1) | principal($1) pre(lend(write, $0, 8)) pre(lend(write, ($0 + 8), 8)) post(end)
---- a borrower is a writer of what it was lent: what it put into a slot is tested by what it holds
---- calls
thread
call m:lent_point &kernel:buf 1 fuel 100
call kernel:by 0 &kernel:buf 0x1000020 2 fuel 100
---- lines
status 1
call 0.0 m:lent_point returned 0
call 0.1 kernel:by refused 6 m[0x1] call 0x10070 slot 0x1000000
---- also where it wrote nothing there
---- calls
thread
call m:lent_checks &kernel:buf 1 fuel 100
call kernel:set &kernel:buf 65648 fuel 100
call kernel:by 0 &kernel:buf 0x1000020 2 fuel 100
---- lines
status 1
call 0.2 kernel:by refused 6 m[0x1] call 0x10070 slot 0x1000000
---- until the bytes are zeroed behind the loan: the slot then has no writer, and its function is called
---- calls
thread
call m:lent_point &kernel:buf 1 fuel 100
call kernel:wipe &kernel:buf fuel 100
call kernel:set &kernel:buf &m:plain_put fuel 100
call kernel:by 0 &kernel:buf 0x1000020 2 fuel 100
---- lines
status 1
call 0.3 kernel:by refused 1 m[0x2] write 0x1000020+8"#
}

/// The word `lend` in texts of both versions.
pub fn text_cases() -> &'static str {
    r#"---- in version 1 `lend` is a name: of a reference type, an iterator and a parameter
---- file names.ll
define void @checks(ptr %p) {
ret void
}
define void @shows(ptr %p) {
ret void
}
---- file user.ll
@own = global i64 0
declare void @checks(ptr)
declare void @shows(ptr)
define void @mine() {
call void @checks(ptr @own)
ret void
}
define void @other(ptr %p) {
call void @checks(ptr %p)
ret void
}
define void @see(ptr %p) {
call void @shows(ptr %p)
ret void
}
---- file row.case
lxfi case 1
kernel file names.ll
interface file names.txt
module m user.ll
thread
call m:mine fuel 100
call m:other 0x1000100 fuel 100
call m:see 0x77 fuel 100
---- file names.txt
interface 1
reftype lend
iterator lend(lend) { write lend, 8; if (0) ref lend, lend }
export checks : void (ptr lend) pre(check(lend(lend)))
export shows : void (ptr lend) pre(check(ref(lend), lend))
---- lines
status 1
call 0.0 m:mine returned
call 0.1 m:other refused 1 m.shared write 0x1000100+8
call 0.2 m:see refused 3 m.shared ref lend 0x77
---- it is in version 2 as well, beside the action
---- file names.ll
define void @checks(ptr %p) {
ret void
}
define void @shows(ptr %p) {
ret void
}
---- file user.ll
@own = global i64 0
declare void @checks(ptr)
declare void @shows(ptr)
define void @mine() {
call void @checks(ptr @own)
ret void
}
define void @other(ptr %p) {
call void @checks(ptr %p)
ret void
}
define void @see(ptr %p) {
call void @shows(ptr %p)
ret void
}
---- file row.case
lxfi case 1
kernel file names.ll
interface file names.txt
module m user.ll
thread
call m:mine fuel 100
call m:other 0x1000100 fuel 100
call m:see 0x77 fuel 100
---- file names.txt
interface 2
reftype lend
iterator lend(lend) { write lend, 8; if (0) ref lend, lend }
export checks : void (ptr lend) pre(lend(lend(lend)))
export shows : void (ptr lend) pre(check(ref(lend), lend))
---- lines
status 1
call 0.0 m:mine returned
call 0.1 m:other refused 1 m.shared write 0x1000100+8
call 0.2 m:see refused 3 m.shared ref lend 0x77
---- an action that lends in version 1
---- file bad.txt
interface 1
export kfree : void (ptr p)
pre(if (p) lend(write, p, 8))
---- file row.case
lxfi case 1
kernel builtin
interface file bad.txt
---- lines
status 3
bad.txt:3: interface 2 lend
---- an action that lends behind the body
---- file bad.txt
interface 2
export kfree : void (ptr p) pre(lend(write, p, 8))
post(lend(write, p, 8))
---- file row.case
lxfi case 1
kernel builtin
interface file bad.txt
---- lines
status 3
bad.txt:3: interface 2 lend
---- the end of loans cannot be written
---- file bad.txt
interface 2
export kfree : void (ptr p) pre(lend(write, p, 8))
post(end)
---- file row.case
lxfi case 1
kernel builtin
interface file bad.txt
---- lines
status 3
bad.txt:3: interface 2 end
---- there is no third version
---- file bad.txt
interface 3
---- file row.case
lxfi case 1
kernel builtin
interface file bad.txt
---- lines
status 3
bad.txt:1: interface 2 3"#
}
