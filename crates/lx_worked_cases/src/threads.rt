//! Cases whose threads run beside each other.

use crate::long::put_parts;
use std::test::Fail;

/// How many events a call of `twice` has.
pub const EVENTS: u32 = 5;

/// Two threads with two calls each, of as many events as `EVENTS` says.
pub fn twice() -> &'static str {
    "---- case
lxfi case 1
kernel none
interface none
module m one.ll
thread
call m:main fuel 4
call m:main fuel 4
thread
call m:main fuel 4
call m:main fuel 4
"
}

/// Two threads that race for a packet.
fn race() -> &'static str {
    "---- case
lxfi case 1
kernel builtin
interface builtin
module m race.ll
thread
call m:make fuel 100
call m:send fuel 100
thread
call m:poke fuel 100
"
}

/// Puts a race, which replays itself twenty times.
pub fn put_race(text: &mut String) -> Result<(), Fail> {
    put_parts(text, &[(race(), 0, 1), ("---- run and replay\n", 0, 20)])
}

/// Puts sixteen threads of 256 calls each over the built-in kernel.
fn put_threads(text: &mut String) -> Result<(), Fail> {
    for _ in 0..16 {
        put_parts(
            text,
            &[("thread\n", 0, 1), ("call m:work 7 fuel 100\n", 0, 256)],
        )?;
    }
    Ok(())
}

/// Puts a crowd of threads, which replays itself three times.
pub fn put_crowd(text: &mut String) -> Result<(), Fail> {
    text.push_str(
        "---- case\nlxfi case 1\nkernel builtin\ninterface builtin\nmodule m mixed.ll\n",
    )?;
    put_threads(text)?;
    put_parts(text, &[("---- run and replay\n", 0, 3)])
}
