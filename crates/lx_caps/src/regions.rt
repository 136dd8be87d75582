//! The three regions of memory, each of 1 MiB: globals, the heap, and the stacks of 16 threads.
ghost use Rattle.std.specs.Prelude.{◌≡◌, ◌<◌, ◌^◌};
ghost use Rattle.lx_caps.specs.Regions.{covers, first_unmapped, lies_in, mapped, region_size, stack_start};

/// Where the globals begin.
pub const GLOBALS_START: u64 = 0x1000000;

/// Where the heap begins.
pub const HEAP_START: u64 = 0x2000000;

/// Where the stacks begin, that of thread 0 first.
pub const STACKS_START: u64 = 0x3000000;

/// How many bytes a region has.
pub const REGION_SIZE: u64 = 0x100000;

/// How many bytes the stack of a thread has.
pub const STACK_SIZE: u64 = 0x10000;

fn lies_in(start: u64, at: u64, len: u64) -> bool
    requires { start < 0x4000000 }
    ensures { result ≡ lies_in start at len }
{
    let end = start + REGION_SIZE;
    start <= at && at <= end && len <= end - at
}

/// Says whether a range is empty or lies in one of the three regions of memory: globals from `0x1000000`, heap from
/// `0x2000000`, stacks from `0x3000000`.
pub fn mapped(at: u64, len: u64) -> bool
    ensures { result ≡ mapped at len }
{
    len == 0
        || lies_in(GLOBALS_START, at, len)
        || lies_in(HEAP_START, at, len)
        || lies_in(STACKS_START, at, len)
}

fn covers(start: u64, at: u64) -> bool
    ensures { result ≡ covers start region_size at }
{
    at >= start && at - start < REGION_SIZE
}

/// The first byte, from this one on, that lies in no region.
pub fn first_unmapped(at: u64) -> u64
    ensures { result ≡ first_unmapped at }
{
    if covers(GLOBALS_START, at) {
        GLOBALS_START + REGION_SIZE
    } else if covers(HEAP_START, at) {
        HEAP_START + REGION_SIZE
    } else if covers(STACKS_START, at) {
        STACKS_START + REGION_SIZE
    } else {
        at
    }
}

/// Where the stack of a thread begins.
pub fn stack_start(thread: u32) -> u64
    ensures start { result ≡ stack_start thread }
    ensures small { result < 2 ^ 62 }
{
    STACKS_START + STACK_SIZE * u64::from(thread)
}
