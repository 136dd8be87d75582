//! The modules of three C files, as clang printed them.

use crate::checksum::checksum_printed;
use crate::driver::driver_printed;
use crate::modules::is_printed;
use crate::ring::ring_printed;
use lx_example_texts::{checksum_text, driver_text, ring_text};

#[test]
fn what_clang_prints_is_read(rt: HostRuntime) {
    let alloc = rt.alloc();
    assert!(rt; is_printed(alloc, ring_text(), ring_printed()));
    assert!(rt; is_printed(alloc, checksum_text(), checksum_printed()));
    assert!(rt; is_printed(alloc, driver_text(), driver_printed()));
}

#[test]
fn what_is_printed_reads_the_same(rt: HostRuntime) {
    let alloc = rt.alloc();
    assert!(rt; is_printed(alloc, ring_printed(), ring_printed()));
    assert!(rt; is_printed(alloc, checksum_printed(), checksum_printed()));
    assert!(rt; is_printed(alloc, driver_printed(), driver_printed()));
}
