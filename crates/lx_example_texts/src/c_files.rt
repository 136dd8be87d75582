//! Modules that clang printed of C files.

/// The C files of `examples/c`. What the calls return is what gcc's program of the same C prints, with a `main` that makes
/// the same calls, and with `kmalloc`, `kfree` and `device_register` over `malloc` and `free` for the driver.
pub fn c_file_cases() -> &'static str {
    "---- a ring and a checksum
---- case
lxfi case 1
kernel none
interface none
module ring ring.ll
module sum checksum.ll
thread
call ring:ring_sum 5 fuel 10000
call ring:ring_sum 12 fuel 10000
call ring:ring_put 250 fuel 1000
call ring:ring_put 1 fuel 1000
call ring:ring_put 8 fuel 1000
call ring:ring_put 15 fuel 1000
call ring:ring_put 22 fuel 1000
call ring:ring_put 29 fuel 1000
call ring:ring_put 36 fuel 1000
call ring:ring_put 43 fuel 1000
call ring:ring_put 50 fuel 1000
call ring:ring_put 57 fuel 1000
call ring:ring_put 64 fuel 1000
call ring:ring_put 71 fuel 1000
call ring:ring_put 78 fuel 1000
call ring:ring_put 85 fuel 1000
call ring:ring_put 92 fuel 1000
call ring:ring_put 99 fuel 1000
call ring:ring_take fuel 1000
call ring:ring_take fuel 1000
call ring:ring_take fuel 1000
call ring:ring_take fuel 1000
call ring:ring_take fuel 1000
call ring:ring_take fuel 1000
call ring:ring_take fuel 1000
call ring:ring_take fuel 1000
call ring:ring_take fuel 1000
call ring:ring_take fuel 1000
call ring:ring_take fuel 1000
call ring:ring_take fuel 1000
call ring:ring_take fuel 1000
call ring:ring_take fuel 1000
call ring:ring_take fuel 1000
call ring:ring_take fuel 1000
call sum:checksum_of_packet fuel 10000
call sum:checksum &sum:packet 7 fuel 10000
call sum:checksum &sum:packet 20 fuel 10000
---- whole
status 0
schedule 0*1847
call 0.0 ring:ring_sum returned 35
call 0.1 ring:ring_sum returned 210
call 0.2 ring:ring_put returned 0
call 0.3 ring:ring_put returned 0
call 0.4 ring:ring_put returned 0
call 0.5 ring:ring_put returned 0
call 0.6 ring:ring_put returned 0
call 0.7 ring:ring_put returned 0
call 0.8 ring:ring_put returned 0
call 0.9 ring:ring_put returned 0
call 0.10 ring:ring_put returned 0
call 0.11 ring:ring_put returned 0
call 0.12 ring:ring_put returned 0
call 0.13 ring:ring_put returned 0
call 0.14 ring:ring_put returned 0
call 0.15 ring:ring_put returned 0
call 0.16 ring:ring_put returned 0
call 0.17 ring:ring_put returned -1
call 0.18 ring:ring_take returned 250
call 0.19 ring:ring_take returned 1
call 0.20 ring:ring_take returned 8
call 0.21 ring:ring_take returned 15
call 0.22 ring:ring_take returned 22
call 0.23 ring:ring_take returned 29
call 0.24 ring:ring_take returned 36
call 0.25 ring:ring_take returned 43
call 0.26 ring:ring_take returned 50
call 0.27 ring:ring_take returned 57
call 0.28 ring:ring_take returned 64
call 0.29 ring:ring_take returned 71
call 0.30 ring:ring_take returned 78
call 0.31 ring:ring_take returned 85
call 0.32 ring:ring_take returned 92
call 0.33 ring:ring_take returned -1
call 0.34 sum:checksum_of_packet returned 45542
call 0.35 sum:checksum returned 24189
call 0.36 sum:checksum returned -19994
image ring guards 15 checks 0 wrappers 0
image sum guards 9 checks 0 wrappers 0
owns ring.shared write 0x1000000+24
owns ring.shared call 0x10060
owns ring.shared call 0x10070
owns ring.shared call 0x10080
owns ring.shared call 0x10090
owns sum.shared call 0x100a0
owns sum.shared call 0x100b0
owns sum.shared call 0x100c0
---- a driver behind slots
---- case
lxfi case 1
kernel file driver_kernel.ll
interface file driver.txt
module driver driver.ll
thread
call driver:driver_init fuel 1000
call driver:driver_init fuel 1000
call kernel:do_open fuel 1000
call kernel:do_open fuel 1000
call kernel:users fuel 1000
call kernel:do_write 12 fuel 1000
call kernel:last fuel 1000
call kernel:do_write 3 fuel 1000
call kernel:last fuel 1000
call kernel:written fuel 1000
call kernel:do_close fuel 1000
call kernel:users fuel 1000
call kernel:written fuel 1000
call kernel:do_close fuel 1000
call kernel:users fuel 1000
call kernel:written fuel 1000
call kernel:do_close fuel 1000
call kernel:users fuel 1000
---- whole
status 0
schedule 0*364
call 0.0 driver:driver_init returned 0
call 0.1 driver:driver_init returned -16
call 0.2 kernel:do_open returned 0
call 0.3 kernel:do_open returned 0
call 0.4 kernel:users returned 2
call 0.5 kernel:do_write returned 12
call 0.6 kernel:last returned 8583909746705986159
call 0.7 kernel:do_write returned 3
call 0.8 kernel:last returned 8583909746705982824
call 0.9 kernel:written returned 15
call 0.10 kernel:do_close returned
call 0.11 kernel:users returned 1
call 0.12 kernel:written returned 15
call 0.13 kernel:do_close returned
call 0.14 kernel:users returned 0
call 0.15 kernel:written returned 0
call 0.16 kernel:do_close returned
call 0.17 kernel:users returned 0
image driver guards 19 checks 0 wrappers 6
owns driver.shared write 0x2000000+32
owns driver.shared call 0x10060
owns driver.shared call 0x10070
owns driver.shared call 0x10080
owns driver.shared call 0x100f0
owns driver.shared call 0x10100
owns driver.shared call 0x10110
owns driver.shared call 0x10120
"
}
