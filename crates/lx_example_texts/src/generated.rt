//! Cases that are generated, and their summaries.

/// From no call to the most that may be asked for.
pub fn generated_cases() -> &'static str {
    r#"---- no call
---- words generate 0
---- whole
status 0
generate 0 threads 4 calls 0 returned 0 refused 0 sum 0 events 0
---- one call
---- words generate 1
---- whole
status 0
generate 1 threads 4 calls 1 returned 1 refused 0 sum 1 events 14
---- one call that strays; files of these names are not read
---- file generated.case
no case
---- file gen.ll
no module
---- words generate 10
---- whole
status 0
generate 10 threads 4 calls 10 returned 9 refused 1 sum 198 events 128
---- the first call behind it
---- words generate 11
---- whole
status 0
generate 11 threads 4 calls 11 returned 10 refused 1 sum 248 events 142
---- fifty calls of each thread
---- words generate 200
---- whole
status 0
generate 200 threads 4 calls 200 returned 180 refused 20 sum 89460 events 2560
---- the most calls
---- words generate 4096
---- whole
status 0
generate 4096 threads 4 calls 4096 returned 3687 refused 409 sum 37747509 events 52436
"#
}
