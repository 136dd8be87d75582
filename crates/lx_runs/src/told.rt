//! What a run tells.
use lx_words::Name;

/// What a run tells.
#[derive(Drop)]
pub enum Told {
    /// The schedule that is replayed is not whole: the first entry, counted from 0, that names a thread without work, or
    /// the number of entries where work remains.
    Broken(u64),
    /// The report, and whether every call returned.
    Report(Name, bool),
}
