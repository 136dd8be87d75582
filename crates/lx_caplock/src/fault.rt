//! Why there is no further seat.
use thiserror::Error;

/// Why there is no further seat.
#[derive(Clone, Copy, Debug, Error)]
pub enum SplitFault {
    /// All numbers are out.
    #[error("no seat is left")]
    NoSeat,
    /// There was not enough memory. No seat takes any, so this is never answered.
    #[error("out of memory")]
    Memory,
}
