//! A thread's seat beside what runs with it.
use lx_caplock::Seat;

/// A thread's seat beside what runs with it.
#[derive(Drop)]
pub(crate) struct Worker<T, N> {
    pub(crate) thread: u32,
    pub(crate) seat: Seat<T>,
    pub(crate) runner: N,
}
