//! What a seat knows: entries of the history, how far it is, and its view. No value of these types is made: they are for
//! the proofs alone.
use lx_model::request::{Reply, Request};
use std::collections::LinkedList;

/// One request that was served.
pub struct Entry {
    /// The number of the seat that asked.
    pub seat: u64,
    /// The thread for which it asked.
    pub thread: u32,
    pub request: Request,
    pub reply: Reply,
}

/// How far a seat is on its way to its turn.
pub enum Stage {
    /// It has no ticket.
    Idle,
    /// It has this ticket. Tickets are counted from 0 on and do not wrap here.
    Waits(u64),
    /// It has this ticket, whose turn it is.
    Serves(u64),
}

/// What a seat knows.
pub struct View<T> {
    /// The part that the lock was opened with; none where the view is spent.
    pub opened_part: Option<T>,
    /// How many numbers there are in all.
    pub seats: u64,
    /// Another seat took this one in.
    pub spent: bool,
    pub stage: Stage,
    /// Its own number, which no other seat has.
    pub number: u64,
    /// How many numbers were out when it last looked: those from 0 on.
    pub out: u64,
    /// Numbers that it has in the midst of a call: one that it drew for a new seat, or those of a seat that it takes in.
    pub unsettled: LinkedList<u64>,
    /// The numbers of the seats that it has taken in, and of those that these had taken in.
    pub ended: LinkedList<u64>,
    /// A beginning of the history in which all entries of its unsettled numbers stand.
    pub unsettled_seen: LinkedList<Entry>,
    /// The beginning of the history that it has seen, oldest first.
    pub seen: LinkedList<Entry>,
    /// The entries of its own number.
    pub mine: LinkedList<Entry>,
}
