//! The calls of the lock, over seats that are at rest.
ghost use Rattle.std.specs.Prelude.{◌≡◌, ◌≤◌, Err, IfOk, List, MatchResult, Some};
ghost use Rattle.lx_caplock.specs.declared.fault.SplitFault.TheVariants.{NoSeat};
ghost use Rattle.lx_caplock.specs.declared.knowledge.Entry.{Entry};
ghost use Rattle.lx_caplock.specs.Serving.{LegalFrom, Leaves, MayAsk};
ghost use Rattle.lx_caplock.specs.Views.{first_view};
ghost use Rattle.lx_caplock.specs.Calls.{IsSameSeat, Answers, Refuses, IsSplit, IsUnsplit, HasJoined, IsAlone, HasClosed};
ghost use Rattle.lx_caplock.specs.Seats.{IsSeatOf, view_of, opened_with, out_of};

use crate::fault::SplitFault;
use crate::lock::CapLock;
use crate::part::Part;
use crate::seat::Seat;
use lx_model::request::{Reply, Request};
use lx_words::Memory;
use std::alloc::Global;
use std::sync::Wait;

impl<T: Part + Drop> CapLock<T> {
    /// A lock round the part, for so many seats in all, and its first seat, whose number is 0.
    ///
    /// # Errors
    /// Want of memory: the part is given up.
    pub fn open(alloc: Global, part: T, seats: u32) -> Result<(CapLock<T>, Seat<T>), Memory>
        requires { (1 ≤ seats) × (seats ≤ 17) }
        ensures of { IfOk result (λ r. IsSeatOf r.0 r.1) }
        ensures first { IfOk result (λ r. view_of r.1 ≡ first_view (Some part) seats) }
    {
        let (lock, place) = CapLock::open_at(alloc, part, seats)?;
        Ok((lock, Seat { place }))
    }

    /// A further seat, with a number below `seats` that no seat had before: it was not out. The new seat has seen what the dividing
    /// seat has seen, and asked nothing.
    ///
    /// # Errors
    /// `NoSeat` just where all numbers are out, which the seat then knows: it gets none ever after. It is never `Memory`.
    pub fn split<R: Wait>(&self, rt: &R, seat: &mut Seat<T>) -> Result<Seat<T>, SplitFault>
        requires { IsSeatOf self.now seat.old }
        ensures of { IsSeatOf self.now seat.new }
        ensures new_of { IfOk result (λ new. IsSeatOf self.now new) }
        ensures full { out_of seat.old ≡ (view_of seat.old).seats → result ≡ Err NoSeat }
        ensures split { MatchResult result (λ new. IsSplit (view_of seat.old) (view_of seat.new) (view_of new)) (λ fault. IsUnsplit (view_of seat.old) (view_of seat.new) fault) }
    {
        match self.split_at(rt, &mut seat.place) {
            Some(place) => Ok(Seat { place }),
            None => Err(SplitFault::NoSeat),
        }
    }

    /// Waits for the seat's turn, and has the request of the thread served. Behind it the seat has seen the whole history up to
    /// its own entry.
    ///
    /// # Errors
    /// Want of memory: the request was not served, and the history has no entry of it. It comes only from the part, where what
    /// the history that the seat has seen leaves of it may lack the memory.
    pub fn ask<R: Wait>(
        &self,
        rt: &R,
        seat: &mut Seat<T>,
        thread: u32,
        request: &Request,
    ) -> Result<Reply, Memory>
        requires of { IsSeatOf self.now seat.old }
        requires fits { MayAsk T.program T.takes (opened_with seat.old) thread request.now }
        ensures of { IsSeatOf self.now seat.new }
        ensures same { IsSameSeat (view_of seat.old) (view_of seat.new) }
        ensures answer { MatchResult result (λ reply. Answers (LegalFrom T.program T.stands) thread request.now (view_of seat.old) reply (view_of seat.new)) (λ e. Refuses (Leaves T.program T.stands) (LegalFrom T.program T.stands) T.lacks thread request.now (view_of seat.old) (view_of seat.new)) }
    {
        self.ask_at(rt, &mut seat.place, thread, request)
    }

    /// Takes in another seat of the lock, whose number ends. The seat has then seen what both had seen, each entry of the other
    /// among it.
    pub fn join(&self, seat: &mut Seat<T>, other: Seat<T>)
        requires { IsSeatOf self.now seat.old × IsSeatOf self.now other }
        ensures of { IsSeatOf self.now seat.new }
        ensures joined { HasJoined (view_of seat.old) (view_of other) (view_of seat.new) }
    {
        let Seat { place } = other;
        self.join_at(&mut seat.place, place);
    }

    /// The part, as one legal history leaves it. No other seat may be out, which the seat itself shows: each number that it
    /// knows to be out is its own or has ended in it. The history has the entries of these numbers alone, each once.
    pub fn close(self, seat: Seat<T>) -> T
        requires of { IsSeatOf self seat }
        requires alone { IsAlone (view_of seat) }
        ensures { (history : List Entry) × HasClosed (Leaves T.program T.stands) (LegalFrom T.program T.stands) (view_of seat) result history }
    {
        let Seat { place } = seat;
        self.close_at(place)
    }
}
