//! The lock over a table of three words and one slot. Word 0 counts the numbers that are out, word 1 the tickets that were
//! given and word 2 the turns that are over. The slot has the part.
ghost use Rattle.std.specs.Prelude.{◌≡◌, ◌≢◌, ◌≤◌, ◌^◌, ◌%◌, ℕ, [], ◌∷◌, ◌++◌, false, IfOk, IfSome, IfNone, List, MatchResult, OnErr, Some};
ghost use Rattle.lx_caplock.specs.declared.knowledge.Entry.{Entry};
ghost use Rattle.lx_model.specs.Serve.{serve};
ghost use Rattle.lx_model.specs.State.{State};
ghost use Rattle.lx_caplock.specs.declared.knowledge.Stage.TheVariants.{Waits, Serves};
ghost use Rattle.lx_caplock.specs.History.{entries_of, entry};
ghost use Rattle.lx_caplock.specs.Serving.{IsServed, LegalFrom, Leaves, MayAsk};
ghost use Rattle.lx_caplock.specs.Views.{first_view, released, IsAtRest};
ghost use Rattle.lx_caplock.specs.Telling.{TurnHasCome};
ghost use Rattle.lx_caplock.specs.Calls.{IsSameSeat, Answers, Refuses, IsSplit, HasJoined, IsAlone, IsFull, HasClosed};

use crate::bells::Bells;
use crate::knowledge::View;
use crate::part::Part;
use crate::plays::{
    Adds, CountNumbers, DrawNumber, LookAtServing, Nothing, Release, Settle, SplitOff, TakeIn,
    TakeTicket,
};
use crate::rule::{Opening, Turns};
use atomic_table::{Seat, Table};
use lx_model::request::{Reply, Request};
use lx_words::Memory;
use std::alloc::Global;
use std::hint::spin_loop;
use std::marker::Brand;
use std::snapshot::Snapshot;
use std::sync::Wait;

// How often a thread looks for its turn before it sleeps. It takes about as long as a sleep and a wake, some microseconds: who
// waits less saves both, and who waits longer loses no more than them. (It does not yield between: where other work is ready, a
// yield may take milliseconds, for which all others wait.)
const LOOKS: u32 = 400;

// With so many tickets out, one more would only stand behind one that waits: who comes then waits at its door, without a ticket.
const CROWD: u64 = 2;

// After so many turns one who waits at a door comes in, also where those within ask on.
const TURNS_A_GUEST: u64 = 64;

/// A seat of the table, as the calls within use it.
pub(crate) type Place<T> = Seat<T, View<T>>;

/// A ticket lock round a part. Seats of the lock ask through it, from any threads, and the part serves them one after the
/// other.
#[derive(Drop)]
pub struct CapLock<T: Part + Drop> {
    table: Table<T, View<T>, Opening<T>, Turns, Global>,
    seats: u32,
    // To sleep at until a ticket has its turn.
    bells: Bells,
    // To sleep at before a ticket is taken.
    doors: Bells,
    ghost sized: { (table.shared.table_id.words ≡ 3) × (table.shared.table_id.slots ≡ 1) × (table.shared.key.seats ≡ seats) },
}

impl<T: Part + Drop> CapLock<T> {
    pub(crate) fn open_at(
        alloc: Global,
        part: T,
        seats: u32,
    ) -> Result<(CapLock<T>, Place<T>), Memory>
        requires { (1 ≤ seats) × (seats ≤ 17) }
        ensures { IfOk result (λ r. (r.1.table_id ≡ r.0.table.shared.table_id) × (r.0.seats ≡ seats) × IsAtRest r.1 × (r.1.me.0 ≡ first_view (Some part) seats)) }
    {
        let bells = Bells::new(alloc)?;
        let doors = Bells::new(alloc)?;
        let about = Opening {
            part: Snapshot::of(&part),
            seats: seats as u64,
        };
        let mut slots = Vec::new(alloc);
        slots.push(part)?;
        let Ok((table, place)) = Table::new(alloc, &[1, 0, 0], slots, &about) else {
            return Err(Memory);
        };
        Ok((
            CapLock {
                table,
                seats,
                bells,
                doors,
            },
            place,
        ))
    }

    // Whether a further ticket would stand behind one that waits.
    fn is_crowded(&self) -> bool {
        let over = self.table.shared.peek(2);
        self.table.shared.peek(1).wrapping_sub(over) >= CROWD
    }

    // The number of a thread's door.
    fn door_of(&self, thread: u32) -> u64 {
        if self.seats == 0 {
            0
        } else {
            (thread % self.seats) as u64
        }
    }

    // Waits at the thread's door, where the lock is crowded, until somebody lets it in. It may also come in for no reason: what the lock
    // promises rests on tickets alone.
    fn come_in<R: Wait>(&self, rt: &R, thread: u32) {
        if self.is_crowded() {
            let door = self.door_of(thread);
            self.doors.sleep(rt, door);
            if self.is_crowded() {
                self.doors.sleep(rt, door);
            }
            self.doors.wake(door);
        }
    }

    // Wakes who has the next turn. Where nobody has, and now and then where somebody has, it also lets one in who waits at a door.
    fn call_next(&self, next: u64) {
        self.bells.wake(next);
        if next % TURNS_A_GUEST == 0 || self.table.shared.peek(1) == next {
            self.doors
                .wake_one_below(self.seats as u64, next / TURNS_A_GUEST);
        }
    }

    // Waits for the turn of the ticket: the place then has the part. Looks some times, and then sleeps at the ticket's bell.
    fn wait<R: Wait>(&self, rt: &R, place: &mut Place<T>, ticket: u64)
        requires own { place.old.table_id ≡ self.now.table.shared.table_id }
        requires live { place.old.me.0.spent ≡ false }
        requires no_slots { place.old.me.1 ≡ [] }
        requires waits { (t : ℕ) × (place.old.me.0.stage ≡ Waits t) × (ticket ≡ t % 2 ^ 64) }
        ensures own { (place.new.table_id ≡ place.old.table_id) × (place.new.id ≡ place.old.id) }
        ensures come { TurnHasCome (Leaves T.program T.stands) (LegalFrom T.program T.stands) place.old.me place.new.me }
    {
        let mut looks = 0;
        for _ in rt.forever() {
            if self.table.shared.load::<LookAtServing>(place, 2) == ticket {
                return;
            }
            if looks < LOOKS {
                looks += 1;
                spin_loop();
            } else {
                self.bells.sleep(rt, ticket);
            }
        }
        unreachable!()
    }

    // Serves with the part that the place has.
    fn serve_held(
        &self,
        place: &mut Place<T>,
        thread: u32,
        request: &Request,
    ) -> Result<Reply, Memory>
        requires own { place.old.table_id ≡ self.now.table.shared.table_id }
        requires held { (x : T) × (place.old.me.1 ≡ (0, x) ∷ []) × T.takes (T.program x) thread request.now }
        ensures own { (place.new.table_id ≡ place.old.table_id) × (place.new.id ≡ place.old.id) × (place.new.me.0 ≡ place.old.me.0) }
        ensures serves { (x : T) × (y : T) × (place.old.me.1 ≡ (0, x) ∷ []) × (place.new.me.1 ≡ (0, y) ∷ []) × (T.program y ≡ T.program x) × MatchResult result (λ reply. (s : State) → T.stands x s → IsServed T.stands y reply (serve (T.program x) s thread request.now)) (λ e. (s : State) → T.stands x s → T.stands y s) }
        ensures lacks { OnErr result ((x : T) × (place.old.me.1 ≡ (0, x) ∷ []) × T.lacks x thread request.now) }
    {
        let part = place.slot_mut(&self.table.shared, 0);
        part.serve(thread, request)
    }

    // Puts the part home with these entries more in the history, ends the turn, and wakes who has the next one.
    fn release<W: Adds>(&self, place: &mut Place<T>)
        requires own { place.old.table_id ≡ self.now.table.shared.table_id }
        requires live { (place.old.me.0.spent ≡ false) × (place.old.me.0.unsettled ≡ []) }
        requires turn { (t : ℕ) × (place.old.me.0.stage ≡ Serves t) }
        requires held { (y : T) × (place.old.me.1 ≡ (0, y) ∷ []) × Leaves T.program T.stands place.old.me.0.opened_part y (place.old.me.0.seen ++ W.added) }
        requires legal { LegalFrom T.program T.stands place.old.me.0.opened_part (place.old.me.0.seen ++ W.added) }
        requires mine { entries_of place.old.me.0.number W.added ≡ W.added }
        requires others { (k : ℕ) → k ≢ place.old.me.0.number → entries_of k W.added ≡ [] }
        ensures { (place.new.table_id ≡ place.old.table_id) × (place.new.id ≡ place.old.id) × (place.new.me ≡ (released place.old.me.0 W.added, [])) }
    {
        let turn = self.table.shared.fetch_add::<Release<W>>(place, 2, 1);
        self.call_next(turn.wrapping_add(1));
    }

    // The same with one entry, that of the request. What is asked and answered is handed in for the contract alone.
    fn note<W: Adds>(&self, place: &mut Place<T>, _thread: u32, _request: &Request, _reply: &Reply)
        requires entry { W.added ≡ entry place.old.me.0.number _thread _request.now _reply.now ∷ [] }
        requires own { place.old.table_id ≡ self.now.table.shared.table_id }
        requires live { (place.old.me.0.spent ≡ false) × (place.old.me.0.unsettled ≡ []) }
        requires turn { (t : ℕ) × (place.old.me.0.stage ≡ Serves t) }
        requires held { (y : T) × (place.old.me.1 ≡ (0, y) ∷ []) × Leaves T.program T.stands place.old.me.0.opened_part y (place.old.me.0.seen ++ entry place.old.me.0.number _thread _request.now _reply.now ∷ []) }
        requires legal { LegalFrom T.program T.stands place.old.me.0.opened_part (place.old.me.0.seen ++ entry place.old.me.0.number _thread _request.now _reply.now ∷ []) }
        ensures { (place.new.table_id ≡ place.old.table_id) × (place.new.id ≡ place.old.id) × (place.new.me ≡ (released place.old.me.0 (entry place.old.me.0.number _thread _request.now _reply.now ∷ []), [])) }
    {
        self.release::<W>(place);
    }

    // Comes in, takes a ticket, waits for its turn and has the request served.
    pub(crate) fn ask_at<R: Wait>(
        &self,
        rt: &R,
        place: &mut Place<T>,
        thread: u32,
        request: &Request,
    ) -> Result<Reply, Memory>
        requires own { place.old.table_id ≡ self.now.table.shared.table_id }
        requires rest { IsAtRest place.old }
        requires fits { MayAsk T.program T.takes place.old.me.0.opened_part thread request.now }
        ensures own { place.new.table_id ≡ place.old.table_id }
        ensures rest { IsAtRest place.new }
        ensures seat { IsSameSeat place.old.me.0 place.new.me.0 }
        ensures answer { MatchResult result (λ reply. Answers (LegalFrom T.program T.stands) thread request.now place.old.me.0 reply place.new.me.0) (λ e. Refuses (Leaves T.program T.stands) (LegalFrom T.program T.stands) T.lacks thread request.now place.old.me.0 place.new.me.0) }
    {
        self.come_in(rt, thread);
        let ticket = self.table.shared.fetch_add::<TakeTicket>(place, 1, 1);
        self.wait(rt, place, ticket);
        match self.serve_held(place, thread, request) {
            Ok(reply) => {
                self.note::<Brand>(place, thread, request, &reply);
                Ok(reply)
            }
            Err(failed) => {
                self.release::<Nothing>(place);
                Err(failed)
            }
        }
    }

    // Draws a number, and tries again where another seat was faster. `None` where all numbers are out.
    pub(crate) fn split_at<R: Wait>(&self, rt: &R, place: &mut Place<T>) -> Option<Place<T>>
        requires own { (place.old.table_id ≡ self.now.table.shared.table_id) × (place.old.me.0.seats ≡ self.now.seats) }
        requires rest { IsAtRest place.old }
        ensures own { place.new.table_id ≡ place.old.table_id }
        ensures rest { IsAtRest place.new }
        ensures some { IfSome result (λ p. (p.table_id ≡ place.old.table_id) × IsAtRest p × IsSplit place.old.me.0 place.new.me.0 p.me.0) }
        ensures seats { place.new.me.0.seats ≡ place.old.me.0.seats }
        ensures none { IfNone result (IsFull place.old.me.0 place.new.me.0) }
    {
        for _ in rt.forever() {
            let number = self.table.shared.load::<CountNumbers>(place, 0);
            if number >= self.seats as u64 {
                return None;
            }
            if self
                .table
                .shared
                .compare_exchange::<DrawNumber>(place, 0, number, number + 1)
                == number
            {
                return Some(self.table.shared.split_seat::<SplitOff>(place));
            }
        }
        unreachable!()
    }

    // Takes in another seat. The load behind it brings the history up to date, and settles the other's numbers.
    pub(crate) fn join_at(&self, place: &mut Place<T>, other: Place<T>)
        requires own { (place.old.table_id ≡ self.now.table.shared.table_id) × (other.table_id ≡ self.now.table.shared.table_id) }
        requires rest { IsAtRest place.old × IsAtRest other }
        ensures own { place.new.table_id ≡ place.old.table_id }
        ensures rest { IsAtRest place.new }
        ensures joined { HasJoined place.old.me.0 other.me.0 place.new.me.0 }
    {
        self.table.shared.join_seat::<TakeIn>(place, other);
        self.table.shared.load::<Settle>(place, 0);
    }

    // The part, where no other seat is out.
    pub(crate) fn close_at(self, place: Place<T>) -> T
        requires own { place.table_id ≡ self.table.shared.table_id }
        requires rest { IsAtRest place }
        requires alone { IsAlone place.me.0 }
        ensures { (history : List Entry) × HasClosed (Leaves T.program T.stands) (LegalFrom T.program T.stands) place.me.0 result history }
    {
        let CapLock {
            table,
            seats: _,
            bells: _,
            doors: _,
        } = self;
        let mut closed = table.close_with(place);
        let part = closed.take(0);
        closed.free();
        part
    }
}
