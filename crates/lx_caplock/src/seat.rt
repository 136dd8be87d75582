//! A seat as callers see it, at rest between calls.
ghost use Rattle.lx_caplock.specs.Views.{IsAtRest};

use crate::lock::Place;

/// What a thread asks with. It has no bytes, and comes from the lock's opening or by a split of such a seat.
#[derive(Drop)]
pub struct Seat<T> {
    pub(crate) place: Place<T>,
    ghost rest: { IsAtRest place },
}
