//! Calls that have ended.
use lx_model::request::Outcome;
use std::marker::Model;

/// A call that has ended: its function, and how it ended.
#[derive(Clone, Copy)]
pub struct Ending {
    pub function: u32,
    pub outcome: Outcome,
}

impl Model for Ending {
    ghost use Rattle.lx_model.specs.Thread.{Ending as Meaning};

    ghost Value = { Meaning };

    ghost view = { λ e. record { function = e.function; outcome = e.outcome } };

    ghost inverse = { λ e. record { function = e.function; outcome = e.outcome } };
}
