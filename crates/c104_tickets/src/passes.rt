//! Passes to a word of tickets, or to a log without one.

use crate::views::View;
use atomic_table::Seat;
use std::marker::Model;

/// What one steps with: it lies with a seat, or behind a lock beside the node of a place.
#[derive(Drop)]
pub struct Pass {
    pub(crate) seat: Seat<(), View>,
}

impl Model for Pass {
    ghost use Rattle.std.specs.Prelude.{◌≡◌, []};
    ghost use Rattle.c104_tickets.specs.Tickets.{PassValue};

    ghost Value = { PassValue };

    ghost view = { λ p. record { word_id = p.seat.table_id; view = p.seat.me.0 } };

    ghost invariant = { λ p. p.seat.me.1 ≡ [] };
}
