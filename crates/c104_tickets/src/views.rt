//! What is known of a word of tickets. No value of these is ever made: they are for contracts and proofs alone.

use c104_event::Event;
use c104_switch::Reply;
use std::collections::LinkedList;

/// What a word is told when it is made.
#[derive(Clone, Copy)]
pub struct Terms {
    /// The first ticket.
    pub first: u64,
    /// How many seats there are.
    pub seats: u64,
    /// How many places there are.
    pub places: u64,
}

/// Who has a part of what was done: a seat, or a place.
#[derive(Clone, Copy)]
pub enum Name {
    /// The seat of this number.
    Seat(u64),
    /// The place of this number.
    Place(u64),
}

/// What is done through a seat.
pub struct Deed {
    /// The seat.
    pub seat: u64,
    /// The place of the node that leads. None where it stands at no place of these.
    pub near: Option<u64>,
    /// The place of the node at the other end of the wire, where there is one.
    pub far: Option<u64>,
    /// The event.
    pub event: Event,
    /// What was answered.
    pub reply: Reply,
    /// Where the token that was answered tells of a packet: the terminal that sent it. 0 where it tells of none.
    pub terminal: u64,
    /// Which of the packets of that terminal. 0 where it tells of none.
    pub number: u64,
}

/// A deed that was done, with its ticket.
pub struct Done {
    /// The ticket.
    pub ticket: u64,
    /// The deed.
    pub deed: Deed,
}

/// All that was done of which someone has a part, in order.
pub struct Track {
    /// Who that is.
    pub name: Name,
    /// What was done.
    pub done: LinkedList<Done>,
}

/// What a pass knows.
pub struct View {
    /// What the word was told.
    pub terms: Terms,
    /// The tracks that it has.
    pub tracks: LinkedList<Track>,
}
