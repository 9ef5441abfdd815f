//! Tickets that several seats draw from one word, and the one order of all that they do.
//!
//! - [`TicketWord`] is the word, which holds the next ticket, and a log of all that was done, which exists in proofs alone.
//!   There are four kinds of atomic step on the word, and no other: it is made, a pass is split off another, a ticket is
//!   drawn by a single addition, and two passes are joined.
//! - [`DeedLog`] is the same log without a word, where only proofs ask for tickets: a deed joins it at a load of what nothing
//!   writes.
//! - [`Pass`] is what one steps with. In contracts it is what it knows, its [`View`]: the tracks of seats and of places,
//!   each of them the part of the log that belongs to it.
//!
//! A draw puts a [`Deed`] at the end of the log. It asks for the tracks of all to which the deed belongs: the seat's, and
//! those of the places of its nodes. So the passes of places, which lie behind the locks of their nodes, are joined into the
//! seat's before a draw, and split off again behind it; and whoever has a track knows all of what its name did.
//!
//! That there is one log, of which each track is a part, holds between any two steps, whoever takes them: it is the rule of
//! the table (`IsLogOf`; with its word `IsWordOf`). So [`TicketWord::close`] and [`DeedLog::close`] can tell it of the pass
//! that is handed back.
#![tactic(auto)]

mod deed_log;
mod passes;
mod rule;
mod ticket_word;
mod views;

pub use deed_log::DeedLog;
pub use passes::Pass;
pub use rule::Asks;
pub use ticket_word::TicketWord;
pub use views::{Deed, Done, Name, Terms, Track, View};

/// The most seats of a word.
pub const SEAT_LIMIT: u64 = 64;

/// The most tickets of a seat.
pub const TICKET_LIMIT: u64 = 1_099_511_627_776;

/// The largest first ticket.
pub const FIRST_LIMIT: u64 = 335_544_320;

// Contracts name these limits: their values are a part of what they say, so a change of one alone is refused.
const _: () = prove!(SEAT_LIMIT == 64);

const _: () = prove!(TICKET_LIMIT == 1_099_511_627_776);

const _: () = prove!(FIRST_LIMIT == 335_544_320);
