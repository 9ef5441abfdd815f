//! The word of tickets.
//!
//! A step that changes what a pass knows is a step on the word, since views change at no other. So `split` and `join` load
//! it once, of which nothing is told.
ghost use Rattle.std.specs.Prelude.{◌≡◌, ◌≤◌, IfOk};
ghost use Rattle.c104_tickets.specs.declared.TheConstants.{FIRST_LIMIT, SEAT_LIMIT};
ghost use Rattle.c104_tickets.specs.Tickets.{AreEarlier, IsClosed, IsFree, after_draw, after_join, after_split, first_track, first_view};

use crate::passes::Pass;
use crate::rule::{Asks, Draws, GivesFirst, LogWithWord, TakesIn};
use crate::views::{Terms, View};
use atomic_table::Table;
use std::alloc::{AllocError, Global};
use std::marker::Model;

/// Which word of the table is that of tickets. The steps that draw none load the first word, which nothing writes: so these are
/// on another line of a processor's cache.
const WORD: usize = 16;

/// The next ticket, as a word that all passes share.
#[derive(Drop)]
pub struct TicketWord {
    table: Table<(), View, Terms, LogWithWord, Global>,
    first: u64,
}

impl Model for TicketWord {
    ghost use Rattle.std.specs.Prelude.{◌≡◌};
    ghost use Rattle.c104_tickets.specs.Tickets.{WordValue};

    ghost Value = { WordValue };

    ghost view = { λ w. record { word_id = w.table.shared.table_id; terms = w.table.shared.key } };

    ghost invariant = { λ w. (w.table.shared.table_id.words ≡ 17) × (w.table.shared.table_id.slots ≡ 0)
        × (w.table.shared.key.first ≡ w.first) };
}

impl TicketWord {
    /// A word at the first ticket, which is 335,544,320 at most, of at most 64 seats, and the pass that has all tracks: those
    /// of the seats, and then those of the places. It fails only when out of memory.
    // It answers `AllocError`, and not `NoMemory`: that is of a crate above this one.
    pub fn new(alloc: Global, terms: Terms) -> Result<(TicketWord, Pass), AllocError>
        requires first { terms.first ≤ FIRST_LIMIT }
        requires seats { terms.seats ≤ SEAT_LIMIT }
        ensures word { IfOk result (λ made. made.0.terms ≡ terms) }
        ensures pass { IfOk result (λ made. (made.1.word_id ≡ made.0.word_id) × (made.1.view ≡ first_view terms)) }
    {
        let first = terms.first;
        let words = [0, 0, 0, 0, 0, 0, 0, 0, 0, 0, 0, 0, 0, 0, 0, 0, first];
        let (table, seat) = Table::of_words(alloc, &words, &terms)?;
        Ok((TicketWord { table, first }, Pass { seat }))
    }

    /// The first ticket.
    pub fn first(&self) -> u64
        ensures { result ≡ self.now.terms.first }
    {
        self.first
    }

    /// A pass with the first of the tracks.
    pub fn split(&self, pass: &mut Pass) -> Pass
        requires word { pass.old.word_id ≡ self.now.word_id }
        ensures old { (pass.new.word_id ≡ pass.old.word_id) × (pass.new.view ≡ after_split pass.old.view) }
        ensures made { (result.word_id ≡ pass.old.word_id) × (result.view ≡ first_track pass.old.view) }
    {
        let seat = self.table.shared.split_seat::<GivesFirst>(&mut pass.seat);
        Pass { seat }
    }

    /// Draws the next ticket, by a single atomic addition: the caller's deed is the last of the log. The pass has the tracks
    /// of all to which it belongs. The ticket is greater than all that they have, and no seat draws more than 2⁴⁰.
    pub fn draw<A: Asks>(&self, pass: &mut Pass) -> u64
        requires word { pass.old.word_id ≡ self.now.word_id }
        requires free { IsFree A.deed pass.old.view }
        ensures drawn { (pass.new.word_id ≡ pass.old.word_id) × (pass.new.view ≡ after_draw pass.old.view A.deed result) }
        ensures above { AreEarlier result pass.old.view.tracks }
        ensures first { pass.old.view.terms.first ≤ result }
    {
        self.table
            .shared
            .fetch_add::<Draws<A>>(&mut pass.seat, WORD, 1)
    }

    /// Takes in another pass, whose tracks come first.
    pub fn join(&self, pass: &mut Pass, other: Pass)
        requires word { (pass.old.word_id ≡ self.now.word_id) × (other.word_id ≡ self.now.word_id) }
        ensures joined { (pass.new.word_id ≡ pass.old.word_id) × (pass.new.view ≡ after_join pass.old.view other.view) }
    {
        let Pass { seat } = other;
        self.table.shared.join_seat::<TakesIn>(&mut pass.seat, seat);
    }

    /// Ends the word, and answers the next ticket. There is one log, numbered from the first ticket up to the next, without
    /// it, and each track of the pass is the part of the log that its name has; no name has two tracks.
    pub fn close(self, pass: Pass) -> u64
        requires word { pass.word_id ≡ self.word_id }
        ensures closed { IsClosed self.terms result pass.view.tracks }
    {
        let Pass { seat } = pass;
        let closed = self.into_table().close_with(seat);
        let next = closed.word(WORD);
        closed.free();
        next
    }

    fn into_table(self) -> Table<(), View, Terms, LogWithWord, Global>
        ensures table { (result.shared.table_id ≡ self.word_id) × (result.shared.key ≡ self.terms) }
        ensures counts { (result.shared.table_id.words ≡ 17) × (result.shared.table_id.slots ≡ 0) }
    {
        let TicketWord { table, first: _ } = self;
        table
    }
}
