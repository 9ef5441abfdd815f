//! A log without a word of tickets.
//!
//! A draw of a ticket writes a word that all share, which costs the more the more threads draw. Where nobody needs the number
//! when the program runs, only proofs ask for it: so a step loads a word that nothing writes, which tells nothing, and the log
//! grows at the moment of that load.
ghost use Rattle.std.specs.Prelude.{◌≡◌, ◌≤◌, IfOk};
ghost use Rattle.c104_tickets.specs.declared.TheConstants.{FIRST_LIMIT, SEAT_LIMIT};
ghost use Rattle.c104_tickets.specs.Tickets.{IsAppended, IsClosedLog, IsFree, after_join, after_split, first_track, first_view};

use crate::passes::Pass;
use crate::rule::{Appends, Asks, GivesFirst, OneLog, TakesIn};
use crate::views::{Terms, View};
use atomic_table::Table;
use std::alloc::{AllocError, Global};
use std::marker::Model;

/// Words that nothing writes, of which the first is loaded. So many that what is written behind them is on another line of a
/// processor's cache.
const WORDS: [u64; 16] = [0; 16];

/// A log of all that was done through the passes to it, which exists in proofs alone.
#[derive(Drop)]
pub struct DeedLog {
    table: Table<(), View, Terms, OneLog, Global>,
    first: u64,
}

impl Model for DeedLog {
    ghost use Rattle.std.specs.Prelude.{◌≡◌, ◌≤◌};
    ghost use Rattle.c104_tickets.specs.{Tickets.WordValue, declared.TheConstants.{FIRST_LIMIT, SEAT_LIMIT}};

    ghost Value = { WordValue };

    ghost view = { λ l. record { word_id = l.table.shared.table_id; terms = l.table.shared.key } };

    ghost invariant = { λ l. (l.table.shared.table_id.words ≡ 16) × (l.table.shared.table_id.slots ≡ 0)
        × (l.table.shared.key.first ≡ l.first) × (l.table.shared.key.first ≤ FIRST_LIMIT)
        × (l.table.shared.key.seats ≤ SEAT_LIMIT) };
}

impl DeedLog {
    /// An empty log whose first ticket is 335,544,320 at most, of at most 64 seats, and the pass that has all tracks: those of
    /// the seats, and then those of the places. It fails only when out of memory.
    pub fn new(alloc: Global, terms: Terms) -> Result<(DeedLog, Pass), AllocError>
        requires first { terms.first ≤ FIRST_LIMIT }
        requires seats { terms.seats ≤ SEAT_LIMIT }
        ensures log { IfOk result (λ made. made.0.terms ≡ terms) }
        ensures pass { IfOk result (λ made. (made.1.word_id ≡ made.0.word_id) × (made.1.view ≡ first_view terms)) }
    {
        let first = terms.first;
        let (table, seat) = Table::of_words(alloc, &WORDS, &terms)?;
        Ok((DeedLog { table, first }, Pass { seat }))
    }

    /// The first ticket.
    pub fn first(&self) -> u64
        ensures first { result ≡ self.now.terms.first }
        ensures fits { (result ≤ FIRST_LIMIT) × (self.now.terms.seats ≤ SEAT_LIMIT) }
    {
        self.first
    }

    /// A pass with the first of the tracks.
    pub fn split(&self, pass: &mut Pass) -> Pass
        requires log { pass.old.word_id ≡ self.now.word_id }
        ensures old { (pass.new.word_id ≡ pass.old.word_id) × (pass.new.view ≡ after_split pass.old.view) }
        ensures made { (result.word_id ≡ pass.old.word_id) × (result.view ≡ first_track pass.old.view) }
    {
        let seat = self.table.shared.split_seat::<GivesFirst>(&mut pass.seat);
        Pass { seat }
    }

    /// Puts the caller's deed at the end of the log. The pass has the tracks of all to which it belongs. There is a ticket for
    /// it, the next, which is greater than all that they have. No seat does more than 2⁴⁰ deeds.
    pub fn append<A: Asks>(&self, pass: &mut Pass)
        requires log { pass.old.word_id ≡ self.now.word_id }
        requires free { IsFree A.deed pass.old.view }
        ensures log { pass.new.word_id ≡ pass.old.word_id }
        ensures appended { IsAppended A.deed pass.old.view pass.new.view }
    {
        self.table.shared.load::<Appends<A>>(&mut pass.seat, 0);
    }

    /// Takes in another pass, whose tracks come first.
    pub fn join(&self, pass: &mut Pass, other: Pass)
        requires log { (pass.old.word_id ≡ self.now.word_id) × (other.word_id ≡ self.now.word_id) }
        ensures joined { (pass.new.word_id ≡ pass.old.word_id) × (pass.new.view ≡ after_join pass.old.view other.view) }
    {
        let Pass { seat } = other;
        self.table.shared.join_seat::<TakesIn>(&mut pass.seat, seat);
    }

    /// Ends the log. There is one, numbered from the first ticket on without a gap, and each track of the pass is the part of
    /// the log that its name has; no name has two tracks.
    pub fn close(self, pass: Pass)
        requires log { pass.word_id ≡ self.word_id }
        ensures closed { IsClosedLog self.terms pass.view.tracks }
    {
        let Pass { seat } = pass;
        self.into_table().close_with(seat).free();
    }

    fn into_table(self) -> Table<(), View, Terms, OneLog, Global>
        ensures table { (result.shared.table_id ≡ self.word_id) × (result.shared.key ≡ self.terms) }
        ensures counts { (result.shared.table_id.words ≡ 16) × (result.shared.table_id.slots ≡ 0) }
    {
        let DeedLog { table, first: _ } = self;
        table
    }
}
