//! The rules of the tables that are a log and a word of tickets, and what their steps do to views.
//!
//! A rule says that there is one log of all that was done, numbered by the tickets from the first on, and that each track
//! of a view is the part of the log that its name has. A name has one track: so whoever has it knows all of that part, and
//! a step that puts a deed at the end of the log asks for the tracks of all names to which the deed belongs.

use crate::views::{Deed, Terms, View};
use atomic_table::{Join, Play, Split, TableRule};
use std::marker::{Brand, PhantomData};

/// There is one log, and each track is its part.
pub(crate) struct OneLog;

impl TableRule<(), View, Terms> for OneLog {
    ghost use Rattle.c104_tickets.specs.Tickets.{HasLog, first_view};

    ghost holds = { λ terms s. HasLog terms s.views };

    ghost first = { first_view };
}

/// There is one log, each track is its part, and a word is the next ticket.
pub(crate) struct LogWithWord;

impl TableRule<(), View, Terms> for LogWithWord {
    ghost use Rattle.c104_tickets.specs.Tickets.{IsWordOf, first_view};

    ghost holds = { λ terms s. IsWordOf terms s.words s.views };

    ghost first = { first_view };
}

/// Says which deed joins the log. It has no value: the caller picks [`Brand`], and says the deed in its proofs.
pub trait Asks {
    ghost use Rattle.c104_tickets.specs.declared.views.Deed.{Deed};

    ghost deed: { Deed };
}

impl Asks for Brand {
    ghost use Rattle.c104_tickets.specs.Tickets.{no_deed};

    ghost deed = { no_deed };
}

/// The word as it was is the ticket of the deed.
pub(crate) struct Draws<A: Asks> {
    of: PhantomData<A>,
}

impl<A: Asks> Play<(), View> for Draws<A> {
    ghost use Rattle.std.specs.Prelude.{◌≡◌, ◌≤◌};
    ghost use Rattle.c104_tickets.specs.Tickets.{AreEarlier, after_draw};

    ghost then = { λ _ me found after.
        (after ≡ (after_draw me.0 A.deed found, me.1)) × AreEarlier found me.0.tracks × (me.0.terms.first ≤ found) };
}

/// The deed has some ticket, and what was read tells nothing of it.
pub(crate) struct Appends<A: Asks> {
    of: PhantomData<A>,
}

impl<A: Asks> Play<(), View> for Appends<A> {
    ghost use Rattle.std.specs.Prelude.{◌≡◌};
    ghost use Rattle.c104_tickets.specs.Tickets.{IsAppended};

    ghost then = { λ _ me _ after. (after.1 ≡ me.1) × IsAppended A.deed me.0 after.0 };
}

/// A pass gives the first of its tracks to another.
pub(crate) struct GivesFirst;

impl Split<View> for GivesFirst {
    ghost use Rattle.c104_tickets.specs.Tickets.{after_split, first_track};

    ghost left = { after_split };

    ghost right = { first_track };
}

/// A pass takes another in.
pub(crate) struct TakesIn;

impl Join<View> for TakesIn {
    ghost use Rattle.c104_tickets.specs.Tickets.{after_join, spent};

    ghost both = { after_join };

    ghost spent = { spent };
}
