//! Whether the tickets of seats' lists rise, and stand in one list alone.
ghost use Rattle.c104_audit.specs.{Audits.HaveOtherTickets, Leads.AreRising, Tests.{AreApart, AreCalledBelow, IsApart, IsListed}};
ghost use Rattle.c104_audit.specs.Tests.{IsRisingAt, Skips, StandsFirst, is_later, listed_after};
ghost use Rattle.c104_event.specs.declared.calls.Call.{Call as TheCall};
ghost use Rattle.std.specs.Prelude.{IsTrue, None, drop, length, nat_le, ◌&&◌, ◌<◌, ◌↔◌, ◌≡◌};

use crate::lists::Lists;
use c104_event::Call;

/// Whether a ticket is later than another, if there is another, and not below the first.
fn is_next_ticket(first: u64, last: Option<u64>, ticket: u64) -> bool
    ensures { result ≡ (is_later last ticket && nat_le first ticket) }
{
    match last {
        Some(last) => last < ticket && first <= ticket,
        None => first <= ticket,
    }
}

/// Whether the tickets of a seat's list rise strictly, and none is below the first.
pub fn is_listed(first: u64, calls: &[Call]) -> bool
    ensures { IsTrue result ↔ IsListed first calls.now }
{
    are_in_order(first, calls)
}

/// The same, as a loop tells it.
fn are_in_order(first: u64, calls: &[Call]) -> bool
    ensures { result ≡ listed_after first None calls.now }
{
    let mut last = None;
    for call in calls {
        if !is_next_ticket(first, last, call.ticket) {
            return false;
        }
        last = Some(call.ticket);
    }
    true
}

/// The place of the first call, from a place on, whose ticket isn't below this one.
fn next_from(calls: &[Call], from: usize, ticket: u64) -> usize
    ensures { Skips calls.now from result ticket }
{
    for at in from..calls.len() {
        if calls[at].ticket >= ticket {
            return at;
        }
    }
    calls.len()
}

/// Whether a call of this ticket stands at a place.
fn stands(calls: &[Call], at: usize, ticket: u64) -> bool
    ensures { IsTrue result ↔ StandsFirst ticket (drop at calls.now) }
{
    at < calls.len() && calls[at].ticket == ticket
}

/// Whether no ticket stands in both lists.
fn are_apart(calls: &[Call], others: &[Call]) -> bool
    requires calls { AreRising (λ (c : TheCall). c.ticket) calls.now }
    requires others { AreRising (λ (c : TheCall). c.ticket) others.now }
    ensures { IsTrue result ↔ HaveOtherTickets calls.now others.now }
{
    let mut met = 0;
    for call in calls {
        met = next_from(others, met, call.ticket);
        if stands(others, met, call.ticket) {
            return false;
        }
    }
    true
}

/// Whether no ticket of a seat's list stands in another's.
fn are_seats_apart(lists: &Lists, seat: usize, other: usize) -> bool
    requires seat { seat < length lists.now.calls }
    requires other { other < length lists.now.calls }
    requires rising { IsRisingAt lists.now seat }
    requires others { IsRisingAt lists.now other }
    ensures { IsTrue result ↔ AreApart lists.now seat other }
{
    let calls = lists.calls.as_slice();
    are_apart(calls[seat].as_slice(), calls[other].as_slice())
}

/// Whether no ticket of a seat's list stands in a lower seat's.
pub fn is_apart(lists: &Lists, seat: usize) -> bool
    requires seat { seat < length lists.now.calls }
    requires rising { IsRisingAt lists.now seat }
    requires lower { AreCalledBelow lists.now seat }
    ensures { IsTrue result ↔ IsApart lists.now seat }
{
    for lower in 0..seat {
        if !are_seats_apart(lists, seat, lower) {
            return false;
        }
    }
    true
}
