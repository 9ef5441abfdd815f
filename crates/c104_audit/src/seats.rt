//! Whether each seat's list is what the entries tell that carry its number.
//!
//! All seats' calls are compared in one walk over the entries that lead, with a count for each seat's list: so it takes
//! memory for a number of each seat, and reads no entry once for each of them.
ghost use Rattle.std.specs.Prelude.{IfOk, IsTrue, Some, length, slice_get, ◌<◌, ◌↔◌, ◌≡◌};
ghost use Rattle.c104_audit.specs.{AuditFaults.Everywhere, Audits.{AgreeAtEnds, AreLists, IsCalled}, Firsts.IsFirst, Tests.AreCalledBelow};
ghost use Rattle.c104_audit.specs.Tests.{AreCounts, AreLeads, CarryAtAllEnds, HasNoStray, IsToldAt, is_other, lead_seat, past_seat};

use crate::called::{seated_entry, told_counts};
use crate::end_seats::first_odd;
use crate::firsts::lower;
use crate::lists::Lists;
use crate::tickets::{is_apart, is_listed};
use c104_event::Call;
use c104_net::Lead;
use c104_token::NoMemory;
use std::alloc::Global;

/// Whether all calls of a seat are counted.
fn are_counted(counts: &[Option<usize>], seat: usize, calls: &[Call]) -> bool
    requires { seat < length counts.now }
    ensures { IsTrue result ↔ (slice_get counts.now seat ≡ Some (Some (length calls.now))) }
{
    counts[seat] == Some(calls.len())
}

/// Whether a seat's list is told by the entries that carry its number, and in order. Of each seat it is known how many
/// calls they tell.
fn is_told(lists: &Lists, counts: &[Option<usize>], seat: usize) -> bool
    requires counts { AreCounts lists.now counts.now }
    requires seat { seat < length lists.now.calls }
    ensures { IsTrue result ↔ IsToldAt lists.now seat }
{
    let calls = lists.calls.as_slice()[seat].as_slice();
    are_counted(counts, seat, calls) && is_listed(lists.first, calls)
}

/// Whether the two ends of each wire agree on a seat, as far as the first tells on which they don't: it is another.
fn ends_agree_on(seat: usize, odd: Option<usize>) -> bool
    ensures { result ≡ is_other seat odd }
{
    match odd {
        Some(odd) => seat != odd,
        None => true,
    }
}

/// Whether a seat's list is what the entries tell that carry its number. The lower seats' lists are, and `odd` is the first
/// seat for which what passes at the two ends of some wire differs.
fn is_called(lists: &Lists, counts: &[Option<usize>], odd: Option<usize>, seat: usize) -> bool
    requires counts { AreCounts lists.now counts.now }
    requires odd { IsFirst (CarryAtAllEnds lists.now) odd }
    requires seat { seat < length lists.now.calls }
    requires lower { AreCalledBelow lists.now seat }
    ensures { IsTrue result ↔ IsCalled lists.now seat }
{
    if !ends_agree_on(seat, odd) {
        return false;
    }
    if !is_told(lists, counts, seat) {
        return false;
    }
    is_apart(lists, seat)
}

/// The seat of one that leads, where it is this number or a higher one.
fn stray_seat(lists: &Lists, lead: &Lead, count: usize) -> Option<usize>
    ensures { result ≡ past_seat count (lead_seat lists.now lead.now) }
{
    let (seat, _) = seated_entry(lists, lead)?;
    if seat >= count { Some(seat) } else { None }
}

/// The first seat from a number on that some entry carries which leads.
fn first_stray(lists: &Lists, leads: &[Lead], count: usize) -> Option<usize>
    requires { AreLeads lists.now leads.now }
    ensures { IsFirst (HasNoStray lists.now count) result }
{
    let mut first = None;
    for lead in leads {
        first = lower(first, stray_seat(lists, lead, count));
    }
    first
}

/// The first seat whose list isn't what the entries tell that carry its number, where of each it is known how many of
/// its calls they tell. What passes at the two ends of each wire agrees.
fn first_uncounted(lists: &Lists, leads: &[Lead], counts: &[Option<usize>]) -> Option<usize>
    requires lists { AreLists lists.now }
    requires ended { Everywhere (AgreeAtEnds lists.now) }
    requires leads { AreLeads lists.now leads.now }
    requires counts { AreCounts lists.now counts.now }
    ensures { IsFirst (IsCalled lists.now) result }
{
    let odd = first_odd(lists);
    let calls = lists.calls.as_slice();
    for seat in 0..calls.len() {
        if !is_called(lists, counts, odd, seat) {
            return Some(seat);
        }
    }
    let stray = first_stray(lists, leads, calls.len());
    lower(odd, stray)
}

/// The first seat whose list isn't what the entries tell that carry its number. What passes at the two ends of each wire
/// agrees. The only error is out of memory.
pub fn first_uncalled(
    alloc: Global,
    lists: &Lists,
    leads: &[Lead],
) -> Result<Option<usize>, NoMemory>
    requires lists { AreLists lists.now }
    requires ended { Everywhere (AgreeAtEnds lists.now) }
    requires leads { AreLeads lists.now leads.now }
    ensures { IfOk result (λ seat. IsFirst (IsCalled lists.now) seat) }
{
    let counts = told_counts(alloc, lists, leads)?;
    Ok(first_uncounted(lists, leads, counts.as_slice()))
}
