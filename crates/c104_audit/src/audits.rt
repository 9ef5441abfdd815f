//! The audit.
ghost use Rattle.std.specs.Prelude.{IfOk, MatchResult, ◌≡◌};
ghost use Rattle.c104_audit.specs.{AuditFaults.IsFault, Audits.{AreLists, IsAudited, lists_events}};

use crate::befores::first_changed;
use crate::ends::first_unequal;
use crate::faults::AuditFault;
use crate::leads::sorted_leads;
use crate::lists::Lists;
use crate::orders::first_unordered;
use crate::seats::first_uncalled;
use crate::tellings::events_of;
use crate::wired::first_misshapen;
use c104_event::Event;
use std::alloc::Global;

/// The events that lists tell, in order, where they are those of one run; or else the first fault.
pub fn audit_lists(alloc: Global, lists: &Lists) -> Result<Vec<Event>, AuditFault>
    requires { AreLists lists.now }
    ensures audited { MatchResult result (λ _. IsAudited lists.now) (IsFault lists.now) }
    ensures told { IfOk result (λ events. events.items ≡ lists_events lists.now) }
{
    if let Some(node) = first_misshapen(lists) {
        return Err(AuditFault::Shape(node));
    }
    if let Some(node) = first_unordered(lists) {
        return Err(AuditFault::Order(node));
    }
    if let Some(wire) = first_unequal(lists) {
        return Err(AuditFault::Ends(wire));
    }
    let leads = sorted_leads(alloc, lists)?;
    let uncalled = first_uncalled(alloc, lists, leads.as_slice())?;
    if let Some(seat) = uncalled {
        return Err(AuditFault::Calls(seat));
    }
    if let Some(node) = first_changed(lists) {
        return Err(AuditFault::Before(node));
    }
    Ok(events_of(alloc, lists, leads.as_slice())?)
}
