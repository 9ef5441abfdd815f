//! The events that entries tell which lead.
ghost use Rattle.std.specs.Prelude.{IfOk, ◌≡◌};
ghost use Rattle.c104_audit.specs.{Audits.lists_events, Tests.AreLeads};

use crate::lists::Lists;
use c104_event::Event;
use c104_net::{Lead, event_of};
use c104_token::NoMemory;
use std::alloc::Global;

/// The events of all entries that lead, in their order. The only error is out of memory.
pub fn events_of(alloc: Global, lists: &Lists, leads: &[Lead]) -> Result<Vec<Event>, NoMemory>
    requires { AreLeads lists.now leads.now }
    ensures { IfOk result (λ events. events.items ≡ lists_events lists.now) }
{
    let mut events = Vec::new(alloc);
    let traces = lists.traces.as_slice();
    for lead in leads {
        let event = event_of(lists.switches, traces, lead)?;
        events.push(event)?;
    }
    Ok(events)
}
