//! The events of a run, found again from the entries of its nodes in the order of tickets.
//!
//! Each event is told by the entry that leads in it. Those entries are gathered, one node after the other, and sorted by
//! ticket (`sorted_leads`, by `sort_leads`); then each tells its event (`event_of`).
//!
//! A table by ticket would want tickets without gaps, and a search for the least next ticket would look at every node for
//! each event. The sort takes three words an event. Of events with the same ticket, which only made lists have, the one
//! whose leading node has the lower place comes first.
ghost use Rattle.std.specs.Prelude.{IfOk, List, OnOk, Some, map, slice_get, ℕ, ◌++◌, ◌≡◌};
ghost use Rattle.c104_net.specs.{Leading.{leads, led_events}, Merges.by_ticket, Replays.{lead_event, with_ticket}};
ghost use Rattle.{c104_net.specs.ToldEvents.{told_by, told_event}, c104_node.specs.declared.acts.Entry.Entry as TheEntry};

use c104_event::Event;
use c104_node::{Act, Entry};
use c104_run::act_event;
use c104_switch::ActionOf;
use c104_token::{Items, NoMemory};
use std::alloc::Global;

/// An entry that leads: its ticket, the place of its node, and its place in the trace there.
#[derive(Clone, Copy, Debug)]
pub struct Lead {
    pub ticket: u64,
    pub place: usize,
    pub at: usize,
}

/// Whether an act leads in its event: it is its only one, or, of the two at the ends of a wire, the one where the
/// token or the credits go out.
fn is_leading(act: &Act) -> bool
    ensures { result ≡ leads act.now }
{
    match act {
        Act::Step(ActionOf::Enter(_, _) | ActionOf::CreditIn(_)) => false,
        Act::Enter(_) | Act::CreditIn => false,
        _ => true,
    }
}

/// The event that an entry leads in. Where there is no such entry, or it doesn't lead, that terminal 0 drains. The
/// only error is out of memory.
pub fn event_of(switches: usize, traces: &[Items<Entry>], lead: &Lead) -> Result<Event, NoMemory>
    ensures { IfOk result (λ event. event ≡ told_event (lead_event switches traces.now lead.now)) }
{
    let Some(trace) = traces.get(lead.place) else {
        return Ok(Event::Drain { terminal: 0 });
    };
    let Some(entry) = trace.as_slice().get(lead.at) else {
        return Ok(Event::Drain { terminal: 0 });
    };
    match act_event(switches, lead.place, &entry.act)? {
        Some(event) => Ok(event),
        None => Ok(Event::Drain { terminal: 0 }),
    }
}

/// Adds the entries that lead of the trace of the node at a place. The only error is out of memory.
fn add_leads(place: usize, trace: &[Entry], leads: &mut Vec<Lead>) -> Result<(), NoMemory>
    ensures { (switches : ℕ) (traces : List (List TheEntry)) → slice_get traces place ≡ Some trace.now →
        OnOk result (map (lead_event switches traces) leads.new.items
        ≡ map (lead_event switches traces) leads.old.items ++ led_events switches place trace.now) }
{
    for at in 0..trace.len() {
        let entry = &trace[at];
        if is_leading(&entry.act) {
            leads.push(Lead {
                ticket: entry.ticket,
                place,
                at,
            })?;
        }
    }
    Ok(())
}

/// The entries that lead, one trace after the other. The only error is out of memory.
fn all_leads(alloc: Global, traces: &[Items<Entry>]) -> Result<Vec<Lead>, NoMemory>
    ensures { (switches : ℕ) → IfOk result (λ leads.
        map (lead_event switches traces.now) leads.items ≡ told_by switches 0 traces.now) }
{
    let mut leads = Vec::new(alloc);
    for place in 0..traces.len() {
        add_leads(place, traces[place].as_slice(), &mut leads)?;
    }
    Ok(leads)
}

/// The entries that lead, by ticket, and those of one ticket by the places of their nodes. The only error is out of
/// memory.
pub fn sorted_leads(alloc: Global, traces: &[Items<Entry>]) -> Result<Vec<Lead>, NoMemory>
    ensures { (switches : ℕ) → IfOk result (λ leads.
        map (lead_event switches traces.now) leads.items ≡ by_ticket (told_by switches 0 traces.now)) }
{
    let mut leads = all_leads(alloc, traces)?;
    sort_leads(&mut leads)?;
    Ok(leads)
}

/// Sorts entries that lead by ticket; those of one ticket stay in their order. The only error is out of memory.
pub fn sort_leads(leads: &mut Vec<Lead>) -> Result<(), NoMemory>
    ensures { OnOk result (map with_ticket leads.new.items ≡ by_ticket (map with_ticket leads.old.items)) }
{
    leads.sort_by_key(|lead| lead.ticket)?;
    Ok(())
}
