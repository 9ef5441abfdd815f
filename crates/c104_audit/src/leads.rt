//! The entries that lead, of all traces, by ticket and then by place.
ghost use Rattle.std.specs.Prelude.{IfOk, OnOk, Some, length, map, slice_get, ◌++◌, ◌<◌, ◌≡◌};
ghost use Rattle.c104_audit.specs.{AuditFaults.Everywhere, Audits.{AreLists, IsShaped, is_leading}, Leads.{leads_at, leads_from}};
ghost use Rattle.{c104_audit.specs.Tests.{AreLeads, lead_in}, c104_node.specs.declared.acts.Entry.Entry as TheEntry};

use crate::halves::is_of_kind;
use crate::lists::Lists;
use crate::wired::is_wired;
use c104_net::{Lead, sort_leads};
use c104_node::{Act, Entry};
use c104_switch::ActionOf;
use c104_token::NoMemory;
use std::alloc::Global;

/// Whether an entry of a node leads: it is of the node's kind, its link has a wire if it goes over one, and it is the
/// only one of its event, or that where the token or the credits went out.
fn is_leading(lists: &Lists, node: usize, entry: &Entry) -> bool
    requires lists { AreLists lists.now }
    requires shaped { IsShaped lists.now node }
    requires node { node < length lists.now.nodes }
    ensures { result ≡ is_leading lists.now.switches lists.now.wires node entry.now }
{
    if !is_of_kind(node < lists.switches, &entry.act) {
        return false;
    }
    match &entry.act {
        Act::Step(ActionOf::Leave(link)) => is_wired(lists, node, *link),
        Act::Step(ActionOf::CreditOut(link)) => is_wired(lists, node, *link),
        Act::Leave | Act::CreditOut => is_wired(lists, node, 0),
        Act::Step(ActionOf::Enter(_, _) | ActionOf::CreditIn(_)) => false,
        Act::Enter(_) | Act::CreditIn => false,
        _ => true,
    }
}

/// Adds the entries of a node that lead. The only error is out of memory.
fn add_leads(
    lists: &Lists,
    place: usize,
    trace: &[Entry],
    leads: &mut Vec<Lead>,
) -> Result<(), NoMemory>
    requires lists { AreLists lists.now }
    requires shaped { IsShaped lists.now place }
    requires trace { slice_get lists.now.traces place ≡ Some trace.now }
    ensures { OnOk result (
        map (lead_in lists.now.traces) leads.new.items
        ≡ map (lead_in lists.now.traces) leads.old.items
        ++ leads_at (λ (e : TheEntry). e.ticket) (is_leading lists.now.switches lists.now.wires) place trace.now) }
{
    for at in 0..trace.len() {
        let entry = &trace[at];
        if is_leading(lists, place, entry) {
            leads.push(Lead {
                ticket: entry.ticket,
                place,
                at,
            })?;
        }
    }
    Ok(())
}

/// The entries that lead, one trace after the other. The only error is out of memory.
fn all_leads(alloc: Global, lists: &Lists) -> Result<Vec<Lead>, NoMemory>
    requires lists { AreLists lists.now }
    requires shaped { Everywhere (IsShaped lists.now) }
    ensures { IfOk result (λ leads.
        map (lead_in lists.now.traces) leads.items
        ≡ leads_from (λ (e : TheEntry). e.ticket) (is_leading lists.now.switches lists.now.wires) 0 lists.now.traces) }
{
    let mut leads = Vec::new(alloc);
    let traces = lists.traces.as_slice();
    for place in 0..traces.len() {
        add_leads(lists, place, traces[place].as_slice(), &mut leads)?;
    }
    Ok(leads)
}

/// The entries that lead, by ticket and then by place. The only error is out of memory.
pub fn sorted_leads(alloc: Global, lists: &Lists) -> Result<Vec<Lead>, NoMemory>
    requires lists { AreLists lists.now }
    requires shaped { Everywhere (IsShaped lists.now) }
    ensures { IfOk result (λ leads. AreLeads lists.now leads.items) }
{
    let mut leads = all_leads(alloc, lists)?;
    sort_leads(&mut leads)?;
    Ok(leads)
}
