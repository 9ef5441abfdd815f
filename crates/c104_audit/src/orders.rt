//! Whether the tickets of each trace rise.
ghost use Rattle.std.specs.Prelude.{IsTrue, None, ◌↔◌, ◌≡◌};
ghost use Rattle.c104_audit.specs.{Audits.IsOrdered, Firsts.IsFirst, Leads.AreRising, Tests.{is_later, rises_after}};
ghost use Rattle.c104_node.specs.declared.acts.Entry.{Entry as TheEntry};

use crate::lists::Lists;
use c104_node::Entry;

/// Whether a ticket is later than another, if there is another.
fn is_later(last: Option<u64>, ticket: u64) -> bool
    ensures { result ≡ is_later last ticket }
{
    match last {
        Some(last) => last < ticket,
        None => true,
    }
}

/// Whether the tickets of a trace rise strictly.
#[tactic(auto, using(crate::proofs::RisingTickets::rises_is))]
fn is_rising(trace: &[Entry]) -> bool
    ensures { IsTrue result ↔ AreRising (λ (e : TheEntry). e.ticket) trace.now }
{
    rises(trace)
}

/// The same, as a loop tells it.
fn rises(trace: &[Entry]) -> bool
    ensures { result ≡ rises_after None trace.now }
{
    let mut last = None;
    for entry in trace {
        if !is_later(last, entry.ticket) {
            return false;
        }
        last = Some(entry.ticket);
    }
    true
}

/// The first node whose trace has tickets that don't rise strictly.
pub fn first_unordered(lists: &Lists) -> Option<usize>
    ensures { IsFirst (IsOrdered lists.now) result }
{
    let traces = lists.traces.as_slice();
    for node in 0..traces.len() {
        if !is_rising(traces[node].as_slice()) {
            return Some(node);
        }
    }
    None
}
