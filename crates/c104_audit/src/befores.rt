//! Whether each node is as it was handed over: its start, and its entries without a seat.
ghost use Rattle.std.specs.Prelude.{IsTrue, Some, is_some, length, slice_get, ◌<◌, ◌↔◌, ◌≡◌};
ghost use Rattle.c104_audit.specs.{Audits.{AreLists, IsAsBefore, unseated}, Firsts.IsFirst};

use crate::lists::Lists;
use crate::sameness::is_same_entry;
use crate::starts::is_same_start;
use c104_node::Entry;

/// Whether an entry stands at a place of a trace.
fn stands_at(entry: &Entry, trace: &[Entry], place: usize) -> bool
    ensures { IsTrue result ↔ (slice_get trace.now place ≡ Some entry.now) }
{
    place < trace.len() && is_same_entry(&trace[place], entry)
}

/// Whether a seat asked for an entry.
fn has_seat(entry: &Entry) -> bool
    ensures { result ≡ is_some entry.now.seat }
{
    entry.seat.is_some()
}

/// Whether the entries of a trace that no seat asked for are these.
fn are_before(trace: &[Entry], before: &[Entry]) -> bool
    ensures { IsTrue result ↔ (unseated trace.now ≡ before.now) }
{
    let mut met = 0;
    for entry in trace {
        if !has_seat(entry) {
            if !stands_at(entry, before, met) {
                return false;
            }
            met += 1;
        }
    }
    met >= before.len()
}

/// Whether a node's start and its entries without a seat are those that it had before.
fn is_as_before(lists: &Lists, node: usize) -> bool
    requires lists { AreLists lists.now }
    requires node { node < length lists.now.nodes }
    ensures { IsTrue result ↔ IsAsBefore lists.now node }
{
    let shape = &lists.nodes.as_slice()[node];
    let trace = lists.traces.as_slice()[node].as_slice();
    let before = lists.before.as_slice()[node].as_slice();
    is_same_start(&shape.start, &lists.starts.as_slice()[node]) && are_before(trace, before)
}

/// The first node that isn't as it was handed over.
pub fn first_changed(lists: &Lists) -> Option<usize>
    requires { AreLists lists.now }
    ensures { IsFirst (IsAsBefore lists.now) result }
{
    for node in 0..lists.nodes.as_slice().len() {
        if !is_as_before(lists, node) {
            return Some(node);
        }
    }
    None
}
