//! Whether what passes at the two ends of each wire agrees.
ghost use Rattle.std.specs.Prelude.{IsTrue, MatchOption, Some, [], drop, length, slice_get, ◌+◌, ◌<◌, ◌↔◌, ◌∷◌, ◌≡◌};
ghost use Rattle.c104_audit.specs.Audits.{AgreeAtEnds, AgreeOneByOne, AreLists, IsEndAmong, end_among, passes_at, passing_at};
ghost use Rattle.c104_audit.specs.{Firsts.IsFirst, Tests.{HasHalf, HasNoHalf, passing}};
ghost use Rattle.c104_node.specs.declared.acts.Entry.{Entry as TheEntry};

use crate::halves::{are_halves, is_of_kind, link_of};
use crate::lists::Lists;
use c104_node::{End, Entry};
use c104_plan::{Port, Wire};

/// Whether an entry of a node passes at a link of it.
pub fn passes(switches: usize, end: End, entry: &Entry) -> bool
    ensures { result ≡ passes_at switches end entry.now }
{
    is_of_kind(end.node < switches, &entry.act) && link_of(&entry.act) == Some(end.link)
}

/// The place of the next entry that passes at an end, from a place of the trace on.
pub fn next_passing(switches: usize, end: End, trace: &[Entry], from: usize) -> Option<usize>
    ensures { MatchOption result
        (passing switches end (drop from trace.now) ≡ [])
        (λ at. (e : TheEntry) × (slice_get trace.now at ≡ Some e)
        × (passing switches end (drop from trace.now) ≡ e ∷ passing switches end (drop (at + 1) trace.now))) }
{
    for at in from..trace.len() {
        if passes(switches, end, &trace[at]) {
            return Some(at);
        }
    }
    None
}

/// The place behind the next entry that passes at an end, if it is the other half of an entry.
fn next_half(
    switches: usize,
    end: End,
    trace: &[Entry],
    from: usize,
    entry: &Entry,
) -> Option<usize>
    ensures { MatchOption result
        (HasNoHalf entry.now (passing switches end (drop from trace.now)))
        (λ next. HasHalf entry.now (passing switches end (drop from trace.now)) (passing switches end (drop next trace.now))) }
{
    let Some(at) = next_passing(switches, end, trace, from) else {
        return None;
    };
    if are_halves(entry, &trace[at]) {
        Some(at + 1)
    } else {
        None
    }
}

/// Whether what passes at two ends agrees, entry by entry.
fn agree(switches: usize, here: End, trace: &[Entry], there: End, far_trace: &[Entry]) -> bool
    ensures { IsTrue result ↔ AgreeOneByOne (passing switches here trace.now) (passing switches there far_trace.now) }
{
    let mut behind = 0;
    for entry in trace {
        if passes(switches, here, entry) {
            match next_half(switches, there, far_trace, behind, entry) {
                Some(next) => behind = next,
                None => return false,
            }
        }
    }
    next_passing(switches, there, far_trace, behind).is_none()
}

/// The end of a wire at a port.
pub fn end_of(lists: &Lists, port: Port) -> End
    requires { IsEndAmong lists.now.switches (length lists.now.nodes) port }
    ensures end { result ≡ end_among lists.now.switches port }
    ensures inside { AreLists lists.now → result.node < length lists.now.nodes }
{
    // The proof reads here how many nodes there are.
    let count = lists.nodes.as_slice().len();
    match port {
        Port::Switch(switch, link) => End { node: switch, link },
        Port::Terminal(terminal) => {
            prove!(terminal < count);
            End {
                node: lists.switches + terminal,
                link: 0,
            }
        }
    }
}

/// Whether what passes at the two ends of a wire agrees.
fn ends_agree(lists: &Lists, wire: &Wire) -> bool
    requires lists { AreLists lists.now }
    requires here { IsEndAmong lists.now.switches (length lists.now.nodes) wire.now.here }
    requires there { IsEndAmong lists.now.switches (length lists.now.nodes) wire.now.there }
    ensures { IsTrue result ↔ AgreeOneByOne (passing_at lists.now.switches lists.now.traces wire.now.here)
        (passing_at lists.now.switches lists.now.traces wire.now.there) }
{
    let here = end_of(lists, wire.here);
    let there = end_of(lists, wire.there);
    let traces = lists.traces.as_slice();
    let trace = traces[here.node].as_slice();
    let far_trace = traces[there.node].as_slice();
    agree(lists.switches, here, trace, there, far_trace)
}

/// The first wire at whose ends what passes doesn't agree.
pub fn first_unequal(lists: &Lists) -> Option<usize>
    requires { AreLists lists.now }
    ensures { IsFirst (AgreeAtEnds lists.now) result }
{
    let wires = lists.wires.as_slice();
    for number in 0..wires.len() {
        if !ends_agree(lists, &wires[number]) {
            return Some(number);
        }
    }
    None
}
