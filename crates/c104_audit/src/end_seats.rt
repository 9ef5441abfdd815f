//! Whether both ends of each event that crosses a wire carry one seat.
ghost use Rattle.std.specs.Prelude.{drop, length, ◌≡◌};
ghost use Rattle.c104_audit.specs.{AuditFaults.Everywhere, Audits.{AgreeAtEnds, AgreeOneByOne, AreLists, IsEndAmong, passing_at}};
ghost use Rattle.c104_audit.specs.{Firsts.IsFirst, Tests.{CarryAtAllEnds, HasNext, IsOddBy, odd_of, odd_seat, passing}};

use crate::ends::{end_of, next_passing, passes};
use crate::firsts::lower;
use crate::lists::Lists;
use c104_node::{End, Entry};
use c104_plan::Wire;

/// The lower of two seats that differ, if they do.
fn odd_seat(one: Option<u8>, other: Option<u8>) -> Option<usize>
    ensures { result ≡ odd_seat one other }
{
    match (one, other) {
        (Some(one), Some(other)) => {
            if one == other {
                None
            } else {
                lower(Some(one as usize), Some(other as usize))
            }
        }
        (Some(seat), None) | (None, Some(seat)) => Some(seat as usize),
        (None, None) => None,
    }
}

/// The place behind the next entry that passes at an end; and the lower of its seat and that of an entry, if they differ.
fn next_odd(
    switches: usize,
    end: End,
    trace: &[Entry],
    from: usize,
    entry: &Entry,
) -> (usize, Option<usize>)
    requires { HasNext (passing switches end (drop from trace.now)) }
    ensures { IsOddBy entry.now result.1 (passing switches end (drop from trace.now)) (passing switches end (drop result.0 trace.now)) }
{
    let Some(at) = next_passing(switches, end, trace, from) else {
        unreachable!();
    };
    (at + 1, odd_seat(entry.seat, trace[at].seat))
}

/// The first seat for which what passes at two ends differs, if there is one. The entries themselves agree.
fn odd_between(
    switches: usize,
    here: End,
    trace: &[Entry],
    there: End,
    far_trace: &[Entry],
) -> Option<usize>
    requires { AgreeOneByOne (passing switches here trace.now) (passing switches there far_trace.now) }
    ensures { result ≡ odd_of (passing switches here trace.now) (passing switches there far_trace.now) }
{
    let mut behind = 0;
    let mut first = None;
    for entry in trace {
        if passes(switches, here, entry) {
            let (next, odd) = next_odd(switches, there, far_trace, behind, entry);
            behind = next;
            first = lower(first, odd);
        }
    }
    first
}

/// The first seat for which what passes at the two ends of a wire differs, if there is one. The entries themselves agree.
fn odd_at(lists: &Lists, wire: &Wire) -> Option<usize>
    requires lists { AreLists lists.now }
    requires here { IsEndAmong lists.now.switches (length lists.now.nodes) wire.now.here }
    requires there { IsEndAmong lists.now.switches (length lists.now.nodes) wire.now.there }
    requires agree { AgreeOneByOne (passing_at lists.now.switches lists.now.traces wire.now.here)
        (passing_at lists.now.switches lists.now.traces wire.now.there) }
    ensures { result ≡ odd_of (passing_at lists.now.switches lists.now.traces wire.now.here)
        (passing_at lists.now.switches lists.now.traces wire.now.there) }
{
    let here = end_of(lists, wire.here);
    let there = end_of(lists, wire.there);
    let traces = lists.traces.as_slice();
    let trace = traces[here.node].as_slice();
    let far_trace = traces[there.node].as_slice();
    odd_between(lists.switches, here, trace, there, far_trace)
}

/// The first seat for which what passes at the two ends of some wire differs, if there is one. The entries at the two
/// ends of each wire agree.
pub fn first_odd(lists: &Lists) -> Option<usize>
    requires lists { AreLists lists.now }
    requires ended { Everywhere (AgreeAtEnds lists.now) }
    ensures { IsFirst (CarryAtAllEnds lists.now) result }
{
    let wires = lists.wires.as_slice();
    let mut first = None;
    for number in 0..wires.len() {
        let odd = odd_at(lists, &wires[number]);
        first = lower(first, odd);
    }
    first
}
