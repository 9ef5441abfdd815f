//! How many of each seat's calls the entries tell that carry its number.
ghost use Rattle.std.specs.Prelude.{IfOk, IsTrue, MatchOption, None, Some, length, ◌+◌, ◌<◌, ◌↔◌, ◌≡◌};
ghost use Rattle.c104_audit.specs.{Audits.told_reply, Tests.{AreCounts, AreLeads, AreTold, IsCallOf, IsNextCall, TellsNext, lead_in}};
ghost use Rattle.{c104_audit.specs.Tests.lead_seat, c104_run.specs.{AskedActs.ask_held, EventActs.act_event, LeadActs.{LeadsIn, act_number}}};

use crate::lists::Lists;
use crate::sameness::{is_same_act, is_same_action, is_same_reply};
use c104_event::{Call, Event, Port};
use c104_net::Lead;
use c104_node::{Act, Crossing, Entry};
use c104_run::{Ask, ask_of};
use c104_switch::{ActionOf, Reply};
use c104_token::{NoMemory, Token};
use std::alloc::Global;

/// Whether an act of the node at a place tells an event, where this is the number of switches.
fn tells(switches: usize, place: usize, act: &Act, event: &Event) -> bool
    ensures { IsTrue result ↔ (act_event switches place act.now ≡ Some event.now) }
{
    leads_in(switches, place, act, &ask_of(event))
}

/// Whether an act of the node at a place leads in what is asked.
fn leads_in(switches: usize, place: usize, act: &Act, ask: &Ask<'_, Token>) -> bool
    ensures { IsTrue result ↔ LeadsIn switches place act.now (ask_held ask.now) }
{
    let number = act_number(switches, place, act);
    match (act, ask) {
        (Act::Step(own), Ask::Switch(switch, asked)) => {
            number == *switch && is_same_action(own, asked)
        }
        (Act::Send(own), Ask::Send(terminal, packet)) => {
            number == *terminal && own.packet().is_same(packet)
        }
        (_, Ask::Terminal(terminal, asked)) => number == *terminal && is_same_act(act, asked),
        (_, Ask::Over(Port::Switch(switch, link), Crossing::Token)) => {
            number == *switch && is_same_act(act, &Act::Step(ActionOf::Leave(*link)))
        }
        (_, Ask::Over(Port::Switch(switch, link), Crossing::Grant)) => {
            number == *switch && is_same_act(act, &Act::Step(ActionOf::CreditOut(*link)))
        }
        (_, Ask::Over(Port::Terminal(terminal), Crossing::Token)) => {
            number == *terminal && is_same_act(act, &Act::Leave)
        }
        (_, Ask::Over(Port::Terminal(terminal), Crossing::Grant)) => {
            number == *terminal && is_same_act(act, &Act::CreditOut)
        }
        _ => false,
    }
}

/// The number of the node at a place that does an act: of the switch, or else of the terminal.
fn act_number(switches: usize, place: usize, act: &Act) -> usize
    ensures { result ≡ act_number switches place act.now }
{
    match act {
        Act::Step(_) => place,
        _ => place.saturating_sub(switches),
    }
}

/// Whether a reply is that of the event that an act leads in, which was answered so.
fn is_reply_of(act: &Act, reply: &Reply, told: &Reply) -> bool
    ensures { IsTrue result ↔ (told.now ≡ told_reply act.now reply.now) }
{
    match act {
        Act::Step(ActionOf::CreditOut(_)) | Act::CreditOut => is_same_reply(told, &Reply::Done),
        _ => is_same_reply(told, reply),
    }
}

/// Whether a call is what an entry tells that leads.
fn is_call_of(switches: usize, place: usize, entry: &Entry, call: &Call) -> bool
    ensures { IsTrue result ↔ IsCallOf switches place entry.now call.now }
{
    call.ticket == entry.ticket
        && tells(switches, place, &entry.act, &call.event)
        && is_reply_of(&entry.act, &entry.reply, &call.reply)
}

/// Whether the call at a place of a list is what an entry tells that leads.
fn is_next_call(switches: usize, place: usize, entry: &Entry, calls: &[Call], at: usize) -> bool
    ensures next { IsTrue result ↔ IsNextCall switches place entry.now calls.now at }
    ensures inside { IsTrue result → at < length calls.now }
{
    at < calls.len() && is_call_of(switches, place, entry, &calls[at])
}

/// How many of a seat's calls are told, with one more entry of it that leads: none where it tells another than the next.
fn next_count(
    switches: usize,
    place: usize,
    entry: &Entry,
    calls: &[Call],
    count: Option<usize>,
) -> Option<usize>
    ensures { TellsNext switches place entry.now calls.now count result }
{
    let count = count?;
    if is_next_call(switches, place, entry, calls, count) {
        Some(count + 1)
    } else {
        None
    }
}

/// An entry that leads, and its seat, if a seat asked for it.
pub fn seated_entry<'a>(lists: &'a Lists, lead: &Lead) -> Option<(usize, &'a Entry)>
    ensures { MatchOption result
        (lead_seat lists.now lead.now ≡ None)
        (λ seated. (lead_seat lists.now lead.now ≡ Some seated.0)
        × ((lead_in lists.now.traces lead.now).1.entry ≡ seated.1.now)) }
{
    let trace = lists.traces.as_slice().get(lead.place)?;
    let entry = trace.as_slice().get(lead.at)?;
    let seat = entry.seat? as usize;
    Some((seat, entry))
}

/// Counts the call that the entry at a place tells of those that lead, at its seat.
fn count_call(lists: &Lists, leads: &[Lead], at: usize, counts: &mut [Option<usize>])
    requires leads { AreLeads lists.now leads.now }
    requires at { at < length leads.now }
    requires long { length counts.old ≡ length lists.now.calls }
    ensures long { length counts.new ≡ length lists.now.calls }
    ensures told { AreTold lists.now leads.now at counts.old → AreTold lists.now leads.now (at + 1) counts.new }
{
    let lead = &leads[at];
    if let Some((seat, entry)) = seated_entry(lists, lead) {
        if seat < counts.len() {
            let calls = lists.calls.as_slice()[seat].as_slice();
            let count = counts[seat];
            counts[seat] = next_count(lists.switches, lead.place, entry, calls, count);
        }
    }
}

/// How many of each seat's calls the entries tell that carry its number, or none where they tell others. The only error
/// is out of memory.
pub fn told_counts(
    alloc: Global,
    lists: &Lists,
    leads: &[Lead],
) -> Result<Vec<Option<usize>>, NoMemory>
    requires { AreLeads lists.now leads.now }
    ensures { IfOk result (λ counts. AreCounts lists.now counts.items) }
{
    let mut counts = vec![in alloc; Some(0usize); lists.calls.as_slice().len()]?;
    for at in 0..leads.len() {
        count_call(lists, leads, at, &mut counts);
    }
    Ok(counts)
}
