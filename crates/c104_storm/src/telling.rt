//! What people are told of a storm.
use crate::endings::Sent;
use crate::working::Worked;
use c104_event::EventFault;
use c104_explain::{leftover_messages, standstill_message, tell_leftovers};
use c104_mistakes::{About, Messages, fault_message, refusal_message, tell_if_long, tell_lines};
use c104_net::TracedNet;
use c104_plan::Plan;
use c104_script::{Answer, LineFault};
use std::alloc::Global;

/// The most packets that a terminal can have sent: each has a token at least, and this many tokens may wait or have gone.
const MOST_SENT: usize = 1_048_576;

/// What is told of a line that doesn't begin with `send`.
const NO_SEND: &str = "a line begins with `send`: in a storm workers do all the rest";

/// What is told about a line that was answered so. None where there is nothing to tell, and out of memory.
pub(crate) fn send_message(
    alloc: Global,
    plan: &Plan,
    number: usize,
    line: &[u8],
    answer: &Option<Answer>,
) -> Option<(About, String)> {
    match answer {
        Some(Answer::Faulty(fault)) => {
            let message = send_fault_message(alloc, line, *fault)?;
            Some((About::FaultyLine(number), message))
        }
        Some(Answer::Refused(fault)) => {
            let message = refusal_message(alloc, plan, line, *fault)?;
            Some((About::ScriptLine(number), message))
        }
        _ => None,
    }
}

/// What is told about a faulty line. None when out of memory.
fn send_fault_message(alloc: Global, line: &[u8], fault: LineFault) -> Option<String> {
    match fault {
        LineFault::UnknownWord => String::from_str(alloc, NO_SEND).ok(),
        fault => fault_message(alloc, line, fault, false),
    }
}

/// Tells at the end of a storm what stopped a worker, who waits for whom, and what didn't arrive, where anyone reads the
/// messages and there is memory for it.
pub(crate) fn explain_end<M: Messages>(
    alloc: Global,
    net: &TracedNet,
    sent: Sent,
    worked: Worked,
    messages: &mut M,
) {
    if !messages.are_wanted() {
        return;
    }
    tell_if_long(sent.is_long, messages);
    if let Worked::Stopped(_, fault) = worked {
        messages.tell(About::Run, stop_message(fault));
    }
    if worked == Worked::NotQuiet && net.stands_still() {
        tell_standstill(alloc, net, count_sent(net), messages);
    }
    tell_leftovers(&leftover_messages(alloc, net), messages);
}

/// How many packets were sent.
fn count_sent(net: &TracedNet) -> usize {
    let mut count = 0usize;
    for terminal in 0..net.plan().terminals().len() {
        count = count.saturating_add(count_sent_by(net, terminal));
    }
    count
}

/// How many packets a terminal has sent.
fn count_sent_by(net: &TracedNet, terminal: usize) -> usize {
    for number in 0..MOST_SENT {
        if net.sent_packet(terminal, number).is_none() {
            return number;
        }
    }
    MOST_SENT
}

/// Tells who waits for whom in a network that stands still, into which a number of packets were sent.
fn tell_standstill<M: Messages>(alloc: Global, net: &TracedNet, packets: usize, messages: &mut M) {
    if let Some(message) = standstill_message(alloc, net, Some(packets)) {
        tell_lines(About::Run, message.as_str(), messages);
    }
}

/// What is told of a worker whose event was refused for this.
fn stop_message(fault: EventFault) -> &'static str {
    match fault {
        EventFault::InboxFull => {
            "the worker stopped: a terminal has received 262144 tokens, and has no room for more"
        }
        EventFault::TraceFull => {
            "the worker stopped: a switch or a terminal has done 1048576 acts, or a worker as many events, and no more \
             can be kept"
        }
        EventFault::NoNode
        | EventFault::NoLink
        | EventFault::NotWired
        | EventFault::TooLong
        | EventFault::OutboxFull
        | EventFault::NoMemory => "the worker stopped: an event was refused",
    }
}
