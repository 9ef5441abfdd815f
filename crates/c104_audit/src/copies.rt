//! Copies of what seats keep.
ghost use Rattle.std.specs.Prelude.{IfOk, ◌≡◌};
ghost use Rattle.{c104_net.specs.Replays.event_or, c104_run.specs.EventActs.act_event};

use c104_event::{Call, Event};
use c104_node::{Act, same_reply};
use c104_run::{Ask, act_event, ask_of, crossing_event};
use c104_token::NoMemory;
use std::alloc::Global;

/// A copy of calls. The only error is out of memory.
pub fn copy_calls(alloc: Global, calls: &[Call]) -> Result<Vec<Call>, NoMemory>
    ensures { IfOk result (λ copy. copy.items ≡ calls.now) }
{
    let mut list = Vec::with_capacity(alloc, calls.len())?;
    for call in calls {
        list.push(copy_call(call)?)?;
    }
    Ok(list)
}

/// A copy of a call.
fn copy_call(call: &Call) -> Result<Call, NoMemory>
    ensures { IfOk result (λ copy. copy ≡ call.now) }
{
    let event = copy_event(&call.event)?;
    Ok(Call {
        ticket: call.ticket,
        event,
        reply: same_reply(&call.reply),
    })
}

/// A copy of an event. The only error is out of memory.
pub fn copy_event(event: &Event) -> Result<Event, NoMemory>
    ensures { IfOk result (λ copy. copy ≡ event.now) }
{
    match ask_of(event) {
        Ask::Switch(switch, action) => led_event(switch, &Act::Step(action)),
        Ask::Terminal(terminal, act) => led_event(terminal, &act),
        Ask::Send(terminal, packet) => Ok(Event::Send {
            terminal,
            packet: packet.clone()?,
        }),
        Ask::Over(port, crossing) => Ok(crossing_event(crossing, port)),
    }
}

/// The event that an act of the node of this number leads in; where it doesn't lead, that terminal 0 drains. The only error
/// is out of memory.
fn led_event(number: usize, act: &Act) -> Result<Event, NoMemory>
    ensures { IfOk result (λ event. event ≡ event_or (act_event 0 number act.now)) }
{
    match act_event(0, number, act)? {
        Some(event) => Ok(event),
        None => Ok(Event::Drain { terminal: 0 }),
    }
}
