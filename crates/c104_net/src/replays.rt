//! A run once more, over tokens of which a terminator tells its packet.
ghost use Rattle.std.specs.Prelude.{OnOk, [], map, ◌∷◌};
ghost use Rattle.c104_net.specs.{Replays.{TellsOn, lead_event}, ToldEvents.{told_event, told_events}};

use crate::leading::{Lead, event_of, sorted_leads};
use c104_event::Event;
use c104_node::Entry;
use c104_run::TracedNet;
use c104_switch::Reply;
use c104_token::{Items, NoMemory};
use std::alloc::Global;

/// Does an event again. One that was done is done again, unless out of memory.
fn replay_event(net: &mut TracedNet, event: &Event) -> Result<(), NoMemory>
    ensures { OnOk result (TellsOn net.old (event.now ∷ []) net.new) }
{
    // The proof reads here what every plan and every such network keeps.
    let plan = net.told_plan();
    let _switches = plan.switches();
    let Ok(reply) = net.apply(event) else {
        return Err(NoMemory);
    };
    match reply {
        Reply::NotReady => Err(NoMemory),
        _ => Ok(()),
    }
}

/// Does the events of these entries again, in this order.
fn replay(
    net: &mut TracedNet,
    switches: usize,
    traces: &[Items<Entry>],
    leads: &[Lead],
) -> Result<(), NoMemory>
    ensures { OnOk result (
        TellsOn net.old (map told_event (map (lead_event switches traces.now) leads.now)) net.new) }
{
    for lead in leads {
        let event = event_of(switches, traces, lead)?;
        replay_event(net, &event)?;
    }
    Ok(())
}

/// Does a run again, from its start, by the traces of its nodes: the events that they tell, in the order of their
/// tickets. An error is out of memory, since no event that was done is refused else.
pub fn replay_all(
    alloc: Global,
    net: &mut TracedNet,
    traces: &[Items<Entry>],
) -> Result<(), NoMemory>
    ensures { OnOk result (TellsOn net.old (told_events net.old.network.plan traces.now) net.new) }
{
    let leads = sorted_leads(alloc, traces)?;
    let switches = net.plan().switches().len();
    replay(net, switches, traces, leads.as_slice())
}
