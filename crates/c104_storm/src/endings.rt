//! The end of a storm: what follows the answers.
ghost use Rattle.std.specs.Prelude.{IfOk, OnOk, ◌≡◌, ◌≢◌};
ghost use Rattle.c104_event.specs.declared.faults.EventFault.TheVariants as event_fault;
ghost use Rattle.c104_storm.specs.{Endings.{IsEndingByNodes, IsEndingOf, WritesEnd, is_refused}, Workers.{IsStopOf, Team}};

use crate::end_texts::end_text;
use crate::working::Worked;
use c104_event::EventFault;
use c104_net::TracedNet;
use c104_stream::{Halt, write_whole};
use c104_token::NoMemory;
use std::alloc::Global;
use std::io::Write;

/// What the script of a storm came to.
#[derive(Clone, Copy)]
pub(crate) struct Sent {
    /// Whether it is longer than it may be.
    pub(crate) is_long: bool,
    /// Whether a line was faulty.
    pub(crate) is_faulty: bool,
}

/// How a storm ended.
#[derive(Clone, Copy)]
pub(crate) enum Ending {
    /// Tokens are left that go nowhere, or that all the turns weren't enough for.
    NotQuiet,
    /// The worker of this number stopped at an event that was refused for this.
    Stopped(usize, EventFault),
    /// All was quiet.
    Quiet,
}

/// Writes how a storm ended whose workers ended so: that it isn't quiet, which worker stopped, or that what was done is one
/// run, and the packets that arrived. Says whether that or the script was refused. The text is complete before any of it is written,
/// so that none of it is written where memory runs out.
pub(crate) fn write_end<W: Write>(
    alloc: Global,
    net: &TracedNet,
    sent: Sent,
    worked: Worked,
    writer: &mut W,
) -> Result<bool, Halt>
    ensures { (team : Team) → IsStopOf team net.now.network.plan worked →
        WritesEnd team net.now sent.is_long sent.is_faulty (W.contents writer.old) (W.contents writer.new) result }
{
    let ending = ending_of(net, worked)?;
    let text = end_text(alloc, net, ending, sent.is_long)?;
    write_whole(writer, text.as_slice())?;
    Ok(is_refused(ending, sent))
}

/// Whether a storm was refused that ended so: its script, for its length or for one of its lines, or the storm itself.
fn is_refused(ending: Ending, sent: Sent) -> bool
    ensures { result ≡ is_refused sent.is_long sent.is_faulty ending }
{
    match ending {
        Ending::NotQuiet => true,
        Ending::Stopped(_, _) => true,
        Ending::Quiet => sent.is_long || sent.is_faulty,
    }
}

/// How a storm ended whose workers ended so. The only error is out of memory, which may be why a worker stopped.
fn ending_of(net: &TracedNet, worked: Worked) -> Result<Ending, NoMemory>
    ensures { IfOk result (λ ending. IsEndingOf worked net.now ending) }
{
    match worked {
        Worked::Quiet | Worked::NotQuiet => Ok(ending_by_nodes(net)),
        Worked::Stopped(worker, fault) => {
            other_event_fault(fault)?;
            Ok(Ending::Stopped(worker, fault))
        }
    }
}

/// How a storm ended in which no worker stopped: what the workers say of the nodes is looked at again.
fn ending_by_nodes(net: &TracedNet) -> Ending
    ensures { IsEndingByNodes net.now result }
{
    if net.quiet() {
        Ending::Quiet
    } else {
        Ending::NotQuiet
    }
}

/// NoMemory where that is the fault of an event.
fn other_event_fault(fault: EventFault) -> Result<(), NoMemory>
    ensures { OnOk result (fault ≢ event_fault.NoMemory) }
{
    match fault {
        EventFault::NoMemory => Err(NoMemory),
        _ => Ok(()),
    }
}
