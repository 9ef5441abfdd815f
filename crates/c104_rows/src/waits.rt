//! What inputs wait for.
//!
//! What is red is found by one successor for each input; where a group is wanted, its first output tells. A network that
//! is deadlocked has such a way from each input that waits, to a cycle or to where nothing leads on.
ghost use Rattle.std.specs.Prelude.{◌≡◌};
ghost use Rattle.{c104_check.specs.Walks.is_port, c104_regs.specs.declared.registers.TheConstants.LINKS, c104_rows.specs.Waits.blocker};
ghost use Rattle.c104_rows.specs.Waits.{blocker_by, claim_blocker, far_input, input_of, is_locked, phase_blocker, wait_by, wait_of};

use crate::holders::MOST_INPUTS;
use c104_check::SwitchPort;
use c104_event::Event;
use c104_net::TracedNet;
use c104_plan::Port;
use c104_switch::{HeaderBytes, LINKS, Phase, Unready};

/// How an output stands that an input wants for its header.
#[derive(Clone, Copy, Debug)]
pub(crate) enum Wait {
    /// It can be claimed.
    Free,
    /// This input of the switch holds it.
    Held(usize),
    /// It hasn't room for the header.
    Full,
}

/// Whether an input waits for itself, over others.
pub(crate) fn is_locked(net: &TracedNet, input: SwitchPort) -> bool
    ensures { result ≡ is_locked net.now input }
{
    let mut at = input;
    for _turn in 0..MOST_INPUTS {
        let Some(next) = blocker(net, at) else {
            return false;
        };
        if is_port(input, next) {
            return true;
        }
        at = next;
    }
    false
}

/// Whether two inputs are one.
fn is_port(input: SwitchPort, other: SwitchPort) -> bool
    ensures { result ≡ is_port input other }
{
    input.switch == other.switch && input.link == other.link
}

/// The input that an input waits for.
fn blocker(net: &TracedNet, input: SwitchPort) -> Option<SwitchPort>
    ensures { result ≡ blocker net.now input }
{
    match net.view_link(input.switch, input.link) {
        Some(view) => phase_blocker(net, input, &view.phase),
        None => None,
    }
}

/// The same by its phase.
fn phase_blocker(
    net: &TracedNet,
    input: SwitchPort,
    phase: &Phase<HeaderBytes>,
) -> Option<SwitchPort>
    ensures { result ≡ phase_blocker net.now input phase.now }
{
    match phase {
        Phase::Stream(output) => far_input(net, input.switch, *output),
        Phase::Want(_, _) => claim_blocker(net, input),
        Phase::Fresh | Phase::Head(_) | Phase::Sinking => None,
    }
}

/// The input that an input waits for whose header wants an output: by the first that it wants.
fn claim_blocker(net: &TracedNet, input: SwitchPort) -> Option<SwitchPort>
    ensures { result ≡ claim_blocker net.now input LINKS 0 }
{
    for output in 0..LINKS {
        if let Some(wait) = wait_of(net, input, output) {
            return blocker_by(net, input.switch, output, wait);
        }
    }
    None
}

/// The input for which an output's wish waits.
fn blocker_by(net: &TracedNet, switch: usize, output: usize, wait: Wait) -> Option<SwitchPort>
    ensures { result ≡ blocker_by net.now switch output wait }
{
    match wait {
        Wait::Held(link) => Some(SwitchPort { switch, link }),
        Wait::Full => far_input(net, switch, output),
        Wait::Free => None,
    }
}

/// The input that an output leads to.
fn far_input(net: &TracedNet, switch: usize, output: usize) -> Option<SwitchPort>
    ensures { result ≡ far_input net.now switch output }
{
    input_of(net.plan().peer(Port::Switch(switch, output)))
}

/// The input of a switch that a port is, if it is one.
fn input_of(port: Option<Port>) -> Option<SwitchPort>
    ensures { result ≡ input_of port }
{
    match port {
        Some(Port::Switch(switch, link)) => Some(SwitchPort { switch, link }),
        Some(Port::Terminal(_)) => None,
        None => None,
    }
}

/// How an output stands that an input wants. None where it isn't of the group that is wanted.
pub(crate) fn wait_of(net: &TracedNet, input: SwitchPort, output: usize) -> Option<Wait>
    ensures { result ≡ wait_of net.now input output }
{
    let claim = Event::Claim {
        switch: input.switch,
        input: input.link,
        output,
    };
    match net.why(&claim) {
        Some(reason) => wait_by(reason.unready),
        None => Some(Wait::Free),
    }
}

/// The same by why an input can't claim the output.
fn wait_by(unready: Unready) -> Option<Wait>
    ensures { result ≡ wait_by unready }
{
    match unready {
        Unready::Owned(input) => Some(Wait::Held(input)),
        Unready::NoRoomForHeader => Some(Wait::Full),
        Unready::NoLink
        | Unready::NotStarted
        | Unready::NoToken
        | Unready::NoCredit
        | Unready::NotGranted
        | Unready::NoRoom
        | Unready::CreditFull
        | Unready::WantsOutput(_)
        | Unready::OutputFull(_)
        | Unready::WantsNothing
        | Unready::OutsideGroup(_) => None,
    }
}
