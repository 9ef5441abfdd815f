use c104_net::{EventFault, PlaceFault};
use c104_tools::LoadFault;
use std::alloc::Global;
use std::fmt::Display;
use std::process::Abort;
use std::test::Fail;

/// The message of a fault.
fn message_of<F: Display>(alloc: Global, fault: &F) -> Result<String, Fail> {
    Ok(format!(in alloc; "{fault}")?)
}

/// The number and the name of a fault.
fn event_name(fault: EventFault) -> (u8, &'static str) {
    (fault.number(), fault.name())
}

fn load_name(fault: LoadFault) -> (u8, &'static str) {
    (fault.number(), fault.name())
}

/// The fault has this message.
fn has_message<F: Display>(
    rt: &impl Abort,
    alloc: Global,
    fault: &F,
    due: &str,
) -> Result<(), Fail> {
    let found = message_of(alloc, fault)?;
    assert!(rt; found.as_str() == due, "{found}");
    Ok(())
}

#[test]
fn of_events(rt: HostRuntime) -> Result<(), Fail> {
    let rows = [
        (EventFault::NoNode, 1, "NoNode", "there is no such node"),
        (
            EventFault::NoLink,
            2,
            "NoLink",
            "a switch has links 0 to 31 alone",
        ),
        (EventFault::NotWired, 3, "NotWired", "the link has no wire"),
        (
            EventFault::TooLong,
            4,
            "TooLong",
            "the packet has more than 4096 bytes",
        ),
        (
            EventFault::OutboxFull,
            5,
            "OutboxFull",
            "the terminal has no room for the packet among the tokens that wait",
        ),
        (
            EventFault::InboxFull,
            6,
            "InboxFull",
            "the terminal has no room for one more token that arrives",
        ),
        (
            EventFault::TraceFull,
            7,
            "TraceFull",
            "the trace of a node has no room for one more entry",
        ),
        (EventFault::NoMemory, 8, "NoMemory", "out of memory"),
    ];
    tell_events(&rt, rt.alloc(), &rows)
}

fn tell_events(
    rt: &impl Abort,
    alloc: Global,
    rows: &[(EventFault, u8, &str, &str)],
) -> Result<(), Fail> {
    for (fault, number, name, message) in rows {
        tell_event(rt, alloc, fault, (*number, *name), message)?;
    }
    Ok(())
}

fn tell_event(
    rt: &impl Abort,
    alloc: Global,
    fault: &EventFault,
    due: (u8, &str),
    message: &str,
) -> Result<(), Fail> {
    let (_, name) = due;
    assert!(rt; event_name(*fault) == due, "{name}");
    has_message(rt, alloc, fault, message)
}

#[test]
fn of_placing(rt: HostRuntime) -> Result<(), Fail> {
    let rows = [
        (PlaceFault::NotFitting, "the image doesn't fit the plan"),
        (PlaceFault::NoMemory, "out of memory"),
    ];
    tell_placing(&rt, rt.alloc(), &rows)
}

fn tell_placing(rt: &impl Abort, alloc: Global, rows: &[(PlaceFault, &str)]) -> Result<(), Fail> {
    for (fault, message) in rows {
        has_message(rt, alloc, fault, message)?;
    }
    Ok(())
}

#[test]
fn of_tools(rt: HostRuntime) -> Result<(), Fail> {
    let rows = [
        (
            LoadFault::Refused(1, 0x0140, 5),
            1,
            "Refused",
            "switch 1 refused a command",
        ),
        (
            LoadFault::Differs(1, 0x0140, 5),
            2,
            "Differs",
            "a register of switch 1 has another value than the image",
        ),
        (
            LoadFault::NoSwitch,
            3,
            "NoSwitch",
            "there is no such switch, or the image has another number of switches",
        ),
        (
            LoadFault::Port(EventFault::NoMemory),
            4,
            "Port",
            "out of memory",
        ),
        (
            LoadFault::BadReply(1),
            5,
            "BadReply",
            "switch 1 gave a reply that answers something else",
        ),
    ];
    tell_tools(&rt, rt.alloc(), &rows)
}

fn tell_tools(
    rt: &impl Abort,
    alloc: Global,
    rows: &[(LoadFault, u8, &str, &str)],
) -> Result<(), Fail> {
    for (fault, number, name, message) in rows {
        tell_tool(rt, alloc, fault, (*number, *name), message)?;
    }
    Ok(())
}

fn tell_tool(
    rt: &impl Abort,
    alloc: Global,
    fault: &LoadFault,
    due: (u8, &str),
    message: &str,
) -> Result<(), Fail> {
    let (_, name) = due;
    assert!(rt; load_name(*fault) == due, "{name}");
    has_message(rt, alloc, fault, message)
}
