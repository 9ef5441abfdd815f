//! What people are told of labels that are refused, and of those by which packets can wait for one another forever.
//!
//! Each sentence and each line of a description is a line of its own. A line that is to be added or replaced comes after
//! one word and a colon.

use c104_check::{CheckFault, Misstep, Shown, SwitchPort, WalkKind};
use c104_interval::Row;
use c104_plan::{Plan, Port, header_values, select_text};
use std::alloc::{AllocError, Global};

/// The sentence on labels that are refused, by the names of the plan: what is wrong, and at which input. Of a fault with a
/// walk it tells the step that leads wrong, and of which header, as it is typed; without one, and where the check ran out of
/// memory, there is no sentence. The only error is out of memory.
pub(crate) fn refusal_text(
    alloc: Global,
    plan: &Plan,
    fault: &CheckFault,
    header: &str,
    step: Option<Misstep>,
) -> Result<String, AllocError> {
    match fault {
        CheckFault::RangesOverlap(terminal, other) => {
            overlap_text(alloc, plan, *terminal, *other)
        }
        CheckFault::LabelTooLarge(terminal) => large_text(alloc, plan, *terminal),
        CheckFault::MixedHeaders(port) => {
            let port = port_text(alloc, plan, *port)?;
            format!(in alloc;
                "headers at {port} are of another length than at the first link that is wired\n"
            )
        }
        CheckFault::DeleteInside(port) => {
            let port = port_text(alloc, plan, *port)?;
            format!(in alloc; "{port} is wired to a switch, but deletes headers\n")
        }
        CheckFault::RandomInside(port) => {
            let port = port_text(alloc, plan, *port)?;
            format!(in alloc;
                "no terminal is on {port}, but random headers are put before packets there\n"
            )
        }
        CheckFault::WrongEnd(shown)
        | CheckFault::DeadEnd(shown)
        | CheckFault::Loop(shown)
        | CheckFault::Stray(shown) => walk_text(alloc, plan, shown, header, step),
        CheckFault::NoMemory => Ok(String::new(alloc)),
    }
}

/// The line by which a terminal has as many labels from one on, with how many they are if that is said. The only error is out
/// of memory.
pub(crate) fn label_line(
    alloc: Global,
    plan: &Plan,
    terminal: usize,
    counts: bool,
    first: u32,
) -> Result<String, AllocError> {
    let Some(terminal) = plan.terminals().get(terminal) else {
        return Ok(String::new(alloc));
    };
    let port = plan.port_text(alloc, terminal.host_port())?;
    let name = terminal.name.as_str();
    let count = terminal.count;
    if counts {
        format!(in alloc; "terminal {name} {port} labels {count} from {first}")
    } else {
        format!(in alloc; "terminal {name} {port} from {first}")
    }
}

/// The lines of rows of an input, or of all of a switch, each behind a word that says what is to be done with it. The only
/// error is out of memory.
pub(crate) fn row_lines(
    alloc: Global,
    word: &str,
    inputs: &str,
    rows: &[Row],
) -> Result<String, AllocError> {
    let mut text = String::new(alloc);
    for row in rows {
        let limit = row.limit;
        let select = select_text(alloc, row.select)?;
        write!(text, "{word}: row {inputs} {limit} {select}\n")?;
    }
    Ok(text)
}

/// The sentence on accepted labels without a cycle of channel dependencies, by whether random headers are put before
/// packets: then one premise more is told.
pub(crate) fn no_cycle_text(is_randomized: bool) -> &'static str {
    if is_randomized {
        "no cycle of channel dependencies: under rounds every packet with a whole header\n\
         that a terminal owns arrives, as long as no inbox or trace is full, nothing is reset or set,\n\
         and no packet behind a random header begins with a random header of the network\n"
    } else {
        "no cycle of channel dependencies: under rounds every packet with a whole header\n\
         that a terminal owns arrives, as long as no inbox or trace is full and nothing is reset or set\n"
    }
}

/// The sentences on accepted labels with this line of a cycle, by whether lines follow that break it. The only error is
/// out of memory.
pub(crate) fn cycle_sentences(
    alloc: Global,
    line: &str,
    is_broken: bool,
) -> Result<String, AllocError> {
    let what = if is_broken {
        "this breaks the cycle, and leads each packet to its terminal:"
    } else {
        "no single row was found that breaks it"
    };
    format!(in alloc; "packets can wait for one another forever:\n{line}{what}\n")
}

/// The sentence on two terminals that have a label in common.
fn overlap_text(
    alloc: Global,
    plan: &Plan,
    terminal: usize,
    other: usize,
) -> Result<String, AllocError> {
    let label = first_label(plan, terminal).max(first_label(plan, other));
    let name = plan.terminal_name(terminal);
    let other = plan.terminal_name(other);
    format!(in alloc; "label {label} belongs to {name} and to {other}\n")
}

/// The sentence on a terminal that has a label that is no header.
fn large_text(alloc: Global, plan: &Plan, terminal: usize) -> Result<String, AllocError> {
    let headers = header_values(plan.header());
    let label = first_label(plan, terminal).max(headers);
    let name = plan.terminal_name(terminal);
    let last = headers - 1;
    format!(in alloc; "label {label} of {name} is no header: headers are 0 to {last}\n")
}

/// The sentence on a header that goes wrong by a step of its walk, if one is known.
fn walk_text(
    alloc: Global,
    plan: &Plan,
    shown: &Shown,
    typed: &str,
    step: Option<Misstep>,
) -> Result<String, AllocError> {
    let Some(step) = step else {
        return Ok(String::new(alloc));
    };
    let header = shown.header;
    let is_random = matches!(step.kind, WalkKind::Random(_));
    let label = if step.owner.is_some() && !is_random {
        "label "
    } else {
        ""
    };
    let due = due_text(alloc, plan, shown, step)?;
    let way = way_text(alloc, plan, shown, step)?;
    format!(in alloc; "header {typed} ({label}{header}){due}{way}\n")
}

/// What a header is of a terminal's packets, by the kind of its walk.
fn due_text(
    alloc: Global,
    plan: &Plan,
    shown: &Shown,
    step: Misstep,
) -> Result<String, AllocError> {
    let name = plan.terminal_name(shown.entry);
    let owner = match step.owner {
        Some(owner) => plan.terminal_name(owner),
        None => "no terminal",
    };
    match step.kind {
        WalkKind::Own => format!(in alloc; " belongs to {owner}, but "),
        WalkKind::Random(input) => {
            let input = port_text(alloc, plan, input)?;
            format!(in alloc;
                " is a random one, put before packets of {name} at {input};\n\
                 every way of it has to end at an input that discards it,\nbut "
            )
        }
        WalkKind::Behind(portal) => {
            let portal = port_text(alloc, plan, portal)?;
            format!(in alloc;
                " belongs to {owner}, but behind a random header of {name}, which {portal} discards,\n"
            )
        }
    }
}

/// A step that leads wrong.
fn way_text(
    alloc: Global,
    plan: &Plan,
    shown: &Shown,
    step: Misstep,
) -> Result<String, AllocError> {
    let at = port_text(alloc, plan, step.at)?;
    let is_random = matches!(step.kind, WalkKind::Random(_));
    let Some(link) = step.link else {
        let stop = if is_random {
            "neither discards it nor selects a link for it"
        } else {
            "selects no link for it"
        };
        return format!(in alloc; "{at} {stop}");
    };
    let mut text = format!(in alloc; "{at} may send it by link {link}")?;
    match step.peer {
        None => text.push_str(", which has no wire")?,
        Some(Port::Terminal(terminal)) => {
            let name = plan.terminal_name(terminal);
            if is_random {
                write!(text, " to terminal {name}, which takes packets")?;
            } else {
                write!(text, " to {name}")?;
            }
        }
        Some(Port::Switch(switch, link)) => {
            let port = SwitchPort { switch, link };
            let name = port_text(alloc, plan, port)?;
            write!(text, " to {name}")?;
            if shown.walk.as_slice().contains(&port) {
                text.push_str(", where it has been")?;
            }
        }
    }
    Ok(text)
}

/// A port of a switch.
fn port_text(alloc: Global, plan: &Plan, port: SwitchPort) -> Result<String, AllocError> {
    plan.port_text(alloc, Port::Switch(port.switch, port.link))
}

/// The first label of a terminal; 0 where there is no such terminal.
fn first_label(plan: &Plan, terminal: usize) -> u32 {
    match plan.terminals().get(terminal) {
        Some(terminal) => terminal.first,
        None => 0,
    }
}
