//! Which inputs of a network have a packet on its way, and what each of these waits for, in words.

use crate::reasons::add_port;
use c104_event::Event;
use c104_mistakes::{counted, header_text};
use c104_net::{Reason, TracedNet};
use c104_plan::{Plan, Port};
use c104_switch::{LINKS, LinkView, Phase, Unready};
use std::alloc::{AllocError, Global};

/// The address of the register that says whether a switch is started.
const STARTED: u16 = 0x0001;

/// The most tokens that an output holds.
const OUTPUT_CAP: usize = 8;

/// An input of a switch.
#[derive(Clone, Copy)]
struct Input {
    switch: usize,
    link: usize,
}

impl Input {
    /// A port of the same switch.
    fn beside(self, link: usize) -> Port {
        Port::Switch(self.switch, link)
    }
}

/// A line for each switch that isn't started, for each output that an input holds for its packet, for each that one wants
/// for its header, for each input that reads or drops and has no token, and for each output without a wire that holds tokens
/// and that no input holds, by switch and link. Nothing where there is none such.
pub(crate) fn waiting_text(alloc: Global, net: &TracedNet) -> Result<String, AllocError> {
    let mut text = String::new(alloc);
    for switch in 0..net.plan().switches().len() {
        add_switch(alloc, net, switch, &mut text)?;
    }
    Ok(text)
}

/// The lines of a switch's inputs join the text.
fn add_switch(
    alloc: Global,
    net: &TracedNet,
    switch: usize,
    text: &mut String,
) -> Result<(), AllocError> {
    if let Some(line) = stopped_line(alloc, net, switch)? {
        add_line(text, line.as_str())?;
    }
    for link in 0..LINKS {
        if let Some(view) = net.view_link(switch, link) {
            add_input(alloc, net, Input { switch, link }, &view, text)?;
            add_unwired(alloc, net, Port::Switch(switch, link), &view, text)?;
        }
    }
    Ok(())
}

/// The line of a switch that isn't started, in which nothing moves from an input to an output.
pub(crate) fn stopped_line(
    alloc: Global,
    net: &TracedNet,
    switch: usize,
) -> Result<Option<String>, AllocError> {
    let Some(name) = net.plan().switches().get(switch) else {
        return Ok(None);
    };
    if net.peek(switch, STARTED) != Some(0) {
        return Ok(None);
    }
    let name = name.as_str();
    let line = format!(in alloc; "{name} is not started; `control {name} 01` starts it")?;
    Ok(Some(line))
}

/// The line of an output without a wire joins the text, where it holds tokens and no input holds it.
fn add_unwired(
    alloc: Global,
    net: &TracedNet,
    output: Port,
    view: &LinkView,
    text: &mut String,
) -> Result<(), AllocError> {
    let plan = net.plan();
    if view.output_level == 0 || view.owner.is_some() || plan.peer(output).is_some() {
        return Ok(());
    }
    let tokens = counted(alloc, view.output_level, "token")?;
    let output = plan.port_text(alloc, output)?;
    let line = format!(in alloc; "{output}, which has no wire, holds {tokens}")?;
    add_line(text, line.as_str())
}

/// The lines of an input join the text.
fn add_input(
    alloc: Global,
    net: &TracedNet,
    input: Input,
    view: &LinkView,
    text: &mut String,
) -> Result<(), AllocError> {
    match &view.phase {
        Phase::Stream(output) => add_held(alloc, net, input, *output, text),
        Phase::Want(header, _) => add_wanted(alloc, net, input, header.value(), text),
        Phase::Head(_) => add_starved(alloc, net, input, view, "reads a header", text),
        Phase::Sinking => add_starved(alloc, net, input, view, "drops its packet", text),
        Phase::Fresh => Ok(()),
    }
}

/// The line of an input that reads or drops joins the text, if no token is there: where the next one comes from.
fn add_starved(
    alloc: Global,
    net: &TracedNet,
    input: Input,
    view: &LinkView,
    does: &str,
    text: &mut String,
) -> Result<(), AllocError> {
    let plan = net.plan();
    let own = input.beside(input.link);
    let Some(other) = plan.peer(own) else {
        return Ok(());
    };
    if view.input_level > 0 {
        return Ok(());
    }
    let own = plan.port_text(alloc, own)?;
    let other = plan.port_text(alloc, other)?;
    let line = format!(in alloc; "{own} {does}, and waits for the next token from {other}")?;
    add_line(text, line.as_str())
}

/// The line of an output that an input holds joins the text: where it leads, and whether it is full.
fn add_held(
    alloc: Global,
    net: &TracedNet,
    input: Input,
    output: usize,
    text: &mut String,
) -> Result<(), AllocError> {
    let plan = net.plan();
    let output = input.beside(output);
    let end = end_text(alloc, plan, output)?;
    let full = if is_full(net, output) {
        " and is full"
    } else {
        ""
    };
    let own = plan.port_text(alloc, input.beside(input.link))?;
    let output = plan.port_text(alloc, output)?;
    let line = format!(in alloc; "{own} holds {output}, which {end}{full}")?;
    add_line(text, line.as_str())
}

/// Where an output leads.
pub(crate) fn end_text(alloc: Global, plan: &Plan, output: Port) -> Result<String, AllocError> {
    let Some(other) = plan.peer(output) else {
        return format!(in alloc; "has no wire");
    };
    let end = plan.port_text(alloc, other)?;
    format!(in alloc; "leads to {end}")
}

/// Whether an output holds as many tokens as it may.
fn is_full(net: &TracedNet, output: Port) -> bool {
    let Port::Switch(switch, link) = output else {
        return false;
    };
    match net.view_link(switch, link) {
        Some(view) => view.output_level >= OUTPUT_CAP,
        None => false,
    }
}

/// The lines of the outputs that an input wants for a header join the text.
fn add_wanted(
    alloc: Global,
    net: &TracedNet,
    input: Input,
    header: u32,
    text: &mut String,
) -> Result<(), AllocError> {
    for output in 0..LINKS {
        add_wish(alloc, net, input, output, header, text)?;
    }
    Ok(())
}

/// The line of an output that an input wants for a header joins the text, if it is of the group that it wants.
fn add_wish(
    alloc: Global,
    net: &TracedNet,
    input: Input,
    output: usize,
    header: u32,
    text: &mut String,
) -> Result<(), AllocError> {
    let claim = Event::Claim {
        switch: input.switch,
        input: input.link,
        output,
    };
    let Some(state) = state_text(alloc, net, input, net.why(&claim))? else {
        return Ok(());
    };
    let ports = (input.beside(input.link), input.beside(output));
    let line = wish_line(alloc, net.plan(), ports, header, state.as_str())?;
    add_line(text, line.as_str())
}

/// The line of an input that wants an output for a header, and how that stands.
fn wish_line(
    alloc: Global,
    plan: &Plan,
    ports: (Port, Port),
    header: u32,
    state: &str,
) -> Result<String, AllocError> {
    let mut line = String::new(alloc);
    add_port(alloc, plan, ports.0, &mut line)?;
    line.push_str(" wants ")?;
    add_port(alloc, plan, ports.1, &mut line)?;
    let header = header_text(alloc, plan, header)?;
    write!(line, " for the header {header}, {state}")?;
    Ok(line)
}

/// How an output stands, by why an input doesn't get it. None where it isn't one that the input wants.
fn state_text(
    alloc: Global,
    net: &TracedNet,
    input: Input,
    reason: Option<Reason>,
) -> Result<Option<String>, AllocError> {
    let text = match reason {
        None => format!(in alloc; "and it is free")?,
        Some(
            Reason {
                unready: Unready::Owned(owner),
                ..
            },
        ) => {
            let owner = net.plan().port_text(alloc, input.beside(owner))?;
            format!(in alloc; "and {owner} holds it")?
        }
        Some(
            Reason {
                unready: Unready::NoRoomForHeader,
                ..
            },
        ) => { format!(in alloc; "which has no room for it")? }
        Some(_) => return Ok(None),
    };
    Ok(Some(text))
}

/// A line joins the text.
pub(crate) fn add_line(text: &mut String, line: &str) -> Result<(), AllocError> {
    if !text.is_empty() {
        text.push('\n')?;
    }
    text.push_str(line)
}
