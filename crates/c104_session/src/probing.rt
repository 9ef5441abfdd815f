//! What the debugger answers.
ghost use Rattle.std.specs.Prelude.{IfOk, slice_get, ◌≡◌};
ghost use Rattle.{c104_run.specs.NetRecords.NetRecord as TheNet, c104_script.specs.declared.answers.Answer.Answer as TheAnswer};
ghost use Rattle.c104_session.specs.Probing.{difference_answer, link_answer, link_outcome, probe_answer, register_fault_at, set_answer};
ghost use Rattle.c104_session.specs.Probing.{stopped_answer, table_outcome, tool_outcome, value_answer, verified_answer};
ghost use Rattle.c104_tools.specs.NetOutcomes.{net_poke, net_verify};

use crate::found_registers::{answer_differences, answer_registers};
use crate::tools::{link_of_net, poke_net, table_of_net, verify_net};
use c104_event::EventFault;
use c104_net::TracedNet;
use c104_plan::{Image, Plan};
use c104_regs::{LINKS, RegFault};
use c104_script::{Answer, Finding, FoundTable, Probe};
use c104_switch::Reply;
use c104_token::NoMemory;
use c104_tools::{LinkNumbers, LoadFault};
use std::alloc::Global;

/// Reads or sets what the debugger is asked. The image is what was loaded. The only error is out of memory.
pub(crate) fn answer_probe(
    alloc: Global,
    net: &mut TracedNet,
    image: &Image,
    probe: Probe,
) -> Result<Answer, NoMemory>
    ensures { IfOk result (λ answer. ◌≡◌ {A = TheAnswer × TheNet}
        (answer, net.new) (probe_answer net.old image.now probe)) }
{
    match probe {
        Probe::Peek { switch, addr } => Ok(value_answer(net.peek(switch, addr))),
        Probe::Poke {
            switch,
            addr,
            value,
        } => answer_poke(net, switch, addr, value),
        Probe::Link { switch, link } => answer_link(net, switch, link),
        Probe::Table { switch, link } => answer_table(alloc, net, switch, link),
        Probe::Verify => answer_verify(net, image),
        Probe::VerifyAll => answer_differences(alloc, net, image),
        Probe::Dump { switch } => answer_registers(alloc, net, switch),
    }
}

/// What a register reads, if there is one.
fn value_answer(value: Option<u32>) -> Answer
    ensures { result ≡ value_answer value }
{
    Answer::Found(match value {
        Some(value) => Finding::Value(value),
        None => Finding::Refused(RegFault::NoRegister),
    })
}

/// Sets a register.
fn answer_poke(
    net: &mut TracedNet,
    switch: usize,
    addr: u16,
    value: u32,
) -> Result<Answer, NoMemory>
    ensures { IfOk result (λ answer. ◌≡◌ {A = TheAnswer × TheNet} (answer, net.new)
        (tool_outcome set_answer (net_poke net.old switch addr value))) }
{
    match poke_net(net, switch, addr, value) {
        Ok(()) => Ok(Answer::Replied(Reply::Done)),
        Err(LoadFault::Port(EventFault::NoMemory)) => Err(NoMemory),
        Err(fault) => stopped_answer(net.plan(), fault),
    }
}

/// Reads what a link tells of itself.
fn answer_link(net: &mut TracedNet, switch: usize, link: usize) -> Result<Answer, NoMemory>
    ensures { IfOk result (λ answer. ◌≡◌ {A = TheAnswer × TheNet}
        (answer, net.new) (link_outcome net.old switch link)) }
{
    if link >= LINKS {
        return Ok(Answer::Refused(EventFault::NoLink));
    }
    match link_of_net(net, switch, link) {
        Ok(numbers) => Ok(link_answer(numbers)),
        Err(LoadFault::Port(EventFault::NoMemory)) => Err(NoMemory),
        Err(fault) => stopped_answer(net.plan(), fault),
    }
}

/// What a link tells of itself.
fn link_answer(numbers: LinkNumbers) -> Answer
    ensures { result ≡ link_answer numbers }
{
    Answer::Found(Finding::Link {
        input_level: numbers.input_level,
        output_level: numbers.output_level,
        credit: numbers.credit,
        granted: numbers.granted,
        owner: numbers.owner,
        sunk: numbers.sunk,
        short: numbers.short,
    })
}

/// Reads an input's table.
fn answer_table(
    alloc: Global,
    net: &mut TracedNet,
    switch: usize,
    link: usize,
) -> Result<Answer, NoMemory>
    ensures { IfOk result (λ answer. ◌≡◌ {A = TheAnswer × TheNet}
        (answer, net.new) (table_outcome net.old switch link)) }
{
    if link >= LINKS {
        return Ok(Answer::Refused(EventFault::NoLink));
    }
    match table_of_net(net, switch, link) {
        Ok(table) => {
            let found = FoundTable::new(alloc, table)?;
            Ok(Answer::Found(Finding::Table(found)))
        }
        Err(LoadFault::Port(EventFault::NoMemory)) => Err(NoMemory),
        Err(fault) => stopped_answer(net.plan(), fault),
    }
}

/// Sees whether the image is still loaded.
fn answer_verify(net: &mut TracedNet, image: &Image) -> Result<Answer, NoMemory>
    ensures { IfOk result (λ answer. ◌≡◌ {A = TheAnswer × TheNet} (answer, net.new)
        (tool_outcome verified_answer (net_verify net.old image.now))) }
{
    match verify_net(net, image) {
        Ok(()) => Ok(Answer::Found(Finding::Verified)),
        Err(LoadFault::Port(EventFault::NoMemory)) => Err(NoMemory),
        Err(fault) => stopped_answer(net.plan(), fault),
    }
}

/// What is answered where the debugger stopped. A network's switches reply to each command with an answer to
/// it, so that BadReply doesn't come. The only error is out of memory.
fn stopped_answer(plan: &Plan, fault: LoadFault) -> Result<Answer, NoMemory>
    ensures { IfOk result (λ answer. answer ≡ stopped_answer plan.now fault) }
{
    match fault {
        LoadFault::Refused(_, _, number) => {
            Ok(Answer::Found(Finding::Refused(register_fault_at(number))))
        }
        LoadFault::Differs(switch, addr, value) => { difference_answer(plan, switch, addr, value) }
        LoadFault::Port(fault) => Ok(Answer::Refused(fault)),
        LoadFault::NoSwitch | LoadFault::BadReply(_) => Ok(Answer::Refused(EventFault::NoNode)),
    }
}

/// A register of a switch reads another value than was loaded. The only error is out of memory.
fn difference_answer(plan: &Plan, switch: usize, addr: u16, value: u32) -> Result<Answer, NoMemory>
    ensures { IfOk result (λ answer. answer ≡ difference_answer (slice_get plan.now.switches switch) addr value) }
{
    let Some(name) = plan.switches().get(switch) else {
        return Ok(Answer::Refused(EventFault::NoNode));
    };
    let switch = name.clone()?;
    Ok(Answer::Found(Finding::Differs {
        switch,
        addr,
        value,
    }))
}

/// The fault of a register, by the number of the refusal: 3 to 6.
fn register_fault_at(number: u8) -> RegFault
    ensures { result ≡ register_fault_at number }
{
    match number {
        3 => RegFault::NoRegister,
        4 => RegFault::ReadOnly,
        5 => RegFault::OutOfRange,
        _ => RegFault::Busy,
    }
}
