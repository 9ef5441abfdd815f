//! What the debugger reads.
ghost use Rattle.std.specs.{List.range_with_len, Prelude.{Err, IfOk, Ok, length, ◌+◌, ◌<◌, ◌↔◌, ◌≡◌, ◌≢◌, ◌≤◌}};
ghost use Rattle.c104_tools.specs.{Outcomes.{ComesTo, Outcome, and_then, any_value, link_made, link_peeks, peeks_at}, Ports.Commanded};
ghost use Rattle.c104_tools.specs.Reads.{AreSeen, link_addresses, link_values};
ghost use Rattle.c104_tools.specs.declared.faults.LoadFault.TheVariants as fault;

use crate::commands::ask;
use crate::faults::LoadFault;
use crate::ports::ControlPort;
use c104_control::Command;
use c104_regs::{Address, LINKS, Register};

/// What a link tells of itself.
#[derive(Clone, Copy, Debug, PartialEq, Eq)]
pub struct LinkNumbers {
    /// How many packets the input dropped.
    pub sunk: u32,
    /// How many packets the input found too short.
    pub short: u32,
    /// How many tokens the input buffer holds.
    pub input_level: u32,
    /// How many tokens the output buffer holds.
    pub output_level: u32,
    /// How many tokens the output may send.
    pub credit: u32,
    /// How many more tokens the input let the other end of its wire send.
    pub granted: u32,
    /// 0, or 1 plus the number of the input that streams to the output.
    pub owner: u32,
}

/// Reads registers at addresses that follow one another, from the first on. Of those that were read
/// before one failed the values are written.
pub(crate) fn read_run<P: ControlPort>(
    port: &mut P,
    switch: usize,
    first: u16,
    values: &mut [u32],
) -> Result<(), LoadFault>
    requires { first + length values.old ≤ 0x10000 }
    ensures asked { ComesTo (Commanded P.commands P.switch_count P.shown P.unanswered P.due) any_value port.old
        (peeks_at switch (range_with_len first (length values.new)))
        (and_then result (λ _. Ok values.new)) port.new }
    ensures known { result ≢ Err fault.NoSwitch }
{
    for i in 0..values.len() {
        let value = ask(port, switch, Command::CPeek(first + i as u16))?;
        values[i] = value;
    }
    Ok(())
}

/// Reads what a link, 0 to 31, of a switch tells of itself, by address. Where the port shows its switches, as a
/// network does, these are the values that the registers of that switch have.
///
/// NoSwitch where the port has no such switch; Refused where it refuses a peek, BadReply where a
/// reply answers no peek, and Port where the port doesn't answer.
pub fn read_link<P: ControlPort>(
    port: &mut P,
    switch: usize,
    link: usize,
) -> Result<LinkNumbers, LoadFault>
    requires { link < LINKS }
    ensures unknown { (result ≡ Err fault.NoSwitch) ↔ (P.switch_count port.old ≤ switch) }
    ensures not_asked { P.switch_count port.old ≤ switch → port.new ≡ port.old }
    ensures asked { switch < P.switch_count port.old →
        Outcome (Commanded P.commands P.switch_count P.shown P.unanswered P.due) any_value link_made port.old
        (link_peeks switch link) result port.new }
    ensures due { switch < P.switch_count port.old →
        Outcome P.due any_value link_made port.old (link_peeks switch link) result port.new }
    ensures seen { switch < P.switch_count port.old → IfOk result (λ numbers.
        AreSeen (P.shown port.old) switch (link_addresses link) (link_values numbers)) }
{
    if switch >= port.switches() {
        return Err(LoadFault::NoSwitch);
    }
    let first = Address::AtLink(link, Register::Sunk).number();
    let mut values = [0; 7];
    read_run(port, switch, first, &mut values)?;
    let [
        sunk,
        short,
        input_level,
        output_level,
        credit,
        granted,
        owner,
    ] = values;
    Ok(LinkNumbers {
        sunk,
        short,
        input_level,
        output_level,
        credit,
        granted,
        owner,
    })
}
