//! The debugger on a network whose nodes keep what they do: each call by what comes of it.
ghost use Rattle.std.specs.Prelude.{Err, MatchResult, Some, length, ◌<◌, ◌↔◌, ◌≡◌, ◌≤◌};
ghost use Rattle.c104_tools.specs.{Loaded.{IsUnansweredFault, each_with, loaded}, NetCommands.{net_switch_count, net_switches}};
ghost use Rattle.c104_tools.specs.{NetCommands.switches_of, NetOutcomes.{EndsSo, net_link, net_load, net_poke, net_table, net_verify}};
ghost use Rattle.c104_tools.specs.Outcomes.{Outcome, any_value, table_made, table_peeks};
ghost use Rattle.c104_tools.specs.declared.faults.LoadFault.TheVariants as fault;

use c104_interval::Table;
use c104_net::TracedNet;
use c104_plan::Image;
use c104_regs::LINKS;
use c104_tools::{
    ControlPort, LinkNumbers, LoadFault, load, read_link, read_table, verify, write_register,
};

/// Loads an image into the switches.
pub(crate) fn load_net(net: &mut TracedNet, image: &Image) -> Result<(), LoadFault>
    ensures ends { EndsSo (net_load net.old image.now) result net.new }
    ensures loaded { net_switch_count net.old ≡ length image.now.settings → MatchResult result
        (λ _. net_switches net.new ≡ Some (each_with loaded (switches_of net.old.network.nodes) image.now.settings))
        IsUnansweredFault }
{
    load(net, image)
}

/// Sets the register of a switch at this address.
pub(crate) fn poke_net(
    net: &mut TracedNet,
    switch: usize,
    addr: u16,
    value: u32,
) -> Result<(), LoadFault>
    ensures { EndsSo (net_poke net.old switch addr value) result net.new }
{
    write_register(net, switch, addr, value)
}

/// Reads what a link of a switch tells of itself.
pub(crate) fn link_of_net(
    net: &mut TracedNet,
    switch: usize,
    link: usize,
) -> Result<LinkNumbers, LoadFault>
    requires { link < LINKS }
    ensures { EndsSo (net_link net.old switch link) result net.new }
{
    read_link(net, switch, link)
}

/// Reads the table of an input of a switch.
pub(crate) fn table_of_net(
    net: &mut TracedNet,
    switch: usize,
    link: usize,
) -> Result<Table, LoadFault>
    requires { link < LINKS }
    ensures { EndsSo (net_table net.old switch link) result net.new }
{
    table_of(net, switch, link)
}

/// The same of any port. The proof for a network starts from these clauses alone.
fn table_of<P: ControlPort>(port: &mut P, switch: usize, link: usize) -> Result<Table, LoadFault>
    requires { link < LINKS }
    ensures unknown { (result ≡ Err fault.NoSwitch) ↔ (P.switch_count port.old ≤ switch) }
    ensures not_asked { P.switch_count port.old ≤ switch → port.new ≡ port.old }
    ensures due { switch < P.switch_count port.old →
        Outcome P.due any_value (table_made switch) port.old (table_peeks switch link) result port.new }
{
    read_table(port, switch, link)
}

/// Sees whether each register that can be set reads as the image has it.
pub(crate) fn verify_net(net: &mut TracedNet, image: &Image) -> Result<(), LoadFault>
    ensures { EndsSo (net_verify net.old image.now) result net.new }
{
    verify(net, image)
}
