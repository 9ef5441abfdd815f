//! What stands at a port, in words.
ghost use Rattle.std.specs.Prelude.{◌<◌};

use crate::shown_nodes::link_text;
use c104_mistakes::{
    LAST_LINK, Mistake, NO_LINK, NO_NODE, TERMINALS_LINK, link_of, name_of, nearest_switch,
};
use c104_net::TracedNet;
use std::alloc::{AllocError, Global};

/// What is told of a link without a wire.
const UNWIRED: &str = "the link has neither a terminal nor a wire";

/// What stands at the port that a word with a dot names, or that there is no such port.
pub(crate) fn port_answer(
    alloc: Global,
    net: &TracedNet,
    word: &[u8],
) -> Result<String, AllocError> {
    let plan = net.plan();
    let name = name_of(word);
    let Some(switch) = plan.switch_number(name) else {
        if plan.terminal_number(name).is_some() {
            return Mistake::new(TERMINALS_LINK, Some(word)).text(alloc);
        }
        return Mistake::new(NO_NODE, Some(word))
            .near(nearest_switch(plan, name))
            .text(alloc);
    };
    match link_of(word) {
        Some(link) if link <= LAST_LINK => link_answer(alloc, net, switch, link as usize),
        _ => Mistake::new(NO_LINK, Some(word)).text(alloc),
    }
}

/// What stands at a link of a switch.
fn link_answer(
    alloc: Global,
    net: &TracedNet,
    switch: usize,
    link: usize,
) -> Result<String, AllocError>
    requires { link < 32 }
{
    let text = link_text(alloc, net, switch, link)?;
    if text.is_empty() {
        return format!(in alloc; "{UNWIRED}");
    }
    Ok(text)
}
