//! Names in what is printed.
//!
//! A terminal is named without a link, an input with one, and the kind of the node is looked at first: `input a.0` with a
//! terminal a is NoNode, `cross a.0` is NoLink. A name that couldn't be one is no fault in a script: nothing has it, so
//! the answer is NoNode.
ghost use Rattle.std.specs.Prelude.{◌≡◌, ◌++◌, OnOk};
ghost use Rattle.c104_plan.specs.PortTexts.{terminal_name};

use c104_plan::Plan;
use c104_token::NoMemory;

/// The name of the terminal of this number joins the text; nothing does where the plan has no such terminal. The only error is out of
/// memory.
pub fn add_name(plan: &Plan, number: usize, text: &mut Vec<u8>) -> Result<(), NoMemory>
    ensures { OnOk result (text.new.items ≡ text.old.items ++ terminal_name plan.now number) }
{
    if let Some(terminal) = plan.terminals().get(number) {
        text.extend_from_slice(terminal.name.as_bytes())?;
    }
    Ok(())
}
