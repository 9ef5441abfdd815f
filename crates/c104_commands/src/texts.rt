//! What a check prints.
ghost use Rattle.std.specs.{Prelude.{IfOk, ◌≡◌}, String.string_bytes};
ghost use Rattle.{c104_check.specs.Routes.to_port, c104_commands.specs.CheckTexts.{check_fault_place, check_fault_text, shown_text}};
ghost use Rattle.c104_plan.specs.PortTexts.{port_text};

use c104_check::{CheckFault, Shown, SwitchPort};
use c104_plan::{Plan, Port};
use c104_token::NoMemory;
use std::alloc::{AllocError, Global};

/// The line that tells why the labels of a plan's network are refused: the fault's number, its name, and
/// where it is, by the names of the plan. The only error is out of memory.
pub fn check_fault_text(alloc: Global, plan: &Plan, fault: &CheckFault) -> Result<String, NoMemory>
    ensures { IfOk result (λ text. string_bytes text ≡ check_fault_text plan.now fault.now) }
{
    let number = fault.number();
    let name = fault.name();
    let place = place_text(alloc, plan, fault)?;
    let text = format!(in alloc; "refused {number} {name}: {place}\n")?;
    Ok(text)
}

/// Where a fault is.
fn place_text(alloc: Global, plan: &Plan, fault: &CheckFault) -> Result<String, AllocError>
    ensures { IfOk result (λ text. string_bytes text ≡ check_fault_place plan.now fault.now) }
{
    match fault {
        CheckFault::RangesOverlap(terminal, other) => {
            let terminal = plan.terminal_name(*terminal);
            let other = plan.terminal_name(*other);
            format!(in alloc; "{terminal} {other}")
        }
        CheckFault::LabelTooLarge(terminal) => {
            let terminal = plan.terminal_name(*terminal);
            format!(in alloc; "{terminal}")
        }
        CheckFault::MixedHeaders(port) => port_text(alloc, plan, *port),
        CheckFault::DeleteInside(port) => port_text(alloc, plan, *port),
        CheckFault::RandomInside(port) => port_text(alloc, plan, *port),
        CheckFault::WrongEnd(shown) => shown_text(alloc, plan, shown),
        CheckFault::DeadEnd(shown) => shown_text(alloc, plan, shown),
        CheckFault::Loop(shown) => shown_text(alloc, plan, shown),
        CheckFault::Stray(shown) => shown_text(alloc, plan, shown),
        CheckFault::NoMemory => format!(in alloc; ""),
    }
}

/// A header that goes wrong, and its walk.
fn shown_text(alloc: Global, plan: &Plan, shown: &Shown) -> Result<String, AllocError>
    ensures { IfOk result (λ text. string_bytes text ≡ shown_text plan.now shown.now) }
{
    let terminal = plan.terminal_name(shown.entry);
    let header = shown.header;
    let mut text = format!(in alloc; "from {terminal} header {header} walk")?;
    for port in shown.walk.as_slice() {
        let port = port_text(alloc, plan, *port)?;
        text.push(' ')?;
        text.push_str(port.as_str())?;
    }
    Ok(text)
}

/// A port of a switch.
pub(crate) fn port_text(alloc: Global, plan: &Plan, port: SwitchPort) -> Result<String, AllocError>
    ensures { IfOk result (λ text. string_bytes text ≡ port_text plan.now (to_port port)) }
{
    plan.port_text(alloc, Port::Switch(port.switch, port.link))
}
