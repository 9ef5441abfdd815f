//! The line of a refused description.
ghost use Rattle.std.specs.{Prelude.{IfOk, ◌≡◌}, String.string_bytes};
ghost use Rattle.c104_describe.specs.PlanFaults.{description_text};

use crate::faults::PlanFault;
use c104_token::NoMemory;
use std::alloc::Global;

/// The line of a refused description. The only error is out of memory.
pub fn description_text(alloc: Global, fault: PlanFault) -> Result<String, NoMemory>
    ensures { IfOk result (λ text. string_bytes text ≡ description_text fault) }
{
    let line = fault.line;
    let text = format!(in alloc;
        "description {line}: {} {}\n",
        fault.kind.number(),
        fault.kind.name()
    )?;
    Ok(text)
}
