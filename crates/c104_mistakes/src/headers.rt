//! Headers, as people are told of them.

use c104_plan::{Plan, Shape};
use std::alloc::{AllocError, Global};

/// A header as it is typed in `send`: its bytes, the low one first, with two hexadecimal digits each. The only error is out
/// of memory.
pub fn typed_header(alloc: Global, plan: &Plan, header: u32) -> Result<String, AllocError> {
    let low = header % 256;
    let high = header / 256 % 256;
    if plan.header() == 1 {
        format!(in alloc; "{low:02x}")
    } else {
        format!(in alloc; "{low:02x} {high:02x}")
    }
}

/// The same, and then the label that it is, and whose, where the lines of the description say it. The only error is out of
/// memory.
pub fn header_text(alloc: Global, plan: &Plan, header: u32) -> Result<String, AllocError> {
    let typed = typed_header(alloc, plan, header)?;
    if !matches!(plan.shape(), Shape::Hand) {
        return format!(in alloc; "{typed} (label {header})");
    }
    for terminal in plan.terminals() {
        if terminal.first <= header && header < terminal.first.saturating_add(terminal.count) {
            let name = terminal.name.as_str();
            return format!(in alloc; "{typed} (label {header} of {name})");
        }
    }
    format!(in alloc; "{typed} ({header})")
}
