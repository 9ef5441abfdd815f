//! Headers that nothing in a description tells apart. Nothing is proved of it but that it is safe and ends.

use crate::network::set_at;
use c104_plan::{LABELS, Plan, header_values};
use std::alloc::{AllocError, Global};

/// Headers next to one another that no row, base or range of labels tells apart.
#[derive(Clone, Copy)]
pub(crate) struct HeaderClass {
    /// The first of them.
    pub(crate) first: u32,
    /// The first number past them.
    pub(crate) end: u32,
    /// The terminal that they are labels of, if they are.
    pub(crate) owner: Option<usize>,
}

/// All headers of a network, in such classes.
pub(crate) fn header_classes(alloc: Global, plan: &Plan) -> Result<Vec<HeaderClass>, AllocError> {
    let begins = class_begins(alloc, plan)?;
    let headers = header_values(plan.header());
    let mut classes = Vec::new(alloc);
    let mut first = 0;
    for header in 1..headers {
        if begins.get(header as usize) == Some(&true) {
            classes.push(class_of(plan, first, header))?;
            first = header;
        }
    }
    classes.push(class_of(plan, first, headers))?;
    Ok(classes)
}

/// With which numbers a class may begin.
fn class_begins(alloc: Global, plan: &Plan) -> Result<Vec<bool>, AllocError> {
    let mut begins = vec![in alloc; false; LABELS as usize]?;
    for base in plan.bases() {
        set_at(&mut begins, base.base as usize);
    }
    for row in plan.rows() {
        set_at(&mut begins, row.limit as usize);
    }
    for terminal in plan.terminals() {
        let end = terminal.first.saturating_add(terminal.count);
        set_at(&mut begins, terminal.first as usize);
        set_at(&mut begins, end as usize);
    }
    Ok(begins)
}

/// The class from a header on up to another.
fn class_of(plan: &Plan, first: u32, end: u32) -> HeaderClass {
    let owner = plan.terminals().iter().position(|terminal| terminal.first <= first
        && first < terminal.first.saturating_add(terminal.count));
    HeaderClass { first, end, owner }
}
