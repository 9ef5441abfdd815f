//! Why lists are not those of one run.
ghost use Rattle.std.specs.Prelude.{◌≡◌};
ghost use Rattle.c104_audit.specs.declared.faults.AuditFault.TheVariants as fault;

use c104_token::NoMemory as OutOfMemory;
use thiserror::Error;

/// Why lists are not those of one run: the first clause of the audit that fails, with the least number at which it does.
#[derive(Clone, Copy, Debug, PartialEq, Eq, Error)]
pub enum AuditFault {
    /// The kind, the buffers or the wired links of this node aren't those of the plan.
    #[error("node {0} isn't what the plan has at its place")]
    Shape(usize),
    /// The tickets of this node's trace don't rise.
    #[error("the tickets of node {0} don't rise")]
    Order(usize),
    /// The entries at the two ends of this wire don't agree.
    #[error("the two ends of wire {0} don't agree")]
    Ends(usize),
    /// The list of this seat isn't what the entries tell that carry its number.
    #[error("the calls of seat {0} aren't what the traces tell")]
    Calls(usize),
    /// The start of this node, or its entries without a seat, aren't those that it had before.
    #[error("node {0} isn't as it was handed over")]
    Before(usize),
    /// Out of memory.
    #[error("out of memory")]
    NoMemory,
}

impl From<OutOfMemory> for AuditFault {
    ghost from_gives = { λ _ e. e ≡ fault.NoMemory };

    fn from(_error: OutOfMemory) -> AuditFault {
        AuditFault::NoMemory
    }
}
