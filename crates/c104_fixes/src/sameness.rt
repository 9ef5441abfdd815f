//! Whether two faults of labels are the same.
ghost use Rattle.std.specs.Prelude.{◌≡◌, ◌↔◌, IsTrue};

use c104_check::{CheckFault, Shown, SwitchPort};

/// Whether both are the same fault.
pub(crate) fn is_same_fault(one: &CheckFault, other: &CheckFault) -> bool
    ensures { IsTrue result ↔ (one.now ≡ other.now) }
{
    match (one, other) {
        (CheckFault::RangesOverlap(one, second), CheckFault::RangesOverlap(other, another)) => {
            *one == *other && *second == *another
        }
        (CheckFault::LabelTooLarge(one), CheckFault::LabelTooLarge(other)) => *one == *other,
        (CheckFault::MixedHeaders(one), CheckFault::MixedHeaders(other)) => is_same_port(
            *one, *other,
        ),
        (CheckFault::DeleteInside(one), CheckFault::DeleteInside(other)) => is_same_port(
            *one, *other,
        ),
        (CheckFault::RandomInside(one), CheckFault::RandomInside(other)) => is_same_port(
            *one, *other,
        ),
        (CheckFault::WrongEnd(one), CheckFault::WrongEnd(other)) => is_same_walk(one, other),
        (CheckFault::DeadEnd(one), CheckFault::DeadEnd(other)) => is_same_walk(one, other),
        (CheckFault::Loop(one), CheckFault::Loop(other)) => is_same_walk(one, other),
        (CheckFault::Stray(one), CheckFault::Stray(other)) => is_same_walk(one, other),
        (CheckFault::NoMemory, CheckFault::NoMemory) => true,
        _ => false,
    }
}

/// Whether both are the same walk of the same header.
fn is_same_walk(one: &Shown, other: &Shown) -> bool
    ensures { IsTrue result ↔ (one.now ≡ other.now) }
{
    one.entry == other.entry
        && one.header == other.header
        && are_same_ports(one.walk.as_slice(), other.walk.as_slice())
}

/// Whether both have the same ports.
fn are_same_ports(ports: &[SwitchPort], others: &[SwitchPort]) -> bool
    ensures { IsTrue result ↔ (ports.now ≡ others.now) }
{
    if ports.len() != others.len() {
        return false;
    }
    for (number, own) in ports.iter().enumerate() {
        if !is_same_port(*own, others[number]) {
            return false;
        }
    }
    true
}

/// Whether both are the same port.
fn is_same_port(one: SwitchPort, other: SwitchPort) -> bool
    ensures { IsTrue result ↔ (one ≡ other) }
{
    one == other
}
