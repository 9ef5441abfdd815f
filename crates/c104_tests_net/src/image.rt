use crate::plan_calls::{Maker, described};
use c104_plan::{Image, ImageFault};
use c104_regs::RegFault;
use std::alloc::Global;

/// One switch with two terminals, and rows from each to the other.
const PAIR: &[u8] = b"switch A\nterminal a A.0\nterminal b A.1\n\
    row A.0 1 0\nrow A.0 2 1\nrow A.1 1 0\nrow A.1 2 1\n";

/// Registers of a switch by their addresses, each with a value.
type Values<'a> = &'a [(u16, u32)];

// These functions promise nothing, since the prover would compute with literals: a description's text,
// what is set in an image, and what is expected of it.

/// Whether an empty image of the pair has the values of each of these steps after what is set in it.
fn has_values(alloc: Global, steps: &[(Values, Values)]) -> bool {
    let Some(mut image) = described(alloc, PAIR, Maker::Empty) else {
        return false;
    };
    takes(&mut image, steps)
}

fn takes(image: &mut Image, steps: &[(Values, Values)]) -> bool {
    for (set, expected) in steps {
        if !is_set(image, set) || image.values(0) != Some(*expected) {
            return false;
        }
    }
    true
}

fn is_set(image: &mut Image, values: Values) -> bool {
    for (addr, value) in values {
        if image.set(0, *addr, *value).is_err() {
            return false;
        }
    }
    true
}

/// Values of registers, each by its switch and address, and why it is refused.
type Refused<'a> = &'a [(usize, u16, u32, ImageFault)];

/// Ranges, each by its terminal, its first label and how many it has, and why it is refused.
type RefusedRanges<'a> = &'a [(usize, u32, u32, ImageFault)];

/// Whether the image of the pair refuses all of these.
fn refuses(alloc: Global, values: Refused, ranges: RefusedRanges) -> bool {
    let Some(mut image) = described(alloc, PAIR, Maker::Lines) else {
        return false;
    };
    refuses_values(&mut image, values) && refuses_ranges(&mut image, ranges)
}

fn refuses_values(image: &mut Image, values: Refused) -> bool {
    for (switch, addr, value, fault) in values {
        if image.set(*switch, *addr, *value) != Err(*fault) {
            return false;
        }
    }
    true
}

fn refuses_ranges(image: &mut Image, ranges: RefusedRanges) -> bool {
    for (terminal, first, count, fault) in ranges {
        if image.set_range(*terminal, *first, *count) != Err(*fault) {
            return false;
        }
    }
    true
}

/// A value is put in at its place, replaced, and gone where it is the reset value.
#[test]
fn of_values(rt: HostRuntime) {
    let first = [(0x0181, 31), (0x0100, 8), (0x2040, 65536), (0x0181, 5)];
    let expected = [(0x0100, 8), (0x0181, 5), (0x2040, 65536)];
    let second = [(0x0181, 64), (0x0140, 0)];
    let left = [(0x0100, 8), (0x2040, 65536)];
    let steps = [
        (first.as_slice(), expected.as_slice()),
        (second.as_slice(), left.as_slice()),
    ];
    assert!(rt; has_values(rt.alloc(), steps.as_slice()));
}

/// Registers that can't be set, by the first fault.
#[test]
fn refused_values(rt: HostRuntime) {
    let values = [
        (0, 0x0003, 1, ImageFault::Register(RegFault::NoRegister)),
        (0, 0x0103, 1, ImageFault::Register(RegFault::ReadOnly)),
        (0, 0x0140, 65537, ImageFault::Register(RegFault::OutOfRange)),
        (1, 0x0140, 1, ImageFault::NoNode),
    ];
    assert!(rt; refuses(rt.alloc(), values.as_slice(), [].as_slice()));
}

/// Ranges that can't be set.
#[test]
fn refused_ranges(rt: HostRuntime) {
    let ranges = [
        (0, 0, 0, ImageFault::BadRange),
        (0, 65535, 2, ImageFault::BadRange),
        (2, 0, 0, ImageFault::NoNode),
    ];
    assert!(rt; refuses(rt.alloc(), [].as_slice(), ranges.as_slice()));
}
