//! What people are told of links that are set as no description sets them.
use c104_check::check;
use c104_commands::check_advice;
use c104_describe::read_description;
use c104_label::image_of;
use std::alloc::Global;

/// Two switches with a terminal each, and a wire between them.
const PAIR: &[u8] = b"switch A\nswitch B\nterminal a A.0\nterminal b B.0\nwire A.1 B.1\n";

/// The mode of link 1.
const MODE: u16 = 0x0200;

// This function promises nothing, since the prover would compute with literals.

/// What is told where link A.1 has this mode.
fn told(alloc: Global, mode: u32) -> Option<String> {
    let plan = read_description(alloc, PAIR).ok()?;
    let mut image = image_of(alloc, &plan).ok()?;
    image.set(0, MODE, mode).ok()?;
    if !image.fits(&plan) {
        return None;
    }
    let fault = check(alloc, &plan, &image).err()?;
    check_advice(alloc, &plan, &image, &fault).ok()
}

/// Whether this is told where link A.1 has this mode.
fn is_told(alloc: Global, mode: u32, due: &str) -> bool {
    match told(alloc, mode) {
        Some(text) => text.as_str() == due,
        None => false,
    }
}

#[test]
fn link_settings(rt: HostRuntime) {
    let two_bytes = "headers at A.1 are of another length than at the first link that is wired\n";
    assert!(rt; is_told(rt.alloc(), 1, two_bytes));
    let deletes = "A.1 is wired to a switch, but deletes headers\n";
    assert!(rt; is_told(rt.alloc(), 2, deletes));
}
