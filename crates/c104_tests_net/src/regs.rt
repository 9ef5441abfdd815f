use c104_regs::{RegFault, Registers};

/// `Registers::settable`, with nothing promised: the prover would compute with literal values.
fn settable(addr: u16, value: u32) -> Result<(), RegFault> {
    Registers::settable(addr, value)
}

/// A mode has four bits: two-byte headers, deleting headers, random headers and continuing a group.
/// A row may select a link, discarding or the sink.
#[test]
fn values(rt: HostRuntime) {
    for (addr, value, answer) in [
        (0x0100, 1, Ok(())),
        (0x0100, 15, Ok(())),
        (0x0100, 16, Err(RegFault::OutOfRange)),
        (0x0180, 32, Ok(())),
        (0x0180, 33, Err(RegFault::OutOfRange)),
        (0x0180, 64, Ok(())),
    ] {
        assert!(rt; settable(addr, value) == answer, "{value}");
    }
}
