use c104_control::{
    Answer, Command, DEVICE_ID, read_command, read_reply, write_command, write_reply,
};

// These functions promise nothing, since the prover would compute with literal bytes.

/// Whether a command is written and read as these bytes.
fn is_command(bytes: &[u8], command: Command) -> bool {
    read_command(bytes) == Ok(command) && write_command(&command).as_slice() == bytes
}

/// Whether an answer is written and read as these bytes.
fn is_answer(bytes: &[u8], answer: Answer) -> bool {
    read_reply(bytes) == Some(answer) && write_reply(&answer).as_slice() == bytes
}

#[test]
fn commands(rt: HostRuntime) {
    for (bytes, command) in [
        (&[0x01][..], Command::Start),
        (&[0x02], Command::Reset),
        (&[0x03], Command::Identify),
        (&[0x04, 0x03, 0x01], Command::CPeek(0x0103)),
        (
            &[0x05, 0x40, 0x01, 0x04, 0x03, 0x02, 0x01],
            Command::CPoke(0x0140, 0x0102_0304),
        ),
    ] {
        assert!(rt; is_command(bytes, command), "at {bytes:?}");
    }
}

#[test]
fn answers(rt: HostRuntime) {
    for (bytes, answer) in [
        (&[0x81][..], Answer::Started),
        (&[0x82], Answer::WasReset),
        (&[0x83, 0x04, 0xc1, 0x00, 0x00], Answer::Identity(DEVICE_ID)),
        (&[0x84, 0x04, 0x03, 0x02, 0x01], Answer::Value(0x0102_0304)),
        (&[0x85], Answer::Poked),
        (&[0xff, 0x07], Answer::Refused(7)),
    ] {
        assert!(rt; is_answer(bytes, answer), "at {bytes:?}");
    }
}
