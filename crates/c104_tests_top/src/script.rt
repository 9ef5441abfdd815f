use c104_event::EventFault;
use c104_script::{Answer, LineFault, add_answer};
use std::alloc::{AllocError, Global};

// These functions promise nothing, since the prover would compute with literal texts.

/// The messages of faulty lines, a line each.
fn messages_of(alloc: Global, faults: &[LineFault]) -> Result<String, AllocError> {
    let mut text = String::new(alloc);
    for fault in faults {
        add_message(&mut text, alloc, *fault)?;
    }
    Ok(text)
}

fn add_message(text: &mut String, alloc: Global, fault: LineFault) -> Result<(), AllocError> {
    let line = format!(in alloc; "{fault}\n")?;
    text.push_str(line.as_str())
}

/// Whether these are the messages of faulty lines.
fn say(alloc: Global, faults: &[LineFault], messages: &str) -> bool {
    match messages_of(alloc, faults) {
        Ok(found) => found.as_str() == messages,
        Err(_) => false,
    }
}

/// What is told of each faulty line.
#[test]
fn faulty_lines(rt: HostRuntime) {
    let faults = [
        LineFault::LineTooLong,
        LineFault::UnknownWord,
        LineFault::BadShape,
        LineFault::BadNumber,
        LineFault::BadHex,
        LineFault::NoEnd,
        LineFault::AfterEnd,
        LineFault::PacketTooLong,
        LineFault::NoMemory,
        LineFault::NoLabel,
    ];
    let messages = "a line has at most 16384 bytes\n\
        the first word is not one that a script has\n\
        the line has a wrong byte or a wrong count of words, or a second dot\n\
        a number is 1 to 7 decimal digits, rounds are 1 to 10000, and a seed is below 2^64\n\
        a word isn't made of the hexadecimal digits that are wanted, and is no end of a packet\n\
        the packet has no end: `eop` or `eom` is wanted\n\
        a word follows the packet's end\n\
        the packet has more than 4096 bytes\n\
        out of memory\n\
        the first label of the receiver is no header of the network\n";
    assert!(rt; say(rt.alloc(), &faults, messages));
}

/// Whether a script's tenth line is answered so.
fn is_tenth(alloc: Global, fault: EventFault, line: &str) -> bool {
    let mut text = Vec::new(alloc);
    add_answer(10, &Answer::Refused(fault), &mut text).is_ok() && text.as_slice() == line.as_bytes()
}

/// What is printed of the refusals that no line of a script meets.
#[test]
fn refusals(rt: HostRuntime) {
    assert!(rt; is_tenth(rt.alloc(), EventFault::TooLong, "10: refused 4 TooLong\n"));
    assert!(rt; is_tenth(rt.alloc(), EventFault::NoMemory, "10: refused 8 NoMemory\n"));
}
