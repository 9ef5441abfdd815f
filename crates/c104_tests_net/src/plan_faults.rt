use c104_control::CommandFault;
use c104_describe::{PlanFault, PlanFaultKind};
use c104_label::LabelFault;
use c104_plan::ImageFault;
use c104_regs::RegFault;
use c104_token::{NoMemory, TokenFault};
use std::alloc::{AllocError, Global};
use std::fmt::Display;

// The numbers and names that the program prints are cases. Those that it prints of no fault are compared here.

/// The messages of faults, a line each.
fn messages_of<F: Display>(alloc: Global, faults: &[F]) -> Result<String, AllocError> {
    let mut text = String::new(alloc);
    for fault in faults {
        add_message(&mut text, alloc, fault)?;
    }
    Ok(text)
}

fn add_message<F: Display>(text: &mut String, alloc: Global, fault: &F) -> Result<(), AllocError> {
    let line = format!(in alloc; "{fault}\n")?;
    text.push_str(line.as_str())
}

/// Whether these are the messages of faults.
fn say<F: Display>(alloc: Global, faults: &[F], messages: &str) -> bool {
    match messages_of(alloc, faults) {
        Ok(found) => found.as_str() == messages,
        Err(_) => false,
    }
}

#[test]
fn of_memory(rt: HostRuntime) {
    assert!(rt; say(rt.alloc(), &[NoMemory], "out of memory\n"));
}

#[test]
fn of_packets(rt: HostRuntime) {
    let faults = [
        TokenFault::BadHex,
        TokenFault::NoEnd,
        TokenFault::AfterEnd,
        TokenFault::TooLong,
        TokenFault::NoMemory,
    ];
    let messages = "a word is neither two hexadecimal digits nor `eop` or `eom`\n\
        the packet has no end: `eop` or `eom` is wanted\n\
        a word follows the packet's end\n\
        the packet has more than 4096 bytes\n\
        out of memory\n";
    assert!(rt; say(rt.alloc(), &faults, messages));
}

#[test]
fn of_registers(rt: HostRuntime) {
    let faults = [
        RegFault::NoRegister,
        RegFault::ReadOnly,
        RegFault::OutOfRange,
        RegFault::Busy,
    ];
    let messages = "no register has this address\n\
        the register can't be written\n\
        the register doesn't take this value\n\
        a packet is on its way through the link\n";
    assert!(rt; say(rt.alloc(), &faults, messages));
}

#[test]
fn of_commands(rt: HostRuntime) {
    let faults = [CommandFault::UnknownCode, CommandFault::WrongLength];
    let messages = "no command begins with this byte\nthe command has another length\n";
    assert!(rt; say(rt.alloc(), &faults, messages));
}

#[test]
fn of_labels(rt: HostRuntime) {
    let faults = [
        LabelFault::NotConnected,
        LabelFault::TooManyLabels,
        LabelFault::WrongShape,
        LabelFault::NoMemory,
        LabelFault::BadGroups,
    ];
    let messages = "wires do not lead from the root to each switch\n\
        there are more labels than headers\n\
        the network does not have the shape that is labelled so\n\
        out of memory\n\
        no labels go with these groups of links\n";
    assert!(rt; say(rt.alloc(), &faults, messages));
}

#[test]
fn of_descriptions(rt: HostRuntime) {
    let kinds = [
        PlanFaultKind::TooLong,
        PlanFaultKind::UnknownWord,
        PlanFaultKind::BadShape,
        PlanFaultKind::BadNumber,
        PlanFaultKind::BadName,
        PlanFaultKind::NameTaken,
        PlanFaultKind::UnknownName,
        PlanFaultKind::SelfWire,
        PlanFaultKind::LinkTaken,
        PlanFaultKind::TooMany,
        PlanFaultKind::Twice,
        PlanFaultKind::MixedStyle,
        PlanFaultKind::NoMemory,
    ];
    let messages = "a description has at most 1048576 bytes\n\
        the first word is not one that a description has\n\
        the line has a wrong byte or a wrong count of words, or a port is not `NAME.NUMBER`\n\
        a number is not 1 to 7 decimal digits, or is out of its range\n\
        a name is a letter and then letters, digits, `_` and `-`, at most 32 bytes in all\n\
        the name is taken\n\
        no line before gives something of this kind the name\n\
        a wire joins two switches\n\
        the link has a terminal or a wire\n\
        there are as many as there may be\n\
        this may be said once\n\
        the line does not go with the lines before\n\
        out of memory\n";
    assert!(rt; say(rt.alloc(), &kinds, messages));
}

/// A description's fault is told behind the number of its line.
#[test]
fn of_lines(rt: HostRuntime) {
    let fault = PlanFault {
        line: 2,
        kind: PlanFaultKind::NameTaken,
    };
    assert!(rt; say(rt.alloc(), &[fault], "line 2: the name is taken\n"));
}

#[test]
fn of_images(rt: HostRuntime) {
    let faults = [
        ImageFault::NoNode,
        ImageFault::Register(RegFault::ReadOnly),
        ImageFault::BadRange,
        ImageFault::NoMemory,
    ];
    let messages = "there is no such node\n\
        the register can't be written\n\
        a range has at least one label, and ends at 65535 at most\n\
        out of memory\n";
    assert!(rt; say(rt.alloc(), &faults, messages));
}

/// What is printed of a command's fault.
fn command_name(fault: CommandFault) -> (u8, &'static str) {
    (fault.number(), fault.name())
}

#[test]
fn names_of_commands(rt: HostRuntime) {
    assert!(rt; command_name(CommandFault::UnknownCode) == (1, "UnknownCode"));
    assert!(rt; command_name(CommandFault::WrongLength) == (2, "WrongLength"));
}

fn label_name(fault: LabelFault) -> (u8, &'static str) {
    (fault.number(), fault.name())
}

#[test]
fn names_of_labels(rt: HostRuntime) {
    assert!(rt; label_name(LabelFault::WrongShape) == (3, "WrongShape"));
    assert!(rt; label_name(LabelFault::NoMemory) == (4, "NoMemory"));
    assert!(rt; label_name(LabelFault::BadGroups) == (5, "BadGroups"));
}

fn image_name(fault: ImageFault) -> (u8, &'static str) {
    (fault.number(), fault.name())
}

#[test]
fn names_of_images(rt: HostRuntime) {
    assert!(rt; image_name(ImageFault::NoNode) == (1, "NoNode"));
    assert!(rt; image_name(ImageFault::Register(RegFault::ReadOnly)) == (2, "Register"));
    assert!(rt; image_name(ImageFault::BadRange) == (3, "BadRange"));
    assert!(rt; image_name(ImageFault::NoMemory) == (4, "NoMemory"));
}

#[test]
fn names_of_descriptions(rt: HostRuntime) {
    let kind = PlanFaultKind::NoMemory;
    assert!(rt; kind.number() == 13 && kind.name() == "NoMemory");
}
