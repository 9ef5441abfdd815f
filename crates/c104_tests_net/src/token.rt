use c104_token::{
    Packet, Token, TokenFault, cut_packets, packet_tokens, parse_packet, print_packet,
};
use std::alloc::Global;

// These functions promise nothing, since the prover would compute with literal texts.

/// Whether a text is no packet, by this fault.
fn refuses(alloc: Global, text: &str, fault: TokenFault) -> bool {
    match parse_packet(alloc, text) {
        Ok(_) => false,
        Err(found) => found == fault,
    }
}

/// Whether the packet of a text is printed so.
fn reads(alloc: Global, text: &str, expected: &str) -> bool {
    match parse_packet(alloc, text) {
        Ok(packet) => is_printed(alloc, &packet, expected),
        Err(_) => false,
    }
}

fn is_printed(alloc: Global, packet: &Packet, expected: &str) -> bool {
    match print_packet(alloc, packet) {
        Ok(text) => text.as_str() == expected,
        Err(_) => false,
    }
}

/// The first fault from the left is answered. Only spaces part words.
#[test]
fn texts(rt: HostRuntime) {
    for (text, fault) in [
        ("", TokenFault::NoEnd),
        ("0g eop", TokenFault::BadHex),
        ("01\taa eop", TokenFault::BadHex),
        ("01 eop 02", TokenFault::AfterEnd),
    ] {
        assert!(rt; refuses(rt.alloc(), text, fault), "at {text:?}");
    }
    assert!(rt; reads(rt.alloc(), "AA eom", "aa eom"));
}

/// Whether a list is cut into one packet, that of its first two tokens, and as many tokens that are left.
fn is_cut(alloc: Global, list: &[Token], expected: usize) -> bool {
    match cut_packets(alloc, list) {
        Ok((packets, left)) => left == expected && is_only_packet(alloc, &packets, list),
        Err(_) => false,
    }
}

fn is_only_packet(alloc: Global, packets: &[Packet], list: &[Token]) -> bool {
    match packets {
        [packet] => has_tokens(alloc, packet, list),
        _ => false,
    }
}

fn has_tokens(alloc: Global, packet: &Packet, list: &[Token]) -> bool {
    match packet_tokens(alloc, packet) {
        Ok(tokens) => Some(tokens.as_slice()) == list.get(..2),
        Err(_) => false,
    }
}

/// The tokens 01 eop aa are the packet 01 eop, and one token of a packet that hasn't ended.
#[test]
fn tokens_of_packets(rt: HostRuntime) {
    let list = [Token::Byte(1), Token::Eop, Token::Byte(0xaa)];
    assert!(rt; is_cut(rt.alloc(), &list, 1));
}
