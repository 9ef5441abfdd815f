//! Packets: their texts and their tokens.
use crate::calls::packet;
use crate::growths::{Growing, Refusal, is_right};
use crate::outcomes::Outcome;
use c104_plan::cut_words;
use c104_token::{
    Packet, Token, cut_packets, packet_tokens, parse_packet, parse_words, print_packet,
};
use std::alloc::Global;

/// The text of a packet.
const TEXT: &str = "01 aa bb cc dd ee ff 00 11 22 33 eop";

/// The tokens of two packets, and one of a third.
const TOKENS: [Token; 6] = [
    Token::Byte(1),
    Token::Byte(2),
    Token::Eop,
    Token::Byte(3),
    Token::Eom,
    Token::Byte(4),
];

/// A packet is read from its text.
#[derive(Drop)]
struct Reading;

impl Growing for Reading {
    fn call(&self, alloc: Global, refusal: Refusal) -> Outcome {
        refusal.begin(alloc);
        let result = parse_packet(alloc, TEXT);
        refusal.end(alloc);
        Outcome::of(result)
    }
}

/// A packet is read from its words.
#[derive(Drop)]
struct ReadingWords;

impl Growing for ReadingWords {
    fn call(&self, alloc: Global, refusal: Refusal) -> Outcome {
        let Ok(words) = cut_words(alloc, TEXT.as_bytes()) else {
            return Outcome::Wrong;
        };
        refusal.begin(alloc);
        let result = parse_words(alloc, words.as_slice());
        refusal.end(alloc);
        Outcome::of(result)
    }
}

/// A list of tokens is cut into packets.
#[derive(Drop)]
struct Cutting;

impl Growing for Cutting {
    fn call(&self, alloc: Global, refusal: Refusal) -> Outcome {
        refusal.begin(alloc);
        let result = cut_packets(alloc, &TOKENS);
        refusal.end(alloc);
        Outcome::of(result)
    }
}

/// What is made of a packet.
#[derive(Clone, Copy)]
enum Form {
    Text,
    Tokens,
    Copy,
    CopiedBytes,
}

/// Something is made of a packet.
#[derive(Drop)]
struct Making<'a>(&'a Packet, Form);

impl Growing for Making<'_> {
    fn call(&self, alloc: Global, refusal: Refusal) -> Outcome {
        refusal.begin(alloc);
        let found = match self.1 {
            Form::Text => Outcome::of(print_packet(alloc, self.0)),
            Form::Tokens => Outcome::of(packet_tokens(alloc, self.0)),
            Form::Copy => Outcome::of(self.0.clone()),
            Form::CopiedBytes => Outcome::of(self.0.bytes.clone()),
        };
        refusal.end(alloc);
        found
    }
}

#[test]
fn packets(rt: HostRuntime) {
    assert!(rt; is_right(&rt, "parse_packet", &Reading));
    assert!(rt; is_right(&rt, "parse_words", &ReadingWords));
    assert!(rt; is_right(&rt, "cut_packets", &Cutting));
    assert!(rt; is_packet_right(&rt));
}

fn is_packet_right(rt: &HostRuntime) -> bool {
    match packet(rt.alloc()) {
        Some(packet) => {
            is_right(rt, "print_packet", &Making(&packet, Form::Text))
                && is_right(rt, "packet_tokens", &Making(&packet, Form::Tokens))
                && is_right(rt, "Packet::clone", &Making(&packet, Form::Copy))
                && is_right(rt, "Items::clone", &Making(&packet, Form::CopiedBytes))
        }
        None => false,
    }
}
