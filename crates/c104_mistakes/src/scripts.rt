//! What is told of a script's line that is faulty or refused, or asks for the status of a link.
ghost use Rattle.std.specs.Prelude.{◌<◌, IfSome};

use crate::addressed::{dotted_place, refused_place, typed_mistake};
use crate::common_mistakes::{BYTE_ORDER_MARK, NO_LINK, NOT_A_SWITCH, NOT_A_TERMINAL, WRONG_BYTE};
use crate::forms::{DESCRIPTION_FORMS, SCRIPT_FORMS, form_of, nearest_form};
use crate::nearest::{nearest_node, nearest_switch, nearest_terminal};
use crate::register_names::{is_of_link, nearest_register, register_named, takes_row};
use crate::register_ranges::range_of_word;
use crate::script_mistakes::{
    AFTER_END, BUSY, DESCRIPTIONS_WORD, INBOX_FULL, LINE_TOO_LONG, LINK_MISSING, NO_ADDRESS,
    NO_BYTE, NO_END, NO_INPUT, NO_LABEL, NO_NODE, NO_NUMBER, NO_PORT, NO_REGISTER, NO_ROUNDS,
    NO_ROW, NO_SEED, NO_TOKEN, NO_VALUE, NO_WORD, NO_WORD_ASKED, NOT_WIRED, OUTBOX_FULL,
    PACKET_TOO_LONG, READ_ONLY, SCRIPT_BEGAN, SWITCHS_LINK, TERMINALS_LINK, TRACE_FULL,
};
use crate::words::{
    LAST_LINK, Mistake, begins_with_mark, has_dot, is_within, link_of, name_of, names_switch,
    names_terminal, shown_text, unplain_word, word_at,
};
use c104_event::EventFault;
use c104_plan::{Plan, cut_words, read_number, uncommented};
use c104_regs::RegFault;
use c104_script::LineFault;
use c104_token::read_byte;
use std::alloc::Global;

/// The most rounds that a line asks for.
const MAX_ROUNDS: u32 = 10_000;

/// The most digits of a register's address.
const ADDRESS_DIGITS: usize = 4;

/// What is told of a faulty line, which a person who types it may also ask about. None when out of memory.
pub fn fault_message(
    alloc: Global,
    line: &[u8],
    fault: LineFault,
    is_asked: bool,
) -> Option<String> {
    if fault == LineFault::LineTooLong {
        return Mistake::new(LINE_TOO_LONG, None).text(alloc).ok();
    }
    let words = cut_words(alloc, uncommented(line)).ok()?;
    find_fault(fault, words.as_slice(), is_asked)
        .text(alloc)
        .ok()
}

/// What is told of a line that is refused. None when out of memory.
pub fn refusal_message(
    alloc: Global,
    plan: &Plan,
    line: &[u8],
    fault: EventFault,
) -> Option<String> {
    let words = cut_words(alloc, uncommented(line)).ok()?;
    find_refusal(fault, words.as_slice(), plan).text(alloc).ok()
}

/// What is told of a line whose register a switch refuses to read or to set. None when out of memory.
pub fn register_message(alloc: Global, line: &[u8], fault: RegFault) -> Option<String> {
    let words = cut_words(alloc, uncommented(line)).ok()?;
    let words = words.as_slice();
    let mistake = match fault {
        RegFault::NoRegister => Mistake::new(NO_REGISTER, word_at(words, 2)),
        RegFault::ReadOnly => Mistake::new(READ_ONLY, word_at(words, 2)),
        RegFault::OutOfRange => {
            Mistake::new(range_of_word(word_at(words, 2)), words.last().copied())
        }
        RegFault::Busy => Mistake::new(BUSY, word_at(words, 2)),
    };
    mistake.text(alloc).ok()
}

/// What is told beside the status of a link whose output belongs to a packet: the input that the packet comes from,
/// whose number plus 1 is `owner`. None where it belongs to none, or when out of memory.
pub fn owner_message(alloc: Global, line: &[u8], owner: u32) -> Option<String>
    ensures { IfSome result (λ _. 0 < owner) }
{
    if owner == 0 {
        return None;
    }
    let words = cut_words(alloc, uncommented(line)).ok()?;
    let port = word_at(words.as_slice(), 1)?;
    let output = shown_text(alloc, port).ok()?;
    let switch = shown_text(alloc, name_of(port)).ok()?;
    let input = owner - 1;
    format!(in alloc; "output {output} belongs to the packet of input {switch}.{input}").ok()
}

/// The mistake of a faulty line of these words.
fn find_fault<'a>(fault: LineFault, words: &[&'a [u8]], is_asked: bool) -> Mistake<'a> {
    match fault {
        LineFault::LineTooLong | LineFault::NoMemory => Mistake::new(LINE_TOO_LONG, None),
        LineFault::UnknownWord => first_word_mistake(words, is_asked),
        LineFault::BadShape => shape_mistake(words),
        LineFault::BadNumber => number_mistake(words),
        LineFault::BadHex => typed_mistake(words).unwrap_or(hex_mistake(words)),
        LineFault::NoEnd => {
            typed_mistake(words).unwrap_or(Mistake::new(NO_END, words.last().copied()))
        }
        LineFault::AfterEnd => {
            typed_mistake(words).unwrap_or(Mistake::new(AFTER_END, word_after_end(words)))
        }
        LineFault::PacketTooLong => Mistake::new(PACKET_TOO_LONG, None),
        LineFault::NoLabel => Mistake::new(NO_LABEL, word_at(words, 3)),
    }
}

/// No line begins with the first word.
fn first_word_mistake<'a>(words: &[&'a [u8]], is_asked: bool) -> Mistake<'a> {
    match words {
        [] => Mistake::new(NO_WORD, None),
        [b"script", ..] => Mistake::new(SCRIPT_BEGAN, word_at(words, 0)),
        [first, ..] if begins_with_mark(first) => Mistake::new(BYTE_ORDER_MARK, None),
        [first, ..] if form_of(&DESCRIPTION_FORMS, words).is_some() => {
            Mistake::new(DESCRIPTIONS_WORD, Some(*first))
        }
        [first, ..] => {
            let what = if is_asked { NO_WORD_ASKED } else { NO_WORD };
            Mistake::new(what, Some(*first)).near(nearest_form(&SCRIPT_FORMS, first))
        }
    }
}

/// A wrong byte, a wrong count of words, or a second dot.
fn shape_mistake<'a>(words: &[&'a [u8]]) -> Mistake<'a> {
    let wrong = unplain_word(words);
    if wrong.is_some() {
        return Mistake::new(WRONG_BYTE, wrong);
    }
    let Some((_, line, least, most)) = form_of(&SCRIPT_FORMS, words) else {
        return Mistake::new(NO_WORD, None);
    };
    let count = words.len();
    if least <= count && count <= most && names_place(words) && !is_row_amiss(words, least) {
        return Mistake::new(NO_PORT, dotted_place(words));
    }
    Mistake::new(line, None)
}

/// Whether the second word of a line is to name a place.
fn names_place(words: &[&[u8]]) -> bool {
    !asks_rounds(words) && word_at(words, 0) != Some(b"verify".as_slice())
}

/// Whether the number of a row is missing behind a register's name, or stands behind another word. With it a line has a
/// word more than at least.
fn is_row_amiss(words: &[&[u8]], least: usize) -> bool {
    match words {
        [b"peek" | b"poke", _, name, ..] => takes_row(name) != (words.len() > least),
        _ => false,
    }
}

/// A number that is none, or out of its range.
fn number_mistake<'a>(words: &[&'a [u8]]) -> Mistake<'a> {
    if asks_rounds(words) {
        return rounds_mistake(words);
    }
    match words {
        [_, node, ..] if has_dot(node) && link_of(node).is_none() => {
            Mistake::new(NO_LINK, Some(*node))
        }
        [b"send", _, _, receiver, ..] => Mistake::new(NO_LINK, Some(*receiver)),
        [b"peek" | b"poke", _, _, row, ..] => Mistake::new(NO_ROW, Some(*row)),
        [_, _, input, ..] if read_number(input).is_none() => {
            Mistake::new(NO_NUMBER, Some(*input))
        }
        _ => Mistake::new(NO_NUMBER, word_at(words, 3)),
    }
}

/// Whether the words are those of a line of rounds.
fn asks_rounds(words: &[&[u8]]) -> bool {
    word_at(words, 0) == Some(b"rounds".as_slice())
}

/// A count of rounds out of its range, or a seed that is none.
fn rounds_mistake<'a>(words: &[&'a [u8]]) -> Mistake<'a> {
    match words {
        [_, count, .., _, seed] if is_within(1, MAX_ROUNDS, count) => {
            Mistake::new(NO_SEED, Some(*seed))
        }
        _ => Mistake::new(NO_ROUNDS, word_at(words, 1)),
    }
}

/// A word that isn't the hexadecimal digits that are asked for.
fn hex_mistake<'a>(words: &[&'a [u8]]) -> Mistake<'a> {
    match words {
        [b"peek" | b"poke", _, name, ..] => {
            if is_address(name) || register_named(name).is_some() {
                Mistake::new(NO_VALUE, words.last().copied())
            } else {
                Mistake::new(NO_ADDRESS, Some(*name)).near(nearest_register(name))
            }
        }
        _ => byte_mistake(words),
    }
}

/// Whether a word is the address of a register: hexadecimal digits, before which `0x` or `0X` may stand.
fn is_address(word: &[u8]) -> bool {
    let digits = match word {
        [b'0', b'x' | b'X', digits @ ..] => digits,
        _ => word,
    };
    !digits.is_empty()
        && digits.len() <= ADDRESS_DIGITS
        && digits.iter().all(|digit| digit.is_ascii_hexdigit())
}

/// A word that is no byte.
fn byte_mistake<'a>(words: &[&'a [u8]]) -> Mistake<'a> {
    let is_packet = word_at(words, 0) == Some(b"send".as_slice());
    let what = if is_packet { NO_TOKEN } else { NO_BYTE };
    let [_, _, bytes @ ..] = words else {
        return Mistake::new(what, None);
    };
    for word in bytes {
        if read_byte(word).is_none() {
            return Mistake::new(what, Some(*word));
        }
    }
    Mistake::new(what, None)
}

/// The word behind the end of a packet.
fn word_after_end<'a>(words: &[&'a [u8]]) -> Option<&'a [u8]> {
    let mut is_over = false;
    for word in words {
        if is_over {
            return Some(*word);
        }
        is_over = matches!(*word, b"eop" | b"eom");
    }
    None
}

/// The mistake of a refused line of these words.
fn find_refusal<'a>(fault: EventFault, words: &[&'a [u8]], plan: &'a Plan) -> Mistake<'a> {
    match fault {
        EventFault::NoNode => node_mistake(words, plan),
        EventFault::NoLink => link_mistake(words, plan),
        EventFault::NotWired => Mistake::new(NOT_WIRED, word_at(words, 1)),
        EventFault::TooLong => Mistake::new(PACKET_TOO_LONG, None),
        EventFault::OutboxFull => Mistake::new(OUTBOX_FULL, word_at(words, 1)),
        EventFault::InboxFull => Mistake::new(INBOX_FULL, None),
        EventFault::TraceFull | EventFault::NoMemory => Mistake::new(TRACE_FULL, None),
    }
}

/// A name that nothing has, or that something of another kind has.
fn node_mistake<'a>(words: &[&'a [u8]], plan: &'a Plan) -> Mistake<'a> {
    let (Some(first), Some(node)) = (word_at(words, 0), refused_place(words, plan)) else {
        return Mistake::new(NO_NODE, None);
    };
    let name = name_of(node);
    match first {
        b"send" | b"drain" if names_switch(plan, node) => {
            Mistake::new(NOT_A_TERMINAL, Some(node))
        }
        b"send" | b"drain" => {
            Mistake::new(NO_NODE, Some(node)).near(nearest_terminal(plan, name))
        }
        b"cross" | b"credit" => { Mistake::new(NO_NODE, Some(node)).near(nearest_node(plan, name)) }
        _ if names_terminal(plan, node) => Mistake::new(NOT_A_SWITCH, Some(node)),
        _ => Mistake::new(NO_NODE, Some(node)).near(nearest_switch(plan, name)),
    }
}

/// A link where none is wanted, none where one is, or a number past the last.
fn link_mistake<'a>(words: &[&'a [u8]], plan: &Plan) -> Mistake<'a> {
    let [first, node, rest @ ..] = words else {
        return Mistake::new(NO_LINK, None);
    };
    if names_terminal(plan, node) {
        return Mistake::new(TERMINALS_LINK, refused_place(words, plan));
    }
    if matches!(*first, b"claim" | b"control" | b"peek" | b"poke" | b"dump") && !asks_link(words) {
        if has_dot(node) {
            return Mistake::new(SWITCHS_LINK, Some(*node));
        }
        return Mistake::new(NO_INPUT, first_past(rest));
    }
    if has_dot(node) {
        return Mistake::new(NO_LINK, Some(*node));
    }
    Mistake::new(LINK_MISSING, Some(*node))
}

/// Whether a line names a register of a link.
fn asks_link(words: &[&[u8]]) -> bool {
    match words {
        [b"peek" | b"poke", _, name, ..] => is_of_link(name),
        _ => false,
    }
}

/// The first number that is no link's.
fn first_past<'a>(words: &[&'a [u8]]) -> Option<&'a [u8]> {
    words
        .iter()
        .copied()
        .find(|word| !is_within(0, LAST_LINK, word))
}
