//! What is told of a faulty description.
//!
//! The names that a description has so far are those of the lines before, which have no fault: they are read again as a
//! description of their own.

use crate::common_mistakes::{BYTE_ORDER_MARK, NO_LINK, NOT_A_SWITCH, NOT_A_TERMINAL, WRONG_BYTE};
use crate::description_mistakes::{
    CLOS_NUMBERS, CUBE_NUMBERS, LABELS, MESH_NUMBERS, MIXED_CONTINUE, MIXED_LABEL, MIXED_ROW,
    MIXED_SHAPE, NAME_TAKEN, NO_BASE, NO_BUFFER, NO_CONTINUING, NO_COUNT, NO_FIRST, NO_HEADER,
    NO_LIMIT, NO_NAME, NO_PORT, NO_RANDOM_BASE, NO_RANDOM_RANGE, NO_SELECT, NO_SWITCH, NO_TERMINAL,
    NO_WORD, RANDOM_TWICE, ROWS, SCRIPT_BEGINS, SCRIPT_LINE, SCRIPTS_WORD, SELF_WIRE, SIZES,
    SWITCHES, TERMINAL_THERE, TERMINALS, TOO_LONG, TORUS_NUMBERS, TWICE, WIRE_THERE,
};
use crate::forms::{DESCRIPTION_FORMS, SCRIPT_FORMS, form_of, nearest_form};
use crate::nearest::{nearest_select_word, nearest_switch, nearest_terminal};
use crate::words::{
    Mistake, begins_with_mark, has_dot, has_link, is_within, link_of, name_of, names_switch,
    names_terminal, unplain_word, word_at,
};
use c104_describe::{PlanFault, PlanFaultKind, read_description};
use c104_plan::{Plan, Port, Shape, cut_lines, cut_words, is_name, uncommented};
use std::alloc::Global;

/// The most terminals.
const MAX_TERMINALS: usize = 256;

/// What is told of a description with this fault. None where the fault isn't this description's, or when out of
/// memory.
pub fn description_message(alloc: Global, description: &[u8], fault: PlanFault) -> Option<String> {
    if fault.line == 0 {
        return Mistake::new(TOO_LONG, None).text(alloc).ok();
    }
    let number = fault.line - 1;
    // The lines before have no fault.
    let before = read_description(alloc, front_lines(description, number)).ok()?;
    line_message(alloc, description, number, fault.kind, &before)
}

/// What is told of such a fault of the line of this number, from 0, behind lines that make this plan.
fn line_message(
    alloc: Global,
    description: &[u8],
    number: usize,
    kind: PlanFaultKind,
    before: &Plan,
) -> Option<String> {
    let lines = cut_lines(alloc, description).ok()?;
    let line = lines.as_slice().get(number)?;
    words_message(alloc, line, kind, before)
}

/// The same of the line itself.
fn words_message(alloc: Global, line: &[u8], kind: PlanFaultKind, before: &Plan) -> Option<String> {
    let words = cut_words(alloc, uncommented(line)).ok()?;
    find_mistake(kind, words.as_slice(), before)
        .text(alloc)
        .ok()
}

/// The first `count` lines of a text, with their line feeds.
fn front_lines(text: &[u8], count: usize) -> &[u8] {
    let mut left = count;
    for (place, byte) in text.iter().enumerate() {
        if left == 0 {
            return &text[..place];
        }
        if *byte == b'\n' {
            left -= 1;
        }
    }
    text
}

/// The mistake of a line of these words.
fn find_mistake<'a>(kind: PlanFaultKind, words: &[&'a [u8]], before: &'a Plan) -> Mistake<'a> {
    match kind {
        PlanFaultKind::TooLong | PlanFaultKind::NoMemory => Mistake::new(TOO_LONG, None),
        PlanFaultKind::UnknownWord => first_word_mistake(words),
        PlanFaultKind::BadShape => shape_mistake(words),
        PlanFaultKind::BadNumber => number_mistake(words),
        PlanFaultKind::BadName => Mistake::new(NO_NAME, unnamed(words)),
        PlanFaultKind::NameTaken => Mistake::new(NAME_TAKEN, word_at(words, 1)),
        PlanFaultKind::UnknownName => name_mistake(words, before),
        PlanFaultKind::SelfWire => Mistake::new(SELF_WIRE, word_at(words, 2)),
        PlanFaultKind::LinkTaken => link_mistake(words, before),
        PlanFaultKind::TooMany => count_mistake(words, before),
        PlanFaultKind::Twice => twice_mistake(words),
        PlanFaultKind::MixedStyle => mixed_mistake(words, before),
    }
}

/// No line begins with the first word.
fn first_word_mistake<'a>(words: &[&'a [u8]]) -> Mistake<'a> {
    match words {
        [] => Mistake::new(NO_WORD, None),
        [b"script"] => Mistake::new(SCRIPT_BEGINS, None),
        [b"script", next, ..] => Mistake::new(SCRIPT_LINE, Some(*next)),
        [first, ..] if begins_with_mark(first) => Mistake::new(BYTE_ORDER_MARK, None),
        [first, ..] if form_of(&SCRIPT_FORMS, words).is_some() => {
            Mistake::new(SCRIPTS_WORD, Some(*first))
        }
        [first, ..] => {
            Mistake::new(NO_WORD, Some(*first)).near(nearest_form(&DESCRIPTION_FORMS, first))
        }
    }
}

/// A wrong byte, a wrong count of words, or a port without a dot or with a second one.
fn shape_mistake<'a>(words: &[&'a [u8]]) -> Mistake<'a> {
    let wrong = unplain_word(words);
    if wrong.is_some() {
        return Mistake::new(WRONG_BYTE, wrong);
    }
    let Some((_, line, least, most)) = form_of(&DESCRIPTION_FORMS, words) else {
        return Mistake::new(NO_WORD, None);
    };
    if least <= words.len() && words.len() <= most {
        let port = ports_of(words).iter().copied().find(|port| !has_dot(port));
        if port.is_some() {
            return Mistake::new(NO_PORT, port);
        }
    }
    Mistake::new(line, None)
}

/// The words of a line in which ports stand.
fn ports_of<'w, 'a>(words: &'w [&'a [u8]]) -> &'w [&'a [u8]] {
    match words {
        [b"terminal", _, _, ..] => &words[2..3],
        [b"wire", _, _, ..] => &words[1..3],
        [b"continue" | b"base" | b"row" | b"random", _, ..] => &words[1..2],
        _ => &[],
    }
}

/// A number that is none, or out of its range.
fn number_mistake<'a>(words: &[&'a [u8]]) -> Mistake<'a> {
    let port = ports_of(words)
        .iter()
        .copied()
        .find(|port| has_dot(port) && !has_link(port));
    if port.is_some() {
        return Mistake::new(NO_LINK, port);
    }
    match word_at(words, 0) {
        Some(b"terminal") => label_mistake(words),
        Some(b"continue") => Mistake::new(NO_CONTINUING, word_at(words, 1)),
        Some(b"base") => Mistake::new(NO_BASE, word_at(words, 2)),
        Some(b"row") => row_mistake(words),
        Some(b"random") => random_mistake(words),
        Some(b"buffer") => Mistake::new(NO_BUFFER, word_at(words, 1)),
        Some(b"mesh") => size_mistake(words, &MESH_NUMBERS),
        Some(b"cube") => size_mistake(words, &CUBE_NUMBERS),
        Some(b"torus") => size_mistake(words, &TORUS_NUMBERS),
        Some(b"clos") => size_mistake(words, &CLOS_NUMBERS),
        _ => Mistake::new(NO_HEADER, word_at(words, 1)),
    }
}

/// The first number of a line of a whole network that isn't one of those that it may be.
fn size_mistake<'a>(words: &[&'a [u8]], numbers: &[(u32, u32, &'static str)]) -> Mistake<'a> {
    for (place, (least, most, sentence)) in numbers.iter().enumerate() {
        if let Some(word) = word_at(words, place.saturating_add(1))
            && !is_within(*least, *most, word)
        {
            return Mistake::new(*sentence, Some(word));
        }
    }
    Mistake::new(SIZES, None)
}

/// A count or a first label that is none.
fn label_mistake<'a>(words: &[&'a [u8]]) -> Mistake<'a> {
    match words {
        [_, _, _, b"labels", count, ..] if !is_within(1, 65_536, count) => {
            Mistake::new(NO_COUNT, Some(*count))
        }
        [_, _, _, b"labels", _, _, first, ..] => Mistake::new(NO_FIRST, Some(*first)),
        _ => Mistake::new(NO_FIRST, word_at(words, 4)),
    }
}

/// A limit or a select that is none.
fn row_mistake<'a>(words: &[&'a [u8]]) -> Mistake<'a> {
    match words {
        [_, _, limit, ..] if !is_within(0, 65_536, limit) => Mistake::new(NO_LIMIT, Some(*limit)),
        [_, _, _, select, ..] => {
            Mistake::new(NO_SELECT, Some(*select)).near(nearest_select_word(select))
        }
        _ => Mistake::new(NO_SELECT, None),
    }
}

/// A base or a range of random headers that is none.
fn random_mistake<'a>(words: &[&'a [u8]]) -> Mistake<'a> {
    match words {
        [_, _, base, ..] if !is_within(0, 65_535, base) => {
            Mistake::new(NO_RANDOM_BASE, Some(*base))
        }
        _ => Mistake::new(NO_RANDOM_RANGE, word_at(words, 3)),
    }
}

/// A line that may stand once, and stands before.
fn twice_mistake<'a>(words: &[&'a [u8]]) -> Mistake<'a> {
    match word_at(words, 0) {
        Some(b"random") => Mistake::new(RANDOM_TWICE, word_at(words, 1)),
        first => Mistake::new(TWICE, first),
    }
}

/// A line that doesn't go with those before it.
fn mixed_mistake<'a>(words: &[&'a [u8]], before: &Plan) -> Mistake<'a> {
    let what = match words {
        [b"label", ..] if matches!(before.shape(), Shape::Hand) => MIXED_LABEL,
        [b"continue", ..] => MIXED_CONTINUE,
        [b"row" | b"base" | b"random", ..] => MIXED_ROW,
        [b"terminal", _, _, b"from", ..] => MIXED_ROW,
        [b"terminal", _, _, b"labels", _, b"from", ..] => MIXED_ROW,
        _ => MIXED_SHAPE,
    };
    Mistake::new(what, word_at(words, 0))
}

/// The word that is no name where one is wanted.
fn unnamed<'a>(words: &[&'a [u8]]) -> Option<&'a [u8]> {
    match words {
        [b"label", _, name, ..] => Some(*name),
        [b"switch" | b"terminal" | b"delete", name, ..] if !is_name(name) => Some(*name),
        _ => ports_of(words)
            .iter()
            .copied()
            .find(|port| !is_name(name_of(port))),
    }
}

/// A name that nothing has, or that something of another kind has.
fn name_mistake<'a>(words: &[&'a [u8]], before: &'a Plan) -> Mistake<'a> {
    match words {
        [b"delete", name, ..] => terminal_mistake(*name, before),
        [b"label", _, name, ..] => switch_mistake(*name, before),
        _ => port_mistake(words, before),
    }
}

/// A port of which no switch has the name.
fn port_mistake<'a>(words: &[&'a [u8]], before: &'a Plan) -> Mistake<'a> {
    for port in ports_of(words) {
        if !names_switch(before, port) {
            return switch_mistake(*port, before);
        }
    }
    Mistake::new(NO_SWITCH, word_at(words, 0))
}

/// No terminal has the name.
fn terminal_mistake<'a>(name: &'a [u8], before: &'a Plan) -> Mistake<'a> {
    if names_switch(before, name) {
        return Mistake::new(NOT_A_TERMINAL, Some(name));
    }
    Mistake::new(NO_TERMINAL, Some(name)).near(nearest_terminal(before, name))
}

/// No switch has the name before the dot.
fn switch_mistake<'a>(port: &'a [u8], before: &'a Plan) -> Mistake<'a> {
    if names_terminal(before, port) {
        return Mistake::new(NOT_A_SWITCH, Some(port));
    }
    Mistake::new(NO_SWITCH, Some(port)).near(nearest_switch(before, name_of(port)))
}

/// A link that is taken.
fn link_mistake<'a>(words: &[&'a [u8]], before: &Plan) -> Mistake<'a> {
    for word in ports_of(words) {
        match far_end(word, before) {
            Some(Port::Terminal(_)) => return Mistake::new(TERMINAL_THERE, Some(*word)),
            Some(Port::Switch(_, _)) => return Mistake::new(WIRE_THERE, Some(*word)),
            None => {}
        }
    }
    Mistake::new(WIRE_THERE, None)
}

/// What is on the link of the port that a word names.
fn far_end(word: &[u8], before: &Plan) -> Option<Port> {
    let switch = before.switch_number(name_of(word))?;
    let link = link_of(word)?;
    before.peer(Port::Switch(switch, link as usize))
}

/// There are as many as there may be.
fn count_mistake<'a>(words: &[&'a [u8]], before: &Plan) -> Mistake<'a> {
    let word = word_at(words, 1);
    match word_at(words, 0) {
        Some(b"switch") => Mistake::new(SWITCHES, word),
        Some(b"row") => Mistake::new(ROWS, word),
        Some(b"mesh" | b"cube" | b"torus" | b"clos") => Mistake::new(SIZES, None),
        _ if before.terminals().len() >= MAX_TERMINALS => Mistake::new(TERMINALS, word),
        _ => Mistake::new(LABELS, word),
    }
}
