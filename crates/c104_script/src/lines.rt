//! A script, line by line.
ghost use Rattle.std.specs.Prelude.{◌++◌, ◌<◌, ◌≡◌, map, option_map};
ghost use Rattle.c104_script.specs.Addressed.{Reading, header_words, received, typed_words};
ghost use Rattle.c104_script.specs.Script.{claim_line, control_line, counted_line, credit_line, cross_line, drain_line, fair_line};
ghost use Rattle.c104_script.specs.Script.{GivesLineOrNoMemory, input_line, read_script_line, read_script_words, rounds_line, seeded_line};
ghost use Rattle.c104_script.specs.Script.{addressed_line, send_line, sending_line, sent_by, verb_line};

use crate::addressed::{first_label, is_undotted, read_typed};
use crate::faults::LineFault;
use crate::places::{Request, find_input, find_port, find_switch, find_terminal};
use crate::probe_lines::read_probe;
use crate::seed_words::read_seed;
use crate::words::{Verb, read_bytes, read_number_word, read_place, read_verb};
use c104_control::MAX_CONTROL_BYTES;
use c104_event::{Event, EventFault};
use c104_plan::{Image, Plan, cut_words, header_values, is_plain, uncommented};
use c104_token::{Packet, parse_words};
use std::alloc::Global;

/// The most rounds that a line asks for.
pub const MAX_ROUNDS: u32 = 10_000;

/// The most bytes of a script's line, its line feed left out.
pub const MAX_LINE: usize = 16_384;

/// What a line asks of a network of this plan with the labels of an image. None where it has no words.
///
/// The fault is the one with the least number that applies, but those of a packet come as its words are read
/// from the left, and NoLabel behind them. NoMemory may come in place of any answer.
#[tactic(auto, unfolding(crate::specs::Script::read_script_line))]
pub fn read_line(
    alloc: Global,
    plan: &Plan,
    image: &Image,
    line: &[u8],
) -> Result<Option<Request>, LineFault>
    ensures { GivesLineOrNoMemory result (read_script_line plan.now image.now line.now) }
{
    if line.len() > MAX_LINE {
        return Err(LineFault::LineTooLong);
    }
    let line = uncommented(line);
    let words = cut_words(alloc, line)?;
    read_words(alloc, plan, image, is_plain(line), words.as_slice())
}

/// Reads the words of a line, whose bytes are all plain or not.
fn read_words(
    alloc: Global,
    plan: &Plan,
    image: &Image,
    is_plain: bool,
    words: &[&[u8]],
) -> Result<Option<Request>, LineFault>
    ensures { GivesLineOrNoMemory result (read_script_words plan.now image.now is_plain (map (λ word. word.now) words.now)) }
{
    let [first, rest @ ..] = words else {
        return Ok(None);
    };
    let Some(verb) = read_verb(first) else {
        return Err(LineFault::UnknownWord);
    };
    if !is_plain {
        return Err(LineFault::BadShape);
    }
    let request = read_request(alloc, plan, image, verb, rest)?;
    Ok(Some(request))
}

/// Reads the words after the first.
fn read_request(
    alloc: Global,
    plan: &Plan,
    image: &Image,
    verb: Verb,
    words: &[&[u8]],
) -> Result<Request, LineFault>
    ensures { GivesLineOrNoMemory result
        (verb_line verb plan.now image.now (map (λ word. word.now) words.now)) }
{
    match (verb, words) {
        (Verb::Send, [node, packet @ ..]) => read_send(alloc, plan, image, node, packet),
        (Verb::Drain, [node]) => read_drain(plan, node),
        (Verb::Cross, [node]) => read_cross(plan, node),
        (Verb::Credit, [node]) => read_credit(plan, node),
        (Verb::Input, [node]) => read_input(plan, node, Ok(0)),
        (Verb::Input, [node, word]) => read_input(plan, node, read_number_word(word)),
        (Verb::Claim, [node, input, output]) => read_claim(plan, node, input, output),
        (Verb::Control, [node, bytes @ ..]) => read_control(plan, node, bytes),
        (Verb::Rounds, words) => read_rounds(words),
        (Verb::Settle, []) => Ok(Request::Settle),
        (Verb::Probe(verb), words) => read_probe(plan, verb, words),
        _ => Err(LineFault::BadShape),
    }
}

/// Reads `send T PACKET`, or `send T to U BYTES`.
fn read_send(
    alloc: Global,
    plan: &Plan,
    image: &Image,
    node: &[u8],
    words: &[&[u8]],
) -> Result<Request, LineFault>
    ensures { GivesLineOrNoMemory result
        (sending_line plan.now image.now node.now (map (λ word. word.now) words.now)) }
{
    match words {
        [first, words @ ..] if *first == b"to".as_slice() => {
            read_addressed(alloc, plan, image, node, words)
        }
        words => read_packet(alloc, plan, node, words),
    }
}

/// Reads `send T PACKET`.
fn read_packet(
    alloc: Global,
    plan: &Plan,
    node: &[u8],
    packet: &[&[u8]],
) -> Result<Request, LineFault>
    ensures { GivesLineOrNoMemory result (send_line plan.now node.now (map (λ word. word.now) packet.now)) }
{
    let place = read_place(node)?;
    let packet = parse_words(alloc, packet)?;
    Ok(sent_by(find_terminal(plan, place), packet))
}

/// A packet that is sent, or the refusal where no sender was found.
fn sent_by(sender: Result<usize, EventFault>, packet: Packet) -> Request
    ensures { result ≡ sent_by sender packet }
{
    match sender {
        Ok(terminal) => Request::Asked(Event::Send { terminal, packet }),
        Err(fault) => Request::Refused(fault),
    }
}

/// Reads `send T to U BYTES`, by the words behind `to`.
fn read_addressed(
    alloc: Global,
    plan: &Plan,
    image: &Image,
    node: &[u8],
    words: &[&[u8]],
) -> Result<Request, LineFault>
    ensures { GivesLineOrNoMemory result
        (addressed_line plan.now image.now node.now (map (λ word. word.now) words.now)) }
{
    let [receiver, words @ ..] = words else {
        return read_packet(alloc, plan, node, words);
    };
    if !is_undotted(node) {
        return Err(LineFault::BadShape);
    }
    let receiver = find_terminal(plan, read_place(receiver)?);
    let label = first_label(image, receiver);
    let request = read_labelled(alloc, plan, node, label, words)?;
    if label >= header_values(plan.header()) {
        return Err(LineFault::NoLabel);
    }
    Ok(received(receiver, request))
}

/// Reads `send T BYTES` behind a header with this label.
fn read_labelled(
    alloc: Global,
    plan: &Plan,
    node: &[u8],
    label: u32,
    words: &[&[u8]],
) -> Result<Request, LineFault>
    requires { label < 65536 }
    ensures { GivesLineOrNoMemory result (send_line plan.now node.now
        (header_words plan.now.header label ++ typed_words Reading.Word (map (λ word. word.now) words.now))) }
{
    let place = read_place(node)?;
    let packet = read_typed(alloc, plan.header(), label, words)?;
    Ok(sent_by(find_terminal(plan, place), packet))
}

/// What is asked where the receiver was found too. The sender's refusal comes before the receiver's.
fn received(receiver: Result<usize, EventFault>, request: Request) -> Request
    ensures { result ≡ received receiver request }
{
    match (receiver, request) {
        (Ok(_), request) => request,
        (Err(_), Request::Refused(first)) => Request::Refused(first),
        (Err(fault), _) => Request::Refused(fault),
    }
}

/// Reads `drain T`.
fn read_drain(plan: &Plan, node: &[u8]) -> Result<Request, LineFault>
    ensures { result ≡ drain_line plan.now node.now }
{
    let place = read_place(node)?;
    Ok(match find_terminal(plan, place) {
        Ok(terminal) => Request::Asked(Event::Drain { terminal }),
        Err(fault) => Request::Refused(fault),
    })
}

/// Reads `cross P`.
fn read_cross(plan: &Plan, node: &[u8]) -> Result<Request, LineFault>
    ensures { result ≡ cross_line plan.now node.now }
{
    let place = read_place(node)?;
    Ok(match find_port(plan, place) {
        Ok(port) => Request::Asked(Event::Cross(port)),
        Err(fault) => Request::Refused(fault),
    })
}

/// Reads `credit P`.
fn read_credit(plan: &Plan, node: &[u8]) -> Result<Request, LineFault>
    ensures { result ≡ credit_line plan.now node.now }
{
    let place = read_place(node)?;
    Ok(match find_port(plan, place) {
        Ok(port) => Request::Asked(Event::Credit(port)),
        Err(fault) => Request::Refused(fault),
    })
}

/// Reads `input S.l`, with the word that is handed in.
fn read_input(
    plan: &Plan,
    node: &[u8],
    handed: Result<u32, LineFault>,
) -> Result<Request, LineFault>
    ensures { result ≡ input_line plan.now node.now handed }
{
    let place = read_place(node)?;
    let word = handed?;
    Ok(match find_input(plan, place) {
        Ok((switch, link)) => Request::Asked(Event::Input { switch, link, word }),
        Err(fault) => Request::Refused(fault),
    })
}

/// Reads `claim S i o`.
fn read_claim(plan: &Plan, node: &[u8], input: &[u8], output: &[u8]) -> Result<Request, LineFault>
    ensures { result ≡ claim_line plan.now node.now input.now output.now }
{
    let place = read_place(node)?;
    let input = read_number_word(input)? as usize;
    let output = read_number_word(output)? as usize;
    Ok(match find_switch(plan, place) {
        Ok(switch) => Request::Asked(Event::Claim {
            switch,
            input,
            output,
        }),
        Err(fault) => Request::Refused(fault),
    })
}

/// Reads `control S HEX..`.
fn read_control(plan: &Plan, node: &[u8], words: &[&[u8]]) -> Result<Request, LineFault>
    ensures { result ≡ control_line plan.now node.now (map (λ word. word.now) words.now) }
{
    if words.len() > MAX_CONTROL_BYTES {
        return Err(LineFault::BadShape);
    }
    let place = read_place(node)?;
    let bytes = read_bytes(words)?;
    Ok(match find_switch(plan, place) {
        Ok(switch) => Request::Asked(Event::Control { switch, bytes }),
        Err(fault) => Request::Refused(fault),
    })
}

/// Reads `rounds N [fair] [seed S]`, by the words after the first.
fn read_rounds(words: &[&[u8]]) -> Result<Request, LineFault>
    ensures { result ≡ rounds_line (map (λ word. word.now) words.now) }
{
    match words {
        [count] => read_counted(count, false, None),
        [count, fair] => read_fair(fair, read_counted(count, true, None)),
        [count, key, seed] => read_seeded(count, false, key, seed),
        [count, fair, key, seed] => read_fair(fair, read_seeded(count, true, key, seed)),
        _ => Err(LineFault::BadShape),
    }
}

/// Reads a line whose word at the place of `fair` is to be this, and that else asks what was read of its other words.
fn read_fair(key: &[u8], line: Result<Request, LineFault>) -> Result<Request, LineFault>
    ensures { result ≡ fair_line key.now line }
{
    if key != b"fair".as_slice() {
        return Err(LineFault::BadShape);
    }
    line
}

/// Reads a line with a seed, of which the word at the place of `seed` is to be this.
fn read_seeded(count: &[u8], is_fair: bool, key: &[u8], seed: &[u8]) -> Result<Request, LineFault>
    ensures { result ≡ seeded_line count.now is_fair key.now seed.now }
{
    if key != b"seed".as_slice() {
        return Err(LineFault::BadShape);
    }
    read_counted(count, is_fair, Some(seed))
}

/// Reads the count of rounds, and their seed where a word for it stands there.
fn read_counted(count: &[u8], is_fair: bool, seed: Option<&[u8]>) -> Result<Request, LineFault>
    ensures { result ≡ counted_line count.now is_fair (option_map (λ word. word.now) seed.entry) }
{
    let count = read_number_word(count)?;
    if count < 1 || count > MAX_ROUNDS {
        return Err(LineFault::BadNumber);
    }
    let seed = match seed {
        Some(word) => Some(read_seed(word)?),
        None => None,
    };
    Ok(Request::Rounds {
        count,
        is_fair,
        seed,
    })
}
