//! What people ask where they type a script, and what they are told.
ghost use Rattle.std.specs.{Option.option_map, Prelude.◌≡◌};
ghost use Rattle.c104_explain.specs.Questions.{asks, is_question};

use crate::packet_places::packet_answer;
use crate::shown_nodes::{switch_text, terminal_text};
use crate::shown_ports::port_answer;
use crate::waiting::waiting_text;
use c104_mistakes::{Mistake, NO_NODE, has_dot, nearest_node};
use c104_net::TracedNet;
use c104_plan::{cut_words, first_word, uncommented};
use std::alloc::{AllocError, Global};

/// The lines of a script, each with what it asks, and the questions.
const HELP: &str = "\
send TERMINAL to TERMINAL BYTES
                            a packet waits to go out, as `send a to b 68 \"hi\" length 9 eop`
send TERMINAL PACKET        the same by all its bytes, as `send a 01 68 eop`
drain TERMINAL              the first token that came in there arrives
cross PORT                  the first token that waits there crosses its wire
credit PORT                 the port grants eight more tokens to the far end
input SWITCH.LINK [NUMBER]  an input takes a turn with its first token
claim SWITCH INPUT OUTPUT   an input claims an output for its header
control SWITCH BYTE ..      a switch takes a command of at most 8 bytes
rounds COUNT [fair] [seed NUMBER]
                            run COUNT rounds, fair ones by turns, with random headers by a seed
settle                      run rounds until another would do nothing
peek SWITCH ADDRESS         the register's value, as `peek A 0140`; not an event
poke SWITCH ADDRESS VALUE   set a register
                            by name: `peek A.0 limit 0`, `poke A.0 mode 2`
link SWITCH.LINK            the status of a link
table SWITCH.LINK           the base and the rows of an input
verify [all]                compare all writable registers with the loaded values, up to the first that differs, or all
dump SWITCH                 the registers of a switch that aren't as after a reset, and its own two
help                        lists these lines
show SWITCH                 shows each wired link
show SWITCH.LINK            shows a link
show TERMINAL               shows a terminal
show waiting                shows which outputs inputs hold and want
where TERMINAL NUMBER       shows where a packet is: NUMBER is from 0 on, of those that the terminal sent
until TERMINAL NUMBER       runs rounds until that packet has arrived, or nothing moves, at most 10000
read FILE                   does the lines of a file
log FILE                    saves the lines so far, and those that come, in a new file
restart                     ends the run, reads the description again, and begins anew
quit                        ends the run, as Ctrl-D does
A PORT is a terminal, or a switch with a link, as A.0. A `#` begins a comment.
From `help` on these are words of the prompt alone: in a file they are faults.";

/// What a line `show` is.
const SHOW_FORM: &str =
    "the line is `show SWITCH`, `show SWITCH.LINK`, `show TERMINAL` or `show waiting`";

/// What a line `where` is.
const WHERE_FORM: &str =
    "the line is `where TERMINAL NUMBER`, as `where a 0` of the first packet that `a` sent";

/// What is shown of the inputs that wait, unless a node has this name.
const WAITING: &[u8] = b"waiting";

/// Whether a line is a question of people's, and none of a script: its first word is `help`, `show` or `where`.
#[tactic(auto, unfolding(crate::specs::Questions::is_question))]
pub fn is_question(line: &[u8]) -> bool
    ensures { result ≡ is_question line.now }
{
    asks(first_word(uncommented(line)))
}

/// Whether a question begins with this word.
fn asks(word: Option<&[u8]>) -> bool
    ensures { result ≡ asks (option_map (λ word. word.now) word.entry) }
{
    match word {
        Some(word) => {
            word == b"help".as_slice() || word == b"show".as_slice() || word == b"where".as_slice()
        }
        None => false,
    }
}

/// The question that stands in the comment of a line of a script, behind `#> `: so what a person asks changes neither the
/// answers nor the numbers of the lines.
pub fn question_in(line: &[u8]) -> Option<&[u8]> {
    let comment = line.iter().position(|byte| *byte == b'#')?;
    match line.get(comment..)? {
        [_, b'>', b' ', question @ ..] if is_question(question) => Some(question),
        _ => None,
    }
}

/// What answers a question about a network, which may have several lines. None when out of memory.
pub fn question_message(alloc: Global, net: &TracedNet, line: &[u8]) -> Option<String> {
    let words = cut_words(alloc, uncommented(line)).ok()?;
    answer_text(alloc, net, words.as_slice()).ok()
}

/// What answers a question of these words.
fn answer_text(alloc: Global, net: &TracedNet, words: &[&[u8]]) -> Result<String, AllocError> {
    match words {
        [b"show", name] => node_text(alloc, net, name),
        [b"show", ..] => Mistake::new(SHOW_FORM, None).text(alloc),
        [b"where", name, number] => packet_answer(alloc, net, name, number),
        [b"where", ..] => Mistake::new(WHERE_FORM, None).text(alloc),
        _ => format!(in alloc; "{HELP}"),
    }
}

/// How the node of this name stands, or the port; or that there is none. Where none has the name, `waiting` is another
/// question.
fn node_text(alloc: Global, net: &TracedNet, name: &[u8]) -> Result<String, AllocError> {
    let plan = net.plan();
    if has_dot(name) {
        return port_answer(alloc, net, name);
    }
    if let Some(switch) = plan.switch_number(name) {
        return switch_text(alloc, net, switch);
    }
    if let Some(terminal) = plan.terminal_number(name) {
        return terminal_text(alloc, net, terminal);
    }
    if name == WAITING {
        return waiting_answer(alloc, net);
    }
    Mistake::new(NO_NODE, Some(name))
        .near(nearest_node(plan, name))
        .text(alloc)
}

/// Which outputs the inputs hold and want.
fn waiting_answer(alloc: Global, net: &TracedNet) -> Result<String, AllocError> {
    let text = waiting_text(alloc, net)?;
    if text.is_empty() {
        return format!(in alloc; "no input holds an output, and none wants one");
    }
    Ok(text)
}
