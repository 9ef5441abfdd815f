//! The words of a script's line.
ghost use Rattle.std.specs.{Prelude.{Err, MatchResult, Ok, [], length, map, ◌≡◌, ◌≤◌}};
ghost use Rattle.c104_script.specs.Script.{bytes_after, number_word, place_word, verb_of};

use crate::faults::LineFault;
use arrayvec::ArrayVec;
use c104_control::{ControlBytes, MAX_CONTROL_BYTES};
use c104_plan::{Dots, find_dots, read_number};
use c104_token::read_byte;

/// What the first word of a line asks for.
#[derive(Clone, Copy)]
pub(crate) enum Verb {
    Send,
    Drain,
    Cross,
    Credit,
    Input,
    Claim,
    Control,
    Rounds,
    Settle,
    Probe(ProbeVerb),
}

/// What the first word of a line asks of the debugger.
#[derive(Clone, Copy)]
pub(crate) enum ProbeVerb {
    Peek,
    Poke,
    Link,
    Table,
    Verify,
    Dump,
}

/// The words with which lines begin. Those of the debugger stand last, since scripts have few of them.
const VERBS: [(&[u8], Verb); 15] = [
    (b"send", Verb::Send),
    (b"drain", Verb::Drain),
    (b"cross", Verb::Cross),
    (b"credit", Verb::Credit),
    (b"input", Verb::Input),
    (b"claim", Verb::Claim),
    (b"control", Verb::Control),
    (b"rounds", Verb::Rounds),
    (b"settle", Verb::Settle),
    (b"peek", Verb::Probe(ProbeVerb::Peek)),
    (b"poke", Verb::Probe(ProbeVerb::Poke)),
    (b"link", Verb::Probe(ProbeVerb::Link)),
    (b"table", Verb::Probe(ProbeVerb::Table)),
    (b"verify", Verb::Probe(ProbeVerb::Verify)),
    (b"dump", Verb::Probe(ProbeVerb::Dump)),
];

/// A node or a port as a line names it.
#[derive(Clone, Copy)]
pub(crate) struct PlaceWord<'a> {
    /// What stands for the node's name.
    pub(crate) name: &'a [u8],
    /// The link's number, where there is one.
    pub(crate) link: Option<u32>,
}

/// What a word asks for. None where no line begins with it.
pub(crate) fn read_verb(word: &[u8]) -> Option<Verb>
    ensures { result ≡ verb_of word.now }
{
    for (text, verb) in VERBS.as_slice() {
        if *text == word {
            return Some(*verb);
        }
    }
    None
}

/// The number that a word spells.
pub(crate) fn read_number_word(word: &[u8]) -> Result<u32, LineFault>
    ensures { result ≡ number_word word.now }
{
    let Some(value) = read_number(word) else {
        return Err(LineFault::BadNumber);
    };
    Ok(value)
}

/// Reads at most eight bytes, each of two hexadecimal digits.
pub(crate) fn read_bytes(words: &[&[u8]]) -> Result<ControlBytes, LineFault>
    requires { length words.now ≤ MAX_CONTROL_BYTES }
    ensures { result ≡ bytes_after [] (map (λ word. word.now) words.now) }
{
    let mut bytes = ArrayVec::<u8, MAX_CONTROL_BYTES>::new();
    for word in words {
        let Some(byte) = read_byte(word) else {
            return Err(LineFault::BadHex);
        };
        bytes.push(byte);
    }
    Ok(ControlBytes::new(bytes.as_slice()))
}

/// Reads `NAME` or `NAME.NUMBER`. Whether anything has the name is not tested.
pub(crate) fn read_place(word: &[u8]) -> Result<PlaceWord<'_>, LineFault>
    ensures { MatchResult result (λ place. place_word word.now ≡ Ok (place.name.now, place.link))
        (λ kind. place_word word.now ≡ Err kind) }
{
    match find_dots(word) {
        Dots::Without => Ok(PlaceWord {
            name: word,
            link: None,
        }),
        Dots::Several => Err(LineFault::BadShape),
        Dots::At(dot) => {
            let link = read_number_word(&word[dot + 1..])?;
            Ok(PlaceWord {
                name: &word[..dot],
                link: Some(link),
            })
        }
    }
}
