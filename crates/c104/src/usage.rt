//! What is told of a wrong command line: which tool does now what a command of earlier versions did, and what a person
//! may have meant.

use crate::command_line::EXPLAIN_WORD;
use clap::Error;
use clap::error::ErrorKind;
use std::fs;
use std::io::{IsTerminal, Write};

/// A command of earlier versions, an option of it if it is gone with that alone, and the tool that does now what it
/// did.
const GONE: [(&str, &str, &str); 6] = [
    ("stats", "", "c104-stats"),
    ("traffic", "", "c104-traffic"),
    ("paths", "", "c104-paths"),
    ("draw", "", "c104-draw"),
    ("check", "--each-cut", "c104-cuts"),
    ("cycles", "--script", "c104-lockup"),
];

/// The word of help, behind which a command may stand.
const HELP: &str = "help";

/// Tells which tool does now what a command, or an option of it, did, if the words ask for that. Whether they do.
pub fn tell_of_gone(rt: &HostRuntime, words: &[String]) -> bool {
    match gone_of(words) {
        Some(gone) => {
            tell_of_tool(rt, gone);
            true
        }
        None => false,
    }
}

/// Tells which tool does now what a row is about.
fn tell_of_tool(rt: &HostRuntime, gone: (&str, &str, &str)) {
    let (command, option, tool) = gone;
    let space = if option == "" { "" } else { " " };
    let _ = eprintln!(rt; "error: `c104 {command}{space}{option}` is `{tool}` now");
}

/// The row of what these words ask for.
fn gone_of(words: &[String]) -> Option<(&'static str, &'static str, &'static str)> {
    let name = command_among(words)?;
    for gone in GONE {
        if gone.0 == name && (gone.1 == "" || has_word(words, gone.1)) {
            return Some(gone);
        }
    }
    None
}

/// The first of these words that is no option, and not `help`.
fn command_among<'a>(words: &'a [String]) -> Option<&'a str> {
    for word in words {
        let word = word.as_str();
        if !word.starts_with('-') && word != HELP {
            return Some(word);
        }
    }
    None
}

/// Whether a word is among these.
fn has_word(words: &[String], wanted: &str) -> bool {
    words.iter().any(|word| word.as_str() == wanted)
}

/// Tells of files where a command is wanted, and of what isn't a header, where messages are wanted.
pub fn tell_of_error(rt: &HostRuntime, words: &[String], error: &Error) {
    if !(has_word(words, EXPLAIN_WORD) || rt.stderr().is_terminal()) {
        return;
    }
    match error.kind() {
        ErrorKind::InvalidSubcommand => tell_of_files(rt, words),
        ErrorKind::ValueValidation if has_word(words, "--header") => {
            let _ = rt.eprintln("c104: a header is a decimal number, 0 to 65535");
        }
        _ => {}
    }
}

/// Tells of one file, or of two, where a command is wanted.
fn tell_of_files(rt: &HostRuntime, words: &[String]) {
    let Some(path) = file_at(rt, words, 0) else {
        return;
    };
    if let Some(script) = file_at(rt, words, 1) {
        let _ = eprintln!(rt;
            "c104: {path}: this is a file, not a command; `c104 run {path} {script}` runs a description and its script"
        );
        return;
    }
    let _ = eprintln!(rt;
        "c104: {path}: this is a file, not a command; `c104 run {path}` runs a description and a script \
         that are one text, `c104 run {path} SCRIPT` those of two, and `c104 check {path}` checks the labels"
    );
}

/// The word of this number, from 0, of those that are no option, if it is a file's path.
fn file_at<'a>(rt: &HostRuntime, words: &'a [String], number: usize) -> Option<&'a str> {
    let mut left = number;
    for word in words {
        if word.as_str().starts_with('-') {
            continue;
        }
        if left == 0 {
            return fs::open(rt, word.as_str()).ok().map(|_| word.as_str());
        }
        left -= 1;
    }
    None
}
