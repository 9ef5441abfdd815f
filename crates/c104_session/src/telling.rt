//! Who is told of a run as it goes on.

use crate::tally::Tally;
use c104_mistakes::{About, Messages, Work, tell_lines};
use c104_net::Watch;
use c104_stream::Halt;

/// Rounds between two that are told of, since a round may be short.
const ROUNDS_BETWEEN: u32 = 64;

/// What is told of an empty script.
const NOTHING: &str =
    "the script is empty; in one text with the description it follows a line with the one word `script`";

/// Takes what is told of the lines of a script, and of their rounds now and then.
#[derive(Drop)]
pub(crate) struct Telling<'a, M: Messages> {
    line: usize,
    rounds: u32,
    /// What the lines have done.
    pub(crate) tally: Tally,
    /// Where messages go.
    pub(crate) messages: &'a mut M,
}

impl<'a, M: Messages> Telling<'a, M> {
    /// Nothing was done so far.
    pub(crate) fn new(messages: &'a mut M) -> Self {
        Telling {
            line: 0,
            rounds: 0,
            tally: Tally::new(),
            messages,
        }
    }

    /// The line of this number is to be answered.
    pub(crate) fn begin(&mut self, line: usize) {
        self.line = line;
        self.rounds = 0;
    }

    /// How many rounds of the line have changed something so far.
    pub(crate) fn rounds(&self) -> u32 {
        self.rounds
    }

    /// Tells each line of a message.
    pub(crate) fn tell(&mut self, message: (About, String)) {
        tell_lines(message.0, message.1.as_str(), self.messages);
    }

    /// Tells of a script that came to this that it was empty, if none of its lines had words.
    pub(crate) fn end(&mut self, came: &Result<bool, Halt>) {
        if let Ok(false) = came
            && self.messages.are_wanted()
            && !self.tally.has_lines()
        {
            self.messages.tell(About::Run, NOTHING);
        }
    }
}

impl<M: Messages> Watch for Telling<'_, M> {
    fn rounds_done(&mut self, done: u32, count: u32) {
        self.rounds = done;
        if done % ROUNDS_BETWEEN == 0 {
            self.messages.progress(Work::Rounds(self.line), done, count);
        }
    }
}
