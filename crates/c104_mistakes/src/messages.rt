//! Where messages for people go.
//!
//! A message is made in memory of its own, and left out where there is none. What is kept of the answers is written
//! before it, so on a terminal it is behind its answer.

/// What is told of a script that is longer than it may be.
const TOO_LONG: &str =
    "a script has at most 16777216 bytes; the lines that end within them were answered";

/// What a message is about. Lines are counted from 1.
#[derive(Clone, Copy, Debug)]
pub enum About {
    /// The description as a whole.
    Description,
    /// A line of the description.
    DescriptionLine(usize),
    /// A line of the script.
    ScriptLine(usize),
    /// A line of the script that is faulty.
    FaultyLine(usize),
    /// What was asked among the lines of a script.
    Question,
    /// What a run has come to at its end.
    Run,
}

/// Long work of which people are told how far it is.
#[derive(Clone, Copy, Debug, PartialEq, Eq)]
pub enum Work {
    /// The rounds of a line of the script.
    Rounds(usize),
    /// A storm's turns.
    Turns,
    /// The switches that are tried as the root of labels up and down.
    Roots,
}

/// What takes messages for people. Nothing is promised of it, and no contract of what calls it speaks of messages: one
/// that is lost is lost.
pub trait Messages {
    /// Whether anyone reads the messages. Where nobody does, none is made.
    fn are_wanted(&self) -> bool;

    /// Whether a person types the script and reads the messages, who may ask among its lines.
    fn are_asked(&self) -> bool;

    /// Takes a message, without a line feed at its end.
    fn tell(&mut self, about: About, message: &str);

    /// Takes how much of some work is done so far, of this count. It is called again and again while the work goes on.
    fn progress(&mut self, work: Work, done: u32, count: u32);
}

/// Nobody reads the messages.
#[derive(Clone, Copy, Debug)]
pub struct Silent;

impl Messages for Silent {
    #[inline]
    fn are_wanted(&self) -> bool {
        false
    }

    #[inline]
    fn are_asked(&self) -> bool {
        false
    }

    #[inline]
    fn tell(&mut self, _about: About, _message: &str) {}

    #[inline]
    fn progress(&mut self, _work: Work, _done: u32, _count: u32) {}
}

/// The messages of a script that follows other lines of the same text: its lines are told by their numbers in
/// that text.
#[derive(Drop)]
pub struct Behind<'a, M: Messages> {
    // How many lines of the text stand before the script.
    lines: usize,
    messages: &'a mut M,
}

impl<'a, M: Messages> Behind<'a, M> {
    /// The messages of a script that stands behind this description and a line `script`.
    pub fn first_part(description: &[u8], messages: &'a mut M) -> Self {
        let feeds = description.iter().filter(|byte| **byte == b'\n').count();
        Behind {
            lines: feeds.saturating_add(1),
            messages,
        }
    }
}

impl<M: Messages> Messages for Behind<'_, M> {
    #[inline]
    fn are_wanted(&self) -> bool {
        self.messages.are_wanted()
    }

    #[inline]
    fn are_asked(&self) -> bool {
        self.messages.are_asked()
    }

    fn tell(&mut self, about: About, message: &str) {
        let about = match about {
            About::ScriptLine(line) => About::ScriptLine(line.saturating_add(self.lines)),
            About::FaultyLine(line) => About::FaultyLine(line.saturating_add(self.lines)),
            _ => about,
        };
        self.messages.tell(about, message);
    }

    fn progress(&mut self, work: Work, done: u32, count: u32) {
        let work = match work {
            Work::Rounds(line) => Work::Rounds(line.saturating_add(self.lines)),
            Work::Turns | Work::Roots => work,
        };
        self.messages.progress(work, done, count);
    }
}

/// Tells each line of a message.
pub fn tell_lines<M: Messages>(about: About, message: &str, messages: &mut M) {
    for line in message.lines() {
        messages.tell(about, line);
    }
}

/// Tells of a script that it is longer than it may be, if it is and anyone reads the messages.
pub fn tell_if_long<M: Messages>(is_long: bool, messages: &mut M) {
    if is_long && messages.are_wanted() {
        messages.tell(About::Run, TOO_LONG);
    }
}
