//! What is refused of a script's lines, and where its run ends for that.
ghost use Rattle.std.specs.Prelude.{◌≡◌};
ghost use Rattle.c104_session.specs.Refusals.{ends_run, no_refusals, refused_too, refuses};

use crate::session::Session;
use c104_event::EventFault;
use c104_script::{Answer, Finding};

/// What was refused so far of a script's lines.
#[derive(Clone, Copy)]
pub(crate) struct Refusals {
    /// How many lines were.
    pub(crate) lines: u64,
    /// Whether the last of them was since a trace or an inbox is full: the run ends there.
    pub(crate) is_over: bool,
}

impl Refusals {
    /// Nothing was refused.
    pub(crate) fn new() -> Self
        ensures { result ≡ no_refusals }
    {
        Refusals {
            lines: 0,
            is_over: false,
        }
    }

    /// The same behind a line that was answered so.
    pub(crate) fn with(self, answer: &Option<Answer>) -> Self
        ensures { result ≡ refused_too self answer.now }
    {
        match answer {
            Some(Answer::Refused(fault)) => Refusals {
                lines: self.lines.saturating_add(1),
                is_over: ends_run(*fault),
            },
            Some(Answer::Found(Finding::Refused(_))) => Refusals {
                lines: self.lines.saturating_add(1),
                ..self
            },
            _ => self,
        }
    }

    /// Whether a script is refused that ended with this: for its length, for a line that was faulty, or for the one that ended
    /// its run.
    pub(crate) fn refuse(self, is_long: bool, session: &Session) -> bool
        ensures { result ≡ refuses self is_long session.now }
    {
        is_long || session.faulty || self.is_over
    }
}

/// Whether the run ends with a line that is refused so: since a trace or an inbox is full. Behind it the network could do
/// only a part of what is asked.
pub(crate) fn ends_run(fault: EventFault) -> bool
    ensures { result ≡ ends_run fault }
{
    matches!(fault, EventFault::TraceFull | EventFault::InboxFull)
}
