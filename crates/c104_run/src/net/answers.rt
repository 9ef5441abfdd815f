//! The answers to events in turn.
ghost use Rattle.std.specs.Prelude.{IfOk, OnErr, ◌≡◌};
ghost use Rattle.c104_run.specs.{EventRuns.AnswersAll, RecordedRuns.record_apply};

use super::Net;
use c104_event::{Event, EventFault};
use c104_switch::Reply;
use c104_token::NoMemory;
use std::alloc::Global;

impl Net {
    /// Applies events in turn, and gives their answers. The only error is out of memory for the
    /// answers, and then nothing has changed.
    pub fn apply_all(
        &mut self,
        alloc: Global,
        events: &[Event],
    ) -> Result<Vec<Result<Reply, EventFault>>, NoMemory>
        ensures done { IfOk result (λ answers.
            AnswersAll record_apply self.old events.now answers.items self.new) }
        ensures kept { OnErr result (self.new ≡ self.old) }
    {
        let mut answers = Vec::with_capacity(alloc, events.len())?;
        for event in events {
            let answer = self.apply(event);
            let Ok(()) = answers.push(answer) else {
                unreachable!();
            };
        }
        Ok(answers)
    }
}
