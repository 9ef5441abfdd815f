//! What workers do in their turns, whatever it is done to.
//!
//! A worker does the part of a node through a port: of a node behind a lock that it has, of one that others may have between two
//! of its events, or of a network that is nobody else's. The contracts tell all that it does by what the port answers.
ghost use Rattle.c104_event.specs.declared.{events.Event.Event as TheEvent, faults.EventFault.EventFault as TheFault};
ghost use Rattle.c104_turns.specs.{Turns.{End, InTurn, Often, PartDone, StageDone, TurnsDone, events_at, handed}, Working.PartView};
ghost use Rattle.c104_turns.specs.declared.parts.Stage.{Stage as TheStage};
ghost use Rattle.std.specs.Prelude.{Bool, List, OnOk, Result, map, ℕ, ◌≡◌};

use crate::parts::{Part, Stage};
use crate::words::Words;
use c104_event::{Event, EventFault};
use c104_token::NoMemory;

/// What a worker does the events of a node through.
pub trait NodePort {
    /// How many events were done through it.
    ghost done: { Self → ℕ };

    /// A port in this state may list these numbers for a stage of a part.
    ghost lists: { Self → PartView → TheStage → List ℕ → Type 0 };

    /// A port in this state may answer an event so, and be in that state afterwards.
    ghost due: { Self → TheEvent → Result Bool TheFault → Self → Type 0 };

    /// How many events were done through it.
    fn count(&self) -> usize
        ensures { result ≡ done self.now };

    /// Lists the numbers of those events of a part's stage that the part's node may begin, and nothing else. The only error is
    /// out of memory.
    fn list_ready(&self, part: &Part, stage: Stage, ready: &mut Vec<usize>) -> Result<(), NoMemory>
        ensures { OnOk result (lists self.now part.now stage ready.new.items) };

    /// Does an event, if it is ready. Says whether it was done and may be asked for once more.
    fn apply(&mut self, event: &Event) -> Result<bool, EventFault>
        ensures { due self.old event.now result self.new };
}

/// What a worker does the parts of nodes through.
pub trait PartPort {
    /// How many events were done through it.
    ghost done: { Self → ℕ };

    /// A port in this state may end the part of a node so, and be in that state afterwards.
    ghost due: { Self → PartView → End → Self → Type 0 };

    /// How many events were done through it.
    fn count(&self) -> usize
        ensures { result ≡ done self.now };

    /// The turn of this number is about to begin; turns are counted from 0.
    fn begin(&self, turn: u64);

    /// A turn did nothing.
    fn rest(&self);

    /// Does the part of a node, up to the first event that is refused. The list is for the numbers of events.
    fn do_part(&mut self, part: &Part, ready: &mut Vec<usize>) -> Result<(), EventFault>
        ensures { due self.old part.now result self.new };
}

/// A worker.
#[derive(Clone, Copy, Debug)]
pub struct Worker {
    /// Its number, from 0 on.
    pub number: usize,
    /// The words that it hands to inputs.
    pub words: Words,
    /// How often in a row it does an event, at most.
    pub times: u32,
}

impl Worker {
    /// Does the part of a node, stage by stage: of each stage the events that the port lists when it begins, each as long as it
    /// may be asked for once more, but as often as the worker does at most. It ends at the first event that is refused, or when
    /// out of memory. The list is for the numbers of events.
    pub fn do_part<P: NodePort>(
        self,
        port: &mut P,
        part: &Part,
        ready: &mut Vec<usize>,
    ) -> Result<(), EventFault>
        ensures { PartDone P.due P.done self P.lists part.now port.old result port.new }
    {
        self.do_stage(port, part, Stage::Crossings, ready)?;
        self.do_stage(port, part, Stage::Turns, ready)?;
        self.do_stage(port, part, Stage::Claims, ready)
    }

    /// Does a stage of a part.
    fn do_stage<P: NodePort>(
        self,
        port: &mut P,
        part: &Part,
        stage: Stage,
        ready: &mut Vec<usize>,
    ) -> Result<(), EventFault>
        ensures { StageDone P.due P.done self P.lists part.now stage port.old result port.new }
    {
        port.list_ready(part, stage, ready)?;
        self.do_ready(port, part.events(), ready.as_slice())
    }

    /// Does the events of these numbers, each as often as it may be done.
    fn do_ready<P: NodePort>(
        self,
        port: &mut P,
        events: &[Event],
        ready: &[usize],
    ) -> Result<(), EventFault>
        ensures { InTurn (Often P.due P.done self self.times) (events_at events.now ready.now) port.old result port.new }
    {
        for number in ready {
            if let Some(event) = events.get(*number) {
                self.do_often(port, event)?;
            }
        }
        Ok(())
    }

    /// Does an event as long as it may be asked for once more, but `times` at most.
    fn do_often<P: NodePort>(self, port: &mut P, event: &Event) -> Result<(), EventFault>
        ensures { Often P.due P.done self self.times event.now port.old result port.new }
    {
        for _time in 0..self.times {
            if !self.do_once(port, event)? {
                break;
            }
        }
        Ok(())
    }

    /// Does an event, the turn of an input with a word of the worker's.
    fn do_once<P: NodePort>(self, port: &mut P, event: &Event) -> Result<bool, EventFault>
        ensures { P.due port.old (handed self (P.done port.old) event.now) result port.new }
    {
        match self.words.hand(self.number, port.count(), event) {
            Some(turn) => port.apply(&turn),
            None => port.apply(event),
        }
    }
}

/// Does this many turns through a port, in each of them these parts in order, up to the first event that is refused; but no more
/// where that many in a row did nothing. The list is for the numbers of events.
pub fn do_turns<P: PartPort>(
    port: &mut P,
    parts: &[&Part],
    turns: u64,
    most_idle: u64,
    ready: &mut Vec<usize>,
) -> Result<(), EventFault>
    ensures { TurnsDone P.due P.done (map (λ part. part.now) parts.now) most_idle turns most_idle port.old result port.new }
{
    let mut idle_left = most_idle;
    for turn in 0..turns {
        if idle_left == 0 {
            break;
        }
        let done = port.count();
        port.begin(turn);
        do_turn(port, parts, ready)?;
        if port.count() == done {
            port.rest();
            idle_left -= 1;
        } else {
            idle_left = most_idle;
        }
    }
    Ok(())
}

/// Does these parts, up to the first event that is refused.
fn do_turn<P: PartPort>(
    port: &mut P,
    parts: &[&Part],
    ready: &mut Vec<usize>,
) -> Result<(), EventFault>
    ensures { InTurn (λ part old end new. P.due old part end new) (map (λ part. part.now) parts.now) port.old result port.new }
{
    for part in parts {
        port.do_part(part, ready)?;
    }
    Ok(())
}
