//! Who does what the lines of a script ask of a network.
ghost use Rattle.std.specs.Prelude.{Err, OnErr, ◌≡◌, ◌⊎◌};
ghost use Rattle.c104_session.specs.{Driven.{DoesEvent, DoesFairly, DoesRounds}, Leavings.{LeavesFairly, LeavesRounds}};
ghost use Rattle.c104_session.specs.FurtherRounds.{DoesFurther, DrivesFurther};
ghost use Rattle.c104_event.specs.declared.faults.EventFault.TheVariants as fault;

use c104_event::{Event, EventFault};
use c104_net::{TracedNet, Turns, Watch, Words};
use c104_switch::Reply;

/// Who does the events and the rounds that a script asks of a network. What the network does and answers is the same
/// whoever it is; beside that a driver may keep what was done.
pub(crate) trait Driver {
    ghost use Rattle.c104_session.specs.Driven.{Driving};

    /// What it keeps.
    ghost drives: { Driving Self };

    /// Does an event, as `TracedNet::apply` does. Out of memory it isn't done.
    fn event(&mut self, net: &mut TracedNet, event: &Event) -> Result<Reply, EventFault>
        ensures due { DoesEvent net.old event.now result net.new }
        ensures kept { OnErr result (net.new ≡ net.old) }
        ensures driven { (self.new ≡ drives.event self.old net.old event.now) ⊎ (result ≡ Err fault.NoMemory) };

    /// Does `count` rounds whose inputs are handed words, as `TracedNet::rounds_watched` does. Out of memory the first of their
    /// events are done.
    fn rounds<W: Watch>(
        &mut self,
        net: &mut TracedNet,
        words: Words,
        count: u32,
        watch: &mut W,
    ) -> Result<(), EventFault>
        ensures due { DoesRounds words net.old count result net.new }
        ensures left { LeavesRounds words net.old count net.new }
        ensures driven { (self.new ≡ drives.rounds self.old net.old words count) ⊎ (result ≡ Err fault.NoMemory) };

    /// Does a round whose inputs are handed word 0, but not where the network stands still, and tells whether it did one. Out of
    /// memory the first of its events are done.
    fn further_round(&mut self, net: &mut TracedNet) -> Result<bool, EventFault>
        ensures due { DoesFurther net.old result net.new }
        ensures driven { DrivesFurther drives self.old net.old result self.new net.new };

    /// Does `count` fair rounds whose inputs are handed words, from these turns on, as `TracedNet::fair_rounds` does. Out of
    /// memory the first of their events are done.
    fn fair_rounds<W: Watch>(
        &mut self,
        net: &mut TracedNet,
        turns: &mut Turns,
        words: Words,
        count: u32,
        watch: &mut W,
    ) -> Result<(), EventFault>
        ensures due { DoesFairly words net.old turns.old count result net.new turns.new }
        ensures left { LeavesFairly words net.old turns.old count net.new turns.new }
        ensures driven { (self.new ≡ drives.fair self.old net.old turns.old words count) ⊎ (result ≡ Err fault.NoMemory) };
}

/// A driver that keeps nothing.
#[derive(Clone, Copy)]
pub(crate) struct Plain;

impl Driver for Plain {
    ghost use Rattle.c104_session.specs.Driven.{keeps_nothing};

    ghost drives = { keeps_nothing };

    #[tactic(auto, using(crate::proofs::Leavings::event_kept))]
    #[inline]
    fn event(&mut self, net: &mut TracedNet, event: &Event) -> Result<Reply, EventFault> {
        net.apply(event)
    }

    #[tactic(auto, using(crate::proofs::Leavings::rounds_left))]
    #[inline]
    fn rounds<W: Watch>(
        &mut self,
        net: &mut TracedNet,
        words: Words,
        count: u32,
        watch: &mut W,
    ) -> Result<(), EventFault> {
        net.rounds_watched(count, words, watch)
    }

    #[tactic(auto, using(crate::proofs::FurtherRounds::plain_done, crate::proofs::FurtherRounds::nothing_driven, crate::proofs::FurtherRounds::nothing_refused))]
    fn further_round(&mut self, net: &mut TracedNet) -> Result<bool, EventFault> {
        // The proof reads here what every plan and every such network keeps.
        let plan = net.told_plan();
        let _switches = plan.switches();
        let before = net.done_count();
        net.rounds(1)?;
        Ok(before < net.done_count())
    }

    #[tactic(auto, using(crate::proofs::FairLeavings::fairly_left))]
    #[inline]
    fn fair_rounds<W: Watch>(
        &mut self,
        net: &mut TracedNet,
        turns: &mut Turns,
        words: Words,
        count: u32,
        watch: &mut W,
    ) -> Result<(), EventFault> {
        net.fair_rounds(count, words, turns, watch)
    }
}
