//! A fabric takes control commands through a seat.
ghost use Rattle.{c104_turns.specs.Calls.IsSameSeat, c104_workers.specs.SeatCommands.{IsFabricUnanswered, IsOneCall}};
ghost use Rattle.std.specs.Prelude.{MatchResult, ◌≡◌};

use crate::fabric::Fabric;
use crate::naming::Naming;
use crate::seats::Seat;
use c104_control::ControlBytes;
use c104_event::{Event, EventFault};
use c104_switch::ReplyOf;
use c104_tools::ControlPort;
use std::sync::Wait;

/// A fabric with a seat of it, as a port for the loader and the debugger. Its commands are those of the seat's calls; it
/// shows no switches, since others may act on them between two commands. A command is exactly one call of the seat, or
/// none; so the seat stays one of the fabric. It isn't answered where there is no such switch, where the switch's trace or
/// the seat's list is full, or when out of memory.
#[derive(Drop)]
pub struct FabricPort<'a, R: Wait, N: Naming> {
    pub rt: &'a R,
    pub fabric: &'a Fabric<N>,
    pub seat: &'a mut Seat,
    ghost own: { seat.now.0.word_id ≡ fabric.now.word_id },
}

impl<R: Wait, N: Naming> ControlPort for FabricPort<'_, R, N> {
    ghost use Rattle.std.specs.Prelude.{◌≡◌, None, length};
    ghost use Rattle.c104_workers.specs.SeatCommands.{IsFabricUnanswered, SeatCommanded, seat_commands};

    ghost commands = { λ p. seat_commands p.seat.now.0.calls };

    ghost switch_count = { λ p. length p.fabric.now.handed.plan.switches };

    ghost shown = { λ p. None };

    ghost unanswered = { λ p switch bytes f. IsFabricUnanswered p.fabric.now switch f };

    // It stays a port through the same reference, so that who lent the seat knows what became of it.
    ghost due = { λ p switch bytes given after.
        (after.seat.ghost_name ≡ p.seat.ghost_name) × (after.fabric.now ≡ p.fabric.now)
        × SeatCommanded p.fabric.now p.seat.now.0 switch bytes given after.seat.now.0 };

    fn switches(&self) -> usize {
        self.fabric.plan().switches().len()
    }

    fn command(&mut self, switch: usize, bytes: &ControlBytes) -> Result<ControlBytes, EventFault> {
        self.fabric.command(self.rt, self.seat, switch, bytes)
    }
}

impl<N: Naming> Fabric<N> {
    /// A switch takes a control command through a seat, in one event. NoNode where it isn't ready for one.
    fn command<R: Wait>(
        &self,
        rt: &R,
        seat: &mut Seat,
        switch: usize,
        bytes: &ControlBytes,
    ) -> Result<ControlBytes, EventFault>
        requires word { seat.old.0.word_id ≡ self.now.word_id }
        ensures called { IsOneCall seat.old.0 seat.new.0 switch bytes.now result }
        ensures same { IsSameSeat seat.old.0 seat.new.0 }
        ensures fault { MatchResult result (λ _. Unit {0}) (λ f. IsFabricUnanswered self.now switch f) }
    {
        let event = Event::Control {
            switch,
            bytes: ControlBytes::new(bytes.as_slice()),
        };
        let answer = self.apply(rt, seat, &event)?;
        match answer {
            ReplyOf::Control(reply) => Ok(reply),
            ReplyOf::NotReady => Err(EventFault::NoNode),
            ReplyOf::Done | ReplyOf::Token(_) => unreachable!(),
        }
    }
}
