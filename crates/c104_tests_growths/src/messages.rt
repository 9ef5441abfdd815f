//! What people are told: out of memory it is left out.
use crate::calls::PLAN;
use crate::ground::{Ground, Suite, is_right_on};
use crate::growths::{Growing, Refusal, is_right};
use crate::outcomes::Outcome;
use crate::traced::net_after;
use c104_describe::{PlanFault, PlanFaultKind};
use c104_event::{EventFault, Port};
use c104_explain::{leftover_messages, question_message, reason_message, standstill_message};
use c104_mistakes::{
    Mistake, command_message, counted, description_message, fault_message, owner_message,
    refusal_message, register_message,
};
use c104_net::{Reason, TracedNet};
use c104_plan::Plan;
use c104_regs::RegFault;
use c104_script::LineFault;
use c104_switch::Unready;
use std::alloc::Global;

/// A line that a script may have.
const LINE: &[u8] = b"poke A 0140 5";

/// What is told of a mistake.
#[derive(Clone, Copy)]
enum Message {
    Description,
    Fault,
    Refusal,
    Register,
    Owner,
    Command,
    Mistake,
    Count,
}

/// Something is told of a mistake, with the plan that a line speaks of.
#[derive(Drop)]
struct Telling<'a>(&'a Plan, Message);

impl Growing for Telling<'_> {
    fn call(&self, alloc: Global, refusal: Refusal) -> Outcome {
        let mistake = Mistake::new("there is no such register", Some(LINE));
        refusal.begin(alloc);
        let found = match self.1 {
            Message::Description => Outcome::of_option(description_message(
                alloc,
                b"switch A\nswitch 9x\n",
                PlanFault {
                    line: 2,
                    kind: PlanFaultKind::BadName,
                },
            )),
            Message::Fault => {
                Outcome::of_option(fault_message(alloc, LINE, LineFault::BadHex, false))
            }
            Message::Refusal => {
                Outcome::of_option(refusal_message(alloc, self.0, LINE, EventFault::NoNode))
            }
            Message::Register => {
                Outcome::of_option(register_message(alloc, LINE, RegFault::NoRegister))
            }
            Message::Owner => Outcome::of_option(owner_message(alloc, b"link A.1", 1)),
            Message::Command => Outcome::of_option(command_message(alloc, LINE, &[0xff, 1])),
            Message::Mistake => Outcome::of(mistake.text(alloc)),
            Message::Count => Outcome::of(counted(alloc, 2, "packet")),
        };
        refusal.end(alloc);
        found
    }
}

/// What is told of a network.
#[derive(Clone, Copy)]
enum Told {
    Leftovers,
    Standstill,
    Question,
    Reason,
}

/// Something is told of a network.
#[derive(Drop)]
struct Explaining<'a>(&'a TracedNet, Told);

impl Growing for Explaining<'_> {
    fn call(&self, alloc: Global, refusal: Refusal) -> Outcome {
        let reason = Reason {
            port: Port::Switch(0, 0),
            unready: Unready::NoToken,
        };
        refusal.begin(alloc);
        let found = match self.1 {
            Told::Leftovers => Outcome::of_option(leftover_messages(alloc, self.0)),
            Told::Standstill => Outcome::of_option(standstill_message(alloc, self.0, Some(1))),
            Told::Question => Outcome::of_option(question_message(alloc, self.0, b"show A")),
            Told::Reason => Outcome::of_option(reason_message(alloc, self.0.plan(), reason)),
        };
        refusal.end(alloc);
        found
    }
}

/// What is told of mistakes.
#[derive(Drop)]
struct MistakeCalls;

impl Suite for MistakeCalls {
    fn is_right(&self, rt: &HostRuntime, ground: Ground<'_>) -> bool {
        for (name, message) in [
            ("description_message", Message::Description),
            ("fault_message", Message::Fault),
            ("refusal_message", Message::Refusal),
            ("register_message", Message::Register),
            ("owner_message", Message::Owner),
            ("command_message", Message::Command),
            ("Mistake::text", Message::Mistake),
            ("counted", Message::Count),
        ] {
            if !is_right(rt, name, &Telling(ground.plan, message)) {
                return false;
            }
        }
        true
    }
}

/// What is told of a network in which a packet waits.
#[derive(Drop)]
struct NetMessages;

impl Suite for NetMessages {
    fn is_right(&self, rt: &HostRuntime, ground: Ground<'_>) -> bool {
        let Some(net) = net_after(rt.alloc(), ground, 1) else {
            return false;
        };
        let are_right = are_messages_right(rt, &net);
        net.retire();
        are_right
    }
}

fn are_messages_right(rt: &HostRuntime, net: &TracedNet) -> bool {
    is_right(rt, "leftover_messages", &Explaining(net, Told::Leftovers))
        && is_right(rt, "standstill_message", &Explaining(net, Told::Standstill))
        && is_right(rt, "question_message", &Explaining(net, Told::Question))
        && is_right(rt, "reason_message", &Explaining(net, Told::Reason))
}

#[test]
fn messages(rt: HostRuntime) {
    assert!(rt; is_right_on(&rt, PLAN, &MistakeCalls));
    assert!(rt; is_right_on(&rt, PLAN, &NetMessages));
}
