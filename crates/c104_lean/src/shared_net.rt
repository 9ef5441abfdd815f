//! A shared network: nodes behind locks of their own, and the log of all that is done, which exists in proofs alone.
ghost use Rattle.{c104_lean.specs.{Nodes.AsksBoth, Shared.{ArePartsOf, WasShared}, Working.HasCalls}, c104_plan.specs.Plans.IsPlan};
ghost use Rattle.{c104_run.specs.{NetParts.node_count, Network.event_fault}, c104_turns.specs.SeatGrowth.{FaultsAs, IsLaterFault}};
ghost use Rattle.std.specs.Prelude.{Err, IfErr, ◌<◌, ◌≡◌};

use crate::closing::Placed;
use crate::doing::{cross_often, do_alone, is_done};
use crate::held::HeldNode;
use crate::seats::CountedSeat;
use crate::sharing::Sharing;
use c104_event::{Event, EventFault};
use c104_node::{CountedNode, Joint, Place, TaggedToken};
use c104_plan::Plan;
use c104_run::{Asked, Wires, acts_of};
use c104_switch::{Reply, ReplyOf};
use c104_tickets::{DeedLog, Pass};
use c104_turns::Part;
use std::marker::{Model, PhantomData};
use std::sync::{Mutex, Wait};

/// What is left of a log's first pass, when the tracks of all seats and places were split off it.
#[derive(Drop)]
pub(crate) struct Rest<N: Sharing> {
    pub(crate) pass: Pass,
    pub(crate) sharing: PhantomData<N>,
}

impl<N: Sharing> Model for Rest<N> {
    ghost use Rattle.std.specs.Prelude.{◌≡◌};
    ghost use Rattle.c104_tickets.specs.Tickets.{PassValue};

    ghost Value = { PassValue };

    ghost view = { λ r. r.pass };

    ghost invariant = { λ r. r.pass.word_id ≡ N.word };
}

/// A network whose nodes lie behind locks of their own. Events are done on them through seats.
pub struct SharedNet<N: Sharing> {
    pub(crate) wires: Wires,
    pub(crate) log: DeedLog,
    // A pass can't be shared, so it lies behind a lock as well.
    pub(crate) rest: Mutex<Rest<N>>,
    // The switches in order, and then the terminals.
    pub(crate) locks: Vec<Mutex<HeldNode<N>>>,
    // The part that a round has for each of them.
    pub(crate) parts: Vec<Part>,
    // Room for the nodes at the end, with their places and without, so that `close` takes no memory.
    pub(crate) room: Vec<Placed>,
    pub(crate) nodes: Vec<CountedNode>,
}

impl<N: Sharing> Model for SharedNet<N> {
    ghost use Rattle.std.specs.{Prelude.{[], vec_len, ◌≡◌, ◌≤◌}, Vec.vec_capacity};
    ghost use Rattle.{c104_lean.specs.Shared.{ArePartsOf, SharedView, WasShared}, c104_run.specs.NetParts.node_count};

    ghost Value = { SharedView };

    ghost view = { λ s. record { before = N.before; word_id = s.log.word_id; terms = s.log.terms } };

    ghost invariant = { λ s.
        (s.wires ≡ N.before.plan) × (s.log.word_id ≡ N.word) × (s.log.terms.first ≡ N.before.count)
        × (s.log.terms.places ≡ node_count N.before.plan) × (vec_len s.locks ≡ node_count N.before.plan)
        × (s.room.items ≡ []) × (vec_len s.locks ≤ vec_capacity s.room)
        × (s.nodes.items ≡ []) × (vec_len s.locks ≤ vec_capacity s.nodes)
        × WasShared N.before × ArePartsOf N.before.plan s.parts.items };
}

impl<N: Sharing> SharedNet<N> {
    /// The plan of the network.
    pub fn plan(&self) -> &Plan
        ensures plan { result.now ≡ self.now.before.plan }
        ensures kept { IsPlan self.now.before.plan }
        ensures shared { WasShared self.now.before }
    {
        // The proof reads the rest of the network by this name.
        let _log = &self.log;
        self.wires.plan()
    }

    /// The part that a round has for each node.
    pub(crate) fn parts(&self) -> &[Part]
        ensures { ArePartsOf self.now.before.plan result.now }
    {
        self.parts.as_slice()
    }

    /// The lock of a part's node.
    pub(crate) fn lock_of(&self, part: &Part) -> Option<&Mutex<HeldNode<N>>> {
        self.locks.get(part.node())
    }

    /// Does an event that a locked node leads, if it is ready and no limit refuses it: what crosses a wire as often as it is ready,
    /// but 8 times at most, where nobody else has the node at the far end. For each time that it is done, the seat has a call
    /// more. Says whether the event was done and the node may be ready for it once more. NoNode, NoLink, NotWired or TooLong where
    /// the event can't happen. A packet that is sent is never ready.
    pub(crate) fn do_event(
        &self,
        seat: &mut CountedSeat,
        held: &mut HeldNode<N>,
        event: &Event,
    ) -> Result<bool, EventFault>
        requires word { seat.old.word_id ≡ self.now.word_id }
        ensures fault { IfErr result (λ f. FaultsAs (event_fault self.now.before.plan event.now) event.now (Err f)) }
        ensures called { HasCalls (λ e. e ≡ event.now) seat.old seat.new }
    {
        // The proof reads here what every plan keeps.
        let plan = self.wires.plan();
        let asked: Asked<'_, TaggedToken> = acts_of(&self.wires, event)?;
        match asked {
            Asked::Alone(place, act) => {
                if held.place != place {
                    return Ok(false);
                }
                let number = place.saturating_sub(plan.switches().len());
                let reply = do_alone(&self.log, seat, held, number, &act, event)?;
                Ok(is_done(&reply))
            }
            Asked::Joint(near, far, joint) => {
                if held.place == near {
                    self.do_crossings(seat, held, far, joint, event)?;
                }
                Ok(false)
            }
            Asked::Send(_, _) => Ok(false),
        }
    }

    /// Does what crosses a wire from a locked node to the one at a place, as often as it is ready, but `MOST_TIMES` at most.
    /// Where another has that node, nothing is done.
    fn do_crossings(
        &self,
        seat: &mut CountedSeat,
        near: &mut HeldNode<N>,
        place: usize,
        joint: Joint,
        event: &Event,
    ) -> Result<(), EventFault>
        requires word { seat.old.word_id ≡ self.now.word_id }
        requires asked { AsksBoth self.now.before.plan event.now joint near.old.place place }
        requires inside { place < node_count self.now.before.plan }
        ensures fault { IfErr result (IsLaterFault event.now) }
        ensures called { HasCalls (λ e. e ≡ event.now) seat.old seat.new }
    {
        let Some(mut far) = self.locks[place].try_lock() else {
            return Ok(());
        };
        if far.place != place {
            return Ok(());
        }
        cross_often(&self.log, seat, near, &mut far, joint, event)
    }

    /// Whether all nodes are quiet, each when it is asked: no token stands there, and no packet is under way. It locks
    /// one node after the other, so while others do events that may no longer be so when it answers.
    pub fn quiet<R: Wait>(&self, rt: &R) -> bool {
        for lock in &self.locks {
            if !is_quiet(rt, lock) {
                return false;
            }
        }
        true
    }
}

/// Whether the node behind a lock is quiet.
fn is_quiet<N: Sharing, R: Wait>(rt: &R, lock: &Mutex<HeldNode<N>>) -> bool {
    let held = lock.lock(rt);
    Place::node(&held.node).is_quiet()
}
