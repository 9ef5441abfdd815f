//! A node of tagged tokens, which counts what it did.
//!
//! A trace has room for a fixed number of entries, and an event is refused where it is full. To know that, a count is
//! enough.
ghost use Rattle.std.specs.{Option.option_copied, Prelude.{All, MatchResult, OnErr, [], false, is_some, length, true, ◌++◌, ◌<◌, ◌∷◌, ◌≡◌}};
ghost use Rattle.c104_node.specs.{Acts.{IsWithinLimits, node_act, reply_outcome, wants_memory}, Nodes.node_arrived, Quiet.IsQuietNode};
ghost use Rattle.c104_node.specs.{Quiet.node_begin, Starts.{start_node, start_of}, Tagged.tagged_kind, TracedRecords.{IsFit, first_traced}};
ghost use Rattle.c104_node.specs.{Traces.{kept_entry, trace_limit}, declared.stamps.Stamp.Stamp as TheStamp};

use crate::acts::ActOf;
use crate::history::History;
use crate::node::NodeOf;
use crate::place::Place;
use crate::recorded::TRACE_LIMIT;
use crate::stamps::Stamp;
use crate::tagged::TaggedToken;
use crate::terminal::ArrivedOf;
use c104_switch::ReplyOf;
use c104_token::NoMemory;
use std::marker::Model;

/// A node of tagged tokens. Of what it did since its start it keeps how many entries a trace would have, at most
/// `TRACE_LIMIT`; the entries themselves are in proofs alone.
pub struct CountedNode {
    core: NodeOf<TaggedToken>,
    entries: usize,
    history: History,
}

impl Model for CountedNode {
    ghost use Rattle.c104_node.specs.TracedRecords.{IsCounted, TracedRecord};

    ghost Value = { TracedRecord };

    ghost view = { λ n. record { state = n.core; start = n.history.start; trace = n.history.trace } };

    ghost invariant = { λ n.
        IsCounted n.entries (record { state = n.core; start = n.history.start; trace = n.history.trace }) };
}

impl CountedNode {
    /// A node that starts where it stands.
    pub fn new(core: NodeOf<TaggedToken>) -> Self
        ensures { result ≡ first_traced core }
    {
        let history = History::started(&core);
        CountedNode {
            core,
            entries: 0,
            history,
        }
    }

    /// The tokens that arrived, if the node is a terminal.
    pub fn arrived(&self) -> Option<&ArrivedOf<TaggedToken>>
        ensures arrived { option_copied result ≡ node_arrived self.now.state }
        ensures fit { All IsFit self.now.trace }
    {
        // The proof reads what the type keeps by these names.
        let _entries = self.entries;
        self.core.arrived()
    }

    /// Starts a run where the node stands, if it is quiet: what it sent and what arrived is forgotten, and what it
    /// did. It takes no memory.
    pub fn begin(&mut self)
        requires { IsQuietNode self.old.state }
        ensures begun { self.new.state ≡ node_begin self.old.state }
        ensures start { self.new.start ≡ start_of self.old.state }
        ensures trace { self.new.trace ≡ [] }
        ensures stands { self.new.state ≡ start_node self.new.start }
    {
        self.history = History::started(&self.core);
        self.entries = 0;
        self.core.begin();
    }

    /// Does an act if the node is ready for it, or answers NotReady and changes nothing, as `act` of a place. What was done
    /// isn't counted before `note` is told of it: so an event can be numbered when it is known that it is done.
    #[inline(always)]
    pub fn attempt(
        &mut self,
        number: usize,
        act: &ActOf<TaggedToken>,
    ) -> Result<ReplyOf<TaggedToken>, NoMemory>
        requires { IsWithinLimits act.now }
        ensures acted { MatchResult result
            (λ reply. (reply, self.new.state) ≡
            reply_outcome (node_act tagged_kind number act.now self.old.state) self.old.state)
            (λ _. self.new.state ≡ self.old.state) }
        ensures memory { MatchResult result
            (λ _. Unit {0})
            (λ _. wants_memory act.now ≡ true) }
        ensures refused { OnErr result (is_some (node_act tagged_kind number act.now self.old.state) ≡ true) }
        ensures kept { (self.new.start ≡ self.old.start) × (self.new.trace ≡ self.old.trace) }
    {
        self.core.act(number, act)
    }

    /// The same of an act that wants no memory, as those at the ends of wires.
    #[inline(always)]
    pub fn attempt_light(&mut self, act: &ActOf<TaggedToken>) -> ReplyOf<TaggedToken>
        requires short { IsWithinLimits act.now }
        requires light { wants_memory act.now ≡ false }
        ensures acted { (result, self.new.state) ≡
            reply_outcome (node_act tagged_kind 0 act.now self.old.state) self.old.state }
        ensures kept { (self.new.start ≡ self.old.start) × (self.new.trace ≡ self.old.trace) }
    {
        self.core.act_light(act)
    }

    /// Counts an act that was done. The stamp of its event only proofs know: the caller's picks it, by what tells of it.
    #[inline(always)]
    pub fn note<W>(&mut self, _teller: &W, act: &ActOf<TaggedToken>, reply: &ReplyOf<TaggedToken>)
        ghost stamp: { TheStamp }
        requires short { IsWithinLimits act.now }
        requires room { length self.old.trace < trace_limit }
        ensures { self.new ≡ record self.old {
          trace = self.old.trace ++ kept_entry tagged_kind stamp act.now reply.now ∷ [];
        } }
    {
        self.history = self.history.told(act, reply);
        self.entries += 1;
    }

    /// Disposes of the node, and of what is kept of it.
    pub fn retire(self) {
        let CountedNode {
            core,
            entries: _,
            history: _,
        } = self;
        core.retire();
    }
}

impl Place<TaggedToken> for CountedNode {
    ghost use Rattle.std.specs.Prelude.{OnOk, false, length, refl, true, ◌<◌, ◌≡◌};
    ghost use Rattle.c104_node.specs.{Acts.{IsWithinLimits, wants_memory}, PlaceActs.{ActEnds, HasActed}, Tagged.tagged_kind};
    ghost use Rattle.c104_node.specs.{TracedRecords.counted_shown, Traces.trace_limit};

    ghost shown = { counted_shown };

    ghost keeps = { true };

    ghost limited = { λ n. refl };

    ghost has_room = { λ n. length n.trace < trace_limit };

    #[inline(always)]
    fn node(&self) -> &NodeOf<TaggedToken>
        ensures { result.now ≡ self.now.state }
    {
        &self.core
    }

    #[inline(always)]
    fn is_full(&self) -> bool
        ensures { result ≡ (counted_shown self.now).full }
    {
        self.entries >= TRACE_LIMIT
    }

    #[inline(always)]
    fn room(&mut self) -> Result<(), NoMemory>
        requires { (counted_shown self.old).full ≡ false }
        ensures shown { counted_shown self.new ≡ counted_shown self.old }
        ensures room { OnOk result (length self.new.trace < trace_limit) }
    {
        Ok(())
    }

    // Whether the node is ready is told by what it answers, so it is asked once.
    #[inline(always)]
    fn act(
        &mut self,
        number: usize,
        stamp: Stamp,
        act: ActOf<TaggedToken>,
    ) -> Result<ReplyOf<TaggedToken>, NoMemory>
        requires short { IsWithinLimits act }
        requires room { length self.old.trace < trace_limit }
        ensures { ActEnds tagged_kind true number stamp act (counted_shown self.old) result (counted_shown self.new) }
    {
        let reply = self.core.act(number, &act)?;
        if let ReplyOf::NotReady = reply {
            return Ok(reply);
        }
        self.history = self.history.with(&stamp, &act, &reply);
        self.entries += 1;
        Ok(reply)
    }

    // Over what is small enough to be inlined.
    #[inline(always)]
    fn act_light(&mut self, stamp: Stamp, act: ActOf<TaggedToken>) -> ReplyOf<TaggedToken>
        requires short { IsWithinLimits act }
        requires light { wants_memory act ≡ false }
        requires room { length self.old.trace < trace_limit }
        ensures { HasActed tagged_kind true 0 stamp act (counted_shown self.old) result (counted_shown self.new) }
    {
        let reply = self.core.act_light(&act);
        if let ReplyOf::NotReady = reply {
            return reply;
        }
        self.history = self.history.with(&stamp, &act, &reply);
        self.entries += 1;
        reply
    }
}
