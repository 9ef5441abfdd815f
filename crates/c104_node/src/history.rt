//! Where a node started and what it did since, for proofs alone. It takes no memory, and its functions do nothing when
//! they run.
//!
//! A network that counts entries in place of keeping them promises what `Net` promises, so its contracts speak of entries
//! that nothing holds. By itself a history says nothing: a function could pick any. It is tied to what is there by the
//! types that have one: its length to the count (`IsCounted`), and the histories of all nodes to one run of events that
//! leads from their starts to the nodes as they stand (`IsRecordedNet`). So only this crate has the type, and the proofs
//! of the two functions that make one are written by hand.
//!
//! The prover finds what a value is by the code that makes it, and no code makes an erased field: so these two proofs say
//! what it is. Their form is that in which the toolchain's libraries keep logs for contracts (`serde_json`,
//! `http_server`).
ghost use Rattle.std.specs.Prelude.{List};
ghost use Rattle.c104_node.specs.declared.{acts.Entry.Entry as TheEntry, stamps.Stamp.Stamp as TheStamp, starts.NodeStart.NodeStart as TheStart};

use crate::acts::ActOf;
use crate::node::NodeOf;
use crate::stamps::Stamp;
use crate::tagged::TaggedToken;
use c104_switch::ReplyOf;
use std::marker::Model;

/// Where a node started, and the entries of what it did since. Both are erased: no code can read them.
#[derive(Drop)]
pub struct History {
    pub ghost start: { TheStart },
    pub ghost trace: { List TheEntry },
}

impl Model for History {
    ghost use Rattle.std.specs.Borrow.{ftrue};

    ghost also_owns = { λ _. ftrue };
}

// It owns nothing, so it may go to another thread, and be seen by several.
unsafe impl Send for History {}

unsafe impl Sync for History {}

impl History {
    ghost use Rattle.std.specs.Prelude.{[], ◌++◌, ◌∷◌, ◌≡◌};
    ghost use Rattle.c104_node.specs.{Starts.start_of, Tagged.tagged_kind, Traces.kept_entry};

    /// The history of a node that starts where it stands.
    #[inline(always)]
    pub fn started(_core: &NodeOf<TaggedToken>) -> History
        ensures { (result.start ≡ start_of _core.now) × (result.trace ≡ []) }
    {
        History {}
    }

    /// The same history with one act more, and its reply. In which event it was is picked by the caller's proof.
    #[inline(always)]
    pub fn told(&self, _act: &ActOf<TaggedToken>, _reply: &ReplyOf<TaggedToken>) -> History
        ghost stamp: { TheStamp }
        ensures { (result.start ≡ self.now.start)
            × (result.trace ≡ self.now.trace
            ++ kept_entry tagged_kind stamp _act.now _reply.now ∷ []) }
    {
        History {}
    }

    /// The same of an event of which something tells, for the pick of the caller's proof.
    #[inline(always)]
    pub fn told_by<W>(
        &self,
        _teller: &W,
        act: &ActOf<TaggedToken>,
        reply: &ReplyOf<TaggedToken>,
    ) -> History
        ghost stamp: { TheStamp }
        ensures { (result.start ≡ self.now.start)
            × (result.trace ≡ self.now.trace
            ++ kept_entry tagged_kind stamp act.now reply.now ∷ []) }
    {
        self.told(act, reply)
    }

    /// The same in the event of this stamp.
    #[inline(always)]
    pub fn with(
        &self,
        stamp: &Stamp,
        act: &ActOf<TaggedToken>,
        reply: &ReplyOf<TaggedToken>,
    ) -> History
        ensures { (result.start ≡ self.now.start)
            × (result.trace ≡ self.now.trace
            ++ kept_entry tagged_kind stamp.now act.now reply.now ∷ []) }
    {
        self.told_by(stamp, act, reply)
    }
}
