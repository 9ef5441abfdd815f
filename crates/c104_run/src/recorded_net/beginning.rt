//! Whether a network is quiet, and the start of a run there.
ghost use Rattle.std.specs.Prelude.{IsTrue, ◌↔◌, ◌≡◌};
ghost use Rattle.c104_run.specs.{NetRecords.record_begun_if, QuietNets.IsQuiet};

use super::RecordedNet;
use crate::recorded_place::RecordedPlace;
use c104_token::TokenKind;

impl<T: TokenKind, P: RecordedPlace<T>> RecordedNet<T, P> {
    /// Whether no token stands anywhere, and no packet is under way.
    pub fn quiet(&self) -> bool
        ensures { IsTrue result ↔ IsQuiet self.now.network }
    {
        self.engine.is_quiet()
    }

    /// Begins a run where the network is quiet: it stands as it does, which is the new start; what the
    /// nodes did, what was sent and what arrived is forgotten, and the tickets are counted from 0. Where it
    /// isn't quiet, the answer is false and nothing has changed. It takes no memory.
    pub fn begin(&mut self) -> bool
        ensures quiet { IsTrue result ↔ IsQuiet self.old.network }
        ensures begun { self.new ≡ record_begun_if result self.old }
    {
        if !self.quiet() {
            return false;
        }
        self.engine.begin();
        true
    }
}
