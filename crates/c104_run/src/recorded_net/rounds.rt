//! Rounds of a network whose nodes are seen with their records.
ghost use Rattle.c104_run.specs.declared.words.Words.TheVariants as Words;
ghost use Rattle.c104_run.specs.{MeteredRuns.{MetersFairRound, MetersRound, RecordsFairRound, RecordsRound}, RecordedRuns.{RecordsFairly, RecordsHanded, RecordsRounds}};

use super::RecordedNet;
use crate::meter::{Meter, Unmetered};
use crate::recorded_place::RecordedPlace;
use crate::turns::Turns;
use crate::watch::{Unwatched, Watch};
use crate::words::Words;
use c104_event::EventFault;
use c104_token::TokenKind;

impl<T: TokenKind, P: RecordedPlace<T>> RecordedNet<T, P> {
    /// Does `count` rounds, up to the first fault of an event. A round is this emulator's own order of events: Credit
    /// of each wired port, those of the switches by switch and link and then the terminals; Cross of the same; Input of
    /// each wired input, with word 0; Claim of each input and output of each switch; and Drain of each terminal. An
    /// event that isn't ready stops nothing.
    ///
    /// The events before a fault stand, and their entries. NoMemory comes when out of memory for an event
    /// that would be done.
    pub fn rounds(&mut self, count: u32) -> Result<(), EventFault>
        ensures plain { RecordsRounds self.old count result self.new }
        ensures handed { RecordsHanded Words.Zero self.old count result self.new }
    {
        self.rounds_watched(count, Words::Zero, &mut Unwatched)
    }

    /// The same with words that are handed to inputs in place of 0, those of each round behind those of the one before. Where an
    /// input puts random headers before packets, its word picks one. Each round that changed something is told of.
    pub fn rounds_watched<W: Watch>(
        &mut self,
        count: u32,
        words: Words,
        watch: &mut W,
    ) -> Result<(), EventFault>
        ensures { RecordsHanded words self.old count result self.new }
    {
        // The proof reads here what every plan keeps.
        let _plan = self.engine.plan();
        self.engine.rounds(count, words, &mut Unmetered, watch)
    }

    /// Does `count` fair rounds whose inputs are handed words, as `rounds_watched` does plain ones: of each switch the claims
    /// go by turns, first those of the input that was given an output longest ago, and of an input that of the output that was
    /// taken longest ago. Each claim that is done puts its input and its output behind all others in the turns.
    pub fn fair_rounds<W: Watch>(
        &mut self,
        count: u32,
        words: Words,
        turns: &mut Turns,
        watch: &mut W,
    ) -> Result<(), EventFault>
        ensures { RecordsFairly words self.old turns.old count result self.new turns.new }
    {
        // The proof reads here what every plan keeps.
        let _plan = self.engine.plan();
        self.engine
            .fair_rounds(count, words, turns, &mut Unmetered, watch)
    }

    /// Does one round whose inputs are handed words, tells a meter of each token that crosses a wire and of each that arrives,
    /// and tells whether any event of the round was done. Where none was, no further round would change anything.
    ///
    /// The events before a fault stand, and a meter was told of them.
    pub fn round_metered<M: Meter<T>>(
        &mut self,
        words: Words,
        meter: &mut M,
    ) -> Result<bool, EventFault>
        ensures recorded { RecordsRound words self.old result self.new }
        ensures metered { MetersRound T.kind M.sees words self.old meter.old result self.new meter.new }
    {
        // The proof reads here what every plan keeps.
        let _plan = self.engine.plan();
        self.engine.round(words, meter)
    }

    /// Does one fair round, as `round_metered` does a plain one.
    pub fn fair_round_metered<M: Meter<T>>(
        &mut self,
        words: Words,
        turns: &mut Turns,
        meter: &mut M,
    ) -> Result<bool, EventFault>
        ensures recorded { RecordsFairRound words self.old turns.old result self.new turns.new }
        ensures metered { MetersFairRound T.kind M.sees words self.old meter.old turns.old result self.new meter.new turns.new }
    {
        // The proof reads here what every plan keeps.
        let _plan = self.engine.plan();
        self.engine.fair_round(words, turns, meter)
    }
}
