//! What is counted of rounds.
//!
//! Levels are those where a round is over: within a round they depend on the order of its events, which is this
//! emulator's. No more of a network is looked at than is printed, since a look at each port after each round costs more
//! than the round.
ghost use Rattle.std.specs.Prelude.{◌≡◌};
ghost use Rattle.c104_rows.specs.Rounds.{arrived_round, ended_round, later_round, moved_round, new_round, no_levels};

/// What there is in a network.
#[derive(Clone, Copy)]
pub struct Levels {
    /// Tokens that wait to leave their senders.
    pub waiting: u64,
    /// Tokens in switches, a header that is read or waits included, and those that came in at terminals and have yet to
    /// arrive.
    pub inside: u64,
    /// Outputs to which an input streams.
    pub held: u64,
}

/// What is counted of a round. What happens behind it and before the next counts to it.
#[derive(Clone, Copy)]
pub struct RoundRow {
    /// Its number, from 1; 0 stands for what happens before the first.
    pub round: u32,
    /// Tokens that crossed a wire.
    pub moved: u64,
    /// Tokens that arrived.
    pub arrived: u64,
    /// What there was before the next began.
    pub levels: Levels,
}

impl Levels {
    /// Nothing is there.
    pub fn new() -> Self
        ensures { result ≡ no_levels }
    {
        Levels {
            waiting: 0,
            inside: 0,
            held: 0,
        }
    }
}

impl RoundRow {
    /// A round that begins where this is there.
    pub(crate) fn new(round: u32, levels: Levels) -> Self
        ensures { result ≡ new_round round levels }
    {
        RoundRow {
            round,
            moved: 0,
            arrived: 0,
            levels,
        }
    }

    /// The round in which a token more crosses a wire.
    pub(crate) fn moved(self) -> Self
        ensures { result ≡ moved_round self }
    {
        RoundRow {
            moved: self.moved.saturating_add(1),
            ..self
        }
    }

    /// The round in which a token more arrives.
    pub(crate) fn arrived(self) -> Self
        ensures { result ≡ arrived_round self }
    {
        RoundRow {
            arrived: self.arrived.saturating_add(1),
            ..self
        }
    }

    /// The round that is this many later.
    pub(crate) fn later(self, times: u32) -> Self
        ensures { result ≡ later_round times self }
    {
        RoundRow {
            round: self.round.saturating_add(times),
            ..self
        }
    }

    /// The round behind which this is there.
    pub(crate) fn ended(self, levels: Levels) -> Self
        ensures { result ≡ ended_round levels self }
    {
        RoundRow { levels, ..self }
    }
}
