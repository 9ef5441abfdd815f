//! How much the workers of a storm may do.
ghost use Rattle.std.specs.Prelude.{◌≤◌};
ghost use Rattle.c104_tickets.specs.declared.TheConstants.{TICKET_LIMIT};

use c104_tickets::TICKET_LIMIT;

/// How many events a worker may do where a storm is as the specification has it: as many as a seat of a fabric keeps calls.
const LISTED: u64 = 1_048_576;

/// The turns that workers do before it is asked whether all is quiet, where a storm is as the specification has it.
const TURNS: u32 = 64;

/// The turns where it isn't: threads that begin one after another are at work together for most of these.
const MANY_TURNS: u32 = 16_384;

/// How many events each worker of a storm may do.
#[derive(Clone, Copy, Debug, PartialEq, Eq)]
pub enum Allowance {
    /// As many as a seat of a fabric keeps calls: 1,048,576. All workers are asked after each 64 turns whether all is quiet.
    Listed,
    /// 2⁴⁰, which no worker reaches. They are asked after 16,384 turns, or when none of them has anything to do.
    Counted,
}

impl Allowance {
    /// The number of events.
    pub(crate) fn events(self) -> u64
        ensures { result ≤ TICKET_LIMIT }
    {
        match self {
            Allowance::Listed => LISTED,
            Allowance::Counted => TICKET_LIMIT,
        }
    }

    /// How many turns workers do before it is asked again.
    pub(crate) fn turns(self) -> u32 {
        match self {
            Allowance::Listed => TURNS,
            Allowance::Counted => MANY_TURNS,
        }
    }
}
