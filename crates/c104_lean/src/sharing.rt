//! Which shared network a value belongs to.

use std::marker::Brand;

/// The log of a shared network, and how its nodes stood. They lie behind locks, and nothing is known of what does
/// but what its type keeps: so these are a parameter of the type. It has no value: who shares a network picks [`Brand`], and says
/// in the proofs which log and which network that is.
pub trait Sharing {
    ghost use Rattle.{c104_lean.specs.Shared.Before, c104_tickets.specs.Tickets.TableId};

    ghost word: { TableId };

    ghost before: { Before };
}

impl Sharing for Brand {
    ghost use Rattle.{c104_lean.specs.Shared.nothing_shared, c104_turns.specs.FirstSeats.no_word};

    ghost word = { no_word };

    ghost before = { nothing_shared };
}
