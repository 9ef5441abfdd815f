//! Which fabric a value belongs to.

use std::marker::Brand;

/// The word of tickets and the network of a fabric. Its nodes lie behind locks, and nothing is known of what does but what its
/// type keeps: so these are a parameter of the type. It has no value: who makes a fabric picks [`Brand`], and says in the
/// proofs which word and which network that is.
pub trait Naming {
    ghost use Rattle.c104_tickets.specs.Tickets.{TableId};
    ghost use Rattle.c104_workers.specs.Fabrics.{Handed};

    ghost word: { TableId };

    ghost handed: { Handed };
}

impl Naming for Brand {
    ghost use Rattle.{c104_turns.specs.FirstSeats.no_word, c104_workers.specs.Fabrics.nothing_handed};

    ghost word = { no_word };

    ghost handed = { nothing_handed };
}
