//! Whose turn it is at the switches of a network, for fair rounds.
ghost use Rattle.std.specs.Prelude.{Some, [], length, remove, replicate, slice_get, slice_index, slice_set, ℕ, ◌++◌, ◌<◌, ◌∷◌, ◌≡◌};
ghost use Rattle.std.specs.Prelude.{◌≢◌, ◌≤◌};
ghost use Rattle.{c104_plan.specs.declared.limits.TheConstants.MAX_SWITCHES, c104_regs.specs.declared.registers.TheConstants.LINKS};
ghost use Rattle.c104_run.specs.{FairRounds.{first_turns, served, to_back, turns_of}, LinkOrders.IsOrder, Rounds.link_numbers};

use c104_plan::MAX_SWITCHES;
use c104_switch::LINKS;
use std::marker::Model;

/// The links of a switch in the order in which they were served: the one that was served longest ago is the first.
#[derive(Clone, Copy)]
pub struct Order {
    links: [u8; LINKS],
}

impl Model for Order {
    ghost use Rattle.c104_run.specs.LinkOrders.{IsOrder};
    ghost use Rattle.std.specs.Prelude.{List, ℕ};

    ghost Value = { List ℕ };

    ghost view = { λ order. order.links };

    ghost invariant = { λ order. IsOrder order.links };

    ghost inverse = { λ links. record { links = links } };
}

impl Order {
    /// The order before any link was served: by their numbers.
    fn first() -> Self
        ensures { result ≡ link_numbers }
    {
        let mut links = [0u8; LINKS];
        for link in 0..LINKS {
            links[link] = link as u8;
        }
        Order { links }
    }

    /// The link at a position.
    #[inline(always)]
    pub(crate) fn link(&self, position: usize) -> usize
        requires { position < LINKS }
        ensures is { slice_get self.now position ≡ Some result }
        ensures inside { result < LINKS }
        ensures order { IsOrder self.now }
    {
        usize::from(self.links[position])
    }

    /// A link is served: it goes behind all others.
    fn serve(&mut self, link: usize)
        ensures { self.new ≡ to_back link self.old }
    {
        let position = self.position(link);
        if position < LINKS {
            move_to_end(&mut self.links, position);
        }
    }

    /// The first position of a link, and 32 where it isn't there.
    #[inline(always)]
    fn position(&self, link: usize) -> usize
        ensures inside { result ≤ LINKS }
        ensures before { (k : ℕ) → k < result → slice_index self.now k ≢ link }
        ensures found { result < LINKS → slice_index self.now result ≡ link }
    {
        for (position, other) in self.links.iter().enumerate() {
            if usize::from(*other) == link {
                return position;
            }
        }
        LINKS
    }
}

/// Moves an element behind all others.
fn move_to_end(links: &mut [u8], position: usize)
    requires { position < length links.old }
    ensures { links.new ≡ remove links.old position ++ slice_index links.old position ∷ [] }
{
    links[position..].rotate_left(1);
}

/// Whose turn it is at a switch.
#[derive(Clone, Copy)]
pub struct SwitchTurns {
    /// The inputs, by when a packet of theirs was given an output last.
    pub inputs: Order,
    /// The outputs, by when they were taken last.
    pub outputs: Order,
}

impl SwitchTurns {
    /// Before any link was served.
    fn first() -> Self
        ensures { result ≡ first_turns }
    {
        SwitchTurns {
            inputs: Order::first(),
            outputs: Order::first(),
        }
    }

    /// An input is given an output.
    fn serve(&mut self, input: usize, output: usize)
        ensures { self.new ≡ served input output self.old }
    {
        self.inputs.serve(input);
        self.outputs.serve(output);
    }
}

/// Whose turn it is at each switch of a network.
#[derive(Clone, Drop)]
pub struct Turns {
    switches: [SwitchTurns; MAX_SWITCHES],
}

impl Model for Turns {
    ghost use Rattle.std.specs.Prelude.{List, length, ℕ, ◌≡◌};
    ghost use Rattle.{c104_plan.specs.declared.limits.TheConstants.MAX_SWITCHES, c104_run.specs.declared.turns.SwitchTurns.SwitchTurns};

    ghost Value = { List SwitchTurns };

    ghost view = { λ turns. turns.switches };

    ghost use Rattle.c104_run.specs.{FairRounds.{turns_of}, LinkOrders.{IsOrder}};

    ghost invariant = { λ turns.
        (length turns.switches ≡ MAX_SWITCHES)
        × ((s : ℕ) → IsOrder (turns_of turns.switches s).inputs × IsOrder (turns_of turns.switches s).outputs) };

    ghost inverse = { λ switches. record { switches = switches } };
}

impl Turns {
    /// Before any link was served.
    pub fn first() -> Self
        ensures { result ≡ replicate MAX_SWITCHES first_turns }
    {
        Turns {
            switches: [SwitchTurns::first(); MAX_SWITCHES],
        }
    }

    /// Whose turn it is at a switch.
    #[inline(always)]
    pub(crate) fn of(&self, switch: usize) -> SwitchTurns
        ensures is { result ≡ turns_of self.now switch }

        // Whichever switch is asked for, the orders of all have each of the links.
        ensures orders { (s : ℕ) → IsOrder (turns_of self.now s).inputs × IsOrder (turns_of self.now s).outputs }
    {
        match self.switches.get(switch) {
            Some(turns) => *turns,
            None => SwitchTurns::first(),
        }
    }

    /// An input of a switch is given an output. Of a switch past the last nothing changes.
    pub(crate) fn serve(&mut self, switch: usize, input: usize, output: usize)
        ensures { self.new ≡ slice_set self.old switch (served input output (turns_of self.old switch)) }
    {
        if switch < MAX_SWITCHES {
            let mut turns = self.of(switch);
            turns.serve(input, output);
            self.switches[switch] = turns;
        }
    }
}
