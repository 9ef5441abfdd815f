//! Which places of a network may begin something of a round.
//!
//! The set lasts from round to round, so that rounds done one by one walk no more places than `rounds` does. Any other
//! change of the network puts all places back.
ghost use Rattle.std.specs.Prelude.{◌≡◌, ◌≢◌, ◌<◌, ◌≤◌, ℕ, false, true, unwrap_or, IfSome};
ghost use Rattle.c104_run.specs.LivePlaces.{is_live, told_places};

use c104_switch::{LINKS, LinkSet};
use std::marker::Model;

/// How many words a set has: there is a bit for each place of the largest plan, with 64 switches and 256 terminals.
const BLOCKS: usize = 10;

/// After how many rounds the places are asked anew.
const ROUNDS_TO_SETTLE: u8 = 8;

/// How many places are told apart.
const PLACES: usize = 320;

/// A set of places, the switches of a plan in order and then its terminals. A place past the last of the largest plan
/// counts as one of it.
///
/// Rounds keep in it the places at which something may begin: what isn't in it is passed over and not asked.
#[derive(Drop)]
pub struct LivePlaces {
    // Place k has bit k % 32 of word k / 32.
    blocks: [LinkSet; BLOCKS],
    // Whether it is known that all places are in the set: then it is walked without a look at bits, which is most of what
    // a small network at work would lose by the set.
    is_all: bool,
    // How many rounds ago the places were asked last.
    age: u8,
}

impl Model for LivePlaces {
    ghost use Rattle.std.specs.Prelude.{◌≡◌, List, length, true, ℕ};
    ghost use Rattle.c104_run.specs.LivePlaces.{is_live};

    ghost Value = { List ℕ };

    ghost view = { λ live. live.blocks };

    ghost invariant = { λ live.
        (length live.blocks ≡ 10) × (live.is_all ≡ true → (k : ℕ) → is_live live.blocks k ≡ true) };
}

impl LivePlaces {
    /// The set of all places.
    pub fn all() -> Self
        ensures { (k : ℕ) → is_live result k ≡ true }
    {
        LivePlaces {
            blocks: [LinkSet::all(); BLOCKS],
            is_all: true,
            age: 0,
        }
    }

    /// The set of no place, but for those that aren't told apart.
    #[inline(always)]
    pub fn none() -> Self {
        LivePlaces {
            blocks: [LinkSet::new(); BLOCKS],
            is_all: false,
            age: 0,
        }
    }

    /// Counts a round, and tells whether the places are to be asked anew of which it is known that something may begin
    /// there.
    pub fn is_due(&mut self) -> bool
        ensures { self.new ≡ self.old }
    {
        self.age = self.age.wrapping_add(1) % ROUNDS_TO_SETTLE;
        self.age == 0
    }

    /// Puts all places into the set.
    pub fn fill(&mut self)
        ensures { (k : ℕ) → is_live self.new k ≡ true }
    {
        *self = LivePlaces::all();
    }

    /// Puts a place into the set.
    #[inline(always)]
    pub fn add(&mut self, place: usize)
        ensures here { is_live self.new place ≡ true }
        ensures others { (k : ℕ) → k ≢ place → is_live self.new k ≡ is_live self.old k }
    {
        if self.is_all {
            return;
        }
        if place >= PLACES {
            return;
        }
        let block = &mut self.blocks[place / LINKS];
        block.set(place % LINKS, true);
    }

    /// Puts a place into the set where this is so.
    #[inline(always)]
    pub fn add_if(&mut self, place: usize, is: bool)
        ensures here { is ≡ true → is_live self.new place ≡ true }
        ensures others { (k : ℕ) → k ≢ place → is_live self.new k ≡ is_live self.old k }
    {
        if is {
            self.add(place);
        }
    }

    /// Takes a place out of the set, if it is told apart.
    pub fn remove(&mut self, place: usize)
        ensures { (k : ℕ) → k ≢ place → is_live self.new k ≡ is_live self.old k }
    {
        if place >= PLACES {
            return;
        }
        self.is_all = false;
        let block = &mut self.blocks[place / LINKS];
        block.set(place % LINKS, false);
    }

    /// The next place of the set, from this one on and below another.
    #[inline(always)]
    pub fn next(&self, from: usize, below: usize) -> Option<usize>
        requires { below ≤ told_places }
        ensures passed { (k : ℕ) → from ≤ k → k < unwrap_or result below → is_live self.now k ≡ false }
        ensures found { IfSome result (λ k. (from ≤ k) × (k < below) × (is_live self.now k ≡ true)) }
    {
        if self.is_all {
            if from < below {
                return Some(from);
            }
            return None;
        }
        let mut at = from;
        while at < below {
            let block = self.blocks[at / LINKS];
            let first = at - at % LINKS;
            match block.next(at % LINKS, block) {
                Some(link) if first + link < below => return Some(first + link),
                Some(_) => return None,
                None => at = first + LINKS,
            }
        }
        None
    }
}
