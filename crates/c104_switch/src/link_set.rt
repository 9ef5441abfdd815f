//! Sets of links.
ghost use Rattle.std.specs.Prelude.{false, true, ℕ, ◌&&◌, ◌<◌, ◌||◌, ◌≡◌, ◌≢◌};
ghost use Rattle.{c104_crossbar.specs.Groups.has_bit, c104_regs.specs.declared.registers.TheConstants.LINKS};
ghost use Rattle.c104_switch.specs.Claims.{IsNextLink};

use crate::LINKS;
use std::marker::Model;

/// A set of a switch's links, whose numbers are 0 to 31.
#[derive(Clone, Copy)]
pub struct LinkSet {
    // The bit of each link that is in the set.
    word: u32,
}

impl Model for LinkSet {
    ghost use Rattle.std.specs.Prelude.{ℕ};

    ghost Value = { ℕ };

    ghost view = { λ set. set.word };

    ghost inverse = { λ word. record { word = word } };
}

impl LinkSet {
    /// A set of no link.
    pub fn new() -> Self
        ensures { (l : ℕ) → has_bit result l ≡ false }
    {
        LinkSet { word: 0 }
    }

    /// A set of all links.
    pub fn all() -> Self
        ensures { (l : ℕ) → l < LINKS → has_bit result l ≡ true }
    {
        LinkSet { word: u32::MAX }
    }

    /// Puts a link into the set or takes it out. A switch has no link of number 32 or more.
    #[inline(always)]
    pub fn set(&mut self, link: usize, is_in: bool)
        ensures here { link < LINKS → has_bit self.new link ≡ is_in }
        ensures others { (l : ℕ) → l < LINKS → l ≢ link → has_bit self.new l ≡ has_bit self.old l }
    {
        if link >= LINKS {
            return;
        }
        if is_in {
            self.add(link);
        } else {
            self.remove(link);
        }
    }

    /// Puts a link into the set.
    #[inline(always)]
    fn add(&mut self, link: usize)
        requires { link < LINKS }
        ensures here { has_bit self.new link ≡ true }
        ensures others { (l : ℕ) → l < LINKS → l ≢ link → has_bit self.new l ≡ has_bit self.old l }
    {
        self.word |= 1u32 << link;
    }

    /// Takes a link out of the set.
    #[inline(always)]
    fn remove(&mut self, link: usize)
        requires { link < LINKS }
        ensures here { has_bit self.new link ≡ false }
        ensures others { (l : ℕ) → l < LINKS → l ≢ link → has_bit self.new l ≡ has_bit self.old l }
    {
        self.word &= !(1u32 << link);
    }

    /// Puts a link into the set, where this is so. Else nothing changes.
    #[inline(always)]
    pub(crate) fn add_if(&mut self, link: usize, is_so: bool)
        requires { link < LINKS }
        ensures here { has_bit self.new link ≡ (is_so || has_bit self.old link) }
        ensures others { (l : ℕ) → l < LINKS → l ≢ link → has_bit self.new l ≡ has_bit self.old l }
    {
        if is_so {
            self.add(link);
        }
    }

    /// Takes a link out of the set, unless this is so. Else nothing changes.
    #[inline(always)]
    pub(crate) fn remove_unless(&mut self, link: usize, is_so: bool)
        requires { link < LINKS }
        ensures here { has_bit self.new link ≡ (is_so && has_bit self.old link) }
        ensures others { (l : ℕ) → l < LINKS → l ≢ link → has_bit self.new l ≡ has_bit self.old l }
    {
        if !is_so {
            self.remove(link);
        }
    }

    /// Whether a link is in the set.
    #[inline(always)]
    pub fn has(&self, link: usize) -> bool
        requires { link < LINKS }
        ensures { result ≡ has_bit self.now link }
    {
        (self.word >> link) & 1 == 1
    }

    /// The links that are in this set and in another.
    #[inline(always)]
    pub fn both(self, other: LinkSet) -> LinkSet
        ensures { (l : ℕ) → has_bit result l ≡ (has_bit self l && has_bit other l) }
    {
        LinkSet {
            word: self.word & other.word,
        }
    }

    /// The next link, from this one on, that is in this set and in another.
    #[inline(always)]
    pub fn next(&self, from: usize, other: LinkSet) -> Option<usize>
        ensures { IsNextLink (λ l. has_bit self.now l && has_bit other l) from result }
    {
        if from >= LINKS {
            return None;
        }
        let left = self.word & other.word & (u32::MAX << from);
        if left == 0 {
            return None;
        }
        Some(left.trailing_zeros() as usize)
    }
}
