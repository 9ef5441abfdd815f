//! Groups of links.
ghost use Rattle.std.specs.Prelude.{◌≡◌, ◌+◌, ◌<◌, ◌≤◌, ◌&&◌, ℕ, false, true, nat_le};
ghost use Rattle.c104_crossbar.specs.Groups.{AreMembers, IgnoresLinkZero, IsGroup, IsOnlyGroup, has_bit};

use crate::LINKS;

/// A group of links: the links from the first to the last, with both.
#[derive(Clone, Copy, Debug, PartialEq, Eq)]
pub struct Group {
    /// The number of the lowest link, 0 to 31 in a group that `of` gives.
    pub first: usize,
    /// The number of the highest link, 0 to 31 in a group that `of` gives.
    pub last: usize,
}

impl Group {
    /// The group of a link, whose number is 0 to 31: the largest run of links that has the link and
    /// in which each link after the first has its bit set in the word. Link 0's bit has no effect.
    pub fn of(continues: u32, link: usize) -> Group
        requires { link < LINKS }
        ensures group { IsGroup (has_bit continues) link result.first result.last }
        ensures members { AreMembers (has_bit continues) link result.first result.last }
        ensures unique { IsOnlyGroup (has_bit continues) link result.first result.last }
        ensures zero { IgnoresLinkZero (has_bit continues) link result.first result.last }
    {
        Group {
            first: first_of(continues, link),
            last: last_of(continues, link),
        }
    }

    /// Whether a link is in the group.
    pub fn contains(&self, link: usize) -> bool
        ensures { result ≡ (nat_le self.now.first link && nat_le link self.now.last) }
    {
        self.first <= link && link <= self.last
    }
}

// The first link of the group of a link.
fn first_of(continues: u32, link: usize) -> usize
    requires { link < LINKS }
    ensures below { result ≤ link }
    ensures joined { (o : ℕ) → result < o → o ≤ link → has_bit continues o ≡ true }
    ensures largest { 0 < result → has_bit continues result ≡ false }
{
    // The links up to this one that continue no group. Link 0 is always one.
    let begins = (!continues | 1) & (u32::MAX >> (LINKS - 1 - link));
    LINKS - 1 - begins.leading_zeros() as usize
}

// The last link of the group of a link.
fn last_of(continues: u32, link: usize) -> usize
    requires { link < LINKS }
    ensures above { link ≤ result }
    ensures within { result < LINKS }
    ensures joined { (o : ℕ) → link < o → o ≤ result → has_bit continues o ≡ true }
    ensures largest { result + 1 < LINKS → has_bit continues (result + 1) ≡ false }
{
    // The links after this one, from the lowest bit on.
    let after = continues >> link >> 1;
    link + after.trailing_ones() as usize
}
