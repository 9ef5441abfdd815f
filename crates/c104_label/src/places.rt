//! Where each switch stands in a tree.
ghost use Rattle.std.specs.Prelude.{MatchOption, None, Some, ◌+◌, ◌≡◌, ◌≤◌};
ghost use Rattle.c104_label.specs.{TreeLabels.{count_at, forest_labels, place, place_in, place_of, tree_labels}, Trees.forest_of};

use crate::forests::Forest;
use crate::numbers::{count_at, forest_labels};

/// Where a switch stands in a tree.
#[derive(Clone, Copy)]
pub(crate) struct Place<'a> {
    /// Its link to its parent. At the root, which has none, it is any.
    pub(crate) up: usize,
    /// The first label of its subtree.
    pub(crate) first: u32,
    /// The subtrees below it.
    pub(crate) below: &'a Forest,
}

/// Where a switch stands in the tree below a root, by the counts of the switches' own labels.
pub(crate) fn place_of<'a>(
    counts: &[u32],
    root: usize,
    forest: &'a Forest,
    switch: usize,
) -> Option<Place<'a>>
    requires room { tree_labels (count_at counts.now) root (forest_of forest.now) ≤ 65536 }
    ensures { MatchOption result
        (place_of (count_at counts.now) root (forest_of forest.now) switch ≡ None)
        (λ p. place_of (count_at counts.now) root (forest_of forest.now) switch
        ≡ Some (place p.up p.first (forest_of p.below.now))) }
{
    if switch == root {
        return Some(Place {
            up: 0,
            first: 0,
            below: forest,
        });
    }
    place_in(counts, switch, count_at(counts, root), forest)
}

/// Where a switch stands in subtrees whose labels begin at this one.
fn place_in<'a>(counts: &[u32], switch: usize, first: u32, forest: &'a Forest) -> Option<Place<'a>>
    requires room { first + forest_labels (count_at counts.now) (forest_of forest.now) ≤ 65536 }
    ensures { MatchOption result
        (place_in (count_at counts.now) switch first (forest_of forest.now) ≡ None)
        (λ p. place_in (count_at counts.now) switch first (forest_of forest.now)
        ≡ Some (place p.up p.first (forest_of p.below.now))) }
{
    match forest {
        Forest::Empty => None,
        Forest::Child(_, child, back, below, rest) => {
            if switch == *child {
                return Some(Place {
                    up: *back,
                    first,
                    below: below.as_ref(),
                });
            }
            let own = count_at(counts, *child);
            if let Some(place) = place_in(counts, switch, first + own, below.as_ref()) {
                return Some(place);
            }
            let end = first + (own + forest_labels(counts, below.as_ref()));
            place_in(counts, switch, end, rest.as_ref())
        }
    }
}
