//! The depth-first tree of a plan's switches.
ghost use Rattle.std.specs.Prelude.{◌≡◌, ◌<◌, ◌≤◌, ◌-◌, ◌++◌, ◌∷◌, ℕ, [], false, length, true, IfErr, IfOk, MatchOption, OnOk};
ghost use Rattle.std.specs.List.{range_with_len};
ghost use Rattle.c104_regs.specs.declared.registers.TheConstants.{LINKS as LINK_COUNT};
ghost use Rattle.c104_label.specs.Forests.{AreSwitches, Grown, IsConnected, IsDepthFirst, IsSpanning, ends_of, is_met, switches};
ghost use Rattle.c104_label.specs.Trees.{IsTreeCause, forest_of, unvisited};

use crate::faults::LabelFault;
use c104_plan::{Plan, Port};
use c104_regs::LINKS;
use std::alloc::{AllocError, Global};

/// The subtrees behind a switch's links, in the order of the links.
#[derive(Drop)]
pub enum Forest {
    /// There is none.
    Empty,
    /// This link leads to the switch of this number, whose link back to here comes next, then the subtrees
    /// below that switch, and then the other subtrees here.
    Child(usize, usize, usize, Box<Forest>, Box<Forest>),
}

/// The far end of a link between switches.
#[derive(Clone, Copy)]
struct FarEnd {
    /// The switch there.
    switch: usize,
    /// Its link.
    back: usize,
}

/// The depth-first tree of a plan's switches from a root, a switch of the plan: the subtrees below the root.
///
/// A switch's links are taken in ascending order, and where a wire on one leads to a switch that wasn't
/// visited, that one is visited first. NotConnected exactly where wires don't lead from the root to each
/// switch.
pub fn spanning_tree(alloc: Global, plan: &Plan, root: usize) -> Result<Forest, LabelFault>
    requires { root < length plan.now.switches }
    ensures tree { IfOk result (λ forest. IsSpanning plan.now root (forest_of forest)) }
    ensures connected { IfOk result (λ _. IsConnected plan.now root) }
    ensures refused { IfErr result (IsTreeCause plan.now root) }
{
    let mut seen = Vec::new(alloc);
    let forest = tree_from(alloc, plan, root, &mut seen)?;
    if first_missing(&seen, plan.switches().len()).is_some() {
        return Err(LabelFault::NotConnected);
    }
    Ok(forest)
}

/// The depth-first tree from a root, and the switches that it has in the order in which they are visited.
fn tree_from(
    alloc: Global,
    plan: &Plan,
    root: usize,
    seen: &mut Vec<usize>,
) -> Result<Forest, AllocError>
    requires root { root < length plan.now.switches }
    requires none { seen.old.items ≡ [] }
    ensures tree { IfOk result (λ f. IsDepthFirst (ends_of plan.now) root (forest_of f)) }
    ensures visited { IfOk result (λ f. seen.new.items ≡ root ∷ switches (forest_of f)) }
{
    add(seen, root)?;
    visit(alloc, plan, root, 0, seen)
}

/// Visits what lies behind the links of a switch from this one on.
fn visit(
    alloc: Global,
    plan: &Plan,
    at: usize,
    link: usize,
    seen: &mut Vec<usize>,
) -> Result<Forest, AllocError>
    requires switch { at < length plan.now.switches }
    requires link { link ≤ LINK_COUNT }
    requires visited { AreSwitches (length plan.now.switches) seen.old.items }
    ensures grown { IfOk result (λ f. Grown (ends_of plan.now) seen.old.items at
        (range_with_len link (LINK_COUNT - link)) (forest_of f)) }
    ensures visited { IfOk result (λ f. seen.new.items ≡ seen.old.items ++ switches (forest_of f)) }
{
    if link == LINKS {
        return Ok(Forest::Empty);
    }
    let Some(next) = unvisited(plan.peer(Port::Switch(at, link)), seen) else {
        return visit(alloc, plan, at, link + 1, seen);
    };
    add(seen, next.switch)?;
    let below = visit(alloc, plan, next.switch, 0, seen)?;
    let below = Box::new(alloc, below)?;
    let rest = visit(alloc, plan, at, link + 1, seen)?;
    let rest = Box::new(alloc, rest)?;
    Ok(Forest::Child(link, next.switch, next.back, below, rest))
}

/// The switch of a link's far end, if there is one and it wasn't visited.
fn unvisited(far: Option<Port>, seen: &Vec<usize>) -> Option<FarEnd>
    ensures { result ≡ unvisited far seen.now.items }
{
    match far {
        Some(Port::Switch(switch, back)) => {
            if is_visited(seen, switch) {
                None
            } else {
                Some(FarEnd { switch, back })
            }
        }
        Some(Port::Terminal(_)) => None,
        None => None,
    }
}

/// The first of `switches` switches that wasn't visited.
fn first_missing(seen: &Vec<usize>, switches: usize) -> Option<usize>
    ensures { MatchOption result ((s : ℕ) → s < switches → is_met seen.now.items s ≡ true)
        (λ missing. (missing < switches) × (is_met seen.now.items missing ≡ false)) }
{
    for switch in 0..switches {
        if !is_visited(seen, switch) {
            return Some(switch);
        }
    }
    None
}

/// Whether a switch was visited.
fn is_visited(seen: &Vec<usize>, switch: usize) -> bool
    ensures { result ≡ is_met seen.now.items switch }
{
    seen.iter().any(|other| switch == *other)
}

/// Notes that a switch was visited.
fn add(seen: &mut Vec<usize>, switch: usize) -> Result<(), AllocError>
    ensures { OnOk result (seen.new.items ≡ seen.old.items ++ switch ∷ []) }
{
    seen.push(switch)?;
    Ok(())
}
