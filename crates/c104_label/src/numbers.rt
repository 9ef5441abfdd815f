//! How many labels terminals, switches and subtrees have.
ghost use Rattle.std.specs.{List.range_with_len, Prelude.{IfOk, slice_get, ◌*◌, ◌≡◌, ◌≤◌}};
ghost use Rattle.c104_label.specs.{Forests.ends_of, TreeImages.total_count, TreeLabels.{count_at, count_or_zero, forest_labels}};
ghost use Rattle.c104_label.specs.{TreeLabels.{labels_behind, labels_on, net_of, own_labels}, Trees.forest_of};
ghost use Rattle.{c104_plan.specs.Plans.IsPlan, c104_regs.specs.declared.registers.TheConstants.LINKS as LINK_COUNT};

use crate::forests::Forest;
use c104_plan::{Plan, Port};
use c104_regs::LINKS;
use std::alloc::{AllocError, Global};

/// How many labels a plan's terminals have in all.
pub(crate) fn label_sum(plan: &Plan) -> u32
    ensures { result ≡ total_count plan.now.terminals }
{
    let mut sum = 0;
    for terminal in plan.terminals() {
        sum += terminal.count;
    }
    sum
}

/// How many labels a terminal has. A number that no terminal has gives 0.
fn count_of(plan: &Plan, terminal: usize) -> u32
    ensures value { result ≡ count_or_zero (slice_get plan.now.terminals terminal) }
    ensures small { result ≤ 65536 }
{
    match plan.terminals().get(terminal) {
        Some(terminal) => terminal.count,
        None => 0,
    }
}

/// How many labels lie right at the far end of a switch's link: those of a terminal.
pub(crate) fn labels_behind(plan: &Plan, switch: usize, link: usize) -> u32
    ensures value { result ≡ labels_behind (net_of plan.now).counts (ends_of plan.now switch link) }
    ensures small { result ≤ 65536 }
{
    match plan.peer(Port::Switch(switch, link)) {
        Some(Port::Terminal(terminal)) => count_of(plan, terminal),
        Some(Port::Switch(_, _)) => 0,
        None => 0,
    }
}

/// How many labels the terminals on the first `links` links of a switch have.
pub(crate) fn labels_before(plan: &Plan, switch: usize, links: usize) -> u32
    requires { links ≤ LINK_COUNT }
    ensures value { result ≡ labels_on (net_of plan.now) switch (range_with_len 0 links) }
    ensures small { result ≤ 65536 * links }
{
    let mut sum = 0;
    for link in 0..links {
        sum += labels_behind(plan, switch, link);
    }
    sum
}

/// How many labels each switch has of its own, by number.
pub(crate) fn own_counts(alloc: Global, plan: &Plan) -> Result<Vec<u32>, AllocError>
    ensures counts { IfOk result (λ counts. count_at counts.items ≡ own_labels (net_of plan.now)) }
    ensures kept { IsPlan plan.now }
{
    let mut counts = Vec::new(alloc);
    for switch in 0..plan.switches().len() {
        counts.push(labels_before(plan, switch, LINKS))?;
    }
    Ok(counts)
}

/// The count of a switch. A number past the last gives 0.
#[tactic(auto, unfolding(crate::specs::TreeLabels::count_at))]
pub(crate) fn count_at(counts: &[u32], switch: usize) -> u32
    ensures { result ≡ count_at counts.now switch }
{
    match counts.get(switch) {
        Some(count) => *count,
        None => 0,
    }
}

/// How many labels subtrees have, by the counts of the switches' own.
pub(crate) fn forest_labels(counts: &[u32], forest: &Forest) -> u32
    requires { forest_labels (count_at counts.now) (forest_of forest.now) ≤ 65536 }
    ensures { result ≡ forest_labels (count_at counts.now) (forest_of forest.now) }
{
    match forest {
        Forest::Empty => 0,
        Forest::Child(_, switch, _, below, rest) => {
            let own = count_at(counts, *switch);
            let below = forest_labels(counts, below.as_ref());
            let rest = forest_labels(counts, rest.as_ref());
            own + below + rest
        }
    }
}
