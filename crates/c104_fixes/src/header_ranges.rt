//! Which headers are labels of terminals or random headers, and which are free. Nothing is proved of it but that it is safe and
//! ends.
ghost use Rattle.std.specs.Prelude.{◌<◌};

use c104_plan::{LABELS, Plan, PlanRandom, header_values};

/// Where as many labels as a terminal's could begin, all of which are headers, no other terminal's, and not random: the
/// highest that is 0 or where another range ends. None where there is none.
pub(crate) fn free_first(plan: &Plan, number: usize) -> Option<u32> {
    let count = plan.terminals().get(number)?.count;
    let mut best = None;
    if is_free(plan, number, 0, count) {
        best = Some(0);
    }
    for other in plan.terminals() {
        let first = other.first.saturating_add(other.count);
        if first > best.unwrap_or(0) && is_free(plan, number, first, count) {
            best = Some(first);
        }
    }
    best
}

/// Whether `count` labels from `first` on are headers, no other terminal's, and not random.
fn is_free(plan: &Plan, number: usize, first: u32, count: u32) -> bool {
    let end = u64::from(first) + u64::from(count);
    if end > u64::from(header_values(plan.header())) {
        return false;
    }
    for (other, terminal) in plan.terminals().iter().enumerate() {
        let own_end = u64::from(terminal.first) + u64::from(terminal.count);
        if other != number && u64::from(terminal.first) < end && u64::from(first) < own_end {
            return false;
        }
    }
    !has_random(plan, first, end)
}

/// Whether a random header of any input is one of the labels from one to another.
fn has_random(plan: &Plan, first: u32, end: u64) -> bool {
    let headers = header_values(plan.header());
    for random in plan.randoms() {
        let base = u64::from(random.base % headers);
        let past = base + u64::from(random.range.max(1));
        let round = past.saturating_sub(u64::from(headers));
        if (base < end && u64::from(first) < past) || u64::from(first) < round {
            return true;
        }
    }
    false
}

/// The first label above a header that begins a range; where none does, the first number that is no label.
pub(crate) fn next_label(plan: &Plan, header: u32) -> u32 {
    let mut next = LABELS;
    for terminal in plan.terminals() {
        if header < terminal.first {
            next = next.min(terminal.first);
        }
    }
    next
}

/// The first header above a header with which the random ones of an input begin; where none does, the first number
/// that is no label.
pub(crate) fn next_random(plan: &Plan, header: u32) -> u32 {
    let headers = header_values(plan.header());
    let mut next = LABELS;
    for random in plan.randoms() {
        let first = random.base % headers;
        if header < first {
            next = next.min(first);
        }
    }
    next
}

/// The first number past a header that is no random header of a terminal, or a label with which a range begins.
pub(crate) fn end_of_randoms(plan: &Plan, terminal: usize, header: u32) -> u32 {
    let mut end = header.saturating_add(1);
    let Some(terminal) = plan.terminals().get(terminal) else {
        return end;
    };
    for random in plan.randoms() {
        if random.port.is_same(terminal.host_port()) {
            end = end.max(end_of_random(*random, header_values(plan.header()), header));
        }
    }
    end.min(next_label(plan, header))
}

/// The first number past a random header that is no random header of the input, with `headers` headers in all.
fn end_of_random(random: PlanRandom, headers: u32, header: u32) -> u32
    requires { 0 < headers }
{
    let before = headers - random.base % headers;
    let place = header.saturating_add(before) % headers;
    let left = random.range.max(1).saturating_sub(place);
    header.saturating_add(left).min(headers)
}
