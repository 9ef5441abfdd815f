//! The audit of lists.

use crate::calls::PLAN;
use crate::fabrics::left_after;
use crate::ground::{Ground, Suite, is_right_on};
use crate::growths::{Growing, Refusal, is_right};
use crate::outcomes::Outcome;
use c104_audit::audit_lists;
use c104_workers::Gathered;
use std::alloc::Global;

/// The lists of a run are audited. It fails where the audit takes a refusal for a fault of the lists.
#[derive(Drop)]
struct Auditing<'a>(&'a Gathered);

impl Growing for Auditing<'_> {
    fn call(&self, alloc: Global, refusal: Refusal) -> Outcome {
        let Ok(lists) = self.0.lists(alloc) else {
            return Outcome::Wrong;
        };
        refusal.begin(alloc);
        let result = audit_lists(alloc, &lists);
        refusal.end(alloc);
        Outcome::of(result)
    }
}

/// Lists of a network that has done events.
#[derive(Drop)]
struct AuditCalls;

impl Suite for AuditCalls {
    fn is_right(&self, rt: &HostRuntime, ground: Ground<'_>) -> bool {
        let Some(gathered) = left_after(rt.alloc(), ground, usize::MAX) else {
            return false;
        };
        let is_right = is_right(rt, "audit_lists", &Auditing(&gathered));
        gathered.retire();
        is_right
    }
}

#[test]
fn audits(rt: HostRuntime) {
    assert!(rt; is_right_on(&rt, PLAN, &AuditCalls));
}
