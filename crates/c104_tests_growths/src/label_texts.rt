//! The texts that commands print of labels, and what people are told of them.
use crate::calls::{MESH, PLAN};
use crate::ground::{Ground, Suite, is_right_on};
use crate::growths::{Growing, Refusal, is_right};
use crate::labels::REFUSED;
use crate::outcomes::Outcome;
use c104_check::check;
use c104_commands::{
    boot_commands, check_advice, check_fault_text, checked_text, cycle_advice, image_text,
    plan_without, shown_rows,
};
use c104_label::{LabelFault, image_of};
use c104_mistakes::Silent;
use c104_plan::Plan;
use c104_setup::label_fault_text;
use std::alloc::Global;

/// A text of the labels of a plan, which are accepted.
#[derive(Clone, Copy)]
enum Text {
    /// The image.
    Image,
    /// What `label --rows` prints of it.
    Shown,
    /// What `check` prints of it.
    Checked,
    /// The control commands that load it.
    Boot,
    /// Whether packets can wait for one another forever.
    Cycles,
}

/// A text is made of accepted labels.
#[derive(Drop)]
struct Telling<'a>(&'a Plan, Text);

impl Growing for Telling<'_> {
    fn call(&self, alloc: Global, refusal: Refusal) -> Outcome {
        let Ok(image) = image_of(alloc, self.0) else {
            return Outcome::Wrong;
        };
        if check(alloc, self.0, &image).is_err() {
            return Outcome::Wrong;
        }
        refusal.begin(alloc);
        let found = match self.1 {
            Text::Image => Outcome::of(image_text(alloc, self.0, &image)),
            Text::Shown => Outcome::of(shown_rows(alloc, self.0, &image, None)),
            Text::Checked => Outcome::of(checked_text(alloc, self.0, &image, &mut Silent)),
            Text::Boot => Outcome::of(boot_commands(alloc, &image)),
            Text::Cycles => Outcome::of(cycle_advice(alloc, self.0, &image)),
        };
        refusal.end(alloc);
        found
    }
}

/// What is told of labels that are refused.
#[derive(Clone, Copy)]
enum Refused {
    /// Why.
    Fault,
    /// What would mend it.
    Advice,
}

/// Something is told of refused labels.
#[derive(Drop)]
struct Refusing<'a>(&'a Plan, Refused);

impl Growing for Refusing<'_> {
    fn call(&self, alloc: Global, refusal: Refusal) -> Outcome {
        let Ok(image) = image_of(alloc, self.0) else {
            return Outcome::Wrong;
        };
        let Err(fault) = check(alloc, self.0, &image) else {
            return Outcome::Wrong;
        };
        refusal.begin(alloc);
        let found = match self.1 {
            Refused::Fault => Outcome::of(check_fault_text(alloc, self.0, &fault)),
            Refused::Advice => Outcome::of(check_advice(alloc, self.0, &image, &fault)),
        };
        refusal.end(alloc);
        found
    }
}

/// The plan without the first of its wires is made.
#[derive(Drop)]
struct Cutting<'a>(&'a Plan);

impl Growing for Cutting<'_> {
    fn call(&self, alloc: Global, refusal: Refusal) -> Outcome {
        if self.0.wires().is_empty() {
            return Outcome::Wrong;
        }
        refusal.begin(alloc);
        let left = plan_without(alloc, self.0, 0);
        refusal.end(alloc);
        Outcome::of(left)
    }
}

/// A fault of a labeller is told.
#[derive(Drop)]
struct TellingFault;

impl Growing for TellingFault {
    fn call(&self, alloc: Global, refusal: Refusal) -> Outcome {
        refusal.begin(alloc);
        let result = label_fault_text(alloc, LabelFault::NotConnected);
        refusal.end(alloc);
        Outcome::of(result)
    }
}

/// Texts of accepted labels.
#[derive(Drop)]
struct AcceptedTexts;

impl Suite for AcceptedTexts {
    fn is_right(&self, rt: &HostRuntime, ground: Ground<'_>) -> bool {
        is_right(rt, "image_text", &Telling(ground.plan, Text::Image))
            && is_right(rt, "shown_rows", &Telling(ground.plan, Text::Shown))
            && is_right(rt, "checked_text", &Telling(ground.plan, Text::Checked))
            && is_right(rt, "boot_commands", &Telling(ground.plan, Text::Boot))
            && is_right(rt, "cycle_advice", &Telling(ground.plan, Text::Cycles))
    }
}

/// Texts of refused labels.
#[derive(Drop)]
struct RefusedTexts;

impl Suite for RefusedTexts {
    fn is_right(&self, rt: &HostRuntime, ground: Ground<'_>) -> bool {
        is_right(
            rt,
            "check_fault_text",
            &Refusing(ground.plan, Refused::Fault),
        ) && is_right(rt, "check_advice", &Refusing(ground.plan, Refused::Advice))
    }
}

/// Plans without wires.
#[derive(Drop)]
struct CutPlans;

impl Suite for CutPlans {
    fn is_right(&self, rt: &HostRuntime, ground: Ground<'_>) -> bool {
        is_right(rt, "plan_without", &Cutting(ground.plan))
    }
}

#[test]
fn label_texts(rt: HostRuntime) {
    assert!(rt; is_right_on(&rt, PLAN, &AcceptedTexts));
    assert!(rt; is_right_on(&rt, REFUSED, &RefusedTexts));
    assert!(rt; is_right_on(&rt, MESH, &CutPlans));
    assert!(rt; is_right(&rt, "label_fault_text", &TellingFault));
}
