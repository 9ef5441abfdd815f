//! Descriptions, plans and images.
use crate::calls::{MESH, PLAN, drop_plan};
use crate::ground::{Ground, Suite, is_right_on};
use crate::growths::{Growing, Refusal, is_right, takes_none};
use crate::outcomes::{Fault, Outcome};
use c104_describe::{
    PlanFault, PlanFaultKind, cut_lines, cut_words, description_text, print_plan, read_description,
};
use c104_plan::{Image, Plan, hand_image};
use std::alloc::Global;

/// A description is read.
#[derive(Drop)]
struct Reading(&'static [u8]);

impl Growing for Reading {
    fn call(&self, alloc: Global, refusal: Refusal) -> Outcome {
        refusal.begin(alloc);
        let result = read_description(alloc, self.0);
        refusal.end(alloc);
        dropped(result)
    }
}

/// A line of a description that is refused.
const FAULT: PlanFault = PlanFault {
    line: 12,
    kind: PlanFaultKind::BadName,
};

/// What is done with texts.
#[derive(Clone, Copy)]
enum TextCall {
    /// A fault is told.
    Fault,
    /// A text is cut into lines.
    Lines,
    /// A line is cut into words.
    Words,
}

impl Growing for TextCall {
    fn call(&self, alloc: Global, refusal: Refusal) -> Outcome {
        refusal.begin(alloc);
        let found = match self {
            TextCall::Fault => Outcome::of(description_text(alloc, FAULT)),
            TextCall::Lines => Outcome::of(cut_lines(alloc, PLAN)),
            TextCall::Words => Outcome::of(cut_words(alloc, b"terminal a A.0 labels 2 from 3")),
        };
        refusal.end(alloc);
        found
    }
}

/// What is made of a plan.
#[derive(Clone, Copy)]
enum Made {
    /// Its description.
    Text,
    /// An image in which nothing is set.
    NewImage,
    /// The image of its own lines.
    OwnImage,
    /// The range of each terminal.
    Ranges,
    /// A copy.
    Copy,
}

/// Something is made of a plan.
#[derive(Drop)]
struct Making<'a>(&'a Plan, Made);

impl Growing for Making<'_> {
    fn call(&self, alloc: Global, refusal: Refusal) -> Outcome {
        refusal.begin(alloc);
        let found = match self.1 {
            Made::Text => Outcome::of(print_plan(alloc, self.0)),
            Made::NewImage => Outcome::of(Image::new(alloc, self.0)),
            Made::OwnImage => Outcome::of(hand_image(alloc, self.0)),
            Made::Ranges => Outcome::of(self.0.ranges(alloc)),
            Made::Copy => dropped(self.0.clone()),
        };
        refusal.end(alloc);
        found
    }
}

/// A register is set in an image, which a refused call leaves as it was.
#[derive(Drop)]
struct Setting<'a>(Ground<'a>);

impl Growing for Setting<'_> {
    fn call(&self, alloc: Global, refusal: Refusal) -> Outcome {
        let Ok(mut image) = hand_image(alloc, self.0.plan) else {
            return Outcome::Wrong;
        };
        refusal.begin(alloc);
        let result = image.set(0, 0x0145, 9);
        refusal.end(alloc);
        Outcome::of(result).if_kept(image.is_same(self.0.image))
    }
}

/// The labels of a terminal are set in an image.
#[derive(Drop)]
struct SettingRange<'a>(&'a Plan);

impl Growing for SettingRange<'_> {
    fn call(&self, alloc: Global, refusal: Refusal) -> Outcome {
        let Ok(mut image) = hand_image(alloc, self.0) else {
            return Outcome::Wrong;
        };
        refusal.begin(alloc);
        let is_set = image.set_range(0, 2, 3).is_ok() && image.set_range(0, 2, 0).is_err();
        refusal.end(alloc);
        Outcome::done_if(is_set && image.range(0) == Some((2, 3)))
    }
}

/// The plan by hand of an image.
#[derive(Drop)]
struct MakingRows<'a>(Ground<'a>);

impl Growing for MakingRows<'_> {
    fn call(&self, alloc: Global, refusal: Refusal) -> Outcome {
        if !self.0.image.fits(self.0.plan) {
            return Outcome::Wrong;
        }
        refusal.begin(alloc);
        let result = self.0.image.row_plan(alloc, self.0.plan);
        refusal.end(alloc);
        match result {
            Ok(Some(rows)) => {
                drop_plan(rows);
                Outcome::Done
            }
            Ok(None) => Outcome::Wrong,
            Err(fault) => Outcome::of_fault(&fault),
        }
    }
}

/// What a plan that was made came to, which is dropped.
fn dropped<F: Fault + Drop>(made: Result<Plan, F>) -> Outcome {
    match made {
        Ok(plan) => {
            drop_plan(plan);
            Outcome::Done
        }
        Err(fault) => Outcome::of_fault(&fault),
    }
}

#[test]
fn texts(rt: HostRuntime) {
    assert!(rt; is_right(&rt, "read_description", &Reading(PLAN)));
    assert!(rt; is_right(&rt, "read_description of a mesh", &Reading(MESH)));
    assert!(rt; is_right(&rt, "description_text", &TextCall::Fault));
    assert!(rt; is_right(&rt, "cut_lines", &TextCall::Lines));
    assert!(rt; is_right(&rt, "cut_words", &TextCall::Words));
}

/// What is made of plans, and an image that is changed. An image that set its register before its growth would be seen
/// here: it isn't the same after a refusal.
#[derive(Drop)]
struct PlanCalls;

impl Suite for PlanCalls {
    fn is_right(&self, rt: &HostRuntime, ground: Ground<'_>) -> bool {
        let plan = ground.plan;
        is_right(rt, "print_plan", &Making(plan, Made::Text))
            && is_right(rt, "Image::new", &Making(plan, Made::NewImage))
            && is_right(rt, "hand_image", &Making(plan, Made::OwnImage))
            && is_right(rt, "Plan::ranges", &Making(plan, Made::Ranges))
            && is_right(rt, "Plan::clone", &Making(plan, Made::Copy))
            && is_right(rt, "Image::set", &Setting(ground))
            && is_right(rt, "Image::row_plan", &MakingRows(ground))
            && takes_none(rt, "Image::set_range", &SettingRange(plan))
    }
}

#[test]
fn plans(rt: HostRuntime) {
    assert!(rt; is_right_on(&rt, PLAN, &PlanCalls));
}
