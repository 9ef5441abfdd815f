//! A storm on the network of a plan.
ghost use Rattle.c104_plan.specs.PlanImage.{Fits};

use crate::calls::{PLAN, label_image};
use crate::ground::{Ground, growths_on};
use crate::growths::{Refusal, Sharing, is_told};
use crate::outcomes::Outcome;
use crate::written::{Page, SENDS, STORM_END, TWO_ANSWERS};
use c104_mistakes::Silent;
use c104_plan::{Image, Plan};
use c104_storm::{Allowance, Words, storm_plan};
use c104_stream::Halt;
use std::alloc::Global;
use std::sync::Wait;
use std::thread::Threads;

/// A storm by two workers. Out of memory answers to lines were written, and nothing of the storm.
#[derive(Drop)]
struct Storming;

impl Sharing for Storming {
    fn call<R: Threads + Wait + Sync>(
        &self,
        rt: &R,
        alloc: Global,
        ground: Ground<'_>,
        refusal: Refusal,
    ) -> Outcome {
        let Some(mut page) = Page::new(alloc) else {
            return Outcome::Wrong;
        };
        let Some(image) = label_image(alloc, ground.plan) else {
            return Outcome::Wrong;
        };
        if !image.fits(ground.plan) {
            return Outcome::Wrong;
        }
        refusal.begin(alloc);
        let ended = storm(rt, alloc, ground.plan, image, &mut page);
        refusal.end(alloc);
        page.judge(Outcome::of_run(ended), TWO_ANSWERS, STORM_END)
    }
}

fn storm<R: Threads + Wait + Sync>(
    rt: &R,
    alloc: Global,
    plan: &Plan,
    image: Image,
    page: &mut Page,
) -> Result<bool, Halt>
    requires { Fits image plan.now }
{
    let mut sends = SENDS;
    storm_plan(
        alloc,
        rt,
        2,
        Words::Zero,
        Allowance::Listed,
        plan,
        image,
        &mut sends,
        page,
        &mut Silent,
    )
}

#[test]
fn storms(rt: HostRuntime) {
    let growths = growths_on(&rt, rt.alloc(), PLAN, &Storming);
    assert!(rt; is_told(&rt, "storm_plan", growths));
}
