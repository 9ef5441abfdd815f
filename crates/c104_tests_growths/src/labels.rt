//! Labels, their check, and the cycles of channel dependencies.
ghost use Rattle.c104_plan.specs.PlanImage.{Fits};

use crate::calls::{MESH, PLAN};
use crate::ground::{Ground, Suite, is_right_on};
use crate::growths::{Growing, Refusal, is_right};
use crate::outcomes::Outcome;
use c104_check::{
    CheckFault, Reach, channel_dependencies, check, find_cycle, find_mend, find_misstep,
    first_randomized,
};
use c104_label::{
    cube_tables, image_of, is_cube, is_mesh, label_cube, label_mesh, label_tree, label_up_down,
    mesh_tables, spanning_tree,
};
use c104_plan::{Image, Plan};
use std::alloc::Global;

/// A root with two children.
const TREE: &[u8] = b"switch A\nswitch B\nswitch C\nwire A.1 B.0\nwire A.2 C.5\n\
    terminal a A.3 labels 2\nterminal b B.4\nterminal c B.2 labels 3\nterminal d C.0\nlabel tree A\n";

/// Three switches in a ring.
const UP_DOWN: &[u8] = b"switch A\nswitch B\nswitch C\nwire A.1 B.0\nwire B.1 C.0\nwire C.1 A.0\n\
    terminal a A.2\nterminal b B.2\nterminal c C.2\nlabel up-down A\n";

/// Two switches with two wires, of which either may be the root.
const BY_ITSELF: &[u8] = b"switch A\nswitch B\nwire A.0 B.0\nwire A.1 B.1\nterminal a A.2\n\
    terminal b B.2\nlabel up-down\n";

/// Two leaves and a spine, whose form is known by the wires.
const FORM: &[u8] = b"clos 2 1 1\n";

const CUBE: &[u8] = b"cube 2 1\n";

/// Two terminals on one switch. What a sends to b comes back to a.
pub const REFUSED: &[u8] = b"switch A\nterminal a A.0\nterminal b A.1\n\
    row A.0 1 0\nrow A.0 2 0\nrow A.1 1 0\nrow A.1 2 1\n";

/// Who labels.
#[derive(Clone, Copy)]
enum Labeller {
    Any,
    Tree,
    UpDown,
    Mesh,
    Cube,
}

/// A plan is labelled.
#[derive(Drop)]
struct Labelling<'a>(&'a Plan, Labeller);

impl Growing for Labelling<'_> {
    fn call(&self, alloc: Global, refusal: Refusal) -> Outcome {
        refusal.begin(alloc);
        let result = match self.1 {
            Labeller::Any => image_of(alloc, self.0),
            Labeller::Tree => label_tree(alloc, self.0),
            Labeller::UpDown => label_up_down(alloc, self.0),
            Labeller::Mesh => label_mesh(alloc, self.0),
            Labeller::Cube => label_cube(alloc, self.0),
        };
        refusal.end(alloc);
        Outcome::of(result)
    }
}

/// The tables of a mesh are made.
#[derive(Drop)]
struct MeshTables;

impl Growing for MeshTables {
    fn call(&self, alloc: Global, refusal: Refusal) -> Outcome {
        if !is_mesh(2, 2, 1) {
            return Outcome::Wrong;
        }
        refusal.begin(alloc);
        let result = mesh_tables(alloc, 2, 2, 1);
        refusal.end(alloc);
        Outcome::of(result)
    }
}

/// The tables of a cube are made.
#[derive(Drop)]
struct CubeTables;

impl Growing for CubeTables {
    fn call(&self, alloc: Global, refusal: Refusal) -> Outcome {
        if !is_cube(2, 1) {
            return Outcome::Wrong;
        }
        refusal.begin(alloc);
        let result = cube_tables(alloc, 2, 1);
        refusal.end(alloc);
        Outcome::of(result)
    }
}

/// The tree by which a plan is labelled is found.
#[derive(Drop)]
struct Spanning<'a>(&'a Plan);

impl Growing for Spanning<'_> {
    fn call(&self, alloc: Global, refusal: Refusal) -> Outcome {
        if self.0.switches().is_empty() {
            return Outcome::Wrong;
        }
        refusal.begin(alloc);
        let result = spanning_tree(alloc, self.0, 0);
        refusal.end(alloc);
        Outcome::of(result)
    }
}

/// The labels of a plan are checked, whether they are accepted or not.
#[derive(Drop)]
struct Checking<'a>(Ground<'a>);

impl Growing for Checking<'_> {
    fn call(&self, alloc: Global, refusal: Refusal) -> Outcome {
        let (plan, image) = (self.0.plan, self.0.image);
        if !image.fits(plan) {
            return Outcome::Wrong;
        }
        refusal.begin(alloc);
        let result = check(alloc, plan, image);
        refusal.end(alloc);
        match result {
            Err(CheckFault::NoMemory) => Outcome::NoMemory,
            Ok(_) | Err(_) => Outcome::Done,
        }
    }
}

/// What is asked of labels.
#[derive(Clone, Copy)]
enum Question {
    Randomized,
    Reach,
    Cycle,
    Dependencies,
    Misstep,
    Mend,
}

/// Something is asked of the labels of a plan: of any, of accepted ones, or of refused ones.
#[derive(Drop)]
struct Asking<'a>(Ground<'a>, Question);

impl Growing for Asking<'_> {
    fn call(&self, alloc: Global, refusal: Refusal) -> Outcome {
        let (plan, image) = (self.0.plan, self.0.image);
        if !image.fits(plan) {
            return Outcome::Wrong;
        }
        match self.1 {
            Question::Randomized => randomized(alloc, refusal, plan, image),
            Question::Reach => reached(alloc, refusal, plan, image),
            Question::Cycle => searched(alloc, refusal, plan, image),
            Question::Dependencies => listed(alloc, refusal, plan, image),
            Question::Misstep => misstep(alloc, refusal, plan, image),
            Question::Mend => mend(alloc, refusal, plan, image),
        }
    }
}

fn randomized(alloc: Global, refusal: Refusal, plan: &Plan, image: &Image) -> Outcome
    requires { Fits image.now plan.now }
{
    refusal.begin(alloc);
    let result = first_randomized(alloc, plan, image);
    refusal.end(alloc);
    Outcome::of(result)
}

fn reached(alloc: Global, refusal: Refusal, plan: &Plan, image: &Image) -> Outcome
    requires { Fits image.now plan.now }
{
    refusal.begin(alloc);
    let found = match Reach::new(alloc, plan, image, 1) {
        Ok(reach) => Outcome::of(reach.refusal(alloc)),
        Err(fault) => Outcome::of_fault(&fault),
    };
    refusal.end(alloc);
    found
}

fn searched(alloc: Global, refusal: Refusal, plan: &Plan, image: &Image) -> Outcome
    requires { Fits image.now plan.now }
{
    if check(alloc, plan, image).is_err() {
        return Outcome::Wrong;
    }
    refusal.begin(alloc);
    let result = find_cycle(alloc, plan, image);
    refusal.end(alloc);
    Outcome::of(result)
}

fn listed(alloc: Global, refusal: Refusal, plan: &Plan, image: &Image) -> Outcome
    requires { Fits image.now plan.now }
{
    if check(alloc, plan, image).is_err() {
        return Outcome::Wrong;
    }
    refusal.begin(alloc);
    let result = channel_dependencies(alloc, plan, image);
    refusal.end(alloc);
    Outcome::of(result)
}

fn misstep(alloc: Global, refusal: Refusal, plan: &Plan, image: &Image) -> Outcome
    requires { Fits image.now plan.now }
{
    let Err(fault) = check(alloc, plan, image) else {
        return Outcome::Wrong;
    };
    refusal.begin(alloc);
    let result = find_misstep(alloc, plan, image, &fault);
    refusal.end(alloc);
    Outcome::of(result)
}

fn mend(alloc: Global, refusal: Refusal, plan: &Plan, image: &Image) -> Outcome
    requires { Fits image.now plan.now }
{
    let shown = match check(alloc, plan, image) {
        Err(CheckFault::WrongEnd(shown)) => shown,
        _ => return Outcome::Wrong,
    };
    refusal.begin(alloc);
    let result = find_mend(alloc, plan, image, &shown);
    refusal.end(alloc);
    Outcome::of(result)
}

/// The labeller of a description.
#[derive(Drop)]
struct LabellerCall(&'static str, Labeller);

impl Suite for LabellerCall {
    fn is_right(&self, rt: &HostRuntime, ground: Ground<'_>) -> bool {
        is_right(rt, self.0, &Labelling(ground.plan, self.1))
    }
}

/// The tree of a description.
#[derive(Drop)]
struct TreeCall;

impl Suite for TreeCall {
    fn is_right(&self, rt: &HostRuntime, ground: Ground<'_>) -> bool {
        is_right(rt, "spanning_tree", &Spanning(ground.plan))
    }
}

/// What is asked of accepted labels.
#[derive(Drop)]
struct AcceptedCalls;

impl Suite for AcceptedCalls {
    fn is_right(&self, rt: &HostRuntime, ground: Ground<'_>) -> bool {
        is_right(rt, "check", &Checking(ground))
            && is_right(rt, "find_cycle", &Asking(ground, Question::Cycle))
            && is_right(
                rt,
                "channel_dependencies",
                &Asking(ground, Question::Dependencies),
            )
            && is_right(
                rt,
                "first_randomized",
                &Asking(ground, Question::Randomized),
            )
            && is_right(
                rt,
                "Reach::new, Reach::refusal",
                &Asking(ground, Question::Reach),
            )
    }
}

/// What is asked of refused labels.
#[derive(Drop)]
struct RefusedCalls;

impl Suite for RefusedCalls {
    fn is_right(&self, rt: &HostRuntime, ground: Ground<'_>) -> bool {
        is_right(rt, "check of refused labels", &Checking(ground))
            && is_right(rt, "find_misstep", &Asking(ground, Question::Misstep))
            && is_right(rt, "find_mend", &Asking(ground, Question::Mend))
    }
}

#[test]
fn labellers(rt: HostRuntime) {
    for (name, text, labeller) in [
        ("image_of", CUBE, Labeller::Any),
        ("label_tree", TREE, Labeller::Tree),
        ("label_up_down", UP_DOWN, Labeller::UpDown),
        ("label_up_down by itself", BY_ITSELF, Labeller::UpDown),
        ("label_up_down by a form", FORM, Labeller::UpDown),
        ("label_mesh", MESH, Labeller::Mesh),
        ("label_cube", CUBE, Labeller::Cube),
    ] {
        assert!(rt; is_right_on(&rt, text, &LabellerCall(name, labeller)));
    }
    assert!(rt; is_right_on(&rt, TREE, &TreeCall));
}

#[test]
fn tables(rt: HostRuntime) {
    assert!(rt; is_right(&rt, "mesh_tables", &MeshTables));
    assert!(rt; is_right(&rt, "cube_tables", &CubeTables));
}

#[test]
fn accepted_labels(rt: HostRuntime) {
    assert!(rt; is_right_on(&rt, PLAN, &AcceptedCalls));
}

#[test]
fn refused_labels(rt: HostRuntime) {
    assert!(rt; is_right_on(&rt, REFUSED, &RefusedCalls));
}
