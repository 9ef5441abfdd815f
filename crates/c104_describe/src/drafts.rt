//! What the lines of a description have said so far.
//!
//! Beside `label` ranges run on while lines are read, as if they were to be kept: so labels past 65535 are TooMany
//! whichever of the lines comes first.
ghost use Rattle.std.specs.Prelude.{IfOk, map, ◌≡◌};
ghost use Rattle.c104_describe.specs.{PlanDrafts.{asks_tree, draft_of, excludes_groups, finished, is_mixed, says_from}, PlanText.empty_draft};
ghost use Rattle.c104_plan.specs.{PlanParts.plan_of, Plans.IsPlan};

use crate::shared::{Shared, write_out};
use crate::words::{Keyword, read_range};
use c104_plan::{Parts, Plan, Shape};
use std::alloc::{AllocError, Global};

/// The parts of a plan, and what was said that may be said once and that they don't show.
#[derive(Drop)]
pub(crate) struct Draft {
    pub(crate) parts: Parts,
    /// The lines that name a switch and no link of it.
    pub(crate) shared: Shared,
    /// Whether a line has given the length of headers.
    pub(crate) header_said: bool,
    /// Whether a line has given the size of buffers.
    pub(crate) buffer_said: bool,
    /// Whether a line has said where the range of a terminal begins.
    pub(crate) from_said: bool,
    /// The shape as which a line asks the plan to be labelled, with its root if that is named.
    pub(crate) labels: Option<Shape>,
}

impl Draft {
    /// The draft of no line.
    pub(crate) fn new(alloc: Global) -> Result<Self, AllocError>
        ensures { IfOk result (λ draft. draft_of draft ≡ empty_draft) }
    {
        let parts = Parts::new(alloc)?;
        Ok(Draft {
            parts,
            shared: Shared::new(alloc),
            header_said: false,
            buffer_said: false,
            from_said: false,
            labels: None,
        })
    }

    /// Whether a line, by what its first word says and the words after it, doesn't go with the lines before.
    // It is asked at the later line, after all that is wrong with that line by itself: after `mesh 8 8 1` a 65th switch is
    // TooMany, and a second `mesh` is MixedStyle.
    pub(crate) fn is_mixed(&self, keyword: Keyword, rest: &[&[u8]]) -> bool
        ensures { result ≡ is_mixed (draft_of self.now) keyword (map (λ word. word.now) rest.now) }
    {
        let is_filled = !matches!(self.parts.shape, Shape::Hand);
        match keyword {
            Keyword::Header | Keyword::Buffer | Keyword::Delete => false,
            Keyword::Switch | Keyword::Wire => is_filled,
            Keyword::Terminal => is_filled || (self.labels.is_some() && says_from(rest)),
            Keyword::Continue => is_filled || excludes_groups(self.labels),
            Keyword::Base | Keyword::Row | Keyword::Random => is_filled || self.labels.is_some(),
            Keyword::Label => {
                let has_groups = !self.parts.continues.is_empty();
                is_filled
                    || self.from_said
                    || self.parts.has_tables()
                    || self.shared.has_lines()
                    || (has_groups && asks_tree(rest))
            }
            Keyword::Mesh | Keyword::Cube | Keyword::Torus | Keyword::Clos => {
                self.parts.switches.len() != 0 || self.labels.is_some() || self.shared.has_lines()
            }
        }
    }

    /// The plan that the lines give.
    pub(crate) fn finish(self) -> Result<Plan, AllocError>
        requires lines { IsPlan (draft_of self).plan }
        requires all { IsPlan (finished (draft_of self)) }
        ensures { IfOk result (λ plan. plan ≡ finished (draft_of self)) }
    {
        let parts = self.into_parts()?;
        Ok(Plan::new(parts))
    }

    /// The parts of the plan that the lines give. Where it is to be labelled, terminals carry counts alone.
    fn into_parts(self) -> Result<Parts, AllocError>
        requires { IsPlan (draft_of self).plan }
        ensures { IfOk result (λ parts. plan_of parts ≡ finished (draft_of self)) }
    {
        let mut parts = self.parts;
        write_out(&mut parts, &self.shared)?;
        if let Some(shape) = self.labels {
            parts.shape = shape;
            parts.terminals.forget_ranges();
        }
        Ok(parts)
    }
}

/// Whether labels are asked for with which links that continue groups don't go.
fn excludes_groups(labels: Option<Shape>) -> bool
    ensures { result ≡ excludes_groups labels }
{
    match labels {
        Some(Shape::UpDown(_)) => false,
        Some(_) => true,
        None => false,
    }
}

/// Whether the words behind `label` ask for a tree's labels.
fn asks_tree(words: &[&[u8]]) -> bool
    ensures { result ≡ asks_tree (map (λ word. word.now) words.now) }
{
    match words {
        [style, ..] => *style == b"tree".as_slice(),
        [] => false,
    }
}

/// Whether the words behind `terminal` say where its range begins.
fn says_from(words: &[&[u8]]) -> bool
    ensures { result ≡ says_from (map (λ word. word.now) words.now) }
{
    match words {
        [_, _, rest @ ..] => match read_range(rest) {
            Ok(range) => range.from.is_some(),
            Err(_) => false,
        },
        _ => false,
    }
}
