//! Inputs that a header meets.
ghost use Rattle.std.specs.Prelude.{IfOk, OnOk, [], length, slice_index_or, ◌<◌, ◌≡◌};
ghost use Rattle.c104_check.specs.{Met.with_mark, Reach.with_input, Walks.is_met};

use crate::ports::SwitchPort;
use c104_regs::LINKS;
use c104_token::NoMemory;
use std::alloc::{AllocError, Global};
use std::marker::Model;

/// Inputs, with a mark at the place of each, so that none is looked for among the others.
#[derive(Drop)]
pub(crate) struct MetInputs {
    inputs: Vec<SwitchPort>,
    marks: Vec<bool>,
}

impl Model for MetInputs {
    ghost use Rattle.std.specs.Prelude.{List};
    ghost use Rattle.c104_check.specs.{Met.AreMarks, Routes.SwitchPort as ThePort};

    ghost Value = { List ThePort };

    ghost view = { λ met. met.inputs.items };

    ghost invariant = { λ met. AreMarks met.marks.items met.inputs.items };
}

impl MetInputs {
    /// None, with room for the marks of this many places.
    pub(crate) fn new(alloc: Global, places: usize) -> Result<MetInputs, AllocError>
        ensures { IfOk result (λ met. met ≡ []) }
    {
        let inputs = Vec::new(alloc);
        let marks = vec![in alloc; false; places]?;
        Ok(MetInputs { inputs, marks })
    }

    /// How many there are.
    pub(crate) fn len(&self) -> usize
        ensures { result ≡ length self.now }
    {
        self.inputs.len()
    }

    /// One of them, counted from 0 in the order in which they joined.
    pub(crate) fn input_at(&self, index: usize) -> SwitchPort
        requires { index < length self.now }
        ensures { result ≡ slice_index_or self.now index result }
    {
        let inputs = &self.inputs;
        inputs[index]
    }

    /// The inputs alone.
    pub(crate) fn into_inputs(self) -> Vec<SwitchPort>
        ensures { result.items ≡ self }
    {
        let MetInputs { inputs, marks } = self;
        inputs
    }

    /// An input joins the others, unless it is among them.
    pub(crate) fn add(&mut self, at: SwitchPort) -> Result<(), NoMemory>
        ensures { OnOk result (self.new ≡ with_input self.old at) }
    {
        if !self.has(at) {
            self.inputs.push(at)?;
            mark(&mut self.marks, at);
        }
        Ok(())
    }

    /// Whether an input is among them. One that has no place for a mark is looked for.
    fn has(&self, at: SwitchPort) -> bool
        ensures { result ≡ is_met at self.now }
    {
        if at.link < LINKS && at.switch < self.marks.len() / LINKS {
            self.marks[at.switch * LINKS + at.link]
        } else {
            is_among(self.inputs.as_slice(), at)
        }
    }
}

/// Marks the place of an input, if it has one.
fn mark(marks: &mut [bool], at: SwitchPort)
    ensures { marks.new ≡ with_mark marks.old at }
{
    if at.link < LINKS && at.switch < marks.len() / LINKS {
        marks[at.switch * LINKS + at.link] = true;
    }
}

/// An input joins others, unless it is among them.
pub(crate) fn add_input(inputs: &mut Vec<SwitchPort>, at: SwitchPort) -> Result<(), NoMemory>
    ensures { OnOk result (inputs.new.items ≡ with_input inputs.old.items at) }
{
    if !is_among(inputs, at) {
        inputs.push(at)?;
    }
    Ok(())
}

/// Whether an input is among others.
pub(crate) fn is_among(inputs: &[SwitchPort], at: SwitchPort) -> bool
    ensures { result ≡ is_met at inputs.now }
{
    inputs
        .iter()
        .any(|other| at.switch == other.switch && at.link == other.link)
}
