//! The lines of a script, answered by a network: by itself, or by a driver that keeps what it does.
ghost use Rattle.std.specs.Prelude.{◌≡◌};
ghost use Rattle.c104_session.specs.Driven.{new_driven};

use crate::driver::{Driver, Plain};
use crate::explaining::{end_message, line_message};
use crate::keepers::Keeper;
use crate::refusals::Refusals;
use crate::session::Session;
use crate::telling::Telling;
use c104_mistakes::{About, Messages};
use c104_script::{Answer, AnswersLines};
use c104_token::NoMemory;
use std::alloc::Global;

/// A script's run and the driver that does what its lines ask, up to one that is refused since a trace or an inbox is full:
/// what is kept of a run would go on without that. It can't be dropped, as its run can't.
pub(crate) struct Driven<D> {
    pub(crate) session: Session,
    pub(crate) driver: D,
    /// What was refused so far.
    pub(crate) refusals: Refusals,
}

impl<D> Driven<D> {
    /// The same before the first line.
    pub(crate) fn new(session: Session, driver: D) -> Self
        ensures { result ≡ new_driven session driver }
    {
        Driven {
            session,
            driver,
            refusals: Refusals::new(),
        }
    }
}

impl<D: Driver + Keeper, M: Messages> AnswersLines<Telling<'_, M>> for Driven<D> {
    ghost use Rattle.c104_session.specs.Driven.{driven_answer};

    type Message = (About, String);

    ghost answers = { driven_answer D.drives };

    #[inline(always)]
    #[tactic(auto, using(crate::proofs::DrivenLines::line_driven_too))]
    fn answer(
        &mut self,
        alloc: Global,
        number: usize,
        line: &[u8],
        told: &mut Telling<'_, M>,
    ) -> Result<Option<Answer>, NoMemory> {
        if self.refusals.is_over {
            return Ok(None);
        }
        let Driven {
            session,
            driver,
            refusals,
        } = self;
        told.begin(number);
        let answer = session.answer_driven(alloc, line, driver, told)?;
        *refusals = refusals.with(&answer);
        Ok(answer)
    }

    fn message(
        &self,
        alloc: Global,
        number: usize,
        line: &[u8],
        answer: &Option<Answer>,
        told: &mut Telling<'_, M>,
    ) -> Option<(About, String)> {
        if self.refusals.is_over {
            let round = self.driver.round();
            return end_message(alloc, &self.session, number, line, answer, round, told);
        }
        if !told.messages.are_wanted() {
            return None;
        }
        line_message(alloc, &self.session, number, line, answer, told)
    }

    fn tell(message: (About, String), told: &mut Telling<'_, M>) {
        told.tell(message);
    }
}

impl<M: Messages> AnswersLines<Telling<'_, M>> for Session {
    ghost use Rattle.c104_session.specs.Shown.{line_answer};

    type Message = (About, String);

    ghost answers = { line_answer };

    #[inline(always)]
    fn answer(
        &mut self,
        alloc: Global,
        number: usize,
        line: &[u8],
        told: &mut Telling<'_, M>,
    ) -> Result<Option<Answer>, NoMemory> {
        told.begin(number);
        self.answer_driven(alloc, line, &mut Plain, told)
    }

    #[inline(always)]
    fn message(
        &self,
        alloc: Global,
        number: usize,
        line: &[u8],
        answer: &Option<Answer>,
        told: &mut Telling<'_, M>,
    ) -> Option<(About, String)> {
        if !told.messages.are_wanted() {
            return None;
        }
        line_message(alloc, self, number, line, answer, told)
    }

    fn tell(message: (About, String), told: &mut Telling<'_, M>) {
        told.tell(message);
    }
}
