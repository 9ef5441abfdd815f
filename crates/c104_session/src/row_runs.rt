//! A script, run on the network of a plan, and what is kept of that for tables.
ghost use Rattle.std.specs.Prelude.{Err, IfOk, IfSome, IsSome, IsTrue, ◌↔◌, ◌≡◌, ◌≢◌};
ghost use Rattle.{c104_plan.specs.PlanImage.Fits, c104_rows.specs.Recording.record_closed, c104_run.specs.Standstill.IsDeadlocked};
ghost use Rattle.{c104_session.specs.{Refusals.refuses, RowRuns.{IsKeptAfter, IsKeptOn, IsKeptPlan}}, c104_token.specs.Kinds.plain_kind};
ghost use Rattle.c104_stream.specs.declared.halt.Halt.TheVariants as halt;

use crate::answering::drive_script;
use crate::driven::Driven;
use crate::refusals::Refusals;
use crate::runs::leftovers_of;
use crate::session::Session;
use c104_explain::{standstill_message, tell_leftovers};
use c104_mistakes::{About, Messages};
use c104_net::TracedNet;
use c104_plan::{Image, Plan};
use c104_rows::{Outcome, RunRecord, Table, Wanted, table_text};
use c104_stream::Halt;
use c104_token::NoMemory;
use std::alloc::{AllocError, Global};
use std::io::Read;

/// What is told of a network that stands still with tokens in it.
#[derive(Drop)]
pub struct Still {
    /// The last round in which something was done.
    pub round: u32,
    /// How many tokens wait, and a line for each thing that waits. None where there is no memory for that.
    message: Option<String>,
}

impl Still {
    /// Tells people that it stands still, and what waits, as far as there is memory for it.
    fn tell<M: Messages>(&self, alloc: Global, messages: &mut M) {
        if let Ok(line) = still_line(alloc, self.round) {
            messages.tell(About::Run, line.as_str());
        }
        if let Some(message) = &self.message {
            for line in message.lines().skip(1) {
                messages.tell(About::Run, line);
            }
        }
    }
}

/// The line that says that a network stands still after this round.
fn still_line(alloc: Global, round: u32) -> Result<String, AllocError> {
    format!(in alloc; "stands still after round {round}")
}

/// A run, up to its end, and what is kept of it.
#[derive(Drop)]
pub struct RowsRun {
    /// What is kept for its tables.
    pub kept: RunRecord,
    /// How many lines of the script were refused.
    pub refused: u64,
    /// Whether the script is refused: for its length, for a line that was faulty, or for one that ended the run.
    pub is_refused: bool,
    /// What is told of a network that stands still with tokens in it.
    pub still: Option<Still>,
    /// What is to be told of what didn't arrive.
    leftovers: Option<Vec<String>>,
}

impl RowsRun {
    /// The text of a table that is kept. The only error is out of memory.
    pub fn text(&self, alloc: Global, plan: &Plan, table: Table) -> Result<String, NoMemory> {
        let outcome = Outcome {
            refused: self.refused,
            is_still: self.still.is_some(),
        };
        table_text(alloc, plan, table, &self.kept, outcome)
    }

    /// Tells that the network stands still with tokens in it, if it does, and what didn't arrive.
    pub fn tell_end<M: Messages>(&self, alloc: Global, messages: &mut M) {
        if let Some(still) = &self.still {
            still.tell(alloc, messages);
        }
        tell_leftovers(&self.leftovers, messages);
    }
}

/// Runs a script on the network of a plan, started with an image that fits it, and keeps of that what is wanted. Of a script that
/// is too long the lines that end within 16 MiB are done, and behind a line that is refused since a trace or an inbox is full
/// nothing is done. Messages are those of `run_plan`, but for what didn't arrive, and that the run ended so is told even where
/// none are wanted. It never fails to write.
pub fn rows_plan<S: Read, M: Messages>(
    alloc: Global,
    plan: &Plan,
    image: Image,
    wanted: Wanted,
    script: &mut S,
    messages: &mut M,
) -> Result<RowsRun, Halt>
    requires { Fits image plan.now }
    ensures run { IfOk result (λ run. IsKeptPlan wanted plan.now image (S.remaining script.old) run) }
    ensures unwritten { result ≢ Err halt.CannotWrite }
{
    let kept = RunRecord::new(alloc, plan, wanted)?;
    let session = Session::new(alloc, plan, image)?;
    keep_driven(alloc, Driven::new(session, kept), script, messages)
}

/// The same of a network that is before the script's first line. Its answers go nowhere.
#[tactic(auto, using(crate::proofs::RowScripts::script_kept))]
fn keep_driven<S: Read, M: Messages>(
    alloc: Global,
    driven: Driven<RunRecord>,
    script: &mut S,
    messages: &mut M,
) -> Result<RowsRun, Halt>
    ensures run { IfOk result (λ run. IsKeptAfter driven (S.remaining script.old) run) }
    ensures unwritten { result ≢ Err halt.CannotWrite }
{
    let mut driven = driven;
    let drove = drive_script(alloc, &mut driven, script, messages);
    let Driven {
        session,
        driver,
        refusals,
    } = driven;
    let run = match drove {
        Ok(is_long) => kept_run(alloc, is_long, &session, driver, refusals, messages),
        Err(halt) => Err(halt),
    };
    session.finish().retire();
    run
}

/// What is kept of a run up to its end, at which its network and its record are these.
fn kept_run<M: Messages>(
    alloc: Global,
    is_long: bool,
    session: &Session,
    kept: RunRecord,
    refusals: Refusals,
    messages: &mut M,
) -> Result<RowsRun, Halt>
    ensures run { IfOk result (IsKeptOn session.now.net kept refusals) }
    ensures is_refused { IfOk result (λ run. run.is_refused ≡ refuses refusals is_long session.now) }
    ensures unwritten { result ≢ Err halt.CannotWrite }
{
    let mut kept = kept;
    kept.close(&session.net)?;
    let still = still_of(alloc, &session.net, kept.counts.active());
    let leftovers = leftovers_of(alloc, session, messages);
    Ok(RowsRun {
        kept,
        refused: refusals.lines,
        is_refused: refusals.refuse(is_long, session),
        still,
        leftovers,
    })
}

/// What is told of a network that stands still after this round, with tokens in it.
fn still_of(alloc: Global, net: &TracedNet, round: u32) -> Option<Still>
    ensures still { IsSome result ↔ IsDeadlocked plain_kind net.now.network }
    ensures round { IfSome result (λ still. still.round ≡ round) }
{
    if !is_locked(net) {
        return None;
    }
    Some(Still {
        round,
        message: standstill_message(alloc, net, None),
    })
}

/// Whether a network stands still with tokens in it.
fn is_locked(net: &TracedNet) -> bool
    ensures { IsTrue result ↔ IsDeadlocked plain_kind net.now.network }
{
    net.stands_still() && !net.quiet()
}
