//! What changed from one round to the next among rows that are told of each.

use c104_token::NoMemory;
use std::alloc::Global;

/// A row that is told of each round.
pub(crate) trait Shown: Copy + Drop {
    /// The round behind which it is so.
    fn round(self) -> u32;

    /// The place of what it tells of, below 2,304. Rows of one place follow one another.
    fn place(self) -> usize;

    /// Whether another row tells the same, of another round.
    fn is_same(self, other: Self) -> bool;
}

/// How many places there are: those of the links of 64 switches, and of 256 terminals.
const PLACES: usize = 2_304;

/// Rows of one place and round, from one number to another, which isn't among them. None where both are the same.
#[derive(Clone, Copy)]
pub(crate) struct Run {
    pub(crate) round: u32,
    pub(crate) place: usize,
    pub(crate) from: usize,
    pub(crate) to: usize,
}

/// The rows of places that differ from those of the round before, round by round: of each round first those that are there,
/// then the places that have none any more. The only error is out of memory.
pub(crate) fn changes<T: Shown>(
    alloc: Global,
    rows: &[T],
    rounds: &[u32],
) -> Result<Vec<Run>, NoMemory> {
    let runs = runs_of(alloc, rows)?;
    let mut known = vec![in alloc; NO_RUN; PLACES]?;
    let mut changes = Vec::new(alloc);
    let (mut before, mut from) = (0, 0);
    for round in rounds {
        let to = end_of(runs.as_slice(), from, *round);
        let now = runs.as_slice().get(from..to).unwrap_or(&[]);
        add_changed(rows, now, &mut known, &mut changes)?;
        let past = runs.as_slice().get(before..from).unwrap_or(&[]);
        add_gone(*round, past, &mut known, &mut changes)?;
        (before, from) = (from, to);
    }
    Ok(changes)
}

/// No rows.
const NO_RUN: Run = Run {
    round: 0,
    place: 0,
    from: 0,
    to: 0,
};

/// The rows of each place and round.
fn runs_of<T: Shown>(alloc: Global, rows: &[T]) -> Result<Vec<Run>, NoMemory> {
    let mut runs = Vec::new(alloc);
    let mut run = NO_RUN;
    for (number, row) in rows.iter().enumerate() {
        if run.to == number && number > 0 && run.round == row.round() && run.place == row.place() {
            run.to = number + 1;
        } else {
            if run.from < run.to {
                runs.push(run)?;
            }
            run = Run {
                round: row.round(),
                place: row.place(),
                from: number,
                to: number + 1,
            };
        }
    }
    if run.from < run.to {
        runs.push(run)?;
    }
    Ok(runs)
}

/// The number of the first run, from one on, that isn't of a round.
fn end_of(runs: &[Run], from: usize, round: u32) -> usize {
    for number in from..runs.len() {
        if runs[number].round != round {
            return number;
        }
    }
    runs.len()
}

/// Those of a round's runs that differ from what is known of their places join the changes. They are known then.
fn add_changed<T: Shown>(
    rows: &[T],
    now: &[Run],
    known: &mut Vec<Run>,
    changes: &mut Vec<Run>,
) -> Result<(), NoMemory> {
    for run in now {
        let Some(last) = known.get_mut(run.place) else {
            return Ok(());
        };
        let differs = !are_same(rows, *last, *run);
        *last = *run;
        if differs {
            changes.push(*run)?;
        }
    }
    Ok(())
}

/// The places of runs of the round before that have none in this round join the changes.
fn add_gone(
    round: u32,
    past: &[Run],
    known: &mut Vec<Run>,
    changes: &mut Vec<Run>,
) -> Result<(), NoMemory> {
    for run in past {
        let gone = Run {
            round,
            place: run.place,
            from: 0,
            to: 0,
        };
        if let Some(last) = known.get_mut(run.place)
            && last.round != round
        {
            *last = gone;
            changes.push(gone)?;
        }
    }
    Ok(())
}

/// Whether two runs tell the same.
fn are_same<T: Shown>(rows: &[T], run: Run, other: Run) -> bool {
    let one = rows.get(run.from..run.to).unwrap_or(&[]);
    let two = rows.get(other.from..other.to).unwrap_or(&[]);
    one.len() == two.len() && one.iter().zip(two.iter()).all(|(a, b)| a.is_same(*b))
}
