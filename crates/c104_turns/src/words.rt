//! The words that workers hand to inputs.
ghost use Rattle.c104_turns.specs.Words.{with_word, word_of};
ghost use Rattle.std.specs.Prelude.{MatchOption, ◌≡◌};

use c104_event::Event;
use rand_core::SeedableRng;
use rand_core::utils::NextWord;
use rand_xoshiro::SplitMix64;

/// The words that workers hand to the inputs that take a turn. Where an input puts random headers before packets, its word
/// picks one.
#[derive(Clone, Copy, Debug, PartialEq, Eq)]
pub enum Words {
    /// 0 to each, as in a round: so the first random header is picked.
    Zero,
    /// Words of the generator with this seed, SplitMix64: the worker of number i, behind n events that were done through its
    /// seat, hands the upper half of word 1,048,576 * i + n. A `Seat` has at most that many calls, so through such seats no
    /// word is handed twice.
    Seeded(u64),
}

/// How many words of a generator each worker has.
const SHARE: u64 = 1_048_576;

/// What each word adds to the state of the generator.
const STEP: u64 = 0x9e37_79b9_7f4a_7c15;

impl Words {
    /// The turn of an input, with the word of a worker through whose seat this many events were done. None for an event of
    /// another kind, which has no word.
    pub fn hand(self, worker: usize, done: usize, event: &Event) -> Option<Event>
        ensures { MatchOption result (with_word (word_of self worker done) event.now ≡ event.now)
            (λ turn. turn ≡ with_word (word_of self worker done) event.now) }
    {
        match event {
            Event::Input {
                switch,
                link,
                word: _,
            } => Some(Event::Input {
                switch: *switch,
                link: *link,
                word: self.word(worker, done),
            }),
            _ => None,
        }
    }

    /// The word of a worker through whose seat this many events were done.
    fn word(self, worker: usize, done: usize) -> u32
        ensures { result ≡ word_of self worker done }
    {
        match self {
            Words::Zero => 0,
            Words::Seeded(seed) => {
                let number = (worker as u64)
                    .wrapping_mul(SHARE)
                    .wrapping_add(done as u64);
                let state = seed.wrapping_add(number.wrapping_mul(STEP));
                (SplitMix64::seed_from_u64(state).next_word() >> 32) as u32
            }
        }
    }
}
