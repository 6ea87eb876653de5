// The walk over a plan's words: a struct that holds them and the index of the next one, and thin functions on it. The work is in `words`, over a plain slice and a
// number.
ghost use Rattle.std.specs.Prelude.{◌≡◌, ◌+◌, ◌≤◌, ◌<◌, ◌^◌};
ghost use Rattle.model.specs.StoredPlan.{locate};
ghost use Rattle.refusals.specs.Answers.{answer_of};
ghost use Rattle.plan_reader.specs.Says.{location_of};
ghost use Rattle.plan_reader.specs.Walk.{word_at};

use crate::seen::Seen;
use crate::{Location, words};
use refusals::{Reason, Refusal};
use set_words::Kind;

// The words of a plan, and the index of the next one.
#[derive(Clone, Copy)]
pub(crate) struct PlanWords<'a> {
    words: &'a [u32],
    at: usize,
}

impl<'a> PlanWords<'a> {
    // At the first word.
    fn first(words: &'a [u32]) -> Self
        ensures { (result.words ≡ words.entry) × (result.at ≡ 0) }
    {
        Self { words, at: 0 }
    }

    // The word here, None past the last one.
    fn word(self) -> Option<u32>
        ensures { result ≡ word_at self.entry.words.now self.entry.at }
    {
        words::word_at(self.words, self.at)
    }

    // At the word after this one.
    fn next(self) -> Self
        requires { self.at + 1 < 2 ^ 64 }
        ensures { (result.words ≡ self.entry.words) × (result.at ≡ self.entry.at + 1) }
    {
        Self {
            words: self.words,
            at: self.at + 1,
        }
    }
}

// Where a state lies in a plan of this many tasks: all words are taken, one after the other, until the plan is over or a word is outside the layout.
pub(crate) fn walk(
    words: &[u32],
    tasks: usize,
    state: [u8; model::MAX_TASKS],
) -> Result<Location, Refusal>
    requires { (1 ≤ tasks) × (tasks ≤ 8) }
    ensures { answer_of location_of result ≡ locate state words.now tasks }
{
    let mut plan = PlanWords::first(words);
    let mut seen = Seen::before(tasks);
    while let Some(word) = plan.word() {
        let at = plan.at;
        let task = seen.sides;
        if task < tasks {
            seen = words::take_side(seen, at, word, tasks, state[task])?;
        } else if set_words::has_kind(word, Kind::End) {
            return words::take_end(seen.found, at, word, words.len());
        } else {
            seen = words::take_head(seen, at, word, tasks)?;
        }
        plan = plan.next();
    }
    Err(Reason::OutsideLayout.at(plan.at))
}
