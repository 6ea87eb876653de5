// What hosts are told: one struct of numbers for the answers of all calls.
ghost use Rattle.std.specs.Prelude.{◌≡◌};
ghost use Rattle.model.specs.Told.{tell, tell_analysis, tell_bid, tell_again, tell_location, tell_trial};
ghost use Rattle.refusals.specs.Answers.{answer_of, number_of};
ghost use Rattle.analysis.specs.Says.{planned_of};
ghost use Rattle.broker.specs.Says.{bid_of, again_of};
ghost use Rattle.plan_reader.specs.Says.{location_of};
ghost use Rattle.trial.specs.Says.{tried_of};
ghost use Rattle.arbiter.specs.Told.{struct_of, analysis_of, trial_struct, kind_number};

use analysis::Planned;
use broker::Bid;
use plan_reader::Location;
use reader::Reading;
use refusals::Refusal;
use trial::{Tally, Tried};

// The kinds of an answer. A zeroed answer is a refusal, so a host that asked nothing is granted nothing. The value is a refusal's place, the grid of a set that is
// read, the number of plan words, the number of a route's steps, the busy device, the rank of a state held back from, the index
// of the first word of a box, the number of a cleaned set's words, or the number of a trial's bids; the other kinds have none.
#[derive(Clone, Copy, Debug, PartialEq, Eq)]
pub enum Kind {
    Refused = 0,
    Accepted = 1,
    Planned = 2,
    Routed = 3,
    Granted = 4,
    Finished = 5,
    Busy = 6,
    Held = 7,
    Restarted = 8,
    InForbiddenBox = 9,
    InUnsafeBox = 10,
    InNoBox = 11,
    Cleaned = 12,
    ShareSpent = 13,
    Tried = 14,
}

// Sixteen bytes without a gap: the kind; the refusal's number, 0 without one; the value, 0 without one.
#[repr(C)]
#[derive(Clone, Copy)]
pub struct Answer {
    pub kind: u32,
    pub refusal: u32,
    pub value: u64,
}

// What an analysis answers: twenty-four bytes without a gap. Beside the answer stand the quotient and the remainder of 1,000 times the unsafe states divided by the
// permitted ones; both are 0 in a refused one.
#[repr(C)]
#[derive(Clone, Copy)]
pub struct Analysis {
    pub answer: Answer,
    pub quotient: u32,
    pub remainder: u32,
}

// What a trial answers: a hundred and fifty-two bytes without a gap. Beside the answer stand a row for each task and the bids answered Finished, all 0 in a refused
// one.
#[repr(C)]
#[derive(Clone, Copy)]
pub struct Trial {
    pub answer: Answer,
    pub rows: [Tally; model::MAX_TASKS],
    pub finished: u64,
}

impl Kind {
    fn number(self) -> u32
        ensures { result ≡ kind_number self }
    {
        self as u32
    }
}

fn plain(kind: Kind) -> Answer
    ensures { result ≡ record { kind = kind_number kind; refusal = 0; value = 0 } }
{
    valued(kind, 0)
}

fn valued(kind: Kind, value: usize) -> Answer
    ensures { result ≡ record { kind = kind_number kind; refusal = 0; value = value } }
{
    Answer {
        kind: kind.number(),
        refusal: 0,
        value: value as u64,
    }
}

fn refuse(refusal: Refusal) -> Answer
    ensures { result ≡ record { kind = 0; refusal = number_of refusal.reason; value = refusal.place } }
{
    Answer {
        kind: Kind::Refused.number(),
        refusal: refusal.reason.number() as u32,
        value: refusal.place as u64,
    }
}

// The answer of a call that counts what it wrote.
#[tactic(auto, unfolding(model::specs::Told::tell, refusals::specs::Answers::answer_of))]
pub(crate) fn of_count(kind: Kind, answer: Result<usize, Refusal>) -> Answer
    ensures { result ≡ struct_of (tell (λ n. record { kind = kind_number kind; refusal = 0; value = n }) (answer_of (λ n. n) answer)) }
{
    match answer {
        Ok(count) => valued(kind, count),
        Err(refusal) => refuse(refusal),
    }
}

#[tactic(auto, unfolding(model::specs::Told::tell, refusals::specs::Answers::answer_of))]
pub(crate) fn of_reading(answer: Result<Reading, Refusal>) -> Answer
    ensures { result ≡ struct_of (tell (λ r. record { kind = 1; refusal = 0; value = r.shape.grid }) (answer_of (λ r. r) answer)) }
{
    match answer {
        Ok(reading) => valued(Kind::Accepted, reading.shape.grid),
        Err(refusal) => refuse(refusal),
    }
}

#[tactic(auto, unfolding(model::specs::Told::tell, refusals::specs::Answers::answer_of, model::specs::Answer::if_given))]
pub(crate) fn of_planned(answer: Result<Planned, Refusal>) -> Analysis
    ensures { result ≡ analysis_of (tell_analysis (answer_of planned_of answer)) }
{
    match answer {
        Ok(planned) => Analysis {
            answer: valued(Kind::Planned, planned.words),
            quotient: planned.quotient,
            remainder: planned.remainder,
        },
        Err(refusal) => Analysis {
            answer: refuse(refusal),
            quotient: 0,
            remainder: 0,
        },
    }
}

#[tactic(auto, unfolding(model::specs::Told::tell, refusals::specs::Answers::answer_of, model::specs::Told::bid_numbers, broker::specs::Says::named))]
pub(crate) fn of_bid(answer: Result<Bid, Refusal>) -> Answer
    ensures { result ≡ struct_of (tell_bid (bid_of answer)) }
{
    match answer {
        Ok(Bid::Granted) => plain(Kind::Granted),
        Ok(Bid::Finished) => plain(Kind::Finished),
        Ok(Bid::ShareSpent) => plain(Kind::ShareSpent),
        Ok(Bid::Busy { device }) => valued(Kind::Busy, device as usize),
        Ok(Bid::Held { rank }) => valued(Kind::Held, rank),
        Err(refusal) => refuse(refusal),
    }
}

#[tactic(auto, unfolding(model::specs::Told::tell, refusals::specs::Answers::answer_of))]
pub(crate) fn of_again(answer: Result<(), Refusal>) -> Answer
    ensures { result ≡ struct_of (tell_again (again_of answer)) }
{
    match answer {
        Ok(()) => plain(Kind::Restarted),
        Err(refusal) => refuse(refusal),
    }
}

#[tactic(auto, unfolding(model::specs::Told::tell, refusals::specs::Answers::answer_of, model::specs::Told::location_numbers, plan_reader::specs::Says::location_of))]
pub(crate) fn of_location(answer: Result<Location, Refusal>) -> Answer
    ensures { result ≡ struct_of (tell_location (answer_of location_of answer)) }
{
    match answer {
        Ok(Location::Forbidden { index }) => valued(Kind::InForbiddenBox, index),
        Ok(Location::Unsafe { index }) => valued(Kind::InUnsafeBox, index),
        Ok(Location::Neither) => plain(Kind::InNoBox),
        Err(refusal) => refuse(refusal),
    }
}

#[tactic(auto, unfolding(model::specs::Told::tell, refusals::specs::Answers::answer_of, model::specs::Answer::if_given))]
pub(crate) fn of_trial(answer: Result<Tried, Refusal>) -> Trial
    ensures { result ≡ trial_struct (tell_trial (tried_of answer)) }
{
    match answer {
        Ok(tried) => {
            let rows = tried.rows;
            Trial {
                answer: valued(Kind::Tried, tried.made as usize),
                rows,
                finished: tried.finished,
            }
        }
        Err(refusal) => Trial {
            answer: refuse(refusal),
            rows: [Tally::default(); model::MAX_TASKS],
            finished: 0,
        },
    }
}
