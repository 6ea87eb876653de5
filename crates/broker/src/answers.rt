// What a call answers.
use records::Record;
use refusals::Refusal;

// What a bid is answered where it isn't refused.
#[derive(Clone, Copy, Debug, PartialEq, Eq)]
pub enum Bid {
    Granted,
    Finished,
    ShareSpent,
    // The device that the next action names.
    Busy { device: u32 },
    // The next state's rank.
    Held { rank: usize },
}

// The answer of a call beside the record that it leaves.
#[derive(Clone, Copy)]
pub struct Served<A> {
    pub answer: Result<A, Refusal>,
    pub after: Record,
}
