// Rounds of bids, and how they were answered.
use crate::text::After;
use broker::{Bid, Settings};
use records::Record;
use refusals::Refusal;
use std::io;

// The tasks of a round are the digits of a word in this base, the lowest first.
const TASK_DIGIT: u32 = 16;

// The bids of a round: those of the first `count` digits of `tasks`, with the same settings.
#[derive(Clone, Copy)]
pub struct Bids {
    tasks: u32,
    count: u8,
    settings: Settings,
}

impl Bids {
    // The tasks are a word's digits, and how many there are, share and window are the bytes of another.
    pub fn of(tasks: u32, word: u32) -> Bids {
        let [count, share, window, _] = word.to_le_bytes();
        Bids {
            tasks,
            count,
            settings: Settings {
                share: u32::from(share),
                window: u32::from(window),
            },
        }
    }
}

// How the bids of rounds were answered.
#[derive(Clone, Copy)]
struct Tally {
    granted: usize,
    finished: usize,
    busy: usize,
    held: usize,
    spent: usize,
    refused: usize,
}

impl Tally {
    fn none() -> Tally {
        Tally {
            granted: 0,
            finished: 0,
            busy: 0,
            held: 0,
            spent: 0,
            refused: 0,
        }
    }

    // One more answer: there are too few bids for a count to wrap.
    fn add(&mut self, answer: Result<Bid, Refusal>) {
        let count = match answer {
            Ok(Bid::Granted) => &mut self.granted,
            Ok(Bid::Finished) => &mut self.finished,
            Ok(Bid::Busy { .. }) => &mut self.busy,
            Ok(Bid::Held { .. }) => &mut self.held,
            Ok(Bid::ShareSpent) => &mut self.spent,
            Err(_) => &mut self.refused,
        };
        *count = count.wrapping_add(1);
    }
}

// So many times the bids of a round, the tally and the record after them.
pub fn play_rounds(
    rt: &impl Print,
    words: &[u32],
    map: &[u8],
    begun: Record,
    times: u32,
    bids: Bids,
) -> io::Result<Record> {
    let mut rec = begun;
    let mut tally = Tally::none();
    for _ in 0..times {
        rec = round(words, map, rec, bids, &mut tally);
    }
    let Tally {
        granted,
        finished,
        busy,
        held,
        spent,
        refused,
    } = tally;
    println!(rt;
        "rounds {granted} {finished} {busy} {held} {spent} {refused}{}",
        After(rec)
    )?;
    Ok(rec)
}

fn round(words: &[u32], map: &[u8], begun: Record, bids: Bids, tally: &mut Tally) -> Record {
    let mut rec = begun;
    let mut rest = bids.tasks;
    for _ in 0..bids.count {
        let served = broker::bid(words, map, rec, (rest % TASK_DIGIT) as usize, bids.settings);
        tally.add(served.answer);
        rec = served.after;
        rest /= TASK_DIGIT;
    }
    rec
}
