// The broker: the calls bid and again, on a record by value and in place.
#![tactic(auto)]

mod agains;
mod answers;
mod bids;
mod by_map;
mod shares;

ghost use Rattle.std.specs.Prelude.{◌≡◌};
ghost use Rattle.model.specs.Broker as model;
ghost use Rattle.records.specs.Says.{record_of};
ghost use Rattle.broker.specs.Says.{settings_of, served_bid_of, served_again_of};

pub use answers::{Bid, Served};
pub use bids::answer_at;
use records::Record;
use refusals::Refusal;
pub use shares::allowed;

// What a bid brings: each task's share of a window's grants, and how many grants a window has.
#[derive(Clone, Copy)]
pub struct Settings {
    pub share: u32,
    pub window: u32,
}

// A bid of a task: the set's words and its map are lent with it. A grant moves the task by one action and is counted; nothing else changes the record.
pub fn bid(words: &[u32], map: &[u8], rec: Record, task: usize, settings: Settings) -> Served<Bid>
    ensures { served_bid_of result ≡ model.bid words.now map.now (settings_of settings) (record_of rec) task }
{
    let answer = bids::answer(words, map, rec, task, settings);
    let after = if answer == Ok(Bid::Granted) {
        rec.granted(task, settings.window)
    } else {
        rec
    };
    Served { answer, after }
}

// Again: at the end every task starts anew, the grant number stays, and the counts are cleared. A refused one changes nothing.
pub fn again(words: &[u32], rec: Record) -> Served<()>
    ensures { served_again_of result ≡ model.again words.now (record_of rec) }
{
    let answer = agains::answer(words, rec);
    let after = match answer {
        Ok(()) => rec.restarted(),
        Err(_) => rec,
    };
    Served { answer, after }
}

// The record lent by its host: the bid on its value, stored back whole.
pub fn bid_in_place(
    rec: &mut Record,
    words: &[u32],
    map: &[u8],
    task: usize,
    settings: Settings,
) -> Result<Bid, Refusal>
    ensures { served_bid_of (record { answer = result; after = rec.new })
        ≡ model.bid words.now map.now (settings_of settings) (record_of rec.old) task }
{
    let served = bid(words, map, *rec, task, settings);
    *rec = served.after;
    served.answer
}

// Again over the lent record, likewise.
pub fn again_in_place(rec: &mut Record, words: &[u32]) -> Result<(), Refusal>
    ensures { served_again_of (record { answer = result; after = rec.new })
        ≡ model.again words.now (record_of rec.old) }
{
    let served = again(words, *rec);
    *rec = served.after;
    served.answer
}
