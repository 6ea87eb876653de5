// What a task would be answered by set and map alone, before its share is looked at: the first that applies.
ghost use Rattle.std.specs.Prelude.{◌≡◌};
ghost use Rattle.model.specs.Record.{state_in};
ghost use Rattle.model.specs.Broker.{bid_byte, map_answer};
ghost use Rattle.shape.specs.SetOf.{set_of};
ghost use Rattle.records.specs.Says.{record_of};
ghost use Rattle.records.specs.Ranked.{Ranked};
ghost use Rattle.broker.specs.Says.{bid_of};

use crate::Bid;
use records::Record;
use refusals::{Reason, Refusal};
use shape::AcceptedSet;

// The answer by the next state's byte.
fn byte_answer(byte: u8, rank: usize, device: u32) -> Result<Bid, Refusal>
    ensures { bid_of result ≡ bid_byte byte rank device }
{
    match byte {
        Record::OPEN => Ok(Bid::Granted),
        Record::FORBIDDEN => Ok(Bid::Busy { device }),
        Record::UNSAFE | Record::DEAD => Ok(Bid::Held { rank }),
        _ => Err(Reason::BadMapByte.at(rank)),
    }
}

// The answer in the record's state, whose rank is known.
pub(crate) fn map_answer(
    set: &AcceptedSet,
    map: &[u8],
    rec: Record,
    rank: usize,
    task: usize,
) -> Result<Bid, Refusal>
    requires { Ranked (set_of set.now) map.now (record_of rec) rank }
    ensures { bid_of result ≡ map_answer (set_of set.now) map.now (state_in (set_of set.now) (record_of rec)) task }
{
    if set.shape.tasks <= task {
        return Err(Reason::NoSuchTask.at(task));
    }
    let position = rec.positions[task];
    if set.shape.lengths[task] <= position {
        return Ok(Bid::Finished);
    }
    let next = rank + set.shape.weights[task];
    let action = set.shape.starts[task] + position as usize;
    byte_answer(map[next], next, set_words::device(set.words[action]))
}
