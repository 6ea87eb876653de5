// The bids of a trial, one after another, and their answers counted.
ghost use Rattle.std.specs.Prelude.{◌≡◌, true, false, ◌&&◌, ℕ, ◌<◌, ◌≤◌, length, ltb};
ghost use Rattle.model.specs.Set.{lengths_of, at, size};
ghost use Rattle.model.specs.Record.{fresh};
ghost use Rattle.model.specs.Broker.{is_setting};
ghost use Rattle.model.specs.Trial.{rounds_of, untried, try_from};
ghost use Rattle.shape.specs.SetOf.{set_of};
ghost use Rattle.broker.specs.Says.{settings_of};
ghost use Rattle.trial.specs.Says.{tried_of};

use crate::{Tally, Tried};
use broker::{Bid, Settings};
use records::Record;
use refusals::Refusal;
use shape::AcceptedSet;

// Bids down the order, round after round, from a fresh record, which always fits the set. Whether every task is finished is looked at anew where a grant may have
// changed it, and so is known before each bid; so is the rank. A bid without a grant changes nothing, so until the next grant a task is answered as before: `kept` has
// those answers, None for a task that is still to be asked.
pub(crate) fn bid_rounds(
    set: &AcceptedSet,
    map: &[u8],
    order: &[u8],
    rounds: u16,
    settings: Settings,
) -> Result<Tried, Refusal>
    requires map_fits { ltb (length map.now) (size (lengths_of (set_of set.now))) ≡ false }
    requires allowed { (is_setting settings.share && is_setting settings.window) ≡ true }
    requires order_fits { (0 < length order.now) × (length order.now ≤ 255) × ((i : ℕ) → i < length order.now → at order.now i < set.now.shape.tasks) }
    ensures { tried_of result ≡ try_from set.now.words.now map.now (settings_of settings) (set_of set.now) untried fresh (rounds_of order.now rounds) }
{
    let mut rec = Record::fresh();
    let mut rank: usize = 0;
    let mut ended = records::at_end(rec, set.shape);
    let mut kept: [Option<Bid>; model::MAX_TASKS] = [None; model::MAX_TASKS];
    let mut made: u32 = 0;
    let mut rows = [Tally::default(); model::MAX_TASKS];
    let mut finished: u64 = 0;
    for _ in 0..rounds {
        for place in 0..order.len() {
            if ended {
                return Ok(Tried {
                    made,
                    rows,
                    finished,
                });
            }
            let task = order[place] as usize;
            let bid = match kept[task] {
                Some(bid) => bid,
                None => match broker::answer_at(set, map, rec, rank, task, settings) {
                    Ok(bid) => {
                        kept[task] = Some(bid);
                        bid
                    }
                    // As it came, its place too.
                    Err(refusal) => return Err(refusal),
                },
            };
            if bid == Bid::Granted {
                kept = [None; model::MAX_TASKS];
                rec = rec.granted(task, settings.window);
                rank += set.shape.weights[task];
                ended = records::at_end(rec, set.shape);
            }
            made += 1;
            rows[task] = rows[task].with(bid);
            finished += (bid == Bid::Finished) as u64;
        }
    }
    Ok(Tried {
        made,
        rows,
        finished,
    })
}
