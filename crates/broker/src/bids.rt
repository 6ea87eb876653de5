// What a bid answers: the first that applies.
ghost use Rattle.std.specs.Prelude.{◌≡◌, true, ◌&&◌};
ghost use Rattle.model.specs.Answer.{◌then◌};
ghost use Rattle.model.specs.Read.{read};
ghost use Rattle.model.specs.Broker.{is_setting, bid_answer};
ghost use Rattle.records.specs.Says.{record_of};
ghost use Rattle.records.specs.Ranked.{Ranked};
ghost use Rattle.shape.specs.SetOf.{set_of};
ghost use Rattle.broker.specs.Says.{settings_of, bid_of};

use crate::{Bid, Settings, shares};
use records::Record;
use refusals::{Reason, Refusal};
use shape::AcceptedSet;

// The answer where the map has room, the settings are allowed, and the record fits the set, for a caller that bids on and on and keeps up the rank of its state. A
// bid makes the same last tests itself (`answer_on`): a call of this one costs it a fifth more on small sets.
pub fn answer_at(
    set: &AcceptedSet,
    map: &[u8],
    rec: Record,
    rank: usize,
    task: usize,
    settings: Settings,
) -> Result<Bid, Refusal>
    requires { Ranked (set_of set.now) map.now (record_of rec) rank × ((is_setting settings.share && is_setting settings.window) ≡ true) }
    ensures { bid_of result ≡ bid_answer (set_of set.now) map.now (settings_of settings) (record_of rec) task }
{
    if map[rank] != Record::OPEN {
        return Err(Reason::BadRecord.at(0));
    }
    let window = settings.window;
    if window <= rec.used() {
        return Err(Reason::BadRecord.at(0));
    }
    shares::answer(set, map, rec, rank, task, settings)
}

// The answer on an accepted set.
fn answer_on(
    set: &AcceptedSet,
    map: &[u8],
    rec: Record,
    task: usize,
    settings: Settings,
) -> Result<Bid, Refusal>
    ensures { bid_of result ≡ bid_answer (set_of set.now) map.now (settings_of settings) (record_of rec) task }
{
    if records::too_short(map, set.shape) {
        return Err(Reason::MapTooShort.at(set.shape.grid));
    }
    if !shares::allowed(settings) {
        return Err(Reason::BadSetting.at(0));
    }
    if records::unfit(rec, set.shape) {
        return Err(Reason::BadRecord.at(0));
    }
    let rank = records::rank_of(rec, set.shape);
    if map[rank] != Record::OPEN {
        return Err(Reason::BadRecord.at(0));
    }
    if settings.window <= rec.used() {
        return Err(Reason::BadRecord.at(0));
    }
    shares::answer(set, map, rec, rank, task, settings)
}

// The answer on the words lent.
pub(crate) fn answer(
    words: &[u32],
    map: &[u8],
    rec: Record,
    task: usize,
    settings: Settings,
) -> Result<Bid, Refusal>
    ensures { bid_of result ≡ (read words.now then λ s. bid_answer s map.now (settings_of settings) (record_of rec) task) }
{
    let set = reader::accept(words)?;
    answer_on(&set, map, rec, task, settings)
}
