// Fair shares: which settings a bid may bring, and when a task that would be granted has spent its share.
ghost use Rattle.std.specs.Prelude.{◌≡◌, not, ◌&&◌, ℕ, ◌<◌, ◌≤◌, eqb, ltb};
ghost use Rattle.std.proofs.Math.ListN as lib;
ghost use Rattle.model.specs.Set.{at};
ghost use Rattle.model.specs.Record.{state_in};
ghost use Rattle.model.specs.Broker.{is_setting, share_left, other_goes, shared_answer};
ghost use Rattle.shape.specs.SetOf.{set_of};
ghost use Rattle.records.specs.Says.{record_of};
ghost use Rattle.records.specs.Ranked.{Ranked};
ghost use Rattle.broker.specs.Says.{settings_of, bid_of};

use crate::{Bid, Settings, by_map};
use records::Record;
use refusals::Refusal;
use shape::AcceptedSet;

// Whether a setting is 1 to 255.
fn is_setting(n: u32) -> bool
    ensures { result ≡ is_setting n }
{
    1 <= n && n <= model::MAX_SETTING
}

// Whether share and window are settings.
pub fn allowed(settings: Settings) -> bool
    ensures { result ≡ (is_setting settings.share && is_setting settings.window) }
{
    is_setting(settings.share) && is_setting(settings.window)
}

// Whether a task with this count has share left and, at this position and with this rank as its next, would be granted.
fn goes(map: &[u8], count: u8, share: u32, position: u8, length: u8, next: usize) -> bool
    requires { position < length → next < lib.length map.now }
    ensures { result ≡ (ltb count share && (ltb position length && eqb (at map.now next) 0)) }
{
    if share <= count as u32 {
        return false;
    }
    if length <= position {
        return false;
    }
    map[next] == Record::OPEN
}

// Whether some task with share left would be granted in the record's state. It is asked for a task that has none left, which is therefore not found and need not be
// passed over.
fn other_goes(set: &AcceptedSet, map: &[u8], rec: Record, rank: usize, settings: Settings) -> bool
    requires { Ranked (set_of set.now) map.now (record_of rec) rank }
    ensures { (task : ℕ) → settings.share ≤ at rec.counts task
        → result ≡ other_goes (set_of set.now) map.now (settings_of settings) (record_of rec) (state_in (set_of set.now) (record_of rec)) task }
{
    let lengths = set.shape.lengths;
    let weights = set.shape.weights;
    let positions = rec.positions;
    let counts = rec.counts;
    for t in 0..set.shape.tasks {
        if goes(
            map,
            counts[t],
            settings.share,
            positions[t],
            lengths[t],
            rank + weights[t],
        ) {
            return true;
        }
    }
    false
}

// Whether a task has had its share or more, and another with share left would be granted.
fn spent(
    set: &AcceptedSet,
    map: &[u8],
    rec: Record,
    rank: usize,
    task: usize,
    settings: Settings,
) -> bool
    requires { Ranked (set_of set.now) map.now (record_of rec) rank × (task < 8) }
    ensures { result ≡ (not (share_left (settings_of settings) (record_of rec) task)
        && other_goes (set_of set.now) map.now (settings_of settings) (record_of rec) (state_in (set_of set.now) (record_of rec)) task) }
{
    let count = rec.counts[task];
    if (count as u32) < settings.share {
        return false;
    }
    other_goes(set, map, rec, rank, settings)
}

// The answer in the record's state: Share spent in place of Granted to a task whose share is spent.
pub(crate) fn answer(
    set: &AcceptedSet,
    map: &[u8],
    rec: Record,
    rank: usize,
    task: usize,
    settings: Settings,
) -> Result<Bid, Refusal>
    requires { Ranked (set_of set.now) map.now (record_of rec) rank }
    ensures { bid_of result ≡ shared_answer (set_of set.now) map.now (settings_of settings) (record_of rec)
        (state_in (set_of set.now) (record_of rec)) task }
{
    let answer = by_map::map_answer(set, map, rec, rank, task)?;
    if answer == Bid::Granted && spent(set, map, rec, rank, task, settings) {
        return Ok(Bid::ShareSpent);
    }
    Ok(answer)
}
