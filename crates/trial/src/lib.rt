// Trying settings before a shift: a fresh broker's answers to an order of tasks that bids round after round, counted.
#![tactic(auto)]

mod bidding;
mod orders;
mod tallies;

ghost use Rattle.std.specs.Prelude.{◌≡◌};
ghost use Rattle.shape.specs.SetOf.{set_of};
ghost use Rattle.model.specs.Trial as model;
ghost use Rattle.model.specs.Trial.{trial_on};
ghost use Rattle.broker.specs.Says.{settings_of};
ghost use Rattle.trial.specs.Says.{tried_of};

use broker::Settings;
use refusals::{Reason, Refusal};
use shape::AcceptedSet;
pub use tallies::Tally;

// How many bids were made, a row for each task, and the bids answered Finished.
#[derive(Clone, Copy)]
pub struct Tried {
    pub made: u32,
    pub rows: [Tally; model::MAX_TASKS],
    pub finished: u64,
}

// The trial on an accepted set: what is turned away before any bid, then the bids.
fn trial_on(
    set: &AcceptedSet,
    map: &[u8],
    order: &[u8],
    rounds: u16,
    settings: Settings,
) -> Result<Tried, Refusal>
    ensures { tried_of result ≡ trial_on set.now.words.now map.now order.now rounds (settings_of settings) (set_of set.now) }
{
    if records::too_short(map, set.shape) {
        return Err(Reason::MapTooShort.at(set.shape.grid));
    }
    if !broker::allowed(settings) {
        return Err(Reason::BadSetting.at(0));
    }
    if order.len() == 0 {
        return Err(Reason::BadOrder.at(0));
    }
    if let Some(place) = orders::first_fault(order, set.shape.tasks) {
        return Err(Reason::BadOrder.at(place));
    }
    bidding::bid_rounds(set, map, order, rounds, settings)
}

// A trial: the set's words, its map and the order are lent; nothing of them changes.
pub fn trial(
    words: &[u32],
    map: &[u8],
    order: &[u8],
    rounds: u16,
    settings: Settings,
) -> Result<Tried, Refusal>
    ensures { tried_of result ≡ model.trial words.now map.now order.now rounds (settings_of settings) }
{
    let set = reader::accept(words)?;
    trial_on(&set, map, order, rounds, settings)
}
