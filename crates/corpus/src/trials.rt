// Trials: their order, and what is printed of them.
use broker::Settings;
use console::{Rows, Said, tallies};
use std::io::Result;

// Puts eight tasks into the order's slice, from this place on, as far as it goes.
pub fn place(order: &mut [u8], at: usize, tasks: [u8; model::MAX_TASKS]) {
    // Cut, and not skipped to, which would go by every byte before it.
    let first = at.min(order.len());
    for (old, task) in order[first..].iter_mut().zip(tasks) {
        *old = task;
    }
}

pub fn show_trial(
    rt: &impl Print,
    words: &[u32],
    map: &[u8],
    order: &[u8],
    rounds: u16,
    settings: Settings,
) -> Result<()> {
    let said = trial::trial(words, map, order, rounds, settings);
    let tried = tallies(said);
    let rows = tried.rows;
    println!(rt; "{}{} {}", Said(said), Rows(&rows), tried.finished)
}
