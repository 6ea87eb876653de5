// Trials on example a's set: example u, and what a trial refuses.
use crate::lines::settings;
use broker::Settings;
use console::{Rows, Said, tallies};
use std::io::Result;

const LONGEST: usize = model::MAX_ORDER;

pub fn on_a(rt: &impl Print, words: &[u32], map: &[u8]) -> Result<()> {
    two_for_one(rt, words, map)?;
    in_turns(rt, words, map)?;
    refused_orders(rt, words, map)?;
    spoilt_maps(rt, words)
}

// Task 0 bids twice as often as task 1, without shares and with them; and task 1 first, so that the end comes in the middle of a round.
fn two_for_one(rt: &impl Print, words: &[u32], map: &[u8]) -> Result<()> {
    trial_line(rt, words, map, &[0, 0, 1], 8, settings(255, 255))?;
    trial_line(rt, words, map, &[0, 0, 1], 8, settings(1, 2))?;
    trial_line(rt, words, map, &[1, 0, 0], 8, settings(1, 2))
}

// Rounds that are enough, too few, and none; and as many bids as a trial can make, of a task that waits for one that never bids.
fn in_turns(rt: &impl Print, words: &[u32], map: &[u8]) -> Result<()> {
    for rounds in [8, 3, 0] {
        trial_line(rt, words, map, &[0, 1], rounds, settings(1, 2))?;
    }
    trial_line(rt, words, map, &[0; LONGEST], u16::MAX, settings(1, 255))
}

// 27 after 13 and 26, whatever the rounds.
fn refused_orders(rt: &impl Print, words: &[u32], map: &[u8]) -> Result<()> {
    trial_line(rt, words, map, &[], 1, settings(1, 2))?;
    trial_line(rt, words, map, &[0, 1, 2], 0, settings(1, 2))?;
    trial_line(rt, words, map, &[0; LONGEST + 1], 1, settings(1, 2))?;
    trial_line(rt, words, map, &[], 0, settings(0, 2))?;
    trial_line(rt, words, &[0, 0, 0], &[], 0, settings(0, 2))
}

// A start that isn't open, and bytes over 3 at the first bid and after a grant.
fn spoilt_maps(rt: &impl Print, words: &[u32]) -> Result<()> {
    let mut map = [4u8; crate::sets::GRID_OF_A];
    trial_line(rt, words, &map, &[1], 1, settings(1, 2))?;
    map[0] = 0;
    trial_line(rt, words, &map, &[1], 1, settings(1, 2))?;
    map[1] = 0;
    trial_line(rt, words, &map, &[1], 2, settings(1, 2))
}

// What a trial answers, with the rows of the first two tasks.
fn trial_line(
    rt: &impl Print,
    words: &[u32],
    map: &[u8],
    order: &[u8],
    rounds: u16,
    settings: Settings,
) -> Result<()> {
    let Settings { share, window } = settings;
    let places = order.len();
    let answer = trial::trial(words, map, order, rounds, settings);
    let tried = tallies(answer);
    let rows = tried.rows;
    let finished = tried.finished;
    let said = Said(answer);
    let shown = Rows(&rows[..2]);
    println!(rt;
        "trial of {rounds} rounds of {places}, share {share}, window {window}: {said}{shown}, finished {finished}"
    )
}
