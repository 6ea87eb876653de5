// The calls on example a's set: bids, a whole service, routes, and records and maps that no service leaves.
use crate::lines::{Left, UNTOUCHED, again_line, bid_line, bid_lines, largest, route_line};
use crate::sets::GRID_OF_A;
use records::Record;
use std::io::Result;

// The set has so many actions; a route slice needs a byte for each.
pub const ACTIONS: usize = 8;

const TOO_FEW: usize = ACTIONS - 1;

// A byte that no map has.
pub const NO_BYTE: u8 = 4;

// The record of the first two tasks' positions, before any grant.
pub fn at_state(p: u8, q: u8) -> Record {
    Record {
        positions: [p, q, 0, 0, 0, 0, 0, 0],
        ..Record::fresh()
    }
}

pub fn on_a(rt: &impl Print, words: &[u32], map: &[u8]) -> Result<()> {
    bids(rt, words, map)?;
    last_number(rt, words, map)?;
    service(rt, words, map)?;
    routes(rt, words, map)?;
    spoilt_records(rt, words, map)?;
    spoilt_maps(rt, words)
}

// Example b, and bids of tasks that do not exist.
fn bids(rt: &impl Print, words: &[u32], map: &[u8]) -> Result<()> {
    let after = bid_lines(rt, words, map, Record::fresh(), &[0, 1, 0, 1, 0, 1])?;
    for task in [2, model::MAX_TASKS, usize::MAX] {
        bid_line(rt, words, map, after, task)?;
    }
    Ok(())
}

// Example l: the grant number after the largest.
fn last_number(rt: &impl Print, words: &[u32], map: &[u8]) -> Result<()> {
    let rec = Record {
        grants: u32::MAX,
        ..Record::fresh()
    };
    bid_line(rt, words, map, rec, 0)?;
    Ok(())
}

// A full service, again, and a second one; an again before the end is refused.
fn service(rt: &impl Print, words: &[u32], map: &[u8]) -> Result<()> {
    let end = serve(rt, words, map, Record::fresh())?;
    bid_line(rt, words, map, end, 0)?;
    let anew = again_line(rt, words, end)?;
    let start = again_line(rt, words, anew)?;
    serve(rt, words, map, start)?;
    Ok(())
}

// As many rounds of two bids as the set has actions, the later task's bid first.
fn serve(rt: &impl Print, words: &[u32], map: &[u8], rec: Record) -> Result<Record> {
    let mut now = rec;
    for _ in 0..ACTIONS {
        now = broker::bid(words, map, now, 1, largest()).after;
        now = broker::bid(words, map, now, 0, largest()).after;
    }
    println!(rt; "eight rounds{}", Left(now))?;
    Ok(now)
}

// Example c; from the dead state, from a forbidden one, and into a slice that is too short.
fn routes(rt: &impl Print, words: &[u32], map: &[u8]) -> Result<()> {
    let mut slice = [UNTOUCHED; ACTIONS];
    for (p, q) in [(0, 1), (1, 1), (1, 2)] {
        route_line(rt, words, map, at_state(p, q), &mut slice)?;
    }
    route_line(rt, words, map, at_state(0, 0), &mut [UNTOUCHED; TOO_FEW])
}

// Positions past a task's end or of an absent task, and a map slice that is too short.
fn spoilt_records(rt: &impl Print, words: &[u32], map: &[u8]) -> Result<()> {
    bid_line(rt, words, map, at_state(5, 0), 0)?;
    let absent = Record {
        positions: [0, 0, 1, 0, 0, 0, 0, 0],
        ..Record::fresh()
    };
    bid_line(rt, words, map, absent, 0)?;
    bid_line(rt, words, &[0, 0, 0], Record::fresh(), 0)?;
    Ok(())
}

// Bytes that no analysis of the set leaves: at the start, and at the start's next states, of ranks 1 and 5.
fn spoilt_maps(rt: &impl Print, words: &[u32]) -> Result<()> {
    let start = Record::fresh();
    let mut slice = [UNTOUCHED; ACTIONS];
    let mut map = [model::OPEN; GRID_OF_A];
    map[0] = model::UNSAFE;
    bid_line(rt, words, &map, start, 0)?;
    map[0] = NO_BYTE;
    route_line(rt, words, &map, start, &mut slice)?;
    map[0] = model::OPEN;
    map[1] = model::FORBIDDEN;
    map[5] = NO_BYTE;
    bid_line(rt, words, &map, start, 0)?;
    route_line(rt, words, &map, start, &mut slice)
}
