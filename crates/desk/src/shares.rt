// Fair shares on example a's set: example t, settings that are refused, counts that no service leaves, and what counts of another task's byte.
use crate::calls::{ACTIONS, NO_BYTE, at_state};
use crate::lines::{UNTOUCHED, again_line, route_line, settings, share_line, share_lines};
use crate::sets::GRID_OF_A;
use records::Record;
use std::io::Result;

// The smallest number over the largest setting, which is 0 in eight bits.
const OVER: u32 = model::MAX_SETTING + 1;

// The positions of both tasks' ends.
const END: u8 = 4;

// The record of the two tasks' positions with these counts of theirs, and one of a task that is absent.
fn counted(p: u8, q: u8, first: u8, second: u8, absent: u8) -> Record {
    Record {
        counts: [first, second, 0, 0, 0, 0, 0, absent],
        ..at_state(p, q)
    }
}

pub fn on_a(rt: &impl Print, words: &[u32], map: &[u8]) -> Result<()> {
    windows_of_two(rt, words, map)?;
    long_window(rt, words, map)?;
    refused_settings(rt, words, map)?;
    absent_counts(rt, words, map)?;
    full_counts(rt, words, map)?;
    other_bytes(rt, words)
}

// Example t, and two bids more: the other task goes on and closes the window, then the first has its share again.
fn windows_of_two(rt: &impl Print, words: &[u32], map: &[u8]) -> Result<()> {
    share_lines(rt, words, map, &[0, 1, 0, 1, 0, 0, 1, 0], settings(1, 2))
}

// In a long window the first task waits only until the other has had its share too.
fn long_window(rt: &impl Print, words: &[u32], map: &[u8]) -> Result<()> {
    let one_of_many = settings(1, model::MAX_SETTING);
    share_lines(rt, words, map, &[0, 0, 0, 0, 1, 0], one_of_many)
}

// 26 after 13 and before 16 and 17.
fn refused_settings(rt: &impl Print, words: &[u32], map: &[u8]) -> Result<()> {
    for (share, window) in [(0, 2), (1, 0), (OVER, 2), (1, OVER)] {
        share_line(rt, words, map, Record::fresh(), 0, settings(share, window))?;
    }
    let spoilt = counted(0, 0, 0, 0, 1);
    share_line(rt, words, map, spoilt, 2, settings(u32::MAX, u32::MAX))?;
    share_line(rt, words, &[0, 0, 0], spoilt, 2, settings(0, 0))?;
    Ok(())
}

// A count of an absent task: 16 for every call.
fn absent_counts(rt: &impl Print, words: &[u32], map: &[u8]) -> Result<()> {
    let at_start = counted(0, 0, 0, 0, 1);
    share_line(rt, words, map, at_start, 2, settings(1, 2))?;
    again_line(rt, words, counted(END, END, 0, 0, 1))?;
    route_line(rt, words, map, at_start, &mut [UNTOUCHED; ACTIONS])
}

// Counts that together are the window or more are 16 for a bid, one less isn't; a route doesn't look at them, and at the end an again clears them.
fn full_counts(rt: &impl Print, words: &[u32], map: &[u8]) -> Result<()> {
    let of_two = counted(0, 0, 1, 1, 0);
    let of_many = counted(0, 0, 255, 1, 0);
    share_line(rt, words, map, of_two, 2, settings(1, 2))?;
    share_line(rt, words, map, of_two, 2, settings(1, 3))?;
    share_line(rt, words, map, of_many, 0, settings(1, 255))?;
    again_line(rt, words, counted(END, END, 255, 1, 0))?;
    route_line(rt, words, map, of_many, &mut [UNTOUCHED; ACTIONS])
}

// Task 0 has had its share: it is spent if task 1 would be granted, and else granted, whatever keeps task 1 back. A byte that no map has refuses task 1 alone.
fn other_bytes(rt: &impl Print, words: &[u32]) -> Result<()> {
    let rec = counted(0, 0, 1, 0, 0);
    let one_of_three = settings(1, 3);
    let mut map = [model::OPEN; GRID_OF_A];
    share_line(rt, words, &map, rec, 0, one_of_three)?;
    map[1] = model::FORBIDDEN;
    share_line(rt, words, &map, rec, 0, one_of_three)?;
    map[1] = NO_BYTE;
    share_line(rt, words, &map, rec, 0, one_of_three)?;
    share_line(rt, words, &map, rec, 1, one_of_three)?;
    map[1] = model::OPEN;
    share_line(rt, words, &map, counted(0, END, 1, 0, 0), 0, one_of_three)?;
    share_line(rt, words, &map, counted(0, 0, 1, 1, 0), 0, one_of_three)?;
    Ok(())
}
