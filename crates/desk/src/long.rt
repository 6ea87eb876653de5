// The longest tasks: two of 254 actions pass, and with a third of 2 the grid is too large.
use crate::lines::{UNTOUCHED, analyse_line, read_line};
use std::io::Result;

// A task's actions, and its words: the task's own before them.
const ACTIONS: usize = 254;

const TASK_WORDS: usize = ACTIONS + 1;

// Where the set of two tasks ends, behind a device's word, and that of three.
const END_OF_TWO: usize = 1 + 2 * TASK_WORDS;

const WORDS_OF_TWO: usize = END_OF_TWO + 1;

const END_OF_THREE: usize = END_OF_TWO + 3;

const WORDS_OF_THREE: usize = END_OF_THREE + 1;

// The grid of two tasks: each has as many positions as words.
const GRID_OF_TWO: usize = TASK_WORDS * TASK_WORDS;

const ONE_LESS: usize = GRID_OF_TWO - 1;

// The word of a task at this place: its own, then claims and releases of device 0 in turn.
fn long_word(place: usize) -> u32 {
    if place == 0 {
        0x2000_0000
    } else if place % 2 == 1 {
        0x3000_0000
    } else {
        0x4000_0000
    }
}

// Long tasks from index 1 on, as far as the words go.
fn fill_long(words: &mut [u32]) {
    for (i, word) in words.iter_mut().skip(1).enumerate() {
        *word = long_word(i % TASK_WORDS);
    }
}

// Two tasks pass; no small plan slice holds their forbidden boxes if they exclude each other.
pub fn two_long(rt: &impl Print) -> Result<()> {
    let mut words = [0u32; WORDS_OF_TWO];
    fill_long(&mut words);
    words[0] = 0x1000_0002;
    words[END_OF_TWO] = 0x5000_01FF;
    read_line(rt, "two tasks of 254", &words)?;
    let mut map = [UNTOUCHED; GRID_OF_TWO];
    analyse_line(
        rt,
        "two tasks of 254, a map slice of 65024",
        &words,
        &mut map[..ONE_LESS],
    )?;
    analyse_line(
        rt,
        "two tasks of 254, a map slice of 65025",
        &words,
        &mut map,
    )?;
    words[0] = 0x1000_0001;
    analyse_line(rt, "two tasks of 254, capacity 1", &words, &mut map)
}

// A third of 2 is 12.
pub fn three_long(rt: &impl Print) -> Result<()> {
    let mut words = [0u32; WORDS_OF_THREE];
    fill_long(&mut words);
    words[0] = 0x1000_0002;
    words[END_OF_THREE] = 0x5000_0202;
    read_line(rt, "and a third of 2", &words)
}
